// How large the files of a session are.
ghost use Rattle.std.specs.Prelude.{◌≡◌, sum_by};
ghost use Rattle.ufs_gathered.specs.Ended.{size_of_cell};

use ufs_held::HeldFile;
use ufs_joint::Naming;

// How large these are together. Takes no memory.
pub(crate) fn length_of<N: Naming>(files: &[HeldFile<N>]) -> u128
    ensures { result ≡ sum_by size_of_cell files.now }
{
    let mut total = 0u128;
    for file in files {
        total += u128::from(file.len());
    }
    total
}
