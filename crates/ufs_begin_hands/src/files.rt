// The files of an image, each with what is known of its commits.
ghost use Rattle.std.specs.Prelude.{ℕ, ◌≡◌, ◌≢◌, Some, IfOk, IsSome, map};
ghost use Rattle.std.specs.FinMap as fin;
ghost use Rattle.ufs_begin_hands.specs.Values.{value_of, values_first};
ghost use Rattle.ufs_promise_laws.specs.Parts.{committed_as};

use std::alloc::Global;
use ufs_base::Memory;
use ufs_file::FileHand;
use ufs_file_commits::FileCommits;
use ufs_files::FileHands;
use ufs_noted::KnownFile;

// The files of these numbers, which are all that there are.
pub(crate) fn known_files(
    alloc: Global,
    mut files: FileHands,
    numbers: &[u32],
) -> Result<Vec<KnownFile>, Memory>
    requires { numbers.now ≡ fin.keys files }
    ensures { IfOk result (λ known. map value_of known.items ≡ values_first files) }
{
    let mut known = Vec::new(alloc);
    for file in numbers {
        known.push(known_file(alloc, &mut files, *file)?)?;
    }
    Ok(known)
}

// One of them. An empty one stands in its place then.
fn known_file(alloc: Global, files: &mut FileHands, file: u32) -> Result<KnownFile, Memory>
    requires { IsSome (fin.get files.old file) }
    ensures hand { IfOk result (λ known. fin.get files.old file ≡ Some known.hand) }
    ensures commits { IfOk result (λ known. known.commits ≡ committed_as known.hand) }
    ensures others { (other : ℕ) → other ≢ file → fin.get files.new other ≡ fin.get files.old other }
{
    let empty = FileHand::make(alloc, file, 0)?;
    let Ok(Some(hand)) = files.replace(file, empty) else {
        unreachable!()
    };
    let commits = FileCommits::make(alloc, &hand)?;
    Ok(KnownFile { hand, commits })
}
