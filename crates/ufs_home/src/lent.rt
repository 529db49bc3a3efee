// All files that are at the primary are lent, and come back to their places.
ghost use Rattle.std.specs.Prelude.{ℕ, ◌≡◌, ◌+◌, ◌≤◌, ◌<◌, ◌^◌, [], eqb, true, IfOk, IsSome, None, OnErr, OnOk};
ghost use Rattle.std.specs.List.{list_any};
ghost use Rattle.std.specs.Vec.{vec_capacity, vec_len};
ghost use Rattle.ufs_home.specs.Lending.{AreAway, AreLent, put_all};
ghost use Rattle.ufs_home.specs.Places.{Places, file_here};
ghost use Rattle.ufs_joint.specs.Cells.{FileCell};
ghost use Rattle.ufs_hand_laws.specs.Owned.{Has};

use crate::at_home::AtHome;
use crate::shelf::Shelf;
use std::alloc::Global;
use ufs_base::Memory;
use ufs_held::HeldFile;
use ufs_joint::Naming;

/// Each file that is here. Where memory is wanting all is as it was.
pub(crate) fn lend_all<N: Naming>(
    shelf: &mut Shelf<N>,
    alloc: Global,
) -> Result<Vec<HeldFile<N>>, Memory>
    ensures lent { IfOk result (λ files. AreLent shelf.old shelf.new files.items) }
    ensures all { IfOk result (λ files. (file : ℕ) → IsSome (file_here shelf.old file) → (c : FileCell) × Has c files.items × (c.value.file.file ≡ file)) }
    ensures low { IfOk result (λ files. (c : FileCell) → Has c files.items → c.value.file.file < 2 ^ 31) }
    ensures kept { OnErr result (shelf.new ≡ shelf.old) }
{
    let numbers = shelf.numbers(alloc)?;
    let mut files = Vec::with_capacity(alloc, numbers.len())?;
    match lend_each(shelf, numbers, &mut files, alloc) {
        Ok(()) => Ok(files),
        Err(memory) => {
            put_back_all(shelf, files);
            Err(memory)
        }
    }
}

// Those of these numbers that are here, as far as there is memory. All that are here are among them.
fn lend_each<N: Naming>(
    shelf: &mut Shelf<N>,
    numbers: Vec<u32>,
    files: &mut Vec<HeldFile<N>>,
    alloc: Global,
) -> Result<(), Memory>
    requires all { (file : ℕ) → IsSome (file_here shelf.old file) → list_any (eqb file) numbers.items ≡ true }
    requires none { files.old.items ≡ [] }
    requires room { vec_len files.old + vec_len numbers ≤ vec_capacity files.old }
    ensures lent { AreLent shelf.old shelf.new files.new.items }
    ensures none { OnOk result ((file : ℕ) → file_here shelf.new file ≡ None) }
{
    for number in numbers {
        lend_next(shelf, number, files, alloc)?;
    }
    Ok(())
}

// The file of this number, if it is here, goes behind those that are lent.
fn lend_next<N: Naming>(
    shelf: &mut Shelf<N>,
    number: u32,
    files: &mut Vec<HeldFile<N>>,
    alloc: Global,
) -> Result<(), Memory>
    requires { vec_len files.old < vec_capacity files.old }
    ensures lent { (was : Places) → AreLent was shelf.old files.old.items → AreLent was shelf.new files.new.items }
    ensures away { OnOk result (file_here shelf.new number ≡ None) }
    ensures still { (other : ℕ) → IsSome (file_here shelf.new other) → IsSome (file_here shelf.old other) }
    ensures len { vec_len files.new ≤ vec_len files.old + 1 }
    ensures capacity { vec_capacity files.new ≡ vec_capacity files.old }
{
    if !shelf.has(number) {
        return Ok(());
    }
    let held = shelf.lend(number, alloc)?;
    files.push_reserved(held);
    Ok(())
}

/// Files that were lent go back, each to its place. Takes no memory.
pub(crate) fn put_back_all<N: Naming>(shelf: &mut Shelf<N>, files: Vec<HeldFile<N>>)
    requires { AreAway shelf.old files.items }
    ensures { shelf.new ≡ put_all shelf.old files.items }
{
    for held in files {
        shelf.fill(AtHome::of_held(held));
    }
}
