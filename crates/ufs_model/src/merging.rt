ghost use Rattle.std.specs.Prelude.{◌≡◌, ◌++◌, OnOk, IfOk};
ghost use Rattle.std.specs.List.Sorted.{IsPermutation};
ghost use Rattle.ufs_model.specs.History.{DoTicketsRise, AreTicketsOnce, joined};

use crate::data::Entry;
use crate::lists::EntryList;
use std::alloc::Global;
use ufs_base::Memory;

// Adds copies of a list's entries.
fn push_copies(alloc: Global, all: &mut Vec<Entry>, list: &EntryList) -> Result<(), Memory>
    ensures { OnOk result (all.new.items ≡ all.old.items ++ list.now) }
{
    for entry in list.as_slice() {
        all.push(entry.copy(alloc)?)?;
    }
    Ok(())
}

/// All entries of the lists, by rising ticket. It takes as much memory as they have, and time n log n.
pub fn merge(alloc: Global, lists: &Vec<EntryList>) -> Result<EntryList, Memory>
    requires once { AreTicketsOnce (joined lists.now.items) }
    ensures all { IfOk result (λ merged. IsPermutation (joined lists.now.items) merged) }
    ensures rising { IfOk result (λ merged. DoTicketsRise merged) }
{
    let mut all = Vec::new(alloc);
    for list in lists.iter() {
        push_copies(alloc, &mut all, list)?;
    }
    all.sort_by_key(|entry| entry.ticket)?;
    Ok(EntryList::from_vec(all))
}
