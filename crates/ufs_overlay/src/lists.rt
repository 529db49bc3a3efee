ghost use Rattle.std.specs.Prelude.{◌≡◌, ◌≢◌, ◌≤◌, ◌<◌, ◌+◌, ◌*◌, ℕ, [], length, max, OnOk, OnErr, IfSome, IfNone};
ghost use Rattle.std.specs.Vec.{vec_len, vec_capacity};
ghost use Rattle.ufs_overlay.specs.Lists.{lists_of, room_in, with_more, without_last};

use std::alloc::Global;
use std::collections::BTreeMap;
use ufs_base::Memory;
use ufs_layout::LogRecord;

/// A record, and the commit number of its transaction.
#[derive(Drop)]
pub struct Numbered {
    pub number: u64,
    pub change: LogRecord,
}

/// The records of each sector, in their order.
#[derive(Drop)]
pub struct SectorLists {
    alloc: Global,
    lists: BTreeMap<u32, Vec<Numbered>>,
}

impl SectorLists {
    /// No record. Takes no memory.
    pub fn new(alloc: Global) -> Self
        ensures none { (k : ℕ) → lists_of result k ≡ [] }
        ensures room { (k : ℕ) → room_in result k ≡ 0 }
    {
        SectorLists {
            alloc,
            lists: BTreeMap::new(alloc),
        }
    }

    /// The records of one sector.
    pub fn at(&self, sector: u32) -> &[Numbered]
        ensures { result.now ≡ lists_of self.now sector }
    {
        match self.lists.get(&sector) {
            Some(list) => list.as_slice(),
            None => &[],
        }
    }

    /// The lowest sector, from this one on, that may have records.
    pub fn next_from(&self, from: u32) -> Option<u32>
        ensures within { IfSome result (λ sector. from ≤ sector) }
        ensures least { IfSome result (λ sector. (k : ℕ) → from ≤ k → k < sector → lists_of self.now k ≡ []) }
        ensures none { IfNone result ((k : ℕ) → from ≤ k → lists_of self.now k ≡ []) }
    {
        match self.lists.range(from..).next() {
            Some((sector, _)) => Some(*sector),
            None => None,
        }
    }

    /// The record goes behind the others of its sector.
    pub fn push(&mut self, sector: u32, numbered: Numbered) -> Result<(), Memory>
        ensures ok { OnOk result ((k : ℕ) → lists_of self.new k ≡ with_more sector numbered (lists_of self.old) k) }
        ensures err { OnErr result ((k : ℕ) → lists_of self.new k ≡ lists_of self.old k) }

        // A list that is full gets room for at most twice as many.
        ensures room { (k : ℕ) → room_in self.new k ≤ max (room_in self.old k) (2 * length (lists_of self.old k) + 1) }
    {
        if let Some(list) = self.lists.get_mut(&sector) {
            make_room(list)?;
            list.push_reserved(numbered);
            return Ok(());
        }
        let mut only = Vec::with_capacity(self.alloc, 1)?;
        only.push_reserved(numbered);
        self.lists.insert(sector, only)?;
        Ok(())
    }

    /// Takes the last record of a sector out.
    pub fn pop(&mut self, sector: u32)
        ensures without { (k : ℕ) → lists_of self.new k ≡ without_last sector (lists_of self.old) k }
        ensures room { (k : ℕ) → room_in self.new k ≡ room_in self.old k }
    {
        if let Some(list) = self.lists.get_mut(&sector) {
            let _last = list.pop();
        }
    }
}

// Room for one record more, and for no more than as many again.
fn make_room(list: &mut Vec<Numbered>) -> Result<(), Memory>
    ensures items { list.new.items ≡ list.old.items }
    ensures ok { OnOk result (vec_len list.new < vec_capacity list.new) }
    ensures most { vec_capacity list.new ≤ max (vec_capacity list.old) (2 * length list.old.items + 1) }
{
    let count = list.len();
    if count == list.capacity() {
        list.reserve_exact(count + 1)?;
    }
    Ok(())
}
