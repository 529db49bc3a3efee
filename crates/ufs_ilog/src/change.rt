ghost use Rattle.std.specs.Prelude.{◌≡◌, ◌<◌, ◌+◌, ◌≤◌, OnOk, IfOk, IsTrue, length};
ghost use Rattle.std.specs.List.{list_all, position_or_len};
ghost use Rattle.ufs_layout.specs.Records.{is_record};
ghost use Rattle.ufs_ilog.specs.Changes.{in_order, is_in_order, kind_order, may_follow, place_order, put_in_order};

use std::alloc::Global;
use ufs_base::Memory;
use ufs_layout::{LogRecord, Records};

/// One change of names: deltas by rising inode, dentry sets by rising sector and slot, frees by rising
/// inode, in this order.
#[derive(Drop)]
pub struct Change {
    pub records: Records,
}

impl Change {
    /// Of records in any order. Two of one slot stay in theirs.
    pub fn in_order(alloc: Global, records: Vec<LogRecord>) -> Result<Change, Memory>
        requires form { IsTrue (list_all is_record records.items) }
        ensures records { IfOk result (λ c. c.records ≡ in_order records.items) }
        ensures form { IfOk result (λ c. IsTrue (list_all is_record c.records)) }
        ensures order { IfOk result (λ c. IsTrue (is_in_order c.records)) }
    {
        let mut records = records;
        let count = records.len();
        let mut ordered = Vec::with_capacity(alloc, count)?;
        for done in 0..count {
            // For the prover alone.
            let _ = done;
            let Some(last) = records.pop() else {
                unreachable!()
            };
            put_in_order(&mut ordered, last)?;
        }
        Ok(Change {
            records: Records::from_vec(ordered),
        })
    }
}

// Puts the record before the first that may follow it.
fn put_in_order(records: &mut Vec<LogRecord>, added: LogRecord) -> Result<(), Memory>
    ensures { OnOk result (records.new.items ≡ put_in_order added records.old.items) }
{
    let at = place_for(records.as_slice(), &added);
    records.insert(at, added)?;
    Ok(())
}

// How many records come before the first that may follow this one.
fn place_for(records: &[LogRecord], added: &LogRecord) -> usize
    ensures place { result ≡ position_or_len (may_follow added.now) records.now }
    ensures inside { result ≤ length records.now }
{
    for (at, other) in records.iter().enumerate() {
        if may_follow(added, other) {
            return at;
        }
    }
    records.len()
}

fn may_follow(first: &LogRecord, next: &LogRecord) -> bool
    ensures { result ≡ may_follow first.now next.now }
{
    let (one, other) = (kind_order(first), kind_order(next));
    one < other || one == other && place_order(first) <= place_order(next)
}

fn kind_order(told: &LogRecord) -> u8
    ensures { result ≡ kind_order told.now }
{
    match told {
        LogRecord::Delta { .. } => 0,
        LogRecord::Place { .. } => 1,
        LogRecord::Free { .. } => 2,
    }
}

fn place_order(told: &LogRecord) -> u64
    ensures { result ≡ place_order told.now }
{
    match told {
        LogRecord::Delta { inode, .. } => u64::from(*inode),
        LogRecord::Place { sector, slot, .. } => 8 * u64::from(*sector) + u64::from(*slot),
        LogRecord::Free { inode } => u64::from(*inode),
    }
}
