ghost use Rattle.std.specs.Prelude.{◌≡◌, ◌+◌, ◌≤◌, ◌↔◌, [], ◌∷◌, length, All, IfOk, IfSome, IsNone, IsTrue};
ghost use Rattle.std.specs.Vec.{vec_capacity};
ghost use Rattle.std.specs.List.{list_all};
ghost use Rattle.ufs_extent.specs.declared.Run.{Run};
ghost use Rattle.ufs_extent.specs.Runs.{IsRun};
ghost use Rattle.ufs_layout.specs.declared.records.LogRecord.TheVariants.{Delta};
ghost use Rattle.ufs_layout.specs.Records.{is_record};
ghost use Rattle.ufs_ilog.specs.Deltas.{FileLog, IsDelta, IsSharedFront, extents_of, fresh_log};

use std::alloc::Global;
use std::marker::Model;
use ufs_base::{MAX_EXTENTS, Memory};
use ufs_extent::{Extents, Run};
use ufs_layout::{Extent, ExtentList, LogRecord, Records};

// The kind of a file's inode.
const FILE: u8 = 1;

/// What changed of a file since its last commit. Contracts see the state as committed last and the
/// state as noted last.
#[derive(Drop)]
pub struct InodeLog {
    alloc: Global,
    inode: u32,
    // Whether anything was noted since the last commit. Where nothing was, `committed` isn't read.
    is_noted: bool,
    committed: Vec<Run>,
    committed_size: u64,
    noted: Vec<Run>,
    noted_size: u64,
}

impl Model for InodeLog {
    ghost use Rattle.std.specs.Prelude.{◌≤◌, length, All, if◌then◌else◌};
    ghost use Rattle.std.specs.Vec.{vec_capacity};
    ghost use Rattle.ufs_extent.specs.Runs.{IsRun};
    ghost use Rattle.ufs_ilog.specs.Deltas.{FileLog};

    ghost Value = { FileLog };

    ghost view = { λ l. record {
      inode = l.inode;
      committed = record { runs = if l.is_noted then l.committed.items else l.noted.items; size = l.committed_size };
      noted = record { runs = l.noted.items; size = l.noted_size };
    } };

    ghost invariant = { λ l. (56 ≤ vec_capacity l.committed) × (length l.committed.items ≤ 56) × (56 ≤ vec_capacity l.noted) × (length l.noted.items ≤ 56) × All IsRun l.noted.items };
}

impl InodeLog {
    /// The log of a file whose inode has this state, with nothing to commit. All memory that later
    /// notes need is taken here.
    pub fn make(alloc: Global, inode: u32, extents: &Extents, size: u64) -> Result<InodeLog, Memory>
        ensures { IfOk result (λ l. l ≡ fresh_log inode extents.now size) }
    {
        let committed = Vec::with_capacity(alloc, MAX_EXTENTS)?;
        let mut noted = Vec::with_capacity(alloc, MAX_EXTENTS)?;
        noted.extend_from_slice(extents.as_slice())?;
        Ok(InodeLog {
            alloc,
            inode,
            is_noted: false,
            committed,
            committed_size: size,
            noted,
            noted_size: size,
        })
    }

    /// Notes that the file went from `before`, the runs that were noted last, to `after`, with this
    /// size in bytes. Takes no memory.
    pub fn note(&mut self, before: &Extents, after: &Extents, size: u64)
        requires { before.now ≡ self.old.noted.runs }
        ensures { self.new ≡ record self.old { noted = record { runs = after.now; size = size } } }
    {
        if !self.is_noted {
            replace_all(&mut self.committed, before.as_slice());
            self.is_noted = true;
        }
        replace_all(&mut self.noted, after.as_slice());
        self.noted_size = size;
    }

    /// The delta from the state committed last to the one noted last, which keeps the longest front of
    /// extents that both have.
    pub fn delta(&self) -> Result<Option<Records>, Memory>
        ensures none { IfOk result (λ found. IsNone found ↔ (self.now.noted ≡ self.now.committed)) }
        ensures delta { IfOk result (λ found. IfSome found (IsDelta self.now.inode self.now.committed self.now.noted)) }
        ensures form { IfOk result (λ found. IfSome found (λ records. IsTrue (list_all is_record records))) }
    {
        let committed = self.committed_runs();
        let noted = self.noted.as_slice();
        let keep = shared_front(committed, noted);
        if keep == committed.len()
            && keep == noted.len()
            && self.committed_size == self.noted_size
        {
            return Ok(None);
        }
        let records = file_delta(
            self.alloc,
            self.inode,
            self.noted_size,
            keep,
            &noted[keep..],
        )?;
        Ok(Some(records))
    }

    /// What was noted is committed. Takes no memory.
    pub fn cleared(&mut self)
        ensures { self.new ≡ record self.old { committed = self.old.noted } }
    {
        self.is_noted = false;
        self.committed_size = self.noted_size;
    }

    fn committed_runs(&self) -> &[Run]
        ensures { result.now ≡ self.now.committed.runs }
    {
        if self.is_noted {
            self.committed.as_slice()
        } else {
            self.noted.as_slice()
        }
    }
}

// Puts other runs in place of those in the list, which has room for them.
fn replace_all(list: &mut Vec<Run>, runs: &[Run])
    requires room { 56 ≤ vec_capacity list.old }
    requires few { length runs.now ≤ 56 }
    ensures items { list.new.items ≡ runs.now }
    ensures room { 56 ≤ vec_capacity list.new }
{
    list.clear();
    list.extend_from_slice(runs).unwrap();
}

// How many runs the longest front has that both lists share.
fn shared_front(one: &[Run], other: &[Run]) -> usize
    ensures { IsSharedFront one.now other.now result }
{
    let most = one.len().min(other.len());
    for at in 0..most {
        if one[at] != other[at] {
            return at;
        }
    }
    most
}

// The delta of a file that keeps so many extents and has these behind them.
fn file_delta(
    alloc: Global,
    inode: u32,
    size: u64,
    keep: usize,
    given: &[Run],
) -> Result<Records, Memory>
    requires few { keep + length given.now ≤ 56 }
    requires runs { All IsRun given.now }
    ensures value { IfOk result (λ records. records ≡ Delta inode 1 size keep (extents_of given.now) ∷ []) }
    ensures form { IfOk result (λ records. IsTrue (list_all is_record records)) }
{
    let mut records = Vec::with_capacity(alloc, 1)?;
    records.push(LogRecord::Delta {
        inode,
        kind: FILE,
        size,
        keep: keep as u8,
        extents: extents_from(alloc, given)?,
    })?;
    Ok(Records::from_vec(records))
}

/// The runs as a record has them.
pub fn extents_from(alloc: Global, runs: &[Run]) -> Result<ExtentList, Memory>
    ensures { IfOk result (λ list. list ≡ extents_of runs.now) }
{
    let mut extents = Vec::with_capacity(alloc, runs.len())?;
    for run in runs {
        extents.push(Extent {
            start: run.start,
            length: run.length,
        })?;
    }
    Ok(ExtentList::from_vec(extents))
}
