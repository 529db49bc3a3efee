ghost use Rattle.std.specs.Prelude.{ℕ, List, ◌≡◌, ◌≢◌, ◌+◌, ◌⊎◌, ◌↔◌, [], length, IsTrue, false, true, None, Some, Ok, Err, OnOk, OnErr, IfOk, IfErr};
ghost use Rattle.std.specs.FinSet as set;
ghost use Rattle.ufs_bitmap.specs.Blocks.{BlockSet};
ghost use Rattle.ufs_bitmap.specs.Taking.{IsApart, set_of};
ghost use Rattle.ufs_base.specs.declared.lack.Lack.{Lack};
ghost use Rattle.ufs_disk.specs.Moments.{LeavesOnly, Moments};
ghost use Rattle.ufs_extent.specs.Runs.{blocks_of};
ghost use Rattle.ufs_ilog.specs.Deltas.{IsDelta, fresh_log};
ghost use Rattle.ufs_layout.specs.Areas.{is_inode_number};
ghost use Rattle.ufs_layout.specs.declared.records.LogRecord.{LogRecord};
ghost use Rattle.ufs_ledger.specs.Changes.{settled};
ghost use Rattle.ufs_ledger.specs.Ledger.{IsLedgerOf, IsLeftBy, Ledger};
ghost use Rattle.ufs_store.specs.Ends.{IsLackOf};
ghost use Rattle.ufs_store.specs.Blocks.{MayReturn};
ghost use Rattle.ufs_store.specs.Ledgers.{HasAny, HasLedger, IsLeftByAny, MayCommitNext, after_commit, checkpointed, stages};
ghost use Rattle.ufs_store.specs.Numbers.{HasRaised};
ghost use Rattle.ufs_store.specs.Refusals.{IsTold, fault_in, is_no_space, stop_after};
ghost use Rattle.ufs_store.specs.State.{geometry_of_store, last_commit};
ghost use Rattle.ufs_store.specs.declared.fault.StoreFault.TheVariants as refusal;
ghost use Rattle.ufs_file_commits.specs.Stamping.{MayLeaveSynced};
ghost use Rattle.ufs_file_commits.specs.State.{IsNoted, file_committed, state_of};
ghost use Rattle.ufs_file_commits.specs.Writes.{AreDataBlocks, HasCommitted, HasTriedOne, MayWriteAll, at_moments, with_writes, writes_of};

use crate::writes::write_dirty;
use std::alloc::Global;
use std::marker::Model;
use std::mem;
use ufs_base::Memory;
use ufs_extent::{Extents, Runs};
use ufs_file::FileHand;
use ufs_ilog::InodeLog;
use ufs_store::{Door, StoreFault};

/// What is known of a file's commits: what of it is committed, and the blocks that it dropped since its
/// last commit. Those are nobody's until the commit that drops them: a crash may still give them to this file.
#[derive(Drop)]
pub struct FileCommits {
    pub(crate) alloc: Global,
    pub(crate) log: InodeLog,
    pub(crate) dropped: Runs,
}

impl Model for FileCommits {
    ghost use Rattle.ufs_file_commits.specs.State.{CommitState};

    ghost Value = { CommitState };

    ghost view = { λ c. record { log = c.log; dropped = c.dropped } };
}

impl FileCommits {
    /// Those of a file that is committed as it is here, but for what is dirty.
    pub fn make(alloc: Global, hand: &FileHand) -> Result<FileCommits, Memory>
        ensures fresh { IfOk result (λ c. c ≡ record { log = fresh_log hand.now.inode hand.now.extents (length hand.now.content.bytes); dropped = [] }) }
        ensures noted { IsApart (set.empty) (blocks_of hand.now.extents) → IfOk result (λ c. IsNoted (state_of hand.now c)) }
    {
        // For the prover alone.
        let _marks = hand.block_count();
        let _written = hand.dirty_places();
        let log = InodeLog::make(alloc, hand.inode(), hand.extent_list(), hand.size())?;
        Ok(FileCommits {
            alloc,
            log,
            dropped: Runs::new(alloc),
        })
    }

    /// The blocks that the file dropped since its last commit.
    pub fn dropped(&self) -> &Runs
        ensures { result.now ≡ self.now.dropped }
    {
        &self.dropped
    }

    /// Notes that the file, which had these runs, has no byte any more. What becomes of its blocks is the caller's matter.
    /// Takes no memory.
    pub fn note_emptied(&mut self, before: &Extents, none: &Extents)
        requires before { before.now ≡ self.old.log.noted.runs }
        requires none { none.now ≡ [] }
        ensures { self.new ≡ record self.old { log = record (self.old.log) { noted = record { runs = []; size = 0 } } } }
    {
        self.log.note(before, none, 0);
    }
}

/// Writes each dirty block, in the order of the file, and commits what changed of its inode, by which the
/// blocks that it dropped become unassigned. Answers the number of the last commit. Where nothing was
/// written since the last one, no call of the disk is made.
pub fn fsync<D: Door>(
    door: &mut D,
    hand: &mut FileHand,
    commits: &mut FileCommits,
) -> Result<u64, StoreFault>
    requires noted { IsNoted (state_of hand.old commits.old) }
    requires inode { is_inode_number (geometry_of_store (D.store door.old)) hand.old.inode ≡ true }
    requires blocks { AreDataBlocks (geometry_of_store (D.store door.old)) (blocks_of hand.old.extents) }
    requires dropped { MayReturn (D.store door.old).unassigned commits.old.dropped }
    requires stamped { D.stamps → (D.store door.old).stop ≡ None → MayLeaveSynced D.allows (D.store door.old) (state_of hand.old commits.old) }
    ensures crash { IsTrue D.visible → (records : List LogRecord) → IsDelta commits.old.log.inode commits.old.log.committed commits.old.log.noted records → commits.old.log.noted ≢ commits.old.log.committed
        → (l : Ledger) → HasLedger (D.store door.old) l → MayWriteAll l (writes_of hand.old) → MayCommitNext (D.store door.old) records l
        → (between : Moments) × LeavesOnly D.keeps (IsLeftByAny (D.store door.old).sectors (stages (at_moments between (D.store door.old)) records (with_writes (writes_of hand.old) l))) (D.store door.old).moments (D.store door.new).moments }
    ensures ok { IsTrue D.visible → (records : List LogRecord) → IsDelta commits.old.log.inode commits.old.log.committed commits.old.log.noted records → commits.old.log.noted ≢ commits.old.log.committed
        → OnOk result ((l : Ledger) → HasLedger (D.store door.old) l → MayWriteAll l (writes_of hand.old) → MayCommitNext (D.store door.old) records l
        → HasCommitted (D.store door.old) (D.store door.new) records (with_writes (writes_of hand.old) l)) }
    ensures device { IsTrue D.visible → (records : List LogRecord) → IsDelta commits.old.log.inode commits.old.log.committed commits.old.log.noted records → commits.old.log.noted ≢ commits.old.log.committed
        → (fault : ℕ) → result ≡ Err (refusal.Device fault) → (l : Ledger) → HasLedger (D.store door.old) l → MayWriteAll l (writes_of hand.old) → MayCommitNext (D.store door.old) records l
        → HasTriedOne (D.store door.new) (writes_of hand.old) l ⊎ ((between : Moments) × HasAny (D.store door.new) (stages (at_moments between (D.store door.old)) records (with_writes (writes_of hand.old) l))) }
    ensures lack { (w : Lack) → result ≡ Err (refusal.Lack w) → IsLackOf (D.store door.old) w }
    ensures memory { IsTrue D.visible → (w : Lack) → result ≡ Err (refusal.Lack w) → (l : Ledger) → HasLedger (D.store door.old) l → MayWriteAll l (writes_of hand.old)
        → HasLedger (D.store door.new) (with_writes (writes_of hand.old) l) ⊎ ((between : Moments) × HasLedger (D.store door.new) (checkpointed (at_moments between (D.store door.old)) (with_writes (writes_of hand.old) l))) }

    // With nothing to commit but bytes.
    ensures empty_crash { IsTrue D.visible → commits.old.log.noted ≡ commits.old.log.committed → (l : Ledger) → HasLedger (D.store door.old) l → MayWriteAll l (writes_of hand.old)
        → LeavesOnly D.keeps (IsLeftBy (D.store door.old).sectors (with_writes (writes_of hand.old) l)) (D.store door.old).moments (D.store door.new).moments }
    ensures empty_ok { IsTrue D.visible → commits.old.log.noted ≡ commits.old.log.committed
        → OnOk result ((l : Ledger) → HasLedger (D.store door.old) l → MayWriteAll l (writes_of hand.old) → HasLedger (D.store door.new) (settled (with_writes (writes_of hand.old) l))) }
    ensures empty_device { IsTrue D.visible → commits.old.log.noted ≡ commits.old.log.committed
        → OnErr result ((l : Ledger) → HasLedger (D.store door.old) l → MayWriteAll l (writes_of hand.old)
        → HasTriedOne (D.store door.new) (writes_of hand.old) l ⊎ IsLedgerOf (D.store door.new).sectors (D.store door.new).moments.state (with_writes (writes_of hand.old) l)) }
    ensures nothing { commits.old.log.noted ≡ commits.old.log.committed → writes_of hand.old ≡ [] → (D.store door.old).unsettled ≡ false
        → ((D.store door.new).moments ≡ (D.store door.old).moments) × ((D.store door.new).faults ≡ (D.store door.old).faults) }
    ensures number { IfOk result (λ number. number ≡ last_commit (D.store door.new)) }
    ensures rises { commits.old.log.noted ≢ commits.old.log.committed → OnOk result (last_commit (D.store door.new) ≡ last_commit (D.store door.old) + 1) }
    ensures stays { commits.old.log.noted ≡ commits.old.log.committed → last_commit (D.store door.new) ≡ last_commit (D.store door.old) }
    ensures raised { HasRaised 1 1 (D.store door.old) (D.store door.new) }
    ensures committed { OnOk result (state_of hand.new commits.new ≡ file_committed (state_of hand.old commits.old)) }
    ensures kept { OnErr result (state_of hand.new commits.new ≡ state_of hand.old commits.old) }
    ensures freed { OnOk result ((D.store door.new).unassigned ≡ record ((D.store door.old).unassigned) { free = set.union (D.store door.old).unassigned.free (set_of commits.old.dropped) }) }
    ensures unfreed { OnErr result ((D.store door.new).unassigned ≡ (D.store door.old).unassigned) }
    ensures geometry { geometry_of_store (D.store door.new) ≡ geometry_of_store (D.store door.old) }
    ensures sectors { (D.store door.new).sectors ≡ (D.store door.old).sectors }
    ensures stopped { (fault : ℕ) → (result ≡ Err (refusal.Stopped fault)) ↔ ((D.store door.old).stop ≡ Some fault) }
    ensures still { (fault : ℕ) → (D.store door.old).stop ≡ Some fault → D.store door.new ≡ D.store door.old }
    ensures cause { IsTold (D.store door.old).faults (D.store door.new).faults (fault_in result) }
    ensures stop { (D.store door.new).stop ≡ stop_after (D.store door.old).stop (fault_in result) }
    ensures refused { IfErr result (λ fault. is_no_space fault ≡ false) }
    ensures noted { IsNoted (state_of hand.new commits.new) }
{
    if let Err(fault) = write_dirty(hand, door) {
        return Err(fault);
    }
    let dropped = mem::replace(&mut commits.dropped, Runs::new(commits.alloc));
    match door.commit_file(&mut commits.log, dropped) {
        Ok(number) => {
            hand.clean();
            Ok(number)
        }
        Err(refused) => {
            commits.dropped = refused.freed;
            Err(refused.fault)
        }
    }
}
