// A file is synced by the store alone.
ghost use Rattle.std.specs.Prelude.{ℕ, ◌≡◌, ◌<◌, ◌-◌, ◌^◌, ◌⊎◌, true, false, Err, None, Some, IfErr, IsTrue, OnOk};
ghost use Rattle.std.specs.FinSet as set;
ghost use Rattle.ufs_extent.specs.Runs.{blocks_of};
ghost use Rattle.ufs_layout.specs.Areas.{is_inode_number};
ghost use Rattle.ufs_file_commits.specs.State.{IsNoted, state_of};
ghost use Rattle.ufs_file_commits.specs.Writes.{AreDataBlocks};
ghost use Rattle.ufs_ledger.specs.Ledger.{Ledger};
ghost use Rattle.ufs_store.specs.Blocks.{MayReturn};
ghost use Rattle.ufs_store.specs.Ledgers.{HasLedger, checkpointed};
ghost use Rattle.ufs_store.specs.Refusals.{fault_in, fault_of, is_no_space, stop_after};
ghost use Rattle.ufs_store.specs.State.{geometry_of_store};
ghost use Rattle.ufs_store.specs.declared.fault.StoreFault.{StoreFault};
ghost use Rattle.ufs_store.specs.declared.fault.StoreFault.TheVariants as refusal;
ghost use Rattle.ufs_turns.specs.Lent.{HasRun};
ghost use Rattle.ufs_turns.specs.Syncs.{HasMade, HasPassed, HasNotPassed};

use ufs_file::FileHand;
use ufs_file_commits::{FileCommits, fitting_law, fsync};
use ufs_store::{Door, StoreFault};

// What `fsync` tells, all together.
pub(crate) fn sync_store<D: Door>(
    store: &mut D,
    file: &mut FileHand,
    commits: &mut FileCommits,
) -> Result<u64, StoreFault>
    requires plain { D.stamps → ⊥ }
    requires noted { IsNoted (state_of file.old commits.old) }
    requires inode { is_inode_number (geometry_of_store (D.store store.old)) file.old.inode ≡ true }
    requires blocks { AreDataBlocks (geometry_of_store (D.store store.old)) (blocks_of file.old.extents) }
    requires dropped { MayReturn (D.store store.old).unassigned commits.old.dropped }
    ensures ok { OnOk result (HasPassed D.visible D.keeps (D.store store.old) (D.store store.new) (state_of file.old commits.old) (state_of file.new commits.new)) }
    ensures err { (fault : StoreFault) → result ≡ Err fault → HasNotPassed D.visible D.keeps (D.store store.old) (D.store store.new) (state_of file.old commits.old) (state_of file.new commits.new) (fault_of fault) }
    ensures ran { HasRun (fault_in result) 1 1 (D.store store.old) (D.store store.new) }
    ensures stopped { (fault : ℕ) → result ≡ Err (refusal.Stopped fault) → (D.store store.new).stop ≡ Some fault }
    ensures halts { (D.store store.new).stop ≡ stop_after (D.store store.old).stop (fault_in result) }
    ensures halted { (fault : ℕ) → (D.store store.old).stop ≡ Some fault → result ≡ Err (refusal.Stopped fault) }
    ensures refused { IfErr result (λ fault. is_no_space fault ≡ false) }
{
    fitting_law(file);
    match fsync(store, file, commits) {
        Ok(number) => Ok(number),
        Err(fault) => Err(fault),
    }
}

// What `checkpoint` tells, all together.
pub(crate) fn checkpoint_store<D: Door>(store: &mut D) -> Result<(), StoreFault>
    requires plain { D.stamps → ⊥ }
    ensures made { HasMade D.visible D.keeps (D.store store.old) (D.store store.new) (fault_in result) }
    ensures ok { IsTrue D.visible → OnOk result ((l : Ledger) → HasLedger (D.store store.old) l → HasLedger (D.store store.new) (checkpointed (D.store store.old) l)) }
    ensures room { OnOk result ((D.store store.new).journal.used ≡ 0) }
    ensures ran { HasRun (fault_in result) 1 0 (D.store store.old) (D.store store.new) }
    ensures stopped { (fault : ℕ) → result ≡ Err (refusal.Stopped fault) → (D.store store.new).stop ≡ Some fault }
    ensures halts { (D.store store.new).stop ≡ stop_after (D.store store.old).stop (fault_in result) }
    ensures halted { (fault : ℕ) → (D.store store.old).stop ≡ Some fault → result ≡ Err (refusal.Stopped fault) }
    ensures refused { IfErr result (λ fault. is_no_space fault ≡ false) }
{
    store.checkpoint()
}

// The fault that a call told, if it failed.
pub(crate) fn told_by(read: &Result<(), StoreFault>) -> Option<u64>
    ensures some { (n : ℕ) → result ≡ Some n → (fault_in read.now ≡ Some n) × (n < 2 ^ 64 - 1) }
    ensures none { result ≡ None → (fault_in read.now ≡ None) ⊎ (fault_in read.now ≡ Some (2 ^ 64 - 1)) }
{
    match read {
        Ok(()) => None,
        Err(fault) => told_of(fault),
    }
}

// The fault that a refusal tells.
pub(crate) fn told_of(fault: &StoreFault) -> Option<u64>
    ensures some { (n : ℕ) → result ≡ Some n → (fault_of fault.now ≡ Some n) × (n < 2 ^ 64 - 1) }
    ensures none { result ≡ None → (fault_of fault.now ≡ None) ⊎ (fault_of fault.now ≡ Some (2 ^ 64 - 1)) }
{
    match fault {
        StoreFault::Device { fault } if *fault < u64::MAX => Some(*fault),
        _ => None,
    }
}
