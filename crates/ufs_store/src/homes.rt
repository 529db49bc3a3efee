ghost use Rattle.std.specs.Prelude.{ℕ, ◌≡◌, ◌≤◌, ◌∷◌, [], IsTrue, false, None, Some, Err, OnOk, OnErr, IfErr, ◌-◌, ◌^◌};
ghost use Rattle.ufs_base.specs.declared.lack.Lack.{Lack};
ghost use Rattle.ufs_base.specs.declared.lack.Lack.TheVariants.{AtEnd};
ghost use Rattle.ufs_disk.specs.Moments.{LeavesOnly};
ghost use Rattle.ufs_layout.specs.Areas.{sector_count};
ghost use Rattle.ufs_ledger.specs.Ledger.{Ledger};
ghost use Rattle.ufs_store.specs.Ends.{IsLackOf};
ghost use Rattle.ufs_store.specs.Ledgers.{HasAny, HasLedger, IsLeftByAny, beginning_next, checkpointed};
ghost use Rattle.ufs_store.specs.Numbers.{HasRaised};
ghost use Rattle.ufs_store.specs.Refusals.{IsTold, fault_in, is_own};
ghost use Rattle.ufs_store.specs.State.{next_superblock};
ghost use Rattle.ufs_store.specs.Tables.{state_of};
ghost use Rattle.ufs_store.specs.declared.fault.StoreFault.TheVariants as refusal;

use crate::StoreFault;
use crate::tables::{Tables, stop_at};
use ufs_base::Lack;
use ufs_disk::Disk;
use ufs_ledger::checkpoint;

/// Writes home all that is committed and begins the next epoch.
pub(crate) fn begin_next<D: Disk>(tables: &mut Tables, disk: &mut D) -> Result<(), StoreFault>
    requires going { tables.old.stop ≡ None }
    requires large { sector_count tables.old.journal.geometry ≤ D.size disk.old }
    ensures crash { IsTrue D.visible → (l : Ledger) → HasLedger (state_of (D.size disk.old) (D.moments disk.old) (D.faults disk.old) tables.old) l
        → LeavesOnly D.keeps (IsLeftByAny (D.size disk.old) (l ∷ beginning_next (state_of (D.size disk.old) (D.moments disk.old) (D.faults disk.old) tables.old) l ∷ [])) (D.moments disk.old) (D.moments disk.new) }
    ensures ok { IsTrue D.visible → OnOk result ((l : Ledger) → HasLedger (state_of (D.size disk.old) (D.moments disk.old) (D.faults disk.old) tables.old) l → HasLedger (state_of (D.size disk.new) (D.moments disk.new) (D.faults disk.new) tables.new) (checkpointed (state_of (D.size disk.old) (D.moments disk.old) (D.faults disk.old) tables.old) l)) }
    ensures device { IsTrue D.visible → (fault : ℕ) → result ≡ Err (refusal.Device fault) → (l : Ledger) → HasLedger (state_of (D.size disk.old) (D.moments disk.old) (D.faults disk.old) tables.old) l → HasAny (state_of (D.size disk.new) (D.moments disk.new) (D.faults disk.new) tables.new) (l ∷ beginning_next (state_of (D.size disk.old) (D.moments disk.old) (D.faults disk.old) tables.old) l ∷ []) }
    ensures memory { (w : Lack) → result ≡ Err (refusal.Lack w) → (state_of (D.size disk.new) (D.moments disk.new) (D.faults disk.new) tables.new) ≡ (state_of (D.size disk.old) (D.moments disk.old) (D.faults disk.old) tables.old) }
    ensures lack { (w : Lack) → result ≡ Err (refusal.Lack w) → IsLackOf (state_of (D.size disk.old) (D.moments disk.old) (D.faults disk.old) tables.old) w }
    ensures at_end { tables.old.superblock.epoch ≡ 2 ^ 64 - 1 → result ≡ Err (refusal.Lack AtEnd) }
    ensures room { OnOk result (tables.new.journal.used ≡ 0) }
    ensures settled { OnOk result (tables.new.unsettled ≡ false) }
    ensures unsettled { OnErr result (tables.new.unsettled ≡ tables.old.unsettled) }
    ensures number { tables.new.journal.number ≡ tables.old.journal.number }
    ensures begun { OnOk result (tables.new.superblock ≡ next_superblock (state_of (D.size disk.old) (D.moments disk.old) (D.faults disk.old) tables.old)) }
    ensures unbegun { OnErr result (tables.new.superblock ≡ tables.old.superblock) }
    ensures raised { HasRaised 1 0 (state_of (D.size disk.old) (D.moments disk.old) (D.faults disk.old) tables.old) (state_of (D.size disk.new) (D.moments disk.new) (D.faults disk.new) tables.new) }
    ensures geometry { tables.new.journal.geometry ≡ tables.old.journal.geometry }
    ensures blocks { tables.new.unassigned ≡ tables.old.unassigned }
    ensures size { D.size disk.new ≡ D.size disk.old }
    ensures cause { IsTold (D.faults disk.old) (D.faults disk.new) (fault_in result) }
    ensures stop { tables.new.stop ≡ fault_in result }
    ensures refused { IfErr result (λ fault. IsTrue (is_own fault)) }
{
    let Some(superblock) = tables.next_superblock() else {
        return Err(StoreFault::Lack(Lack::AtEnd));
    };
    match checkpoint(&tables.overlay, &mut tables.journal, disk, &superblock) {
        Ok(()) => {
            tables.superblock = superblock;
            tables.overlay.empty_after_epoch();
            tables.txn = 1;
            tables.unsettled = false;
            Ok(())
        }
        Err(fault) => Err(stop_at(&mut tables.stop, fault)),
    }
}
