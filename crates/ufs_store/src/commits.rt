ghost use Rattle.std.specs.Prelude.{ℕ, Bool, List, ◌≡◌, ◌≢◌, ◌≤◌, ◌<◌, ◌+◌, ◌-◌, ◌^◌, ◌∷◌, ◌⊎◌, [], IsTrue, true, false, None, Some, Ok, Err, OnOk, OnErr, IfErr, IfOk};
ghost use Rattle.std.specs.List.{list_all};
ghost use Rattle.ufs_base.specs.declared.lack.Lack.{Lack};
ghost use Rattle.ufs_base.specs.declared.lack.Lack.TheVariants.{AtEnd};
ghost use Rattle.ufs_disk.specs.Moments.{LeavesOnly};
ghost use Rattle.ufs_image.specs.Fold.{is_in_range};
ghost use Rattle.ufs_layout.specs.Areas.{sector_count};
ghost use Rattle.ufs_layout.specs.Filled.{sector_count_of};
ghost use Rattle.ufs_layout.specs.Records.{is_record};
ghost use Rattle.ufs_ledger.specs.Ledger.{Ledger, IsLedgerOf, IsLeftBy};
ghost use Rattle.ufs_ledger.specs.Changes.{committed_one, settled};
ghost use Rattle.ufs_store.specs.Ends.{IsLackOf};
ghost use Rattle.ufs_store.specs.Ledgers.{HasAny, HasLedger, IsLeftByAny, MayCommitNext, after_commit, checkpointed, commit_stages, room_stages, stages, with_room};
ghost use Rattle.ufs_store.specs.Numbers.{HasRaised};
ghost use Rattle.ufs_store.specs.Refusals.{IsTold, fault_in, is_own};
ghost use Rattle.ufs_store.specs.State.{StoreState, next_commit};
ghost use Rattle.ufs_store.specs.Tables.{state_of};
ghost use Rattle.ufs_store.specs.declared.fault.StoreFault.TheVariants as refusal;

use crate::StoreFault;
use crate::homes::begin_next;
use crate::tables::{Tables, stop_at};
use ufs_base::Lack;
use ufs_disk::Disk;
use ufs_journal::sectors_needed;
use ufs_layout::Records;
use ufs_ledger::commit_records;

/// Commits these records as one transaction, after a checkpoint where the journal lacks room for them.
pub(crate) fn commit<D: Disk>(
    tables: &mut Tables,
    disk: &mut D,
    records: &Records,
) -> Result<u64, StoreFault>
    requires going { tables.old.stop ≡ None }
    requires large { sector_count tables.old.journal.geometry ≤ D.size disk.old }
    requires form { IsTrue (list_all is_record records.now) }
    requires in_range { IsTrue (list_all (is_in_range tables.old.journal.geometry) records.now) }
    requires short { sector_count_of records.now < tables.old.journal.geometry.journal }
    ensures crash { IsTrue D.visible → (l : Ledger) → HasLedger (state_of (D.size disk.old) (D.moments disk.old) (D.faults disk.old) tables.old) l → MayCommitNext (state_of (D.size disk.old) (D.moments disk.old) (D.faults disk.old) tables.old) records.now l
        → LeavesOnly D.keeps (IsLeftByAny (D.size disk.old) (stages (state_of (D.size disk.old) (D.moments disk.old) (D.faults disk.old) tables.old) records.now l)) (D.moments disk.old) (D.moments disk.new) }
    ensures ok { IsTrue D.visible → OnOk result ((l : Ledger) → HasLedger (state_of (D.size disk.old) (D.moments disk.old) (D.faults disk.old) tables.old) l → MayCommitNext (state_of (D.size disk.old) (D.moments disk.old) (D.faults disk.old) tables.old) records.now l → HasLedger (state_of (D.size disk.new) (D.moments disk.new) (D.faults disk.new) tables.new) (after_commit (state_of (D.size disk.old) (D.moments disk.old) (D.faults disk.old) tables.old) records.now l)) }
    ensures device { IsTrue D.visible → (fault : ℕ) → result ≡ Err (refusal.Device fault) → (l : Ledger) → HasLedger (state_of (D.size disk.old) (D.moments disk.old) (D.faults disk.old) tables.old) l → MayCommitNext (state_of (D.size disk.old) (D.moments disk.old) (D.faults disk.old) tables.old) records.now l → HasAny (state_of (D.size disk.new) (D.moments disk.new) (D.faults disk.new) tables.new) (stages (state_of (D.size disk.old) (D.moments disk.old) (D.faults disk.old) tables.old) records.now l) }
    ensures memory { IsTrue D.visible → (w : Lack) → result ≡ Err (refusal.Lack w) → (l : Ledger) → HasLedger (state_of (D.size disk.old) (D.moments disk.old) (D.faults disk.old) tables.old) l → HasLedger (state_of (D.size disk.new) (D.moments disk.new) (D.faults disk.new) tables.new) l ⊎ HasLedger (state_of (D.size disk.new) (D.moments disk.new) (D.faults disk.new) tables.new) (checkpointed (state_of (D.size disk.old) (D.moments disk.old) (D.faults disk.old) tables.old) l) }
    ensures lack { (w : Lack) → result ≡ Err (refusal.Lack w) → IsLackOf (state_of (D.size disk.old) (D.moments disk.old) (D.faults disk.old) tables.old) w }
    ensures at_end { tables.old.journal.number ≡ 2 ^ 64 - 1 → result ≡ Err (refusal.Lack AtEnd) }
    ensures number { IfOk result (λ number. number ≡ tables.old.journal.number) }
    ensures rises { OnOk result (tables.new.journal.number ≡ tables.old.journal.number + 1) }
    ensures raised { HasRaised 1 1 (state_of (D.size disk.old) (D.moments disk.old) (D.faults disk.old) tables.old) (state_of (D.size disk.new) (D.moments disk.new) (D.faults disk.new) tables.new) }
    ensures geometry { tables.new.journal.geometry ≡ tables.old.journal.geometry }
    ensures blocks { tables.new.unassigned ≡ tables.old.unassigned }
    ensures size { D.size disk.new ≡ D.size disk.old }
    ensures cause { IsTold (D.faults disk.old) (D.faults disk.new) (fault_in result) }
    ensures stop { tables.new.stop ≡ fault_in result }
    ensures settled { OnOk result (tables.new.unsettled ≡ false) }
    ensures unset { tables.old.unsettled ≡ false → tables.new.unsettled ≡ false }
    ensures refused { IfErr result (λ fault. IsTrue (is_own fault)) }
{
    if tables.journal.number == u64::MAX {
        return Err(StoreFault::Lack(Lack::AtEnd));
    }
    make_room(tables, disk, records)?;
    commit_in_room(tables, disk, records)
}

fn make_room<D: Disk>(
    tables: &mut Tables,
    disk: &mut D,
    records: &Records,
) -> Result<(), StoreFault>
    requires going { tables.old.stop ≡ None }
    requires large { sector_count tables.old.journal.geometry ≤ D.size disk.old }
    requires form { IsTrue (list_all is_record records.now) }
    requires short { sector_count_of records.now < tables.old.journal.geometry.journal }
    ensures crash { IsTrue D.visible → (l : Ledger) → HasLedger (state_of (D.size disk.old) (D.moments disk.old) (D.faults disk.old) tables.old) l
        → LeavesOnly D.keeps (IsLeftByAny (D.size disk.old) (room_stages (state_of (D.size disk.old) (D.moments disk.old) (D.faults disk.old) tables.old) records.now l)) (D.moments disk.old) (D.moments disk.new) }
    ensures ok { IsTrue D.visible → OnOk result ((l : Ledger) → HasLedger (state_of (D.size disk.old) (D.moments disk.old) (D.faults disk.old) tables.old) l → HasLedger (state_of (D.size disk.new) (D.moments disk.new) (D.faults disk.new) tables.new) (with_room (state_of (D.size disk.old) (D.moments disk.old) (D.faults disk.old) tables.old) records.now l)) }
    ensures device { IsTrue D.visible → (fault : ℕ) → result ≡ Err (refusal.Device fault) → (l : Ledger) → HasLedger (state_of (D.size disk.old) (D.moments disk.old) (D.faults disk.old) tables.old) l → HasAny (state_of (D.size disk.new) (D.moments disk.new) (D.faults disk.new) tables.new) (room_stages (state_of (D.size disk.old) (D.moments disk.old) (D.faults disk.old) tables.old) records.now l) }
    ensures memory { (w : Lack) → result ≡ Err (refusal.Lack w) → (state_of (D.size disk.new) (D.moments disk.new) (D.faults disk.new) tables.new) ≡ (state_of (D.size disk.old) (D.moments disk.old) (D.faults disk.old) tables.old) }
    ensures lack { (w : Lack) → result ≡ Err (refusal.Lack w) → IsLackOf (state_of (D.size disk.old) (D.moments disk.old) (D.faults disk.old) tables.old) w }
    ensures room { OnOk result (tables.new.journal.used + sector_count_of records.now < tables.new.journal.geometry.journal) }
    ensures number { tables.new.journal.number ≡ tables.old.journal.number }
    ensures raised { HasRaised 1 0 (state_of (D.size disk.old) (D.moments disk.old) (D.faults disk.old) tables.old) (state_of (D.size disk.new) (D.moments disk.new) (D.faults disk.new) tables.new) }
    ensures geometry { tables.new.journal.geometry ≡ tables.old.journal.geometry }
    ensures blocks { tables.new.unassigned ≡ tables.old.unassigned }
    ensures size { D.size disk.new ≡ D.size disk.old }
    ensures cause { IsTold (D.faults disk.old) (D.faults disk.new) (fault_in result) }
    ensures stop { tables.new.stop ≡ fault_in result }
    ensures unset { tables.old.unsettled ≡ false → tables.new.unsettled ≡ false }
    ensures refused { IfErr result (λ fault. IsTrue (is_own fault)) }
{
    if sectors_needed(records) < tables.journal.room() as usize {
        return Ok(());
    }
    begin_next(tables, disk)
}

// The overlay gets the records first, so that what is committed is always in it.
fn commit_in_room<D: Disk>(
    tables: &mut Tables,
    disk: &mut D,
    records: &Records,
) -> Result<u64, StoreFault>
    requires going { tables.old.stop ≡ None }
    requires large { sector_count tables.old.journal.geometry ≤ D.size disk.old }
    requires form { IsTrue (list_all is_record records.now) }
    requires in_range { IsTrue (list_all (is_in_range tables.old.journal.geometry) records.now) }
    requires room { tables.old.journal.used + sector_count_of records.now < tables.old.journal.geometry.journal }
    requires numbers { tables.old.journal.number < 2 ^ 64 - 1 }
    ensures crash { IsTrue D.visible → (l : Ledger) → HasLedger (state_of (D.size disk.old) (D.moments disk.old) (D.faults disk.old) tables.old) l → MayCommitNext (state_of (D.size disk.old) (D.moments disk.old) (D.faults disk.old) tables.old) records.now l
        → LeavesOnly D.keeps (IsLeftByAny (D.size disk.old) (commit_stages (next_commit (state_of (D.size disk.old) (D.moments disk.old) (D.faults disk.old) tables.old) records.now) l)) (D.moments disk.old) (D.moments disk.new) }
    ensures ok { IsTrue D.visible → OnOk result ((l : Ledger) → HasLedger (state_of (D.size disk.old) (D.moments disk.old) (D.faults disk.old) tables.old) l → MayCommitNext (state_of (D.size disk.old) (D.moments disk.old) (D.faults disk.old) tables.old) records.now l → HasLedger (state_of (D.size disk.new) (D.moments disk.new) (D.faults disk.new) tables.new) (committed_one (next_commit (state_of (D.size disk.old) (D.moments disk.old) (D.faults disk.old) tables.old) records.now) l)) }
    ensures device { IsTrue D.visible → (fault : ℕ) → result ≡ Err (refusal.Device fault) → (l : Ledger) → HasLedger (state_of (D.size disk.old) (D.moments disk.old) (D.faults disk.old) tables.old) l → MayCommitNext (state_of (D.size disk.old) (D.moments disk.old) (D.faults disk.old) tables.old) records.now l → HasAny (state_of (D.size disk.new) (D.moments disk.new) (D.faults disk.new) tables.new) (commit_stages (next_commit (state_of (D.size disk.old) (D.moments disk.old) (D.faults disk.old) tables.old) records.now) l) }
    ensures memory { IsTrue D.visible → (w : Lack) → result ≡ Err (refusal.Lack w) → (l : Ledger) → HasLedger (state_of (D.size disk.old) (D.moments disk.old) (D.faults disk.old) tables.old) l → HasLedger (state_of (D.size disk.new) (D.moments disk.new) (D.faults disk.new) tables.new) l }
    ensures lack { (s : StoreState) (w : Lack) → result ≡ Err (refusal.Lack w) → IsLackOf s w }
    ensures number { IfOk result (λ number. number ≡ tables.old.journal.number) }
    ensures rises { OnOk result (tables.new.journal.number ≡ tables.old.journal.number + 1) }
    ensures raised { HasRaised 0 1 (state_of (D.size disk.old) (D.moments disk.old) (D.faults disk.old) tables.old) (state_of (D.size disk.new) (D.moments disk.new) (D.faults disk.new) tables.new) }
    ensures geometry { tables.new.journal.geometry ≡ tables.old.journal.geometry }
    ensures blocks { tables.new.unassigned ≡ tables.old.unassigned }
    ensures size { D.size disk.new ≡ D.size disk.old }
    ensures cause { IsTold (D.faults disk.old) (D.faults disk.new) (fault_in result) }
    ensures stop { tables.new.stop ≡ fault_in result }
    ensures settled { OnOk result (tables.new.unsettled ≡ false) }
    ensures unset { tables.old.unsettled ≡ false → tables.new.unsettled ≡ false }
    ensures refused { IfErr result (λ fault. IsTrue (is_own fault)) }
{
    tables
        .overlay
        .add_records(tables.journal.number, records.as_slice())?;
    match commit_records(&mut tables.journal, disk, tables.txn, records) {
        Ok(number) => {
            tables.txn += 1;
            tables.unsettled = false;
            Ok(number)
        }
        Err(fault) => Err(stop_at(&mut tables.stop, fault)),
    }
}
