// A `sync`: the names are committed, and then each file, and it is acknowledged or excused.
ghost use Rattle.std.specs.Prelude.{ℕ, ◌≡◌, ◌<◌, ◌+◌, ◌++◌, eqb, length, [], true, false, Err, Some, IfErr, OnErr, OnOk, is_some};
ghost use Rattle.std.specs.FinSet as set;
ghost use Rattle.ufs_bitmap.specs.Blocks.{BlockSet};
ghost use Rattle.ufs_bitmap.specs.Taking.{set_of};
ghost use Rattle.ufs_layout.specs.Areas.{IsGeometry};
ghost use Rattle.ufs_model.specs.declared.data.Reply.TheVariants as reply;
ghost use Rattle.ufs_model.specs.History.{is_excused};
ghost use Rattle.ufs_hand_laws.specs.Owned.{count};
ghost use Rattle.ufs_hand_laws.specs.Parts.{ClientPart};
ghost use Rattle.ufs_joint.specs.NamesTurns.{live_files};
ghost use Rattle.ufs_joint.specs.Servers.{IsServer};
ghost use Rattle.ufs_store.specs.Refusals.{fault_in, is_no_space};
ghost use Rattle.ufs_store.specs.declared.fault.StoreFault.TheVariants as refusal;
ghost use Rattle.ufs_turns.specs.Lent.{AreTold, IsBare, IsBeside, Runs, StopsByFault, TellsStop, TellsWhere};
ghost use Rattle.ufs_turns.specs.Told.{fault_told, told_list};
ghost use Rattle.ufs_held.specs.Asking.{IsGuest};
ghost use Rattle.ufs_held.specs.Committed.{HasSameCells};
ghost use Rattle.ufs_held.specs.Together.{under_numbers};
ghost use Rattle.ufs_held_names.specs.Births.{KnowsBirths};
ghost use Rattle.ufs_held_names.specs.HeldNames.{AreCommitted, HoldsNames, first_names};
ghost use Rattle.ufs_held_names.specs.SyncAll.{AreAllLive, AreSynced, AsksSync, HasSyncedAll, IsFileCommitted, StopsShort, freed_by};

use crate::commits::{commit_lent, tell_committed};
use crate::held_names::NamesSynced;
use crate::sync_answers::answer_all;
use ufs_held::{HeldFile, excuse_of};
use ufs_joint::{Hand, HandTable, Naming};
use ufs_layout::Geometry;
use ufs_model::{Actor, Ask, Reply};
use ufs_noted::NotedNames;
use ufs_store::StoreFault;
use ufs_turns::Turns;

pub(crate) fn sync_lent<N: Naming, T: Turns<N>>(
    table: &HandTable<N>,
    right: &mut Hand<N>,
    noted: &mut NotedNames,
    reached: &mut u32,
    ask: Ask,
    mut guest: Hand<N>,
    by: Actor,
    files: &mut [HeldFile<N>],
    door: &mut T,
    geometry: &Geometry,
) -> NamesSynced<N>
    requires formed { IsGeometry geometry.now }
    requires its { geometry.now ≡ N.start.geometry }
    requires held { HoldsNames noted.old right.old }
    requires calm { right.old.faults ≡ [] }
    requires births { KnowsBirths reached.old (first_names noted.old right.old.names) }
    requires guest { (part : ClientPart) × (n : ℕ) × (pool : BlockSet) × IsGuest ask.client part n pool guest × AsksSync part ask × (count eqb n (under_numbers files.old) ≡ 0) }
    requires server { IsServer by }
    requires all { AreAllLive noted.old.names files.old }
    ensures held { HoldsNames noted.new right.new }
    ensures calm { right.new.faults ≡ [] }
    ensures births { KnowsBirths reached.new (first_names noted.new right.new.names) }
    ensures synced { HasSyncedAll N.start.is_visible ask by (first_names noted.old right.old.names) (first_names noted.new right.new.names) files.old files.new (T.tells door.old) (T.tells door.new) result.entry guest result.guest }
{
    match commit_all(
        table, right, noted, reached, files, &mut guest, door, geometry,
    ) {
        Ok(()) => answer_all(
            table,
            right,
            noted,
            files,
            ask,
            guest,
            by,
            Reply::Done,
            geometry,
        ),
        Err(fault) => {
            let cause = excuse_of(fault);
            answer_all(
                table,
                right,
                noted,
                files,
                ask,
                guest,
                by,
                Reply::Excused(cause),
                geometry,
            )
        }
    }
}

// Commits the names, and each of these files. The guest is told the fault.
pub(crate) fn commit_all<N: Naming, T: Turns<N>>(
    table: &HandTable<N>,
    right: &mut Hand<N>,
    noted: &mut NotedNames,
    reached: &mut u32,
    files: &mut [HeldFile<N>],
    guest: &mut Hand<N>,
    door: &mut T,
    geometry: &Geometry,
) -> Result<(), StoreFault>
    requires formed { IsGeometry geometry.now }
    requires its { geometry.now ≡ N.start.geometry }
    requires held { HoldsNames noted.old right.old }
    requires calm { right.old.faults ≡ [] }
    requires births { KnowsBirths reached.old (first_names noted.old right.old.names) }
    requires bare { IsBare guest.old }
    ensures held { HoldsNames noted.new right.new }
    ensures calm { right.new.faults ≡ [] }
    ensures births { KnowsBirths reached.new (first_names noted.new right.new.names) }
    ensures bare { IsBare guest.new }
    ensures beside { IsBeside guest.old guest.new }
    ensures names { OnOk result (AreCommitted N.start.is_visible (first_names noted.old right.old.names) (first_names noted.new right.new.names)) }
    ensures files { OnOk result (AreSynced N.start.is_visible files.old files.new (length files.old)) }
    ensures freed { OnOk result (AreTold (T.tells door.old) (T.tells door.new) (λ had has. has ≡ freed_by (length files.old) files.old had)) }
    ensures short { OnErr result (StopsShort N.start.is_visible (first_names noted.old right.old.names) (first_names noted.new right.new.names) files.old files.new (T.tells door.old) (T.tells door.new)) }
    ensures faults { guest.new.faults ≡ told_list (fault_told (fault_in result)) ++ guest.old.faults }
    ensures stop { (fault : ℕ) → result ≡ Err (refusal.Stopped fault) → guest.new.stop ≡ Some fault }
    ensures stops { (fault : ℕ) → fault_told (fault_in result) ≡ Some fault → guest.new.stop ≡ Some fault }
    ensures telling { is_some (T.tells door.new) ≡ is_some (T.tells door.old) }
    ensures halts { StopsByFault (T.tells door.old) (T.tells door.new) (fault_in result) }
    ensures ran { Runs (T.tells door.old) (T.tells door.new) (fault_in result) (1 + length files.old) (1 + length files.old) }
    ensures halted { TellsStop (T.tells door.old) result }
    ensures stopped { TellsWhere (T.tells door.new) result }
    ensures refused { IfErr result (λ fault. is_no_space fault ≡ false) }
{
    match commit_lent(table, right, noted, reached, guest, door) {
        Ok(()) => commit_files(table, right, noted, files, guest, door, geometry),
        Err(fault) => Err(fault),
    }
}

// The names were committed: so is each of these files, until one fails.
fn commit_files<N: Naming, T: Turns<N>>(
    table: &HandTable<N>,
    right: &mut Hand<N>,
    noted: &NotedNames,
    files: &mut [HeldFile<N>],
    guest: &mut Hand<N>,
    door: &mut T,
    geometry: &Geometry,
) -> Result<(), StoreFault>
    requires formed { IsGeometry geometry.now }
    requires its { geometry.now ≡ N.start.geometry }
    requires held { HoldsNames noted.now right.old }
    requires calm { right.old.faults ≡ [] }
    requires all { (first_names noted.now right.old.names).named ≡ live_files noted.now.names }
    ensures held { HoldsNames noted.now right.new }
    ensures calm { right.new.faults ≡ [] }
    ensures same { first_names noted.now right.new.names ≡ first_names noted.now right.old.names }
    ensures cells { HasSameCells guest.old guest.new }
    ensures files { OnOk result (AreSynced N.start.is_visible files.old files.new (length files.old)) }
    ensures freed { OnOk result (AreTold (T.tells door.old) (T.tells door.new) (λ had has. has ≡ freed_by (length files.old) files.old had)) }
    ensures short { OnErr result ((k : ℕ) × (k < length files.old) × AreSynced N.start.is_visible files.old files.new k × AreTold (T.tells door.old) (T.tells door.new) (λ had has. has ≡ freed_by k files.old had)) }
    ensures faults { guest.new.faults ≡ told_list (fault_told (fault_in result)) ++ guest.old.faults }
    ensures stop { (fault : ℕ) → result ≡ Err (refusal.Stopped fault) → guest.new.stop ≡ Some fault }
    ensures stops { (fault : ℕ) → fault_told (fault_in result) ≡ Some fault → guest.new.stop ≡ Some fault }
    ensures telling { is_some (T.tells door.new) ≡ is_some (T.tells door.old) }
    ensures halts { StopsByFault (T.tells door.old) (T.tells door.new) (fault_in result) }
    ensures ran { Runs (T.tells door.old) (T.tells door.new) (fault_in result) (length files.old) (length files.old) }
    ensures stopped { TellsWhere (T.tells door.new) result }
    ensures refused { IfErr result (λ fault. is_no_space fault ≡ false) }
{
    for place in 0..files.len() {
        let file = &mut files[place];
        commit_born(table, right, noted, file, guest, door, geometry)?;
    }
    Ok(())
}

// The names were committed: the file is told its birth, and is committed.
fn commit_born<N: Naming, T: Turns<N>>(
    table: &HandTable<N>,
    right: &mut Hand<N>,
    noted: &NotedNames,
    file: &mut HeldFile<N>,
    guest: &mut Hand<N>,
    door: &mut T,
    geometry: &Geometry,
) -> Result<(), StoreFault>
    requires formed { IsGeometry geometry.now }
    requires its { geometry.now ≡ N.start.geometry }
    requires held { HoldsNames noted.now right.old }
    requires calm { right.old.faults ≡ [] }
    requires all { (first_names noted.now right.old.names).named ≡ live_files noted.now.names }
    ensures held { HoldsNames noted.now right.new }
    ensures calm { right.new.faults ≡ [] }
    ensures same { first_names noted.now right.new.names ≡ first_names noted.now right.old.names }
    ensures cells { HasSameCells guest.old guest.new }
    ensures committed { OnOk result (IsFileCommitted N.start.is_visible file.old file.new) }
    ensures kept { OnErr result (file.new ≡ record file.old { born = true }) }
    ensures freed { OnOk result (AreTold (T.tells door.old) (T.tells door.new) (λ had has. has ≡ set.union had (set_of file.old.value.dropped))) }
    ensures unfreed { OnErr result (AreTold (T.tells door.old) (T.tells door.new) (λ had has. has ≡ had)) }
    ensures faults { guest.new.faults ≡ told_list (fault_told (fault_in result)) ++ guest.old.faults }
    ensures stop { (fault : ℕ) → result ≡ Err (refusal.Stopped fault) → guest.new.stop ≡ Some fault }
    ensures stops { (fault : ℕ) → fault_told (fault_in result) ≡ Some fault → guest.new.stop ≡ Some fault }
    ensures telling { is_some (T.tells door.new) ≡ is_some (T.tells door.old) }
    ensures halts { StopsByFault (T.tells door.old) (T.tells door.new) (fault_in result) }
    ensures ran { Runs (T.tells door.old) (T.tells door.new) (fault_in result) 1 1 }
    ensures stopped { TellsWhere (T.tells door.new) result }
    ensures refused { IfErr result (λ fault. is_no_space fault ≡ false) }
{
    tell_committed(table, right, noted, file, geometry);
    file.commit(table, guest, door)
}
