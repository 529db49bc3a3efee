// The names are committed, and a file hears of it, by a hand that has their cell meanwhile.
ghost use Rattle.std.specs.Prelude.{ℕ, ◌≡◌, ◌++◌, ◌||◌, [], true, false, Err, Some, IfErr, IsSome, OnErr, OnOk, is_some};
ghost use Rattle.std.specs.FinMap as fin;
ghost use Rattle.std.specs.FinSet as set;
ghost use Rattle.ufs_joint.specs.NamesTurns.{live_files};
ghost use Rattle.ufs_layout.specs.Areas.{IsGeometry};
ghost use Rattle.ufs_store.specs.Refusals.{fault_in, is_no_space};
ghost use Rattle.ufs_store.specs.declared.fault.StoreFault.TheVariants as refusal;
ghost use Rattle.ufs_turns.specs.Lent.{AreTold, IsBare, IsBeside, Runs, StopsByFault, TellsStop, TellsWhere};
ghost use Rattle.ufs_turns.specs.Told.{fault_told, told_list};
ghost use Rattle.ufs_held_names.specs.Births.{KnowsBirths};
ghost use Rattle.ufs_held_names.specs.HeldNames.{AreCommitted, HoldsNames, first_names};

use crate::seeing::see_numbers;
use ufs_held::HeldFile;
use ufs_joint::{Hand, HandTable, Naming};
use ufs_layout::Geometry;
use ufs_model::PartName;
use ufs_noted::NotedNames;
use ufs_store::StoreFault;
use ufs_turns::Turns;

// Commits the names. The hand that comes has their cell meanwhile, and is told the fault. Behind a commit that passes each birth so far
// is known.
pub(crate) fn commit_lent<N: Naming, T: Turns<N>>(
    table: &HandTable<N>,
    right: &mut Hand<N>,
    noted: &mut NotedNames,
    reached: &mut u32,
    guest: &mut Hand<N>,
    door: &mut T,
) -> Result<(), StoreFault>
    requires held { HoldsNames noted.old right.old }
    requires calm { right.old.faults ≡ [] }
    requires births { KnowsBirths reached.old (first_names noted.old right.old.names) }
    requires bare { IsBare guest.old }
    ensures held { HoldsNames noted.new right.new }
    ensures calm { right.new.faults ≡ [] }
    ensures births { KnowsBirths reached.new (first_names noted.new right.new.names) }
    ensures bare { IsBare guest.new }
    ensures beside { IsBeside guest.old guest.new }
    ensures ok { OnOk result (AreCommitted N.start.is_visible (first_names noted.old right.old.names) (first_names noted.new right.new.names)) }
    ensures err { OnErr result (first_names noted.new right.new.names ≡ first_names noted.old right.old.names) }
    ensures faults { guest.new.faults ≡ told_list (fault_told (fault_in result)) ++ guest.old.faults }
    ensures stop { (fault : ℕ) → result ≡ Err (refusal.Stopped fault) → guest.new.stop ≡ Some fault }
    ensures stops { (fault : ℕ) → fault_told (fault_in result) ≡ Some fault → guest.new.stop ≡ Some fault }
    ensures free { AreTold (T.tells door.old) (T.tells door.new) (λ had has. has ≡ had) }
    ensures telling { is_some (T.tells door.new) ≡ is_some (T.tells door.old) }
    ensures halts { StopsByFault (T.tells door.old) (T.tells door.new) (fault_in result) }
    ensures ran { Runs (T.tells door.old) (T.tells door.new) (fault_in result) 1 1 }
    ensures halted { TellsStop (T.tells door.old) result }
    ensures stopped { TellsWhere (T.tells door.new) result }
    ensures refused { IfErr result (λ fault. is_no_space fault ≡ false) }
{
    let done = commit_told(table, right, noted, guest, door);
    see_numbers(table, right, noted);
    reach(reached, noted, &done);
    done
}

// Where the commit passed, no file has a number that isn't reached yet.
fn reach(reached: &mut u32, noted: &NotedNames, done: &Result<(), StoreFault>)
    ensures up { OnOk done.now (reached.new ≡ noted.now.names.next) }
    ensures stays { OnErr done.now (reached.new ≡ reached.old) }
{
    match done {
        Ok(()) => *reached = noted.next_number(),
        Err(_) => {}
    }
}

// The commit itself.
fn commit_told<N: Naming, T: Turns<N>>(
    table: &HandTable<N>,
    right: &mut Hand<N>,
    noted: &mut NotedNames,
    guest: &mut Hand<N>,
    door: &mut T,
) -> Result<(), StoreFault>
    requires held { HoldsNames noted.old right.old }
    requires calm { right.old.faults ≡ [] }
    requires bare { IsBare guest.old }
    ensures held { HoldsNames noted.new right.new }
    ensures calm { right.new.faults ≡ [] }
    ensures bare { IsBare guest.new }
    ensures beside { IsBeside guest.old guest.new }
    ensures ok { OnOk result (AreCommitted N.start.is_visible (first_names noted.old right.old.names) (first_names noted.new right.new.names)) }
    ensures err { OnErr result (first_names noted.new right.new.names ≡ first_names noted.old right.old.names) }
    ensures faults { guest.new.faults ≡ told_list (fault_told (fault_in result)) ++ guest.old.faults }
    ensures stop { (fault : ℕ) → result ≡ Err (refusal.Stopped fault) → guest.new.stop ≡ Some fault }
    ensures stops { (fault : ℕ) → fault_told (fault_in result) ≡ Some fault → guest.new.stop ≡ Some fault }
    ensures free { AreTold (T.tells door.old) (T.tells door.new) (λ had has. has ≡ had) }
    ensures telling { is_some (T.tells door.new) ≡ is_some (T.tells door.old) }
    ensures halts { StopsByFault (T.tells door.old) (T.tells door.new) (fault_in result) }
    ensures ran { Runs (T.tells door.old) (T.tells door.new) (fault_in result) 1 1 }
    ensures halted { TellsStop (T.tells door.old) result }
    ensures stopped { TellsWhere (T.tells door.new) result }
    ensures refused { IfErr result (λ fault. is_no_space fault ≡ false) }
{
    let own = right.split(table, PartName::Names);
    guest.join(table, own);
    let done = noted.commit(guest, door);
    let own = guest.split(table, PartName::Names);
    right.join(table, own);
    done
}

// Tells a file its birth, where the names know it.
pub(crate) fn tell_lent<N: Naming>(
    table: &HandTable<N>,
    right: &mut Hand<N>,
    noted: &NotedNames,
    file: &mut HeldFile<N>,
    geometry: &Geometry,
)
    requires formed { IsGeometry geometry.now }
    requires its { geometry.now ≡ N.start.geometry }
    requires held { HoldsNames noted.now right.old }
    requires calm { right.old.faults ≡ [] }
    ensures held { HoldsNames noted.now right.new }
    ensures calm { right.new.faults ≡ [] }
    ensures same { first_names noted.now right.new.names ≡ first_names noted.now right.old.names }
    ensures told { file.new ≡ record file.old { born = file.old.born || set.contains (first_names noted.now right.old.names).named file.old.value.file.file } }
    ensures live { IsSome (fin.get noted.now.names.held file.old.value.file.file) }
{
    // For the prover alone.
    let _ = noted;
    file.tell_born(table, right, geometry)
}

// The names were committed: a file that is held knows its birth then.
pub(crate) fn tell_committed<N: Naming>(
    table: &HandTable<N>,
    right: &mut Hand<N>,
    noted: &NotedNames,
    file: &mut HeldFile<N>,
    geometry: &Geometry,
)
    requires formed { IsGeometry geometry.now }
    requires its { geometry.now ≡ N.start.geometry }
    requires held { HoldsNames noted.now right.old }
    requires calm { right.old.faults ≡ [] }
    requires all { (first_names noted.now right.old.names).named ≡ live_files noted.now.names }
    ensures held { HoldsNames noted.now right.new }
    ensures calm { right.new.faults ≡ [] }
    ensures same { first_names noted.now right.new.names ≡ first_names noted.now right.old.names }
    ensures told { file.new ≡ record file.old { born = true } }
{
    tell_lent(table, right, noted, file, geometry)
}
