// What the names dropped comes back, by a hand that has their cell meanwhile.
ghost use Rattle.std.specs.Prelude.{ℕ, ◌≡◌, ◌++◌, [], false, Err, IfErr, OnErr, OnOk, Some, is_some};
ghost use Rattle.std.specs.FinSet as set;
ghost use Rattle.ufs_held.specs.Together.{AreApartFrom};
ghost use Rattle.ufs_held_names.specs.HeldNames.{HoldsNames, first_names};
ghost use Rattle.ufs_held_names.specs.Reclaims.{IsReclaimed, MayReclaim};
ghost use Rattle.ufs_store.specs.Refusals.{fault_in, is_no_space};
ghost use Rattle.ufs_store.specs.declared.fault.StoreFault.TheVariants as refusal;
ghost use Rattle.ufs_turns.specs.Lent.{AreTold, IsBare, IsBeside, Runs, StopsByFault, TellsStop, TellsWhere};
ghost use Rattle.ufs_turns.specs.Told.{fault_told, told_list};

use ufs_held::HeldFile;
use ufs_joint::{Hand, HandTable, Naming};
use ufs_model::PartName;
use ufs_noted::NotedNames;
use ufs_store::StoreFault;
use ufs_turns::Turns;

pub(crate) fn reclaim_lent<N: Naming, T: Turns<N>>(
    table: &HandTable<N>,
    right: &mut Hand<N>,
    noted: &mut NotedNames,
    files: &mut [HeldFile<N>],
    guest: &mut Hand<N>,
    door: &mut T,
) -> Result<(), StoreFault>
    requires held { HoldsNames noted.old right.old }
    requires calm { right.old.faults ≡ [] }
    requires bare { IsBare guest.old }
    requires apart { AreApartFrom guest.old files.old }
    requires may { MayReclaim (first_names noted.old right.old.names) files.old }
    ensures held { HoldsNames noted.new right.new }
    ensures calm { right.new.faults ≡ [] }
    ensures bare { IsBare guest.new }
    ensures beside { IsBeside guest.old guest.new }
    ensures files { files.new ≡ files.old }
    ensures ok { OnOk result (IsReclaimed (first_names noted.old right.old.names) (first_names noted.new right.new.names)) }
    ensures err { OnErr result (first_names noted.new right.new.names ≡ first_names noted.old right.old.names) }
    ensures back { OnOk result (AreTold (T.tells door.old) (T.tells door.new) (λ had has. has ≡ set.union had (first_names noted.old right.old.names).dropped)) }
    ensures kept { OnErr result (AreTold (T.tells door.old) (T.tells door.new) (λ had has. has ≡ had)) }
    ensures ran { Runs (T.tells door.old) (T.tells door.new) (fault_in result) 1 0 }
    ensures telling { is_some (T.tells door.new) ≡ is_some (T.tells door.old) }
    ensures faults { guest.new.faults ≡ told_list (fault_told (fault_in result)) ++ guest.old.faults }
    ensures stop { (fault : ℕ) → result ≡ Err (refusal.Stopped fault) → guest.new.stop ≡ Some fault }
    ensures halts { StopsByFault (T.tells door.old) (T.tells door.new) (fault_in result) }
    ensures halted { TellsStop (T.tells door.old) result }
    ensures stopped { TellsWhere (T.tells door.new) result }
    ensures refused { IfErr result (λ fault. is_no_space fault ≡ false) }
{
    let own = right.split(table, PartName::Names);
    guest.join(table, own);
    let made = noted.reclaim(table, files, guest, door);
    let own = guest.split(table, PartName::Names);
    right.join(table, own);
    made
}
