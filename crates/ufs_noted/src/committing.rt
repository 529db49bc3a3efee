// The names are committed in a turn of the store.
use crate::noted::NotedNames;
use ufs_joint::{Hand, Naming};
use ufs_store::StoreFault;
use ufs_turns::Turns;

impl NotedNames {
    ghost use Rattle.std.specs.Prelude.{ℕ, ◌≡◌, ◌++◌, [], false, Err, Some, IfErr, OnOk, OnErr, is_some};
    ghost use Rattle.ufs_joint.specs.Cells.{NamesCell};
    ghost use Rattle.ufs_store.specs.Refusals.{fault_in, is_no_space};
    ghost use Rattle.ufs_store.specs.declared.fault.StoreFault.TheVariants as refusal;
    ghost use Rattle.ufs_turns.specs.Lent.{AreTold, IsBeside, Runs, StopsByFault, TellsStop, TellsWhere};
    ghost use Rattle.ufs_turns.specs.NamesLent.{HaveCommitted, LendsNames};
    ghost use Rattle.ufs_turns.specs.Told.{fault_told, told_list};
    ghost use Rattle.ufs_noted.specs.Noted.{committed_noted};

    /// Commits the names in one turn of the store, with zeros for the blocks that directories took since the last one. Where it passes,
    /// nothing is noted and no block is fresh; what was dropped stays so, until a checkpoint. Else all is as it was, and the hand was
    /// told the fault by which it failed, or that the store has stopped.
    pub fn commit<N: Naming, T: Turns<N>>(
        &mut self,
        hand: &mut Hand<N>,
        door: &mut T,
    ) -> Result<(), StoreFault>
        requires lent { (cell : NamesCell) × LendsNames cell hand.old × (cell.value ≡ self.old.names) × (cell.fresh ≡ self.old.fresh) }
        ensures ok { OnOk result ((cell : NamesCell) → LendsNames cell hand.old → HaveCommitted N.start.is_visible cell hand.new) }
        ensures err { OnErr result ((cell : NamesCell) → LendsNames cell hand.old → LendsNames cell hand.new) }
        ensures away { hand.new.store ≡ [] }
        ensures beside { IsBeside hand.old hand.new }
        ensures committed { OnOk result (self.new ≡ committed_noted self.old) }
        ensures kept { OnErr result (self.new ≡ self.old) }
        ensures free { AreTold (T.tells door.old) (T.tells door.new) (λ had has. has ≡ had) }
        ensures telling { is_some (T.tells door.new) ≡ is_some (T.tells door.old) }
        ensures faults { hand.new.faults ≡ told_list (fault_told (fault_in result)) ++ hand.old.faults }
        ensures stop { (fault : ℕ) → result ≡ Err (refusal.Stopped fault) → hand.new.stop ≡ Some fault }
        ensures stops { (fault : ℕ) → fault_told (fault_in result) ≡ Some fault → hand.new.stop ≡ Some fault }
        ensures halts { StopsByFault (T.tells door.old) (T.tells door.new) (fault_in result) }
        ensures ran { Runs (T.tells door.old) (T.tells door.new) (fault_in result) 1 1 }
        ensures halted { TellsStop (T.tells door.old) result }
        ensures stopped { TellsWhere (T.tells door.new) result }
        ensures refused { IfErr result (λ fault. is_no_space fault ≡ false) }
    {
        door.commit_names(hand, &mut self.names, &mut self.fresh)
    }
}
