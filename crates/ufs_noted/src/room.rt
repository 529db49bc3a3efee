// How much is noted; and what was dropped comes back.
use crate::noted::NotedNames;
use ufs_held::{HeldFile, reclaim_with_files};
use ufs_joint::{Hand, HandTable, Naming};
use ufs_store::StoreFault;
use ufs_turns::Turns;

impl NotedNames {
    ghost use Rattle.std.specs.Prelude.{ℕ, ◌≡◌, ◌≢◌, ◌≤◌, ◌/◌, ◌↔◌, ◌++◌, ◌∷◌, [], false, Err, IfErr, IsTrue, OnErr, OnOk, Some, is_some};
    ghost use Rattle.std.specs.FinSet as set;
    ghost use Rattle.ufs_held.specs.Together.{AreApartFrom, HasThemToo};
    ghost use Rattle.ufs_ilog.specs.Notes.{sectors_noted};
    ghost use Rattle.ufs_joint.specs.Cells.{NamesCell, View};
    ghost use Rattle.ufs_noted.specs.Noted.{reclaimed_noted};
    ghost use Rattle.ufs_store.specs.Refusals.{fault_in, is_no_space};
    ghost use Rattle.ufs_store.specs.declared.fault.StoreFault.TheVariants as refusal;
    ghost use Rattle.ufs_turns.specs.AllLent.{LendsAll, without_dropped};
    ghost use Rattle.ufs_turns.specs.Lent.{AreTold, IsBeside, Runs, StopsByFault, TellsStop, TellsWhere};
    ghost use Rattle.ufs_turns.specs.Told.{fault_told, told_list};

    /// Whether the notes take half of so many sectors or more.
    pub fn is_crowded(&mut self, journal: u32) -> bool
        ensures crowded { IsTrue result ↔ (journal / 2 ≤ sectors_noted self.old.names.tree.noted) }
        ensures same { self.new ≡ self.old }
    {
        self.names.is_table();
        let notes = self.names.take_notes();
        let sectors = notes.sectors();
        self.names.put_notes(notes);
        sectors >= journal / 2
    }

    /// Whether directories or removed files dropped blocks that haven't come back.
    pub fn has_dropped(&self) -> bool
        ensures { IsTrue result ↔ (self.now.dropped ≢ set.empty) }
    {
        self.dropped.count() > 0
    }

    /// Makes a checkpoint in one turn of the store, by a hand with the names to which each of these files, the live ones, lends its right:
    /// what directories and removed files dropped is unassigned behind it. Where it fails all is as it was, and the hand was told the
    /// fault, or that the store has stopped.
    pub fn reclaim<N: Naming, T: Turns<N>>(
        &mut self,
        table: &HandTable<N>,
        files: &mut [HeldFile<N>],
        hand: &mut Hand<N>,
        door: &mut T,
    ) -> Result<(), StoreFault>
        requires apart { AreApartFrom hand.old files.old }
        requires lent { (v : View) → HasThemToo files.old hand.old v → (names : NamesCell) × LendsAll names v × (names.dropped ≡ self.old.dropped) }
        requires away { hand.old.store ≡ [] }
        ensures files { files.new ≡ files.old }
        ensures ok { OnOk result ((self.new ≡ reclaimed_noted self.old) × ((names : NamesCell) → hand.old.names ≡ (tt, names) ∷ [] → hand.new.names ≡ (tt, without_dropped names) ∷ [])) }
        ensures err { OnErr result ((self.new ≡ self.old) × (hand.new.names ≡ hand.old.names)) }
        ensures own { hand.new.files ≡ hand.old.files }
        ensures away { hand.new.store ≡ [] }
        ensures beside { IsBeside hand.old hand.new }
        ensures back { OnOk result (AreTold (T.tells door.old) (T.tells door.new) (λ had has. has ≡ set.union had self.old.dropped)) }
        ensures kept { OnErr result (AreTold (T.tells door.old) (T.tells door.new) (λ had has. has ≡ had)) }
        ensures ran { Runs (T.tells door.old) (T.tells door.new) (fault_in result) 1 0 }
        ensures telling { is_some (T.tells door.new) ≡ is_some (T.tells door.old) }
        ensures faults { hand.new.faults ≡ told_list (fault_told (fault_in result)) ++ hand.old.faults }
        ensures stop { (fault : ℕ) → result ≡ Err (refusal.Stopped fault) → hand.new.stop ≡ Some fault }
        ensures halts { StopsByFault (T.tells door.old) (T.tells door.new) (fault_in result) }
        ensures halted { TellsStop (T.tells door.old) result }
        ensures stopped { TellsWhere (T.tells door.new) result }
        ensures refused { IfErr result (λ fault. is_no_space fault ≡ false) }
    {
        reclaim_with_files(table, files, hand, &mut self.dropped, door)
    }
}
