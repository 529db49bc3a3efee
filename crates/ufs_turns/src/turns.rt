ghost use Rattle.std.specs.Prelude.{ℕ, ◌≡◌, ◌+◌, ◌++◌, ◌∷◌, [], true, false, Ok, Err, None, Option, Some, IfErr, IfSome, IsTrue, OnOk, OnErr, is_some, length};
ghost use Rattle.std.specs.FinSet as set;
ghost use Rattle.ufs_bitmap.specs.Blocks.{BlockSet};
ghost use Rattle.ufs_bitmap.specs.Taking.{set_of};
ghost use Rattle.ufs_file.specs.Hand.{HasNeeded};
ghost use Rattle.ufs_file_commits.specs.Fetching.{IsReadOn};
ghost use Rattle.ufs_file_commits.specs.State.{file_committed, state_of};
ghost use Rattle.ufs_names.specs.Notes.{with_notes};
ghost use Rattle.ufs_joint.specs.Cells.{FileCell, NamesCell, View};
ghost use Rattle.ufs_store.specs.Refusals.{fault_in, is_no_space, is_own};
ghost use Rattle.ufs_store.specs.declared.fault.StoreFault.TheVariants as refusal;
ghost use Rattle.ufs_turns.specs.AllLent.{LendsAll, without_dropped};
ghost use Rattle.ufs_turns.specs.Lent.{AreTold, GainsBlocks, HasCommitted, IsBare, IsBeside, IsBesidePools, LacksBlocks, LendsFile, LendsPool, Runs, StopsByFault, TellsStop, TellsWhere, stop_in, used_in};
ghost use Rattle.ufs_turns.specs.NamesLent.{HaveCommitted, LendsNames};
ghost use Rattle.ufs_turns.specs.Told.{fault_told, told_list};

use ufs_bitmap::Pool;
use ufs_file::FileHand;
use ufs_file_commits::FileCommits;
use ufs_joint::{Hand, Naming};
use ufs_model::{Desc, Op};
use ufs_names::Names;
use ufs_store::StoreFault;

/// A way to the store of session `N`. Each call is a turn: nobody else comes to the store meanwhile. What its contracts say
/// is of the hand that is lent and of the answer, since others may change the store between two turns; and of the store's cell by a
/// way that tells it: by such a way the device's count of faults goes on by what is told alone, and by each call it is known how far
/// the store's epoch and its next commit number may rise (`ran`). A call that neither commits nor makes a checkpoint leaves the store
/// going, or stopped where it had (`rests`), also where the disk fails.
pub trait Turns<N: Naming> {
    /// The store's own hand, where nobody else comes to the store between two turns.
    ghost tells: { Self → Option View };

    /// How many answers the store has given to this way that no cell of a lent hand shows: checkpoints that it made, and wishes for
    /// blocks that it couldn't meet. The store alone counts them, so no way answers so without a turn.
    ghost answers: { Self → ℕ };

    /// Commits a file whose birth is known as committed: the whole of its `fsync`. Where it passes, all that changed of the file is
    /// known as committed; else the hand has what it had, and was told the fault by which it failed, or that the store has stopped.
    fn sync_file(
        &mut self,
        hand: &mut Hand<N>,
        file: &mut FileHand,
        commits: &mut FileCommits,
    ) -> Result<u64, StoreFault>
        requires lent { (name : ℕ) × (cell : FileCell) × LendsFile name cell hand.old × (cell.value ≡ state_of file.old commits.old) × (cell.born ≡ true) }
        ensures ok { OnOk result ((name : ℕ) (cell : FileCell) → LendsFile name cell hand.old → HasCommitted N.start.is_visible name cell (state_of file.new commits.new) hand.new) }
        ensures err { OnErr result ((name : ℕ) (cell : FileCell) → LendsFile name cell hand.old → cell.value ≡ state_of file.old commits.old → LendsFile name cell hand.new) }
        ensures away { hand.new.store ≡ [] }
        ensures beside { IsBeside hand.old hand.new }
        ensures committed { OnOk result (state_of file.new commits.new ≡ file_committed (state_of file.old commits.old)) }
        ensures kept { OnErr result (state_of file.new commits.new ≡ state_of file.old commits.old) }
        ensures freed { OnOk result (AreTold (tells self.old) (tells self.new) (λ had has. has ≡ set.union had (set_of commits.old.dropped))) }
        ensures unfreed { OnErr result (AreTold (tells self.old) (tells self.new) (λ had has. has ≡ had)) }
        ensures ran { Runs (tells self.old) (tells self.new) (fault_in result) 1 1 }
        ensures telling { is_some (tells self.new) ≡ is_some (tells self.old) }
        ensures answers { answers self.new ≡ answers self.old }
        ensures faults { hand.new.faults ≡ told_list (fault_told (fault_in result)) ++ hand.old.faults }
        ensures stop { (fault : ℕ) → result ≡ Err (refusal.Stopped fault) → hand.new.stop ≡ Some fault }
        ensures stops { (fault : ℕ) → fault_told (fault_in result) ≡ Some fault → hand.new.stop ≡ Some fault }
        ensures halts { StopsByFault (tells self.old) (tells self.new) (fault_in result) }
        ensures halted { TellsStop (tells self.old) result }
        ensures stopped { TellsWhere (tells self.new) result }
        ensures refused { IfErr result (λ fault. is_no_space fault ≡ false) };

    /// Reads the blocks of a file that a request on a descriptor of it needs and that aren't in memory. What was read stays, also
    /// where a later block fails; the hand was told the fault then.
    fn fetch(
        &mut self,
        hand: &mut Hand<N>,
        file: &mut FileHand,
        commits: &FileCommits,
        op: &Op,
        desc: Desc,
    ) -> Result<(), StoreFault>
        requires lent { (name : ℕ) × (cell : FileCell) × LendsFile name cell hand.old × (cell.value ≡ state_of file.old commits.now) }
        ensures lent { (name : ℕ) (cell : FileCell) → LendsFile name cell hand.old → LendsFile name (record cell { value = state_of file.new commits.now }) hand.new }
        ensures there { OnOk result (HasNeeded file.new.content desc op.now) }
        ensures read { IsReadOn file.old file.new }
        ensures still { length file.new.content.bytes ≡ length file.old.content.bytes }
        ensures nothing { HasNeeded file.old.content desc op.now → (file.new ≡ file.old) × (result ≡ Ok tt) }
        ensures free { AreTold (tells self.old) (tells self.new) (λ had has. has ≡ had) }
        ensures ran { Runs (tells self.old) (tells self.new) (fault_in result) 0 0 }
        ensures rests { StopsByFault (tells self.old) (tells self.new) None }
        ensures telling { is_some (tells self.new) ≡ is_some (tells self.old) }
        ensures answers { answers self.new ≡ answers self.old }
        ensures beside { IsBeside hand.old hand.new }
        ensures faults { hand.new.faults ≡ told_list (fault_told (fault_in result)) ++ hand.old.faults }
        ensures refused { IfErr result (λ fault. IsTrue (is_own fault)) };

    /// Commits the names, with zeros for the blocks that directories took since the last such turn. Where it passes, all that changed of
    /// the names is known as committed, nothing is noted and no block is fresh; else the hand has what it had, and was told the fault by
    /// which it failed, or that the store has stopped.
    fn commit_names(
        &mut self,
        hand: &mut Hand<N>,
        names: &mut Names,
        fresh: &mut Vec<u32>,
    ) -> Result<(), StoreFault>
        requires lent { (cell : NamesCell) × LendsNames cell hand.old × (cell.value ≡ names.old) × (cell.fresh ≡ fresh.old.items) }
        ensures ok { OnOk result ((cell : NamesCell) → LendsNames cell hand.old → HaveCommitted N.start.is_visible cell hand.new) }
        ensures err { OnErr result ((cell : NamesCell) → LendsNames cell hand.old → LendsNames cell hand.new) }
        ensures away { hand.new.store ≡ [] }
        ensures beside { IsBeside hand.old hand.new }
        ensures committed { OnOk result (names.new ≡ with_notes (Some []) names.old) }
        ensures spent { OnOk result (fresh.new.items ≡ []) }
        ensures kept { OnErr result (names.new ≡ names.old) }
        ensures unspent { OnErr result (fresh.new.items ≡ fresh.old.items) }
        ensures free { AreTold (tells self.old) (tells self.new) (λ had has. has ≡ had) }
        ensures ran { Runs (tells self.old) (tells self.new) (fault_in result) 1 1 }
        ensures telling { is_some (tells self.new) ≡ is_some (tells self.old) }
        ensures answers { answers self.new ≡ answers self.old }
        ensures faults { hand.new.faults ≡ told_list (fault_told (fault_in result)) ++ hand.old.faults }
        ensures stop { (fault : ℕ) → result ≡ Err (refusal.Stopped fault) → hand.new.stop ≡ Some fault }
        ensures stops { (fault : ℕ) → fault_told (fault_in result) ≡ Some fault → hand.new.stop ≡ Some fault }
        ensures halts { StopsByFault (tells self.old) (tells self.new) (fault_in result) }
        ensures halted { TellsStop (tells self.old) result }
        ensures stopped { TellsWhere (tells self.new) result }
        ensures refused { IfErr result (λ fault. is_no_space fault ≡ false) };

    /// Gives a pool the lowest unassigned blocks: so many, and 64 more where there are. Where there are fewer it says how many there
    /// were, and nothing moves. No call of the disk.
    fn give_pool(
        &mut self,
        hand: &mut Hand<N>,
        pool: &mut Pool,
        missing: u32,
    ) -> Result<(), StoreFault>
        requires lent { (name : ℕ) × LendsPool name pool.old hand.old }
        ensures lent { (name : ℕ) → LendsPool name pool.old hand.old → LendsPool name pool.new hand.new }
        ensures beside { IsBesidePools hand.old hand.new }
        ensures given { OnOk result ((had : BlockSet) × (left : BlockSet) × GainsBlocks missing had left pool.old pool.new) }
        ensures lacks { IfErr result (λ fault. (had : ℕ) × LacksBlocks missing had fault) }
        ensures kept { OnErr result (pool.new ≡ pool.old) }
        ensures lowest { OnOk result (AreTold (tells self.old) (tells self.new) (λ had left. GainsBlocks missing had left pool.old pool.new)) }
        ensures fewer { IfErr result (λ fault. AreTold (tells self.old) (tells self.new) (λ had left. LacksBlocks missing (set.len had) fault × (left ≡ had))) }
        ensures ran { Runs (tells self.old) (tells self.new) None 0 0 }
        ensures rests { StopsByFault (tells self.old) (tells self.new) None }
        ensures telling { is_some (tells self.new) ≡ is_some (tells self.old) }
        ensures met { OnOk result (answers self.new ≡ answers self.old) }
        ensures unmet { OnErr result (answers self.new ≡ answers self.old + 1) };

    /// Every block of a pool is unassigned again. No call of the disk.
    fn take_back(&mut self, hand: &mut Hand<N>, pool: &mut Pool)
        requires lent { (name : ℕ) × LendsPool name pool.old hand.old }
        ensures lent { (name : ℕ) → LendsPool name pool.old hand.old → LendsPool name pool.new hand.new }
        ensures beside { IsBesidePools hand.old hand.new }
        ensures none { pool.new ≡ set.empty }
        ensures back { AreTold (tells self.old) (tells self.new) (λ had has. has ≡ set.union had pool.old) }
        ensures ran { Runs (tells self.old) (tells self.new) None 0 0 }
        ensures rests { StopsByFault (tells self.old) (tells self.new) None }
        ensures telling { is_some (tells self.new) ≡ is_some (tells self.old) }
        ensures answers { answers self.new ≡ answers self.old };

    /// Writes home all that is committed, and begins the next epoch with the whole journal. The hand that is lent has no file; it was
    /// told the fault where the disk failed, or that the store has stopped.
    fn checkpoint(&mut self, hand: &mut Hand<N>) -> Result<(), StoreFault>
        requires bare { IsBare hand.old }
        ensures emptied { OnOk result (IfSome (tells self.new) (λ v. used_in v.store ≡ 0)) }
        ensures free { AreTold (tells self.old) (tells self.new) (λ had has. has ≡ had) }
        ensures ran { Runs (tells self.old) (tells self.new) (fault_in result) 1 0 }
        ensures telling { is_some (tells self.new) ≡ is_some (tells self.old) }
        ensures made { OnOk result (answers self.new ≡ answers self.old + 1) }
        ensures unmade { OnErr result (answers self.new ≡ answers self.old) }
        ensures bare { IsBare hand.new }
        ensures beside { IsBeside hand.old hand.new }
        ensures faults { hand.new.faults ≡ told_list (fault_told (fault_in result)) ++ hand.old.faults }
        ensures stop { (fault : ℕ) → result ≡ Err (refusal.Stopped fault) → hand.new.stop ≡ Some fault }
        ensures halts { StopsByFault (tells self.old) (tells self.new) (fault_in result) }
        ensures halted { TellsStop (tells self.old) result }
        ensures stopped { TellsWhere (tells self.new) result }
        ensures refused { IfErr result (λ fault. is_no_space fault ≡ false) };

    /// The fault at which the store stopped, if it did: the hand knows it then. A turn in which nothing is done; the hand that is lent has
    /// no file. No call of the disk.
    fn stopped(&mut self, hand: &mut Hand<N>) -> Option<u64>
        requires bare { IsBare hand.old }
        ensures told { IfSome (tells self.old) (λ v. result ≡ stop_in v.store) }
        ensures stop { hand.new.stop ≡ result }
        ensures free { AreTold (tells self.old) (tells self.new) (λ had has. has ≡ had) }
        ensures ran { Runs (tells self.old) (tells self.new) None 0 0 }
        ensures rests { StopsByFault (tells self.old) (tells self.new) None }
        ensures telling { is_some (tells self.new) ≡ is_some (tells self.old) }
        ensures answers { answers self.new ≡ answers self.old }
        ensures bare { IsBare hand.new }
        ensures beside { IsBeside hand.old hand.new }
        ensures faults { hand.new.faults ≡ hand.old.faults };

    /// Makes a checkpoint by a hand with the names and each live file, where nothing of the names and of the files is left to commit: what
    /// directories and removed files dropped is unassigned behind it. Where it fails all stays, and the hand was told the fault, or that the
    /// store has stopped.
    fn reclaim(&mut self, hand: &mut Hand<N>, dropped: &mut Pool) -> Result<(), StoreFault>
        requires lent { (names : NamesCell) × LendsAll names hand.old × (names.dropped ≡ dropped.old) }
        requires away { hand.old.store ≡ [] }
        ensures ok { OnOk result ((names : NamesCell) → hand.old.names ≡ (tt, names) ∷ [] → hand.new.names ≡ (tt, without_dropped names) ∷ []) }
        ensures err { OnErr result (hand.new.names ≡ hand.old.names) }
        ensures files { hand.new.files ≡ hand.old.files }
        ensures away { hand.new.store ≡ [] }
        ensures beside { IsBeside hand.old hand.new }
        ensures back { OnOk result ((dropped.new ≡ set.empty) × AreTold (tells self.old) (tells self.new) (λ had has. has ≡ set.union had dropped.old)) }
        ensures kept { OnErr result ((dropped.new ≡ dropped.old) × AreTold (tells self.old) (tells self.new) (λ had has. has ≡ had)) }
        ensures ran { Runs (tells self.old) (tells self.new) (fault_in result) 1 0 }
        ensures telling { is_some (tells self.new) ≡ is_some (tells self.old) }
        ensures made { OnOk result (answers self.new ≡ answers self.old + 1) }
        ensures unmade { OnErr result (answers self.new ≡ answers self.old) }
        ensures faults { hand.new.faults ≡ told_list (fault_told (fault_in result)) ++ hand.old.faults }
        ensures stop { (fault : ℕ) → result ≡ Err (refusal.Stopped fault) → hand.new.stop ≡ Some fault }
        ensures halts { StopsByFault (tells self.old) (tells self.new) (fault_in result) }
        ensures halted { TellsStop (tells self.old) result }
        ensures stopped { TellsWhere (tells self.new) result }
        ensures refused { IfErr result (λ fault. is_no_space fault ≡ false) };
}
