// A file is committed in a turn of the store, and no entry is drawn.
ghost use Rattle.std.specs.Prelude.{ℕ, ◌≡◌, ◌≤◌, ◌++◌, [], true, false, Err, Some, IfErr, OnErr, OnOk, is_some};
ghost use Rattle.std.specs.FinSet as set;
ghost use Rattle.ufs_bitmap.specs.Taking.{set_of};
ghost use Rattle.ufs_file_commits.specs.State.{file_committed, state_of};
ghost use Rattle.ufs_store.specs.Refusals.{fault_in, is_no_space};
ghost use Rattle.ufs_store.specs.declared.fault.StoreFault.TheVariants as refusal;
ghost use Rattle.ufs_turns.specs.Lent.{AreTold, Runs, StopsByFault, TellsStop, TellsWhere};
ghost use Rattle.ufs_turns.specs.Told.{fault_told, told_list};
ghost use Rattle.ufs_held.specs.Committed.{HasSameCells};
ghost use Rattle.ufs_held.specs.Held.{IsHeld, first_cell};

use std::mem;
use ufs_file::FileHand;
use ufs_file_commits::FileCommits;
use ufs_joint::{Hand, HandTable, Naming};
use ufs_model::PartName;
use ufs_store::StoreFault;
use ufs_turns::Turns;

// Commits the file. The guest is told the fault.
pub(crate) fn commit_lent<N: Naming, T: Turns<N>>(
    table: &HandTable<N>,
    right: &mut Hand<N>,
    file: &mut FileHand,
    commits: &mut FileCommits,
    guest: &mut Hand<N>,
    door: &mut T,
) -> Result<(), StoreFault>
    requires held { IsHeld (state_of file.old commits.old) right.old }
    requires calm { right.old.faults ≡ [] }
    requires born { (first_cell (state_of file.old commits.old) right.old.files).born ≡ true }
    ensures held { IsHeld (state_of file.new commits.new) right.new }
    ensures calm { right.new.faults ≡ [] }
    ensures committed { OnOk result (state_of file.new commits.new ≡ file_committed (state_of file.old commits.old)) }
    ensures known { OnOk result (N.start.is_visible ≡ true → (first_cell (state_of file.new commits.new) right.new.files).changed ≤ (first_cell (state_of file.new commits.new) right.new.files).known) }
    ensures kept { OnErr result (first_cell (state_of file.new commits.new) right.new.files ≡ first_cell (state_of file.old commits.old) right.old.files) }
    ensures cell { first_cell (state_of file.new commits.new) right.new.files ≡ record (first_cell (state_of file.old commits.old) right.old.files) { value = state_of file.new commits.new; known = (first_cell (state_of file.new commits.new) right.new.files).known } }
    ensures same { HasSameCells guest.old guest.new }
    ensures faults { guest.new.faults ≡ told_list (fault_told (fault_in result)) ++ guest.old.faults }
    ensures stop { (fault : ℕ) → result ≡ Err (refusal.Stopped fault) → guest.new.stop ≡ Some fault }
    ensures stops { (fault : ℕ) → fault_told (fault_in result) ≡ Some fault → guest.new.stop ≡ Some fault }
    ensures freed { OnOk result (AreTold (T.tells door.old) (T.tells door.new) (λ had has. has ≡ set.union had (set_of commits.old.dropped))) }
    ensures unfreed { OnErr result (AreTold (T.tells door.old) (T.tells door.new) (λ had has. has ≡ had)) }
    ensures telling { is_some (T.tells door.new) ≡ is_some (T.tells door.old) }
    ensures halts { StopsByFault (T.tells door.old) (T.tells door.new) (fault_in result) }
    ensures ran { Runs (T.tells door.old) (T.tells door.new) (fault_in result) 1 1 }
    ensures halted { TellsStop (T.tells door.old) result }
    ensures stopped { TellsWhere (T.tells door.new) result }
    ensures refused { IfErr result (λ fault. is_no_space fault ≡ false) }
{
    let done = commit_own(right, file, commits, door);
    hand_on(table, right, file, commits, guest);
    done
}

// Commits the file by its own hand, which is told the fault.
fn commit_own<N: Naming, T: Turns<N>>(
    right: &mut Hand<N>,
    file: &mut FileHand,
    commits: &mut FileCommits,
    door: &mut T,
) -> Result<(), StoreFault>
    requires held { IsHeld (state_of file.old commits.old) right.old }
    requires calm { right.old.faults ≡ [] }
    requires born { (first_cell (state_of file.old commits.old) right.old.files).born ≡ true }
    ensures held { IsHeld (state_of file.new commits.new) right.new }
    ensures committed { OnOk result (state_of file.new commits.new ≡ file_committed (state_of file.old commits.old)) }
    ensures known { OnOk result (N.start.is_visible ≡ true → (first_cell (state_of file.new commits.new) right.new.files).changed ≤ (first_cell (state_of file.new commits.new) right.new.files).known) }
    ensures kept { OnErr result (first_cell (state_of file.new commits.new) right.new.files ≡ first_cell (state_of file.old commits.old) right.old.files) }
    ensures cell { first_cell (state_of file.new commits.new) right.new.files ≡ record (first_cell (state_of file.old commits.old) right.old.files) { value = state_of file.new commits.new; known = (first_cell (state_of file.new commits.new) right.new.files).known } }
    ensures faults { right.new.faults ≡ told_list (fault_told (fault_in result)) }
    ensures stop { (fault : ℕ) → result ≡ Err (refusal.Stopped fault) → right.new.stop ≡ Some fault }
    ensures stops { (fault : ℕ) → fault_told (fault_in result) ≡ Some fault → right.new.stop ≡ Some fault }
    ensures freed { OnOk result (AreTold (T.tells door.old) (T.tells door.new) (λ had has. has ≡ set.union had (set_of commits.old.dropped))) }
    ensures unfreed { OnErr result (AreTold (T.tells door.old) (T.tells door.new) (λ had has. has ≡ had)) }
    ensures telling { is_some (T.tells door.new) ≡ is_some (T.tells door.old) }
    ensures halts { StopsByFault (T.tells door.old) (T.tells door.new) (fault_in result) }
    ensures ran { Runs (T.tells door.old) (T.tells door.new) (fault_in result) 1 1 }
    ensures halted { TellsStop (T.tells door.old) result }
    ensures stopped { TellsWhere (T.tells door.new) result }
    ensures refused { IfErr result (λ fault. is_no_space fault ≡ false) }
{
    match door.sync_file(right, file, commits) {
        Ok(_) => Ok(()),
        Err(fault) => Err(fault),
    }
}

// What the file's hand was told goes to the guest.
fn hand_on<N: Naming>(
    table: &HandTable<N>,
    right: &mut Hand<N>,
    file: &FileHand,
    commits: &FileCommits,
    guest: &mut Hand<N>,
)
    requires held { IsHeld (state_of file.now commits.now) right.old }
    ensures held { IsHeld (state_of file.now commits.now) right.new }
    ensures calm { right.new.faults ≡ [] }
    ensures cell { first_cell (state_of file.now commits.now) right.new.files ≡ first_cell (state_of file.now commits.now) right.old.files }
    ensures same { HasSameCells guest.old guest.new }
    ensures faults { guest.new.faults ≡ right.old.faults ++ guest.old.faults }
    ensures stop { (fault : ℕ) → right.old.stop ≡ Some fault → guest.new.stop ≡ Some fault }
{
    // For the prover alone.
    let _ = commits;
    let own = right.split(table, PartName::File(file.file()));
    let told = mem::replace(right, own);
    let came = mem::replace(guest, told);
    guest.join(table, came);
}
