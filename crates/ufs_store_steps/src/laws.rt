// What the store's calls leave, by the ledger, is what marks of the sound state ask for: each law is the contract of a
// function that does nothing.
ghost use Rattle.ufs_store_steps.specs.Marks.{CheckpointsMark, FailedCheckpointsMark, FailedFileCommitsMark, FailedNameCommitsMark, FileCommitsMark, NameCommitsMark};
ghost use Rattle.ufs_store_steps.specs.Runs.{CheckpointRuns, FileCommitRuns, LastIsPassed, NameCommitRuns, QuietRuns, WriteRuns};
ghost use Rattle.ufs_store_steps.specs.Steps.{BlocksRead, CellsAreThere, CheckpointsOpenAlike, EmptiedOpensAlike, FileCommitsGo, FileCommitsMayGo, FilesCommitBytes, NameCommitsGo, NameCommitsMayGo, QuietCallsOpenAlike, StoredHasFiles, WritesGo};
ghost use Rattle.ufs_store_steps.specs.WriteMarks.{FailedBarriersMark, FailedWritesMark, QuietCallsMark, WritesMark};

use ufs_hand_laws::images_show_trees;
use ufs_layout::Geometry;

/// A disk's state as the sound state has it, and which files it has.
pub fn cell_law(geometry: &Geometry)
    ensures cells { CellsAreThere }
    ensures blocks { BlocksRead }
    ensures files { StoredHasFiles geometry.now }
{
    let _geometry = geometry;
}

/// A read, a barrier and a checkpoint, passed or failed, and each moment of them.
pub fn checkpoint_step_law(geometry: &Geometry)
    ensures quiet { QuietCallsOpenAlike geometry.now }
    ensures checkpoint { CheckpointsOpenAlike geometry.now }
    ensures emptied { EmptiedOpensAlike geometry.now }
{
    let _geometry = geometry;
}

/// A write, passed or failed, and each moment of it.
pub fn write_step_law(geometry: &Geometry)
    ensures { WritesGo geometry.now }
{
    let _geometry = geometry;
}

/// A commit of a file: what it commits, what it leaves on the way or where it failed, and where it passed.
pub fn file_step_law(geometry: &Geometry)
    ensures bytes { FilesCommitBytes geometry.now }
    ensures tried { FileCommitsMayGo geometry.now }
    ensures done { FileCommitsGo geometry.now }
{
    let _geometry = geometry;
}

/// A commit of names: what it leaves on the way or where it failed, and where it passed.
pub fn name_step_law(geometry: &Geometry)
    ensures tried { NameCommitsMayGo geometry.now }
    ensures done { NameCommitsGo geometry.now }
{
    let _geometry = geometry;
}

/// The same at each state that a call passes, on a disk that keeps its moments.
pub fn run_step_law(geometry: &Geometry)
    ensures last { LastIsPassed }
    ensures quiet { QuietRuns geometry.now }
    ensures checkpoint { CheckpointRuns geometry.now }
    ensures write { WriteRuns geometry.now }
    ensures file { FileCommitRuns geometry.now }
    ensures names { NameCommitRuns geometry.now }
{
    let _geometry = geometry;
}

/// Whole marks: of a commit of a file, one of names and a checkpoint, passed or failed, by the ledger's clauses and what a
/// store knows of its own parts.
pub fn mark_law(geometry: &Geometry)
    ensures commit { FileCommitsMark geometry.now }
    ensures failed { FailedFileCommitsMark geometry.now }
    ensures names { NameCommitsMark geometry.now }
    ensures failed_names { FailedNameCommitsMark geometry.now }
    ensures checkpoint { CheckpointsMark geometry.now }
    ensures failed_checkpoint { FailedCheckpointsMark geometry.now }
{
    let _geometry = geometry;
    images_show_trees();
}

/// Whole marks of a write, a read and a barrier.
pub fn write_mark_law(geometry: &Geometry)
    ensures write { WritesMark geometry.now }
    ensures failed_write { FailedWritesMark geometry.now }
    ensures quiet { QuietCallsMark geometry.now }
    ensures failed_barrier { FailedBarriersMark geometry.now }
{
    let _geometry = geometry;
    images_show_trees();
}
