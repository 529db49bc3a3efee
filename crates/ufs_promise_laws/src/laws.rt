// How a server on its disk goes on by entries, commits, reads and stops. Each law is the contract of a function that does nothing.
ghost use Rattle.ufs_layout.specs.Areas.{IsGeometry};
ghost use Rattle.ufs_promise_laws.specs.AlwaysLaws.{CheckpointImagesAreExplained, CheckpointsAreExplained, CommitImagesAreExplained, CommitsAreExplained, ImagesAreExplained, LedgersAreExplained, RestIsExplained, StagesAreExplained};
ghost use Rattle.ufs_promise_laws.specs.OnDiskLaws.{AllIsSynced, BarriersStop, CheckpointsStop, CommitsStop, FileIsSynced, NamesAreSynced, OnDiskIsExcused, OnDiskIsExplained, OnDiskIsProper, OnDiskIsRefused, OnDiskReads, OnDiskStaysBeside, OnDiskStaysStill, WritesStop};
ghost use Rattle.ufs_promise_laws.specs.Laws.{BlocksMove, CallsAreExplained, DirFsyncsKeep, EmptiedIsStored, ExcusesKeep, FileEntriesKeep, FilesAreCommitted, FilesAreSettled, FsyncsKeep, NameEntriesKeep, NamesAreCommitted, NamesAreCommitting, NamesMayCommit, NotesGoOn, QuietEntriesKeep, SettledIsStored, SpelledIsStored, StillEntriesKeep, StoredIsExplained, SyncsKeep, WrittenIsStored};

use crate::{change_law, files_law, names_go_on_law, noted_law, state_law};
use ufs_crash_laws::{a_history_goes_by_its_changes, an_entry_keeps_what_is_shown};
use ufs_file_commits::{committing_law, others_law, standing_law};
use ufs_layout::Geometry;
use ufs_ledger::{opening_law, promise_law, proper_law};
use ufs_names::a_file_request_keeps_the_names;

/// Whatever a crash leaves is explained.
pub fn stored_explains(geometry: &Geometry)
    requires { IsGeometry geometry.now }
    ensures crash { StoredIsExplained geometry.now }
    ensures calls { CallsAreExplained geometry.now }
{
    opening_law(geometry);
}

/// The history is longer by an entry: one that leaves the parts as they are, or one of the names.
pub fn entry_law(geometry: &Geometry)
    requires { IsGeometry geometry.now }
    ensures quiet { QuietEntriesKeep geometry.now }
    ensures still { StillEntriesKeep geometry.now }
    ensures excused { ExcusesKeep geometry.now }
    ensures names { NameEntriesKeep geometry.now }
{
    promise_law(geometry);
    an_entry_keeps_what_is_shown();
}

/// The history is longer by an entry of a request on a file.
pub fn file_entry_law(geometry: &Geometry)
    requires { IsGeometry geometry.now }
    ensures { FileEntriesKeep geometry.now }
{
    promise_law(geometry);
    an_entry_keeps_what_is_shown();
    a_file_request_keeps_the_names();
    standing_law();
    committing_law();
}

/// What an `fsync` or a `sync` acknowledges stands on the disk.
pub fn sync_law(geometry: &Geometry)
    requires { IsGeometry geometry.now }
    ensures fsync { FsyncsKeep geometry.now }
    ensures dir_fsync { DirFsyncsKeep geometry.now }
    ensures sync { SyncsKeep geometry.now }
{
    promise_law(geometry);
    an_entry_keeps_what_is_shown();
}

/// Blocks that directories took are made ready for a commit of names, and a checkpoint is made.
pub fn ready_law(geometry: &Geometry)
    requires { IsGeometry geometry.now }
    ensures write { WrittenIsStored geometry.now }
    ensures barrier { SettledIsStored geometry.now }
    ensures spelled { SpelledIsStored geometry.now }
    ensures checkpoint { EmptiedIsStored geometry.now }
{
    promise_law(geometry);
    state_law(geometry);
}

/// Free blocks go between the server's pool and the store.
pub fn pool_law()
    ensures { BlocksMove }
{}

/// What the names' notes tell of a change goes on from the disk.
pub fn notes_law(geometry: &Geometry)
    requires { IsGeometry geometry.now }
    ensures { NotesGoOn geometry.now }
{
    noted_law(geometry);
    change_law(geometry);
}

/// The names are committed.
pub fn names_commit_law(geometry: &Geometry)
    requires { IsGeometry geometry.now }
    ensures may { NamesMayCommit geometry.now }
    ensures committing { NamesAreCommitting geometry.now }
    ensures committed { NamesAreCommitted geometry.now }
{
    promise_law(geometry);
    a_history_goes_by_its_changes();
    change_law(geometry);
    files_law(geometry);
    names_go_on_law(geometry);
}

/// A file is committed, or settled where nothing but bytes changed.
pub fn file_commit_law()
    ensures committed { FilesAreCommitted }
    ensures settled { FilesAreSettled }
{
    committing_law();
    others_law();
    standing_law();
}

/// A server stays on its disk, also once its store has stopped.
pub fn on_disk_law(geometry: &Geometry)
    requires { IsGeometry geometry.now }
    ensures explained { OnDiskIsExplained geometry.now }
    ensures proper { OnDiskIsProper geometry.now }
    ensures excused { OnDiskIsExcused geometry.now }
    ensures still { OnDiskStaysStill geometry.now }
    ensures refused { OnDiskIsRefused geometry.now }
    ensures beside { OnDiskStaysBeside geometry.now }
    ensures names_synced { NamesAreSynced geometry.now }
    ensures file_synced { FileIsSynced geometry.now }
    ensures all_synced { AllIsSynced geometry.now }
{
    opening_law(geometry);
    proper_law(geometry);
    promise_law(geometry);
    an_entry_keeps_what_is_shown();
}

/// What is read of a block of a file that isn't dirty begins with what the file has there, also once the store has stopped.
pub fn read_law()
    ensures { OnDiskReads }
{}

/// Where a store stops its server stays on the disk.
pub fn stopping_law(geometry: &Geometry)
    requires { IsGeometry geometry.now }
    ensures barrier { BarriersStop geometry.now }
    ensures write { WritesStop geometry.now }
    ensures checkpoint { CheckpointsStop geometry.now }
    ensures commit { CommitsStop geometry.now }
{
    promise_law(geometry);
}

/// At each moment of calls of a store, whatever a crash leaves is explained and proper.
pub fn always_law(geometry: &Geometry)
    requires { IsGeometry geometry.now }
    ensures image { ImagesAreExplained geometry.now }
    ensures checkpoint_image { CheckpointImagesAreExplained geometry.now }
    ensures commit_image { CommitImagesAreExplained geometry.now }
    ensures ledger { LedgersAreExplained geometry.now }
    ensures stages { StagesAreExplained geometry.now }
    ensures checkpoint { CheckpointsAreExplained geometry.now }
    ensures commit { CommitsAreExplained geometry.now }
    ensures rest { RestIsExplained geometry.now }
{
    opening_law(geometry);
    proper_law(geometry);
    promise_law(geometry);
}
