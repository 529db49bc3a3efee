// Laws of single events, by what is known as committed. Each law is the contract of a function that does nothing.
ghost use Rattle.ufs_layout.specs.Areas.{IsGeometry};
ghost use Rattle.ufs_joint.specs.Files.{FailedFilesStayKept, FetchesStayKept, FilesAreExplained, FilesAreKnown, FilesMayLeave, WrittenFilesStayKept};
ghost use Rattle.ufs_joint.specs.KnownDraws.{BesideStaysKept, ExcusesStayKept, FileRequestsStayKept, NameRequestsStayKept, StillStaysKept};
ghost use Rattle.ufs_joint.specs.Forgetting.{KeptIsOnDisk, LessIsKept, OnDiskIsKept};
ghost use Rattle.ufs_joint.specs.More.{FilesAreKnownThen, FilesKnowMore, NamesAreKnownThen, NamesKnowMore};
ghost use Rattle.ufs_joint.specs.Blocks.{BlocksStayByCommits, BlocksStayByRequests};
ghost use Rattle.ufs_joint.specs.Beside.{FilesStayBeside, NamesStayBeside};
ghost use Rattle.ufs_joint.specs.Pools.{PoolsJoin, PoolsPart, PoolsStayKept};
ghost use Rattle.ufs_joint.specs.Lent.{LentAreApart, LentIsServed, LentRequestsStayKept};
ghost use Rattle.ufs_joint.specs.Acks.{AllIsAcknowledged, DirsAreAcknowledged, FilesAreAcknowledged};

use ufs_crash_laws::{
    a_file_is_explained_alone, a_history_goes_by_its_changes, an_entry_keeps_what_is_shown,
};
use ufs_file_commits::{committing_law, others_law, standing_law};
use ufs_layout::Geometry;
use ufs_ledger::promise_law;
use ufs_model::a_request_keeps_the_tree;
use ufs_names::a_file_request_keeps_the_names;
use ufs_promise_laws::{always_law, entry_law, file_commit_law, names_law, notes_law, ready_law};

/// An `fsync` is acknowledged where what it asks for is known as committed.
pub fn ack_law()
    ensures file { FilesAreAcknowledged }
    ensures dir { DirsAreAcknowledged }
{
    an_entry_keeps_what_is_shown();
    a_request_keeps_the_tree();
}

/// So is a `sync`.
pub fn sync_law(geometry: &Geometry)
    requires { IsGeometry geometry.now }
    ensures { AllIsAcknowledged geometry.now }
{
    promise_law(geometry);
    an_entry_keeps_what_is_shown();
    a_request_keeps_the_tree();
    a_history_goes_by_its_changes();
}

/// An entry is drawn that acknowledges nothing, and leaves the names.
pub fn draw_law()
    ensures excused { ExcusesStayKept }
    ensures still { StillStaysKept }
    ensures beside { BesideStaysKept }
    ensures file { FileRequestsStayKept }
{
    an_entry_keeps_what_is_shown();
    a_request_keeps_the_tree();
    a_file_request_keeps_the_names();
    standing_law();
    committing_law();
}

/// One of a request of the names is.
pub fn names_draw_law(geometry: &Geometry)
    requires { IsGeometry geometry.now }
    ensures names { NameRequestsStayKept geometry.now }
    ensures lent { LentRequestsStayKept geometry.now }
{
    promise_law(geometry);
    an_entry_keeps_what_is_shown();
    a_history_goes_by_its_changes();
    entry_law(geometry);
    notes_law(geometry);
    names_law(geometry);
}

/// A file is committed, or its commit fails or lacks memory.
pub fn file_law(geometry: &Geometry)
    requires { IsGeometry geometry.now }
    ensures known { FilesAreKnown }
    ensures failed { FailedFilesStayKept }
    ensures written { WrittenFilesStayKept geometry.now }
{
    file_commit_law();
    standing_law();
    committing_law();
    others_law();
    ready_law(geometry);
    a_request_keeps_the_tree();
}

/// At each moment of the commit of a file, whatever a crash leaves is explained and proper.
pub fn file_moments_law(geometry: &Geometry)
    requires { IsGeometry geometry.now }
    ensures allowed { FilesMayLeave geometry.now }
    ensures moments { FilesAreExplained geometry.now }
{
    always_law(geometry);
    committing_law();
    standing_law();
}

/// What is known may be forgotten.
pub fn forgetting_law()
    ensures on_disk { KeptIsOnDisk }
    ensures kept { OnDiskIsKept }
    ensures less { LessIsKept }
{}

/// Free blocks of servers go out of those that count as unassigned, and back.
pub fn pool_law()
    ensures pools { PoolsStayKept }
    ensures join { PoolsJoin }
    ensures part { PoolsPart }
{}

/// Blocks of a file are read from the disk.
pub fn file_fetch_law()
    ensures { FetchesStayKept }
{}

/// The names serve a request with the files that it touches.
pub fn lent_law()
    ensures apart { LentAreApart }
    ensures served { LentIsServed }
{}

/// Entries beside a file or the names are no changes of it.
pub fn beside_law()
    ensures files { FilesStayBeside }
    ensures names { NamesStayBeside }
{
    a_file_is_explained_alone();
}

/// Behind a commit more is known, and it may be acknowledged.
pub fn more_law()
    ensures files { FilesKnowMore }
    ensures names { NamesKnowMore }
    ensures file_known { FilesAreKnownThen }
    ensures names_known { NamesAreKnownThen }
{}

/// A file keeps the blocks that it has on the disk.
pub fn blocks_law()
    ensures requests { BlocksStayByRequests }
    ensures commits { BlocksStayByCommits }
{}
