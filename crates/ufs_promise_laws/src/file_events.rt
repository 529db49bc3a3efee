// Requests on files, reads of blocks and commits of files. Each law is the contract of a function that does nothing.
ghost use Rattle.ufs_layout.specs.Areas.{IsGeometry};
ghost use Rattle.ufs_promise_laws.specs.Fetches.{FetchesAreExplained, FetchesGoOn, FetchesReadTheTree, PartsByFetches, SoundByFetches};
ghost use Rattle.ufs_promise_laws.specs.FileRequests.{FileRequestsGoOn, FreeBlocksGoOn, PartsByExcuses, PartsByFileRequests, SoundByFileRequests, SoundByFreeBlocks};
ghost use Rattle.ufs_promise_laws.specs.Syncs.{CommittedIsForgotten, FailedSyncsGoOn, FileSyncsAreExplained, FileSyncsGoOn, FileSyncsMayLeave, OnDiskAsTold, PutBackAsItWas, SoundAsTold, SoundByFileSyncs, SyncedAsTold, SyncsMayBegin, WrittenSyncsGoOn};

use crate::{always_law, file_commit_law, ready_law};
use ufs_crash_laws::an_entry_keeps_what_is_shown;
use ufs_file_commits::{committing_law, others_law, standing_law};
use ufs_layout::Geometry;
use ufs_model::a_request_keeps_the_tree;
use ufs_names::a_file_request_keeps_the_names;

/// Free blocks move, and requests on files are served.
pub fn file_request_law()
    ensures free { FreeBlocksGoOn }
    ensures free_sound { SoundByFreeBlocks }
    ensures request { FileRequestsGoOn }
    ensures request_sound { SoundByFileRequests }
    ensures parts { PartsByFileRequests }
    ensures excused { PartsByExcuses }
{
    a_request_keeps_the_tree();
    an_entry_keeps_what_is_shown();
    a_file_request_keeps_the_names();
    standing_law();
    committing_law();
}

/// Blocks of a file are read from the disk.
pub fn fetch_law(geometry: &Geometry)
    requires { IsGeometry geometry.now }
    ensures tree { FetchesReadTheTree }
    ensures on_disk { FetchesGoOn }
    ensures moments { FetchesAreExplained geometry.now }
    ensures parts { PartsByFetches }
    ensures sound { SoundByFetches }
{
    always_law(geometry);
}

/// A file is committed.
pub fn file_sync_law()
    ensures may { SyncsMayBegin }
    ensures ok { FileSyncsGoOn }
    ensures sound { SoundByFileSyncs }
{
    file_commit_law();
    standing_law();
    committing_law();
}

/// The commit of a file fails.
pub fn file_failure_law()
    ensures { FailedSyncsGoOn }
{
    committing_law();
    standing_law();
}

/// Memory runs out for the commit of a file.
pub fn file_memory_law(geometry: &Geometry)
    requires { IsGeometry geometry.now }
    ensures { WrittenSyncsGoOn geometry.now }
{
    ready_law(geometry);
    committing_law();
    standing_law();
    others_law();
}

/// At each moment of the commit of a file, whatever a crash leaves is explained and proper.
pub fn file_moments_law(geometry: &Geometry)
    requires { IsGeometry geometry.now }
    ensures allowed { FileSyncsMayLeave geometry.now }
    ensures moments { FileSyncsAreExplained geometry.now }
{
    always_law(geometry);
    committing_law();
    standing_law();
}

/// What is known of commits may be told in other words.
pub fn told_law()
    ensures on_disk { OnDiskAsTold }
    ensures synced { SyncedAsTold }
    ensures sound { SoundAsTold }
    ensures forgotten { CommittedIsForgotten }
    ensures back { PutBackAsItWas }
{}
