// Laws of the definitions, each the contract of a function that does nothing.
ghost use Rattle.ufs_file_commits.specs.Committing.{BarriersShowAll, CommitsShowAll, CountsGoOn, DoneIsKept, FilesMayCommitNext, FitsInode, GoesByEntries, HasTreeBytes, OwnsCommitted, OwnsServed, StagesAreKept, WritesAreKept};
ghost use Rattle.ufs_file_commits.specs.Others.{OwnsBehindCommit, StandsBehindBarrier, StandsBehindCheckpoint, StandsBehindCommit, StandsBehindWrites, StandsOnceCommitted};
ghost use Rattle.ufs_file_commits.specs.Standing.{DirtyMayBeWritten, ReadsServed, ShowsAsCommitted, ShowsTheFile, StandsCommitted, StandsServed, StandsSettled, StandsWhileWritten};
ghost use Rattle.ufs_file_commits.specs.Whole.{NotedAsWhole, WritesAreWhole};

use ufs_crash_laws::a_history_goes_by_its_changes;
use ufs_file::FileHand;
use ufs_model::a_request_keeps_the_tree;

/// A file stands on a ledger behind each request, while its blocks are written, and behind its commit; a
/// crash leaves what it has then.
pub fn standing_law()
    ensures served { StandsServed }
    ensures reads { ReadsServed }
    ensures may { DirtyMayBeWritten }
    ensures written { StandsWhileWritten }
    ensures asked { ShowsAsCommitted }
    ensures committed { StandsCommitted }
    ensures settled { StandsSettled }
    ensures shown { ShowsTheFile }
{}

/// What a server has to know of a file to commit it, and what it knows afterwards, with the ledger kept by
/// its history.
pub fn committing_law()
    ensures may { FilesMayCommitNext }
    ensures written { WritesAreKept }
    ensures shown { CommitsShowAll }
    ensures stages { StagesAreKept }
    ensures done { DoneIsKept }
    ensures empty { BarriersShowAll }
    ensures counts { CountsGoOn }
    ensures own { OwnsCommitted }
    ensures served { OwnsServed }
    ensures entry { GoesByEntries }
    ensures bytes { HasTreeBytes }
{
    a_request_keeps_the_tree();
    a_history_goes_by_its_changes();
}

/// Files beside one that is written and committed.
pub fn others_law()
    ensures barrier { StandsBehindBarrier }
    ensures checkpoint { StandsBehindCheckpoint }
    ensures writes { StandsBehindWrites }
    ensures commit { StandsBehindCommit }
    ensures own { OwnsBehindCommit }
    ensures itself { StandsOnceCommitted }
{}

/// A file of which not all is in memory, beside the one that it is with its bytes.
pub fn whole_law()
    ensures writes { WritesAreWhole }
    ensures noted { NotedAsWhole }
{}

/// An inode has room for each file that a server holds.
pub fn fitting_law(hand: &FileHand)
    ensures { FitsInode hand.now }
{
    let _size = hand.size();
    let _runs = hand.extent_list().as_slice();
}
