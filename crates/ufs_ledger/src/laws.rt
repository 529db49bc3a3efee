// Laws of the definitions, each the contract of a function that does nothing.
ghost use Rattle.ufs_layout.specs.Areas.{IsGeometry};
ghost use Rattle.ufs_ledger.specs.Laws.{AppendsQuietly, BarriersKeep, BarriersSettle, BeginningIsKept, BeginsAnew, BeginsForGood, BeginsQuietly, CommitsForGood, CommitsKeep, CommitsOrNot, CommittedIsKept, CommittingIsKept, DirsShrink, EitherExplains, EmptiedIsKept, EntriesKeep, FewerAreKept, FilesCommit, FilesMayCommit, FormsMayCommit, FreeBlocksKeep, HasOpeningLedger, HasTried, HasWritten, HomesQuietly, LedgersAreSound, LedgersExplain, LeftIsProper, OpensAsKept, OpensMeanwhile, RunsExplain, RunsExplainMeanwhile, SettledIsKept, ShowsNow, WritesBlock, WritingKeeps, WrittenIsKept, ZerosJoin};

use ufs_image::{damage_law, fold_law, walk_law};
use ufs_layout::Geometry;
use ufs_model::a_request_keeps_the_tree;

/// Whatever a crash leaves is explained.
pub fn opening_law(geometry: &Geometry)
    requires { IsGeometry geometry.now }
    ensures kept { OpensAsKept geometry.now }
    ensures meanwhile { OpensMeanwhile geometry.now }
    ensures ledger { LedgersExplain geometry.now }
    ensures runs { RunsExplain geometry.now }
    ensures either { EitherExplains geometry.now }
    ensures between { RunsExplainMeanwhile geometry.now }
{
    walk_law(geometry);
    fold_law(geometry);
}

/// Whatever a crash leaves is proper.
pub fn proper_law(geometry: &Geometry)
    ensures { LeftIsProper geometry.now }
{
    fold_law(geometry);
}

/// Blocks are written, and a barrier settles them.
pub fn block_law(sectors: usize)
    ensures barrier { BarriersKeep sectors }
    ensures settled { BarriersSettle sectors }
    ensures write { WritesBlock sectors }
    ensures written { HasWritten sectors }
    ensures tried { HasTried sectors }
    ensures zeros { ZerosJoin sectors }
    ensures fewer { DirsShrink sectors }
{
    let _sectors = sectors;
}

/// A transaction is appended and committed.
pub fn commit_law(geometry: &Geometry, sectors: usize)
    ensures append { AppendsQuietly sectors }
    ensures maybe { CommitsOrNot geometry.now }
    ensures good { CommitsForGood geometry.now }
{
    fold_law(geometry);
    let _sectors = sectors;
}

/// What is committed is written home, and another superblock is written.
pub fn checkpoint_law(sectors: usize)
    ensures home { HomesQuietly sectors }
    ensures quietly { BeginsQuietly sectors }
    ensures anew { BeginsAnew sectors }
    ensures good { BeginsForGood sectors }
{
    let _sectors = sectors;
}

/// What of an inode may be committed, whatever the history.
pub fn form_law()
    ensures sound { LedgersAreSound }
    ensures may { FormsMayCommit }
{}

/// How the promise is kept, whichever disk it is of.
pub fn promise_law(geometry: &Geometry)
    requires { IsGeometry geometry.now }
    ensures barrier { FewerAreKept geometry.now }
    ensures write { WritingKeeps geometry.now }
    ensures entry { EntriesKeep geometry.now }
    ensures commit { CommitsKeep geometry.now }
    ensures now { ShowsNow }
    ensures may { FilesMayCommit geometry.now }
    ensures file { FilesCommit geometry.now }
    ensures written { WrittenIsKept geometry.now }
    ensures settled { SettledIsKept geometry.now }
    ensures committing { CommittingIsKept geometry.now }
    ensures committed { CommittedIsKept geometry.now }
    ensures beginning { BeginningIsKept geometry.now }
    ensures emptied { EmptiedIsKept geometry.now }
    ensures zeros { FreeBlocksKeep geometry.now }
{
    a_request_keeps_the_tree();
    let _geometry = geometry;
}

/// A disk that is mounted has a ledger.
pub fn mount_law(geometry: &Geometry)
    requires { IsGeometry geometry.now }
    ensures { HasOpeningLedger geometry.now }
{
    damage_law(geometry);
}
