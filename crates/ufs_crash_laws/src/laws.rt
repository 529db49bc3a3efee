// What it means that a history explains a tree: each a law that an empty function's contract states.
ghost use Rattle.ufs_crash_laws.specs.Laws.{NamesGoByChanges, BytesGoByChanges, NameChangesAreExact, SyncsCountFiles, SyncsCountNames, PlacesShowChanges, SyncedBytesStand, SyncedSizesStand, NumbersExplain, OpeningsAreExplained, EndsAreExplained, ExplainedMeanwhile, StretchesJoin, LaterEntriesDoNotMatter, SyncsAreExact, FsyncsAreExact, FsyncedFilesAreThere, SyncedBytesAreThere};
ghost use Rattle.ufs_crash_laws.specs.StepLaws.{EntriesKeepShown, EntriesKeepCovering, OthersAcknowledgeNothing, FsyncsAcknowledge, DirFsyncsAcknowledge, SyncsAcknowledge, FilesAreExplainedAlone, UntouchedFilesStay, UntouchedNamesStay, ChangesAreLocal, FileCommitsAreShown, NameCommitsAreShown, CommitsAreExplained, WrittenBackIsShown, WrittenBackTreesAreShown, OpeningsAreKept, KeptIsExplained, EntriesAreKept, WriteBacksAreKept, FileCommitsAreKept, NameCommitsAreKept, UnnamedFilesAreKept};

use ufs_model::{
    a_new_name_takes_the_place_of_an_old_one, a_request_is_local, a_request_keeps_the_tree,
};

/// The names and the bytes of files go on by their changes.
pub fn a_history_goes_by_its_changes()
    ensures names { NamesGoByChanges }
    ensures bytes { BytesGoByChanges }
    ensures exact { NameChangesAreExact }
{
    a_request_keeps_the_tree();
    a_new_name_takes_the_place_of_an_old_one();
}

/// What is synced are the changes before each entry that syncs them.
pub fn synced_changes_stand_before_a_sync()
    ensures files { SyncsCountFiles }
    ensures names { SyncsCountNames }
{}

/// What a place of a file may show is told change by change.
pub fn a_place_shows_its_changes()
    ensures places { PlacesShowChanges }
    ensures bytes_stand { SyncedBytesStand }
    ensures sizes_stand { SyncedSizesStand }
{}

/// The opening tree, the last tree, and what a crash leaves between.
pub fn trees_are_explained()
    ensures numbers { NumbersExplain }
    ensures opening { OpeningsAreExplained }
    ensures end { EndsAreExplained }
    ensures meanwhile { ExplainedMeanwhile }
    ensures joined { StretchesJoin }
    ensures later { LaterEntriesDoNotMatter }
{
    a_request_keeps_the_tree();
}

/// What is acknowledged is there after a crash.
pub fn an_acknowledgement_is_kept()
    ensures sync { SyncsAreExact }
    ensures fsync { FsyncsAreExact }
    ensures there { FsyncedFilesAreThere }
    ensures bytes { SyncedBytesAreThere }
{
    a_request_keeps_the_tree();
}

/// One more entry keeps what is shown, and the numbers where they cover what it acknowledges.
pub fn an_entry_keeps_what_is_shown()
    ensures shown { EntriesKeepShown }
    ensures covering { EntriesKeepCovering }
    ensures other { OthersAcknowledgeNothing }
    ensures fsync { FsyncsAcknowledge }
    ensures dir_fsync { DirFsyncsAcknowledge }
    ensures sync { SyncsAcknowledge }
{}

/// Whether a file is explained depends on its own changes alone, and these on what is touched.
pub fn a_file_is_explained_alone()
    ensures alone { FilesAreExplainedAlone }
    ensures untouched { UntouchedFilesStay }
    ensures untouched_names { UntouchedNamesStay }
    ensures local { ChangesAreLocal }
{
    a_request_is_local();
}

/// A commit takes its number further, and the trees before and after it are explained meanwhile.
pub fn a_commit_is_explained_meanwhile()
    ensures file { FileCommitsAreShown }
    ensures names { NameCommitsAreShown }
    ensures meanwhile { CommitsAreExplained }
{
    a_request_keeps_the_tree();
}

/// Bytes that are written back before a commit are explained by the old number.
pub fn bytes_are_written_back_early()
    ensures file { WrittenBackIsShown }
    ensures tree { WrittenBackTreesAreShown }
{}

/// What a store does leaves the promise kept that each image is explained.
pub fn a_store_keeps_the_promise()
    ensures opening { OpeningsAreKept }
    ensures explained { KeptIsExplained }
    ensures entry { EntriesAreKept }
    ensures write_back { WriteBacksAreKept }
    ensures file { FileCommitsAreKept }
    ensures names { NameCommitsAreKept }
    ensures unnamed { UnnamedFilesAreKept }
{
    a_request_keeps_the_tree();
}
