// What the steps of hands mean, apart from the table: each a law that an empty function's contract states.
ghost use Rattle.ufs_hand_laws.specs.Covers.{CoversAsSynced};
ghost use Rattle.ufs_hand_laws.specs.Shown.{OpeningsShow, SameTreesShow};
ghost use Rattle.ufs_hand_laws.specs.Acknowledged.{ExplainedShow, AcknowledgedShow, FilesAreAcknowledged, NamesAreAcknowledged, BirthsAreAcknowledged, FilesStayAcknowledged, NamesStayAcknowledged, BirthsStayAcknowledged, BirthsWereCovered, NumbersStayAcknowledged};
ghost use Rattle.ufs_hand_laws.specs.Commits.{BlockWritesShow, FileCommitsShow, NameCommitsShow, UnbornAreFresh, FewerShow};
ghost use Rattle.ufs_hand_laws.specs.Meets.{PassagesMay, FileCommitsMay, NameCommitsMay, FailuresMay, CheckpointsMay, NothingIsDone, NothingIsWritten, WritesAreDone, FileCommitsAreDone, NameCommitsAreDone};
ghost use Rattle.ufs_hand_laws.specs.ByImages.{by_images};
ghost use Rattle.ufs_hand_laws.specs.First.{NewDiskOpens, NewDisksAreVisible, BlindDisksOpen};
ghost use Rattle.ufs_hand_laws.specs.Opened.{OpenedDisksServe, SettledDisksAreVisible, SettledDisksOpen};
ghost use Rattle.ufs_hand_laws.specs.Refused.{DrawsNeedTheirParts, DrawsTakeTheWordsTicket, SplitsLeaveNone, SentPartsAreNotDrawnOn, PartsStandOnce, BlocksStandOnce, SyncsNeedCommits, KnownIsCommitted, TicketsAreOnce, ClosesNeedAll};
ghost use Rattle.ufs_hand_laws.specs.Session.{NewDiskServes};
ghost use Rattle.ufs_hand_laws.specs.FileSession.{FilesAreServed, BlindFilesMayBeWritten, HasOneFile, small_disk};
ghost use Rattle.ufs_hand_laws.specs.Synced.{WritesAreSynced};
ghost use Rattle.ufs_hand_laws.specs.Leased.{LeasesAreServed};
ghost use Rattle.ufs_layout.specs.Areas.{IsGeometry};
ghost use Rattle.ufs_hand_laws.specs.Durable.{StoresAreExplained, ImagesAreExplained};
ghost use Rattle.ufs_hand_laws.specs.Laws.{BeginIsSound, SplitKeeps, JoinKeeps, DrawKeeps, AskKeeps, RemakeKeeps, GrantKeeps, GiveBackKeeps, CloseIsWhole, LookKeeps, TickKeeps, MovesAreMarks, TurnsAreMarks, PassagesAreMarks, TellsAreMarks, CommitsAreMarks, NameCommitsAreMarks, FailedCommitsAreMarks, CheckpointsAreMarks, AnswersAreMarks, HandsKnow};

use ufs_image::new_image_law;
use ufs_layout::Geometry;
use ufs_model::{
    a_request_is_local, a_request_keeps_the_tree, a_request_makes_one_file_at_most,
    a_start_is_a_tree,
};

/// What a state of the disk shows of a history.
pub trait Promise {
    ghost use Rattle.ufs_hand_laws.specs.Explained.{Showing};

    ghost shows: { Showing };
}

/// The first hand, with every part, is sound.
pub fn a_beginning_is_sound<P: Promise>()
    ensures { BeginIsSound P.shows }
{}

/// A hand is split and two are joined, and no part changes.
pub fn hands_are_split_and_joined<P: Promise>()
    ensures split { SplitKeeps P.shows }
    ensures join { JoinKeeps P.shows }
{}

/// An entry is drawn on the parts that a hand has.
pub fn an_entry_is_drawn<P: Promise>()
    ensures { DrawKeeps P.shows }
{
    a_request_is_local();
    a_request_keeps_the_tree();
    a_request_makes_one_file_at_most();
}

/// An event without an entry.
pub fn an_event_is_marked<P: Promise>()
    ensures ask { AskKeeps P.shows }
    ensures remake { RemakeKeeps P.shows }
{
    a_request_keeps_the_tree();
}

/// A lease is granted to a client, and its leases on a part are given back.
pub fn leases_are_granted_and_given_back<P: Promise>()
    ensures grant { GrantKeeps P.shows }
    ensures give_back { GiveBackKeeps P.shows }
{}

/// The clock is read, and moved by the hand with the names.
pub fn the_clock_is_read_and_moved<P: Promise>()
    ensures look { LookKeeps P.shows }
    ensures tick { TickKeeps P.shows }
{}

/// Blocks that move, a store turn that begins, blocks that are written, what is told to a file, a commit of a file and one of
/// names, a call that fails, a checkpoint, reads that failed and blocks that weren't there are events without an entry.
pub fn events_are_marks<P: Promise>()
    ensures moves { MovesAreMarks P.shows }
    ensures turns { TurnsAreMarks P.shows }
    ensures passages { PassagesAreMarks P.shows }
    ensures tells { TellsAreMarks P.shows }
    ensures commits { CommitsAreMarks P.shows }
    ensures name_commits { NameCommitsAreMarks P.shows }
    ensures fails { FailedCommitsAreMarks P.shows }
    ensures checkpoints { CheckpointsAreMarks P.shows }
    ensures answers { AnswersAreMarks P.shows }
{}

/// A hand knows of one history from which its parts come, and with the store's part what the disk shows.
pub fn a_hand_knows<P: Promise>()
    ensures { HandsKnow P.shows }
{
    a_request_keeps_the_tree();
}

/// The hand with every part knows one whole history.
pub fn an_end_is_whole<P: Promise>()
    ensures { CloseIsWhole P.shows }
{
    a_request_keeps_the_tree();
}

/// Which numbers cover what is acknowledged of a file.
pub fn acknowledged_changes_are_covered()
    ensures { CoversAsSynced }
{
    a_request_keeps_the_tree();
}

/// Which numbers of changes an entry acknowledges, and that they stay acknowledged, whatever the next entry is.
pub fn acknowledged_numbers()
    ensures files { FilesAreAcknowledged }
    ensures names { NamesAreAcknowledged }
    ensures births { BirthsAreAcknowledged }
    ensures files_stay { FilesStayAcknowledged }
    ensures names_stay { NamesStayAcknowledged }
    ensures births_stay { BirthsStayAcknowledged }
    ensures births_before { BirthsWereCovered }
    ensures numbers_stay { NumbersStayAcknowledged }
{}

/// What a state shows by the images that a crash may leave in it.
pub struct Images;

impl Promise for Images {
    ghost shows = { by_images };
}

/// What a disk shows at the opening, and while its images open to the same trees.
pub fn images_show_trees()
    ensures opening { OpeningsShow }
    ensures same { SameTreesShow }
{
    a_request_keeps_the_tree();
}

/// A disk that is explained by a history shows the numbers of changes that the history acknowledges: also of the history
/// before its last entry, where that one acknowledges changes.
pub fn explained_images_show()
    ensures explained { ExplainedShow }
    ensures acknowledged { AcknowledgedShow }
{}

/// Blocks that are written, and files and names that are committed, leave a disk that shows the history, by the trees to
/// which its images open.
pub fn commits_show_changes()
    ensures blocks { BlockWritesShow }
    ensures file { FileCommitsShow }
    ensures names { NameCommitsShow }
    ensures unborn { UnbornAreFresh }
    ensures fewer { FewerShow }
{}

/// The conditions of what the store does are met by the trees to which the disk's images open: of a write, a commit of a file
/// and one of names, a call that fails, and a checkpoint.
pub fn images_meet_commits()
    ensures passages { PassagesMay }
    ensures file { FileCommitsMay }
    ensures names { NameCommitsMay }
    ensures failures { FailuresMay }
    ensures checkpoints { CheckpointsMay }
{
    images_show_trees();
}

/// What a call may have done before it failed: nothing, a write, a commit of a file or one of names; and a barrier writes
/// nothing.
pub fn calls_that_fail_may_have_done()
    ensures nothing { NothingIsDone }
    ensures unwritten { NothingIsWritten }
    ensures write { WritesAreDone }
    ensures file { FileCommitsAreDone }
    ensures names { NameCommitsAreDone }
{}

/// Every image that a crash may have left since the opening opens to a tree that the history explains: by the store's part
/// at any time, and at the end by one whole history.
pub fn every_image_is_explained()
    ensures store { StoresAreExplained }
    ensures end { ImagesAreExplained }
{
    a_hand_knows::<Images>();
    an_end_is_whole::<Images>();
}

/// A session can begin on a disk that was formatted and has nothing pending, which is visible and was proper, and on one that
/// isn't visible.
pub fn a_new_disk_can_be_opened(geometry: &Geometry)
    requires { IsGeometry geometry.now }
    ensures told { NewDiskOpens geometry.now }
    ensures visible { NewDisksAreVisible geometry.now }
    ensures blind { BlindDisksOpen }
{
    new_image_law(geometry);
    a_request_keeps_the_tree();
    a_start_is_a_tree();
}

/// A session can begin on a disk that has files: each file of its tree has a part, with its blocks. There may be any number
/// of clients and pools. A disk with nothing pending opens to one tree; where the disk is visible, and its image is proper and
/// marked clean, it is one of which the laws speak.
pub fn a_disk_with_files_can_be_opened()
    ensures serves { OpenedDisksServe }
    ensures visible { SettledDisksAreVisible }
    ensures settled { SettledDisksOpen }
{
    a_request_keeps_the_tree();
    a_start_is_a_tree();
}

/// A short session over a new disk, with a step of each kind: the disk is visible and was proper, each state is sound, and the
/// last hand knows one history.
pub fn a_short_session_is_sound(geometry: &Geometry)
    requires { IsGeometry geometry.now }
    ensures { NewDiskServes geometry.now }
{
    a_new_disk_can_be_opened(geometry);
    a_request_is_local();
    a_request_keeps_the_tree();
    a_request_makes_one_file_at_most();
}

/// A file is written by its client, committed, and synced: each state is sound, to the one with the acknowledged `fsync`.
pub fn a_write_is_synced<P: Promise>()
    ensures { WritesAreSynced P.shows }
{
    a_request_is_local();
    a_request_keeps_the_tree();
    a_request_makes_one_file_at_most();
}

/// A lease on a file is granted to its client, which reads under it while another hand has the file, drops it, and gives it
/// back: each state is sound.
pub fn a_lease_is_served<P: Promise>()
    ensures { LeasesAreServed P.shows }
{
    a_request_is_local();
    a_request_keeps_the_tree();
    a_request_makes_one_file_at_most();
}

/// A short session over a disk with one file: its client opens it, and it is read, written, committed and synced. Each state
/// is sound.
pub fn a_file_session_is_sound()
    ensures served { FilesAreServed }
    ensures blind { BlindFilesMayBeWritten }
    ensures small { HasOneFile small_disk }
{
    a_request_is_local();
    a_request_keeps_the_tree();
    a_request_makes_one_file_at_most();
    a_start_is_a_tree();
}

/// What a step asks of its own hand, in words of what it can't do: a draw on a part that the hand hasn't, a split that
/// leaves the part, a draw on a part that was sent, an acknowledged `fsync` whose changes aren't known as committed, a close without one part.
pub fn a_step_needs_its_parts<P: Promise>()
    ensures draws { DrawsNeedTheirParts }
    ensures splits { SplitsLeaveNone }
    ensures sent { SentPartsAreNotDrawnOn }
    ensures syncs { SyncsNeedCommits P.shows }
    ensures closes { ClosesNeedAll }
{}

/// What no steps of all hands lead to: a part in two hands, a block in two parts, two entries with one ticket, an entry
/// with another ticket than the word's, a file that knows more as committed than the store has.
pub fn nothing_stands_twice<P: Promise>()
    ensures parts { PartsStandOnce P.shows }
    ensures blocks { BlocksStandOnce P.shows }
    ensures tickets { TicketsAreOnce P.shows }
    ensures next { DrawsTakeTheWordsTicket P.shows }
    ensures known { KnownIsCommitted P.shows }
{}
