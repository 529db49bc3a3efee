// The hand of a session: with all its parts, but for files that are apart.
ghost use Rattle.std.specs.FinMap as fin;
ghost use Rattle.std.specs.Prelude.{ℕ, ◌+◌, ◌≡◌, ◌≤◌, ◌<◌, ◌⊎◌, ◌++◌, ◌∷◌, [], List, None, Option, Some, length};
ghost use Rattle.ufs_model.specs.History.{entries_of};
ghost use Rattle.ufs_model.specs.declared.data.Entry.{Entry};
ghost use Rattle.ufs_model.specs.declared.data.Op.{Op};
ghost use Rattle.ufs_hand_laws.specs.Draws.{entry_of, left_faults};
ghost use Rattle.ufs_hand_laws.specs.Owned.{Has, times};
ghost use Rattle.ufs_hand_laws.specs.Parts.{Cells, HoldsPart, both_of, given_of, kept_of};
ghost use Rattle.ufs_hand.specs.Session.{HoldsPool, IsEvent, KnowsAll};
ghost use Rattle.ufs_one_hand.specs.Apart.{FileViews, HasEachFile};
ghost use Rattle.ufs_one_hand.specs.Drawn.{IsAcknowledged, IsAnswer, IsExplainedAtStamps, IsReplyAlike, MayPass, asked_view, fault_met, faults_met, told_as};
ghost use Rattle.ufs_one_hand.specs.OneHand.{HasSession, IsCoveredIn, IsStampedIn, IsStart, KnowsSynced, StartsCanBegin, faults_in, passed_in, stamp_in, state_in};
ghost use Rattle.ufs_hand_laws.specs.Covers.{step_in};
ghost use Rattle.ufs_hand_laws.specs.Visible.{IsDiskVisible};

use crate::picks::{Answering, Passing};
use std::marker::{Brand, Model};
use ufs_base::{MAX_CLIENTS, MAX_REQUESTS};
use ufs_hand::{Begun, Event, Hand, HandTable, Naming, Opened};
use ufs_hand_laws::{
    Fresh, a_disk_with_files_can_be_opened, acknowledged_numbers, explained_images_show,
};
use ufs_model::{
    Entry, Op, PartName, a_request_is_local, a_request_keeps_the_tree,
    a_request_makes_one_file_at_most,
};

/// The right to parts of a session, and the table that gives its tickets. It begins with every part; what is split off is apart
/// until it is joined again. Contracts see which parts it has, with what stands in them.
pub struct OneHand<N: Naming> {
    table: HandTable<N>,
    hand: Hand<N>,
}

// What the hand learns of an acknowledged entry, step by step.
#[derive(Drop)]
enum Learned {
    // The changes of names that it acknowledges are committed.
    Names,
    // The files that it syncs are born.
    Births,
    // The changes of those files are committed.
    Files,
}

impl<N: Naming> Model for OneHand<N> {
    ghost use Rattle.ufs_hand_laws.specs.Codes.{view_code};
    ghost use Rattle.ufs_hand_laws.specs.Parts.{View};

    ghost Value = { View };

    ghost coded = { view_code };

    ghost view = { λ o. o.hand };
}

/// A session may be opened with such a start.
pub fn starts_can_begin()
    ensures { StartsCanBegin }
{
    a_disk_with_files_can_be_opened();
}

/// A session that was opened ends at once.
pub fn abandon(opened: Opened)
    requires { IsStart opened.start }
{
    abandon_as::<Brand>(opened);
}

fn abandon_as<N: Naming>(opened: Opened)
    requires name { (opened.table ≡ N.table) × (opened.start ≡ N.start) }
    requires start { IsStart N.start }
{
    OneHand::<N>::begin(opened).close();
}

impl<N: Naming> OneHand<N> {
    /// The first hand of a session that was opened.
    pub fn begin(opened: Opened) -> OneHand<N>
        requires name { (opened.table ≡ N.table) × (opened.start ≡ N.start) }
        requires start { IsStart N.start }
        ensures session { HasSession N.start [] None result }
        ensures each { HasEachFile N.start [] result fin.empty }
        ensures stop { result.stop ≡ None }
        ensures covered { IsCoveredIn N.start [] result }
        ensures fresh { stamp_in result ≡ 0 }
        ensures passed { passed_in result ≡ 0 }
        ensures state { state_in result ≡ state_in N.start.view }
        ensures faults { result.faults ≡ [] }
        ensures answered { faults_in result ≡ [] }
        ensures shortages { result.shortages ≡ [] }
    {
        a_disk_with_files_can_be_opened();
        let Begun { table, hand } = opened.named::<N>();
        OneHand { table, hand }
    }

    /// A client asks a request, and a turn of the disk begins.
    pub fn ask(&mut self, client: u8, op: &Op)
        requires client { client < MAX_CLIENTS }
        requires idle { (history : List Entry) × HasSession N.start history None self.old × (length (entries_of client history) < MAX_REQUESTS) }
        ensures session { (history : List Entry) → HasSession N.start history None self.old → HasSession N.start history (Some (client, op.now)) self.new }
        ensures apart { (history : List Entry) (files : FileViews) → HasEachFile N.start history self.old files → HasEachFile N.start history self.new files }
        ensures fresh { (history : List Entry) → HasSession N.start history None self.old → stamp_in self.new ≡ length history }
        ensures covered { (history : List Entry) → IsCoveredIn N.start history self.old → IsCoveredIn N.start history self.new }
        ensures stamped { (x : Cells) → IsStampedIn self.old.store x → IsStampedIn self.new.store x }
        ensures passed { passed_in self.new ≡ passed_in self.old }
        ensures stop { self.new.stop ≡ self.old.stop }
        ensures state { state_in self.new ≡ state_in self.old }
        ensures faults { self.new.faults ≡ self.old.faults }
        ensures answered { faults_in self.new ≡ faults_in self.old }
        ensures shortages { self.new.shortages ≡ self.old.shortages }
    {
        self.ask_as::<Brand>(client, op);
        self.turn();
    }

    fn ask_as<E: Event>(&mut self, client: u8, op: &Op)
        requires client { client < MAX_CLIENTS }
        requires leaves { E.leaves ≡ asked_view client op.now self.old }
        requires idle { (history : List Entry) × HasSession N.start history None self.old × (length (entries_of client history) < MAX_REQUESTS) }
        ensures session { (history : List Entry) → HasSession N.start history None self.old → HasSession N.start history (Some (client, op.now)) self.new }
        ensures apart { (history : List Entry) (files : FileViews) → HasEachFile N.start history self.old files → HasEachFile N.start history self.new files }
        ensures store { self.new.store ≡ self.old.store }
        ensures stop { self.new.stop ≡ self.old.stop }
        ensures faults { self.new.faults ≡ self.old.faults }
        ensures shortages { self.new.shortages ≡ self.old.shortages }
    {
        self.hand.mark::<E>(&self.table);
    }

    /// A turn of the disk begins: it is stamped as it is.
    pub fn turn(&mut self)
        requires session { (history : List Entry) × (asked : Option (ℕ × Op)) × HasSession N.start history asked self.old }
        ensures session { (history : List Entry) (asked : Option (ℕ × Op)) → HasSession N.start history asked self.old → HasSession N.start history asked self.new }
        ensures apart { (history : List Entry) (files : FileViews) → HasEachFile N.start history self.old files → HasEachFile N.start history self.new files }
        ensures fresh { (history : List Entry) (asked : Option (ℕ × Op)) → HasSession N.start history asked self.old → stamp_in self.new ≡ length history }
        ensures covered { (history : List Entry) → IsCoveredIn N.start history self.old → IsCoveredIn N.start history self.new }
        ensures stamped { (x : Cells) → IsStampedIn self.old.store x → IsStampedIn self.new.store x }
        ensures passed { passed_in self.new ≡ passed_in self.old }
        ensures stop { self.new.stop ≡ self.old.stop }
        ensures state { state_in self.new ≡ state_in self.old }
        ensures faults { self.new.faults ≡ self.old.faults }
        ensures answered { faults_in self.new ≡ faults_in self.old }
        ensures shortages { self.new.shortages ≡ self.old.shortages }
    {
        self.hand.mark::<Brand>(&self.table);
    }

    /// The disk was called for a request: it passed the states that the caller picks, and is in that one, all of which the
    /// history explains; a call that failed has stopped the store, but for a read, of which the hand has the number.
    pub fn pass<P: Passing>(&mut self)
        requires session { (history : List Entry) × (asked : Option (ℕ × Op)) × MayPass N.start history asked P.states P.state self.old }
        requires stop { (n : ℕ) → self.old.stop ≡ Some n → P.stop ≡ Some n }
        requires stopped { (n : ℕ) → self.old.stop ≡ None → P.stop ≡ Some n → times n (faults_in self.old) ≡ 0 }
        requires failed { (n : ℕ) → P.failed ≡ Some n → times n (faults_in self.old) ≡ 0 }
        requires apart { (n : ℕ) → P.failed ≡ Some n → times n (fault_met self.old.stop P.stop) ≡ 0 }
        ensures session { (history : List Entry) (asked : Option (ℕ × Op)) → HasSession N.start history asked self.old → HasSession N.start history asked self.new }
        ensures apart { (history : List Entry) (files : FileViews) → HasEachFile N.start history self.old files → HasEachFile N.start history self.new files }
        ensures fresh { (history : List Entry) (asked : Option (ℕ × Op)) → HasSession N.start history asked self.old → stamp_in self.new ≡ length history }
        ensures covered { (history : List Entry) → IsCoveredIn N.start history self.old → IsCoveredIn N.start history self.new }
        ensures stamped { (x : Cells) → IsStampedIn self.old.store x ⊎ (Has x P.states ⊎ (x ≡ P.state)) → IsStampedIn self.new.store x }
        ensures passed { passed_in self.new ≡ passed_in self.old + length P.states }
        ensures stop { self.new.stop ≡ P.stop }
        ensures state { state_in self.new ≡ P.state }
        ensures faults { self.new.faults ≡ faults_met P.failed self.old.stop P.stop ++ self.old.faults }
        ensures fault { (n : ℕ) → self.old.stop ≡ None → P.stop ≡ Some n → 1 ≤ times n self.new.faults }
        ensures failed { (n : ℕ) → P.failed ≡ Some n → 1 ≤ times n self.new.faults }
        ensures answered { faults_in self.new ≡ faults_met P.failed self.old.stop P.stop ++ faults_in self.old }
        ensures shortages { self.new.shortages ≡ P.shortages ++ self.old.shortages }
    {
        a_request_keeps_the_tree();
        explained_images_show();
        let table = &self.table;
        self.hand.mark::<Brand>(table);
    }

    /// What the entry acknowledges is committed, as the disk shows: the hand knows so.
    pub fn keep<A: Answering>(&mut self, entry: &Entry)
        requires answer { (history : List Entry) × IsAcknowledged N.start history A.before entry.now self.old }
        ensures session { (history : List Entry) → IsAcknowledged N.start history A.before entry.now self.old → HasSession N.start history (Some (entry.now.client, entry.now.op)) self.new }
        ensures apart { (history : List Entry) (files : FileViews) → HasEachFile N.start history self.old files → HasEachFile N.start history self.new files }
        ensures covered { (history : List Entry) → IsAcknowledged N.start history A.before entry.now self.old → IsCoveredIn N.start (history ++ entry.now ∷ []) self.new }
        ensures known { KnowsSynced (step_in A.before entry.now) self.new }
        ensures stamped { (x : Cells) → IsStampedIn self.old.store x → IsStampedIn self.new.store x }
        ensures passed { passed_in self.new ≡ passed_in self.old }
        ensures stop { self.new.stop ≡ self.old.stop }
        ensures state { state_in self.new ≡ state_in self.old }
        ensures faults { self.new.faults ≡ self.old.faults }
        ensures answered { faults_in self.new ≡ faults_in self.old }
        ensures shortages { self.new.shortages ≡ self.old.shortages }
    {
        a_request_keeps_the_tree();
        acknowledged_numbers();
        explained_images_show();
        self.learn::<Brand>(Learned::Names, entry);
        self.learn::<Brand>(Learned::Births, entry);
        self.learn::<Brand>(Learned::Files, entry);
    }

    // One step of it: the hand has then what the caller picks.
    fn learn<E: Event>(&mut self, learned: Learned, entry: &Entry)
        requires event { IsEvent N.start self.old E.leaves }
        ensures left { (tickets : ℕ) × (self.new ≡ E.leaves tickets) }
    {
        // For the prover alone.
        let _ = learned;
        let _ = entry;
        self.hand.mark::<E>(&self.table);
    }

    /// The next ticket, for the entry that answers what is asked: the number of entries before it. The hand needs the files
    /// that the request touches; others may be apart. The history has the entry with the reply that the caller picks, which
    /// over a disk that isn't visible may have other bytes of a file than the code's.
    pub fn draw<A: Answering>(&mut self, fresh: &Fresh) -> u64
        requires answer { (history : List Entry) × IsAnswer N.start history A.before (told_as A.reply fresh.now) A.fds self.old }
        requires alike { IsReplyAlike N.start A.reply fresh.now.reply }
        ensures ticket { (history : List Entry) → HasSession N.start history (Some (fresh.now.client, fresh.now.op)) self.old → result ≡ length history }
        ensures session { (history : List Entry) → IsAnswer N.start history A.before (told_as A.reply fresh.now) A.fds self.old
            → HasSession N.start (history ++ entry_of result (told_as A.reply fresh.now) ∷ []) None self.new }
        ensures apart { (history : List Entry) (files : FileViews) → IsAnswer N.start history A.before (told_as A.reply fresh.now) A.fds self.old
            → HasEachFile N.start history self.old files → HasEachFile N.start (history ++ entry_of result (told_as A.reply fresh.now) ∷ []) self.new files }
        ensures stop { self.new.stop ≡ self.old.stop }
        ensures state { state_in self.new ≡ state_in self.old }
        ensures store { self.new.store ≡ self.old.store }
        ensures faults { self.new.faults ≡ left_faults fresh.now.reply self.old.faults }
        ensures answered { faults_in self.new ≡ faults_in self.old }
        ensures shortages { self.new.shortages ≡ [] }
    {
        a_request_is_local();
        a_request_keeps_the_tree();
        a_request_makes_one_file_at_most();
        self.hand.draw_as::<Brand, Brand>(&self.table, fresh)
    }

    /// A new hand with just this part, which this one has no more. A pool's part is named like a file's.
    pub fn split(&mut self, part: PartName) -> Hand<N>
        requires { HoldsPart part self.old ⊎ HoldsPool part self.old }
        ensures kept { self.new ≡ kept_of part self.old }
        ensures given { result ≡ given_of part self.old }
    {
        self.hand.split(&self.table, part)
    }

    /// This hand has the parts of both, and the other is no more.
    pub fn join(&mut self, other: Hand<N>)
        ensures { self.new ≡ both_of self.old other }
    {
        self.hand.join(&self.table, other);
    }

    /// The end of the session, when no file is apart. Answers how many entries were drawn. The hand knows one whole history,
    /// and each state of a visible disk that it stamped is explained by it.
    pub fn close(self) -> u64
        requires session { (history : List Entry) × HasSession N.start history None self × HasEachFile N.start history self fin.empty }
        ensures tickets { (history : List Entry) → HasSession N.start history None self → result ≡ length history }
        ensures whole { (clock : ℕ) × KnowsAll N.start result clock self }
        ensures explained { IsDiskVisible N.start → (history : List Entry) → HasSession N.start history None self → (x : Cells) → IsStampedIn self.store x → IsExplainedAtStamps N.start.tree history x }
    {
        let OneHand { table, hand } = self;
        hand.close(table).tickets
    }
}
