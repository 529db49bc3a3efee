// A file, what is known of its commits, and the right to its cell.
ghost use Rattle.ufs_turns.specs.AllLent.{LendsAll, without_dropped};
ghost use Rattle.std.specs.Prelude.{ℕ, List, ◌≡◌, ◌≢◌, ◌≤◌, ◌+◌, ◌∷◌, ◌++◌, ◌||◌, suc, [], true, false, Err, None, Some, IfErr, IsSome, OnErr, OnOk, is_some, length};
ghost use Rattle.std.specs.FinMap as fin;
ghost use Rattle.std.specs.FinSet as set;
ghost use Rattle.ufs_bitmap.specs.Blocks.{BlockSet};
ghost use Rattle.ufs_bitmap.specs.Taking.{set_of};
ghost use Rattle.ufs_model.specs.declared.data.Op.TheVariants as op;
ghost use Rattle.ufs_model.specs.declared.data.Reply.TheVariants as reply;
ghost use Rattle.ufs_file.specs.Content.{IsContentOf};
ghost use Rattle.ufs_file.specs.Hand.{FileState, HasNeeded, IsEntryOf, IsExcusedFor, IsOf, whole_as};
ghost use Rattle.ufs_layout.specs.Areas.{IsGeometry};
ghost use Rattle.ufs_model.specs.Bounds.{IsBounded};
ghost use Rattle.ufs_model.specs.FileCalls.{file_refusal, file_step};
ghost use Rattle.ufs_model.specs.History.{is_excused};
ghost use Rattle.ufs_model.specs.declared.data.Desc.{Desc};
ghost use Rattle.ufs_model.specs.declared.data.Excuse.{Excuse};
ghost use Rattle.ufs_model.specs.declared.data.Excuse.TheVariants as excuse;
ghost use Rattle.ufs_file_commits.specs.Serving.{IsServedKept};
ghost use Rattle.ufs_file_commits.specs.State.{file_committed, state_of, whole_of};
ghost use Rattle.ufs_crash_laws.specs.Changes.{asks_commit};
ghost use Rattle.ufs_hand_laws.specs.Parts.{ClientPart};
ghost use Rattle.ufs_joint.specs.Cells.{NamesCell, View};
ghost use Rattle.ufs_joint.specs.Rule.{MayDrawAny};
ghost use Rattle.ufs_joint.specs.Servers.{IsServer};
ghost use Rattle.ufs_store.specs.Refusals.{fault_in, is_no_space};
ghost use Rattle.ufs_store.specs.declared.fault.StoreFault.TheVariants as refusal;
ghost use Rattle.ufs_turns.specs.Lent.{AreTold, Runs, StopsByFault, TellsStop, TellsWhere, IsBeside};
ghost use Rattle.ufs_turns.specs.Told.{fault_told, told_list};
ghost use Rattle.ufs_held.specs.Asking.{Asks, IsAnswered, IsGuest, IsSyncReply};
ghost use Rattle.ufs_held.specs.Births.{HasStill};
ghost use Rattle.ufs_held.specs.Committed.{HasSameCells};
ghost use Rattle.ufs_held.specs.Held.{HasFileAlone, IsHeld, first_cell};
ghost use Rattle.ufs_held.specs.Serving.{IsReadFor, IsServeCause, read_as};
ghost use Rattle.ufs_held.specs.Stopping.{ExcusesByStop, RestsByReply, StopsByReply};
ghost use Rattle.ufs_held.specs.Together.{AreApartFrom, HasDrawnStill, HasThemToo, still_of};

use crate::births::tell_lent;
use crate::commits::commit_lent;
use crate::serving::{serve_lent, serve_ready};
use crate::still::draw_still;
use crate::syncs::sync_lent;
use std::marker::Model;
use ufs_bitmap::Pool;
use ufs_extent::Extents;
use ufs_file::FileHand;
use ufs_file_commits::FileCommits;
use ufs_hand_laws::Fresh;
use ufs_joint::{Hand, HandTable, Naming};
use ufs_layout::Geometry;
use ufs_model::{Actor, Ask, Desc, Entry, PartName};
use ufs_store::StoreFault;
use ufs_turns::Turns;

/// A file as a server of session `N` holds it. Contracts see its cell, which tells what the file has.
#[derive(Drop)]
pub struct HeldFile<N: Naming> {
    hand: FileHand,
    commits: FileCommits,
    right: Hand<N>,
}

impl<N: Naming> Model for HeldFile<N> {
    ghost use Rattle.std.specs.Prelude.{◌≡◌, []};
    ghost use Rattle.ufs_file_commits.specs.State.{state_of};
    ghost use Rattle.ufs_joint.specs.Cells.{FileCell};
    ghost use Rattle.ufs_joint.specs.Codes.{file_code};
    ghost use Rattle.ufs_held.specs.Held.{IsHeld, first_cell};

    ghost Value = { FileCell };

    ghost coded = { file_code };

    ghost view = { λ h. first_cell (state_of h.hand h.commits) h.right.files };

    ghost invariant = { λ h. IsHeld (state_of h.hand h.commits) h.right × (h.right.faults ≡ []) };
}

/// What a request was answered, and the hand that came with it.
#[derive(Drop)]
pub struct Served<N: Naming> {
    pub entry: Entry,
    /// What the request's descriptor stands for afterwards.
    pub desc: Option<Desc>,
    pub guest: Hand<N>,
}

/// The blocks of a file that is no more, and the right to its cell. Those that it dropped since its last commit are what `commits`
/// tells.
#[derive(Drop)]
pub struct Dropped<N: Naming> {
    pub hand: Hand<N>,
    pub extents: Extents,
    pub commits: FileCommits,
}

impl<N: Naming> HeldFile<N> {
    pub fn new(hand: FileHand, commits: FileCommits, right: Hand<N>) -> HeldFile<N>
        requires held { IsHeld (state_of hand commits) right }
        requires calm { right.faults ≡ [] }
        ensures { result ≡ first_cell (state_of hand commits) right.files }
    {
        HeldFile {
            hand,
            commits,
            right,
        }
    }

    pub fn into_parts(self) -> (FileHand, FileCommits, Hand<N>)
        ensures value { self.value ≡ state_of result.0 result.1 }
        ensures hand { HasFileAlone self result.2 }
        ensures calm { result.2.faults ≡ [] }
    {
        let HeldFile {
            hand,
            commits,
            right,
        } = self;
        (hand, commits, right)
    }

    /// The right to its cell, without the file. Takes no memory.
    pub fn into_hand(self) -> Hand<N>
        ensures alone { HasFileAlone self result }
        ensures calm { result.faults ≡ [] }
    {
        self.right
    }

    /// Its number in the tree.
    pub fn number(&self) -> u32
        ensures { result ≡ self.now.value.file.file }
    {
        self.hand.file()
    }

    /// The number of its inode.
    pub fn inode(&self) -> u32
        ensures { result ≡ self.now.value.file.inode }
    {
        self.hand.inode()
    }

    /// Its length, in bytes; the blocks that aren't in memory count too.
    pub fn len(&self) -> u64
        ensures { result ≡ length self.now.value.file.content.bytes }
    {
        self.hand.size()
    }

    /// All its blocks, with the right to its cell, for who draws that the file is no more. Takes no memory.
    pub fn drop_blocks(self) -> Dropped<N>
        ensures extents { result.extents ≡ self.value.file.extents }
        ensures quarantine { result.commits.dropped ≡ self.value.dropped }
        ensures hand { HasFileAlone self result.hand }
        ensures calm { result.hand.faults ≡ [] }
    {
        let HeldFile {
            hand,
            commits,
            right,
        } = self;
        Dropped {
            hand: right,
            extents: hand.drop_blocks(),
            commits,
        }
    }

    /// Tells the file its birth, where the names, which this hand has, know it as committed. A file that is held is live: the names
    /// tell of it. Takes no memory.
    pub fn tell_born(&mut self, table: &HandTable<N>, names: &mut Hand<N>, geometry: &Geometry)
        requires formed { IsGeometry geometry.now }
        requires its { geometry.now ≡ N.start.geometry }
        requires names { (cell : NamesCell) × (names.old.names ≡ (tt, cell) ∷ []) }
        ensures told { (cell : NamesCell) → names.old.names ≡ (tt, cell) ∷ [] → self.new ≡ record self.old { born = self.old.born || set.contains cell.named self.old.value.file.file } }
        ensures live { (cell : NamesCell) → names.old.names ≡ (tt, cell) ∷ [] → IsSome (fin.get cell.value.held self.old.value.file.file) }
        ensures still { HasStill names.old names.new }
    {
        let HeldFile {
            hand,
            commits,
            right,
        } = self;
        tell_lent(table, right, hand, commits, names, geometry)
    }

    /// Serves a request on a descriptor of the file that commits nothing, where it is refused or the blocks that it needs are in memory.
    /// The hand that comes with it has its client and the server's pool; it goes back with one more entry.
    pub fn serve_here(
        &mut self,
        table: &HandTable<N>,
        ask: Ask,
        guest: Hand<N>,
        by: Actor,
        pool: &mut Pool,
    ) -> Served<N>
        requires guest { (part : ClientPart) × (n : ℕ) × IsGuest ask.client part n pool.old guest × Asks part ask × (n ≢ self.old.value.file.file) }
        requires server { IsServer by }
        requires no_commit { asks_commit ask.op ≡ false }
        requires bounded { IsBounded ask.op }
        requires named { IsOf ask.desc self.old.value.file.file }
        requires there { (d : Desc) → ask.desc ≡ Some d → file_refusal self.old.value.file.content.bytes d ask.op ≡ None → HasNeeded self.old.value.file.content d ask.op }
        ensures entry { IsEntryOf ask by result.entry.ticket result.entry }
        ensures guest { (part : ClientPart) (n : ℕ) → IsGuest ask.client part n pool.old guest → n ≢ self.old.value.file.file → (after : ClientPart) × IsAnswered part result.entry result.desc after × IsGuest ask.client after n pool.new result.guest }
        ensures number { self.new.value.file.file ≡ self.old.value.file.file }
        ensures served { is_excused result.entry.reply ≡ false → (d : Desc) → ask.desc ≡ Some d → (bytes : List ℕ) → IsContentOf self.old.value.file.content bytes
            → IsServedKept (whole_of bytes (self.old.value)) (whole_of (file_step bytes d ask.op).bytes (self.new.value)) pool.old pool.new d ask.op result.entry.reply result.desc }
        ensures excused { (x : Excuse) → result.entry.reply ≡ reply.Excused x → (d : Desc) → ask.desc ≡ Some d → (bytes : List ℕ) → IsContentOf self.old.value.file.content bytes → IsExcusedFor (whole_as bytes self.old.value.file) d ask.op pool.old x }
        ensures untaken { is_excused result.entry.reply ≡ true → pool.new ≡ pool.old }
        ensures desc { is_excused result.entry.reply ≡ true → result.desc ≡ ask.desc }
        ensures kept { is_excused result.entry.reply ≡ true → self.new ≡ self.old }
        ensures changed { is_excused result.entry.reply ≡ false → self.new.changed ≡ suc result.entry.ticket }
        ensures known { self.new.known ≡ self.old.known }
        ensures born { self.new.born ≡ self.old.born }
        // no fault that the guest was told before excuses it
        ensures faults { result.guest.faults ≡ guest.faults }
        ensures later { guest.seen ≤ result.entry.ticket }
        ensures seen { result.guest.seen ≡ suc result.entry.ticket }
    {
        let HeldFile {
            hand,
            commits,
            right,
        } = self;
        serve_ready(table, right, hand, commits, ask, guest, by, pool)
    }

    /// Serves an `fsync` of the file, whose birth is known as committed: commits the file in one turn of the store, and acknowledges
    /// it. Where the commit fails, the request is excused by the fault or by the stop of the store, and the file is as it was.
    pub fn sync<T: Turns<N>>(
        &mut self,
        table: &HandTable<N>,
        ask: Ask,
        guest: Hand<N>,
        by: Actor,
        door: &mut T,
    ) -> Served<N>
        requires guest { (part : ClientPart) × (n : ℕ) × (pool : BlockSet) × IsGuest ask.client part n pool guest × Asks part ask × (n ≢ self.old.value.file.file) }
        requires server { IsServer by }
        requires fsync { (fd : ℕ) × (ask.op ≡ op.Fsync fd) }
        requires named { IsOf ask.desc self.old.value.file.file }
        requires born { self.old.born ≡ true }
        ensures entry { IsEntryOf ask by result.entry.ticket result.entry }
        ensures replied { IsSyncReply result.entry.reply }
        ensures desc { result.desc ≡ ask.desc }
        ensures guest { (part : ClientPart) (n : ℕ) (pool : BlockSet) → IsGuest ask.client part n pool guest → n ≢ self.old.value.file.file → (after : ClientPart) × IsAnswered part result.entry result.desc after × IsGuest ask.client after n pool result.guest }
        ensures committed { result.entry.reply ≡ reply.Done → self.new.value ≡ file_committed self.old.value }
        ensures known { result.entry.reply ≡ reply.Done → N.start.is_visible ≡ true → self.new.changed ≤ self.new.known }
        ensures kept { is_excused result.entry.reply ≡ true → self.new ≡ self.old }
        ensures rest { self.new ≡ record self.old { value = self.new.value; known = self.new.known } }
        // no fault that the guest was told before excuses it, and a stop is the store's
        ensures faults { result.guest.faults ≡ guest.faults }
        ensures stop { (fault : ℕ) → result.entry.reply ≡ reply.Excused (excuse.Stopped fault) → result.guest.stop ≡ Some fault }
        ensures freed { result.entry.reply ≡ reply.Done → AreTold (T.tells door.old) (T.tells door.new) (λ had has. has ≡ set.union had (set_of self.old.value.dropped)) }
        ensures unfreed { is_excused result.entry.reply ≡ true → AreTold (T.tells door.old) (T.tells door.new) (λ had has. has ≡ had) }
        ensures telling { is_some (T.tells door.new) ≡ is_some (T.tells door.old) }
        ensures halts { StopsByReply (T.tells door.old) (T.tells door.new) 1 1 result.entry.reply }
        ensures halted { ExcusesByStop (T.tells door.old) result.entry.reply }
        ensures later { guest.seen ≤ result.entry.ticket }
        ensures seen { result.guest.seen ≡ suc result.entry.ticket }
    {
        let HeldFile {
            hand,
            commits,
            right,
        } = self;
        sync_lent(table, right, hand, commits, ask, guest, by, door)
    }

    /// Commits the file, whose birth is known as committed, in one turn of the store, and draws no entry. Where it passes, all that
    /// changed of the file is known as committed; else it is as it was, and the guest was told the fault by which it failed, or that
    /// the store has stopped.
    pub fn commit<T: Turns<N>>(
        &mut self,
        table: &HandTable<N>,
        guest: &mut Hand<N>,
        door: &mut T,
    ) -> Result<(), StoreFault>
        requires born { self.old.born ≡ true }
        ensures committed { OnOk result (self.new.value ≡ file_committed self.old.value) }
        ensures known { OnOk result (N.start.is_visible ≡ true → self.new.changed ≤ self.new.known) }
        ensures kept { OnErr result (self.new ≡ self.old) }
        ensures rest { self.new ≡ record self.old { value = self.new.value; known = self.new.known } }
        ensures same { HasSameCells guest.old guest.new }
        ensures faults { guest.new.faults ≡ told_list (fault_told (fault_in result)) ++ guest.old.faults }
        ensures stop { (fault : ℕ) → result ≡ Err (refusal.Stopped fault) → guest.new.stop ≡ Some fault }
        ensures stops { (fault : ℕ) → fault_told (fault_in result) ≡ Some fault → guest.new.stop ≡ Some fault }
        ensures freed { OnOk result (AreTold (T.tells door.old) (T.tells door.new) (λ had has. has ≡ set.union had (set_of self.old.value.dropped))) }
        ensures unfreed { OnErr result (AreTold (T.tells door.old) (T.tells door.new) (λ had has. has ≡ had)) }
        ensures telling { is_some (T.tells door.new) ≡ is_some (T.tells door.old) }
        ensures halts { StopsByFault (T.tells door.old) (T.tells door.new) (fault_in result) }
        ensures ran { Runs (T.tells door.old) (T.tells door.new) (fault_in result) 1 1 }
        ensures halted { TellsStop (T.tells door.old) result }
        ensures stopped { TellsWhere (T.tells door.new) result }
        ensures refused { IfErr result (λ fault. is_no_space fault ≡ false) }
    {
        let HeldFile {
            hand,
            commits,
            right,
        } = self;
        commit_lent(table, right, hand, commits, guest, door)
    }

    /// Serves a request on a descriptor of the file that commits nothing. Where it isn't refused, the blocks that it needs are read
    /// first, in one turn of the store; where one can't be read, the request is excused by the fault, and what was read stays.
    pub fn serve<T: Turns<N>>(
        &mut self,
        table: &HandTable<N>,
        ask: Ask,
        guest: Hand<N>,
        by: Actor,
        pool: &mut Pool,
        door: &mut T,
    ) -> Served<N>
        requires guest { (part : ClientPart) × (n : ℕ) × IsGuest ask.client part n pool.old guest × Asks part ask × (n ≢ self.old.value.file.file) }
        requires server { IsServer by }
        requires no_commit { asks_commit ask.op ≡ false }
        requires bounded { IsBounded ask.op }
        requires named { IsOf ask.desc self.old.value.file.file }
        ensures entry { IsEntryOf ask by result.entry.ticket result.entry }
        ensures guest { (part : ClientPart) (n : ℕ) → IsGuest ask.client part n pool.old guest → n ≢ self.old.value.file.file → (after : ClientPart) × IsAnswered part result.entry result.desc after × IsGuest ask.client after n pool.new result.guest }
        ensures number { self.new.value.file.file ≡ self.old.value.file.file }
        ensures served { is_excused result.entry.reply ≡ false → (d : Desc) → ask.desc ≡ Some d → (read : FileState) × IsReadFor self.old.value.file read d ask.op × ((bytes : List ℕ) → IsContentOf read.content bytes
            → IsServedKept (whole_of bytes (read_as read self.old.value)) (whole_of (file_step bytes d ask.op).bytes (self.new.value)) pool.old pool.new d ask.op result.entry.reply result.desc) }
        ensures excused { (x : Excuse) → result.entry.reply ≡ reply.Excused x → (d : Desc) → ask.desc ≡ Some d → IsServeCause self.old.value.file self.new.value.file pool.old d ask.op x }
        ensures read { is_excused result.entry.reply ≡ true → (d : Desc) → ask.desc ≡ Some d → IsReadFor self.old.value.file self.new.value.file d ask.op }
        ensures kept { is_excused result.entry.reply ≡ true → self.new ≡ record self.old { value = read_as self.new.value.file self.old.value } }
        ensures untaken { is_excused result.entry.reply ≡ true → pool.new ≡ pool.old }
        ensures desc { is_excused result.entry.reply ≡ true → result.desc ≡ ask.desc }
        ensures changed { is_excused result.entry.reply ≡ false → self.new.changed ≡ suc result.entry.ticket }
        ensures known { self.new.known ≡ self.old.known }
        ensures born { self.new.born ≡ self.old.born }
        // no fault that the guest was told before excuses it
        ensures faults { result.guest.faults ≡ guest.faults }
        ensures free { AreTold (T.tells door.old) (T.tells door.new) (λ had has. has ≡ had) }
        ensures telling { is_some (T.tells door.new) ≡ is_some (T.tells door.old) }
        ensures halts { RestsByReply (T.tells door.old) (T.tells door.new) result.entry.reply }
        ensures later { guest.seen ≤ result.entry.ticket }
        ensures seen { result.guest.seen ≡ suc result.entry.ticket }
    {
        let HeldFile {
            hand,
            commits,
            right,
        } = self;
        serve_lent(table, right, hand, commits, ask, guest, by, pool, door)
    }
}

/// Draws an entry that leaves all as it is, by a hand that has each of these files meanwhile. Takes no memory, and goes as deep as there
/// are files.
pub fn draw_with_files<N: Naming>(
    table: &HandTable<N>,
    files: &mut [HeldFile<N>],
    hand: &mut Hand<N>,
    fresh: &Fresh,
) -> u64
    requires apart { AreApartFrom hand.old files.old }
    requires may { (v : View) → HasThemToo files.old hand.old v → MayDrawAny N.start v fresh.now (λ n. still_of v) }
    ensures files { files.new ≡ files.old }
    ensures drawn { HasDrawnStill result fresh.now hand.old hand.new }
{
    let Some((file, rest)) = files.split_first_mut() else {
        return draw_still(table, hand, fresh);
    };
    let HeldFile {
        hand: own,
        commits: _,
        right,
    } = file;
    let number = own.file();
    let lent = right.split(table, PartName::File(number));
    hand.join(table, lent);
    let ticket = draw_with_files(table, rest, hand, fresh);
    let lent = hand.split(table, PartName::File(number));
    right.join(table, lent);
    ticket
}

/// Makes a checkpoint by a hand with the names, to which each of these files lends its right: what the names dropped is unassigned behind
/// it. The files are as they were.
pub fn reclaim_with_files<N: Naming, T: Turns<N>>(
    table: &HandTable<N>,
    files: &mut [HeldFile<N>],
    hand: &mut Hand<N>,
    dropped: &mut Pool,
    door: &mut T,
) -> Result<(), StoreFault>
    requires apart { AreApartFrom hand.old files.old }
    requires lent { (v : View) → HasThemToo files.old hand.old v → (names : NamesCell) × LendsAll names v × (names.dropped ≡ dropped.old) }
    requires away { hand.old.store ≡ [] }
    ensures files { files.new ≡ files.old }
    ensures ok { OnOk result ((names : NamesCell) → hand.old.names ≡ (tt, names) ∷ [] → hand.new.names ≡ (tt, without_dropped names) ∷ []) }
    ensures err { OnErr result (hand.new.names ≡ hand.old.names) }
    ensures own { hand.new.files ≡ hand.old.files }
    ensures away { hand.new.store ≡ [] }
    ensures beside { IsBeside hand.old hand.new }
    ensures back { OnOk result ((dropped.new ≡ set.empty) × AreTold (T.tells door.old) (T.tells door.new) (λ had has. has ≡ set.union had dropped.old)) }
    ensures kept { OnErr result ((dropped.new ≡ dropped.old) × AreTold (T.tells door.old) (T.tells door.new) (λ had has. has ≡ had)) }
    ensures ran { Runs (T.tells door.old) (T.tells door.new) (fault_in result) 1 0 }
    ensures telling { is_some (T.tells door.new) ≡ is_some (T.tells door.old) }
    ensures faults { hand.new.faults ≡ told_list (fault_told (fault_in result)) ++ hand.old.faults }
    ensures stop { (fault : ℕ) → result ≡ Err (refusal.Stopped fault) → hand.new.stop ≡ Some fault }
    ensures halts { StopsByFault (T.tells door.old) (T.tells door.new) (fault_in result) }
    ensures halted { TellsStop (T.tells door.old) result }
    ensures stopped { TellsWhere (T.tells door.new) result }
    ensures refused { IfErr result (λ fault. is_no_space fault ≡ false) }
{
    let Some((file, rest)) = files.split_first_mut() else {
        return door.reclaim(hand, dropped);
    };
    let HeldFile {
        hand: own,
        commits: _,
        right,
    } = file;
    let number = own.file();
    let lent = right.split(table, PartName::File(number));
    hand.join(table, lent);
    let made = reclaim_with_files(table, rest, hand, dropped, door);
    let lent = hand.split(table, PartName::File(number));
    right.join(table, lent);
    made
}

/// By a look of a hand that has each of these files meanwhile: there are no more of them than inodes. The files are as they were. Takes no
/// memory, and goes as deep as there are files.
pub fn see_files<N: Naming>(table: &HandTable<N>, files: &mut [HeldFile<N>], hand: &mut Hand<N>)
    requires apart { AreApartFrom hand.old files.old }
    ensures files { files.new ≡ files.old }
    ensures still { HasStill hand.old hand.new }
    ensures few { length hand.old.files + length files.old ≤ N.start.geometry.inodes }
{
    let Some((file, rest)) = files.split_first_mut() else {
        hand.look(table);
        return;
    };
    let HeldFile {
        hand: own,
        commits: _,
        right,
    } = file;
    let number = own.file();
    let lent = right.split(table, PartName::File(number));
    hand.join(table, lent);
    see_files(table, rest, hand);
    let lent = hand.split(table, PartName::File(number));
    right.join(table, lent);
}
