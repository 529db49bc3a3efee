// The names, what was noted of them, and the right to their cell.
ghost use Rattle.ufs_held_names.specs.Reclaims.{IsReclaimed, MayReclaim};
ghost use Rattle.ufs_ilog.specs.Notes.{sectors_noted};
ghost use Rattle.std.specs.Prelude.{ℕ, ◌≡◌, ◌≢◌, ◌<◌, ◌≤◌, ◌+◌, ◌*◌, ◌^◌, ◌++◌, ◌||◌, ◌⊎◌, cond, suc, [], true, false, Err, Some, None, IfErr, IfOk, IfSome, OnErr, OnOk, IsSome, eqb, is_some, length, ◌/◌, ◌↔◌, IsTrue};
ghost use Rattle.std.specs.FinMap as fin;
ghost use Rattle.std.specs.FinSet as set;
ghost use Rattle.ufs_bitmap.specs.Blocks.{BlockSet};
ghost use Rattle.ufs_bitmap.specs.Taking.{set_of};
ghost use Rattle.ufs_client.specs.Played.{tells_fault};
ghost use Rattle.ufs_file.specs.Hand.{IsEntryOf, IsOf};
ghost use Rattle.ufs_layout.specs.Areas.{IsGeometry};
ghost use Rattle.ufs_model.specs.Asks.{fd_told, file_in};
ghost use Rattle.ufs_model.specs.History.{is_excused};
ghost use Rattle.ufs_model.specs.declared.data.Excuse.{Excuse};
ghost use Rattle.ufs_model.specs.declared.data.Excuse.TheVariants as excuse;
ghost use Rattle.ufs_model.specs.declared.data.Op.TheVariants as op;
ghost use Rattle.ufs_model.specs.declared.data.Reply.TheVariants as reply;
ghost use Rattle.ufs_names.specs.Calls.{IsOfNames};
ghost use Rattle.ufs_names.specs.Space.{IsCause};
ghost use Rattle.ufs_hand_laws.specs.Owned.{count};
ghost use Rattle.ufs_hand_laws.specs.Parts.{ClientPart};
ghost use Rattle.ufs_file_commits.specs.State.{file_committed};
ghost use Rattle.ufs_joint.specs.NamesTurns.{live_files};
ghost use Rattle.ufs_joint.specs.Servers.{IsServer};
ghost use Rattle.ufs_store.specs.Refusals.{fault_in, is_no_space};
ghost use Rattle.ufs_store.specs.declared.fault.StoreFault.TheVariants as refusal;
ghost use Rattle.ufs_turns.specs.Lent.{AreTold, IsBare, IsBeside, Runs, StopsByFault, TellsStop, TellsWhere};
ghost use Rattle.ufs_turns.specs.Told.{fault_told, told_list};
ghost use Rattle.ufs_noted.specs.Noted.{HasServedWith, MayLack};
ghost use Rattle.ufs_held.specs.Asking.{Asks, IsAnswered, IsGuest, IsSyncReply};
ghost use Rattle.ufs_held.specs.Births.{HasStill};
ghost use Rattle.ufs_held.specs.Stopping.{ExcusesByStop, StopsByReply};
ghost use Rattle.ufs_held.specs.Together.{under_numbers, AreApartFrom};
ghost use Rattle.ufs_held_names.specs.Asked.{IsNamedApart, IsNeeded, number_of};
ghost use Rattle.ufs_held_names.specs.Asking.{AsksNames, IsAnsweredNames, IsToldBy};
ghost use Rattle.ufs_held_names.specs.Come.{IsNewborn, IsStillThere, commits_of, files_of, files_then};
ghost use Rattle.ufs_held_names.specs.Dirs.{AsksDir, answered};
ghost use Rattle.ufs_held_names.specs.Drawn.{names_then};
ghost use Rattle.ufs_held_names.specs.HeldNames.{AreCommitted, HasNamesAlone, HoldsNames, first_names, noted_in};
ghost use Rattle.ufs_held_names.specs.SyncAll.{AreAllLive, AreSynced, AsksSync, StopsShort, freed_by};

use crate::commits::{commit_lent, tell_lent};
use crate::dirs::fsync_dir_lent;
use crate::newborn::Newborn;
use crate::reclaims::reclaim_lent;
use crate::seeing::{see_asked, see_numbers};
use crate::serving::serve_any;
use crate::sync_all::{commit_all, sync_lent};
use crate::syncs::fsync_lent;
use std::marker::Model;
use ufs_base::Memory;
use ufs_bitmap::Pool;
use ufs_held::HeldFile;
use ufs_joint::{Hand, HandTable, Naming};
use ufs_layout::Geometry;
use ufs_model::{Actor, Ask, Desc, Entry};
use ufs_noted::NotedNames;
use ufs_store::StoreFault;
use ufs_turns::Turns;

/// The names as a server of session `N` holds them. Contracts see their cell.
#[derive(Drop)]
pub struct HeldNames<N: Naming> {
    noted: NotedNames,
    right: Hand<N>,
    /// The next file number as it was at the last commit.
    reached: u32,
}

impl<N: Naming> Model for HeldNames<N> {
    ghost use Rattle.std.specs.Prelude.{◌≡◌, []};
    ghost use Rattle.ufs_joint.specs.Cells.{NamesCell};
    ghost use Rattle.ufs_joint.specs.Codes.{names_code};
    ghost use Rattle.ufs_held_names.specs.Births.{KnowsBirths};
    ghost use Rattle.ufs_held_names.specs.HeldNames.{HoldsNames, first_names};

    ghost Value = { NamesCell };

    ghost coded = { names_code };

    ghost view = { λ h. first_names h.noted h.right.names };

    ghost invariant = { λ h. HoldsNames h.noted h.right × (h.right.faults ≡ []) × KnowsBirths h.reached (first_names h.noted h.right.names) };
}

/// What a request of the names was answered, the hand that came with it, and the file that it touched, if that is still there, or the
/// one that it made.
#[derive(Drop)]
pub struct NamesServed<N: Naming> {
    pub entry: Entry,
    /// What the request's descriptor stands for afterwards.
    pub desc: Option<Desc>,
    pub guest: Hand<N>,
    pub file: Option<HeldFile<N>>,
    pub made: Option<Newborn<N>>,
}

/// What an `fsync` was answered, the hand that came with it, and the file.
#[derive(Drop)]
pub struct FileSynced<N: Naming> {
    pub entry: Entry,
    /// What the request's descriptor stands for, as before.
    pub desc: Option<Desc>,
    pub guest: Hand<N>,
    pub file: HeldFile<N>,
}

/// What an `fsync` of a directory was answered, and the hand that came with it.
#[derive(Drop)]
pub struct NamesSynced<N: Naming> {
    pub entry: Entry,
    pub guest: Hand<N>,
}

impl<N: Naming> HeldNames<N> {
    /// The names as they are at a commit: they tell of each live file.
    pub fn new(table: &HandTable<N>, noted: NotedNames, right: Hand<N>) -> HeldNames<N>
        requires held { HoldsNames noted right }
        requires calm { right.faults ≡ [] }
        requires all { (first_names noted right.names).named ≡ live_files noted.names }
        ensures { result ≡ first_names noted right.names }
    {
        let mut right = right;
        see_numbers(table, &mut right, &noted);
        let reached = noted.next_number();
        HeldNames {
            noted,
            right,
            reached,
        }
    }

    pub fn into_parts(self) -> (NotedNames, Hand<N>)
        ensures noted { noted_in self ≡ result.0 }
        ensures hand { HasNamesAlone self result.1 }
        ensures calm { result.1.faults ≡ [] }
    {
        let HeldNames { noted, right, .. } = self;
        (noted, right)
    }

    /// The next file number.
    pub fn next_number(&self) -> u32
        ensures { result ≡ self.now.value.next }
    {
        self.noted.next_number()
    }

    /// Whether the birth of a file, if it is live, is known as committed: so of each that was live at the last commit.
    pub fn knows_birth(&self, file: u32) -> bool
        ensures known { result ≡ true → IsSome (fin.get self.now.value.held file) → set.contains self.now.named file ≡ true }
        ensures unknown { result ≡ false → set.contains self.now.named file ≡ false }
    {
        file < self.reached
    }

    /// The one live file that a request touches, if it does one: `serve` wants it. A `sync` touches all, and isn't asked for here.
    pub fn needed(&self, ask: &Ask) -> Result<Option<u32>, Memory>
        requires client { ask.now.client < 16 }
        requires kind { IsOfNames ask.now }
        requires one { ask.now.op ≢ op.Sync }
        ensures { IfOk result (IsNeeded self.now.value ask.now) }
    {
        self.noted.needed(ask)
    }

    /// By a look: each file that the request touches, or is on, is live; each live one has a lower number than the next; and no more files
    /// were made in the session than it may have requests. The hand that comes with the request has its client and a pool, and stays as it
    /// was. Takes no memory.
    pub fn see(&mut self, table: &HandTable<N>, ask: &Ask, guest: &mut Hand<N>)
        requires guest { (part : ClientPart) × (n : ℕ) × (pool : BlockSet) × IsGuest ask.now.client part n pool guest.old × IsToldBy part ask.now }
        ensures same { self.new ≡ self.old }
        ensures still { HasStill guest.old guest.new }
        ensures needed { (file : ℕ) → IsNeeded self.old.value ask.now (Some file) → IsSome (fin.get self.old.value.held file) }
        ensures opened { (file : ℕ) → file_in ask.now.desc ≡ Some file → IsSome (fin.get self.old.value.held file) }
        ensures below { (file : ℕ) → IsSome (fin.get self.old.value.held file) → file < self.old.value.next }
        ensures few { self.old.value.next ≤ N.start.tree.next + 16 * 65536 }
    {
        let HeldNames { noted, right, .. } = self;
        see_asked(table, right, noted, ask, guest);
    }

    /// Serves a request of the names that commits nothing, with the one live file that it touches, if it does one: draws its entry, and
    /// gives the file back, if it is still there, or the one that the request made. The hand that comes with it has its client and the
    /// server's pool; it goes back with one more entry. An excuse leaves all as it was.
    pub fn serve(
        &mut self,
        table: &HandTable<N>,
        ask: Ask,
        guest: Hand<N>,
        by: Actor,
        pool: &mut Pool,
        file: Option<HeldFile<N>>,
        geometry: &Geometry,
    ) -> NamesServed<N>
        requires formed { IsGeometry geometry.now }
        requires its { geometry.now ≡ N.start.geometry }
        requires guest { (part : ClientPart) × (n : ℕ) × IsGuest ask.client part n pool.old guest × AsksNames part ask × IsNamedApart n self.old.value.next file }
        requires server { IsServer by }
        requires numbers { self.old.value.next < 2 ^ 31 }
        requires needed { IsNeeded self.old.value ask (number_of file) }
        ensures entry { IsEntryOf ask by result.entry.ticket result.entry }
        ensures guest { (part : ClientPart) (n : ℕ) → IsGuest ask.client part n pool.old guest → IsNamedApart n self.old.value.next file → (after : ClientPart) × IsAnsweredNames part result.entry result.desc after × IsGuest ask.client after n pool.new result.guest }
        ensures served { is_excused result.entry.reply ≡ false → HasServedWith ask (noted_in self.old) (noted_in self.new) (files_of file) (files_then result.file result.made) (commits_of file) (commits_of result.file) pool.old pool.new (number_of file) result.entry.reply result.desc }
        ensures names { is_excused result.entry.reply ≡ false → self.new ≡ names_then (noted_in self.new) result.entry.ticket self.old }
        ensures file { is_excused result.entry.reply ≡ false → IfSome result.file (IsStillThere result.entry.ticket file) }
        ensures made { IfSome result.made (IsNewborn self.old.value.next result.entry.ticket) }
        // no file is made where the touched one is still there
        ensures not_both { IsSome result.file → result.made ≡ None }
        // each live file was live before, or is the one that was made; the touched one is live no more where it isn't given back
        ensures lives { (f : ℕ) → IsSome (fin.get self.new.value.held f) → IsSome (fin.get self.old.value.held f) ⊎ (number_of result.made ≡ Some f) }
        ensures gone { is_excused result.entry.reply ≡ false → result.file ≡ None → IfSome file (λ c. fin.get self.new.value.held c.value.file.file ≡ None) }
        ensures next { self.new.value.next ≡ cond (is_some result.made) (self.old.value.next + 1) self.old.value.next }
        ensures cause { (x : Excuse) → result.entry.reply ≡ reply.Excused x → (lent : BlockSet) × MayLack pool.old lent x × IsCause self.old.value.tree.dirs lent ask.op x }
        ensures kept { is_excused result.entry.reply ≡ true → self.new ≡ self.old }
        ensures kept_file { is_excused result.entry.reply ≡ true → result.file ≡ file }
        ensures none_made { is_excused result.entry.reply ≡ true → result.made ≡ None }
        ensures untaken { is_excused result.entry.reply ≡ true → pool.new ≡ pool.old }
        ensures desc { is_excused result.entry.reply ≡ true → result.desc ≡ ask.desc }
        // a request without a descriptor is told none
        ensures no_desc { fd_told result.entry.op result.entry.reply ≡ None → result.desc ≡ None }
        // nothing is read of the disk, and nothing written
        ensures faultless { tells_fault result.entry.reply ≡ false }
        // no fault that the guest was told before excuses it
        ensures faults { result.guest.faults ≡ guest.faults }
        ensures later { guest.seen ≤ result.entry.ticket }
        ensures seen { result.guest.seen ≡ suc result.entry.ticket }
    {
        let HeldNames { noted, right, .. } = self;
        serve_any(table, right, noted, ask, guest, by, pool, file, geometry)
    }

    /// Commits the names in one turn of the store. Where it passes, nothing is noted of them, and all that changed of them is known as
    /// committed; else they are as they were, and the guest was told the fault by which it failed, or that the store has stopped.
    pub fn commit<T: Turns<N>>(
        &mut self,
        table: &HandTable<N>,
        guest: &mut Hand<N>,
        door: &mut T,
    ) -> Result<(), StoreFault>
        requires bare { IsBare guest.old }
        ensures bare { IsBare guest.new }
        ensures beside { IsBeside guest.old guest.new }
        ensures ok { OnOk result (AreCommitted N.start.is_visible self.old self.new) }
        ensures err { OnErr result (self.new ≡ self.old) }
        ensures faults { guest.new.faults ≡ told_list (fault_told (fault_in result)) ++ guest.old.faults }
        ensures stop { (fault : ℕ) → result ≡ Err (refusal.Stopped fault) → guest.new.stop ≡ Some fault }
        ensures stops { (fault : ℕ) → fault_told (fault_in result) ≡ Some fault → guest.new.stop ≡ Some fault }
        ensures free { AreTold (T.tells door.old) (T.tells door.new) (λ had has. has ≡ had) }
        ensures telling { is_some (T.tells door.new) ≡ is_some (T.tells door.old) }
        ensures halts { StopsByFault (T.tells door.old) (T.tells door.new) (fault_in result) }
        ensures ran { Runs (T.tells door.old) (T.tells door.new) (fault_in result) 1 1 }
        ensures halted { TellsStop (T.tells door.old) result }
        ensures stopped { TellsWhere (T.tells door.new) result }
        ensures refused { IfErr result (λ fault. is_no_space fault ≡ false) }
    {
        let HeldNames {
            noted,
            right,
            reached,
        } = self;
        commit_lent(table, right, noted, reached, guest, door)
    }

    /// Tells a file its birth, where the names know it as committed. A file that is held is live. Takes no memory.
    pub fn tell_born(&mut self, table: &HandTable<N>, file: &mut HeldFile<N>, geometry: &Geometry)
        requires formed { IsGeometry geometry.now }
        requires its { geometry.now ≡ N.start.geometry }
        ensures same { self.new ≡ self.old }
        ensures told { file.new ≡ record file.old { born = file.old.born || set.contains self.old.named file.old.value.file.file } }
        ensures live { IsSome (fin.get self.old.value.held file.old.value.file.file) }
    {
        let HeldNames { noted, right, .. } = self;
        tell_lent(table, right, noted, file, geometry)
    }

    /// Serves an `fsync` of a file: commits the names, tells the file its birth, and commits it, each in a turn of the store, and
    /// acknowledges. Where a commit fails, the request is excused by the fault or by the stop of the store, and the file is as it was,
    /// but that it may know its birth.
    pub fn fsync<T: Turns<N>>(
        &mut self,
        table: &HandTable<N>,
        ask: Ask,
        guest: Hand<N>,
        by: Actor,
        file: HeldFile<N>,
        door: &mut T,
        geometry: &Geometry,
    ) -> FileSynced<N>
        requires formed { IsGeometry geometry.now }
        requires its { geometry.now ≡ N.start.geometry }
        requires guest { (part : ClientPart) × (n : ℕ) × (pool : BlockSet) × IsGuest ask.client part n pool guest × Asks part ask × (n ≢ file.value.file.file) }
        requires server { IsServer by }
        requires fsync { (fd : ℕ) × (ask.op ≡ op.Fsync fd) }
        requires named { IsOf ask.desc file.value.file.file }
        ensures entry { IsEntryOf ask by result.entry.ticket result.entry }
        ensures replied { IsSyncReply result.entry.reply }
        ensures desc { result.desc ≡ ask.desc }
        ensures guest { (part : ClientPart) (n : ℕ) (pool : BlockSet) → IsGuest ask.client part n pool guest → n ≢ file.value.file.file → (after : ClientPart) × IsAnswered part result.entry result.desc after × IsGuest ask.client after n pool result.guest }
        ensures names { result.entry.reply ≡ reply.Done → AreCommitted N.start.is_visible self.old self.new }
        ensures committed { result.entry.reply ≡ reply.Done → result.file.value ≡ file_committed file.value }
        ensures known { result.entry.reply ≡ reply.Done → N.start.is_visible ≡ true → result.file.changed ≤ result.file.known }
        ensures born { result.entry.reply ≡ reply.Done → result.file.born ≡ true }
        ensures rest { result.file ≡ record file { value = result.file.value; known = result.file.known; born = result.file.born } }
        // the names' commit failed, and all is as it was; or the file's did, which knows its birth then
        ensures short { is_excused result.entry.reply ≡ true → ((self.new ≡ self.old) × (result.file ≡ file)) ⊎ (AreCommitted N.start.is_visible self.old self.new × (result.file ≡ record file { born = true })) }
        // no fault that the guest was told before excuses it, and a stop is the store's
        ensures faults { result.guest.faults ≡ guest.faults }
        ensures stop { (fault : ℕ) → result.entry.reply ≡ reply.Excused (excuse.Stopped fault) → result.guest.stop ≡ Some fault }
        ensures freed { result.entry.reply ≡ reply.Done → AreTold (T.tells door.old) (T.tells door.new) (λ had has. has ≡ set.union had (set_of file.value.dropped)) }
        ensures unfreed { is_excused result.entry.reply ≡ true → AreTold (T.tells door.old) (T.tells door.new) (λ had has. has ≡ had) }
        ensures telling { is_some (T.tells door.new) ≡ is_some (T.tells door.old) }
        ensures halts { StopsByReply (T.tells door.old) (T.tells door.new) 2 2 result.entry.reply }
        ensures halted { ExcusesByStop (T.tells door.old) result.entry.reply }
        ensures later { guest.seen ≤ result.entry.ticket }
        ensures seen { result.guest.seen ≡ suc result.entry.ticket }
    {
        let HeldNames {
            noted,
            right,
            reached,
        } = self;
        fsync_lent(
            table, right, noted, reached, ask, guest, by, file, door, geometry,
        )
    }

    /// Serves an `fsync` of a directory: commits the names in one turn of the store, and acknowledges. Where that fails, the request is
    /// excused by the fault or by the stop of the store, and the names are as they were.
    pub fn fsync_dir<T: Turns<N>>(
        &mut self,
        table: &HandTable<N>,
        ask: Ask,
        guest: Hand<N>,
        by: Actor,
        door: &mut T,
    ) -> NamesSynced<N>
        requires guest { (part : ClientPart) × (n : ℕ) × (pool : BlockSet) × IsGuest ask.client part n pool guest × AsksDir part ask }
        requires server { IsServer by }
        ensures entry { IsEntryOf ask by result.entry.ticket result.entry }
        ensures replied { IsSyncReply result.entry.reply }
        ensures guest { (part : ClientPart) (n : ℕ) (pool : BlockSet) → IsGuest ask.client part n pool guest → IsGuest ask.client (answered part result.entry) n pool result.guest }
        ensures names { result.entry.reply ≡ reply.Done → AreCommitted N.start.is_visible self.old self.new }
        ensures kept { is_excused result.entry.reply ≡ true → self.new ≡ self.old }
        // no fault that the guest was told before excuses it, and a stop is the store's
        ensures faults { result.guest.faults ≡ guest.faults }
        ensures stop { (fault : ℕ) → result.entry.reply ≡ reply.Excused (excuse.Stopped fault) → result.guest.stop ≡ Some fault }
        ensures free { AreTold (T.tells door.old) (T.tells door.new) (λ had has. has ≡ had) }
        ensures telling { is_some (T.tells door.new) ≡ is_some (T.tells door.old) }
        ensures halts { StopsByReply (T.tells door.old) (T.tells door.new) 1 1 result.entry.reply }
        ensures halted { ExcusesByStop (T.tells door.old) result.entry.reply }
        ensures later { guest.seen ≤ result.entry.ticket }
        ensures seen { result.guest.seen ≡ suc result.entry.ticket }
    {
        let HeldNames {
            noted,
            right,
            reached,
        } = self;
        fsync_dir_lent(table, right, noted, reached, ask, guest, by, door)
    }

    /// Commits the names, and then each of these files in the order of the list, each in a turn of the store; no entry is drawn. Where a
    /// commit fails, no other one is tried, and the guest was told the fault by which it failed, or that the store has stopped.
    pub fn commit_all<T: Turns<N>>(
        &mut self,
        table: &HandTable<N>,
        files: &mut [HeldFile<N>],
        guest: &mut Hand<N>,
        door: &mut T,
        geometry: &Geometry,
    ) -> Result<(), StoreFault>
        requires formed { IsGeometry geometry.now }
        requires its { geometry.now ≡ N.start.geometry }
        requires bare { IsBare guest.old }
        ensures bare { IsBare guest.new }
        ensures beside { IsBeside guest.old guest.new }
        ensures names { OnOk result (AreCommitted N.start.is_visible self.old self.new) }
        ensures files { OnOk result (AreSynced N.start.is_visible files.old files.new (length files.old)) }
        ensures freed { OnOk result (AreTold (T.tells door.old) (T.tells door.new) (λ had has. has ≡ freed_by (length files.old) files.old had)) }
        ensures short { OnErr result (StopsShort N.start.is_visible self.old self.new files.old files.new (T.tells door.old) (T.tells door.new)) }
        ensures faults { guest.new.faults ≡ told_list (fault_told (fault_in result)) ++ guest.old.faults }
        ensures stop { (fault : ℕ) → result ≡ Err (refusal.Stopped fault) → guest.new.stop ≡ Some fault }
        ensures stops { (fault : ℕ) → fault_told (fault_in result) ≡ Some fault → guest.new.stop ≡ Some fault }
        ensures telling { is_some (T.tells door.new) ≡ is_some (T.tells door.old) }
        ensures halts { StopsByFault (T.tells door.old) (T.tells door.new) (fault_in result) }
        ensures ran { Runs (T.tells door.old) (T.tells door.new) (fault_in result) (1 + length files.old) (1 + length files.old) }
        ensures halted { TellsStop (T.tells door.old) result }
        ensures stopped { TellsWhere (T.tells door.new) result }
        ensures refused { IfErr result (λ fault. is_no_space fault ≡ false) }
    {
        let HeldNames {
            noted,
            right,
            reached,
        } = self;
        commit_all(table, right, noted, reached, files, guest, door, geometry)
    }

    /// Whether the notes of the names take half of so many sectors or more.
    pub fn is_crowded(&mut self, journal: u32) -> bool
        ensures crowded { IsTrue result ↔ (journal / 2 ≤ sectors_noted self.old.value.tree.noted) }
        ensures same { self.new ≡ self.old }
    {
        self.noted.is_crowded(journal)
    }

    /// Whether directories or removed files dropped blocks that haven't come back.
    pub fn has_dropped(&self) -> bool
        ensures { IsTrue result ↔ (self.now.dropped ≢ set.empty) }
    {
        self.noted.has_dropped()
    }

    /// Makes a checkpoint in a turn of the store, with every live file, behind which what directories and removed files dropped is
    /// unassigned. Where it fails all is as it was, and the guest was told the fault, or that the store has stopped.
    pub fn reclaim<T: Turns<N>>(
        &mut self,
        table: &HandTable<N>,
        files: &mut [HeldFile<N>],
        guest: &mut Hand<N>,
        door: &mut T,
    ) -> Result<(), StoreFault>
        requires bare { IsBare guest.old }
        requires apart { AreApartFrom guest.old files.old }
        requires may { MayReclaim self.old files.old }
        ensures bare { IsBare guest.new }
        ensures beside { IsBeside guest.old guest.new }
        ensures files { files.new ≡ files.old }
        ensures ok { OnOk result (IsReclaimed self.old self.new) }
        ensures err { OnErr result (self.new ≡ self.old) }
        ensures back { OnOk result (AreTold (T.tells door.old) (T.tells door.new) (λ had has. has ≡ set.union had self.old.dropped)) }
        ensures kept { OnErr result (AreTold (T.tells door.old) (T.tells door.new) (λ had has. has ≡ had)) }
        ensures ran { Runs (T.tells door.old) (T.tells door.new) (fault_in result) 1 0 }
        ensures telling { is_some (T.tells door.new) ≡ is_some (T.tells door.old) }
        ensures faults { guest.new.faults ≡ told_list (fault_told (fault_in result)) ++ guest.old.faults }
        ensures stop { (fault : ℕ) → result ≡ Err (refusal.Stopped fault) → guest.new.stop ≡ Some fault }
        ensures halts { StopsByFault (T.tells door.old) (T.tells door.new) (fault_in result) }
        ensures halted { TellsStop (T.tells door.old) result }
        ensures stopped { TellsWhere (T.tells door.new) result }
        ensures refused { IfErr result (λ fault. is_no_space fault ≡ false) }
    {
        let HeldNames {
            noted,
            right,
            reached: _,
        } = self;
        reclaim_lent(table, right, noted, files, guest, door)
    }

    /// Serves a `sync`, with every live file: commits the names, and then each file in the order of the list, each in a turn of the
    /// store, and acknowledges. Where a commit fails, no other one is tried, and the request is excused by the fault or by the stop of
    /// the store.
    pub fn sync<T: Turns<N>>(
        &mut self,
        table: &HandTable<N>,
        ask: Ask,
        guest: Hand<N>,
        by: Actor,
        files: &mut [HeldFile<N>],
        door: &mut T,
        geometry: &Geometry,
    ) -> NamesSynced<N>
        requires formed { IsGeometry geometry.now }
        requires its { geometry.now ≡ N.start.geometry }
        requires guest { (part : ClientPart) × (n : ℕ) × (pool : BlockSet) × IsGuest ask.client part n pool guest × AsksSync part ask × (count eqb n (under_numbers files.old) ≡ 0) }
        requires server { IsServer by }
        requires all { AreAllLive self.old.value files.old }
        ensures entry { IsEntryOf ask by result.entry.ticket result.entry }
        ensures replied { IsSyncReply result.entry.reply }
        ensures guest { (part : ClientPart) (n : ℕ) (pool : BlockSet) → IsGuest ask.client part n pool guest → IsGuest ask.client (answered part result.entry) n pool result.guest }
        ensures names { result.entry.reply ≡ reply.Done → AreCommitted N.start.is_visible self.old self.new }
        ensures files { result.entry.reply ≡ reply.Done → AreSynced N.start.is_visible files.old files.new (length files.old) }
        ensures freed { result.entry.reply ≡ reply.Done → AreTold (T.tells door.old) (T.tells door.new) (λ had has. has ≡ freed_by (length files.old) files.old had) }
        ensures short { is_excused result.entry.reply ≡ true → StopsShort N.start.is_visible self.old self.new files.old files.new (T.tells door.old) (T.tells door.new) }
        // no fault that the guest was told before excuses it, and a stop is the store's
        ensures faults { result.guest.faults ≡ guest.faults }
        ensures stop { (fault : ℕ) → result.entry.reply ≡ reply.Excused (excuse.Stopped fault) → result.guest.stop ≡ Some fault }
        ensures telling { is_some (T.tells door.new) ≡ is_some (T.tells door.old) }
        ensures halts { StopsByReply (T.tells door.old) (T.tells door.new) (1 + length files.old) (1 + length files.old) result.entry.reply }
        ensures halted { ExcusesByStop (T.tells door.old) result.entry.reply }
        ensures later { guest.seen ≤ result.entry.ticket }
        ensures seen { result.guest.seen ≡ suc result.entry.ticket }
    {
        let HeldNames {
            noted,
            right,
            reached,
        } = self;
        sync_lent(
            table, right, noted, reached, ask, guest, by, files, door, geometry,
        )
    }
}
