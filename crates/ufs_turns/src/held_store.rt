// The store, and the hand of the store's cell.
ghost use Rattle.std.specs.Prelude.{ℕ, ◌≡◌, ◌≤◌, ◌<◌, ◌+◌, ◌∷◌, ◌++◌, [], true, false, Ok, Err, None, Some, IfErr, IsTrue, OnOk, OnErr, length};
ghost use Rattle.std.specs.FinSet as set;
ghost use Rattle.ufs_bitmap.specs.Taking.{set_of};
ghost use Rattle.ufs_layout.specs.Areas.{IsGeometry};
ghost use Rattle.ufs_file.specs.Hand.{HasNeeded};
ghost use Rattle.ufs_file_commits.specs.Fetching.{IsReadOn};
ghost use Rattle.ufs_file_commits.specs.State.{file_committed, state_of};
ghost use Rattle.ufs_joint.specs.Cells.{FileCell, NamesCell, StoreCell};
ghost use Rattle.ufs_joint.specs.Known.{Knows};
ghost use Rattle.ufs_joint.specs.Turns.{MayEndTurn};
ghost use Rattle.ufs_names.specs.Notes.{with_notes};
ghost use Rattle.ufs_store.specs.Refusals.{fault_in, is_no_space, is_own, stop_after};
ghost use Rattle.ufs_store.specs.declared.fault.StoreFault.TheVariants as refusal;
ghost use Rattle.ufs_turns.specs.HeldStore.{HasNothing, HasStoreAlone, IsHeldStore, IsStoreIn, begun_view, ended_view, sync_turn};
ghost use Rattle.ufs_turns.specs.AllLent.{LendsAll, without_dropped};
ghost use Rattle.ufs_turns.specs.Lent.{GainsBlocks, HasCommitted, HasRun, IsBare, IsBeside, IsBesidePools, IsFileIn, LacksBlocks, LendsFile, LendsPool, RunIn, free_in, stop_in, used_in};
ghost use Rattle.ufs_turns.specs.NamesLent.{HaveCommitted, LendsNames};
ghost use Rattle.ufs_turns.specs.Told.{fault_told, told_list};

use crate::commits::commit_lent;
use crate::reclaims::reclaim_lent;
use crate::space::{checkpoint_lent, give_lent, stop_lent, take_lent};
use crate::syncs::{sync_store, told_by, told_of};
use std::marker::{Brand, Model};
use std::sync::ledger::{Book, Ledger, Share};
use ufs_bitmap::Pool;
use ufs_file::FileHand;
use ufs_file_commits::{FileCommits, fetch};
use ufs_joint::{
    Event, Hand, HandTable, Naming, a_failed_commit_ends, a_file_is_committed, a_file_is_fetched,
};
use ufs_layout::Geometry;
use ufs_model::{Desc, Op, PartName};
use ufs_names::Names;
use ufs_promise_laws::file_sync_law;
use ufs_store::{Door, StoreFault};

/// A store, and the hand of the store's cell of session `N`, which goes with it. Contracts see the hand. The book counts the checkpoints
/// that the store made, and the wishes for blocks that it couldn't meet: each in the share of the way by which it was asked.
#[derive(Drop)]
pub struct HeldStore<N: Naming, D: Door, L: Ledger> {
    hand: Hand<N>,
    store: D,
    book: Book<L>,
}

impl<N: Naming, D: Door, L: Ledger> Model for HeldStore<N, D, L> {
    ghost use Rattle.ufs_joint.specs.Codes.{view_code};
    ghost use Rattle.ufs_joint.specs.Cells.{View};
    ghost use Rattle.ufs_turns.specs.HeldStore.{IsHeldStore};

    ghost Value = { View };

    ghost coded = { view_code };

    ghost view = { λ h. h.hand };

    ghost invariant = { λ h. (D.stamps → ⊥) × IsHeldStore N.start N.origin D.visible D.keeps h.hand (D.store h.store) };
}

impl<N: Naming, D: Door, L: Ledger> HeldStore<N, D, L> {
    pub fn new(hand: Hand<N>, store: D, book: Book<L>) -> HeldStore<N, D, L>
        requires plain { D.stamps → ⊥ }
        requires home { IsHeldStore N.start N.origin D.visible D.keeps hand (D.store store) }
        ensures { result ≡ hand }
    {
        HeldStore { hand, store, book }
    }

    /// Ends the turns.
    pub fn into_parts(self) -> (Hand<N>, D)
        ensures hand { result.0 ≡ self }
        ensures home { IsHeldStore N.start N.origin D.visible D.keeps result.0 (D.store result.1) }
    {
        let HeldStore { hand, store, .. } = self;
        (hand, store)
    }

    /// Commits a file, as `Turns` says.
    pub fn sync_file(
        &mut self,
        table: &HandTable<N>,
        hand: &mut Hand<N>,
        file: &mut FileHand,
        commits: &mut FileCommits,
    ) -> Result<u64, StoreFault>
        requires lent { (name : ℕ) × (cell : FileCell) × LendsFile name cell hand.old × (cell.value ≡ state_of file.old commits.old) × (cell.born ≡ true) }
        ensures ok { OnOk result ((name : ℕ) (cell : FileCell) → LendsFile name cell hand.old → HasCommitted N.start.is_visible name cell (state_of file.new commits.new) hand.new) }
        ensures err { OnErr result ((name : ℕ) (cell : FileCell) → LendsFile name cell hand.old → cell.value ≡ state_of file.old commits.old → LendsFile name cell hand.new) }
        ensures away { hand.new.store ≡ [] }
        ensures beside { IsBeside hand.old hand.new }
        ensures committed { OnOk result (state_of file.new commits.new ≡ file_committed (state_of file.old commits.old)) }
        ensures kept { OnErr result (state_of file.new commits.new ≡ state_of file.old commits.old) }
        ensures freed { OnOk result (free_in self.new.store ≡ set.union (free_in self.old.store) (set_of commits.old.dropped)) }
        ensures unfreed { OnErr result (free_in self.new.store ≡ free_in self.old.store) }
        ensures ran { RunIn (fault_in result) 1 1 self.old.store self.new.store }
        ensures faults { hand.new.faults ≡ told_list (fault_told (fault_in result)) ++ hand.old.faults }
        ensures stop { (fault : ℕ) → result ≡ Err (refusal.Stopped fault) → hand.new.stop ≡ Some fault }
        ensures stops { (fault : ℕ) → fault_told (fault_in result) ≡ Some fault → hand.new.stop ≡ Some fault }
        ensures halts { stop_in self.new.store ≡ stop_after (stop_in self.old.store) (fault_in result) }
        ensures halted { (fault : ℕ) → stop_in self.old.store ≡ Some fault → result ≡ Err (refusal.Stopped fault) }
        ensures stopped { (fault : ℕ) → result ≡ Err (refusal.Stopped fault) → stop_in self.new.store ≡ Some fault }
        ensures refused { IfErr result (λ fault. is_no_space fault ≡ false) }
    {
        let HeldStore {
            hand: own,
            store,
            ..
        } = self;
        lend(table, own, hand);
        let synced = sync_lent(table, hand, store, file, commits);
        give_back(table, own, hand);
        synced
    }

    /// Reads blocks of a file, as `Turns` says.
    pub fn fetch(
        &mut self,
        table: &HandTable<N>,
        hand: &mut Hand<N>,
        file: &mut FileHand,
        commits: &FileCommits,
        op: &Op,
        desc: Desc,
    ) -> Result<(), StoreFault>
        requires lent { (name : ℕ) × (cell : FileCell) × LendsFile name cell hand.old × (cell.value ≡ state_of file.old commits.now) }
        ensures lent { (name : ℕ) (cell : FileCell) → LendsFile name cell hand.old → LendsFile name (record cell { value = state_of file.new commits.now }) hand.new }
        ensures there { OnOk result (HasNeeded file.new.content desc op.now) }
        ensures read { IsReadOn file.old file.new }
        ensures still { length file.new.content.bytes ≡ length file.old.content.bytes }
        ensures nothing { HasNeeded file.old.content desc op.now → (file.new ≡ file.old) × (result ≡ Ok tt) }
        ensures free { free_in self.new.store ≡ free_in self.old.store }
        ensures beside { IsBeside hand.old hand.new }
        ensures ran { RunIn (fault_in result) 0 0 self.old.store self.new.store }
        ensures rests { stop_in self.new.store ≡ stop_in self.old.store }
        ensures faults { hand.new.faults ≡ told_list (fault_told (fault_in result)) ++ hand.old.faults }
        ensures refused { IfErr result (λ fault. IsTrue (is_own fault)) }
    {
        let HeldStore {
            hand: own,
            store,
            ..
        } = self;
        lend(table, own, hand);
        let read = fetch_lent(table, hand, store, file, commits, op, desc);
        give_back(table, own, hand);
        read
    }

    /// Commits the names, as `Turns` says.
    pub fn commit_names(
        &mut self,
        table: &HandTable<N>,
        hand: &mut Hand<N>,
        names: &mut Names,
        fresh: &mut Vec<u32>,
    ) -> Result<(), StoreFault>
        requires lent { (cell : NamesCell) × LendsNames cell hand.old × (cell.value ≡ names.old) × (cell.fresh ≡ fresh.old.items) }
        ensures ok { OnOk result ((cell : NamesCell) → LendsNames cell hand.old → HaveCommitted N.start.is_visible cell hand.new) }
        ensures err { OnErr result ((cell : NamesCell) → LendsNames cell hand.old → LendsNames cell hand.new) }
        ensures away { hand.new.store ≡ [] }
        ensures beside { IsBeside hand.old hand.new }
        ensures committed { OnOk result (names.new ≡ with_notes (Some []) names.old) }
        ensures spent { OnOk result (fresh.new.items ≡ []) }
        ensures kept { OnErr result (names.new ≡ names.old) }
        ensures unspent { OnErr result (fresh.new.items ≡ fresh.old.items) }
        ensures free { free_in self.new.store ≡ free_in self.old.store }
        ensures ran { RunIn (fault_in result) 1 1 self.old.store self.new.store }
        ensures faults { hand.new.faults ≡ told_list (fault_told (fault_in result)) ++ hand.old.faults }
        ensures stop { (fault : ℕ) → result ≡ Err (refusal.Stopped fault) → hand.new.stop ≡ Some fault }
        ensures stops { (fault : ℕ) → fault_told (fault_in result) ≡ Some fault → hand.new.stop ≡ Some fault }
        ensures halts { stop_in self.new.store ≡ stop_after (stop_in self.old.store) (fault_in result) }
        ensures halted { (fault : ℕ) → stop_in self.old.store ≡ Some fault → result ≡ Err (refusal.Stopped fault) }
        ensures stopped { (fault : ℕ) → result ≡ Err (refusal.Stopped fault) → stop_in self.new.store ≡ Some fault }
        ensures refused { IfErr result (λ fault. is_no_space fault ≡ false) }
    {
        let HeldStore {
            hand: own,
            store,
            ..
        } = self;
        lend(table, own, hand);
        let committed = commit_lent(table, hand, store, names, fresh);
        give_back(table, own, hand);
        committed
    }

    /// Gives a pool blocks, as `Turns` says.
    pub fn give_pool(
        &mut self,
        table: &HandTable<N>,
        hand: &mut Hand<N>,
        pool: &mut Pool,
        missing: u32,
        share: &mut Share<L>,
    ) -> Result<(), StoreFault>
        requires part { 0 < share.old.parts }
        requires lent { (name : ℕ) × LendsPool name pool.old hand.old }
        ensures lent { (name : ℕ) → LendsPool name pool.old hand.old → LendsPool name pool.new hand.new }
        ensures beside { IsBesidePools hand.old hand.new }
        ensures given { OnOk result (GainsBlocks missing (free_in self.old.store) (free_in self.new.store) pool.old pool.new) }
        ensures lacks { IfErr result (LacksBlocks missing (set.len (free_in self.old.store))) }
        ensures kept { OnErr result (pool.new ≡ pool.old) }
        ensures same { OnErr result (free_in self.new.store ≡ free_in self.old.store) }
        ensures ran { RunIn None 0 0 self.old.store self.new.store }
        ensures rests { stop_in self.new.store ≡ stop_in self.old.store }
        ensures met { OnOk result (share.new.amount ≡ share.old.amount) }
        ensures unmet { OnErr result (share.new.amount ≡ share.old.amount + 1) }
        ensures parts { share.new.parts ≡ share.old.parts }
    {
        let HeldStore {
            hand: own,
            store,
            book,
        } = self;
        lend(table, own, hand);
        let given = give_lent(table, hand, store, pool, missing);
        give_back(table, own, hand);
        count_unmet(book, share, &given);
        given
    }

    /// Takes every block of a pool back, as `Turns` says.
    pub fn take_back(&mut self, table: &HandTable<N>, hand: &mut Hand<N>, pool: &mut Pool)
        requires lent { (name : ℕ) × LendsPool name pool.old hand.old }
        ensures lent { (name : ℕ) → LendsPool name pool.old hand.old → LendsPool name pool.new hand.new }
        ensures beside { IsBesidePools hand.old hand.new }
        ensures back { free_in self.new.store ≡ set.union (free_in self.old.store) pool.old }
        ensures ran { RunIn None 0 0 self.old.store self.new.store }
        ensures rests { stop_in self.new.store ≡ stop_in self.old.store }
        ensures none { pool.new ≡ set.empty }
    {
        let HeldStore {
            hand: own,
            store,
            ..
        } = self;
        lend(table, own, hand);
        take_lent(table, hand, store, pool);
        give_back(table, own, hand);
    }

    /// Makes a checkpoint, as `Turns` says: the whole journal is free then.
    pub fn checkpoint(
        &mut self,
        table: &HandTable<N>,
        hand: &mut Hand<N>,
        share: &mut Share<L>,
    ) -> Result<(), StoreFault>
        requires part { 0 < share.old.parts }
        requires bare { IsBare hand.old }
        ensures emptied { OnOk result (used_in self.new.store ≡ 0) }
        ensures free { free_in self.new.store ≡ free_in self.old.store }
        ensures bare { IsBare hand.new }
        ensures beside { IsBeside hand.old hand.new }
        ensures ran { RunIn (fault_in result) 1 0 self.old.store self.new.store }
        ensures faults { hand.new.faults ≡ told_list (fault_told (fault_in result)) ++ hand.old.faults }
        ensures stop { (fault : ℕ) → result ≡ Err (refusal.Stopped fault) → hand.new.stop ≡ Some fault }
        ensures halts { stop_in self.new.store ≡ stop_after (stop_in self.old.store) (fault_in result) }
        ensures halted { (fault : ℕ) → stop_in self.old.store ≡ Some fault → result ≡ Err (refusal.Stopped fault) }
        ensures stopped { (fault : ℕ) → result ≡ Err (refusal.Stopped fault) → stop_in self.new.store ≡ Some fault }
        ensures refused { IfErr result (λ fault. is_no_space fault ≡ false) }
        ensures made { OnOk result (share.new.amount ≡ share.old.amount + 1) }
        ensures unmade { OnErr result (share.new.amount ≡ share.old.amount) }
        ensures parts { share.new.parts ≡ share.old.parts }
    {
        let HeldStore {
            hand: own,
            store,
            book,
        } = self;
        lend(table, own, hand);
        let made = checkpoint_lent(table, hand, store);
        give_back(table, own, hand);
        count_made(book, share, &made);
        made
    }

    /// Says where the store stopped, as `Turns` says.
    pub fn stopped(&mut self, table: &HandTable<N>, hand: &mut Hand<N>) -> Option<u64>
        requires bare { IsBare hand.old }
        ensures told { result ≡ stop_in self.old.store }
        ensures stop { hand.new.stop ≡ result }
        ensures free { free_in self.new.store ≡ free_in self.old.store }
        ensures bare { IsBare hand.new }
        ensures beside { IsBeside hand.old hand.new }
        ensures ran { RunIn None 0 0 self.old.store self.new.store }
        ensures rests { stop_in self.new.store ≡ stop_in self.old.store }
        ensures faults { hand.new.faults ≡ hand.old.faults }
    {
        let HeldStore {
            hand: own,
            store,
            ..
        } = self;
        lend(table, own, hand);
        let stop = stop_lent(table, hand, store);
        give_back(table, own, hand);
        stop
    }

    /// Makes a checkpoint behind which what the names dropped is unassigned, as `Turns` says.
    pub fn reclaim(
        &mut self,
        table: &HandTable<N>,
        hand: &mut Hand<N>,
        dropped: &mut Pool,
        share: &mut Share<L>,
    ) -> Result<(), StoreFault>
        requires part { 0 < share.old.parts }
        requires lent { (names : NamesCell) × LendsAll names hand.old × (names.dropped ≡ dropped.old) }
        requires away { hand.old.store ≡ [] }
        ensures ok { OnOk result ((names : NamesCell) → hand.old.names ≡ (tt, names) ∷ [] → hand.new.names ≡ (tt, without_dropped names) ∷ []) }
        ensures err { OnErr result (hand.new.names ≡ hand.old.names) }
        ensures files { hand.new.files ≡ hand.old.files }
        ensures away { hand.new.store ≡ [] }
        ensures beside { IsBeside hand.old hand.new }
        ensures back { OnOk result ((dropped.new ≡ set.empty) × (free_in self.new.store ≡ set.union (free_in self.old.store) dropped.old)) }
        ensures kept { OnErr result ((dropped.new ≡ dropped.old) × (free_in self.new.store ≡ free_in self.old.store)) }
        ensures ran { RunIn (fault_in result) 1 0 self.old.store self.new.store }
        ensures faults { hand.new.faults ≡ told_list (fault_told (fault_in result)) ++ hand.old.faults }
        ensures stop { (fault : ℕ) → result ≡ Err (refusal.Stopped fault) → hand.new.stop ≡ Some fault }
        ensures halts { stop_in self.new.store ≡ stop_after (stop_in self.old.store) (fault_in result) }
        ensures halted { (fault : ℕ) → stop_in self.old.store ≡ Some fault → result ≡ Err (refusal.Stopped fault) }
        ensures stopped { (fault : ℕ) → result ≡ Err (refusal.Stopped fault) → stop_in self.new.store ≡ Some fault }
        ensures refused { IfErr result (λ fault. is_no_space fault ≡ false) }
        ensures made { OnOk result (share.new.amount ≡ share.old.amount + 1) }
        ensures unmade { OnErr result (share.new.amount ≡ share.old.amount) }
        ensures parts { share.new.parts ≡ share.old.parts }
    {
        let HeldStore {
            hand: own,
            store,
            book,
        } = self;
        lend(table, own, hand);
        let made = reclaim_lent(table, hand, store, dropped);
        give_back(table, own, hand);
        count_made(book, share, &made);
        made
    }
}

// A checkpoint that was made is counted.
fn count_made<L: Ledger>(book: &mut Book<L>, share: &mut Share<L>, made: &Result<(), StoreFault>)
    requires { 0 < share.old.parts }
    ensures made { OnOk made.now (share.new.amount ≡ share.old.amount + 1) }
    ensures unmade { OnErr made.now (share.new.amount ≡ share.old.amount) }
    ensures parts { share.new.parts ≡ share.old.parts }
{
    match made {
        Ok(()) => book.add(share, 1),
        Err(_) => {}
    }
}

// A wish for blocks that wasn't met is counted.
fn count_unmet<L: Ledger>(book: &mut Book<L>, share: &mut Share<L>, given: &Result<(), StoreFault>)
    requires { 0 < share.old.parts }
    ensures met { OnOk given.now (share.new.amount ≡ share.old.amount) }
    ensures unmet { OnErr given.now (share.new.amount ≡ share.old.amount + 1) }
    ensures parts { share.new.parts ≡ share.old.parts }
{
    match given {
        Ok(()) => {}
        Err(_) => book.add(share, 1),
    }
}

// The turn, by a hand that has the store's cell too.
fn fetch_lent<N: Naming, D: Door>(
    table: &HandTable<N>,
    hand: &mut Hand<N>,
    store: &mut D,
    file: &mut FileHand,
    commits: &FileCommits,
    op: &Op,
    desc: Desc,
) -> Result<(), StoreFault>
    requires store { IsStoreIn N.start N.origin D.visible D.keeps hand.old (D.store store.old) }
    requires file { (name : ℕ) × (cell : FileCell) × IsFileIn name cell hand.old × (cell.value ≡ state_of file.old commits.now) }
    ensures store { IsStoreIn N.start N.origin D.visible D.keeps hand.new (D.store store.new) }
    ensures file { (name : ℕ) (cell : FileCell) → IsFileIn name cell hand.old → IsFileIn name (record cell { value = state_of file.new commits.now }) hand.new }
    ensures there { OnOk result (HasNeeded file.new.content desc op.now) }
    ensures read { IsReadOn file.old file.new }
    ensures still { length file.new.content.bytes ≡ length file.old.content.bytes }
    ensures nothing { HasNeeded file.old.content desc op.now → (file.new ≡ file.old) × (result ≡ Ok tt) }
    ensures free { (D.store store.new).unassigned.free ≡ (D.store store.old).unassigned.free }
    ensures beside { IsBeside hand.old hand.new }
    ensures ran { HasRun (fault_in result) 0 0 (D.store store.old) (D.store store.new) }
    ensures rests { (D.store store.new).stop ≡ (D.store store.old).stop }
    ensures faults { hand.new.faults ≡ told_list (fault_told (fault_in result)) ++ hand.old.faults }
    ensures refused { IfErr result (λ fault. IsTrue (is_own fault)) }
{
    // For the prover alone.
    let _runs = commits.dropped().as_slice();
    let geometry = store.geometry();
    file_sync_law();
    a_file_is_fetched(&geometry);
    begin_turn::<N, Brand>(table, hand, &geometry);
    let read = fetch(store, file, op, desc);
    let told = told_by(&read);
    end_turn::<N, D, Brand>(table, hand, &geometry, store, file, commits, false, told);
    read
}

// The turn, by a hand that has the store's cell too.
fn sync_lent<N: Naming, D: Door>(
    table: &HandTable<N>,
    hand: &mut Hand<N>,
    store: &mut D,
    file: &mut FileHand,
    commits: &mut FileCommits,
) -> Result<u64, StoreFault>
    requires plain { D.stamps → ⊥ }
    requires store { IsStoreIn N.start N.origin D.visible D.keeps hand.old (D.store store.old) }
    requires file { (name : ℕ) × (cell : FileCell) × IsFileIn name cell hand.old × (cell.value ≡ state_of file.old commits.old) × (cell.born ≡ true) }
    ensures store { IsStoreIn N.start N.origin D.visible D.keeps hand.new (D.store store.new) }
    ensures ok { OnOk result ((name : ℕ) (cell : FileCell) → IsFileIn name cell hand.old → HasCommitted N.start.is_visible name cell (state_of file.new commits.new) hand.new) }
    ensures err { OnErr result ((name : ℕ) (cell : FileCell) → IsFileIn name cell hand.old → cell.value ≡ state_of file.old commits.old → IsFileIn name cell hand.new) }
    ensures beside { IsBeside hand.old hand.new }
    ensures committed { OnOk result (state_of file.new commits.new ≡ file_committed (state_of file.old commits.old)) }
    ensures kept { OnErr result (state_of file.new commits.new ≡ state_of file.old commits.old) }
    ensures freed { OnOk result ((D.store store.new).unassigned.free ≡ set.union (D.store store.old).unassigned.free (set_of commits.old.dropped)) }
    ensures unfreed { OnErr result ((D.store store.new).unassigned.free ≡ (D.store store.old).unassigned.free) }
    ensures ran { HasRun (fault_in result) 1 1 (D.store store.old) (D.store store.new) }
    ensures faults { hand.new.faults ≡ told_list (fault_told (fault_in result)) ++ hand.old.faults }
    ensures stop { (fault : ℕ) → result ≡ Err (refusal.Stopped fault) → hand.new.stop ≡ Some fault }
    ensures stops { (fault : ℕ) → fault_told (fault_in result) ≡ Some fault → hand.new.stop ≡ Some fault }
    ensures halts { (D.store store.new).stop ≡ stop_after (D.store store.old).stop (fault_in result) }
    ensures halted { (fault : ℕ) → (D.store store.old).stop ≡ Some fault → result ≡ Err (refusal.Stopped fault) }
    ensures stopped { (fault : ℕ) → result ≡ Err (refusal.Stopped fault) → (D.store store.new).stop ≡ Some fault }
    ensures refused { IfErr result (λ fault. is_no_space fault ≡ false) }
{
    // For the prover alone.
    let _runs = commits.dropped().as_slice();
    let geometry = store.geometry();
    file_sync_law();
    a_file_is_committed(&geometry);
    a_failed_commit_ends(&geometry);
    begin_turn::<N, Brand>(table, hand, &geometry);
    match sync_store(store, file, commits) {
        Ok(number) => {
            end_turn::<N, D, Brand>(table, hand, &geometry, store, file, commits, true, None);
            Ok(number)
        }
        Err(fault) => {
            let told = told_of(&fault);
            end_turn::<N, D, Brand>(table, hand, &geometry, store, file, commits, false, told);
            Err(fault)
        }
    }
}

// The store's cell goes from its own hand to the one that is lent.
fn lend<N: Naming>(table: &HandTable<N>, own: &mut Hand<N>, hand: &mut Hand<N>)
    requires home { (c : StoreCell) × HasStoreAlone c own.old }
    requires away { hand.old.store ≡ [] }
    ensures nothing { HasNothing own.new }
    ensures store { hand.new.store ≡ own.old.store }
    ensures beside { IsBeside hand.old hand.new }
    ensures files { hand.new.files ≡ hand.old.files }
    ensures names { hand.new.names ≡ hand.old.names }
    ensures faults { hand.new.faults ≡ hand.old.faults }
{
    let store = own.split(table, PartName::Store);
    hand.join(table, store);
}

// The store's cell goes back.
fn give_back<N: Naming>(table: &HandTable<N>, own: &mut Hand<N>, hand: &mut Hand<N>)
    requires nothing { HasNothing own.old }
    requires store { (c : StoreCell) × (hand.old.store ≡ (tt, c) ∷ []) }
    ensures home { (c : StoreCell) → hand.old.store ≡ (tt, c) ∷ [] → HasStoreAlone c own.new }
    ensures away { hand.new.store ≡ [] }
    ensures beside { IsBeside hand.old hand.new }
    ensures files { hand.new.files ≡ hand.old.files }
    ensures names { hand.new.names ≡ hand.old.names }
    ensures faults { hand.new.faults ≡ hand.old.faults }
    ensures stop { hand.new.stop ≡ hand.old.stop }
{
    let store = hand.split(table, PartName::Store);
    own.join(table, store);
}

// A turn begins. Answers the tickets.
pub(crate) fn begin_turn<N: Naming, E: Event>(
    table: &HandTable<N>,
    hand: &mut Hand<N>,
    geometry: &Geometry,
) -> u64
    requires leaves { E.leaves ≡ begun_view hand.old }
    requires formed { IsGeometry geometry.now }
    requires its { geometry.now ≡ N.start.geometry }
    requires store { (c : StoreCell) × (hand.old.store ≡ (tt, c) ∷ []) }
    ensures begun { hand.new ≡ begun_view hand.old result }
    ensures later { hand.old.seen ≤ result }
    ensures knows { Knows N.start result hand.old }
{
    hand.mark::<E>(table, geometry)
}

// A turn ends in which the file was synced, or couldn't be, or was read. Answers the tickets.
fn end_turn<N: Naming, D: Door, E: Event>(
    table: &HandTable<N>,
    hand: &mut Hand<N>,
    geometry: &Geometry,
    store: &D,
    file: &FileHand,
    commits: &FileCommits,
    done: bool,
    told: Option<u64>,
) -> u64
    requires leaves { E.leaves ≡ ended_view (sync_turn D.keeps done told (state_of file.now commits.now) (D.store store.now) hand.old) hand.old }
    requires formed { IsGeometry geometry.now }
    requires its { geometry.now ≡ N.start.geometry }
    requires may { MayEndTurn N.start.geometry N.start.is_visible hand.old (sync_turn D.keeps done told (state_of file.now commits.now) (D.store store.now) hand.old) }
    ensures ended { hand.new ≡ ended_view (sync_turn D.keeps done told (state_of file.now commits.now) (D.store store.now) hand.old) hand.old result }
    ensures later { hand.old.seen ≤ result }
{
    // For the prover alone.
    let _ = store;
    let _ = file;
    let _ = commits;
    let _ = done;
    let _ = told;
    hand.mark::<E>(table, geometry)
}
