// A session over the root alone, of whose disk contracts say nothing: its client asks for a `sync`, where the
// store goes or has stopped, and the names are committed twice.
ghost use Rattle.std.specs.Prelude.{ℕ, ◌≡◌, ◌<◌, ◌+◌, [], ◌∷◌, IsSome, Some, length};
ghost use Rattle.std.specs.FinMap as fin;
ghost use Rattle.std.specs.FinSet as set;
ghost use Rattle.ufs_dir_tree.specs.DirTable.{dir_at, no_dir};
ghost use Rattle.ufs_layout.specs.Areas.{IsGeometry};
ghost use Rattle.ufs_bitmap.specs.Blocks.{BlockSet};
ghost use Rattle.ufs_held.specs.Asking.{IsGuest};
ghost use Rattle.ufs_held_names.specs.Dirs.{answered};
ghost use Rattle.ufs_joint.specs.Marks.{asking};
ghost use Rattle.ufs_model.specs.PosixTree.{root_alone};
ghost use Rattle.ufs_model.specs.declared.data.Op.TheVariants as op;
ghost use Rattle.ufs_hand_laws.specs.Parts.{ClientPart};
ghost use Rattle.ufs_hand_laws.specs.Whole.{idle_asked, idle_client};
ghost use Rattle.ufs_names.specs.NamesPart.{IsNamesPart};
ghost use Rattle.ufs_names.specs.Notes.{with_notes};
ghost use Rattle.ufs_store.specs.State.{geometry_of_store};
ghost use Rattle.ufs_joint_tests.specs.Small.{all_free, small, small_start};
ghost use Rattle.ufs_turns.specs.Lent.{IsBare};

use std::alloc::Global;
use std::marker::Brand;
use std::sync::ledger::{Blank, Ledger, Share};
use ufs_disk::Disk;
use ufs_held_names::{HeldNames, NamesSynced};
use ufs_joint::{Begun, Event, Hand, HandTable, Naming, Opened};
use ufs_joint_tests::{mounted, small_parts};
use ufs_layout::Geometry;
use ufs_model::{Actor, Ask, Entry, Excuse, Op, PartName, Reply};
use ufs_names::{Names, notes_are_beside};
use ufs_noted::NotedNames;
use ufs_store::{Door, StoreFault};
use ufs_turns::{Direct, HeldStore, Turns};

/// What the calls came to.
#[derive(Debug, PartialEq, Drop)]
pub struct Told {
    /// The entries of the session.
    pub tickets: u64,
    /// The next file number.
    pub next: u32,
    /// Whether the names know a birth of it.
    pub born: bool,
    /// The checkpoint before the `sync`, where there was one.
    pub made: Option<Result<(), StoreFault>>,
    pub synced: Synced,
    /// How the names were committed behind it, twice.
    pub first: Result<(), StoreFault>,
    pub second: Result<(), StoreFault>,
}

/// How the `sync` was answered.
#[derive(Debug, PartialEq, Drop)]
pub enum Synced {
    Done,
    Excused(Excuse),
    Otherwise,
}

// What the turns came to, and the guest.
#[derive(Drop)]
struct Turned<N: Naming> {
    made: Option<Result<(), StoreFault>>,
    entry: Entry,
    guest: Hand<N>,
    first: Result<(), StoreFault>,
    second: Result<(), StoreFault>,
}

/// The session over this disk, with a checkpoint before the `sync` if that is wanted.
pub fn synced_by_hand<D: Disk + Drop>(alloc: Global, disk: D, checkpoint: bool) -> Option<Told> {
    let Ok(mut names) = Names::new(alloc, 32) else {
        return None;
    };
    names.begin_notes();
    notes_are_beside();
    let store = mounted(alloc, disk)?;
    served_on(alloc, names, store, checkpoint)
}

// The same over this store.
fn served_on<D: Door + Drop>(
    alloc: Global,
    names: Names,
    store: D,
    checkpoint: bool,
) -> Option<Told>
    requires plain { D.stamps → ⊥ }
    requires part { IsNamesPart names root_alone }
    requires counted { length names.tree.dirs.dirs ≡ 32 + 1 }
    requires bare { (i : ℕ) → dir_at names.tree.dirs i ≡ no_dir }
    requires noted { with_notes (Some []) names ≡ names }
    requires formed { geometry_of_store (D.store store) ≡ small }
    requires free { (D.store store).unassigned ≡ all_free }
{
    let geometry = store.geometry();
    let parts = small_parts::<Brand, D>(&names, &store);
    let Ok(noted) = NotedNames::new(alloc, names, 0) else {
        return None;
    };
    let Ok(opened) = Opened::open(alloc, parts) else {
        return None;
    };
    let blank = Blank::new(1);
    Some(run::<Brand, D, Brand>(alloc, opened, &geometry, noted, store, blank, checkpoint))
}

fn run<N: Naming, D: Door + Drop, L: Ledger>(
    alloc: Global,
    opened: Opened,
    geometry: &Geometry,
    noted: NotedNames,
    store: D,
    blank: Blank,
    checkpoint: bool,
) -> Told
    requires plain { D.stamps → ⊥ }
    requires ledger { blank.name ≡ L.name }
    requires parts { blank.parts ≡ L.parts }
    requires one { blank.parts ≡ 1 }
    requires name { (opened.table ≡ N.table) × (opened.start ≡ N.start) }
    requires start { N.start ≡ small_start noted.names (D.store store) }
    requires noted { noted ≡ record { names = noted.names; fresh = []; dropped = set.empty } }
    requires part { IsNamesPart noted.names root_alone }
    requires stored { geometry_of_store (D.store store) ≡ small }
    requires formed { IsGeometry geometry.now }
    requires its { geometry.now ≡ N.start.geometry }
{
    let Begun { table, mut hand } = opened.named::<N>();
    let (book, share) = blank.open::<L>();
    ask::<N, Brand>(&table, &mut hand, geometry);
    let own = hand.split(&table, PartName::Store);
    let held = HeldStore::new(own, store, book);
    let right = hand.split(&table, PartName::Names);
    let mut names = HeldNames::new(&table, noted, right);
    let next = names.next_number();
    let born = names.knows_birth(next);
    let mut guest = hand.split(&table, PartName::Client(0));
    let pool = hand.split(&table, PartName::File(3));
    guest.join(&table, pool);
    let (turned, held) = straight(
        alloc, &table, held, share, &mut names, guest, &mut hand, geometry, checkpoint,
    );
    let Turned {
        made,
        entry,
        guest,
        first,
        second,
    } = turned;
    let (_, right) = names.into_parts();
    let (own, store) = held.into_parts();
    drop(store);
    hand.join(&table, guest);
    hand.join(&table, right);
    hand.join(&table, own);
    let tickets = hand.close(table, geometry);
    Told {
        tickets,
        next,
        born,
        made,
        synced: synced_by(entry.reply),
        first,
        second,
    }
}

fn synced_by(reply: Reply) -> Synced {
    match reply {
        Reply::Done => Synced::Done,
        Reply::Excused(cause) => Synced::Excused(cause),
        _ => Synced::Otherwise,
    }
}

// The client asks for a `sync`.
fn ask<N: Naming, E: Event>(table: &HandTable<N>, hand: &mut Hand<N>, geometry: &Geometry) -> u64
    requires formed { IsGeometry geometry.now }
    requires its { geometry.now ≡ N.start.geometry }
    requires client { hand.old.clients ≡ (0, idle_client) ∷ [] }
    requires asked { hand.old.asked ≡ (0, idle_asked) ∷ [] }
    requires event { E.leaves ≡ (λ n. asking n 0 op.Sync idle_client hand.old) }
    ensures { hand.new ≡ asking result 0 op.Sync idle_client hand.old }
{
    hand.mark::<E>(table, geometry)
}

// The turns by the way that has the store.
fn straight<N: Naming, D: Door, L: Ledger>(
    alloc: Global,
    table: &HandTable<N>,
    held: HeldStore<N, D, L>,
    share: Share<L>,
    names: &mut HeldNames<N>,
    guest: Hand<N>,
    hand: &mut Hand<N>,
    geometry: &Geometry,
    checkpoint: bool,
) -> (Turned<N>, HeldStore<N, D, L>)
    requires share { 0 < share.parts }
    requires formed { IsGeometry geometry.now }
    requires its { geometry.now ≡ N.start.geometry }
    requires guest { (part : ClientPart) × (n : ℕ) × (pool : BlockSet) × IsGuest 0 part n pool guest × (part.asked ≡ Some op.Sync) × (part.entries ≡ []) }
    requires none { (file : ℕ) → IsSome (fin.get names.old.value.held file) → ⊥ }
    requires bare { IsBare hand.old }
    ensures guest { (part : ClientPart) (n : ℕ) (pool : BlockSet) → IsGuest 0 part n pool guest → IsGuest 0 (answered part result.0.entry) n pool result.0.guest }
    ensures held { names.new.value.held ≡ names.old.value.held }
    ensures bare { IsBare hand.new }
    ensures clients { hand.new.clients ≡ hand.old.clients }
    ensures pools { hand.new.pools ≡ hand.old.pools }
{
    let mut door = Direct { table, held, share };
    let made = checkpoint_if(checkpoint, &mut door, hand);
    let NamesSynced { entry, guest } = sync_none(alloc, table, names, &mut door, guest, geometry);
    let (first, second) = commit_twice(table, names, &mut door, hand);
    let turned = Turned {
        made,
        entry,
        guest,
        first,
        second,
    };
    (turned, door.held)
}

// A checkpoint, if one is wanted.
fn checkpoint_if<N: Naming, T: Turns<N>>(
    wanted: bool,
    door: &mut T,
    hand: &mut Hand<N>,
) -> Option<Result<(), StoreFault>>
    requires bare { IsBare hand.old }
    ensures bare { IsBare hand.new }
    ensures clients { hand.new.clients ≡ hand.old.clients }
    ensures pools { hand.new.pools ≡ hand.old.pools }
{
    if !wanted {
        return None;
    }
    Some(door.checkpoint(hand))
}

// A `sync` where no file is live.
fn sync_none<N: Naming, T: Turns<N>>(
    alloc: Global,
    table: &HandTable<N>,
    names: &mut HeldNames<N>,
    door: &mut T,
    guest: Hand<N>,
    geometry: &Geometry,
) -> NamesSynced<N>
    requires formed { IsGeometry geometry.now }
    requires its { geometry.now ≡ N.start.geometry }
    requires guest { (part : ClientPart) × (n : ℕ) × (pool : BlockSet) × IsGuest 0 part n pool guest × (part.asked ≡ Some op.Sync) × (part.entries ≡ []) }
    requires none { (file : ℕ) → IsSome (fin.get names.old.value.held file) → ⊥ }
    ensures guest { (part : ClientPart) (n : ℕ) (pool : BlockSet) → IsGuest 0 part n pool guest → IsGuest 0 (answered part result.entry) n pool result.guest }
    ensures held { names.new.value.held ≡ names.old.value.held }
{
    let ask = Ask {
        client: 0,
        seq: 0,
        op: Op::Sync,
        desc: None,
        fd: 0,
        last: false,
    };
    let mut files = Vec::new(alloc);
    names.sync(
        table,
        ask,
        guest,
        Actor::Primary,
        files.as_mut_slice(),
        door,
        geometry,
    )
}

// Whichever way a commit goes, the names are of the same files, and the guest has what it had.
fn commit_twice<N: Naming, T: Turns<N>>(
    table: &HandTable<N>,
    names: &mut HeldNames<N>,
    door: &mut T,
    hand: &mut Hand<N>,
) -> (Result<(), StoreFault>, Result<(), StoreFault>)
    requires bare { IsBare hand.old }
    ensures bare { IsBare hand.new }
    ensures held { names.new.value.held ≡ names.old.value.held }
    ensures clients { hand.new.clients ≡ hand.old.clients }
    ensures pools { hand.new.pools ≡ hand.old.pools }
{
    let first = names.commit(table, hand, door);
    let second = names.commit(table, hand, door);
    (first, second)
}
