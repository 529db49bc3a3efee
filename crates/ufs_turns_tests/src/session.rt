// A session over the root alone, of whose disk contracts say nothing: the store gives a pool blocks, takes them back, and makes a
// checkpoint.
ghost use Rattle.std.specs.Prelude.{ℕ, ◌≡◌, ◌<◌, ◌+◌, [], length};
ghost use Rattle.std.specs.FinSet as set;
ghost use Rattle.ufs_dir_tree.specs.DirTable.{dir_at, no_dir};
ghost use Rattle.ufs_layout.specs.Areas.{IsGeometry};
ghost use Rattle.ufs_model.specs.PosixTree.{root_alone};
ghost use Rattle.ufs_names.specs.NamesPart.{IsNamesPart};
ghost use Rattle.ufs_store.specs.State.{geometry_of_store};
ghost use Rattle.ufs_joint_tests.specs.Small.{all_free, small, small_start};
ghost use Rattle.ufs_turns.specs.Lent.{IsBare, LendsPool};

use std::alloc::Global;
use std::marker::Brand;
use std::sync::ledger::{Blank, Ledger, Share};
use std::sync::{Mutex, Wait};
use ufs_bitmap::Pool;
use ufs_disk::Disk;
use ufs_joint::{Begun, Hand, HandTable, Naming, Opened};
use ufs_joint_tests::{mounted, small_parts};
use ufs_layout::Geometry;
use ufs_model::PartName;
use ufs_names::Names;
use ufs_store::{Door, StoreFault};
use ufs_turns::{Direct, HeldStore, Locked, Turns};

/// What the turns came to.
#[derive(Debug, PartialEq, Drop)]
pub struct Told {
    /// The answer to a wish for more blocks than there are.
    pub lacks: Result<(), StoreFault>,
    /// How many the pool was given for three that were missing.
    pub given: u32,
    /// How many it has in the end.
    pub left: u32,
    /// How the checkpoint went.
    pub made: Result<(), StoreFault>,
}

/// The entries of the session, and what its turns came to.
#[derive(Debug, PartialEq, Drop)]
pub struct Ended {
    pub tickets: u64,
    pub told: Told,
}

/// The turns of a session over this disk, straight.
pub fn straight<D: Disk + Drop>(alloc: Global, disk: D) -> Option<Ended> {
    let Ok(names) = Names::new(alloc, 32) else {
        return None;
    };
    let Ok(pool) = Pool::make(alloc) else {
        return None;
    };
    let store = mounted(alloc, disk)?;
    straight_on(alloc, &names, store, pool)
}

/// The same behind a lock.
pub fn behind_a_lock<D: Disk + Drop, R: Wait>(rt: &R, alloc: Global, disk: D) -> Option<Ended> {
    let Ok(names) = Names::new(alloc, 32) else {
        return None;
    };
    let Ok(pool) = Pool::make(alloc) else {
        return None;
    };
    let store = mounted(alloc, disk)?;
    locked_on(rt, alloc, &names, store, pool)
}

// The same over this store, straight,
fn straight_on<D: Door + Drop>(alloc: Global, names: &Names, store: D, pool: Pool) -> Option<Ended>
    requires plain { D.stamps → ⊥ }
    requires part { IsNamesPart names.now root_alone }
    requires counted { length names.now.tree.dirs.dirs ≡ 32 + 1 }
    requires bare { (i : ℕ) → dir_at names.now.tree.dirs i ≡ no_dir }
    requires formed { geometry_of_store (D.store store) ≡ small }
    requires free { (D.store store).unassigned ≡ all_free }
    requires none { pool ≡ set.empty }
{
    let geometry = store.geometry();
    let parts = small_parts::<Brand, D>(names, &store);
    let Ok(opened) = Opened::open(alloc, parts) else {
        return None;
    };
    let blank = Blank::new(1);
    Some(run::<Brand, D, Brand>(opened, &geometry, names, store, pool, blank))
}

// and behind a lock.
fn locked_on<D: Door + Drop, R: Wait>(
    rt: &R,
    alloc: Global,
    names: &Names,
    store: D,
    pool: Pool,
) -> Option<Ended>
    requires plain { D.stamps → ⊥ }
    requires part { IsNamesPart names.now root_alone }
    requires counted { length names.now.tree.dirs.dirs ≡ 32 + 1 }
    requires bare { (i : ℕ) → dir_at names.now.tree.dirs i ≡ no_dir }
    requires formed { geometry_of_store (D.store store) ≡ small }
    requires free { (D.store store).unassigned ≡ all_free }
    requires none { pool ≡ set.empty }
{
    let geometry = store.geometry();
    let parts = small_parts::<Brand, D>(names, &store);
    let Ok(opened) = Opened::open(alloc, parts) else {
        return None;
    };
    let blank = Blank::new(1);
    Some(run_locked::<Brand, D, Brand, R>(rt, opened, &geometry, names, store, pool, blank))
}

fn run<N: Naming, D: Door + Drop, L: Ledger>(
    opened: Opened,
    geometry: &Geometry,
    names: &Names,
    store: D,
    mut pool: Pool,
    blank: Blank,
) -> Ended
    requires plain { D.stamps → ⊥ }
    requires ledger { blank.name ≡ L.name }
    requires parts { blank.parts ≡ L.parts }
    requires one { blank.parts ≡ 1 }
    requires name { (opened.table ≡ N.table) × (opened.start ≡ N.start) }
    requires start { N.start ≡ small_start names.now (D.store store) }
    requires formed { geometry_of_store (D.store store) ≡ small }
    requires none { pool ≡ set.empty }
    requires part { IsNamesPart names.now root_alone }
    requires limits { IsGeometry geometry.now }
    requires its { geometry.now ≡ N.start.geometry }
{
    let Begun { table, mut hand } = opened.named::<N>();
    let (book, share) = blank.open::<L>();
    let own = hand.split(&table, PartName::Store);
    let held = HeldStore::new(own, store, book);
    let mut lent = hand.split(&table, PartName::File(0));
    let (told, held) = turns_straight(&table, held, &mut lent, &mut pool, share);
    let (own, store) = held.into_parts();
    drop(store);
    hand.join(&table, lent);
    hand.join(&table, own);
    let tickets = hand.close(table, geometry);
    Ended { tickets, told }
}

fn run_locked<N: Naming, D: Door + Drop, L: Ledger, R: Wait>(
    rt: &R,
    opened: Opened,
    geometry: &Geometry,
    names: &Names,
    store: D,
    mut pool: Pool,
    blank: Blank,
) -> Ended
    requires plain { D.stamps → ⊥ }
    requires ledger { blank.name ≡ L.name }
    requires parts { blank.parts ≡ L.parts }
    requires one { blank.parts ≡ 1 }
    requires name { (opened.table ≡ N.table) × (opened.start ≡ N.start) }
    requires start { N.start ≡ small_start names.now (D.store store) }
    requires formed { geometry_of_store (D.store store) ≡ small }
    requires none { pool ≡ set.empty }
    requires part { IsNamesPart names.now root_alone }
    requires limits { IsGeometry geometry.now }
    requires its { geometry.now ≡ N.start.geometry }
{
    let Begun { table, mut hand } = opened.named::<N>();
    let (book, share) = blank.open::<L>();
    let own = hand.split(&table, PartName::Store);
    let held = Mutex::new(HeldStore::new(own, store, book));
    let mut lent = hand.split(&table, PartName::File(0));
    let told = turns_locked(rt, &table, &held, &mut lent, &mut pool, share);
    let (own, store) = held.into_inner().into_parts();
    drop(store);
    hand.join(&table, lent);
    hand.join(&table, own);
    let tickets = hand.close(table, geometry);
    Ended { tickets, told }
}

// The turns by the way that has the store,
fn turns_straight<N: Naming, D: Door, L: Ledger>(
    table: &HandTable<N>,
    held: HeldStore<N, D, L>,
    hand: &mut Hand<N>,
    pool: &mut Pool,
    share: Share<L>,
) -> (Told, HeldStore<N, D, L>)
    requires part { 0 < share.parts }
    requires lent { (name : ℕ) × LendsPool name pool.old hand.old }
    requires files { hand.old.files ≡ [] }
    requires names { hand.old.names ≡ [] }
    ensures bare { IsBare hand.new }
    ensures clients { hand.new.clients ≡ hand.old.clients }
    ensures pool { (name : ℕ) → LendsPool name pool.old hand.old → LendsPool name pool.new hand.new }
{
    let mut door = Direct { table, held, share };
    let told = take_turns(&mut door, hand, pool);
    (told, door.held)
}

// and by the one behind a lock.
fn turns_locked<N: Naming, D: Door, L: Ledger, R: Wait>(
    rt: &R,
    table: &HandTable<N>,
    held: &Mutex<HeldStore<N, D, L>>,
    hand: &mut Hand<N>,
    pool: &mut Pool,
    share: Share<L>,
) -> Told
    requires part { 0 < share.parts }
    requires lent { (name : ℕ) × LendsPool name pool.old hand.old }
    requires files { hand.old.files ≡ [] }
    requires names { hand.old.names ≡ [] }
    ensures bare { IsBare hand.new }
    ensures clients { hand.new.clients ≡ hand.old.clients }
    ensures pool { (name : ℕ) → LendsPool name pool.old hand.old → LendsPool name pool.new hand.new }
{
    let mut door = Locked {
        rt,
        table,
        held,
        share,
    };
    take_turns(&mut door, hand, pool)
}

// Each call that is about no file, by the hand of a pool.
pub(crate) fn take_turns<N: Naming, T: Turns<N>>(
    door: &mut T,
    hand: &mut Hand<N>,
    pool: &mut Pool,
) -> Told
    requires lent { (name : ℕ) × LendsPool name pool.old hand.old }
    requires files { hand.old.files ≡ [] }
    requires names { hand.old.names ≡ [] }
    ensures bare { IsBare hand.new }
    ensures clients { hand.new.clients ≡ hand.old.clients }
    ensures pool { (name : ℕ) → LendsPool name pool.old hand.old → LendsPool name pool.new hand.new }
{
    let lacks = door.give_pool(hand, pool, 1_000);
    let some = door.give_pool(hand, pool, 3);
    let given = if some.is_ok() { pool.count() } else { 0 };
    door.take_back(hand, pool);
    let made = door.checkpoint(hand);
    Told {
        lacks,
        given,
        left: pool.count(),
        made,
    }
}
