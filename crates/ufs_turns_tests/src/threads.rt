// Four threads take turns of one store, each with the hand of a pool of its own.
ghost use Rattle.std.specs.Prelude.{ℕ, ◌≡◌, ◌<◌, ◌+◌, length};
ghost use Rattle.std.specs.FinSet as set;
ghost use denote.Param.Send.{IsSend, IsSync};
ghost use Rattle.ufs_dir_tree.specs.DirTable.{dir_at, no_dir};
ghost use Rattle.ufs_layout.specs.Areas.{IsGeometry};
ghost use Rattle.ufs_model.specs.PosixTree.{root_alone};
ghost use Rattle.ufs_model.specs.declared.data.PartName.TheVariants.{File};
ghost use Rattle.ufs_names.specs.NamesPart.{IsNamesPart};
ghost use Rattle.ufs_store.specs.State.{geometry_of_store};
ghost use Rattle.ufs_joint.specs.Cells.{given_of, kept_of};
ghost use Rattle.ufs_joint_tests.specs.Small.{all_free, small, small_start};
ghost use Rattle.ufs_turns_tests.specs.Seats.{IsSeat};

use crate::session::{Told, take_turns};
use std::alloc::Global;
use std::marker::{Brand, Model};
use std::sync::ledger::{Blank, Ledger, Share};
use std::sync::{Mutex, Wait};
use std::thread::{Threads, join};
use ufs_bitmap::Pool;
use ufs_disk::Disk;
use ufs_joint::{Begun, Hand, HandTable, Naming, Opened};
use ufs_joint_tests::{mounted, small_parts};
use ufs_layout::Geometry;
use ufs_model::PartName;
use ufs_names::Names;
use ufs_store::Door;
use ufs_turns::{HeldStore, Locked, Turns};

const ROUNDS: u32 = 25;

/// What the four threads came to.
#[derive(Debug, PartialEq, Drop)]
pub struct Shared {
    pub tickets: u64,
    /// Each turn answered as it should.
    pub passed: bool,
}

/// What a thread has.
#[derive(Drop)]
pub struct Seat<N: Naming> {
    number: u32,
    pool: Pool,
    hand: Hand<N>,
    passed: bool,
}

impl<N: Naming> Model for Seat<N> {
    ghost use Rattle.std.specs.Prelude.{ℕ};
    ghost use Rattle.ufs_turns_tests.specs.Seats.{IsSeat};

    ghost Value = { ℕ };

    ghost view = { λ s. s.number };

    ghost invariant = { λ s. IsSeat s.number s.pool s.hand };
}

impl<N: Naming> Seat<N> {
    // What it had, and whether all went well.
    fn leave(self) -> (Hand<N>, Pool, bool)
        ensures { IsSeat self result.1 result.0 }
    {
        let Seat {
            number: _,
            pool,
            hand,
            passed,
        } = self;
        (hand, pool, passed)
    }
}

// What two threads have to count by.
#[derive(Drop)]
struct Shares<L: Ledger> {
    one: Share<L>,
    two: Share<L>,
    ghost parts: { (0 < one.parts) × (0 < two.parts) },
}

/// The pools of the four.
#[derive(Drop)]
pub struct Pools {
    pub first: Pool,
    pub second: Pool,
    pub third: Pool,
    pub fourth: Pool,
    pub ghost none: { (first ≡ set.empty) × (second ≡ set.empty) × (third ≡ set.empty) × (fourth ≡ set.empty) },
}

/// Four threads take turns of a store on this disk.
pub fn by_four_threads<D: Disk + Drop + Send, R: Threads + Wait + Sync>(
    rt: &R,
    alloc: Global,
    disk: D,
) -> Option<Shared> {
    let Ok(names) = Names::new(alloc, 32) else {
        return None;
    };
    let pools = four_pools(alloc)?;
    let store = mounted(alloc, disk)?;
    shared_on(rt, alloc, &names, store, pools)
}

fn four_pools(alloc: Global) -> Option<Pools> {
    Some(Pools {
        first: Pool::make(alloc).ok()?,
        second: Pool::make(alloc).ok()?,
        third: Pool::make(alloc).ok()?,
        fourth: Pool::make(alloc).ok()?,
    })
}

// The same over this store.
fn shared_on<D: Door + Drop + Send, R: Threads + Wait + Sync>(
    rt: &R,
    alloc: Global,
    names: &Names,
    store: D,
    pools: Pools,
) -> Option<Shared>
    requires plain { D.stamps → ⊥ }
    requires part { IsNamesPart names.now root_alone }
    requires counted { length names.now.tree.dirs.dirs ≡ 32 + 1 }
    requires bare { (i : ℕ) → dir_at names.now.tree.dirs i ≡ no_dir }
    requires formed { geometry_of_store (D.store store) ≡ small }
    requires free { (D.store store).unassigned ≡ all_free }
{
    let geometry = store.geometry();
    let parts = small_parts::<Brand, D>(names, &store);
    let Ok(opened) = Opened::open(alloc, parts) else {
        return None;
    };
    let blank = Blank::new(4);
    Some(run_shared::<Brand, D, Brand, R>(rt, opened, &geometry, names, store, pools, blank))
}

fn run_shared<
    N: Naming + Send + Sync,
    D: Door + Drop + Send,
    L: Ledger + Send + Sync,
    R: Threads + Wait + Sync,
>(
    rt: &R,
    opened: Opened,
    geometry: &Geometry,
    names: &Names,
    store: D,
    pools: Pools,
    blank: Blank,
) -> Shared
    requires plain { D.stamps → ⊥ }
    requires ledger { blank.name ≡ L.name }
    requires parts { blank.parts ≡ L.parts }
    requires four { blank.parts ≡ 4 }
    requires name { (opened.table ≡ N.table) × (opened.start ≡ N.start) }
    requires start { N.start ≡ small_start names.now (D.store store) }
    requires formed { geometry_of_store (D.store store) ≡ small }
    requires part { IsNamesPart names.now root_alone }
    requires limits { IsGeometry geometry.now }
    requires its { geometry.now ≡ N.start.geometry }
{
    let Begun { table, mut hand } = opened.named::<N>();
    let (book, share) = blank.open::<L>();
    let own = hand.split(&table, PartName::Store);
    let held = Mutex::new(HeldStore::new(own, store, book));
    let Pools {
        first,
        second,
        third,
        fourth,
    } = pools;
    let one = give_seat(&table, &mut hand, 0, first);
    let two = give_seat(&table, &mut hand, 1, second);
    let three = give_seat(&table, &mut hand, 2, third);
    let four = give_seat(&table, &mut hand, 3, fourth);
    let (ours, theirs) = four_shares(share);
    let ((one, two), (three, four)) = all_turns(
        rt,
        &table,
        &held,
        (one, two),
        (three, four),
        ours,
        theirs,
    );
    let (own, store) = held.into_inner().into_parts();
    drop(store);
    let (one, _, first) = one.leave();
    let (two, _, second) = two.leave();
    let (three, _, third) = three.leave();
    let (four, _, fourth) = four.leave();
    let passed = first && second && third && fourth;
    hand.join(&table, one);
    hand.join(&table, two);
    hand.join(&table, three);
    hand.join(&table, four);
    hand.join(&table, own);
    let tickets = hand.close(table, geometry);
    Shared { tickets, passed }
}

// The share is cut for the four.
fn four_shares<L: Ledger>(mut share: Share<L>) -> (Shares<L>, Shares<L>)
    requires { share.parts ≡ 4 }
{
    let two = share.split_off(1, 0);
    let three = share.split_off(1, 0);
    let four = share.split_off(1, 0);
    (
        Shares { one: share, two },
        Shares {
            one: three,
            two: four,
        },
    )
}

// The hand gives one up that has this pool.
fn give_seat<N: Naming>(
    table: &HandTable<N>,
    hand: &mut Hand<N>,
    number: u32,
    pool: Pool,
) -> Seat<N>
    requires { IsSeat number pool (given_of (File number) hand.old) }
    ensures kept { hand.new ≡ kept_of (File number) hand.old }
    ensures number { result ≡ number }
{
    Seat {
        number,
        pool,
        hand: hand.split(table, PartName::File(number)),
        passed: true,
    }
}

// Each of the four takes its turns in a thread of its own.
fn all_turns<
    N: Naming + Send + Sync,
    D: Door + Send,
    L: Ledger + Send + Sync,
    R: Threads + Wait + Sync,
>(
    rt: &R,
    table: &HandTable<N>,
    held: &Mutex<HeldStore<N, D, L>>,
    pair: (Seat<N>, Seat<N>),
    other: (Seat<N>, Seat<N>),
    ours: Shares<L>,
    theirs: Shares<L>,
) -> ((Seat<N>, Seat<N>), (Seat<N>, Seat<N>))
    ensures one { result.0.0 ≡ pair.0 }
    ensures two { result.0.1 ≡ pair.1 }
    ensures three { result.1.0 ≡ other.0 }
    ensures four { result.1.1 ≡ other.1 }
{
    join(
        rt,
        || -> (Seat<N>, Seat<N>)
            requires { IsSync R.row × IsSend N.row × IsSync N.row × IsSend D.row }
            ensures { (result.0 ≡ pair.0) × (result.1 ≡ pair.1) }
        { both_turns(rt, table, held, pair, ours) },
        || -> (Seat<N>, Seat<N>)
            requires { IsSync R.row × IsSend N.row × IsSync N.row × IsSend D.row }
            ensures { (result.0 ≡ other.0) × (result.1 ≡ other.1) }
        { both_turns(rt, table, held, other, theirs) },
    )
}

fn both_turns<
    N: Naming + Send + Sync,
    D: Door + Send,
    L: Ledger + Send + Sync,
    R: Threads + Wait + Sync,
>(
    rt: &R,
    table: &HandTable<N>,
    held: &Mutex<HeldStore<N, D, L>>,
    pair: (Seat<N>, Seat<N>),
    shares: Shares<L>,
) -> (Seat<N>, Seat<N>)
    ensures { (result.0 ≡ pair.0) × (result.1 ≡ pair.1) }
{
    let (one, two) = pair;
    let Shares {
        one: first,
        two: second,
    } = shares;
    join(
        rt,
        || -> Seat<N>
            requires { IsSync R.row × IsSend N.row × IsSync N.row × IsSend D.row × (0 < first.parts) }
            ensures { result ≡ one }
        { turns(rt, table, held, one, first) },
        || -> Seat<N>
            requires { IsSync R.row × IsSend N.row × IsSync N.row × IsSend D.row × (0 < second.parts) }
            ensures { result ≡ two }
        { turns(rt, table, held, two, second) },
    )
}

// One takes its turns.
fn turns<N: Naming, D: Door, L: Ledger, R: Wait>(
    rt: &R,
    table: &HandTable<N>,
    held: &Mutex<HeldStore<N, D, L>>,
    mut seat: Seat<N>,
    share: Share<L>,
) -> Seat<N>
    requires { 0 < share.parts }
    ensures { result ≡ seat }
{
    let mut door = Locked {
        rt,
        table,
        held,
        share,
    };
    for _ in 0..ROUNDS {
        round(&mut door, &mut seat);
    }
    seat
}

// Others have at most 67 of the 242 blocks each, so three are always left.
fn round<N: Naming, T: Turns<N>>(door: &mut T, seat: &mut Seat<N>)
    ensures { seat.new ≡ seat.old }
{
    let Seat {
        number: _,
        pool,
        hand,
        passed,
    } = seat;
    let told = take_turns::<N, T>(door, hand, pool);
    *passed = *passed && is_served(&told);
}

fn is_served(told: &Told) -> bool {
    told.lacks.is_err() && told.given >= 3 && told.left == 0 && told.made.is_ok()
}
