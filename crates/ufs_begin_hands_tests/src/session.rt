// Sessions over an image, with two clients and one worker, in which no request is asked, from their beginning to their end.
ghost use Rattle.std.specs.Prelude.{◌≡◌, ◌<◌, ◌∷◌, [], true, IsTrue, map};
ghost use Rattle.ufs_begin_hands.specs.Values.{value_of};
ghost use Rattle.ufs_begin_hands_tests.specs.Mounted.{IsDealt, IsMounted};
ghost use Rattle.ufs_joint.specs.FirstHand.{Beginning};
ghost use Rattle.ufs_layout.specs.Areas.{IsGeometry};
ghost use Rattle.ufs_turns.specs.Lent.{IsBare};

use std::alloc::AllocGlobal;
use std::marker::Brand;
use std::process::Abort;
use std::sync::ledger::{Blank, Ledger, Share};
use ufs_begin_hands::{Ready, mount};
use ufs_caller::client_hand;
use ufs_dealt::{Dealt, deal, deal_files, deal_pool, dealt_law};
use ufs_disk::Disk;
use ufs_gathered::{Actors, Ended, Finished, end, finish};
use ufs_joint::{Hand, HandTable, Naming};
use ufs_layout::Geometry;
use ufs_start::start_of;
use ufs_store::{Door, Store};
use ufs_turns::HeldStore;

/// The number under which the primary has its pool.
const PRIMARY_POOL: u32 = 4_294_967_295;

/// What a session came to.
#[derive(Drop)]
pub struct Closed<D: Disk> {
    /// Its entries.
    pub tickets: u64,
    /// How many files were dealt.
    pub files: usize,
    /// The disk, whose image is in use.
    pub disk: D,
}

/// A session of which all is dealt.
struct AllDealt<N: Naming, D: Disk, L: Ledger> {
    table: HandTable<N>,
    actors: Actors<N, Store<D>, L>,
    share: Share<L>,
}

/// Opens a session over the image of this disk, deals its first hand, and ends it with all that was dealt.
pub fn deal_and_close<D: Disk + Drop, R: Abort + AllocGlobal>(rt: &R, disk: D) -> Closed<D> {
    let ready = ready_on(rt, disk);
    let blank = Blank::new(1);
    close_all::<Brand, D, Brand, R>(rt, ready, blank)
}

/// The same, but that everything is committed before the end, and the image made clean behind it. First a checkpoint is tried, if one is
/// wanted.
pub fn deal_and_finish<D: Disk + Drop, R: Abort + AllocGlobal>(
    rt: &R,
    disk: D,
    checkpoint: bool,
) -> Finished<D> {
    let ready = ready_on(rt, disk);
    let geometry = ready.store.geometry();
    let blank = Blank::new(1);
    finish_all::<Brand, D, Brand, R>(rt, ready, &geometry, blank, checkpoint)
}

// The image of this disk is mounted.
fn ready_on<D: Disk + Drop, R: Abort + AllocGlobal>(rt: &R, mut disk: D) -> Ready<D>
    ensures mounted { (b : Beginning) × IsMounted b result.opened.start (⟦<Store<D> as Door>⟧.store result.store) result.names (map value_of result.files.items) }
    ensures sees { result.opened.start.is_visible ≡ true → IsTrue D.visible }
{
    let Ok(start) = start_of(rt.alloc(), &mut disk) else {
        panic!(rt; "no start");
    };
    let Ok(ready) = mount(rt.alloc(), disk, start, 2, 1) else {
        panic!(rt; "not mounted");
    };
    ready
}

fn close_all<N: Naming, D: Disk, L: Ledger, R: Abort + AllocGlobal>(
    rt: &R,
    ready: Ready<D>,
    blank: Blank,
) -> Closed<D>
    requires name { (ready.opened.table ≡ N.table) × (ready.opened.start ≡ N.start) }
    requires ledger { blank.name ≡ L.name }
    requires parts { blank.parts ≡ L.parts }
    requires one { blank.parts ≡ 1 }
    requires mounted { (b : Beginning) × IsMounted b N.start (⟦<Store<D> as Door>⟧.store ready.store) ready.names (map value_of ready.files.items) }
    requires origin { N.origin ≡ (⟦<Store<D> as Door>⟧.store ready.store).moments }
    requires sees { N.start.is_visible ≡ true → IsTrue D.visible }
{
    let AllDealt {
        table,
        actors,
        share,
    } = deal_all::<N, D, L, R>(rt, ready, blank);
    drop(share);
    let files = actors.files.len();
    let Ended { tickets, store } = end(table, actors);
    Closed {
        tickets,
        files,
        disk: store.into_disk(),
    }
}

fn finish_all<N: Naming, D: Disk, L: Ledger, R: Abort + AllocGlobal>(
    rt: &R,
    ready: Ready<D>,
    geometry: &Geometry,
    blank: Blank,
    checkpoint: bool,
) -> Finished<D>
    requires name { (ready.opened.table ≡ N.table) × (ready.opened.start ≡ N.start) }
    requires ledger { blank.name ≡ L.name }
    requires parts { blank.parts ≡ L.parts }
    requires one { blank.parts ≡ 1 }
    requires mounted { (b : Beginning) × IsMounted b N.start (⟦<Store<D> as Door>⟧.store ready.store) ready.names (map value_of ready.files.items) }
    requires origin { N.origin ≡ (⟦<Store<D> as Door>⟧.store ready.store).moments }
    requires sees { N.start.is_visible ≡ true → IsTrue D.visible }
    requires formed { IsGeometry geometry.now }
    requires its { geometry.now ≡ N.start.geometry }
{
    let AllDealt {
        table,
        actors,
        mut share,
    } = deal_all::<N, D, L, R>(rt, ready, blank);
    let Actors {
        names,
        files,
        mut store,
        mut pools,
        clients,
    } = actors;
    checkpoint_if(checkpoint, &table, &mut store, &mut pools, &mut share);
    let actors = Actors {
        names,
        files,
        store,
        pools,
        clients,
    };
    finish(rt.alloc(), table, geometry, actors, share)
}

// Tries a checkpoint by the hand of the pools, if one is wanted. Where the disk fails the store has stopped.
fn checkpoint_if<N: Naming, D: Disk, L: Ledger>(
    wanted: bool,
    table: &HandTable<N>,
    store: &mut HeldStore<N, Store<D>, L>,
    pools: &mut Hand<N>,
    share: &mut Share<L>,
)
    requires share { 0 < share.old.parts }
    requires bare { IsBare pools.old }
    ensures share { share.new.parts ≡ share.old.parts }
    ensures bare { IsBare pools.new }
    ensures clients { pools.new.clients ≡ pools.old.clients }
    ensures pools { pools.new.pools ≡ pools.old.pools }
{
    if !wanted {
        return;
    }
    let _made = store.checkpoint(table, pools, share);
}

// Deals all of the first hand.
fn deal_all<N: Naming, D: Disk, L: Ledger, R: Abort + AllocGlobal>(
    rt: &R,
    ready: Ready<D>,
    blank: Blank,
) -> AllDealt<N, D, L>
    requires name { (ready.opened.table ≡ N.table) × (ready.opened.start ≡ N.start) }
    requires ledger { blank.name ≡ L.name }
    requires parts { blank.parts ≡ L.parts }
    requires one { blank.parts ≡ 1 }
    requires mounted { (b : Beginning) × IsMounted b N.start (⟦<Store<D> as Door>⟧.store ready.store) ready.names (map value_of ready.files.items) }
    requires origin { N.origin ≡ (⟦<Store<D> as Door>⟧.store ready.store).moments }
    requires sees { N.start.is_visible ≡ true → IsTrue D.visible }
    ensures dealt { IsDealt N.start result.actors.names result.actors.files.items result.actors.pools result.actors.clients.items }
    ensures share { 0 < result.share.parts }
{
    dealt_law();
    let Ready {
        names,
        files,
        store,
        opened,
    } = ready;
    let Ok(mut held) = Vec::with_capacity(rt.alloc(), files.len()) else {
        panic!(rt; "memory");
    };
    let (book, share) = blank.open::<L>();
    let Dealt {
        table,
        names,
        store,
        mut hand,
    } = deal::<N, Store<D>, L>(opened, names, store, book);
    deal_files(&table, &mut hand, files, &mut held);
    let pool = deal_pool(&table, &mut hand, PRIMARY_POOL);
    let first = client_hand(&table, &mut hand, 0);
    let second = client_hand(&table, &mut hand, 1);
    hand.join(&table, pool);
    let actors = Actors {
        names,
        files: held,
        store,
        pools: hand,
        clients: both(rt, first, second),
    };
    AllDealt {
        table,
        actors,
        share,
    }
}

// These two hands.
fn both<N: Naming, R: Abort + AllocGlobal>(rt: &R, one: Hand<N>, other: Hand<N>) -> Vec<Hand<N>>
    ensures { result.items ≡ one ∷ other ∷ [] }
{
    let Ok(hands) = Vec::from_array(rt.alloc(), [one, other]) else {
        panic!(rt; "memory");
    };
    hands
}
