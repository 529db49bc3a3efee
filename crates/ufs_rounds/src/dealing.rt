// Who takes part is dealt the first hand of a session. Nothing fails here: what takes memory is made before.
ghost use Rattle.std.specs.Prelude.{ℕ, ◌≡◌, ◌+◌, ◌<◌, ◌≤◌, [], IsSome, None, eqb, length};
ghost use Rattle.std.specs.FinMap as fin;
ghost use Rattle.std.specs.Vec.{vec_capacity};
ghost use Rattle.ufs_primary.specs.OfAtPrimary.{HasNumbers, stock_of};
ghost use Rattle.ufs_caller.specs.Callers.{new_caller};
ghost use Rattle.ufs_caller.specs.Hands.{IsIdleIn};
ghost use Rattle.ufs_dealt.specs.Dealt.{AreApart};
ghost use Rattle.ufs_hand_laws.specs.Owned.{Has, count, without};
ghost use Rattle.ufs_primary.specs.OfHeld.{under_numbers};
ghost use Rattle.ufs_primary.specs.OfHome.{AreAway, put_all};
ghost use Rattle.ufs_joint.specs.FirstHand.{pool_of};
ghost use Rattle.ufs_joint.specs.Whole.{no_blocks};
ghost use Rattle.ufs_layout.specs.Areas.{IsGeometry};
ghost use Rattle.ufs_model.specs.PosixTree.{desc_at};
ghost use Rattle.ufs_model.specs.declared.data.Actor.TheVariants.{Worker as worker};
ghost use Rattle.ufs_msg.specs.There.{IsClientThere, IsServerThere, client_count, worker_count};
ghost use Rattle.ufs_primary.specs.Primary.{primary_of};
ghost use Rattle.ufs_rounds.specs.Dealing.{AreBare, AreIdleFrom, ArePoolsFrom, HaveAskedNothing};
ghost use Rattle.ufs_rounds.specs.Numbers.{AreClients, AreWorkers};
ghost use Rattle.ufs_rounds.specs.Scripts.{scripts_of};

use std::alloc::Global;
use ufs_bitmap::Pool;
use ufs_caller::{Client, ClientRoom, client_hand};
use ufs_dealt::{deal_pool, dealt_law};
use ufs_joint::{Hand, HandTable, Naming};
use ufs_layout::Geometry;
use ufs_primary::{HeldFile, HeldNames, Home, Primary, Room, pool_number};
use ufs_worker::Worker;

/// The primary, with the files in their places.
pub(crate) fn deal_primary<N: Naming>(
    room: Room<N>,
    table: &HandTable<N>,
    geometry: &Geometry,
    names: HeldNames<N>,
    files: Vec<HeldFile<N>>,
    mut home: Home<N>,
    pool: Pool,
    hand: &mut Hand<N>,
) -> Primary<N>
    requires formed { IsGeometry geometry.now }
    requires its { geometry.now ≡ N.start.geometry }
    requires numbers { HasNumbers N.start }
    requires away { AreAway home.places files.items }
    requires live { (file : ℕ) → IsSome (fin.get names.value.held file) → 1 ≤ count eqb file (under_numbers files.items) }
    requires bare { pool ≡ no_blocks }
    requires has { Has (pool_of 0, no_blocks) hand.old.pools }
    requires apart { AreApart hand.old }
    ensures primary { result ≡ primary_of (stock_of names (record home { places = put_all home.places files.items }) no_blocks) None [] [] }
    ensures left { hand.new ≡ record hand.old { pools = without (eqb (pool_of 0)) hand.old.pools } }
    ensures apart { AreApart hand.new }
{
    home.put_back_all(files);
    let right = deal_pool(table, hand, pool_number(0));
    Primary::make(room, *geometry, names, home, pool, right)
}

// A worker without a file.
fn deal_worker<N: Naming>(
    alloc: Global,
    table: &HandTable<N>,
    hand: &mut Hand<N>,
    number: u8,
    pool: Pool,
) -> Worker<N>
    requires there { IsServerThere N.start (worker number) }
    requires bare { pool ≡ no_blocks }
    requires has { Has (pool_of number, no_blocks) hand.old.pools }
    requires apart { AreApart hand.old }
    ensures worker { result ≡ record { number = number; files = fin.empty; letters = []; coming = None; pool = no_blocks; answers = [] } }
    ensures left { hand.new ≡ record hand.old { pools = without (eqb (pool_of number)) hand.old.pools } }
    ensures apart { AreApart hand.new }
{
    let right = deal_pool(table, hand, pool_number(number));
    Worker::new(alloc, number, pool, right)
}

/// The workers, worker 1 first.
pub(crate) fn deal_workers<N: Naming>(
    alloc: Global,
    table: &HandTable<N>,
    hand: &mut Hand<N>,
    pools: Vec<Pool>,
    workers: &mut Vec<Worker<N>>,
)
    requires all { length pools.items ≡ worker_count N.start }
    requires few { length pools.items ≤ 8 }
    requires bare { AreBare pools.items }
    requires none { workers.old.items ≡ [] }
    requires room { length pools.items ≤ vec_capacity workers.old }
    requires has { ArePoolsFrom 1 (length pools.items) hand.old }
    requires apart { AreApart hand.old }
    ensures numbers { AreWorkers workers.new.items }
    ensures all { length workers.new.items ≡ length pools.items }
    ensures rest { hand.new ≡ record hand.old { pools = hand.new.pools } }
{
    for pool in pools {
        let number = workers.len() as u8 + 1;
        let worker = deal_worker(alloc, table, hand, number, pool);
        workers.push_reserved(worker);
    }
}

// A client that has asked nothing.
fn deal_client<N: Naming>(
    table: &HandTable<N>,
    geometry: &Geometry,
    hand: &mut Hand<N>,
    number: u8,
    room: ClientRoom,
) -> Client<N>
    requires formed { IsGeometry geometry.now }
    requires its { geometry.now ≡ N.start.geometry }
    requires low { number < 16 }
    requires there { IsClientThere N.start number }
    requires closed { (fd : ℕ) → desc_at N.start.tree number fd ≡ None }
    requires idle { IsIdleIn number hand.old }
    ensures client { (seen : ℕ) × (result ≡ new_caller number room seen) }
    ensures left { hand.new ≡ record hand.old { clients = without (eqb number) hand.old.clients; asked = without (eqb number) hand.old.asked } }
{
    dealt_law();
    let own = client_hand(table, hand, number);
    Client::new(room, *geometry, number, own)
}

/// The clients, client 0 first.
pub(crate) fn deal_clients<N: Naming>(
    table: &HandTable<N>,
    geometry: &Geometry,
    hand: &mut Hand<N>,
    rooms: Vec<ClientRoom>,
    clients: &mut Vec<Client<N>>,
)
    requires formed { IsGeometry geometry.now }
    requires its { geometry.now ≡ N.start.geometry }
    requires few { length rooms.items ≤ 16 }
    requires all { length rooms.items ≡ client_count N.start }
    requires none { clients.old.items ≡ [] }
    requires room { length rooms.items ≤ vec_capacity clients.old }
    requires closed { (client fd : ℕ) → desc_at N.start.tree client fd ≡ None }
    requires idle { AreIdleFrom 0 (length rooms.items) hand.old }
    ensures numbers { AreClients clients.new.items }
    ensures all { length clients.new.items ≡ length rooms.items }
    ensures scripts { scripts_of clients.new.items ≡ rooms.items }
    ensures nothing { HaveAskedNothing clients.new.items }
{
    dealt_law();
    for room in rooms {
        let number = clients.len() as u8;
        let client = deal_client(table, geometry, hand, number, room);
        clients.push_reserved(client);
    }
}
