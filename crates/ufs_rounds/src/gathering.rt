// Who took part is done: all hands go to whoever ends the session. Nothing fails here: the room for them was taken at the beginning.
ghost use Rattle.std.specs.Prelude.{ℕ, ◌≡◌, ◌+◌, ◌≤◌, [], eqb, length, map};
ghost use Rattle.std.specs.Vec.{vec_capacity, vec_len};
ghost use Rattle.ufs_caller.specs.Callers.{entries_in};
ghost use Rattle.ufs_gathered.specs.Gathered.{AreHome, HasPoolsAlone, clients_in};
ghost use Rattle.ufs_hand_laws.specs.Owned.{count};
ghost use Rattle.ufs_hand_laws.specs.Whole.{idle_client};
ghost use Rattle.ufs_joint.specs.FirstHand.{Beginning, client_of, each_of, pool_of, start_first};
ghost use Rattle.ufs_joint.specs.Whole.{no_blocks};
ghost use Rattle.ufs_owner.specs.Owners.{count_out};
ghost use Rattle.ufs_rounds.specs.Back.{AreBackHere};
ghost use Rattle.ufs_rounds.specs.Made.{AreAllMadeThere};
ghost use Rattle.ufs_rounds.specs.Numbers.{AreWorkers};
ghost use Rattle.ufs_rounds.specs.Rest.{AreDoneFrom, AreIdle};
ghost use Rattle.ufs_rounds.specs.Scripts.{lists_of};
ghost use Rattle.ufs_store.specs.State.{StoreState};

use crate::end_room::EndRoom;
use crate::participants::Participants;
use ufs_caller::{Client, Told};
use ufs_joint::{Hand, HandTable, Naming};
use ufs_owner::no_file_is_out;
use ufs_primary::{HeldNames, Home};
use ufs_worker::Worker;

/// What the actors of a session at rest have, and what each client was answered.
pub(crate) struct AtRest<N: Naming> {
    pub names: HeldNames<N>,
    /// Each live file is in its place.
    pub home: Home<N>,
    /// The right to the servers' pools.
    pub pools: Hand<N>,
    /// The clients' hands, that of client 0 first.
    pub clients: Vec<Hand<N>>,
    pub told: Vec<Vec<Told>>,
}

// The clients' hands, and what they were answered.
fn gather_clients<N: Naming>(
    clients: Vec<Client<N>>,
    hands: &mut Vec<Hand<N>>,
    told: &mut Vec<Vec<Told>>,
)
    requires done { AreDoneFrom 0 clients.items }
    requires no_hand { hands.old.items ≡ [] }
    requires none_told { told.old.items ≡ [] }
    requires room { vec_len hands.old + length clients.items ≤ vec_capacity hands.old }
    requires told_room { vec_len told.old + length clients.items ≤ vec_capacity told.old }
    ensures home { AreHome (map (λ t. entries_in t.items) told.new.items) hands.new.items }
    ensures told { map (λ t. entries_in t.items) told.new.items ≡ lists_of clients.items }
    ensures made { AreAllMadeThere N.start (map (λ t. t.items) told.new.items) }
    ensures counts { (n : ℕ) → count eqb n (clients_in hands.new.items) ≡ count eqb n (each_of client_of idle_client (length clients.items)) }
{
    for client in clients {
        let (hand, answers) = client.into_parts();
        hands.push_reserved(hand);
        told.push_reserved(answers);
    }
}

// The workers' pools come to the primary's.
fn gather_pools<N: Naming>(table: &HandTable<N>, workers: Vec<Worker<N>>, pools: &mut Hand<N>)
    requires numbers { AreWorkers workers.items }
    requires alone { HasPoolsAlone pools.old }
    requires first { (n : ℕ) → count eqb n pools.old.pools ≡ count eqb n (each_of pool_of no_blocks 1) }
    ensures alone { HasPoolsAlone pools.new }
    ensures all { (n : ℕ) → count eqb n pools.new.pools ≡ count eqb n (each_of pool_of no_blocks (1 + length workers.items)) }
{
    for worker in workers {
        pools.join(table, worker.into_hand());
    }
}

impl<N: Naming> Participants<N> {
    /// All hands, once no request is under way and no file is out. What is in the rings then is let go. Takes no memory.
    pub(crate) fn gather(self, table: &HandTable<N>, room: EndRoom<N>) -> AtRest<N>
        requires start { (b : Beginning) × (s : StoreState) × (N.start ≡ start_first b s) }
        requires idle { AreIdle self.clients.items }
        requires here { count_out self.primary.stock.home.owners ≡ 0 }
        ensures home { AreHome (map (λ t. entries_in t.items) result.told.items) result.clients.items }
        ensures told { map (λ t. entries_in t.items) result.told.items ≡ lists_of self.clients.items }
        ensures made { AreAllMadeThere N.start (map (λ t. t.items) result.told.items) }
        ensures back { AreBackHere N.start result.names result.home result.pools result.clients.items }
        ensures names { result.names ≡ self.primary.stock.names }
    {
        no_file_is_out();
        let Participants {
            clients,
            workers,
            primary,
            post,
            baton,
        } = self;
        drop(post);
        drop(baton);
        let EndRoom {
            mut hands,
            mut told,
        } = room;
        gather_clients(clients, &mut hands, &mut told);
        let (names, home, pool, mut pools) = primary.into_parts();
        drop(pool);
        gather_pools(table, workers, &mut pools);
        AtRest {
            names,
            home,
            pools,
            clients: hands,
            told,
        }
    }
}
