// One turn of an actor, by the post of one thread.
ghost use Rattle.std.specs.Prelude.{◌≡◌, length};
ghost use Rattle.ufs_model.specs.declared.data.Actor.TheVariants.{Worker as worker};
ghost use Rattle.ufs_msg.specs.There.{IsClientThere, IsServerThere, client_count, worker_count};
ghost use Rattle.ufs_rounds.specs.Numbers.{AreClients, AreWorkers, IsThere};
ghost use Rattle.ufs_rounds.specs.Scripts.{scripts_of};
ghost use Rattle.ufs_rounds.specs.Turns.{IsClientTurn, IsPrimaryTurn, IsTurnOf, IsWorkerTurn};
ghost use Rattle.ufs_rounds.specs.View.{global_of, rings_in};

use crate::participants::Participants;
use crate::polling::{poll_client, poll_worker};
use crate::turned::Turned;
use ufs_caller::{Client, Turn};
use ufs_joint::{HandTable, Naming};
use ufs_model::Actor;
use ufs_msg::{Letter, PlainPost};
use ufs_primary::{Baton, Parcel, Primary, PrimaryTurn, Turns};
use ufs_worker::{Worker, WorkerTurn};

// The client makes a turn.
fn turn_of_client<N: Naming>(
    table: &HandTable<N>,
    baton: &mut Baton<N>,
    clients: &mut Vec<Client<N>>,
    post: &mut PlainPost<N, Letter<Parcel<N>>>,
    client: u8,
) -> Turn
    requires there { IsClientThere N.start client }
    requires every { length clients.old.items ≡ client_count N.start }
    requires numbers { AreClients clients.old.items }
    ensures turn { IsClientTurn baton.old baton.new client clients.old.items clients.new.items (rings_in post.old) (rings_in post.new) result }
    ensures numbers { AreClients clients.new.items }
    ensures all { length clients.new.items ≡ length clients.old.items }
    ensures scripts { scripts_of clients.new.items ≡ scripts_of clients.old.items }
{
    post.turn_of_client(client);
    poll_client(table, baton, clients, post, usize::from(client))
}

// The worker makes a turn.
fn turn_of_worker<N: Naming, T: Turns<N>>(
    table: &HandTable<N>,
    baton: &mut Baton<N>,
    workers: &mut Vec<Worker<N>>,
    post: &mut PlainPost<N, Letter<Parcel<N>>>,
    door: &mut T,
    number: u8,
) -> WorkerTurn
    requires there { IsServerThere N.start (worker number) }
    requires every { length workers.old.items ≡ worker_count N.start }
    requires numbers { AreWorkers workers.old.items }
    ensures turn { IsWorkerTurn N.start.is_visible (T.tells door.old) (T.tells door.new) baton.old baton.new number workers.old.items workers.new.items (rings_in post.old) (rings_in post.new) result }
    ensures numbers { AreWorkers workers.new.items }
    ensures all { length workers.new.items ≡ length workers.old.items }
{
    post.turn_of_server(Actor::Worker(number));
    poll_worker(table, baton, workers, post, door, usize::from(number) - 1)
}

// The primary makes a turn.
fn turn_of_primary<N: Naming, T: Turns<N>>(
    table: &HandTable<N>,
    baton: &mut Baton<N>,
    primary: &mut Primary<N>,
    post: &mut PlainPost<N, Letter<Parcel<N>>>,
    door: &mut T,
) -> PrimaryTurn
    ensures turn { IsPrimaryTurn N.start (T.tells door.old) (T.tells door.new) baton.old baton.new primary.old primary.new (rings_in post.old) (rings_in post.new) result }
{
    post.turn_of_server(Actor::Primary);
    primary.poll(table, baton, post, door)
}

impl<N: Naming> Participants<N> {
    /// One turn of this client, this worker or the primary, as its `poll` says. The others are as they were, and each client was given
    /// what it was given. Who has the turn has the baton, so an entry that it draws gets a higher ticket than those before.
    pub fn turn<T: Turns<N>>(&mut self, table: &HandTable<N>, door: &mut T, who: Actor) -> Turned
        requires there { IsThere N.start who }
        ensures turn { IsTurnOf N.start who (global_of self.old (T.tells door.old)) (global_of self.new (T.tells door.new)) result }
        ensures scripts { scripts_of self.new.clients.items ≡ scripts_of self.old.clients.items }
    {
        match who {
            Actor::Client(client) => Turned::Client(turn_of_client(
                table,
                &mut self.baton,
                &mut self.clients,
                &mut self.post,
                client,
            )),
            Actor::Worker(number) => Turned::Worker(turn_of_worker(
                table,
                &mut self.baton,
                &mut self.workers,
                &mut self.post,
                door,
                number,
            )),
            Actor::Primary => Turned::Primary(turn_of_primary(
                table,
                &mut self.baton,
                &mut self.primary,
                &mut self.post,
                door,
            )),
        }
    }
}
