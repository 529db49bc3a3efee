// An actor of a list is polled, by any post.
ghost use Rattle.std.specs.Prelude.{◌≡◌, ◌≢◌, ◌+◌, ◌<◌, is_some, length};
ghost use Rattle.ufs_caller.specs.Turns as caller;
ghost use Rattle.ufs_caller.specs.declared.turn.Turn.TheVariants as client_turn;
ghost use Rattle.ufs_model.specs.declared.data.Actor.TheVariants as actor;
ghost use Rattle.ufs_msg.specs.declared.letter.Letter.TheVariants as letter;
ghost use Rattle.ufs_rounds.specs.Numbers.{AreClients, AreWorkers};
ghost use Rattle.ufs_rounds.specs.Scripts.{scripts_of};
ghost use Rattle.ufs_rounds.specs.Turns.{GoesOnAt};
ghost use Rattle.ufs_worker.specs.Turns as worker;
ghost use Rattle.ufs_worker.specs.declared.turn.WorkerTurn.TheVariants as worker_turn;

use ufs_caller::{Client, Turn};
use ufs_joint::{HandTable, Naming};
use ufs_msg::{ClientPost, Letter, ServerPost};
use ufs_primary::{Baton, Parcel, Turns};
use ufs_worker::{Worker, WorkerTurn};

/// The client at this place makes a turn.
pub(crate) fn poll_client<N: Naming, Q: ClientPost<N>>(
    table: &HandTable<N>,
    baton: &mut Baton<N>,
    clients: &mut Vec<Client<N>>,
    post: &mut Q,
    place: usize,
) -> Turn
    requires there { place < length clients.old.items }
    requires numbers { AreClients clients.old.items }
    requires mine { Q.me post.old ≡ place }
    ensures turn { GoesOnAt (λ a b. caller.IsTurn Q.asks Q.gets Q.same Q.was_full Q.was_empty baton.old baton.new post.old post.new a result b) clients.old.items place clients.new.items }
    // no other turn draws an entry
    ensures seen { result ≢ client_turn.Local → baton.new ≡ baton.old }
    ensures numbers { AreClients clients.new.items }
    ensures all { length clients.new.items ≡ length clients.old.items }
    ensures scripts { scripts_of clients.new.items ≡ scripts_of clients.old.items }
{
    clients[place].poll(table, baton, post)
}

/// The worker at this place makes a turn.
pub(crate) fn poll_worker<N: Naming, Q: ServerPost<N, Letter<Parcel<N>>>, T: Turns<N>>(
    table: &HandTable<N>,
    baton: &mut Baton<N>,
    workers: &mut Vec<Worker<N>>,
    post: &mut Q,
    door: &mut T,
    place: usize,
) -> WorkerTurn
    requires there { place < length workers.old.items }
    requires numbers { AreWorkers workers.old.items }
    requires mine { Q.me post.old ≡ actor.Worker (place + 1) }
    ensures turn { GoesOnAt (λ w v. worker.IsTurn (λ p c q. Q.sends p actor.Primary (letter.Parcel c) q) (λ p c. Q.letters_full p actor.Primary) Q.answers Q.answers_full Q.same Q.gets_letter Q.letters_empty Q.gets_ask Q.asks_empty
        N.start.is_visible (T.tells door.old) (T.tells door.new) baton.old baton.new w v post.old post.new result) workers.old.items place workers.new.items }
    // no other turn comes to the store, or draws an entry
    ensures store { result ≢ worker_turn.Served → T.tells door.new ≡ T.tells door.old }
    ensures telling { is_some (T.tells door.new) ≡ is_some (T.tells door.old) }
    ensures seen { result ≢ worker_turn.Served → baton.new ≡ baton.old }
    ensures numbers { AreWorkers workers.new.items }
    ensures all { length workers.new.items ≡ length workers.old.items }
{
    workers[place].poll(table, baton, post, door)
}
