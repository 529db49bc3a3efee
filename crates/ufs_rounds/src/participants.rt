// Who takes part in a session on one thread.
ghost use Rattle.std.specs.Prelude.{◌≡◌, ◌≤◌, length};
ghost use Rattle.ufs_msg.specs.There.{client_count, worker_count};
ghost use Rattle.ufs_rounds.specs.Numbers.{AreClients, AreWorkers};

use ufs_caller::Client;
use ufs_joint::Naming;
use ufs_msg::{Letter, PlainPost};
use ufs_primary::{Baton, Parcel, Primary};
use ufs_worker::Worker;

/// The clients and servers of session `N`, and the post of their thread. Between two turns each file is with one of them, or in one
/// letter, by its type: so is the part of each client with its request or its answer.
#[derive(Drop)]
pub struct Participants<N: Naming> {
    /// Client 0 first.
    pub clients: Vec<Client<N>>,
    /// Worker 1 first.
    pub workers: Vec<Worker<N>>,
    pub primary: Primary<N>,
    pub post: PlainPost<N, Letter<Parcel<N>>>,
    /// Goes from turn to turn.
    pub baton: Baton<N>,
    pub ghost every_client: { length clients.items ≡ client_count N.start },
    pub ghost client_numbers: { AreClients clients.items },
    pub ghost few_clients: { length clients.items ≤ 16 },
    pub ghost every_worker: { length workers.items ≡ worker_count N.start },
    pub ghost worker_numbers: { AreWorkers workers.items },
    pub ghost few_workers: { length workers.items ≤ 8 },
}
