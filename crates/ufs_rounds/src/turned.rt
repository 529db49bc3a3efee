use ufs_caller::Turn;
use ufs_primary::PrimaryTurn;
use ufs_worker::WorkerTurn;

/// What an actor did in its turn.
#[derive(Clone, Copy, Debug, PartialEq, Eq)]
pub enum Turned {
    Client(Turn),
    Worker(WorkerTurn),
    Primary(PrimaryTurn),
}
