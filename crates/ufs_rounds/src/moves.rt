// What a turn did and lacked, and how a round went.
ghost use Rattle.std.specs.Prelude.{◌≡◌, ◌||◌, None, false};
ghost use Rattle.ufs_rounds.specs.Moves as moves;
ghost use Rattle.ufs_rounds.specs.Moves.{first_lack};

use crate::rounds::Unfinished;
use crate::turned::Turned;
use ufs_base::Lack;
use ufs_caller::Turn;
use ufs_primary::{Moved, Ordered, PrimaryTurn};
use ufs_worker::WorkerTurn;

// How a round went.
#[derive(Clone, Copy, Debug, PartialEq, Eq)]
pub(crate) struct RoundEnd {
    pub moved: bool,
    pub lack: Option<Lack>,
}

fn client_moved(turn: Turn) -> bool
    ensures { result ≡ moves.client_moved turn }
{
    match turn {
        Turn::Full { .. } | Turn::Waiting | Turn::Done => false,
        _ => true,
    }
}

fn worker_moved(turn: WorkerTurn) -> bool
    ensures { result ≡ moves.worker_moved turn }
{
    match turn {
        WorkerTurn::Idle | WorkerTurn::Memory(_) => false,
        _ => true,
    }
}

fn primary_moved(turn: PrimaryTurn) -> bool
    ensures { result ≡ moves.primary_moved turn }
{
    match turn {
        PrimaryTurn::Idle | PrimaryTurn::Lack(_) => false,
        _ => true,
    }
}

fn is_move(turned: Turned) -> bool
    ensures { result ≡ moves.is_move turned }
{
    match turned {
        Turned::Client(turn) => client_moved(turn),
        Turned::Worker(turn) => worker_moved(turn),
        Turned::Primary(turn) => primary_moved(turn),
    }
}

fn worker_lack(turn: WorkerTurn) -> Option<Lack>
    ensures { result ≡ moves.worker_lack turn }
{
    match turn {
        WorkerTurn::Memory(memory) => Some(Lack::Memory(memory)),
        _ => None,
    }
}

fn primary_lack(turn: PrimaryTurn) -> Option<Lack>
    ensures { result ≡ moves.primary_lack turn }
{
    match turn {
        PrimaryTurn::Lack(lack) => Some(lack),
        _ => None,
    }
}

fn lack_in(turned: Turned) -> Option<Lack>
    ensures { result ≡ moves.lack_in turned }
{
    match turned {
        Turned::Client(_) => None,
        Turned::Worker(turn) => worker_lack(turn),
        Turned::Primary(turn) => primary_lack(turn),
    }
}

/// A client has no request left, and none under way.
pub(crate) fn says_done(turned: Turned) -> bool
    ensures { result ≡ moves.says_done turned }
{
    match turned {
        Turned::Client(Turn::Done) => true,
        _ => false,
    }
}

/// The file isn't at the primary.
pub(crate) fn is_called(ordered: Ordered) -> bool
    ensures { result ≡ moves.is_called ordered }
{
    match ordered {
        Ordered::Moved(Moved::Recalled | Moved::Renoted | Moved::Lack(_)) => true,
        _ => false,
    }
}

/// What an order lacked.
pub(crate) fn order_lack(ordered: Ordered) -> Option<Lack>
    ensures { result ≡ moves.order_lack ordered }
{
    match ordered {
        Ordered::Moved(Moved::Lack(lack)) => Some(lack),
        _ => None,
    }
}

/// The first of two.
pub(crate) fn first_of(lack: Option<Lack>, next: Option<Lack>) -> Option<Lack>
    ensures { result ≡ first_lack lack next }
{
    match lack {
        Some(lack) => Some(lack),
        None => next,
    }
}

impl RoundEnd {
    /// Nobody had a turn yet.
    pub(crate) fn new() -> RoundEnd
        ensures moved { result.moved ≡ false }
        ensures lack { result.lack ≡ None }
    {
        RoundEnd {
            moved: false,
            lack: None,
        }
    }

    pub(crate) fn note(&mut self, turned: Turned)
        ensures moved { self.new.moved ≡ (self.old.moved || moves.is_move turned) }
        ensures lack { self.new.lack ≡ first_lack self.old.lack (moves.lack_in turned) }
    {
        if is_move(turned) {
            self.moved = true;
        }
        self.lack = first_of(self.lack, lack_in(turned));
    }
}

/// Why rounds come to no rest in which this lacked.
pub(crate) fn why(lack: Option<Lack>) -> Unfinished
    ensures { result ≡ moves.unrested lack }
{
    match lack {
        Some(lack) => Unfinished::Lack(lack),
        None => Unfinished::Stuck,
    }
}
