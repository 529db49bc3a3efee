// Room for what the primary keeps.
use crate::waiting::Waiting;
use std::alloc::Global;
use std::collections::VecDeque;
use std::marker::Model;
use ufs_base::Memory;
use ufs_joint::Naming;
use ufs_msg::Answer;

/// Room for one answer, and for one request that waits, of each client.
#[derive(Drop)]
pub struct Room<N: Naming> {
    answers: VecDeque<Answer<N>>,
    waiting: VecDeque<Waiting<N>>,
}

impl<N: Naming> Model for Room<N> {
    ghost use Rattle.std.specs.Prelude.{◌≡◌, ◌≤◌, []};
    ghost use Rattle.std.specs.VecDeque.{deque_capacity};
    ghost use Rattle.ufs_msg.specs.There.{client_count};

    ghost Value = { Unit {0} };

    ghost view = { λ _. tt };

    ghost invariant = { λ r. (r.answers.items ≡ []) × (r.waiting.items ≡ []) × (client_count N.start ≤ deque_capacity r.answers) × (client_count N.start ≤ deque_capacity r.waiting) };
}

impl<N: Naming> Room<N> {
    ghost use Rattle.std.specs.Prelude.{◌≡◌, ◌≤◌, []};
    ghost use Rattle.std.specs.VecDeque.{deque_capacity};
    ghost use Rattle.ufs_msg.specs.There.{client_count};

    /// Room for this many clients.
    pub fn make(alloc: Global, clients: u8) -> Result<Room<N>, Memory>
        requires all { client_count N.start ≤ clients }
    {
        let count = usize::from(clients);
        Ok(Room {
            answers: VecDeque::with_capacity(alloc, count)?,
            waiting: VecDeque::with_capacity(alloc, count)?,
        })
    }

    pub(crate) fn into_queues(self) -> (VecDeque<Answer<N>>, VecDeque<Waiting<N>>)
        ensures no_answers { result.0.items ≡ [] }
        ensures none_waits { result.1.items ≡ [] }
        ensures answers { client_count N.start ≤ deque_capacity result.0 }
        ensures waiting { client_count N.start ≤ deque_capacity result.1 }
    {
        (self.answers, self.waiting)
    }
}
