// Posts between threads: each actor has an end of every ring that it uses.
ghost use Rattle.std.specs.Prelude.{◌≡◌, length, true};
ghost use Rattle.ufs_msg.specs.Inboxes.{is_inbox_of};
ghost use Rattle.ufs_msg.specs.There.{client_count, worker_count};

use crate::rows::{put_at, restore};
use crate::servers::{ask_server, send_server};
use crate::{Answer, ClientPost, Hinted, PerServer, Request, ServerPost};
use std::sync::Wait;
use std::thread;
use ufs_joint::Naming;
use ufs_model::Actor;
use ufs_ring::{Ring, RuledRing};

/// A client's ends.
#[derive(Drop)]
pub struct RuledClientPost<'a, N: Naming, R: Wait> {
    pub rt: &'a R,
    pub client: u8,
    pub requests: PerServer<RuledRing<'a, Request<N>, R>, RuledRing<'a, Hinted<N>, R>>,
    pub mail: RuledRing<'a, Answer<N>, R>,
    pub ghost workers: { length requests.workers.items ≡ worker_count N.start },
}

impl<'a, N: Naming, R: Wait> ClientPost<N> for RuledClientPost<'a, N, R> {
    ghost use Rattle.std.specs.Prelude.{◌≡◌};
    ghost use Rattle.ufs_msg.specs.Servers.{AreSame, HappensFor, IsSoFor};
    ghost use Rattle.ufs_ring.specs.Ends.{HasPut, HasTaken, WasEmpty, WasFull};

    ghost me = { λ p. p.client };

    ghost asks = { λ p to r q. HappensFor HasPut HasPut p.requests to r q.requests × (q.mail ≡ p.mail) };

    ghost gets = { λ p x q. AreSame p.requests q.requests × HasTaken p.mail x q.mail };

    ghost same = { λ p q. AreSame p.requests q.requests × (q.mail ≡ p.mail) };

    ghost was_full = { λ p to. IsSoFor WasFull WasFull p.requests to };

    ghost was_empty = { λ p. WasEmpty p.mail };

    fn ask(&mut self, to: Actor, request: &mut Option<Request<N>>) {
        if let Some(sent) = request.take() {
            restore(request, ask_server(&mut self.requests, to, sent));
        }
    }

    fn take_answer(&mut self) -> Option<Answer<N>> {
        let answer = self.mail.take()?;
        // Each server's `answer` sees to it that the ring has this client's answers alone, and no type tells it. Another's would be
        // neither given out nor lost.
        for _ in self.rt.forever() {
            if answer.is_to(self.client) {
                return Some(answer);
            }
            thread::yield_now();
        }
        unreachable!()
    }
}

/// A server's end of the ring of its requests: a worker's has those that go by a hint.
#[derive(Drop)]
pub enum Inbox<'a, N: Naming, R: Wait> {
    Primary(RuledRing<'a, Request<N>, R>),
    Worker(RuledRing<'a, Hinted<N>, R>),
}

/// A server's ends.
#[derive(Drop)]
pub struct RuledServerPost<'a, N: Naming, L, R: Wait> {
    pub me: Actor,
    pub inbox: Inbox<'a, N, R>,
    pub clients: Vec<RuledRing<'a, Answer<N>, R>>,
    pub moves: RuledRing<'a, L, R>,
    pub letters: PerServer<RuledRing<'a, L, R>, RuledRing<'a, L, R>>,
    pub ghost is_mine: { is_inbox_of me inbox ≡ true },
    pub ghost to_clients: { length clients.items ≡ client_count N.start },
    pub ghost to_workers: { length letters.workers.items ≡ worker_count N.start },
}

impl<'a, N: Naming, L, R: Wait> ServerPost<N, L> for RuledServerPost<'a, N, L, R> {
    ghost use Rattle.std.specs.Prelude.{◌≡◌};
    ghost use Rattle.ufs_msg.specs.Inboxes.{HasComeIn, WasInboxEmpty};
    ghost use Rattle.ufs_msg.specs.Rows.{HappensAt, IsSoAt};
    ghost use Rattle.ufs_msg.specs.Servers.{AreSame, HappensFor, IsSoFor};
    ghost use Rattle.ufs_ring.specs.Ends.{HasPut, HasTaken, WasEmpty, WasFull};

    ghost me = { λ p. p.me };

    ghost answers = { λ p client x q. HappensAt HasPut p.clients.items client x q.clients.items × (q.inbox ≡ p.inbox) × (q.moves ≡ p.moves) × AreSame p.letters q.letters };

    ghost sends = { λ p to x q. HappensFor HasPut HasPut p.letters to x q.letters × (q.inbox ≡ p.inbox) × (q.moves ≡ p.moves) × (q.clients.items ≡ p.clients.items) };

    ghost gets_ask = { λ p r q. HasComeIn p.inbox r q.inbox × (q.moves ≡ p.moves) × AreSame p.letters q.letters × (q.clients.items ≡ p.clients.items) };

    ghost gets_letter = { λ p x q. HasTaken p.moves x q.moves × (q.inbox ≡ p.inbox) × AreSame p.letters q.letters × (q.clients.items ≡ p.clients.items) };

    ghost same = { λ p q. (q.inbox ≡ p.inbox) × (q.moves ≡ p.moves) × AreSame p.letters q.letters × (q.clients.items ≡ p.clients.items) };

    ghost answers_full = { λ p client. IsSoAt WasFull p.clients.items client };

    ghost letters_full = { λ p to. IsSoFor WasFull WasFull p.letters to };

    ghost asks_empty = { λ p. WasInboxEmpty p.inbox };

    ghost letters_empty = { λ p. WasEmpty p.moves };

    fn answer(&mut self, client: u8, answer: &mut Option<Answer<N>>) {
        if let Some(sent) = answer.take() {
            restore(answer, put_at(&mut self.clients, usize::from(client), sent));
        }
    }

    fn send(&mut self, to: Actor, letter: L) -> Result<(), L> {
        send_server(&mut self.letters, to, letter)
    }

    fn take_ask(&mut self) -> Option<Request<N>> {
        match &mut self.inbox {
            Inbox::Primary(ring) => ring.take(),
            Inbox::Worker(ring) => match ring.take() {
                Some(hinted) => Some(hinted.into_request()),
                None => None,
            },
        }
    }

    fn take_letter(&mut self) -> Option<L> {
        self.moves.take()
    }
}
