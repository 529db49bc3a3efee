// The rings that threads share, and the ends that each actor has of them.
ghost use Rattle.std.specs.Prelude.{◌≡◌, ◌<◌, IfOk, true};
ghost use Rattle.ufs_ring.specs.Ends.{room_of};
ghost use Rattle.ufs_msg.specs.Inboxes.{IsInboxOf, is_inbox_of};
ghost use Rattle.ufs_msg.specs.Shared.{AreEndsOf, HaveRoom, HaveRooms, IsEndAt, IsEndFor, new_ends};
ghost use Rattle.ufs_msg.specs.There.{IsClientThere, IsServerThere, client_count, worker_count};

use crate::rows::{ANSWERS, LETTERS, REQUESTS};
use crate::{Answer, Hinted, Inbox, PerServer, Request, RuledClientPost, RuledServerPost};
use std::alloc::Global;
use std::sync::Wait;
use ufs_base::Memory;
use ufs_joint::Naming;
use ufs_model::Actor;
use ufs_ring::{RuledRing, SharedRing, shared_ring};

/// So many rings that hold nothing.
fn shared_rings<T: Drop>(
    alloc: Global,
    count: u8,
    room: usize,
) -> Result<Vec<SharedRing<T>>, Memory>
    requires { 0 < room }
    ensures { IfOk result (λ rings. HaveRooms count room rings.items) }
{
    let mut rings = Vec::new(alloc);
    for _place in 0..count {
        rings.push(shared_ring(alloc, room)?)?;
    }
    Ok(rings)
}

/// An end of each ring.
fn ends<'a, T: Drop, R: Wait>(
    rt: &'a R,
    alloc: Global,
    rings: &'a Vec<SharedRing<T>>,
) -> Result<Vec<RuledRing<'a, T, R>>, Memory>
    ensures { IfOk result (λ ends. ends.items ≡ new_ends rings.now.items) }
{
    let mut ends = Vec::new(alloc);
    for ring in rings {
        ends.push(RuledRing::new(rt, ring))?;
    }
    Ok(ends)
}

/// The rings of a session on threads. Each actor makes its ends of them.
#[derive(Drop)]
pub struct SharedRings<N: Naming, L> {
    pub requests: PerServer<SharedRing<Request<N>>, SharedRing<Hinted<N>>>,
    pub clients: Vec<SharedRing<Answer<N>>>,
    pub letters: PerServer<SharedRing<L>, SharedRing<L>>,
    pub ghost requests_room: { room_of requests.primary ≡ 16 },
    pub ghost hinted_room: { HaveRooms (worker_count N.start) 16 requests.workers.items },
    pub ghost answers_room: { HaveRooms (client_count N.start) 1 clients.items },
    pub ghost moves_room: { room_of letters.primary ≡ 64 },
    pub ghost letters_room: { HaveRooms (worker_count N.start) 64 letters.workers.items },
}

impl<N: Naming, L: Drop> SharedRings<N, L> {
    /// Rings that hold nothing: of each server one of 16 requests and one of 64 letters, of each client one of one answer.
    pub fn make(alloc: Global, clients: u8, workers: u8) -> Result<SharedRings<N, L>, Memory>
        requires clients { clients ≡ client_count N.start }
        requires workers { workers ≡ worker_count N.start }
        ensures requests { IfOk result (λ s. HaveRoom workers 16 s.requests) }
        ensures clients { IfOk result (λ s. HaveRooms clients 1 s.clients.items) }
        ensures letters { IfOk result (λ s. HaveRoom workers 64 s.letters) }
    {
        let requests = PerServer {
            primary: shared_ring(alloc, REQUESTS)?,
            workers: shared_rings(alloc, workers, REQUESTS)?,
        };
        let letters = PerServer {
            primary: shared_ring(alloc, LETTERS)?,
            workers: shared_rings(alloc, workers, LETTERS)?,
        };
        let clients = shared_rings(alloc, clients, ANSWERS)?;
        Ok(SharedRings {
            requests,
            clients,
            letters,
        })
    }

    /// A client's ends: of each server's ring of requests, and of its own ring.
    pub fn client_post<'a, R: Wait>(
        &'a self,
        rt: &'a R,
        alloc: Global,
        client: u8,
    ) -> Result<RuledClientPost<'a, N, R>, Memory>
        requires { IsClientThere N.start client }
        ensures whose { IfOk result (λ p. p.client ≡ client) }
        ensures requests { IfOk result (λ p. AreEndsOf self.now.requests p.requests) }
        ensures mail { IfOk result (λ p. IsEndAt self.now.clients.items client p.mail) }
    {
        let requests = PerServer {
            primary: RuledRing::new(rt, &self.requests.primary),
            workers: ends(rt, alloc, &self.requests.workers)?,
        };
        let mail = RuledRing::new(rt, &self.clients[usize::from(client)]);
        Ok(RuledClientPost {
            rt,
            client,
            requests,
            mail,
        })
    }

    // The ends of a server's own rings.
    fn own_ends<'a, R: Wait>(
        &'a self,
        rt: &'a R,
        server: Actor,
    ) -> (Inbox<'a, N, R>, RuledRing<'a, L, R>)
        requires { IsServerThere N.start server }
        ensures mine { is_inbox_of server result.0 ≡ true }
        ensures inbox { IsInboxOf self.now.requests server result.0 }
        ensures moves { IsEndFor self.now.letters server result.1 }
    {
        match server {
            Actor::Primary => (
                Inbox::Primary(RuledRing::new(rt, &self.requests.primary)),
                RuledRing::new(rt, &self.letters.primary),
            ),
            Actor::Worker(worker) => {
                let place = usize::from(worker) - 1;
                (
                    Inbox::Worker(RuledRing::new(rt, &self.requests.workers[place])),
                    RuledRing::new(rt, &self.letters.workers[place]),
                )
            }
            Actor::Client(_) => unreachable!(),
        }
    }

    /// A server's ends: of its own two rings, of each client's, and of each server's ring of moves.
    pub fn server_post<'a, R: Wait>(
        &'a self,
        rt: &'a R,
        alloc: Global,
        server: Actor,
    ) -> Result<RuledServerPost<'a, N, L, R>, Memory>
        requires { IsServerThere N.start server }
        ensures whose { IfOk result (λ p. p.me ≡ server) }
        ensures inbox { IfOk result (λ p. IsInboxOf self.now.requests server p.inbox) }
        ensures clients { IfOk result (λ p. p.clients.items ≡ new_ends self.now.clients.items) }
        ensures moves { IfOk result (λ p. IsEndFor self.now.letters server p.moves) }
        ensures letters { IfOk result (λ p. AreEndsOf self.now.letters p.letters) }
    {
        let clients = ends(rt, alloc, &self.clients)?;
        let letters = PerServer {
            primary: RuledRing::new(rt, &self.letters.primary),
            workers: ends(rt, alloc, &self.letters.workers)?,
        };
        let (inbox, moves) = self.own_ends(rt, server);
        Ok(RuledServerPost {
            me: server,
            inbox,
            clients,
            moves,
            letters,
        })
    }
}
