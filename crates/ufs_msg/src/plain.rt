// The post of one thread: it has all rings, and lends them to the actor whose turn it is.
ghost use Rattle.std.specs.Prelude.{◌≡◌, ◌<◌, IfOk, length, replicate};
ghost use Rattle.ufs_model.specs.declared.data.Actor.TheVariants.{Primary};
ghost use Rattle.ufs_msg.specs.Plain.{AreAddressed, AreEmpty, empty};
ghost use Rattle.ufs_msg.specs.There.{IsClientThere, IsServerThere, among_prop, client_count, worker_count};

use crate::rows::{ANSWERS, LETTERS, REQUESTS, plain_rings, put_at, restore, take_at};
use crate::servers::{ask_server, send_server, take_ask_of, take_letter_of};
use crate::{Answer, ClientPost, Hinted, PerServer, Request, ServerPost};
use std::alloc::Global;
use ufs_base::Memory;
use ufs_joint::Naming;
use ufs_model::Actor;
use ufs_ring::PlainRing;

/// All rings of one thread, and whose turn it is among the clients and among the servers.
#[derive(Drop)]
pub struct PlainPost<N: Naming, L> {
    pub client: u8,
    pub server: Actor,
    pub requests: PerServer<PlainRing<Request<N>>, PlainRing<Hinted<N>>>,
    pub clients: Vec<PlainRing<Answer<N>>>,
    pub letters: PerServer<PlainRing<L>, PlainRing<L>>,
    pub ghost client_there: { IsClientThere N.start client },
    pub ghost server_there: { IsServerThere N.start server } by { among_prop (worker_count N.start) server },
    pub ghost to_workers: { length requests.workers.items ≡ worker_count N.start },
    pub ghost to_clients: { length clients.items ≡ client_count N.start },
    pub ghost letters_to: { length letters.workers.items ≡ worker_count N.start },
    pub ghost addressed: { AreAddressed clients.items },
}

impl<N: Naming, L: Drop> PlainPost<N, L> {
    /// Rings that hold nothing: of each server one of 16 requests and one of 64 letters, of each client one of one answer. It
    /// is the turn of client 0, or of the primary. Only this call takes memory.
    pub fn make(alloc: Global, clients: u8, workers: u8) -> Result<PlainPost<N, L>, Memory>
        requires some { 0 < clients }
        requires clients { clients ≡ client_count N.start }
        requires workers { workers ≡ worker_count N.start }
        ensures requests { IfOk result (λ p. AreEmpty workers 16 p.requests) }
        ensures clients { IfOk result (λ p. p.clients.items ≡ replicate clients (empty 1)) }
        ensures letters { IfOk result (λ p. AreEmpty workers 64 p.letters) }
        ensures turn { IfOk result (λ p. (p.client ≡ 0) × (p.server ≡ Primary)) }
    {
        let requests = PerServer {
            primary: PlainRing::make(alloc, REQUESTS)?,
            workers: plain_rings(alloc, workers, REQUESTS)?,
        };
        let letters = PerServer {
            primary: PlainRing::make(alloc, LETTERS)?,
            workers: plain_rings(alloc, workers, LETTERS)?,
        };
        let clients = plain_rings(alloc, clients, ANSWERS)?;
        Ok(PlainPost {
            client: 0,
            server: Actor::Primary,
            requests,
            clients,
            letters,
        })
    }

    /// It is this client's turn. All rings are as they were.
    pub fn turn_of_client(&mut self, client: u8)
        requires { IsClientThere N.start client }
        ensures turn { (self.new.client ≡ client) × (self.new.server ≡ self.old.server) }
        ensures rings { (self.new.requests ≡ self.old.requests) × (self.new.clients ≡ self.old.clients) × (self.new.letters ≡ self.old.letters) }
    {
        self.client = client;
    }

    /// It is this server's turn. All rings are as they were.
    pub fn turn_of_server(&mut self, server: Actor)
        requires { IsServerThere N.start server }
        ensures turn { (self.new.server ≡ server) × (self.new.client ≡ self.old.client) }
        ensures rings { (self.new.requests ≡ self.old.requests) × (self.new.clients ≡ self.old.clients) × (self.new.letters ≡ self.old.letters) }
    {
        self.server = server;
    }
}

impl<N: Naming, L> ClientPost<N> for PlainPost<N, L> {
    ghost use Rattle.std.specs.Prelude.{◌≡◌};
    ghost use Rattle.ufs_msg.specs.Rows.{HappensAt, IsSoAt};
    ghost use Rattle.ufs_msg.specs.Servers.{AreSame, HappensFor, IsSoFor};
    ghost use Rattle.ufs_ring.specs.Buffers.{HasGained, HasLost, IsEmpty, IsFull};

    ghost me = { λ p. p.client };

    ghost asks = { λ p to r q. HappensFor HasGained HasGained p.requests to r q.requests × (q.clients.items ≡ p.clients.items) × AreSame p.letters q.letters };

    ghost gets = { λ p x q. HappensAt HasLost p.clients.items p.client x q.clients.items × AreSame p.requests q.requests × AreSame p.letters q.letters };

    ghost same = { λ p q. (q.clients.items ≡ p.clients.items) × AreSame p.requests q.requests × AreSame p.letters q.letters };

    ghost was_full = { λ p to. IsSoFor IsFull IsFull p.requests to };

    ghost was_empty = { λ p. IsSoAt IsEmpty p.clients.items p.client };

    fn ask(&mut self, to: Actor, request: &mut Option<Request<N>>) {
        if let Some(sent) = request.take() {
            restore(request, ask_server(&mut self.requests, to, sent));
        }
    }

    fn take_answer(&mut self) -> Option<Answer<N>> {
        take_at(&mut self.clients, usize::from(self.client))
    }
}

impl<N: Naming, L> ServerPost<N, L> for PlainPost<N, L> {
    ghost use Rattle.std.specs.Prelude.{◌≡◌};
    ghost use Rattle.ufs_msg.specs.Rows.{HappensAt, IsSoAt};
    ghost use Rattle.ufs_msg.specs.Servers.{AreSame, HappensFor, IsSoFor};
    ghost use Rattle.ufs_ring.specs.Buffers.{HasGained, HasLost, IsEmpty, IsFull};

    ghost me = { λ p. p.server };

    ghost answers = { λ p client x q. HappensAt HasGained p.clients.items client x q.clients.items × AreSame p.requests q.requests × AreSame p.letters q.letters };

    ghost sends = { λ p to x q. HappensFor HasGained HasGained p.letters to x q.letters × AreSame p.requests q.requests × (q.clients.items ≡ p.clients.items) };

    ghost gets_ask = { λ p r q. HappensFor HasLost HasLost p.requests p.server r q.requests × AreSame p.letters q.letters × (q.clients.items ≡ p.clients.items) };

    ghost gets_letter = { λ p x q. HappensFor HasLost HasLost p.letters p.server x q.letters × AreSame p.requests q.requests × (q.clients.items ≡ p.clients.items) };

    ghost same = { λ p q. (q.clients.items ≡ p.clients.items) × AreSame p.requests q.requests × AreSame p.letters q.letters };

    ghost answers_full = { λ p client. IsSoAt IsFull p.clients.items client };

    ghost letters_full = { λ p to. IsSoFor IsFull IsFull p.letters to };

    ghost asks_empty = { λ p. IsSoFor IsEmpty IsEmpty p.requests p.server };

    ghost letters_empty = { λ p. IsSoFor IsEmpty IsEmpty p.letters p.server };

    fn answer(&mut self, client: u8, answer: &mut Option<Answer<N>>) {
        if let Some(sent) = answer.take() {
            restore(answer, put_at(&mut self.clients, usize::from(client), sent));
        }
    }

    fn send(&mut self, to: Actor, letter: L) -> Result<(), L> {
        send_server(&mut self.letters, to, letter)
    }

    fn take_ask(&mut self) -> Option<Request<N>> {
        take_ask_of(&mut self.requests, self.server)
    }

    fn take_letter(&mut self) -> Option<L> {
        take_letter_of(&mut self.letters, self.server)
    }
}
