// A client.
ghost use Rattle.std.specs.Prelude.{ℕ, ◌≡◌, ◌≢◌, ◌⊎◌, ◌<◌, ◌≤◌, ◌+◌, [], None, Some, false, true, length, is_some};
ghost use Rattle.ufs_hints.specs.Hints.{hint_of, renewed};
ghost use Rattle.ufs_layout.specs.Areas.{IsGeometry};
ghost use Rattle.ufs_model.specs.PosixTree.{desc_at};
ghost use Rattle.ufs_msg.specs.Answers as answers;
ghost use Rattle.ufs_msg.specs.Requests.{Asked};
ghost use Rattle.ufs_msg.specs.There.{IsClientThere};
ghost use Rattle.std.specs.FinMap as fin;
ghost use Rattle.ufs_caller.specs.Callers.{entries_in, new_caller};
ghost use Rattle.ufs_caller.specs.Hands.{IsHome};
ghost use Rattle.ufs_caller.specs.Tied.{AreMadeThere};
ghost use Rattle.ufs_caller.specs.declared.turn.Turn.TheVariants as turn;
ghost use Rattle.ufs_caller.specs.Turns.{AreRenewed, AreRenewedBy, HasKept, HasSent, IsAnswered, IsTry, IsTurn, SendsOn};

use crate::hands::{see_by, send_off, take_home};
use crate::own::answer_itself;
use crate::room::{ClientRoom, RoomParts};
use crate::trip::{Trip, file_told};
use crate::{Told, Turn};
use std::alloc::Global;
use std::collections::VecDeque;
use std::marker::Model;
use ufs_baton::Baton;
use ufs_client::{answer_own, ask, keep};
use ufs_fds::FdTable;
use ufs_hints::Hints;
use ufs_joint::{Hand, HandTable, Naming};
use ufs_layout::Geometry;
use ufs_model::{Actor, Op};
use ufs_msg::{Answer, ClientPost, Redirected, Request, Served};

/// A client: its hand, or while that is away the hand of what it asked; its descriptors, its transcript, its requests, and its
/// hints.
#[derive(Drop)]
pub struct Client<N: Naming> {
    alloc: Global,
    geometry: Geometry,
    number: u8,
    hand: Hand<N>,
    fds: FdTable,
    told: Vec<Told>,
    left: VecDeque<Op>,
    trip: Option<Trip>,
    kept: Option<Request<N>>,
    hints: Hints,
}

impl<N: Naming> Model for Client<N> {
    ghost use Rattle.std.specs.Vec.{vec_capacity};
    ghost use Rattle.ufs_caller.specs.Callers.{Caller};
    ghost use Rattle.ufs_caller.specs.Codes.{caller_code};
    ghost use Rattle.ufs_caller.specs.Tied.{IsItsForm, IsTied, errand_of, seen_of};

    ghost Value = { Caller };

    ghost coded = { caller_code };

    ghost view = { λ c. record { number = c.number; told = c.told.items; fds = c.fds; left = c.left.items; errand = errand_of c.hand c.kept c.trip; hints = c.hints; seen = seen_of c.hand c.trip } };

    ghost invariant = { λ c. IsTied N.start c.number c.told.items c.fds c.left.items c.hand c.kept c.trip c.hints (vec_capacity c.told) × IsItsForm N.start c.geometry };
}

impl<N: Naming> Client<N> {
    /// A client that has asked nothing. Takes no memory.
    pub fn new(room: ClientRoom, geometry: Geometry, number: u8, hand: Hand<N>) -> Client<N>
        requires formed { IsGeometry geometry }
        requires its { geometry ≡ N.start.geometry }
        requires low { number < 16 }
        requires there { IsClientThere N.start number }
        requires closed { (fd : ℕ) → desc_at N.start.tree number fd ≡ None }
        requires home { IsHome number [] fin.empty hand }
        ensures { result ≡ new_caller number room hand.seen }
    {
        let RoomParts {
            alloc,
            told,
            left,
            hints,
        } = room.into_parts();
        Client {
            alloc,
            geometry,
            number,
            hand,
            fds: FdTable::new(),
            told,
            left,
            trip: None,
            kept: None,
            hints,
        }
    }

    /// Its answers, in order.
    pub fn transcript(&self) -> &[Told]
        ensures { result.now ≡ self.now.told }
    {
        self.told.as_slice()
    }

    /// Whether a request is under way.
    pub fn is_asking(&self) -> bool
        ensures { result ≡ is_some self.now.errand }
    {
        self.trip.is_some()
    }

    /// Its hand and its answers, where no request is under way. The hand's part of the client has just these answers, each made by itself
    /// or by a server that is there; and so is each server that sent its request on.
    pub fn into_parts(self) -> (Hand<N>, Vec<Told>)
        requires idle { self.errand ≡ None }
        ensures told { result.1.items ≡ self.told }
        ensures home { IsHome self.number (entries_in self.told) self.fds result.0 }
        ensures made { AreMadeThere N.start self.number self.told }
    {
        let Client { hand, told, .. } = self;
        (hand, told)
    }

    /// One turn. It takes no memory, but for a new hint, and for the list of servers behind the eighth. What the client answers itself is
    /// drawn behind all that the baton has seen, which then has seen it too; any other turn leaves the baton as it was.
    pub fn poll<Q: ClientPost<N>>(
        &mut self,
        table: &HandTable<N>,
        baton: &mut Baton<N>,
        post: &mut Q,
    ) -> Turn
        requires mine { Q.me post.old ≡ self.old.number }
        ensures turn { IsTurn Q.asks Q.gets Q.same Q.was_full Q.was_empty baton.old baton.new post.old post.new self.old result self.new }
        ensures seen { result ≢ turn.Local → baton.new ≡ baton.old }
        ensures number { self.new.number ≡ self.old.number }
        ensures mine { Q.me post.new ≡ Q.me post.old }
    {
        if self.trip.is_none() {
            return self.begin(table, baton, post);
        }
        if self.kept.is_some() {
            return self.send(post);
        }
        self.hear(table, post)
    }

    fn begin<Q: ClientPost<N>>(
        &mut self,
        table: &HandTable<N>,
        baton: &mut Baton<N>,
        post: &mut Q,
    ) -> Turn
        requires idle { self.old.errand ≡ None }
        ensures turn { IsTurn Q.asks Q.gets Q.same Q.was_full Q.was_empty baton.old baton.new post.old post.new self.old result self.new }
        ensures seen { result ≢ turn.Local → baton.new ≡ baton.old }
        ensures number { self.new.number ≡ self.old.number }
        ensures mine { Q.me post.new ≡ Q.me post.old }
    {
        let Some(op) = self.left.pop_front() else {
            return Turn::Done;
        };
        let ask = ask(&self.fds, self.number, self.told.len() as u32, op);
        if let Some(answer) = answer_own(&ask) {
            answer_itself(
                table,
                baton,
                &self.geometry,
                &mut self.hand,
                &mut self.fds,
                &mut self.told,
                ask,
                answer,
                self.alloc,
            );
            return Turn::Local;
        }
        let trip = Trip::by_hint(&mut self.hints, &ask, self.alloc);
        put(&mut self.trip, trip);
        let request = send_off(table, &self.geometry, &mut self.hand, ask);
        put(&mut self.kept, request);
        self.send(post)
    }

    // The request that is kept goes to its server, or is given back.
    fn send<Q: ClientPost<N>>(&mut self, post: &mut Q) -> Turn
        requires kept { HasKept self.old }
        ensures turn { IsTry Q.asks Q.gets Q.same Q.was_full Q.was_empty post.old post.new self.old result self.new }
        ensures number { self.new.number ≡ self.old.number }
        ensures mine { Q.me post.new ≡ Q.me post.old }
    {
        let Some(trip) = &self.trip else {
            return Turn::Done;
        };
        let (to, is_again) = (trip.to, trip.is_again);
        post.ask(to, &mut self.kept);
        if self.kept.is_some() {
            Turn::Full { to }
        } else if is_again {
            Turn::Resent { to }
        } else {
            Turn::Sent { to }
        }
    }

    fn hear<Q: ClientPost<N>>(&mut self, table: &HandTable<N>, post: &mut Q) -> Turn
        requires mine { Q.me post.old ≡ self.old.number }
        requires sent { HasSent self.old }
        ensures turn { (seen : ℕ) → IsTurn Q.asks Q.gets Q.same Q.was_full Q.was_empty seen seen post.old post.new self.old result self.new }
        ensures number { self.new.number ≡ self.old.number }
        ensures mine { Q.me post.new ≡ Q.me post.old }
    {
        match post.take_answer() {
            None => Turn::Waiting,
            Some(Answer::Served(served)) => {
                self.take_told(table, served);
                Turn::Told
            }
            Some(Answer::Redirect(redirected)) => {
                self.take_redirect(table, redirected);
                self.send(post)
            }
        }
    }

    fn take_told(&mut self, table: &HandTable<N>, served: Served<N>)
        requires mine { served.entry.client ≡ self.old.number }
        requires sent { HasSent self.old }
        ensures answered { IsAnswered served self.old self.new }
        ensures number { self.new.number ≡ self.old.number }
    {
        let Some(trip) = self.trip.take() else {
            return;
        };
        let (back, entry, desc, owner, _) = served.into_parts();
        take_home(table, &mut self.hand, back, &entry, desc);
        keep(&mut self.fds, &entry, desc);
        renew_owner(&mut self.hints, file_told(desc, trip.file), owner);
        self.told.push_reserved(Told {
            entry,
            via: trip.via,
        });
    }

    fn take_redirect(&mut self, table: &HandTable<N>, redirected: Redirected<N>)
        requires mine { redirected.request.ask.client ≡ self.old.number }
        requires sent { HasSent self.old }
        ensures on { (r : Asked) × SendsOn redirected r (Some r) self.old self.new }
        ensures number { self.new.number ≡ self.old.number }
    {
        let Some(trip) = self.trip.take() else {
            return;
        };
        let (request, to) = redirected.into_parts();
        let request = see_by(table, &mut self.hand, request);
        renew_hint(&mut self.hints, trip.file, to);
        put(&mut self.trip, trip.on(to));
        put(&mut self.kept, request);
    }
}

fn put<T: Drop>(place: &mut Option<T>, value: T)
    ensures { place.new ≡ Some value }
{
    *place = Some(value);
}

// A hint that finds no memory isn't kept.
fn renew(hints: &mut Hints, file: u32, server: Actor)
    ensures { (hints.new ≡ renewed file server hints.old) ⊎ ((hint_of file hints.old ≡ None) × (hints.new ≡ hints.old)) }
{
    let _ = hints.renew(file, server);
}

fn renew_hint(hints: &mut Hints, file: Option<u32>, server: Actor)
    ensures { AreRenewed file server hints.old hints.new }
{
    if let Some(file) = file {
        renew(hints, file, server);
    }
}

fn renew_owner(hints: &mut Hints, file: Option<u32>, owner: Option<Actor>)
    ensures { AreRenewedBy file owner hints.old hints.new }
{
    if let Some(owner) = owner {
        renew_hint(hints, file, owner);
    }
}
