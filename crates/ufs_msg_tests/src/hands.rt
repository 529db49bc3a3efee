// Hands fill and leave rings of 16, or many go from one thread to the other through one; then all are joined, and the session is closed.
ghost use Rattle.std.specs.Prelude.{◌≡◌};
ghost use Rattle.ufs_joint_tests.specs.Small.{small_start};
ghost use Rattle.ufs_layout.specs.Areas.{IsGeometry};
ghost use Rattle.ufs_model.specs.PosixTree.{root_alone};
ghost use Rattle.ufs_msg_tests.specs.Hands.{HasNothing};
ghost use Rattle.ufs_names.specs.NamesPart.{IsNamesPart};

use crate::asserts::same;
use crossbeam_utils::Backoff;
use std::alloc::AllocGlobal;
use std::marker::Model;
use std::process::Abort;
use std::sync::Wait;
use std::thread::{Threads, join};
use ufs_joint::{Begun, Hand, HandTable, Naming, Opened};
use ufs_layout::Geometry;
use ufs_model::PartName;
use ufs_names::Names;
use ufs_ring::{PlainRing, Ring, RuledRing, SharedRing, shared_ring};
use ufs_store::Door;

// How many hands go from one thread to the other.
const SENT: u32 = 100_000;

/// How the hands go.
#[derive(Clone, Copy)]
pub(crate) enum Passing {
    OnOneThread,
    BetweenThreads,
}

/// A hand that has no part. More of its kind can be split off.
#[derive(Drop)]
pub(crate) struct Bare<N: Naming> {
    hand: Hand<N>,
}

impl<N: Naming> Model for Bare<N> {
    ghost use Rattle.ufs_joint.specs.Cells.{View};
    ghost use Rattle.ufs_joint.specs.Codes.{view_code};
    ghost use Rattle.ufs_msg_tests.specs.Hands.{HasNothing};

    ghost Value = { View };

    ghost coded = { view_code };

    ghost view = { λ b. b.hand };

    ghost invariant = { λ b. HasNothing b.hand };
}

impl<N: Naming> Bare<N> {
    fn new(hand: Hand<N>) -> Bare<N>
        requires { HasNothing hand }
    {
        Bare { hand }
    }

    fn into_hand(self) -> Hand<N>
        ensures { HasNothing result }
    {
        let Bare { hand } = self;
        hand
    }

    fn another(&mut self, table: &HandTable<N>) -> Bare<N> {
        let hand = self.hand.split(table, PartName::Store);
        Bare { hand }
    }

    fn join(&mut self, table: &HandTable<N>, other: Bare<N>) {
        self.hand.join(table, other.into_hand());
    }
}

// ---- on one thread

// So many hands go into the ring until one comes back, which is joined.
fn filled<N: Naming, G: Ring<Bare<N>>>(
    table: &HandTable<N>,
    ring: &mut G,
    own: &mut Bare<N>,
) -> u32 {
    for went in 0..1_000u32 {
        let hand = own.another(table);
        if let Err(back) = ring.put(hand) {
            own.join(table, back);
            return went;
        }
    }
    1_000
}

// So many come out of it, and are joined.
fn emptied<N: Naming, G: Ring<Bare<N>>>(
    table: &HandTable<N>,
    ring: &mut G,
    own: &mut Bare<N>,
) -> u32 {
    for came in 0..1_000u32 {
        match ring.take() {
            Some(hand) => own.join(table, hand),
            None => return came,
        }
    }
    1_000
}

// Asserts that a ring has room for 16.
fn has_room_for_16<N: Naming, R: Abort, G: Ring<Bare<N>>>(
    rt: &R,
    table: &HandTable<N>,
    ring: &mut G,
    own: &mut Bare<N>,
) {
    same(rt, emptied(table, ring, own), 0);
    same(rt, filled(table, ring, own), 16);
    same(rt, emptied(table, ring, own), 16);
}

fn ring_of_16<N: Naming, R: Abort + AllocGlobal>(rt: &R) -> SharedRing<Bare<N>> {
    shared_ring(rt.alloc(), 16).expect(rt, "memory")
}

fn on_one_thread<N: Naming, R: Abort + AllocGlobal + Wait>(
    rt: &R,
    table: &HandTable<N>,
    own: &mut Bare<N>,
) {
    let mut plain: PlainRing<Bare<N>> = PlainRing::make(rt.alloc(), 16).expect(rt, "memory");
    has_room_for_16(rt, table, &mut plain, own);
    let queue = ring_of_16::<N, R>(rt);
    let mut end = RuledRing::new(rt, &queue);
    has_room_for_16(rt, table, &mut end, own);
}

// ---- between threads

fn send_one<N: Naming, R: Wait>(rt: &R, end: &mut RuledRing<Bare<N>, R>, hand: Bare<N>) {
    let mut back = end.put(hand);
    let backoff = Backoff::new();
    for _ in rt.forever() {
        match back {
            Ok(()) => return,
            Err(hand) => back = end.put(hand),
        }
        backoff.snooze();
    }
}

// The one thread: each hand is split off its own.
fn send_all<N: Naming, R: Wait>(
    rt: &R,
    table: &HandTable<N>,
    mut end: RuledRing<Bare<N>, R>,
    mut own: Bare<N>,
) -> Bare<N> {
    for _ in 0..SENT {
        let hand = own.another(table);
        send_one(rt, &mut end, hand);
    }
    own
}

fn take_one<N: Naming, R: Wait>(rt: &R, end: &mut RuledRing<Bare<N>, R>) -> Bare<N> {
    let backoff = Backoff::new();
    for _ in rt.forever() {
        if let Some(hand) = end.take() {
            return hand;
        }
        backoff.snooze();
    }
    unreachable!()
}

// The other: each is joined to its own.
fn take_all<N: Naming, R: Wait>(
    rt: &R,
    table: &HandTable<N>,
    mut end: RuledRing<Bare<N>, R>,
    mut own: Bare<N>,
) -> Bare<N> {
    for _ in 0..SENT {
        let hand = take_one(rt, &mut end);
        own.join(table, hand);
    }
    own
}

fn between_threads<N: Naming + Send + Sync, R: Threads + Wait + Sync>(
    rt: &R,
    table: &HandTable<N>,
    queue: &SharedRing<Bare<N>>,
    one: Bare<N>,
    other: Bare<N>,
) -> (Bare<N>, Bare<N>) {
    let sends = RuledRing::new(rt, queue);
    let takes = RuledRing::new(rt, queue);
    join(
        rt,
        move || send_all(rt, table, sends, one),
        move || take_all(rt, table, takes, other),
    )
}

fn go<N: Naming + Send + Sync, R: Abort + AllocGlobal + Threads + Wait + Sync>(
    rt: &R,
    passing: Passing,
    table: &HandTable<N>,
    mut one: Bare<N>,
) -> (Bare<N>, Bare<N>) {
    let other = one.another(table);
    match passing {
        Passing::OnOneThread => {
            on_one_thread(rt, table, &mut one);
            (one, other)
        }
        Passing::BetweenThreads => {
            let queue = ring_of_16::<N, R>(rt);
            between_threads(rt, table, &queue, one, other)
        }
    }
}

// The tickets at the end of the session.
pub(crate) fn session<
    N: Naming + Send + Sync,
    D: Door,
    R: Abort + AllocGlobal + Threads + Wait + Sync,
>(rt: &R, passing: Passing, opened: Opened, geometry: &Geometry, names: &Names, store: &D) -> u64
    requires name { (opened.table ≡ N.table) × (opened.start ≡ N.start) }
    requires start { N.start ≡ small_start names.now (D.store store.now) }
    requires part { IsNamesPart names.now root_alone }
    requires formed { IsGeometry geometry.now }
    requires its { geometry.now ≡ N.start.geometry }
{
    // For the prover alone.
    let _ = names;
    let _ = store;
    let Begun { table, mut hand } = opened.named::<N>();
    // There is no client 1.
    let one = Bare::new(hand.split(&table, PartName::Client(1)));
    let (one, other) = go(rt, passing, &table, one);
    hand.join(&table, one.into_hand());
    hand.join(&table, other.into_hand());
    hand.close(table, geometry)
}
