// Requests of two clients go to the primary with their hands, and are sent back; then the hands are joined, and the session is closed.
ghost use Rattle.std.specs.Prelude.{◌≡◌};
ghost use Rattle.ufs_layout.specs.Areas.{IsGeometry};
ghost use Rattle.ufs_model.specs.PosixTree.{root_alone};
ghost use Rattle.ufs_msg.specs.Requests.{HasClientAlone, IsAsked};
ghost use Rattle.ufs_msg.specs.There.{IsClientThere, client_count, worker_count};
ghost use Rattle.ufs_msg_tests.specs.TwoClients.{sync_of, two_start};
ghost use Rattle.ufs_names.specs.NamesPart.{IsNamesPart};
ghost use Rattle.ufs_hand_laws.specs.Parts.{ClientPart};

use crate::asserts::holds;
use crate::calls::{answers, asks, has_answer, has_ask, next_ask, redirect, sent_back};
use crate::ends::{client_end, server_end};
use crate::full::{by_narrow_ends, without_room};
use crate::steps::ask;
use crate::threads::between_threads;
use std::alloc::AllocGlobal;
use std::marker::Brand;
use std::process::Abort;
use std::sync::Wait;
use std::thread::Threads;
use ufs_joint::{Begun, Hand, Naming, Opened};
use ufs_layout::Geometry;
use ufs_model::{Actor, Ask, Op, PartName};
use ufs_msg::{ClientPost, PlainPost, Request, ServerPost, SharedRings};
use ufs_names::Names;
use ufs_store::Door;

/// How the requests go.
#[derive(Clone, Copy)]
pub(crate) enum Way {
    InTurns,
    WithoutRoom,
    ByEnds,
    ByNarrowEnds,
    BetweenThreads,
}

// ---- on one thread

fn both_ask<N: Naming, R: Abort>(
    rt: &R,
    post: &mut PlainPost<N, u32>,
    first: Request<N>,
    second: Request<N>,
)
    requires { client_count N.start ≡ 2 }
{
    post.turn_of_client(0);
    asks(rt, post, first);
    post.turn_of_client(1);
    asks(rt, post, second);
}

// The answer to client 1 is sent before the other, and isn't for client 0.
fn both_are_answered<N: Naming, R: Abort>(rt: &R, post: &mut PlainPost<N, u32>)
    requires { client_count N.start ≡ 2 }
{
    let first = next_ask(rt, post);
    let second = next_ask(rt, post);
    holds(rt, !has_ask::<N, PlainPost<N, u32>>(post));
    answers(rt, post, redirect(second));
    post.turn_of_client(0);
    holds(rt, !has_answer::<N, PlainPost<N, u32>>(post));
    answers(rt, post, redirect(first));
}

// The one answer that came for this client.
fn answer_to<N: Naming, R: Abort>(rt: &R, post: &mut PlainPost<N, u32>, client: u8) -> Request<N>
    requires { IsClientThere N.start client }
{
    post.turn_of_client(client);
    let request = sent_back(rt, post);
    holds(rt, !has_answer::<N, PlainPost<N, u32>>(post));
    request
}

fn in_turns<N: Naming, R: Abort + AllocGlobal>(
    rt: &R,
    first: Request<N>,
    second: Request<N>,
) -> (Request<N>, Request<N>)
    requires clients { client_count N.start ≡ 2 }
    requires workers { worker_count N.start ≡ 3 }
{
    let mut post: PlainPost<N, u32> = PlainPost::make(rt.alloc(), 2, 3).expect(rt, "memory");
    holds(rt, !has_ask::<N, PlainPost<N, u32>>(&mut post));
    both_ask(rt, &mut post, first, second);
    both_are_answered(rt, &mut post);
    (answer_to(rt, &mut post, 0), answer_to(rt, &mut post, 1))
}

// ---- ends of shared rings

// As on one thread, by the ends of two clients and of the primary.
fn go_round<N: Naming, R: Abort, C: ClientPost<N>, S: ServerPost<N, u32>>(
    rt: &R,
    one: &mut C,
    other: &mut C,
    primary: &mut S,
    first: Request<N>,
    second: Request<N>,
) -> (Request<N>, Request<N>) {
    asks(rt, one, first);
    asks(rt, other, second);
    let first = next_ask(rt, primary);
    let second = next_ask(rt, primary);
    holds(rt, !has_ask::<N, S>(primary));
    answers(rt, primary, redirect(second));
    holds(rt, !has_answer::<N, C>(one));
    answers(rt, primary, redirect(first));
    (sent_back(rt, one), sent_back(rt, other))
}

fn by_ends<N: Naming, R: Abort + AllocGlobal + Wait>(
    rt: &R,
    first: Request<N>,
    second: Request<N>,
) -> (Request<N>, Request<N>)
    requires clients { client_count N.start ≡ 2 }
    requires workers { worker_count N.start ≡ 3 }
{
    let rings: SharedRings<N, u32> = SharedRings::make(rt.alloc(), 2, 3).expect(rt, "memory");
    let mut one = client_end(rt, &rings, 0);
    let mut other = client_end(rt, &rings, 1);
    let mut primary = server_end(rt, &rings, Actor::Primary);
    go_round(rt, &mut one, &mut other, &mut primary, first, second)
}

// ---- a session

// A client's request, which takes its hand along.
fn request_of<N: Naming>(hand: Hand<N>, client: u8) -> Request<N>
    requires { IsAsked N.start (sync_of client) hand }
{
    let ask = Ask {
        client,
        seq: 0,
        op: Op::Sync,
        desc: None,
        fd: 0,
        last: false,
    };
    Request::new(hand, ask, false)
}

// The hand of a request, which is this client's.
fn hand_of<N: Naming, R: Abort>(rt: &R, request: Request<N>, client: u8) -> Hand<N>
    ensures { (part : ClientPart) × HasClientAlone client part result }
{
    let (hand, ask, _) = request.into_parts();
    holds(rt, ask.client == client);
    hand
}

fn go<N: Naming + Send + Sync, R: Abort + AllocGlobal + Threads + Wait + Sync>(
    rt: &R,
    way: Way,
    first: Request<N>,
    second: Request<N>,
) -> (Request<N>, Request<N>)
    requires clients { client_count N.start ≡ 2 }
    requires workers { worker_count N.start ≡ 3 }
{
    match way {
        Way::InTurns => in_turns(rt, first, second),
        Way::WithoutRoom => (without_room(rt, first), second),
        Way::ByEnds => by_ends(rt, first, second),
        Way::ByNarrowEnds => by_narrow_ends(rt, first, second),
        Way::BetweenThreads => (between_threads(rt, first), second),
    }
}

// The tickets at the end of the session.
pub(crate) fn session<
    N: Naming + Send + Sync,
    D: Door,
    R: Abort + AllocGlobal + Threads + Wait + Sync,
>(rt: &R, way: Way, opened: Opened, geometry: &Geometry, names: &Names, store: &D) -> u64
    requires name { (opened.table ≡ N.table) × (opened.start ≡ N.start) }
    requires start { N.start ≡ two_start names.now (D.store store.now) }
    requires part { IsNamesPart names.now root_alone }
    requires formed { IsGeometry geometry.now }
    requires its { geometry.now ≡ N.start.geometry }
    requires clients { client_count N.start ≡ 2 }
    requires workers { worker_count N.start ≡ 3 }
{
    // For the prover alone.
    let _ = names;
    let _ = store;
    let Begun { table, mut hand } = opened.named::<N>();
    ask::<N, Brand>(&table, &mut hand, geometry, 0);
    ask::<N, Brand>(&table, &mut hand, geometry, 1);
    let first = request_of(hand.split(&table, PartName::Client(0)), 0);
    let second = request_of(hand.split(&table, PartName::Client(1)), 1);
    let (first, second) = go(rt, way, first, second);
    hand.join(&table, hand_of(rt, first, 0));
    hand.join(&table, hand_of(rt, second, 1));
    hand.close(table, geometry)
}
