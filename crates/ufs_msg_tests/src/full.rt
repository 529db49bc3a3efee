// Requests and answers stay in their places where rings have no room, and go once there is some.
ghost use Rattle.std.specs.Prelude.{◌≡◌, []};
ghost use Rattle.circular_buffer.specs.Buffer.{buffer};
ghost use Rattle.ufs_msg.specs.There.{IsClientThere, client_count, worker_count};

use crate::asserts::holds;
use crate::calls::{
    answers, asks, has_answer, has_ask, next_ask, redirect, request_in, sent_back, try_answer,
    try_ask,
};
use crate::ends::{client_end, server_end};
use std::alloc::AllocGlobal;
use std::process::Abort;
use std::sync::Wait;
use ufs_joint::Naming;
use ufs_model::Actor;
use ufs_msg::{
    Answer, ClientPost, Inbox, PerServer, PlainPost, Request, RuledClientPost, RuledServerPost,
    ServerPost, SharedRings,
};
use ufs_ring::{PlainRing, RuledRing, SharedRing, shared_ring};

// ---- rings of one thread that have none

fn no_room<T: Drop, R: Abort + AllocGlobal>(rt: &R) -> PlainRing<T>
    ensures { result ≡ buffer [] 0 }
{
    PlainRing::make(rt.alloc(), 0).expect(rt, "memory")
}

// The request stays in its place where the primary's ring has no room,
fn stays<N: Naming, R: Abort + AllocGlobal>(
    rt: &R,
    post: &mut PlainPost<N, u32>,
    request: Request<N>,
) -> Request<N> {
    post.requests.primary = no_room(rt);
    let request = try_ask(post, request).expect(rt, "the request");
    holds(rt, !has_ask::<N, PlainPost<N, u32>>(post));
    request
}

// and so does an answer where its client's has none.
fn stays_unanswered<N: Naming, R: Abort + AllocGlobal>(
    rt: &R,
    post: &mut PlainPost<N, u32>,
    request: Request<N>,
) -> Request<N>
    requires { client_count N.start ≡ 2 }
{
    post.clients[0] = no_room(rt);
    let answer = try_answer(post, redirect(request)).expect(rt, "the answer");
    holds(rt, !has_answer::<N, PlainPost<N, u32>>(post));
    request_in(rt, answer)
}

pub(crate) fn without_room<N: Naming, R: Abort + AllocGlobal>(
    rt: &R,
    request: Request<N>,
) -> Request<N>
    requires clients { client_count N.start ≡ 2 }
    requires workers { worker_count N.start ≡ 3 }
{
    let mut post: PlainPost<N, u32> = PlainPost::make(rt.alloc(), 2, 3).expect(rt, "memory");
    let request = stays(rt, &mut post, request);
    stays_unanswered(rt, &mut post, request)
}

// ---- shared rings that have room for one

// Both clients' requests go through one ring, and so do the answers.
#[derive(Drop)]
struct Narrow<N: Naming> {
    asks: SharedRing<Request<N>>,
    mail: SharedRing<Answer<N>>,
}

fn narrow_rings<N: Naming, R: Abort + AllocGlobal>(rt: &R) -> Narrow<N> {
    Narrow {
        asks: shared_ring(rt.alloc(), 1).expect(rt, "memory"),
        mail: shared_ring(rt.alloc(), 1).expect(rt, "memory"),
    }
}

fn narrow_client<'a, N: Naming, R: Abort + AllocGlobal + Wait>(
    rt: &'a R,
    rings: &'a SharedRings<N, u32>,
    narrow: &'a Narrow<N>,
    client: u8,
) -> RuledClientPost<'a, N, R>
    requires { IsClientThere N.start client }
{
    let RuledClientPost {
        rt,
        client,
        requests,
        mail: _,
    } = client_end(rt, rings, client);
    let PerServer {
        primary: _,
        workers,
    } = requests;
    RuledClientPost {
        rt,
        client,
        requests: PerServer {
            primary: RuledRing::new(rt, &narrow.asks),
            workers,
        },
        mail: RuledRing::new(rt, &narrow.mail),
    }
}

fn narrow_primary<'a, N: Naming, R: Abort + AllocGlobal + Wait>(
    rt: &'a R,
    rings: &'a SharedRings<N, u32>,
    narrow: &'a Narrow<N>,
) -> RuledServerPost<'a, N, u32, R>
    requires { client_count N.start ≡ 2 }
{
    let mut end = server_end(rt, rings, Actor::Primary);
    end.inbox = Inbox::Primary(RuledRing::new(rt, &narrow.asks));
    end.clients[0] = RuledRing::new(rt, &narrow.mail);
    end.clients[1] = RuledRing::new(rt, &narrow.mail);
    end
}

// The second request stays until the first was taken, and so does the second answer.
fn one_at_a_time<N: Naming, R: Abort, C: ClientPost<N>, S: ServerPost<N, u32>>(
    rt: &R,
    one: &mut C,
    other: &mut C,
    primary: &mut S,
    first: Request<N>,
    second: Request<N>,
) -> (Request<N>, Request<N>) {
    asks(rt, one, first);
    let second = try_ask(other, second).expect(rt, "the request");
    let first = next_ask(rt, primary);
    asks(rt, other, second);
    let second = next_ask(rt, primary);
    answers(rt, primary, redirect(first));
    let waiting = try_answer(primary, redirect(second)).expect(rt, "the answer");
    let first = sent_back(rt, one);
    answers(rt, primary, waiting);
    (first, sent_back(rt, other))
}

pub(crate) fn by_narrow_ends<N: Naming, R: Abort + AllocGlobal + Wait>(
    rt: &R,
    first: Request<N>,
    second: Request<N>,
) -> (Request<N>, Request<N>)
    requires clients { client_count N.start ≡ 2 }
    requires workers { worker_count N.start ≡ 3 }
{
    let rings: SharedRings<N, u32> = SharedRings::make(rt.alloc(), 2, 3).expect(rt, "memory");
    let narrow = narrow_rings(rt);
    let mut one = narrow_client(rt, &rings, &narrow, 0);
    let mut other = narrow_client(rt, &rings, &narrow, 1);
    let mut primary = narrow_primary(rt, &rings, &narrow);
    one_at_a_time(rt, &mut one, &mut other, &mut primary, first, second)
}
