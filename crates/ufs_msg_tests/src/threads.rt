// A client's request goes to the primary and comes back, again and again, between two threads.
ghost use Rattle.std.specs.Prelude.{◌≡◌};
ghost use Rattle.ufs_msg.specs.There.{client_count, worker_count};

use crate::calls::{redirect, request_in, try_answer, try_ask};
use crate::ends::{client_end, server_end};
use crossbeam_utils::Backoff;
use std::alloc::AllocGlobal;
use std::process::Abort;
use std::sync::Wait;
use std::thread::{Threads, join};
use ufs_joint::Naming;
use ufs_model::Actor;
use ufs_msg::{
    Answer, ClientPost, Request, RuledClientPost, RuledServerPost, ServerPost, SharedRings,
};

// How often it goes.
const ROUNDS: u32 = 10_000;

// ---- the client

fn ask_until_sent<N: Naming, R: Wait>(
    rt: &R,
    post: &mut RuledClientPost<N, R>,
    request: Request<N>,
) {
    let mut waiting = try_ask(post, request);
    let backoff = Backoff::new();
    for _ in rt.forever() {
        match waiting {
            None => return,
            Some(request) => waiting = try_ask(post, request),
        }
        backoff.snooze();
    }
}

fn wait_for_answer<N: Naming, R: Wait>(rt: &R, post: &mut RuledClientPost<N, R>) -> Answer<N> {
    let backoff = Backoff::new();
    for _ in rt.forever() {
        if let Some(answer) = post.take_answer() {
            return answer;
        }
        backoff.snooze();
    }
    unreachable!()
}

fn client_thread<N: Naming, R: Abort + Wait>(
    rt: &R,
    mut post: RuledClientPost<N, R>,
    request: Request<N>,
) -> Request<N> {
    let mut own = request;
    for _ in 0..ROUNDS {
        ask_until_sent(rt, &mut post, own);
        own = request_in(rt, wait_for_answer(rt, &mut post));
    }
    own
}

// ---- the primary

fn wait_for_ask<N: Naming, R: Wait>(rt: &R, post: &mut RuledServerPost<N, u32, R>) -> Request<N> {
    let backoff = Backoff::new();
    for _ in rt.forever() {
        if let Some(request) = post.take_ask() {
            return request;
        }
        backoff.snooze();
    }
    unreachable!()
}

fn answer_until_sent<N: Naming, R: Wait>(
    rt: &R,
    post: &mut RuledServerPost<N, u32, R>,
    answer: Answer<N>,
) {
    let mut waiting = try_answer(post, answer);
    let backoff = Backoff::new();
    for _ in rt.forever() {
        match waiting {
            None => return,
            Some(answer) => waiting = try_answer(post, answer),
        }
        backoff.snooze();
    }
}

fn primary_thread<N: Naming, R: Wait>(rt: &R, mut post: RuledServerPost<N, u32, R>) {
    for _ in 0..ROUNDS {
        let request = wait_for_ask(rt, &mut post);
        answer_until_sent(rt, &mut post, redirect(request));
    }
}

// The request as it came back the last time.
pub(crate) fn between_threads<
    N: Naming + Send + Sync,
    R: Abort + AllocGlobal + Threads + Wait + Sync,
>(rt: &R, request: Request<N>) -> Request<N>
    requires clients { client_count N.start ≡ 2 }
    requires workers { worker_count N.start ≡ 3 }
{
    let rings: SharedRings<N, u32> = SharedRings::make(rt.alloc(), 2, 3).expect(rt, "memory");
    let client = client_end(rt, &rings, 0);
    let primary = server_end(rt, &rings, Actor::Primary);
    let (back, ()) = join(
        rt,
        move || client_thread(rt, client, request),
        move || primary_thread(rt, primary),
    );
    back
}
