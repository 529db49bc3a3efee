// Requests and answers by a post: each call asserts how it goes, and says nothing else of it.

use crate::asserts::{holds, same};
use std::process::Abort;
use ufs_joint::Naming;
use ufs_model::Actor;
use ufs_msg::{Answer, ClientPost, Redirected, Request, ServerPost};

// The request comes back where its ring is full.
pub(crate) fn try_ask<N: Naming, P: ClientPost<N>>(
    post: &mut P,
    request: Request<N>,
) -> Option<Request<N>> {
    let mut waiting = Some(request);
    post.ask(Actor::Primary, &mut waiting);
    waiting
}

pub(crate) fn asks<N: Naming, R: Abort, P: ClientPost<N>>(
    rt: &R,
    post: &mut P,
    request: Request<N>,
) {
    holds(rt, try_ask(post, request).is_none());
}

pub(crate) fn has_answer<N: Naming, P: ClientPost<N>>(post: &mut P) -> bool {
    post.take_answer().is_some()
}

// The request of an answer that sends it back.
pub(crate) fn request_in<N: Naming, R: Abort>(rt: &R, answer: Answer<N>) -> Request<N> {
    match answer {
        Answer::Redirect(redirected) => {
            let (request, to) = redirected.into_parts();
            same(rt, to, Actor::Primary);
            request
        }
        Answer::Served(_) => panic!(rt; "a request that nobody served"),
    }
}

// The request that was sent back.
pub(crate) fn sent_back<N: Naming, R: Abort, P: ClientPost<N>>(rt: &R, post: &mut P) -> Request<N> {
    let answer = post.take_answer().expect(rt, "an answer");
    request_in(rt, answer)
}

pub(crate) fn next_ask<N: Naming, R: Abort, P: ServerPost<N, u32>>(
    rt: &R,
    post: &mut P,
) -> Request<N> {
    post.take_ask().expect(rt, "a request")
}

pub(crate) fn has_ask<N: Naming, P: ServerPost<N, u32>>(post: &mut P) -> bool {
    post.take_ask().is_some()
}

pub(crate) fn redirect<N: Naming>(request: Request<N>) -> Answer<N> {
    Answer::Redirect(Redirected::new(request, Actor::Primary))
}

// The answer comes back where its client's ring is full.
pub(crate) fn try_answer<N: Naming, P: ServerPost<N, u32>>(
    post: &mut P,
    answer: Answer<N>,
) -> Option<Answer<N>> {
    let client = answer.client();
    let mut waiting = Some(answer);
    post.answer(client, &mut waiting);
    waiting
}

pub(crate) fn answers<N: Naming, R: Abort, P: ServerPost<N, u32>>(
    rt: &R,
    post: &mut P,
    answer: Answer<N>,
) {
    holds(rt, try_answer(post, answer).is_none());
}
