// A stub in the primary's place: it sends a request back, or excuses it for want of memory.
ghost use Rattle.std.specs.Prelude.{◌≡◌, false, None};
ghost use Rattle.ufs_joint.specs.Draws.{drawn};
ghost use Rattle.ufs_joint.specs.Rule.{MayDrawAny};
ghost use Rattle.ufs_model.specs.declared.data.Op.TheVariants.{Sync};
ghost use Rattle.ufs_msg.specs.Requests.{IsAsked};
ghost use Rattle.ufs_caller.specs.Own.{left_by};

use crate::asserts::holds;
use std::marker::Brand;
use std::process::Abort;
use ufs_hand_laws::Fresh;
use ufs_joint::{Hand, HandTable, Leaving, Naming};
use ufs_model::{Actor, Ask, Entry, Excuse, Op, Reply};
use ufs_msg::{Answer, PlainPost, Redirected, Request, Served, ServerPost};

fn next_ask<N: Naming, R: Abort>(rt: &R, post: &mut PlainPost<N, ()>) -> Request<N> {
    post.turn_of_server(Actor::Primary);
    post.take_ask().expect(rt, "a request")
}

fn answers<N: Naming, R: Abort>(rt: &R, post: &mut PlainPost<N, ()>, answer: Answer<N>) {
    let client = answer.client();
    let mut waiting = Some(answer);
    post.answer(client, &mut waiting);
    holds(rt, waiting.is_none());
}

/// The request is to go to the primary again.
pub(crate) fn sends_back<N: Naming, R: Abort>(rt: &R, post: &mut PlainPost<N, ()>) {
    let request = next_ask(rt, post);
    answers(
        rt,
        post,
        Answer::Redirect(Redirected::new(request, Actor::Primary)),
    );
}

// Of all that the hand has, the draw changes the request's client alone.
fn draw_excuse<N: Naming, L: Leaving>(
    table: &HandTable<N>,
    hand: &mut Hand<N>,
    fresh: &Fresh,
) -> u64
    requires leaves { L.leaves ≡ left_by fresh.now None hand.old }
    requires may { MayDrawAny N.start hand.old fresh.now (left_by fresh.now None hand.old) }
    ensures { hand.new ≡ drawn result fresh.now (left_by fresh.now None hand.old result) hand.old }
{
    hand.draw::<L>(table, fresh)
}

// The entry that excuses the request goes with its client's hand.
fn excused<N: Naming>(table: &HandTable<N>, mut hand: Hand<N>, ask: Ask) -> Served<N>
    requires blind { N.start.is_visible ≡ false }
    requires asked { IsAsked N.start ask hand }
    requires sync { ask.op ≡ Sync }
{
    let fresh = Fresh {
        client: ask.client,
        seq: ask.seq,
        by: Actor::Primary,
        op: Op::Sync,
        reply: Reply::Excused(Excuse::Memory),
    };
    let ticket = draw_excuse::<N, Brand>(table, &mut hand, &fresh);
    let entry = Entry {
        ticket,
        client: ask.client,
        seq: ask.seq,
        by: Actor::Primary,
        op: Op::Sync,
        reply: Reply::Excused(Excuse::Memory),
    };
    Served::new(hand, entry, None, None, None)
}

/// The request, a `sync`, is excused.
pub(crate) fn excuses<N: Naming, R: Abort>(
    rt: &R,
    table: &HandTable<N>,
    post: &mut PlainPost<N, ()>,
)
    requires blind { N.start.is_visible ≡ false }
{
    let (hand, ask, _) = next_ask(rt, post).into_parts();
    match ask.op {
        Op::Sync => answers(rt, post, Answer::Served(excused(table, hand, ask))),
        _ => panic!(rt; "another request"),
    }
}
