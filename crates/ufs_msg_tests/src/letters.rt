// Letters fill the ring of the server that they are for, and come out of it in order, by each kind of post.
ghost use Rattle.std.specs.Prelude.{◌≡◌};
ghost use Rattle.ufs_msg.specs.There.{IsServerThere, client_count, worker_count};

use crate::asserts::same;
use crate::ends::server_end;
use std::alloc::AllocGlobal;
use std::marker::Brand;
use std::process::Abort;
use std::sync::Wait;
use ufs_joint::Naming;
use ufs_model::Actor;
use ufs_msg::{PlainPost, RuledServerPost, ServerPost, SharedRings};

// How many letters go from worker 2 to worker 1, and from worker 1 to the primary; how many then come to worker 2, to worker 1 and to
// the primary, and how many to the last two after that.
const WANTED: [u32; 7] = [64, 64, 0, 64, 64, 0, 0];

// Letters from 0 on go to the server until one comes back, which is told.
fn filled<N: Naming, P: ServerPost<N, u32>>(post: &mut P, to: Actor) -> u32
    requires { IsServerThere N.start to }
{
    for letter in 0..1_000u32 {
        if let Err(back) = post.send(to, letter) {
            return back;
        }
    }
    1_000
}

// So many letters come, from 0 on.
fn emptied<N: Naming, P: ServerPost<N, u32>>(post: &mut P) -> u32 {
    for letter in 0..1_000u32 {
        if post.take_letter() != Some(letter) {
            return letter;
        }
    }
    1_000
}

// ---- the post of one thread

fn filled_by<N: Naming>(post: &mut PlainPost<N, u32>, server: Actor, to: Actor) -> u32
    requires server { IsServerThere N.start server }
    requires to { IsServerThere N.start to }
{
    post.turn_of_server(server);
    filled::<N, PlainPost<N, u32>>(post, to)
}

fn emptied_by<N: Naming>(post: &mut PlainPost<N, u32>, server: Actor) -> u32
    requires { IsServerThere N.start server }
{
    post.turn_of_server(server);
    emptied::<N, PlainPost<N, u32>>(post)
}

fn in_turns<N: Naming>(post: &mut PlainPost<N, u32>) -> [u32; 7]
    requires { worker_count N.start ≡ 2 }
{
    [
        filled_by(post, Actor::Worker(2), Actor::Worker(1)),
        filled_by(post, Actor::Worker(1), Actor::Primary),
        emptied_by(post, Actor::Worker(2)),
        emptied_by(post, Actor::Worker(1)),
        emptied_by(post, Actor::Primary),
        emptied_by(post, Actor::Worker(1)),
        emptied_by(post, Actor::Primary),
    ]
}

// In a session of one client and two workers.
fn plain_session<N: Naming, R: Abort + AllocGlobal>(rt: &R)
    requires clients { client_count N.start ≡ 1 }
    requires workers { worker_count N.start ≡ 2 }
{
    let mut post: PlainPost<N, u32> = PlainPost::make(rt.alloc(), 1, 2).expect(rt, "memory");
    same(rt, in_turns(&mut post), WANTED);
}

#[test]
fn letters_fill_and_leave_rings_of_one_thread(rt: HostRuntime) {
    plain_session::<Brand, HostRuntime>(&rt);
}

// ---- ends of shared rings

fn by_ends<N: Naming, P: ServerPost<N, u32>>(
    primary: &mut P,
    first: &mut P,
    second: &mut P,
) -> [u32; 7]
    requires { worker_count N.start ≡ 2 }
{
    [
        filled::<N, P>(second, Actor::Worker(1)),
        filled::<N, P>(first, Actor::Primary),
        emptied::<N, P>(second),
        emptied::<N, P>(first),
        emptied::<N, P>(primary),
        emptied::<N, P>(first),
        emptied::<N, P>(primary),
    ]
}

fn counts_by_ends<N: Naming, R: Abort + AllocGlobal + Wait>(
    rt: &R,
    rings: &SharedRings<N, u32>,
) -> [u32; 7]
    requires { worker_count N.start ≡ 2 }
{
    let mut primary = server_end(rt, rings, Actor::Primary);
    let mut first = server_end(rt, rings, Actor::Worker(1));
    let mut second = server_end(rt, rings, Actor::Worker(2));
    by_ends::<N, RuledServerPost<N, u32, R>>(&mut primary, &mut first, &mut second)
}

fn shared_session<N: Naming, R: Abort + AllocGlobal + Wait>(rt: &R)
    requires clients { client_count N.start ≡ 1 }
    requires workers { worker_count N.start ≡ 2 }
{
    let rings: SharedRings<N, u32> = SharedRings::make(rt.alloc(), 1, 2).expect(rt, "memory");
    same(rt, counts_by_ends(rt, &rings), WANTED);
}

#[test]
fn letters_fill_and_leave_shared_rings(rt: HostRuntime) {
    shared_session::<Brand, HostRuntime>(&rt);
}
