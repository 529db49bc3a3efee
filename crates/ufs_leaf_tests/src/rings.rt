use crate::asserts::{holds, same};
use crate::drawn;
use std::process::Abort;
use std::sync::Wait;
use std::thread;
use std::thread::join;
use ufs_ring::{PlainRing, Ring, RuledRing, SharedRing, shared_ring};

// How many items go from one thread to the other.
const SENT: u32 = 100_000;

// Asserts that a new ring of one item gives the second back.
fn gives_the_second_back<R: Abort, G: Ring<u32>>(rt: &R, ring: &mut G) {
    same(rt, ring.take(), None);
    same(rt, ring.put(1), Ok(()));
    same(rt, ring.put(2), Err(2));
    same(rt, ring.take(), Some(1));
    same(rt, ring.take(), None);
}

#[test]
fn a_full_ring_gives_the_item_back(rt: HostRuntime) {
    let mut ring = PlainRing::make(rt.alloc(), 1).expect(&rt, "memory");
    gives_the_second_back(&rt, &mut ring);
    let queue = shared_ring(rt.alloc(), 1).expect(&rt, "memory");
    let mut end = RuledRing::new(&rt, &queue);
    gives_the_second_back(&rt, &mut end);
}

// Puts the item in both, where the list has less than five, or takes one from both; asserts that they agree.
fn turns_alike<R: Abort>(
    rt: &R,
    ring: &mut PlainRing<u32>,
    list: &mut Vec<u32>,
    item: u32,
    is_put: bool,
) {
    if is_put {
        let full = list.len() == 5;
        same(rt, ring.put(item).is_err(), full);
        if !full {
            list.push(item).expect(rt, "memory");
        }
    } else {
        let first = if list.is_empty() {
            None
        } else {
            Some(list.remove(0))
        };
        same(rt, ring.take(), first);
    }
}

// A walk of puts and takes beside a plain list of at most five.
#[test]
fn a_walk_agrees_with_a_plain_list(rt: HostRuntime) {
    let mut ring = PlainRing::make(rt.alloc(), 5).expect(&rt, "memory");
    let mut list: Vec<u32> = Vec::new(rt.alloc());
    let mut seed = 7;
    for turn in 0..300u32 {
        seed = drawn(seed);
        turns_alike(&rt, &mut ring, &mut list, turn, seed / 65_536 % 5 < 3);
    }
}

// Fills a new ring of 16, empties it, and asserts that the items come in order and that no room is lost.
fn fills_and_empties<R: Abort, G: Ring<u32>>(rt: &R, ring: &mut G) {
    for round in 0..3u32 {
        for item in 0..16u32 {
            same(rt, ring.put(round * 16 + item), Ok(()));
        }
        same(rt, ring.put(99), Err(99));
        for item in 0..16u32 {
            same(rt, ring.take(), Some(round * 16 + item));
        }
        same(rt, ring.take(), None);
    }
}

#[test]
fn a_ring_is_filled_and_emptied_again(rt: HostRuntime) {
    let mut ring = PlainRing::make(rt.alloc(), 16).expect(&rt, "memory");
    fills_and_empties(&rt, &mut ring);
    let queue = shared_ring(rt.alloc(), 16).expect(&rt, "memory");
    let mut end = RuledRing::new(&rt, &queue);
    fills_and_empties(&rt, &mut end);
}

// What one end puts another takes.
#[test]
fn the_ends_share_one_ring(rt: HostRuntime) {
    let queue = shared_ring(rt.alloc(), 2).expect(&rt, "memory");
    let mut one = RuledRing::new(&rt, &queue);
    let mut other = RuledRing::new(&rt, &queue);
    same(&rt, one.put(1), Ok(()));
    same(&rt, other.put(2), Ok(()));
    same(&rt, one.put(3), Err(3));
    same(&rt, other.take(), Some(1));
    same(&rt, one.take(), Some(2));
    same(&rt, other.take(), None);
}

#[test]
fn a_ring_that_holds_nothing_ends(rt: HostRuntime) {
    let ring: PlainRing<u32> = PlainRing::make(rt.alloc(), 16).expect(&rt, "memory");
    ring.end();
}

#[test]
fn items_pass_between_threads_in_order(rt: HostRuntime) {
    let queue = shared_ring(rt.alloc(), 16).expect(&rt, "memory");
    let ((), in_order) = join(&rt, || send(&rt, &queue), || receive(&rt, &queue));
    holds(&rt, in_order);
}

fn send(rt: &impl Wait, queue: &SharedRing<u32>) {
    let mut end = RuledRing::new(rt, queue);
    for item in 0..SENT {
        for _ in rt.forever() {
            if end.put(item).is_ok() {
                break;
            }
            thread::yield_now();
        }
    }
}

// Whether the items come in the order in which they were sent.
fn receive(rt: &impl Wait, queue: &SharedRing<u32>) -> bool {
    let mut end = RuledRing::new(rt, queue);
    let mut in_order = true;
    for item in 0..SENT {
        for _ in rt.forever() {
            if let Some(taken) = end.take() {
                in_order = in_order && taken == item;
                break;
            }
            thread::yield_now();
        }
    }
    in_order
}
