ghost use Rattle.std.specs.Prelude.{◌≡◌, true};
ghost use Rattle.std.specs.FinSet as set;

use crate::asserts::same;
use crate::drawn;
use std::alloc::Global;
use std::process::Abort;
use ufs_base::Lack;
use ufs_links::{Links, Which};

// A number of a list that is far from 1 and in its bucket, where there are three buckets.
const FAR: u32 = 4_294_967_293;

// Puts the node on a list of the kind, or takes it off the one that it is on.
fn turned(links: &mut Links, which: Which, list: u32, node: u32, front: bool)
    requires { set.contains links.old.given node ≡ true }
    ensures { links.new.given ≡ links.old.given }
{
    match links.list_of(which, node) {
        Some(_) => links.remove(which, node),
        None => {
            if front {
                links.add_front(which, list, node);
            } else {
                links.add_back(which, list, node);
            }
        }
    }
}

// Asserts which nodes the list has, from its front on.
fn has_nodes<R: Abort>(rt: &R, links: &Links, which: Which, list: u32, wanted: &[u32]) {
    let mut at = links.front(which, list);
    for node in wanted {
        same(rt, at, Some(*node));
        at = match links.list_of(which, *node) {
            Some(_) => links.next(which, *node),
            None => None,
        };
    }
    same(rt, at, None);
}

// Nodes that are given out.
#[derive(Drop)]
struct Three {
    links: Links,
    a: u32,
    b: u32,
    c: u32,
    ghost a_given: { set.contains links.given a ≡ true },
    ghost b_given: { set.contains links.given b ≡ true },
    ghost c_given: { set.contains links.given c ≡ true },
}

impl Three {
    fn make(alloc: Global) -> Result<Three, Lack> {
        let mut links = Links::new(alloc);
        links.reserve(3)?;
        let a = links.fresh();
        let b = links.fresh();
        let c = links.fresh();
        Ok(Three { links, a, b, c })
    }

    // Turns one of the nodes, and tells which.
    fn turned(&mut self, pick: u32, which: Which, list: u32, front: bool) -> u32 {
        match pick % 3 {
            0 => {
                turned(&mut self.links, which, list, self.a, front);
                self.a
            }
            1 => {
                turned(&mut self.links, which, list, self.b, front);
                self.b
            }
            _ => {
                turned(&mut self.links, which, list, self.c, front);
                self.c
            }
        }
    }
}

#[test]
fn a_node_is_on_a_list_of_each_kind(rt: HostRuntime) {
    let mut three = Three::make(rt.alloc()).expect(&rt, "memory");
    let a = three.turned(0, Which::First, FAR, false);
    let b = three.turned(1, Which::First, FAR, true);
    let _ = three.turned(0, Which::Second, 0, true);
    let _ = three.turned(1, Which::Second, 0, false);
    has_nodes(&rt, &three.links, Which::First, 1, &[]);
    has_nodes(&rt, &three.links, Which::First, FAR, &[b, a]);
    has_nodes(&rt, &three.links, Which::Second, 0, &[a, b]);
    let _ = three.turned(1, Which::First, FAR, true);
    has_nodes(&rt, &three.links, Which::First, FAR, &[a]);
    same(&rt, three.links.list_of(Which::First, a), Some(FAR));
    same(&rt, three.links.list_of(Which::First, b), None);
    same(&rt, three.links.list_of(Which::Second, b), Some(0));
}

#[test]
fn a_released_node_is_given_out_again(rt: HostRuntime) {
    let mut links = Links::new(rt.alloc());
    links.reserve(1).expect(&rt, "memory");
    let node = links.fresh();
    links.release(node);
    same(&rt, links.fresh(), node);
}

// Two lists of numbers that stand for the lists of the walk.
#[derive(Drop)]
struct Plain {
    first: Vec<u32>,
    second: Vec<u32>,
}

impl Plain {
    fn turn<R: Abort>(&mut self, rt: &R, is_first: bool, node: u32, front: bool) {
        let on = self.first.contains(&node) || self.second.contains(&node);
        self.first.retain(|n| *n != node);
        self.second.retain(|n| *n != node);
        if !on {
            let nodes = if is_first {
                &mut self.first
            } else {
                &mut self.second
            };
            let at = if front { 0 } else { nodes.len() };
            nodes.insert(at, node).expect(rt, "memory");
        }
    }
}

// Turns a node on both, as the number has it, and asserts that they agree.
fn turns_alike<R: Abort>(rt: &R, three: &mut Three, plain: &mut Plain, seed: u32) {
    let is_first = seed / 1_048_576 % 2 == 0;
    let front = seed / 4_194_304 % 2 == 0;
    let list = if is_first { 1 } else { FAR };
    let node = three.turned(seed / 65_536, Which::Second, list, front);
    plain.turn(rt, is_first, node, front);
    has_nodes(rt, &three.links, Which::Second, 1, plain.first.as_slice());
    has_nodes(
        rt,
        &three.links,
        Which::Second,
        FAR,
        plain.second.as_slice(),
    );
}

// A walk of three nodes on and off two lists, beside plain lists.
#[test]
fn a_walk_agrees_with_plain_lists(rt: HostRuntime) {
    let alloc = rt.alloc();
    let mut three = Three::make(alloc).expect(&rt, "memory");
    let mut plain = Plain {
        first: Vec::new(alloc),
        second: Vec::new(alloc),
    };
    let mut seed = 3;
    for _turn in 0..200 {
        seed = drawn(seed);
        turns_alike(&rt, &mut three, &mut plain, seed);
    }
}

// Places for more nodes come while lists stand.
#[test]
fn lists_stand_while_places_are_added(rt: HostRuntime) {
    let mut three = Three::make(rt.alloc()).expect(&rt, "memory");
    let a = three.turned(0, Which::First, FAR, true);
    let b = three.turned(1, Which::First, 1, true);
    three.links.reserve(40).expect(&rt, "memory");
    let c = three.turned(2, Which::First, FAR, false);
    has_nodes(&rt, &three.links, Which::First, FAR, &[a, c]);
    has_nodes(&rt, &three.links, Which::First, 1, &[b]);
}
