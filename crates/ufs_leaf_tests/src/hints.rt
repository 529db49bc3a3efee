use crate::asserts::{holds, same};
use std::process::Abort;
use ufs_hints::{Hints, MAX_HINTS};
use ufs_model::Actor;

// The worker that is believed to have this file.
fn worker_of(file: u32) -> Actor {
    Actor::Worker((file % 8 + 1) as u8)
}

// Hints for the files below this one, each renewed once.
fn hints_below<R: Abort>(rt: &R, files: u32, hints: &mut Hints) {
    for file in 0..files {
        hints.renew(file, worker_of(file)).expect(rt, "memory");
    }
}

#[test]
fn a_file_has_its_last_hint(rt: HostRuntime) {
    let mut hints = Hints::new(rt.alloc()).expect(&rt, "memory");
    holds(&rt, hints.is_empty());
    same(&rt, hints.take_use(5), None);
    hints.renew(5, Actor::Worker(1)).expect(&rt, "memory");
    hints.renew(5, Actor::Primary).expect(&rt, "memory");
    same(&rt, hints.len(), 1);
    same(&rt, hints.take_use(5), Some(Actor::Primary));
    same(&rt, hints.take_use(6), None);
}

#[test]
fn the_hint_that_was_used_longest_ago_goes(rt: HostRuntime) {
    let mut hints = Hints::new(rt.alloc()).expect(&rt, "memory");
    hints_below(&rt, 64, &mut hints);
    same(&rt, hints.len(), MAX_HINTS);
    same(&rt, hints.take_use(0), Some(worker_of(0)));
    hints.renew(64, Actor::Worker(8)).expect(&rt, "memory");
    same(&rt, hints.len(), MAX_HINTS);
    same(&rt, hints.take_use(0), Some(worker_of(0)));
    same(&rt, hints.take_use(1), None);
    same(&rt, hints.take_use(2), Some(worker_of(2)));
    same(&rt, hints.take_use(64), Some(Actor::Worker(8)));
}
