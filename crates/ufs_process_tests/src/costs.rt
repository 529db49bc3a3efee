// How often a session over a mirror calls its legs.
use crate::asserts::{holds, same};
use crate::legs::{command, leg, made, script_of, words};
use std::alloc::AllocGlobal;
use std::process::Abort;
use ufs_io::{MemorySink, PlainSource};
use ufs_process::quiet;

const SECTORS: usize = 2_049;

// An opening calls the leg that is picked so often: a barrier and a read for its label, 256 pieces of the copy, and two for the
// next label.
const PICKED: usize = 260;

// It waits for the other leg once more, behind the copy.
const COPIED: usize = 261;

const REQUESTS: &str =
    "open /f rw creat;write 3 20000*61;fsync 3;mkdir /d;open /d/g w creat;write 4 61;fsync 4;pwrite 3 62 9;fsync 3;fsync 3;rename /d/g /h;sync;trunc 3 100;fsync 3;unlink /h;sync;pread 3 100 0";

// The calls of one disk in that session.
fn alone<R: Abort + AllocGlobal>(rt: &R, image: &[u8]) -> usize {
    let words = words(rt, "play");
    let mut source = PlainSource::new(script_of(rt, REQUESTS));
    let mut sink = MemorySink::new(rt.alloc(), Vec::new(rt.alloc()));
    let disk = leg(rt, image, &[]);
    let outcome = quiet(rt.alloc(), &words, &mut source, &mut sink, disk);
    same(rt, outcome.status, 0);
    outcome.disk.medium.calls.len()
}

// At most 2.2 times as often as one disk, but for the opening.
#[test]
fn a_session_calls_both_legs_little_more_than_twice_as_often(rt: HostRuntime) {
    let images = made(&rt, SECTORS, "mkfs 256 32 64", "made 256 32 64 242\n");
    let one = alone(&rt, images.first.as_slice());
    let first = leg(&rt, images.first.as_slice(), &[]);
    let second = leg(&rt, images.second.as_slice(), &[]);
    let answer = command(&rt, "play", REQUESTS, first, second);
    same(&rt, answer.status, 0);
    let first = answer.first.medium.calls.len().saturating_sub(PICKED);
    let second = answer.second.medium.calls.len().saturating_sub(COPIED);
    let both = first.saturating_add(second);
    holds(&rt, 20 < one && one <= both);
    holds(&rt, both.saturating_mul(5) <= one.saturating_mul(11));
}
