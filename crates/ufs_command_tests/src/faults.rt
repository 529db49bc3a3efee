// Sessions over a disk of which one call fails.
use crate::asserts::holds_in;
use crate::calls::memory_disk;
use crate::rows::{lines_of, push};
use crate::stops::{Stage, answer_over};
use std::alloc::AllocGlobal;
use std::process::Abort;

const REQUESTS: &str = "open /f rw creat;write 3 61;fsync 3;fsync 3;pread 3 1 0";

const FAULT: &str = "ufs: device fault 1\n";

// A status, the replies, and whether the line of the fault stands behind them.
const OUTCOMES: [(u8, &str, bool); 4] = [
    // as the session began,
    (4, "", true),
    // in an `fsync`, and the store stopped,
    (4, "fd 3/n 1/err EIO/err EIO/data 61", true),
    // in the closing,
    (4, "fd 3/n 1/ok/ok/data 61", true),
    // at no call
    (0, "fd 3/n 1/ok/ok/data 61", false),
];

fn text_of<R: Abort + AllocGlobal>(rt: &R, replies: &str, fails: bool) -> String {
    let mut text = if replies.is_empty() {
        String::new(rt.alloc())
    } else {
        lines_of(rt, replies)
    };
    if fails {
        push(rt, &mut text, FAULT);
    }
    text
}

// Which of the outcomes it is.
fn place_of<R: Abort + AllocGlobal>(rt: &R, found: u8, text: &[u8]) -> Option<usize> {
    for (place, (status, replies, fails)) in OUTCOMES.iter().enumerate() {
        if found == *status && text == text_of(rt, replies, *fails).as_bytes() {
            return Some(place);
        }
    }
    None
}

// Which of the outcomes a session has where this call fails.
fn outcome_of<R: Abort + AllocGlobal>(rt: &R, stage: &Stage, fails: u64) -> Option<usize> {
    let disk = memory_disk(rt, 512, stage.image.as_slice(), &[fails]);
    let (status, text, _disk) = answer_over(rt, &["play"], stage.script.as_str(), disk);
    place_of(rt, status, text.as_slice())
}

#[test]
fn one_failed_call_is_told(rt: HostRuntime) {
    let stage = Stage::new(&rt, REQUESTS);
    let mut before = 0;
    for fails in 0..8_192 {
        let outcome = outcome_of(&rt, &stage, fails);
        holds_in(&rt, outcome.is_some(), fails);
        let now = outcome.unwrap_or(0);
        holds_in(&rt, before <= now, fails);
        before = now;
        if now == 3 {
            return;
        }
    }
    always_told(&rt);
}

fn always_told(rt: &impl Abort) {
    panic!(rt; "always told")
}
