// Asserting by a call: an assertion that is written out makes the proof of its test much longer.
use std::process::Abort;

pub fn holds(rt: &impl Abort, fact: bool) {
    assert!(rt; fact);
}
