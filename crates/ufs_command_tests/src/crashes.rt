// Sessions over disks that fail: which replies tell it, and what a crash leaves.
use crate::asserts::{are_bytes, holds, holds_in, same};
use crate::calls::calm;
use crate::rows::{push, repeated, script_of};
use crate::stops::{
    Answer, Stage, always_stopped, calmly, has, image, is_whole, make_call, tree_left,
};
use std::alloc::AllocGlobal;
use std::process::Abort;

const TWO_SYNCS: &str = "open /f rw creat;write 3 61616161;fsync 3;write 3 6262;fsync 3";

const NONE: &[u8] = b"dir /\n";

const EMPTY: &[u8] = b"dir /\nfile /f 0 -\n";

const FIRST: &[u8] = b"dir /\nfile /f 4 61616161\n";

const BOTH: &[u8] = b"dir /\nfile /f 6 616161616262\n";

// Whether a tree may be left where the first sync was told, or both.
fn may_be_left(tree: &[u8], first: bool, both: bool) -> bool {
    tree == BOTH || (!both && tree == FIRST) || (!first && (tree == EMPTY || tree == NONE))
}

// Asserts that what a session told as synced is left.
fn keeps_synced<R: Abort + AllocGlobal>(rt: &R, session: &Answer, passes: u64) {
    let first = has(session.text.as_slice(), b"0.2 ok\n");
    let both = has(session.text.as_slice(), b"0.4 ok\n");
    let tree = tree_left(rt, session.left.as_slice());
    holds_in(rt, may_be_left(tree.as_slice(), first, both), passes);
}

#[test]
fn what_was_synced_outlives_any_stop(rt: HostRuntime) {
    let stage = Stage::new(&rt, TWO_SYNCS);
    for passes in 0..2_000 {
        let session = stage.play(&rt, passes, passes % 8);
        keeps_synced(&rt, &session, passes);
        if is_whole(&rt, session.status, passes) {
            return;
        }
    }
    always_stopped(&rt);
}

// Asserts that the session is stopped where so many calls pass, what its text has, and which tree is left.
fn stops<R: Abort + AllocGlobal>(
    rt: &R,
    stage: &Stage,
    passes: u64,
    pick: u64,
    text: &[u8],
    tree: &[u8],
) {
    let session = stage.play(rt, passes, pick);
    same(rt, session.status, 4);
    holds(rt, has(session.text.as_slice(), text));
    are_bytes(rt, tree_left(rt, session.left.as_slice()).as_slice(), tree);
}

// The last call that passes is the barrier behind the second commit, or the one before that commit's sector.
#[test]
fn a_commit_is_whole_or_not_there(rt: HostRuntime) {
    let stage = Stage::new(&rt, TWO_SYNCS);
    let last = stage.least(&rt, b"0.4 ok\n");
    holds(&rt, last > 2);
    for pick in 0..8 {
        stops(&rt, &stage, last, pick, b"0.4 ok\n", BOTH);
        stops(&rt, &stage, last - 2, pick, b"0.4 err EIO\n", FIRST);
    }
}

// A file of 100 bytes; its line shows 64 of them.
const OVERWRITTEN: &str = "open /f rw creat;write 3 100*61;fsync 3;pwrite 3 10*62 0";

const OLD: [(&str, u32); 3] = [("dir /\nfile /f 100 ", 1), ("61", 64), ("+\n", 1)];

const NEW: [(&str, u32); 4] = [
    ("dir /\nfile /f 100 ", 1),
    ("62", 10),
    ("61", 54),
    ("+\n", 1),
];

fn is_tree<R: Abort + AllocGlobal>(rt: &R, found: &[u8], wanted: &[(&str, u32)]) -> bool {
    found == repeated(rt, wanted).as_bytes()
}

// Whether the session ends well where so many calls pass. The file has all its old bytes or all its new ones.
fn closes<R: Abort + AllocGlobal>(rt: &R, stage: &Stage, passes: u64, pick: u64) -> bool {
    let session = stage.play(rt, passes, pick);
    let tree = tree_left(rt, session.left.as_slice());
    let tree = tree.as_slice();
    holds(rt, is_tree(rt, tree, &OLD) || is_tree(rt, tree, &NEW));
    session.status == 0
}

#[test]
fn a_stop_of_the_closing_keeps_what_was_synced(rt: HostRuntime) {
    let stage = Stage::new(&rt, OVERWRITTEN);
    let closing = stage.least(&rt, b"0.2 ok\n0.3 n 10\n");
    holds(&rt, closing <= 8_192);
    for passes in closing..closing + 1_000 {
        let mut whole = false;
        for pick in 0..4 {
            whole = closes(&rt, &stage, passes, pick);
        }
        if whole {
            return;
        }
    }
    always_stopped(&rt);
}

// The session over a disk that passes the least number of calls with which its text has these bytes.
fn just_told<R: Abort + AllocGlobal>(rt: &R, stage: &Stage, text: &[u8]) -> Answer {
    let last = stage.least(rt, text);
    stage.play(rt, last, 0)
}

// Recovers an image, and gives what is left.
fn recovers<R: Abort + AllocGlobal>(rt: &R, image: &[u8], text: &[u8]) -> Vec<u8> {
    let recovered = calmly(rt, &["recover"], image);
    are_bytes(rt, recovered.text.as_slice(), text);
    recovered.left
}

const COMMITS: [(&str, u32); 2] = [("open /f rw creat", 1), (";write 3 61;fsync 3", 200)];

// What a crash leaves behind 200 commits.
fn many_commits<R: Abort + AllocGlobal>(rt: &R) -> Vec<u8> {
    let stage = Stage::new(rt, repeated(rt, &COMMITS).as_str());
    let session = just_told(rt, &stage, b"0.400 ok\n");
    same(rt, session.status, 4);
    holds(rt, has(session.text.as_slice(), b"\nufs: device fault 1\n"));
    session.left
}

#[test]
fn a_journal_of_many_commits_is_recovered(rt: HostRuntime) {
    let left = many_commits(&rt);
    let recovered = recovers(&rt, left.as_slice(), b"recovered 9\n");
    let tree = calmly(&rt, &["tree"], recovered.as_slice()).text;
    holds(&rt, tree.starts_with(b"dir /\nfile /f 200 6161"));
    recovers(&rt, recovered.as_slice(), b"recovered 0\n");
    check_stopped_recovery(&rt, left.as_slice(), tree.as_slice());
}

// Whether a recovery ends well where so many calls pass. What is left of it has the tree.
fn recovers_at<R: Abort + AllocGlobal>(
    rt: &R,
    left: &[u8],
    tree: &[u8],
    passes: u64,
    pick: u64,
) -> bool {
    let stopped = make_call(rt, &["recover"], "", left, passes, pick);
    are_bytes(rt, tree_left(rt, stopped.left.as_slice()).as_slice(), tree);
    stopped.status == 0
}

// A recovery that is stopped at any call leaves what another one takes.
fn check_stopped_recovery<R: Abort + AllocGlobal>(rt: &R, left: &[u8], tree: &[u8]) {
    for passes in 0..1_000 {
        let mut whole = false;
        for pick in 0..4 {
            whole = recovers_at(rt, left, tree, passes, pick);
        }
        if whole {
            return;
        }
    }
    always_stopped(rt);
}

// Paths of two digits, from this number to 64, each between two texts.
fn push_paths<R: Abort + AllocGlobal>(
    rt: &R,
    all: &mut String,
    before: &str,
    from: u32,
    after: &str,
) {
    for number in from..65 {
        let (tens, ones) = (number / 10, number % 10);
        let path = format!(in rt.alloc(); "{before}/{tens}{ones}{after}").expect(rt, "memory");
        push(rt, all, path.as_str());
    }
}

// Requests on an image of 128 inodes: 65 directories are made and one is removed before one sync.
fn births<R: Abort + AllocGlobal>(rt: &R) -> Stage {
    let mut requests = String::new(rt.alloc());
    push_paths(rt, &mut requests, "mkdir ", 0, ";");
    push(rt, &mut requests, "rmdir /00;sync");
    let made = calm(&["mkfs", "256", "128", "64"], 0, "made 256 128 64 230\n");
    Stage {
        script: script_of(rt, requests.as_str()),
        image: image(rt, 2_048, made),
    }
}

#[test]
fn a_birth_and_its_end_in_one_commit(rt: HostRuntime) {
    let left = just_told(&rt, &births(&rt), b"0.66 ok\n").left;
    recovers(&rt, left.as_slice(), b"recovered 1\n");
    let mut tree = repeated(&rt, &[("dir /\n", 1)]);
    push_paths(&rt, &mut tree, "dir ", 1, "\n");
    let found = tree_left(&rt, left.as_slice());
    are_bytes(&rt, found.as_slice(), tree.as_bytes());
}
