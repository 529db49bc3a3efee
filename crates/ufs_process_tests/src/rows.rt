// Sessions over a mirror of which a leg fails, and legs that make none.
use crate::asserts::{are_bytes, same};
use crate::legs::{Images, calmly, command, left, leg, made, zeros};
use std::alloc::AllocGlobal;
use std::process::Abort;
use ufs_base::SECTOR;
use ufs_disk::{Call, MemoryDisk, Request};

const SECTORS: usize = 2_049;

fn new_mirror<R: Abort + AllocGlobal>(rt: &R) -> Images {
    made(rt, SECTORS, "mkfs 256 32 64", "made 256 32 64 242\n")
}

const GREETING: &str =
    "open /f rw creat;write 3 68656c6c6f;seek 3 set 0;read 3 10;read 3 1;close 3";

const GREETED: &str = "0.0 fd 3\n0.1 n 5\n0.2 at 0\n0.3 data 68656c6c6f\n0.4 data -\n0.5 ok\n";

const GREETING_TREE: &str = "dir /\nfile /f 5 68656c6c6f\n";

fn is_barrier(call: &Call) -> bool {
    matches!(call.request, Request::Barrier)
}

fn is_write(call: &Call) -> bool {
    matches!(call.request, Request::Write { .. })
}

fn not_found(rt: &impl Abort) {
    panic!(rt; "no such call")
}

// The number of the barrier that so many are before.
fn barrier_behind(rt: &impl Abort, calls: &[Call], before: u64) -> u64 {
    let mut seen = 0u64;
    for (number, call) in calls.iter().enumerate() {
        if is_barrier(call) {
            if seen == before {
                return number as u64;
            }
            seen = seen.saturating_add(1);
        }
    }
    not_found(rt);
    0
}

// The number of the third write behind the call of this number.
fn third_write(rt: &impl Abort, calls: &[Call], from: u64) -> u64 {
    let mut seen = 0u64;
    for (number, call) in calls.iter().enumerate() {
        if number as u64 > from && is_write(call) {
            if seen == 2 {
                return number as u64;
            }
            seen = seen.saturating_add(1);
        }
    }
    not_found(rt);
    0
}

// The legs that were played over in calm, with lists of their calls. An opening's last call is the second barrier of the leg
// that is picked, and the third of the other.
fn played<R: Abort + AllocGlobal>(
    rt: &R,
    images: &Images,
    line: &str,
    requests: &str,
) -> (MemoryDisk, MemoryDisk) {
    let first = leg(rt, images.first.as_slice(), &[]);
    let second = leg(rt, images.second.as_slice(), &[]);
    let answer = command(rt, line, requests, first, second);
    same(rt, answer.status, 0);
    (answer.first, answer.second)
}

// A session goes on where one leg fails. The next opening makes both alike.
#[test]
fn a_leg_that_fails_stops_nothing(rt: HostRuntime) {
    let images = new_mirror(&rt);
    let (_first, second) = played(&rt, &images, "play", GREETING);
    let calls = second.medium.calls.as_slice();
    let fails = third_write(&rt, calls, barrier_behind(&rt, calls, 2));
    let one = leg(&rt, images.first.as_slice(), &[]);
    let other = leg(&rt, images.second.as_slice(), &[fails]);
    let answer = command(&rt, "play", GREETING, one, other);
    are_bytes(&rt, answer.text.as_slice(), GREETED.as_bytes());
    same(&rt, answer.status, 0);
    let apart = left(&rt, answer);
    let joined = calmly(&rt, "tree", "", &apart, 0, GREETING_TREE);
    are_bytes(&rt, joined.first.as_slice(), joined.second.as_slice());
    calmly(&rt, "check", "", &joined, 0, "clean\n");
}

const SYNCS: &str = "open /f rw creat;write 3 61;fsync 3;fsync 3;pread 3 1 0";

const STOPPED: &str =
    "0.0 fd 3\n0.1 n 1\n0.2 err EIO\n0.3 err EIO\n0.4 data 61\n# 0 0.0 by p\n# 1 0.1 by p\n# 2 0.2 by p excuse device 1\n# 3 0.3 by p excuse stopped 1\n# 4 0.4 by p\nufs: device fault 1\n";

// Both legs fail at the first barrier behind the session's opening, whose last call is one too.
#[test]
fn both_legs_that_fail_stop_the_session(rt: HostRuntime) {
    let images = new_mirror(&rt);
    let (first, second) = played(&rt, &images, "play --trace", SYNCS);
    let one = barrier_behind(&rt, first.medium.calls.as_slice(), 3);
    let other = barrier_behind(&rt, second.medium.calls.as_slice(), 4);
    let answer = command(
        &rt,
        "play --trace",
        SYNCS,
        leg(&rt, images.first.as_slice(), &[one]),
        leg(&rt, images.second.as_slice(), &[other]),
    );
    are_bytes(&rt, answer.text.as_slice(), STOPPED.as_bytes());
    same(&rt, answer.status, 4);
}

// A leg is replaced by zeros: the other has all, and the next opening makes both alike.
#[test]
fn a_leg_of_zeros_is_made_whole(rt: HostRuntime) {
    let images = new_mirror(&rt);
    let whole = calmly(&rt, "play", GREETING, &images, 0, GREETED);
    are_bytes(&rt, whole.first.as_slice(), whole.second.as_slice());
    let second = Images {
        first: zeros(&rt, SECTORS),
        second: whole.second,
    };
    let again = calmly(&rt, "tree", "", &second, 0, GREETING_TREE);
    are_bytes(&rt, again.first.as_slice(), again.second.as_slice());
    let first = Images {
        first: again.first,
        second: zeros(&rt, SECTORS),
    };
    let last = calmly(&rt, "tree", "", &first, 0, GREETING_TREE);
    are_bytes(&rt, last.first.as_slice(), last.second.as_slice());
}

// Each row: a command, the numbers of sectors of two legs of zeros, which call of the first one fails, and what is told. Legs
// that make no mirror are left as they are.
const REFUSED: [(&str, usize, usize, &[u64], u8, &str); 12] = [
    ("play", 9, 9, &[], 3, "ufs: mirror: NoLabel\n"),
    ("tree", 9, 9, &[], 3, "ufs: mirror: NoLabel\n"),
    ("recover", 9, 8, &[], 3, "ufs: mirror: Unequal\n"),
    ("mkfs 256 32 64", 9, 8, &[], 3, "ufs: mirror: Unequal\n"),
    ("check", 1, 1, &[], 3, "ufs: mirror: TooSmall\n"),
    ("mkfs 256 32 64", 1, 1, &[], 3, "ufs: mirror: TooSmall\n"),
    ("play --trace", 9, 9, &[0], 4, "ufs: device fault 1\n"),
    ("mkfs 256 32 64", 9, 9, &[0], 4, "ufs: device fault 1\n"),
    ("play --lease 5", 9, 8, &[0], 2, "ufs: line 0: NotBuilt\n"),
    ("run 2", 9, 8, &[0], 1, "usage: ufs COMMAND [WORDS]\n"),
    ("frob", 9, 8, &[0], 1, "usage: ufs COMMAND [WORDS]\n"),
    (
        "tree --trace",
        1,
        1,
        &[0],
        1,
        "usage: ufs COMMAND [WORDS]\n",
    ),
];

#[test]
fn legs_that_make_no_mirror_are_told(rt: HostRuntime) {
    for (line, one, other, fails, status, text) in REFUSED {
        let first = leg(&rt, zeros(&rt, one).as_slice(), fails);
        let second = leg(&rt, zeros(&rt, other).as_slice(), &[]);
        let answer = command(&rt, line, "frob", first, second);
        are_bytes(&rt, answer.text.as_slice(), text.as_bytes());
        same(&rt, answer.status, status);
        let images = left(&rt, answer);
        are_bytes(&rt, images.first.as_slice(), zeros(&rt, one).as_slice());
        are_bytes(&rt, images.second.as_slice(), zeros(&rt, other).as_slice());
    }
}

// Each row: a command over two legs of which one call fails, of the first one or of the second, and the status. The one that is
// picked fails at its label, in the copy, and at its next label; the other at its label.
const FAULTS: [(&str, &[u64], &[u64]); 8] = [
    ("play", &[0], &[]),
    ("tree", &[1], &[]),
    ("check", &[40], &[]),
    ("recover", &[67], &[]),
    ("play", &[], &[0]),
    ("tree", &[], &[1]),
    ("mkfs 64 32 64", &[], &[0]),
    ("mkfs 64 32 64", &[], &[64]),
];

#[test]
fn a_fault_of_either_leg_is_told(rt: HostRuntime) {
    let images = made(&rt, 513, "mkfs 64 32 64", "made 64 32 64 50\n");
    for (line, one, other) in FAULTS {
        let first = leg(&rt, images.first.as_slice(), one);
        let second = leg(&rt, images.second.as_slice(), other);
        let answer = command(&rt, line, "frob", first, second);
        are_bytes(
            &rt,
            answer.text.as_slice(),
            b"ufs: device fault 1\n".as_slice(),
        );
        same(&rt, answer.status, 4);
    }
}

// The last byte of a label is another one: it is none.
#[test]
fn a_label_with_a_wrong_byte_is_none(rt: HostRuntime) {
    let mut images = made(&rt, 513, "mkfs 64 32 64", "made 64 32 64 50\n");
    let last = 513 * SECTOR - 1;
    if last < images.first.len() && last < images.second.len() {
        images.first[last] ^= 1;
        images.second[last] ^= 1;
    }
    calmly(&rt, "tree", "", &images, 3, "ufs: mirror: NoLabel\n");
}
