// Printed histories over images: what a session prints is legal, and what it doesn't isn't.
use crate::calls::{Call, bytes, calm, check_calls, check_new, check_over, memory_disk, words};
use crate::examples::EXAMPLES;
use crate::trees::{making, making_large};
use std::alloc::AllocGlobal;
use std::process::Abort;
use ufs_command::quiet;
use ufs_disk::{Disk, PlainDisk};
use ufs_io::{MemorySink, MemorySource};

const SCRIPT: &str =
    "client 0\nopen /f rw creat\nwrite 3 6162\npread 3 9 0\nclient 1\nopen /f r\nend\n";

const REPLIES: &str = "0.0 fd 3\n0.1 n 2\n0.2 data 6162\n1.0 fd 3\n";

const TRACE: &str = "# 0 0.0 by p\n# 1 1.0 by p\n# 2 0.1 by p\n# 3 0.2 by c0\n";

// Replies and a trace, the status, and the text.
const TEXTS: [(&str, &str, u8, &str); 12] = [
    (REPLIES, TRACE, 0, "legal 4\n"),
    // Another order, at which each reply is the same, and who served a request.
    (
        REPLIES,
        "# 0 0.0 by w7\n# 1 0.1 by c12 via p,w0\n# 2 0.2 by p\n# 3 1.0 by p\n",
        0,
        "legal 4\n",
    ),
    ("", "", 9, "ufs: audit: ticket 0: Text\n"),
    (REPLIES, "", 9, "ufs: audit: ticket 0: Text\n"),
    // A line that is missing at the end, one too many, and one that is none.
    (
        REPLIES,
        "# 0 0.0 by p\n# 1 1.0 by p\n# 2 0.1 by p\n",
        9,
        "ufs: audit: ticket 3: Text\n",
    ),
    (
        REPLIES,
        "# 0 0.0 by p\n# 1 1.0 by p\n# 2 0.1 by p\n# 3 0.2 by c0\n# 4 0.3 by p\n",
        9,
        "ufs: audit: ticket 4: Text\n",
    ),
    (
        REPLIES,
        "# 0 0.0 by p\n# 1 1.0 by q\n# 2 0.1 by p\n# 3 0.2 by c0\n",
        9,
        "ufs: audit: ticket 1: Text\n",
    ),
    // A client's second request before its first.
    (
        REPLIES,
        "# 0 0.1 by p\n# 1 1.0 by p\n# 2 0.0 by p\n# 3 0.2 by c0\n",
        9,
        "ufs: audit: ticket 0: Order\n",
    ),
    // A file that isn't there yet, and bytes that aren't.
    (
        REPLIES,
        "# 0 1.0 by p\n# 1 0.0 by p\n# 2 0.1 by p\n# 3 0.2 by c0\n",
        9,
        "ufs: audit: ticket 0: Reply\n",
    ),
    (
        REPLIES,
        "# 0 0.0 by p\n# 1 1.0 by p\n# 2 0.1 by p\n# 3 0.2 by c0 excuse memory\n",
        9,
        "ufs: audit: ticket 3: Reply\n",
    ),
    // Want of room, where there was as much as is told to be wanted.
    (
        "0.0 fd 3\n0.1 err ENOSPC\n0.2 data -\n1.0 fd 3\n",
        "# 0 0.0 by p\n# 1 1.0 by p\n# 2 0.1 by p excuse blocks 1 0\n# 3 0.2 by c0\n",
        0,
        "legal 4\n",
    ),
    (
        "0.0 fd 3\n0.1 err ENOSPC\n0.2 data -\n1.0 fd 3\n",
        "# 0 0.0 by p\n# 1 1.0 by p\n# 2 0.1 by p excuse blocks 1 1\n# 3 0.2 by c0\n",
        9,
        "ufs: audit: ticket 2: Excuse\n",
    ),
];

// An audit of this script and text.
fn auditing<'a>(script: &'a str, status: u8, text: &'a str) -> Call<'a> {
    Call {
        script,
        ..calm(&["audit"], status, text)
    }
}

fn joined<R: Abort + AllocGlobal>(rt: &R, parts: &[&str]) -> String {
    let mut text = String::new(rt.alloc());
    for part in parts {
        text.push_str(part).expect(rt, "memory");
    }
    text
}

#[test]
fn each_text_has_its_verdict(rt: HostRuntime) {
    for (replies, trace, status, text) in &TEXTS {
        let script = joined(&rt, &[SCRIPT, replies, trace]);
        check_new(
            &rt,
            2_048,
            &[making(), auditing(script.as_str(), *status, text)],
        );
    }
}

// A file that takes all room, which an `fsync` gives back.
const ROOM: &str =
    "client 0\nopen /f rw creat\nwrite 3 987136*61\nwrite 3 61\ntrunc 3 0\npwrite 3 61 0\nfsync 3\npwrite 3 61 0\nend\n";

const ROOM_TEXT: &str =
    "0.0 fd 3\n0.1 n 987136\n0.2 err ENOSPC\n0.3 ok\n0.4 err ENOSPC\n0.5 ok\n0.6 n 1\n# 0 0.0 by p\n# 1 0.1 by p\n# 2 0.2 by p excuse blocks 1 0\n# 3 0.3 by p\n# 4 0.4 by p excuse blocks 1 0\n# 5 0.5 by p\n# 6 0.6 by p\n";

// A barrier that fails, and a store that has stopped.
const STOPS: &str = "client 0\nopen /f rw creat\nwrite 3 61\nfsync 3\nfsync 3\npread 3 1 0\nend\n";

const STOPS_TEXT: &str =
    "0.0 fd 3\n0.1 n 1\n0.2 err EIO\n0.3 err EIO\n0.4 data 61\n# 0 0.0 by p\n# 1 0.1 by p\n# 2 0.2 by p excuse device 1\n# 3 0.3 by p excuse stopped 1\n# 4 0.4 by p\n";

// A file that goes to a worker and comes back, while one client reads what the other writes.
const WORKED: &str =
    "client 0\nopen /f rw creat\nwrite 3 6162\nclient 1\nopen /f r\nread 3 2\nend\n";

const WORKED_TEXT: &str =
    "0.0 fd 3\n0.1 n 2\n1.0 fd 3\n1.1 data 6162\n# 0 0.0 by p\n# 1 0.1 by p\n# 2 1.0 by p\n# 3 1.1 by w1 via w2,p\n";

// A client that reads by a lease, which ends before the other writes.
const LEASED: &str =
    "client 0\nopen /f rw creat\nwrite 3 6161\npwrite 3 6262 0\nclient 1\nopen /f r\npread 3 2 0\npread 3 2 0\npread 3 2 0\nend\n";

const LEASED_FRONT: &str =
    "0.0 fd 3\n0.1 n 2\n0.2 n 2\n1.0 fd 3\n1.1 data 6161\n1.2 data 6161\n1.3 data 6262\n# 0 0.0 by p\n# 1 0.1 by p\n# 2 1.0 by p\n# 3 1.1 by p\n";

// A script, what is printed of it in two parts, the status, and the text.
const SESSIONS: [(&str, &str, &str, u8, &str); 7] = [
    (ROOM, ROOM_TEXT, "", 0, "legal 7\n"),
    (STOPS, STOPS_TEXT, "", 0, "legal 5\n"),
    // with the line that tells how the session ended
    (
        STOPS,
        STOPS_TEXT,
        "ufs: device fault 1\n",
        9,
        "ufs: audit: ticket 5: Text\n",
    ),
    (WORKED, WORKED_TEXT, "", 0, "legal 4\n"),
    (
        LEASED,
        LEASED_FRONT,
        "# 4 1.2 by c1\n# 5 0.2 by p\n# 6 1.3 by p\n",
        0,
        "legal 7\n",
    ),
    // a read by a lease that has ended
    (
        LEASED,
        LEASED_FRONT,
        "# 4 0.2 by p\n# 5 1.2 by c1\n# 6 1.3 by p\n",
        9,
        "ufs: audit: ticket 5: Reply\n",
    ),
    (
        LEASED,
        LEASED_FRONT,
        "# 4 1.2 by c1\n# 5 0.2 by p\n",
        9,
        "ufs: audit: ticket 6: Text\n",
    ),
];

#[test]
fn sessions_of_others_are_judged(rt: HostRuntime) {
    for (script, front, rest, status, text) in &SESSIONS {
        let whole = joined(&rt, &[script, front, rest]);
        check_new(
            &rt,
            2_048,
            &[making(), auditing(whole.as_str(), *status, text)],
        );
    }
}

// A fault of the disk as the image is opened comes before what the source has, and before its fault.
#[test]
fn a_fault_of_the_opening_is_told_first(rt: HostRuntime) {
    let new = check_new(&rt, 2_048, &[making()]);
    let failing = Call {
        reads: &[0],
        ..auditing("frob\n", 4, "ufs: device fault 1\n")
    };
    check_over(
        &rt,
        &failing,
        memory_disk(&rt, 2_048, new.bytes.as_slice(), &[0]),
    );
    check_over(
        &rt,
        &failing,
        memory_disk(&rt, 2_048, new.bytes.as_slice(), &[3]),
    );
}

// A script that breaks, and one without its line `end`, which has no text.
#[test]
fn a_script_that_breaks_is_told(rt: HostRuntime) {
    check_new(
        &rt,
        2_048,
        &[
            making(),
            auditing(
                "client 0\nfrob\nend\n0.0 ok\n# 0 0.0 by p\n",
                2,
                "ufs: line 2: BadWord\n",
            ),
            auditing("client 0\nsync\n", 2, "ufs: line 2: NoEnd\n"),
        ],
    );
}

const MAKES: &str = "client 0\nmkdir /d\nend\n";

const MADE_ONCE: &str = "client 0\nmkdir /d\nend\n0.0 ok\n# 0 0.0 by p\n";

const MADE_AGAIN: &str = "client 0\nmkdir /d\nend\n0.0 err EEXIST\n# 0 0.0 by p\n";

// An audit leaves the image, so that the next one begins with the same tree.
#[test]
fn an_audit_begins_with_the_images_tree(rt: HostRuntime) {
    let disk = check_new(
        &rt,
        2_048,
        &[
            making(),
            auditing(MADE_ONCE, 0, "legal 1\n"),
            auditing(MADE_AGAIN, 9, "ufs: audit: ticket 0: Reply\n"),
            auditing(MADE_ONCE, 0, "legal 1\n"),
        ],
    );
    let made = Call {
        script: MAKES,
        ..calm(&["play"], 0, "0.0 ok\n")
    };
    check_calls(
        &rt,
        &[
            made,
            auditing(MADE_ONCE, 9, "ufs: audit: ticket 0: Reply\n"),
            auditing(MADE_AGAIN, 0, "legal 1\n"),
        ],
        disk,
    );
}

// What a script prints with its trace, over a disk.
fn printed<R: Abort + AllocGlobal, D: Disk + Drop>(rt: &R, script: &str, disk: D) -> String {
    let none: Vec<u64> = Vec::new(rt.alloc());
    let more: Vec<u64> = Vec::new(rt.alloc());
    let mut source = MemorySource::new(bytes(rt, script), none);
    let mut sink = MemorySink::new(rt.alloc(), more);
    let words = words(rt, &["play", "--trace"]);
    let _outcome = quiet(rt.alloc(), &words, &mut source, &mut sink, disk);
    let text = sink.bytes().to_vec(rt.alloc()).expect(rt, "memory");
    String::from_utf8(text).expect(rt, "text")
}

fn new_disk<R: Abort + AllocGlobal>(rt: &R) -> PlainDisk {
    check_new(rt, 65_536, &[making_large()])
}

// How many lines of a trace stand in it.
fn traced(text: &str) -> usize {
    let mut count = 0usize;
    for byte in text.as_bytes() {
        if *byte == b'#' {
            count = count.saturating_add(1);
        }
    }
    count
}

// What an audit of them reads.
fn script_and_text<R: Abort + AllocGlobal>(rt: &R, script: &str, text: &str) -> String {
    let mut whole = String::from_str(rt.alloc(), script).expect(rt, "memory");
    whole.push_str(text).expect(rt, "memory");
    whole
}

fn legal_line<R: Abort + AllocGlobal>(rt: &R, entries: usize) -> String {
    format!(in rt.alloc(); "legal {entries}\n").expect(rt, "memory")
}

#[test]
fn what_the_examples_print_is_legal(rt: HostRuntime) {
    for (_, script, status, _) in &EXAMPLES {
        if *status == 0 {
            let text = printed(&rt, script, new_disk(&rt));
            let legal = legal_line(&rt, traced(text.as_str()));
            let whole = script_and_text(&rt, script, text.as_str());
            check_over(
                &rt,
                &auditing(whole.as_str(), 0, legal.as_str()),
                new_disk(&rt),
            );
        }
    }
}
