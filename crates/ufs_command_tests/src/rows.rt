// The worked rows of the file calls, each a client's requests and their replies.
use crate::calls::{Call, check_new, playing};
use crate::trees::making;
use std::alloc::AllocGlobal;
use std::process::Abort;

// Requests between semicolons, and replies between slashes.
const ROWS: [(&str, &str); 9] = [
    (
        "open /f rw creat;write 3 68656c6c6f;seek 3 set 0;read 3 10;read 3 1;close 3",
        "fd 3/n 5/at 0/data 68656c6c6f/data -/ok",
    ),
    (
        "open /f rw creat;pwrite 3 61 4096;pread 3 2 4095;seek 3 cur 0;seek 3 end 0",
        "fd 3/n 1/data 0061/at 0/at 4097",
    ),
    (
        "open /f r;open /f r excl;read 3 1",
        "err ENOENT/err EINVAL/err EBADF",
    ),
    (
        "mkdir /a;mkdir /a/b;rename /a /a/b/c;rename /a /a;rmdir /a;rmdir /;unlink /a",
        "ok/ok/err EINVAL/ok/err ENOTEMPTY/err EBUSY/err EPERM",
    ),
    (
        "mkdir /a;mkdir /a/b;open /a/b/f rw creat;write 3 61;rename /a /c;stat /c/b/f;list /c/b;stat /a;stat /c;pread 3 9 0",
        "ok/ok/fd 3/n 1/ok/file 1/names 1 f/err ENOENT/dir 1/data 61",
    ),
    (
        "mkdir /d;open /d/b rw creat;open /d/a rw creat excl;list /d;stat /d;stat /d/a;open /d w;open /d r;read 5 1;fsync 5;open /d/a rw creat excl;open /d/a/x r;mkdir /e;rename /d/a /e;rename /e /d/a;rmdir /d/a;list /",
        "ok/fd 3/fd 4/names 2 a b/dir 2/file 0/err EISDIR/fd 5/err EISDIR/ok/err EEXIST/err ENOTDIR/ok/err EISDIR/err ENOTDIR/err ENOTDIR/names 2 d e",
    ),
    (
        "open /f rw creat;write 3 6162;unlink /f;pread 3 9 0;close 3;open /f r",
        "fd 3/n 2/ok/data 6162/ok/err ENOENT",
    ),
    (
        "open /f rw creat;write 3 616263;open /f w append;write 4 64;seek 4 cur 0;pwrite 4 7a 0;pread 3 9 0;read 4 1;trunc 3 2;trunc 3 4;pread 3 9 0;open /f r;trunc 5 0;seek 3 set -1;seek 3 set 1099511627775;seek 3 cur 1;write 3 -;write 3 61",
        "fd 3/n 3/fd 4/n 1/at 4/n 1/data 7a626364/err EBADF/ok/ok/data 7a620000/fd 5/err EINVAL/err EINVAL/at 1099511627775/err EINVAL/n 0/err EFBIG",
    ),
    (
        "mkdir /db;open /db/t w creat excl;write 3 61626364;fsync 3;rename /db/t /db/conf;open /db r;fsync 4;sync;list /db;stat /db/conf",
        "ok/fd 3/n 4/ok/ok/fd 4/ok/ok/names 1 conf/file 4",
    ),
];

// Scripts that break, and the lines that tell it.
const BROKEN: [(&str, &str); 12] = [
    ("client 0\nfrob\n", "ufs: line 2: BadWord\n"),
    ("client 0\nschedule 1\nend\n", "ufs: line 2: NotBuilt\n"),
    (
        "client 0\n\nschedule 2\nc0 w1 p l m2:/f t9\nend\n",
        "ufs: line 3: NotBuilt\n",
    ),
    ("schedule 9\nend\n", "ufs: line 1: BadNumber\n"),
    ("schedule 1\nc0\nend\n", "ufs: line 2: BadNumber\n"),
    ("sync\n", "ufs: line 1: NoClient\n"),
    ("client 1\n", "ufs: line 1: BadNumber\n"),
    ("client 0\nwrite 3 6\n", "ufs: line 2: BadData\n"),
    (
        "client 0\n\nopen /f r creat creat\n",
        "ufs: line 3: BadWord\n",
    ),
    ("client 0\nsync\n", "ufs: line 2: NoEnd\n"),
    ("client 0\nend\nsync\n", "ufs: line 3: AfterEnd\n"),
    ("", "ufs: line 0: NoEnd\n"),
];

pub fn push(rt: &impl Abort, all: &mut String, text: &str) {
    all.push_str(text).expect(rt, "memory");
}

/// A script of one client, from its requests.
pub fn script_of<R: Abort + AllocGlobal>(rt: &R, requests: &str) -> String {
    let mut script = repeated(rt, &[("client 0\n", 1)]);
    for request in requests.split(';') {
        push(rt, &mut script, request);
        push(rt, &mut script, "\n");
    }
    push(rt, &mut script, "end\n");
    script
}

/// Its reply lines.
pub fn lines_of<R: Abort + AllocGlobal>(rt: &R, replies: &str) -> String {
    let mut lines = String::new(rt.alloc());
    for (number, reply) in replies.split('/').enumerate() {
        let line = format!(in rt.alloc(); "0.{number} {reply}\n").expect(rt, "memory");
        push(rt, &mut lines, line.as_str());
    }
    lines
}

fn push_times(rt: &impl Abort, all: &mut String, text: &str, times: u32) {
    for _time in 0..times {
        push(rt, all, text);
    }
}

/// The texts one after another, each so many times.
pub fn repeated<R: Abort + AllocGlobal>(rt: &R, texts: &[(&str, u32)]) -> String {
    let mut all = String::new(rt.alloc());
    for (text, times) in texts {
        push_times(rt, &mut all, text, *times);
    }
    all
}

// Plays a script over a new image of 256 blocks.
fn check_play<R: Abort + AllocGlobal>(rt: &R, script: &str, status: u8, text: &str) {
    check_new(rt, 2_048, &[making(), playing(script, status, text)]);
}

/// Plays requests over a new image, which is made so on a disk of so many sectors.
pub fn check_on<R: Abort + AllocGlobal>(
    rt: &R,
    sectors: u32,
    making: Call,
    requests: &str,
    replies: &str,
) {
    let script = script_of(rt, requests);
    let lines = lines_of(rt, replies);
    let call = playing(script.as_str(), 0, lines.as_str());
    check_new(rt, sectors, &[making, call]);
}

/// Plays them over a new image of 256 blocks.
pub fn check_row<R: Abort + AllocGlobal>(rt: &R, requests: &str, replies: &str) {
    check_on(rt, 2_048, making(), requests, replies);
}

#[test]
fn requests_are_answered(rt: HostRuntime) {
    for (requests, replies) in &ROWS {
        check_row(&rt, requests, replies);
    }
}

#[test]
fn broken_scripts_are_told_with_their_line(rt: HostRuntime) {
    for (script, line) in &BROKEN {
        check_play(&rt, script, 2, line);
    }
}

#[test]
fn clients_are_served_one_after_another(rt: HostRuntime) {
    check_play(
        &rt,
        "client 0\nopen /a rw creat\n# a note\nwrite 3 6f6c64\nclient 1\n\topen  /a r\r\nread 3 9\nend",
        0,
        "0.0 fd 3\n0.1 n 3\n1.0 fd 3\n1.1 data 6f6c64\n",
    );
}

// A component of 58 bytes, one of 59, a path of 1,024 bytes, and four more.
const PATHS: [(&str, u32); 7] = [
    ("mkdir /", 1),
    ("a", 58),
    (";mkdir /", 1),
    ("a", 59),
    (";mkdir ", 1),
    ("/a", 512),
    (";mkdir /a/;mkdir a;mkdir \"\";mkdir //", 1),
];

#[test]
fn texts_of_paths_are_refused(rt: HostRuntime) {
    let requests = repeated(&rt, &PATHS);
    check_row(
        &rt,
        requests.as_str(),
        "ok/err ENAMETOOLONG/err ENAMETOOLONG/err EINVAL/err EINVAL/err ENOENT/err EEXIST",
    );
}

// No descriptor is told before the path's text, which is looked at later.
const OPENING: [(&str, u32); 3] = [
    ("open /f rw creat", 1),
    (";open /f r", 63),
    (";open f r;open /f r excl;close 10;open /f r", 1),
];

// The replies: each descriptor from 3 to 66, and then no more of them.
fn opened<R: Abort + AllocGlobal>(rt: &R) -> String {
    let mut replies = repeated(rt, &[("fd 3", 1)]);
    for fd in 4..67u32 {
        let reply = format!(in rt.alloc(); "/fd {fd}").expect(rt, "memory");
        push(rt, &mut replies, reply.as_str());
    }
    push(rt, &mut replies, "/err EMFILE/err EINVAL/ok/fd 10");
    replies
}

#[test]
fn descriptors_run_out_and_come_back(rt: HostRuntime) {
    let requests = repeated(&rt, &OPENING);
    let replies = opened(&rt);
    check_row(&rt, requests.as_str(), replies.as_str());
}
