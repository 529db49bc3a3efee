// Requests as the format has them, each as the only line of a client.
use crate::asserts::{holds, same};
use crate::scripts::{fault_of, script_of};
use std::alloc::AllocGlobal;
use std::process::Abort;
use ufs_model::{Bytes, Op, Whence};
use ufs_script::ScriptFault;

// The request of a script that has one.
fn only_request<R: Abort + AllocGlobal>(rt: &R, line: &str) -> Op {
    let text = format!(in rt.alloc(); "client 0\n{line}\nend\n").expect(rt, "memory");
    let script = script_of(rt, text.as_str());
    let mut clients = script.clients.into_vec();
    let client = clients.pop().expect(rt, "a client");
    let mut requests = client.into_vec();
    requests.pop().expect(rt, "a request")
}

// The name and the numbers of a request that has nothing else.
fn numbers_of(op: Op) -> (&'static str, [u64; 3]) {
    let found = match &op {
        Op::Close { fd } => ("close", [*fd, 0, 0]),
        Op::Read { fd, n } => ("read", [*fd, u64::from(*n), 0]),
        Op::Pread { fd, n, at } => ("pread", [*fd, u64::from(*n), *at]),
        Op::Trunc { fd, size } => ("trunc", [*fd, *size, 0]),
        Op::Fsync { fd } => ("fsync", [*fd, 0, 0]),
        Op::Sync => ("sync", [0, 0, 0]),
        _ => ("another", [0, 0, 0]),
    };
    drop(op);
    found
}

const NUMBERS: [(&str, &str, [u64; 3]); 6] = [
    ("close 003", "close", [3, 0, 0]),
    ("\tread  4 1048576 ", "read", [4, 1_048_576, 0]),
    ("pread\t6 0 7\r", "pread", [6, 0, 7]),
    (
        "trunc 8 999999999999999999",
        "trunc",
        [8, 999_999_999_999_999_999, 0],
    ),
    ("fsync 9", "fsync", [9, 0, 0]),
    ("sync", "sync", [0, 0, 0]),
];

#[test]
fn requests_of_numbers_are_read(rt: HostRuntime) {
    for (line, name, numbers) in &NUMBERS {
        let found = numbers_of(only_request(&rt, line));
        same(&rt, line, found, (*name, *numbers));
    }
}

fn seek_of(op: Op) -> Option<(u64, Whence, i64)> {
    let found = match &op {
        Op::Seek { fd, whence, by } => Some((*fd, *whence, *by)),
        _ => None,
    };
    drop(op);
    found
}

const SEEKS: [(&str, Whence, i64); 3] = [
    ("seek 3 set 18", Whence::Set, 18),
    ("seek 3 cur -18", Whence::Cur, -18),
    ("seek 3 end -0", Whence::End, 0),
];

#[test]
fn seeks_are_read(rt: HostRuntime) {
    for (line, whence, by) in &SEEKS {
        let found = seek_of(only_request(&rt, line));
        same(&rt, line, found, Some((3, *whence, *by)));
    }
}

fn writes(op: Op, text: &str) -> bool {
    let found = matches!(&op, Op::Write { fd: 5, bytes } if bytes.as_slice() == text.as_bytes());
    drop(op);
    found
}

fn writes_at_nine(op: Op, text: &str) -> bool {
    let found =
        matches!(&op, Op::Pwrite { fd: 7, bytes, at: 9 } if bytes.as_slice() == text.as_bytes());
    drop(op);
    found
}

const WRITES: [(&str, &str); 4] = [
    ("write 5 61627F", "ab\u{7f}"),
    ("write 5 -", ""),
    ("write 5 003*0a", "\n\n\n"),
    ("write 5 1*6B", "k"),
];

#[test]
fn writes_are_read(rt: HostRuntime) {
    for (line, text) in &WRITES {
        holds(&rt, line, writes(only_request(&rt, line), text));
    }
    let line = "pwrite 7 61 9";
    holds(&rt, line, writes_at_nine(only_request(&rt, line), "a"));
}

// The path of a request that has one alone.
fn path_in(op: &Op) -> Option<&Bytes> {
    match op {
        Op::Mkdir { path } => Some(path),
        Op::Rmdir { path } => Some(path),
        Op::Unlink { path } => Some(path),
        Op::Stat { path } => Some(path),
        Op::List { path } => Some(path),
        _ => None,
    }
}

fn has_path(op: Op, text: &str) -> bool {
    let found = path_in(&op).is_some_and(|path| path.as_slice() == text.as_bytes());
    drop(op);
    found
}

fn renames(op: Op, old: &str, new: &str) -> bool {
    let found = match &op {
        Op::Rename { from, to } => {
            from.as_slice() == old.as_bytes() && to.as_slice() == new.as_bytes()
        }
        _ => false,
    };
    drop(op);
    found
}

const PATHS: [(&str, &str); 5] = [
    ("mkdir a/../b", "a/../b"),
    ("rmdir #", "#"),
    ("unlink \"\"", ""),
    ("stat \"", "\""),
    ("list /", "/"),
];

#[test]
fn any_word_is_a_path(rt: HostRuntime) {
    for (line, text) in &PATHS {
        holds(&rt, line, has_path(only_request(&rt, line), text));
    }
    let line = "rename \"\" /t";
    holds(&rt, line, renames(only_request(&rt, line), "", "/t"));
}

// Of an opening of `/f` whether it reads and writes, and its flags `creat`, `excl`, `trunc` and `append`.
fn opening_of(op: Op) -> Option<([bool; 2], [bool; 4])> {
    let found = match &op {
        Op::OpenFile {
            path,
            read,
            write,
            creat,
            excl,
            trunc,
            append,
        } if path.as_slice() == b"/f".as_slice() => {
            Some(([*read, *write], [*creat, *excl, *trunc, *append]))
        }
        _ => None,
    };
    drop(op);
    found
}

const OPENINGS: [(&str, [bool; 2], [bool; 4]); 4] = [
    ("open /f r", [true, false], [false, false, false, false]),
    (
        "open /f w trunc",
        [false, true],
        [false, false, true, false],
    ),
    (
        "open /f rw append excl",
        [true, true],
        [false, true, false, true],
    ),
    (
        "open /f r append trunc excl creat",
        [true, false],
        [true, true, true, true],
    ),
];

#[test]
fn openings_are_read(rt: HostRuntime) {
    for (line, modes, flags) in &OPENINGS {
        let found = opening_of(only_request(&rt, line));
        same(&rt, line, found, Some((*modes, *flags)));
    }
}

const WORD: ScriptFault = ScriptFault::BadWord { line: 2 };

const NUMBER: ScriptFault = ScriptFault::BadNumber { line: 2 };

const DATA: ScriptFault = ScriptFault::BadData { line: 2 };

const WRONG_WORDS: [(&str, ScriptFault); 43] = [
    ("open", WORD),
    ("open /f", WORD),
    ("open /f wr creat", WORD),
    ("open /f r creat creat", WORD),
    ("open /f r trunc creat trunc", WORD),
    ("open /f r new", WORD),
    ("close", WORD),
    ("close x 4", NUMBER),
    ("close 3 4", WORD),
    ("close 1234567890123456789", NUMBER),
    ("close -1", NUMBER),
    ("read 3", WORD),
    ("read x", NUMBER),
    ("read 3 1048577", NUMBER),
    ("read 3 1 x", WORD),
    ("write 3", WORD),
    ("write x 6", NUMBER),
    ("write 3 616", DATA),
    ("write 3 6g", DATA),
    ("write 3 0*61", DATA),
    ("write 3 *61", DATA),
    ("write 3 2*", DATA),
    ("write 3 2*6161", DATA),
    ("write 3 2*61*", DATA),
    ("write 3 1048577*61", DATA),
    ("write 3 6 x", DATA),
    ("write 3 61 x", WORD),
    ("pread 3 1", WORD),
    ("pread 3 1 x", NUMBER),
    ("pwrite 3 6 x", DATA),
    ("pwrite 3 - x", NUMBER),
    ("seek 3 set", WORD),
    ("seek 3 at x", WORD),
    ("seek 3 set -", NUMBER),
    ("seek 3 set +1", NUMBER),
    ("seek 3 set --1", NUMBER),
    ("seek x at", NUMBER),
    ("trunc 3", WORD),
    ("sync 1", WORD),
    ("mkdir", WORD),
    ("mkdir /a /b", WORD),
    ("rename /a", WORD),
    ("rename /a /b /c", WORD),
];

#[test]
fn the_first_word_that_is_wrong_counts(rt: HostRuntime) {
    for (line, fault) in &WRONG_WORDS {
        let text = format!(in rt.alloc(); "client 0\n{line}\nfrob\nend\n").expect(&rt, "memory");
        same(&rt, line, fault_of(&rt, text.as_str()), *fault);
    }
}
