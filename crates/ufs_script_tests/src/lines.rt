// The lines of replies and of a trace, as the format has them, and lists of a script.
use crate::asserts::{holds, same};
use std::alloc::AllocGlobal;
use std::process::Abort;
use ufs_model::{Actor, ActorList, Bytes, Entry, Errno, Excuse, NameList, Op, Reply};
use ufs_script::{OpList, OpLists, ScheduleWord, Script, WordList, reply_line, trace_line};

fn some_bytes<R: Abort + AllocGlobal>(rt: &R, text: &str) -> Bytes {
    Bytes::from_vec(text.as_bytes().to_vec(rt.alloc()).expect(rt, "memory"))
}

fn two_names<R: Abort + AllocGlobal>(rt: &R) -> NameList {
    let mut names = Vec::new(rt.alloc());
    names.push(some_bytes(rt, "a")).expect(rt, "memory");
    names.push(some_bytes(rt, "bc")).expect(rt, "memory");
    holds(rt, "a bc", NameList::are_rising(names.as_slice()));
    NameList::from_vec(names)
}

// Asserts that a reply has this line.
fn says<R: Abort + AllocGlobal>(rt: &R, reply: Reply, text: &str) {
    let line = reply_line(rt.alloc(), 0, 7, &reply).expect(rt, "memory");
    drop(reply);
    same(rt, text, line.as_slice(), text.as_bytes());
}

fn values_have_their_lines<R: Abort + AllocGlobal>(rt: &R) {
    says(rt, Reply::Done, "0.7 ok\n");
    says(rt, Reply::Fd(66), "0.7 fd 66\n");
    says(rt, Reply::Count(0), "0.7 n 0\n");
    says(rt, Reply::At(16_777_216), "0.7 at 16777216\n");
    says(rt, Reply::IsFile { size: 12 }, "0.7 file 12\n");
    says(rt, Reply::IsDir { entries: 0 }, "0.7 dir 0\n");
}

fn lists_have_their_lines<R: Abort + AllocGlobal>(rt: &R) {
    let bytes = some_bytes(rt, "az\u{7f}");
    says(rt, Reply::Got(bytes), "0.7 data 617a7f\n");
    says(rt, Reply::Got(some_bytes(rt, "")), "0.7 data -\n");
    says(rt, Reply::Names(two_names(rt)), "0.7 names 2 a bc\n");
    let none = NameList::from_vec(Vec::new(rt.alloc()));
    says(rt, Reply::Names(none), "0.7 names 0\n");
}

const EXCUSED: [(Excuse, &str); 3] = [
    (Excuse::Device { fault: 3 }, "0.7 err EIO\n"),
    (Excuse::Blocks { need: 2, had: 1 }, "0.7 err ENOSPC\n"),
    (Excuse::Memory, "0.7 err ENOMEM\n"),
];

#[test]
fn replies_have_their_lines(rt: HostRuntime) {
    values_have_their_lines(&rt);
    lists_have_their_lines(&rt);
    let refused = Reply::Refused(Errno::Enametoolong);
    says(&rt, refused, "0.7 err ENAMETOOLONG\n");
    for (excuse, text) in &EXCUSED {
        says(&rt, Reply::Excused(*excuse), text);
    }
}

// Asserts that an entry with this reply, by way of these, has this line.
fn traces<R: Abort + AllocGlobal>(rt: &R, reply: Reply, via: &[Actor], text: &str) {
    let entry = Entry {
        ticket: 7,
        client: 1,
        seq: 2,
        by: Actor::Primary,
        op: Op::Sync,
        reply,
    };
    let via = ActorList::from_vec(via.to_vec(rt.alloc()).expect(rt, "memory"));
    let line = trace_line(rt.alloc(), &entry, &via).expect(rt, "memory");
    drop(entry);
    same(rt, text, line.as_slice(), text.as_bytes());
}

const TRACES: [(Excuse, &[Actor], &str); 6] = [
    (
        Excuse::Memory,
        &[Actor::Worker(8)],
        "# 7 1.2 by p via w8 excuse memory\n",
    ),
    (
        Excuse::Device { fault: 3 },
        &[Actor::Primary, Actor::Worker(1), Actor::Client(15)],
        "# 7 1.2 by p via p,w1,c15 excuse device 3\n",
    ),
    (
        Excuse::Stopped { fault: 4 },
        &[],
        "# 7 1.2 by p excuse stopped 4\n",
    ),
    (
        Excuse::Blocks { need: 5, had: 0 },
        &[],
        "# 7 1.2 by p excuse blocks 5 0\n",
    ),
    (Excuse::Inodes, &[], "# 7 1.2 by p excuse inodes 1 0\n"),
    (
        Excuse::Extents { need: 57 },
        &[],
        "# 7 1.2 by p excuse extents 57 56\n",
    ),
];

#[test]
fn entries_have_their_lines(rt: HostRuntime) {
    traces(&rt, Reply::Done, &[], "# 7 1.2 by p\n");
    for (excuse, via, text) in &TRACES {
        traces(&rt, Reply::Excused(*excuse), via, text);
    }
}

fn some_script<R: Abort + AllocGlobal>(rt: &R) -> Script {
    let mut ops = Vec::new(rt.alloc());
    ops.push(Op::Close { fd: 3 }).expect(rt, "memory");
    let mut clients = Vec::new(rt.alloc());
    clients.push(OpList::from_vec(ops)).expect(rt, "memory");
    let mut words = Vec::new(rt.alloc());
    words.push(ScheduleWord::Plan).expect(rt, "memory");
    let path = some_bytes(rt, "/f");
    words
        .push(ScheduleWord::Move { path, to: 1 })
        .expect(rt, "memory");
    Script {
        clients: OpLists::from_vec(clients),
        workers: 1,
        words: WordList::from_vec(words),
    }
}

#[test]
fn lists_give_back_what_they_are_made_from(rt: HostRuntime) {
    let script = some_script(&rt);
    same(&rt, "words", script.words.as_slice().len(), 2);
    let mut clients = script.clients.into_vec();
    let requests = clients.pop().expect(&rt, "a client").into_vec();
    let is_close = matches!(requests.as_slice(), [Op::Close { fd: 3 }]);
    holds(&rt, "close", is_close);
}
