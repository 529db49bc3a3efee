// A long mixed session of several clients, served by the plain tree and printed: its text is longer than a piece that
// is read at once.
use crate::asserts::{holds, same};
use crate::audits::{answer_to, illegal};
use std::alloc::AllocGlobal;
use std::process::Abort;
use ufs_audit::{Verdict, Wrong, a_legal_text_is_printed, a_printed_text_is_legal};
use ufs_io::PlainSource;
use ufs_model::{ActorList, Entry, EntryList};
use ufs_script::{read_script, reply_line, trace_line};
use ufs_tree::serve;

// So many requests for each of the clients, by a generator that begins with a number.
fn mixed_script<R: Abort + AllocGlobal>(rt: &R, clients: u32, each: u32, seed: u32) -> Vec<u8> {
    let alloc = rt.alloc();
    let mut script = Vec::new(alloc);
    let mut state = seed;
    for client in 0..clients {
        let line = format!(in alloc; "client {client}\n").expect(rt, "memory");
        script
            .extend_from_slice(line.as_bytes())
            .expect(rt, "memory");
        for _request in 0..each {
            state = state.wrapping_mul(1_664_525).wrapping_add(1_013_904_223);
            put_request(rt, &mut script, state >> 8);
        }
    }
    script.extend_from_slice(b"end\n").expect(rt, "memory");
    script
}

fn put_request<R: Abort + AllocGlobal>(rt: &R, script: &mut Vec<u8>, choice: u32) {
    let alloc = rt.alloc();
    let (kind, name, fd) = (choice % 12, choice / 16 % 7, 3 + choice / 128 % 4);
    let line = match kind {
        0 => format!(in alloc; "mkdir /d{name}\n"),
        1 | 2 => format!(in alloc; "open /d{name}/f rw creat\n"),
        3 => format!(in alloc; "open /f{name} rw creat append\n"),
        4 | 5 => format!(in alloc; "write {fd} 700*6{name}\n"),
        6 => format!(in alloc; "pread {fd} 900 {name}00\n"),
        7 => format!(in alloc; "list /\n"),
        8 => format!(in alloc; "stat /d{name}/f\n"),
        9 => format!(in alloc; "rename /f{name} /d{name}/g\n"),
        10 => format!(in alloc; "close {fd}\n"),
        _ => format!(in alloc; "unlink /d{name}/f\n"),
    };
    let line = line.expect(rt, "memory");
    script
        .extend_from_slice(line.as_bytes())
        .expect(rt, "memory");
}

fn served<R: Abort + AllocGlobal>(rt: &R, script: &[u8]) -> EntryList {
    let bytes = script.to_vec(rt.alloc()).expect(rt, "memory");
    let script = read_script(rt.alloc(), &mut PlainSource::new(bytes)).expect(rt, "a script");
    serve(rt.alloc(), script.clients).expect(rt, "memory")
}

// The lines of the replies and of the trace. The clients are served one after another.
fn printed<R: Abort + AllocGlobal>(rt: &R, history: &[Entry]) -> Vec<u8> {
    let alloc = rt.alloc();
    let via = ActorList::from_vec(Vec::new(alloc));
    let mut text = Vec::new(alloc);
    for entry in history {
        let line = reply_line(alloc, entry.client, entry.seq, &entry.reply).expect(rt, "memory");
        text.extend_from_slice(line.as_slice()).expect(rt, "memory");
    }
    for entry in history {
        let line = trace_line(alloc, entry, &via).expect(rt, "memory");
        text.extend_from_slice(line.as_slice()).expect(rt, "memory");
    }
    text
}

// The place behind the space of the line of this number.
fn reply_at(text: &[u8], line: usize) -> usize {
    let mut lines = 0usize;
    for (i, byte) in text.iter().enumerate() {
        if lines == line && *byte == b' ' {
            return i;
        }
        if *byte == b'\n' && lines < line {
            lines += 1;
        }
    }
    0
}

#[test]
fn a_long_session_is_legal(rt: HostRuntime) {
    a_legal_text_is_printed();
    a_printed_text_is_legal();
    let script = mixed_script(&rt, 4, 150, 7);
    let history = served(&rt, script.as_slice());
    let mut text = printed(&rt, history.as_slice());
    holds(&rt, "long", text.len() > 40_000);
    let found = answer_to(&rt, script.as_slice(), text.as_slice()).ok();
    same(&rt, "legal", found, Some(Verdict::Legal { entries: 600 }));
    for ticket in [0usize, 17, 299, 300, 599] {
        let at = reply_at(text.as_slice(), ticket);
        let spoiled = spoiled_at(&rt, &mut text, at);
        let found = answer_to(&rt, script.as_slice(), spoiled.as_slice()).ok();
        same(
            &rt,
            "spoiled",
            found,
            Some(illegal(ticket as u64, Wrong::Reply)),
        );
    }
}

// The text with another reply there.
fn spoiled_at<R: Abort + AllocGlobal>(rt: &R, text: &mut Vec<u8>, at: usize) -> Vec<u8> {
    let mut spoiled = Vec::new(rt.alloc());
    let (front, rest) = text.as_slice().split_at(at.min(text.len()));
    spoiled.extend_from_slice(front).expect(rt, "memory");
    spoiled
        .extend_from_slice(b" at 987654321")
        .expect(rt, "memory");
    let end = rest.iter().position(|b| *b == b'\n').unwrap_or(0);
    spoiled.extend_from_slice(&rest[end..]).expect(rt, "memory");
    spoiled
}
