// Legal texts that are spoiled at each place: cut off, a line left out, doubled or swapped, a digit or any byte changed.
use crate::asserts::same;
use crate::audits::{REPLIES, SCRIPT, TRACE, answer_to, illegal};
use std::alloc::AllocGlobal;
use std::process::Abort;
use ufs_audit::{Verdict, Wrong};

fn whole<R: Abort + AllocGlobal>(rt: &R) -> Vec<u8> {
    let text = format!(in rt.alloc(); "{REPLIES}{TRACE}").expect(rt, "memory");
    text.into_bytes()
}

fn verdict<R: Abort + AllocGlobal>(rt: &R, text: &[u8]) -> Option<Verdict> {
    answer_to(rt, SCRIPT.as_bytes(), text).ok()
}

// How many lines have their end.
fn lines_in(text: &[u8]) -> u64 {
    let mut count = 0u64;
    for byte in text {
        if *byte == b'\n' && count < 1000 {
            count += 1;
        }
    }
    count
}

#[test]
fn each_front_ends_early(rt: HostRuntime) {
    let text = whole(&rt);
    for len in 0..text.len() {
        let front = &text.as_slice()[..len];
        let ticket = lines_in(front).saturating_sub(6);
        same(
            &rt,
            "front",
            verdict(&rt, front),
            Some(illegal(ticket, Wrong::Text)),
        );
    }
}

// By the number of a line: the first ticket that is wrong in the text without it, with it twice, and with the next
// one before it.
const LINES: [(u64, u64, u64); 11] = [
    (0, 0, 0),
    (0, 0, 0),
    (0, 0, 0),
    (0, 0, 0),
    (0, 0, 0),
    (0, 0, 0),
    (0, 1, 0),
    (1, 2, 1),
    (2, 3, 2),
    (3, 4, 3),
    (4, 5, 4),
];

// The text's lines, those of these numbers in this order in the place of two.
fn with_lines<R: Abort + AllocGlobal>(rt: &R, text: &[u8], at: usize, order: &[usize]) -> Vec<u8> {
    let mut spoiled = Vec::new(rt.alloc());
    for (i, line) in text.split(|b| *b == b'\n').enumerate() {
        if i == at {
            put_lines(rt, &mut spoiled, text, order);
        }
        if i != at && (i == 0 || i - 1 != at) && !line.is_empty() {
            put_line(rt, &mut spoiled, line);
        }
    }
    spoiled
}

fn put_line<R: Abort>(rt: &R, text: &mut Vec<u8>, line: &[u8]) {
    text.extend_from_slice(line).expect(rt, "memory");
    text.push(b'\n').expect(rt, "memory");
}

fn put_lines<R: Abort>(rt: &R, spoiled: &mut Vec<u8>, text: &[u8], order: &[usize]) {
    for number in order {
        for (i, line) in text.split(|b| *b == b'\n').enumerate() {
            if i == *number {
                put_line(rt, spoiled, line);
            }
        }
    }
}

#[test]
fn each_line_has_its_place(rt: HostRuntime) {
    let legal = whole(&rt);
    for (at, (out, twice, swapped)) in LINES.iter().enumerate() {
        let text = with_lines(&rt, legal.as_slice(), at, &[at + 1]);
        same(
            &rt,
            "out",
            verdict(&rt, text.as_slice()),
            Some(illegal(*out, Wrong::Text)),
        );
        let text = with_lines(&rt, legal.as_slice(), at, &[at, at, at + 1]);
        same(
            &rt,
            "twice",
            verdict(&rt, text.as_slice()),
            Some(illegal(*twice, Wrong::Text)),
        );
        let text = with_lines(&rt, legal.as_slice(), at, &[at + 1, at]);
        same(
            &rt,
            "swapped",
            verdict(&rt, text.as_slice()),
            Some(illegal(*swapped, Wrong::Text)),
        );
    }
}

// What a digit tells: the request of a reply's line, the reply, a ticket, a client or a client's number.
fn wanted(line: u64, spaces: u64, dots: u64) -> Verdict {
    if line < 6 {
        let cause = if spaces == 0 {
            Wrong::Text
        } else {
            Wrong::Reply
        };
        return illegal(if spaces == 0 { 0 } else { line }, cause);
    }
    let ticket = line - 6;
    if spaces < 2 {
        return illegal(ticket, Wrong::Text);
    }
    // The first request of the other client is its next one, and gets another reply there.
    if ticket == 0 && dots == 0 {
        return illegal(0, Wrong::Reply);
    }
    illegal(ticket, Wrong::Order)
}

#[test]
fn each_digit_counts(rt: HostRuntime) {
    let mut text = whole(&rt);
    let (mut line, mut spaces, mut dots) = (0u64, 0u64, 0u64);
    for i in 0..text.len() {
        let byte = text[i];
        match byte {
            b'\n' => (line, spaces, dots) = (line.saturating_add(1), 0, 0),
            b' ' => spaces = spaces.saturating_add(1),
            b'.' => dots = dots.saturating_add(1),
            b'0'..=b'9' => {
                text[i] = if byte == b'9' { b'0' } else { byte + 1 };
                let found = verdict(&rt, text.as_slice());
                same(&rt, "digit", found, Some(wanted(line, spaces, dots)));
                text[i] = byte;
            }
            _ => {}
        }
    }
}

// Three clients, whose requests were served in turn; a worker had the file for a while, and once memory was wanting.
const OTHER: &str =
    "client 0\nmkdir /d\nopen /d/a rw creat\nwrite 3 00ff10\nseek 3 set 1\nread 3 9\nclient 1\nopen /d/a r\npread 3 2 1\nclose 3\nclient 2\nrename /d /e\nstat /e/a\nend\n";

const OTHER_REPLIES: &str =
    "0.0 ok\n0.1 fd 3\n0.2 n 3\n0.3 at 1\n0.4 err ENOMEM\n1.0 fd 3\n1.1 data ff10\n1.2 ok\n2.0 ok\n2.1 file 3\n";

const OTHER_TRACE: &str =
    "# 0 0.0 by p\n# 1 0.1 by p\n# 2 0.2 by p\n# 3 1.0 by p\n# 4 0.3 by c0\n# 5 1.1 by w1 via p,w2\n# 6 2.0 by p\n# 7 0.4 by w1 excuse memory\n# 8 2.1 by p\n# 9 1.2 by c1\n";

fn other<R: Abort + AllocGlobal>(rt: &R) -> Vec<u8> {
    let text = format!(in rt.alloc(); "{OTHER_REPLIES}{OTHER_TRACE}").expect(rt, "memory");
    text.into_bytes()
}

fn is_other<R: Abort + AllocGlobal>(rt: &R, row: &str, text: &[u8], wanted: Verdict) {
    let found = answer_to(rt, OTHER.as_bytes(), text).ok();
    same(rt, row, found, Some(wanted));
}

// Ticket 0 for the ten lines of the replies.
fn ticket_of(line: u64) -> u64 {
    line.saturating_sub(10)
}

// No line that is legal has a byte 0, and no front of the text is legal.
#[test]
fn each_byte_counts(rt: HostRuntime) {
    let mut text = other(&rt);
    is_other(
        &rt,
        "whole",
        text.as_slice(),
        Verdict::Legal { entries: 10 },
    );
    for i in 0..text.len() {
        let ticket = ticket_of(lines_in(&text.as_slice()[..i]));
        is_other(
            &rt,
            "front",
            &text.as_slice()[..i],
            illegal(ticket, Wrong::Text),
        );
        let byte = text[i];
        text[i] = 0;
        is_other(
            &rt,
            "changed",
            text.as_slice(),
            illegal(ticket, Wrong::Text),
        );
        text[i] = byte;
    }
}

// Each line of a trace has its own ticket, and each line of a reply its own request.
#[test]
fn each_line_stands_once(rt: HostRuntime) {
    let legal = other(&rt);
    for at in 0..19usize {
        let ticket = ticket_of(at as u64);
        let twice = if at < 10 { 0 } else { ticket.saturating_add(1) };
        let text = with_lines(&rt, legal.as_slice(), at, &[at + 1]);
        is_other(&rt, "out", text.as_slice(), illegal(ticket, Wrong::Text));
        let text = with_lines(&rt, legal.as_slice(), at, &[at, at, at + 1]);
        is_other(&rt, "twice", text.as_slice(), illegal(twice, Wrong::Text));
        let text = with_lines(&rt, legal.as_slice(), at, &[at + 1, at]);
        is_other(
            &rt,
            "swapped",
            text.as_slice(),
            illegal(ticket, Wrong::Text),
        );
    }
}
