// What no clause says: that calls succeed where there is memory, that a source which fails once in
// mid-stream isn't read again, how many reads there are, and lines as the format has them.
use crate::asserts::{holds, same};
use std::alloc::AllocGlobal;
use std::io::Read;
use std::process::Abort;
use ufs_io::{MemorySource, PlainSource, StreamSource};
use ufs_model::Op;
use ufs_script::{
    OpLists, Script, ScriptFault, a_longer_text_breaks_alike, printing_and_reading, read_script,
};

fn answer_to<R: Abort + AllocGlobal>(rt: &R, text: Vec<u8>) -> Result<Script, ScriptFault> {
    read_script(rt.alloc(), &mut PlainSource::new(text))
}

fn copied<R: Abort + AllocGlobal>(rt: &R, text: &str) -> Vec<u8> {
    text.as_bytes().to_vec(rt.alloc()).expect(rt, "memory")
}

pub fn script_of<R: Abort + AllocGlobal>(rt: &R, text: &str) -> Script {
    answer_to(rt, copied(rt, text)).expect(rt, "a script")
}

// The fault of a text; a script counts as `Source`, which no plain source answers.
pub fn fault_in<R: Abort + AllocGlobal>(rt: &R, text: Vec<u8>) -> ScriptFault {
    answer_to(rt, text).err().unwrap_or(ScriptFault::Source)
}

pub fn fault_of<R: Abort + AllocGlobal>(rt: &R, text: &str) -> ScriptFault {
    fault_in(rt, copied(rt, text))
}

// How many requests a client has.
fn count_of(clients: &OpLists, client: usize) -> Option<usize> {
    let client = clients.as_slice().get(client)?;
    Some(client.as_slice().len())
}

#[test]
fn clients_have_their_requests(rt: HostRuntime) {
    printing_and_reading();
    let text =
        "# two clients\n\tclient 00 \r\nsync\nclose 3\n\r\n \t\n #end\nsync\nclient 01\nsync\nend\n\n#";
    let script = script_of(&rt, text);
    same(&rt, "workers", script.workers, 1);
    same(&rt, "first", count_of(&script.clients, 0), Some(3));
    same(&rt, "second", count_of(&script.clients, 1), Some(1));
    same(&rt, "third", count_of(&script.clients, 2), None);
    same(&rt, "words", script.words.into_vec().len(), 0);
}

const BREAKS: [(&str, ScriptFault); 21] = [
    // the lines that there were
    ("", ScriptFault::NoEnd { line: 0 }),
    ("\n", ScriptFault::NoEnd { line: 1 }),
    ("client 0\nsync", ScriptFault::NoEnd { line: 2 }),
    ("# a\n\nclient 0\n", ScriptFault::NoEnd { line: 3 }),
    // the first word, before the words after it
    ("frob\n", ScriptFault::BadWord { line: 1 }),
    ("client 0\nfrob\nend\n", ScriptFault::BadWord { line: 2 }),
    ("client 0\r\nfrob\r\nx\n", ScriptFault::BadWord { line: 2 }),
    ("c0\nsync\n", ScriptFault::BadWord { line: 1 }),
    ("sync 1\n", ScriptFault::NoClient { line: 1 }),
    ("# a\n\n \t\nread\n", ScriptFault::NoClient { line: 4 }),
    // clients
    ("client\n", ScriptFault::BadWord { line: 1 }),
    ("client x 0\n", ScriptFault::BadNumber { line: 1 }),
    ("client 1 0\n", ScriptFault::BadNumber { line: 1 }),
    ("client 0 0\n", ScriptFault::BadWord { line: 1 }),
    ("client 0\nclient 0\n", ScriptFault::BadNumber { line: 2 }),
    // the end
    ("end 1\n", ScriptFault::BadWord { line: 1 }),
    ("client 0\nend\r", ScriptFault::BadWord { line: 2 }),
    ("end\nend\n", ScriptFault::AfterEnd { line: 2 }),
    ("end\n# a\n\nfrob\n", ScriptFault::AfterEnd { line: 4 }),
    ("end\nschedule 1\n", ScriptFault::AfterEnd { line: 2 }),
    (
        "client 0\nfrob\nschedule 1\n",
        ScriptFault::BadWord { line: 2 },
    ),
];

#[test]
fn the_first_break_counts(rt: HostRuntime) {
    for (text, fault) in &BREAKS {
        same(&rt, text, fault_of(&rt, text), *fault);
    }
}

// As many requests as a script can have, about 15,700,000 bytes long.
fn largest_script<R: Abort + AllocGlobal>(rt: &R) -> Vec<u8> {
    let mut text = Vec::new(rt.alloc());
    for client in 0..16u32 {
        put_client(rt, &mut text, client);
        for _request in 0..65_536u32 {
            put(rt, &mut text, "stat /a/bc/def\n");
        }
    }
    put(rt, &mut text, "end\n");
    text
}

pub fn put<R: Abort>(rt: &R, text: &mut Vec<u8>, more: &str) {
    text.extend_from_slice(more.as_bytes()).expect(rt, "memory");
}

fn put_client<R: Abort + AllocGlobal>(rt: &R, text: &mut Vec<u8>, client: u32) {
    let line = format!(in rt.alloc(); "client {client}\n").expect(rt, "memory");
    put(rt, text, line.as_str());
}

#[test]
fn a_script_of_many_lines_is_read(rt: HostRuntime) {
    let script = answer_to(&rt, largest_script(&rt)).expect(&rt, "a script");
    let clients = script.clients.as_slice();
    same(&rt, "clients", clients.len(), 16);
    for client in clients {
        same(&rt, "requests", client.as_slice().len(), 65_536);
    }
}

// So many clients without requests, and a line.
fn many_clients<R: Abort + AllocGlobal>(rt: &R, clients: u32, line: &str) -> Vec<u8> {
    let mut text = Vec::new(rt.alloc());
    for client in 0..clients {
        put_client(rt, &mut text, client);
    }
    put(rt, &mut text, line);
    text
}

const CLIENTS: [(u32, &str, ScriptFault); 5] = [
    (16, "client 16\n", ScriptFault::TooMany { line: 17 }),
    (16, "client 3\n", ScriptFault::BadNumber { line: 17 }),
    (16, "client 17\n", ScriptFault::BadNumber { line: 17 }),
    (16, "client 16 x\n", ScriptFault::BadWord { line: 17 }),
    (15, "client 15\nend", ScriptFault::Source),
];

#[test]
fn there_are_at_most_16_clients(rt: HostRuntime) {
    for (clients, line, fault) in &CLIENTS {
        let text = many_clients(&rt, *clients, line);
        same(&rt, line, fault_in(&rt, text), *fault);
    }
}

// One client with so many requests.
fn many_requests<R: Abort + AllocGlobal>(rt: &R, requests: u32, line: &str) -> Vec<u8> {
    let mut text = copied(rt, "client 0\n");
    for _request in 0..requests {
        put(rt, &mut text, "sync\n");
    }
    put(rt, &mut text, line);
    text
}

const REQUESTS: [(&str, ScriptFault); 4] = [
    ("end\n", ScriptFault::Source),
    ("client 1\nsync\nend\n", ScriptFault::Source),
    ("sync\n", ScriptFault::TooMany { line: 65_538 }),
    ("sync x\n", ScriptFault::BadWord { line: 65_538 }),
];

#[test]
fn a_client_has_at_most_65536_requests(rt: HostRuntime) {
    for (line, fault) in &REQUESTS {
        let text = many_requests(&rt, 65_536, line);
        same(&rt, line, fault_in(&rt, text), *fault);
    }
}

// A write of so many digits.
fn write_of<R: Abort + AllocGlobal>(rt: &R, digits: usize) -> Vec<u8> {
    let mut text = copied(rt, "client 0\nwrite 3 ");
    let zeros = vec![in rt.alloc(); b'0'; digits].expect(rt, "memory");
    text.extend_from_slice(zeros.as_slice())
        .expect(rt, "memory");
    put(rt, &mut text, "\nend");
    text
}

#[test]
fn data_has_at_most_1048576_bytes(rt: HostRuntime) {
    let fits = fault_in(&rt, write_of(&rt, 2_097_152));
    same(&rt, "2,097,152 digits", fits, ScriptFault::Source);
    let fault = fault_in(&rt, write_of(&rt, 2_097_154));
    same(
        &rt,
        "2,097,154 digits",
        fault,
        ScriptFault::BadData { line: 2 },
    );
}

// Whether the script has one client, which has one write to descriptor 3.
fn is_one_write(script: &Script) -> bool {
    match script.clients.as_slice() {
        [client] => matches!(client.as_slice(), [Op::Write { fd: 3, .. }]),
        _ => false,
    }
}

#[test]
fn a_text_is_read_in_pieces_of_any_size(rt: HostRuntime) {
    let text = b"client 0\r\nwrite 3 2*61\n\nend\r\n".as_slice();
    for cut in 0..text.len() {
        let pieces = text[..cut].chain(&text[cut..]);
        let answer = read_script(rt.alloc(), &mut StreamSource::new(pieces));
        let script = answer.expect(&rt, "a script");
        assert!(rt; is_one_write(&script), "cut at {cut}");
    }
}

// Of a source with so many blanks, of whose reads these fail: what is answered, and its reads and faults then.
fn read_of<R: Abort + AllocGlobal>(
    rt: &R,
    length: usize,
    fails: &[u64],
) -> (ScriptFault, u64, u64) {
    let text = vec![in rt.alloc(); b' '; length].expect(rt, "memory");
    let fails = fails.to_vec(rt.alloc()).expect(rt, "memory");
    let mut source = MemorySource::new(text, fails);
    let answer = read_script(rt.alloc(), &mut source);
    let fault = answer.err().expect(rt, "a fault");
    (fault, source.calls(), source.faults())
}

#[test]
fn a_fault_is_answered_at_once(rt: HostRuntime) {
    for (call, calls) in &[(0, 1), (1, 2), (2, 3)] {
        let found = read_of(&rt, 150_000, &[*call]);
        same(&rt, "a read fails", found, (ScriptFault::Source, *calls, 1));
    }
}

const LENGTHS: [(usize, u64, ScriptFault); 7] = [
    (0, 1, ScriptFault::NoEnd { line: 0 }),
    (1, 2, ScriptFault::NoEnd { line: 1 }),
    (65_536, 2, ScriptFault::NoEnd { line: 1 }),
    (150_000, 4, ScriptFault::NoEnd { line: 1 }),
    (16_777_216, 257, ScriptFault::NoEnd { line: 1 }),
    (16_777_217, 257, ScriptFault::TooLong { line: 1 }),
    (20_000_000, 257, ScriptFault::TooLong { line: 1 }),
];

#[test]
fn a_source_is_read_to_its_end_or_past_the_greatest_length(rt: HostRuntime) {
    a_longer_text_breaks_alike();
    for (length, calls, fault) in &LENGTHS {
        let found = read_of(&rt, *length, &[]);
        same(&rt, "blanks", found, (*fault, *calls, 0));
    }
}

// A text with a line of so many bytes, its line end included, and other lines before and behind it.
fn long_text<R: Abort + AllocGlobal>(rt: &R, before: &str, size: usize, behind: &str) -> Vec<u8> {
    let mut text = copied(rt, before);
    let line = vec![in rt.alloc(); b'#'; size].expect(rt, "memory");
    text.extend_from_slice(line.as_slice()).expect(rt, "memory");
    put(rt, &mut text, behind);
    text
}

const LONG_TEXTS: [(&str, usize, &str, ScriptFault); 6] = [
    // 16,777,216 bytes in all, and one more
    ("end\n", 16_777_212, "", ScriptFault::Source),
    ("end\n", 16_777_212, "\n", ScriptFault::TooLong { line: 2 }),
    ("end\n", 16_777_211, "\n", ScriptFault::Source),
    ("end\n", 16_777_211, "\nx", ScriptFault::TooLong { line: 3 }),
    // lines before it are looked at first, and the line itself isn't
    ("x\n", 16_777_216, "\n", ScriptFault::BadWord { line: 1 }),
    ("\nx", 16_777_216, "\nx\n", ScriptFault::TooLong { line: 2 }),
];

#[test]
fn the_line_that_passes_the_greatest_length_counts(rt: HostRuntime) {
    for (before, size, behind, fault) in &LONG_TEXTS {
        let text = long_text(&rt, before, *size, behind);
        same(&rt, behind, fault_in(&rt, text), *fault);
    }
}
