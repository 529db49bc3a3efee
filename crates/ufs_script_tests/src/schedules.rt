// Schedules as the format has them, each of a script of two clients.
use crate::asserts::{holds, same};
use crate::scripts::{fault_in, fault_of, put, script_of};
use std::alloc::AllocGlobal;
use std::process::Abort;
use ufs_io::PlainSource;
use ufs_script::{ScheduleWord, ScriptFault, read_placed};

// The letter of a word and its number, which is 0 where it has none.
fn turn_of(word: &ScheduleWord) -> (&'static str, u32) {
    match word {
        ScheduleWord::Client(client) => ("c", u32::from(*client)),
        ScheduleWord::Worker(worker) => ("w", u32::from(*worker)),
        ScheduleWord::Primary => ("p", 0),
        ScheduleWord::Ticks(ticks) => ("t", u32::from(*ticks)),
        ScheduleWord::Move { to, .. } => ("m", u32::from(*to)),
        ScheduleWord::Plan => ("l", 0),
    }
}

fn names(word: &ScheduleWord, text: &str) -> bool {
    matches!(word, ScheduleWord::Move { path, .. } if path.as_slice() == text.as_bytes())
}

const WORDS: &str =
    "client 0\nclient 1\nsync\nschedule 3\n c00\tc1 \r\nw1 w03 p\n# c9\n\nt1 t65535 l\nm0:/f m3:/a:b m2:\"\" m1:\nend\n#";

const TURNS: [(usize, &str, u32); 12] = [
    (0, "c", 0),
    (1, "c", 1),
    (2, "w", 1),
    (3, "w", 3),
    (4, "p", 0),
    (5, "t", 1),
    (6, "t", 65_535),
    (7, "l", 0),
    (8, "m", 0),
    (9, "m", 3),
    (10, "m", 2),
    (11, "m", 1),
];

const PATHS: [(usize, &str); 4] = [(8, "/f"), (9, "/a:b"), (10, ""), (11, "")];

#[test]
fn schedule_words_are_read(rt: HostRuntime) {
    let script = script_of(&rt, WORDS);
    same(&rt, "workers", script.workers, 3);
    same(&rt, "clients", script.clients.as_slice().len(), 2);
    let words = script.words.as_slice();
    same(&rt, "words", words.len(), 12);
    for (place, letter, number) in &TURNS {
        let word = words.get(*place).expect(&rt, "a word");
        same(&rt, letter, turn_of(word), (*letter, *number));
    }
    for (place, path) in &PATHS {
        let word = words.get(*place).expect(&rt, "a word");
        holds(&rt, path, names(word, path));
    }
}

const WORD: ScriptFault = ScriptFault::BadWord { line: 4 };

const NUMBER: ScriptFault = ScriptFault::BadNumber { line: 4 };

const WRONG_WORDS: [(&str, ScriptFault); 40] = [
    ("c2", NUMBER),
    ("c", NUMBER),
    ("c-1", NUMBER),
    ("c0x", NUMBER),
    ("c0000000000000000001", NUMBER),
    ("client 0", NUMBER),
    ("close 3", NUMBER),
    ("w0", NUMBER),
    ("w3", NUMBER),
    ("w", NUMBER),
    ("write 3 61", NUMBER),
    ("t0", NUMBER),
    ("t65536", NUMBER),
    ("t", NUMBER),
    ("trunc 3 0", NUMBER),
    ("m3:/f", NUMBER),
    ("m:/f", NUMBER),
    ("mx:/f", NUMBER),
    ("m-1:/f", NUMBER),
    ("m3", WORD),
    ("m", WORD),
    ("mx/f", WORD),
    ("mkdir /a", WORD),
    ("p0", WORD),
    ("pread 3 1 0", WORD),
    ("l1", WORD),
    ("list /", WORD),
    ("stat /f", WORD),
    ("C0", WORD),
    ("frob", WORD),
    ("schedule 2", WORD),
    // from left to right
    ("c0 x c2", WORD),
    ("c0 c2 x", NUMBER),
    ("p m1 m9:/f", WORD),
    // these stand first in a line, or not at all
    ("p end", WORD),
    ("p #", WORD),
    ("end 1", WORD),
    ("end p", WORD),
    ("p # c0", WORD),
    ("m1:/f /g", WORD),
];

#[test]
fn the_first_schedule_word_that_is_wrong_counts(rt: HostRuntime) {
    for (line, fault) in &WRONG_WORDS {
        let text = format!(in rt.alloc();
            "client 0\nclient 1\nschedule 2\n{line}\nx\nend\n"
        ).expect(&rt, "memory");
        same(&rt, line, fault_of(&rt, text.as_str()), *fault);
    }
}

const BEGINNINGS: [(&str, ScriptFault); 12] = [
    ("schedule\nend\n", ScriptFault::BadWord { line: 1 }),
    ("schedule 0\nend\n", ScriptFault::BadNumber { line: 1 }),
    ("schedule 9\nend\n", ScriptFault::BadNumber { line: 1 }),
    ("schedule x 1\nend\n", ScriptFault::BadNumber { line: 1 }),
    ("schedule 1 1\nend\n", ScriptFault::BadWord { line: 1 }),
    ("schedule 1\nc0\nend\n", ScriptFault::BadNumber { line: 2 }),
    (
        "schedule 1\nm2:/f\nend\n",
        ScriptFault::BadNumber { line: 2 },
    ),
    ("schedule 8\nw8", ScriptFault::NoEnd { line: 2 }),
    ("schedule 1\nend\np\n", ScriptFault::AfterEnd { line: 3 }),
    ("p\nschedule 1\nend\n", ScriptFault::BadWord { line: 1 }),
    // scripts
    ("schedule 1\nend\n", ScriptFault::Source),
    ("schedule 08\nw8 m8:/f m0:/f p\nend", ScriptFault::Source),
];

#[test]
fn a_schedule_begins_with_the_number_of_workers(rt: HostRuntime) {
    for (text, fault) in &BEGINNINGS {
        same(&rt, text, fault_of(&rt, text), *fault);
    }
}

// A schedule of so many words, a thousand a line, and then this.
fn many_words<R: Abort + AllocGlobal>(rt: &R, thousands: u32, more: &str) -> Vec<u8> {
    let mut text = Vec::new(rt.alloc());
    put(rt, &mut text, "schedule 1\n");
    for _line in 0..thousands {
        for _word in 0..1_000u32 {
            put(rt, &mut text, "p ");
        }
        put(rt, &mut text, "\n");
    }
    put(rt, &mut text, more);
    text
}

const MANY: [(&str, ScriptFault); 5] = [
    ("end\n", ScriptFault::Source),
    ("p\nend\n", ScriptFault::TooMany { line: 1_002 }),
    ("\n#\np p x", ScriptFault::BadWord { line: 1_004 }),
    ("p t0", ScriptFault::BadNumber { line: 1_002 }),
    ("p", ScriptFault::TooMany { line: 1_002 }),
];

#[test]
fn there_are_at_most_a_million_words(rt: HostRuntime) {
    for (more, fault) in &MANY {
        let text = many_words(&rt, 1_000, more);
        same(&rt, more, fault_in(&rt, text), *fault);
    }
}

// The numbers of the line `schedule` and of the line with the first plan.
const PLACES: [(&str, Option<u32>, Option<u32>); 5] = [
    ("client 0\nend\n", None, None),
    ("\nclient 0\nschedule 1\nend\n", Some(3), None),
    ("schedule 1\np\n#l\nm1:l\nend\n", Some(1), None),
    ("schedule 2\nl\nl p\nend\n", Some(1), Some(2)),
    ("# a\nschedule 2\np w1\n\np l l\nl\nend\n", Some(2), Some(5)),
];

#[test]
fn places_are_told(rt: HostRuntime) {
    for (text, schedule, plan) in &PLACES {
        let bytes = text.as_bytes().to_vec(rt.alloc()).expect(&rt, "memory");
        let placed = read_placed(rt.alloc(), &mut PlainSource::new(bytes)).expect(&rt, "a script");
        same(
            &rt,
            text,
            (placed.schedule, placed.plan),
            (*schedule, *plan),
        );
    }
}
