use crate::asserts::{holds, same};
use std::process::Abort;
use ufs_bench::{bench_script, workload};
use ufs_model::Op;
use ufs_script::ScheduleWord;

// Of client 0 of seed 1, the requests behind the first five: what it does (write, read, sync, or cut and extend), the descriptor,
// how many bytes, and the place or the length.
const REQUESTS: [(char, u64, usize, u64); 59] = [
    ('w', 5, 158, 14431),
    ('r', 5, 238, 59295),
    ('r', 4, 87, 64058),
    ('w', 3, 142, 25486),
    ('s', 6, 0, 0),
    ('w', 3, 73, 63863),
    ('s', 3, 0, 0),
    ('w', 3, 211, 45806),
    ('r', 3, 223, 53550),
    ('s', 3, 0, 0),
    ('w', 6, 34, 46961),
    ('r', 3, 95, 46422),
    ('r', 6, 6, 57074),
    ('w', 5, 18, 35627),
    ('r', 4, 103, 48349),
    ('w', 3, 187, 22455),
    ('r', 5, 49, 43826),
    ('w', 6, 234, 38576),
    ('r', 4, 49, 44469),
    ('r', 4, 94, 27250),
    ('r', 3, 212, 44904),
    ('t', 6, 0, 20311),
    ('r', 6, 211, 55474),
    ('w', 6, 239, 38366),
    ('t', 6, 0, 11683),
    ('w', 6, 231, 53931),
    ('r', 5, 199, 48957),
    ('w', 4, 215, 440),
    ('t', 6, 0, 33235),
    ('r', 4, 228, 42505),
    ('s', 6, 0, 0),
    ('s', 6, 0, 0),
    ('w', 5, 232, 34561),
    ('r', 6, 177, 54164),
    ('w', 3, 237, 57568),
    ('r', 4, 184, 8142),
    ('s', 5, 0, 0),
    ('s', 5, 0, 0),
    ('r', 4, 78, 13062),
    ('s', 6, 0, 0),
    ('w', 5, 176, 44278),
    ('t', 5, 0, 41572),
    ('w', 4, 222, 35643),
    ('r', 5, 77, 46653),
    ('r', 5, 94, 51062),
    ('w', 3, 99, 8005),
    ('r', 4, 11, 29892),
    ('s', 4, 0, 0),
    ('w', 6, 205, 1125),
    ('t', 6, 0, 23845),
    ('t', 6, 0, 22561),
    ('t', 5, 0, 48843),
    ('w', 5, 15, 49784),
    ('s', 3, 0, 0),
    ('t', 5, 0, 55183),
    ('r', 6, 58, 54603),
    ('w', 5, 92, 33909),
    ('r', 5, 156, 35289),
    ('r', 3, 197, 33223),
];

// Of the schedule of seed 1, the first words: the letter of a schedule word as scripts write it, and the number of the client or the
// worker, or that of the ticks.
const TURNS: [(char, u16); 64] = [
    ('c', 0),
    ('c', 7),
    ('c', 7),
    ('c', 3),
    ('c', 6),
    ('t', 1),
    ('l', 0),
    ('w', 1),
    ('l', 0),
    ('c', 0),
    ('t', 1),
    ('c', 6),
    ('w', 2),
    ('w', 4),
    ('c', 1),
    ('c', 5),
    ('l', 0),
    ('c', 1),
    ('l', 0),
    ('t', 1),
    ('c', 6),
    ('c', 2),
    ('c', 1),
    ('w', 3),
    ('w', 2),
    ('c', 6),
    ('w', 1),
    ('c', 5),
    ('c', 0),
    ('c', 7),
    ('w', 1),
    ('c', 2),
    ('c', 6),
    ('c', 3),
    ('c', 5),
    ('w', 3),
    ('w', 3),
    ('w', 2),
    ('w', 4),
    ('t', 1),
    ('w', 4),
    ('p', 0),
    ('c', 1),
    ('c', 6),
    ('c', 5),
    ('w', 1),
    ('w', 4),
    ('c', 2),
    ('c', 6),
    ('l', 0),
    ('w', 1),
    ('w', 2),
    ('w', 4),
    ('w', 2),
    ('w', 2),
    ('c', 4),
    ('c', 0),
    ('c', 2),
    ('l', 0),
    ('c', 4),
    ('w', 1),
    ('c', 5),
    ('c', 0),
    ('c', 3),
];

const OPENED: [&str; 4] = ["/c0/f0", "/c0/f1", "/c0/f2", "/c0/f3"];

// What the request does, its descriptor, bytes and place.
fn row_of(op: &Op) -> (char, u64, usize, u64) {
    match op {
        Op::Pwrite { fd, bytes, at } => ('w', *fd, bytes.as_slice().len(), *at),
        Op::Pread { fd, n, at } => ('r', *fd, *n as usize, *at),
        Op::Fsync { fd } => ('s', *fd, 0, 0),
        Op::Trunc { fd, size } => ('t', *fd, 0, *size),
        _ => ('?', 0, 0, 0),
    }
}

fn opens(op: &Op, wanted: &str) -> bool {
    match op {
        Op::OpenFile { path, creat, .. } => *creat && path.as_slice() == wanted.as_bytes(),
        _ => false,
    }
}

fn check_first(rt: &impl Abort, ops: &[Op]) {
    holds(rt, ops.len() == 2_000);
    for (op, path) in ops[1..5].iter().zip(&OPENED) {
        holds(rt, opens(op, *path));
    }
    for (op, row) in ops[5..64].iter().zip(&REQUESTS) {
        same(rt, row_of(op), *row);
    }
}

// The word's letter and number.
fn turn_of(word: &ScheduleWord) -> (char, u16) {
    match word {
        ScheduleWord::Client(client) => ('c', u16::from(*client)),
        ScheduleWord::Worker(worker) => ('w', u16::from(*worker)),
        ScheduleWord::Primary => ('p', 0),
        ScheduleWord::Plan => ('l', 0),
        ScheduleWord::Ticks(ticks) => ('t', *ticks),
        ScheduleWord::Move { to, .. } => ('m', u16::from(*to)),
    }
}

fn check_turns(rt: &impl Abort, words: &[ScheduleWord]) {
    holds(rt, words.len() == 200_000);
    for (word, turn) in words.iter().zip(&TURNS) {
        same(rt, turn_of(word), *turn);
    }
    same(rt, turn_of(&words[199_999]), ('c', 1));
}

#[test]
fn a_seed_gives_the_requests_that_another_program_makes_of_it(rt: HostRuntime) {
    let clients = workload(rt.alloc(), 1).expect(&rt, "memory");
    let clients = clients.as_slice();
    holds(&rt, clients.len() == 8);
    check_first(&rt, clients[0].as_slice());
    let last = clients[7].as_slice();
    holds(&rt, last.len() == 2_000);
    same(&rt, row_of(&last[1_999]), ('r', 5, 136, 51461));
}

#[test]
fn a_seed_gives_the_schedule_that_another_program_makes_of_it(rt: HostRuntime) {
    let script = bench_script(rt.alloc(), 1).expect(&rt, "memory");
    same(&rt, script.workers, 4);
    let clients = script.clients.as_slice();
    holds(&rt, clients.len() == 8);
    check_first(&rt, clients[0].as_slice());
    check_turns(&rt, script.words.as_slice());
}
