// Which server has a file, and who waits for it.
use crate::asserts::same;
use std::alloc::{AllocError, Global};
use std::process::Abort;
use ufs_base::Lack;
use ufs_owner::{Owner, OwnerTable};

#[derive(Clone, Copy)]
enum Step {
    Send(u8),
    Left,
    Recall(u8),
    Renote(u8),
    Settle,
    Wait(u8),
    Unwait(u8),
}

fn send(table: &mut OwnerTable, file: u32, to: u8) -> Result<Option<u8>, Lack> {
    match table.owner_of(file) {
        Owner::Primary => {
            if table.waiting(file) {
                return Ok(None);
            }
            table.reserve()?;
            table.send(file, to)?;
            Ok(Some(0))
        }
        _ => Ok(None),
    }
}

fn recall(table: &mut OwnerTable, file: u32, to: u8) -> Option<u8> {
    match table.owner_of(file) {
        Owner::Worker(_) | Owner::Going { .. } => {
            table.begin_recall(file, to);
            Some(0)
        }
        _ => None,
    }
}

// Takes a step where it may be taken, and tells the number that it answers, 0 where it answers none.
fn take(table: &mut OwnerTable, file: u32, step: Step) -> Result<Option<u8>, Lack> {
    match (step, table.owner_of(file)) {
        (Step::Send(to), _) => send(table, file, to),
        (Step::Recall(to), _) => Ok(recall(table, file, to)),
        (Step::Left, Owner::Going { .. }) => {
            table.left(file);
            Ok(Some(0))
        }
        (Step::Renote(to), Owner::Coming { .. }) => {
            table.renote(file, to);
            Ok(Some(0))
        }
        (Step::Settle, Owner::Coming { .. }) => Ok(Some(table.settle(file))),
        (Step::Wait(client), _) => {
            table.wait(file, client)?;
            Ok(Some(0))
        }
        (Step::Unwait(client), _) => {
            table.unwait(file, client);
            Ok(Some(0))
        }
        _ => Ok(None),
    }
}

// A file as a test keeps it.
#[derive(Drop)]
struct Plain {
    owner: Owner,
    note: u8,
    waiting: Vec<u8>,
}

impl Plain {
    fn new(alloc: Global) -> Plain {
        Plain {
            owner: Owner::Primary,
            note: 0,
            waiting: Vec::new(alloc),
        }
    }

    fn take(&mut self, step: Step) -> Result<Option<u8>, AllocError> {
        let mut answer = 0;
        match (step, self.owner) {
            (Step::Send(to), Owner::Primary) if self.waiting.is_empty() => {
                self.owner = Owner::Going { to };
            }
            (Step::Left, Owner::Going { to }) => self.owner = Owner::Worker(to),
            (Step::Recall(to), Owner::Worker(from)) => {
                self.owner = Owner::Coming { from };
                self.note = to;
            }
            (Step::Recall(to), Owner::Going { to: from }) => {
                self.owner = Owner::Coming { from };
                self.note = to;
            }
            (Step::Renote(to), Owner::Coming { .. }) => self.note = to,
            (Step::Settle, Owner::Coming { .. }) => {
                self.owner = Owner::Primary;
                answer = self.note;
            }
            (Step::Wait(client), _) => self.waiting.push(client)?,
            (Step::Unwait(client), _) => self.waiting.retain(|other| *other != client),
            _ => return Ok(None),
        }
        Ok(Some(answer))
    }
}

fn count_out(files: &[Plain]) -> usize {
    files
        .iter()
        .filter(|file| file.owner != Owner::Primary)
        .count()
}

fn count_with(files: &[Plain], worker: u8) -> usize {
    files
        .iter()
        .filter(|file| {
            file.owner == Owner::Worker(worker) || file.owner == Owner::Going { to: worker }
        })
        .count()
}

fn agree<R: Abort>(rt: &R, table: &OwnerTable, files: &[Plain; 4]) {
    for file in 0..4u32 {
        let plain = &files[file as usize];
        same(rt, table.owner_of(file), plain.owner);
        same(rt, table.waiting(file), !plain.waiting.is_empty());
    }
    same(rt, table.count_out() as usize, count_out(files));
    for worker in 0..4u8 {
        let count = count_with(files, worker);
        same(rt, table.count_with(worker) as usize, count);
    }
}

// A step, the number that it answers, and then the owner, how many files are out, how many worker 1 has, and whether
// anybody waits.
type Row = (Step, Option<u8>, Owner, u32, u32, bool);

const ROWS: [Row; 12] = [
    (Step::Send(1), Some(0), Owner::Going { to: 1 }, 1, 1, false),
    (Step::Left, Some(0), Owner::Worker(1), 1, 1, false),
    (
        Step::Recall(0),
        Some(0),
        Owner::Coming { from: 1 },
        1,
        0,
        false,
    ),
    (
        Step::Wait(0),
        Some(0),
        Owner::Coming { from: 1 },
        1,
        0,
        true,
    ),
    (Step::Settle, Some(0), Owner::Primary, 0, 0, true),
    (Step::Send(1), None, Owner::Primary, 0, 0, true),
    (Step::Unwait(0), Some(0), Owner::Primary, 0, 0, false),
    (Step::Send(2), Some(0), Owner::Going { to: 2 }, 1, 0, false),
    (
        Step::Recall(1),
        Some(0),
        Owner::Coming { from: 2 },
        1,
        0,
        false,
    ),
    (
        Step::Renote(3),
        Some(0),
        Owner::Coming { from: 2 },
        1,
        0,
        false,
    ),
    (Step::Settle, Some(3), Owner::Primary, 0, 0, false),
    (Step::Settle, None, Owner::Primary, 0, 0, false),
];

fn some_if(some: bool, file: u32) -> Option<u32> {
    if some { Some(file) } else { None }
}

// Asserts what file 7 and the counts are after a step, and that file 8 is as ever.
fn goes<R: Abort>(rt: &R, table: &mut OwnerTable, row: &Row) {
    let (next, answer, owner, out, with, waiting) = *row;
    same(rt, take(table, 7, next).expect(rt, "memory"), answer);
    same(rt, table.owner_of(7), owner);
    same(rt, table.count_out(), out);
    same(rt, table.some_out(), some_if(out > 0, 7));
    same(rt, table.count_with(1), with);
    same(rt, table.waiting(7), waiting);
    same(rt, table.owner_of(8), Owner::Primary);
    same(rt, table.waiting(8), false);
}

#[test]
fn a_file_goes_and_comes_back(rt: HostRuntime) {
    let mut table = OwnerTable::new(rt.alloc());
    for row in &ROWS {
        goes(&rt, &mut table, row);
    }
}

fn step_of(word: u32) -> Step {
    let number = ((word >> 20) % 4) as u8;
    match (word >> 24) % 8 {
        0 => Step::Send(number),
        1 => Step::Left,
        2 => Step::Recall(number),
        3 => Step::Renote(number),
        4 => Step::Settle,
        5 => Step::Wait(number),
        _ => Step::Unwait(number),
    }
}

// Takes the step that the word has in both, and asserts that they agree.
fn turn<R: Abort>(rt: &R, table: &mut OwnerTable, files: &mut [Plain; 4], word: u32) {
    let file = (word >> 28) % 4;
    let next = step_of(word);
    let answer = take(table, file, next).expect(rt, "memory");
    let plain = files[file as usize].take(next).expect(rt, "memory");
    same(rt, plain, answer);
    agree(rt, table, files);
}

#[test]
fn a_walk_agrees_with_plain_files(rt: HostRuntime) {
    let alloc = rt.alloc();
    let mut table = OwnerTable::new(alloc);
    let mut files = [
        Plain::new(alloc),
        Plain::new(alloc),
        Plain::new(alloc),
        Plain::new(alloc),
    ];
    let mut word: u32 = 1;
    for _ in 0..2_000 {
        word = word.wrapping_mul(1_664_525).wrapping_add(1_013_904_223);
        turn(&rt, &mut table, &mut files, word);
    }
}
