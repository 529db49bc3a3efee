// A script line by line: what the lines so far came to.
ghost use Rattle.std.specs.Prelude.{◌≡◌, ◌≢◌, ◌≤◌, ◌<◌, ◌+◌, ◌^◌, ◌++◌, ◌∷◌, Ok, IfOk, IfErr, map, length};
ghost use Rattle.std.specs.Option.{option_to_list};
ghost use Rattle.ufs_base.specs.Wanting.{wanting};
ghost use Rattle.ufs_script.specs.Requests.{IsCauseOf};
ghost use Rattle.ufs_script.specs.Script.{IsFaultOf, IsFew, clients_of};
ghost use Rattle.ufs_script.specs.Script as specs;

use crate::fault::{Cause, ScriptFault};
use crate::lists::{OpList, OpLists, WordList};
use crate::places::{exactly, number_at, word_at};
use crate::request::request;
use crate::schedule::{MAX_WORKERS, number_within, plan_line, turns_behind};
use crate::verb::{Verb, verb_of};
use crate::words::words;
use std::alloc::Global;
use ufs_base::MAX_CLIENTS;

/// The schedule of the lines so far.
#[derive(Drop)]
pub struct Schedule {
    /// The number of the line `schedule`.
    pub line: u32,
    /// How many workers there are: 1 to 8.
    pub workers: u8,
    /// What gets the turns.
    pub words: WordList,
    /// The number of the line with the first plan, if there is one.
    pub plan: Option<u32>,
}

/// The clients and requests of the lines so far, and their schedule.
#[derive(Drop)]
pub struct Draft {
    /// How many lines there were, skipped ones too.
    pub lines: u32,
    /// The requests of the clients before the current one.
    pub before: OpLists,
    /// The requests of the current client, if there was a `client` line.
    pub current: Option<OpList>,
    /// The schedule, if there was a line `schedule`.
    pub schedule: Option<Schedule>,
    /// Whether there was the line `end`.
    pub ended: bool,
}

/// Before the first line. Takes no memory.
pub fn no_lines(alloc: Global) -> Draft
    ensures value { result ≡ specs.no_lines }
    ensures few { IsFew result }
{
    Draft {
        lines: 0,
        before: OpLists::new(alloc),
        current: None,
        schedule: None,
        ended: false,
    }
}

/// The requests of all clients so far.
pub fn all_clients(before: OpLists, current: Option<OpList>) -> Result<OpLists, Cause>
    requires { length (before ++ option_to_list current) ≤ MAX_CLIENTS }
    ensures ok { IfOk result (λ lists. lists ≡ before ++ option_to_list current) }
    ensures err { IfErr result (λ c. c ≡ Cause.Memory wanting) }
{
    let mut lists = before;
    if let Some(list) = current {
        lists.push(list)?;
    }
    Ok(lists)
}

// How many clients there are.
fn client_count(draft: &Draft) -> u64
    ensures { result ≡ length (clients_of draft.now) }
{
    let before = draft.before.as_slice().len() as u64;
    if draft.current.is_some() {
        before + 1
    } else {
        before
    }
}

// The words behind `client`: the number of clients so far.
fn client_line(alloc: Global, draft: Draft, words: &[&[u8]]) -> Result<Draft, Cause>
    requires { IsFew draft }
    ensures ok { IfOk result (λ new. specs.client_line draft (map (λ w. w.now) words.now) ≡ Ok new) }
    ensures err { IfErr result (IsCauseOf (specs.client_line draft (map (λ w. w.now) words.now))) }
    ensures few { IfOk result IsFew }
{
    let client = number_at(words, 0)?;
    let count = client_count(&draft);
    if client != count {
        return Err(Cause::BadNumber);
    }
    exactly(words, 1)?;
    if count >= OpLists::MAX as u64 {
        return Err(Cause::TooMany);
    }
    let Draft {
        lines,
        before,
        current,
        schedule,
        ended,
    } = draft;
    Ok(Draft {
        lines,
        before: all_clients(before, current)?,
        current: Some(OpList::new(alloc)),
        schedule,
        ended,
    })
}

// The words behind a request's verb.
fn request_line(alloc: Global, draft: Draft, verb: Verb, words: &[&[u8]]) -> Result<Draft, Cause>
    requires { IsFew draft }
    ensures ok { IfOk result (λ new. specs.request_line draft draft.current verb (map (λ w. w.now) words.now) ≡ Ok new) }
    ensures err { IfErr result (IsCauseOf (specs.request_line draft draft.current verb (map (λ w. w.now) words.now))) }
    ensures few { IfOk result IsFew }
{
    let Draft {
        lines,
        before,
        current,
        schedule,
        ended,
    } = draft;
    let Some(mut requests) = current else {
        return Err(Cause::NoClient);
    };
    let op = request(alloc, verb, words)?;
    if requests.as_slice().len() >= OpList::MAX {
        return Err(Cause::TooMany);
    }
    requests.push(op)?;
    Ok(Draft {
        lines,
        before,
        current: Some(requests),
        schedule,
        ended,
    })
}

// The words behind `schedule`: how many workers there are.
fn schedule_line(alloc: Global, draft: Draft, words: &[&[u8]]) -> Result<Draft, Cause>
    requires few { IsFew draft }
    requires room { draft.lines + 1 < 2 ^ 32 }
    ensures value { result ≡ specs.schedule_line draft (map (λ w. w.now) words.now) }
    ensures few { IfOk result IsFew }
{
    let word = word_at(words, 0)?;
    let workers = number_within(word, 1, u64::from(MAX_WORKERS) + 1)? as u8;
    exactly(words, 1)?;
    let schedule = Schedule {
        line: draft.lines + 1,
        workers,
        words: WordList::new(alloc),
        plan: None,
    };
    Ok(Draft {
        schedule: Some(schedule),
        ..draft
    })
}

// A line of the clients, or the one that ends their part.
fn client_part(alloc: Global, draft: Draft, first: &[u8], words: &[&[u8]]) -> Result<Draft, Cause>
    requires few { IsFew draft }
    requires room { draft.lines + 1 < 2 ^ 32 }
    ensures ok { IfOk result (λ new. specs.client_part draft first.now (map (λ w. w.now) words.now) ≡ Ok new) }
    ensures err { IfErr result (IsCauseOf (specs.client_part draft first.now (map (λ w. w.now) words.now))) }
    ensures few { IfOk result IsFew }
{
    if first == b"client".as_slice() {
        return client_line(alloc, draft, words);
    }
    if first == b"schedule".as_slice() {
        return schedule_line(alloc, draft, words);
    }
    match verb_of(first) {
        Some(verb) => request_line(alloc, draft, verb, words),
        None => Err(Cause::BadWord),
    }
}

// A line of schedule words, in a script with so many clients.
fn with_turns(
    alloc: Global,
    schedule: Schedule,
    clients: u8,
    number: u32,
    words: &[&[u8]],
) -> Result<Schedule, Cause>
    ensures ok { IfOk result (λ new. specs.with_turns clients number schedule (map (λ w. w.now) words.now) ≡ Ok new) }
    ensures err { IfErr result (IsCauseOf (specs.with_turns clients number schedule (map (λ w. w.now) words.now))) }
{
    let Schedule {
        line,
        workers,
        words: turns,
        plan,
    } = schedule;
    Ok(Schedule {
        line,
        workers,
        words: turns_behind(alloc, turns, words, clients, workers)?,
        plan: plan_line(plan, number, words),
    })
}

// A line that isn't `end`, by its words: all of them, the first one, and those behind it.
fn part_line(
    alloc: Global,
    draft: Draft,
    words: &[&[u8]],
    first: &[u8],
    rest: &[&[u8]],
) -> Result<Draft, Cause>
    requires all { map (λ w. w.now) words.now ≡ first.now ∷ map (λ w. w.now) rest.now }
    requires few { IsFew draft }
    requires room { draft.lines + 1 < 2 ^ 32 }
    ensures ok { IfOk result (λ new. specs.part_line draft draft.schedule first.now (map (λ w. w.now) rest.now) ≡ Ok new) }
    ensures err { IfErr result (IsCauseOf (specs.part_line draft draft.schedule first.now (map (λ w. w.now) rest.now))) }
    ensures few { IfOk result IsFew }
{
    let clients = client_count(&draft) as u8;
    let Draft {
        lines,
        before,
        current,
        schedule,
        ended,
    } = draft;
    let schedule = match schedule {
        Some(schedule) => with_turns(alloc, schedule, clients, lines + 1, words)?,
        None => {
            let draft = Draft {
                lines,
                before,
                current,
                schedule: None,
                ended,
            };
            return client_part(alloc, draft, first, rest);
        }
    };
    Ok(Draft {
        lines,
        before,
        current,
        schedule: Some(schedule),
        ended,
    })
}

// A line by its words: all of them, the first one, and those behind it.
fn line_by(
    alloc: Global,
    draft: Draft,
    words: &[&[u8]],
    first: &[u8],
    rest: &[&[u8]],
) -> Result<Draft, Cause>
    requires all { map (λ w. w.now) words.now ≡ first.now ∷ map (λ w. w.now) rest.now }
    requires few { IsFew draft }
    requires room { draft.lines + 1 < 2 ^ 32 }
    ensures ok { IfOk result (λ new. specs.line_by draft first.now (map (λ w. w.now) rest.now) ≡ Ok new) }
    ensures err { IfErr result (IsCauseOf (specs.line_by draft first.now (map (λ w. w.now) rest.now))) }
    ensures few { IfOk result IsFew }
{
    if first == b"end".as_slice() {
        exactly(rest, 0)?;
        return Ok(Draft {
            ended: true,
            ..draft
        });
    }
    part_line(alloc, draft, words, first, rest)
}

fn is_comment(word: &[u8]) -> bool
    ensures { result ≡ specs.is_comment word.now }
{
    match word {
        [b, ..] => *b == b'#',
        [] => false,
    }
}

// What a line's words ask for.
fn after_words(alloc: Global, draft: Draft, words: &[&[u8]]) -> Result<Draft, Cause>
    requires few { IsFew draft }
    requires room { draft.lines + 1 < 2 ^ 32 }
    ensures ok { IfOk result (λ new. specs.after_words draft (map (λ w. w.now) words.now) ≡ Ok new) }
    ensures err { IfErr result (IsCauseOf (specs.after_words draft (map (λ w. w.now) words.now))) }
    ensures few { IfOk result IsFew }
{
    let [first, rest @ ..] = words else {
        return Ok(draft);
    };
    if is_comment(first) {
        return Ok(draft);
    }
    if draft.ended {
        return Err(Cause::AfterEnd);
    }
    line_by(alloc, draft, words, first, rest)
}

/// The draft after one more line, which has no line end.
pub fn after_line(alloc: Global, draft: Draft, line: &[u8]) -> Result<Draft, ScriptFault>
    requires few { IsFew draft }
    requires room { draft.lines + 1 < 2 ^ 32 }
    ensures ok { IfOk result (λ new. specs.after_line (Ok draft) line.now ≡ Ok new) }
    ensures err { IfErr result (IsFaultOf (specs.after_line (Ok draft) line.now)) }
    ensures few { IfOk result IsFew }
    ensures counted { IfOk result (λ new. new.lines ≡ draft.lines + 1) }
    ensures never { result ≢ Err ScriptFault.Source }
{
    let number = draft.lines + 1;
    let words = words(alloc, line)?;
    match after_words(alloc, draft, words.as_slice()) {
        Ok(new) => Ok(Draft {
            lines: number,
            ..new
        }),
        Err(cause) => Err(cause.at(number)),
    }
}
