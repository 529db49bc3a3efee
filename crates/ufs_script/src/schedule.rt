// The schedule words of a script.
ghost use Rattle.std.specs.Prelude.{◌≡◌, ◌==◌, ◌<◌, ◌+◌, Ok, IfOk, IfErr, codes, map, length, position};
ghost use Rattle.std.specs.List.{list_any};
ghost use Rattle.std.specs.Str.{bytes_eq};
ghost use Rattle.ufs_script.specs.Requests.{IsCauseOf};
ghost use Rattle.ufs_script.specs.Schedule.{limited, max_words, turns_of};
ghost use Rattle.ufs_script.specs.Schedule as specs;

use crate::fault::Cause;
use crate::lists::{ScheduleWord, WordList};
use crate::words::{number, path, place_of};
use std::alloc::Global;

/// The most workers of a script.
pub const MAX_WORKERS: u8 = 8;

// The most ticks by which one word moves the clock.
const MAX_TICKS: u64 = 65_535;

/// A number from the first one on, and below the end.
pub fn number_within(text: &[u8], first: u64, end: u64) -> Result<u64, Cause>
    ensures value { result ≡ specs.number_within first end text.now }
    ensures below { IfOk result (λ n. n < end) }
{
    let Some(n) = number(text) else {
        return Err(Cause::BadNumber);
    };
    if n >= first && n < end {
        Ok(n)
    } else {
        Err(Cause::BadNumber)
    }
}

// What stands behind `m`: a number, and behind the first `:` a path.
fn move_of(alloc: Global, text: &[u8], workers: u8) -> Result<ScheduleWord, Cause>
    ensures ok { IfOk result (λ t. specs.move_of workers text.now (position (λ b. b == 58) text.now) ≡ Ok t) }
    ensures err { IfErr result (IsCauseOf (specs.move_of workers text.now (position (λ b. b == 58) text.now))) }
{
    let Some(colon) = place_of(text, b':') else {
        return Err(Cause::BadWord);
    };
    let to = number_within(&text[..colon], 0, u64::from(workers) + 1)? as u8;
    let path = path(alloc, &text[colon + 1..])?;
    Ok(ScheduleWord::Move { path, to })
}

// What a word means that begins with its kind's letter.
fn turn_by(alloc: Global, word: &[u8], clients: u8, workers: u8) -> Result<ScheduleWord, Cause>
    ensures ok { IfOk result (λ t. specs.turn_by clients workers word.now ≡ Ok t) }
    ensures err { IfErr result (IsCauseOf (specs.turn_by clients workers word.now)) }
{
    let [letter, text @ ..] = word else {
        return Err(Cause::BadWord);
    };
    if *letter == b'c' {
        let client = number_within(text, 0, u64::from(clients))? as u8;
        return Ok(ScheduleWord::Client(client));
    }
    if *letter == b'w' {
        let worker = number_within(text, 1, u64::from(workers) + 1)? as u8;
        return Ok(ScheduleWord::Worker(worker));
    }
    if *letter == b't' {
        let ticks = number_within(text, 1, MAX_TICKS + 1)? as u16;
        return Ok(ScheduleWord::Ticks(ticks));
    }
    if *letter == b'm' {
        return move_of(alloc, text, workers);
    }
    Err(Cause::BadWord)
}

// What gets a turn by a word, in a script with so many clients and workers.
fn turn_of(alloc: Global, word: &[u8], clients: u8, workers: u8) -> Result<ScheduleWord, Cause>
    ensures ok { IfOk result (λ t. specs.turn_of clients workers word.now ≡ Ok t) }
    ensures err { IfErr result (IsCauseOf (specs.turn_of clients workers word.now)) }
{
    if word == b"p".as_slice() {
        return Ok(ScheduleWord::Primary);
    }
    if word == b"l".as_slice() {
        return Ok(ScheduleWord::Plan);
    }
    turn_by(alloc, word, clients, workers)
}

// Adds what a line's words give turns to.
fn put_turns(
    alloc: Global,
    turns: WordList,
    words: &[&[u8]],
    clients: u8,
    workers: u8,
) -> Result<WordList, Cause>
    ensures ok { IfOk result (λ list. turns_of clients workers turns (map (λ w. w.now) words.now) ≡ Ok list) }
    ensures err { IfErr result (IsCauseOf (turns_of clients workers turns (map (λ w. w.now) words.now))) }
    ensures len { IfOk result (λ list. length list ≡ length turns + length words.now) }
{
    let mut list = turns;
    for word in words {
        let turn = turn_of(alloc, word, clients, workers)?;
        list.push(turn)?;
    }
    Ok(list)
}

// What is wrong with too many words behind some turns. They are all looked at, and none is kept.
fn too_many(alloc: Global, turns: &WordList, words: &[&[u8]], clients: u8, workers: u8) -> Cause
    requires { max_words < length turns.now + length words.now }
    ensures { IsCauseOf (limited (turns_of clients workers turns.now (map (λ w. w.now) words.now))) result }
{
    for word in words {
        match turn_of(alloc, word, clients, workers) {
            Ok(_turn) => {}
            Err(cause) => return cause,
        }
    }
    Cause::TooMany
}

/// The turns of a line's words, behind those of the lines before it.
pub fn turns_behind(
    alloc: Global,
    turns: WordList,
    words: &[&[u8]],
    clients: u8,
    workers: u8,
) -> Result<WordList, Cause>
    ensures ok { IfOk result (λ list. limited (turns_of clients workers turns (map (λ w. w.now) words.now)) ≡ Ok list) }
    ensures err { IfErr result (IsCauseOf (limited (turns_of clients workers turns (map (λ w. w.now) words.now)))) }
{
    let most = WordList::MAX;
    if words.len() > most || turns.as_slice().len() > most - words.len() {
        return Err(too_many(alloc, &turns, words, clients, workers));
    }
    put_turns(alloc, turns, words, clients, workers)
}

// Whether one of a line's words asks for a plan.
fn asks_plan(words: &[&[u8]]) -> bool
    ensures { result ≡ list_any (λ w. bytes_eq w.now (codes "l")) words.now }
{
    words.iter().any(|word| *word == b"l".as_slice())
}

/// The line of the first plan, behind a line of schedule words.
#[tactic(auto, using(crate::proofs::TurnLemmas::plans_alike))]
pub fn plan_line(before: Option<u32>, now: u32, words: &[&[u8]]) -> Option<u32>
    ensures { result ≡ specs.plan_line before now (map (λ w. w.now) words.now) }
{
    if let Some(line) = before {
        return Some(line);
    }
    if asks_plan(words) { Some(now) } else { None }
}
