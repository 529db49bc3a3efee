// A whole script, from its text.
ghost use Rattle.std.specs.Prelude.{◌≡◌, ◌≢◌, ◌≤◌, ◌<◌, ◌+◌, ◌^◌, [], ◌∷◌, Ok, IfOk, IfErr, map, length, fold, take};
ghost use Rattle.ufs_script.specs.Lines.{ended_lines, unended_line, all_unended, lines_in};
ghost use Rattle.ufs_script.specs.Script.{IsFaultOf, IsFew, draft_of, finished, placed_of, placed_script};

use crate::draft::{Draft, Schedule, after_line, all_clients, no_lines};
use crate::fault::ScriptFault;
use crate::lines::first_line;
use crate::lists::{OpLists, WordList};
use std::alloc::Global;

/// What a script asks for: each client's requests, how many workers serve them, and in which order
/// they get their turns.
#[derive(Drop)]
pub struct Script {
    /// By their numbers, from 0.
    pub clients: OpLists,
    /// 1 to 8 in a script that was read, and 1 where it has no line `schedule`.
    pub workers: u8,
    /// At most 1,000,000 in a script that was read, each of a client or a worker that it has.
    pub words: WordList,
}

/// A script, with the places of what isn't played everywhere.
#[derive(Drop)]
pub struct PlacedScript {
    pub script: Script,
    /// The number of the line `schedule`, if there is one. Where there is none, the script has one worker and no schedule word.
    pub schedule: Option<u32>,
    /// The number of the line with the first plan, if there is one.
    pub plan: Option<u32>,
}

/// The greatest length of a script, in bytes.
pub const MAX_SCRIPT: usize = 16_777_216;

// The draft of a text's lines with a line end, and what stands behind the last of them.
#[derive(Drop)]
struct Ended<'a> {
    draft: Draft,
    rest: &'a [u8],
}

// The lines that have a line end.
fn read_ended(alloc: Global, text: &[u8]) -> Result<Ended<'_>, ScriptFault>
    requires { length text.now ≤ 16777216 }
    ensures ok { IfOk result (λ ended. draft_of (ended_lines text.now) ≡ Ok ended.draft) }
    ensures rest { IfOk result (λ ended. unended_line text.now ≡ all_unended (ended.rest.now ∷ [])) }
    ensures err { IfErr result (IsFaultOf (draft_of (ended_lines text.now))) }
    ensures few { IfOk result (λ ended. IsFew ended.draft) }
    ensures counted { IfOk result (λ ended. ended.draft.lines ≤ 16777216) }
    ensures never { result ≢ Err ScriptFault.Source }
{
    let mut draft = no_lines(alloc);
    let mut rest = text;
    while let Some(cut) = first_line(rest) {
        draft = after_line(alloc, draft, cut.front)?;
        rest = cut.rest;
    }
    Ok(Ended { draft, rest })
}

// All lines.
fn read_lines(alloc: Global, text: &[u8]) -> Result<Draft, ScriptFault>
    requires { length text.now ≤ 16777216 }
    ensures ok { IfOk result (λ draft. draft_of (lines_in text.now) ≡ Ok draft) }
    ensures err { IfErr result (IsFaultOf (draft_of (lines_in text.now))) }
    ensures few { IfOk result IsFew }
    ensures never { result ≢ Err ScriptFault.Source }
{
    let Ended { draft, rest } = read_ended(alloc, text)?;
    if rest.is_empty() {
        return Ok(draft);
    }
    after_line(alloc, draft, rest)
}

// The first bytes of a text that has more.
fn front(text: &[u8], size: usize) -> &[u8]
    requires { size ≤ length text.now }
    ensures value { result.now ≡ take size text.now }
    ensures len { length result.now ≡ size }
{
    &text[..size]
}

// The script of some clients and their schedule.
fn placed(alloc: Global, clients: OpLists, schedule: Option<Schedule>) -> PlacedScript
    ensures { result ≡ placed_script clients schedule }
{
    match schedule {
        Some(
            Schedule {
                line,
                workers,
                words,
                plan,
            },
        ) => PlacedScript {
            script: Script {
                clients,
                workers,
                words,
            },
            schedule: Some(line),
            plan,
        },
        None => PlacedScript {
            script: Script {
                clients,
                workers: 1,
                words: WordList::new(alloc),
            },
            schedule: None,
            plan: None,
        },
    }
}

// The script of a text's lines, of which one has to be `end`.
fn finish(alloc: Global, draft: Draft) -> Result<PlacedScript, ScriptFault>
    requires { IsFew draft }
    ensures ok { IfOk result (λ placed. finished (Ok draft) ≡ Ok placed) }
    ensures err { IfErr result (IsFaultOf (finished (Ok draft))) }
    ensures never { result ≢ Err ScriptFault.Source }
{
    let Draft {
        lines,
        before,
        current,
        schedule,
        ended,
    } = draft;
    if !ended {
        return Err(ScriptFault::NoEnd { line: lines });
    }
    match all_clients(before, current) {
        Ok(clients) => Ok(placed(alloc, clients, schedule)),
        Err(cause) => Err(cause.at(lines)),
    }
}

/// The script that a text is, or its first break.
pub fn parse(alloc: Global, text: &[u8]) -> Result<PlacedScript, ScriptFault>
    ensures ok { IfOk result (λ placed. placed_of text.now ≡ Ok placed) }
    ensures err { IfErr result (IsFaultOf (placed_of text.now)) }
    ensures never { result ≢ Err ScriptFault.Source }
{
    if text.len() > MAX_SCRIPT {
        let ended = read_ended(alloc, front(text, MAX_SCRIPT))?;
        return Err(ScriptFault::TooLong {
            line: ended.draft.lines + 1,
        });
    }
    finish(alloc, read_lines(alloc, text)?)
}
