ghost use Rattle.std.specs.Prelude.{◌≡◌, ◌≢◌, ◌≤◌, ◌<◌, ◌+◌, ◌^◌, ◌↔◌, ◌∷◌, [], ℕ, List, Ok, Err, None, Some, IsTrue, IfOk, OnOk, IfSome, length};
ghost use Rattle.ufs_base.specs.Faults.{raised};
ghost use Rattle.ufs_model.specs.Start.{IsPathTree, start_of};
ghost use Rattle.ufs_script.specs.Script.{IsOutside};
ghost use Rattle.ufs_script.specs.declared.fault.ScriptFault.{ScriptFault};
ghost use Rattle.ufs_audit.specs.Audit.{IsLine, IsVerdict};
ghost use Rattle.ufs_audit.specs.Sources.{max_text, HasVerdict, HasLongText, HasBrokenScript};
ghost use Rattle.ufs_audit.specs.Ends.{Passes, EndVerdict, ReadsRest, TraceVerdict, SoFarVerdict, TextVerdict, HasScriptHead};
ghost use Rattle.ufs_audit.specs.declared.fault.AuditFault.TheVariants as fault;
ghost use Rattle.ufs_audit.specs.declared.fault.TextFault.TheVariants as text_fault;

use crate::answers::{AnswerList, read_answers, text_line};
use crate::fault::{AuditFault, TextFault};
use crate::head::read_script_head;
use crate::reader::Ahead;
use crate::state::State;
use crate::verdict::{Verdict, Wrong};
use std::alloc::Global;
use ufs_io::{PlainSource, Source};
use ufs_lines::{a_line_tells_one_thing, without_last};
use ufs_model::PathTree;
use ufs_script::OpList;
use ufs_tree::Tree;

// The greatest length of a text, in bytes.
const MAX_TEXT: usize = 268_435_456;

// The verdict at the end of a trace, behind which this line without its end stands.
fn verdict_at_end(state: &State, clients: &[OpList], ticket: u64, line: &[u8]) -> Verdict
    requires many { length state.now.counts.items ≡ length clients.now }
    ensures { EndVerdict clients.now state.now.tree state.now.counts.items state.now.faults.keys ticket line.now result }
{
    if line.is_empty() && state.is_complete(clients) {
        Verdict::Legal { entries: ticket }
    } else {
        Verdict::Illegal {
            ticket,
            cause: Wrong::Text,
        }
    }
}

// Whether the trace is that of a legal history from the tree, of these requests with these replies.
fn audit_trace<S: Source>(
    alloc: Global,
    source: &mut S,
    ahead: &mut Ahead,
    room: &mut usize,
    clients: &[OpList],
    answers: &[AnswerList],
    tree: Tree,
) -> Result<Verdict, TextFault>
    requires few { length clients.now ≤ 16 }
    requires numbers { tree.next ≤ 2 ^ 30 }
    ensures cause { result ≡ Err text_fault.Source → S.faults source.new ≡ raised (S.faults source.old) }
    ensures counted { result ≢ Err text_fault.Source → S.faults source.new ≡ S.faults source.old }
    ensures long { result ≡ Err text_fault.TooLong → Passes (S.left source.old) (S.left source.new) ahead.old ahead.new room.old }
    ensures verdict { IfOk result (TraceVerdict tree clients.now answers.now (S.left source.old) (S.left source.new) ahead.old ahead.new room.old room.new) }
{
    a_line_tells_one_thing();
    let mut state = State::new(alloc, clients, tree)?;
    let mut line = text_line(alloc, source, ahead, room)?;
    let mut ticket = 0u64;
    while let Some(front) = without_last(line.as_slice(), b'\n') {
        if let Some(cause) = state.step(alloc, clients, answers, ticket, front)? {
            return Ok(Verdict::Illegal { ticket, cause });
        }
        line = text_line(alloc, source, ahead, room)?;
        ticket += 1;
    }
    Ok(verdict_at_end(&state, clients, ticket, line.as_slice()))
}

// Reads what is left of the text.
fn read_rest<S: Source>(
    alloc: Global,
    source: &mut S,
    ahead: &mut Ahead,
    room: &mut usize,
) -> Result<(), TextFault>
    ensures cause { result ≡ Err text_fault.Source → S.faults source.new ≡ raised (S.faults source.old) }
    ensures counted { result ≢ Err text_fault.Source → S.faults source.new ≡ S.faults source.old }
    ensures long { result ≡ Err text_fault.TooLong → Passes (S.left source.old) (S.left source.new) ahead.old ahead.new room.old }
    ensures rest { OnOk result (ReadsRest (S.left source.old) (S.left source.new) ahead.old ahead.new room.old room.new) }
{
    let mut more = true;
    while more {
        let line = text_line(alloc, source, ahead, room)?;
        more = without_last(line.as_slice(), b'\n').is_some();
    }
    Ok(())
}

// The verdict on what was read so far, if nothing that follows turns it.
fn audit_front<S: Source>(
    alloc: Global,
    source: &mut S,
    ahead: &mut Ahead,
    room: &mut usize,
    clients: &[OpList],
    tree: Tree,
) -> Result<Verdict, TextFault>
    requires few { length clients.now ≤ 16 }
    requires numbers { tree.next ≤ 2 ^ 30 }
    ensures cause { result ≡ Err text_fault.Source → S.faults source.new ≡ raised (S.faults source.old) }
    ensures counted { result ≢ Err text_fault.Source → S.faults source.new ≡ S.faults source.old }
    ensures long { result ≡ Err text_fault.TooLong → Passes (S.left source.old) (S.left source.new) ahead.old ahead.new room.old }
    ensures verdict { IfOk result (SoFarVerdict tree clients.now (S.left source.old) (S.left source.new) ahead.old ahead.new room.old room.new) }
{
    let Some(answers) = read_answers(alloc, source, ahead, room, clients)? else {
        return Ok(Verdict::Illegal {
            ticket: 0,
            cause: Wrong::Text,
        });
    };
    audit_trace(
        alloc,
        source,
        ahead,
        room,
        clients,
        answers.as_slice(),
        tree,
    )
}

// The verdict on all that the source has left.
fn audit_text<S: Source>(
    alloc: Global,
    source: &mut S,
    ahead: &mut Ahead,
    clients: &[OpList],
    tree: Tree,
) -> Result<Verdict, TextFault>
    requires few { length clients.now ≤ 16 }
    requires numbers { tree.next ≤ 2 ^ 30 }
    ensures cause { result ≡ Err text_fault.Source → S.faults source.new ≡ raised (S.faults source.old) }
    ensures counted { result ≢ Err text_fault.Source → S.faults source.new ≡ S.faults source.old }
    ensures long { result ≡ Err text_fault.TooLong → Passes (S.left source.old) (S.left source.new) ahead.old ahead.new max_text }
    ensures verdict { IfOk result (TextVerdict tree clients.now (S.left source.old) (S.left source.new) ahead.old ahead.new max_text) }
{
    let mut room = MAX_TEXT;
    let verdict = audit_front(alloc, source, ahead, &mut room, clients, tree)?;
    read_rest(alloc, source, ahead, &mut room)?;
    Ok(verdict)
}

// The verdict where the source ended with the script, and there is no text.
fn audit_no_text(alloc: Global, clients: &[OpList], tree: Tree) -> Result<Verdict, TextFault>
    requires few { length clients.now ≤ 16 }
    requires numbers { tree.next ≤ 2 ^ 30 }
    ensures source { result ≢ Err text_fault.Source }
    ensures long { result ≢ Err text_fault.TooLong }
    ensures verdict { IfOk result (IsVerdict tree clients.now []) }
{
    let mut source = PlainSource::new(Vec::new(alloc));
    let mut ahead = Ahead::new(alloc);
    audit_text(alloc, &mut source, &mut ahead, clients, tree)
}

/// Whether a source has a script, through the first line whose only word is `end`, and then the text of a legal history
/// of its requests from a tree; or the first ticket at which the text isn't that. The source is read to its end, or past
/// the greatest length of a text; a script that breaks a rule is read no further.
pub fn audit<S: Source>(
    alloc: Global,
    source: &mut S,
    start: &PathTree,
) -> Result<Verdict, AuditFault>
    requires paths { IsPathTree start.now }
    requires files { (start_of start.now).next ≤ 2 ^ 30 }
    ensures cause { result ≡ Err fault.Source → S.faults source.new ≡ raised (S.faults source.old) }
    ensures counted { result ≢ Err fault.Source → S.faults source.new ≡ S.faults source.old }
    ensures verdict { IfOk result (HasVerdict (start_of start.now) (S.left source.old) (S.left source.new)) }
    ensures long { result ≡ Err fault.TextTooLong → HasLongText (S.left source.old) (S.left source.new) }
    ensures broken { (broken : ScriptFault) → result ≡ Err (fault.Script broken) → HasBrokenScript (S.left source.old) (S.left source.new) broken }
    ensures inside { (broken : ScriptFault) → result ≡ Err (fault.Script broken) → ¬ IsOutside broken }
{
    let mut ahead = Ahead::new(alloc);
    let head = read_script_head(alloc, source, &mut ahead)?;
    let tree = Tree::start(alloc, start)?;
    let clients = head.script.clients.as_slice();
    if !head.closed {
        let verdict = audit_no_text(alloc, clients, tree)?;
        return Ok(verdict);
    }
    let verdict = audit_text(alloc, source, &mut ahead, clients, tree)?;
    Ok(verdict)
}
