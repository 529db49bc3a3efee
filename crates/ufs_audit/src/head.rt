// The script at the front of a source.
ghost use Rattle.std.specs.Prelude.{◌≡◌, ◌≢◌, ◌<◌, ◌≤◌, ◌++◌, ◌∷◌, ◌⊎◌, [], ℕ, List, Ok, Err, None, IfOk, IfSome, IsTrue, ◌↔◌, length};
ghost use Rattle.ufs_base.specs.Faults.{raised};
ghost use Rattle.ufs_base.specs.declared.limits.TheConstants.{MAX_CLIENTS};
ghost use Rattle.ufs_script.specs.Script.{script_of, max_script, IsOutside};
ghost use Rattle.ufs_script.specs.declared.fault.ScriptFault.{ScriptFault};
ghost use Rattle.ufs_script.specs.declared.fault.ScriptFault.TheVariants as script_fault;
ghost use Rattle.ufs_base.specs.declared.memory.Memory.{Memory};
ghost use Rattle.ufs_audit.specs.Audit.{IsLine, IsEnded};
ghost use Rattle.ufs_audit.specs.Sources.{IsBlank, AreBlanks, IsEndWord, IsEndLine, HasBrokenScript};
ghost use Rattle.ufs_audit.specs.Ends.{HasHead, HasScriptHead, IsFrontCut};
ghost use Rattle.ufs_audit.specs.declared.fault.TextFault.TheVariants as text_fault;
ghost use Rattle.ufs_audit.specs.declared.fault.AuditFault.{AuditFault};
ghost use Rattle.ufs_audit.specs.declared.fault.AuditFault.TheVariants as fault;

use crate::fault::{AuditFault, TextFault};
use crate::reader::{Ahead, next_line};
use std::alloc::Global;
use ufs_io::{PlainSource, Source};
use ufs_lines::{behind, without_last};
use ufs_script::{Script, ScriptFault, a_longer_text_breaks_alike, read_script};

// The greatest length of a script, in bytes.
const MAX_SCRIPT: usize = 16_777_216;

fn is_blank(b: u8) -> bool
    ensures { IsTrue result ↔ IsBlank b }
{
    b == b' ' || b == b'\t'
}

// What follows the blanks at the front.
fn behind_blanks(text: &[u8]) -> &[u8]
    ensures { IsFrontCut text.now result.now }
{
    let mut rest = text;
    while let [first, more @ ..] = rest {
        if !is_blank(*first) {
            return rest;
        }
        rest = more;
    }
    rest
}

// Whether the only word is `end`.
fn is_end_word(line: &[u8]) -> bool
    ensures { IsTrue result ↔ IsEndWord line.now }
{
    let Some(after) = behind(behind_blanks(line), b"end") else {
        return false;
    };
    behind_blanks(after).is_empty()
}

// Whether a line, with its end, has `end` as its only word.
fn is_end_line(line: &[u8]) -> bool
    ensures { IsTrue result ↔ IsEndLine line.now }
{
    let Some(front) = without_last(line, b'\n') else {
        return false;
    };
    if is_end_word(front) {
        return true;
    }
    let Some(front) = without_last(front, b'\r') else {
        return false;
    };
    is_end_word(front)
}

// What stands at the front of a source, and whether its last line is the line `end`.
#[derive(Drop)]
struct Head {
    text: Vec<u8>,
    closed: bool,
}

/// The script at the front of a source, and whether its last line is the line `end`; if not, the source ended.
#[derive(Drop)]
pub struct ScriptHead {
    pub script: Script,
    pub closed: bool,
}

// What a source has through the line `end`, to its end, or past the greatest length of a script.
fn read_head<S: Source>(alloc: Global, source: &mut S, ahead: &mut Ahead) -> Result<Head, TextFault>
    requires none { ahead.old ≡ [] }
    ensures cause { result ≡ Err text_fault.Source → S.faults source.new ≡ raised (S.faults source.old) }
    ensures counted { result ≢ Err text_fault.Source → S.faults source.new ≡ S.faults source.old }
    ensures never { result ≢ Err text_fault.TooLong }
    ensures head { IfOk result (λ head. HasHead (S.left source.old) (S.left source.new) ahead.new head.text.items head.closed) }
{
    let mut text = Vec::new(alloc);
    while text.len() <= MAX_SCRIPT {
        let line = next_line(alloc, source, ahead, MAX_SCRIPT - text.len())?;
        text.extend_from_slice(line.as_slice())?;
        if is_end_line(line.as_slice()) {
            return Ok(Head { text, closed: true });
        }
        if without_last(line.as_slice(), b'\n').is_none() {
            return Ok(Head {
                text,
                closed: false,
            });
        }
    }
    Ok(Head {
        text,
        closed: false,
    })
}

// What an audit tells of a fault of a script's reader.
fn told_by(found: ScriptFault) -> AuditFault
    ensures broken { (broken : ScriptFault) → result ≡ fault.Script broken → found ≡ broken }
    ensures inside { (broken : ScriptFault) (memory : Memory) → result ≡ fault.Script broken → broken ≡ script_fault.Memory memory → ⊥ }
    ensures source { result ≢ fault.Source }
    ensures long { result ≢ fault.TextTooLong }
{
    match found {
        ScriptFault::Memory(memory) => AuditFault::from(memory),
        broken => AuditFault::Script(broken),
    }
}

// The script of a text.
fn script_of(alloc: Global, text: Vec<u8>) -> Result<Script, AuditFault>
    ensures ok { IfOk result (λ script. script_of text.items ≡ Ok script) }
    ensures short { IfOk result (λ script. length text.items ≤ max_script) }
    ensures broken { (broken : ScriptFault) → result ≡ Err (fault.Script broken) → script_of text.items ≡ Err broken }
    ensures inside { (broken : ScriptFault) → result ≡ Err (fault.Script broken) → ¬ IsOutside broken }
    ensures source { result ≢ Err fault.Source }
    ensures long { result ≢ Err fault.TextTooLong }
{
    a_longer_text_breaks_alike();
    let mut source = PlainSource::new(text);
    match read_script(alloc, &mut source) {
        Ok(script) => Ok(script),
        Err(found) => Err(told_by(found)),
    }
}

/// The script at the front of a source, through the first line whose only word is `end`.
pub fn read_script_head<S: Source>(
    alloc: Global,
    source: &mut S,
    ahead: &mut Ahead,
) -> Result<ScriptHead, AuditFault>
    requires none { ahead.old ≡ [] }
    ensures cause { result ≡ Err fault.Source → S.faults source.new ≡ raised (S.faults source.old) }
    ensures counted { result ≢ Err fault.Source → S.faults source.new ≡ S.faults source.old }
    ensures long { result ≢ Err fault.TextTooLong }
    ensures script { IfOk result (λ head. HasScriptHead (S.left source.old) (S.left source.new) ahead.new head.script head.closed) }
    ensures broken { (broken : ScriptFault) → result ≡ Err (fault.Script broken) → HasBrokenScript (S.left source.old) (S.left source.new) broken }
    ensures inside { (broken : ScriptFault) → result ≡ Err (fault.Script broken) → ¬ IsOutside broken }
{
    let head = read_head(alloc, source, ahead)?;
    let script = script_of(alloc, head.text)?;
    Ok(ScriptHead {
        script,
        closed: head.closed,
    })
}
