// Telling why a script is none.
ghost use Rattle.std.specs.Prelude.{◌≡◌, ◌⊎◌, IfOk};
ghost use Rattle.ufs_script.specs.declared.fault.ScriptFault.TheVariants.{Source};
ghost use Rattle.ufs_script.specs.Script.{IsOutside};
ghost use Rattle.ufs_command.specs.Texts.{cause_line, break_line};
ghost use Rattle.ufs_command.specs.Seen.{writing};
ghost use Rattle.ufs_command.specs.Endings.{IsAnswer, IsBreakLine, TellsFault};

use crate::ending::Ending;
use crate::last_line::{finish, out_of_memory, tell};
use std::alloc::{AllocError, Global};
use ufs_base::Lack;
use ufs_io::Sink;
use ufs_script::ScriptFault;

fn cause_line(alloc: Global, number: u32, name: &str) -> Result<Vec<u8>, AllocError>
    ensures { IfOk result (λ line. line.items ≡ cause_line number name.now) }
{
    let line = format!(in alloc; "ufs: line {number}: {name}\n")?;
    Ok(line.into_bytes())
}

// The number of the line and the name of the cause.
fn break_line(alloc: Global, fault: ScriptFault) -> Result<Vec<u8>, AllocError>
    requires { ¬ IsOutside fault }
    ensures { IfOk result (λ line. line.items ≡ break_line fault) }
{
    match fault {
        ScriptFault::NoClient { line } => cause_line(alloc, line, "NoClient"),
        ScriptFault::BadWord { line } => cause_line(alloc, line, "BadWord"),
        ScriptFault::BadNumber { line } => cause_line(alloc, line, "BadNumber"),
        ScriptFault::BadData { line } => cause_line(alloc, line, "BadData"),
        ScriptFault::TooMany { line } => cause_line(alloc, line, "TooMany"),
        ScriptFault::TooLong { line } => cause_line(alloc, line, "TooLong"),
        ScriptFault::NoEnd { line } => cause_line(alloc, line, "NoEnd"),
        ScriptFault::AfterEnd { line } => cause_line(alloc, line, "AfterEnd"),
        ScriptFault::NotBuilt { line } => cause_line(alloc, line, "NotBuilt"),
        ScriptFault::Source | ScriptFault::Memory(_) => unreachable!(),
    }
}

/// Ends with the line of a break.
pub fn tell_break<K: Sink>(alloc: Global, sink: &mut K, fault: ScriptFault) -> u8
    requires { ¬ IsOutside fault }
    ensures answer { IsAnswer (IsBreakLine fault) (writing K.held K.faults sink.old sink.new) result }
{
    match break_line(alloc, fault) {
        Ok(line) => tell(sink, Ending::BadScript, line.as_slice()),
        Err(refused) => out_of_memory(sink, Lack::from(refused)),
    }
}

/// Ends with why there is no script.
pub fn tell_fault<K: Sink>(alloc: Global, sink: &mut K, fault: ScriptFault) -> u8
    ensures answer { IsAnswer (TellsFault fault) (writing K.held K.faults sink.old sink.new) result }
    ensures told { fault ≡ Source → (result ≡ 6) ⊎ (result ≡ 7) }
{
    match fault {
        ScriptFault::Memory(memory) => out_of_memory(sink, Lack::Memory(memory)),
        ScriptFault::Source => finish(sink, Ending::SourceFault),
        fault => tell_break(alloc, sink, fault),
    }
}
