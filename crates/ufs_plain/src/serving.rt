ghost use Rattle.std.specs.Prelude.{◌≡◌, ◌≢◌, List, Err, IfOk, IfErr};
ghost use Rattle.ufs_base.specs.Faults.{raised};
ghost use Rattle.ufs_model.specs.declared.data.Entry.{Entry};
ghost use Rattle.ufs_plain.specs.Served.{TellsReplies};
ghost use Rattle.ufs_plain.specs.declared.serving.PlainFault.TheVariants as plain;
ghost use Rattle.ufs_script.specs.declared.fault.ScriptFault.{ScriptFault};
ghost use Rattle.ufs_script.specs.declared.fault.ScriptFault.TheVariants as fault;
ghost use Rattle.ufs_script.specs.Reading.{ReadsScript, ReadsBreak};
ghost use Rattle.ufs_script.specs.Script.{IsOutside};
ghost use Rattle.ufs_script.specs.declared.script.Script.{Script};

use crate::lines::lines;
use std::alloc::Global;
use ufs_base::Lack;
use ufs_io::Source;
use ufs_script::{Script, ScriptFault, read_script};
use ufs_tree::serve;

fn served(alloc: Global, script: Script) -> Result<Vec<u8>, Lack>
    ensures { IfOk result (λ text. (history : List Entry) × TellsReplies script text.items history) }
{
    let clients = script.clients.as_slice().len() as u8;
    let history = serve(alloc, script.clients)?;
    Ok(lines(alloc, clients, history.as_slice())?)
}

/// Why there are no replies.
#[derive(Clone, Copy, Debug, PartialEq, Eq)]
pub enum PlainFault {
    /// There is no script.
    Script(ScriptFault),
    /// No memory to serve it, or a count at its end.
    Lack(Lack),
}

/// Reads a script, serves it over a tree that begins with the root alone, and gives the text of its replies.
pub fn replies<S: Source>(alloc: Global, source: &mut S) -> Result<Vec<u8>, PlainFault>
    ensures ok { IfOk result (λ text. (script : Script) × (history : List Entry)
        × ReadsScript (S.left source.old) (S.left source.new) script × TellsReplies script text.items history) }
    ensures cause { result ≡ Err (plain.Script fault.Source) → S.faults source.new ≡ raised (S.faults source.old) }
    ensures counted { result ≢ Err (plain.Script fault.Source) → S.faults source.new ≡ S.faults source.old }
    ensures broken { (f : ScriptFault) → result ≡ Err (plain.Script f) → ¬ IsOutside f → ReadsBreak (S.left source.old) (S.left source.new) f }
{
    match read_script(alloc, source) {
        Ok(script) => match served(alloc, script) {
            Ok(text) => Ok(text),
            Err(lack) => Err(PlainFault::Lack(lack)),
        },
        Err(fault) => Err(PlainFault::Script(fault)),
    }
}
