// The reading of a script from a source.
ghost use Rattle.std.specs.Prelude.{◌≡◌, ◌≢◌, ◌≤◌, IfOk, IfErr, length};
ghost use Rattle.ufs_base.specs.Faults.{raised};
ghost use Rattle.ufs_script.specs.Schedule.{IsScheduled};
ghost use Rattle.ufs_script.specs.Script.{IsOutside, IsPlaced};
ghost use Rattle.ufs_script.specs.declared.fault.ScriptFault.{ScriptFault};
ghost use Rattle.ufs_script.specs.Reading.{HasRead, ReadsPlaced, ReadsScript, ReadsBreak, TakesAtMost, ReadsEachOnce};

use crate::fault::ScriptFault;
use crate::script::{MAX_SCRIPT, PlacedScript, Script, parse};
use std::alloc::Global;
use ufs_base::MAX_CLIENTS;
use ufs_io::Source;

// The most bytes of a read.
const PIECE: usize = 65_536;

// The number of reads that suffices: each but the last gives a byte, and one byte past the greatest
// length is enough.
const MAX_READS: u32 = 16_777_218;

// Reads to the source's end, or past the greatest length of a script.
fn read_all<S: Source>(alloc: Global, source: &mut S) -> Result<Vec<u8>, ScriptFault>
    ensures cause { result ≡ Err ScriptFault.Source →
        S.faults source.new ≡ raised (S.faults source.old) }
    ensures counted { result ≢ Err ScriptFault.Source →
        S.faults source.new ≡ S.faults source.old }
    ensures outside { IfErr result IsOutside }
    ensures text { IfOk result (λ text. HasRead (S.left source.old) (S.left source.new) text.items) }
    ensures most { TakesAtMost (S.left source.old) (S.left source.new) }
    ensures once { ReadsEachOnce (S.left source.old) (S.left source.new)
        (S.reads source.old) (S.reads source.new) }
{
    let mut text = Vec::new(alloc);
    let mut buf = [0u8; PIECE];
    for _turn in 0..MAX_READS {
        let count = match source.read(&mut buf) {
            Ok(count) => count,
            Err(_) => return Err(ScriptFault::Source),
        };
        if count == 0 {
            return Ok(text);
        }
        text.extend_from_slice(&buf[..count])?;
        if text.len() > MAX_SCRIPT {
            return Ok(text);
        }
    }
    unreachable!()
}

/// Reads a script, to the source's end or past the greatest length of a script, 16,777,216 bytes,
/// by at most 16,777,218 reads, and tells where its schedule begins.
///
/// An error that is neither `Source` nor `Memory` is the text's first break.
pub fn read_placed<S: Source>(alloc: Global, source: &mut S) -> Result<PlacedScript, ScriptFault>
    ensures cause { result ≡ Err ScriptFault.Source →
        S.faults source.new ≡ raised (S.faults source.old) }
    ensures counted { result ≢ Err ScriptFault.Source →
        S.faults source.new ≡ S.faults source.old }
    ensures placed { IfOk result (ReadsPlaced (S.left source.old) (S.left source.new)) }
    ensures broken { (fault : ScriptFault) → result ≡ Err fault → ¬ IsOutside fault →
        ReadsBreak (S.left source.old) (S.left source.new) fault }
    ensures most { TakesAtMost (S.left source.old) (S.left source.new) }
    ensures once { ReadsEachOnce (S.left source.old) (S.left source.new)
        (S.reads source.old) (S.reads source.new) }
    ensures clients { IfOk result (λ placed. length placed.script.clients ≤ MAX_CLIENTS) }
    ensures known { IfOk result IsPlaced }
{
    let text = read_all(alloc, source)?;
    let placed = parse(alloc, text.as_slice())?;
    // For the prover alone.
    let _clients = placed.script.clients.as_slice();
    Ok(placed)
}

/// Reads a script, as `read_placed` does.
pub fn read_script<S: Source>(alloc: Global, source: &mut S) -> Result<Script, ScriptFault>
    ensures cause { result ≡ Err ScriptFault.Source →
        S.faults source.new ≡ raised (S.faults source.old) }
    ensures counted { result ≢ Err ScriptFault.Source →
        S.faults source.new ≡ S.faults source.old }
    ensures script { IfOk result (ReadsScript (S.left source.old) (S.left source.new)) }
    ensures broken { (fault : ScriptFault) → result ≡ Err fault → ¬ IsOutside fault →
        ReadsBreak (S.left source.old) (S.left source.new) fault }
    ensures most { TakesAtMost (S.left source.old) (S.left source.new) }
    ensures once { ReadsEachOnce (S.left source.old) (S.left source.new)
        (S.reads source.old) (S.reads source.new) }
    ensures clients { IfOk result (λ script. length script.clients ≤ MAX_CLIENTS) }
    ensures scheduled { IfOk result IsScheduled }
{
    let placed = read_placed(alloc, source)?;
    Ok(placed.script)
}
