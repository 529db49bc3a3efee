// Serving a script over a disk's image.
ghost use Rattle.std.specs.Prelude.{◌≡◌, ◌≢◌, [], Err, IfOk};
ghost use Rattle.ufs_base.specs.Faults.{raised};
ghost use Rattle.ufs_model.specs.History.{joined};
ghost use Rattle.ufs_engine.specs.Plays.{AreFaultsOf};
ghost use Rattle.ufs_told.specs.Told.{IsCountStill, devices_in};
ghost use Rattle.ufs_command.specs.Seen.{course, formatting, reading, writing};
ghost use Rattle.ufs_command.specs.Endings.{EndsBehind, EndsPlay, EndsPlayed, EndsPrinting, EndsServing, IsAnswer, TellsFault};
ghost use Rattle.ufs_command.specs.Left.{Plays};
ghost use Rattle.ufs_command.specs.Unscheduled.{BreaksUnscheduled, ReadsUnscheduled};
ghost use Rattle.ufs_print.specs.Printed.{session_lines};
ghost use Rattle.ufs_script.specs.Script.{IsOutside};
ghost use Rattle.ufs_script.specs.declared.fault.ScriptFault.{ScriptFault};
ghost use Rattle.ufs_script.specs.declared.fault.ScriptFault.TheVariants as script_fault;

use crate::broken::tell_fault;
use crate::ending::Ending;
use crate::image::{tell_device, tell_start};
use crate::last_line::{SINK_FAULT, out_of_memory};
use crate::laws::unserved_law;
use crate::outcome::{Outcome, nothing_told};
use std::alloc::Global;
use ufs_base::Lack;
use ufs_client::ToldLists;
use ufs_disk::Disk;
use ufs_engine::{PlayFault, play};
use ufs_io::{Sink, Source};
use ufs_print::{PrintFault, print};
use ufs_script::{Script, ScriptFault, read_placed};

// Writes the lines of the clients' transcripts, and then ends.
fn print_told<K: Sink>(alloc: Global, sink: &mut K, told: &ToldLists, trace: bool) -> u8
    ensures { IsAnswer (EndsPrinting (session_lines trace (joined told.now))) (writing K.held K.faults sink.old sink.new) result }
{
    match print(alloc, sink, told.as_slice(), trace) {
        Ok(()) => Ending::Done.status(),
        Err(PrintFault::Memory(memory)) => out_of_memory(sink, Lack::Memory(memory)),
        Err(PrintFault::Sink) => SINK_FAULT,
    }
}

// Writes them, and behind them the line of a fault of the disk.
fn print_behind<K: Sink>(
    alloc: Global,
    sink: &mut K,
    told: &ToldLists,
    trace: bool,
    fault: u64,
) -> u8
    ensures { IsAnswer (EndsBehind (session_lines trace (joined told.now)) fault) (writing K.held K.faults sink.old sink.new) result }
{
    match print(alloc, sink, told.as_slice(), trace) {
        Ok(()) => tell_device(sink, fault),
        Err(PrintFault::Memory(memory)) => out_of_memory(sink, Lack::Memory(memory)),
        Err(PrintFault::Sink) => SINK_FAULT,
    }
}

// Writes what a session that ended so has told, or why none began.
fn tell_played<K: Sink>(
    alloc: Global,
    sink: &mut K,
    told: &ToldLists,
    trace: bool,
    ended: Result<(), PlayFault>,
) -> u8
    ensures { IsAnswer (EndsPlayed ended (session_lines trace (joined told.now))) (writing K.held K.faults sink.old sink.new) result }
{
    match ended {
        Ok(()) => print_told(alloc, sink, told, trace),
        Err(PlayFault::Image(fault)) => tell_start(sink, fault),
        Err(PlayFault::Device { fault }) => print_behind(alloc, sink, told, trace, fault),
        Err(PlayFault::Stopped { fault }) => print_behind(alloc, sink, told, trace, fault),
        Err(PlayFault::Lack(lack)) => out_of_memory(sink, lack),
    }
}

// Serves a script over the disk's image, and writes its reply lines, and its trace where that is asked for.
fn serve_script<K: Sink, D: Disk>(
    alloc: Global,
    sink: &mut K,
    script: Script,
    trace: bool,
    disk: D,
) -> Outcome<D>
    ensures answer { IsAnswer (EndsServing trace (formatting D.visible D.size D.moments D.faults disk result.disk) script result.told) (writing K.held K.faults sink.old sink.new) result.status }
    ensures faults { AreFaultsOf (D.faults disk) (D.faults result.disk) (joined result.told) }
    ensures acts { Plays result.told result.status (course D.visible D.keeps D.size D.moments D.faults disk result.disk) }
    ensures size { D.size result.disk ≡ D.size disk }
    ensures disk_told { result.status ≢ 4 → result.status ≢ 7 → result.status ≢ 5 → devices_in (joined result.told) ≡ [] → IsCountStill (D.faults disk) (D.faults result.disk) }
{
    let played = play(alloc, script, 0, disk);
    Outcome {
        status: tell_played(alloc, sink, &played.told, trace, played.ended),
        lacked: None,
        told: played.told,
        disk: played.disk,
    }
}

// Ends with why there is no script. The disk is left as it was.
fn leave_unread<K: Sink, D: Disk>(
    alloc: Global,
    sink: &mut K,
    fault: ScriptFault,
    disk: D,
) -> Outcome<D>
    ensures answer { IsAnswer (TellsFault fault) (writing K.held K.faults sink.old sink.new) result.status }
    ensures told { result.told ≡ [] }
    ensures untouched { result.disk ≡ disk }
    ensures acts { Plays result.told result.status (course D.visible D.keeps D.size D.moments D.faults disk result.disk) }
{
    unserved_law(disk.sectors());
    let status = tell_fault(alloc, sink, fault);
    Outcome {
        status,
        lacked: None,
        told: nothing_told(alloc),
        disk,
    }
}

// Reads a script. One with a schedule is refused, since schedules aren't played yet.
fn read_unscheduled<S: Source>(alloc: Global, source: &mut S) -> Result<Script, ScriptFault>
    ensures cause { result ≡ Err script_fault.Source → S.faults source.new ≡ raised (S.faults source.old) }
    ensures counted { result ≢ Err script_fault.Source → S.faults source.new ≡ S.faults source.old }
    ensures script { IfOk result (ReadsUnscheduled (S.left source.old) (S.left source.new)) }
    ensures broken { (f : ScriptFault) → result ≡ Err f → ¬ IsOutside f → BreaksUnscheduled (S.left source.old) (S.left source.new) f }
{
    match read_placed(alloc, source) {
        Ok(placed) => match placed.schedule {
            None => Ok(placed.script),
            Some(line) => Err(ScriptFault::NotBuilt { line }),
        },
        Err(fault) => Err(fault),
    }
}

/// Reads a script, serves it over the disk's image, and writes its reply lines, and its trace where that is asked for. The
/// script is read whole before the disk is touched.
pub fn read_and_serve<S: Source, K: Sink, D: Disk>(
    alloc: Global,
    source: &mut S,
    sink: &mut K,
    trace: bool,
    disk: D,
) -> Outcome<D>
    ensures answer { IsAnswer (EndsPlay trace (reading S.left S.faults source.old source.new) (formatting D.visible D.size D.moments D.faults disk result.disk) result.told)
        (writing K.held K.faults sink.old sink.new) result.status }
    ensures faults { AreFaultsOf (D.faults disk) (D.faults result.disk) (joined result.told) }
    ensures acts { Plays result.told result.status (course D.visible D.keeps D.size D.moments D.faults disk result.disk) }
    ensures size { D.size result.disk ≡ D.size disk }
    ensures disk_told { result.status ≢ 4 → result.status ≢ 7 → result.status ≢ 5 → devices_in (joined result.told) ≡ [] → IsCountStill (D.faults disk) (D.faults result.disk) }
    ensures source_told { result.status ≢ 6 → result.status ≢ 7 → S.faults source.new ≡ S.faults source.old }
{
    match read_unscheduled(alloc, source) {
        Ok(script) => serve_script(alloc, sink, script, trace, disk),
        Err(fault) => leave_unread(alloc, sink, fault, disk),
    }
}
