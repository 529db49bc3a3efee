// Writing the last line of a command.
ghost use Rattle.std.specs.Prelude.{◌≡◌, ◌⊎◌};
ghost use Rattle.ufs_command.specs.Seen.{writing};
ghost use Rattle.ufs_command.specs.Endings.{IsAnswer, IsFixed, IsLine, status_of, sink_status};
ghost use Rattle.ufs_command.specs.declared.ending.Ending.TheVariants.{OutOfMemory};

use crate::ending::Ending;
use ufs_base::Lack;
use ufs_io::Sink;
use ufs_print::write_all;

/// The status of a fault of the sink, whatever else happened.
pub const SINK_FAULT: u8 = 7;

/// Writes a line, and ends.
pub fn tell<K: Sink>(sink: &mut K, ending: Ending, line: &[u8]) -> u8
    ensures answer { IsAnswer (IsLine ending line.now) (writing K.held K.faults sink.old sink.new) result }
    ensures status { (result ≡ status_of ending) ⊎ (result ≡ sink_status) }
{
    match write_all(sink, line) {
        Ok(()) => ending.status(),
        Err(_) => SINK_FAULT,
    }
}

/// Ends for want of memory, or where a number stands at its end.
pub fn out_of_memory<K: Sink>(sink: &mut K, _lack: Lack) -> u8
    ensures answer { IsAnswer (IsFixed OutOfMemory) (writing K.held K.faults sink.old sink.new) result }
    ensures status { (result ≡ status_of OutOfMemory) ⊎ (result ≡ sink_status) }
{
    finish(sink, Ending::OutOfMemory)
}

/// Ends with the line that is always the same.
pub fn finish<K: Sink>(sink: &mut K, ending: Ending) -> u8
    ensures answer { IsAnswer (IsFixed ending) (writing K.held K.faults sink.old sink.new) result }
    ensures status { (result ≡ status_of ending) ⊎ (result ≡ sink_status) }
{
    tell(sink, ending, ending.fixed_line())
}
