// Printing the tree that an image stands for.
ghost use Rattle.std.specs.Prelude.{◌≡◌, ◌≢◌, IsTrue};
ghost use Rattle.ufs_metadata.specs.Reading.{IsReadOnly};
ghost use Rattle.ufs_print.specs.TreeLines.{head_lines};
ghost use Rattle.ufs_command.specs.Seen.{formatting, writing};
ghost use Rattle.ufs_command.specs.Endings.{EndsPrinting, EndsTree, IsAnswer};
ghost use Rattle.ufs_command.specs.Lacked.{LacksReading};

use crate::ending::Ending;
use crate::image::{lack_of, tell_refusal};
use crate::last_line::{SINK_FAULT, out_of_memory};
use crate::outcome::Answered;
use std::alloc::Global;
use ufs_base::Lack;
use ufs_disk::Disk;
use ufs_io::Sink;
use ufs_opening::{PathHead, tree_heads};
use ufs_print::{MOST_SHOWN, PrintFault, print_heads};

// Writes the lines of what stands at these paths, and then ends.
fn print_whole<K: Sink>(alloc: Global, sink: &mut K, heads: &[PathHead]) -> Answered
    ensures answer { IsAnswer (EndsPrinting (head_lines heads.now)) (writing K.held K.faults sink.old sink.new) result.status }
    ensures lacked { LacksReading result.status result.lacked }
{
    match print_heads(alloc, sink, heads) {
        Ok(()) => Answered {
            status: Ending::Done.status(),
            lacked: None,
        },
        Err(PrintFault::Memory(memory)) => Answered {
            status: out_of_memory(sink, Lack::Memory(memory)),
            lacked: Some(Lack::Memory(memory)),
        },
        Err(PrintFault::Sink) => Answered {
            status: SINK_FAULT,
            lacked: None,
        },
    }
}

/// Prints the tree that the image on a disk stands for, or why it stands for none. Writes nothing on it, and reads
/// of a file no block behind the bytes that its line shows.
pub fn tree<K: Sink, D: Disk>(alloc: Global, sink: &mut K, disk: &mut D) -> Answered
    ensures answer { IsAnswer (EndsTree (formatting D.visible D.size D.moments D.faults disk.old disk.new)) (writing K.held K.faults sink.old sink.new) result.status }
    ensures read_only { IsTrue D.visible → IsReadOnly D.keeps (D.moments disk.old) (D.moments disk.new) }
    ensures size { D.size disk.new ≡ D.size disk.old }
    ensures disk_told { result.status ≢ 4 → result.status ≢ 7 → D.faults disk.new ≡ D.faults disk.old }
    ensures lacked { LacksReading result.status result.lacked }
{
    match tree_heads(alloc, disk, Some(MOST_SHOWN)) {
        Ok(heads) => print_whole(alloc, sink, heads.as_slice()),
        Err(fault) => Answered {
            status: tell_refusal(sink, fault),
            lacked: lack_of(fault),
        },
    }
}
