ghost use Rattle.std.specs.Prelude.{◌≡◌, ◌≢◌, IsTrue};
ghost use Rattle.ufs_command.specs.Lacked.{LacksRecovery};
ghost use Rattle.ufs_command.specs.Left.{Recovers};
ghost use Rattle.ufs_command.specs.Seen.{formatting, writing};
ghost use Rattle.ufs_command.specs.Texts.{recovered_line};
ghost use Rattle.ufs_command.specs.declared.ending.Ending.TheVariants.{Done};
ghost use Rattle.ufs_command.specs.Endings.{EndsRecovery, IsAnswer, IsLine};

use crate::ending::Ending;
use crate::image::{lack_of, tell_refusal};
use crate::last_line::tell;
use crate::outcome::Answered;
use arrayvec::ArrayString;
use itoa::Buffer;
use std::alloc::Global;
use ufs_disk::Disk;
use ufs_io::Sink;

// The line of how many transactions were committed. It takes no memory, so none is wanted once the disk is written.
fn recovered_line(count: u32) -> ArrayString<64>
    ensures { result.bytes ≡ recovered_line count }
{
    let mut digits = Buffer::new();
    let mut line = ArrayString::new();
    line.push_str("recovered ");
    line.push_str(digits.format(count));
    line.push_str("\n");
    line
}

fn tell_count<K: Sink>(sink: &mut K, count: u32) -> u8
    ensures { IsAnswer (IsLine Done (recovered_line count)) (writing K.held K.faults sink.old sink.new) result }
{
    let line = recovered_line(count);
    tell(sink, Ending::Done, line.as_bytes())
}

/// Makes the image on a disk clean, and tells how many transactions were committed in its journal, or why it isn't
/// recovered.
pub fn recover<K: Sink, D: Disk>(alloc: Global, sink: &mut K, disk: &mut D) -> Answered
    ensures answer { IsAnswer (EndsRecovery (formatting D.visible D.size D.moments D.faults disk.old disk.new)) (writing K.held K.faults sink.old sink.new) result.status }
    ensures acts { IsTrue D.visible → Recovers D.keeps (D.size disk.old) result.status (D.moments disk.old) (D.moments disk.new) }
    ensures size { D.size disk.new ≡ D.size disk.old }
    ensures disk_told { result.status ≢ 4 → result.status ≢ 7 → D.faults disk.new ≡ D.faults disk.old }
    ensures lacked { LacksRecovery D.visible D.keeps result.status result.lacked (D.moments disk.old) (D.moments disk.new) }
{
    match ufs_recovery::recover(alloc, disk) {
        Ok(count) => Answered {
            status: tell_count(sink, count),
            lacked: None,
        },
        Err(fault) => Answered {
            status: tell_refusal(sink, fault),
            lacked: lack_of(fault),
        },
    }
}
