// Telling why nothing is done.
ghost use Rattle.std.specs.Prelude.{◌≡◌, ◌⊎◌};
ghost use Rattle.ufs_command.specs.Endings.{IsAnswer, IsLine, sink_status, status_of};
ghost use Rattle.ufs_command.specs.Seen.{writing};
ghost use Rattle.ufs_process.specs.Refusals.{mirror_ending, mirror_line};

use ufs_command::{Ending, tell, tell_device};
use ufs_io::Sink;
use ufs_mirror::MirrorFault;

/// Ends with why two legs make no mirror. Takes no memory.
pub fn tell_mirror_fault<K: Sink>(sink: &mut K, fault: MirrorFault) -> u8
    ensures answer { IsAnswer (IsLine (mirror_ending fault) (mirror_line fault)) (writing K.held K.faults sink.old sink.new) result }
    ensures status { (result ≡ status_of (mirror_ending fault)) ⊎ (result ≡ sink_status) }
{
    match fault {
        MirrorFault::NoLabel => tell(sink, Ending::NoTree, b"ufs: mirror: NoLabel\n".as_slice()),
        MirrorFault::Unequal { .. } => {
            tell(sink, Ending::NoTree, b"ufs: mirror: Unequal\n".as_slice())
        }
        MirrorFault::TooSmall => tell(sink, Ending::NoTree, b"ufs: mirror: TooSmall\n".as_slice()),
        MirrorFault::Device { fault } => tell_device(sink, fault),
    }
}
