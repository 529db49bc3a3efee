// Telling why an image isn't read.
ghost use Rattle.std.specs.Prelude.{◌≡◌, ◌≤◌, ◌⊎◌, length};
ghost use Rattle.ufs_command.specs.Texts.{device_line};
ghost use Rattle.ufs_print.specs.TreeLines.{numbered_line};
ghost use Rattle.ufs_command.specs.Seen.{writing};
ghost use Rattle.ufs_command.specs.declared.ending.Ending.TheVariants.{NoTree, DeviceFault};
ghost use Rattle.ufs_command.specs.Endings.{IsAnswer, IsLine, ending_of, lack_of, line_of, start_ending, start_line, status_of, sink_status};

use crate::ending::Ending;
use crate::last_line::{out_of_memory, tell};
use arrayvec::ArrayString;
use itoa::Buffer;
use ufs_base::Lack;
use ufs_io::Sink;
use ufs_opening::RecoverFault;
use ufs_start::StartFault;

/// The line of a fault of the disk. It takes no memory.
pub fn device_line(fault: u64) -> ArrayString<64>
    ensures { result.bytes ≡ device_line fault }
{
    let mut digits = Buffer::new();
    let mut line = ArrayString::new();
    line.push_str("ufs: device fault ");
    line.push_str(digits.format(fault));
    line.push_str("\n");
    line
}

// The line of a cause and its number. It takes no memory.
fn numbered_line(name: &str, number: u32) -> ArrayString<64>
    requires { length name.now ≤ 16 }
    ensures { result.bytes ≡ numbered_line name.now number }
{
    let mut digits = Buffer::new();
    let mut line = ArrayString::new();
    line.push_str("ufs: image: ");
    line.push_str(name);
    line.push_str(" ");
    line.push_str(digits.format(number));
    line.push_str("\n");
    line
}

fn tell_number<K: Sink>(sink: &mut K, name: &str, number: u32) -> u8
    requires { length name.now ≤ 16 }
    ensures answer { IsAnswer (IsLine NoTree (numbered_line name.now number)) (writing K.held K.faults sink.old sink.new) result }
    ensures status { (result ≡ status_of NoTree) ⊎ (result ≡ sink_status) }
{
    let line = numbered_line(name, number);
    tell(sink, Ending::NoTree, line.as_bytes())
}

/// Ends with the line of a fault of the disk. Takes no memory.
pub fn tell_device<K: Sink>(sink: &mut K, fault: u64) -> u8
    ensures answer { IsAnswer (IsLine DeviceFault (device_line fault)) (writing K.held K.faults sink.old sink.new) result }
    ensures status { (result ≡ status_of DeviceFault) ⊎ (result ≡ sink_status) }
{
    let line = device_line(fault);
    tell(sink, Ending::DeviceFault, line.as_bytes())
}

/// What was lacking where an image isn't read for want of something.
pub fn lack_of(fault: RecoverFault) -> Option<Lack>
    ensures { result ≡ lack_of fault }
{
    match fault {
        RecoverFault::Lack(lack) => Some(lack),
        RecoverFault::NoSuperblock => None,
        RecoverFault::BadVersion { .. } => None,
        RecoverFault::BadGeometry { .. } => None,
        RecoverFault::BadRecord { .. } => None,
        RecoverFault::BadTree { .. } => None,
        RecoverFault::Device { .. } => None,
    }
}

/// Ends with why an image isn't read. Takes no memory.
pub fn tell_refusal<K: Sink>(sink: &mut K, fault: RecoverFault) -> u8
    ensures answer { IsAnswer (IsLine (ending_of fault) (line_of fault)) (writing K.held K.faults sink.old sink.new) result }
    ensures status { (result ≡ status_of (ending_of fault)) ⊎ (result ≡ sink_status) }
{
    match fault {
        RecoverFault::NoSuperblock => {
            tell(
                sink,
                Ending::NoTree,
                b"ufs: image: NoSuperblock\n".as_slice(),
            )
        }
        RecoverFault::BadVersion { found } => tell_number(sink, "BadVersion", found),
        RecoverFault::BadGeometry { number } => tell_number(sink, "BadGeometry", u32::from(number)),
        RecoverFault::BadRecord { sector } => tell_number(sink, "BadRecord", sector),
        RecoverFault::BadTree { inode } => tell_number(sink, "BadTree", inode),
        RecoverFault::Device { fault } => tell_device(sink, fault),
        RecoverFault::Lack(lack) => out_of_memory(sink, lack),
    }
}

/// Ends with why no session begins with an image; what no server takes is told as a bad tree. Takes no memory.
pub fn tell_start<K: Sink>(sink: &mut K, fault: StartFault) -> u8
    ensures { IsAnswer (IsLine (start_ending fault) (start_line fault)) (writing K.held K.faults sink.old sink.new) result }
{
    match fault {
        StartFault::Image(fault) => tell_refusal(sink, fault),
        StartFault::Unreached { inode } => tell_number(sink, "BadTree", inode),
        StartFault::Unnamed { inode } => tell_number(sink, "BadTree", inode),
        StartFault::ExtraBlocks { inode } => tell_number(sink, "BadTree", inode),
    }
}
