// Telling what is damaged in an image.
ghost use Rattle.std.specs.Prelude.{◌≡◌, ◌≢◌, [], IsTrue};
ghost use Rattle.ufs_metadata.specs.Reading.{IsReadOnly};
ghost use Rattle.ufs_command.specs.Seen.{formatting, writing};
ghost use Rattle.ufs_print.specs.DamageLines.{clean_line};
ghost use Rattle.ufs_command.specs.declared.ending.Ending.TheVariants.{Done};
ghost use Rattle.ufs_command.specs.Endings.{EndsCheck, EndsListing, IsAnswer, IsLine};
ghost use Rattle.ufs_command.specs.Lacked.{LacksReading};

use crate::ending::Ending;
use crate::image::{lack_of, tell_refusal};
use crate::last_line::{SINK_FAULT, tell};
use crate::outcome::Answered;
use std::alloc::Global;
use ufs_damage::DamageList;
use ufs_disk::Disk;
use ufs_io::Sink;
use ufs_print::print_damage;

fn tell_clean<K: Sink>(sink: &mut K) -> u8
    ensures { IsAnswer (IsLine Done clean_line) (writing K.held K.faults sink.old sink.new) result }
{
    tell(sink, Ending::Done, b"clean\n".as_slice())
}

// Writes the line of each damage, or that there is none, and then ends.
fn print_list<K: Sink>(sink: &mut K, list: &DamageList) -> u8
    ensures { IsAnswer (EndsListing list.now) (writing K.held K.faults sink.old sink.new) result }
{
    let damage = list.as_slice();
    if damage.is_empty() {
        return tell_clean(sink);
    }
    match print_damage(sink, damage) {
        Ok(()) => Ending::Damaged.status(),
        Err(_) => SINK_FAULT,
    }
}

/// Tells what is damaged in the image on a disk, or why it isn't looked at. Writes nothing on it.
pub fn check<K: Sink, D: Disk>(alloc: Global, sink: &mut K, disk: &mut D) -> Answered
    ensures answer { IsAnswer (EndsCheck (formatting D.visible D.size D.moments D.faults disk.old disk.new)) (writing K.held K.faults sink.old sink.new) result.status }
    ensures read_only { IsTrue D.visible → IsReadOnly D.keeps (D.moments disk.old) (D.moments disk.new) }
    ensures size { D.size disk.new ≡ D.size disk.old }
    ensures disk_told { result.status ≢ 4 → result.status ≢ 7 → D.faults disk.new ≡ D.faults disk.old }
    ensures lacked { LacksReading result.status result.lacked }
{
    match ufs_check::check(alloc, disk) {
        Ok(list) => Answered {
            status: print_list(sink, &list),
            lacked: None,
        },
        Err(fault) => Answered {
            status: tell_refusal(sink, fault),
            lacked: lack_of(fault),
        },
    }
}
