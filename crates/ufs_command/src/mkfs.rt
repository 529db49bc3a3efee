ghost use Rattle.std.specs.Prelude.{ℕ, ◌≡◌, ◌≢◌, ◌<◌, None, IsTrue, IfOk};
ghost use Rattle.ufs_disk.specs.Moments.{LeavesOnly, reads};
ghost use Rattle.ufs_layout.specs.Areas.{IsGeometry, geometry_refusal, sector_count};
ghost use Rattle.ufs_recover.specs.Stopped.{IsNewDisk, IsStopped};
ghost use Rattle.ufs_recover.specs.Tables.{IsOutside};
ghost use Rattle.ufs_command.specs.Texts.{made_line, device_line};
ghost use Rattle.ufs_command.specs.Seen.{formatting, writing};
ghost use Rattle.ufs_command.specs.Endings.{EndsMkfs, IsAnswer};

use crate::ending::Ending;
use crate::image::device_line;
use crate::last_line::{finish, out_of_memory, tell};
use std::alloc::{AllocError, Global};
use ufs_base::Lack;
use ufs_disk::Disk;
use ufs_io::Sink;
use ufs_layout::Geometry;
use ufs_recover::{FormatFault, format};

// The line of a new image: blocks, inodes, journal sectors and data blocks.
fn made_line(alloc: Global, geometry: &Geometry) -> Result<Vec<u8>, AllocError>
    requires { IsGeometry geometry.now }
    ensures { IfOk result (λ line. line.items ≡ made_line geometry.now) }
{
    let blocks = geometry.blocks;
    let inodes = geometry.inodes;
    let journal = geometry.journal;
    let data = blocks - geometry.first_of_data();
    let line = format!(in alloc; "made {blocks} {inodes} {journal} {data}\n")?;
    Ok(line.into_bytes())
}

// Memory is wanted for the line of a new image alone, before the disk is touched.
fn format_disk<K: Sink, D: Disk>(
    alloc: Global,
    geometry: &Geometry,
    sink: &mut K,
    disk: &mut D,
) -> u8
    requires limits { IsGeometry geometry.now }
    requires taken { geometry_refusal geometry.now ≡ None }
    ensures answer { IsAnswer (EndsMkfs geometry.now (formatting D.visible D.size D.moments D.faults disk.old disk.new)) (writing K.held K.faults sink.old sink.new) result }
    ensures formatted { IsTrue D.visible → result ≡ 0 → IsNewDisk geometry.now (D.size disk.old) (D.moments disk.new).state }
    ensures crash { IsTrue D.visible → LeavesOnly D.keeps
        (IsStopped geometry.now (D.size disk.old) (D.moments disk.old).state)
        (D.moments disk.old) (D.moments disk.new) }
    ensures others { IsTrue D.visible → (s : ℕ) → IsOutside geometry.now s → reads (D.moments disk.new) s ≡ reads (D.moments disk.old) s }
    ensures small { D.size disk.old < sector_count geometry.now → disk.new ≡ disk.old }
    ensures starved { result ≡ 5 → disk.new ≡ disk.old }
    ensures size { D.size disk.new ≡ D.size disk.old }
    ensures disk_told { result ≢ 4 → result ≢ 7 → D.faults disk.new ≡ D.faults disk.old }
{
    if disk.sectors() < 8 * geometry.blocks {
        return finish(sink, Ending::TooSmall);
    }
    let line = match made_line(alloc, geometry) {
        Ok(line) => line,
        Err(refused) => return out_of_memory(sink, Lack::from(refused)),
    };
    match format(disk, geometry) {
        Ok(()) => tell(sink, Ending::Done, line.as_slice()),
        Err(FormatFault::Device { fault }) => {
            let line = device_line(fault);
            tell(sink, Ending::DeviceFault, line.as_bytes())
        }
        Err(FormatFault::TooSmall) => unreachable!(),
    }
}

/// Makes the disk's first sectors a new image of that geometry, and tells its numbers.
pub fn mkfs<K: Sink, D: Disk>(alloc: Global, asked: Geometry, sink: &mut K, disk: &mut D) -> u8
    ensures answer { IsAnswer (EndsMkfs asked (formatting D.visible D.size D.moments D.faults disk.old disk.new)) (writing K.held K.faults sink.old sink.new) result }
    ensures formatted { IsTrue D.visible → result ≡ 0 → IsNewDisk asked (D.size disk.old) (D.moments disk.new).state }
    ensures crash { IsTrue D.visible → LeavesOnly D.keeps
        (IsStopped asked (D.size disk.old) (D.moments disk.old).state)
        (D.moments disk.old) (D.moments disk.new) }
    ensures others { IsTrue D.visible → (s : ℕ) → IsOutside asked s → reads (D.moments disk.new) s ≡ reads (D.moments disk.old) s }
    ensures refused { geometry_refusal asked ≢ None → disk.new ≡ disk.old }
    ensures small { D.size disk.old < sector_count asked → disk.new ≡ disk.old }
    ensures starved { result ≡ 5 → disk.new ≡ disk.old }
    ensures size { D.size disk.new ≡ D.size disk.old }
    ensures disk_told { result ≢ 4 → result ≢ 7 → D.faults disk.new ≡ D.faults disk.old }
{
    match Geometry::make(asked.blocks, asked.inodes, asked.journal) {
        Ok(geometry) => format_disk(alloc, &geometry, sink, disk),
        Err(bad) => finish(sink, Ending::BadGeometry { bad }),
    }
}
