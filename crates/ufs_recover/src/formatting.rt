// A disk becomes an empty file system.
ghost use Rattle.std.specs.Prelude.{◌≡◌, ◌≤◌, ◌<◌, ◌↔◌, ℕ, IsTrue, IfErr, OnOk, Err};
ghost use Rattle.ufs_disk.specs.Moments.{LeavesOnly, reads};
ghost use Rattle.ufs_base.specs.Faults.{HasCause};
ghost use Rattle.ufs_layout.specs.Areas.{IsGeometry, sector_count};
ghost use Rattle.ufs_recover.specs.Tables.{IsOutside};
ghost use Rattle.ufs_recover.specs.Stopped.{IsNewDisk, IsStopped};
ghost use Rattle.ufs_recover.specs.Faults.{HasFaultCause};

use crate::FormatFault;
use crate::superblock::{new_superblock, put_superblock};
use crate::tables::write_tables;
use ufs_base::SECTOR;
use ufs_disk::{Disk, Fault};
use ufs_image::new_image_law;
use ufs_layout::Geometry;

// Zeros in the superblock's sector first, and the superblock last. Each step ends with a barrier.
fn write_image<D: Disk>(disk: &mut D, geometry: &Geometry) -> Result<(), Fault>
    requires geometry { IsGeometry geometry.now }
    requires room { sector_count geometry.now ≤ D.size disk.old }
    ensures ok { IsTrue D.visible → OnOk result
        (IsNewDisk geometry.now (D.size disk.old) (D.moments disk.new).state) }
    ensures crash { IsTrue D.visible → LeavesOnly D.keeps
        (IsStopped geometry.now (D.size disk.old) (D.moments disk.old).state)
        (D.moments disk.old) (D.moments disk.new) }
    ensures others { IsTrue D.visible → (s : ℕ) → IsOutside geometry.now s
        → reads (D.moments disk.new) s ≡ reads (D.moments disk.old) s }
    ensures size { D.size disk.new ≡ D.size disk.old }
    ensures cause { HasCause (D.faults disk.old) (D.faults disk.new) result }
    ensures number { IfErr result (λ fault. fault.number ≡ D.faults disk.new) }
{
    put_superblock(disk, &[0; SECTOR])?;
    write_tables(disk, geometry)?;
    new_image_law(geometry);
    put_superblock(disk, &new_superblock(geometry))
}

/// Makes the disk's first sectors a new image with the root alone. It takes no memory, and writes
/// each sector of the tables once. Whatever lies in the data area stays.
///
/// A stop on the way never shows half a tree: the superblock is taken out before anything else
/// changes, and comes back when all the rest is on the disk for good.
pub fn format<D: Disk>(disk: &mut D, geometry: &Geometry) -> Result<(), FormatFault>
    requires { IsGeometry geometry.now }
    ensures too_small { (result ≡ Err FormatFault.TooSmall) ↔ (D.size disk.old < sector_count geometry.now) }
    ensures untouched { D.size disk.old < sector_count geometry.now → disk.new ≡ disk.old }
    ensures passed { OnOk result (D.faults disk.new ≡ D.faults disk.old) }
    ensures device { IfErr result (HasFaultCause (D.faults disk.old) (D.faults disk.new)) }
    ensures ok { IsTrue D.visible → OnOk result
        (IsNewDisk geometry.now (D.size disk.old) (D.moments disk.new).state) }

    // At each moment of the call, also of one that fails.
    ensures crash { IsTrue D.visible → LeavesOnly D.keeps
        (IsStopped geometry.now (D.size disk.old) (D.moments disk.old).state)
        (D.moments disk.old) (D.moments disk.new) }
    ensures others { IsTrue D.visible → (s : ℕ) → IsOutside geometry.now s
        → reads (D.moments disk.new) s ≡ reads (D.moments disk.old) s }
    ensures size { D.size disk.new ≡ D.size disk.old }
{
    if disk.sectors() < geometry.sector_count() {
        return Err(FormatFault::TooSmall);
    }
    match write_image(disk, geometry) {
        Ok(()) => Ok(()),
        Err(fault) => Err(FormatFault::Device {
            fault: fault.number,
        }),
    }
}
