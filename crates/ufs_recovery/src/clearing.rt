// Inodes are written anew, without blocks.
ghost use Rattle.std.specs.Prelude.{ℕ, ◌≡◌, ◌≤◌, Some, length, IsTrue, IfErr, OnOk};
ghost use Rattle.ufs_base.specs.Faults.{HasCause};
ghost use Rattle.ufs_disk.specs.Disk.{IsSettled};
ghost use Rattle.ufs_disk.specs.Moments.{LeavesOnly, reads};
ghost use Rattle.ufs_layout.specs.Areas.{IsGeometry, sector_count};
ghost use Rattle.ufs_layout.specs.InodeForm.{inode_of};
ghost use Rattle.ufs_recovery.specs.Cleared.{AreClearedBelow, IsMixedCleared, IsPartlyCleared, cleared};

use crate::sector::put_sector;
use ufs_base::{SECTOR, SECTORS_PER_BLOCK};
use ufs_disk::{Disk, Fault};
use ufs_layout::{Geometry, Inode, put_inode};

fn cleared_sector(kind: u8, number: u64) -> [u8; SECTOR]
    requires { kind ≤ 2 }
    ensures { inode_of result ≡ Some (cleared kind number) }
{
    let mut sector = [0; SECTOR];
    put_inode(&mut sector, &Inode::from_extents(kind, &[], 0, number));
    sector
}

// Writes an inode of this kind without blocks at each place of the inode table that has a number, which the
// inode keeps, and waits until all is on the disk for good.
pub(crate) fn clear<D: Disk>(
    disk: &mut D,
    geometry: &Geometry,
    numbers: &[Option<u64>],
    kind: u8,
) -> Result<(), Fault>
    requires geometry { IsGeometry geometry.now }
    requires large { sector_count geometry.now ≤ D.size disk.old }
    requires counted { length numbers.now ≡ geometry.now.inodes }
    requires kind { kind ≤ 2 }
    ensures settled { IsTrue D.visible → OnOk result (IsSettled (D.moments disk.new).state) }
    ensures mixed { IsTrue D.visible → OnOk result (IsMixedCleared geometry.now kind numbers.now (reads (D.moments disk.old)) (reads (D.moments disk.new))) }
    ensures all { IsTrue D.visible → OnOk result (AreClearedBelow geometry.now kind numbers.now geometry.now.inodes (reads (D.moments disk.new))) }
    ensures crash { IsTrue D.visible → LeavesOnly D.keeps (IsPartlyCleared geometry.now kind numbers.now (D.moments disk.old).state) (D.moments disk.old) (D.moments disk.new) }
    ensures size { D.size disk.new ≡ D.size disk.old }
    ensures cause { HasCause (D.faults disk.old) (D.faults disk.new) result }
    ensures number { IfErr result (λ fault. fault.number ≡ D.faults disk.new) }
{
    let first = SECTORS_PER_BLOCK as u32 * geometry.first_of_inodes();
    for place in 0..geometry.inodes {
        let Some(number) = numbers[place as usize] else {
            continue;
        };
        put_sector(disk, first + place, &cleared_sector(kind, number))?;
    }
    disk.barrier()
}
