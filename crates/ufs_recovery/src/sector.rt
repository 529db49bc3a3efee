ghost use Rattle.std.specs.Prelude.{◌≡◌, ◌<◌, ◌≢◌, ℕ, IsTrue, IfErr, OnOk};
ghost use Rattle.ufs_base.specs.Faults.{HasCause};
ghost use Rattle.ufs_disk.specs.Disk.{IsSettled, put};
ghost use Rattle.ufs_disk.specs.Moments.{LeavesOnly, reads};
ghost use Rattle.ufs_layout.specs.Superblock.{is_super, super_of};
ghost use Rattle.ufs_recovery.specs.Cleared.{HasSectorPut};
ghost use Rattle.ufs_recovery.specs.Home.{IsAtHome, IsBroughtHome, KeepsTree};

use ufs_base::SECTOR;
use ufs_disk::{Disk, Fault};
use ufs_layout::{Super, put_super};

pub(crate) fn put_sector<D: Disk>(
    disk: &mut D,
    sector: u32,
    bytes: &[u8; SECTOR],
) -> Result<(), Fault>
    requires { sector < D.size disk.old }
    ensures written { IsTrue D.visible → OnOk result (reads (D.moments disk.new) ≡ put sector bytes.now (reads (D.moments disk.old))) }
    ensures crash { IsTrue D.visible → LeavesOnly D.keeps (HasSectorPut sector bytes.now (D.moments disk.old).state) (D.moments disk.old) (D.moments disk.new) }
    ensures size { D.size disk.new ≡ D.size disk.old }
    ensures cause { HasCause (D.faults disk.old) (D.faults disk.new) result }
    ensures number { IfErr result (λ fault. fault.number ≡ D.faults disk.new) }
{
    disk.write(sector, bytes)
}

fn superblock_sector(superblock: &Super) -> [u8; SECTOR]
    requires { IsTrue (is_super 1 superblock.now) }
    ensures { super_of 1 result ≡ Some superblock.now }
{
    let mut sector = [0; SECTOR];
    put_super(&mut sector, superblock);
    sector
}

// Writes another superblock over an image in which all is home, and waits until it is on the disk for good.
pub(crate) fn put_superblock<D: Disk>(disk: &mut D, superblock: &Super) -> Result<(), Fault>
    requires form { IsTrue (is_super 1 superblock.now) }
    requires some { 0 < D.size disk.old }
    ensures settled { IsTrue D.visible → OnOk result (IsSettled (D.moments disk.new).state) }
    ensures home { IsTrue D.visible → OnOk result (IsBroughtHome (D.size disk.old) (reads (D.moments disk.old)) superblock.now → IsAtHome (D.size disk.old) superblock.now (reads (D.moments disk.new))) }
    ensures others { IsTrue D.visible → OnOk result ((sector : ℕ) → sector ≢ 0 → reads (D.moments disk.new) sector ≡ reads (D.moments disk.old) sector) }
    ensures tree { IsTrue D.visible → IsSettled (D.moments disk.old).state → IsBroughtHome (D.size disk.old) (reads (D.moments disk.old)) superblock.now → KeepsTree D.keeps (D.size disk.old) (D.moments disk.old) (D.moments disk.new) }
    ensures size { D.size disk.new ≡ D.size disk.old }
    ensures cause { HasCause (D.faults disk.old) (D.faults disk.new) result }
    ensures number { IfErr result (λ fault. fault.number ≡ D.faults disk.new) }
{
    put_sector(disk, 0, &superblock_sector(superblock))?;
    disk.barrier()
}
