ghost use Rattle.std.specs.Prelude.{◌≡◌, ◌<◌, ◌≢◌, ℕ, IsTrue, IfErr, OnOk};
ghost use Rattle.ufs_disk.specs.Disk.{IsSettled, put};
ghost use Rattle.ufs_disk.specs.Moments.{LeavesOnly, reads};
ghost use Rattle.ufs_base.specs.Faults.{HasCause};
ghost use Rattle.ufs_layout.specs.Superblock.{super_bytes};
ghost use Rattle.ufs_layout.specs.Superblock.{new_super};
ghost use Rattle.ufs_recover.specs.Stopped.{HasSuperblockPut};

use ufs_base::SECTOR;
use ufs_disk::{Disk, Fault};
use ufs_layout::{Geometry, Super, put_super};

// The superblock of a new image.
pub(crate) fn new_superblock(geometry: &Geometry) -> [u8; SECTOR]
    ensures { result ≡ super_bytes (new_super geometry.now) }
{
    let mut bytes = [0; SECTOR];
    let value = Super {
        version: 1,
        blocks: geometry.blocks,
        inodes: geometry.inodes,
        journal: geometry.journal,
        epoch: 1,
        next: 1,
        clean: true,
    };
    put_super(&mut bytes, &value);
    bytes
}

// Writes the superblock's sector, and waits until all is on the disk for good.
pub(crate) fn put_superblock<D: Disk>(disk: &mut D, bytes: &[u8; SECTOR]) -> Result<(), Fault>
    requires { 0 < D.size disk.old }
    ensures settled { IsTrue D.visible → OnOk result (IsSettled (D.moments disk.new).state) }
    ensures written { IsTrue D.visible → OnOk result
        (reads (D.moments disk.new) ≡ put 0 bytes.now (reads (D.moments disk.old))) }
    ensures others { IsTrue D.visible → (s : ℕ) → s ≢ 0
        → reads (D.moments disk.new) s ≡ reads (D.moments disk.old) s }
    ensures crash { IsTrue D.visible → LeavesOnly D.keeps
        (HasSuperblockPut bytes.now (D.moments disk.old).state) (D.moments disk.old) (D.moments disk.new) }
    ensures size { D.size disk.new ≡ D.size disk.old }
    ensures cause { HasCause (D.faults disk.old) (D.faults disk.new) result }
    ensures number { IfErr result (λ fault. fault.number ≡ D.faults disk.new) }
{
    disk.write(0, bytes)?;
    disk.barrier()
}
