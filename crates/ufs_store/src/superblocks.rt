// The superblock of an image that is mounted.
ghost use Rattle.std.specs.Prelude.{ℕ, ◌≡◌, ◌≤◌, IsTrue, OnOk, OnErr, IfErr};
ghost use Rattle.ufs_base.specs.Faults.{HasCause};
ghost use Rattle.ufs_disk.specs.Disk.{Leaves};
ghost use Rattle.ufs_disk.specs.Moments.{LeavesOnly, reads};
ghost use Rattle.ufs_journal.specs.Kept.{HasEarlier};
ghost use Rattle.ufs_layout.specs.Areas.{IsGeometry};
ghost use Rattle.ufs_layout.specs.Superblock.{geometry_of, is_super};
ghost use Rattle.ufs_layout.specs.declared.superblock.Super.{Super};
ghost use Rattle.ufs_ledger.specs.Changes.{opening_ledger};
ghost use Rattle.ufs_ledger.specs.Ledger.{IsLedgerOf, IsLeftBy};
ghost use Rattle.ufs_store.specs.Mounting.{IsMountable, in_use, marking};

use ufs_base::SECTOR;
use ufs_disk::{Disk, Fault};
use ufs_layout::{Geometry, Super, put_super};
use ufs_ledger::{checkpoint_law, mount_law};

/// Marks an image in use, for good.
pub(crate) fn mark_in_use<D: Disk>(
    disk: &mut D,
    geometry: &Geometry,
    superblock: &Super,
) -> Result<(), Fault>
    requires limits { IsGeometry geometry.now }
    requires same { geometry_of superblock.now ≡ geometry.now }
    requires form { IsTrue (is_super 1 superblock.now) }
    requires some { 1 ≤ D.size disk.old }
    ensures crash { IsTrue D.visible → (before : Super) → superblock.now ≡ in_use before → IsMountable (D.size disk.old) (D.moments disk.old).state before
        → LeavesOnly D.keeps (IsLeftBy (D.size disk.old) (marking before (reads (D.moments disk.old)))) (D.moments disk.old) (D.moments disk.new) }
    ensures ok { IsTrue D.visible → OnOk result ((before : Super) → superblock.now ≡ in_use before → IsMountable (D.size disk.old) (D.moments disk.old).state before
        → IsLedgerOf (D.size disk.new) (D.moments disk.new).state (opening_ledger superblock.now (reads (D.moments disk.old)))) }
    ensures earlier { IsTrue D.visible → OnOk result ((before : Super) → superblock.now ≡ in_use before → IsMountable (D.size disk.old) (D.moments disk.old).state before
        → Leaves (HasEarlier (geometry_of superblock.now) superblock.now.epoch) (D.moments disk.new).state) }
    ensures size { D.size disk.new ≡ D.size disk.old }
    ensures cause { HasCause (D.faults disk.old) (D.faults disk.new) result }
    ensures fault { IfErr result (λ fault. fault.number ≡ D.faults disk.new) }
{
    mount_law(geometry);
    checkpoint_law(disk.sectors() as usize);
    let mut sector = [0; SECTOR];
    put_super(&mut sector, superblock);
    disk.write(0, &sector)?;
    disk.barrier()
}
