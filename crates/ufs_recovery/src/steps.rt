// The first and the last step of a recovery.
ghost use Rattle.std.specs.Prelude.{ℕ, ◌≡◌, ◌≤◌, IsTrue, IfErr, OnOk};
ghost use Rattle.ufs_base.specs.Faults.{HasCause};
ghost use Rattle.ufs_disk.specs.Disk.{IsSettled};
ghost use Rattle.ufs_disk.specs.Moments.{reads};
ghost use Rattle.ufs_image.specs.Volume.{Volume};
ghost use Rattle.ufs_layout.specs.Areas.{IsGeometry, sector_count};
ghost use Rattle.ufs_layout.specs.Superblock.{is_super};
ghost use Rattle.ufs_layout.specs.declared.superblock.Super.{Super};
ghost use Rattle.ufs_overlay.specs.Seen as overlaid;
ghost use Rattle.ufs_recovery.specs.Home.{HasBegun, HasClosed, IsOver, KeepsTree, MayClose, MayFollow};

use crate::bitmap::write_bitmap;
use crate::bringing::bring_home;
use crate::sector::put_superblock;
use crate::superblocks::closed;
use ufs_damage::TakenBlocks;
use ufs_disk::{Disk, Fault};
use ufs_layout::{Geometry, Super};
use ufs_overlay::Overlay;

// Writes home what is committed, and then begins the next epoch with this superblock.
pub(crate) fn begin<D: Disk>(
    disk: &mut D,
    overlay: &Overlay,
    superblock: &Super,
) -> Result<(), Fault>
    requires large { sector_count (overlaid.geometry_of overlay.now) ≤ D.size disk.old }
    requires limits { IsGeometry (overlaid.geometry_of overlay.now) }
    requires form { IsTrue (is_super 1 superblock.now) }
    ensures settled { IsTrue D.visible → OnOk result (IsSettled (D.moments disk.new).state) }
    ensures begun { IsTrue D.visible → OnOk result ((v : Volume) → IsSettled (D.moments disk.old).state → IsOver (D.size disk.old) (reads (D.moments disk.old)) v overlay.now → MayFollow (reads (D.moments disk.old)) v superblock.now
        → HasBegun (D.size disk.old) v superblock.now (reads (D.moments disk.new))) }
    ensures tree { IsTrue D.visible → (v : Volume) → IsSettled (D.moments disk.old).state → IsOver (D.size disk.old) (reads (D.moments disk.old)) v overlay.now → MayFollow (reads (D.moments disk.old)) v superblock.now
        → KeepsTree D.keeps (D.size disk.old) (D.moments disk.old) (D.moments disk.new) }
    ensures size { D.size disk.new ≡ D.size disk.old }
    ensures cause { HasCause (D.faults disk.old) (D.faults disk.new) result }
    ensures number { IfErr result (λ fault. fault.number ≡ D.faults disk.new) }
{
    bring_home(disk, overlay)?;
    put_superblock(disk, superblock)
}

// Writes what differs in the bitmap, and then marks the image clean.
pub(crate) fn close<D: Disk>(
    disk: &mut D,
    geometry: &Geometry,
    taken: &TakenBlocks,
    superblock: &Super,
) -> Result<(), Fault>
    requires geometry { IsGeometry geometry.now }
    requires large { sector_count geometry.now ≤ D.size disk.old }
    requires form { IsTrue (is_super 1 superblock.now) }
    ensures settled { IsTrue D.visible → OnOk result (IsSettled (D.moments disk.new).state) }
    ensures closed { IsTrue D.visible → OnOk result (IsSettled (D.moments disk.old).state → MayClose (D.size disk.old) superblock.now (reads (D.moments disk.old)) geometry.now taken.now
        → HasClosed (D.size disk.old) superblock.now (reads (D.moments disk.old)) (reads (D.moments disk.new))) }
    ensures tree { IsTrue D.visible → IsSettled (D.moments disk.old).state → MayClose (D.size disk.old) superblock.now (reads (D.moments disk.old)) geometry.now taken.now
        → KeepsTree D.keeps (D.size disk.old) (D.moments disk.old) (D.moments disk.new) }
    ensures size { D.size disk.new ≡ D.size disk.old }
    ensures cause { HasCause (D.faults disk.old) (D.faults disk.new) result }
    ensures number { IfErr result (λ fault. fault.number ≡ D.faults disk.new) }
{
    write_bitmap(disk, geometry, taken)?;
    put_superblock(disk, &closed(superblock))
}
