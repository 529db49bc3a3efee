// What a folded image says, without the bytes of its files.
ghost use Rattle.std.specs.Prelude.{◌≡◌, ◌≤◌, map, length, IsTrue, IfOk, IfErr, OnOk};
ghost use Rattle.ufs_base.specs.Images.{Image};
ghost use Rattle.ufs_disk.specs.Moments.{reads};
ghost use Rattle.ufs_layout.specs.Areas.{IsGeometry, sector_count, all_inodes};
ghost use Rattle.ufs_image.specs.Images.{inode_at};
ghost use Rattle.ufs_image.specs.Nodes.{dirs_of, sound_nodes};
ghost use Rattle.ufs_damage.specs.Findings.{AreFindingsOf};
ghost use Rattle.ufs_metadata.specs.Faults.{HasFaultCause, IsOutside, LacksMemory};
ghost use Rattle.ufs_metadata.specs.Folded.{IsFolded};
ghost use Rattle.ufs_metadata.specs.Reading.{IsReadOnly};

use crate::RecoverFault;
use crate::dirs::read_dir;
use crate::forms::read_forms;
use std::alloc::Global;
use ufs_damage::{Findings, ReadDir};
use ufs_disk::Disk;
use ufs_layout::{Geometry, Inode};
use ufs_overlay::Overlay;

// The directories among the sound inodes.
fn read_dirs<D: Disk>(
    alloc: Global,
    disk: &mut D,
    geometry: &Geometry,
    overlay: &Overlay,
    forms: &[Option<Inode>],
) -> Result<Vec<ReadDir>, RecoverFault>
    requires geometry { IsGeometry geometry.now }
    requires large { sector_count geometry.now ≤ D.size disk.old }
    requires count { length forms.now ≡ geometry.now.inodes }
    ensures dirs { IsTrue D.visible → (image : Image) → IsFolded overlay.now (reads (D.moments disk.old)) image → forms.now ≡ map (inode_at geometry.now image) (all_inodes geometry.now)
        → IfOk result (λ d. d.items ≡ dirs_of image (sound_nodes geometry.now image)) }
    ensures read_only { IsTrue D.visible → IsReadOnly D.keeps (D.moments disk.old) (D.moments disk.new) }
    ensures size { D.size disk.new ≡ D.size disk.old }
    ensures passed { OnOk result (D.faults disk.new ≡ D.faults disk.old) }
    ensures cause { IfErr result (HasFaultCause (D.faults disk.old) (D.faults disk.new)) }
    ensures outside { IfErr result IsOutside }
    ensures memory { IfErr result LacksMemory }
{
    let mut dirs = Vec::new(alloc);
    for i in 0..geometry.inodes {
        read_dir(
            alloc,
            disk,
            geometry,
            overlay,
            i + 1,
            &forms[i as usize],
            &mut dirs,
        )?;
    }
    Ok(dirs)
}

/// The forms of all inodes, and the slots of all directories that can be read, as the overlay's transactions
/// leave them. Reads each block of the inode table and of those directories in one call, and nothing else; writes
/// nothing.
pub fn read_findings<D: Disk>(
    alloc: Global,
    disk: &mut D,
    geometry: &Geometry,
    overlay: &Overlay,
) -> Result<Findings, RecoverFault>
    requires geometry { IsGeometry geometry.now }
    requires large { sector_count geometry.now ≤ D.size disk.old }
    ensures found { IsTrue D.visible → (image : Image) → IsFolded overlay.now (reads (D.moments disk.old)) image → IfOk result (AreFindingsOf geometry.now image) }
    ensures count { IfOk result (λ f. length f.forms ≡ geometry.now.inodes) }
    ensures read_only { IsTrue D.visible → IsReadOnly D.keeps (D.moments disk.old) (D.moments disk.new) }
    ensures size { D.size disk.new ≡ D.size disk.old }
    ensures passed { OnOk result (D.faults disk.new ≡ D.faults disk.old) }
    ensures cause { IfErr result (HasFaultCause (D.faults disk.old) (D.faults disk.new)) }
    ensures outside { IfErr result IsOutside }
    ensures memory { IfErr result LacksMemory }
{
    let forms = read_forms(alloc, disk, geometry, overlay)?;
    let dirs = read_dirs(alloc, disk, geometry, overlay, &forms)?;
    Ok(Findings::from_parts(forms, dirs))
}
