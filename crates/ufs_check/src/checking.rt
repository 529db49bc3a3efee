// The list of damage of a disk.
ghost use Rattle.std.specs.Prelude.{List, ◌≡◌, ◌≤◌, length, IsTrue, Ok, IfOk, IfErr, OnOk};
ghost use Rattle.ufs_base.specs.Images.{Image};
ghost use Rattle.ufs_disk.specs.Moments.{reads};
ghost use Rattle.ufs_layout.specs.Areas.{IsGeometry, sector_count};
ghost use Rattle.ufs_image.specs.Damage.{damage, tree_damage};
ghost use Rattle.ufs_image.specs.Nodes.{sound_nodes};
ghost use Rattle.ufs_image.specs.Opens.{damage_list};
ghost use Rattle.ufs_damage.specs.Findings.{AreFindingsOf};
ghost use Rattle.ufs_damage.specs.Taken.{AreTaken};
ghost use Rattle.ufs_metadata.specs.Faults.{BlamesNone, HasFaultCause, IsOutside, IsWhyNot, LacksMemory};
ghost use Rattle.ufs_metadata.specs.Folded.{IsFolded};
ghost use Rattle.ufs_metadata.specs.Reading.{IsReadOnly};

use crate::bits::compare_bits;
use std::alloc::Global;
use ufs_base::Memory;
use ufs_damage::{DamageList, Findings, TakenBlocks, damage_of, taken_blocks};
use ufs_disk::Disk;
use ufs_layout::Geometry;
use ufs_metadata::{RecoverFault, read_findings};
use ufs_overlay::Overlay;
use ufs_volume::{FoldedVolume, read_volume};

// The damage of the tree, and the used blocks.
fn told(
    alloc: Global,
    geometry: &Geometry,
    findings: &Findings,
) -> Result<(DamageList, TakenBlocks), Memory>
    requires geometry { IsGeometry geometry.now }
    requires counted { length findings.now.forms ≡ geometry.now.inodes }
    ensures list { IfOk result (λ both. (image : Image) → AreFindingsOf geometry.now image findings.now → both.0 ≡ tree_damage geometry.now image) }
    ensures taken { IfOk result (λ both. (image : Image) → AreFindingsOf geometry.now image findings.now → AreTaken geometry.now (sound_nodes geometry.now image) both.1) }
{
    let list = damage_of(alloc, geometry, findings)?;
    let taken = taken_blocks(alloc, geometry, findings)?;
    Ok((list, taken))
}

fn told_of<D: Disk>(
    alloc: Global,
    disk: &mut D,
    geometry: &Geometry,
    overlay: &Overlay,
) -> Result<(DamageList, TakenBlocks), RecoverFault>
    requires geometry { IsGeometry geometry.now }
    requires large { sector_count geometry.now ≤ D.size disk.old }
    ensures list { IsTrue D.visible → (image : Image) → IsFolded overlay.now (reads (D.moments disk.old)) image → IfOk result (λ both. both.0 ≡ tree_damage geometry.now image) }
    ensures taken { IsTrue D.visible → (image : Image) → IsFolded overlay.now (reads (D.moments disk.old)) image → IfOk result (λ both. AreTaken geometry.now (sound_nodes geometry.now image) both.1) }
    ensures read_only { IsTrue D.visible → IsReadOnly D.keeps (D.moments disk.old) (D.moments disk.new) }
    ensures size { D.size disk.new ≡ D.size disk.old }
    ensures passed { OnOk result (D.faults disk.new ≡ D.faults disk.old) }
    ensures cause { IfErr result (HasFaultCause (D.faults disk.old) (D.faults disk.new)) }
    ensures memory { IfErr result LacksMemory }
    ensures outside { IfErr result IsOutside }
{
    let findings = read_findings(alloc, disk, geometry, overlay)?;
    match told(alloc, geometry, &findings) {
        Ok(both) => Ok(both),
        Err(memory) => Err(RecoverFault::from(memory)),
    }
}

// The damage of a volume.
fn check_volume<D: Disk>(
    alloc: Global,
    disk: &mut D,
    volume: &FoldedVolume,
) -> Result<DamageList, RecoverFault>
    requires { sector_count volume.now.superblock.geometry ≤ D.size disk.old }
    ensures list { IsTrue D.visible → (image : Image) → IsFolded volume.now.overlay (reads (D.moments disk.old)) image → IfOk result (λ list. list ≡ damage volume.now.superblock.superblock.clean volume.now.superblock.geometry image) }
    ensures read_only { IsTrue D.visible → IsReadOnly D.keeps (D.moments disk.old) (D.moments disk.new) }
    ensures size { D.size disk.new ≡ D.size disk.old }
    ensures passed { OnOk result (D.faults disk.new ≡ D.faults disk.old) }
    ensures cause { IfErr result (HasFaultCause (D.faults disk.old) (D.faults disk.new)) }
    ensures memory { IfErr result LacksMemory }
    ensures outside { IfErr result IsOutside }
{
    let geometry = &volume.superblock.geometry;
    let (mut list, taken) = told_of(alloc, disk, geometry, &volume.overlay)?;
    if !volume.superblock.superblock.clean {
        return Ok(list);
    }
    compare_bits(disk, geometry, &volume.overlay, &taken, &mut list)?;
    Ok(list)
}

/// Every damage of the image on the disk as its committed transactions leave it, in the order of the definition.
/// Reads the journal, the inode table and the blocks of directories once, and on a clean image the bitmap; writes
/// nothing. A damaged tree is never a refusal here.
pub fn check<D: Disk>(alloc: Global, disk: &mut D) -> Result<DamageList, RecoverFault>
    ensures list { IsTrue D.visible → IfOk result (λ list. damage_list (D.size disk.old) (reads (D.moments disk.old)) ≡ Ok list) }
    ensures refused { IsTrue D.visible → IfErr result (IsWhyNot (damage_list (D.size disk.old) (reads (D.moments disk.old)))) }
    ensures blames_none { IfErr result BlamesNone }
    ensures read_only { IsTrue D.visible → IsReadOnly D.keeps (D.moments disk.old) (D.moments disk.new) }
    ensures size { D.size disk.new ≡ D.size disk.old }
    ensures passed { OnOk result (D.faults disk.new ≡ D.faults disk.old) }
    ensures cause { IfErr result (HasFaultCause (D.faults disk.old) (D.faults disk.new)) }
    ensures memory { IfErr result LacksMemory }
{
    let volume = read_volume(alloc, disk)?;
    check_volume(alloc, disk, &volume)
}
