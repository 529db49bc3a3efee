ghost use Rattle.std.specs.Prelude.{◌≡◌, ◌≤◌, ℕ, None, Ok, length, IsTrue, IfOk, IfErr, OnOk};
ghost use Rattle.ufs_base.specs.Images.{Image};
ghost use Rattle.ufs_disk.specs.Moments.{reads};
ghost use Rattle.ufs_layout.specs.Areas.{IsGeometry, sector_count};
ghost use Rattle.ufs_image.specs.Damage.{bad_tree};
ghost use Rattle.ufs_image.specs.Volume.{volume};
ghost use Rattle.ufs_damage.specs.Findings.{AreFindingsOf};
ghost use Rattle.ufs_metadata.specs.Faults.{HasFaultCause, LacksMemory};
ghost use Rattle.ufs_metadata.specs.Reading.{IsReadOnly};
ghost use Rattle.ufs_overlay.specs.Seen.{HasAdded};
ghost use Rattle.ufs_volume.specs.Volumes.{committed_in, folded_image, highest_number, volume_in};
ghost use Rattle.ufs_opening.specs.Told.{IsBlame, TellsWhy};

use crate::opened::Opened;
use std::alloc::Global;
use ufs_damage::{Findings, damage_of};
use ufs_disk::Disk;
use ufs_layout::Geometry;
use ufs_metadata::{RecoverFault, read_findings};
use ufs_volume::read_volume;

// Refuses an image of whose tree something is damaged, by the lowest inode that is blamed.
fn refuse_damage(
    alloc: Global,
    geometry: &Geometry,
    findings: &Findings,
) -> Result<(), RecoverFault>
    requires geometry { IsGeometry geometry.now }
    requires counted { length findings.now.forms ≡ geometry.now.inodes }
    ensures whole { (image : Image) → AreFindingsOf geometry.now image findings.now → OnOk result (bad_tree geometry.now image ≡ None) }
    ensures refused { (image : Image) → AreFindingsOf geometry.now image findings.now → IfErr result (IsBlame (bad_tree geometry.now image)) }
    ensures calm { IfErr result (λ f. (before : ℕ) → HasFaultCause before before f) }
    ensures memory { IfErr result LacksMemory }
{
    let list = damage_of(alloc, geometry, findings)?;
    match list.lowest_blamed(geometry) {
        Some(inode) => Err(RecoverFault::BadTree { inode }),
        None => Ok(()),
    }
}

/// Opens an image, or tells why it stands for no tree. Reads the superblock, each sector of the journal, and of the
/// folded image each block of the inode table and of directories; writes nothing.
pub fn open<D: Disk>(alloc: Global, disk: &mut D) -> Result<Opened, RecoverFault>
    ensures taken { IsTrue D.visible → IfOk result (λ o. volume (D.size disk.old) (reads (D.moments disk.old)) ≡ Ok (volume_in o.volume (reads (D.moments disk.old)))) }
    ensures added { IsTrue D.visible → IfOk result (λ o. HasAdded o.volume.overlay (committed_in o.volume (reads (D.moments disk.old)))) }
    ensures count { IsTrue D.visible → IfOk result (λ o. o.volume.committed ≡ length (committed_in o.volume (reads (D.moments disk.old)))) }
    ensures highest { IsTrue D.visible → IfOk result (λ o. o.volume.highest ≡ highest_number (committed_in o.volume (reads (D.moments disk.old)))) }
    ensures found { IsTrue D.visible → IfOk result (λ o. AreFindingsOf o.volume.superblock.geometry (folded_image o.volume (reads (D.moments disk.old))) o.findings) }
    ensures whole { IsTrue D.visible → IfOk result (λ o. bad_tree o.volume.superblock.geometry (folded_image o.volume (reads (D.moments disk.old))) ≡ None) }
    ensures undamaged { IfOk result (λ o. (image : Image) → AreFindingsOf o.volume.superblock.geometry image o.findings → bad_tree o.volume.superblock.geometry image ≡ None) }
    ensures counted { IfOk result (λ o. length o.findings.forms ≡ o.volume.superblock.geometry.inodes) }
    ensures few { IfOk result (λ o. o.volume.committed ≤ o.volume.superblock.geometry.journal) }
    ensures large { IfOk result (λ o. sector_count o.volume.superblock.geometry ≤ D.size disk.old) }
    ensures refused { IsTrue D.visible → IfErr result (TellsWhy (D.size disk.old) (reads (D.moments disk.old))) }
    ensures read_only { IsTrue D.visible → IsReadOnly D.keeps (D.moments disk.old) (D.moments disk.new) }
    ensures size { D.size disk.new ≡ D.size disk.old }
    ensures passed { OnOk result (D.faults disk.new ≡ D.faults disk.old) }
    ensures cause { IfErr result (HasFaultCause (D.faults disk.old) (D.faults disk.new)) }
    ensures memory { IfErr result LacksMemory }
{
    let volume = read_volume(alloc, disk)?;
    let geometry = &volume.superblock.geometry;
    let findings = read_findings(alloc, disk, geometry, &volume.overlay)?;
    match refuse_damage(alloc, geometry, &findings) {
        Ok(()) => Ok(Opened { volume, findings }),
        Err(fault) => Err(fault),
    }
}
