// The superblock, and why it is refused.
ghost use Rattle.std.specs.Prelude.{◌≡◌, ◌≤◌, ◌<◌, ℕ, None, length, IsTrue, IfOk, IfErr, OnOk};
ghost use Rattle.ufs_base.specs.declared.sizes.TheConstants.{SECTOR};
ghost use Rattle.ufs_disk.specs.Moments.{reads};
ghost use Rattle.ufs_layout.specs.Areas.{IsGeometry, sector_count};
ghost use Rattle.ufs_layout.specs.Superblock.{super_fields, geometry_of};
ghost use Rattle.ufs_image.specs.Volume.{superblock_of, superblock_refusal};
ghost use Rattle.ufs_metadata.specs.Faults.{BlamesNone, HasFaultCause, IsRefusal, LacksMemory};
ghost use Rattle.ufs_metadata.specs.Superblocks.{size_refusal};
ghost use Rattle.ufs_metadata.specs.Reading.{IsReadOnly};

use crate::RecoverFault;
use crate::reading::read_at;
use ufs_base::SECTOR;
use ufs_disk::Disk;
use ufs_layout::{Geometry, Super, get_super, super_version};

/// A superblock that is taken, and its geometry.
#[derive(Clone, Copy, Debug, PartialEq, Eq)]
pub struct ImageSuperblock {
    pub superblock: Super,
    pub geometry: Geometry,
    pub ghost same: { geometry ≡ geometry_of superblock },
    pub ghost limits: { IsGeometry geometry },
}

// A superblock with its geometry on a disk of so many sectors.
fn with_geometry(sectors: u32, superblock: Super) -> Result<ImageSuperblock, RecoverFault>
    ensures superblock { IfOk result (λ h. h.superblock ≡ superblock) }
    ensures taken { IfOk result (λ h. size_refusal sectors (geometry_of superblock) ≡ None) }
    ensures large { IfOk result (λ h. sector_count h.geometry ≤ sectors) }
    ensures refused { IfErr result (IsRefusal (size_refusal sectors (geometry_of superblock))) }
    ensures calm { IfErr result (λ f. (before : ℕ) → HasFaultCause before before f) }
    ensures blames_none { IfErr result BlamesNone }
    ensures memory { IfErr result LacksMemory }
{
    match Geometry::make(superblock.blocks, superblock.inodes, superblock.journal) {
        Ok(geometry) => {
            if sectors < geometry.sector_count() {
                return Err(RecoverFault::BadGeometry { number: 5 });
            }
            Ok(ImageSuperblock {
                superblock,
                geometry,
            })
        }
        Err(bad) => Err(RecoverFault::BadGeometry {
            number: bad.number(),
        }),
    }
}

// What the superblock's sector is the spelling of.
fn judge(sectors: u32, bytes: &[u8]) -> Result<ImageSuperblock, RecoverFault>
    requires sized { length bytes.now ≡ SECTOR }
    requires some { 0 < sectors }
    ensures superblock { IfOk result (λ h. h.superblock ≡ super_fields bytes.now) }
    ensures taken { IfOk result (λ h. superblock_refusal sectors (λ _. bytes.now) ≡ None) }
    ensures large { IfOk result (λ h. sector_count h.geometry ≤ sectors) }
    ensures refused { IfErr result (IsRefusal (superblock_refusal sectors (λ _. bytes.now))) }
    ensures calm { IfErr result (λ f. (before : ℕ) → HasFaultCause before before f) }
    ensures blames_none { IfErr result BlamesNone }
    ensures memory { IfErr result LacksMemory }
{
    let Some(version) = super_version(bytes) else {
        return Err(RecoverFault::NoSuperblock);
    };
    if version != 1 {
        return Err(RecoverFault::BadVersion { found: version });
    }
    let Some(superblock) = get_super(bytes) else {
        return Err(RecoverFault::NoSuperblock);
    };
    with_geometry(sectors, superblock)
}

/// The superblock of a disk, or the first reason why it is refused. Reads one sector.
pub fn read_superblock<D: Disk>(disk: &mut D) -> Result<ImageSuperblock, RecoverFault>
    ensures superblock { IsTrue D.visible → IfOk result (λ h. h.superblock ≡ superblock_of (reads (D.moments disk.old))) }
    ensures taken { IsTrue D.visible → IfOk result (λ h. superblock_refusal (D.size disk.old) (reads (D.moments disk.old)) ≡ None) }
    ensures large { IfOk result (λ h. sector_count h.geometry ≤ D.size disk.old) }
    ensures refused { IsTrue D.visible → IfErr result (IsRefusal (superblock_refusal (D.size disk.old) (reads (D.moments disk.old)))) }
    ensures blames_none { IfErr result BlamesNone }
    ensures memory { IfErr result LacksMemory }
    ensures read_only { IsTrue D.visible → IsReadOnly D.keeps (D.moments disk.old) (D.moments disk.new) }
    ensures size { D.size disk.new ≡ D.size disk.old }
    ensures passed { OnOk result (D.faults disk.new ≡ D.faults disk.old) }
    ensures cause { IfErr result (HasFaultCause (D.faults disk.old) (D.faults disk.new)) }
{
    let sectors = disk.sectors();
    if sectors == 0 {
        return Err(RecoverFault::NoSuperblock);
    }
    let mut bytes = [0; SECTOR];
    read_at(disk, 0, &mut bytes)?;
    judge(sectors, &bytes)
}
