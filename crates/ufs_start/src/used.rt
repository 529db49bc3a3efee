// How far the directories of an image use its data area.
ghost use Rattle.std.specs.Prelude.{ℕ, ◌≡◌, ◌≤◌, ◌<◌, ◌*◌, Ok, IfOk, IfErr, OnOk};
ghost use Rattle.ufs_disk.specs.Bytes.{image_of};
ghost use Rattle.ufs_base.specs.declared.lack.Lack.{Lack};
ghost use Rattle.ufs_metadata.specs.Faults.{HasFaultCause, IsOutside};
ghost use Rattle.ufs_metadata.specs.Lacks.{IsOfNumbers};
ghost use Rattle.ufs_metadata.specs.declared.fault.RecoverFault.TheVariants as cause;
ghost use Rattle.ufs_image.specs.Agree.{IsOfDir};
ghost use Rattle.ufs_image.specs.Catalog.{catalog_at};
ghost use Rattle.ufs_image.specs.Volume.{Volume, superblock_of, volume};
ghost use Rattle.ufs_layout.specs.Areas.{IsGeometry, first_of_data, sector_count};
ghost use Rattle.ufs_layout.specs.Superblock.{geometry_of};
ghost use Rattle.ufs_start.specs.Ends.{IsOfImage, end_of_extents, end_of_form, end_of_forms};
ghost use Rattle.ufs_front.specs.Fronts.{bytes_of};

use std::alloc::Global;
use ufs_base::Lack;
use ufs_front::FrontDisk;
use ufs_layout::{Extent, Geometry, Inode};
use ufs_metadata::{RecoverFault, read_findings};
use ufs_volume::read_volume;

const DIRECTORY: u8 = 2;

// The block behind the last one of these extents, as far as numbers go.
fn end_of_extents(extents: &[Extent]) -> u32
    ensures { result ≡ end_of_extents extents.now }
{
    extents
        .iter()
        .map(|extent| extent.start.saturating_add(extent.length))
        .max()
        .unwrap_or(0)
}

fn end_of_form(form: &Option<Inode>) -> u32
    ensures { result ≡ end_of_form form.now }
{
    match form {
        Some(form) => {
            if form.kind != DIRECTORY {
                return 0;
            }
            end_of_extents(form.used_extents())
        }
        None => 0,
    }
}

fn end_of_forms(forms: &[Option<Inode>]) -> u32
    ensures { result ≡ end_of_forms forms.now }
{
    forms
        .iter()
        .map(|form| end_of_form(form))
        .max()
        .unwrap_or(0)
}

// Where the data ends that is read of an image without a volume, by why there is none: no data is read. No call of the
// disk that it is read of ever fails.
fn end_without(geometry: &Geometry, fault: RecoverFault) -> Result<u32, Lack>
    requires geometry { IsGeometry geometry.now }
    requires calm { HasFaultCause 0 0 fault }
    requires lack { (w : Lack) → fault ≡ cause.Lack w → IsOfNumbers w }
    ensures end { IfOk result (λ end. end ≡ first_of_data geometry.now) }
    ensures refused { OnOk result (IsOfImage fault) }
    ensures told { IfErr result (λ lack. fault ≡ cause.Lack lack) }
    ensures lack { IfErr result IsOfNumbers }
{
    match fault {
        RecoverFault::Lack(lack) => Err(lack),
        RecoverFault::Device { .. } => unreachable!(),
        _ => Ok(geometry.first_of_data()),
    }
}

// For want of what an image isn't read of a disk no call of which ever fails.
fn lack_of(fault: RecoverFault) -> Lack
    requires outside { IsOutside fault }
    requires calm { HasFaultCause 0 0 fault }
    ensures told { fault ≡ cause.Lack result }
    ensures lack { IsOfNumbers result }
{
    match fault {
        RecoverFault::Lack(lack) => lack,
        _ => unreachable!(),
    }
}

/// The block behind the last one of a directory, by the metadata of an image of this geometry; the first data block where
/// no directory has one, or where the journal is refused. Fails only for want of memory.
pub(crate) fn end_of_used(
    alloc: Global,
    geometry: &Geometry,
    copy: &mut FrontDisk,
) -> Result<u32, Lack>
    requires limits { IsGeometry geometry.now }
    requires large { sector_count geometry.now ≤ copy.old.sectors }
    requires fields { geometry.now ≡ geometry_of (superblock_of (image_of (bytes_of copy.old))) }
    ensures least { IfOk result (λ end. first_of_data geometry.now ≤ end) }
    ensures most { IfOk result (λ end. end ≤ geometry.now.blocks) }
    ensures behind { IfOk result (λ end. (v : Volume) → volume copy.old.sectors (image_of (bytes_of copy.old)) ≡ Ok v → (sector : ℕ) → sector < sector_count geometry.now → IsOfDir geometry.now (catalog_at geometry.now v.image) sector → sector < 8 * end) }
    ensures image { image_of (bytes_of copy.new) ≡ image_of (bytes_of copy.old) }
    ensures sectors { copy.new.sectors ≡ copy.old.sectors }
    ensures lack { IfErr result IsOfNumbers }
{
    let volume = match read_volume(alloc, copy) {
        Ok(volume) => volume,
        Err(fault) => return end_without(geometry, fault),
    };
    let findings = match read_findings(alloc, copy, geometry, &volume.overlay) {
        Ok(findings) => findings,
        Err(fault) => return Err(lack_of(fault)),
    };
    let end = end_of_forms(findings.forms()).min(geometry.blocks);
    Ok(end.max(geometry.first_of_data()))
}
