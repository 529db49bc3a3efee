ghost use Rattle.std.specs.Prelude.{◌≡◌, ◌≤◌, ◌++◌, ◌∷◌, [], map, length, IsTrue, IfOk, IfErr, OnOk};
ghost use Rattle.ufs_base.specs.Images.{Image};
ghost use Rattle.ufs_base.specs.declared.sizes.TheConstants.{BLOCK};
ghost use Rattle.ufs_disk.specs.Moments.{reads};
ghost use Rattle.ufs_layout.specs.Areas.{IsGeometry, sector_count, all_inodes};
ghost use Rattle.ufs_layout.specs.InodeForm.{inode_of};
ghost use Rattle.ufs_image.specs.Images.{inode_at};
ghost use Rattle.ufs_metadata.specs.Faults.{HasFaultCause, IsOutside, LacksMemory};
ghost use Rattle.ufs_metadata.specs.Folded.{IsFolded};
ghost use Rattle.ufs_metadata.specs.Reading.{IsReadOnly};
ghost use Rattle.ufs_metadata.specs.Told.{forms_in};

use crate::RecoverFault;
use crate::reading::read_block;
use std::alloc::{AllocError, Global};
use ufs_base::BLOCK;
use ufs_disk::Disk;
use ufs_layout::{Geometry, Inode, get_inode};
use ufs_overlay::Overlay;

fn push_form(forms: &mut Vec<Option<Inode>>, sector: &[u8]) -> Result<(), AllocError>
    requires { length sector.now ≡ 512 }
    ensures { OnOk result (forms.new.items ≡ forms.old.items ++ inode_of sector.now ∷ []) }
{
    forms.push(get_inode(sector))?;
    Ok(())
}

// The forms of the first inodes in a block of the table.
fn push_forms(forms: &mut Vec<Option<Inode>>, bytes: &[u8], count: u32) -> Result<(), AllocError>
    requires sized { length bytes.now ≡ BLOCK }
    requires few { count ≤ 8 }
    ensures { OnOk result (forms.new.items ≡ forms.old.items ++ forms_in count bytes.now) }
{
    for i in 0..count {
        let at = 512 * i as usize;
        push_form(forms, &bytes[at..at + 512])?;
    }
    Ok(())
}

/// The form of inode 1, 2, .. in order, `None` where its sector is off its form. Reads each block of the
/// table in one call.
pub(crate) fn read_forms<D: Disk>(
    alloc: Global,
    disk: &mut D,
    geometry: &Geometry,
    overlay: &Overlay,
) -> Result<Vec<Option<Inode>>, RecoverFault>
    requires geometry { IsGeometry geometry.now }
    requires large { sector_count geometry.now ≤ D.size disk.old }
    ensures forms { IsTrue D.visible → (image : Image) → IsFolded overlay.now (reads (D.moments disk.old)) image → IfOk result (λ f. f.items ≡ map (inode_at geometry.now image) (all_inodes geometry.now)) }
    ensures count { IfOk result (λ f. length f.items ≡ geometry.now.inodes) }
    ensures read_only { IsTrue D.visible → IsReadOnly D.keeps (D.moments disk.old) (D.moments disk.new) }
    ensures size { D.size disk.new ≡ D.size disk.old }
    ensures passed { OnOk result (D.faults disk.new ≡ D.faults disk.old) }
    ensures cause { IfErr result (HasFaultCause (D.faults disk.old) (D.faults disk.new)) }
    ensures outside { IfErr result IsOutside }
    ensures memory { IfErr result LacksMemory }
{
    let start = geometry.first_of_inodes();
    let end = geometry.first_of_journal();
    let mut forms = Vec::with_capacity(alloc, geometry.inodes as usize)?;
    let mut bytes = [0; BLOCK];
    for place in 0..end - start {
        let count = (geometry.inodes - 8 * place).min(8);
        read_block(disk, overlay, start + place, &mut bytes)?;
        push_forms(&mut forms, &bytes, count)?;
    }
    Ok(forms)
}
