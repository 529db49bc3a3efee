// Blocks that files don't need are cut off.
ghost use Rattle.std.specs.Prelude.{ℕ, ◌≡◌, ◌≤◌, ◌<◌, ◌+◌, length, IsTrue, IfErr, OnOk};
ghost use Rattle.ufs_base.specs.Faults.{HasCause};
ghost use Rattle.ufs_base.specs.Images.{Image};
ghost use Rattle.ufs_metadata.specs.Faults.{HasFaultCause, IsOutside, LacksMemory};
ghost use Rattle.ufs_disk.specs.Disk.{IsSettled};
ghost use Rattle.ufs_disk.specs.Moments.{LeavesOnly, reads};
ghost use Rattle.ufs_layout.specs.Areas.{IsGeometry, sector_count};
ghost use Rattle.ufs_layout.specs.InodeForm.{is_inode};
ghost use Rattle.ufs_layout.specs.declared.superblock.Super.{Super};
ghost use Rattle.ufs_recovery.specs.Fitted.{GetsFitted, HasFormPut, IsFittedBelow, IsFormPut, MayFit, fitted};
ghost use Rattle.ufs_recovery.specs.Home.{KeepsTree};

use crate::cutting::{fitted, has_extra, inode_sector};
use crate::faults::of_device;
use crate::sector::put_sector;
use std::alloc::Global;
use ufs_base::SECTORS_PER_BLOCK;
use ufs_disk::{Disk, Fault};
use ufs_layout::{Geometry, Inode};
use ufs_metadata::RecoverFault;

// Writes the inode at this place of the inode table, and waits until it is on the disk for good.
fn put_form<D: Disk>(
    disk: &mut D,
    geometry: &Geometry,
    place: u32,
    form: &Inode,
) -> Result<(), Fault>
    requires geometry { IsGeometry geometry.now }
    requires large { sector_count geometry.now ≤ D.size disk.old }
    requires inside { place < geometry.now.inodes }
    requires form { IsTrue (is_inode form.now) }
    ensures settled { IsTrue D.visible → OnOk result (IsSettled (D.moments disk.new).state) }
    ensures put { IsTrue D.visible → OnOk result (HasFormPut geometry.now (place + 1) form.now (reads (D.moments disk.old)) (reads (D.moments disk.new))) }
    ensures crash { IsTrue D.visible → LeavesOnly D.keeps (IsFormPut geometry.now (place + 1) form.now (D.moments disk.old).state) (D.moments disk.old) (D.moments disk.new) }
    ensures size { D.size disk.new ≡ D.size disk.old }
    ensures cause { HasCause (D.faults disk.old) (D.faults disk.new) result }
    ensures number { IfErr result (λ fault. fault.number ≡ D.faults disk.new) }
{
    let first = SECTORS_PER_BLOCK as u32 * geometry.first_of_inodes();
    put_sector(disk, first + place, &inode_sector(form))?;
    disk.barrier()
}

// Writes the file at this place without the blocks that its size doesn't need.
fn put_fitted<D: Disk>(
    alloc: Global,
    disk: &mut D,
    geometry: &Geometry,
    place: u32,
    form: &Inode,
) -> Result<(), RecoverFault>
    requires geometry { IsGeometry geometry.now }
    requires large { sector_count geometry.now ≤ D.size disk.old }
    requires inside { place < geometry.now.inodes }
    requires kind { form.now.kind ≡ 1 }
    ensures settled { IsTrue D.visible → OnOk result (IsSettled (D.moments disk.new).state) }
    ensures put { IsTrue D.visible → OnOk result (HasFormPut geometry.now (place + 1) (fitted form.now) (reads (D.moments disk.old)) (reads (D.moments disk.new))) }
    ensures crash { IsTrue D.visible → LeavesOnly D.keeps (IsFormPut geometry.now (place + 1) (fitted form.now) (D.moments disk.old).state) (D.moments disk.old) (D.moments disk.new) }
    ensures size { D.size disk.new ≡ D.size disk.old }
    ensures passed { OnOk result (D.faults disk.new ≡ D.faults disk.old) }
    ensures cause { IfErr result (HasFaultCause (D.faults disk.old) (D.faults disk.new)) }
    ensures outside { IfErr result IsOutside }
    ensures memory { IfErr result LacksMemory }
{
    let short = fitted(alloc, form)?;
    of_device(put_form(disk, geometry, place, &short))
}

// The inode at this place, if it is a file with a block too many, is cut.
fn fit_at<D: Disk>(
    alloc: Global,
    disk: &mut D,
    geometry: &Geometry,
    forms: &[Option<Inode>],
    place: u32,
) -> Result<(), RecoverFault>
    requires geometry { IsGeometry geometry.now }
    requires large { sector_count geometry.now ≤ D.size disk.old }
    requires inside { place < geometry.now.inodes }
    requires counted { length forms.now ≡ geometry.now.inodes }
    ensures settled { IsTrue D.visible → IsSettled (D.moments disk.old).state → OnOk result (IsSettled (D.moments disk.new).state) }
    ensures one_more { IsTrue D.visible → OnOk result ((superblock : Super) (first : Image) → IsFittedBelow (D.size disk.old) superblock geometry.now forms.now place first (reads (D.moments disk.old))
        → IsFittedBelow (D.size disk.old) superblock geometry.now forms.now (place + 1) first (reads (D.moments disk.new))) }
    ensures tree { IsTrue D.visible → IsSettled (D.moments disk.old).state → (superblock : Super) (first : Image) → IsFittedBelow (D.size disk.old) superblock geometry.now forms.now place first (reads (D.moments disk.old))
        → KeepsTree D.keeps (D.size disk.old) (D.moments disk.old) (D.moments disk.new) }
    ensures size { D.size disk.new ≡ D.size disk.old }
    ensures passed { OnOk result (D.faults disk.new ≡ D.faults disk.old) }
    ensures cause { IfErr result (HasFaultCause (D.faults disk.old) (D.faults disk.new)) }
    ensures outside { IfErr result IsOutside }
    ensures memory { IfErr result LacksMemory }
{
    let Some(form) = &forms[place as usize] else {
        return Ok(());
    };
    if !has_extra(form) {
        return Ok(());
    }
    put_fitted(alloc, disk, geometry, place, form)
}

// Cuts the files that have blocks which their sizes don't need, one after the other, each behind a barrier. These are
// the forms of the image's inodes.
pub(crate) fn fit<D: Disk>(
    alloc: Global,
    disk: &mut D,
    geometry: &Geometry,
    forms: &[Option<Inode>],
) -> Result<(), RecoverFault>
    requires geometry { IsGeometry geometry.now }
    requires large { sector_count geometry.now ≤ D.size disk.old }
    requires counted { length forms.now ≡ geometry.now.inodes }
    ensures settled { IsTrue D.visible → IsSettled (D.moments disk.old).state → OnOk result (IsSettled (D.moments disk.new).state) }
    ensures fitted { IsTrue D.visible → OnOk result (GetsFitted (D.size disk.old) geometry.now forms.now (reads (D.moments disk.old)) (reads (D.moments disk.new))) }
    ensures tree { IsTrue D.visible → IsSettled (D.moments disk.old).state → (superblock : Super) → MayFit (D.size disk.old) superblock (reads (D.moments disk.old)) geometry.now forms.now → KeepsTree D.keeps (D.size disk.old) (D.moments disk.old) (D.moments disk.new) }
    ensures size { D.size disk.new ≡ D.size disk.old }
    ensures passed { OnOk result (D.faults disk.new ≡ D.faults disk.old) }
    ensures cause { IfErr result (HasFaultCause (D.faults disk.old) (D.faults disk.new)) }
    ensures outside { IfErr result IsOutside }
    ensures memory { IfErr result LacksMemory }
{
    for place in 0..geometry.inodes {
        fit_at(alloc, disk, geometry, forms, place)?;
    }
    Ok(())
}
