// Orphans are freed and files are cut where there are such, and the used blocks are told.
ghost use Rattle.std.specs.Prelude.{ℕ, ◌≡◌, ◌≤◌, length, IsTrue, IfOk, IfErr, OnOk};
ghost use Rattle.ufs_base.specs.Images.{Image};
ghost use Rattle.ufs_metadata.specs.Faults.{HasFaultCause, IsOutside, LacksMemory};
ghost use Rattle.ufs_metadata.specs.Reading.{IsReadOnly};
ghost use Rattle.ufs_damage.specs.Findings.{AreFindingsOf};
ghost use Rattle.ufs_damage.specs.Taken.{AreTaken};
ghost use Rattle.ufs_disk.specs.Disk.{IsSettled};
ghost use Rattle.ufs_disk.specs.Moments.{reads};
ghost use Rattle.ufs_image.specs.Nodes.{sound_nodes};
ghost use Rattle.ufs_layout.specs.Areas.{IsGeometry, sector_count};
ghost use Rattle.ufs_layout.specs.declared.superblock.Super.{Super};
ghost use Rattle.ufs_recovery.specs.Finished.{GetsTidy, KeepsTreeTidying};
ghost use Rattle.ufs_recovery.specs.Fitted.{GetsFitted, MayFit};
ghost use Rattle.ufs_recovery.specs.Home.{KeepsTree};
ghost use Rattle.ufs_recovery.specs.Orphans.{IsReadOf};

use crate::cutting::are_fitted;
use crate::faults::of_device;
use crate::fitting::fit;
use crate::orphans::has_none;
use crate::pruning::{Orphans, prune};
use std::alloc::Global;
use ufs_damage::{Findings, TakenBlocks, taken_blocks};
use ufs_disk::Disk;
use ufs_layout::Geometry;
use ufs_metadata::{RecoverFault, read_findings};
use ufs_overlay::Overlay;

fn used_blocks(
    alloc: Global,
    geometry: &Geometry,
    findings: &Findings,
) -> Result<TakenBlocks, RecoverFault>
    requires geometry { IsGeometry geometry.now }
    requires counted { length findings.now.forms ≡ geometry.now.inodes }
    ensures taken { IfOk result (λ t. (image : Image) → AreFindingsOf geometry.now image findings.now → AreTaken geometry.now (sound_nodes geometry.now image) t) }
    ensures calm { IfErr result (λ f. (before : ℕ) → HasFaultCause before before f) }
    ensures outside { IfErr result IsOutside }
    ensures memory { IfErr result LacksMemory }
{
    match taken_blocks(alloc, geometry, findings) {
        Ok(taken) => Ok(taken),
        Err(memory) => Err(RecoverFault::from(memory)),
    }
}

// The used blocks as the disk has them, where nothing is committed that isn't home.
fn read_used_blocks<D: Disk>(
    alloc: Global,
    disk: &mut D,
    geometry: &Geometry,
) -> Result<TakenBlocks, RecoverFault>
    requires geometry { IsGeometry geometry.now }
    requires large { sector_count geometry.now ≤ D.size disk.old }
    ensures taken { IsTrue D.visible → IfOk result (λ t. AreTaken geometry.now (sound_nodes geometry.now (reads (D.moments disk.old))) t) }
    ensures read_only { IsTrue D.visible → IsReadOnly D.keeps (D.moments disk.old) (D.moments disk.new) }
    ensures size { D.size disk.new ≡ D.size disk.old }
    ensures passed { OnOk result (D.faults disk.new ≡ D.faults disk.old) }
    ensures cause { IfErr result (HasFaultCause (D.faults disk.old) (D.faults disk.new)) }
    ensures outside { IfErr result IsOutside }
    ensures memory { IfErr result LacksMemory }
{
    let findings = read_again(alloc, disk, geometry)?;
    used_blocks(alloc, geometry, &findings)
}

// What the disk has, where nothing is committed that isn't home.
fn read_again<D: Disk>(
    alloc: Global,
    disk: &mut D,
    geometry: &Geometry,
) -> Result<Findings, RecoverFault>
    requires geometry { IsGeometry geometry.now }
    requires large { sector_count geometry.now ≤ D.size disk.old }
    ensures found { IsTrue D.visible → IfOk result (λ f. AreFindingsOf geometry.now (reads (D.moments disk.old)) f) }
    ensures count { IfOk result (λ f. length f.forms ≡ geometry.now.inodes) }
    ensures read_only { IsTrue D.visible → IsReadOnly D.keeps (D.moments disk.old) (D.moments disk.new) }
    ensures size { D.size disk.new ≡ D.size disk.old }
    ensures passed { OnOk result (D.faults disk.new ≡ D.faults disk.old) }
    ensures cause { IfErr result (HasFaultCause (D.faults disk.old) (D.faults disk.new)) }
    ensures outside { IfErr result IsOutside }
    ensures memory { IfErr result LacksMemory }
{
    let overlay = Overlay::make(alloc, geometry);
    read_findings(alloc, disk, geometry, &overlay)
}

// Cuts the files that have blocks which their sizes don't need, if there are any, and answers the used blocks of the
// image then. `findings` are those of an image with the same inodes; where files are cut, the inodes are read again.
fn fit_files<D: Disk>(
    alloc: Global,
    disk: &mut D,
    geometry: &Geometry,
    findings: &Findings,
) -> Result<TakenBlocks, RecoverFault>
    requires geometry { IsGeometry geometry.now }
    requires large { sector_count geometry.now ≤ D.size disk.old }
    requires read { length findings.now.forms ≡ geometry.now.inodes }
    ensures settled { IsTrue D.visible → IsSettled (D.moments disk.old).state → OnOk result (IsSettled (D.moments disk.new).state) }
    ensures fitted { IsTrue D.visible → OnOk result (GetsFitted (D.size disk.old) geometry.now findings.now.forms (reads (D.moments disk.old)) (reads (D.moments disk.new))) }
    ensures taken { IsTrue D.visible → IfOk result (λ t. IsReadOf geometry.now (reads (D.moments disk.old)) findings.now → AreTaken geometry.now (sound_nodes geometry.now (reads (D.moments disk.new))) t) }
    ensures tree { IsTrue D.visible → IsSettled (D.moments disk.old).state → (superblock : Super) → MayFit (D.size disk.old) superblock (reads (D.moments disk.old)) geometry.now findings.now.forms → KeepsTree D.keeps (D.size disk.old) (D.moments disk.old) (D.moments disk.new) }
    ensures size { D.size disk.new ≡ D.size disk.old }
    ensures passed { OnOk result (D.faults disk.new ≡ D.faults disk.old) }
    ensures cause { IfErr result (HasFaultCause (D.faults disk.old) (D.faults disk.new)) }
    ensures outside { IfErr result IsOutside }
    ensures memory { IfErr result LacksMemory }
{
    if are_fitted(findings.forms()) {
        return used_blocks(alloc, geometry, findings);
    }
    fit(alloc, disk, geometry, findings.forms())?;
    read_used_blocks(alloc, disk, geometry)
}

// Frees the orphans and cuts the files with blocks too many, if there are any, and answers the used blocks of the
// image then. `findings` are those of an image with the same inodes; where orphans are freed or files are cut, the
// inodes are read again.
pub(crate) fn tidy<D: Disk>(
    alloc: Global,
    disk: &mut D,
    geometry: &Geometry,
    findings: &Findings,
    orphans: &Orphans,
) -> Result<TakenBlocks, RecoverFault>
    requires geometry { IsGeometry geometry.now }
    requires large { sector_count geometry.now ≤ D.size disk.old }
    requires read { length findings.now.forms ≡ geometry.now.inodes }
    requires counted { length orphans.now.numbers.items ≡ geometry.now.inodes }
    requires counted_dirs { length orphans.now.dirs.items ≡ geometry.now.inodes }
    ensures settled { IsTrue D.visible → IsSettled (D.moments disk.old).state → OnOk result (IsSettled (D.moments disk.new).state) }
    ensures tidy { IsTrue D.visible → OnOk result (GetsTidy (D.size disk.old) geometry.now findings.now orphans.now.numbers.items orphans.now.dirs.items (reads (D.moments disk.old)) (reads (D.moments disk.new))) }
    ensures taken { IsTrue D.visible → IfOk result (λ t. IsReadOf geometry.now (reads (D.moments disk.old)) findings.now → AreTaken geometry.now (sound_nodes geometry.now (reads (D.moments disk.new))) t) }
    ensures tree { IsTrue D.visible → KeepsTreeTidying D.keeps (D.size disk.old) geometry.now findings.now orphans.now.numbers.items orphans.now.dirs.items (D.moments disk.old) (D.moments disk.new) }
    ensures size { D.size disk.new ≡ D.size disk.old }
    ensures passed { OnOk result (D.faults disk.new ≡ D.faults disk.old) }
    ensures cause { IfErr result (HasFaultCause (D.faults disk.old) (D.faults disk.new)) }
    ensures outside { IfErr result IsOutside }
    ensures memory { IfErr result LacksMemory }
{
    if has_none(&orphans.numbers) {
        return fit_files(alloc, disk, geometry, findings);
    }
    of_device(prune(disk, geometry, orphans))?;
    let found = read_again(alloc, disk, geometry)?;
    fit_files(alloc, disk, geometry, &found)
}
