// A recovery from its plan to the end.
ghost use Rattle.std.specs.Prelude.{ℕ, ◌≡◌, ◌≤◌, length, IsTrue, IfErr, OnOk};
ghost use Rattle.ufs_metadata.specs.Faults.{HasFaultCause, IsOutside, LacksMemory};
ghost use Rattle.ufs_metadata.specs.Reading.{IsReadOnly};
ghost use Rattle.ufs_disk.specs.Disk.{IsSettled};
ghost use Rattle.ufs_disk.specs.Moments.{reads};
ghost use Rattle.ufs_layout.specs.Areas.{IsGeometry, sector_count};
ghost use Rattle.ufs_layout.specs.Superblock.{is_super};
ghost use Rattle.ufs_recovery.specs.Finished.{HasFinished, IsWrittenBack, MayFinish, MayWriteBack};
ghost use Rattle.ufs_recovery.specs.Home.{KeepsTree};
ghost use Rattle.ufs_recovery.specs.Orphans.{LacksForPlan};
ghost use Rattle.ufs_recovery.specs.Recovered.{IsAtEnd};
ghost use Rattle.ufs_volume.specs.Volumes.{folded_image};

use crate::faults::of_device;
use crate::freeing::tidy;
use crate::plan::{Plan, make_plan};
use crate::steps::{begin, close};
use std::alloc::Global;
use ufs_damage::Findings;
use ufs_disk::Disk;
use ufs_layout::Geometry;
use ufs_metadata::RecoverFault;
use ufs_volume::FoldedVolume;

// What is left once the next epoch has begun.
fn finish<D: Disk>(
    alloc: Global,
    disk: &mut D,
    geometry: &Geometry,
    findings: &Findings,
    plan: &Plan,
) -> Result<(), RecoverFault>
    requires geometry { IsGeometry geometry.now }
    requires large { sector_count geometry.now ≤ D.size disk.old }
    requires read { length findings.now.forms ≡ geometry.now.inodes }
    requires counted { length plan.now.orphans.numbers.items ≡ geometry.now.inodes }
    requires counted_dirs { length plan.now.orphans.dirs.items ≡ geometry.now.inodes }
    requires form { IsTrue (is_super 1 plan.now.superblock) }
    ensures settled { IsTrue D.visible → OnOk result (IsSettled (D.moments disk.new).state) }
    ensures finished { IsTrue D.visible → OnOk result (IsSettled (D.moments disk.old).state
        → MayFinish (D.size disk.old) plan.now.superblock (reads (D.moments disk.old)) geometry.now findings.now plan.now.orphans.numbers.items plan.now.orphans.dirs.items
        → HasFinished (D.size disk.old) plan.now.superblock (reads (D.moments disk.old)) (reads (D.moments disk.new))) }
    ensures tree { IsTrue D.visible → IsSettled (D.moments disk.old).state
        → MayFinish (D.size disk.old) plan.now.superblock (reads (D.moments disk.old)) geometry.now findings.now plan.now.orphans.numbers.items plan.now.orphans.dirs.items
        → KeepsTree D.keeps (D.size disk.old) (D.moments disk.old) (D.moments disk.new) }
    ensures size { D.size disk.new ≡ D.size disk.old }
    ensures passed { OnOk result (D.faults disk.new ≡ D.faults disk.old) }
    ensures cause { IfErr result (HasFaultCause (D.faults disk.old) (D.faults disk.new)) }
    ensures outside { IfErr result IsOutside }
    ensures memory { IfErr result LacksMemory }
{
    let taken = tidy(alloc, disk, geometry, findings, &plan.orphans)?;
    of_device(close(disk, geometry, &taken, &plan.superblock))
}

// Makes an image in use clean: writes home what is committed, begins the next epoch, frees the orphans, cuts the files
// with blocks too many, writes what differs in the bitmap and marks the image clean, each behind a barrier.
pub(crate) fn write_back<D: Disk>(
    alloc: Global,
    disk: &mut D,
    volume: &FoldedVolume,
    findings: &Findings,
) -> Result<(), RecoverFault>
    requires large { sector_count volume.now.superblock.geometry ≤ D.size disk.old }
    requires read { length findings.now.forms ≡ volume.now.superblock.geometry.inodes }
    ensures settled { IsTrue D.visible → OnOk result (IsSettled (D.moments disk.new).state) }
    ensures written { IsTrue D.visible → OnOk result (IsSettled (D.moments disk.old).state → MayWriteBack (D.size disk.old) (reads (D.moments disk.old)) volume.now findings.now
        → IsWrittenBack (D.size disk.old) volume.now.superblock.superblock (folded_image volume.now (reads (D.moments disk.old))) volume.now.highest (reads (D.moments disk.new))) }
    ensures tree { IsTrue D.visible → IsSettled (D.moments disk.old).state → MayWriteBack (D.size disk.old) (reads (D.moments disk.old)) volume.now findings.now
        → KeepsTree D.keeps (D.size disk.old) (D.moments disk.old) (D.moments disk.new) }
    ensures size { D.size disk.new ≡ D.size disk.old }
    ensures passed { OnOk result (D.faults disk.new ≡ D.faults disk.old) }
    ensures cause { IfErr result (HasFaultCause (D.faults disk.old) (D.faults disk.new)) }
    ensures outside { IfErr result IsOutside }
    ensures early { IsTrue D.visible → IfErr result (λ f. IsAtEnd f → IsReadOnly D.keeps (D.moments disk.old) (D.moments disk.new)) }
    ensures lack { IfErr result (LacksForPlan volume.now.superblock.superblock findings.now.forms volume.now.highest) }
{
    let plan = make_plan(alloc, &volume.superblock, findings, volume.highest)?;
    of_device(begin(disk, &volume.overlay, &plan.superblock))?;
    finish(alloc, disk, &volume.superblock.geometry, findings, &plan)
}
