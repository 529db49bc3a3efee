// What a server begins with, of a disk whose image may be mended first.
ghost use Rattle.std.specs.Prelude.{◌≡◌, Ok, Err, IsTrue, IfOk, IfErr, OnOk};
ghost use Rattle.ufs_base.specs.Images.{Image};
ghost use Rattle.ufs_metadata.specs.declared.fault.RecoverFault.{RecoverFault};
ghost use Rattle.ufs_disk.specs.Moments.{reads};
ghost use Rattle.ufs_brink.specs.Begins as begins;
ghost use Rattle.ufs_brink.specs.Begins.{TellsNoSession};
ghost use Rattle.ufs_brink.specs.Numbers.{IsMendedBy};
ghost use Rattle.ufs_image.specs.Opens.{ImageTree, opens};
ghost use Rattle.ufs_image.specs.Volume.{Refusal};
ghost use Rattle.ufs_opening.specs.Told.{TellsWhy};
ghost use Rattle.ufs_recovery.specs.Home.{KeepsTree};
ghost use Rattle.ufs_recovery.specs.Recovered.{IsCleanDisk, IsProperDisk};
ghost use Rattle.ufs_start.specs.Begun.{IsBegun};
ghost use Rattle.ufs_start.specs.Refused.{HasStartCause};
ghost use Rattle.ufs_start.specs.declared.fault.StartFault.TheVariants as start;

use std::alloc::Global;
use ufs_disk::Disk;
use ufs_recovery::{free_unneeded, recover};
use ufs_start::{Start, StartFault, start_of};

/// Recovers an image that is in use, mends it where a server can't begin with that, and makes what a server begins with. The
/// image is clean then.
pub fn recovered_start<D: Disk>(alloc: Global, disk: &mut D) -> Result<Start, StartFault>
    ensures begun { IfOk result (λ s. (image : Image) × IsBegun (D.size disk.old) image s × (IsTrue D.visible → image ≡ reads (D.moments disk.new))) }
    ensures stands { IsTrue D.visible → OnOk result ((tree : ImageTree) × (opens (D.size disk.old) (reads (D.moments disk.old)) ≡ Ok tree)) }
    ensures unopened { IsTrue D.visible → (refusal : Refusal) → opens (D.size disk.old) (reads (D.moments disk.old)) ≡ Err refusal
        → IfErr result (λ f. (fault : RecoverFault) × (f ≡ start.Image fault) × TellsWhy (D.size disk.old) (reads (D.moments disk.old)) fault) }
    ensures tree { IsTrue D.visible → IsProperDisk (D.size disk.old) (D.moments disk.old).state → KeepsTree D.keeps (D.size disk.old) (D.moments disk.old) (D.moments disk.new) }
    ensures clean { IsTrue D.visible → IsProperDisk (D.size disk.old) (D.moments disk.old).state → OnOk result (IsCleanDisk (D.size disk.old) (D.moments disk.new).state) }
    ensures refused { IsTrue D.visible → IsProperDisk (D.size disk.old) (D.moments disk.old).state → IfErr result (TellsNoSession (D.size disk.old) (reads (D.moments disk.old))) }
    ensures size { D.size disk.new ≡ D.size disk.old }
    ensures passed { OnOk result (D.faults disk.new ≡ D.faults disk.old) }
    ensures cause { IfErr result (HasStartCause (D.faults disk.old) (D.faults disk.new)) }
    ensures numbers { IsTrue D.visible → IsProperDisk (D.size disk.old) (D.moments disk.old).state → OnOk result (IsMendedBy 2 (reads (D.moments disk.old)) (reads (D.moments disk.new))) }
{
    match recover(alloc, disk) {
        Ok(_transactions) => mended_start(alloc, disk),
        Err(fault) => Err(StartFault::Image(fault)),
    }
}

// The same of a disk whose image is clean, or which isn't visible.
fn mended_start<D: Disk>(alloc: Global, disk: &mut D) -> Result<Start, StartFault>
    ensures begun { IfOk result (λ s. (image : Image) × IsBegun (D.size disk.old) image s × (IsTrue D.visible → image ≡ reads (D.moments disk.new))) }
    ensures tree { IsTrue D.visible → IsProperDisk (D.size disk.old) (D.moments disk.old).state → KeepsTree D.keeps (D.size disk.old) (D.moments disk.old) (D.moments disk.new) }
    ensures clean { IsTrue D.visible → IsCleanDisk (D.size disk.old) (D.moments disk.old).state → OnOk result (IsCleanDisk (D.size disk.old) (D.moments disk.new).state) }
    ensures refused { IsTrue D.visible → IsProperDisk (D.size disk.old) (D.moments disk.old).state → IfErr result (TellsNoSession (D.size disk.old) (reads (D.moments disk.old))) }
    ensures size { D.size disk.new ≡ D.size disk.old }
    ensures passed { OnOk result (D.faults disk.new ≡ D.faults disk.old) }
    ensures cause { IfErr result (HasStartCause (D.faults disk.old) (D.faults disk.new)) }
    ensures numbers { IsTrue D.visible → IsCleanDisk (D.size disk.old) (D.moments disk.old).state → OnOk result (IsMendedBy 1 (reads (D.moments disk.old)) (reads (D.moments disk.new))) }
{
    match start_of(alloc, disk) {
        Ok(start) => Ok(start),
        Err(fault) => {
            if is_mended(fault) {
                freed_start(alloc, disk)
            } else {
                Err(fault)
            }
        }
    }
}

// Whether a server that can't begin with an image for this can with what a recovery leaves of it.
fn is_mended(fault: StartFault) -> bool
    ensures { result ≡ begins.is_mended fault }
{
    match fault {
        StartFault::Unreached { .. }
        | StartFault::Unnamed { .. }
        | StartFault::ExtraBlocks { .. } => true,
        StartFault::Image(_) => false,
    }
}

// Frees what no path names and what no file needs, and makes what a server begins with.
fn freed_start<D: Disk>(alloc: Global, disk: &mut D) -> Result<Start, StartFault>
    ensures begun { IfOk result (λ s. (image : Image) × IsBegun (D.size disk.old) image s × (IsTrue D.visible → image ≡ reads (D.moments disk.new))) }
    ensures tree { IsTrue D.visible → IsProperDisk (D.size disk.old) (D.moments disk.old).state → KeepsTree D.keeps (D.size disk.old) (D.moments disk.old) (D.moments disk.new) }
    ensures clean { IsTrue D.visible → IsProperDisk (D.size disk.old) (D.moments disk.old).state → OnOk result (IsCleanDisk (D.size disk.old) (D.moments disk.new).state) }
    ensures refused { IsTrue D.visible → IsProperDisk (D.size disk.old) (D.moments disk.old).state → IfErr result (TellsNoSession (D.size disk.old) (reads (D.moments disk.old))) }
    ensures size { D.size disk.new ≡ D.size disk.old }
    ensures passed { OnOk result (D.faults disk.new ≡ D.faults disk.old) }
    ensures cause { IfErr result (HasStartCause (D.faults disk.old) (D.faults disk.new)) }
    ensures numbers { IsTrue D.visible → IsProperDisk (D.size disk.old) (D.moments disk.old).state → OnOk result (IsMendedBy 1 (reads (D.moments disk.old)) (reads (D.moments disk.new))) }
{
    match free_unneeded(alloc, disk) {
        Ok(()) => start_of(alloc, disk),
        Err(fault) => Err(StartFault::Image(fault)),
    }
}
