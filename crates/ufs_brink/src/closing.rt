// A session's image is made clean.
ghost use Rattle.std.specs.Prelude.{ℕ, ◌≡◌, None, Err, IsTrue, IfErr, OnOk, false};
ghost use Rattle.ufs_base.specs.declared.lack.Lack.{Lack};
ghost use Rattle.ufs_base.specs.declared.lack.Lack.TheVariants as lack;
ghost use Rattle.ufs_metadata.specs.Faults.{HasFaultCause, IsOutside};
ghost use Rattle.ufs_metadata.specs.declared.fault.RecoverFault.TheVariants as recovery;
ghost use Rattle.ufs_image.specs.Volume.{superblock_of};
ghost use Rattle.ufs_brink.specs.Closes.{OpensAsLeft, closing_fault, device_told_by, stopped_at, tells_unsound};
ghost use Rattle.ufs_brink.specs.declared.closing.CloseFault.TheVariants as cause;
ghost use Rattle.ufs_disk.specs.Disk.{Leaves};
ghost use Rattle.ufs_disk.specs.Moments.{LeavesOnly, reads};
ghost use Rattle.ufs_image.specs.Proper.{IsProperImage};
ghost use Rattle.ufs_recovery.specs.Recovered.{IsCleanDisk, IsRecovered};
ghost use Rattle.ufs_store.specs.Refusals.{IsTold};

use std::alloc::Global;
use ufs_base::Lack;
use ufs_disk::Disk;
use ufs_metadata::RecoverFault;
use ufs_recovery::recover;

/// Why an image isn't made clean at a session's end. It is left in use.
#[derive(Clone, Copy, Debug, PartialEq, Eq)]
pub enum CloseFault {
    /// A call of the disk failed in the closing; the disk's count of faults after it.
    Device { fault: u64 },
    /// The store had stopped at this fault before.
    Stopped { fault: u64 },
    /// No memory, or no next number.
    Lack(Lack),
}

/// Waits for what was written, and makes the image clean by a recovery. An image that opens goes on opening to its tree, at each moment.
pub fn clean<D: Disk>(alloc: Global, disk: &mut D) -> Result<(), CloseFault>
    ensures tree { IsTrue D.visible → Leaves (IsProperImage (D.size disk.old)) (D.moments disk.old).state
        → LeavesOnly D.keeps (OpensAsLeft (D.size disk.old) (D.moments disk.old).state) (D.moments disk.old) (D.moments disk.new) }
    ensures clean { IsTrue D.visible → OnOk result (Leaves (IsProperImage (D.size disk.old)) (D.moments disk.old).state → IsCleanDisk (D.size disk.old) (D.moments disk.new).state) }
    ensures size { D.size disk.new ≡ D.size disk.old }
    ensures cause { IsTold (D.faults disk.old) (D.faults disk.new) (closing_fault result) }
    ensures going { IfErr result (λ fault. stopped_at fault ≡ None) }
    ensures sound { IsTrue D.visible → Leaves (IsProperImage (D.size disk.old)) (D.moments disk.old).state → IfErr result (λ fault. tells_unsound fault ≡ false) }
    ensures recovered { IsTrue D.visible → OnOk result (Leaves (IsProperImage (D.size disk.old)) (D.moments disk.old).state → (superblock_of (reads (D.moments disk.old))).clean ≡ false
        → IsRecovered (reads (D.moments disk.old)) (reads (D.moments disk.new))) }
{
    if let Err(fault) = disk.barrier() {
        return Err(CloseFault::Device {
            fault: fault.number,
        });
    }
    match recover(alloc, disk) {
        Ok(_) => Ok(()),
        Err(fault) => Err(unclean(fault)),
    }
}

// Why the image isn't clean.
fn unclean(fault: RecoverFault) -> CloseFault
    ensures cause { (before now : ℕ) → HasFaultCause before now fault → IsTold before now (device_told_by result) }
    ensures going { stopped_at result ≡ None }
    ensures lack { (w : Lack) → fault ≡ recovery.Lack w → result ≡ cause.Lack w }
    ensures unsound { (IsOutside fault → ⊥) → ((w : Lack) → fault ≡ recovery.Lack w → ⊥) → result ≡ cause.Lack lack.Unsound }
    ensures sound { IsOutside fault → tells_unsound result ≡ false }
{
    match fault {
        RecoverFault::Device { fault } => CloseFault::Device { fault },
        RecoverFault::Lack(lack) => CloseFault::Lack(lack),
        // The disk gave back other bytes than it was given.
        _ => CloseFault::Lack(Lack::Unsound),
    }
}
