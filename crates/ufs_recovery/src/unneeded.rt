ghost use Rattle.std.specs.Prelude.{ℕ, ◌≡◌, Ok, Err, IsTrue, IfErr, OnOk};
ghost use Rattle.ufs_metadata.specs.Faults.{HasFaultCause, IsOutside};
ghost use Rattle.ufs_metadata.specs.Reading.{IsReadOnly};
ghost use Rattle.ufs_disk.specs.Moments.{reads};
ghost use Rattle.ufs_image.specs.Opens.{ImageTree, opens};
ghost use Rattle.ufs_image.specs.Proper.{IsProperImage};
ghost use Rattle.ufs_image.specs.Volume.{Refusal};
ghost use Rattle.ufs_opening.specs.Told.{TellsWhy};
ghost use Rattle.ufs_recovery.specs.Home.{KeepsTree};
ghost use Rattle.ufs_recovery.specs.Recovered.{IsAtEnd, IsCleanDisk, IsProperDisk, IsRecovered, LacksForRecovery, LacksNumbers};

use crate::finishing::write_back;
use std::alloc::Global;
use ufs_disk::Disk;
use ufs_metadata::RecoverFault;
use ufs_opening::open;

/// Frees the inodes that no path names, and the blocks that a file has beyond its size, also on an image that is marked clean,
/// and leaves it clean: by the steps of `recover` on an image in use. Neither a session nor a recovery leaves these on a clean
/// image, but others may. Whatever stops it, the image stands for the same tree. Reads what `open` reads, and the bitmap; where
/// anything is freed, the inode table and the directories are read once more. A fault of the disk ends it. Where the epochs or
/// the commit numbers end, it is refused (`Lack(AtEnd)`) before anything is written, and nowhere else for want of a number.
pub fn free_unneeded<D: Disk>(alloc: Global, disk: &mut D) -> Result<(), RecoverFault>
    ensures clean { IsTrue D.visible → OnOk result (IsProperDisk (D.size disk.old) (D.moments disk.old).state → IsCleanDisk (D.size disk.old) (D.moments disk.new).state) }

    // At each moment, also of a call that is refused, whatever a crash leaves opens to the same tree and is proper.
    ensures tree { IsTrue D.visible → IsProperDisk (D.size disk.old) (D.moments disk.old).state → KeepsTree D.keeps (D.size disk.old) (D.moments disk.old) (D.moments disk.new) }
    ensures recovered { IsTrue D.visible → OnOk result (IsProperDisk (D.size disk.old) (D.moments disk.old).state → IsRecovered (reads (D.moments disk.old)) (reads (D.moments disk.new))) }
    ensures opened { IsTrue D.visible → OnOk result ((tree : ImageTree) × (opens (D.size disk.old) (reads (D.moments disk.old)) ≡ Ok tree)) }
    ensures unopened { IsTrue D.visible → (refusal : Refusal) → opens (D.size disk.old) (reads (D.moments disk.old)) ≡ Err refusal → IsReadOnly D.keeps (D.moments disk.old) (D.moments disk.new) }
    ensures refused { IsTrue D.visible → IfErr result (TellsWhy (D.size disk.old) (reads (D.moments disk.old))) }
    ensures outside { IsTrue D.visible → IsProperImage (D.size disk.old) (reads (D.moments disk.old)) → IfErr result IsOutside }
    ensures early { IsTrue D.visible → IfErr result (λ f. IsAtEnd f → IsReadOnly D.keeps (D.moments disk.old) (D.moments disk.new)) }
    ensures numbers { IfErr result LacksNumbers }
    ensures lack { IsTrue D.visible → IfErr result (LacksForRecovery (reads (D.moments disk.old))) }
    ensures size { D.size disk.new ≡ D.size disk.old }
    ensures passed { OnOk result (D.faults disk.new ≡ D.faults disk.old) }
    ensures cause { IfErr result (HasFaultCause (D.faults disk.old) (D.faults disk.new)) }
{
    let opened = open(alloc, disk)?;
    write_back(alloc, disk, &opened.volume, &opened.findings)
}
