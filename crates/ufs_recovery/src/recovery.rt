ghost use Rattle.std.specs.Prelude.{ℕ, ◌≡◌, ◌≤◌, false, length, Ok, Err, IsTrue, IfOk, IfErr, OnOk};
ghost use Rattle.ufs_metadata.specs.Faults.{HasFaultCause, IsOutside, LacksMemory};
ghost use Rattle.ufs_metadata.specs.Reading.{IsReadOnly};
ghost use Rattle.ufs_disk.specs.Moments.{reads};
ghost use Rattle.ufs_layout.specs.declared.geometry.TheConstants.{MAX_JOURNAL};
ghost use Rattle.ufs_image.specs.Opens.{ImageTree, opens};
ghost use Rattle.ufs_image.specs.Proper.{IsProperImage};
ghost use Rattle.ufs_image.specs.Volume.{Refusal, superblock_of};
ghost use Rattle.ufs_opening.specs.Told.{TellsWhy};
ghost use Rattle.ufs_recovery.specs.Home.{KeepsTree};
ghost use Rattle.ufs_recovery.specs.Recovered.{IsAtEnd, IsCleanDisk, IsProperDisk, IsRecovered, LacksForRecovery, LacksNumbers, log_of};

use crate::finishing::write_back;
use std::alloc::Global;
use ufs_disk::Disk;
use ufs_metadata::RecoverFault;
use ufs_opening::open;

/// Makes the image on a disk clean, and answers how many transactions are committed in its journal. A clean image
/// isn't written. Otherwise, each step behind a barrier: what is committed is written home, the next epoch begins,
/// inodes without a name are freed, files with more blocks than their sizes need are cut, the blocks of the bitmap that
/// differ are written, and the image is marked clean. Whatever stops it, the image stands for the same tree and may be
/// recovered again. Reads what `open` reads, and the bitmap; where inodes are freed, the inode table and the directories
/// are read once more, and so where files are cut. A fault of the disk ends it. Where the epochs or the commit numbers
/// end, an image in use is refused (`Lack(AtEnd)`) before anything is written, and nowhere else for want of a number.
pub fn recover<D: Disk>(alloc: Global, disk: &mut D) -> Result<u32, RecoverFault>
    ensures found { IsTrue D.visible → IfOk result (λ count. count ≡ length (log_of (reads (D.moments disk.old)))) }
    ensures few { IfOk result (λ count. count ≤ MAX_JOURNAL) }
    ensures clean { IsTrue D.visible → OnOk result (IsProperDisk (D.size disk.old) (D.moments disk.old).state → IsCleanDisk (D.size disk.old) (D.moments disk.new).state) }

    // At each moment, also of a call that is refused, whatever a crash leaves opens to the same tree and is proper.
    ensures tree { IsTrue D.visible → IsProperDisk (D.size disk.old) (D.moments disk.old).state → KeepsTree D.keeps (D.size disk.old) (D.moments disk.old) (D.moments disk.new) }
    ensures recovered { IsTrue D.visible → OnOk result (IsProperDisk (D.size disk.old) (D.moments disk.old).state → (superblock_of (reads (D.moments disk.old))).clean ≡ false → IsRecovered (reads (D.moments disk.old)) (reads (D.moments disk.new))) }
    ensures quiet { IsTrue D.visible → IsTrue (superblock_of (reads (D.moments disk.old))).clean → IsReadOnly D.keeps (D.moments disk.old) (D.moments disk.new) }
    ensures opened { IsTrue D.visible → OnOk result ((tree : ImageTree) × (opens (D.size disk.old) (reads (D.moments disk.old)) ≡ Ok tree)) }
    ensures unopened { IsTrue D.visible → (refusal : Refusal) → opens (D.size disk.old) (reads (D.moments disk.old)) ≡ Err refusal → IsReadOnly D.keeps (D.moments disk.old) (D.moments disk.new) }
    ensures refused { IsTrue D.visible → IfErr result (TellsWhy (D.size disk.old) (reads (D.moments disk.old))) }
    ensures outside { IsTrue D.visible → IsProperImage (D.size disk.old) (reads (D.moments disk.old)) → IfErr result IsOutside }
    ensures unasked { IsTrue D.visible → IsTrue (superblock_of (reads (D.moments disk.old))).clean → IfErr result LacksMemory }
    ensures early { IsTrue D.visible → IfErr result (λ f. IsAtEnd f → IsReadOnly D.keeps (D.moments disk.old) (D.moments disk.new)) }
    ensures numbers { IfErr result LacksNumbers }
    ensures lack { IsTrue D.visible → IfErr result (LacksForRecovery (reads (D.moments disk.old))) }
    ensures size { D.size disk.new ≡ D.size disk.old }
    ensures passed { OnOk result (D.faults disk.new ≡ D.faults disk.old) }
    ensures cause { IfErr result (HasFaultCause (D.faults disk.old) (D.faults disk.new)) }
{
    let opened = open(alloc, disk)?;
    let count = opened.volume.committed;
    if opened.volume.superblock.superblock.clean {
        return Ok(count);
    }
    match write_back(alloc, disk, &opened.volume, &opened.findings) {
        Ok(()) => Ok(count),
        Err(fault) => Err(fault),
    }
}
