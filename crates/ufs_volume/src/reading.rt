// Reading the volume on a disk.
ghost use Rattle.std.specs.Prelude.{◌≡◌, ◌≤◌, ℕ, Ok, length, IsTrue, IfOk, IfErr, OnOk};
ghost use Rattle.ufs_disk.specs.Moments.{reads};
ghost use Rattle.ufs_layout.specs.Areas.{sector_count};
ghost use Rattle.ufs_layout.specs.declared.geometry.TheConstants.{MAX_JOURNAL};
ghost use Rattle.ufs_image.specs.Volume.{volume};
ghost use Rattle.ufs_overlay.specs.Over.{rise_above};
ghost use Rattle.ufs_overlay.specs.Seen.{HasAdded};
ghost use Rattle.ufs_metadata.specs.Faults.{BlamesNone, HasFaultCause, IsOutside, IsWhyNot, LacksMemory};
ghost use Rattle.ufs_metadata.specs.Reading.{IsReadOnly};
ghost use Rattle.ufs_volume.specs.Journals.{AreFoldable};
ghost use Rattle.ufs_volume.specs.Volumes.{committed_in, highest_number, volume_in};

use crate::overlaid::{overlay_of, read_journal};
use crate::volume::FoldedVolume;
use std::alloc::Global;
use ufs_disk::Disk;
use ufs_layout::{Committed, CommittedList};
use ufs_metadata::{ImageSuperblock, RecoverFault, read_superblock};

fn highest_number(list: &[Committed]) -> u64
    ensures { result ≡ highest_number list.now }
{
    list.iter().map(|one| one.number).max().unwrap_or(0)
}

// The volume with these transactions, of which a journal has at most one a sector.
fn with_list(
    alloc: Global,
    superblock: ImageSuperblock,
    list: &CommittedList,
) -> Result<FoldedVolume, RecoverFault>
    requires { length list.now ≤ MAX_JOURNAL }
    ensures superblock { IfOk result (λ v. v.superblock ≡ superblock) }
    ensures added { IsTrue (rise_above 0 list.now) → IfOk result (λ v. HasAdded v.overlay list.now) }
    ensures count { IfOk result (λ v. v.committed ≡ length list.now) }
    ensures highest { IfOk result (λ v. v.highest ≡ highest_number list.now) }
    ensures outside { AreFoldable superblock.geometry list.now → IfErr result IsOutside }
    ensures calm { IfErr result (λ f. (before : ℕ) → HasFaultCause before before f) }
    ensures blames_none { IfErr result BlamesNone }
    ensures memory { IfErr result LacksMemory }
{
    let transactions = list.as_slice();
    let overlay = overlay_of(alloc, &superblock.geometry, transactions)?;
    Ok(FoldedVolume {
        superblock,
        overlay,
        committed: transactions.len() as u32,
        highest: highest_number(transactions),
    })
}

/// The volume on a disk, or the first cause for which there is none. Reads the superblock, each sector of the
/// journal once, and of the inode table those sectors that records of committed transactions name; writes
/// nothing.
pub fn read_volume<D: Disk>(alloc: Global, disk: &mut D) -> Result<FoldedVolume, RecoverFault>
    ensures taken { IsTrue D.visible → IfOk result (λ v. volume (D.size disk.old) (reads (D.moments disk.old)) ≡ Ok (volume_in v (reads (D.moments disk.old)))) }
    ensures added { IsTrue D.visible → IfOk result (λ v. HasAdded v.overlay (committed_in v (reads (D.moments disk.old)))) }
    ensures count { IsTrue D.visible → IfOk result (λ v. v.committed ≡ length (committed_in v (reads (D.moments disk.old)))) }
    ensures highest { IsTrue D.visible → IfOk result (λ v. v.highest ≡ highest_number (committed_in v (reads (D.moments disk.old)))) }
    ensures few { IfOk result (λ v. v.committed ≤ v.superblock.geometry.journal) }
    ensures large { IfOk result (λ v. sector_count v.superblock.geometry ≤ D.size disk.old) }
    ensures refused { IsTrue D.visible → IfErr result (IsWhyNot (volume (D.size disk.old) (reads (D.moments disk.old)))) }
    ensures blames_none { IfErr result BlamesNone }
    ensures memory { IfErr result LacksMemory }
    ensures read_only { IsTrue D.visible → IsReadOnly D.keeps (D.moments disk.old) (D.moments disk.new) }
    ensures size { D.size disk.new ≡ D.size disk.old }
    ensures passed { OnOk result (D.faults disk.new ≡ D.faults disk.old) }
    ensures cause { IfErr result (HasFaultCause (D.faults disk.old) (D.faults disk.new)) }
{
    let superblock = read_superblock(disk)?;
    let list = read_journal(alloc, disk, &superblock)?;
    match with_list(alloc, superblock, &list) {
        Ok(volume) => Ok(volume),
        Err(fault) => Err(fault),
    }
}
