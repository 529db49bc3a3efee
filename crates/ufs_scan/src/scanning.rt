ghost use Rattle.std.specs.Prelude.{◌≡◌, ◌≤◌, length, IsTrue, IfOk, IfErr, OnOk, None};
ghost use Rattle.ufs_disk.specs.Disk.{IsImage};
ghost use Rattle.ufs_disk.specs.Moments.{IsStill, LeavesOnly, reads};
ghost use Rattle.ufs_layout.specs.Areas.{IsGeometry, sector_count};
ghost use Rattle.ufs_image.specs.Journal.{committed};
ghost use Rattle.ufs_image.specs.BadSectors.{bad_sector};
ghost use Rattle.ufs_scan.specs.Faults.{HasFaultCause, NamesSector};

use crate::ScanFault;
use crate::chains::chains_in;
use crate::folding::lowest_off;
use crate::gathered::{copy_all, gather};
use crate::marks::marked;
use crate::order::{commits_in_order, parts_in_places};
use crate::reading::{read_journal, read_standings};
use std::alloc::Global;
use ufs_disk::Disk;
use ufs_found::{first_off, lower};
use ufs_layout::{CommittedList, Geometry, Super};

/// The committed transactions of the superblock's epoch, by rising number; or the lowest sector of the
/// journal that is off. It reads each sector of the journal once, and of the inode table those that records
/// name; it writes nothing.
pub fn scan<D: Disk>(
    alloc: Global,
    disk: &mut D,
    geometry: &Geometry,
    superblock: &Super,
) -> Result<CommittedList, ScanFault>
    requires geometry { IsGeometry geometry.now }
    requires large { sector_count geometry.now ≤ D.size disk.old }
    ensures committed { IsTrue D.visible → IfOk result (λ list. list ≡ committed geometry.now superblock.now.epoch (reads (D.moments disk.old))) }
    ensures few { IfOk result (λ list. length list ≤ geometry.now.journal) }
    ensures whole { IsTrue D.visible → OnOk result (bad_sector geometry.now superblock.now (reads (D.moments disk.old)) ≡ None) }
    ensures bad { IsTrue D.visible → IfErr result (NamesSector (bad_sector geometry.now superblock.now (reads (D.moments disk.old)))) }
    ensures content { IsTrue D.visible → reads (D.moments disk.new) ≡ reads (D.moments disk.old) }
    ensures crash { IsTrue D.visible → LeavesOnly D.keeps (IsImage (D.moments disk.old).state) (D.moments disk.old) (D.moments disk.new) }
    ensures still { IsTrue D.visible → IsStill D.keeps (D.moments disk.old) (D.moments disk.new) }
    ensures size { D.size disk.new ≡ D.size disk.old }
    ensures passed { OnOk result (D.faults disk.new ≡ D.faults disk.old) }
    ensures cause { IfErr result (HasFaultCause (D.faults disk.old) (D.faults disk.new)) }
{
    let sectors = read_journal(alloc, disk, geometry, superblock.epoch)?;
    let off = first_off(alloc, geometry, superblock.next, &sectors.found)?;
    let parts = parts_in_places(alloc, &sectors.found)?;
    let commits = commits_in_order(alloc, &sectors.found)?;
    let chains = chains_in(alloc, geometry, &parts)?;
    let marks = marked(alloc, geometry, &chains)?;
    let standings = read_standings(alloc, disk, geometry, &marks)?;
    let known = lower(sectors.misspelled, off);
    let lowest = lowest_off(alloc, &chains, &commits, standings, known)?;
    match lowest {
        Some(sector) => Err(ScanFault::BadRecord { sector }),
        None => {
            let list = gather(alloc, &parts, &commits)?;
            Ok(copy_all(alloc, &list)?)
        }
    }
}
