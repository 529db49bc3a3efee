// The journal of an epoch, read from a disk.
ghost use Rattle.std.specs.Prelude.{◌≡◌, ◌≤◌, IsTrue, IfOk, IfErr, OnOk};
ghost use Rattle.ufs_disk.specs.Disk.{IsImage};
ghost use Rattle.ufs_disk.specs.Moments.{IsStill, LeavesOnly, reads};
ghost use Rattle.ufs_layout.specs.Areas.{IsGeometry, sector_count, first_of_inodes, first_of_journal};
ghost use Rattle.ufs_image.specs.Journal.{sectors_of_epoch, well_spelled};
ghost use Rattle.ufs_found.specs.Read.{misspelled};
ghost use Rattle.ufs_scan.specs.Standings.{marked_standings, standing_in, no_standing};
ghost use Rattle.std.specs.Prelude.{if◌then◌else◌};
ghost use Rattle.ufs_scan.specs.Faults.{HasFaultCause, NamesNone};
ghost use Rattle.std.specs.Prelude.{◌*◌, ◌+◌, ◌<◌, ◌/◌, ◌++◌, ◌∷◌, []};
ghost use Rattle.ufs_disk.specs.Disk.{IsRange, bytes_from};
ghost use Rattle.std.specs.Prelude.{length};

use crate::standing::stand_in;
use crate::{ScanFault, Standing};
use std::alloc::{AllocError, Global};
use ufs_base::SECTOR;
use ufs_disk::Disk;
use ufs_found::{Sectors, note_sectors};
use ufs_layout::Geometry;

// Reads whole sectors.
pub(crate) fn read_sectors<D: Disk>(
    disk: &mut D,
    sector: u32,
    buf: &mut [u8],
) -> Result<(), ScanFault>
    requires { IsRange (D.size disk.old) sector (length buf.old) }
    ensures sized { length buf.new ≡ length buf.old }
    ensures bytes { IsTrue D.visible → OnOk result (buf.new ≡ bytes_from (reads (D.moments disk.old)) sector (length buf.old / 512)) }
    ensures content { IsTrue D.visible → reads (D.moments disk.new) ≡ reads (D.moments disk.old) }
    ensures crash { IsTrue D.visible → LeavesOnly D.keeps (IsImage (D.moments disk.old).state) (D.moments disk.old) (D.moments disk.new) }
    ensures still { IsTrue D.visible → IsStill D.keeps (D.moments disk.old) (D.moments disk.new) }
    ensures size { D.size disk.new ≡ D.size disk.old }
    ensures passed { OnOk result (D.faults disk.new ≡ D.faults disk.old) }
    ensures cause { IfErr result (HasFaultCause (D.faults disk.old) (D.faults disk.new)) }
    ensures names { IfErr result NamesNone }
{
    match disk.read(sector, buf) {
        Ok(()) => Ok(()),
        Err(fault) => Err(ScanFault::Device {
            fault: fault.number,
        }),
    }
}

// Reads each sector of the journal once, up to eight at a time.
pub(crate) fn read_journal<D: Disk>(
    alloc: Global,
    disk: &mut D,
    geometry: &Geometry,
    epoch: u64,
) -> Result<Sectors, ScanFault>
    requires geometry { IsGeometry geometry.now }
    requires large { sector_count geometry.now ≤ D.size disk.old }
    ensures found { IsTrue D.visible → IfOk result (λ list. list.found.items ≡ well_spelled (sectors_of_epoch geometry.now epoch (reads (D.moments disk.old)))) }
    ensures misspelled { IsTrue D.visible → IfOk result (λ list. list.misspelled ≡ misspelled (sectors_of_epoch geometry.now epoch (reads (D.moments disk.old)))) }
    ensures few { IfOk result (λ list. length list.found.items ≤ geometry.now.journal) }
    ensures content { IsTrue D.visible → reads (D.moments disk.new) ≡ reads (D.moments disk.old) }
    ensures crash { IsTrue D.visible → LeavesOnly D.keeps (IsImage (D.moments disk.old).state) (D.moments disk.old) (D.moments disk.new) }
    ensures still { IsTrue D.visible → IsStill D.keeps (D.moments disk.old) (D.moments disk.new) }
    ensures size { D.size disk.new ≡ D.size disk.old }
    ensures passed { OnOk result (D.faults disk.new ≡ D.faults disk.old) }
    ensures cause { IfErr result (HasFaultCause (D.faults disk.old) (D.faults disk.new)) }
    ensures names { IfErr result NamesNone }
{
    let start = 8 * geometry.first_of_journal();
    let mut list = Sectors {
        found: Vec::new(alloc),
        misspelled: None,
    };
    let mut block = [0; 8 * SECTOR];
    let mut at = 0;
    while at < geometry.journal {
        let count = (geometry.journal - at).min(8);
        let bytes = &mut block[..SECTOR * count as usize];
        read_sectors(disk, start + at, bytes)?;
        note_sectors(&mut list, alloc, epoch, start + at, bytes)?;
        at += count;
    }
    Ok(list)
}

fn push_standing(list: &mut Vec<Standing>, one: Standing) -> Result<(), AllocError>
    ensures { OnOk result (list.new.items ≡ list.old.items ++ one ∷ []) }
{
    list.push(one)?;
    Ok(())
}

// Reads an inode's sector, where it is wanted.
fn read_standing<D: Disk>(disk: &mut D, wanted: bool, sector: u32) -> Result<Standing, ScanFault>
    requires { IsRange (D.size disk.old) sector 512 }
    ensures value { IsTrue D.visible → IfOk result (λ one. one ≡ (if wanted then standing_in (reads (D.moments disk.old) sector) else no_standing)) }
    ensures content { IsTrue D.visible → reads (D.moments disk.new) ≡ reads (D.moments disk.old) }
    ensures crash { IsTrue D.visible → LeavesOnly D.keeps (IsImage (D.moments disk.old).state) (D.moments disk.old) (D.moments disk.new) }
    ensures still { IsTrue D.visible → IsStill D.keeps (D.moments disk.old) (D.moments disk.new) }
    ensures size { D.size disk.new ≡ D.size disk.old }
    ensures passed { OnOk result (D.faults disk.new ≡ D.faults disk.old) }
    ensures cause { IfErr result (HasFaultCause (D.faults disk.old) (D.faults disk.new)) }
    ensures names { IfErr result NamesNone }
{
    if !wanted {
        return Ok(Standing {
            before: 0,
            number: 0,
            count: 0,
        });
    }
    let mut bytes = [0; SECTOR];
    read_sectors(disk, sector, &mut bytes)?;
    Ok(stand_in(&bytes))
}

// Reads the sector of each inode that is marked once, and no other.
pub(crate) fn read_standings<D: Disk>(
    alloc: Global,
    disk: &mut D,
    geometry: &Geometry,
    marks: &[bool],
) -> Result<Vec<Standing>, ScanFault>
    requires geometry { IsGeometry geometry.now }
    requires large { sector_count geometry.now ≤ D.size disk.old }
    requires marks { length marks.now ≡ geometry.now.inodes }
    ensures list { IsTrue D.visible → IfOk result (λ list. list.items ≡ marked_standings geometry.now marks.now (reads (D.moments disk.old))) }
    ensures sized { IfOk result (λ list. length list.items ≡ geometry.now.inodes) }
    ensures content { IsTrue D.visible → reads (D.moments disk.new) ≡ reads (D.moments disk.old) }
    ensures crash { IsTrue D.visible → LeavesOnly D.keeps (IsImage (D.moments disk.old).state) (D.moments disk.old) (D.moments disk.new) }
    ensures still { IsTrue D.visible → IsStill D.keeps (D.moments disk.old) (D.moments disk.new) }
    ensures size { D.size disk.new ≡ D.size disk.old }
    ensures passed { OnOk result (D.faults disk.new ≡ D.faults disk.old) }
    ensures cause { IfErr result (HasFaultCause (D.faults disk.old) (D.faults disk.new)) }
    ensures names { IfErr result NamesNone }
{
    let start = 8 * geometry.first_of_inodes();
    let mut list = Vec::with_capacity(alloc, geometry.inodes as usize)?;
    for i in 0..geometry.inodes {
        let one = read_standing(disk, marks[i as usize], start + i)?;
        push_standing(&mut list, one)?;
    }
    Ok(list)
}
