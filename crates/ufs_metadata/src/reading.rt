// Blocks, read from a disk under what is committed.
ghost use Rattle.std.specs.Prelude.{◌≡◌, ◌≤◌, ◌<◌, ◌+◌, ◌*◌, ◌/◌, length, take, drop, IsTrue, IfErr, OnOk};
ghost use Rattle.ufs_base.specs.Images.{Image};
ghost use Rattle.ufs_base.specs.declared.sizes.TheConstants.{BLOCK, MAX_BLOCKS, SECTOR};
ghost use Rattle.ufs_disk.specs.Disk.{IsRange, bytes_from};
ghost use Rattle.ufs_disk.specs.Moments.{reads};
ghost use Rattle.ufs_image.specs.Images.{block_at};
ghost use Rattle.ufs_metadata.specs.Faults.{BlamesNone, HasFaultCause, IsOutside, LacksMemory};
ghost use Rattle.ufs_metadata.specs.Folded.{IsFolded};
ghost use Rattle.ufs_metadata.specs.Reading.{IsReadOnly, AreSectors};

use crate::RecoverFault;
use ufs_base::SECTOR;
use ufs_disk::Disk;
use ufs_overlay::Overlay;

// The sectors of a block.
const SECTORS: u32 = 8;

// Reads whole sectors.
pub(crate) fn read_at<D: Disk>(
    disk: &mut D,
    sector: u32,
    buf: &mut [u8],
) -> Result<(), RecoverFault>
    requires { IsRange (D.size disk.old) sector (length buf.old) }
    ensures bytes { IsTrue D.visible → OnOk result (buf.new ≡ bytes_from (reads (D.moments disk.old)) sector (length buf.old / 512)) }
    ensures read_only { IsTrue D.visible → IsReadOnly D.keeps (D.moments disk.old) (D.moments disk.new) }
    ensures size { D.size disk.new ≡ D.size disk.old }
    ensures passed { OnOk result (D.faults disk.new ≡ D.faults disk.old) }
    ensures cause { IfErr result (HasFaultCause (D.faults disk.old) (D.faults disk.new)) }
    ensures blames_none { IfErr result BlamesNone }
    ensures outside { IfErr result IsOutside }
    ensures memory { IfErr result LacksMemory }
{
    match disk.read(sector, buf) {
        Ok(()) => Ok(()),
        Err(fault) => Err(RecoverFault::Device {
            fault: fault.number,
        }),
    }
}

// The bytes of a sector, from this place on, become what the transactions leave of them.
fn apply_at(overlay: &Overlay, sector: u32, buf: &mut [u8], at: usize)
    requires { at + SECTOR ≤ length buf.old }
    ensures front { take at buf.new ≡ take at buf.old }
    ensures there { (home image : Image) → IsFolded overlay.now home image → take SECTOR (drop at buf.old) ≡ home sector → take SECTOR (drop at buf.new) ≡ image sector }
    ensures behind { drop (at + SECTOR) buf.new ≡ drop (at + SECTOR) buf.old }
{
    overlay.apply(sector, &mut buf[at..at + SECTOR]);
}

// So do the bytes of a block, sector by sector.
fn apply_block(overlay: &Overlay, block: u32, buf: &mut [u8])
    requires small { block < MAX_BLOCKS }
    requires sized { length buf.old ≡ BLOCK }
    ensures { (home image : Image) → IsFolded overlay.now home image → AreSectors home (8 * block) buf.old → AreSectors image (8 * block) buf.new }
{
    for i in 0..SECTORS {
        apply_at(overlay, SECTORS * block + i, buf, SECTOR * i as usize);
    }
}

/// Reads a block of an image in one call, as the overlay's transactions leave it. After a fault `buf` may hold
/// anything.
pub fn read_block<D: Disk>(
    disk: &mut D,
    overlay: &Overlay,
    block: u32,
    buf: &mut [u8],
) -> Result<(), RecoverFault>
    requires small { block < MAX_BLOCKS }
    requires inside { 8 * block + 8 ≤ D.size disk.old }
    requires sized { length buf.old ≡ BLOCK }
    ensures bytes { IsTrue D.visible → (image : Image) → IsFolded overlay.now (reads (D.moments disk.old)) image → OnOk result (buf.new ≡ block_at image block) }
    ensures sectors { IsTrue D.visible → (image : Image) → IsFolded overlay.now (reads (D.moments disk.old)) image → OnOk result (AreSectors image (8 * block) buf.new) }
    ensures read_only { IsTrue D.visible → IsReadOnly D.keeps (D.moments disk.old) (D.moments disk.new) }
    ensures size { D.size disk.new ≡ D.size disk.old }
    ensures passed { OnOk result (D.faults disk.new ≡ D.faults disk.old) }
    ensures cause { IfErr result (HasFaultCause (D.faults disk.old) (D.faults disk.new)) }
    ensures outside { IfErr result IsOutside }
    ensures memory { IfErr result LacksMemory }
{
    read_at(disk, SECTORS * block, buf)?;
    apply_block(overlay, block, buf);
    Ok(())
}
