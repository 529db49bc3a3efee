// The bitmap of a folded image beside the used blocks.
ghost use Rattle.std.specs.Prelude.{ℕ, List, Bool, ◌≡◌, ◌≤◌, ◌<◌, ◌+◌, ◌*◌, ◌++◌, length, map, take, drop, IsTrue, IfErr, OnOk};
ghost use Rattle.std.specs.List.{range_with_len};
ghost use Rattle.ufs_base.specs.Images.{Image};
ghost use Rattle.ufs_disk.specs.Moments.{reads};
ghost use Rattle.ufs_layout.specs.Areas.{IsGeometry, first_of_bitmap, bitmap_blocks, sector_count};
ghost use Rattle.ufs_layout.specs.declared.geometry.Geometry.{Geometry};
ghost use Rattle.ufs_image.specs.Nodes.{Node};
ghost use Rattle.ufs_image.specs.Damage.{BitmapDiffers, differing, all_bits};
ghost use Rattle.ufs_damage.specs.Taken.{AreTaken};
ghost use Rattle.ufs_metadata.specs.Faults.{HasFaultCause, IsOutside, LacksMemory};
ghost use Rattle.ufs_metadata.specs.Folded.{IsFolded};
ghost use Rattle.ufs_metadata.specs.Reading.{AreSectors, IsReadOnly};

use ufs_base::{BLOCK, Memory, SECTOR};
use ufs_damage::{DamageList, TakenBlocks};
use ufs_disk::Disk;
use ufs_layout::Geometry;
use ufs_metadata::{RecoverFault, read_block};
use ufs_overlay::Overlay;

// The sectors of a block.
const SECTORS: u32 = 8;

// Compares the eight sectors of a block of the bitmap; blocks count from the bitmap's first.
fn compare_sectors(
    list: &mut DamageList,
    taken: &TakenBlocks,
    place: u32,
    bytes: &[u8],
) -> Result<(), Memory>
    requires few { place < 256 }
    requires sized { length bytes.now ≡ BLOCK }
    ensures { OnOk result ((g : Geometry) (image : Image) (nodes : List Node) → AreTaken g nodes taken.now → AreSectors image (8 * (first_of_bitmap + place)) bytes.now → list.new ≡ list.old ++ map BitmapDiffers (differing g image nodes (range_with_len (32768 * place) (8 * length bytes.now)))) }
{
    for i in 0..SECTORS {
        let at = SECTOR * i as usize;
        list.compare_bitmap(taken, SECTORS * place + i, &bytes[at..at + SECTOR])?;
    }
    Ok(())
}

// Reads a block of the bitmap and compares it; places count from the bitmap's first block.
fn compare_block<D: Disk>(
    disk: &mut D,
    overlay: &Overlay,
    list: &mut DamageList,
    taken: &TakenBlocks,
    block: u32,
    place: u32,
) -> Result<(), RecoverFault>
    requires few { place < 256 }
    requires there { block ≡ first_of_bitmap + place }
    requires inside { 8 * block + 8 ≤ D.size disk.old }
    ensures told { IsTrue D.visible → (image : Image) → IsFolded overlay.now (reads (D.moments disk.old)) image → OnOk result ((g : Geometry) (nodes : List Node) → AreTaken g nodes taken.now → (n : ℕ) → n ≡ 8 * BLOCK → list.new ≡ list.old ++ map BitmapDiffers (differing g image nodes (range_with_len (32768 * place) n))) }
    ensures read_only { IsTrue D.visible → IsReadOnly D.keeps (D.moments disk.old) (D.moments disk.new) }
    ensures size { D.size disk.new ≡ D.size disk.old }
    ensures passed { OnOk result (D.faults disk.new ≡ D.faults disk.old) }
    ensures cause { IfErr result (HasFaultCause (D.faults disk.old) (D.faults disk.new)) }
    ensures memory { IfErr result LacksMemory }
    ensures outside { IfErr result IsOutside }
{
    let mut bytes = [0; BLOCK];
    read_block(disk, overlay, block, &mut bytes)?;
    match compare_sectors(list, taken, place, &bytes) {
        Ok(()) => Ok(()),
        Err(memory) => Err(RecoverFault::from(memory)),
    }
}

// Compares the whole bitmap.
pub(crate) fn compare_bits<D: Disk>(
    disk: &mut D,
    geometry: &Geometry,
    overlay: &Overlay,
    taken: &TakenBlocks,
    list: &mut DamageList,
) -> Result<(), RecoverFault>
    requires geometry { IsGeometry geometry.now }
    requires large { sector_count geometry.now ≤ D.size disk.old }
    ensures told { IsTrue D.visible → (image : Image) → IsFolded overlay.now (reads (D.moments disk.old)) image → OnOk result ((nodes : List Node) → AreTaken geometry.now nodes taken.now → list.new ≡ list.old ++ map BitmapDiffers (differing geometry.now image nodes (all_bits geometry.now))) }
    ensures read_only { IsTrue D.visible → IsReadOnly D.keeps (D.moments disk.old) (D.moments disk.new) }
    ensures size { D.size disk.new ≡ D.size disk.old }
    ensures passed { OnOk result (D.faults disk.new ≡ D.faults disk.old) }
    ensures cause { IfErr result (HasFaultCause (D.faults disk.old) (D.faults disk.new)) }
    ensures memory { IfErr result LacksMemory }
    ensures outside { IfErr result IsOutside }
{
    let count = geometry.bitmap_blocks();
    let first = geometry.first_of_inodes() - count;
    for place in 0..count {
        compare_block(disk, overlay, list, taken, first + place, place)?;
    }
    Ok(())
}
