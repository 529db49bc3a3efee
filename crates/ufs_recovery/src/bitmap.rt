ghost use Rattle.std.specs.Prelude.{ℕ, ◌≡◌, ◌≤◌, ◌<◌, ◌+◌, ◌*◌, ◌^◌, length, IsTrue, IfErr, OnOk};
ghost use Rattle.std.specs.Int.{bit_at};
ghost use Rattle.ufs_base.specs.Faults.{HasCause};
ghost use Rattle.ufs_metadata.specs.Reading.{IsReadOnly};
ghost use Rattle.ufs_disk.specs.Disk.{IsPartlyWritten, IsSettled, bytes_from, overwritten};
ghost use Rattle.ufs_disk.specs.Moments.{LeavesOnly, reads};
ghost use Rattle.ufs_layout.specs.Areas.{IsGeometry, bitmap_blocks, sector_count};
ghost use Rattle.ufs_layout.specs.declared.geometry.TheConstants.{BLOCK_BITS};
ghost use Rattle.ufs_recovery.specs.Marks.{AgreeOffBitmap, HasAnyBitmap, HasBits, IsMarkedBelow, bit_of};

use ufs_base::BLOCK;
use ufs_damage::TakenBlocks;
use ufs_disk::{Disk, Fault};
use ufs_layout::Geometry;

// The bits of eight blocks from one on, least first; 1 where the block is used.
fn used_byte(taken: &TakenBlocks, first: u32) -> u8
    requires { first < 2 ^ 31 }
    ensures { (i : ℕ) → i < 8 → bit_at result i ≡ bit_of taken.now (first + i) }
{
    let mut byte = 0;
    for bit in 0..8 {
        if taken.is_taken(first + bit) {
            byte |= 1 << bit;
        }
    }
    byte
}

// The bytes of the bitmap from the byte of a block on.
fn fill_bits(bytes: &mut [u8], taken: &TakenBlocks, first: u32)
    requires { first + 8 * length bytes.old < 2 ^ 31 }
    ensures { HasBits taken.now first bytes.new }
{
    for (at, byte) in bytes.iter_mut().enumerate() {
        *byte = used_byte(taken, first + 8 * at as u32);
    }
}

// Gives a block of the bitmap these bytes. Where the disk has them there, it is only read.
fn put_bits<D: Disk>(disk: &mut D, block: u32, bytes: &[u8; BLOCK]) -> Result<(), Fault>
    requires { 8 * block + 8 ≤ D.size disk.old }
    ensures written { IsTrue D.visible → OnOk result (reads (D.moments disk.new) ≡ overwritten (8 * block) bytes.now (reads (D.moments disk.old))) }
    ensures crash { IsTrue D.visible → LeavesOnly D.keeps (IsPartlyWritten (8 * block) bytes.now (D.moments disk.old).state) (D.moments disk.old) (D.moments disk.new) }
    ensures quiet { IsTrue D.visible → bytes_from (reads (D.moments disk.old)) (8 * block) 8 ≡ bytes.now → IsReadOnly D.keeps (D.moments disk.old) (D.moments disk.new) }
    ensures size { D.size disk.new ≡ D.size disk.old }
    ensures cause { HasCause (D.faults disk.old) (D.faults disk.new) result }
    ensures number { IfErr result (λ fault. fault.number ≡ D.faults disk.new) }
{
    let mut found = [0; BLOCK];
    disk.read(8 * block, &mut found)?;
    if found == *bytes {
        return Ok(());
    }
    disk.write(8 * block, bytes)
}

// Writes what differs in the bitmap, and waits until it is on the disk for good.
pub(crate) fn write_bitmap<D: Disk>(
    disk: &mut D,
    geometry: &Geometry,
    taken: &TakenBlocks,
) -> Result<(), Fault>
    requires geometry { IsGeometry geometry.now }
    requires large { sector_count geometry.now ≤ D.size disk.old }
    ensures settled { IsTrue D.visible → OnOk result (IsSettled (D.moments disk.new).state) }
    ensures marked { IsTrue D.visible → OnOk result (IsMarkedBelow taken.now (BLOCK_BITS * bitmap_blocks geometry.now) (reads (D.moments disk.new))) }
    ensures others { IsTrue D.visible → OnOk result (AgreeOffBitmap geometry.now (reads (D.moments disk.old)) (reads (D.moments disk.new))) }
    ensures crash { IsTrue D.visible → LeavesOnly D.keeps (HasAnyBitmap geometry.now (D.moments disk.old).state) (D.moments disk.old) (D.moments disk.new) }
    ensures size { D.size disk.new ≡ D.size disk.old }
    ensures cause { HasCause (D.faults disk.old) (D.faults disk.new) result }
    ensures number { IfErr result (λ fault. fault.number ≡ D.faults disk.new) }
{
    let count = geometry.bitmap_blocks();
    let first = geometry.first_of_inodes() - count;
    let mut bytes = [0; BLOCK];
    for place in 0..count {
        fill_bits(&mut bytes, taken, 8 * BLOCK as u32 * place);
        put_bits(disk, first + place, &bytes)?;
    }
    disk.barrier()
}
