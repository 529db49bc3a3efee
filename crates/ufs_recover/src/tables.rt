// The blocks between the superblock's and the data area.
ghost use Rattle.std.specs.Prelude.{◌≡◌, ◌≤◌, ◌<◌, ◌+◌, ◌^◌, ◌++◌, ℕ, length, drop, replicate, slice_index, EachIndex, IsTrue, IfErr, OnOk};
ghost use Rattle.ufs_disk.specs.Disk.{Leaves, IsSettled};
ghost use Rattle.ufs_disk.specs.Moments.{LeavesOnly, reads};
ghost use Rattle.ufs_base.specs.Faults.{HasCause};
ghost use Rattle.ufs_layout.specs.Areas.{IsGeometry, first_of_data, sector_count};
ghost use Rattle.ufs_layout.specs.InodeForm.{inode_bytes};
ghost use Rattle.ufs_image.specs.Formatted.{byte_below, new_root};
ghost use Rattle.ufs_recover.specs.Tables.{IsOutside, IsTableBlock, HasTablesBelow};
ghost use Rattle.ufs_recover.specs.Stopped.{IsBlank};

use ufs_base::{BLOCK, SECTOR};
use ufs_disk::{Disk, Fault};
use ufs_layout::{Geometry, Inode, put_inode};

// A byte of the bitmap in which the blocks below `used` are used.
fn bitmap_byte(used: u32, byte: u32) -> u8
    requires { byte < 2 ^ 20 }
    ensures { result ≡ byte_below used byte }
{
    if 8 * (byte + 1) <= used {
        255
    } else {
        (1 << used.saturating_sub(8 * byte)) - 1
    }
}

// The bytes of that bitmap from one on.
fn fill_bitmap(bytes: &mut [u8], used: u32, first: u32)
    requires { first + length bytes.old ≤ 2 ^ 20 }
    ensures { EachIndex bytes.new (λ k. slice_index bytes.new k ≡ byte_below used (first + k)) }
{
    for (i, byte) in bytes.iter_mut().enumerate() {
        *byte = bitmap_byte(used, first + i as u32);
    }
}

fn clear(bytes: &mut [u8])
    ensures { bytes.new ≡ replicate (length bytes.old) 0 }
{
    bytes.fill(0);
}

// A directory with no block.
fn put_root(bytes: &mut [u8])
    requires { SECTOR ≤ length bytes.old }
    ensures { bytes.new ≡ inode_bytes new_root ++ drop SECTOR bytes.old }
{
    put_inode(&mut bytes[..SECTOR], &Inode::from_extents(2, &[], 0, 0));
}

// What a new image has in a block. A free inode is spelled by zeros alone.
fn lay_block(bytes: &mut [u8], geometry: &Geometry, block: u32)
    requires geometry { IsGeometry geometry.now }
    requires sized { length bytes.old ≡ BLOCK }
    requires from { 1 ≤ block }
    requires below { block < first_of_data geometry.now }
    ensures { IsTableBlock geometry.now block bytes.new }
{
    let inodes = geometry.first_of_inodes();
    if block < inodes {
        fill_bitmap(bytes, geometry.first_of_data(), BLOCK as u32 * (block - 1));
    } else {
        clear(bytes);
        if block == inodes {
            put_root(bytes);
        }
    }
}

// Writes the bitmap, the inode table and the journal, whole blocks of them, and waits until all is on
// the disk for good.
pub(crate) fn write_tables<D: Disk>(disk: &mut D, geometry: &Geometry) -> Result<(), Fault>
    requires geometry { IsGeometry geometry.now }
    requires room { sector_count geometry.now ≤ D.size disk.old }
    requires blank { IsTrue D.visible → Leaves IsBlank (D.moments disk.old).state }
    ensures settled { IsTrue D.visible → OnOk result (IsSettled (D.moments disk.new).state) }
    ensures written { IsTrue D.visible → OnOk result
        (HasTablesBelow geometry.now (first_of_data geometry.now) (reads (D.moments disk.new))) }
    ensures others { IsTrue D.visible → (s : ℕ) → IsOutside geometry.now s
        → reads (D.moments disk.new) s ≡ reads (D.moments disk.old) s }
    ensures crash { IsTrue D.visible → LeavesOnly D.keeps IsBlank (D.moments disk.old) (D.moments disk.new) }
    ensures size { D.size disk.new ≡ D.size disk.old }
    ensures cause { HasCause (D.faults disk.old) (D.faults disk.new) result }
    ensures number { IfErr result (λ fault. fault.number ≡ D.faults disk.new) }
{
    let mut bytes = [0; BLOCK];
    for block in 1..geometry.first_of_data() {
        lay_block(&mut bytes, geometry, block);
        disk.write(8 * block, &bytes)?;
    }
    disk.barrier()
}
