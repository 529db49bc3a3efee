// What the tests share: a new image of 64 blocks, 16 inodes and 64 journal sectors, whose inode table begins in sector 16
// and whose data area begins in block 12; and one with a directory and two files.
use std::alloc::Global;
use ufs_base::SECTOR;
use ufs_disk::{Disk, PlainDisk};
use ufs_layout::Geometry;
use ufs_recover::format;

/// The sector of inode 1.
pub const ROOT: u32 = 16;

/// The sector of inode 2.
pub const SECOND: u32 = 17;

/// The first sector of the data area.
pub const DATA: u32 = 96;

/// The sectors that the image takes.
pub const SECTORS: u32 = 512;

/// The image on a disk of as many sectors.
pub fn new_disk(alloc: Global) -> Option<PlainDisk> {
    new_disk_of(alloc, SECTORS)
}

/// The image on a disk of so many sectors.
pub fn new_disk_of(alloc: Global, sectors: u32) -> Option<PlainDisk> {
    formatted(alloc, sectors, 64)
}

/// Such an image of so many blocks, on a disk of as many.
pub fn new_image_of(alloc: Global, blocks: u32) -> Option<PlainDisk> {
    if blocks > 1024 {
        return None;
    }
    formatted(alloc, 8 * blocks, blocks)
}

fn formatted(alloc: Global, sectors: u32, blocks: u32) -> Option<PlainDisk> {
    let Ok(mut disk) = PlainDisk::zeros(alloc, sectors) else {
        return None;
    };
    let Ok(geometry) = Geometry::make(blocks, 16, 64) else {
        return None;
    };
    match format(&mut disk, &geometry) {
        Ok(()) => Some(disk),
        Err(_) => None,
    }
}

/// Writes a sector; false where the disk ends before it.
pub fn set_sector(disk: &mut PlainDisk, sector: u32, bytes: &[u8; SECTOR]) -> bool {
    sector < disk.sectors() && disk.write(sector, bytes).is_ok()
}

/// The sector of an inode with one extent: 1 for a file, 2 for a directory.
pub fn inode(kind: u8, start: u8, length: u8, size: u16) -> [u8; SECTOR] {
    let mut bytes = [0; SECTOR];
    let size = size.to_le_bytes();
    bytes[0] = kind;
    bytes[1] = 1;
    bytes[2] = 1;
    bytes[8] = size[0];
    bytes[9] = size[1];
    bytes[64] = start;
    bytes[68] = length;
    bytes
}

/// The sector of a file with one extent.
pub fn file(start: u8, length: u8, size: u16) -> [u8; SECTOR] {
    inode(1, start, length, size)
}

/// A sector of slots, with a name of one byte in the second one.
pub fn name(inode: u8, kind: u8, byte: u8) -> [u8; SECTOR] {
    let mut bytes = [0; SECTOR];
    bytes[64] = inode;
    bytes[68] = kind;
    bytes[69] = 1;
    bytes[70] = byte;
    bytes
}

// The root lies in block 20, with `f` in its first sector and `d` in its second; the directory `d` in block 30, with `g`.
fn set_names(disk: &mut PlainDisk) -> bool {
    set_sector(disk, 160, &name(3, 1, b'f'))
        && set_sector(disk, 161, &name(2, 2, b'd'))
        && set_sector(disk, 240, &name(4, 1, b'g'))
}

// `f` has a block, and `g` two.
fn set_inodes(disk: &mut PlainDisk) -> bool {
    set_sector(disk, ROOT, &inode(2, 20, 1, 4096))
        && set_sector(disk, ROOT + 1, &inode(2, 30, 1, 4096))
        && set_sector(disk, ROOT + 2, &file(40, 1, 5))
        && set_sector(disk, ROOT + 3, &file(41, 2, 5000))
        && set_sector(disk, 328, &[7; SECTOR])
}

/// An image with the files `/f` of 5 bytes and `/d/g` of 5,000 on a disk of so many sectors.
pub fn tree_disk(alloc: Global, sectors: u32) -> Option<PlainDisk> {
    let mut disk = new_disk_of(alloc, sectors)?;
    if set_names(&mut disk) && set_inodes(&mut disk) {
        Some(disk)
    } else {
        None
    }
}
