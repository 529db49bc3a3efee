// What the tests share: a new image of 64 blocks, 16 inodes and 64 journal sectors on 512 sectors, whose inode
// table begins in sector 16 and whose data area begins in block 12.
use std::alloc::Global;
use ufs_base::SECTOR;
use ufs_disk::{Disk, PlainDisk};
use ufs_layout::Geometry;
use ufs_metadata::RecoverFault;
use ufs_opening::tree_of;
use ufs_recover::format;

/// The sector of inode 1.
pub const ROOT: u32 = 16;

/// The cause for which a disk isn't opened; none where it is.
pub fn cause(alloc: Global, disk: &mut PlainDisk) -> Option<RecoverFault> {
    match tree_of(alloc, disk) {
        Ok(_tree) => None,
        Err(fault) => Some(fault),
    }
}

pub fn new_disk(alloc: Global) -> Option<PlainDisk> {
    let Ok(mut disk) = PlainDisk::zeros(alloc, 512) else {
        return None;
    };
    let Ok(geometry) = Geometry::make(64, 16, 64) else {
        return None;
    };
    match format(&mut disk, &geometry) {
        Ok(()) => Some(disk),
        Err(_) => None,
    }
}

/// Reads a sector; none where the disk ends before it.
pub fn sector_of(disk: &mut PlainDisk, sector: u32) -> Option<[u8; SECTOR]> {
    if sector >= disk.sectors() {
        return None;
    }
    let mut bytes = [0; SECTOR];
    match disk.read(sector, &mut bytes) {
        Ok(()) => Some(bytes),
        Err(_) => None,
    }
}

/// Writes a sector; false where the disk ends before it.
pub fn set_sector(disk: &mut PlainDisk, sector: u32, bytes: &[u8; SECTOR]) -> bool {
    sector < disk.sectors() && disk.write(sector, bytes).is_ok()
}

// Sets one byte of a sector.
fn set_byte(disk: &mut PlainDisk, sector: u32, at: usize, value: u8) -> bool {
    if at >= SECTOR {
        return false;
    }
    let Some(mut bytes) = sector_of(disk, sector) else {
        return false;
    };
    bytes[at] = value;
    set_sector(disk, sector, &bytes)
}

/// Whether a new image with one byte set isn't opened for this cause.
pub fn gives(
    alloc: Global,
    sector: u32,
    at: usize,
    value: u8,
    wanted: Option<RecoverFault>,
) -> bool {
    let Some(mut disk) = new_disk(alloc) else {
        return false;
    };
    set_byte(&mut disk, sector, at, value) && cause(alloc, &mut disk) == wanted
}

/// The sector of an inode with one extent. A directory's size is that of its blocks.
pub fn inode(kind: u8, start: u8, length: u8, size: u16) -> [u8; SECTOR] {
    let mut bytes = [0; SECTOR];
    let size = size.to_le_bytes();
    bytes[0] = kind;
    bytes[1] = 1;
    bytes[2] = 1;
    bytes[8] = size[0];
    bytes[9] = size[1];
    bytes[64] = start;
    bytes[68] = length;
    bytes
}

/// The sector of a file with one extent.
pub fn file(start: u8, length: u8, size: u8) -> [u8; SECTOR] {
    inode(1, start, length, u16::from(size))
}

/// A dentry in the slot that begins at this byte; a longer name than the slot holds is left out.
pub fn put_name(sector: &mut [u8; SECTOR], at: usize, inode: u8, kind: u8, name: &[u8]) {
    if at > SECTOR - 64 || name.len() > 58 {
        return;
    }
    sector[at] = inode;
    sector[at + 4] = kind;
    sector[at + 5] = name.len() as u8;
    for place in 0..name.len() {
        sector[at + 6 + place] = name[place];
    }
}

/// Says that the image is in use, so that its bitmap has no meaning.
pub fn mark_in_use(disk: &mut PlainDisk) -> bool {
    set_byte(disk, 0, 40, 0)
}
