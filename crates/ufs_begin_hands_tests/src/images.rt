// A disk whose image has two files, and one whose image has none; and what stands in an image. Each has 64 blocks, 16 inodes and 64 journal
// sectors: its bitmap is in sector 8, its inode table begins in sector 16, and its data area in block 12.
use std::alloc::Global;
use ufs_base::SECTOR;
use ufs_disk::{Disk, PlainDisk};
use ufs_layout::Geometry;
use ufs_model::{PathEntry, PathNode};
use ufs_opening::tree_of;
use ufs_recover::format;

/// A new image of 64 blocks, where there is memory.
pub fn empty_image(alloc: Global) -> Option<PlainDisk> {
    let mut disk = PlainDisk::zeros(alloc, 512).ok()?;
    let geometry = Geometry::make(64, 16, 64).ok()?;
    format(&mut disk, &geometry).ok()?;
    Some(disk)
}

// Writes a sector; false where the disk ends before it.
fn set_sector(disk: &mut PlainDisk, sector: u32, bytes: &[u8; SECTOR]) -> bool {
    sector < disk.sectors() && disk.write(sector, bytes).is_ok()
}

// The sector of an inode with one extent: 1 for a file, 2 for a directory.
fn inode(kind: u8, start: u8, length: u8, size: u16) -> [u8; SECTOR] {
    let mut bytes = [0; SECTOR];
    let size = size.to_le_bytes();
    bytes[0] = kind;
    bytes[1] = 1;
    bytes[2] = 1;
    bytes[8] = size[0];
    bytes[9] = size[1];
    bytes[64] = start;
    bytes[68] = length;
    bytes
}

// A sector of slots, with a name of one byte in the second one.
fn name(inode: u8, kind: u8, byte: u8) -> [u8; SECTOR] {
    let mut bytes = [0; SECTOR];
    bytes[64] = inode;
    bytes[68] = kind;
    bytes[69] = 1;
    bytes[70] = byte;
    bytes
}

// The root lies in block 20, with `f` in its first sector and `d` in its second; the directory `d` in block 30, with `g`.
fn set_names(disk: &mut PlainDisk) -> bool {
    set_sector(disk, 160, &name(3, 1, b'f'))
        && set_sector(disk, 161, &name(2, 2, b'd'))
        && set_sector(disk, 240, &name(4, 1, b'g'))
}

fn hello() -> [u8; SECTOR] {
    let mut bytes = [0; SECTOR];
    bytes[0] = b'h';
    bytes[1] = b'e';
    bytes[2] = b'l';
    bytes[3] = b'l';
    bytes[4] = b'o';
    bytes
}

// `f` has block 40, and `g` the next two.
fn set_inodes(disk: &mut PlainDisk) -> bool {
    set_sector(disk, 16, &inode(2, 20, 1, 4096))
        && set_sector(disk, 17, &inode(2, 30, 1, 4096))
        && set_sector(disk, 18, &inode(1, 40, 1, 5))
        && set_sector(disk, 19, &inode(1, 41, 2, 5000))
        && set_sector(disk, 320, &hello())
}

// The bits of the blocks before the data area, and of 20, 30, 40, 41 and 42.
fn set_bitmap(disk: &mut PlainDisk) -> bool {
    let mut bytes = [0; SECTOR];
    bytes[0] = 255;
    bytes[1] = 15;
    bytes[2] = 16;
    bytes[3] = 64;
    bytes[5] = 7;
    set_sector(disk, 8, &bytes)
}

/// Such an image with the files `/f` of 5 bytes and `/d/g` of 5,000.
pub fn image_of_two(alloc: Global) -> Option<PlainDisk> {
    let mut disk = empty_image(alloc)?;
    if set_names(&mut disk) && set_inodes(&mut disk) && set_bitmap(&mut disk) {
        Some(disk)
    } else {
        None
    }
}

fn is_hello(entry: &PathEntry) -> bool {
    match &entry.node {
        PathNode::Dir => false,
        PathNode::File(bytes) => {
            entry.path.as_slice() == b"/f".as_slice() && bytes.as_slice() == b"hello".as_slice()
        }
    }
}

fn is_large(entry: &PathEntry) -> bool {
    match &entry.node {
        PathNode::Dir => false,
        PathNode::File(bytes) => {
            entry.path.as_slice() == b"/d/g".as_slice() && bytes.as_slice().len() == 5_000
        }
    }
}

// The root, `/d` and both files.
fn are_both(entries: &[PathEntry]) -> bool {
    if entries.len() != 4 {
        return false;
    }
    is_large(&entries[2]) && is_hello(&entries[3])
}

/// Whether both files are in the image, and none else.
pub fn has_both(alloc: Global, disk: &mut PlainDisk) -> bool {
    match tree_of(alloc, disk) {
        Ok(tree) => are_both(tree.as_slice()),
        Err(_) => false,
    }
}
