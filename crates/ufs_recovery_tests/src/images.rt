// An image in use of 64 blocks, 16 inodes and 64 journal sectors on 512 sectors. Its journal has the birth of `/f`, a
// file of five bytes, committed and not home. Inodes 3 and 4 are directories that name each other, and no other name
// stands for them. And two of the same size with nothing in the journal: in one `/f` has a block too many, the other has
// the root alone.
use std::alloc::Global;
use ufs_base::SECTOR;
use ufs_disk::PlainDisk;
use ufs_layout::Geometry;
use ufs_recover::format;

/// The sectors of the disk.
pub const SECTORS: u32 = 512;

fn put(bytes: &mut Vec<u8>, sector: usize, at: usize, piece: &[u8]) {
    let first = SECTOR.saturating_mul(sector).saturating_add(at);
    for place in 0..piece.len() {
        let to = first.saturating_add(place);
        if to < bytes.len() {
            bytes[to] = piece[place];
        }
    }
}

// The bytes of a new image.
fn new_bytes(alloc: Global) -> Option<Vec<u8>> {
    let Ok(mut disk) = PlainDisk::zeros(alloc, SECTORS) else {
        return None;
    };
    let Ok(geometry) = Geometry::make(64, 16, 64) else {
        return None;
    };
    if format(&mut disk, &geometry).is_err() {
        return None;
    }
    Some(disk.bytes)
}

// A directory with one block, which names an inode.
fn put_dir(bytes: &mut Vec<u8>, inode: usize, block: u8, named: u8, name: u8) {
    let sector = inode.saturating_add(15);
    put(bytes, sector, 0, &[2, 1, 1]);
    put(bytes, sector, 8, &[0, 16]);
    put(bytes, sector, 64, &[block, 0, 0, 0, 1]);
    let first = 8 * usize::from(block);
    put(bytes, first, 0, &[named, 0, 0, 0, 2, 1, name]);
}

// The birth of the file: the root gets block 12, whose first slot names inode 2 `f`, a file in block 13.
fn put_birth(bytes: &mut Vec<u8>) {
    put(bytes, 32, 0, &[1]);
    put(bytes, 32, 8, &[1, 0, 0, 0, 0, 0, 1, 0, 118]);
    put(bytes, 32, 24, &[1, 1, 0, 0, 0, 2, 0, 16]);
    put(bytes, 32, 39, &[1, 12, 0, 0, 0, 1]);
    put(bytes, 32, 48, &[1, 2, 0, 0, 0, 1, 5]);
    put(bytes, 32, 63, &[1, 13, 0, 0, 0, 1]);
    put(bytes, 32, 72, &[2, 96, 0, 0, 0, 0, 2, 0, 0, 0, 1, 1, b'f']);
    put(bytes, 33, 0, &[1]);
    put(bytes, 33, 8, &[1, 0, 0, 0, 1, 0, 2, 0, 12]);
    put(bytes, 33, 24, &[1, 0, 0, 0, 1]);
    put(bytes, 104, 0, b"hello");
}

/// Its bytes.
pub fn image_in_use(alloc: Global) -> Option<Vec<u8>> {
    let mut bytes = new_bytes(alloc)?;
    put(&mut bytes, 0, 40, &[0]);
    put_dir(&mut bytes, 3, 14, 4, b'a');
    put_dir(&mut bytes, 4, 15, 3, b'b');
    put_birth(&mut bytes);
    Some(bytes)
}

// The root has block 12, whose first slot names inode 2 `f`, a file of five bytes in the blocks 13 and 14.
fn put_file(bytes: &mut Vec<u8>) {
    put(bytes, 16, 1, &[1]);
    put(bytes, 16, 8, &[0, 16]);
    put(bytes, 16, 64, &[12, 0, 0, 0, 1]);
    put(bytes, 96, 0, &[2, 0, 0, 0, 1, 1, b'f']);
    put(bytes, 17, 0, &[1, 1, 1]);
    put(bytes, 17, 8, &[5]);
    put(bytes, 17, 64, &[13, 0, 0, 0, 2]);
    put(bytes, 104, 0, b"hello");
}

/// The bytes of the image with a block too many.
pub fn image_with_extra(alloc: Global) -> Option<Vec<u8>> {
    let mut bytes = new_bytes(alloc)?;
    put(&mut bytes, 0, 40, &[0]);
    put_file(&mut bytes);
    Some(bytes)
}

/// The bytes of the image with the root alone. The bitmap has this byte for the blocks from 56 on, which are free.
pub fn image_marked(alloc: Global, marks: u8) -> Option<Vec<u8>> {
    let mut bytes = new_bytes(alloc)?;
    put(&mut bytes, 0, 40, &[0]);
    put(&mut bytes, 8, 7, &[marks]);
    Some(bytes)
}
