// An image as deep as it has inodes: each directory has the next one alone. It has 5,120 blocks and 64 journal sectors, so
// its inode table begins in sector 16 and its data area in block 522.
use crate::asserts::same;
use crate::images::{inode, put_name, set_sector};
use std::alloc::Global;
use std::test::Fail;
use ufs_base::SECTOR;
use ufs_disk::PlainDisk;
use ufs_layout::Geometry;
use ufs_opening::tree_of;
use ufs_recover::format;

const LEVELS: u16 = 4_096;

// A directory of this block.
fn dir(block: u16) -> [u8; SECTOR] {
    let mut bytes = inode(2, 0, 1, 4_096);
    let block = block.to_le_bytes();
    bytes[64] = block[0];
    bytes[65] = block[1];
    bytes
}

// A sector of slots with the name of this directory.
fn name_of(inode: u16) -> [u8; SECTOR] {
    let mut bytes = [0; SECTOR];
    let inode = inode.to_le_bytes();
    put_name(&mut bytes, 64, inode[0], 2, b"d");
    bytes[65] = inode[1];
    bytes
}

// The directory at this level, and its only name unless it is the last.
fn set_level(disk: &mut PlainDisk, level: u16) -> bool {
    let block = level.saturating_add(521);
    set_sector(disk, 15 + u32::from(level), &dir(block))
        && (level >= LEVELS || set_sector(disk, 8 * u32::from(block), &name_of(level + 1)))
}

fn deep_disk(alloc: Global) -> Option<PlainDisk> {
    let Ok(mut disk) = PlainDisk::zeros(alloc, 40_960) else {
        return None;
    };
    let Ok(geometry) = Geometry::make(5_120, 4_096, 64) else {
        return None;
    };
    if format(&mut disk, &geometry).is_err() {
        return None;
    }
    for level in 0..LEVELS {
        if !set_level(&mut disk, level + 1) {
            return None;
        }
    }
    Some(disk)
}

// How many paths the image has, and how long the last one is.
fn told(alloc: Global) -> Option<(usize, usize)> {
    let mut disk = deep_disk(alloc)?;
    let Ok(tree) = tree_of(alloc, &mut disk) else {
        return None;
    };
    let last = tree.as_slice().last()?;
    Some((tree.as_slice().len(), last.path.as_slice().len()))
}

#[test]
fn an_image_may_be_as_deep_as_it_has_inodes(rt: HostRuntime) -> Result<(), Fail> {
    same(&rt, told(rt.alloc()), Some((4_096, 8_190)));
    Ok(())
}
