// How far a start reads an image: each sector once, up to the last block of a directory.
use crate::counted::CountedDisk;
use crate::images::{ROOT, file, inode, name, new_image_of, set_sector};
use std::alloc::Global;
use std::test::Fail;
use ufs_disk::PlainDisk;
use ufs_start::{Start, start_of};

// Puts the root into this block, and a file `f` into that one.
fn put(disk: &mut PlainDisk, root: u8, data: u8) -> bool {
    set_sector(disk, 8 * u32::from(root), &name(2, 1, b'f'))
        && set_sector(disk, ROOT, &inode(2, root, 1, 4096))
        && set_sector(disk, ROOT + 1, &file(data, 1, 5))
}

// Whether the first block of the file is in memory.
fn is_there(start: &Start) -> Option<bool> {
    start.files.get(0)?.is_there(0)
}

// How many sectors a start reads of such an image of so many blocks, the end of those, and whether the
// file's block is in memory.
fn read(alloc: Global, blocks: u32, root: u8, data: u8) -> Option<(usize, usize, bool)> {
    let mut disk = new_image_of(alloc, blocks)?;
    if !put(&mut disk, root, data) {
        return None;
    }
    let mut disk = CountedDisk {
        disk,
        count: 0,
        end: 0,
    };
    match start_of(alloc, &mut disk) {
        Ok(start) => Some((disk.count, disk.end, is_there(&start)?)),
        Err(_fault) => None,
    }
}

#[test]
fn a_large_data_area_is_read_as_far_as_directories_use_it(rt: HostRuntime) -> Result<(), Fail> {
    assert!(rt; read(rt.alloc(), 1024, 12, 13) == Some((104, 104, false)));
    Ok(())
}

#[test]
fn blocks_of_files_before_the_last_one_of_a_directory_are_read_with_it(
    rt: HostRuntime,
) -> Result<(), Fail> {
    assert!(rt; read(rt.alloc(), 64, 50, 20) == Some((408, 408, false)));
    Ok(())
}

#[test]
fn blocks_of_files_behind_it_are_not_read(rt: HostRuntime) -> Result<(), Fail> {
    assert!(rt; read(rt.alloc(), 64, 20, 63) == Some((168, 168, false)));
    Ok(())
}

#[test]
fn the_last_block_may_be_the_last_of_the_data_area(rt: HostRuntime) -> Result<(), Fail> {
    assert!(rt; read(rt.alloc(), 64, 63, 20) == Some((512, 512, false)));
    Ok(())
}
