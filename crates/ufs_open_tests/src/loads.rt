// What is free in an image that is loaded: 52 blocks from block 12 on where it is new.
use crate::asserts::same;
use crate::images::{ROOT, file, new_disk, set_sector};
use std::alloc::Global;
use ufs_base::SECTOR;
use ufs_disk::PlainDisk;
use ufs_load_image::load;

// How many blocks are free; none where it isn't loaded.
fn free_count(alloc: Global, disk: &mut PlainDisk) -> Option<u32> {
    match load(alloc, disk) {
        Ok(loaded) => Some(loaded.free.count()),
        Err(_) => None,
    }
}

// The same of a new image with one sector set.
fn free_with(alloc: Global, sector: u32, bytes: &[u8; SECTOR]) -> Option<u32> {
    let mut disk = new_disk(alloc)?;
    if !set_sector(&mut disk, sector, bytes) {
        return None;
    }
    free_count(alloc, &mut disk)
}

#[test]
fn the_data_area_of_a_new_image_is_free(rt: HostRuntime) {
    same(&rt, free_with(rt.alloc(), 511, &[0; SECTOR]), Some(52));
}

#[test]
fn the_bitmap_on_the_disk_is_not_read(rt: HostRuntime) {
    same(&rt, free_with(rt.alloc(), 8, &[255; SECTOR]), Some(52));
    same(&rt, free_with(rt.alloc(), 8, &[0; SECTOR]), Some(52));
}

#[test]
fn the_blocks_of_a_file_are_not_free(rt: HostRuntime) {
    let found = free_with(rt.alloc(), ROOT + 1, &file(61, 3, 0));
    same(&rt, found, Some(49));
}

#[test]
fn a_damaged_image_is_not_loaded(rt: HostRuntime) {
    same(&rt, free_with(rt.alloc(), ROOT, &file(13, 1, 0)), None);
}
