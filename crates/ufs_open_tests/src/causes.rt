// Why images aren't opened by their superblock, and that new ones are.
use crate::asserts::{holds, same};
use crate::images::{cause, gives, new_disk, sector_of, set_sector};
use std::alloc::Global;
use ufs_base::SECTOR;
use ufs_disk::PlainDisk;
use ufs_metadata::RecoverFault;
use ufs_opening::tree_of;

#[test]
fn a_disk_of_zeros_has_no_superblock(rt: HostRuntime) {
    let mut disk = PlainDisk::zeros(rt.alloc(), 512).expect(&rt, "memory");
    let found = cause(rt.alloc(), &mut disk);
    same(&rt, found, Some(RecoverFault::NoSuperblock));
}

#[test]
fn a_disk_of_no_sectors_has_no_superblock(rt: HostRuntime) {
    let mut disk = PlainDisk::zeros(rt.alloc(), 0).expect(&rt, "memory");
    let found = cause(rt.alloc(), &mut disk);
    same(&rt, found, Some(RecoverFault::NoSuperblock));
}

// The cause for which the superblock of a new image isn't opened on a disk of one sector.
fn cause_alone(alloc: Global) -> Option<RecoverFault> {
    let mut whole = new_disk(alloc)?;
    let bytes = sector_of(&mut whole, 0)?;
    let Ok(mut disk) = PlainDisk::zeros(alloc, 1) else {
        return None;
    };
    if !set_sector(&mut disk, 0, &bytes) {
        return None;
    }
    cause(alloc, &mut disk)
}

#[test]
fn a_superblock_alone_has_too_few_sectors(rt: HostRuntime) {
    let found = cause_alone(rt.alloc());
    same(&rt, found, Some(RecoverFault::BadGeometry { number: 5 }));
}

// How many paths the tree on a disk has; none where it isn't opened.
fn count_of_paths(alloc: Global, disk: &mut PlainDisk) -> Option<usize> {
    match tree_of(alloc, disk) {
        Ok(tree) => Some(tree.as_slice().len()),
        Err(_) => None,
    }
}

#[test]
fn a_new_image_has_the_root_alone(rt: HostRuntime) {
    let mut disk = new_disk(rt.alloc()).expect(&rt, "no image");
    let count = count_of_paths(rt.alloc(), &mut disk);
    same(&rt, count.expect(&rt, "no tree"), 1);
}

// The cause for which a new image isn't opened where this byte of its superblock is ff; none where it is opened.
fn cause_of_byte(at: usize) -> Option<RecoverFault> {
    match at {
        0..=7 | 40..=511 => Some(RecoverFault::NoSuperblock),
        8 => Some(RecoverFault::BadVersion { found: 255 }),
        9 => Some(RecoverFault::BadVersion { found: 65_281 }),
        10 => Some(RecoverFault::BadVersion { found: 16_711_681 }),
        11 => Some(RecoverFault::BadVersion {
            found: 4_278_190_081,
        }),
        12 | 13 => Some(RecoverFault::BadGeometry { number: 5 }),
        14 | 15 => Some(RecoverFault::BadGeometry { number: 1 }),
        17..=19 => Some(RecoverFault::BadGeometry { number: 2 }),
        21..=23 => Some(RecoverFault::BadGeometry { number: 3 }),
        _ => None,
    }
}

#[test]
fn each_byte_of_the_superblock_has_its_cause(rt: HostRuntime) {
    for at in 0..SECTOR {
        holds(&rt, gives(rt.alloc(), 0, at, 255, cause_of_byte(at)));
    }
}

#[test]
fn a_geometry_without_data_is_the_fourth(rt: HostRuntime) {
    let none_left = Some(RecoverFault::BadGeometry { number: 4 });
    holds(&rt, gives(rt.alloc(), 0, 21, 2, none_left));
}

#[test]
fn an_image_in_use_with_nothing_committed_is_opened(rt: HostRuntime) {
    holds(&rt, gives(rt.alloc(), 0, 40, 0, None));
}
