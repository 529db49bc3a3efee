// Images with damage: the lowest inode that is blamed.
use crate::asserts::{holds, same};
use crate::images::{ROOT, cause, file, gives, new_disk, set_sector};
use std::alloc::Global;
use ufs_base::SECTOR;
use ufs_metadata::RecoverFault;

// The cause for which a new image isn't opened that has these as inodes 2 and 3.
fn cause_with(alloc: Global, second: &[u8; SECTOR], third: &[u8; SECTOR]) -> Option<RecoverFault> {
    let mut disk = new_disk(alloc)?;
    if !(set_sector(&mut disk, ROOT + 1, second) && set_sector(&mut disk, ROOT + 2, third)) {
        return None;
    }
    cause(alloc, &mut disk)
}

#[test]
fn an_inode_off_its_form_is_blamed(rt: HostRuntime) {
    let blamed = Some(RecoverFault::BadTree { inode: 5 });
    holds(&rt, gives(rt.alloc(), ROOT + 4, 0, 255, blamed));
}

#[test]
fn a_root_that_is_no_directory_is_blamed(rt: HostRuntime) {
    let blamed = Some(RecoverFault::BadTree { inode: 1 });
    holds(&rt, gives(rt.alloc(), ROOT, 0, 1, blamed));
}

#[test]
fn an_extent_past_the_last_block_is_blamed(rt: HostRuntime) {
    let bad = file(63, 2, 0);
    let found = cause_with(rt.alloc(), &file(13, 1, 0), &bad);
    same(&rt, found, Some(RecoverFault::BadTree { inode: 3 }));
}

#[test]
fn the_lower_one_of_two_that_share_a_block_is_blamed(rt: HostRuntime) {
    let one = file(13, 2, 0);
    let other = file(14, 1, 0);
    let found = cause_with(rt.alloc(), &one, &other);
    same(&rt, found, Some(RecoverFault::BadTree { inode: 2 }));
}

#[test]
fn files_without_names_are_no_damage(rt: HostRuntime) {
    let one = file(13, 1, 200);
    let other = file(14, 1, 0);
    same(&rt, cause_with(rt.alloc(), &one, &other), None);
}
