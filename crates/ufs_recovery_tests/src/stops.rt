// A recovery that is stopped after each call of the disk, and then made again.
use crate::images::{SECTORS, image_in_use, image_with_extra};
use std::alloc::Global;
use std::test::Fail;
use ufs_check::check;
use ufs_disk::{Fuse, FuseDisk, PlainDisk};
use ufs_load_image::load;
use ufs_model::{PathEntry, PathNode};
use ufs_opening::tree_of;
use ufs_recovery::recover;

fn is_hello(entries: &[PathEntry]) -> bool {
    if entries.len() != 2 {
        return false;
    }
    match &entries[1].node {
        PathNode::Dir => false,
        PathNode::File(bytes) => {
            entries[1].path.as_slice() == b"/f".as_slice()
                && bytes.as_slice() == b"hello".as_slice()
        }
    }
}

// Whether the disk opens to the tree of the image.
fn opens_alike(alloc: Global, disk: &mut PlainDisk) -> bool {
    match tree_of(alloc, disk) {
        Ok(tree) => is_hello(tree.as_slice()),
        Err(_) => false,
    }
}

// Whether it is undamaged, with so many free blocks: those of inodes without a name are among them.
fn has_free(alloc: Global, disk: &mut PlainDisk, blocks: u32) -> bool {
    let Ok(loaded) = load(alloc, disk) else {
        return false;
    };
    match check(alloc, disk) {
        Ok(list) => list.as_slice().is_empty() && loaded.free.count() == blocks,
        Err(_) => false,
    }
}

// Whether a recovery of these bytes answers how many transactions are left there, 1 or 0, and leaves the tree, no
// damage and nothing to do for another one.
fn recovers(alloc: Global, bytes: Vec<u8>) -> bool {
    if bytes.len() != 512 * SECTORS as usize {
        return false;
    }
    let mut disk = PlainDisk::new(SECTORS, bytes);
    let Ok(count) = recover(alloc, &mut disk) else {
        return false;
    };
    count <= 1
        && opens_alike(alloc, &mut disk)
        && has_free(alloc, &mut disk, 50)
        && recover(alloc, &mut disk) == Ok(0)
}

// A recovery on a disk that passes so many calls: whether it came to its end, and what a crash then leaves recovers.
fn stopped(alloc: Global, bytes: &Vec<u8>, passes: u64, pick: u64) -> Option<bool> {
    let Ok(copy) = bytes.clone() else {
        return None;
    };
    if copy.len() != 512 * SECTORS as usize {
        return None;
    }
    let Ok(mut disk) = FuseDisk::new(alloc, SECTORS, copy, Fuse { passes }) else {
        return None;
    };
    let ended = recover(alloc, &mut disk).is_ok();
    let Ok(left) = disk.crash(pick) else {
        return None;
    };
    if recovers(alloc, left) {
        Some(ended)
    } else {
        None
    }
}

// Whether a recovery of these bytes, if there are any, may be stopped after each of its calls, where a crash leaves the
// image with this number.
fn may_stop_anywhere(alloc: Global, image: Option<Vec<u8>>, pick: u64) -> bool {
    let Some(bytes) = image else {
        return false;
    };
    for passes in 0..200 {
        match stopped(alloc, &bytes, passes, pick) {
            Some(true) => return true,
            Some(false) => {}
            None => return false,
        }
    }
    false
}

#[test]
fn a_stopped_recovery_is_recovered(rt: HostRuntime) -> Result<(), Fail> {
    for pick in 0..4 {
        assert!(rt; may_stop_anywhere(rt.alloc(), image_in_use(rt.alloc()), pick));
    }
    Ok(())
}

#[test]
fn a_stopped_recovery_of_a_file_with_a_block_too_many_is_recovered(
    rt: HostRuntime,
) -> Result<(), Fail> {
    for pick in 0..4 {
        assert!(rt; may_stop_anywhere(rt.alloc(), image_with_extra(rt.alloc()), pick));
    }
    Ok(())
}

#[test]
fn the_committed_transactions_are_counted(rt: HostRuntime) -> Result<(), Fail> {
    let Some(bytes) = image_in_use(rt.alloc()) else {
        return Err(Fail::new("no image"));
    };
    if bytes.len() != 512 * SECTORS as usize {
        return Err(Fail::new("another size"));
    }
    let mut disk = PlainDisk::new(SECTORS, bytes);
    assert!(rt; recover(rt.alloc(), &mut disk) == Ok(1));
    assert!(rt; has_free(rt.alloc(), &mut disk, 50));
    Ok(())
}

#[test]
fn a_block_too_many_is_freed(rt: HostRuntime) -> Result<(), Fail> {
    let Some(bytes) = image_with_extra(rt.alloc()) else {
        return Err(Fail::new("no image"));
    };
    if bytes.len() != 512 * SECTORS as usize {
        return Err(Fail::new("another size"));
    }
    let mut disk = PlainDisk::new(SECTORS, bytes);
    assert!(rt; has_free(rt.alloc(), &mut disk, 49));
    assert!(rt; recover(rt.alloc(), &mut disk) == Ok(0));
    assert!(rt; has_free(rt.alloc(), &mut disk, 50));
    Ok(())
}
