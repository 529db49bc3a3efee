// What a recovery writes into the bitmap.
use crate::images::{SECTORS, image_marked};
use std::alloc::Global;
use std::test::Fail;
use ufs_disk::{Call, Fuse, FuseDisk, Request};
use ufs_recovery::recover;

// Whether it is a write into the bitmap, which has the sectors from 8 to 15.
fn is_of_bitmap(call: &Call) -> bool {
    match &call.request {
        Request::Write { sector, .. } => 8 <= *sector && *sector < 16,
        _ => false,
    }
}

fn count_of_bitmap(calls: &[Call]) -> u32 {
    let mut count = 0u32;
    for call in calls {
        if is_of_bitmap(call) {
            count = count.saturating_add(1);
        }
    }
    count
}

// How often a recovery writes into the bitmap of an image in use that has these marks for free blocks.
fn writes_of_bitmap(alloc: Global, marks: u8) -> Option<u32> {
    let bytes = image_marked(alloc, marks)?;
    if bytes.len() != 512 * SECTORS as usize {
        return None;
    }
    let Ok(mut disk) = FuseDisk::new(alloc, SECTORS, bytes, Fuse { passes: 200 }) else {
        return None;
    };
    if recover(alloc, &mut disk).is_err() {
        return None;
    }
    Some(count_of_bitmap(disk.medium.calls.as_slice()))
}

#[test]
fn the_bitmap_is_written_where_it_differs(rt: HostRuntime) -> Result<(), Fail> {
    assert!(rt; writes_of_bitmap(rt.alloc(), 0) == Some(0));
    assert!(rt; writes_of_bitmap(rt.alloc(), 16) == Some(1));
    Ok(())
}
