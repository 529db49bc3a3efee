// Sessions over an image with files, and over one without.
use crate::images::{empty_image, has_both, image_of_two};
use crate::session::{deal_and_close, deal_and_finish};
use std::alloc::Global;
use std::test::Fail;
use ufs_brink::CloseFault;
use ufs_disk::{Fuse, FuseDisk, PlainDisk};
use ufs_start::start_of;

#[test]
fn each_file_is_dealt_and_comes_back(rt: HostRuntime) -> Result<(), Fail> {
    let closed = deal_and_close(&rt, two_files(rt.alloc())?);
    assert!(rt; closed.files == 2);
    assert!(rt; closed.tickets == 0);
    Ok(())
}

#[test]
fn an_image_may_have_no_file(rt: HostRuntime) -> Result<(), Fail> {
    let disk = empty_image(rt.alloc()).ok_or("no image")?;
    let closed = deal_and_close(&rt, disk);
    assert!(rt; closed.files == 0);
    assert!(rt; closed.tickets == 0);
    Ok(())
}

// The image is in use then.
#[test]
fn the_files_are_still_on_the_disk(rt: HostRuntime) -> Result<(), Fail> {
    let mut closed = deal_and_close(&rt, two_files(rt.alloc())?);
    assert!(rt; !is_clean(rt.alloc(), &mut closed.disk)?);
    assert!(rt; has_both(rt.alloc(), &mut closed.disk));
    Ok(())
}

#[test]
fn an_image_is_clean_once_its_session_is_finished(rt: HostRuntime) -> Result<(), Fail> {
    let mut finished = deal_and_finish(&rt, two_files(rt.alloc())?, false);
    assert!(rt; finished.ended == Ok(()));
    assert!(rt; finished.tickets == 0);
    assert!(rt; finished.bytes == Ok(5005));
    assert!(rt; is_clean(rt.alloc(), &mut finished.disk)?);
    assert!(rt; has_both(rt.alloc(), &mut finished.disk));
    Ok(())
}

// Once the image is mounted each call of the disk may be the first one that fails.
#[test]
fn a_call_that_fails_in_a_finish_is_told(rt: HostRuntime) -> Result<(), Fail> {
    let alloc = rt.alloc();
    let closed = deal_and_close(&rt, fails_behind(alloc, u64::MAX)?);
    let first = closed.disk.medium.calls.len();
    let finished = deal_and_finish(&rt, fails_behind(alloc, u64::MAX)?, false);
    assert!(rt; finished.ended == Ok(()));
    let all = finished.disk.medium.calls.len();
    assert!(rt; first < all);
    for passes in first..all {
        let failed = deal_and_finish(&rt, fails_behind(alloc, passes as u64)?, false);
        assert!(rt; failed.ended == Err(CloseFault::Device { fault: 1 }));
    }
    Ok(())
}

#[test]
fn a_store_that_had_stopped_finishes_nothing(rt: HostRuntime) -> Result<(), Fail> {
    let alloc = rt.alloc();
    let closed = deal_and_close(&rt, fails_behind(alloc, u64::MAX)?);
    let first = closed.disk.medium.calls.len();
    let stopped = deal_and_finish(&rt, fails_behind(alloc, first as u64)?, true);
    assert!(rt; stopped.ended == Err(CloseFault::Stopped { fault: 1 }));
    // The checkpoint made the call that failed.
    assert!(rt; stopped.disk.medium.calls.len().checked_sub(1) == Some(first));
    Ok(())
}

fn two_files(alloc: Global) -> Result<PlainDisk, Fail> {
    Ok(image_of_two(alloc).ok_or("no image")?)
}

// The same on a disk that passes so many calls, and then fails each.
fn fails_behind(alloc: Global, passes: u64) -> Result<FuseDisk, Fail> {
    let PlainDisk { sectors, bytes, .. } = two_files(alloc)?;
    Ok(FuseDisk::new(alloc, sectors, bytes, Fuse { passes })?)
}

// Whether the image says that no session has it.
fn is_clean(alloc: Global, disk: &mut PlainDisk) -> Result<bool, Fail> {
    let start = start_of(alloc, disk).ok().ok_or("no start")?;
    Ok(start.superblock.superblock.clean)
}
