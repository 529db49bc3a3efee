// Two transactions, stopped after each call of the disk: every image has those before, or the next one too.
use crate::written::{SUPERBLOCK, append_free, commit, geometry, new_journal};
use std::alloc::{AllocGlobal, Global};
use std::process::Abort;
use ufs_base::SECTOR;
use ufs_disk::{Disk, Fuse, FuseDisk, PlainDisk};
use ufs_scan::scan;

// How many calls pass, and then over all images the least and the most transactions that are committed. A
// transaction's calls are its records, a barrier, its commit, a barrier.
const ROWS: [(u64, usize, usize); 9] = [
    (0, 0, 0),
    (1, 0, 0),
    (2, 0, 0),
    (3, 0, 1),
    (4, 1, 1),
    (5, 1, 1),
    (6, 1, 1),
    (7, 1, 2),
    (8, 2, 2),
];

// Two transactions of records, over a disk that passes so many calls, and one image.
fn crashed<R: Abort + AllocGlobal>(rt: &R, passes: u64, pick: u64) -> Vec<u8> {
    let zeros = vec![in rt.alloc(); 0u8; 2_048 * SECTOR].expect(rt, "memory");
    let disk = FuseDisk::new(rt.alloc(), 2_048, zeros, Fuse { passes });
    let mut disk = disk.expect(rt, "memory");
    let mut journal = new_journal(rt);
    for txn in [7, 8] {
        if append_free(rt, &mut disk, &mut journal, txn, txn) {
            let _ = commit(&mut disk, &mut journal, txn);
        }
    }
    disk.crash(pick).expect(rt, "memory")
}

// How many transactions an image has, where they are numbered from 1 on.
fn count_committed(alloc: Global, image: Vec<u8>) -> Option<usize> {
    if image.len() != 2_048 * SECTOR {
        return None;
    }
    let mut disk = PlainDisk::new(2_048, image);
    if disk.sectors() < 2_048 {
        return None;
    }
    let list = scan(alloc, &mut disk, &geometry(), &SUPERBLOCK).ok()?;
    let list = list.as_slice();
    let numbered = list
        .iter()
        .enumerate()
        .all(|(i, one)| one.number == i as u64 + 1);
    if numbered { Some(list.len()) } else { None }
}

// The least and the most transactions that images have after so many calls.
fn counts<R: Abort + AllocGlobal>(rt: &R, passes: u64) -> (usize, usize) {
    let mut low = usize::MAX;
    let mut high = 0;
    for pick in 0..4u64 {
        let image = crashed(rt, passes, pick);
        let count = count_committed(rt.alloc(), image).expect(rt, "off");
        low = low.min(count);
        high = high.max(count);
    }
    (low, high)
}

// Asserts how many they are, and tells the calls where they are others.
fn are_counts(rt: &impl Abort, found: (usize, usize), wanted: (usize, usize), passes: u64) {
    assert_eq!(rt; found, wanted, "after {passes} calls");
}

#[test]
fn a_stopped_commit_is_there_or_not(rt: HostRuntime) {
    for (passes, least, most) in ROWS {
        are_counts(&rt, counts(&rt, passes), (least, most), passes);
    }
}
