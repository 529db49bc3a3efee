// The overlay on a disk: each call once.
use crate::asserts::{holds, same};
use crate::births::{birth, small};
use std::process::Abort;
use ufs_disk::{Disk, PlainDisk};
use ufs_layout::{Committed, get_inode};
use ufs_overlay::Overlay;

// The sectors of inodes 1 and 2, and the data area's first.
const ROOT: u32 = 16;

const FILE: u32 = 17;

const DATA: u32 = 112;

// The kind, the count and the number of the inode in a sector.
fn inode_in(rt: &impl Abort, sector: &[u8; 512], place: u32) -> (u8, u8, u64) {
    match get_inode(sector) {
        Some(inode) => (inode.kind, inode.count, inode.number),
        None => panic!(rt; "no inode at {place}"),
    }
}

#[test]
fn a_birth_over_zeros(rt: HostRuntime) {
    let alloc = rt.alloc();
    let mut disk = PlainDisk::zeros(alloc, 2_048).expect(&rt, "memory");
    let mut overlay = Overlay::make(alloc, &small());
    let records = birth(alloc).expect(&rt, "memory");
    let added = overlay.add(&Committed { number: 1, records });
    added.expect(&rt, "memory");
    let mut sector = [7; 512];
    holds(&rt, overlay.value(&mut disk, DATA, &mut sector).is_ok());
    holds(&rt, &sector[..7] == [2, 0, 0, 0, 1, 1, 0x66].as_slice());
    holds(&rt, overlay.write_home(&mut disk).is_ok());
    overlay.empty_after_epoch();
    for (place, kind, count) in [(ROOT, 2, 1), (FILE, 1, 0)] {
        holds(&rt, place < disk.sectors());
        holds(&rt, overlay.value(&mut disk, place, &mut sector).is_ok());
        same(&rt, inode_in(&rt, &sector, place), (kind, count, 1));
    }
}
