// Images that are spoiled: what a check finds, and whether a session begins.
use crate::calls::{check_calls, check_new, playing};
use crate::rows::{lines_of, script_of};
use crate::trees::{INODES, check, making, put_sector, read_sector};
use std::alloc::AllocGlobal;
use std::process::Abort;
use ufs_base::SECTOR;
use ufs_disk::PlainDisk;

const FREE_INODE: &str = "damage FreeInode 1 0 2\ndamage BitmapDiffers 15\n";

const SHARED: &str = "damage SharedBlock 15 2 3\ndamage BitmapDiffers 16\n";

// Where the first block of an inode's first extent stands in its sector.
const BLOCK: usize = 64;

/// The image that a session of one client leaves.
pub fn left_by<R: Abort + AllocGlobal>(rt: &R, requests: &str, replies: &str) -> PlainDisk {
    let script = script_of(rt, requests);
    let lines = lines_of(rt, replies);
    let call = playing(script.as_str(), 0, lines.as_str());
    check_new(rt, 2_048, &[making(), call])
}

#[test]
fn a_name_of_no_inode_begins_no_session(rt: HostRuntime) {
    let mut disk = left_by(&rt, "open /f rw creat;write 3 68656c6c6f", "fd 3/n 5");
    put_sector(&rt, &mut disk, INODES + 1, &[0; SECTOR]);
    let calls = [
        check(8, FREE_INODE),
        playing("client 0\nend\n", 3, "ufs: image: BadTree 1\n"),
    ];
    check_calls(&rt, &calls, disk);
}

#[test]
fn a_block_of_two_files_is_found(rt: HostRuntime) {
    let requests = "open /f w creat;write 3 61;open /g w creat;write 4 62";
    let mut disk = left_by(&rt, requests, "fd 3/n 1/fd 4/n 1");
    let mut sector = read_sector(&rt, &mut disk, INODES + 2);
    sector[BLOCK] = 15;
    put_sector(&rt, &mut disk, INODES + 2, &sector);
    check_calls(&rt, &[check(8, SHARED)], disk);
}
