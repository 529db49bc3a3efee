// Recovery: of a new image, of one in use that is made by hand, of none, and over disks that stop.
use crate::asserts::{are_bytes, holds, same};
use crate::calls::{Call, calm, check_calls, check_new};
use crate::stops::{Answer, always_stopped, is_whole, make_call};
use crate::trees::{
    EMPTY, FILES, INODES, NO_SUPERBLOCK, check, put_files, put_sector, read_sector, sector_of, tree,
};
use std::alloc::AllocGlobal;
use std::process::Abort;
use ufs_base::SECTOR;
use ufs_disk::PlainDisk;

const RECOVERED: &str = "recovered 0\n";

// Where the superblock has the epoch, and whether the image is clean.
const EPOCH: usize = 24;

const CLEAN: usize = 40;

// 64 blocks, 16 inodes, 64 journal sectors, and the first block of the data area.
const SECTORS: u32 = 512;

const DATA: u8 = 12;

fn making() -> Call<'static> {
    calm(&["mkfs", "64", "16", "64"], 0, "made 64 16 64 52\n")
}

fn recover(status: u8, text: &'static str) -> Call<'static> {
    calm(&["recover"], status, text)
}

// An image with files, marked in use. One more inode has no name, and the bitmap isn't told of the files.
fn in_use<R: Abort + AllocGlobal>(rt: &R) -> PlainDisk {
    let mut disk = check_new(rt, SECTORS, &[making()]);
    put_files(rt, &mut disk, DATA);
    put_sector(rt, &mut disk, INODES + 3, &sector_of(&EMPTY));
    let mut superblock = read_sector(rt, &mut disk, 0);
    superblock[CLEAN] = 0;
    put_sector(rt, &mut disk, 0, &superblock);
    disk
}

#[test]
fn a_new_image_is_clean_already(rt: HostRuntime) {
    let calls = [recover(3, NO_SUPERBLOCK), making(), recover(0, RECOVERED)];
    let mut disk = check_new(&rt, SECTORS, &calls);
    same(&rt, read_sector(&rt, &mut disk, 0)[EPOCH], 1);
}

#[test]
fn an_image_in_use_is_made_clean(rt: HostRuntime) {
    let calls = [recover(0, RECOVERED), check(0, "clean\n"), tree(0, FILES)];
    let mut disk = check_calls(&rt, &calls, in_use(&rt));
    let superblock = read_sector(&rt, &mut disk, 0);
    same(&rt, (superblock[EPOCH], superblock[CLEAN]), (2, 1));
    check_calls(&rt, &[recover(0, RECOVERED)], disk);
}

// What a stop leaves has the same tree, and is recovered.
fn check_left<R: Abort + AllocGlobal>(rt: &R, left: Vec<u8>) {
    holds(rt, left.len() == SECTOR * SECTORS as usize);
    let calls = [
        tree(0, FILES),
        recover(0, RECOVERED),
        tree(0, FILES),
        check(0, "clean\n"),
    ];
    check_calls(rt, &calls, PlainDisk::new(SECTORS, left));
}

// Recovers over a disk that passes so many calls, looks at what a crash leaves, and answers the status.
fn check_stop<R: Abort + AllocGlobal>(rt: &R, image: &[u8], passes: u64, pick: u64) -> u8 {
    let Answer { status, text, left } = make_call(rt, &["recover"], "", image, passes, pick);
    let line = if status == 0 {
        RECOVERED
    } else {
        "ufs: device fault 1\n"
    };
    are_bytes(rt, text.as_slice(), line.as_bytes());
    check_left(rt, left);
    status
}

#[test]
fn a_stop_at_any_call_loses_nothing(rt: HostRuntime) {
    let image = in_use(&rt).bytes;
    for passes in 0..1_000 {
        let status = check_stop(&rt, image.as_slice(), passes, passes % 4);
        if is_whole(&rt, status, passes) {
            return;
        }
    }
    always_stopped(&rt);
}
