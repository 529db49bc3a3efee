// The trees and the damage of images: none, a new one, one with files, and disks that fail.
use crate::asserts::holds;
use crate::calls::{Call, calm, check_calls, check_new, memory_disk};
use std::alloc::AllocGlobal;
use std::process::Abort;
use ufs_base::SECTOR;
use ufs_disk::{Disk, PlainDisk};

const MADE: &str = "made 256 32 64 242\n";

pub const NO_SUPERBLOCK: &str = "ufs: image: NoSuperblock\n";

const TOO_SMALL: &str = "ufs: image: BadGeometry 5\n";

// The line of a file of 65 bytes shows 64 of them.
pub const FILES: &str =
    "dir /\nfile /e 0 -\nfile /f 65 61616161616161616161616161616161616161616161616161616161616161616161616161616161616161616161616161616161616161616161616161616161+\n";

// The files' blocks aren't marked in the bitmap.
const UNMARKED: &str = "damage BitmapDiffers 14\ndamage BitmapDiffers 15\n";

// The first sector of the inode table.
pub const INODES: u32 = 16;

// The first block of the data area.
const DATA: u8 = 14;

pub fn making() -> Call<'static> {
    calm(&["mkfs", "256", "32", "64"], 0, MADE)
}

/// Of 64 blocks, on 512 sectors.
pub fn making_small() -> Call<'static> {
    calm(&["mkfs", "64", "16", "64"], 0, "made 64 16 64 52\n")
}

/// Of 8,192 blocks, on 65,536 sectors.
pub fn making_large() -> Call<'static> {
    calm(&["mkfs", "8192", "64", "256"], 0, "made 8192 64 256 8150\n")
}

pub fn tree<'a>(status: u8, text: &'a str) -> Call<'a> {
    calm(&["tree"], status, text)
}

pub fn check<'a>(status: u8, text: &'a str) -> Call<'a> {
    calm(&["check"], status, text)
}

pub fn put_sector(rt: &impl Abort, disk: &mut PlainDisk, at: u32, sector: &[u8; SECTOR]) {
    holds(rt, at < disk.sectors());
    holds(rt, disk.write(at, sector).is_ok());
}

pub fn read_sector(rt: &impl Abort, disk: &mut PlainDisk, at: u32) -> [u8; SECTOR] {
    let mut sector = [0; SECTOR];
    holds(rt, at < disk.sectors());
    holds(rt, disk.read(at, &mut sector).is_ok());
    sector
}

// A sector with these bytes at these places, and zeros elsewhere.
pub fn sector_of(bytes: &[(usize, u8)]) -> [u8; SECTOR] {
    let mut sector = [0; SECTOR];
    for (place, byte) in bytes {
        if *place < SECTOR {
            sector[*place] = *byte;
        }
    }
    sector
}

// A directory of one block, a file of 65 bytes and an empty one. Which blocks they have stands in byte 64.
const ROOT: [(usize, u8); 5] = [(0, 2), (1, 1), (2, 1), (9, 16), (68, 1)];

const FILE: [(usize, u8); 5] = [(0, 1), (1, 1), (2, 1), (8, 65), (68, 1)];

const BLOCK: usize = 64;

pub const EMPTY: [(usize, u8); 2] = [(0, 1), (2, 1)];

// The directory's names: `f` for the second inode and `e` for the third.
const NAMES: [(usize, u8); 8] = [
    (0, 2),
    (4, 1),
    (5, 1),
    (6, 102),
    (64, 3),
    (68, 1),
    (69, 1),
    (70, 101),
];

// Puts them into a new image whose data area begins with this block.
pub fn put_files(rt: &impl Abort, disk: &mut PlainDisk, data: u8) {
    let mut root = sector_of(&ROOT);
    root[BLOCK] = data;
    let mut file = sector_of(&FILE);
    file[BLOCK] = data.saturating_add(1);
    put_sector(rt, disk, INODES, &root);
    put_sector(rt, disk, INODES + 1, &file);
    put_sector(rt, disk, INODES + 2, &sector_of(&EMPTY));
    put_sector(rt, disk, 8 * u32::from(data), &sector_of(&NAMES));
    put_sector(rt, disk, 8 * u32::from(data) + 8, &[97; SECTOR]);
}

#[test]
fn a_new_image_has_the_root_alone(rt: HostRuntime) {
    let calls = [
        tree(3, NO_SUPERBLOCK),
        making(),
        tree(0, "dir /\n"),
        check(0, "clean\n"),
    ];
    check_new(&rt, 2_048, &calls);
}

#[test]
fn files_are_shown(rt: HostRuntime) {
    let mut disk = check_new(&rt, 2_048, &[making()]);
    put_files(&rt, &mut disk, DATA);
    check_calls(&rt, &[tree(0, FILES), check(8, UNMARKED)], disk);
}

// A disk of one sector, the superblock of a new image.
fn alone<R: Abort + AllocGlobal>(rt: &R) -> PlainDisk {
    let mut disk = check_new(rt, 2_048, &[making()]);
    let sector = read_sector(rt, &mut disk, 0);
    PlainDisk::new(1, sector.to_vec(rt.alloc()).expect(rt, "memory"))
}

#[test]
fn the_superblock_alone_is_too_small(rt: HostRuntime) {
    let calls = [tree(3, TOO_SMALL), check(3, TOO_SMALL)];
    check_calls(&rt, &calls, alone(&rt));
}

// Makes the call over a disk of zeros whose first call fails.
fn check_failing<R: Abort + AllocGlobal>(rt: &R, call: Call) {
    let zeros = check_new(rt, 2_048, &[]);
    let disk = memory_disk(rt, 2_048, zeros.bytes.as_slice(), &[0]);
    check_calls(rt, &[call], disk);
}

#[test]
fn a_fault_of_the_disk_is_told(rt: HostRuntime) {
    check_failing(&rt, tree(4, "ufs: device fault 1\n"));
    check_failing(&rt, check(4, "ufs: device fault 1\n"));
}
