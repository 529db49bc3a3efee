// What no clause says: that calls succeed, that the bytes are the format's, and how many calls there are.
ghost use Rattle.std.specs.Prelude.{◌≡◌, ◌*◌, length};
ghost use Rattle.ufs_layout.specs.Areas.{IsGeometry};

use crate::asserts::{holds, holds_in, same};
use crate::calls::memory_disk;
use crate::stops::fuse_disk;
use std::alloc::AllocGlobal;
use std::process::Abort;
use ufs_base::SECTOR;
use ufs_disk::{Disk, PlainDisk};
use ufs_layout::Geometry;
use ufs_recover::{FormatFault, format};

// What stands everywhere at first.
const OLD: u8 = 7;

// The bytes of a new image: the superblock's, the bitmap's that aren't 0, and where data begins.
#[derive(Clone, Copy)]
struct Row {
    superblock: [u8; 41],
    marks: [u8; 2],
    data: usize,
}

// 64 blocks, 16 inodes, 64 journal sectors.
const SMALL: Row = Row {
    superblock: [
        0x75, 0x46, 0x53, 0x49, 0x4d, 0x47, 0x30, 0x31, 1, 0, 0, 0, 0x40, 0, 0, 0, 0x10, 0, 0, 0,
        0x40, 0, 0, 0, 1, 0, 0, 0, 0, 0, 0, 0, 1, 0, 0, 0, 0, 0, 0, 0, 1,
    ],
    marks: [0xff, 0x0f],
    data: 12 * 4_096,
};

// 256 blocks, 32 inodes, 64 journal sectors.
const LARGER: Row = Row {
    superblock: [
        0x75, 0x46, 0x53, 0x49, 0x4d, 0x47, 0x30, 0x31, 1, 0, 0, 0, 0, 1, 0, 0, 0x20, 0, 0, 0,
        0x40, 0, 0, 0, 1, 0, 0, 0, 0, 0, 0, 0, 1, 0, 0, 0, 0, 0, 0, 0, 1,
    ],
    marks: [0xff, 0x3f],
    data: 14 * 4_096,
};

// What a crash left.
#[derive(Clone, Copy, Debug, PartialEq, Eq)]
enum Left {
    Old,
    NoSuperblock,
    New,
    Other,
}

// A byte of a new image.
fn new_byte(row: &Row, i: usize) -> u8 {
    if i < 41 {
        return row.superblock[i];
    }
    if i >= 4_096 && i < 4_098 {
        return row.marks[i - 4_096];
    }
    match i {
        512..=4_095 => OLD,
        8_192 => 2,
        8_194 => 1,
        _ => { if i < row.data { 0 } else { OLD } }
    }
}

fn is_new(row: &Row, image: &[u8]) -> bool {
    for (i, byte) in image.iter().enumerate() {
        if *byte != new_byte(row, i) {
            return false;
        }
    }
    true
}

fn is_all(bytes: &[u8], byte: u8) -> bool {
    bytes.iter().all(|b| *b == byte)
}

fn look(row: &Row, image: &[u8]) -> Left {
    if image.len() < SECTOR {
        return Left::Other;
    }
    if is_all(image, OLD) {
        Left::Old
    } else if is_all(&image[..SECTOR], 0) {
        Left::NoSuperblock
    } else if is_new(row, image) {
        Left::New
    } else {
        Left::Other
    }
}

fn geometry(rt: &impl Abort, blocks: u32, inodes: u32) -> Geometry
    ensures { IsGeometry result }
{
    Geometry::make(blocks, inodes, 64).expect(rt, "no geometry")
}

// So many sectors, filled with what stands everywhere at first.
fn old<R: Abort + AllocGlobal>(rt: &R, sectors: u32) -> Vec<u8>
    ensures { length result.items ≡ 512 * sectors }
{
    vec![in rt.alloc(); OLD; SECTOR * sectors as usize].expect(rt, "memory")
}

// Formats a disk of 64 blocks that passes so many calls, and says whether all passed and what a crash left.
fn stopped<R: Abort + AllocGlobal>(rt: &R, passes: u64, pick: u64) -> (bool, Left) {
    let mut disk = fuse_disk(rt, old(rt, 512).as_slice(), passes);
    let whole = format(&mut disk, &geometry(rt, 64, 16)).is_ok();
    let image = disk.crash(pick).expect(rt, "memory");
    (whole, look(&SMALL, image.as_slice()))
}

// The calls are a write and a barrier, eleven writes and a barrier, a write and a barrier.
fn expected(passes: u64, pick: u64) -> Left {
    match (passes, pick % 2) {
        (0, _) | (1, 0) => Left::Old,
        (1..=14, _) | (15, 0) => Left::NoSuperblock,
        _ => Left::New,
    }
}

// Asserts what a stop left, and tells its numbers where it left another.
fn is_left(rt: &impl Abort, found: Left, passes: u64, pick: u64) {
    assert_eq!(rt; found, expected(passes, pick), "{passes} {pick}");
}

#[test]
fn a_stop_leaves_what_was_no_superblock_or_a_new_image(rt: HostRuntime) {
    for passes in 0..17 {
        for pick in 0..4 {
            let (whole, found) = stopped(&rt, passes, pick);
            is_left(&rt, found, passes, pick);
            holds_in(&rt, whole == (passes == 16), passes);
        }
    }
}

// The sectors of a disk, the numbers of its calls that fail, what the format answers, and how many calls it makes.
type Format = (u32, &'static [u64], Result<(), FormatFault>, usize);

const FORMATS: [Format; 5] = [
    (2_048, &[], Ok(()), 18),
    (2_049, &[], Ok(()), 18),
    (2_047, &[], Err(FormatFault::TooSmall), 0),
    (2_048, &[0], Err(FormatFault::Device { fault: 1 }), 1),
    (2_048, &[17], Err(FormatFault::Device { fault: 1 }), 18),
];

fn answers(
    rt: &impl Abort,
    found: Result<(), FormatFault>,
    wanted: Result<(), FormatFault>,
    sectors: u32,
) {
    assert_eq!(rt; found, wanted, "{sectors}");
}

fn check_format<R: Abort + AllocGlobal>(rt: &R, row: &Format) {
    let (sectors, fails, wanted, calls) = row;
    let image = old(rt, *sectors);
    let mut disk = memory_disk(rt, *sectors, image.as_slice(), fails);
    let answer = format(&mut disk, &geometry(rt, 256, 32));
    answers(rt, answer, *wanted, *sectors);
    holds_in(rt, disk.medium.calls.len() == *calls, u64::from(*sectors));
    if answer.is_ok() {
        let left = disk.crash(0).expect(rt, "memory");
        holds_in(rt, is_new(&LARGER, left.as_slice()), u64::from(*sectors));
    }
}

#[test]
fn a_new_image_has_the_bytes_of_the_format(rt: HostRuntime) {
    for row in &FORMATS {
        check_format(&rt, row);
    }
}

#[test]
fn a_plain_disk_is_formatted(rt: HostRuntime) {
    let mut disk = PlainDisk::new(512, old(&rt, 512));
    same(&rt, format(&mut disk, &geometry(&rt, 64, 16)), Ok(()));
    let mut block = [0; 8 * SECTOR];
    holds(&rt, disk.sectors() > 8);
    holds(&rt, disk.read(0, &mut block).is_ok());
    holds(&rt, is_new(&SMALL, &block));
}
