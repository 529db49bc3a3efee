// What no clause says: that calls succeed, and that the definitions mean what people mean.
ghost use Rattle.std.specs.Prelude.{◌≡◌};

use crate::asserts::{holds, same};
use crate::torn::TornDisk;
use std::alloc::AllocGlobal;
use std::fs::{File, Files};
use std::process::Abort;
use ufs_base::SECTOR;
use ufs_disk::{Disk, FILE_SECTORS, Fault, FileDisk, Fuse, FuseDisk, MemoryDisk, PlainDisk};

// A step on a disk of three sectors: a sector filled with a byte, or a barrier.
#[derive(Clone, Copy)]
enum Step {
    Fill(u32, u8),
    Barrier,
}

use Step::{Barrier, Fill};

// Each row: the steps, the numbers of the calls that fail, and for some picks the byte that each sector is filled with.
const CRASHES: [(&[Step], &[u64], &[(u64, [u8; 3])]); 6] = [
    (&[], &[], &[(0, [0, 0, 0]), (7, [0, 0, 0])]),
    (
        &[Fill(0, 1)],
        &[],
        &[(0, [0, 0, 0]), (1, [1, 0, 0]), (2, [0, 0, 0])],
    ),
    (
        &[Fill(1, 1), Fill(1, 2)],
        &[],
        &[
            (0, [0, 0, 0]),
            (1, [0, 1, 0]),
            (2, [0, 2, 0]),
            (3, [0, 0, 0]),
        ],
    ),
    (
        &[Fill(2, 5), Fill(0, 1), Fill(2, 6)],
        &[],
        &[(0, [0, 0, 0]), (2, [0, 0, 5]), (5, [1, 0, 6])],
    ),
    (
        &[Fill(0, 1), Barrier, Fill(0, 2), Fill(1, 3)],
        &[],
        &[(0, [1, 0, 0]), (1, [2, 0, 0]), (3, [2, 3, 0])],
    ),
    (
        &[Fill(0, 1), Barrier, Fill(0, 2), Fill(1, 3)],
        &[1, 3],
        &[(0, [0, 0, 0]), (1, [1, 0, 0]), (2, [2, 0, 0])],
    ),
];

// Threads hand disks to one another.
fn sent<T: Send>(disk: T) -> T {
    disk
}

// Takes a step on a disk of three sectors, and says whether it passed.
fn take<R: Abort, D: Disk>(rt: &R, disk: &mut D, step: Step) -> bool {
    match step {
        Fill(sector, byte) => {
            holds(rt, sector < 3);
            holds(rt, disk.sectors() == 3);
            disk.write(sector, &[byte; SECTOR]).is_ok()
        }
        Barrier => disk.barrier().is_ok(),
    }
}

// Whether each sector is filled with its byte.
fn is_filled(image: &[u8], bytes: [u8; 3]) -> bool {
    for (i, byte) in image.iter().enumerate() {
        if i / SECTOR >= 3 || *byte != bytes[i / SECTOR] {
            return false;
        }
    }
    image.len() == 3 * SECTOR
}

// Asserts that each sector is filled with its byte, and tells the row where it isn't.
fn filled(rt: &impl Abort, image: &[u8], bytes: [u8; 3], row: &str, number: u64) {
    assert!(rt; is_filled(image, bytes), "{row} {number}");
}

fn memory<R: Abort + AllocGlobal>(rt: &R, fails: &[u64]) -> MemoryDisk
    ensures { result.medium.sectors ≡ 3 }
{
    let zeros = vec![in rt.alloc(); 0u8; 3 * SECTOR].expect(rt, "memory");
    let fails = fails.to_vec(rt.alloc()).expect(rt, "memory");
    MemoryDisk::new(rt.alloc(), 3, zeros, fails).expect(rt, "memory")
}

// A disk on which the steps were taken.
fn played<R: Abort + AllocGlobal>(rt: &R, steps: &[Step], fails: &[u64]) -> MemoryDisk {
    let mut disk = memory(rt, fails);
    for (number, step) in steps.iter().enumerate() {
        let passed = take(rt, &mut disk, *step);
        same(rt, passed, !fails.contains(&(number as u64)));
    }
    disk
}

fn crashes<R: Abort + AllocGlobal>(
    rt: &R,
    steps: &[Step],
    fails: &[u64],
    pick: u64,
    bytes: [u8; 3],
) {
    let disk = played(rt, steps, fails);
    let image = disk.crash(pick).expect(rt, "memory");
    filled(rt, image.as_slice(), bytes, "pick", pick);
}

#[test]
fn a_crash_takes_one_content_for_each_sector(rt: HostRuntime) {
    for (steps, fails, images) in &CRASHES {
        for (pick, bytes) in *images {
            crashes(&rt, steps, fails, *pick, *bytes);
        }
    }
}

fn number(outcome: Result<(), Fault>) -> Option<u64> {
    match outcome {
        Ok(()) => None,
        Err(fault) => Some(fault.number),
    }
}

// A write, a read and a barrier of one sector, and the number of each one's fault.
fn calls<R: Abort, D: Disk>(rt: &R, disk: &mut D) -> [Option<u64>; 3] {
    holds(rt, disk.sectors() > 0);
    let mut buf = [0; SECTOR];
    let write = number(disk.write(0, &[7; SECTOR]));
    let read = number(disk.read(0, &mut buf));
    let barrier = number(disk.barrier());
    [write, read, barrier]
}

fn fails_at<R: Abort + AllocGlobal>(rt: &R, fails: &[u64], want: [Option<u64>; 3]) {
    let mut disk = sent(memory(rt, fails));
    same(rt, calls(rt, &mut disk), want);
    same(rt, disk.medium.calls.len(), 3);
}

// The numbers of the calls that fail, and the faults.
const NUMBERED: [(&[u64], [Option<u64>; 3]); 5] = [
    (&[], [None, None, None]),
    (&[0], [Some(1), None, None]),
    (&[1], [None, Some(1), None]),
    (&[2], [None, None, Some(1)]),
    (&[2, 0], [Some(1), None, Some(2)]),
];

#[test]
fn each_numbered_call_fails(rt: HostRuntime) {
    for (fails, want) in &NUMBERED {
        fails_at(&rt, fails, *want);
    }
}

fn fuse_ends<R: Abort + AllocGlobal>(rt: &R, passes: u64, want: [Option<u64>; 3], left: u8) {
    let zeros = vec![in rt.alloc(); 0u8; 3 * SECTOR].expect(rt, "memory");
    let disk = FuseDisk::new(rt.alloc(), 3, zeros, Fuse { passes }).expect(rt, "memory");
    let mut disk = sent(disk);
    same(rt, calls(rt, &mut disk), want);
    let image = disk.crash(0).expect(rt, "memory");
    filled(rt, image.as_slice(), [left, 0, 0], "after", passes);
}

#[test]
fn a_fuse_fails_every_call_from_its_end_on(rt: HostRuntime) {
    let rows: [(u64, [Option<u64>; 3], u8); 4] = [
        (0, [Some(1), Some(2), Some(3)], 0),
        (1, [None, Some(1), Some(2)], 0),
        (2, [None, None, Some(1)], 0),
        (3, [None, None, None], 7),
    ];
    for (passes, want, left) in rows {
        fuse_ends(&rt, passes, want, left);
    }
}

fn is_all(bytes: &[u8], byte: u8) -> bool {
    bytes.iter().all(|b| *b == byte)
}

fn reads<R: Abort, D: Disk>(rt: &R, disk: &mut D, sector: u32, byte: u8) {
    holds(rt, sector < disk.sectors());
    let mut buf = [1; SECTOR];
    holds(rt, disk.read(sector, &mut buf).is_ok());
    holds(rt, is_all(&buf, byte));
}

// Writes a sector of nines and reads it back.
fn keeps_nines<R: Abort, D: Disk>(rt: &R, disk: &mut D, sector: u32) {
    holds(rt, sector < disk.sectors());
    holds(rt, disk.write(sector, &[9; SECTOR]).is_ok());
    reads(rt, disk, sector, 9);
}

#[test]
fn a_failed_write_may_have_written(rt: HostRuntime) {
    let mut disk = TornDisk {
        disk: PlainDisk::zeros(rt.alloc(), 3).expect(&rt, "memory"),
        faults: 0,
    };
    holds(&rt, disk.sectors() == 3);
    holds(&rt, disk.write(0, &[7; 2 * SECTOR]).is_err());
    reads(&rt, &mut disk, 0, 7);
    reads(&rt, &mut disk, 1, 0);
}

fn has_threes<R: Abort + AllocGlobal>(rt: &R) {
    let threes = vec![in rt.alloc(); 3u8; SECTOR].expect(rt, "memory");
    let mut disk = sent(PlainDisk::new(1, threes));
    reads(rt, &mut disk, 0, 3);
    same(rt, calls(rt, &mut disk), [None, None, None]);
}

#[test]
fn a_plain_disk_of_256_mebibytes_is_zeros(rt: HostRuntime) {
    let mut disk = PlainDisk::zeros(rt.alloc(), FILE_SECTORS).expect(&rt, "memory");
    keeps_nines(&rt, &mut disk, FILE_SECTORS - 1);
    reads(&rt, &mut disk, FILE_SECTORS - 2, 0);
    has_threes(&rt);
}

// A sector and one byte of fives, and then zeros.
fn is_short(bytes: &[u8]) -> bool {
    let want = |i| if i <= SECTOR { 5 } else { 0 };
    bytes.iter().enumerate().all(|(i, byte)| *byte == want(i))
}

// Eight sectors, each filled with a byte of its own.
fn eight() -> [u8; 8 * SECTOR] {
    let mut all = [0; 8 * SECTOR];
    for (i, byte) in all.iter_mut().enumerate() {
        *byte = 1 + (i / SECTOR % 8) as u8;
    }
    all
}

#[test]
fn a_file_keeps_what_is_written(rt: HostRuntime) {
    let path = "ufs_disk_short.img";
    std::fs::write(&rt, path, [5u8; SECTOR + 1].as_slice()).expect(&rt, "not written");
    let mut disk = FileDisk::new(&rt, path);
    let mut buf = [1; 2 * SECTOR];
    let mut all = [9; 8 * SECTOR];
    holds(&rt, disk.sectors() == FILE_SECTORS);

    // It reads zeros past the file's end.
    holds(&rt, disk.read(0, &mut buf).is_ok());
    holds(&rt, is_short(&buf));
    holds(&rt, disk.write(5, &eight()).is_ok());
    holds(&rt, disk.barrier().is_ok());
    holds(&rt, disk.read(5, &mut all).is_ok());
    holds(&rt, all == eight());
    reads(&rt, &mut disk, 4, 0);
    reads(&rt, &mut disk, 13, 0);
    keeps_nines(&rt, &mut disk, FILE_SECTORS - 1);
    std::fs::remove_file(&rt, path).expect(&rt, "not removed");
}

// Asserts what a write, a read and a barrier over a file come to, and tells its path where they don't.
fn tells<R: Abort + Files<File = File> + Sync>(rt: &R, path: &str, want: [Option<u64>; 3]) {
    let mut disk = sent(FileDisk::new(rt, path));
    let found = calls(rt, &mut disk);
    assert_eq!(rt; found, want, "{path}");
}

#[test]
fn errors_of_a_file_are_told(rt: HostRuntime) {
    // A write, a read and a barrier: over a full device, over one that takes all, and over a file that can't be
    // made, since its folder is missing. A device has no sync.
    tells(&rt, "/dev/full", [Some(1), None, Some(2)]);
    tells(&rt, "/dev/null", [None, None, Some(1)]);
    let missing = "ufs_disk_missing/disk.img";
    tells(&rt, missing, [Some(1), Some(2), Some(3)]);
}

// Whether there is no such file.
fn is_missing<R: Files<File = File>>(rt: &R, path: &str) -> bool {
    std::fs::metadata(rt, path).is_err()
}

// Asserts that the disk can't have its file.
fn is_refused<R: Abort, D: Disk>(rt: &R, disk: &mut D) {
    same(rt, calls(rt, disk), [Some(1), Some(2), Some(3)]);
}

#[test]
fn a_file_is_made_by_writing(rt: HostRuntime) {
    let path = "ufs_disk_made.img";
    let mut disk = FileDisk::new(&rt, path);
    let mut late = FileDisk::new(&rt, path);
    reads(&rt, &mut disk, FILE_SECTORS - 1, 0);
    holds(&rt, disk.barrier().is_ok());
    reads(&rt, &mut late, 0, 0);
    holds(&rt, is_missing(&rt, path));

    // The other found no file, and doesn't write to one that was made since.
    keeps_nines(&rt, &mut disk, 0);
    is_refused(&rt, &mut late);
    std::fs::remove_file(&rt, path).expect(&rt, "not removed");
}

// Keeps the file at a path, and asserts that no other disk can have it meanwhile.
fn keeps_alone<R: Abort + Files<File = File>>(rt: &R, path: &str) {
    let mut disk = FileDisk::new(rt, path);
    reads(rt, &mut disk, 0, 3);
    is_refused(rt, &mut FileDisk::new(rt, path));
    keeps_nines(rt, &mut disk, 1);
}

#[test]
fn a_file_has_one_user(rt: HostRuntime) {
    let path = "ufs_disk_one.img";
    std::fs::write(&rt, path, [3u8; SECTOR].as_slice()).expect(&rt, "not written");
    keeps_alone(&rt, path);

    // Its lock ends with the disk.
    reads(&rt, &mut FileDisk::new(&rt, path), 1, 9);
    std::fs::remove_file(&rt, path).expect(&rt, "not removed");
}
