// The words, the images, and sources, sinks and disks that fail.
use crate::asserts::{holds, same};
use crate::calls::{Call, bytes, calm, check_new, check_over, memory_disk, words};
use crate::rows::repeated;
use std::alloc::AllocGlobal;
use std::process::Abort;
use ufs_base::SECTOR;
use ufs_command::{WordsFault, image_of, quiet, respond};
use ufs_disk::{Disk, FILE_SECTORS, FileDisk};
use ufs_io::{MemorySink, PlainSource};

const FIRST: &str =
    "client 0\nmkdir /d\nopen /f rw creat\nopen /d rw creat\nwrite 3 6162\nopen /f r creat\nread 4 9\nwrite 4 61\nclose 3\nread 3 1\nmkdir /f\nend\n";

const FIRST_REPLIES: &str =
    "0.0 ok\n0.1 fd 3\n0.2 err EISDIR\n0.3 n 2\n0.4 fd 4\n0.5 data 6162\n0.6 err EBADF\n0.7 ok\n0.8 err EBADF\n0.9 err EEXIST\n";

const USAGE: &str = "usage: ufs COMMAND [WORDS]\n";

const NOT_BUILT: &str = "ufs: line 0: NotBuilt\n";

const TOO_SMALL: &str = "ufs: image: BadGeometry 5\n";

const NO_SUPERBLOCK: &str = "ufs: image: NoSuperblock\n";

const SOURCE_FAULT: &str = "ufs: source fault\n";

// An audit of a script behind which no text stands.
const NO_TEXT: &str = "ufs: audit: ticket 0: Text\n";

const MADE: &str = "made 256 32 64 242\n";

const MKFS: &[&str] = &["mkfs", "256", "32", "64"];

// The first bytes of the superblock after `mkfs 256 32 64`.
const SUPERBLOCK: [u8; 41] = [
    0x75, 0x46, 0x53, 0x49, 0x4d, 0x47, 0x30, 0x31, 1, 0, 0, 0, 0, 1, 0, 0, 32, 0, 0, 0, 64, 0, 0,
    0, 1, 0, 0, 0, 0, 0, 0, 0, 1, 0, 0, 0, 0, 0, 0, 0, 1,
];

// Words, and the status and the text that they get where nothing is read: the first read fails.
const UNREAD: [(&[&str], u8, &str); 51] = [
    (&[], 1, USAGE),
    (&["frob"], 1, USAGE),
    (&["mkfs"], 1, USAGE),
    (&["mkfs", "1"], 1, USAGE),
    (&["mkfs", "256", "32"], 1, USAGE),
    (&["mkfs", "256", "32", "64", "64"], 1, USAGE),
    (&["mkfs", "4294967296", "32", "64"], 1, USAGE),
    (&["mkfs", "256", "32", "64", "--trace"], 1, USAGE),
    (&["play", "--trace", "--trace"], 1, USAGE),
    (&["play", "--trace", "--trace", "--image", "f"], 1, USAGE),
    (&["play", "--lease", "1001"], 1, USAGE),
    (&["play", "--image"], 1, USAGE),
    (&["recover", "--lease", "1"], 1, USAGE),
    (&["bench", "4294967296"], 1, USAGE),
    (&["run", "1"], 1, USAGE),
    (&["run", "9"], 1, USAGE),
    (&["help"], 1, USAGE),
    (&["play", "--help"], 1, USAGE),
    (&["play", "--trace=true"], 1, USAGE),
    (&["play", "--lease=-1"], 1, USAGE),
    (&["play", "--image", "a", "--image=b"], 1, USAGE),
    (&["play", "--image="], 1, USAGE),
    (&["play", "--image", ""], 1, USAGE),
    (&["--image", "f", "play"], 1, USAGE),
    (&["mkfs", "+64", "16", "64"], 1, USAGE),
    (&["mkfs", "-64", "16", "64"], 1, USAGE),
    (&["mkfs", "00000000064", "16", "64"], 1, USAGE),
    (&["bench"], 1, USAGE),
    (&["audit", "1"], 1, USAGE),
    (&["play", "--mirror", "g", "--mirror=h"], 1, USAGE),
    (&["tree"], 3, NO_SUPERBLOCK),
    (&["tree", "--trace"], 1, USAGE),
    (&["recover", "--image", "f"], 3, NO_SUPERBLOCK),
    (&["check"], 3, NO_SUPERBLOCK),
    (&["audit"], 3, NO_SUPERBLOCK),
    (&["audit", "--trace"], 1, USAGE),
    (&["check", "--lease", "1"], 1, USAGE),
    (&["bench", "0000000007", "--lease", "0"], 2, NOT_BUILT),
    (&["play", "--lease", "1000", "--trace"], 2, NOT_BUILT),
    (&["play", "--trace", "--image", "--trace"], 1, USAGE),
    (&["play", "--image=--trace", "--trace"], 6, SOURCE_FAULT),
    (
        &["mkfs", "--image=f", "0064", "16", "--", "64"],
        0,
        "made 64 16 64 52\n",
    ),
    (&["mkfs", "64", "16", "64"], 0, "made 64 16 64 52\n"),
    (&["mkfs", "63", "16", "64"], 1, "ufs: bad geometry 1\n"),
    (&["mkfs", "64", "15", "64"], 1, "ufs: bad geometry 2\n"),
    (&["mkfs", "64", "16", "63"], 1, "ufs: bad geometry 3\n"),
    (&["mkfs", "64", "4096", "64"], 1, "ufs: bad geometry 4\n"),
    (&["mkfs", "257", "32", "64"], 3, TOO_SMALL),
    (&["mkfs", "--image=f", "256", "032", "64"], 0, MADE),
    (&["bench", "1"], 3, TOO_SMALL),
    (&["bench", "--image=f", "4294967295"], 3, TOO_SMALL),
];

// Words, the numbers of the reads and of the writes that fail, and the status and the text, over a new image. Lines that fill
// no piece go out by one write.
const FAULTS: [(&[&str], &[u64], &[u64], u8, &str); 13] = [
    (&["play"], &[], &[], 0, FIRST_REPLIES),
    (&["play", "--image", "f"], &[], &[], 0, FIRST_REPLIES),
    (&["play"], &[0], &[], 6, SOURCE_FAULT),
    (&["play"], &[1], &[], 6, SOURCE_FAULT),
    (&["play"], &[], &[0], 7, ""),
    (&["play"], &[], &[1], 0, FIRST_REPLIES),
    (&["play"], &[0], &[0], 7, ""),
    (&["play", "--trace"], &[], &[0], 7, ""),
    (&["audit"], &[], &[], 9, NO_TEXT),
    (&["audit"], &[0], &[], 6, SOURCE_FAULT),
    (&["audit"], &[0], &[0], 7, ""),
    (MKFS, &[], &[0], 7, ""),
    (&["frob"], &[0], &[0], 7, ""),
];

const NO_FILE: &str = "ufs_command_none.img";

// Words over a script that breaks, their status, and no file is made.
const UNTOUCHED: [(&[&str], u8); 8] = [
    (&["tree", "--image", NO_FILE], 3),
    (&["check", "--image", NO_FILE], 3),
    (&["recover", "--image", NO_FILE], 3),
    (&["audit", "--image", NO_FILE], 3),
    (&["frob", "--image", NO_FILE], 1),
    (&["mkfs", "63", "16", "64", "--image", NO_FILE], 1),
    (&["play", "--image", NO_FILE], 2),
    (&["play"], 1),
];

#[test]
fn words_are_read_by_their_grammar(rt: HostRuntime) {
    for (words, status, text) in &UNREAD {
        let call = Call {
            script: FIRST,
            reads: &[0],
            ..calm(words, *status, text)
        };
        check_new(&rt, 2_048, &[call]);
    }
}

#[test]
fn faults_are_answered(rt: HostRuntime) {
    for (words, reads, writes, status, text) in &FAULTS {
        let call = Call {
            words: *words,
            script: FIRST,
            reads: *reads,
            writes: *writes,
            status: *status,
            text: *text,
        };
        check_new(&rt, 2_048, &[making(0, MADE), call]);
    }
}

// Asserts which word names the image.
fn names(rt: &impl Abort, words: &Vec<String>, wanted: Option<&str>) {
    assert_eq!(rt; image_of(words), wanted);
}

#[test]
fn the_image_is_the_word_behind_its_option(rt: HostRuntime) {
    let rows: [(&[&str], Option<&str>); 6] = [
        (&[], None),
        (&["--image"], None),
        (&["mkfs", "--image", "a"], Some("a")),
        (&["--image", "a", "--image=b"], Some("a")),
        (&["play", "--image=a=b", "--image", "c"], Some("a=b")),
        (&["play", "--image", "--image"], Some("--image")),
    ];
    for (line, wanted) in &rows {
        names(&rt, &words(&rt, line), *wanted);
    }
}

// `mkfs 256 32 64` in calm.
fn making(status: u8, text: &str) -> Call<'_> {
    calm(MKFS, status, text)
}

// Makes it over a disk of zeros, of whose calls those of these numbers fail.
fn check_making<R: Abort + AllocGlobal>(rt: &R, fails: &[u64], status: u8, text: &str) {
    let zeros = check_new(rt, 2_048, &[]);
    let disk = memory_disk(rt, 2_048, zeros.bytes.as_slice(), fails);
    check_over(rt, &making(status, text), disk);
}

#[test]
fn a_fault_of_the_disk_is_told(rt: HostRuntime) {
    let rows: [(&[u64], u8, &str); 5] = [
        (&[], 0, MADE),
        (&[0], 4, "ufs: device fault 1\n"),
        (&[1], 4, "ufs: device fault 1\n"),
        (&[2], 4, "ufs: device fault 1\n"),
        (&[15], 4, "ufs: device fault 1\n"),
    ];
    for (fails, status, text) in rows {
        check_making(&rt, fails, status, text);
    }
    check_new(&rt, 2_047, &[making(3, TOO_SMALL)]);
}

// What a disk has in a sector.
fn sector<D: Disk>(rt: &impl Abort, disk: &mut D, at: u32) -> [u8; SECTOR] {
    let mut sector = [0; SECTOR];
    holds(rt, at < disk.sectors());
    holds(rt, disk.read(at, &mut sector).is_ok());
    sector
}

// Whether two disks have the same first sectors.
fn are_alike<C: Disk, D: Disk>(rt: &impl Abort, one: &mut C, other: &mut D, count: u32) -> bool {
    for at in 0..count {
        if sector(rt, one, at) != sector(rt, other, at) {
            return false;
        }
    }
    true
}

#[test]
fn an_image_in_a_file_is_the_one_in_memory(rt: HostRuntime) {
    let path = "ufs_command_made.img";
    let mut file = check_over(&rt, &making(0, MADE), FileDisk::new(&rt, path));
    let mut plain = check_new(&rt, FILE_SECTORS, &[making(0, MADE)]);
    holds(&rt, are_alike(&rt, &mut file, &mut plain, 2_048));
    std::fs::remove_file(&rt, path).expect(&rt, "not removed");
    holds(&rt, sector(&rt, &mut plain, 0).starts_with(&SUPERBLOCK));
}

#[test]
fn no_file_is_made_where_none_is_touched(rt: HostRuntime) {
    for (line, status) in &UNTOUCHED {
        let words: Result<Vec<String>, WordsFault> = Ok(words(&rt, line));
        let mut source = PlainSource::new(bytes(&rt, "frob"));
        let mut sink = MemorySink::new(rt.alloc(), Vec::new(rt.alloc()));
        let disk = FileDisk::new(&rt, NO_FILE);
        let outcome = respond(rt.alloc(), &words, &mut source, &mut sink, disk);
        same(&rt, outcome.status, *status);
        holds(&rt, std::fs::metadata(&rt, NO_FILE).is_err());
    }
}

// 65,000 requests, whose lines are 14 bytes and less.
const MANY: &[(&str, u32)] = &[("client 0\n", 1), ("stat /\n", 65_000), ("end\n", 1)];

// Replies of 9 and 12 bytes, and two of 80,010, which are longer than a piece.
const LONG: &[(&str, u32)] = &[
    ("client 0\nopen /f rw creat\nwrite 3 40000*61\n", 1),
    ("pread 3 40000 0\n", 2),
    ("end\n", 1),
];

// Scripts, the numbers of the writes that fail, the status, how many bytes the sink got, and by how many writes.
type Row = (
    &'static [(&'static str, u32)],
    &'static [u64],
    u8,
    usize,
    u64,
);

const WRITES: [Row; 8] = [
    (MANY, &[], 0, 898_890, 14),
    (MANY, &[7], 7, 458_730, 8),
    (MANY, &[13], 7, 851_934, 14),
    (LONG, &[], 0, 160_041, 5),
    (LONG, &[0], 7, 0, 1),
    (LONG, &[1], 7, 21, 2),
    (LONG, &[2], 7, 65_557, 3),
    (LONG, &[4], 7, 145_567, 5),
];

// What a sink got of a script that was played over a new image.
#[derive(Drop)]
struct Got {
    status: u8,
    bytes: Vec<u8>,
    writes: u64,
}

fn play<R: Abort + AllocGlobal>(rt: &R, script: &str, fails: &[u64]) -> Got {
    let disk = check_new(rt, 2_048, &[making(0, MADE)]);
    let words = words(rt, &["play"]);
    let mut source = PlainSource::new(bytes(rt, script));
    let fails = fails.to_vec(rt.alloc()).expect(rt, "memory");
    let mut sink = MemorySink::new(rt.alloc(), fails);
    let outcome = quiet(rt.alloc(), &words, &mut source, &mut sink, disk);
    Got {
        status: outcome.status,
        bytes: sink.bytes().to_vec(rt.alloc()).expect(rt, "memory"),
        writes: sink.calls(),
    }
}

// Plays a script where no write fails, and where some do: what the sink has then is a front of what it has else.
fn check_writes<R: Abort + AllocGlobal>(rt: &R, script: &str, fails: &[u64]) -> (u8, usize, u64) {
    let whole = play(rt, script, &[]);
    let got = play(rt, script, fails);
    holds(rt, whole.bytes.starts_with(got.bytes.as_slice()));
    (got.status, got.bytes.len(), got.writes)
}

#[test]
fn lines_go_out_in_pieces(rt: HostRuntime) {
    for (texts, fails, status, bytes, writes) in &WRITES {
        let script = repeated(&rt, texts);
        let got = check_writes(&rt, script.as_str(), fails);
        same(&rt, got, (*status, *bytes, *writes));
    }
}
