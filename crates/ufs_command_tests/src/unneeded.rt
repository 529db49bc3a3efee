// Sessions over clean images in which inodes are used that no path names, or a file has a block too many: they are served, and
// have these blocks.
use crate::calls::{Call, check_calls, check_new, playing};
use crate::trees::{INODES, check, making_small, put_sector, sector_of, tree};
use std::process::Abort;
use ufs_disk::PlainDisk;

// The bitmap: the twelve blocks before the data area, and blocks 50, 51 and 52.
const BITS: [(usize, u8); 3] = [(0, 255), (1, 15), (6, 28)];

// A file of five bytes and a directory, with blocks 50 and 51, that no name stands for.
const FILE: [(usize, u8); 6] = [(0, 1), (1, 1), (2, 1), (8, 5), (64, 50), (68, 1)];

const DIRECTORY: [(usize, u8); 6] = [(0, 2), (1, 1), (2, 1), (9, 16), (64, 51), (68, 1)];

// The directory's file, with block 52: the fourth inode, by the name `h`.
const INSIDE: [(usize, u8); 6] = [(0, 1), (1, 1), (2, 1), (8, 5), (64, 52), (68, 1)];

const NAME: [(usize, u8); 4] = [(0, 4), (4, 1), (5, 1), (6, 104)];

// It takes each of the 52 blocks for data: the root has one.
const FILLING: &str = "client 0\nopen /f rw creat\nwrite 3 208896*61\nend\n";

const FILLED: &str =
    "dir /\nfile /f 208896 61616161616161616161616161616161616161616161616161616161616161616161616161616161616161616161616161616161616161616161616161616161+\n";

// Puts them into a new image of 64 blocks.
fn put_unnamed(rt: &impl Abort, disk: &mut PlainDisk) {
    put_sector(rt, disk, 8, &sector_of(&BITS));
    put_sector(rt, disk, INODES + 1, &sector_of(&FILE));
    put_sector(rt, disk, INODES + 2, &sector_of(&DIRECTORY));
    put_sector(rt, disk, INODES + 3, &sector_of(&INSIDE));
    put_sector(rt, disk, 8 * 51, &sector_of(&NAME));
}

fn unnamed_calls() -> [Call<'static>; 4] {
    [
        check(0, "clean\n"),
        playing(FILLING, 0, "0.0 fd 3\n0.1 n 208896\n"),
        check(0, "clean\n"),
        tree(0, FILLED),
    ]
}

// The root with block 52, in which `f` is the second inode, a file of five bytes with blocks 50 and 51.
const ROOT: [(usize, u8); 6] = [(0, 2), (1, 1), (2, 1), (9, 16), (64, 52), (68, 1)];

const LONG: [(usize, u8); 6] = [(0, 1), (1, 1), (2, 1), (8, 5), (64, 50), (68, 2)];

const ENTRY: [(usize, u8); 4] = [(0, 2), (4, 1), (5, 1), (6, 102)];

// It takes each of the 52 blocks for data but the root's and one for `/f`.
const FILLING_MORE: &str = "client 0\nopen /g rw creat\nwrite 3 204800*61\nend\n";

const FILLED_MORE: &str =
    "dir /\nfile /f 5 0000000000\nfile /g 204800 61616161616161616161616161616161616161616161616161616161616161616161616161616161616161616161616161616161616161616161616161616161+\n";

// Puts it into a new image of 64 blocks.
fn put_long(rt: &impl Abort, disk: &mut PlainDisk) {
    put_sector(rt, disk, 8, &sector_of(&BITS));
    put_sector(rt, disk, INODES, &sector_of(&ROOT));
    put_sector(rt, disk, INODES + 1, &sector_of(&LONG));
    put_sector(rt, disk, 8 * 52, &sector_of(&ENTRY));
}

fn long_calls() -> [Call<'static>; 4] {
    [
        check(0, "clean\n"),
        playing(FILLING_MORE, 0, "0.0 fd 3\n0.1 n 204800\n"),
        check(0, "clean\n"),
        tree(0, FILLED_MORE),
    ]
}

#[test]
fn what_no_path_names_is_freed_for_a_session(rt: HostRuntime) {
    let mut disk = check_new(&rt, 512, &[making_small()]);
    put_unnamed(&rt, &mut disk);
    check_calls(&rt, &unnamed_calls(), disk);
}

#[test]
fn a_block_too_many_is_freed_for_a_session(rt: HostRuntime) {
    let mut disk = check_new(&rt, 512, &[making_small()]);
    put_long(&rt, &mut disk);
    check_calls(&rt, &long_calls(), disk);
}
