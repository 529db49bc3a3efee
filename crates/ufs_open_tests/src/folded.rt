// Images in use whose journal has a transaction: the birth of a file of five bytes in the root's first block. Home
// has none of it.
use crate::asserts::{holds, same};
use crate::images::{cause, mark_in_use, new_disk, put_name, set_sector};
use std::alloc::Global;
use ufs_base::SECTOR;
use ufs_check::check;
use ufs_disk::PlainDisk;
use ufs_load_image::load;
use ufs_metadata::RecoverFault;
use ufs_model::{PathEntry, PathNode};
use ufs_opening::{NodeHead, PathHead, tree_heads, tree_of};

// The first sector of the journal, and that of the file's block.
const JOURNAL: u32 = 32;

const BYTES: u32 = 104;

// The head of a sector of transaction 1 in epoch 1.
fn head(bytes: &mut [u8; SECTOR], index: u8, kind: u8, used: u8) {
    bytes[0] = 1;
    bytes[8] = 1;
    bytes[12] = index;
    bytes[14] = kind;
    bytes[16] = used;
}

// A record that gives an inode a kind, a size and one extent of one block.
fn put_delta(bytes: &mut [u8; SECTOR], at: usize, inode: u8, kind: u8, size: u16, block: u8) {
    if at > SECTOR - 24 {
        return;
    }
    let size = size.to_le_bytes();
    bytes[at] = 1;
    bytes[at + 1] = inode;
    bytes[at + 5] = kind;
    bytes[at + 6] = size[0];
    bytes[at + 7] = size[1];
    bytes[at + 15] = 1;
    bytes[at + 16] = block;
    bytes[at + 20] = 1;
}

// The records: the root gets block 12, whose first slot names inode 2 `f`, a file of five bytes in block 13.
fn records() -> [u8; SECTOR] {
    let mut bytes = [0; SECTOR];
    head(&mut bytes, 0, 1, 118);
    put_delta(&mut bytes, 24, 1, 2, 4_096, 12);
    put_delta(&mut bytes, 48, 2, 1, 5, 13);
    bytes[72] = 2;
    bytes[73] = 96;
    put_name(&mut bytes, 78, 2, 1, b"f");
    bytes
}

// A commit behind one record sector, with this number.
fn commit(number: u8) -> [u8; SECTOR] {
    let mut bytes = [0; SECTOR];
    head(&mut bytes, 1, 2, 12);
    bytes[24] = 1;
    bytes[28] = number;
    bytes
}

// An image in use with the records in its journal, and a commit behind them, if any.
fn image_with(alloc: Global, commit: Option<[u8; SECTOR]>) -> Option<PlainDisk> {
    let mut disk = new_disk(alloc)?;
    let mut file = [0; SECTOR];
    file[0] = b'h';
    file[1] = b'e';
    file[2] = b'l';
    file[3] = b'l';
    file[4] = b'o';
    let written = mark_in_use(&mut disk)
        && set_sector(&mut disk, JOURNAL, &records())
        && set_sector(&mut disk, BYTES, &file);
    if !written {
        return None;
    }
    match commit {
        Some(bytes) if !set_sector(&mut disk, JOURNAL + 1, &bytes) => None,
        _ => Some(disk),
    }
}

// What is found of such an image: its paths, the bytes of the second one, the transactions, the free blocks, and the
// damage.
#[derive(Clone, Copy, Debug, PartialEq, Eq)]
struct Seen {
    paths: usize,
    reads_hello: bool,
    committed: u32,
    free: u32,
    damage: usize,
}

fn is_hello(entries: &[PathEntry]) -> bool {
    if entries.len() < 2 {
        return false;
    }
    match &entries[1].node {
        PathNode::Dir => false,
        PathNode::File(bytes) => {
            entries[1].path.as_slice() == b"/f".as_slice()
                && bytes.as_slice() == b"hello".as_slice()
        }
    }
}

fn found_in(alloc: Global, disk: &mut PlainDisk) -> Option<Seen> {
    let Ok(tree) = tree_of(alloc, disk) else {
        return None;
    };
    let Ok(loaded) = load(alloc, disk) else {
        return None;
    };
    let Ok(list) = check(alloc, disk) else {
        return None;
    };
    Some(Seen {
        paths: tree.as_slice().len(),
        reads_hello: is_hello(tree.as_slice()),
        committed: loaded.volume.committed,
        free: loaded.free.count(),
        damage: list.as_slice().len(),
    })
}

fn seen_with(alloc: Global, commit: Option<[u8; SECTOR]>) -> Option<Seen> {
    let mut disk = image_with(alloc, commit)?;
    found_in(alloc, &mut disk)
}

#[test]
fn a_committed_birth_is_read(rt: HostRuntime) {
    let born = Seen {
        paths: 2,
        reads_hello: true,
        committed: 1,
        free: 50,
        damage: 0,
    };
    same(&rt, seen_with(rt.alloc(), Some(commit(1))), Some(born));
}

#[test]
fn a_birth_without_its_commit_is_not_there(rt: HostRuntime) {
    let unborn = Seen {
        paths: 1,
        reads_hello: false,
        committed: 0,
        free: 52,
        damage: 0,
    };
    same(&rt, seen_with(rt.alloc(), None), Some(unborn));
}

// The cause for which it isn't opened.
fn cause_with(alloc: Global, bytes: [u8; SECTOR]) -> Option<RecoverFault> {
    let mut disk = image_with(alloc, Some(bytes))?;
    cause(alloc, &mut disk)
}

#[test]
fn a_commit_number_that_was_given_before_is_off(rt: HostRuntime) {
    let found = cause_with(rt.alloc(), commit(0));
    same(&rt, found, Some(RecoverFault::BadRecord { sector: 33 }));
}

// The first bytes of the second path, and its size.
fn is_front(heads: &[PathHead], wanted: &[u8]) -> bool {
    if heads.len() < 2 {
        return false;
    }
    match &heads[1].node {
        NodeHead::Dir => false,
        NodeHead::File { size, front } => *size == 5 && front.as_slice() == wanted,
    }
}

fn has_front(alloc: Global, most: usize, wanted: &[u8]) -> bool {
    let Some(mut disk) = image_with(alloc, Some(commit(1))) else {
        return false;
    };
    match tree_heads(alloc, &mut disk, Some(most)) {
        Ok(heads) => is_front(heads.as_slice(), wanted),
        Err(_) => false,
    }
}

#[test]
fn heads_have_the_first_bytes(rt: HostRuntime) {
    holds(&rt, has_front(rt.alloc(), 3, b"hel"));
    holds(&rt, has_front(rt.alloc(), 64, b"hello"));
    holds(&rt, has_front(rt.alloc(), 0, b""));
}
