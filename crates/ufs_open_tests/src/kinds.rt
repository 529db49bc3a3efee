// One image for each kind of damage of a tree: what its check tells, and the inode for which it isn't opened.
use crate::asserts::holds;
use crate::images::{ROOT, cause, inode, mark_in_use, new_disk, put_name, set_sector};
use std::alloc::Global;
use ufs_base::SECTOR;
use ufs_check::check;
use ufs_damage::Damage;
use ufs_disk::PlainDisk;
use ufs_metadata::RecoverFault;

// The first sector of the root's block, which has its first eight slots.
const SLOTS: u32 = 96;

// An inode with one extent.
#[derive(Clone, Copy)]
struct Node {
    kind: u8,
    start: u8,
    length: u8,
    size: u16,
}

// A dentry of a file; a free slot has no name.
#[derive(Clone, Copy)]
struct Name {
    inode: u8,
    name: &'static [u8],
}

// Inodes 2 and 3, the first two slots of the root, the damage, and who is blamed for it.
#[derive(Clone, Copy)]
struct Row {
    second: Node,
    third: Node,
    names: (Name, Name),
    damage: Damage,
    blamed: u32,
}

fn sector(node: Node) -> [u8; SECTOR] {
    inode(node.kind, node.start, node.length, node.size)
}

fn slots(names: (Name, Name)) -> [u8; SECTOR] {
    let mut bytes = [0; SECTOR];
    if !names.0.name.is_empty() {
        put_name(&mut bytes, 0, names.0.inode, 1, names.0.name);
    }
    if !names.1.name.is_empty() {
        put_name(&mut bytes, 64, names.1.inode, 1, names.1.name);
    }
    bytes
}

// An image in use whose root has one block with the row's slots.
fn image_of(alloc: Global, row: &Row) -> Option<PlainDisk> {
    let mut disk = new_disk(alloc)?;
    let written = mark_in_use(&mut disk)
        && set_sector(&mut disk, ROOT, &inode(2, 12, 1, 4_096))
        && set_sector(&mut disk, ROOT + 1, &sector(row.second))
        && set_sector(&mut disk, ROOT + 2, &sector(row.third))
        && set_sector(&mut disk, SLOTS, &slots(row.names));
    if !written {
        return None;
    }
    Some(disk)
}

// The check tells this damage alone, and opening blames the inode.
fn tells(alloc: Global, row: &Row) -> bool {
    let Some(mut disk) = image_of(alloc, row) else {
        return false;
    };
    let listed = match check(alloc, &mut disk) {
        Ok(list) => list.as_slice() == [row.damage].as_slice(),
        Err(_) => false,
    };
    listed && cause(alloc, &mut disk) == Some(RecoverFault::BadTree { inode: row.blamed })
}

// A file of ten bytes in block 13.
const ONE: Node = Node {
    kind: 1,
    start: 13,
    length: 1,
    size: 10,
};

// An empty file that holds block 14.
const OTHER: Node = Node {
    kind: 1,
    start: 14,
    length: 1,
    size: 0,
};

const FREE: Name = Name {
    inode: 0,
    name: b"",
};

fn file(start: u8, length: u8, size: u16) -> Node {
    Node {
        kind: 1,
        start,
        length,
        size,
    }
}

fn named(inode: u8, name: &'static [u8]) -> Name {
    Name { inode, name }
}

// The same for a row whose third inode is the other file.
fn with_other(second: Node, names: (Name, Name), damage: Damage, blamed: u32) -> Row {
    Row {
        second,
        third: OTHER,
        names,
        damage,
        blamed,
    }
}

#[test]
fn each_damage_of_an_inode_is_told_and_blamed(rt: HostRuntime) {
    let off = Node { kind: 3, ..ONE };
    let none = (FREE, FREE);
    let shared = Damage::SharedBlock {
        block: 14,
        first: 2,
        second: 3,
    };
    let rows = [
        with_other(off, none, Damage::BadInode { inode: 2 }, 2),
        with_other(file(63, 2, 0), none, Damage::BadExtent { inode: 2 }, 2),
        with_other(file(13, 2, 0), none, shared, 2),
        with_other(
            file(13, 1, 4_097),
            none,
            Damage::ShortExtents { inode: 2 },
            2,
        ),
    ];
    for row in &rows {
        holds(&rt, tells(rt.alloc(), row));
    }
}

#[test]
fn each_damage_of_a_name_is_told_and_blamed(rt: HostRuntime) {
    let dots = (named(2, b".."), FREE);
    let free = (named(5, b"f"), FREE);
    let twice = (named(2, b"f"), named(3, b"f"));
    let both = (named(2, b"f"), named(2, b"g"));
    let missing = Damage::FreeInode {
        dir: 1,
        slot: 0,
        inode: 5,
    };
    let rows = [
        with_other(ONE, dots, Damage::BadDentry { dir: 1, slot: 0 }, 1),
        with_other(ONE, free, missing, 1),
        with_other(ONE, twice, Damage::NameTwice { dir: 1, slot: 1 }, 1),
        with_other(ONE, both, Damage::TwoNames { inode: 2 }, 2),
    ];
    for row in &rows {
        holds(&rt, tells(rt.alloc(), row));
    }
}
