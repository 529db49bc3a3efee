// The blocks of a directory: what no clause says, and each call once.
use std::alloc::Global;
use ufs_base::{MAX_BLOCKS, Memory};
use ufs_dirs::{BlockFault, DirBlocks, Slot, SlotFault};
use ufs_layout::Dentry;

// Whether the block came in.
fn add(dir: &mut DirBlocks, block: u32) -> Result<bool, Memory> {
    if block >= MAX_BLOCKS || dir.has_block(block) {
        return Ok(false);
    }
    dir.add_block(block)?;
    Ok(true)
}

// The slot that the name got; none where it is there or no slot is free.
fn insert(dir: &mut DirBlocks, inode: u32, name: &[u8]) -> Option<Slot> {
    if name.is_empty() || name.len() > 58 || dir.find(name).is_some() {
        return None;
    }
    dir.insert(Dentry::from_name(inode, 1, name)).ok()
}

// Whether the name came into the slot.
fn place(dir: &mut DirBlocks, slot: Slot, inode: u32, name: &[u8]) -> bool {
    if name.is_empty() || name.len() > 58 || dir.find(name).is_some() {
        return false;
    }
    if !dir.is_free(slot) {
        return false;
    }
    dir.place(slot, Dentry::from_name(inode, 1, name));
    true
}

// The slot that the name had.
fn remove(dir: &mut DirBlocks, name: &[u8]) -> Option<Slot> {
    if dir.find(name).is_none() {
        return None;
    }
    Some(dir.remove(name))
}

// A directory of one block with these bytes.
fn read(alloc: Global, bytes: &[u8]) -> Result<DirBlocks, BlockFault> {
    if bytes.len() != 4096 {
        return Err(BlockFault::NoMemory);
    }
    DirBlocks::new(alloc).with_block(9, bytes)
}

// The first block's bytes.
fn first_bytes(dir: &DirBlocks) -> [u8; 4096] {
    let mut bytes = [1; 4096];
    if !dir.blocks().is_empty() {
        dir.block_bytes(0, &mut bytes);
    }
    bytes
}

// The number of the name's inode, 0 for none.
fn inode_of(entry: Option<Dentry>) -> u32 {
    match entry {
        Some(entry) => entry.inode,
        None => 0,
    }
}

// The name of the rank; no byte where there is none.
fn name_at(dir: &DirBlocks, rank: usize) -> &[u8] {
    if rank < dir.count() as usize {
        dir.name_at(rank)
    } else {
        &[]
    }
}

fn insert_or_remove(dir: &mut DirBlocks, comes: bool, name: &[u8]) -> Option<Slot> {
    if comes {
        insert(dir, 9, name)
    } else {
        remove(dir, name)
    }
}

#[test]
fn lowest_slot_is_taken_again(rt: HostRuntime) -> Result<(), Memory> {
    let mut dir = DirBlocks::new(rt.alloc());
    add(&mut dir, 20)?;
    for k in 0..64u8 {
        let slot = Slot {
            sector: 160 + u32::from(k / 8),
            slot: k % 8,
        };
        assert_eq!(rt; insert(&mut dir, 2, &[b'a', 200 - k]), Some(slot));
    }
    let full = insert(&mut dir, 3, b"full");
    add(&mut dir, 14)?;
    let first = Slot {
        sector: 112,
        slot: 0,
    };
    let freed = Slot {
        sector: 161,
        slot: 2,
    };
    let higher = Slot {
        sector: 162,
        slot: 4,
    };
    let second = Slot {
        sector: 112,
        slot: 1,
    };
    let rows: [(bool, &[u8], Option<Slot>); 10] = [
        (true, b"next", Some(first)),
        (false, &[b'a', 180], Some(higher)),
        (false, &[b'a', 190], Some(freed)),
        (false, &[b'a', 190], None),
        (true, b"again", Some(freed)),
        (true, b"above", Some(higher)),
        (true, b"last", Some(second)),
        (false, b"again", Some(freed)),
        (false, b"above", Some(higher)),
        (true, b"once more", Some(freed)),
    ];
    for (comes, name, slot) in rows {
        assert_eq!(rt; insert_or_remove(&mut dir, comes, name), slot);
    }
    assert_eq!(rt; (full, dir.count()), (None, 65));
    Ok(())
}

#[test]
fn names_come_in_byte_order(rt: HostRuntime) -> Result<(), Memory> {
    let mut dir = DirBlocks::new(rt.alloc());
    let was_empty = dir.is_empty();
    add(&mut dir, 7)?;
    for (sector, slot, comes) in [
        (58, 5, true),
        (58, 5, false),
        (58, 8, false),
        (64, 0, false),
    ] {
        let came = place(&mut dir, Slot { sector, slot }, 4, &[b'b', slot]);
        assert_eq!(rt; came, comes);
    }
    insert(&mut dir, 5, b"ab");
    insert(&mut dir, 6, b"a");
    let rows: [(&[u8], u32); 5] = [(b"", 6), (b"a", 5), (b"aa", 5), (b"ab", 4), (b"b\x05", 0)];
    for (after, inode) in rows {
        assert_eq!(rt; inode_of(dir.next_name(after)), inode);
    }
    let names: [&[u8]; 4] = [b"a", b"ab", b"b\x05", b""];
    for (rank, name) in names.into_iter().enumerate() {
        assert!(rt; name_at(&dir, rank) == name);
    }
    let found = (inode_of(dir.find(b"ab")), inode_of(dir.find(b"b")));
    assert_eq!(rt; (was_empty, dir.is_empty(), found), (true, false, (5, 0)));
    Ok(())
}

// A block with `b` in slot 3, and with this name in slot 63.
fn two_names(name: u8) -> [u8; 4096] {
    let mut bytes = [0; 4096];
    for (at, inode, name) in [(192, 7, b'b'), (4032, 8, name)] {
        let entry = [inode, 0, 0, 0, 1, 1, name];
        bytes[at..at + 7].copy_from_slice(&entry);
    }
    bytes
}

#[test]
fn blocks_are_read_back(rt: HostRuntime) -> Result<(), BlockFault> {
    let mut bytes = two_names(b'a');
    let dir = read(rt.alloc(), &bytes)?;
    assert_eq!(rt; (dir.count(), inode_of(dir.next_name(b""))), (2, 8));
    assert!(rt; first_bytes(&dir) == bytes);
    let twice = BlockFault::BadSlot(63, SlotFault::NameTwice);
    assert_eq!(rt; read(rt.alloc(), &two_names(b'b')).err(), Some(twice));
    bytes[70] = 1;
    let off = BlockFault::BadSlot(1, SlotFault::OffForm);
    assert_eq!(rt; read(rt.alloc(), &bytes).err(), Some(off));
    Ok(())
}
