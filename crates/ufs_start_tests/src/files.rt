// The size and the blocks of a file that an image has: `/f` is inode 2 of a new image whose root lies in block 40, in the blocks
// from 20 on. Nothing is read of it.
use crate::images::{ROOT, SECOND, file, inode, name, new_disk, set_sector};
use std::alloc::Global;
use std::test::Fail;
use ufs_base::SECTOR;
use ufs_disk::PlainDisk;
use ufs_files::FileHands;
use ufs_start::{Start, StartFault, start_of};

// The number of the file.
const FILE: u32 = 0;

fn set_file(disk: &mut PlainDisk, form: &[u8; SECTOR]) -> bool {
    set_sector(disk, 320, &name(2, 1, b'f'))
        && set_sector(disk, ROOT, &inode(2, 40, 1, 4096))
        && set_sector(disk, SECOND, form)
}

// What a server begins with where inode 2 is this file, or why with nothing.
fn start_with(alloc: Global, form: &[u8; SECTOR]) -> Option<Result<Start, StartFault>> {
    let mut disk = new_disk(alloc)?;
    if !set_file(&mut disk, form) {
        return None;
    }
    Some(start_of(alloc, &mut disk))
}

// Its inode and size, and the number of its second block.
fn laid(files: &FileHands) -> Option<(u32, u64, u32)> {
    let hand = files.get(FILE)?;
    Some((hand.inode(), hand.size(), hand.block_number(1)?))
}

// Whether a block of it is in memory, and whether it is to be written.
fn marks(files: &FileHands, place: usize) -> Option<(bool, bool)> {
    let hand = files.get(FILE)?;
    Some((hand.is_there(place)?, hand.is_dirty(place)?))
}

fn laid_with(alloc: Global, form: &[u8; SECTOR]) -> Option<(u32, u64, u32)> {
    match start_with(alloc, form)? {
        Ok(start) => laid(&start.files),
        Err(_) => None,
    }
}

fn marks_with(alloc: Global, form: &[u8; SECTOR], place: usize) -> Option<(bool, bool)> {
    match start_with(alloc, form)? {
        Ok(start) => marks(&start.files, place),
        Err(_) => None,
    }
}

fn fault_with(alloc: Global, form: &[u8; SECTOR]) -> Option<StartFault> {
    match start_with(alloc, form)? {
        Ok(_start) => None,
        Err(fault) => Some(fault),
    }
}

#[test]
fn a_file_lies_where_its_inode_says(rt: HostRuntime) -> Result<(), Fail> {
    assert!(rt; laid_with(rt.alloc(), &file(20, 2, 5000)) == Some((2, 5000, 21)));
    assert!(rt; laid_with(rt.alloc(), &file(20, 2, 8192)) == Some((2, 8192, 21)));
    Ok(())
}

#[test]
fn nothing_of_a_file_is_in_memory_nor_to_be_written(rt: HostRuntime) -> Result<(), Fail> {
    let form = file(20, 2, 5000);
    assert!(rt; marks_with(rt.alloc(), &form, 0) == Some((false, false)));
    assert!(rt; marks_with(rt.alloc(), &form, 1) == Some((false, false)));
    assert!(rt; marks_with(rt.alloc(), &form, 2) == None);
    Ok(())
}

#[test]
fn a_file_with_a_block_too_many_is_refused(rt: HostRuntime) -> Result<(), Fail> {
    let wanted = Some(StartFault::ExtraBlocks { inode: 2 });
    assert!(rt; fault_with(rt.alloc(), &file(20, 3, 5000)) == wanted);
    assert!(rt; fault_with(rt.alloc(), &file(20, 1, 0)) == wanted);
    assert!(rt; fault_with(rt.alloc(), &file(20, 3, 8193)) == None);
    Ok(())
}
