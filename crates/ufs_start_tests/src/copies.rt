// A copy has what the names of the image use, and zeros in the place of the rest.
use crate::images::{DATA, SECTORS, new_disk_of, set_sector, tree_disk};
use std::alloc::Global;
use std::test::Fail;
use ufs_base::SECTOR;
use ufs_disk::{Disk, PlainDisk};
use ufs_front::FrontDisk;
use ufs_start::copy_of;

fn copied(alloc: Global, disk: &mut PlainDisk) -> Option<FrontDisk> {
    match copy_of(alloc, disk) {
        Ok(copy) => Some(copy),
        Err(_) => None,
    }
}

// Whether the sector of a disk has this byte all over; none where the disk ends before it.
fn is_full_of(disk: &mut FrontDisk, sector: u32, byte: u8) -> Option<bool> {
    if sector >= disk.sectors() {
        return None;
    }
    let mut bytes = [0; SECTOR];
    match disk.read(sector, &mut bytes) {
        Ok(()) => Some(bytes == [byte; SECTOR]),
        Err(_) => None,
    }
}

// Whether a copy of a new image on a larger disk has this byte all over a sector. The image has other bytes in its first
// block, in the last sector before its data, in the first one of it, which no directory has, and behind its end.
fn copy_has(alloc: Global, sector: u32, byte: u8) -> Option<bool> {
    let mut disk = new_disk_of(alloc, SECTORS + 8)?;
    let set = set_sector(&mut disk, 7, &[3; SECTOR])
        && set_sector(&mut disk, DATA - 1, &[4; SECTOR])
        && set_sector(&mut disk, DATA, &[5; SECTOR])
        && set_sector(&mut disk, SECTORS, &[6; SECTOR]);
    if !set {
        return None;
    }
    let mut copy = copied(alloc, &mut disk)?;
    is_full_of(&mut copy, sector, byte)
}

// How many bytes a copy of a new image holds, of a disk of so many sectors.
fn held_of_new(alloc: Global, sectors: u32) -> Option<usize> {
    let mut disk = new_disk_of(alloc, sectors)?;
    let copy = copied(alloc, &mut disk)?;
    Some(copy.held.len())
}

// How many bytes a copy holds of the image with a directory and two files, and whether a sector of it has this byte all over.
fn held_of_tree(alloc: Global, sector: u32, byte: u8) -> Option<(usize, bool)> {
    let mut disk = tree_disk(alloc, SECTORS)?;
    let mut copy = copied(alloc, &mut disk)?;
    let held = copy.held.len();
    Some((held, is_full_of(&mut copy, sector, byte)?))
}

// How many sectors a copy of a disk of so many has, all of zeros.
fn sectors_of_zeros(alloc: Global, sectors: u32) -> Option<u32> {
    let Ok(mut disk) = PlainDisk::zeros(alloc, sectors) else {
        return None;
    };
    let copy = copied(alloc, &mut disk)?;
    Some(copy.sectors())
}

#[test]
fn a_copy_has_what_the_names_of_the_image_use(rt: HostRuntime) -> Result<(), Fail> {
    assert!(rt; copy_has(rt.alloc(), 7, 3) == Some(true));
    assert!(rt; copy_has(rt.alloc(), DATA - 1, 4) == Some(true));
    assert!(rt; copy_has(rt.alloc(), DATA, 0) == Some(true));
    assert!(rt; copy_has(rt.alloc(), SECTORS - 1, 0) == Some(true));
    assert!(rt; copy_has(rt.alloc(), SECTORS, 6) == None);
    Ok(())
}

#[test]
fn a_copy_holds_what_was_read(rt: HostRuntime) -> Result<(), Fail> {
    assert!(rt; held_of_new(rt.alloc(), SECTORS) == Some(SECTOR * DATA as usize));
    assert!(rt; held_of_new(rt.alloc(), SECTORS + 8) == Some(SECTOR * DATA as usize));
    Ok(())
}

// The directories end with block 30. Block 41, a file's, begins with 7 on the disk.
#[test]
fn a_copy_ends_with_the_last_directory(rt: HostRuntime) -> Result<(), Fail> {
    assert!(rt; held_of_tree(rt.alloc(), 328, 0) == Some((SECTOR * 248, true)));
    Ok(())
}

#[test]
fn without_a_superblock_it_has_the_first_block(rt: HostRuntime) -> Result<(), Fail> {
    assert!(rt; sectors_of_zeros(rt.alloc(), 520) == Some(8));
    assert!(rt; sectors_of_zeros(rt.alloc(), 3) == Some(3));
    assert!(rt; sectors_of_zeros(rt.alloc(), 0) == Some(0));
    Ok(())
}
