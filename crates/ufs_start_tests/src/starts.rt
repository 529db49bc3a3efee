// What a server begins with: the paths, the files and the free blocks of an image.
use crate::images::{ROOT, SECTORS, file, inode, name, set_sector, tree_disk};
use std::alloc::Global;
use std::test::Fail;
use ufs_dir_tree::Found;
use ufs_disk::PlainDisk;
use ufs_path::read_path;
use ufs_start::{Start, StartFault, start_of};

fn started(alloc: Global) -> Option<Start> {
    let mut disk = tree_disk(alloc, SECTORS)?;
    match start_of(alloc, &mut disk) {
        Ok(start) => Some(start),
        Err(_fault) => None,
    }
}

fn found(alloc: Global, path: &[u8]) -> Option<Found> {
    let start = started(alloc)?;
    let Ok(path) = read_path(alloc, path) else {
        return None;
    };
    match start.names.resolve(&path) {
        Ok(found) => Some(found),
        Err(_errno) => None,
    }
}

// The inode and the size of a file, and whether its first block is in memory.
fn kept(alloc: Global, number: u32) -> Option<(u32, u64, bool)> {
    let start = started(alloc)?;
    let hand = start.files.get(number)?;
    Some((hand.inode(), hand.size(), hand.is_there(0)?))
}

fn free_count(alloc: Global) -> Option<u32> {
    let start = started(alloc)?;
    Some(start.free.count())
}

// The directory of inode 5 has `h`, and no name stands for it.
fn set_cut_off(disk: &mut PlainDisk) -> bool {
    set_sector(disk, ROOT + 4, &inode(2, 50, 1, 4096))
        && set_sector(disk, 401, &name(6, 1, b'h'))
        && set_sector(disk, ROOT + 5, &file(51, 1, 5))
}

fn fault_cut_off(alloc: Global) -> Option<StartFault> {
    let mut disk = tree_disk(alloc, SECTORS)?;
    if !set_cut_off(&mut disk) {
        return None;
    }
    match start_of(alloc, &mut disk) {
        Ok(_start) => None,
        Err(fault) => Some(fault),
    }
}

// The file of inode 5 has a block, and no name stands for it.
fn set_unnamed(disk: &mut PlainDisk) -> bool {
    set_sector(disk, ROOT + 4, &file(50, 1, 5))
}

fn fault_unnamed(alloc: Global) -> Option<StartFault> {
    let mut disk = tree_disk(alloc, SECTORS)?;
    if !set_unnamed(&mut disk) {
        return None;
    }
    match start_of(alloc, &mut disk) {
        Ok(_start) => None,
        Err(fault) => Some(fault),
    }
}

#[test]
fn paths_stand_for_their_inodes(rt: HostRuntime) -> Result<(), Fail> {
    assert!(rt; found(rt.alloc(), b"/") == Some(Found::Dir { inode: 1 }));
    assert!(rt; found(rt.alloc(), b"/f") == Some(Found::File { inode: 3 }));
    assert!(rt; found(rt.alloc(), b"/d") == Some(Found::Dir { inode: 2 }));
    assert!(rt; found(rt.alloc(), b"/d/g") == Some(Found::File { inode: 4 }));
    assert!(rt; found(rt.alloc(), b"/g") == None);
    Ok(())
}

// They have numbers by rising path. Of the 52 blocks for data two are of directories and three of files.
#[test]
fn files_are_here_and_what_nobody_has_is_free(rt: HostRuntime) -> Result<(), Fail> {
    assert!(rt; kept(rt.alloc(), 0) == Some((4, 5000, false)));
    assert!(rt; kept(rt.alloc(), 1) == Some((3, 5, false)));
    assert!(rt; kept(rt.alloc(), 2) == None);
    assert!(rt; free_count(rt.alloc()) == Some(47));
    Ok(())
}

#[test]
fn a_directory_that_no_path_leads_to_is_refused(rt: HostRuntime) -> Result<(), Fail> {
    assert!(rt; fault_cut_off(rt.alloc()) == Some(StartFault::Unreached { inode: 5 }));
    Ok(())
}

#[test]
fn a_file_that_no_path_names_is_refused(rt: HostRuntime) -> Result<(), Fail> {
    assert!(rt; fault_unnamed(rt.alloc()) == Some(StartFault::Unnamed { inode: 5 }));
    Ok(())
}
