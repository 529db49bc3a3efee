// A start on a disk that is larger than its image is one on the image alone.
use crate::counted::CountedDisk;
use crate::images::{SECTORS, set_sector, tree_disk};
use std::alloc::Global;
use std::test::Fail;
use ufs_base::SECTOR;
use ufs_dir_tree::Found;
use ufs_disk::PlainDisk;
use ufs_files::FileHands;
use ufs_layout::Super;
use ufs_path::read_path;
use ufs_start::{Start, start_of};

// The inode and the size of a file, and whether its first block is in memory.
type Told = (u32, u64, bool);

fn counted(disk: PlainDisk) -> CountedDisk {
    CountedDisk {
        disk,
        count: 0,
        end: 0,
    }
}

// The image on a disk of so many sectors, with other bytes behind it.
fn disk_of(alloc: Global, sectors: u32) -> Option<CountedDisk> {
    let mut disk = tree_disk(alloc, sectors)?;
    if sectors > SECTORS && !set_sector(&mut disk, SECTORS, &[9; SECTOR]) {
        return None;
    }
    Some(counted(disk))
}

fn start_on(alloc: Global, disk: &mut CountedDisk) -> Option<Start> {
    match start_of(alloc, disk) {
        Ok(start) => Some(start),
        Err(_fault) => None,
    }
}

fn told(files: &FileHands, file: u32) -> Option<Told> {
    let hand = files.get(file)?;
    Some((hand.inode(), hand.size(), hand.is_there(0)?))
}

// The superblock and the number of free blocks of a start on a disk of so many sectors.
fn heads(alloc: Global, sectors: u32) -> Option<(Super, u32)> {
    let start = start_on(alloc, &mut disk_of(alloc, sectors)?)?;
    Some((start.superblock.superblock, start.free.count()))
}

// Its file with this number.
fn file_told(alloc: Global, sectors: u32, file: u32) -> Option<Told> {
    let start = start_on(alloc, &mut disk_of(alloc, sectors)?)?;
    told(&start.files, file)
}

// What stands at a path.
fn found(alloc: Global, sectors: u32, path: &[u8]) -> Option<Found> {
    let start = start_on(alloc, &mut disk_of(alloc, sectors)?)?;
    let Ok(path) = read_path(alloc, path) else {
        return None;
    };
    match start.names.resolve(&path) {
        Ok(found) => Some(found),
        Err(_errno) => None,
    }
}

// How many sectors a start on a disk of so many reads, and the end of those.
fn reads(alloc: Global, sectors: u32) -> Option<(usize, usize)> {
    let mut disk = disk_of(alloc, sectors)?;
    let _start = start_on(alloc, &mut disk)?;
    Some((disk.count, disk.end))
}

// The same where there is no image.
fn reads_of_zeros(alloc: Global, sectors: u32) -> Option<(usize, usize)> {
    let Ok(zeros) = PlainDisk::zeros(alloc, sectors) else {
        return None;
    };
    let mut disk = counted(zeros);
    match start_of(alloc, &mut disk) {
        Ok(_start) => None,
        Err(_fault) => Some((disk.count, disk.end)),
    }
}

#[test]
fn a_start_reads_no_sector_beyond_the_last_block_of_a_directory(
    rt: HostRuntime,
) -> Result<(), Fail> {
    assert!(rt; reads(rt.alloc(), 512) == Some((248, 248)));
    assert!(rt; reads(rt.alloc(), 1024) == Some((248, 248)));
    assert!(rt; reads_of_zeros(rt.alloc(), 1024) == Some((8, 8)));
    Ok(())
}

#[test]
fn a_start_on_a_larger_disk_is_the_same(rt: HostRuntime) -> Result<(), Fail> {
    let alloc = rt.alloc();
    assert!(rt; heads(alloc, 1024).is_some());
    assert!(rt; heads(alloc, 1024) == heads(alloc, 512));
    assert!(rt; file_told(alloc, 1024, 0) == Some((4, 5000, false)));
    assert!(rt; file_told(alloc, 1024, 0) == file_told(alloc, 512, 0));
    assert!(rt; file_told(alloc, 1024, 1) == file_told(alloc, 512, 1));
    assert!(rt; found(alloc, 1024, b"/d/g") == found(alloc, 512, b"/d/g"));
    Ok(())
}
