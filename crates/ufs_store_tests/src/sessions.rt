// A session: a pool, a file's block, commits and checkpoints, and a recovery of its disk.
ghost use Rattle.std.specs.Prelude.{◌≡◌};
ghost use Rattle.ufs_store.specs.State.{geometry_of_store};
ghost use Rattle.ufs_store_tests.specs.Small.{small};

use crate::asserts::{holds, same};
use crate::images::{
    commit_file, commit_names, commit_sizes, fill, give_back, log_of_birth, log_of_file, mounted,
};
use std::alloc::{AllocGlobal, Global};
use std::process::Abort;
use ufs_base::{BLOCK, SECTOR};
use ufs_bitmap::Pool;
use ufs_disk::{Disk, PlainDisk};
use ufs_extent::{Extents, Run};
use ufs_layout::{get_inode, get_super};
use ufs_recovery::recover;
use ufs_store::{Direct, Door, Store, StoreFault};

// A sector of the disk; none where the disk ends before it.
fn sector_of(disk: &mut PlainDisk, sector: u32) -> Option<[u8; SECTOR]> {
    if sector >= disk.sectors() {
        return None;
    }
    let mut bytes = [0; SECTOR];
    disk.read(sector, &mut bytes).ok()?;
    Some(bytes)
}

// The epoch, the next commit number and whether it is clean.
fn superblock_of(disk: &mut PlainDisk) -> Option<(u64, u64, bool)> {
    let superblock = get_super(&sector_of(disk, 0)?)?;
    Some((superblock.epoch, superblock.next, superblock.clean))
}

// A store in which the birth of `/f` is committed.
fn born<R: Abort + AllocGlobal>(rt: &R) -> Store<PlainDisk>
    ensures { geometry_of_store (⟦<Store<PlainDisk> as Door>⟧.store result) ≡ small }
{
    let disk = PlainDisk::zeros(rt.alloc(), 2_048).expect(rt, "memory");
    let mut store = mounted(rt.alloc(), disk).expect(rt, "not mounted");
    let mut names = log_of_birth(rt.alloc()).expect(rt, "memory");
    same(rt, commit_names(&mut store, &mut names), Some(Ok(1)));
    holds(rt, names.records().as_slice().is_empty());
    store
}

// Commits that the file has one byte, in block 15.
fn commit_block<R: Abort + AllocGlobal>(rt: &R, store: &mut Store<PlainDisk>)
    requires { geometry_of_store (⟦<Store<PlainDisk> as Door>⟧.store store.old) ≡ small }
    ensures { geometry_of_store (⟦<Store<PlainDisk> as Door>⟧.store store.new) ≡ small }
{
    let mut log = log_of_file(rt.alloc()).expect(rt, "memory");
    let none = Extents::make(rt.alloc()).expect(rt, "memory");
    let run = Run {
        start: 15,
        length: 1,
    };
    let one = Extents::from_runs(rt.alloc(), &[run]).expect(rt, "memory");
    log.note(&none, &one, 1);
    let number = commit_file(rt.alloc(), store, &mut log).ok();
    same(rt, number, Some(2));
}

// Asserts what a recovery makes of the disk.
fn is_recovered<R: Abort + AllocGlobal>(rt: &R, mut disk: PlainDisk) {
    same(rt, superblock_of(&mut disk), Some((1, 1, false)));
    holds(rt, recover(rt.alloc(), &mut disk) == Ok(2));
    same(rt, superblock_of(&mut disk), Some((2, 3, true)));
    let inode = sector_of(&mut disk, 17).and_then(|bytes| get_inode(&bytes));
    holds(
        rt,
        inode.is_some_and(|inode| inode.size == 1 && inode.number == 2),
    );
    let bits = sector_of(&mut disk, 8);
    holds(
        rt,
        bits.is_some_and(|bytes| &bytes[..3] == [255, 255, 0].as_slice()),
    );
}

#[test]
fn a_file_is_committed_and_the_disk_recovered(rt: HostRuntime) {
    let mut store = born(&rt);
    let mut block = [0; BLOCK];
    block[0] = 7;
    holds(&rt, store.write_block(15, &block).is_ok());
    commit_block(&rt, &mut store);
    let mut read = [1; BLOCK];
    holds(&rt, store.read_block(15, &mut read).is_ok());
    holds(&rt, read == block);
    is_recovered(&rt, store.into_disk());
}

// The superblock that a session of so many commits of a file leaves.
fn superblock_after(alloc: Global, count: u64) -> Option<(u64, u64, bool)> {
    let mut store = mounted(alloc, PlainDisk::zeros(alloc, 2_048).ok()?)?;
    let mut log = log_of_file(alloc).ok()?;
    if commit_sizes(alloc, &mut store, &mut log, count)? != count {
        return None;
    }
    superblock_of(&mut store.into_disk())
}

#[test]
fn a_full_journal_is_written_home(rt: HostRuntime) {
    // A commit takes two of the 64 sectors. The superblock's next number is that of the first commit in its epoch.
    for (count, epoch, next) in [(32, 1, 1), (33, 2, 33), (64, 2, 33), (65, 3, 65)] {
        let found = superblock_after(rt.alloc(), count);
        same(&rt, found, Some((epoch, next, false)));
    }
}

#[test]
fn a_pool_gets_the_lowest_blocks(rt: HostRuntime) {
    let alloc = rt.alloc();
    let disk = PlainDisk::zeros(alloc, 2_048).expect(&rt, "memory");
    let mut store = mounted(alloc, disk).expect(&rt, "not mounted");
    let mut pool = Pool::make(alloc).expect(&rt, "memory");
    give_back(&mut store, &mut pool);
    let mut door = Direct { store: &mut store };
    let lacking = StoreFault::NoSpace {
        need: 300,
        had: 242,
    };
    let refused = fill(&mut door, &mut pool, 300).expect_err(&rt, "it is filled");
    same(&rt, refused, lacking);
    same(&rt, pool.count(), 0);
    holds(&rt, fill(&mut door, &mut pool, 5).is_ok());
    same(&rt, pool.count(), 69);
    holds(&rt, pool.contains(14));
    holds(&rt, pool.contains(82));
    holds(&rt, !pool.contains(83));
    holds(&rt, door.checkpoint().is_ok());
}
