// What the tests share: stores on an image of 256 blocks, 32 inodes and 64 journal sectors, and commits to them.
ghost use Rattle.std.specs.Prelude.{◌≡◌, [], IfOk, IfSome, IsTrue, OnErr, true};
ghost use Rattle.std.specs.FinSet as set;
ghost use Rattle.std.specs.List.{list_all};
ghost use Rattle.ufs_layout.specs.Records.{is_record};
ghost use Rattle.ufs_image.specs.Fold.{is_in_range};
ghost use Rattle.ufs_ilog.specs.Changes.{is_in_order};
ghost use Rattle.ufs_store.specs.State.{geometry_of_store};
ghost use Rattle.ufs_store_tests.specs.Small.{small};

use std::alloc::Global;
use ufs_base::{Lack, Memory};
use ufs_bitmap::{Bitmap, Pool};
use ufs_disk::{Disk, MemoryDisk};
use ufs_extent::{Extents, Runs};
use ufs_ilog::{Change, InodeLog, NamesLog};
use ufs_layout::{Dentry, Extent, ExtentList, LogRecord, Records, Super};
use ufs_store::{Door, Store, StoreFault, Uncommitted};

pub const SECTORS: u32 = 2_048;

const SUPERBLOCK: Super = Super {
    version: 1,
    blocks: 256,
    inodes: 32,
    journal: 64,
    epoch: 1,
    next: 1,
    clean: true,
};

/// A store on this disk.
pub fn mounted<D: Disk + Drop>(alloc: Global, disk: D) -> Option<Store<D>>
    ensures { IfSome result (λ s. geometry_of_store (⟦<Store<D> as Door>⟧.store s) ≡ small) }
{
    if disk.sectors() < SECTORS {
        return None;
    }
    let free = Bitmap::all_free(alloc, 14, 256).ok()?;
    Store::mount(alloc, disk, SUPERBLOCK, free).ok()
}

/// A disk in memory of whose calls one fails.
pub fn planned(alloc: Global, fails: u64) -> Option<MemoryDisk> {
    let bytes = vec![in alloc; 0; 1_048_576].ok()?;
    let fails = vec![in alloc; fails].ok()?;
    MemoryDisk::new(alloc, SECTORS, bytes, fails).ok()
}

// The birth of `/f` in block 14.
fn birth(alloc: Global) -> Result<Records, Memory>
    ensures form { IfOk result (λ records. IsTrue (list_all is_record records)) }
    ensures order { IfOk result (λ records. IsTrue (is_in_order records)) }
    ensures inside { IfOk result (λ records. IsTrue (list_all (is_in_range small) records)) }
{
    let block = Extent {
        start: 14,
        length: 1,
    };
    let mut extents = Vec::new(alloc);
    extents.push(block)?;
    let mut records = Vec::new(alloc);
    records.push(LogRecord::Delta {
        inode: 1,
        kind: 2,
        size: 4_096,
        keep: 0,
        extents: ExtentList::from_vec(extents),
    })?;
    records.push(LogRecord::Delta {
        inode: 2,
        kind: 1,
        size: 0,
        keep: 0,
        extents: ExtentList::from_vec(Vec::new(alloc)),
    })?;
    records.push(LogRecord::Place {
        sector: 112,
        slot: 0,
        dentry: Dentry::from_name(2, 1, b"f"),
    })?;
    Ok(Records::from_vec(records))
}

/// A log with that birth.
pub fn log_of_birth(alloc: Global) -> Result<NamesLog, Lack>
    ensures { IfOk result (λ log. IsTrue (list_all (is_in_range small) log)) }
{
    let mut log = NamesLog::new(alloc);
    let records = birth(alloc)?;
    log.note(Change { records })?;
    Ok(log)
}

/// Commits the names, where the log isn't too long.
pub fn commit_names<D: Disk>(
    store: &mut Store<D>,
    log: &mut NamesLog,
) -> Option<Result<u64, StoreFault>>
    requires geometry { geometry_of_store (⟦<Store<D> as Door>⟧.store store.old) ≡ small }
    requires in_range { IsTrue (list_all (is_in_range small) log.old) }
    ensures geometry { geometry_of_store (⟦<Store<D> as Door>⟧.store store.new) ≡ small }
    ensures in_range { IsTrue (list_all (is_in_range small) log.new) }
{
    if log.sectors() >= 64 {
        return None;
    }
    match store.commit_names(log) {
        Ok(number) => Some(Ok(number)),
        Err(fault) => Some(Err(fault)),
    }
}

/// The log of inode 2, which has nothing.
pub fn log_of_file(alloc: Global) -> Result<InodeLog, Memory>
    ensures inode { IfOk result (λ log. log.inode ≡ 2) }
    ensures runs { IfOk result (λ log. log.noted.runs ≡ []) }
{
    InodeLog::make(alloc, 2, &Extents::make(alloc)?, 0)
}

/// Commits the file, which dropped no block.
pub fn commit_file<D: Disk>(
    alloc: Global,
    store: &mut Store<D>,
    log: &mut InodeLog,
) -> Result<u64, Uncommitted>
    requires geometry { geometry_of_store (⟦<Store<D> as Door>⟧.store store.old) ≡ small }
    requires inode { log.old.inode ≡ 2 }
    ensures geometry { geometry_of_store (⟦<Store<D> as Door>⟧.store store.new) ≡ small }
    ensures inode { log.new.inode ≡ 2 }
    ensures runs { log.new.noted.runs ≡ log.old.noted.runs }
{
    store.commit_file(log, Runs::new(alloc))
}

// Commits the file with this size.
fn commit_size<D: Disk>(
    alloc: Global,
    store: &mut Store<D>,
    log: &mut InodeLog,
    size: u64,
) -> Option<u64>
    requires geometry { geometry_of_store (⟦<Store<D> as Door>⟧.store store.old) ≡ small }
    requires inode { log.old.inode ≡ 2 }
    requires runs { log.old.noted.runs ≡ [] }
    ensures geometry { geometry_of_store (⟦<Store<D> as Door>⟧.store store.new) ≡ small }
    ensures inode { log.new.inode ≡ 2 }
    ensures runs { log.new.noted.runs ≡ [] }
{
    let none = Extents::make(alloc).ok()?;
    log.note(&none, &none, size);
    commit_file(alloc, store, log).ok()
}

/// Commits the file with the sizes from 1 on, so many times, and answers the last number.
pub fn commit_sizes<D: Disk>(
    alloc: Global,
    store: &mut Store<D>,
    log: &mut InodeLog,
    count: u64,
) -> Option<u64>
    requires geometry { geometry_of_store (⟦<Store<D> as Door>⟧.store store.old) ≡ small }
    requires inode { log.old.inode ≡ 2 }
    requires runs { log.old.noted.runs ≡ [] }
{
    let mut last = None;
    for size in 0..count {
        last = Some(commit_size(alloc, store, log, size + 1)?);
    }
    last
}

/// Lets an empty pool have what is missing.
pub fn fill<B: Door>(door: &mut B, pool: &mut Pool, missing: u32) -> Result<(), StoreFault>
    requires { pool.old ≡ set.empty }
    ensures { OnErr result (pool.new ≡ set.empty) }
{
    door.give_pool(pool, missing)
}

/// Gives the blocks of an empty pool back.
pub fn give_back<D: Disk>(store: &mut Store<D>, pool: &mut Pool)
    requires { pool.old ≡ set.empty }
    ensures { pool.new ≡ set.empty }
{
    store.take_back(pool);
}
