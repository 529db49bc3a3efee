// One transaction of one record, appended and committed where that may be done.
ghost use Rattle.std.specs.Prelude.{◌≡◌, ◌∷◌, [], IfOk};
ghost use Rattle.ufs_layout.specs.declared.records.LogRecord.TheVariants.{Free};

use std::alloc::{AllocError, AllocGlobal, Global};
use std::process::Abort;
use ufs_disk::Disk;
use ufs_journal::{Journal, sectors_needed};
use ufs_layout::{Geometry, LogRecord, Records, Super};

pub(crate) const SUPERBLOCK: Super = Super {
    version: 1,
    blocks: 256,
    inodes: 32,
    journal: 64,
    epoch: 1,
    next: 1,
    clean: false,
};

// 2,048 sectors; the journal begins at sector 48, the first inode's is sector 16.
pub(crate) fn geometry() -> Geometry
    ensures blocks { result.blocks ≡ 256 }
    ensures inodes { result.inodes ≡ 32 }
    ensures journal { result.journal ≡ 64 }
{
    Geometry {
        blocks: 256,
        inodes: 32,
        journal: 64,
    }
}

fn free(alloc: Global, inode: u32) -> Result<Records, AllocError>
    ensures { IfOk result (λ records. records ≡ Free inode ∷ []) }
{
    let mut records = Vec::new(alloc);
    records.push(LogRecord::Free { inode })?;
    Ok(Records::from_vec(records))
}

pub(crate) fn new_journal<R: Abort + AllocGlobal>(rt: &R) -> Journal {
    Journal::make(rt.alloc(), &geometry(), &SUPERBLOCK).expect(rt, "memory")
}

// Appends a transaction that frees an inode, where there is room, and says whether it did.
pub(crate) fn append_free<R: Abort + AllocGlobal, D: Disk>(
    rt: &R,
    disk: &mut D,
    journal: &mut Journal,
    txn: u32,
    inode: u32,
) -> bool {
    let records = free(rt.alloc(), inode).expect(rt, "memory");
    let fits = sectors_needed(&records) < journal.room() as usize;
    let large = disk.sectors() >= 8 * journal.geometry.blocks;
    let known = 1 <= inode && inode <= journal.geometry.inodes;
    if !fits || !large || !known || txn == 0 || journal.opened.get(txn).is_some() {
        return false;
    }
    journal.append(disk, txn, &records).is_ok()
}

// Commits a transaction that is appended, and gives its number.
pub(crate) fn commit<D: Disk>(disk: &mut D, journal: &mut Journal, txn: u32) -> Option<u64> {
    if disk.sectors() < 8 * journal.geometry.blocks || journal.opened.get(txn).is_none() {
        return None;
    }
    journal.commit(disk, txn).ok()
}
