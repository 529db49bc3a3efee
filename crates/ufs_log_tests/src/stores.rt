// The calls of a store on a disk: each once.
ghost use Rattle.std.specs.Prelude.{◌≡◌, IfOk};
ghost use Rattle.ufs_overlay.specs.Seen.{geometry_of};

use crate::asserts::{holds, same};
use crate::births::{birth, small};
use std::alloc::Global;
use ufs_base::{Memory, SECTOR};
use ufs_disk::{Disk, PlainDisk};
use ufs_journal::{Journal, sectors_needed};
use ufs_layout::{Committed, Super, get_inode, get_super};
use ufs_ledger::{checkpoint, commit_records, read_data, settle, write_data};
use ufs_overlay::Overlay;

const SUPERBLOCK: Super = Super {
    version: 1,
    blocks: 256,
    inodes: 32,
    journal: 64,
    epoch: 1,
    next: 1,
    clean: false,
};

const NEXT: Super = Super {
    version: 1,
    blocks: 256,
    inodes: 32,
    journal: 64,
    epoch: 2,
    next: 2,
    clean: false,
};

// The sector of inode 2.
const FILE: u32 = 17;

#[test]
fn a_block_is_written_and_read(rt: HostRuntime) {
    let mut disk = PlainDisk::zeros(rt.alloc(), 2_048).expect(&rt, "memory");
    let mut block = [0; 4_096];
    block[4_095] = 7;
    holds(&rt, write_data(&mut disk, 20, &block).is_ok());
    holds(&rt, settle(&mut disk).is_ok());
    let mut read = [1; 4_096];
    holds(&rt, read_data(&mut disk, 20, &mut read).is_ok());
    same(&rt, read[0], 0);
    same(&rt, read[4_095], 7);
}

// The kind and the size of the inode in this sector, and the epoch in the superblock.
fn found(disk: &mut PlainDisk, sector: u32) -> Option<(u8, u64)> {
    let mut bytes = [0; SECTOR];
    if sector >= disk.sectors() {
        return None;
    }
    disk.read(sector, &mut bytes).ok()?;
    let kind = get_inode(&bytes)?.kind;
    disk.read(0, &mut bytes).ok()?;
    Some((kind, get_super(&bytes)?.epoch))
}

// The birth, committed where that may be done.
fn commit_birth(
    alloc: Global,
    disk: &mut PlainDisk,
    journal: &mut Journal,
) -> Result<Option<u64>, Memory> {
    let records = birth(alloc)?;
    if journal.geometry != small() || disk.sectors() < 2_048 {
        return Ok(None);
    }
    if !journal.opened.is_empty() || sectors_needed(&records) >= journal.room() as usize {
        return Ok(None);
    }
    Ok(commit_records(journal, disk, 1, &records).ok())
}

// The birth over an image.
fn overlay_of_birth(alloc: Global) -> Result<Overlay, Memory>
    ensures { IfOk result (λ overlay. geometry_of overlay ≡ record { blocks = 256; inodes = 32; journal = 64 }) }
{
    let mut overlay = Overlay::make(alloc, &small());
    let records = birth(alloc)?;
    overlay.add(&Committed { number: 1, records })?;
    Ok(overlay)
}

// Goes on in epoch 2, where that may be done.
fn begin_next(disk: &mut PlainDisk, journal: &mut Journal, overlay: &Overlay) -> bool
    requires { geometry_of overlay.now ≡ record { blocks = 256; inodes = 32; journal = 64 } }
{
    if journal.geometry != small() || disk.sectors() < 2_048 {
        return false;
    }
    if !journal.opened.is_empty() || journal.epoch >= 2 || journal.number < 2 {
        return false;
    }
    checkpoint(overlay, journal, disk, &NEXT).is_ok()
}

#[test]
fn a_commit_is_written_home(rt: HostRuntime) {
    let alloc = rt.alloc();
    let mut disk = PlainDisk::zeros(alloc, 2_048).expect(&rt, "memory");
    let mut journal = Journal::make(alloc, &small(), &SUPERBLOCK).expect(&rt, "memory");
    let overlay = overlay_of_birth(alloc).expect(&rt, "memory");
    let committed = commit_birth(alloc, &mut disk, &mut journal);
    same(&rt, committed.expect(&rt, "memory"), Some(1));
    holds(&rt, begin_next(&mut disk, &mut journal, &overlay));
    same(&rt, journal.epoch, 2);
    same(&rt, journal.used, 0);
    same(&rt, journal.number, 2);
    same(&rt, found(&mut disk, FILE), Some((1, 2)));
}
