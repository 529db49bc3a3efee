// The bytes of a transaction, and what a scan says of them.
use crate::asserts::{holds, same};
use crate::written::{SUPERBLOCK, append_free, commit, geometry, new_journal};
use std::alloc::{AllocGlobal, Global};
use std::process::Abort;
use ufs_base::SECTOR;
use ufs_disk::{Disk, MemoryDisk, PlainDisk};
use ufs_scan::{ScanFault, scan};

// A record sector that frees inode 2, and its commit; zeros behind.
const RECORDS: [u8; 29] = [
    1, 0, 0, 0, 0, 0, 0, 0, 7, 0, 0, 0, 0, 0, 1, 0, 5, 0, 0, 0, 0, 0, 0, 0, 3, 2, 0, 0, 0,
];

const COMMIT: [u8; 36] = [
    1, 0, 0, 0, 0, 0, 0, 0, 7, 0, 0, 0, 1, 0, 2, 0, 12, 0, 0, 0, 0, 0, 0, 0, 1, 0, 0, 0, 1, 0, 0,
    0, 0, 0, 0, 0,
];

// Whether the sector begins with these bytes and has zeros behind them.
fn has_form(bytes: &[u8], sector: usize, form: &[u8]) -> bool {
    match bytes.chunks_exact(SECTOR).nth(sector) {
        Some(found) => {
            found.starts_with(form) && found.iter().skip(form.len()).all(|byte| *byte == 0)
        }
        None => false,
    }
}

// The fault for which a scan stops; none where it doesn't, or where the disk is too small.
fn fault_of<D: Disk>(alloc: Global, disk: &mut D) -> Option<ScanFault> {
    if disk.sectors() < 2_048 {
        return None;
    }
    scan(alloc, disk, &geometry(), &SUPERBLOCK).err()
}

fn on_zeros<R: Abort + AllocGlobal>(rt: &R) -> PlainDisk {
    PlainDisk::zeros(rt.alloc(), 2_048).expect(rt, "memory")
}

#[test]
fn a_transaction_takes_two_sectors(rt: HostRuntime) {
    let mut disk = on_zeros(&rt);
    let mut journal = new_journal(&rt);
    same(&rt, journal.room(), 64);
    holds(&rt, append_free(&rt, &mut disk, &mut journal, 7, 2));
    same(&rt, journal.room(), 62);
    same(&rt, commit(&mut disk, &mut journal, 7), Some(1));
    let mut bytes = [9; 2 * SECTOR];
    holds(&rt, disk.sectors() == 2_048);
    holds(&rt, disk.read(48, &mut bytes).is_ok());
    holds(&rt, has_form(&bytes, 0, &RECORDS));
    holds(&rt, has_form(&bytes, 1, &COMMIT));
}

#[test]
fn a_fault_in_mid_stream_changes_nothing(rt: HostRuntime) {
    let zeros = vec![in rt.alloc(); 0u8; 2_048 * SECTOR].expect(&rt, "memory");
    let fails = vec![in rt.alloc(); 0, 3, 8].expect(&rt, "memory");
    let disk = MemoryDisk::new(rt.alloc(), 2_048, zeros, fails);
    let mut disk = disk.expect(&rt, "memory");
    let mut journal = new_journal(&rt);
    holds(&rt, !append_free(&rt, &mut disk, &mut journal, 7, 2));
    same(&rt, journal.room(), 64);
    holds(&rt, append_free(&rt, &mut disk, &mut journal, 7, 2));
    same(&rt, commit(&mut disk, &mut journal, 7), None);
    same(&rt, commit(&mut disk, &mut journal, 7), Some(1));
    same(&rt, disk.sectors(), 2_048);
    let found = fault_of(rt.alloc(), &mut disk);
    same(&rt, found, Some(ScanFault::Device { fault: 3 }));
}

// A record sector again elsewhere in the journal is off, and the lower of the two is named.
#[test]
fn a_repeated_sector_is_off(rt: HostRuntime) {
    let mut disk = on_zeros(&rt);
    let mut journal = new_journal(&rt);
    holds(&rt, append_free(&rt, &mut disk, &mut journal, 7, 2));
    same(&rt, commit(&mut disk, &mut journal, 7), Some(1));
    let mut sector = [0; SECTOR];
    holds(&rt, disk.sectors() == 2_048);
    holds(&rt, disk.read(48, &mut sector).is_ok());
    holds(&rt, disk.write(60, &sector).is_ok());
    let found = fault_of(rt.alloc(), &mut disk);
    same(&rt, found, Some(ScanFault::BadRecord { sector: 48 }));
}
