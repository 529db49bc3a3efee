// Transactions of two sectors fill an epoch of 64 sectors by 32.
use crate::asserts::{holds, same};
use crate::written::{append_free, commit, new_journal};
use std::alloc::AllocGlobal;
use std::process::Abort;
use ufs_disk::PlainDisk;
use ufs_journal::Journal;

// The next epoch begins with all its room.
fn restart(rt: &impl Abort, journal: &mut Journal) {
    same(rt, journal.room(), 0);
    holds(rt, journal.opened.is_empty());
    holds(rt, journal.epoch < u64::MAX);
    let next = journal.epoch + 1;
    journal.restart(next);
}

// Commits the transaction of this number, from 0 on.
fn turn<R: Abort + AllocGlobal>(rt: &R, disk: &mut PlainDisk, journal: &mut Journal, i: u32) {
    same(rt, journal.room(), 64 - 2 * (i % 32));
    holds(rt, append_free(rt, disk, journal, 9, 1 + i % 32));
    same(rt, commit(disk, journal, 9), Some(u64::from(i) + 1));
}

#[test]
fn epochs_hold_32_transactions_of_two_sectors(rt: HostRuntime) {
    let mut disk = PlainDisk::zeros(rt.alloc(), 2_048).expect(&rt, "memory");
    let mut journal = new_journal(&rt);
    for i in 0..201u32 {
        if i > 0 && i % 32 == 0 {
            restart(&rt, &mut journal);
        }
        turn(&rt, &mut disk, &mut journal, i);
    }
    same(&rt, journal.epoch, 7);
    same(&rt, journal.room(), 46);
}
