// The logs: each call once, and the bytes of what they say.
use crate::asserts::{holds, same};
use crate::births::birth;
use ufs_extent::{Extents, Run};
use ufs_ilog::{Change, InodeLog, NamesLog};
use ufs_layout::{count_fitting, put_records};

// The delta of file 2 after one byte in block 15.
const ONE_BYTE: [u8; 24] = [
    1, 2, 0, 0, 0, 1, 1, 0, 0, 0, 0, 0, 0, 0, 0, 1, 0x0f, 0, 0, 0, 1, 0, 0, 0,
];

// The birth of `/f`: the root's delta, the file's, and the dentry set without its last 57 zeros.
const BIRTH: [u8; 53] = [
    1, 1, 0, 0, 0, 2, 0, 0x10, 0, 0, 0, 0, 0, 0, 0, 1, 0x0e, 0, 0, 0, 1, 0, 0, 0, 1, 2, 0, 0, 0, 1,
    0, 0, 0, 0, 0, 0, 0, 0, 0, 0, 2, 0x70, 0, 0, 0, 0, 2, 0, 0, 0, 1, 1, 0x66,
];

#[test]
fn a_byte_in_a_new_block(rt: HostRuntime) {
    let alloc = rt.alloc();
    let none = Extents::make(alloc).expect(&rt, "memory");
    let run = Run {
        start: 15,
        length: 1,
    };
    let one = Extents::from_runs(alloc, &[run]).expect(&rt, "memory");
    let mut log = InodeLog::make(alloc, 2, &none, 0).expect(&rt, "memory");
    holds(&rt, log.delta().expect(&rt, "memory").is_none());
    log.note(&none, &one, 1);
    let delta = log.delta().expect(&rt, "memory");
    let records = delta.expect(&rt, "the delta is missing");
    let mut bytes = [7; 24];
    same(&rt, put_records(&mut bytes, records.as_slice()), 24);
    holds(&rt, bytes == ONE_BYTE);
    log.cleared();
    holds(&rt, log.delta().expect(&rt, "memory").is_none());
}

fn is_birth(bytes: &[u8]) -> bool {
    if bytes.len() != 110 {
        return false;
    }
    &bytes[..53] == BIRTH.as_slice() && bytes[53..].iter().all(|b| *b == 0)
}

#[test]
fn births_fill_sectors(rt: HostRuntime) {
    let mut log = NamesLog::new(rt.alloc());
    // Each takes 110 bytes in records of 24, 16 and 70.
    for sectors in [1, 1, 1, 1, 2, 2] {
        let records = birth(rt.alloc()).expect(&rt, "memory");
        log.note(Change { records }).expect(&rt, "memory");
        same(&rt, log.sectors(), sectors);
    }
    let records = log.records().as_slice();
    same(&rt, records.len(), 18);
    let first = count_fitting(records, 110);
    holds(&rt, first == 3);
    let mut bytes = [7; 110];
    same(&rt, put_records(&mut bytes, &records[..first]), 110);
    holds(&rt, is_birth(&bytes));
    log.cleared();
    same(&rt, log.sectors(), 0);
}
