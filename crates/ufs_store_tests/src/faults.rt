// Disks of whose calls some fail. Mounting makes calls 0 and 1; a commit makes five: a barrier, the records, a
// barrier, the commit, a barrier.
use crate::asserts::{holds, same};
use crate::images::{commit_file, commit_names, log_of_birth, log_of_file, mounted, planned};
use ufs_base::BLOCK;
use ufs_disk::{Fuse, FuseDisk};
use ufs_store::{Door, StoreFault};

#[test]
fn a_failed_commit_stops_the_store(rt: HostRuntime) {
    let alloc = rt.alloc();
    let disk = planned(alloc, 5).expect(&rt, "no disk");
    let mut store = mounted(alloc, disk).expect(&rt, "not mounted");
    let mut names = log_of_birth(alloc).expect(&rt, "memory");
    let device = StoreFault::Device { fault: 1 };
    let stopped = StoreFault::Stopped { fault: 1 };
    same(&rt, commit_names(&mut store, &mut names), Some(Err(device)));
    same(
        &rt,
        commit_names(&mut store, &mut names),
        Some(Err(stopped)),
    );
    same(&rt, names.records().as_slice().len(), 3);
    let mut block = [1; BLOCK];
    same(&rt, store.write_block(20, &block), Err(stopped));
    same(&rt, store.checkpoint(), Err(stopped));
    holds(&rt, store.read_block(20, &mut block).is_ok());
    same(&rt, block[0], 0);
    same(&rt, store.stopped(), Some(1));
}

#[test]
fn a_failed_read_stops_nothing(rt: HostRuntime) {
    let alloc = rt.alloc();
    let disk = planned(alloc, 2).expect(&rt, "no disk");
    let mut store = mounted(alloc, disk).expect(&rt, "not mounted");
    let mut block = [1; BLOCK];
    let device = StoreFault::Device { fault: 1 };
    same(&rt, store.read_block(20, &mut block), Err(device));
    let mut names = log_of_birth(alloc).expect(&rt, "memory");
    same(&rt, commit_names(&mut store, &mut names), Some(Ok(1)));
}

#[test]
fn nothing_to_commit_makes_no_call(rt: HostRuntime) {
    let alloc = rt.alloc();
    let bytes = vec![in alloc; 0; 1_048_576].expect(&rt, "memory");
    let disk = FuseDisk::new(alloc, 2_048, bytes, Fuse { passes: 2 }).expect(&rt, "memory");
    let mut store = mounted(alloc, disk).expect(&rt, "not mounted");
    let mut log = log_of_file(alloc).expect(&rt, "memory");
    let number = commit_file(alloc, &mut store, &mut log).ok();
    same(&rt, number, Some(0));
}
