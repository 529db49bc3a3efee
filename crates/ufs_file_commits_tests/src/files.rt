// A file that takes blocks, is written, committed, cut and committed again.
ghost use Rattle.ufs_file_commits.specs.State.{state_of};
ghost use Rattle.ufs_file_commits_tests.specs.Ready.{IsReady};

use crate::asserts::{holds, same};
use crate::session::{SECTORS, Session, started};
use std::alloc::AllocGlobal;
use std::process::Abort;
use ufs_disk::PlainDisk;
use ufs_store::{Door, Store, StoreFault};

// 300 blocks are never there: the answer tells how many are unassigned.
fn lacking(had: u32) -> Result<(), StoreFault> {
    Err(StoreFault::NoSpace { need: 300, had })
}

fn on_zeros<R: Abort + AllocGlobal>(rt: &R) -> Session<PlainDisk>
    ensures { IsReady (⟦<Store<PlainDisk> as Door>⟧.store result.store) (state_of result.hand result.commits) result.pool }
{
    let disk = PlainDisk::zeros(rt.alloc(), SECTORS).expect(rt, "memory");
    started(rt.alloc(), disk).expect(rt, "not started")
}

#[test]
fn what_is_committed_is_on_the_disk(rt: HostRuntime) {
    let mut s = on_zeros(&rt);
    holds(&rt, s.fill(3).is_ok());
    same(&rt, s.pool.count(), 67);
    same(&rt, s.write(rt.alloc(), 7, 10_000), Some(true));
    same(&rt, s.dirty_count(), 3);
    same(&rt, s.pool.count(), 64);
    same(&rt, s.sync(), Ok(1));
    same(&rt, s.dirty_count(), 0);
    let last = s.read(2).expect(&rt, "not read");
    same(&rt, last[0], 7);
    same(&rt, last[1_807], 7);
    same(&rt, last[1_808], 0);
}

#[test]
fn dropped_blocks_wait_for_the_commit(rt: HostRuntime) {
    let mut s = on_zeros(&rt);
    holds(&rt, s.fill(3).is_ok());
    same(&rt, s.write(rt.alloc(), 7, 10_000), Some(true));
    same(&rt, s.sync(), Ok(1));
    same(&rt, s.fill(300), lacking(175));
    holds(&rt, s.cut(1));
    same(&rt, s.hand.block_count(), 1);
    same(&rt, s.pool.count(), 64);
    same(&rt, s.commits.dropped().as_slice().len(), 1);
    same(&rt, s.fill(300), lacking(175));
    same(&rt, s.sync(), Ok(2));
    holds(&rt, s.commits.dropped().as_slice().is_empty());
    same(&rt, s.fill(300), lacking(177));
    same(&rt, s.sync(), Ok(2));
    let first = s.read(0).expect(&rt, "not read");
    same(&rt, first[0], 7);
    same(&rt, first[1], 0);
    same(&rt, first[4_095], 0);
}

#[test]
fn a_file_without_blocks_is_excused(rt: HostRuntime) {
    let mut s = on_zeros(&rt);
    same(&rt, s.write(rt.alloc(), 7, 1), Some(false));
    same(&rt, s.hand.block_count(), 0);
    same(&rt, s.sync(), Ok(0));
}
