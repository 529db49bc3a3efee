// Disks that serve so many calls and no more. Mounting makes two; a commit makes one for each dirty block and five more:
// a barrier, the records, a barrier, the commit, a barrier.
ghost use Rattle.std.specs.Prelude.{IfSome};
ghost use Rattle.ufs_file_commits.specs.State.{state_of};
ghost use Rattle.ufs_file_commits_tests.specs.Ready.{IsReady};

use crate::asserts::{holds, same};
use crate::session::{SECTORS, Session, started};
use std::alloc::Global;
use ufs_disk::{Fuse, FuseDisk};
use ufs_store::{Door, Store, StoreFault};

// A file of three blocks that were never written, over a disk that serves so many calls.
fn of_three(alloc: Global, passes: u64) -> Option<Session<FuseDisk>>
    ensures { IfSome result (λ s. IsReady (⟦<Store<FuseDisk> as Door>⟧.store s.store) (state_of s.hand s.commits) s.pool) }
{
    let bytes = vec![in alloc; 0; 1_048_576].ok()?;
    let disk = FuseDisk::new(alloc, SECTORS, bytes, Fuse { passes }).ok()?;
    let mut s = started(alloc, disk)?;
    if s.fill(3).is_err() || s.write(alloc, 7, 10_000) != Some(true) {
        return None;
    }
    Some(s)
}

#[test]
fn a_commit_makes_one_write_for_each_dirty_block(rt: HostRuntime) {
    let mut s = of_three(rt.alloc(), 10).expect(&rt, "not started");
    same(&rt, s.sync(), Ok(1));
    // Nothing was written since: no call is made.
    same(&rt, s.sync(), Ok(1));
    holds(&rt, s.cut(9_999));
    same(&rt, s.sync(), Err(StoreFault::Device { fault: 1 }));
}

#[test]
fn the_last_call_of_a_commit_counts(rt: HostRuntime) {
    let mut s = of_three(rt.alloc(), 9).expect(&rt, "not started");
    same(&rt, s.sync(), Err(StoreFault::Device { fault: 1 }));
    same(&rt, s.dirty_count(), 3);
}

#[test]
fn a_fault_between_the_writes_leaves_the_file(rt: HostRuntime) {
    let mut s = of_three(rt.alloc(), 3).expect(&rt, "not started");
    same(&rt, s.sync(), Err(StoreFault::Device { fault: 1 }));
    same(&rt, s.dirty_count(), 3);
    holds(&rt, s.cut(1));
    same(&rt, s.commits.dropped().as_slice().len(), 1);
    same(&rt, s.sync(), Err(StoreFault::Stopped { fault: 1 }));
    same(&rt, s.commits.dropped().as_slice().len(), 1);
    same(&rt, s.dirty_count(), 1);
}
