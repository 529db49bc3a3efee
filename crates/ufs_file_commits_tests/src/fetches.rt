// A file of which nothing was read, and the blocks that requests need.
ghost use Rattle.std.specs.Prelude.{IfSome};
ghost use Rattle.ufs_file_commits.specs.State.{state_of};
ghost use Rattle.ufs_model.specs.Bounds.{IsBounded};
ghost use Rattle.ufs_model.specs.declared.data.Op.TheVariants as op;
ghost use Rattle.ufs_file_commits_tests.specs.Ready.{IsReady};

use crate::asserts::{holds, same};
use crate::session::{SECTORS, Session, filled, started};
use std::alloc::Global;
use ufs_disk::{Fuse, FuseDisk};
use ufs_model::{Op, Reply};
use ufs_store::{Door, Store, StoreFault};

// A committed file of three blocks of which nothing is in memory, over a disk that serves so many calls behind it.
fn forgotten(alloc: Global, passes: u64) -> Option<Session<FuseDisk>>
    ensures { IfSome result (λ s. IsReady (⟦<Store<FuseDisk> as Door>⟧.store s.store) (state_of s.hand s.commits) s.pool) }
{
    let bytes = vec![in alloc; 0; 1_048_576].ok()?;
    let fuse = Fuse {
        passes: passes.saturating_add(10),
    };
    let disk = FuseDisk::new(alloc, SECTORS, bytes, fuse).ok()?;
    let mut s = started(alloc, disk)?;
    if s.fill(3).is_err()
        || s.write(alloc, 7, 10_000) != Some(true)
        || s.sync().is_err()
        || !s.forget(alloc)
    {
        return None;
    }
    Some(s)
}

// So many bytes that are all this one.
fn is_all(reply: &Reply, told: u8, count: usize) -> bool {
    match reply {
        Reply::Got(bytes) => {
            let bytes = bytes.as_slice();
            bytes.len() == count && bytes.iter().all(|byte| *byte == told)
        }
        _ => false,
    }
}

// Whether a read of n bytes from a place on gives so many, all of which are this one.
fn shows(s: &mut Session<FuseDisk>, at: u64, n: u32, told: u8, count: usize) -> bool
    requires ready { IsReady (⟦<Store<FuseDisk> as Door>⟧.store s.old.store) (state_of s.old.hand s.old.commits) s.old.pool }
    requires bounded { IsBounded (op.Pread 3 n at) }
    ensures { IsReady (⟦<Store<FuseDisk> as Door>⟧.store s.new.store) (state_of s.new.hand s.new.commits) s.new.pool }
{
    let reply = s.serve(Op::Pread { fd: 3, n, at });
    is_all(&reply, told, count)
}

#[test]
fn a_read_fetches_its_blocks_alone(rt: HostRuntime) {
    let mut s = forgotten(rt.alloc(), 1).expect(&rt, "not started");
    same(&rt, s.there_count(), 0);
    holds(&rt, shows(&mut s, 8_192, 100, 7, 100));
    same(&rt, s.there_count(), 1);
    // What is there makes no call.
    same(
        &rt,
        s.fetch(&Op::Pread {
            fd: 3,
            n: 1,
            at: 9_000,
        }),
        Ok(()),
    );
    same(
        &rt,
        s.fetch(&Op::Pread { fd: 3, n: 1, at: 0 }),
        Err(StoreFault::Device { fault: 1 }),
    );
}

#[test]
fn a_read_that_fails_keeps_what_was_fetched(rt: HostRuntime) {
    let mut s = forgotten(rt.alloc(), 2).expect(&rt, "not started");
    same(
        &rt,
        s.fetch(&Op::Pread {
            fd: 3,
            n: 20_000,
            at: 0,
        }),
        Err(StoreFault::Device { fault: 1 }),
    );
    same(&rt, s.there_count(), 2);
}

#[test]
fn a_write_fetches_no_block_that_it_covers(rt: HostRuntime) {
    let mut s = forgotten(rt.alloc(), 2).expect(&rt, "not started");
    let bytes = filled(rt.alloc(), 9, 8_192).expect(&rt, "memory");
    let op = Op::Pwrite {
        fd: 3,
        bytes,
        at: 1_000,
    };
    same(&rt, s.fetch(&op), Ok(()));
    same(&rt, s.there_count(), 2);
    same(&rt, s.hand.is_there(1), Some(false));
    holds(&rt, matches!(s.serve(op), Reply::Count(8_192)));
    same(&rt, s.there_count(), 3);
    same(&rt, s.dirty_count(), 3);
    holds(&rt, shows(&mut s, 0, 1_000, 7, 1_000));
    holds(&rt, shows(&mut s, 1_000, 8_192, 9, 8_192));
    holds(&rt, shows(&mut s, 9_192, 1_000, 7, 808));
}

#[test]
fn what_the_disk_has_behind_the_end_is_no_byte_of_the_file(rt: HostRuntime) {
    let mut s = forgotten(rt.alloc(), 20).expect(&rt, "not started");
    // The file has the first 1,808 bytes of its last block.
    holds(&rt, s.overwrite(2, 7));
    holds(&rt, s.cut(12_000));
    same(&rt, s.there_count(), 1);
    same(&rt, s.dirty_count(), 1);
    holds(&rt, shows(&mut s, 8_192, 1_808, 7, 1_808));
    holds(&rt, shows(&mut s, 10_000, 2_000, 0, 2_000));
    same(&rt, s.sync(), Ok(2));
    let last = s.read(2).expect(&rt, "not read");
    same(&rt, last[1_807], 7);
    same(&rt, last[1_808], 0);
    same(&rt, last[4_095], 0);
}
