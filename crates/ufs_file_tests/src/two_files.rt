// Two files that take blocks in turn from one pool.
ghost use Rattle.std.specs.Prelude.{◌≡◌, ◌≤◌, ◌++◌, Some, length};
ghost use Rattle.std.proofs.Props.{props};
ghost use Rattle.ufs_bitmap.specs.Taking.{IsApart};
ghost use Rattle.ufs_extent.specs.Runs.{blocks_of};
ghost use Rattle.ufs_model.specs.Bounds.{max_transfer};

use crate::asserts::{holds, same};
use crate::calls::{applied, filled, is_count, is_excused, open_on, pool_of};
use std::alloc::{AllocGlobal, Global};
use std::process::Abort;
use ufs_base::Memory;
use ufs_bitmap::Pool;
use ufs_file::FileHand;
use ufs_model::{Bytes, Excuse, Op, Reply};

// Bytes go to a place in the first file, of number 7.
fn first_gets(
    first: &mut FileHand,
    second: &FileHand,
    pool: &mut Pool,
    bytes: Bytes,
    at: u64,
) -> Reply
    requires small { length bytes ≤ max_transfer }
    requires number { first.old.file ≡ 7 }
    requires apart { IsApart pool.old (blocks_of first.old.extents ++ blocks_of second.now.extents) }
    ensures number { first.new.file ≡ 7 }
    ensures apart { IsApart pool.new (blocks_of first.new.extents ++ blocks_of second.now.extents) }
{
    applied(first, pool, Op::Pwrite { fd: 3, bytes, at }, open_on(7))
}

// Bytes go to a place in the second file, of number 8.
fn second_gets(
    first: &FileHand,
    second: &mut FileHand,
    pool: &mut Pool,
    bytes: Bytes,
    at: u64,
) -> Reply
    requires small { length bytes ≤ max_transfer }
    requires number { second.old.file ≡ 8 }
    requires apart { IsApart pool.old (blocks_of first.now.extents ++ blocks_of second.old.extents) }
    ensures number { second.new.file ≡ 8 }
    ensures apart { IsApart pool.new (blocks_of first.now.extents ++ blocks_of second.new.extents) }
{
    applied(second, pool, Op::Pwrite { fd: 4, bytes, at }, open_on(8))
}

// Two files that share a pool.
#[derive(Drop)]
struct Both {
    first: FileHand,
    second: FileHand,
    pool: Pool,
    ghost first_number: { first.file ≡ 7 },
    ghost second_number: { second.file ≡ 8 },
    ghost apart: { IsApart pool (blocks_of first.extents ++ blocks_of second.extents) } by { Prim.hlevel props },
}

impl Both {
    // Files with no byte, and so many blocks from 15 on.
    fn start(alloc: Global) -> Result<Both, Memory> {
        let pool = pool_of(alloc, 15, 241)?;
        let first = FileHand::make(alloc, 7, 2)?;
        let second = FileHand::make(alloc, 8, 3)?;
        Ok(Both {
            first,
            second,
            pool,
        })
    }

    // A block goes to the end of the first file.
    fn first_grows<R: Abort + AllocGlobal>(&mut self, rt: &R) -> Reply {
        let at = self.first.size();
        let bytes = filled(rt, 97, 4_096);
        first_gets(&mut self.first, &self.second, &mut self.pool, bytes, at)
    }

    // A block goes to the end of the second file.
    fn second_grows<R: Abort + AllocGlobal>(&mut self, rt: &R) -> Reply {
        let at = self.second.size();
        let bytes = filled(rt, 98, 4_096);
        second_gets(&self.first, &mut self.second, &mut self.pool, bytes, at)
    }
}

// On an image of 256 blocks whose root has block 14. The two files have each other block from 15 on, so neither can
// join a run; the last write of the second gets the block behind its own, since the first was refused it.
#[test]
fn the_fifty_seventh_extent_is_refused(rt: HostRuntime) {
    let mut both = Both::start(rt.alloc()).expect(&rt, "memory");
    for _turn in 0..56 {
        holds(&rt, is_count(both.first_grows(&rt), 4_096));
        holds(&rt, is_count(both.second_grows(&rt), 4_096));
    }
    let excuse = Excuse::Extents { need: 57 };
    holds(&rt, is_excused(both.first_grows(&rt), excuse));
    holds(&rt, is_count(both.second_grows(&rt), 4_096));
    same(&rt, both.first.extents().len(), 56);
    same(&rt, both.second.extents().len(), 56);
    same(&rt, both.second.size(), 233_472);
    holds(&rt, !both.pool.contains(127));
    holds(&rt, both.pool.contains(128));
}
