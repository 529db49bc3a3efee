ghost use Rattle.std.specs.Prelude.{◌≡◌, ◌≤◌, ◌+◌, true};
ghost use Rattle.std.proofs.Props.{props};
ghost use Rattle.ufs_bitmap.specs.Taking.{IsApart};
ghost use Rattle.ufs_extent.specs.Runs.{blocks_of};
ghost use Rattle.ufs_file.specs.Content.{block_count};
ghost use Rattle.ufs_file.specs.Table.{max_held};
ghost use Rattle.ufs_model.specs.Bounds.{IsBounded};
ghost use Rattle.ufs_model.specs.FileCalls.{is_on_file};

use crate::asserts::{holds, same};
use crate::calls::{
    applied, filled, gave, is_at, is_count, is_done, is_excused, is_refused, open_on, pool_of,
};
use std::alloc::{AllocGlobal, Global};
use std::process::Abort;
use ufs_base::{Lack, MAX_EXTENTS, Memory};
use ufs_bitmap::{Pool, take_runs};
use ufs_extent::Extents;
use ufs_file::FileHand;
use ufs_model::{Errno, Excuse, Op, Reply, Whence};

// A file of number 7, and a pool that has none of its blocks.
#[derive(Drop)]
struct Play {
    file: FileHand,
    pool: Pool,
    ghost number: { file.file ≡ 7 },
    ghost apart: { IsApart pool (blocks_of file.extents) } by { Prim.hlevel props },
}

impl Play {
    // A file with no byte, and so many blocks from 15 on.
    fn start(alloc: Global, length: u32) -> Result<Play, Memory>
        requires some { 1 ≤ length }
        requires inside { 15 + length ≤ 65536 }
    {
        let pool = pool_of(alloc, 15, length)?;
        let file = FileHand::make(alloc, 7, 3)?;
        Ok(Play { file, pool })
    }

    fn applied(&mut self, op: Op) -> Reply
        requires kind { is_on_file op ≡ true }
        requires bounded { IsBounded op }
    {
        applied(&mut self.file, &mut self.pool, op, open_on(7))
    }

    // What was written is on a disk.
    fn clean(&mut self) {
        self.file.clean();
    }

    fn blocks(self) -> u32 {
        let Play { file, .. } = self;
        file.drop_blocks().block_count()
    }
}

#[test]
fn write_past_a_gap_reads_zeros(rt: HostRuntime) {
    let mut play = Play::start(rt.alloc(), 10).expect(&rt, "memory");
    let bytes = filled(&rt, 97, 5_000);
    let op = Op::Pwrite {
        fd: 3,
        bytes,
        at: 10_000,
    };
    let reply = play.applied(op);
    holds(&rt, is_count(reply, 5_000));
    same(&rt, play.file.size(), 15_000);
    same(&rt, play.pool.count(), 6);
    same(&rt, play.file.is_dirty(0), Some(true));
    same(&rt, play.file.is_dirty(4), None);
    let op = Op::Pread {
        fd: 3,
        n: 3,
        at: 9_998,
    };
    let reply = play.applied(op);
    holds(&rt, gave(reply, &[0, 0, 97]));
}

#[test]
fn a_cut_gives_blocks_back_and_leaves_zeros_behind(rt: HostRuntime) {
    let mut play = Play::start(rt.alloc(), 10).expect(&rt, "memory");
    let bytes = filled(&rt, 97, 9_000);
    let reply = play.applied(Op::Write { fd: 3, bytes });
    holds(&rt, is_count(reply, 9_000));
    let reply = play.applied(Op::Trunc { fd: 3, size: 4_097 });
    holds(&rt, is_done(reply));
    same(&rt, play.pool.count(), 8);
    let reply = play.applied(Op::Trunc { fd: 3, size: 4_099 });
    holds(&rt, is_done(reply));
    let op = Op::Pread {
        fd: 3,
        n: 9,
        at: 4_096,
    };
    let reply = play.applied(op);
    holds(&rt, gave(reply, &[97, 0, 0]));
    let seek = Op::Seek {
        fd: 3,
        whence: Whence::End,
        by: 1,
    };
    let reply = play.applied(seek);
    holds(&rt, is_at(reply, 4_100));
    same(&rt, play.file.inode(), 3);
    same(&rt, play.file.extents().len(), 1);
    same(&rt, play.blocks(), 2);
}

#[test]
fn dirty_blocks_lie_in_a_range_that_a_clean_empties(rt: HostRuntime) {
    let mut play = Play::start(rt.alloc(), 10).expect(&rt, "memory");
    let op = Op::Trunc {
        fd: 3,
        size: 40_960,
    };
    let reply = play.applied(op);
    holds(&rt, is_done(reply));
    same(&rt, play.file.dirty_places(), 0..10);
    play.clean();
    holds(&rt, play.file.dirty_places().is_empty());
    for at in [28_672, 8_192] {
        let op = Op::Pwrite {
            fd: 3,
            bytes: filled(&rt, 97, 1),
            at,
        };
        let reply = play.applied(op);
        holds(&rt, is_count(reply, 1));
    }
    same(&rt, play.file.dirty_places(), 2..8);
    play.clean();
    holds(&rt, play.file.dirty_places().is_empty());
}

// A file that had so many bytes, all on a disk, and has been lengthened.
fn lengthened<R: Abort + AllocGlobal>(rt: &R, from: u64, to: u64) -> Play {
    let mut play = Play::start(rt.alloc(), 10).expect(rt, "memory");
    let reply = play.applied(Op::Trunc { fd: 3, size: from });
    holds(rt, is_done(reply));
    play.clean();
    let reply = play.applied(Op::Trunc { fd: 3, size: to });
    holds(rt, is_done(reply));
    play
}

#[test]
fn the_block_in_which_a_file_ended_is_dirty_once_it_grows(rt: HostRuntime) {
    let play = lengthened(&rt, 10_000, 10_001);
    same(&rt, play.file.is_dirty(0), Some(false));
    same(&rt, play.file.is_dirty(1), Some(false));
    same(&rt, play.file.is_dirty(2), Some(true));
    same(&rt, play.file.dirty_places(), 2..3);
    let play = lengthened(&rt, 10_000, 12_289);
    same(&rt, play.file.is_dirty(1), Some(false));
    same(&rt, play.file.is_dirty(2), Some(true));
    same(&rt, play.file.is_dirty(3), Some(true));
    same(&rt, play.file.dirty_places(), 2..4);
}

#[test]
fn a_full_last_block_is_as_it_was_once_the_file_grows(rt: HostRuntime) {
    let play = lengthened(&rt, 8_192, 8_193);
    same(&rt, play.file.is_dirty(1), Some(false));
    same(&rt, play.file.is_dirty(2), Some(true));
    same(&rt, play.file.dirty_places(), 2..3);
}

#[test]
fn a_pool_that_is_too_small_changes_nothing(rt: HostRuntime) {
    let mut play = Play::start(rt.alloc(), 3).expect(&rt, "memory");
    let op = Op::Trunc {
        fd: 3,
        size: 12_289,
    };
    let reply = play.applied(op);
    holds(&rt, is_excused(reply, Excuse::Blocks { need: 4, had: 3 }));
    same(&rt, play.file.size(), 0);
    same(&rt, play.pool.count(), 3);
    let op = Op::Trunc {
        fd: 3,
        size: 12_288,
    };
    let reply = play.applied(op);
    holds(&rt, is_done(reply));
    same(&rt, play.pool.count(), 0);
}

#[test]
fn the_greatest_file(rt: HostRuntime) {
    let mut play = Play::start(rt.alloc(), 5_000).expect(&rt, "memory");
    let op = Op::Pwrite {
        fd: 3,
        bytes: filled(&rt, 97, 1),
        at: 16_777_215,
    };
    let reply = play.applied(op);
    holds(&rt, is_count(reply, 1));
    same(&rt, play.file.size(), 16_777_216);
    same(&rt, play.pool.count(), 904);
    let op = Op::Pwrite {
        fd: 3,
        bytes: filled(&rt, 97, 1),
        at: 16_777_216,
    };
    let reply = play.applied(op);
    holds(&rt, is_refused(reply, Errno::Efbig));
    same(&rt, play.file.size(), 16_777_216);
    let op = Op::Pread {
        fd: 3,
        n: 2,
        at: 16_777_214,
    };
    let reply = play.applied(op);
    holds(&rt, gave(reply, &[0, 97]));
}

// A file of so many bytes, in 4,097 blocks, that an image had; the pool has no block.
fn longer(alloc: Global, size: usize) -> Result<Play, Lack>
    requires small { size ≤ max_held }
    requires blocks { block_count size ≡ 4097 }
{
    let mut pool = pool_of(alloc, 15, 4_097)?;
    let count = pool.count();
    if count != 4_097 {
        return Err(Lack::Unsound);
    }
    let runs = take_runs(alloc, &mut pool, count)?;
    if runs.len() > MAX_EXTENTS {
        return Err(Lack::Unsound);
    }
    let extents = Extents::from_runs(alloc, &runs)?;
    let bytes = vec![in alloc; 97; size]?;
    let file = FileHand::from_read(alloc, 7, 3, extents, &bytes)?;
    Ok(Play { file, pool })
}

#[test]
fn a_longer_file_of_an_image_is_read_and_cut(rt: HostRuntime) {
    let mut play = longer(rt.alloc(), 16_777_217).expect(&rt, "memory");
    same(&rt, play.file.size(), 16_777_217);
    let op = Op::Pread {
        fd: 3,
        n: 9,
        at: 16_777_215,
    };
    let reply = play.applied(op);
    holds(&rt, gave(reply, &[97, 97]));
    let op = Op::Pwrite {
        fd: 3,
        bytes: filled(&rt, 98, 1),
        at: 16_777_216,
    };
    let reply = play.applied(op);
    holds(&rt, is_refused(reply, Errno::Efbig));
    let op = Op::Trunc {
        fd: 3,
        size: 16_777_217,
    };
    let reply = play.applied(op);
    holds(&rt, is_refused(reply, Errno::Efbig));
    let reply = play.applied(Op::Trunc { fd: 3, size: 4_097 });
    holds(&rt, is_done(reply));
    same(&rt, play.pool.count(), 4_095);
}
