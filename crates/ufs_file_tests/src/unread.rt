// A file of which nothing was read at first.
ghost use Rattle.std.specs.Prelude.{◌≡◌, ◌≤◌, true};
ghost use Rattle.std.proofs.Props.{props};
ghost use Rattle.ufs_bitmap.specs.Taking.{IsApart};
ghost use Rattle.ufs_extent.specs.Runs.{blocks_of};
ghost use Rattle.ufs_file.specs.Content.{block_count};
ghost use Rattle.ufs_file.specs.Table.{max_held};
ghost use Rattle.ufs_model.specs.Bounds.{IsBounded, max_transfer};
ghost use Rattle.ufs_model.specs.FileCalls.{is_on_file};

use crate::asserts::{holds, same};
use crate::calls::{applied, filled, gave, is_count, is_done, is_excused, open_on, pool_of};
use std::alloc::{AllocGlobal, Global};
use std::process::Abort;
use ufs_base::{BLOCK, Lack, MAX_EXTENTS, Memory};
use ufs_bitmap::{Pool, take_runs};
use ufs_extent::Extents;
use ufs_file::FileHand;
use ufs_model::{Excuse, Op, Reply, Whence};

// A file of number 7, and a pool that has none of its blocks.
#[derive(Drop)]
struct Partly {
    file: FileHand,
    pool: Pool,
    ghost number: { file.file ≡ 7 },
    ghost apart: { IsApart pool (blocks_of file.extents) } by { Prim.hlevel props },
}

impl Partly {
    // A file of so many bytes, in three blocks, and three more in the pool.
    fn start(alloc: Global, size: u64) -> Result<Partly, Lack>
        requires small { size ≤ max_held }
        requires blocks { block_count size ≡ 3 }
    {
        let mut pool = pool_of(alloc, 15, 6)?;
        if pool.count() < 3 {
            return Err(Lack::Unsound);
        }
        let runs = take_runs(alloc, &mut pool, 3)?;
        if runs.len() > MAX_EXTENTS {
            return Err(Lack::Unsound);
        }
        let extents = Extents::from_runs(alloc, &runs)?;
        let file = FileHand::unread(alloc, 7, 3, extents, size)?;
        Ok(Partly { file, pool })
    }

    fn applied(&mut self, op: Op) -> Reply
        requires kind { is_on_file op ≡ true }
        requires bounded { IsBounded op }
    {
        applied(&mut self.file, &mut self.pool, op, open_on(7))
    }

    // The block at this place is read: it has this byte throughout.
    fn load(&mut self, place: usize, block: &[u8; BLOCK]) -> Result<(), Memory> {
        match self.file.is_there(place) {
            Some(false) => self.file.load(place, block),
            _ => Ok(()),
        }
    }

    fn needed(&self, op: &Op) -> (u32, u32) {
        let places = self.file.needed_places(op, open_on(7));
        (places.start, places.end)
    }

    // The byte at a place in a block.
    fn byte(&self, place: usize, at: usize) -> Option<u8> {
        match self.file.block(place) {
            Some(block) => block.get(at).copied(),
            None => None,
        }
    }
}

fn start<R: Abort + AllocGlobal>(rt: &R) -> Partly {
    Partly::start(rt.alloc(), 10_000).expect(rt, "memory")
}

fn needs(rt: &impl Abort, partly: &Partly, op: Op, from: u32, end: u32) {
    assert_eq!(rt; partly.needed(&op), (from, end));
}

fn pread(n: u32, at: u64) -> Op
    requires { n ≤ max_transfer }
    ensures kind { is_on_file result ≡ true }
    ensures bounded { IsBounded result }
{
    Op::Pread { fd: 3, n, at }
}

#[test]
fn nothing_is_in_memory_at_first(rt: HostRuntime) {
    let mut partly = start(&rt);
    same(&rt, partly.file.size(), 10_000);
    same(&rt, partly.file.is_there(2), Some(false));
    same(&rt, partly.file.is_there(3), None);
    same(&rt, partly.byte(0, 0), None);
    holds(&rt, partly.file.dirty_places().is_empty());
    let reply = partly.applied(Op::Pread { fd: 3, n: 1, at: 0 });
    holds(&rt, is_excused(reply, Excuse::Memory));
}

#[test]
fn a_read_needs_the_blocks_that_it_reads(rt: HostRuntime) {
    let partly = start(&rt);
    needs(&rt, &partly, Op::Read { fd: 3, n: 10 }, 0, 1);
    needs(&rt, &partly, pread(4_097, 4_095), 0, 2);
    needs(&rt, &partly, pread(4_096, 4_096), 1, 2);
    needs(&rt, &partly, pread(9_999, 8_192), 2, 3);
    needs(&rt, &partly, pread(9, 20_000), 3, 3);
}

#[test]
fn a_write_needs_some_of_the_blocks_that_it_writes_and_the_end(rt: HostRuntime) {
    let partly = start(&rt);
    let rows = [
        (4_096, 4_096, 1, 2),
        (10_000, 1, 2, 3),
        (20_000, 1, 2, 3),
        (5, 0, 0, 0),
    ];
    for (at, count, from, end) in rows {
        let bytes = filled(&rt, 97, count);
        needs(&rt, &partly, Op::Pwrite { fd: 3, bytes, at }, from, end);
    }
    let bytes = filled(&rt, 97, 1);
    needs(&rt, &partly, Op::Write { fd: 3, bytes }, 0, 1);
}

#[test]
fn a_cut_needs_the_block_that_it_goes_through(rt: HostRuntime) {
    let partly = start(&rt);
    needs(&rt, &partly, Op::Trunc { fd: 3, size: 8_192 }, 2, 2);
    needs(&rt, &partly, Op::Trunc { fd: 3, size: 8_191 }, 1, 2);
    needs(
        &rt,
        &partly,
        Op::Trunc {
            fd: 3,
            size: 99_999,
        },
        2,
        3,
    );
    needs(&rt, &partly, Op::Fsync { fd: 3 }, 0, 0);
    let seek = Op::Seek {
        fd: 3,
        whence: Whence::End,
        by: 1,
    };
    needs(&rt, &partly, seek, 0, 0);
}

#[test]
fn the_last_block_ends_with_the_file(rt: HostRuntime) {
    let mut partly = start(&rt);
    partly.load(2, &[97; BLOCK]).expect(&rt, "memory");
    same(&rt, partly.byte(2, 1_807), Some(97));
    same(&rt, partly.byte(2, 1_808), Some(0));
    same(&rt, partly.file.is_dirty(2), Some(false));
    let reply = partly.applied(pread(9, 9_998));
    holds(&rt, gave(reply, &[97, 97]));
    let reply = partly.applied(Op::Trunc {
        fd: 3,
        size: 10_001,
    });
    holds(&rt, is_done(reply));
    let reply = partly.applied(pread(9, 9_999));
    holds(&rt, gave(reply, &[97, 0]));
}

#[test]
fn loaded_blocks_are_written_over(rt: HostRuntime) {
    let mut partly = start(&rt);
    partly.load(0, &[97; BLOCK]).expect(&rt, "memory");
    partly.load(1, &[98; BLOCK]).expect(&rt, "memory");
    let op = Op::Pwrite {
        fd: 3,
        bytes: filled(&rt, 99, 2),
        at: 4_095,
    };
    let reply = partly.applied(op);
    holds(&rt, is_count(reply, 2));
    let reply = partly.applied(pread(4, 4_094));
    holds(&rt, gave(reply, &[97, 99, 99, 98]));
    same(&rt, partly.file.dirty_places(), 0..2);
    let reply = partly.applied(pread(1, 8_192));
    holds(&rt, is_excused(reply, Excuse::Memory));
}

fn pwrite<R: Abort + AllocGlobal>(rt: &R, count: usize, at: u64) -> Op
    requires { count ≤ max_transfer }
    ensures kind { is_on_file result ≡ true }
    ensures bounded { IsBounded result }
{
    let bytes = filled(rt, 99, count);
    Op::Pwrite { fd: 3, bytes, at }
}

#[test]
fn a_write_needs_no_block_that_it_covers(rt: HostRuntime) {
    let mut partly = start(&rt);
    let op = pwrite(&rt, 4_096, 4_096);
    holds(&rt, !partly.file.needs(&op, open_on(7), 1));
    holds(&rt, partly.file.is_ready(&op, open_on(7)));
    let reply = partly.applied(op);
    holds(&rt, is_count(reply, 4_096));
    same(&rt, partly.file.is_there(0), Some(false));
    same(&rt, partly.file.is_there(1), Some(true));
    same(&rt, partly.file.dirty_places(), 1..2);
    same(&rt, partly.byte(1, 0), Some(99));
    same(&rt, partly.byte(1, 4_095), Some(99));
}

#[test]
fn a_write_needs_a_block_of_which_it_leaves_a_byte(rt: HostRuntime) {
    let mut partly = start(&rt);
    let rows = [
        (4_096, 4_095, 1),
        (4_097, 4_095, 1),
        (8_192, 1_807, 2),
        (8_193, 1_807, 2),
        (10_000, 4_096, 2),
    ];
    for (at, count, place) in rows {
        let op = pwrite(&rt, count, at);
        holds(&rt, partly.file.needs(&op, open_on(7), place));
        holds(&rt, !partly.file.is_ready(&op, open_on(7)));
        let reply = partly.applied(op);
        holds(&rt, is_excused(reply, Excuse::Memory));
    }
    same(&rt, partly.file.is_there(1), Some(false));
    same(&rt, partly.file.is_there(2), Some(false));
}

#[test]
fn a_write_covers_the_block_in_which_the_file_ends(rt: HostRuntime) {
    let mut partly = start(&rt);
    let reply = partly.applied(pwrite(&rt, 1_808, 8_192));
    holds(&rt, is_count(reply, 1_808));
    same(&rt, partly.file.size(), 10_000);
    same(&rt, partly.byte(2, 1_807), Some(99));
    same(&rt, partly.byte(2, 1_808), Some(0));
    let mut longer = start(&rt);
    let reply = longer.applied(pwrite(&rt, 5_000, 8_192));
    holds(&rt, is_count(reply, 5_000));
    same(&rt, longer.file.size(), 13_192);
    same(&rt, longer.file.dirty_places(), 2..4);
    same(&rt, longer.file.is_there(1), Some(false));
    same(&rt, longer.byte(2, 4_095), Some(99));
    same(&rt, longer.byte(3, 903), Some(99));
    same(&rt, longer.byte(3, 904), Some(0));
}

#[test]
fn a_cut_goes_through_a_loaded_block(rt: HostRuntime) {
    let mut partly = start(&rt);
    let reply = partly.applied(Op::Trunc { fd: 3, size: 4_098 });
    holds(&rt, is_excused(reply, Excuse::Memory));
    partly.load(1, &[98; BLOCK]).expect(&rt, "memory");
    let reply = partly.applied(Op::Trunc { fd: 3, size: 4_098 });
    holds(&rt, is_done(reply));
    same(&rt, partly.byte(1, 1), Some(98));
    same(&rt, partly.byte(1, 2), Some(0));
    same(&rt, partly.file.is_there(0), Some(false));
    same(&rt, partly.file.is_there(2), None);
}

#[test]
fn new_blocks_are_in_memory(rt: HostRuntime) {
    let mut partly = start(&rt);
    partly.load(2, &[97; BLOCK]).expect(&rt, "memory");
    let op = Op::Pwrite {
        fd: 3,
        bytes: filled(&rt, 99, 1),
        at: 16_384,
    };
    let reply = partly.applied(op);
    holds(&rt, is_count(reply, 1));
    same(&rt, partly.file.size(), 16_385);
    same(&rt, partly.file.is_there(1), Some(false));
    same(&rt, partly.file.is_there(4), Some(true));
    let reply = partly.applied(pread(9, 9_999));
    holds(&rt, gave(reply, &[97, 0, 0, 0, 0, 0, 0, 0, 0]));
}
