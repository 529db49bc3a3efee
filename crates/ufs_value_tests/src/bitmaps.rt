ghost use Rattle.std.specs.Prelude.{◌≡◌, ◌≤◌, ◌<◌, false};
ghost use Rattle.std.specs.FinSet as set;

use crate::asserts::{holds, same};
use std::alloc::Global;
use std::process::Abort;
use ufs_base::Memory;
use ufs_bitmap::{Bitmap, Pool};
use ufs_extent::Run;

#[test]
fn takes_the_lowest_and_what_follows_it(rt: HostRuntime) {
    let mut bitmap = Bitmap::all_free(rt.alloc(), 14, 18).expect(&rt, "memory");
    holds(&rt, bitmap.is_free(16));
    bitmap.claim(Run {
        start: 16,
        length: 1,
    });
    same(&rt, bitmap.count(), 3);
    holds(&rt, bitmap.is_free(15));
    holds(&rt, !bitmap.is_free(16));
    same(&rt, taken(&mut bitmap, 3), Some((14, 2)));
    same(&rt, taken(&mut bitmap, 3), Some((17, 1)));
    same(&rt, taken(&mut bitmap, 1), None);
    holds(&rt, !bitmap.is_free(15));
    bitmap.give(Run {
        start: 15,
        length: 1,
    });
    same(&rt, bitmap.count(), 1);
}

#[test]
fn bytes_of_a_disk(rt: HostRuntime) {
    // Blocks 0 to 10 are before the range, 13 is used, and 20 is past the end.
    let mut bitmap = Bitmap::all_free(rt.alloc(), 11, 20).expect(&rt, "memory");
    holds(&rt, bitmap.is_free(13));
    bitmap.claim(Run {
        start: 13,
        length: 1,
    });
    let mut bytes = [0xaa; 4];
    bitmap.put_bytes(0, &mut bytes);
    same(&rt, bytes, [0xff, 0x27, 0, 0]);
    bitmap.put_bytes(1, &mut bytes);
    same(&rt, bytes, [0x27, 0, 0, 0]);

    let again = Bitmap::from_bytes(rt.alloc(), 11, 20, &[0xff, 0x27, 0xf0]).expect(&rt, "memory");
    same(&rt, again.count(), 8);
    holds(&rt, again.is_free(12));
    holds(&rt, !again.is_free(13));
}

fn high_pool(alloc: Global) -> Result<Pool, Memory> {
    let mut pool = Pool::make(alloc)?;
    pool.give(Run {
        start: 65_000,
        length: 536,
    });
    Ok(pool)
}

#[test]
fn a_pool_takes_and_gives(rt: HostRuntime) {
    let mut pool = high_pool(rt.alloc()).expect(&rt, "memory");
    for block in [64, 63] {
        holds(&rt, !pool.contains(block));
        pool.give(Run {
            start: block,
            length: 1,
        });
    }
    same(&rt, pool.count(), 538);
    holds(&rt, pool.contains(65_535));
    holds(&rt, !pool.contains(65));
    for (want, run) in [(70, (63, 2)), (500, (65_000, 500)), (500, (65_500, 36))] {
        let found = pool.take(want).map(|run| (run.start, run.length));
        same(&rt, found, Some(run));
    }
    same(&rt, pool.take(1), None);
}

// A bitmap of 200 blocks, and a list that says of each whether it is free.
#[derive(Drop)]
struct Both {
    bitmap: Bitmap,
    free: [bool; 200],
    ghost first: { bitmap.first ≡ 0 },
    ghost blocks: { bitmap.blocks ≡ 200 },
}

impl Both {
    fn start(alloc: Global) -> Result<Both, Memory> {
        let bitmap = Bitmap::all_free(alloc, 0, 200)?;
        Ok(Both {
            bitmap,
            free: [true; 200],
        })
    }

    // Takes so many blocks from both, and asserts that they agree.
    fn take(&mut self, rt: &impl Abort, want: u32)
        requires { 1 ≤ want }
    {
        let found = taken(&mut self.bitmap, want);
        same(rt, found, lowest(&self.free, want));
        let (start, length) = found.expect(rt, "none");
        for block in start..start.saturating_add(length) {
            self.free[block as usize % 200] = false;
        }
    }

    fn give(&mut self, block: u32)
        requires inside { block < 200 }
        requires taken { set.contains self.old.bitmap.free block ≡ false }
    {
        self.bitmap.give(Run {
            start: block,
            length: 1,
        });
        self.free[block as usize] = true;
    }

    fn turn(&mut self, rt: &impl Abort, seed: u32) {
        let block = (seed >> 8) % 200;
        same(rt, self.bitmap.is_free(block), self.free[block as usize]);
        if self.bitmap.is_free(block) {
            self.take(rt, 1 + (seed >> 24) % 9);
        } else {
            self.give(block);
        }
        let count = self.free.iter().filter(|free| **free).count();
        same(rt, self.bitmap.count() as usize, count);
    }
}

// A walk of takes and gives beside the list.
#[test]
fn a_walk_agrees_with_a_plain_set(rt: HostRuntime) {
    let mut both = Both::start(rt.alloc()).expect(&rt, "memory");
    let mut seed: u32 = 7;
    for _turn in 0..400 {
        seed = seed.wrapping_mul(1_664_525).wrapping_add(1_013_904_223);
        both.turn(&rt, seed);
    }
}

fn taken(bitmap: &mut Bitmap, want: u32) -> Option<(u32, u32)>
    requires { 1 ≤ want }
    ensures first { bitmap.new.first ≡ bitmap.old.first }
    ensures blocks { bitmap.new.blocks ≡ bitmap.old.blocks }
{
    bitmap.take_run(want).map(|run| (run.start, run.length))
}

fn lowest(free: &[bool; 200], want: u32) -> Option<(u32, u32)> {
    let first = free.iter().position(|free| *free)?;
    for end in first..200 {
        if !free[end] || end - first == want as usize {
            return Some((first as u32, (end - first) as u32));
        }
    }
    Some((first as u32, 200 - first as u32))
}
