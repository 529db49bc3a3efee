// Blocks between the unassigned ones and a server's pool.
ghost use Rattle.std.specs.Prelude.{◌≡◌, ◌≤◌};
ghost use Rattle.std.specs.FinSet as set;
ghost use Rattle.ufs_bitmap.specs.Taking.{set_of};
ghost use Rattle.ufs_store.specs.Blocks.{AreApart, AreInside, MayReturn, MovesLowest};

use ufs_base::MAX_BLOCKS;
use ufs_bitmap::{Bitmap, Pool};
use ufs_extent::Runs;

/// Moves the lowest of these blocks into the pool, at most so many.
pub(crate) fn move_lowest(from: &mut Bitmap, pool: &mut Pool, want: u32)
    requires { AreApart pool.old from.old.free }
    ensures moved { MovesLowest want from.old.free from.new.free pool.old pool.new }
    ensures range { from.new ≡ record from.old { free = from.new.free } }
{
    let mut left = want;
    while left > 0 {
        let Some(run) = from.take_run(left) else {
            return;
        };
        pool.give(run);
        left -= run.length;
    }
}

/// Moves every block of the pool back.
pub(crate) fn move_all(pool: &mut Pool, to: &mut Bitmap)
    requires inside { AreInside to.old pool.old }
    requires apart { AreApart pool.old to.old.free }
    ensures back { to.new ≡ record to.old { free = set.union to.old.free pool.old } }
    ensures none { pool.new ≡ set.empty }
{
    while let Some(run) = pool.take(MAX_BLOCKS) {
        to.give(run);
    }
}

/// Gives back the blocks of these runs.
pub(crate) fn give_runs(to: &mut Bitmap, runs: &Runs)
    requires { MayReturn to.old runs.now }
    ensures { to.new ≡ record to.old { free = set.union to.old.free (set_of runs.now) } }
{
    for run in runs.as_slice() {
        to.give(*run);
    }
}
