// Blocks that come to a pool, which may have some of them already.
ghost use Rattle.std.specs.Prelude.{ℕ, All, ◌≡◌, ◌⊎◌, ◌≤◌, ◌-◌, ◌<◌, true, false, IfNone, IfSome, IsTrue};
ghost use Rattle.std.specs.FinSet as set;
ghost use Rattle.ufs_base.specs.declared.sizes.TheConstants.{MAX_BLOCKS};
ghost use Rattle.ufs_bitmap.specs.Blocks.{run_set};
ghost use Rattle.ufs_bitmap.specs.Taking.{set_of};
ghost use Rattle.ufs_extent.specs.Runs.{IsRun};
ghost use Rattle.ufs_pouring.specs.Lent.{listed};

use ufs_base::MAX_BLOCKS;
use ufs_bitmap::Pool;
use ufs_extent::Run;

// The block is the pool's. Takes no memory.
fn add_block(pool: &mut Pool, block: u32)
    requires { block < MAX_BLOCKS }
    ensures { pool.new ≡ set.insert pool.old block }
{
    if !pool.contains(block) {
        pool.give(Run {
            start: block,
            length: 1,
        });
    }
}

// The run's blocks are the pool's. Takes no memory.
fn add_run(pool: &mut Pool, run: Run)
    requires { IsRun run }
    ensures { pool.new ≡ set.union pool.old (run_set run) }
{
    for block in run.start..run.start + run.length {
        add_block(pool, block);
    }
}

/// The blocks of these runs are the pool's. Takes no memory.
pub fn add_runs(pool: &mut Pool, runs: &[Run])
    requires { All IsRun runs.now }
    ensures { pool.new ≡ set.union pool.old (set_of runs.now) }
{
    for run in runs {
        add_run(pool, *run);
    }
}

// One run of the one pool goes to the other.
fn pour_run(from: &mut Pool, into: &mut Pool)
    ensures all { set.union into.new from.new ≡ set.union into.old from.old }
    ensures less { set.len from.new ≤ set.len from.old - 1 }
{
    match from.take(MAX_BLOCKS) {
        Some(lowest) => add_run(into, lowest),
        None => {}
    }
}

/// All blocks of the one pool go to the other. Takes no memory.
pub fn pour(from: &mut Pool, into: &mut Pool)
    ensures into { into.new ≡ set.union into.old from.old }
    ensures from { from.new ≡ set.empty }
{
    let count = from.count();
    for _turn in 0..count {
        pour_run(from, into);
    }
}

/// One block of the pool is lent, if any is to be and the pool has one. Takes no memory.
pub fn lend(pool: &mut Pool, lent: &mut Pool, lends: bool) -> Option<u32>
    requires { lent.old ≡ set.empty }
    ensures asked { IfSome result (λ block. (IsTrue lends) × (set.contains pool.old block ≡ true)) }
    ensures none { IfNone result ((lends ≡ false) ⊎ (pool.old ≡ set.empty)) }
    ensures lent { lent.new ≡ set.from_list (listed result) }
    ensures pool { pool.new ≡ set.difference pool.old lent.new }
    ensures within { (b : ℕ) → set.contains lent.new b ≡ true → set.contains pool.old b ≡ true }
{
    if !lends {
        return None;
    }
    match pool.take(1) {
        Some(lowest) => {
            lent.give(lowest);
            Some(lowest.start)
        }
        None => None,
    }
}
