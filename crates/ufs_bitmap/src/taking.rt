// Blocks that come from a pool by runs, and go back.
ghost use Rattle.std.specs.Prelude.{◌≡◌, ◌+◌, ◌≤◌, ◌<◌, All, IfOk, OnErr};
ghost use Rattle.std.specs.FinSet as set;
ghost use Rattle.ufs_extent.specs.Runs.{IsRun, blocks_of};
ghost use Rattle.ufs_bitmap.specs.Blocks.{IsLowestRun, run_set};
ghost use Rattle.ufs_bitmap.specs.Owners.{OwnersAreApart, OwnersStayApart};
ghost use Rattle.ufs_bitmap.specs.Taking.{Takes, TakesOneWay, IsApart, set_of};

use crate::own_pool::Pool;
use std::alloc::Global;
use ufs_base::Memory;
use ufs_extent::Run;

/// Takes so many blocks out of the pool, by runs, lowest first.
pub fn take_runs(alloc: Global, pool: &mut Pool, want: u32) -> Result<Vec<Run>, Memory>
    requires { want ≤ set.len pool.old }
    ensures taken { IfOk result (λ runs. Takes pool.old want runs.items pool.new 0) }
    ensures runs { IfOk result (λ runs. All IsRun runs.items) }
    ensures err { OnErr result (pool.new ≡ pool.old) }
{
    let mut runs = Vec::with_capacity(alloc, want as usize)?;
    let mut left = want;
    while left > 0 {
        let run = take_run(pool, left);
        runs.push(run).unwrap();
        left -= run.length;
    }
    Ok(runs)
}

// Takes the next run out of a pool that has so many blocks.
fn take_run(pool: &mut Pool, want: u32) -> Run
    requires some { 1 ≤ want }
    requires enough { want ≤ set.len pool.old }
    ensures run { IsRun result }
    ensures lowest { IsLowestRun pool.old want result }
    ensures taken { pool.new ≡ set.difference pool.old (run_set result) }
    ensures left { want ≤ set.len pool.new + result.length }
{
    match pool.take(want) {
        Some(run) => run,
        None => unreachable!(),
    }
}

/// Gives blocks back, of which the pool has none. Takes no memory.
pub fn give_runs(pool: &mut Pool, runs: &[Run])
    requires runs { All IsRun runs.now }
    requires apart { IsApart pool.old (blocks_of runs.now) }
    ensures { pool.new ≡ set.union pool.old (set_of runs.now) }
{
    for run in runs {
        pool.give(*run);
    }
}

/// Which runs a pool gives in turn, and what it then has, follows from the pool and from how many blocks are wanted.
pub fn a_pool_gives_in_one_way()
    ensures { TakesOneWay }
{}

/// Where one of several owners exchanges blocks with the pool, no block comes to have two owners.
pub fn owners_stay_apart()
    ensures each { OwnersAreApart }
    ensures all { OwnersStayApart }
{}
