// The blocks of one server's pool.
ghost use Rattle.std.specs.Prelude.{◌≡◌, ◌≤◌, ◌↔◌, IfOk, IfSome, IfNone, IsNone};
ghost use Rattle.std.specs.FinSet as set;
ghost use Rattle.ufs_extent.specs.Runs.{IsRun};
ghost use Rattle.ufs_bitmap.specs.Blocks.{HoldsNone, IsLowestRun, run_set};

use crate::word_set::WordSet;
use std::alloc::Global;
use std::marker::Model;
use ufs_base::{MAX_BLOCKS, Memory};
use ufs_extent::Run;

/// A set of blocks below 65,536. It is kept as bits, for which all memory is taken when it is made: a tree of runs
/// would take memory when a run comes back, and `give` may take none.
#[derive(Drop)]
pub struct Pool {
    blocks: WordSet,
}

impl Model for Pool {
    ghost use Rattle.ufs_base.specs.declared.sizes.TheConstants.{MAX_BLOCKS};
    ghost use Rattle.std.specs.Prelude.{◌≡◌};
    ghost use Rattle.std.specs.FinSet as set;
    ghost use Rattle.std.specs.Coded.{coded_ℕ};
    ghost use Rattle.ufs_bitmap.specs.Blocks.{BlockSet};

    ghost Value = { BlockSet };

    ghost coded = { set.code coded_ℕ };

    ghost view = { λ p. p.blocks.blocks };

    ghost invariant = { λ p. p.blocks.limit ≡ MAX_BLOCKS };
}

impl Pool {
    /// No block.
    pub fn make(alloc: Global) -> Result<Pool, Memory>
        ensures { IfOk result (λ p. p ≡ set.empty) }
    {
        Ok(Pool {
            blocks: WordSet::make(alloc, 1024)?,
        })
    }

    /// How many blocks the pool has.
    pub fn count(&self) -> u32
        ensures { result ≡ set.len self.now }
    {
        self.blocks.count()
    }

    /// Whether the pool has the block.
    pub fn contains(&self, block: u32) -> bool
        ensures { result ≡ set.contains self.now block }
    {
        self.blocks.contains(block)
    }

    /// Takes out the lowest block and those that follow it, at most `want` of them. Takes no memory.
    pub fn take(&mut self, want: u32) -> Option<Run>
        requires { 1 ≤ want }
        ensures run { IfSome result IsRun }
        ensures lowest { IfSome result (IsLowestRun self.old want) }
        ensures taken { IfSome result (λ r. self.new ≡ set.difference self.old (run_set r)) }
        ensures none { IsNone result ↔ (self.old ≡ set.empty) }
        ensures same { IfNone result (self.new ≡ self.old) }
    {
        self.blocks.take_run(want)
    }

    /// Adds the run's blocks, of which the pool has none. Takes no memory.
    pub fn give(&mut self, run: Run)
        requires run { IsRun run }
        requires apart { HoldsNone self.old run }
        ensures { self.new ≡ set.union self.old (run_set run) }
    {
        self.blocks.give(run);
    }
}
