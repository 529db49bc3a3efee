//! Runs of blocks: where the blocks of a file or a directory lie, in order.
#![tactic(auto)]

ghost use Rattle.std.specs.Prelude.{◌↔◌, IsTrue};

mod file_runs;
mod run_list;

pub use file_runs::Extents;
pub use run_list::Runs;
use ufs_base::MAX_BLOCKS;

/// Blocks in a row: `length` of them, from block `start` on. What takes a run asks that `length` is at least 1,
/// and that `start` and `length` together are at most 65,536.
#[derive(Clone, Copy, Debug, PartialEq, Eq)]
pub struct Run {
    pub start: u32,
    pub length: u32,
}

impl Run {
    ghost use Rattle.ufs_extent.specs.Runs.{IsRun};

    /// Whether the run is one that calls take.
    pub fn is_valid(&self) -> bool
        ensures { IsTrue result ↔ IsRun self.now }
    {
        let Run { start, length } = *self;
        length >= 1 && length <= MAX_BLOCKS && start <= MAX_BLOCKS - length
    }
}

/// All 56 extents are used, and the run doesn't follow the last block.
#[derive(Clone, Copy, Debug, PartialEq, Eq)]
pub struct Full56;
