//! Blocks that come to a pool, which may have some of them already.
#![tactic(auto)]

mod pouring;

pub use pouring::{add_runs, lend, pour};
