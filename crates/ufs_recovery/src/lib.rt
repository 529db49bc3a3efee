//! Recovery of an image, so that a stop at any moment leaves the same tree.
#![tactic(auto)]

mod bitmap;
mod bringing;
mod clearing;
mod cutting;
mod faults;
mod finishing;
mod fitting;
mod freeing;
mod orphans;
mod plan;
mod pruning;
mod recovery;
mod sector;
mod steps;
mod superblocks;
mod unneeded;

pub use recovery::recover;
pub use unneeded::free_unneeded;
