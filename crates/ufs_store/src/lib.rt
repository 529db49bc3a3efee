//! A store: a disk with its journal, what is committed and not yet home, and the blocks that nobody has.
#![tactic(auto)]

mod blocks;
mod boxed;
mod commits;
mod direct;
mod door;
mod fault;
mod homes;
mod laws;
mod store;
mod superblocks;
mod tables;

pub use direct::Direct;
pub use door::Door;
pub use fault::{StoreFault, Uncommitted, Unmounted};
pub use laws::mounting_law;
pub use store::Store;
