//! How a server's names come to the disk.
#![tactic(auto)]

mod commits;
mod fitting;
mod laws;
mod zeros;

pub use commits::commit_notes;
pub use laws::{all_law, names_law, reclaim_law, zeros_law};
