//! Turns of a store about no file: straight, behind a lock, by four threads, over a disk that fails, and commits of names.
#![tactic(auto)]

#[cfg(test)]
mod asserts;
mod names;
mod session;
mod threads;
#[cfg(test)]
mod turns;

pub use names::{Commits, commit_names_of};
pub use session::{Ended, Told, behind_a_lock, straight};
pub use threads::{Shared, by_four_threads};
