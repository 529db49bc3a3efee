//! The names with what was noted of them since their last commit: they serve a request with the one file that it touches, and are
//! committed in a turn of the store.
#![tactic(auto)]

mod applying;
mod committing;
mod known;
mod noted;
mod room;

pub use known::{KnownFile, Made, With};
pub use noted::NotedNames;
