//! Nodes on lists by index: of two kinds of lists, each node is on at most one of a kind.
#![tactic(auto)]

mod links;
mod lists;
mod numbered;
mod pointers;

pub use links::{Links, Which};
