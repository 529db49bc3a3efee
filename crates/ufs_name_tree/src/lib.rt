//! The names of a tree: its directories by their inodes, and the number of each file that has a name.
#![tactic(auto)]

mod edits;
mod name_tree;
mod notes;

pub use name_tree::NameTree;
