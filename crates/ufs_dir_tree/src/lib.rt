//! The directories of a tree: each by its inode, over its blocks.
#![tactic(auto)]

mod dir_edit;
mod dir_entry;
mod dir_tree;
mod found;
mod place;
mod space;

pub use dir_tree::DirTree;
pub use found::{Found, Kind, Look};
pub use place::{Added, Moved};
