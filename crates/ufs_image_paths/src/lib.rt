//! The tree of paths that an image stands for, of which it is known that it is one also where a disk isn't visible.
#![tactic(auto)]

mod lookup;
mod namespace;
mod opened;

pub use namespace::is_path_tree;
pub use opened::path_tree_of;
