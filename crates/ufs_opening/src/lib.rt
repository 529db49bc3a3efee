//! Opening an image: why it stands for no tree, or the tree that it stands for, as its committed transactions leave
//! it.
#![tactic(auto)]

mod files;
mod head;
mod opened;
mod opening;
mod reading;
mod tree;

pub use head::{NodeHead, PathHead};
pub use opened::Opened;
pub use opening::open;
pub use tree::{tree_heads, tree_of};
pub use ufs_metadata::RecoverFault;
