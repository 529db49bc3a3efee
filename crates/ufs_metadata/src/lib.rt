//! What a folded image says of its inodes and directories, read from a disk under the transactions that are
//! committed: the superblock, the inode table and the blocks of directories, each once.
#![tactic(auto)]

mod dirs;
mod fault;
mod findings;
mod forms;
mod reading;
mod superblock;

pub use fault::RecoverFault;
pub use findings::read_findings;
pub use reading::read_block;
pub use superblock::{ImageSuperblock, read_superblock};
