//! Logs of what changed since the last commit: of one file's inode, and of the names.
#![tactic(auto)]

mod change;
mod inode_log;
mod name_notes;
mod names_log;

pub use change::Change;
pub use inode_log::{InodeLog, extents_from};
pub use name_notes::NameNotes;
pub use names_log::NamesLog;
