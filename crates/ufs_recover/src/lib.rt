//! Formatting a disk, so that a stop at any moment leaves what was there, no superblock, or a whole new image.
#![tactic(auto)]

mod fault;
mod formatting;
mod superblock;
mod tables;

pub use fault::FormatFault;
pub use formatting::format;
