//! Which inode stands at each path of an image, and which inodes walks from the root meet.
#![tactic(auto)]

mod index;
mod places;
mod reaching;
mod turns;
mod walk;

pub use places::PathAt;
pub use reaching::reached_inodes;
pub use walk::places_of;
