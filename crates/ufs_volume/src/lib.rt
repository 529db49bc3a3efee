//! The volume on a disk: its superblock, and the committed transactions of its journal over its home sectors.
#![tactic(auto)]

mod form;
mod overlaid;
mod reading;
mod volume;

pub use reading::read_volume;
pub use volume::FoldedVolume;
