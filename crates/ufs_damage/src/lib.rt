//! The damage of an image, told from what was read of its inodes and directories.
#![tactic(auto)]

mod bitmap;
mod damage;
mod findings;
mod forms;
mod lowest;
mod marks;
mod names;
mod shared;
mod slots;
mod sound;
mod taken;
mod telling;

pub use damage::{Damage, DamageList};
pub use findings::{Findings, ReadDir};
pub use sound::{any_leaves, is_sound};
pub use taken::{TakenBlocks, taken_blocks};
pub use telling::damage_of;
