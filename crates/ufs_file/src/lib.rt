//! One file, as a server holds it: its blocks, in memory or on the disk alone, where they lie, and what it answers.
#![tactic(auto)]

mod answers;
mod blocks;
mod content;
mod cover;
mod hand;
mod needed;
mod span;

pub use answers::{answered, out_of_memory};
pub use content::MAX_HELD;
pub use hand::{Applied, FileHand};
