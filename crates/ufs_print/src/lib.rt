//! The lines that a command prints of replies, of a trace, of a tree and of damage: how each is spelled, and how they go out.
#![tactic(auto)]

mod damage_lines;
mod pieces;
mod transcripts;
mod tree_lines;
mod write;

pub use damage_lines::print_damage;
pub use transcripts::{PrintFault, print};
pub use tree_lines::{MOST_SHOWN, print_heads};
pub use write::write_all;
