//! The words of the command line: which command they are, and which files they name.
#![tactic(auto)]

mod command;
mod grammar;
mod numbers;
mod values;

pub use command::{Command, read_command};
pub use values::{image_of, mirror_of};
