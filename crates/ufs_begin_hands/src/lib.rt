//! A session on hands begins over an image: what was read of it is mounted and opened, and each value is a cell of the first hand.
#![tactic(auto)]

mod files;
mod mounting;
mod opening;
mod values;

pub use mounting::{Ready, mount};
