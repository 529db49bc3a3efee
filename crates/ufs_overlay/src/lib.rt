//! Committed records over the home sectors of an image.
#![tactic(auto)]

mod adding;
mod lists;
mod overlay;
mod step;

pub use overlay::Overlay;
