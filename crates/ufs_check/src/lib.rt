//! What is wrong with the image on a disk.
#![tactic(auto)]

mod bits;
mod checking;

pub use checking::check;
