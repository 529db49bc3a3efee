//! Two disks as one.
#![tactic(auto)]

mod copying;
mod fault;
mod joining;
mod label;
mod legs;
mod mirror;
mod opening;

pub use fault::{MirrorFault, Unpaired};
pub use legs::{Legpair, Picks};
pub use mirror::{LiveLegs, Mirror};
