//! Turns of the store: each call is one hold of the store, by a server that lends the hand of what it is about.
#![tactic(auto)]

mod commits;
mod held_store;
mod reclaims;
mod space;
mod syncs;
mod turns;
mod ways;

pub use held_store::HeldStore;
pub use turns::Turns;
pub use ways::{Direct, Locked};
