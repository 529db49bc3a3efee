//! The names on hands, over a small session: its client asks for a `sync`, where the store goes or has stopped, they are committed twice, and all hands go back.
#![tactic(auto)]

#[cfg(test)]
mod asserts;
mod session;
#[cfg(test)]
mod tests;

pub use session::{Synced, Told, synced_by_hand};
