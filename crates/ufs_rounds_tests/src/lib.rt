//! Sessions on hands over images, played by turns: each is mounted, dealt, played, ended and read again.
#![tactic(auto)]

#[cfg(test)]
mod asserts;
mod images;
#[cfg(test)]
mod plays;
#[cfg(test)]
mod session;
#[cfg(test)]
mod steps;

pub use images::{has_alone, new_image, recovers, requests};
