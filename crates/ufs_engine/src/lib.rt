//! A script that is played over a disk's image, in a session on hands.
#![tactic(auto)]

mod asked;
mod beginning;
mod playing;
mod session;

pub use playing::{PlayFault, Played, play};
