//! The files that a server holds, by their numbers.
#![tactic(auto)]

mod file_hands;

pub use file_hands::FileHands;
