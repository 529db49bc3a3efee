//! The files of the primary: those that are at it, each with the right to its cell, who has each other one, and letters to workers.
#![tactic(auto)]

mod at_home;
mod home;
mod leaving;
mod lent;
mod mailbox;
mod moved;
mod moving;
mod owning;
mod sending;
mod shelf;
mod stage;

pub use home::Home;
pub use moved::Moved;
