//! A hand without a cell that goes from one turn to the next: so tickets are in the order of turns.
#![tactic(auto)]

mod baton;

pub use baton::Baton;
