//! Short sessions on one thread: each call of a hand once.
#![tactic(auto)]

mod leased;
mod session;

pub use leased::read_under_a_lease;
pub use session::served;
