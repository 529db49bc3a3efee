//! The first hand of a session is dealt: to the names, the store and each file, which have its cells, and to servers' pools.
#![tactic(auto)]

mod dealing;
mod laws;

pub use dealing::{Dealt, deal, deal_file, deal_files, deal_pool};
pub use laws::dealt_law;
