//! A file as a server holds it, with what is known of its commits: its requests, and its `fsync`.
#![tactic(auto)]

mod durable;
mod fetching;
mod laws;
mod serving;
mod writes;

pub use durable::{FileCommits, fsync};
pub use fetching::fetch;
pub use laws::{committing_law, fitting_law, others_law, standing_law, whole_law};
pub use serving::apply;
