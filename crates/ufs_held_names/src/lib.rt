//! The names at a server, with the right to their cell: requests on them are served with the files that they touch, drawn, and answered;
//! and they are committed in turns of the store.
#![tactic(auto)]

mod commits;
mod dirs;
mod draws;
mod held_names;
mod newborn;
mod reclaims;
mod seeing;
mod serving;
mod sync_all;
mod sync_answers;
mod syncs;
mod unopened;

pub use held_names::{FileSynced, HeldNames, NamesServed, NamesSynced};
pub use newborn::Newborn;
pub use unopened::refuse_unopened;
