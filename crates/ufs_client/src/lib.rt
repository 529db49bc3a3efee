//! What a client knows of a session, and the transcripts of all clients.
#![tactic(auto)]

mod client;
mod own;
mod played;

pub use client::{ask, keep};
pub use own::{OwnAnswer, answer_own};
pub use played::{EndFault, Session, ToldLists};
