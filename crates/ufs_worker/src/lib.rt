//! A worker: it holds files that the primary sent it, and serves requests on them by turns.
#![tactic(auto)]

mod answers;
mod requests;
mod room;
mod sending;
mod shelf;
mod turn;
mod worker;

pub use turn::WorkerTurn;
pub use worker::Worker;
