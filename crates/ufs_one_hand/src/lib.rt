//! All parts of a session in one hand, but for files that are apart: what one thread has that serves every client.
#![tactic(auto)]

mod hand;
mod picks;
mod pools;

pub use hand::{OneHand, abandon, starts_can_begin};
pub use picks::{Answering, Passing};
pub use pools::PRIMARY_POOL;
