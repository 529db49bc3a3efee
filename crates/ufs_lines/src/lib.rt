//! The lines of a printed history, each read exactly: which lines are those of replies, and what a line of a trace tells.
#![tactic(auto)]

mod actors;
mod excuses;
mod law;
mod replies;
mod told;
mod trace;
mod words;

pub use law::a_line_tells_one_thing;
pub use replies::is_reply_line;
pub use told::{Told, Why};
pub use trace::read_told;
pub use words::{behind, place_of, same_bytes, without_last};
