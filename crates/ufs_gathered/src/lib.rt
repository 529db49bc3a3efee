//! The end of a session on hands: the rights to all cells come to one hand, and that is closed.
#![tactic(auto)]

mod ending;
mod finishing;
mod gathering;
mod measuring;

pub use ending::{Ended, end};
pub use finishing::{Finished, finish, leave};
pub use gathering::{Actors, Remains};
