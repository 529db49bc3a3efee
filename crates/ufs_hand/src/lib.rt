//! A hand is the right to the parts that it names, of one session. All hands together keep one history.
#![tactic(auto)]

mod hand;
mod rule;

pub use hand::{Begun, Drawn, Hand, HandTable, Now, Opened, Whole};
pub use rule::{Drawing, Event, Leaving, Naming, Opening, Parts};
