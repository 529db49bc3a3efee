//! A session on hands played by turns on one thread.
#![tactic(auto)]

mod beginning;
mod dealing;
mod end_room;
mod ending;
mod gathering;
mod moves;
mod participants;
mod polling;
mod room;
mod rounds;
mod session;
mod settling;
mod turned;
mod turning;

pub use beginning::Unbegun;
pub use end_room::EndRoom;
pub use ending::{Played, Unended};
pub use participants::Participants;
pub use rounds::Unfinished;
pub use session::Session;
pub use turned::Turned;
pub use ufs_begin_hands::{Ready, mount};
pub use ufs_caller::Told;
pub use ufs_dealt::dealt_law;
