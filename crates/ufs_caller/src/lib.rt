//! A client's turns: it answers its requests itself, sends them, and takes their answers.
#![tactic(auto)]

mod client;
mod hands;
mod laws;
mod own;
mod room;
mod told;
mod trip;
mod turn;
mod via;

pub use client::Client;
pub use hands::client_hand;
pub use laws::workers_get_what_goes_by_hints;
pub use room::ClientRoom;
pub use told::Told;
pub use turn::Turn;
pub use via::{Server, Via};
