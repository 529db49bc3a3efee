//! The primary and its turn: its letters, a request that is served with what is at it, and requests that wait.
#![tactic(auto)]

mod answering;
mod letters;
mod primary;
mod room;
mod turn;
mod waiting;

pub use primary::Primary;
pub use room::Room;
pub use turn::PrimaryTurn;
pub use ufs_at_primary::{
    Baton, Direct, HeldFile, HeldNames, HeldStore, Home, KnownFile, Moved, Ordered, Parcel, Turns,
    pool_number,
};
pub use waiting::Waiting;
