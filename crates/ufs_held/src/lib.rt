//! A file at a server, with the right to its cell: requests on it are served, drawn, and answered; and a file on its way between servers.
#![tactic(auto)]

mod births;
mod commits;
mod draws;
mod excuses;
mod held;
mod parcel;
mod replies;
mod serving;
mod still;
mod syncs;

pub use excuses::excuse_of;
pub use held::{Dropped, HeldFile, Served, draw_with_files, reclaim_with_files, see_files};
pub use parcel::Parcel;
pub use replies::{draw_reply, entry_at, reply_to};
