//! What is at the primary: the names, the files that are here and a pool. A request is served with that, or it is said why not; a file
//! is ordered elsewhere.
#![tactic(auto)]

mod all;
mod dirs;
mod excusing;
mod here;
mod kinds;
mod named;
mod naming;
mod ordered;
mod ordering;
mod room;
mod stock;
mod touching;
mod tried;
mod trying;

pub use ordered::Ordered;
pub use stock::Stock;
pub use tried::Tried;
pub use ufs_baton::Baton;
pub use ufs_held::{HeldFile, Parcel};
pub use ufs_held_names::HeldNames;
pub use ufs_home::{Home, Moved};
pub use ufs_noted::KnownFile;
pub use ufs_serving::{pool_number, send_answers};
pub use ufs_turns::{Direct, HeldStore, Turns};
