//! Loading an image: what a server begins with.
#![tactic(auto)]

mod free;
mod loading;

pub use loading::{Loaded, load};
pub use ufs_metadata::RecoverFault;
