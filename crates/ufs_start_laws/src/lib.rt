//! What a server begins with, as it is read of an image, is on its disk.
#![tactic(auto)]

mod laws;
mod mounting;

pub use laws::{begun_law, parts_law};
pub use mounting::start_law;
