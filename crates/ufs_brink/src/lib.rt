//! Where an image's session begins and ends: it is recovered, mended and read, goes into a mounted store, and is made clean again.
#![tactic(auto)]

mod beginning;
mod closing;
mod laws;
mod starting;

pub use beginning::{Unbegun, why_unmounted};
pub use closing::{CloseFault, clean};
pub use laws::{beginning_law, mounted_law};
pub use starting::recovered_start;
