//! What a server begins with, made of an image.
#![tactic(auto)]

mod copy;
mod dirs;
mod extents;
mod fault;
mod files;
mod free;
mod laws;
mod names;
mod numbers;
mod parts;
mod reached;
mod starting;
mod tables;
mod unnamed;
mod used;

pub use copy::copy_of;
pub use fault::StartFault;
pub use files::files_of;
pub use laws::{copy_law, start_files_law, start_numbers_law};
pub use names::names_in;
pub use numbers::{Numbers, numbers_of};
pub use parts::Start;
pub use starting::start_of;
