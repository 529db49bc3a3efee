//! The texts of paths: which are refused and why, and the components of the others.
#![tactic(auto)]

mod check;
mod fault;
mod law;
mod read;
mod text;

pub use check::path_fault;
pub use fault::PathFault;
pub use law::{names_stay_in_whole_paths, short_whole_paths_are_allowed, whole_paths_may_stand};
pub use read::read_path;
pub use text::PathText;
