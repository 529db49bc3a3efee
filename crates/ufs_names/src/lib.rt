//! The namespace: what stands at each path, over the blocks of directories, and what a server answers by it.
#![tactic(auto)]

mod closed;
mod closing;
mod file_list;
mod hold_map;
mod holding;
mod keep;
mod laws;
mod names;
mod needs;
mod noting;
mod opening;
mod path_calls;
mod renaming;

pub use file_list::FileList;
pub use laws::{a_file_request_keeps_the_names, notes_are_beside};
pub use names::Names;
