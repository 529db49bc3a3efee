//! Which server has each file, and which clients wait for it.
#![tactic(auto)]

mod clients;
mod law;
mod owner;
mod records;
mod table;

pub use law::{a_file_has_its_owner, a_file_has_those_that_wait, no_file_is_out, other_files_stay};
pub use owner::Owner;
pub use table::OwnerTable;
