//! A short session on one thread, with each call of a hand once; and worked rows of the laws.
#![tactic(auto)]

mod row;
mod session;

pub use row::{a_row_is_sound, a_row_of_names_is_sound};
pub use session::{SECTORS, mounted, served, small_parts};
