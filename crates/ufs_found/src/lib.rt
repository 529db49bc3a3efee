//! The sectors of a journal's epoch, decoded, and the lowest that is off for what the journal alone tells.
#![tactic(auto)]

mod found;
mod off;
mod sectors;
mod sorted;

pub use found::{Found, place};
pub use off::{first_off, lower};
pub use sectors::{Sectors, note_sectors};
pub use sorted::between;
