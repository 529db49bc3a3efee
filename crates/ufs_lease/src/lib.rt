//! The leases that clients have on one part: which of them stand against a change, and until when.
#![tactic(auto)]

mod path;
mod table;

pub use table::LeaseTable;
