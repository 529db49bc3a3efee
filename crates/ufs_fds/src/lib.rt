//! The descriptors of one client: a map from 3 to 66.
#![tactic(auto)]

mod table;

pub use table::FdTable;
