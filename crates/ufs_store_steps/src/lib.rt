//! The store's calls as steps of the sound state: what the ledger says of a call is what a mark asks
//! for.
#![tactic(auto)]

mod laws;

pub use laws::{
    cell_law, checkpoint_step_law, file_step_law, mark_law, name_step_law, run_step_law,
    write_mark_law, write_step_law,
};
