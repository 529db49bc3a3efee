//! What a store keeps of its disk in logical words: the ledger, the calls that change it, and what a
//! history says of it.
#![tactic(auto)]

mod calls;
mod laws;

pub use calls::{checkpoint, commit_records, read_data, settle, write_data};
pub use laws::{
    block_law, checkpoint_law, commit_law, form_law, mount_law, opening_law, promise_law,
    proper_law,
};
