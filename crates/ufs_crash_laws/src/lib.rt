//! What a crash may leave: changes of files and of names, and the trees that a history explains.
#![tactic(auto)]

mod data;
mod laws;

pub use data::FileChange;
pub use laws::{
    a_commit_is_explained_meanwhile, a_file_is_explained_alone, a_history_goes_by_its_changes,
    a_place_shows_its_changes, a_store_keeps_the_promise, an_acknowledgement_is_kept,
    an_entry_keeps_what_is_shown, bytes_are_written_back_early, synced_changes_stand_before_a_sync,
    trees_are_explained,
};
