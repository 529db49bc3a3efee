//! How a server whose tree is on a disk keeps its promise, from one event to the next: by requests of the names and on files, by commits
//! and by what fails; which tree its names and the image's directories are; and what stands on the disk once everything is synced.
#![tactic(auto)]

mod ending;
mod file_events;
mod laws;
mod ledger;
mod names;
mod names_events;
mod trees;

pub use ending::{last_law, synced_law};
pub use file_events::{
    fetch_law, file_failure_law, file_memory_law, file_moments_law, file_request_law,
    file_sync_law, told_law,
};
pub use laws::{
    always_law, entry_law, file_commit_law, file_entry_law, names_commit_law, notes_law,
    on_disk_law, pool_law, read_law, ready_law, stopping_law, stored_explains, sync_law,
};
pub use ledger::{names_go_on_law, numbers_law};
pub use names::{birth_row, change_law, files_law, names_law, noted_law, state_law};
pub use names_events::{names_request_law, served_names_law};
pub use trees::{files_part_law, image_start_law, names_part_law, names_stand_law};
