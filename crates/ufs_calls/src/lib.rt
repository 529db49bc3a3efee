//! The rules of the file calls that any server goes by, however it holds its tree.
#![tactic(auto)]

mod file_map;
mod mode;
mod nodes;
mod own;
mod places;

pub use file_map::FileMap;
pub use mode::Mode;
pub use nodes::{
    dir_refusal, file_named, file_of, is_below, is_dir, is_file, list_refusal, make_refusal,
    open_refusal, replace_refusal, rmdir_refusal, stat_refusal, unlink_refusal,
};
pub use own::{desc_refusal, fd_named, own_refusal};
pub use places::{
    MAX_SIZE, count_from, is_past, moved_by, part, place_of, seek_to, size_refusal, text,
    text_refusal,
};
