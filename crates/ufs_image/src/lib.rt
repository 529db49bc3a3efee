//! What an image stands for: what is committed, the tree that it opens to, its damage, and its
//! catalog, which is all that is said of inodes and directories without bytes.
#![tactic(auto)]

mod catalog_laws;
mod laws;

pub use catalog_laws::{
    blocks_law, bytes_law, change_law, damage_law, fold_law, home_law, opening_law, stop_law,
    walk_law,
};
pub use laws::{empty_fold_law, new_image_law};
