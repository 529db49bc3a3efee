//! What a command line does: from its words to a status, to lines on a sink, and to what a disk holds.
#![tactic(auto)]

mod audit;
mod bench;
mod broken;
mod check;
mod ending;
mod image;
mod last_line;
mod laws;
mod mkfs;
mod outcome;
mod recover;
mod response;
mod serving;
mod top;
mod tree;
mod words;

pub use ending::Ending;
pub use image::tell_device;
pub use last_line::{finish, out_of_memory, tell};
pub use outcome::{Outcome, nothing_told};
pub use response::{WordsFault, image_path, respond};
pub use top::quiet;
pub use ufs_words::image_of;
pub use words::{Command, read_command};
