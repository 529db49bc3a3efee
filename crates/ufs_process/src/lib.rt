//! What a process does: a command over an image's file, or over two as one.
#![tactic(auto)]

mod counted;
mod outcome;
mod process;
mod refusal;
mod top;

pub use outcome::MirrorOutcome;
pub use process::process_status;
pub use refusal::tell_mirror_fault;
pub use top::mirrored;
pub use ufs_command::quiet;
