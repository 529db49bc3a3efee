//! What each server does with a request on a file that it has: its pool, the serving, and the answers that are kept.
#![tactic(auto)]

mod answers;
mod asking;
mod measure;
mod pool;
mod serving;
mod syncing;

pub use answers::{send_answer, send_answers, served_answer};
pub use asking::{file_asked, know, know_on_file};
pub use measure::measured;
pub use pool::{fill, lend_pool, pool_number, rest, take_pool};
pub use serving::serve_change;
pub use syncing::serve_sync;
