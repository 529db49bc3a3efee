//! The text of scripts, of replies and of traces.
#![tactic(auto)]

mod draft;
mod fault;
mod law;
mod lines;
mod lists;
mod output;
mod places;
mod reading;
mod request;
mod schedule;
mod script;
mod verb;
mod words;

pub use fault::ScriptFault;
pub use law::{a_longer_text_breaks_alike, printing_and_reading};
pub use lists::{OpList, OpLists, ScheduleWord, WordList};
pub use output::{reply_line, trace_line};
pub use reading::{read_placed, read_script};
pub use script::{PlacedScript, Script};
pub use words::number;
