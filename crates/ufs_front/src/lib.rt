//! A disk in memory that holds its first bytes, with zeros behind them.
#![tactic(auto)]

mod front;
mod ranges;

pub use front::FrontDisk;
