//! Tests of the logs, of the overlay and of the calls of a store: vectors of the format, and what no clause says.
#![tactic(auto)]

#[cfg(test)]
mod asserts;
#[cfg(test)]
mod births;
#[cfg(test)]
mod logs;
#[cfg(test)]
mod over;
#[cfg(test)]
mod stores;
