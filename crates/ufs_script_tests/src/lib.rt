//! Tests of scripts and of the lines that are printed.
#![tactic(auto)]

#[cfg(test)]
mod asserts;
#[cfg(test)]
mod lines;
#[cfg(test)]
mod requests;
#[cfg(test)]
mod schedules;
#[cfg(test)]
mod scripts;
