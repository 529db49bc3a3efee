//! Worked rows on files by their numbers.
#![tactic(auto)]

#[cfg(test)]
mod rows;
