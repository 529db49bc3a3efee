//! Tests of a tree's names: what no clause says, and each call once.
#![tactic(auto)]

#[cfg(test)]
mod asserts;
#[cfg(test)]
mod names;
