//! Tests of the directories of a tree: what no clause says, and each call once.
#![tactic(auto)]

#[cfg(test)]
mod asserts;
#[cfg(test)]
mod trees;
