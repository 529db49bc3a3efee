//! Tests of the plain tree.
#![tactic(auto)]

#[cfg(test)]
mod asserts;
#[cfg(test)]
mod trees;
