//! Tests of the loads that are noted.
#![tactic(auto)]

#[cfg(test)]
mod asserts;
#[cfg(test)]
mod loads;
