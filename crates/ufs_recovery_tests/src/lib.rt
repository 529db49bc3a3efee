//! Tests of recovery: what a stop after each call of the disk leaves, and what is written.
#![tactic(auto)]

#[cfg(test)]
mod images;
#[cfg(test)]
mod stops;
#[cfg(test)]
mod writes;
