//! Tests of a store: each call on its happy path, and disks of whose calls some fail.
#![tactic(auto)]

#[cfg(test)]
mod asserts;
#[cfg(test)]
mod faults;
#[cfg(test)]
mod images;
#[cfg(test)]
mod sessions;
