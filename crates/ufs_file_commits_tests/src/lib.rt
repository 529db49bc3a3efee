//! Tests of files with their commits: sessions over a store, and disks of whose calls some fail.
#![tactic(auto)]

#[cfg(test)]
mod asserts;
#[cfg(test)]
mod faults;
#[cfg(test)]
mod fetches;
#[cfg(test)]
mod files;
#[cfg(test)]
mod session;
