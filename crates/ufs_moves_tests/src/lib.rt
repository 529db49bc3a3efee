//! The tables of owners and of leases, called by rows and by walks beside plain lists.
#![tactic(auto)]

#[cfg(test)]
mod asserts;
#[cfg(test)]
mod leases;
#[cfg(test)]
mod owners;
