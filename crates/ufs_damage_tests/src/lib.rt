//! Tests of damage: findings for each kind, and the bitmap beside them.
#![tactic(auto)]

#[cfg(test)]
mod bits;
#[cfg(test)]
mod disks;
#[cfg(test)]
mod found;
#[cfg(test)]
mod kinds;
