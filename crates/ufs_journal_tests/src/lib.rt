//! Tests of the journal's calls over disks that fail and crash.
#![tactic(auto)]

#[cfg(test)]
mod asserts;
#[cfg(test)]
mod crashes;
#[cfg(test)]
mod epochs;
#[cfg(test)]
mod sectors;
#[cfg(test)]
mod written;
