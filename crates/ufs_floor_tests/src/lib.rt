//! Tests of sources, sinks, clocks, disks and the forms of an image: calls that fail once in mid-stream, one call of
//! each thing in calm, vectors, and what a crash leaves.
#![tactic(auto)]

#[cfg(test)]
mod asserts;
#[cfg(test)]
mod disks;
#[cfg(test)]
mod io;
#[cfg(test)]
mod layout;
#[cfg(test)]
mod torn;
