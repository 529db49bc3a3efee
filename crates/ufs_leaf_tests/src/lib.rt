//! Tests of rings, of nodes on lists, of the load plan and of hints.
#![tactic(auto)]

#[cfg(test)]
mod asserts;
#[cfg(test)]
mod hints;
#[cfg(test)]
mod loads;
#[cfg(test)]
mod nodes;
#[cfg(test)]
mod rings;

// The next of a row of numbers that look drawn by chance.
#[cfg(test)]
fn drawn(seed: u32) -> u32 {
    seed.wrapping_mul(1_664_525).wrapping_add(1_013_904_223)
}
