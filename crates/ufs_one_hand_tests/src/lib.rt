//! Short sessions by one hand: each of its calls once.
#![tactic(auto)]

#[cfg(test)]
mod asserts;
#[cfg(test)]
mod reading;
#[cfg(test)]
mod session;
