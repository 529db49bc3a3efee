//! Tests of commands over two legs as one.
#![tactic(auto)]

#[cfg(test)]
mod asserts;
#[cfg(test)]
mod costs;
#[cfg(test)]
mod legs;
#[cfg(test)]
mod rows;
#[cfg(test)]
mod stops;
