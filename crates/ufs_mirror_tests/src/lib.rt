//! Tests of two disks as one: how they are made and opened, a leg that fails, legs that make no mirror, and what is left
//! where both legs stop.
#![tactic(auto)]

#[cfg(test)]
mod asserts;
#[cfg(test)]
mod copies;
#[cfg(test)]
mod labels;
#[cfg(test)]
mod legs;
#[cfg(test)]
mod stops;
