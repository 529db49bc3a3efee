//! The benchmark's workload and schedule, beside what a program of another language makes of the same seed.
#![tactic(auto)]

#[cfg(test)]
mod asserts;
#[cfg(test)]
mod tests;
