//! Tests of the top call: the worked scripts and images, and sources, sinks, disks and memory that fail.
#![tactic(auto)]

#[cfg(test)]
mod asserts;
#[cfg(test)]
mod audits;
#[cfg(test)]
mod benches;
#[cfg(test)]
mod calls;
#[cfg(test)]
mod crashes;
#[cfg(test)]
mod examples;
#[cfg(test)]
mod faults;
#[cfg(test)]
mod formats;
#[cfg(test)]
mod reads;
#[cfg(test)]
mod recoveries;
#[cfg(test)]
mod rooms;
#[cfg(test)]
mod rows;
#[cfg(test)]
mod sessions;
#[cfg(test)]
mod spoiled;
#[cfg(test)]
mod stops;
#[cfg(test)]
mod tests;
#[cfg(test)]
mod traces;
#[cfg(test)]
mod trees;
#[cfg(test)]
mod unneeded;
