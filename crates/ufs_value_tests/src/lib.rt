//! Tests of the values that a server is made of: what no clause says, and each call once.
#![tactic(auto)]

#[cfg(test)]
mod asserts;
#[cfg(test)]
mod bitmaps;
#[cfg(test)]
mod calls;
#[cfg(test)]
mod extents;
#[cfg(test)]
mod fds;
#[cfg(test)]
mod model;
#[cfg(test)]
mod paths;
