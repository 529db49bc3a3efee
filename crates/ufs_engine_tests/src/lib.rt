//! Tests of the engine: the blocks of directories, and sessions.
#![tactic(auto)]

#[cfg(test)]
mod directories;
#[cfg(test)]
mod sessions;
