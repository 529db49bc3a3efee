//! Worked rows on files whose bytes lie in blocks.
#![tactic(auto)]

#[cfg(test)]
mod asserts;
#[cfg(test)]
mod calls;
#[cfg(test)]
mod rows;
#[cfg(test)]
mod two_files;
#[cfg(test)]
mod unread;
