//! A client over the posts of one thread: it answers a request itself, and another is sent on, kept, and answered.
#![tactic(auto)]

#[cfg(test)]
mod asserts;
#[cfg(test)]
mod session;
#[cfg(test)]
mod shy;
#[cfg(test)]
mod stub;
