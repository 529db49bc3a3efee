//! Tests of the auditor: texts that are legal, texts that go wrong at each place, and sources that fail.
#![tactic(auto)]

#[cfg(test)]
mod asserts;
#[cfg(test)]
mod audits;
#[cfg(test)]
mod lines;
#[cfg(test)]
mod long;
#[cfg(test)]
mod spoiled;
