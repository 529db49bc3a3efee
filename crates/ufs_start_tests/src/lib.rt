//! Tests of what a server begins with, made of an image.
#![tactic(auto)]

#[cfg(test)]
mod copies;
#[cfg(test)]
mod counted;
#[cfg(test)]
mod ends;
#[cfg(test)]
mod files;
#[cfg(test)]
mod images;
#[cfg(test)]
mod larger;
#[cfg(test)]
mod starts;
