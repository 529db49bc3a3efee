//! Sessions on hands over images: each is mounted, all hands are dealt and come back, and it is ended.
#![tactic(auto)]

mod images;
#[cfg(test)]
mod session;
#[cfg(test)]
mod sessions;

pub use images::{empty_image, has_both, image_of_two};
