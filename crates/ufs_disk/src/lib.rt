//! A disk of sectors: what a read gives, what a crash at any moment may leave, and when a call fails.
#![tactic(auto)]

mod disk;
mod file;
mod medium;
mod plain;
mod planned;
mod ranges;

pub use disk::{Disk, Fault};
pub use file::{FILE_SECTORS, FileDisk};
pub use medium::{Call, Medium, Request};
pub use plain::PlainDisk;
pub use planned::{Fuse, FuseDisk, MemoryDisk, Plan, PlannedDisk};
