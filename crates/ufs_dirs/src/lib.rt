//! The blocks of one directory: its names, and which slots they stand in.
#![tactic(auto)]

mod codec;
mod dir_blocks;
mod free;
mod index;

pub use dir_blocks::DirBlocks;

/// A slot of a directory's block: `slot` is 0 to 7 in its sector.
#[derive(Clone, Copy, Debug, PartialEq, Eq)]
pub struct Slot {
    pub sector: u32,
    pub slot: u8,
}

/// Every slot is used.
#[derive(Clone, Copy, Debug, PartialEq, Eq)]
pub struct NoSlot;

/// What is off with a slot that is read.
#[derive(Clone, Copy, Debug, PartialEq, Eq)]
pub enum SlotFault {
    /// The bytes are no dentry's spelling.
    OffForm,
    /// An earlier slot of the directory has the name.
    NameTwice,
}

/// Why a block that is read isn't taken.
#[derive(Clone, Copy, Debug, PartialEq, Eq)]
pub enum BlockFault {
    /// Memory ran out.
    NoMemory,
    /// Of the block's slots, 0 to 63, this is the first that is off.
    BadSlot(u8, SlotFault),
}
