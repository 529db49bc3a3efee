//! What every floor needs: want of memory, the sizes of the format, the limits of a session, and in `specs/` counts of faults, choices and images.
#![tactic(auto)]

mod lack;
mod limits;
mod memory;
mod sizes;

pub use lack::Lack;
pub use limits::{FIRST_FD, LAST_FD, MAX_CLIENTS, MAX_FDS, MAX_REQUESTS};
pub use memory::Memory;
pub use sizes::{
    BLOCK, MAX_BLOCKS, MAX_EXTENTS, MAX_NAME, SECTOR, SECTORS_PER_BLOCK, SLOT, SLOTS_PER_BLOCK,
    SLOTS_PER_SECTOR,
};
