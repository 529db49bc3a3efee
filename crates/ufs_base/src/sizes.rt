// The numbers of the format that more than one crate counts by.

/// The bytes of a sector.
pub const SECTOR: usize = 512;

/// The sectors of a block.
pub const SECTORS_PER_BLOCK: usize = 8;

/// The bytes of a block.
pub const BLOCK: usize = 4_096;

/// The bytes of a slot, which has one dentry.
pub const SLOT: usize = 64;

/// The slots of a sector of a directory.
pub const SLOTS_PER_SECTOR: usize = 8;

/// The slots of a block of a directory.
pub const SLOTS_PER_BLOCK: usize = 64;

/// The most blocks that an image has.
pub const MAX_BLOCKS: u32 = 65_536;

/// The most extents that an inode has.
pub const MAX_EXTENTS: usize = 56;

/// The most bytes of a name in a directory.
pub const MAX_NAME: usize = 58;

const _: () = prove!(BLOCK == SECTORS_PER_BLOCK * SECTOR);

const _: () = prove!(SECTOR == SLOTS_PER_SECTOR * SLOT);

const _: () = prove!(SLOTS_PER_BLOCK == SECTORS_PER_BLOCK * SLOTS_PER_SECTOR);
