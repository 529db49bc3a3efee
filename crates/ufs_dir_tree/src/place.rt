// Where a change of names took place.
use ufs_dirs::Slot;

/// A new inode, the slot that its dentry stands in, and the block that the directory took for it, if it did.
#[derive(Clone, Copy, Debug, PartialEq, Eq)]
pub struct Added {
    pub inode: u32,
    pub slot: Slot,
    pub grown: Option<u32>,
}

/// The slot that a moved dentry left and the one that it stands in now, that of the name that it replaced, if there
/// was one, which may be taken again, and the block that the directory took for it, if it did.
#[derive(Clone, Copy, Debug, PartialEq, Eq)]
pub struct Moved {
    pub left: Slot,
    pub taken: Slot,
    pub dropped: Option<Slot>,
    pub grown: Option<u32>,
}
