// A step in few bytes.
ghost use Rattle.std.specs.Prelude.{◌≡◌, ◌+◌, min};

// What a transaction has done to an inode up to a record of this index: so many of the extents from before it are
// kept, and so many more there are, or at least so many at the type's end.
#[derive(Clone, Copy)]
pub(crate) struct Net {
    pub(crate) index: u16,
    pub(crate) kept: u8,
    pub(crate) gained: u8,
}

impl Net {
    // How many extents there are, by how many there were before the transaction.
    pub(crate) fn from_before(&self, count: u64) -> u64
        ensures { result ≡ min self.now.kept count + self.now.gained }
    {
        count.min(u64::from(self.kept)) + u64::from(self.gained)
    }
}
