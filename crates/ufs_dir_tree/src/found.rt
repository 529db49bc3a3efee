ghost use Rattle.std.specs.Prelude.{◌≡◌};

/// What stands at a path, by its inode.
#[derive(Clone, Copy, Debug, PartialEq, Eq)]
pub enum Found {
    Dir { inode: u32 },
    File { inode: u32 },
}

/// What a walk met: what stands at a path, and the directory in which its last name is looked for, which is the root
/// for the root's own path.
#[derive(Clone, Copy, Debug, PartialEq, Eq)]
pub struct Look {
    pub dir: u32,
    pub found: Option<Found>,
}

/// What an inode is.
#[derive(Clone, Copy, Debug, PartialEq, Eq)]
pub enum Kind {
    File,
    Dir,
}

impl Kind {
    ghost use Rattle.std.specs.Prelude.{◌≡◌, ℕ, List};
    ghost use Rattle.ufs_dir_tree.specs.DirTable.{found_of};
    ghost use Rattle.ufs_dir_tree.specs.DirCalls.{code_of, found_as};

    /// The inode with this kind.
    pub fn found(self, inode: u32) -> Found
        ensures { result ≡ found_as self inode }
    {
        match self {
            Kind::File => Found::File { inode },
            Kind::Dir => Found::Dir { inode },
        }
    }

    /// As a dentry has it.
    pub(crate) fn code(self) -> u8
        ensures code { result ≡ code_of self }
        ensures found { (i : ℕ) (name : List ℕ) → found_of (record { inode = i; kind = result; name = name }) ≡ found_as self i }
    {
        match self {
            Kind::File => 1,
            Kind::Dir => 2,
        }
    }
}
