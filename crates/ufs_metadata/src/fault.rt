use std::alloc::AllocError;
use ufs_base::{Lack, Memory};

/// Why an image isn't read.
#[derive(Clone, Copy, Debug, PartialEq, Eq)]
pub enum RecoverFault {
    /// The disk begins with no superblock.
    NoSuperblock,
    /// The superblock is of another version.
    BadVersion { found: u32 },
    /// The superblock's geometry is refused: 1 for the blocks, 2 the inodes, 3 the journal, 4 where no
    /// block is left for data, 5 where the disk is smaller.
    BadGeometry { number: u8 },
    /// The lowest sector of the journal that is off.
    BadRecord { sector: u32 },
    /// The lowest inode that a damage is told of.
    BadTree { inode: u32 },
    /// A call of the disk failed; the disk's count of faults after it.
    Device { fault: u64 },
    /// No memory, or no next number.
    Lack(Lack),
}

impl From<Lack> for RecoverFault {
    ghost use Rattle.std.specs.Prelude.{◌≡◌};
    ghost use Rattle.ufs_metadata.specs.declared.fault.RecoverFault.TheVariants as fault;

    ghost from_gives = { λ l e. e ≡ fault.Lack l };

    fn from(lack: Lack) -> RecoverFault {
        RecoverFault::Lack(lack)
    }
}

impl From<Memory> for RecoverFault {
    ghost use Rattle.std.specs.Prelude.{◌≡◌};
    ghost use Rattle.ufs_base.specs.declared.lack.Lack.TheVariants as lack;
    ghost use Rattle.ufs_metadata.specs.declared.fault.RecoverFault.TheVariants as fault;

    ghost from_gives = { λ m e. e ≡ fault.Lack (lack.Memory m) };

    fn from(memory: Memory) -> RecoverFault {
        RecoverFault::Lack(Lack::Memory(memory))
    }
}

impl From<AllocError> for RecoverFault {
    ghost use Rattle.std.specs.Prelude.{◌≡◌};
    ghost use Rattle.ufs_base.specs.Wanting.{wanting};
    ghost use Rattle.ufs_base.specs.declared.lack.Lack.TheVariants as lack;
    ghost use Rattle.ufs_metadata.specs.declared.fault.RecoverFault.TheVariants as fault;

    ghost from_gives = { λ _ e. e ≡ fault.Lack (lack.Memory wanting) };

    fn from(refused: AllocError) -> RecoverFault {
        RecoverFault::Lack(Lack::from(refused))
    }
}
