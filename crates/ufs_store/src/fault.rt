// Why a store refuses, and what it gives back.
use ufs_base::{Lack, Memory};
use ufs_disk::Disk;
use ufs_extent::Runs;

/// Why a store refused a call.
#[derive(Clone, Copy, Debug, PartialEq, Eq)]
pub enum StoreFault {
    /// A call of the disk failed. The number is the disk's count of faults after it.
    Device { fault: u64 },
    /// An earlier write or barrier failed, with this number. Since then the store writes nothing.
    Stopped { fault: u64 },
    /// So many blocks are missing, and fewer are unassigned.
    NoSpace { need: u32, had: u32 },
    /// No memory, or no next number.
    Lack(Lack),
}

impl From<Lack> for StoreFault {
    ghost use Rattle.std.specs.Prelude.{◌≡◌};
    ghost use Rattle.ufs_store.specs.declared.fault.StoreFault.TheVariants as refusal;

    ghost from_gives = { λ l e. e ≡ refusal.Lack l };

    fn from(lack: Lack) -> Self {
        StoreFault::Lack(lack)
    }
}

impl From<Memory> for StoreFault {
    ghost use Rattle.std.specs.Prelude.{◌≡◌};
    ghost use Rattle.ufs_base.specs.declared.lack.Lack.TheVariants as lack;
    ghost use Rattle.ufs_store.specs.declared.fault.StoreFault.TheVariants as refusal;

    ghost from_gives = { λ m e. e ≡ refusal.Lack (lack.Memory m) };

    fn from(memory: Memory) -> Self {
        StoreFault::Lack(Lack::Memory(memory))
    }
}

/// A refused commit of a file, with the runs that would have become unassigned.
#[derive(Drop)]
pub struct Uncommitted {
    pub freed: Runs,
    pub fault: StoreFault,
}

/// A refused mount, with the disk.
#[derive(Drop)]
pub struct Unmounted<D: Disk> {
    pub disk: D,
    pub fault: StoreFault,
}
