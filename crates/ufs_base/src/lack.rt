use crate::memory::Memory;
use std::alloc::{AllocError, AllocFailed};

/// Why a call gives up that its caller couldn't know of.
#[derive(Clone, Copy, Debug, PartialEq, Eq)]
pub enum Lack {
    /// An allocation was refused.
    Memory(Memory),
    /// A number stands at its end, so there is no next one.
    AtEnd,
    /// What was read, or what was asked for, isn't sound: it doesn't come of this program's calls over a disk that gives
    /// back what it was given.
    Unsound,
    /// One of these, of which an error told that carries none: an excuse, or an error of the system.
    Told,
}

impl From<Memory> for Lack {
    ghost use Rattle.std.specs.Prelude.{◌≡◌};
    ghost use Rattle.ufs_base.specs.declared.lack.Lack.TheVariants as lack;

    ghost from_gives = { λ m e. e ≡ lack.Memory m };

    fn from(memory: Memory) -> Self {
        Lack::Memory(memory)
    }
}

impl From<AllocError> for Lack {
    ghost use Rattle.std.specs.Prelude.{◌≡◌};
    ghost use Rattle.ufs_base.specs.Wanting.{wanting};
    ghost use Rattle.ufs_base.specs.declared.lack.Lack.TheVariants as lack;

    ghost from_gives = { λ _ e. e ≡ lack.Memory wanting };

    fn from(refused: AllocError) -> Self {
        Lack::Memory(Memory::from(refused))
    }
}

impl<T: Drop> From<AllocFailed<T>> for Lack {
    ghost use Rattle.std.specs.Prelude.{◌≡◌};
    ghost use Rattle.ufs_base.specs.Wanting.{wanting};
    ghost use Rattle.ufs_base.specs.declared.lack.Lack.TheVariants as lack;

    ghost from_gives = { λ _ e. e ≡ lack.Memory wanting };

    fn from(failed: AllocFailed<T>) -> Self {
        Lack::Memory(Memory::from(failed))
    }
}
