//! Want of memory, which only a refused allocation makes.
ghost use Rattle.std.specs.Prelude.{◌≡◌};

use std::alloc::{AllocError, AllocFailed};

/// An allocation was refused: the only error of a call that allocates and can fail by nothing else. It is made of that
/// allocation's own error alone, so whoever has one was given it by a call that lacked memory.
#[derive(Clone, Copy, Debug, PartialEq, Eq)]
pub struct Memory {
    refused: AllocError,
}

impl From<AllocError> for Memory {
    fn from(refused: AllocError) -> Self {
        Memory { refused }
    }
}

impl<T: Drop> From<AllocFailed<T>> for Memory {
    fn from(failed: AllocFailed<T>) -> Self {
        Memory {
            refused: AllocError::from(failed),
        }
    }
}

impl Memory {
    /// The want of memory at which a value wasn't stored, with that value.
    pub fn beside<T>(failed: AllocFailed<T>) -> (Memory, T)
        ensures { result.1 ≡ failed.value }
    {
        let memory = Memory {
            refused: AllocError,
        };
        (memory, failed.value)
    }
}
