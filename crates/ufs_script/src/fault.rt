// Why there is no script.
ghost use Rattle.std.specs.Prelude.{◌≡◌, ◌≢◌};
ghost use Rattle.ufs_script.specs.Script.{fault_at};

use std::alloc::{AllocError, AllocFailed};
use ufs_base::Memory;

/// The first break of a script's rules, with the number of its line, counted from 1; or why its
/// text isn't known.
#[derive(Clone, Copy, Debug, PartialEq, Eq)]
pub enum ScriptFault {
    /// A request before the first `client` line.
    NoClient { line: u32 },
    /// An unknown word, a missing one, one too many, or a flag twice.
    BadWord { line: u32 },
    /// A number's form or range, a client that isn't the next one, or a turn of a client or a worker that isn't there.
    BadNumber { line: u32 },
    /// The form or length of a request's data.
    BadData { line: u32 },
    /// The 17th client, a client's 65,537th request, or the 1,000,001st schedule word.
    TooMany { line: u32 },
    /// The line in which the script passes 16,777,216 bytes.
    TooLong { line: u32 },
    /// The text ended before a line `end`; the number of lines there were.
    NoEnd { line: u32 },
    /// Something stands after the line `end`.
    AfterEnd { line: u32 },
    /// A line that is read and isn't played yet. No reader answers it: it is for who plays a script.
    NotBuilt { line: u32 },
    /// The source failed.
    Source,
    /// No memory.
    Memory(Memory),
}

/// What is wrong with a line, or want of memory.
#[derive(Clone, Copy, Debug, PartialEq, Eq)]
pub enum Cause {
    NoClient,
    BadWord,
    BadNumber,
    BadData,
    TooMany,
    AfterEnd,
    Memory(Memory),
}

impl Cause {
    /// The fault of a line with this number.
    pub fn at(self, line: u32) -> ScriptFault
        ensures value { result ≡ fault_at line self }
        ensures never { result ≢ ScriptFault.Source }
    {
        match self {
            Cause::NoClient => ScriptFault::NoClient { line },
            Cause::BadWord => ScriptFault::BadWord { line },
            Cause::BadNumber => ScriptFault::BadNumber { line },
            Cause::BadData => ScriptFault::BadData { line },
            Cause::TooMany => ScriptFault::TooMany { line },
            Cause::AfterEnd => ScriptFault::AfterEnd { line },
            Cause::Memory(memory) => ScriptFault::Memory(memory),
        }
    }
}

impl From<AllocError> for ScriptFault {
    ghost use Rattle.std.specs.Prelude.{◌≡◌};
    ghost use Rattle.ufs_base.specs.Wanting.{wanting};
    ghost use Rattle.ufs_script.specs.declared.fault.ScriptFault.TheVariants as fault;

    ghost from_gives = { λ _ e. e ≡ fault.Memory wanting };

    fn from(refused: AllocError) -> Self {
        ScriptFault::Memory(Memory::from(refused))
    }
}

impl From<Memory> for ScriptFault {
    ghost use Rattle.std.specs.Prelude.{◌≡◌};
    ghost use Rattle.ufs_script.specs.declared.fault.ScriptFault.TheVariants as fault;

    ghost from_gives = { λ m e. e ≡ fault.Memory m };

    fn from(memory: Memory) -> Self {
        ScriptFault::Memory(memory)
    }
}

impl<T: Drop> From<AllocFailed<T>> for ScriptFault {
    ghost use Rattle.std.specs.Prelude.{◌≡◌};
    ghost use Rattle.ufs_base.specs.Wanting.{wanting};
    ghost use Rattle.ufs_script.specs.declared.fault.ScriptFault.TheVariants as fault;

    ghost from_gives = { λ _ e. e ≡ fault.Memory wanting };

    fn from(failed: AllocFailed<T>) -> Self {
        ScriptFault::Memory(Memory::from(failed))
    }
}

impl From<AllocError> for Cause {
    ghost use Rattle.std.specs.Prelude.{◌≡◌};
    ghost use Rattle.ufs_base.specs.Wanting.{wanting};
    ghost use Rattle.ufs_script.specs.declared.fault.Cause.TheVariants as cause;

    ghost from_gives = { λ _ e. e ≡ cause.Memory wanting };

    fn from(refused: AllocError) -> Self {
        Cause::Memory(Memory::from(refused))
    }
}

impl From<Memory> for Cause {
    ghost use Rattle.std.specs.Prelude.{◌≡◌};
    ghost use Rattle.ufs_script.specs.declared.fault.Cause.TheVariants as cause;

    ghost from_gives = { λ m e. e ≡ cause.Memory m };

    fn from(memory: Memory) -> Self {
        Cause::Memory(memory)
    }
}

impl<T: Drop> From<AllocFailed<T>> for Cause {
    ghost use Rattle.std.specs.Prelude.{◌≡◌};
    ghost use Rattle.ufs_base.specs.Wanting.{wanting};
    ghost use Rattle.ufs_script.specs.declared.fault.Cause.TheVariants as cause;

    ghost from_gives = { λ _ e. e ≡ cause.Memory wanting };

    fn from(failed: AllocFailed<T>) -> Self {
        Cause::Memory(Memory::from(failed))
    }
}
