// Why there is no verdict.
use std::alloc::{AllocError, AllocFailed};
use ufs_base::{Lack, Memory};
use ufs_script::ScriptFault;

/// Why a text isn't audited.
#[derive(Clone, Copy, Debug, PartialEq, Eq)]
pub enum AuditFault {
    /// The script breaks a rule, in a line that the fault has. Neither `Source` nor `Memory` stands in it.
    Script(ScriptFault),
    /// The text behind the script passes 268,435,456 bytes.
    TextTooLong,
    /// The source failed.
    Source,
    /// No memory, or what the tree of the history lacked besides.
    Lack(Lack),
}

/// Why a part of a text isn't read.
#[derive(Clone, Copy, Debug, PartialEq, Eq)]
pub enum TextFault {
    /// The text passes its greatest length.
    TooLong,
    /// The source failed.
    Source,
    /// No memory, or what the tree of the history lacked besides.
    Lack(Lack),
}

impl From<Lack> for AuditFault {
    ghost use Rattle.std.specs.Prelude.{◌≡◌};
    ghost use Rattle.ufs_audit.specs.declared.fault.AuditFault.TheVariants as fault;

    ghost from_gives = { λ lack e. e ≡ fault.Lack lack };

    fn from(lack: Lack) -> Self {
        AuditFault::Lack(lack)
    }
}

impl From<Memory> for AuditFault {
    ghost use Rattle.std.specs.Prelude.{◌≡◌};
    ghost use Rattle.ufs_base.specs.declared.lack.Lack.TheVariants as lack;
    ghost use Rattle.ufs_audit.specs.declared.fault.AuditFault.TheVariants as fault;

    ghost from_gives = { λ m e. e ≡ fault.Lack (lack.Memory m) };

    fn from(memory: Memory) -> Self {
        AuditFault::Lack(Lack::Memory(memory))
    }
}

impl From<Lack> for TextFault {
    ghost use Rattle.std.specs.Prelude.{◌≡◌};
    ghost use Rattle.ufs_audit.specs.declared.fault.TextFault.TheVariants as fault;

    ghost from_gives = { λ lack e. e ≡ fault.Lack lack };

    fn from(lack: Lack) -> Self {
        TextFault::Lack(lack)
    }
}

impl From<Memory> for TextFault {
    ghost use Rattle.std.specs.Prelude.{◌≡◌};
    ghost use Rattle.ufs_base.specs.declared.lack.Lack.TheVariants as lack;
    ghost use Rattle.ufs_audit.specs.declared.fault.TextFault.TheVariants as fault;

    ghost from_gives = { λ m e. e ≡ fault.Lack (lack.Memory m) };

    fn from(memory: Memory) -> Self {
        TextFault::Lack(Lack::Memory(memory))
    }
}

impl From<AllocError> for TextFault {
    ghost use Rattle.std.specs.Prelude.{◌≡◌};
    ghost use Rattle.ufs_base.specs.Wanting.{wanting};
    ghost use Rattle.ufs_base.specs.declared.lack.Lack.TheVariants as lack;
    ghost use Rattle.ufs_audit.specs.declared.fault.TextFault.TheVariants as fault;

    ghost from_gives = { λ _ e. e ≡ fault.Lack (lack.Memory wanting) };

    fn from(refused: AllocError) -> Self {
        TextFault::Lack(Lack::from(refused))
    }
}

impl<T: Drop> From<AllocFailed<T>> for TextFault {
    ghost use Rattle.std.specs.Prelude.{◌≡◌};
    ghost use Rattle.ufs_base.specs.Wanting.{wanting};
    ghost use Rattle.ufs_base.specs.declared.lack.Lack.TheVariants as lack;
    ghost use Rattle.ufs_audit.specs.declared.fault.TextFault.TheVariants as fault;

    ghost from_gives = { λ _ e. e ≡ fault.Lack (lack.Memory wanting) };

    fn from(failed: AllocFailed<T>) -> Self {
        TextFault::Lack(Lack::from(failed))
    }
}

impl From<TextFault> for AuditFault {
    ghost use Rattle.std.specs.Prelude.{◌≡◌};
    ghost use Rattle.ufs_audit.specs.Ends.{fault_of};

    ghost from_gives = { λ fault e. e ≡ fault_of fault };

    fn from(fault: TextFault) -> Self {
        match fault {
            TextFault::TooLong => AuditFault::TextTooLong,
            TextFault::Source => AuditFault::Source,
            TextFault::Lack(lack) => AuditFault::Lack(lack),
        }
    }
}
