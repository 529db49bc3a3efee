//! The excuse for what a request lacked, which is made here alone.
use crate::data::Excuse;
use ufs_base::{Lack, Memory};

impl From<Memory> for Excuse {
    ghost use Rattle.std.specs.Prelude.{◌≡◌};
    ghost use Rattle.ufs_model.specs.declared.data.Excuse.TheVariants as excuse;

    ghost from_gives = { λ _ e. e ≡ excuse.Memory };

    fn from(_: Memory) -> Self {
        Excuse::Memory
    }
}

/// A number at its end is told to a client as memory is: it has no code of its own.
impl From<Lack> for Excuse {
    ghost use Rattle.std.specs.Prelude.{◌≡◌};
    ghost use Rattle.ufs_model.specs.declared.data.Excuse.TheVariants as excuse;

    ghost from_gives = { λ _ e. e ≡ excuse.Memory };

    fn from(_: Lack) -> Self {
        Excuse::Memory
    }
}
