// A file that goes from one server to another.
ghost use Rattle.std.specs.Prelude.{◌≡◌, ◌<◌, ◌^◌};
ghost use Rattle.ufs_held.specs.Parcel.{IsOut};

use crate::HeldFile;
use std::marker::Model;
use ufs_joint::Naming;

/// A file that may leave the primary, with all that goes with it: its birth is known as committed. Contracts see its cell. What comes
/// out of a ring between threads is known by its type alone, so the type says it.
#[derive(Drop)]
pub struct Parcel<N: Naming> {
    held: HeldFile<N>,
}

impl<N: Naming> Model for Parcel<N> {
    ghost use Rattle.ufs_joint.specs.Cells.{FileCell};
    ghost use Rattle.ufs_joint.specs.Codes.{file_code};
    ghost use Rattle.ufs_held.specs.Parcel.{IsOut};

    ghost Value = { FileCell };

    ghost coded = { file_code };

    ghost view = { λ p. p.held };

    ghost invariant = { λ p. IsOut p.held };
}

impl<N: Naming> Parcel<N> {
    pub fn new(held: HeldFile<N>) -> Parcel<N>
        requires { IsOut held }
        ensures { result ≡ held }
    {
        Parcel { held }
    }

    /// The file's number. No pool has one so low.
    pub fn number(&self) -> u32
        ensures is { result ≡ self.now.value.file.file }
        ensures low { result < 2 ^ 31 }
    {
        self.held.number()
    }

    pub fn into_held(self) -> HeldFile<N>
        ensures same { result ≡ self }
        ensures out { IsOut result }
    {
        let Parcel { held } = self;
        held
    }
}
