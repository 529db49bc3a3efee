// A file that is at the primary.
ghost use Rattle.std.specs.Prelude.{◌≡◌, ◌<◌, ◌^◌, [], IfErr, IfOk};
ghost use Rattle.ufs_held.specs.Held.{HasFileAlone};

use crate::stage::Stage;
use std::alloc::Global;
use std::marker::Model;
use ufs_base::Memory;
use ufs_held::{HeldFile, Parcel};
use ufs_held_names::Newborn;
use ufs_joint::{Hand, Naming};

/// A file at the primary, with its number: no pool has one so low. Contracts see its cell.
#[derive(Drop)]
pub(crate) struct AtHome<N: Naming> {
    number: u32,
    stage: Stage<N>,
}

impl<N: Naming> Model for AtHome<N> {
    ghost use Rattle.std.specs.Prelude.{◌≡◌, ◌<◌, ◌^◌};
    ghost use Rattle.ufs_home.specs.Stages.{cell_of};
    ghost use Rattle.ufs_joint.specs.Cells.{FileCell};
    ghost use Rattle.ufs_joint.specs.Codes.{file_code};

    ghost Value = { FileCell };

    ghost coded = { file_code };

    ghost view = { λ a. cell_of a.stage };

    ghost invariant = { λ a. (a.number ≡ (cell_of a.stage).value.file.file) × (a.number < 2 ^ 31) };
}

impl<N: Naming> AtHome<N> {
    pub(crate) fn of_held(held: HeldFile<N>) -> AtHome<N>
        requires { held.value.file.file < 2 ^ 31 }
        ensures { result ≡ held }
    {
        AtHome {
            number: held.number(),
            stage: Stage::Held(held),
        }
    }

    pub(crate) fn of_newborn(number: u32, newborn: Newborn<N>) -> AtHome<N>
        requires number { number ≡ newborn.value.file.file }
        requires low { number < 2 ^ 31 }
        ensures { result ≡ newborn }
    {
        AtHome {
            number,
            stage: Stage::Young(newborn),
        }
    }

    pub(crate) fn of_parcel(parcel: Parcel<N>) -> AtHome<N>
        ensures { result ≡ parcel }
    {
        AtHome {
            number: parcel.number(),
            stage: Stage::Held(parcel.into_held()),
        }
    }

    pub(crate) fn number(&self) -> u32
        ensures { result ≡ self.now.value.file.file }
    {
        self.number
    }

    /// The file, with what is known of its commits. A new one comes back where there is no memory for that.
    pub(crate) fn into_held(self, alloc: Global) -> Result<HeldFile<N>, (Memory, AtHome<N>)>
        ensures ok { IfOk result (λ held. held ≡ self) }
        ensures low { IfOk result (λ held. held.value.file.file < 2 ^ 31) }
        ensures err { IfErr result (λ x. x.1 ≡ self) }
    {
        let AtHome { number, stage } = self;
        match stage {
            Stage::Held(held) => Ok(held),
            Stage::Young(newborn) => match newborn.hold(alloc) {
                Ok(held) => Ok(held),
                Err((memory, newborn)) => Err((memory, AtHome::of_newborn(number, newborn))),
            },
        }
    }

    /// The right to its cell, without the file. Takes no memory.
    pub(crate) fn into_hand(self) -> Hand<N>
        ensures alone { HasFileAlone self result }
        ensures calm { result.faults ≡ [] }
    {
        match self.stage {
            Stage::Held(held) => held.into_hand(),
            Stage::Young(newborn) => newborn.into_hand(),
        }
    }
}
