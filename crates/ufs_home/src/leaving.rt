// A letter to a worker.
ghost use Rattle.std.specs.Prelude.{◌≡◌};

use std::marker::Model;
use ufs_held::Parcel;
use ufs_joint::Naming;
use ufs_msg::Letter;

/// A letter to a worker: a file that goes to it, or the number of one that is to come back.
#[derive(Drop)]
pub(crate) struct Leaving<N: Naming> {
    file: u32,
    parcel: Option<Parcel<N>>,
}

impl<N: Naming> Model for Leaving<N> {
    ghost use Rattle.std.specs.Prelude.{◌≡◌, IfSome};
    ghost use Rattle.ufs_home.specs.Letters.{Mailed, mailed, mailed_code};

    ghost Value = { Mailed };

    ghost coded = { mailed_code };

    ghost view = { λ l. mailed l.file l.parcel };

    ghost invariant = { λ l. IfSome l.parcel (λ c. c.value.file.file ≡ l.file) };
}

impl<N: Naming> Leaving<N> {
    ghost use Rattle.std.specs.Prelude.{◌≡◌};
    ghost use Rattle.std.proofs.Common.{inl, inr};
    ghost use Rattle.ufs_home.specs.Letters.{Mailed, is_file, letter_of, number_in};
    ghost use Rattle.ufs_joint.specs.Cells.{FileCell};

    pub(crate) fn with_file(parcel: Parcel<N>) -> Leaving<N>
        ensures { result ≡ inl parcel }
    {
        Leaving {
            file: parcel.number(),
            parcel: Some(parcel),
        }
    }

    pub(crate) fn recall(file: u32) -> Leaving<N>
        ensures { result ≡ inr file }
    {
        Leaving { file, parcel: None }
    }

    /// The letter that came back from its ring.
    pub(crate) fn of_letter(letter: Letter<Parcel<N>>) -> Leaving<N>
        requires { (m : Mailed) × (letter ≡ letter_of m) }
        ensures { (m : Mailed) → letter ≡ letter_of m → result ≡ m }
    {
        match letter {
            Letter::Parcel(parcel) => Leaving::with_file(parcel),
            Letter::Recall { file } => Leaving::recall(file),
            Letter::Report { .. } => unreachable!(),
        }
    }

    /// The number of its file.
    pub(crate) fn file(&self) -> u32
        ensures { result ≡ number_in self.now }
    {
        self.file
    }

    /// Whether the file goes with it.
    pub(crate) fn has_file(&self) -> bool
        ensures { result ≡ is_file self.now }
    {
        self.parcel.is_some()
    }

    pub(crate) fn into_letter(self) -> Letter<Parcel<N>>
        ensures { result ≡ letter_of self }
    {
        let Leaving { file, parcel } = self;
        match parcel {
            Some(parcel) => Letter::Parcel(parcel),
            None => Letter::Recall { file },
        }
    }

    /// The file that goes with it.
    pub(crate) fn into_parcel(self) -> Parcel<N>
        requires { (c : FileCell) × (self ≡ inl c) }
        ensures { self ≡ inl result }
    {
        match self.parcel {
            Some(parcel) => parcel,
            None => unreachable!(),
        }
    }
}
