// The rule of the table that the hands of a session share, its steps, and the name of a session.
ghost use base.Fml.{ftrue};
ghost use Rattle.std.specs.Prelude.{◌≡◌};
ghost use Rattle.ufs_joint.specs.Cells.{Start};
ghost use Rattle.ufs_joint.specs.Rule.{start_code};

use crate::view::Knowledge;
use atomic_table::{Join, Play, Split, Table, TableRule};
use std::alloc::Global;
use std::marker::{Brand, Model, PhantomData};

/// What a session starts from, for contracts alone. It has no bytes.
#[derive(Drop)]
pub struct Parts {
    pub(crate) marker: PhantomData<()>,
    pub ghost start: { Start } by { start_code },
}

impl Model for Parts {
    ghost also_owns = { λ _. ftrue };
}

/// What is opened. Its caller picks it.
pub trait Opening {
    ghost use Rattle.ufs_joint.specs.Cells.{Start};

    ghost opened: { Start };
}

impl Opening for Brand {
    ghost use Rattle.ufs_joint.specs.Rule.{no_start};

    ghost opened = { no_start };
}

impl Parts {
    /// It takes no bytes and makes no promise: a session's contracts say what it stands for.
    pub fn picked<P: Opening>() -> Parts
        ensures { result.start ≡ P.opened }
    {
        Parts {
            marker: PhantomData,
        }
    }
}

/// Which session it is.
pub trait Naming {
    ghost use Rattle.atomic_table.specs.Seated.{TableId};
    ghost use Rattle.ufs_disk.specs.Moments.{Moments};
    ghost use Rattle.ufs_joint.specs.Cells.{Start};

    ghost table: { TableId };

    ghost start: { Start };

    // The states that the disk had been in as the session began. They are no part of the start, since a state is a function.
    ghost origin: { Moments };
}

impl Naming for Brand {
    ghost use Rattle.ufs_disk.specs.Moments.{unseen};
    ghost use Rattle.ufs_joint.specs.Rule.{no_start, no_table};

    ghost table = { no_table };

    ghost start = { no_start };

    ghost origin = { unseen };
}

/// What a draw leaves, by its ticket: the client's descriptors, and the files, pools and names that the hand has then. Its caller picks
/// it.
pub trait Leaving {
    ghost use Rattle.std.specs.Prelude.{ℕ};
    ghost use Rattle.ufs_joint.specs.Draws.{Leaves};

    ghost leaves: { ℕ → Leaves };
}

impl Leaving for Brand {
    ghost use Rattle.ufs_joint.specs.Rule.{no_leaves};

    ghost leaves = { no_leaves };
}

/// What a mark leaves, by the tickets that it reads. Its caller picks it.
pub trait Event {
    ghost use Rattle.std.specs.Prelude.{ℕ};
    ghost use Rattle.ufs_joint.specs.Cells.{View};

    ghost leaves: { ℕ → View };
}

impl Event for Brand {
    ghost use Rattle.ufs_joint.specs.Cells.{spent};

    ghost leaves = { λ _. spent };
}

// The arguments of one step.
pub(crate) trait Picked {
    ghost use Rattle.ufs_model.specs.declared.data.PartName.{PartName};

    ghost part: { PartName };
}

impl Picked for Brand {
    ghost use Rattle.ufs_model.specs.declared.data.PartName.TheVariants.{Names};

    ghost part = { Names };
}

/// The entry that is drawn. Its caller picks it.
pub trait Drawing {
    ghost use Rattle.ufs_hand_laws.specs.declared.fresh.Fresh.{Fresh};

    ghost fresh: { Fresh };
}

impl Drawing for Brand {
    ghost use Rattle.ufs_joint.specs.Rule.{no_entry};

    ghost fresh = { no_entry };
}

pub struct Law;

impl TableRule<(), Knowledge, Parts> for Law {
    ghost use Rattle.ufs_joint.specs.Rule.{IsRuled, first_view};

    ghost holds = { λ k. IsRuled k.start };

    ghost first = { λ k. first_view k.start };
}

pub(crate) struct Cut<P> {
    part: PhantomData<P>,
}

impl<P: Picked> Split<Knowledge> for Cut<P> {
    ghost use Rattle.ufs_joint.specs.Cells.{kept_of, given_of};

    ghost left = { kept_of P.part };

    ghost right = { given_of P.part };
}

pub(crate) struct Glue;

impl Join<Knowledge> for Glue {
    ghost use Rattle.ufs_joint.specs.Cells.{both_of, spent};

    ghost both = { both_of };

    ghost spent = { spent };
}

pub(crate) struct Draws<N, F, L> {
    of: PhantomData<N>,
    fresh: PhantomData<F>,
    leaves: PhantomData<L>,
}

impl<N: Naming, F: Drawing, L: Leaving> Play<(), Knowledge> for Draws<N, F, L> {
    ghost use Rattle.ufs_joint.specs.Rule.{Drew};

    ghost then = { λ s v n w. Drew N.start F.fresh L.leaves v n w };
}

pub(crate) struct Marks<N, E> {
    of: PhantomData<N>,
    event: PhantomData<E>,
}

impl<N: Naming, E: Event> Play<(), Knowledge> for Marks<N, E> {
    ghost use Rattle.ufs_joint.specs.Rule.{Marked};

    ghost then = { λ s v n w. Marked N.start E.leaves v n w };
}

pub(crate) struct Looks<N> {
    of: PhantomData<N>,
}

impl<N: Naming> Play<(), Knowledge> for Looks<N> {
    ghost use Rattle.ufs_joint.specs.Rule.{Marked, looked_at};

    ghost then = { λ s v n w. Marked N.start (looked_at v.0) v n w };
}

pub(crate) type Board = Table<(), Knowledge, Parts, Law, Global>;
