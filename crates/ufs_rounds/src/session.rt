ghost use Rattle.std.specs.Prelude.{◌≡◌, ◌<◌};
ghost use Rattle.ufs_layout.specs.Areas.{IsGeometry};

use crate::end_room::EndRoom;
use crate::participants::Participants;
use std::sync::ledger::{Ledger, Share};
use ufs_disk::Disk;
use ufs_joint::{HandTable, Naming};
use ufs_layout::Geometry;
use ufs_primary::HeldStore;
use ufs_store::Store;

/// A session on one thread, over a disk: who takes part, its table, and its store with the only share of that one's book.
pub struct Session<N: Naming, D: Disk, L: Ledger> {
    pub table: HandTable<N>,
    pub geometry: Geometry,
    pub participants: Participants<N>,
    pub store: HeldStore<N, Store<D>, L>,
    pub share: Share<L>,
    pub room: EndRoom<N>,
    pub ghost formed: { IsGeometry geometry },
    pub ghost its: { geometry ≡ N.start.geometry },
    pub ghost part: { 0 < share.parts },
}
