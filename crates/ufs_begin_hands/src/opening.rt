// What a session on hands starts from, for contracts alone, and how it is opened.
ghost use Rattle.std.specs.Prelude.{◌≡◌, IfOk};
ghost use Rattle.ufs_begin_hands.specs.Mounted.{beginning_of};
ghost use Rattle.ufs_begin_hands.specs.Seen.{sees};
ghost use Rattle.ufs_joint.specs.FirstHand.{start_before, with_store};
ghost use Rattle.ufs_joint.specs.Ends.{CanBegin};

use std::alloc::{AllocError, Global};
use std::marker::Brand;
use ufs_disk::Disk;
use ufs_joint::{Opened, Opening, Parts};
use ufs_start::Start;
use ufs_store::Door;

// What it starts from over this disk, but for the store that is to have it.
pub(crate) fn parts_before<D: Disk, P: Opening>(
    disk: &D,
    start: &Start,
    clients: u8,
    workers: u8,
) -> Parts
    requires { P.opened ≡ start_before (beginning_of start.now clients workers (sees D.visible (D.size disk.now) (D.moments disk.now).state)) }
    ensures { result.start ≡ start_before (beginning_of start.now clients workers (sees D.visible (D.size disk.now) (D.moments disk.now).state)) }
{
    let (_disk, _start, _clients, _workers) = (disk, start, clients, workers);
    Parts::picked::<P>()
}

// Opens it over the store that has the disk.
pub(crate) fn open_over<S: Door>(
    alloc: Global,
    store: &S,
    before: Parts,
) -> Result<Opened, AllocError>
    requires { CanBegin (with_store (S.store store.now) before.start) }
    ensures { IfOk result (λ o. o.start ≡ with_store (S.store store.now) before.start) }
{
    let parts = parts_over::<S, Brand>(store, before);
    Opened::open(alloc, parts)
}

fn parts_over<S: Door, P: Opening>(store: &S, before: Parts) -> Parts
    requires { P.opened ≡ with_store (S.store store.now) before.start }
    ensures { result.start ≡ with_store (S.store store.now) before.start }
{
    let (_store, _before) = (store, before);
    Parts::picked::<P>()
}
