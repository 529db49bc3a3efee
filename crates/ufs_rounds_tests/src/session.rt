// A session over the image of a disk: it is mounted, dealt, played by steps, and ended.
ghost use Rattle.std.specs.Prelude.{◌≡◌, ◌<◌, ◌≤◌, IfSome, IsTrue, length, map, true};
ghost use Rattle.ufs_begin_hands.specs.Values.{value_of};
ghost use Rattle.ufs_joint.specs.FirstHand.{Beginning};
ghost use Rattle.ufs_rounds.specs.Mounting.{IsMounted};

use crate::steps::{Step, take};
use std::alloc::{AllocGlobal, Global};
use std::marker::Brand;
use std::process::Abort;
use std::sync::ledger::{Blank, Ledger};
use ufs_begin_hands::{Ready, mount};
use ufs_disk::Disk;
use ufs_joint::Naming;
use ufs_rounds::{Played, Session};
use ufs_script::OpLists;
use ufs_start::start_of;
use ufs_store::{Door, Store};

/// Plays these requests on the disk: first these steps, and then what is left. None where the image can't be mounted.
pub fn played<D: Disk + Drop, R: Abort + AllocGlobal>(
    rt: &R,
    disk: D,
    scripts: OpLists,
    workers: u8,
    steps: &[Step],
) -> Option<Played<D>>
    requires some { 0 < length scripts }
    requires few { workers ≤ 8 }
{
    let clients = scripts.as_slice().len() as u8;
    let ready = ready_on(rt.alloc(), disk, clients, workers)?;
    let blank = Blank::new(1);
    Some(session::<Brand, D, Brand, R>(rt, ready, blank, scripts, workers, steps))
}

// The image of this disk is mounted.
fn ready_on<D: Disk + Drop>(
    alloc: Global,
    mut disk: D,
    clients: u8,
    workers: u8,
) -> Option<Ready<D>>
    requires few { workers ≤ 8 }
    ensures mounted { IfSome result (λ r. (b : Beginning) × IsMounted b r.opened.start (⟦<Store<D> as Door>⟧.store r.store) r.names (map value_of r.files.items) clients workers) }
    ensures sees { IfSome result (λ r. r.opened.start.is_visible ≡ true → IsTrue D.visible) }
{
    let Ok(start) = start_of(alloc, &mut disk) else {
        return None;
    };
    match mount(alloc, disk, start, clients, workers) {
        Ok(ready) => Some(ready),
        Err(_) => None,
    }
}

fn session<N: Naming, D: Disk, L: Ledger, R: Abort + AllocGlobal>(
    rt: &R,
    ready: Ready<D>,
    blank: Blank,
    scripts: OpLists,
    workers: u8,
    steps: &[Step],
) -> Played<D>
    requires name { (ready.opened.table ≡ N.table) × (ready.opened.start ≡ N.start) }
    requires ledger { blank.name ≡ L.name }
    requires parts { blank.parts ≡ L.parts }
    requires one { blank.parts ≡ 1 }
    requires mounted { (b : Beginning) × IsMounted b N.start (⟦<Store<D> as Door>⟧.store ready.store) ready.names (map value_of ready.files.items) (length scripts) workers }
    requires origin { N.origin ≡ (⟦<Store<D> as Door>⟧.store ready.store).moments }
    requires sees { N.start.is_visible ≡ true → IsTrue D.visible }
    requires some { 0 < length scripts }
{
    let session = match Session::<N, D, L>::begin(rt.alloc(), ready, blank, scripts, workers) {
        Ok(session) => session,
        Err(_unbegun) => panic!(rt; "not begun"),
    };
    match take(session, steps).play(rt.alloc(), &[]) {
        Ok(played) => played,
        Err(_unended) => panic!(rt; "not ended"),
    }
}
