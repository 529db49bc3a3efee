// A session on hands over a mounted image, from its beginning to its end.
ghost use Rattle.std.specs.Prelude.{ℕ, ◌≡◌, ◌≢◌, [], Err, IfOk, IsOk, IsTrue, List, OnOk, length, map, true};
ghost use Rattle.ufs_base.specs.declared.lack.Lack.TheVariants as lack;
ghost use Rattle.ufs_rounds.specs.OfBeginHands.{value_of};
ghost use Rattle.ufs_brink.specs.declared.closing.CloseFault.TheVariants as cause;
ghost use Rattle.ufs_engine.specs.Asked.{IsAskedOf};
ghost use Rattle.ufs_engine.specs.Left.{IsDiskOf};
ghost use Rattle.ufs_engine.specs.Played.{IsPlayedOn};
ghost use Rattle.ufs_engine.specs.Plays.{served_end};
ghost use Rattle.ufs_engine.specs.declared.playing.PlayFault.TheVariants as ending;
ghost use Rattle.ufs_joint.specs.FirstHand.{Beginning, start_first};
ghost use Rattle.ufs_joint.specs.Ready.{IsReady};
ghost use Rattle.ufs_model.specs.declared.data.Op.{Op};
ghost use Rattle.ufs_rounds.specs.Mounting.{IsMounted};
ghost use Rattle.ufs_start.specs.declared.fault.StartFault.{StartFault};

use crate::asked::{Asked, tell};
use crate::playing::{PlayFault, Played};
use std::alloc::Global;
use std::sync::ledger::{Blank, Ledger};
use ufs_base::{Lack, Memory};
use ufs_brink::CloseFault;
use ufs_client::ToldLists;
use ufs_disk::Disk;
use ufs_joint::{Begun, Naming};
use ufs_promise_laws::on_disk_law;
use ufs_rounds::{Ready, Session, Unbegun, dealt_law};
use ufs_store::{Door, Store};

/// Plays what is asked in the session of this name, over the image that was mounted for it: each client in order, client 0 first. Where
/// there is no memory for the session the image is left in use, and nothing was told.
pub(crate) fn play_named<N: Naming, D: Disk, L: Ledger>(
    alloc: Global,
    ready: Ready<D>,
    blank: Blank,
    asked: Asked,
) -> Played<D>
    requires name { (ready.opened.table ≡ N.table) × (ready.opened.start ≡ N.start) }
    requires origin { N.origin ≡ (⟦<Store<D> as Door>⟧.store ready.store).moments }
    requires ledger { blank.name ≡ L.name }
    requires parts { blank.parts ≡ L.parts }
    requires one { blank.parts ≡ 1 }
    requires asked { (scripts : List (List Op)) × IsAskedOf scripts asked.clients asked.lists asked.rooms.items }
    requires mounted { (b : Beginning) × IsMounted b N.start (⟦<Store<D> as Door>⟧.store ready.store) ready.names (map value_of ready.files.items) (length asked.clients) 0 }
    requires sees { N.start.is_visible ≡ true → IsTrue D.visible }
    ensures played { (scripts : List (List Op)) → IsAskedOf scripts asked.clients asked.lists asked.rooms.items
        → IsPlayedOn N.start D.keeps scripts (⟦<Store<D> as Door>⟧.store ready.store) result.told result.bytes result.ended (D.size result.disk) (D.faults result.disk) (D.moments result.disk) }
    ensures begun { (fault : StartFault) → result.ended ≢ Err (ending.Image fault) }
{
    let geometry = ready.store.geometry();
    on_disk_law(&geometry);
    let Asked {
        clients,
        lists,
        rooms,
    } = asked;
    match Session::<N, D, L>::begin(alloc, ready, blank, clients, 0) {
        Ok(session) => match session.play(alloc, &[]) {
            Ok(played) => Played {
                told: tell(lists, rooms, played.told),
                bytes: bytes_of(played.bytes),
                ended: whole_end(played.ended, played.bytes),
                disk: played.disk,
            },
            Err(_unended) => unreachable!(),
        },
        Err(unbegun) => {
            let Unbegun { ready, memory } = unbegun;
            leave::<N, D>(alloc, ready, memory)
        }
    }
}

// Where there is no memory for the session the image is left in use, and nothing was told.
fn leave<N: Naming, D: Disk>(alloc: Global, ready: Ready<D>, memory: Memory) -> Played<D>
    requires name { (ready.opened.table ≡ N.table) × (ready.opened.start ≡ N.start) }
    requires ready { (b : Beginning) × (N.start ≡ start_first b (⟦<Store<D> as Door>⟧.store ready.store)) × IsReady b (⟦<Store<D> as Door>⟧.store ready.store) }
    ensures told { result.told ≡ [] }
    ensures ended { result.ended ≡ Err (ending.Lack (lack.Memory memory)) }
    ensures bytes { result.bytes ≡ 0 }
    ensures left { IsDiskOf D.size D.moments D.faults (⟦<Store<D> as Door>⟧.store ready.store) result.disk }
{
    Played {
        told: ToldLists::from_vec(Vec::new(alloc)),
        bytes: 0,
        ended: Err(PlayFault::Lack(Lack::Memory(memory))),
        disk: unplayed::<N, D>(ready),
    }
}

// The session ends at once, and the disk comes back.
fn unplayed<N: Naming, D: Disk>(ready: Ready<D>) -> D
    requires name { (ready.opened.table ≡ N.table) × (ready.opened.start ≡ N.start) }
    requires ready { (b : Beginning) × (N.start ≡ start_first b (⟦<Store<D> as Door>⟧.store ready.store)) × IsReady b (⟦<Store<D> as Door>⟧.store ready.store) }
    ensures { IsDiskOf D.size D.moments D.faults (⟦<Store<D> as Door>⟧.store ready.store) result }
{
    let Ready {
        names: _,
        files: _,
        store,
        opened,
    } = ready;
    let geometry = store.geometry();
    dealt_law();
    let Begun { table, hand } = opened.named::<N>();
    hand.close(table, &geometry);
    store.into_disk()
}

// How large the files are, where they were counted.
fn bytes_of(bytes: Result<u128, Memory>) -> u128
    ensures { IfOk bytes (λ n. result ≡ n) }
{
    match bytes {
        Ok(bytes) => bytes,
        Err(_) => 0,
    }
}

// How a session ends that was closed so. Each request was answered. Where there was no memory to commit and to count its files it lacks
// that, also where its store had stopped.
fn whole_end(closed: Result<(), CloseFault>, bytes: Result<u128, Memory>) -> Result<(), PlayFault>
    ensures closed { OnOk result (IsOk closed) }
    ensures device { (fault : ℕ) → result ≡ Err (ending.Device fault) → closed ≡ Err (cause.Device fault) }
    ensures stopped { (fault : ℕ) → result ≡ Err (ending.Stopped fault) → closed ≡ Err (cause.Stopped fault) }
    ensures begun { (fault : StartFault) → result ≢ Err (ending.Image fault) }
    ensures measured { OnOk (served_end result) (IsOk bytes) }
{
    if let Err(memory) = bytes {
        return Err(PlayFault::Lack(Lack::Memory(memory)));
    }
    match closed {
        Ok(()) => Ok(()),
        Err(CloseFault::Device { fault }) => Err(PlayFault::Device { fault }),
        Err(CloseFault::Stopped { fault }) => Err(PlayFault::Stopped { fault }),
        Err(CloseFault::Lack(lack)) => Err(PlayFault::Lack(lack)),
    }
}
