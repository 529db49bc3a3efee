// A session begins over an image that was mounted.
ghost use Rattle.std.specs.Prelude.{◌≡◌, ◌<◌, ◌≤◌, [], IfErr, IfOk, IsTrue, None, Some, length, map, true};
ghost use Rattle.std.specs.FinMap as fin;
ghost use Rattle.std.specs.Vec.{vec_capacity};
ghost use Rattle.ufs_begin_hands.specs.Values.{value_of};
ghost use Rattle.ufs_hand_laws.specs.Owned.{Has};
ghost use Rattle.ufs_joint.specs.Disks.{cell_of};
ghost use Rattle.ufs_joint.specs.FirstHand.{Beginning};
ghost use Rattle.ufs_joint.specs.Whole.{no_blocks};
ghost use Rattle.ufs_primary.specs.OfNoted.{KnownFile};
ghost use Rattle.ufs_rounds.specs.Alone.{HasNothingOut, ServesAlone};
ghost use Rattle.ufs_rounds.specs.Dealing.{AreBare, HaveAskedNothing, HoldNothing};
ghost use Rattle.ufs_rounds.specs.Mounting.{IsMounted};
ghost use Rattle.ufs_rounds.specs.Scripts.{scripts_of};
ghost use Rattle.ufs_rounds.specs.View.{global_of};
ghost use Rattle.ufs_primary.specs.OfTurns.{HasStoreAlone};

use crate::dealing::{deal_clients, deal_primary, deal_workers};
use crate::participants::Participants;
use crate::room::Room;
use crate::session::Session;
use std::alloc::Global;
use std::sync::ledger::{Blank, Ledger};
use ufs_base::Memory;
use ufs_begin_hands::Ready;
use ufs_dealt::{Dealt, deal, deal_files, dealt_law};
use ufs_disk::Disk;
use ufs_joint::Naming;
use ufs_primary::Baton;
use ufs_script::OpLists;
use ufs_store::{Door, Store};

/// A session that didn't begin for want of memory. No hand was dealt.
pub struct Unbegun<D: Disk> {
    pub ready: Ready<D>,
    pub memory: Memory,
}

impl<N: Naming, D: Disk, L: Ledger> Session<N, D, L> {
    /// Begins a session over an image that was mounted: its first hand is dealt to clients and servers, the files are at the primary,
    /// nobody has asked anything, and no ring has a message. All memory that this takes is taken before a hand is dealt.
    ///
    /// Without a worker the primary serves alone, so that the session can be played to its end (`alone`).
    pub fn begin(
        alloc: Global,
        ready: Ready<D>,
        blank: Blank,
        scripts: OpLists,
        workers: u8,
    ) -> Result<Session<N, D, L>, Unbegun<D>>
        requires name { (ready.opened.table ≡ N.table) × (ready.opened.start ≡ N.start) }
        requires ledger { blank.name ≡ L.name }
        requires parts { blank.parts ≡ L.parts }
        requires one { blank.parts ≡ 1 }
        requires mounted { (b : Beginning) × IsMounted b N.start (⟦<Store<D> as Door>⟧.store ready.store) ready.names (map value_of ready.files.items) (length scripts) workers }
        requires origin { N.origin ≡ (⟦<Store<D> as Door>⟧.store ready.store).moments }
        requires sees { N.start.is_visible ≡ true → IsTrue D.visible }
        requires some { 0 < length scripts }
        ensures scripts { IfOk result (λ s. scripts_of s.participants.clients.items ≡ scripts) }
        ensures nothing { IfOk result (λ s. HaveAskedNothing s.participants.clients.items) }
        ensures rings { IfOk result (λ s. HoldNothing workers (length scripts) s.participants.post.requests s.participants.post.clients.items s.participants.post.letters) }
        ensures owners { IfOk result (λ s. s.participants.primary.stock.home.owners ≡ fin.empty) }
        ensures alone { workers ≡ 0 → IfOk result (λ s. ServesAlone N.start (global_of s.participants (Some s.store))) }
        ensures store { IfOk result (λ s. HasStoreAlone (cell_of 0 [] (⟦<Store<D> as Door>⟧.store ready.store)) s.store) }
        ensures back { IfErr result (λ u. u.ready ≡ ready) }
    {
        dealt_law();
        match Room::make(alloc, ready.files.as_slice(), scripts, workers) {
            Ok(room) => Ok(deal_all(alloc, ready, blank, room)),
            Err(memory) => Err(Unbegun { ready, memory }),
        }
    }
}

// All of the first hand is dealt.
fn deal_all<N: Naming, D: Disk, L: Ledger>(
    alloc: Global,
    ready: Ready<D>,
    blank: Blank,
    room: Room<N>,
) -> Session<N, D, L>
    requires name { (ready.opened.table ≡ N.table) × (ready.opened.start ≡ N.start) }
    requires ledger { blank.name ≡ L.name }
    requires parts { blank.parts ≡ L.parts }
    requires one { blank.parts ≡ 1 }
    requires mounted { (b : Beginning) × IsMounted b N.start (⟦<Store<D> as Door>⟧.store ready.store) ready.names (map value_of ready.files.items) (length room.rooms.items) (length room.pools.items) }
    requires origin { N.origin ≡ (⟦<Store<D> as Door>⟧.store ready.store).moments }
    requires sees { N.start.is_visible ≡ true → IsTrue D.visible }
    requires few { length room.rooms.items ≤ 16 }
    requires places { (k : KnownFile) → Has k ready.files.items → fin.get room.home.places k.hand.file ≡ Some None }
    requires owners { room.home.owners ≡ fin.empty }
    requires no_file { room.held.items ≡ [] }
    requires files { length ready.files.items ≤ vec_capacity room.held }
    requires pool { room.pool ≡ no_blocks }
    requires bare { AreBare room.pools.items }
    requires no_worker { room.workers.items ≡ [] }
    requires workers { length room.pools.items ≤ vec_capacity room.workers }
    requires no_client { room.clients.items ≡ [] }
    requires clients { length room.rooms.items ≤ vec_capacity room.clients }
    ensures scripts { scripts_of result.participants.clients.items ≡ room.rooms.items }
    ensures nothing { HaveAskedNothing result.participants.clients.items }
    ensures post { result.participants.post ≡ room.post }
    ensures owners { result.participants.primary.stock.home.owners ≡ fin.empty }
    ensures out { HasNothingOut result.participants.primary }
    ensures staff { length result.participants.workers.items ≡ length room.pools.items }
    ensures store { HasStoreAlone (cell_of 0 [] (⟦<Store<D> as Door>⟧.store ready.store)) result.store }
{
    dealt_law();
    let Ready {
        names,
        files,
        store,
        opened,
    } = ready;
    let Room {
        post,
        kept,
        home,
        mut held,
        pool,
        pools,
        mut workers,
        rooms,
        mut clients,
        end,
    } = room;
    let geometry = store.geometry();
    let (book, share) = blank.open::<L>();
    let Dealt {
        table,
        names,
        store,
        mut hand,
    } = deal::<N, Store<D>, L>(opened, names, store, book);
    deal_files(&table, &mut hand, files, &mut held);
    let primary = deal_primary(kept, &table, &geometry, names, held, home, pool, &mut hand);
    deal_workers(alloc, &table, &mut hand, pools, &mut workers);
    let baton = Baton::of(&table, &mut hand);
    deal_clients(&table, &geometry, &mut hand, rooms, &mut clients);
    drop(hand);
    Session {
        table,
        geometry,
        participants: Participants {
            clients,
            workers,
            primary,
            post,
            baton,
        },
        store,
        share,
        room: end,
    }
}
