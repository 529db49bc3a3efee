// A session on hands ends.
ghost use Rattle.std.specs.Prelude.{◌≡◌, List};
ghost use Rattle.ufs_gathered.specs.Ended.{HasEnded};
ghost use Rattle.ufs_gathered.specs.Gathered.{AreAllBack, AreHome, HasAllOf, HasPoolsAlone};
ghost use Rattle.ufs_joint.specs.Cells.{FileCell, NamesCell, View};
ghost use Rattle.ufs_model.specs.declared.data.Entry.{Entry};
ghost use Rattle.ufs_turns.specs.HeldStore.{IsHeldStore, IsStoreIn};

use crate::gathering::{Actors, Gathered, gather};
use std::marker::Brand;
use std::sync::ledger::Ledger;
use ufs_joint::{HandTable, Naming};
use ufs_names_commit::all_law;
use ufs_promise_laws::{always_law, last_law};
use ufs_store::Door;

/// A session that has ended, and the store that it ran over.
pub struct Ended<S: Door> {
    /// How many entries it has.
    pub tickets: u64,
    pub store: S,
}

/// Ends a session whose actors are all done: their rights come to one hand, which is closed. No call of the disk is made, and no memory
/// is taken, so nothing can fail.
///
/// The transcripts that the clients' hands have are those of one history, of which the disk keeps its promise. Once names and files are
/// committed, and the store goes on, whatever a crash leaves stands for the last tree.
pub fn end<N: Naming, S: Door, L: Ledger>(table: HandTable<N>, actors: Actors<N, S, L>) -> Ended<S>
    requires home { (lists : List (List Entry)) × AreHome lists actors.clients.items }
    requires pools { HasPoolsAlone actors.pools }
    requires back { AreAllBack N.start actors.names actors.files.items actors.pools actors.clients.items }
    ensures ended { (lists : List (List Entry)) → AreHome lists actors.clients.items → HasEnded N.start N.origin S.keeps result.tickets lists actors.names actors.files.items (S.store result.store) }
    ensures store { IsHeldStore N.start N.origin S.visible S.keeps actors.store (S.store result.store) }
{
    let gathered = gather(&table, actors);
    close_gathered(table, gathered)
}

// Closes the hand to which all came.
pub(crate) fn close_gathered<N: Naming, S: Door>(
    table: HandTable<N>,
    gathered: Gathered<N, S>,
) -> Ended<S>
    requires store { IsStoreIn N.start N.origin S.visible S.keeps gathered.hand (S.store gathered.store) }
    requires back { (names : NamesCell) × (files : List FileCell) × (pools : View) × (clients : List View) × HasAllOf names files pools clients gathered.hand × AreAllBack N.start names files pools clients }
    ensures ended { (names : NamesCell) (files : List FileCell) (pools : View) (clients : List View) → HasAllOf names files pools clients gathered.hand → AreAllBack N.start names files pools clients
        → (lists : List (List Entry)) → AreHome lists clients → HasEnded N.start N.origin S.keeps result.tickets lists names files (S.store result.store) }
    ensures same { S.store result.store ≡ S.store gathered.store }
{
    let Gathered { mut hand, store } = gathered;
    let geometry = store.geometry();
    always_law(&geometry);
    all_law(&geometry);
    last_law(&geometry);
    // What is known as committed is told of a history with all tickets.
    hand.mark::<Brand>(&table, &geometry);
    let tickets = hand.close(table, &geometry);
    Ended { tickets, store }
}
