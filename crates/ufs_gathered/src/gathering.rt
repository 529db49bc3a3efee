// The rights of all actors come to one hand.
ghost use Rattle.std.specs.Prelude.{◌≡◌, List};
ghost use Rattle.ufs_gathered.specs.Gathered.{AreHome, HasAllOf, HasFilesToo, HasPoolsAlone, with_all};
ghost use Rattle.ufs_held.specs.Together.{HasThemToo};
ghost use Rattle.ufs_joint.specs.Cells.{FileCell};
ghost use Rattle.ufs_model.specs.declared.data.Entry.{Entry};
ghost use Rattle.ufs_turns.specs.HeldStore.{IsHeldStore, IsStoreIn};

use std::sync::ledger::Ledger;
use ufs_held::HeldFile;
use ufs_held_names::HeldNames;
use ufs_joint::{Hand, HandTable, Naming};
use ufs_store::Door;
use ufs_turns::HeldStore;

/// What the actors of a session have, once each of them is done.
pub struct Actors<N: Naming, S: Door, L: Ledger> {
    pub names: HeldNames<N>,
    pub files: Vec<HeldFile<N>>,
    pub store: HeldStore<N, S, L>,
    /// The right to the servers' pools.
    pub pools: Hand<N>,
    /// The clients' hands, that of client 0 first.
    pub clients: Vec<Hand<N>>,
}

/// The same, where the rights to the files came to the hand of the pools, and the files themselves were let go.
pub struct Remains<N: Naming, S: Door, L: Ledger> {
    pub names: HeldNames<N>,
    pub store: HeldStore<N, S, L>,
    /// The right to the servers' pools and to the files.
    pub rest: Hand<N>,
    /// The clients' hands, that of client 0 first.
    pub clients: Vec<Hand<N>>,
}

// The hand of all of it, and the store.
pub(crate) struct Gathered<N: Naming, S: Door> {
    pub hand: Hand<N>,
    pub store: S,
}

// These hands come to this one, one after the other.
pub(crate) fn gather_hands<N: Naming>(table: &HandTable<N>, hand: &mut Hand<N>, hands: Vec<Hand<N>>)
    ensures { hand.new ≡ with_all hand.old hands.items }
{
    for other in hands {
        hand.join(table, other);
    }
}

// The rights to the cells of these files come to the hand. The files themselves are let go.
pub(crate) fn gather_files<N: Naming>(
    table: &HandTable<N>,
    hand: &mut Hand<N>,
    files: Vec<HeldFile<N>>,
)
    ensures { HasThemToo files.items hand.old hand.new }
{
    for file in files {
        let (value, commits, right) = file.into_parts();
        drop(value);
        drop(commits);
        hand.join(table, right);
    }
}

// All rights come to that of the names, those to the files by the hand of the pools.
pub(crate) fn gather<N: Naming, S: Door, L: Ledger>(
    table: &HandTable<N>,
    actors: Actors<N, S, L>,
) -> Gathered<N, S>
    requires home { (lists : List (List Entry)) × AreHome lists actors.clients.items }
    requires pools { HasPoolsAlone actors.pools }
    ensures all { HasAllOf actors.names actors.files.items actors.pools actors.clients.items result.hand }
    ensures store { IsStoreIn N.start N.origin S.visible S.keeps result.hand (S.store result.store) }
    ensures its { IsHeldStore N.start N.origin S.visible S.keeps actors.store (S.store result.store) }
{
    let Actors {
        names,
        files,
        store,
        mut pools,
        clients,
    } = actors;
    gather_files(table, &mut pools, files);
    let remains = Remains {
        names,
        store,
        rest: pools,
        clients,
    };
    gather_remains(table, remains)
}

// The same, where the files' rights are with the pools.
pub(crate) fn gather_remains<N: Naming, S: Door, L: Ledger>(
    table: &HandTable<N>,
    remains: Remains<N, S, L>,
) -> Gathered<N, S>
    requires home { (lists : List (List Entry)) × AreHome lists remains.clients.items }
    requires rest { (files : List FileCell) × HasFilesToo files remains.rest }
    ensures all { (files : List FileCell) → HasFilesToo files remains.rest → HasAllOf remains.names files remains.rest remains.clients.items result.hand }
    ensures store { IsStoreIn N.start N.origin S.visible S.keeps result.hand (S.store result.store) }
    ensures its { IsHeldStore N.start N.origin S.visible S.keeps remains.store (S.store result.store) }
{
    let Remains {
        names,
        store,
        rest,
        clients,
    } = remains;
    let (noted, mut hand) = names.into_parts();
    drop(noted);
    let (own, store) = store.into_parts();
    hand.join(table, own);
    hand.join(table, rest);
    gather_hands(table, &mut hand, clients);
    Gathered { hand, store }
}
