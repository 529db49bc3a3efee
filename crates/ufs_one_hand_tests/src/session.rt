// Two clients ask four times for a `sync`, over a disk that isn't visible: the first is excused for want of memory, the
// second done, the third excused by a read that failed, at which the store doesn't stop, and the fourth by a call of the disk
// that failed, at which it does.
ghost use Rattle.std.specs.Prelude.{◌≡◌, ◌∷◌, [], None};
ghost use Rattle.std.specs.FinMap as map;
ghost use Rattle.ufs_one_hand.specs.Apart.{HasEachFile};
ghost use Rattle.ufs_one_hand.specs.OneHand.{HasSession, IsCoveredIn, faults_in};
ghost use Rattle.ufs_one_hand_tests.specs.Small.{bare, done_sync, excused_sync, failed_sync, unread_sync};
ghost use Rattle.ufs_hand_laws.specs.Draws.{entry_of};

use crate::asserts::same;
use std::alloc::AllocGlobal;
use std::marker::Brand;
use std::process::Abort;
use std::rt::HostRuntime;
use ufs_hand::{Naming, Opened, Parts};
use ufs_hand_laws::Fresh;
use ufs_model::{Actor, Entry, Excuse, Op, Reply};
use ufs_one_hand::{OneHand, abandon, starts_can_begin};

#[test]
fn four_entries_are_drawn(rt: HostRuntime) {
    let opened = open(&rt);
    let (tickets, count) = session::<Brand>(opened);
    same(&rt, tickets, [0, 1, 2, 3]);
    same(&rt, count, 4);
}

#[test]
fn a_session_is_given_up(rt: HostRuntime) {
    let opened = open(&rt);
    abandon(opened);
}

fn open<R: Abort + AllocGlobal>(rt: &R) -> Opened
    ensures { result.start ≡ bare }
{
    starts_can_begin();
    let parts = Parts::picked::<Brand>();
    Opened::open(rt.alloc(), parts).expect(rt, "memory")
}

// The tickets of the four entries, and how many entries there are at the end.
fn session<N: Naming>(opened: Opened) -> ([u64; 4], u64)
    requires name { (opened.table ≡ N.table) × (opened.start ≡ N.start) }
    requires start { N.start ≡ bare }
    ensures tickets { result.0 ≡ 0 ∷ 1 ∷ 2 ∷ 3 ∷ [] }
    ensures entries { result.1 ≡ 4 }
{
    let mut hand = OneHand::<N>::begin(opened);
    let first = excused(&mut hand);
    let second = done(&mut hand, first);
    let third = unread(&mut hand, first, second);
    let fourth = failed(&mut hand, first, second, third);
    ([first, second, third, fourth], hand.close())
}

fn excused<N: Naming>(hand: &mut OneHand<N>) -> u64
    requires session { HasSession N.start [] None hand.old }
    requires each { HasEachFile N.start [] hand.old map.empty }
    requires covered { IsCoveredIn N.start [] hand.old }
    requires going { hand.old.stop ≡ None }
    requires none { faults_in hand.old ≡ [] }
    ensures ticket { result ≡ 0 }
    ensures session { HasSession N.start (entry_of result excused_sync ∷ []) None hand.new }
    ensures each { HasEachFile N.start (entry_of result excused_sync ∷ []) hand.new map.empty }
    ensures covered { IsCoveredIn N.start (entry_of result excused_sync ∷ []) hand.new }
    ensures going { hand.new.stop ≡ None }
    ensures none { faults_in hand.new ≡ [] }
{
    let fresh = Fresh {
        client: 0,
        seq: 0,
        by: Actor::Primary,
        op: Op::Sync,
        reply: Reply::Excused(Excuse::Memory),
    };
    hand.ask(0, &fresh.op);
    hand.draw::<Brand>(&fresh)
}

fn done<N: Naming>(hand: &mut OneHand<N>, first: u64) -> u64
    requires start { N.start ≡ bare }
    requires session { HasSession N.start (entry_of first excused_sync ∷ []) None hand.old }
    requires each { HasEachFile N.start (entry_of first excused_sync ∷ []) hand.old map.empty }
    requires covered { IsCoveredIn N.start (entry_of first excused_sync ∷ []) hand.old }
    requires going { hand.old.stop ≡ None }
    requires none { faults_in hand.old ≡ [] }
    ensures ticket { result ≡ 1 }
    ensures session { HasSession N.start (entry_of first excused_sync ∷ entry_of result done_sync ∷ []) None hand.new }
    ensures each { HasEachFile N.start (entry_of first excused_sync ∷ entry_of result done_sync ∷ []) hand.new map.empty }
    ensures covered { IsCoveredIn N.start (entry_of first excused_sync ∷ entry_of result done_sync ∷ []) hand.new }
    ensures going { hand.new.stop ≡ None }
    ensures none { faults_in hand.new ≡ [] }
{
    let entry = Entry {
        ticket: 1,
        client: 1,
        seq: 0,
        by: Actor::Primary,
        op: Op::Sync,
        reply: Reply::Done,
    };
    hand.ask(1, &entry.op);
    hand.keep::<Brand>(&entry);
    let fresh = Fresh {
        client: 1,
        seq: 0,
        by: Actor::Primary,
        op: Op::Sync,
        reply: Reply::Done,
    };
    hand.draw::<Brand>(&fresh)
}

fn unread<N: Naming>(hand: &mut OneHand<N>, first: u64, second: u64) -> u64
    requires start { N.start ≡ bare }
    requires session { HasSession N.start (entry_of first excused_sync ∷ entry_of second done_sync ∷ []) None hand.old }
    requires each { HasEachFile N.start (entry_of first excused_sync ∷ entry_of second done_sync ∷ []) hand.old map.empty }
    requires covered { IsCoveredIn N.start (entry_of first excused_sync ∷ entry_of second done_sync ∷ []) hand.old }
    requires going { hand.old.stop ≡ None }
    requires none { faults_in hand.old ≡ [] }
    ensures ticket { result ≡ 2 }
    ensures session { HasSession N.start (entry_of first excused_sync ∷ entry_of second done_sync ∷ entry_of result unread_sync ∷ []) None hand.new }
    ensures each { HasEachFile N.start (entry_of first excused_sync ∷ entry_of second done_sync ∷ entry_of result unread_sync ∷ []) hand.new map.empty }
    ensures covered { IsCoveredIn N.start (entry_of first excused_sync ∷ entry_of second done_sync ∷ entry_of result unread_sync ∷ []) hand.new }
    ensures going { hand.new.stop ≡ None }
    ensures met { faults_in hand.new ≡ 5 ∷ [] }
{
    let fresh = Fresh {
        client: 1,
        seq: 1,
        by: Actor::Primary,
        op: Op::Sync,
        reply: Reply::Excused(Excuse::Device { fault: 5 }),
    };
    hand.ask(1, &fresh.op);
    hand.pass::<Brand>();
    hand.draw::<Brand>(&fresh)
}

fn failed<N: Naming>(hand: &mut OneHand<N>, first: u64, second: u64, third: u64) -> u64
    requires start { N.start ≡ bare }
    requires session { HasSession N.start (entry_of first excused_sync ∷ entry_of second done_sync ∷ entry_of third unread_sync ∷ []) None hand.old }
    requires each { HasEachFile N.start (entry_of first excused_sync ∷ entry_of second done_sync ∷ entry_of third unread_sync ∷ []) hand.old map.empty }
    requires covered { IsCoveredIn N.start (entry_of first excused_sync ∷ entry_of second done_sync ∷ entry_of third unread_sync ∷ []) hand.old }
    requires going { hand.old.stop ≡ None }
    requires met { faults_in hand.old ≡ 5 ∷ [] }
    ensures ticket { result ≡ 3 }
    ensures session { HasSession N.start (entry_of first excused_sync ∷ entry_of second done_sync ∷ entry_of third unread_sync ∷ entry_of result failed_sync ∷ []) None hand.new }
    ensures each { HasEachFile N.start (entry_of first excused_sync ∷ entry_of second done_sync ∷ entry_of third unread_sync ∷ entry_of result failed_sync ∷ []) hand.new map.empty }
{
    let fresh = Fresh {
        client: 0,
        seq: 1,
        by: Actor::Primary,
        op: Op::Sync,
        reply: Reply::Excused(Excuse::Device { fault: 7 }),
    };
    hand.ask(0, &fresh.op);
    hand.pass::<Brand>();
    hand.draw::<Brand>(&fresh)
}
