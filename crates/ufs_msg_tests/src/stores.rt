// Sessions over a store, each of which ends with every hand at hand.
ghost use Rattle.std.specs.Prelude.{ℕ, ◌≡◌, ◌+◌, length};
ghost use Rattle.ufs_dir_tree.specs.DirTable.{dir_at, no_dir};
ghost use Rattle.ufs_joint_tests.specs.Small.{all_free, small};
ghost use Rattle.ufs_model.specs.PosixTree.{root_alone};
ghost use Rattle.ufs_msg_tests.specs.TwoClients.{two_start};
ghost use Rattle.ufs_names.specs.NamesPart.{IsNamesPart};
ghost use Rattle.ufs_store.specs.State.{geometry_of_store};

use crate::asserts::same;
use crate::hands::Passing;
use crate::rounds::Way;
use crate::{hands, rounds, served};
use std::alloc::AllocGlobal;
use std::marker::Brand;
use std::process::Abort;
use std::sync::Wait;
use std::thread::Threads;
use ufs_disk::PlainDisk;
use ufs_joint::{Opened, Opening, Parts};
use ufs_joint_tests::{SECTORS, mounted, small_parts};
use ufs_names::Names;
use ufs_store::Door;

enum Session {
    Rounds(Way),
    Hands(Passing),
    Served,
}

// What a session of two clients starts from.
fn two_parts<P: Opening, D: Door>(names: &Names, store: &D) -> Parts
    requires { P.opened ≡ two_start names.now (D.store store.now) }
    ensures { result.start ≡ two_start names.now (D.store store.now) }
{
    let _ = names;
    let _ = store;
    Parts::picked::<P>()
}

// The tickets at the end of a session in which requests are sent and come back,
fn rounds_on<D: Door, R: Abort + AllocGlobal + Threads + Wait + Sync>(
    rt: &R,
    way: Way,
    names: &Names,
    store: &D,
) -> u64
    requires part { IsNamesPart names.now root_alone }
    requires counted { length names.now.tree.dirs.dirs ≡ 32 + 1 }
    requires bare { (i : ℕ) → dir_at names.now.tree.dirs i ≡ no_dir }
    requires formed { geometry_of_store (D.store store.now) ≡ small }
    requires free { (D.store store.now).unassigned ≡ all_free }
{
    let geometry = store.geometry();
    let parts = two_parts::<Brand, D>(names, store);
    let Ok(opened) = Opened::open(rt.alloc(), parts) else {
        panic!(rt; "memory");
    };
    rounds::session::<Brand, D, R>(rt, way, opened, &geometry, names, store)
}

// Of one whose hands go from one thread to another,
fn hands_on<D: Door, R: Abort + AllocGlobal + Threads + Wait + Sync>(
    rt: &R,
    passing: Passing,
    names: &Names,
    store: &D,
) -> u64
    requires part { IsNamesPart names.now root_alone }
    requires counted { length names.now.tree.dirs.dirs ≡ 32 + 1 }
    requires bare { (i : ℕ) → dir_at names.now.tree.dirs i ≡ no_dir }
    requires formed { geometry_of_store (D.store store.now) ≡ small }
    requires free { (D.store store.now).unassigned ≡ all_free }
{
    let geometry = store.geometry();
    let parts = small_parts::<Brand, D>(names, store);
    let Ok(opened) = Opened::open(rt.alloc(), parts) else {
        panic!(rt; "memory");
    };
    hands::session::<Brand, D, R>(rt, passing, opened, &geometry, names, store)
}

// and of one in which a request is served.
fn served_on<D: Door, R: Abort + AllocGlobal + Wait>(rt: &R, names: &Names, store: &D) -> u64
    requires part { IsNamesPart names.now root_alone }
    requires counted { length names.now.tree.dirs.dirs ≡ 32 + 1 }
    requires bare { (i : ℕ) → dir_at names.now.tree.dirs i ≡ no_dir }
    requires formed { geometry_of_store (D.store store.now) ≡ small }
    requires free { (D.store store.now).unassigned ≡ all_free }
{
    let geometry = store.geometry();
    let parts = small_parts::<Brand, D>(names, store);
    let Ok(opened) = Opened::open(rt.alloc(), parts) else {
        panic!(rt; "memory");
    };
    served::session::<Brand, D, R>(rt, opened, &geometry, names, store)
}

// What the sessions begin over.
fn tickets_of<R: Abort + AllocGlobal + Threads + Wait + Sync>(rt: &R, session: Session) -> u64 {
    let names = Names::new(rt.alloc(), 32).expect(rt, "memory");
    let disk = PlainDisk::zeros(rt.alloc(), SECTORS).expect(rt, "memory");
    let store = mounted(rt.alloc(), disk).expect(rt, "memory");
    match session {
        Session::Rounds(way) => rounds_on(rt, way, &names, &store),
        Session::Hands(passing) => hands_on(rt, passing, &names, &store),
        Session::Served => served_on(rt, &names, &store),
    }
}

#[test]
fn requests_go_to_the_primary_and_back_by_rings_of_one_thread(rt: HostRuntime) {
    same(&rt, tickets_of(&rt, Session::Rounds(Way::InTurns)), 0);
}

#[test]
fn requests_go_to_the_primary_and_back_by_ends_of_shared_rings(rt: HostRuntime) {
    same(&rt, tickets_of(&rt, Session::Rounds(Way::ByEnds)), 0);
}

#[test]
fn a_request_and_an_answer_stay_where_rings_of_one_thread_have_no_room(rt: HostRuntime) {
    same(&rt, tickets_of(&rt, Session::Rounds(Way::WithoutRoom)), 0);
}

#[test]
fn a_request_and_an_answer_stay_until_shared_rings_have_room(rt: HostRuntime) {
    same(&rt, tickets_of(&rt, Session::Rounds(Way::ByNarrowEnds)), 0);
}

#[test]
fn a_request_goes_to_the_primary_and_back_ten_thousand_times_between_threads(rt: HostRuntime) {
    same(
        &rt,
        tickets_of(&rt, Session::Rounds(Way::BetweenThreads)),
        0,
    );
}

#[test]
fn an_answer_comes_to_its_client_with_the_hand(rt: HostRuntime) {
    same(&rt, tickets_of(&rt, Session::Served), 1);
}

#[test]
fn hands_fill_and_leave_rings_of_16(rt: HostRuntime) {
    same(
        &rt,
        tickets_of(&rt, Session::Hands(Passing::OnOneThread)),
        0,
    );
}

#[test]
fn a_hundred_thousand_hands_go_between_threads_through_a_ring_of_16(rt: HostRuntime) {
    same(
        &rt,
        tickets_of(&rt, Session::Hands(Passing::BetweenThreads)),
        0,
    );
}
