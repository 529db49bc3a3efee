// One client over the root alone, of whose disk nothing is said.
ghost use Rattle.std.specs.Prelude.{◌≡◌, ◌+◌, ◌∷◌, [], ℕ, false, length};
ghost use Rattle.ufs_dir_tree.specs.DirTable.{dir_at, no_dir};
ghost use Rattle.ufs_joint_tests.specs.Small.{all_free, small, small_start};
ghost use Rattle.ufs_layout.specs.Areas.{IsGeometry};
ghost use Rattle.ufs_model.specs.PosixTree.{root_alone};
ghost use Rattle.ufs_model.specs.declared.data.Op.TheVariants as op;
ghost use Rattle.ufs_msg.specs.There.{IsClientThere, client_count, worker_count};
ghost use Rattle.ufs_names.specs.NamesPart.{IsNamesPart};
ghost use Rattle.ufs_hand_laws.specs.Parts.{AskedPart, ClientPart};
ghost use Rattle.ufs_store.specs.State.{geometry_of_store};
ghost use Rattle.ufs_caller.specs.Hands.{HasBoth};

use crate::asserts::{holds, same};
use crate::shy::Shy;
use crate::stub::{excuses, sends_back};
use std::alloc::AllocGlobal;
use std::collections::VecDeque;
use std::marker::Brand;
use std::process::Abort;
use ufs_baton::Baton;
use ufs_caller::{Client, ClientRoom, Told, Turn, client_hand};
use ufs_disk::PlainDisk;
use ufs_joint::{Begun, Hand, HandTable, Naming, Opened};
use ufs_joint_tests::{SECTORS, mounted, small_parts};
use ufs_layout::Geometry;
use ufs_model::{Actor, Errno, Excuse, Op, Reply};
use ufs_msg::PlainPost;
use ufs_names::Names;
use ufs_store::Door;

// A `close` of what isn't open, and a `sync`.
fn requests<R: Abort + AllocGlobal>(rt: &R) -> VecDeque<Op>
    ensures { result.items ≡ op.Close 9 ∷ op.Sync ∷ [] }
{
    let mut left = VecDeque::new(rt.alloc());
    left.push_back(Op::Close { fd: 9 }).expect(rt, "memory");
    left.push_back(Op::Sync).expect(rt, "memory");
    left
}

fn turn<N: Naming, R: Abort>(
    rt: &R,
    table: &HandTable<N>,
    baton: &mut Baton<N>,
    client: &mut Client<N>,
    post: &mut Shy<N>,
    wanted: Turn,
)
    requires there { IsClientThere N.start 0 }
    requires first { client.old.number ≡ 0 }
    ensures { client.new.number ≡ 0 }
{
    post.post.turn_of_client(0);
    same(rt, client.poll(table, baton, post), wanted);
}

// The client answers the first itself. The second finds a full ring, goes, is waited for, sent back once, and excused.
fn play<N: Naming, R: Abort>(
    rt: &R,
    table: &HandTable<N>,
    baton: &mut Baton<N>,
    client: &mut Client<N>,
    post: &mut Shy<N>,
)
    requires blind { N.start.is_visible ≡ false }
    requires there { IsClientThere N.start 0 }
    requires first { client.old.number ≡ 0 }
    ensures { client.new.number ≡ 0 }
{
    let to = Actor::Primary;
    turn(rt, table, baton, client, post, Turn::Local);
    post.refuses = true;
    turn(rt, table, baton, client, post, Turn::Full { to });
    turn(rt, table, baton, client, post, Turn::Sent { to });
    turn(rt, table, baton, client, post, Turn::Waiting);
    sends_back(rt, &mut post.post);
    turn(rt, table, baton, client, post, Turn::Resent { to });
    excuses(rt, table, &mut post.post);
    turn(rt, table, baton, client, post, Turn::Told);
    turn(rt, table, baton, client, post, Turn::Done);
}

fn are_answered<R: Abort>(rt: &R, told: &[Told]) {
    let [own, excused] = told else {
        panic!(rt; "another number of answers");
    };
    same(rt, own.entry.by, Actor::Client(0));
    holds(rt, matches!(own.entry.reply, Reply::Refused(Errno::Ebadf)));
    holds(rt, own.via.as_slice().is_empty());
    holds(
        rt,
        matches!(excused.entry.reply, Reply::Excused(Excuse::Memory)),
    );
    let [before] = excused.via.as_slice() else {
        panic!(rt; "another number of servers");
    };
    same(rt, before.actor(), Actor::Primary);
}

// The client's hand, once both are answered.
fn at_home<N: Naming, R: Abort>(rt: &R, client: Client<N>) -> Hand<N>
    requires first { client.number ≡ 0 }
    ensures { (self : ClientPart) × (before : AskedPart) × HasBoth 0 self before result }
{
    holds(rt, !client.is_asking());
    are_answered(rt, client.transcript());
    let (hand, told) = client.into_parts();
    holds(rt, told.len() == 2);
    hand
}

// The tickets at the end.
fn session<N: Naming, D: Door, R: Abort + AllocGlobal>(
    rt: &R,
    opened: Opened,
    geometry: Geometry,
    names: &Names,
    store: &D,
) -> u64
    requires name { (opened.table ≡ N.table) × (opened.start ≡ N.start) }
    requires start { N.start ≡ small_start names.now (D.store store.now) }
    requires part { IsNamesPart names.now root_alone }
    requires formed { IsGeometry geometry }
    requires its { geometry ≡ N.start.geometry }
    requires clients { client_count N.start ≡ 1 }
    requires workers { worker_count N.start ≡ 3 }
{
    let _ = names;
    let _ = store;
    let Begun { table, mut hand } = opened.named::<N>();
    let mut own = client_hand(&table, &mut hand, 0);
    let mut baton = Baton::of(&table, &mut own);
    let room = ClientRoom::make(rt.alloc(), requests(rt)).expect(rt, "memory");
    let mut client = Client::new(room, geometry, 0, own);
    let post = PlainPost::make(rt.alloc(), 1, 3).expect(rt, "memory");
    let mut post = Shy {
        post,
        refuses: false,
    };
    play(rt, &table, &mut baton, &mut client, &mut post);
    let back = at_home(rt, client);
    hand.join(&table, back);
    hand.close(table, &geometry)
}

fn session_on<D: Door, R: Abort + AllocGlobal>(rt: &R, names: &Names, store: &D) -> u64
    requires part { IsNamesPart names.now root_alone }
    requires counted { length names.now.tree.dirs.dirs ≡ 32 + 1 }
    requires bare { (i : ℕ) → dir_at names.now.tree.dirs i ≡ no_dir }
    requires formed { geometry_of_store (D.store store.now) ≡ small }
    requires free { (D.store store.now).unassigned ≡ all_free }
{
    let geometry = store.geometry();
    let parts = small_parts::<Brand, D>(names, store);
    let Ok(opened) = Opened::open(rt.alloc(), parts) else {
        panic!(rt; "memory");
    };
    session::<Brand, D, R>(rt, opened, geometry, names, store)
}

#[test]
fn a_client_answers_itself_and_is_answered_at_last(rt: HostRuntime) {
    let names = Names::new(rt.alloc(), 32).expect(&rt, "memory");
    let disk = PlainDisk::zeros(rt.alloc(), SECTORS).expect(&rt, "memory");
    let store = mounted(rt.alloc(), disk).expect(&rt, "memory");
    same(&rt, session_on(&rt, &names, &store), 2);
}
