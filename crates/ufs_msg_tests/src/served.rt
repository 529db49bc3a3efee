// A request is served: its entry goes to the client with its hand; then the hands are joined, and the session is closed.
ghost use Rattle.std.specs.Prelude.{ℕ, ◌≡◌};
ghost use Rattle.ufs_joint.specs.Cells.{given_of};
ghost use Rattle.ufs_joint_tests.specs.Small.{answered, small_start};
ghost use Rattle.ufs_layout.specs.Areas.{IsGeometry};
ghost use Rattle.ufs_model.specs.PosixTree.{root_alone};
ghost use Rattle.ufs_model.specs.declared.data.PartName.TheVariants.{Client};
ghost use Rattle.ufs_msg.specs.Requests.{HasClientAlone};
ghost use Rattle.ufs_msg.specs.There.{client_count, worker_count};
ghost use Rattle.ufs_names.specs.NamesPart.{IsNamesPart};
ghost use Rattle.ufs_hand_laws.specs.Parts.{ClientPart};

use crate::asserts::{holds, same};
use crate::calls::answers;
use crate::ends::{client_end, server_end};
use crate::steps::{ask, excuse};
use std::alloc::AllocGlobal;
use std::marker::Brand;
use std::process::Abort;
use std::sync::Wait;
use ufs_joint::{Begun, Hand, Naming, Opened};
use ufs_layout::Geometry;
use ufs_model::{Actor, Entry, Excuse, Op, PartName, Reply};
use ufs_msg::{Answer, ClientPost, PlainPost, Served, SharedRings};
use ufs_names::Names;
use ufs_store::Door;

fn answer_of<N: Naming, D: Door>(
    ticket: u64,
    client: Hand<N>,
    names: &Names,
    store: &D,
) -> Answer<N>
    requires start { N.start ≡ small_start names.now (D.store store.now) }
    requires view { (tickets : ℕ) × (client ≡ given_of (Client 0) (answered names.now (D.store store.now) tickets ticket)) }
{
    let _ = names;
    let _ = store;
    let entry = Entry {
        ticket,
        client: 0,
        seq: 0,
        by: Actor::Primary,
        op: Op::Sync,
        reply: Reply::Excused(Excuse::Memory),
    };
    Answer::Served(Served::new(client, entry, None, None, None))
}

// The hand of an entry with this ticket.
fn hand_in<N: Naming, R: Abort>(rt: &R, served: Served<N>, wanted: u64) -> Hand<N>
    ensures { (part : ClientPart) × HasClientAlone 0 part result }
{
    let (hand, entry, _, _, _) = served.into_parts();
    same(rt, entry.ticket, wanted);
    holds(rt, entry.client == 0);
    hand
}

fn hand_of<N: Naming, R: Abort>(rt: &R, answer: Answer<N>, wanted: u64) -> Hand<N>
    ensures { (part : ClientPart) × HasClientAlone 0 part result }
{
    match answer {
        Answer::Served(served) => hand_in(rt, served, wanted),
        Answer::Redirect(_) => panic!(rt; "a request that nobody sent back"),
    }
}

// The same answer, after it went to the client by the rings of one thread,
fn passed<N: Naming, R: Abort + AllocGlobal>(rt: &R, answer: Answer<N>) -> Answer<N>
    requires clients { client_count N.start ≡ 1 }
    requires workers { worker_count N.start ≡ 3 }
{
    let mut post: PlainPost<N, u32> = PlainPost::make(rt.alloc(), 1, 3).expect(rt, "memory");
    post.turn_of_client(0);
    answers(rt, &mut post, answer);
    post.take_answer().expect(rt, "an answer")
}

// and by ends of shared rings, from a worker.
fn passed_by_ends<N: Naming, R: Abort + AllocGlobal + Wait>(rt: &R, answer: Answer<N>) -> Answer<N>
    requires clients { client_count N.start ≡ 1 }
    requires workers { worker_count N.start ≡ 3 }
{
    let rings: SharedRings<N, u32> = SharedRings::make(rt.alloc(), 1, 3).expect(rt, "memory");
    let mut client = client_end(rt, &rings, 0);
    let mut server = server_end(rt, &rings, Actor::Worker(2));
    answers(rt, &mut server, answer);
    client.take_answer().expect(rt, "an answer")
}

// The tickets at the end of the session.
pub(crate) fn session<N: Naming, D: Door, R: Abort + AllocGlobal + Wait>(
    rt: &R,
    opened: Opened,
    geometry: &Geometry,
    names: &Names,
    store: &D,
) -> u64
    requires name { (opened.table ≡ N.table) × (opened.start ≡ N.start) }
    requires start { N.start ≡ small_start names.now (D.store store.now) }
    requires part { IsNamesPart names.now root_alone }
    requires formed { IsGeometry geometry.now }
    requires its { geometry.now ≡ N.start.geometry }
    requires clients { client_count N.start ≡ 1 }
    requires workers { worker_count N.start ≡ 3 }
{
    let Begun { table, mut hand } = opened.named::<N>();
    ask::<N, Brand>(&table, &mut hand, geometry, 0);
    let asks = hand.split(&table, PartName::Client(0));
    hand.join(&table, asks);
    let ticket = excuse::<N, D, Brand>(&table, &mut hand, names, store);
    let client = hand.split(&table, PartName::Client(0));
    let answer = passed(rt, answer_of(ticket, client, names, store));
    let answer = passed_by_ends(rt, answer);
    hand.join(&table, hand_of(rt, answer, ticket));
    hand.close(table, geometry)
}
