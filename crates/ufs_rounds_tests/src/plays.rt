// What clients are answered, and what is on the disk then.
ghost use Rattle.std.specs.Prelude.{◌<◌, ◌≤◌, length};

use crate::asserts::{holds, same};
use crate::images::{has_alone, new_image, recovers, requests};
use crate::session::played;
use crate::steps::Step;
use std::alloc::AllocGlobal;
use std::process::Abort;
use ufs_disk::{Fuse, FuseDisk, PlainDisk};
use ufs_model::{Actor, Reply};
use ufs_rounds::Played;
use ufs_script::OpLists;

const C0: Step = Step::Turn(Actor::Client(0));

const C1: Step = Step::Turn(Actor::Client(1));

const W1: Step = Step::Turn(Actor::Worker(1));

const W2: Step = Step::Turn(Actor::Worker(2));

const P: Step = Step::Turn(Actor::Primary);

const ONE: &str = "client 0\nopen /f rw creat\nwrite 3 6162\nfsync 3\nstat /f\nend\n";

const TWO: &str =
    "client 0\nopen /f rw creat\nwrite 3 6162\nwrite 3 6364\nfsync 3\nclient 1\nopen /f r\nread 3 9\nsync\nend\n";

// One client and one worker. Each request goes to the primary and comes back, by these steps.
#[test]
fn a_client_is_answered_by_steps(rt: HostRuntime) {
    let steps = [C0, P, C0, C0, P, C0, W1, C0, P, C0];
    let played = played_new(&rt, ONE, 1, &steps);
    same(&rt, played.tickets, 4);
    holds(&rt, played.ended == Ok(()));
    same(&rt, reply_of(&played, 0, 0), Seen::Fd(3));
    same(&rt, reply_of(&played, 0, 1), Seen::Count(2));
    same(&rt, reply_of(&played, 0, 2), Seen::Done);
    same(&rt, reply_of(&played, 0, 3), Seen::Size(2));
    holds(&rt, has_bytes(&rt, played.disk, b"ab"));
}

// Without steps each client in order asks what it was given.
#[test]
fn no_step_is_needed(rt: HostRuntime) {
    let played = played_new(&rt, TWO, 2, &[]);
    same(&rt, played.tickets, 7);
    holds(&rt, played.ended == Ok(()));
    same(&rt, reply_of(&played, 1, 1), Seen::Bytes(4));
    holds(&rt, has_bytes(&rt, played.disk, b"abcd"));
}

// The file goes to the first worker between two writes, from there to the second one, and comes back.
#[test]
fn a_file_moves_between_two_writes(rt: HostRuntime) {
    let to_first = Step::Move { file: 0, to: 1 };
    let to_second = Step::Move { file: 0, to: 2 };
    let back = Step::Move { file: 0, to: 0 };
    let steps = [
        C0, P, C0, C0, P, C0, to_first, P, W1, C0, P, C0, W1, C0, to_second, P, W1, P, P, W2, C1,
        P, C0, W1, C0, P, C0, W2, C0, back, P, W2, P, C1,
    ];
    let played = played_new(&rt, TWO, 2, &steps);
    same(&rt, played.tickets, 7);
    holds(&rt, played.ended == Ok(()));
    same(&rt, server_of(&played, 0, 1), Actor::Primary);
    same(&rt, server_of(&played, 0, 2), Actor::Worker(1));
    same(&rt, reply_of(&played, 1, 1), Seen::Bytes(4));
    holds(&rt, has_bytes(&rt, played.disk, b"abcd"));
}

// Each call of the disk may be the first one that fails. Once the image is mounted each request is answered all the same, and what a crash
// leaves then is recovered.
#[test]
fn a_disk_stops_after_some_calls(rt: HostRuntime) {
    let all = calls_in(played_fused(&rt, u64::MAX));
    let mut some = false;
    for passes in 0..all {
        if let Some(failed) = played_fused(&rt, passes as u64) {
            holds(&rt, failed.ended.is_err());
            same(&rt, failed.tickets, 4);
            holds(&rt, recovers_from(&rt, failed.disk));
            some = true;
        }
    }
    holds(&rt, some);
}

/// What a reply says.
#[derive(Clone, Copy, Debug, PartialEq, Eq, Drop)]
enum Seen {
    Fd(u32),
    Count(u32),
    Size(u64),
    Bytes(usize),
    Done,
    Else,
}

fn what_it_says(reply: &Reply) -> Seen {
    match reply {
        Reply::Fd(fd) => Seen::Fd(*fd),
        Reply::Count(count) => Seen::Count(*count),
        Reply::IsFile { size } => Seen::Size(*size),
        Reply::Got(bytes) => Seen::Bytes(bytes.as_slice().len()),
        Reply::Done => Seen::Done,
        _ => Seen::Else,
    }
}

// What the client was answered to its request of this number.
fn reply_of(played: &Played<PlainDisk>, client: usize, seq: usize) -> Seen {
    match played.told.as_slice().get(client) {
        Some(told) => match told.as_slice().get(seq) {
            Some(one) => what_it_says(&one.entry.reply),
            None => Seen::Else,
        },
        None => Seen::Else,
    }
}

// and by whom.
fn server_of(played: &Played<PlainDisk>, client: usize, seq: usize) -> Actor {
    match played.told.as_slice().get(client) {
        Some(told) => match told.as_slice().get(seq) {
            Some(one) => one.entry.by,
            None => Actor::Client(255),
        },
        None => Actor::Client(255),
    }
}

fn played_new<R: Abort + AllocGlobal>(
    rt: &R,
    text: &str,
    workers: u8,
    steps: &[Step],
) -> Played<PlainDisk>
    requires { workers ≤ 8 }
{
    let disk = new_image(rt.alloc()).expect(rt, "no image");
    let scripts = some_requests(rt, text);
    played(rt, disk, scripts, workers, steps).expect(rt, "not mounted")
}

// On a disk that passes so many calls, and then fails each.
fn played_fused<R: Abort + AllocGlobal>(rt: &R, passes: u64) -> Option<Played<FuseDisk>> {
    let PlainDisk { sectors, bytes, .. } = new_image(rt.alloc()).expect(rt, "no image");
    let disk = FuseDisk::new(rt.alloc(), sectors, bytes, Fuse { passes }).expect(rt, "memory");
    let scripts = some_requests(rt, ONE);
    played(rt, disk, scripts, 1, &[])
}

fn some_requests<R: Abort + AllocGlobal>(rt: &R, text: &str) -> OpLists
    ensures { 0 < length result }
{
    let scripts = requests(rt.alloc(), text).expect(rt, "no script");
    holds(rt, !scripts.as_slice().is_empty());
    scripts
}

fn calls_in(played: Option<Played<FuseDisk>>) -> usize {
    match played {
        Some(played) => played.disk.medium.calls.len(),
        None => 0,
    }
}

// What a crash leaves of it is made clean again.
fn recovers_from<R: Abort + AllocGlobal>(rt: &R, disk: FuseDisk) -> bool {
    let sectors = disk.medium.sectors;
    let bytes = disk.crash(0).expect(rt, "memory");
    recovers(rt.alloc(), sectors, bytes)
}

fn has_bytes<R: Abort + AllocGlobal>(rt: &R, mut disk: PlainDisk, bytes: &[u8]) -> bool {
    has_alone(rt.alloc(), &mut disk, bytes)
}
