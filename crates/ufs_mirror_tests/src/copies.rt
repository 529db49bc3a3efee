// What a copy asks of the two legs: each sector once, in the largest pieces that a call takes.
use crate::asserts::same;
use crate::legs::{filled, leg, mirror};
use std::process::Abort;
use ufs_disk::{Call, Request};
use ufs_mirror::Mirror;

// A call: the sector that it begins with and its bytes.
#[derive(Clone, Copy, Debug, PartialEq, Eq)]
enum Asked {
    Read(u32, usize),
    Write(u32, usize),
    Barrier,
}

fn request_of(call: &Call) -> Asked {
    match &call.request {
        Request::Read { sector, bytes } => Asked::Read(*sector, *bytes),
        Request::Write { sector, bytes } => Asked::Write(*sector, bytes.len()),
        Request::Barrier => Asked::Barrier,
    }
}

const PICKED: [Asked; 7] = [
    Asked::Barrier,
    Asked::Read(19, 512),
    Asked::Read(0, 4_096),
    Asked::Read(8, 4_096),
    Asked::Read(16, 1_536),
    Asked::Write(19, 512),
    Asked::Barrier,
];

const COPIED: [Asked; 8] = [
    Asked::Barrier,
    Asked::Read(19, 512),
    Asked::Write(0, 4_096),
    Asked::Write(8, 4_096),
    Asked::Write(16, 1_536),
    Asked::Barrier,
    Asked::Write(19, 512),
    Asked::Barrier,
];

fn are_asked<R: Abort>(rt: &R, calls: &[Call], wanted: &[Asked]) {
    same(rt, calls.len(), wanted.len());
    for (call, one) in calls.iter().zip(wanted.iter()) {
        same(rt, request_of(call), *one);
    }
}

#[test]
fn an_opening_copies_each_sector_once(rt: HostRuntime) {
    let (whole, _other) = filled(&rt);
    let first = leg(&rt, whole.as_slice(), &[]);
    let second = leg(&rt, whole.as_slice(), &[]);
    let legs = mirror(&rt, Mirror::open(first, second)).apart();
    are_asked(&rt, legs.first.medium.calls.as_slice(), &PICKED);
    are_asked(&rt, legs.second.medium.calls.as_slice(), &COPIED);
}
