// Sessions with their traces: the replies, and behind them each entry by its ticket, with its excuse.
use crate::calls::{check_over, memory_disk, playing, tracing};
use crate::rooms::{GROWING, GROWN};
use crate::rows::{lines_of, push, repeated, script_of};
use crate::stops::image;
use crate::trees::{making, making_small};
use std::alloc::AllocGlobal;
use std::process::Abort;
use ufs_disk::{Call as DiskCall, MemoryDisk, Request};

/// The line of the first fault.
pub const FAULT: &str = "ufs: device fault 1\n";

/// Excuses, each with the number of its request.
pub type Excuses<'a> = &'a [(usize, &'a str)];

fn push_excuse<R: Abort + AllocGlobal>(rt: &R, text: &mut String, number: usize, excuses: Excuses) {
    for (excused, excuse) in excuses {
        if *excused == number {
            push(rt, text, " excuse ");
            push(rt, text, excuse);
        }
    }
}

// What the trace of one client's requests is, so many, served in their order.
fn push_trace<R: Abort + AllocGlobal>(rt: &R, text: &mut String, count: usize, excuses: Excuses) {
    for number in 0..count {
        let line = format!(in rt.alloc(); "# {number} 0.{number} by p").expect(rt, "memory");
        push(rt, text, line.as_str());
        push_excuse(rt, text, number, excuses);
        push(rt, text, "\n");
    }
}

/// Requests between semicolons, and replies between slashes.
#[derive(Clone, Copy)]
pub struct Row<'a> {
    pub requests: &'a str,
    pub replies: &'a str,
    pub excuses: Excuses<'a>,
    pub status: u8,
    // The last line of the session.
    pub last: &'a str,
}

// What the row prints.
fn text_of<R: Abort + AllocGlobal>(rt: &R, row: &Row) -> String {
    let mut text = lines_of(rt, row.replies);
    let count = row.requests.split(';').count();
    push_trace(rt, &mut text, count, row.excuses);
    push(rt, &mut text, row.last);
    text
}

/// Plays a row with its trace over the bytes of an image, of which one call may fail.
pub fn check_trace<R: Abort + AllocGlobal>(
    rt: &R,
    row: &Row,
    sectors: u32,
    image: &[u8],
    fails: &[u64],
) {
    let script = script_of(rt, row.requests);
    let text = text_of(rt, row);
    let call = tracing(script.as_str(), row.status, text.as_str());
    check_over(rt, &call, memory_disk(rt, sectors, image, fails));
}

// A row in calm.
fn check_calm<R: Abort + AllocGlobal>(
    rt: &R,
    sectors: u32,
    image: &[u8],
    requests: &str,
    replies: &str,
    excuses: Excuses,
) {
    let row = Row {
        requests,
        replies,
        excuses,
        status: 0,
        last: "",
    };
    check_trace(rt, &row, sectors, image, &[]);
}

#[test]
fn blocks_that_ran_out_are_told(rt: HostRuntime) {
    check_calm(
        &rt,
        2_048,
        image(&rt, 2_048, making()).as_slice(),
        "open /f rw creat;write 3 987136*61;write 3 61;trunc 3 0;pwrite 3 61 0;fsync 3;pwrite 3 61 0",
        "fd 3/n 987136/err ENOSPC/ok/err ENOSPC/ok/n 1",
        &[(2, "blocks 1 0"), (4, "blocks 1 0")],
    );
}

#[test]
fn inodes_that_ran_out_are_told(rt: HostRuntime) {
    check_calm(
        &rt,
        512,
        image(&rt, 512, making_small()).as_slice(),
        "mkdir /00;mkdir /01;mkdir /02;mkdir /03;mkdir /04;mkdir /05;mkdir /06;mkdir /07;mkdir /08;mkdir /09;mkdir /10;mkdir /11;mkdir /12;mkdir /13;mkdir /14;mkdir /15;rmdir /00;mkdir /15",
        "ok/ok/ok/ok/ok/ok/ok/ok/ok/ok/ok/ok/ok/ok/ok/err ENOSPC/ok/ok",
        &[(15, "inodes 1 0")],
    );
}

#[test]
fn extents_that_ran_out_are_told(rt: HostRuntime) {
    check_calm(
        &rt,
        2_048,
        image(&rt, 2_048, making()).as_slice(),
        repeated(&rt, &GROWING).as_str(),
        repeated(&rt, &GROWN).as_str(),
        &[(114, "extents 57 56")],
    );
}

/// The disk behind a session over these bytes in which each call passes. It has a list of them.
pub fn played<R: Abort + AllocGlobal>(
    rt: &R,
    image: &[u8],
    requests: &str,
    replies: &str,
) -> MemoryDisk {
    let script = script_of(rt, requests);
    let lines = lines_of(rt, replies);
    let call = playing(script.as_str(), 0, lines.as_str());
    check_over(rt, &call, memory_disk(rt, 2_048, image, &[]))
}

fn no_barrier(rt: &impl Abort) {
    panic!(rt; "no barrier")
}

/// The number of the second barrier of these calls. The first is the last call of a session's opening.
pub fn second_barrier(rt: &impl Abort, calls: &[DiskCall]) -> u64 {
    let mut opened = false;
    for (number, call) in calls.iter().enumerate() {
        if let Request::Barrier = call.request {
            if opened {
                return number as u64;
            }
            opened = true;
        }
    }
    no_barrier(rt);
    0
}

const SYNCS: &str = "open /f rw creat;write 3 61;fsync 3;fsync 3;pread 3 1 0";

// The number of that barrier in calm.
fn failing_barrier<R: Abort + AllocGlobal>(rt: &R, image: &[u8]) -> u64 {
    let disk = played(rt, image, SYNCS, "fd 3/n 1/ok/ok/data 61");
    second_barrier(rt, disk.medium.calls.as_slice())
}

// The call that fails is the first barrier behind the opening. The read behind it goes on in memory.
#[test]
fn a_fault_of_the_disk_is_told(rt: HostRuntime) {
    let row = Row {
        requests: SYNCS,
        replies: "fd 3/n 1/err EIO/err EIO/data 61",
        excuses: &[(2, "device 1"), (3, "stopped 1")],
        status: 4,
        last: FAULT,
    };
    let image = image(&rt, 2_048, making());
    let fails = failing_barrier(&rt, image.as_slice());
    check_trace(&rt, &row, 2_048, image.as_slice(), &[fails]);
}

// What a client answers itself: a descriptor that isn't open, flags, a path's text, and a `seek` that needs no size.
#[test]
fn a_clients_own_answers_name_it(rt: HostRuntime) {
    let script =
        "client 0\nopen /f rw creat\nseek 3 set 5\nseek 3 cur -2\nseek 3 end 0\nread 9 1\nopen /f r trunc\nmkdir a\nmkdir /f\nclient 1\nseek 3 set 0\nend\n";
    let text =
        "0.0 fd 3\n0.1 at 5\n0.2 at 3\n0.3 at 0\n0.4 err EBADF\n0.5 err EINVAL\n0.6 err EINVAL\n0.7 err EEXIST\n1.0 err EBADF\n# 0 0.0 by p\n# 1 0.1 by c0\n# 2 0.2 by c0\n# 3 0.3 by p\n# 4 0.4 by c0\n# 5 0.5 by c0\n# 6 0.6 by c0\n# 7 0.7 by p\n# 8 1.0 by c1\n";
    let image = image(&rt, 2_048, making());
    let disk = memory_disk(&rt, 2_048, image.as_slice(), &[]);
    check_over(&rt, &tracing(script, 0, text), disk);
}
