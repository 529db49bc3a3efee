// Sessions that read a file's blocks as requests need them.
use crate::asserts::{holds, same};
use crate::calls::{check_calls, playing};
use crate::spoiled::left_by;
use crate::traces::{FAULT, Row, check_trace, played, second_barrier};
use crate::trees::put_sector;
use std::alloc::AllocGlobal;
use std::process::Abort;
use ufs_base::SECTOR;
use ufs_disk::{Call as DiskCall, Request};

// An image with a file of one byte.
fn one_byte<R: Abort + AllocGlobal>(rt: &R) -> Vec<u8> {
    left_by(rt, "open /f rw creat;write 3 61;fsync 3", "fd 3/n 1/ok").bytes
}

fn no_read(rt: &impl Abort) {
    panic!(rt; "no read")
}

// The number of the first read behind the first barrier, which is the last call of a session's opening.
fn first_read(rt: &impl Abort, calls: &[DiskCall]) -> u64 {
    let mut opened = false;
    for (number, call) in calls.iter().enumerate() {
        match call.request {
            Request::Barrier => opened = true,
            Request::Read { .. } if opened => return number as u64,
            _ => {}
        }
    }
    no_read(rt);
    0
}

const READS: &str = "open /f rw;pread 3 1 0;pread 3 1 0;write 3 62;fsync 3";

// The number of that read in calm.
fn failing_read<R: Abort + AllocGlobal>(rt: &R, image: &[u8]) -> u64 {
    let disk = played(rt, image, READS, "fd 3/data 61/data 61/n 1/ok");
    first_read(rt, disk.medium.calls.as_slice())
}

// Its reply alone tells it: the same request is served when it comes again, and so is all behind it.
#[test]
fn a_read_that_fails_stops_nothing(rt: HostRuntime) {
    let row = Row {
        requests: READS,
        replies: "fd 3/err EIO/data 61/n 1/ok",
        excuses: &[(1, "device 1")],
        status: 0,
        last: "",
    };
    let image = one_byte(&rt);
    let fails = failing_read(&rt, image.as_slice());
    check_trace(&rt, &row, 2_048, image.as_slice(), &[fails]);
}

const STOPS: &str = "open /f r;open /g rw;write 4 62;fsync 4;pread 3 1 0";

// The `fsync` fails at its first barrier. A block that no request has needed before is read all the same.
#[test]
fn reads_go_on_once_the_store_has_stopped(rt: HostRuntime) {
    let row = Row {
        requests: STOPS,
        replies: "fd 3/fd 4/n 1/err EIO/data 61",
        excuses: &[(3, "device 1")],
        status: 4,
        last: FAULT,
    };
    let made = "open /f rw creat;write 3 61;open /g rw creat;write 4 61;sync";
    let image = left_by(&rt, made, "fd 3/n 1/fd 4/n 1/ok").bytes;
    let calm = played(&rt, image.as_slice(), STOPS, "fd 3/fd 4/n 1/ok/data 61");
    let fails = second_barrier(&rt, calm.medium.calls.as_slice());
    check_trace(&rt, &row, 2_048, image.as_slice(), &[fails]);
}

// How many calls of the disk a session makes.
fn count<R: Abort + AllocGlobal>(rt: &R, image: &[u8], requests: &str, replies: &str) -> usize {
    let disk = played(rt, image, requests, replies);
    disk.medium.calls.len()
}

#[test]
fn a_block_is_read_once(rt: HostRuntime) {
    let image = one_byte(&rt);
    let image = image.as_slice();
    let none = count(&rt, image, "open /f r", "fd 3");
    let once = count(&rt, image, "open /f r;pread 3 1 0", "fd 3/data 61");
    let again = count(
        &rt,
        image,
        "open /f r;pread 3 1 0;pread 3 1 0;read 3 1",
        "fd 3/data 61/data 61/data 61",
    );
    same(&rt, again, once);
    holds(&rt, none < once);
}

// The first sector of the file's block: the root has block 14, and the file the one behind it.
const FIRST: u32 = 8 * 15;

// A file of five bytes. The rest of their sector on the disk has other bytes than zeros too.
#[test]
fn a_file_that_grows_shows_zeros(rt: HostRuntime) {
    let mut disk = left_by(&rt, "open /f rw creat;write 3 6162636465", "fd 3/n 5");
    put_sector(&rt, &mut disk, FIRST, &[0x7a; SECTOR]);
    let calls = [
        playing(
            "client 0\nopen /f rw\npwrite 3 61 9\npread 3 20 0\nend\n",
            0,
            "0.0 fd 3\n0.1 n 1\n0.2 data 7a7a7a7a7a0000000061\n",
        ),
        playing(
            "client 0\nopen /f r\npread 3 20 0\nend\n",
            0,
            "0.0 fd 3\n0.1 data 7a7a7a7a7a0000000061\n",
        ),
    ];
    check_calls(&rt, &calls, disk);
}
