// Sessions over an image: what is answered, what the image stands for behind them, and how they end.
use crate::calls::{check_calls, check_new, playing};
use crate::rows::{lines_of, repeated, script_of};
use crate::trees::{check, making, tree};
use std::alloc::AllocGlobal;
use std::process::Abort;
use ufs_disk::PlainDisk;

// A session of one client: requests between semicolons, replies between slashes, and the tree behind it.
type Row<'a> = (&'a str, &'a str, &'a str);

const SESSIONS: [Row<'static>; 7] = [
    (
        "open /f rw creat;write 3 68656c6c6f;seek 3 set 0;read 3 10;read 3 1;close 3",
        "fd 3/n 5/at 0/data 68656c6c6f/data -/ok",
        "dir /\nfile /f 5 68656c6c6f\n",
    ),
    (
        "open /f r;read 3 9",
        "fd 3/data 68656c6c6f",
        "dir /\nfile /f 5 68656c6c6f\n",
    ),
    (
        "open /f rw;pwrite 3 61 4096;fsync 3;trunc 3 2;trunc 3 4;pread 3 9 0",
        "fd 3/n 1/ok/ok/ok/data 68650000",
        "dir /\nfile /f 4 68650000\n",
    ),
    (
        "mkdir /a;mkdir /a/b;rename /f /a/b/g;open /a/b/g rw;pwrite 3 7a 1;sync;rename /a /c",
        "ok/ok/ok/fd 3/n 1/ok/ok",
        "dir /\ndir /c\ndir /c/b\nfile /c/b/g 4 687a0000\n",
    ),
    (
        "open /c/b/g r;unlink /c/b/g;pread 3 9 0;open /h w creat;write 4 61;rmdir /c/b",
        "fd 3/ok/data 687a0000/fd 4/n 1/ok",
        "dir /\ndir /c\nfile /h 1 61\n",
    ),
    ("rmdir /c;unlink /h;sync", "ok/ok/ok", "dir /\n"),
    ("list /", "names 0", "dir /\n"),
];

// Plays a row over the disk, and looks at what it leaves.
fn check_session<R: Abort + AllocGlobal>(rt: &R, row: &Row, disk: PlainDisk) -> PlainDisk {
    let script = script_of(rt, row.0);
    let lines = lines_of(rt, row.1);
    let calls = [
        playing(script.as_str(), 0, lines.as_str()),
        check(0, "clean\n"),
        tree(0, row.2),
    ];
    check_calls(rt, &calls, disk)
}

#[test]
fn sessions_follow_one_another(rt: HostRuntime) {
    let mut disk = check_new(&rt, 2_048, &[making()]);
    for row in &SESSIONS {
        disk = check_session(&rt, row, disk);
    }
}

// Plays a row over a new image.
fn check_one<R: Abort + AllocGlobal>(rt: &R, row: &Row) {
    check_session(rt, row, check_new(rt, 2_048, &[making()]));
}

// The notes of what is made and removed again fill the journal many times over.
#[test]
fn what_comes_and_goes_fills_no_journal(rt: HostRuntime) {
    let requests = repeated(
        &rt,
        &[("mkdir /a;rmdir /a", 1), (";mkdir /a;rmdir /a", 299)],
    );
    let replies = repeated(&rt, &[("ok/ok", 1), ("/ok/ok", 299)]);
    check_one(&rt, &(requests.as_str(), replies.as_str(), "dir /\n"));
}

// Of 242 blocks the root has one. What a removed file had is wanted by the next one, and so is what a directory had.
#[test]
fn blocks_of_what_is_removed_come_back_in_the_session(rt: HostRuntime) {
    let requests =
        "open /f rw creat;write 3 987136*61;unlink /f;open /g rw creat;write 4 4096*62;close 3;write 4 983040*62;mkdir /d;open /d/x rw creat;close 4;unlink /g;write 3 983040*63;unlink /d/x;close 3;rmdir /d;open /h rw creat;write 3 987136*64";
    let replies =
        "fd 3/n 987136/ok/fd 4/err ENOSPC/ok/n 983040/ok/fd 3/ok/ok/n 983040/ok/ok/ok/fd 3/n 987136";
    let shown = repeated(
        &rt,
        &[("dir /\nfile /h 987136 ", 1), ("64", 64), ("+\n", 1)],
    );
    check_one(&rt, &(requests, replies, shown.as_str()));
}
