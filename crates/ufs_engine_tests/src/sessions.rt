// What no clause says of sessions: one ends well where there is memory, and its replies are those of the plain tree.
use std::alloc::{AllocError, Global};
use std::process::Abort;
use std::test::Fail;
use ufs_disk::PlainDisk;
use ufs_engine::play;
use ufs_io::PlainSource;
use ufs_layout::Geometry;
use ufs_model::{Actor, Reply};
use ufs_recover::format;
use ufs_script::{Script, read_script, reply_line};
use ufs_tree::serve;

// How many requests each of three clients asks.
const REQUESTS: u32 = 200;

fn next(state: &mut u64) -> u64 {
    *state = state
        .wrapping_mul(6_364_136_223_846_793_005)
        .wrapping_add(1_442_695_040_888_963_407);
    *state >> 33
}

fn path(pick: u64) -> &'static str {
    match pick % 12 {
        0 => "/a",
        1 => "/b",
        2 => "/a/x",
        3 => "/a/y",
        4 => "/a/x/z",
        5 => "/b/x",
        6 => "/b/y",
        7 => "/b/y/w",
        8 => "/c",
        9 => "//a//x",
        10 => "/b/",
        _ => "/",
    }
}

fn mode(pick: u64) -> &'static str {
    match pick % 6 {
        0 => "r",
        1 => "w creat trunc",
        2 => "rw creat excl",
        3 => "rw append",
        _ => "rw creat",
    }
}

// A request with a path, an operand and a descriptor that are picked.
fn request(alloc: Global, state: &mut u64) -> Result<String, AllocError> {
    let kind = next(state) % 20;
    let here = path(next(state));
    let there = path(next(state));
    let fd = 3 + next(state) % 5;
    let size = 1 + next(state) % 40;
    match kind {
        0 | 1 => format!(in alloc; "mkdir {here}\n"),
        2 => format!(in alloc; "rmdir {here}\n"),
        3 => format!(in alloc; "unlink {here}\n"),
        4 | 5 => format!(in alloc; "rename {here} {there}\n"),
        6 => format!(in alloc; "stat {here}\n"),
        7 => format!(in alloc; "list {here}\n"),
        8 => format!(in alloc; "close {fd}\n"),
        9 | 10 => format!(in alloc; "write {fd} {size}*61\n"),
        11 => format!(in alloc; "read {fd} {size}\n"),
        12 => format!(in alloc; "pread {fd} 99 {size}\n"),
        13 => format!(in alloc; "pwrite {fd} 6263 {size}\n"),
        14 => format!(in alloc; "seek {fd} end -{size}\n"),
        15 => format!(in alloc; "trunc {fd} {size}\n"),
        16 => format!(in alloc; "fsync {fd}\nsync\n"),
        _ => {
            let how = mode(next(state));
            format!(in alloc; "open {here} {how}\n")
        }
    }
}

fn mixed(alloc: Global, seed: u64) -> Result<String, AllocError> {
    let mut state = seed;
    let mut text = String::new(alloc);
    for client in 0..3u32 {
        text.push_str(format!(in alloc; "client {client}\n")?.as_str())?;
        for _request in 0..REQUESTS {
            text.push_str(request(alloc, &mut state)?.as_str())?;
        }
    }
    text.push_str("end\n")?;
    Ok(text)
}

fn script(alloc: Global, text: &str) -> Result<Script, Fail> {
    let mut source = PlainSource::new(text.as_bytes().to_vec(alloc)?);
    Ok(read_script(alloc, &mut source).ok().ok_or("no script")?)
}

// A disk with a new image of 1,024 blocks.
fn formatted(alloc: Global) -> Result<PlainDisk, Fail> {
    let mut disk = PlainDisk::zeros(alloc, 8_192)?;
    let geometry = Geometry::make(1_024, 128, 256).ok().ok_or("no geometry")?;
    format(&mut disk, &geometry).ok().ok_or("not formatted")?;
    Ok(disk)
}

// Plays the same requests over an image and by the plain tree, and compares each reply. Answers how many of them are
// no refusal.
fn compare<R: Abort + AllocGlobal>(rt: &R, text: &str) -> Result<u32, Fail> {
    let alloc = rt.alloc();
    let history = serve(alloc, script(alloc, text)?.clients)?;
    let played = play(alloc, script(alloc, text)?, 0, formatted(alloc)?);
    assert!(rt; played.ended == Ok(()));
    let mut plain = history.as_slice().iter();
    let mut done = 0u32;
    for list in played.told.as_slice() {
        for entry in list.as_slice() {
            let other = plain.next().ok_or("an entry too many")?;
            let ours = reply_line(alloc, entry.client, entry.seq, &entry.reply)?;
            let theirs = reply_line(alloc, other.client, other.seq, &other.reply)?;
            assert_eq!(rt; ours.as_slice(), theirs.as_slice());
            assert_eq!(rt; entry.ticket, other.ticket);
            if !matches!(entry.reply, Reply::Refused(_)) {
                done = done.saturating_add(1);
            }
        }
    }
    assert!(rt; plain.next().is_none());
    Ok(done)
}

#[test]
fn mixed_requests_have_the_replies_of_the_plain_tree(rt: HostRuntime) -> Result<(), Fail> {
    for seed in [1, 7, 42] {
        let text = mixed(rt.alloc(), seed)?;
        let done = compare(&rt, text.as_str())?;
        assert!(rt; done > 100, "{done} requests of seed {seed} were served");
    }
    Ok(())
}

// Scripts of few requests: how many of these are no refusal, and how large all files are together behind them.
const ROWS: [(&str, u32, u128); 8] = [
    ("end\n", 0, 0),
    ("client 0\nend\n", 0, 0),
    ("client 0\nclient 1\nstat /\nend\n", 1, 0),
    (
        "client 0\nopen /x r\nread 9 1\nseek 3 set 0\nrmdir /\nend\n",
        0,
        0,
    ),
    (
        "client 0\nopen /b rw creat\nwrite 3 6162\nfsync 3\nread 3 9\nclient 1\nopen /b r\nread 3 9\nsync\nend\n",
        7,
        2,
    ),
    (
        "client 0\nopen /f rw creat\nopen /g w creat\nwrite 3 10*61\npwrite 4 62 99\nend\n",
        4,
        110,
    ),
    // a file without a name is there as long as a descriptor stands for it
    (
        "client 0\nmkdir /b\nopen /b/x rw creat\nwrite 3 5000*61\ntrunc 3 4097\nrename /b/x /a\nsync\nunlink /a\nend\n",
        7,
        4_097,
    ),
    (
        "client 0\nmkdir /b\nopen /b/x rw creat\nwrite 3 5000*61\ntrunc 3 4097\nrename /b/x /a\nsync\nunlink /a\nclose 3\nend\n",
        8,
        0,
    ),
];

// How large all files are together behind a session.
fn played_bytes(alloc: Global, text: &str) -> Result<u128, Fail> {
    let played = play(alloc, script(alloc, text)?, 0, formatted(alloc)?);
    Ok(played.bytes)
}

#[test]
fn rows_have_the_replies_and_the_sizes_of_the_plain_tree(rt: HostRuntime) -> Result<(), Fail> {
    for (text, done, bytes) in ROWS {
        assert_eq!(rt; compare(&rt, text)?, done);
        assert_eq!(rt; played_bytes(rt.alloc(), text)?, bytes);
    }
    Ok(())
}

#[test]
fn transcripts_merge_by_their_tickets(rt: HostRuntime) -> Result<(), Fail> {
    let alloc = rt.alloc();
    let text = "client 0\nmkdir /a\nclose 3\nmkdir /b\nclient 1\nlist /\nclient 2\nend\n";
    let played = play(alloc, script(alloc, text)?, 0, formatted(alloc)?);
    assert!(rt; played.ended == Ok(()));
    assert_eq!(rt; played.told.as_slice().len(), 3);
    let history = played.told.merged(alloc)?;
    for (place, entry) in history.as_slice().iter().enumerate() {
        assert_eq!(rt; entry.ticket, place as u64);
        // That no descriptor 3 is open the client tells by itself.
        let by = if place == 1 {
            Actor::Client(0)
        } else {
            Actor::Primary
        };
        assert!(rt; entry.by == by);
    }
    Ok(())
}
