use crate::asserts::same;
use std::alloc::AllocGlobal;
use std::process::Abort;
use ufs_words::{Command, image_of, mirror_of, read_command};

const MKFS: Command = Command::Mkfs {
    blocks: 256,
    inodes: 32,
    journal: 64,
};

const PLAY: Command = Command::Play {
    lease: None,
    trace: false,
};

const TRACED: Command = Command::Play {
    lease: None,
    trace: true,
};

const LEASED: Command = Command::Play {
    lease: Some(1_000),
    trace: true,
};

const RUN: Command = Command::Run {
    workers: 8,
    lease: Some(0),
    trace: true,
};

const BENCH: Command = Command::Bench {
    seed: 4_294_967_295,
    lease: None,
};

// Words with spaces between them, and the command that they are.
const TAKEN: [(&str, Command); 17] = [
    ("mkfs 256 32 64", MKFS),
    ("mkfs 0000000256 032 64 --image a", MKFS),
    ("mkfs --image=a 256 --mirror b 32 64", MKFS),
    ("mkfs 256 32 -- 64", MKFS),
    ("play", PLAY),
    ("play --image a", PLAY),
    ("play --image=--trace", PLAY),
    ("play --trace", TRACED),
    ("play --trace --mirror=a --image=b", TRACED),
    ("play --lease 1000 --trace", LEASED),
    ("play --trace --lease=1000", LEASED),
    ("run --lease 0 8 --trace", RUN),
    ("bench 4294967295", BENCH),
    ("recover", Command::Recover),
    ("check", Command::Check),
    ("tree --mirror a", Command::Tree),
    ("audit --image a", Command::Audit),
];

// Words that are no command.
const REFUSED: [&str; 38] = [
    "frob",
    "help",
    "--help",
    "-h",
    "--version",
    "--image a tree",
    "mkfs",
    "mkfs 256 32",
    "mkfs 256 32 64 64",
    "mkfs 256 32 4294967296",
    "mkfs 256 32 00000000064",
    "mkfs 256 32 +64",
    "mkfs 256 32 -64",
    "mkfs 256 32 6x",
    "mkfs 256 32 64 --trace",
    "mkfs 256 32 64 --lease 1",
    "mkfs --image 256 32 64",
    "play 1",
    "play --help",
    "play --trace --trace",
    "play --trace=true",
    "play --lease",
    "play --lease 1001",
    "play --lease -1",
    "play --lease=-1",
    "play --lease=",
    "play --lease 1 --lease 1",
    "play --image",
    "play --image=",
    "play --image --trace",
    "play --image a --image=b",
    "play --mirror a --mirror a",
    "run",
    "run 0",
    "run 9",
    "bench 4294967296",
    "bench 1 --trace",
    "audit 1",
];

fn words_of<R: Abort + AllocGlobal>(rt: &R, line: &str) -> Vec<String> {
    let mut words = Vec::new(rt.alloc());
    for word in line.split(' ') {
        let word = String::from_str(rt.alloc(), word).expect(rt, "memory");
        words.push(word).expect(rt, "memory");
    }
    words
}

fn command_of<R: Abort + AllocGlobal>(rt: &R, line: &str) -> Option<Command> {
    let words = words_of(rt, line);
    read_command(rt.alloc(), words.as_slice()).expect(rt, "memory")
}

#[test]
fn words_are_taken_by_their_grammar(rt: HostRuntime) {
    for (line, command) in &TAKEN {
        same(&rt, command_of(&rt, *line), Some(*command));
    }
}

#[test]
fn other_words_are_refused(rt: HostRuntime) {
    for line in &REFUSED {
        same(&rt, command_of(&rt, *line), None);
    }
    let none = Vec::new(rt.alloc());
    same(
        &rt,
        read_command(rt.alloc(), none.as_slice()).expect(&rt, "memory"),
        None,
    );
}

// Asserts which words name the image and its mirror.
fn names(rt: &impl Abort, words: &Vec<String>, image: Option<&str>, mirror: Option<&str>) {
    assert_eq!(rt; (image_of(words), mirror_of(words)), (image, mirror));
}

#[test]
fn files_are_the_words_behind_their_options(rt: HostRuntime) {
    let rows: [(&str, Option<&str>, Option<&str>); 8] = [
        ("play", None, None),
        ("--image", None, None),
        ("mkfs --image a", Some("a"), None),
        ("--image a --image=b", Some("a"), None),
        ("play --image=a=b --image c", Some("a=b"), None),
        ("play --image --image", Some("--image"), None),
        ("--mirror= --image=a --mirror b", Some("a"), Some("")),
        ("--imagea --mirror b", None, Some("b")),
    ];
    for (line, image, mirror) in &rows {
        names(&rt, &words_of(&rt, *line), *image, *mirror);
    }
}
