// The request that a verb and the words behind it ask for.
ghost use Rattle.std.specs.Prelude.{◌≡◌, IfOk, IfErr, map};
ghost use Rattle.ufs_model.specs.Bounds.{IsBounded};
ghost use Rattle.ufs_script.specs.Requests.{IsCauseOf, request_of, open_of, read_of, write_of, pread_of, pwrite_of, seek_of, trunc_of, rename_of, with_flag};
ghost use Rattle.ufs_script.specs.Requests as specs;

use crate::fault::Cause;
use crate::places::{
    count_at, data_at, exactly, mode_at, number_at, path_at, signed_at, whence_at,
};
use crate::verb::Verb;
use std::alloc::Global;
use ufs_model::{Bytes, Op};

/// What `open` is told besides how a file is opened.
#[derive(Clone, Copy, Debug, PartialEq, Eq)]
pub struct Flags {
    pub creat: bool,
    pub excl: bool,
    pub trunc: bool,
    pub append: bool,
}

// No flag.
const NO_FLAGS: Flags = Flags {
    creat: false,
    excl: false,
    trunc: false,
    append: false,
};

// With one more flag, which isn't there yet.
fn with(flags: Flags, word: &[u8]) -> Option<Flags>
    ensures { result ≡ with_flag (Some flags) word.now }
{
    let (given, more) = if word == b"creat".as_slice() {
        (
            flags.creat,
            Flags {
                creat: true,
                ..flags
            },
        )
    } else if word == b"excl".as_slice() {
        (
            flags.excl,
            Flags {
                excl: true,
                ..flags
            },
        )
    } else if word == b"trunc".as_slice() {
        (
            flags.trunc,
            Flags {
                trunc: true,
                ..flags
            },
        )
    } else if word == b"append".as_slice() {
        (
            flags.append,
            Flags {
                append: true,
                ..flags
            },
        )
    } else {
        return None;
    };
    if given { None } else { Some(more) }
}

// The flags, each at most once.
fn flags_of(words: &[&[u8]]) -> Result<Flags, Cause>
    ensures { result ≡ specs.flags_of (map (λ w. w.now) words.now) }
{
    let mut flags = NO_FLAGS;
    for word in words {
        match with(flags, word) {
            Some(more) => flags = more,
            None => return Err(Cause::BadWord),
        }
    }
    Ok(flags)
}

fn one_path(alloc: Global, words: &[&[u8]]) -> Result<Bytes, Cause>
    ensures ok { IfOk result (λ path. specs.one_path (map (λ w. w.now) words.now) ≡ Ok path) }
    ensures err { IfErr result (IsCauseOf (specs.one_path (map (λ w. w.now) words.now))) }
{
    let path = path_at(alloc, words, 0)?;
    exactly(words, 1)?;
    Ok(path)
}

fn one_number(words: &[&[u8]]) -> Result<u64, Cause>
    ensures { result ≡ specs.one_number (map (λ w. w.now) words.now) }
{
    let fd = number_at(words, 0)?;
    exactly(words, 1)?;
    Ok(fd)
}

fn open_file(alloc: Global, words: &[&[u8]]) -> Result<Op, Cause>
    ensures ok { IfOk result (λ op. open_of (map (λ w. w.now) words.now) ≡ Ok op) }
    ensures err { IfErr result (IsCauseOf (open_of (map (λ w. w.now) words.now))) }
    ensures bounded { IfOk result IsBounded }
{
    let path = path_at(alloc, words, 0)?;
    let (read, write) = mode_at(words, 1)?;
    let flags = flags_of(&words[2..])?;
    Ok(Op::OpenFile {
        path,
        read,
        write,
        creat: flags.creat,
        excl: flags.excl,
        trunc: flags.trunc,
        append: flags.append,
    })
}

fn read(words: &[&[u8]]) -> Result<Op, Cause>
    ensures value { result ≡ read_of (map (λ w. w.now) words.now) }
    ensures bounded { IfOk result IsBounded }
{
    let fd = number_at(words, 0)?;
    let n = count_at(words, 1)?;
    exactly(words, 2)?;
    Ok(Op::Read { fd, n })
}

fn write(alloc: Global, words: &[&[u8]]) -> Result<Op, Cause>
    ensures ok { IfOk result (λ op. write_of (map (λ w. w.now) words.now) ≡ Ok op) }
    ensures err { IfErr result (IsCauseOf (write_of (map (λ w. w.now) words.now))) }
    ensures bounded { IfOk result IsBounded }
{
    let fd = number_at(words, 0)?;
    let bytes = data_at(alloc, words, 1)?;
    exactly(words, 2)?;
    Ok(Op::Write { fd, bytes })
}

fn pread(words: &[&[u8]]) -> Result<Op, Cause>
    ensures value { result ≡ pread_of (map (λ w. w.now) words.now) }
    ensures bounded { IfOk result IsBounded }
{
    let fd = number_at(words, 0)?;
    let n = count_at(words, 1)?;
    let at = number_at(words, 2)?;
    exactly(words, 3)?;
    Ok(Op::Pread { fd, n, at })
}

fn pwrite(alloc: Global, words: &[&[u8]]) -> Result<Op, Cause>
    ensures ok { IfOk result (λ op. pwrite_of (map (λ w. w.now) words.now) ≡ Ok op) }
    ensures err { IfErr result (IsCauseOf (pwrite_of (map (λ w. w.now) words.now))) }
    ensures bounded { IfOk result IsBounded }
{
    let fd = number_at(words, 0)?;
    let bytes = data_at(alloc, words, 1)?;
    let at = number_at(words, 2)?;
    exactly(words, 3)?;
    Ok(Op::Pwrite { fd, bytes, at })
}

fn seek(words: &[&[u8]]) -> Result<Op, Cause>
    ensures value { result ≡ seek_of (map (λ w. w.now) words.now) }
    ensures bounded { IfOk result IsBounded }
{
    let fd = number_at(words, 0)?;
    let whence = whence_at(words, 1)?;
    let by = signed_at(words, 2)?;
    exactly(words, 3)?;
    Ok(Op::Seek { fd, whence, by })
}

fn trunc(words: &[&[u8]]) -> Result<Op, Cause>
    ensures value { result ≡ trunc_of (map (λ w. w.now) words.now) }
    ensures bounded { IfOk result IsBounded }
{
    let fd = number_at(words, 0)?;
    let size = number_at(words, 1)?;
    exactly(words, 2)?;
    Ok(Op::Trunc { fd, size })
}

fn rename(alloc: Global, words: &[&[u8]]) -> Result<Op, Cause>
    ensures ok { IfOk result (λ op. rename_of (map (λ w. w.now) words.now) ≡ Ok op) }
    ensures err { IfErr result (IsCauseOf (rename_of (map (λ w. w.now) words.now))) }
    ensures bounded { IfOk result IsBounded }
{
    let from = path_at(alloc, words, 0)?;
    let to = path_at(alloc, words, 1)?;
    exactly(words, 2)?;
    Ok(Op::Rename { from, to })
}

/// The request of a verb and the words behind it.
pub fn request(alloc: Global, verb: Verb, words: &[&[u8]]) -> Result<Op, Cause>
    ensures ok { IfOk result (λ op. request_of verb (map (λ w. w.now) words.now) ≡ Ok op) }
    ensures err { IfErr result (IsCauseOf (request_of verb (map (λ w. w.now) words.now))) }
    ensures bounded { IfOk result IsBounded }
{
    match verb {
        Verb::Open => open_file(alloc, words),
        Verb::Close => Ok(Op::Close {
            fd: one_number(words)?,
        }),
        Verb::Read => read(words),
        Verb::Write => write(alloc, words),
        Verb::Pread => pread(words),
        Verb::Pwrite => pwrite(alloc, words),
        Verb::Seek => seek(words),
        Verb::Trunc => trunc(words),
        Verb::Fsync => Ok(Op::Fsync {
            fd: one_number(words)?,
        }),
        Verb::Sync => {
            exactly(words, 0)?;
            Ok(Op::Sync)
        }
        Verb::Mkdir => Ok(Op::Mkdir {
            path: one_path(alloc, words)?,
        }),
        Verb::Rmdir => Ok(Op::Rmdir {
            path: one_path(alloc, words)?,
        }),
        Verb::Unlink => Ok(Op::Unlink {
            path: one_path(alloc, words)?,
        }),
        Verb::Rename => rename(alloc, words),
        Verb::Stat => Ok(Op::Stat {
            path: one_path(alloc, words)?,
        }),
        Verb::List => Ok(Op::List {
            path: one_path(alloc, words)?,
        }),
    }
}
