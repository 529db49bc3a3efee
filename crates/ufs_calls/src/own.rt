// Why a request is refused by its flags, its descriptor and its texts, before the tree is looked at.
ghost use Rattle.std.specs.Prelude.{◌≡◌, ◌==◌, ℕ, not, is_none};
ghost use Rattle.ufs_model.specs.Asks as asks;
ghost use Rattle.ufs_model.specs.Descriptors.{is_mode};
ghost use Rattle.ufs_model.specs.FileCalls as file_calls;
ghost use Rattle.ufs_base.specs.Choices.{first_of, refused_if};
ghost use Rattle.ufs_model.specs.Paths as paths;
ghost use Rattle.ufs_model.specs.PosixTree.{PosixTree};
ghost use Rattle.ufs_model.specs.Refusals as refusals;
ghost use Rattle.ufs_model.specs.declared.data.Errno.TheVariants.{Ebadf, Einval, Emfile};
ghost use Rattle.ufs_calls.specs.Modes.{mode_of};

use crate::mode::Mode;
use crate::places::text_refusal;
use ufs_model::{Bytes, Desc, Errno, Op};

/// The descriptor that a request names.
pub fn fd_named(op: &Op) -> Option<u64>
    ensures { result ≡ asks.fd_named op.now }
{
    match op {
        Op::Close { fd }
        | Op::Read { fd, .. }
        | Op::Write { fd, .. }
        | Op::Pread { fd, .. }
        | Op::Pwrite { fd, .. }
        | Op::Seek { fd, .. }
        | Op::Trunc { fd, .. }
        | Op::Fsync { fd } => Some(*fd),
        _ => None,
    }
}

fn close_refusal(desc: Option<Desc>) -> Option<Errno>
    ensures { result ≡ refused_if (is_none desc) Ebadf }
{
    match desc {
        Some(_) => None,
        None => Some(Errno::Ebadf),
    }
}

fn read_refusal(desc: Option<Desc>) -> Option<Errno>
    ensures { result ≡ refusals.read_refusal desc }
{
    let Some(desc) = desc else {
        return Some(Errno::Ebadf);
    };
    if !desc.read {
        return Some(Errno::Ebadf);
    }
    if desc.file.is_none() {
        return Some(Errno::Eisdir);
    }
    None
}

fn write_refusal(desc: Option<Desc>) -> Option<Errno>
    ensures { result ≡ refusals.write_refusal desc }
{
    let Some(desc) = desc else {
        return Some(Errno::Ebadf);
    };
    if !desc.write || desc.file.is_none() {
        return Some(Errno::Ebadf);
    }
    None
}

fn seek_refusal(desc: Option<Desc>) -> Option<Errno>
    ensures { result ≡ refusals.seek_refusal desc }
{
    let Some(desc) = desc else {
        return Some(Errno::Ebadf);
    };
    if desc.file.is_none() {
        return Some(Errno::Einval);
    }
    None
}

fn trunc_refusal(desc: Option<Desc>) -> Option<Errno>
    ensures { result ≡ refusals.trunc_refusal desc }
{
    let Some(desc) = desc else {
        return Some(Errno::Ebadf);
    };
    if !desc.write || desc.file.is_none() {
        return Some(Errno::Einval);
    }
    None
}

// Of an `open`, by its flags, the client's free descriptor and the path's text.
fn open_refusal(mode: Mode, fd: u32, path: &Bytes) -> Option<Errno>
    ensures { result ≡ first_of (refused_if (not (is_mode (mode_of mode))) Einval) (first_of (refused_if (fd == 0) Emfile) (paths.text_refusal path.now)) }
{
    if !mode.is_allowed() {
        return Some(Errno::Einval);
    }
    if fd == 0 {
        return Some(Errno::Emfile);
    }
    text_refusal(path)
}

/// Why a request is refused by what its descriptor stands for.
pub fn desc_refusal(op: &Op, desc: Option<Desc>) -> Option<Errno>
    ensures { result ≡ file_calls.desc_refusal desc op.now }
{
    match op {
        Op::Close { .. } | Op::Fsync { .. } => close_refusal(desc),
        Op::Read { .. } | Op::Pread { .. } => read_refusal(desc),
        Op::Write { .. } | Op::Pwrite { .. } => write_refusal(desc),
        Op::Seek { .. } => seek_refusal(desc),
        Op::Trunc { .. } => trunc_refusal(desc),
        _ => None,
    }
}

/// Why a request is refused by its flags, its descriptor and its texts. `desc` is what the descriptor that it names
/// stands for, and `fd` the client's lowest free descriptor for an `open`, or 0 where none is free; of any other
/// request 0.
pub fn own_refusal(op: &Op, desc: Option<Desc>, fd: u32) -> Option<Errno>
    ensures { (t : PosixTree) (client : ℕ) → desc ≡ asks.desc_of_fd t.fds client (asks.fd_named op.now) → fd ≡ asks.fd_asked t.fds client op.now → result ≡ refusals.own_refusal t client op.now }
{
    match op {
        Op::OpenFile { path, .. } => match Mode::of(op) {
            Some(mode) => open_refusal(mode, fd, path),
            None => unreachable!(),
        },
        Op::Close { .. }
        | Op::Fsync { .. }
        | Op::Read { .. }
        | Op::Pread { .. }
        | Op::Write { .. }
        | Op::Pwrite { .. }
        | Op::Seek { .. }
        | Op::Trunc { .. } => desc_refusal(op, desc),
        Op::Sync => None,
        Op::Mkdir { path }
        | Op::Rmdir { path }
        | Op::Unlink { path }
        | Op::Stat { path }
        | Op::List { path } => text_refusal(path),
        Op::Rename { from, to } => match text_refusal(from) {
            Some(e) => Some(e),
            None => text_refusal(to),
        },
    }
}
