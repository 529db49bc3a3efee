// Which way a request is served.
ghost use Rattle.std.specs.Prelude.{◌≡◌, None, false, true};
ghost use Rattle.ufs_model.specs.Asks as asks;
ghost use Rattle.ufs_model.specs.FileCalls as calls;
ghost use Rattle.ufs_model.specs.declared.data.Ask.{Ask};
ghost use Rattle.ufs_msg.specs.There as there;
ghost use Rattle.ufs_at_primary.specs.Kinds.{IsKind};

use ufs_joint::Naming;
use ufs_model::{Ask, Desc, Op, Whence};
use ufs_msg::Request;

/// Which way a request is served.
#[derive(Clone, Copy, PartialEq, Eq, Debug)]
pub(crate) enum Kind {
    /// A `sync`, with every live file.
    All,
    /// One on a descriptor of this file, and whether it goes by a hint.
    OnFile { file: u32, hinted: bool },
    /// An `fsync` on no file.
    OnNone,
    /// One of the names, with the file that it touches, if it does one.
    Names,
}

fn is_by_hint(op: &Op) -> bool
    ensures { result ≡ there.is_by_hint op.now }
{
    match op {
        Op::Read { .. }
        | Op::Write { .. }
        | Op::Pread { .. }
        | Op::Pwrite { .. }
        | Op::Seek {
            whence: Whence::End,
            ..
        }
        | Op::Trunc { .. }
        | Op::Fsync { .. } => true,
        _ => false,
    }
}

// Whether it is on a descriptor of a file, where that stands for one.
fn is_on_file(op: &Op) -> bool
    ensures { result ≡ calls.is_on_file op.now }
{
    match op {
        Op::Read { .. }
        | Op::Write { .. }
        | Op::Pread { .. }
        | Op::Pwrite { .. }
        | Op::Seek { .. }
        | Op::Trunc { .. }
        | Op::Fsync { .. } => true,
        _ => false,
    }
}

/// The file that a descriptor stands for, if it stands for one.
pub(crate) fn file_in(desc: Option<Desc>) -> Option<u32>
    ensures { result ≡ asks.file_in desc }
{
    match desc {
        Some(desc) => desc.file,
        None => None,
    }
}

// A request that is on no descriptor of a file.
fn kind_beside(op: &Op) -> Kind
    requires { calls.is_on_file op.now ≡ false }
    ensures { (ask : Ask) → ask.op ≡ op.now → IsKind ask result }
{
    match op {
        Op::Sync => Kind::All,
        _ => Kind::Names,
    }
}

// A request on a descriptor that stands for no file.
fn kind_on_none(op: &Op) -> Kind
    requires { calls.is_on_file op.now ≡ true }
    ensures { (ask : Ask) → ask.op ≡ op.now → asks.file_in ask.desc ≡ None → IsKind ask result }
{
    match op {
        Op::Fsync { .. } => Kind::OnNone,
        _ => Kind::Names,
    }
}

fn kind_of(ask: &Ask) -> Kind
    ensures { IsKind ask.now result }
{
    if !is_on_file(&ask.op) {
        return kind_beside(&ask.op);
    }
    match file_in(ask.desc) {
        Some(file) => Kind::OnFile {
            file,
            hinted: is_by_hint(&ask.op),
        },
        None => kind_on_none(&ask.op),
    }
}

/// The request, and which way it is served.
pub(crate) fn kind_asked<N: Naming>(request: Request<N>) -> (Request<N>, Kind)
    ensures same { result.0 ≡ request }
    ensures kind { IsKind request.ask result.1 }
{
    let (hand, ask, leases_back) = request.into_parts();
    let kind = kind_of(&ask);
    (Request::new(hand, ask, leases_back), kind)
}
