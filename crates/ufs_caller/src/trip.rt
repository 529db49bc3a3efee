// A request under way.
ghost use Rattle.std.specs.Prelude.{◌≡◌, [], true, false};
ghost use Rattle.ufs_model.specs.Asks.{file_in};
ghost use Rattle.ufs_msg.specs.There as there;
ghost use Rattle.ufs_caller.specs.Callers.{file_answered, file_by_hint, server_of_file, used_for};
ghost use Rattle.ufs_caller.specs.Lists.{IsListed};

use crate::Via;
use std::alloc::Global;
use ufs_hints::Hints;
use ufs_model::{Actor, Ask, Desc, Op, Whence};

/// A request under way: the server to which it went or is to go, those before, and the file of its descriptor.
#[derive(Drop)]
pub struct Trip {
    pub to: Actor,
    pub via: Via,
    pub file: Option<u32>,
    pub is_again: bool,
}

impl Trip {
    /// The request goes to the server that its file's hint names, which is then the most recently used; without a hint, and of
    /// another kind, to the primary.
    pub fn by_hint(hints: &mut Hints, ask: &Ask, alloc: Global) -> Trip
        ensures to { result.to ≡ server_of_file hints.old (file_by_hint ask.now) }
        ensures hints { hints.new ≡ used_for hints.old (file_in ask.now.desc) }
        ensures via { result.via ≡ [] }
        ensures file { result.file ≡ file_in ask.now.desc }
        ensures again { result.is_again ≡ false }
    {
        let file = file_asked(ask);
        let hinted = use_hint(hints, file);
        let to = if is_by_hint(&ask.op) {
            hinted
        } else {
            Actor::Primary
        };
        Trip {
            to,
            via: Via::new(alloc),
            file,
            is_again: false,
        }
    }

    /// The request is sent on, and the server that did it is listed.
    pub fn on(self, to: Actor) -> Trip
        ensures to { result.to ≡ to }
        ensures via { IsListed self.via self.to result.via }
        ensures file { result.file ≡ self.file }
        ensures again { result.is_again ≡ true }
    {
        let Trip {
            to: before,
            mut via,
            file,
            is_again: _,
        } = self;
        via.list(before);
        Trip {
            to,
            via,
            file,
            is_again: true,
        }
    }
}

fn use_hint(hints: &mut Hints, file: Option<u32>) -> Actor
    ensures to { result ≡ server_of_file hints.old file }
    ensures hints { hints.new ≡ used_for hints.old file }
{
    let Some(file) = file else {
        return Actor::Primary;
    };
    match hints.take_use(file) {
        Some(server) => server,
        None => Actor::Primary,
    }
}

// The file of a request's descriptor.
fn file_asked(ask: &Ask) -> Option<u32>
    ensures { result ≡ file_in ask.now.desc }
{
    match ask.desc {
        Some(desc) => desc.file,
        None => None,
    }
}

fn is_by_hint(op: &Op) -> bool
    ensures { result ≡ there.is_by_hint op.now }
{
    match op {
        Op::Read { .. }
        | Op::Write { .. }
        | Op::Pread { .. }
        | Op::Pwrite { .. }
        | Op::Seek {
            whence: Whence::End,
            ..
        }
        | Op::Trunc { .. }
        | Op::Fsync { .. } => true,
        _ => false,
    }
}

/// The file that an answer speaks of: that of the descriptor afterwards, or where there is none, of the one before.
pub fn file_told(desc: Option<Desc>, file: Option<u32>) -> Option<u32>
    ensures { result ≡ file_answered desc file }
{
    match desc {
        Some(desc) => desc.file,
        None => file,
    }
}
