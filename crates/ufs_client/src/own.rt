// What a client answers itself.
ghost use Rattle.std.specs.Prelude.{◌≡◌, ℕ, [], IfSome, Some, false, is_some};
ghost use Rattle.ufs_model.specs.Asks.{IsAsk};
ghost use Rattle.ufs_model.specs.FileCalls.{place_refusal, step_by};
ghost use Rattle.ufs_model.specs.History.{is_excused};
ghost use Rattle.ufs_model.specs.PosixTree.{PosixTree};
ghost use Rattle.ufs_model.specs.declared.data.Op.TheVariants as op;
ghost use Rattle.ufs_client.specs.Own as own;
ghost use Rattle.ufs_client.specs.Own.{IsOwnAnswer, is_own};

use ufs_calls::{own_refusal, seek_to};
use ufs_model::{Ask, Desc, Errno, Op, Reply, Whence};

/// A client's own reply, and what the request's descriptor stands for afterwards.
#[derive(Drop)]
pub struct OwnAnswer {
    pub reply: Reply,
    pub desc: Option<Desc>,
}

// Whether a `seek` from there needs no file's size.
fn is_known(from: Whence) -> bool
    ensures { result ≡ own.is_known from }
{
    match from {
        Whence::Set | Whence::Cur => true,
        Whence::End => false,
    }
}

// Answers a `seek` that isn't refused by its descriptor and counts from no file's end.
fn seek(whence: Whence, by: i64, desc: Desc) -> OwnAnswer
    ensures reply { (fd : ℕ) → let request = op.Seek fd whence by in result.reply ≡ (step_by [] desc request (place_refusal [] desc request)).reply }
    ensures plain { is_excused result.reply ≡ false }
    ensures desc { (fd : ℕ) → let request = op.Seek fd whence by in result.desc ≡ Some (step_by [] desc request (place_refusal [] desc request)).desc }
{
    match seek_to(whence, by, desc, 0) {
        Some(at) => OwnAnswer {
            reply: Reply::At(at),
            desc: Some(Desc { at, ..desc }),
        },
        None => OwnAnswer {
            reply: Reply::Refused(Errno::Einval),
            desc: Some(desc),
        },
    }
}

// Answers such a `seek`; `None` for any other.
fn seek_own(op: &Op, desc: Desc) -> Option<OwnAnswer>
    ensures own { is_some result ≡ own.is_own_seek op.now }
    ensures reply { IfSome result (λ answer. answer.reply ≡ (step_by [] desc op.now (place_refusal [] desc op.now)).reply) }
    ensures plain { IfSome result (λ answer. is_excused answer.reply ≡ false) }
    ensures desc { IfSome result (λ answer. answer.desc ≡ Some (step_by [] desc op.now (place_refusal [] desc op.now)).desc) }
{
    match op {
        Op::Seek { whence, by, .. } if is_known(*whence) => Some(seek(*whence, *by, desc)),
        _ => None,
    }
}

/// Answers a request that needs nothing but its client's descriptors: one that is refused by its flags, its descriptor
/// or its texts, and a `seek` from the file's start or from where the descriptor is. `None` for any other. Takes no
/// memory.
pub fn answer_own(ask: &Ask) -> Option<OwnAnswer>
    ensures own { (t : PosixTree) → IsAsk t ask.now → is_some result ≡ is_own t ask.now.client ask.now.op }
    ensures posix { IfSome result (λ answer. (t : PosixTree) → IsAsk t ask.now → IsOwnAnswer t ask.now.client ask.now.op answer.reply answer.desc) }
    ensures plain { IfSome result (λ answer. is_excused answer.reply ≡ false) }
{
    if let Some(errno) = own_refusal(&ask.op, ask.desc, ask.fd) {
        return Some(OwnAnswer {
            reply: Reply::Refused(errno),
            desc: ask.desc,
        });
    }
    // A `seek` that isn't refused has a descriptor.
    match ask.desc {
        Some(desc) => seek_own(&ask.op, desc),
        None => None,
    }
}
