ghost use Rattle.std.specs.Prelude.{◌≡◌, ◌≤◌, ◌++◌, IfOk, OnOk, length};
ghost use Rattle.ufs_model.specs.History.{joined};
ghost use Rattle.ufs_bench.specs.Summary.{count_in, is_of, number_line, summary_text};

use std::alloc::{AllocError, Global};
use ufs_base::Memory;
use ufs_model::{Entry, EntryList, Reply};

/// A kind of reply.
#[derive(Clone, Copy, Debug, PartialEq, Eq)]
pub enum Kind {
    /// Done.
    Done,
    /// A descriptor.
    Fd,
    /// How many bytes were written.
    Count,
    /// The bytes that were read.
    Data,
    /// An error, or an excuse.
    Error,
}

fn is_of(kind: Kind, reply: &Reply) -> bool
    ensures { result ≡ is_of kind reply.now }
{
    match (kind, reply) {
        (Kind::Done, Reply::Done) => true,
        (Kind::Fd, Reply::Fd(_)) => true,
        (Kind::Count, Reply::Count(_)) => true,
        (Kind::Data, Reply::Got(_)) => true,
        (Kind::Error, Reply::Refused(_) | Reply::Excused(_)) => true,
        _ => false,
    }
}

// How many of a client's replies are of a kind.
fn count_in(kind: Kind, entries: &[Entry]) -> usize
    ensures value { result ≡ count_in kind entries.now }
    ensures few { result ≤ length entries.now }
{
    let mut count = 0usize;
    for entry in entries {
        if is_of(kind, &entry.reply) {
            count += 1;
        }
    }
    count
}

// How many replies are of a kind.
fn count_of(kind: Kind, told: &[EntryList]) -> u128
    ensures { result ≡ count_in kind (joined told.now) }
{
    let mut count = 0u128;
    for list in told {
        count += count_in(kind, list.as_slice()) as u128;
    }
    count
}

// A line of the summary, behind the others.
#[tactic(auto, unfolding(crate::specs::Summary::number_line))]
fn push_line(alloc: Global, text: &mut Vec<u8>, name: &str, number: u128) -> Result<(), AllocError>
    ensures { OnOk result (text.new.items ≡ text.old.items ++ number_line name.now number) }
{
    let line = format!(in alloc; "{name} {number}\n")?;
    text.extend_from_slice(line.as_bytes())?;
    Ok(())
}

/// The lines that tell how many replies of each kind these transcripts have, and how many bytes there are.
#[tactic(auto, using(crate::proofs::JoinedLemmas::seven))]
pub fn summary(alloc: Global, told: &[EntryList], bytes: u128) -> Result<Vec<u8>, Memory>
    ensures { IfOk result (λ text. text.items ≡ summary_text (joined told.now) bytes) }
{
    let mut text = b"requests 16000\n".to_vec(alloc)?;
    push_line(alloc, &mut text, "ok", count_of(Kind::Done, told))?;
    push_line(alloc, &mut text, "fd", count_of(Kind::Fd, told))?;
    push_line(alloc, &mut text, "n", count_of(Kind::Count, told))?;
    push_line(alloc, &mut text, "data", count_of(Kind::Data, told))?;
    push_line(alloc, &mut text, "err", count_of(Kind::Error, told))?;
    push_line(alloc, &mut text, "bytes", bytes)?;
    Ok(text)
}
