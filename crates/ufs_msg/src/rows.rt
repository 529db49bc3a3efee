// Rings by their places, and messages that come back.
ghost use Rattle.std.specs.Prelude.{◌≡◌, ◌<◌, IfOk, MatchOption, MatchResult, None, Some, [], length, replicate};
ghost use Rattle.circular_buffer.specs.Buffer.{buffer};
ghost use Rattle.ufs_msg.specs.Rows.{HappensAt, IsSoAt};

use std::alloc::Global;
use ufs_base::Memory;
use ufs_ring::{PlainRing, Ring};

/// The requests that a server's ring has room for.
pub(crate) const REQUESTS: usize = 16;

/// The letters that a server's ring of moves has room for.
pub(crate) const LETTERS: usize = 64;

/// The answers that a client's ring has room for.
pub(crate) const ANSWERS: usize = 1;

/// So many rings that hold nothing.
pub(crate) fn plain_rings<T: Drop>(
    alloc: Global,
    count: u8,
    room: usize,
) -> Result<Vec<PlainRing<T>>, Memory>
    ensures { IfOk result (λ rings. rings.items ≡ replicate count (buffer [] room)) }
{
    let mut rings = Vec::new(alloc);
    for _place in 0..count {
        rings.push(PlainRing::make(alloc, room)?)?;
    }
    Ok(rings)
}

/// Puts the item into the ring at the place.
pub(crate) fn put_at<T, G: Ring<T>>(rings: &mut Vec<G>, place: usize, item: T) -> Result<(), T>
    requires { place < length rings.old.items }
    ensures { MatchResult result (λ _. HappensAt G.gains rings.old.items place item rings.new.items) (λ x. (x ≡ item) × (rings.new.items ≡ rings.old.items) × IsSoAt G.was_full rings.old.items place) }
{
    rings[place].put(item)
}

/// Takes the front item of the ring at the place.
pub(crate) fn take_at<T, G: Ring<T>>(rings: &mut Vec<G>, place: usize) -> Option<T>
    requires { place < length rings.old.items }
    ensures { MatchOption result ((rings.new.items ≡ rings.old.items) × IsSoAt G.was_empty rings.old.items place) (λ x. HappensAt G.loses rings.old.items place x rings.new.items) }
{
    rings[place].take()
}

/// A message that came back stands in its place again.
pub(crate) fn restore<T: Drop>(place: &mut Option<T>, sent: Result<(), T>)
    requires { place.old ≡ None }
    ensures { MatchResult sent (λ _. place.new ≡ None) (λ x. place.new ≡ Some x) }
{
    if let Err(back) = sent {
        *place = Some(back);
    }
}
