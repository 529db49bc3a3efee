// A ring for each server.
ghost use Rattle.std.specs.Prelude.{◌≡◌, IfSome, MatchOption, MatchResult, length};
ghost use Rattle.ufs_msg.specs.Servers.{AreSame, HappensFor, IsSoFor};
ghost use Rattle.ufs_msg.specs.There.{IsServerAmong, MayServe};

use crate::rows::{put_at, take_at};
use crate::{Hinted, Request};
use ufs_joint::Naming;
use ufs_model::Actor;
use ufs_ring::Ring;

/// The primary's ring, and that of each worker, from 1 on.
#[derive(Drop)]
pub struct PerServer<P, W> {
    pub primary: P,
    pub workers: Vec<W>,
}

/// Puts a request into the ring of the server.
pub(crate) fn ask_server<N: Naming, P: Ring<Request<N>>, W: Ring<Hinted<N>>>(
    rings: &mut PerServer<P, W>,
    to: Actor,
    request: Request<N>,
) -> Result<(), Request<N>>
    requires among { IsServerAmong (length rings.old.workers.items) to }
    requires may { MayServe to request.ask }
    ensures { MatchResult result (λ _. HappensFor P.gains W.gains rings.old to request rings.new) (λ x. (x ≡ request) × AreSame rings.old rings.new × IsSoFor P.was_full W.was_full rings.old to) }
{
    match to {
        Actor::Primary => rings.primary.put(request),
        Actor::Worker(worker) => {
            let place = usize::from(worker) - 1;
            match put_at(&mut rings.workers, place, Hinted::new(request)) {
                Ok(()) => Ok(()),
                Err(hinted) => Err(hinted.into_request()),
            }
        }
        Actor::Client(_) => unreachable!(),
    }
}

/// Takes the front request of the server.
pub(crate) fn take_ask_of<N: Naming, P: Ring<Request<N>>, W: Ring<Hinted<N>>>(
    rings: &mut PerServer<P, W>,
    of: Actor,
) -> Option<Request<N>>
    requires among { IsServerAmong (length rings.old.workers.items) of }
    ensures may { IfSome result (λ r. MayServe of r.ask) }
    ensures taken { MatchOption result (AreSame rings.old rings.new × IsSoFor P.was_empty W.was_empty rings.old of) (λ r. HappensFor P.loses W.loses rings.old of r rings.new) }
{
    match of {
        Actor::Primary => rings.primary.take(),
        Actor::Worker(worker) => match take_at::<Hinted<N>, W>(
            &mut rings.workers,
            usize::from(worker) - 1,
        ) {
            Some(hinted) => Some(hinted.into_request()),
            None => None,
        },
        Actor::Client(_) => unreachable!(),
    }
}

/// Puts a letter into the ring of the server.
pub(crate) fn send_server<L, P: Ring<L>, W: Ring<L>>(
    rings: &mut PerServer<P, W>,
    to: Actor,
    letter: L,
) -> Result<(), L>
    requires among { IsServerAmong (length rings.old.workers.items) to }
    ensures { MatchResult result (λ _. HappensFor P.gains W.gains rings.old to letter rings.new) (λ x. (x ≡ letter) × AreSame rings.old rings.new × IsSoFor P.was_full W.was_full rings.old to) }
{
    match to {
        Actor::Primary => rings.primary.put(letter),
        Actor::Worker(worker) => put_at(&mut rings.workers, usize::from(worker) - 1, letter),
        Actor::Client(_) => unreachable!(),
    }
}

/// Takes the front letter of the server.
pub(crate) fn take_letter_of<L, P: Ring<L>, W: Ring<L>>(
    rings: &mut PerServer<P, W>,
    of: Actor,
) -> Option<L>
    requires among { IsServerAmong (length rings.old.workers.items) of }
    ensures { MatchOption result (AreSame rings.old rings.new × IsSoFor P.was_empty W.was_empty rings.old of) (λ x. HappensFor P.loses W.loses rings.old of x rings.new) }
{
    match of {
        Actor::Primary => rings.primary.take(),
        Actor::Worker(worker) => take_at(&mut rings.workers, usize::from(worker) - 1),
        Actor::Client(_) => unreachable!(),
    }
}
