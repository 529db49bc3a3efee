//! The ring that threads share: an end of it for each actor.
ghost use Rattle.std.specs.Prelude.{◌≡◌, ◌<◌, Bool, List, IfOk};
ghost use Rattle.ufs_ring.specs.Orders.{HavePut, HaveTaken, Keeps, items_of};
ghost use Rattle.ufs_ring.specs.Ends.{new_end, room_of};
ghost use Rattle.ufs_ring.specs.Runs.{IsFrontOf};

use crate::Ring;
use crossbeam_queue::protocol::{Lesson, Outcome, Protocol};
use crossbeam_queue::{Pass, RuledArrayQueue};
use std::alloc::Global;
use std::collections::LinkedList;
use std::marker::Model;
use std::sync::Wait;
use ufs_base::Memory;

/// What an end of a ring has put and taken, each in order. No value of it is made.
pub struct Trail<T> {
    pub put: LinkedList<T>,
    pub taken: LinkedList<T>,
}

/// The rule of a shared ring: what was taken is a front of what was put.
pub struct InOrder;

impl<T> Protocol<T, Trail<T>> for InOrder {
    ghost use Rattle.std.specs.Prelude.{[]};
    ghost use Rattle.ufs_ring.specs.Orders.{trail, Keeps};

    ghost holds = { Keeps };

    ghost first = { trail [] [] };
}

struct Puts;

impl<T> Outcome<T, Trail<T>> for Puts {
    ghost use Rattle.std.specs.Prelude.{◌≡◌, [], ◌∷◌, ◌++◌};
    ghost use Rattle.ufs_ring.specs.Orders.{trail};

    ghost then = { λ v x w. w ≡ trail (v.put ++ x ∷ []) v.taken };
}

impl<T> Lesson<T, Trail<T>> for Puts {
    ghost use Rattle.ufs_ring.specs.Orders.{Seen};

    ghost fact = { Seen };
}

struct Takes;

impl<T> Outcome<T, Trail<T>> for Takes {
    ghost use Rattle.std.specs.Prelude.{◌≡◌, [], ◌∷◌, ◌++◌};
    ghost use Rattle.ufs_ring.specs.Orders.{trail};

    ghost then = { λ v x w. w ≡ trail v.put (v.taken ++ x ∷ []) };
}

impl<T> Lesson<T, Trail<T>> for Takes {
    ghost use Rattle.ufs_ring.specs.Orders.{Seen};

    ghost fact = { Seen };
}

/// The queue that the ends share.
pub type SharedRing<T> = RuledArrayQueue<T, Trail<T>, InOrder>;

/// A ring that holds nothing, and has no end yet. It takes the memory of all later calls.
#[tactic(auto, using(crate::proofs::RuleLemmas::begins))]
pub fn shared_ring<T>(alloc: Global, capacity: usize) -> Result<SharedRing<T>, Memory>
    requires { 0 < capacity }
    ensures { IfOk result (λ r. room_of r ≡ capacity) }
{
    let (queue, _) = SharedRing::ruled(alloc, capacity)?;
    Ok(queue)
}

/// One end of a shared ring, seen as which ring it is of, and what it has put and taken. What was taken by all ends is a front of
/// what was put by all of them; a refusal tells that the ring was full, or empty, at a moment of the call.
#[derive(Drop)]
pub struct RuledRing<'a, T, R: Wait> {
    rt: &'a R,
    queue: &'a SharedRing<T>,
    pass: Pass<T, Trail<T>>,
}

impl<'a, T, R: Wait> Model for RuledRing<'a, T, R> {
    ghost use Rattle.crossbeam_queue.specs.Passes.{IsPassOf};
    ghost use Rattle.ufs_ring.specs.Ends.{End, end_code, end_of};

    ghost Value = { End T };

    ghost coded = { end_code T.code };

    ghost view = { λ r. end_of r.queue.now r.pass };

    ghost invariant = { λ r. IsPassOf r.queue.now r.pass };
}

impl<'a, T, R: Wait> RuledRing<'a, T, R> {
    /// An end of this ring that has put and taken nothing.
    #[tactic(auto, using(crate::proofs::RuleLemmas::admits))]
    pub fn new(rt: &'a R, queue: &'a SharedRing<T>) -> RuledRing<'a, T, R>
        ensures { result ≡ new_end queue.now }
    {
        let pass = queue.pass();
        RuledRing { rt, queue, pass }
    }
}

impl<'a, T, R: Wait> Ring<T> for RuledRing<'a, T, R> {
    ghost use Rattle.ufs_ring.specs.Ends.{HasPut, HasTaken, WasEmpty, WasFull};

    ghost gains = { HasPut };

    ghost loses = { HasTaken };

    ghost was_full = { WasFull };

    ghost was_empty = { WasEmpty };

    fn put(&mut self, item: T) -> Result<(), T> {
        self.queue.push_as::<Puts, R>(self.rt, &mut self.pass, item)
    }

    #[tactic(auto, using(crate::proofs::RuleLemmas::takes, crate::proofs::RuleLemmas::sees))]
    fn take(&mut self) -> Option<T> {
        self.queue.pop_as::<Takes, R>(self.rt, &mut self.pass)
    }
}

/// Under the rule of a shared ring, what all ends have taken is a front of what all ends have put.
#[tactic(auto, using(crate::proofs::RuleLemmas::order_is_front))]
pub fn every_order_is_a_front<T>()
    ensures { (items : List T) (ends : List (Trail T)) (k : Keeps items ends) → IsFrontOf (items_of k.taken) (items_of k.put) }
{}

/// Nor does an end take what no end put: where each item that some end has put passes a test, so does each that some end has taken.
pub fn what_is_taken_was_put<T>()
    ensures { (test : T → Bool) (items : List T) (ends : List (Trail T)) → Keeps items ends → HavePut test ends → HaveTaken test ends }
{}
