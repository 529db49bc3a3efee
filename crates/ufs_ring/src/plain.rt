//! The ring of one thread.
ghost use Rattle.std.specs.Prelude.{◌≡◌, ℕ, [], IfOk, List};
ghost use Rattle.circular_buffer.specs.Buffer.{buffer};
ghost use Rattle.ufs_ring.specs.Runs.{Run, IsFrontOf};

use crate::Ring;
use circular_buffer::HeapCircularBuffer;
use std::alloc::Global;
use std::marker::Model;
use ufs_base::Memory;

/// A ring that one thread has: its items from the front to the back, and how many there may be.
#[derive(Drop)]
pub struct PlainRing<T> {
    held: HeapCircularBuffer<T>,
}

impl<T> Model for PlainRing<T> {
    ghost use Rattle.circular_buffer.specs.Buffer.{Buffer, buffer_code};

    ghost Value = { Buffer T };

    ghost coded = { buffer_code T.code };

    ghost view = { λ r. r.held };
}

impl<T> PlainRing<T> {
    /// Takes the memory of all later calls.
    pub fn make(alloc: Global, capacity: usize) -> Result<PlainRing<T>, Memory>
        ensures { IfOk result (λ r. r ≡ buffer [] capacity) }
    {
        let held = HeapCircularBuffer::with_capacity(alloc, capacity)?;
        Ok(PlainRing { held })
    }

    /// Ends a ring that holds nothing, where the items need not be `Drop`.
    pub fn end(self)
        requires { self.items ≡ [] }
    {
        let PlainRing { held } = self;
        held.destroy_empty();
    }
}

// A put is refused exactly where the ring is full, and a take exactly where it is empty.
impl<T> Ring<T> for PlainRing<T> {
    ghost use Rattle.ufs_ring.specs.Buffers.{HasGained, HasLost, IsEmpty, IsFull};

    ghost gains = { HasGained };

    ghost loses = { HasLost };

    ghost was_full = { IsFull };

    ghost was_empty = { IsEmpty };

    fn put(&mut self, item: T) -> Result<(), T> {
        self.held.try_push_back(item)
    }

    fn take(&mut self) -> Option<T> {
        self.held.pop_front()
    }
}

/// Whatever puts and takes a plain ring has seen since it was made: what was taken is a front of what was put.
#[tactic(auto, using(crate::proofs::RunLemmas::run_is_front))]
pub fn taken_is_a_front_of_put<T>()
    ensures { (capacity : ℕ) (put : List T) (taken : List T) (held : List T) → Run capacity put taken held → IsFrontOf taken put }
{}
