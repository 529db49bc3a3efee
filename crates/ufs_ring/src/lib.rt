//! Bounded rings of items: one for a single thread, and one that threads share.
#![tactic(auto)]

mod plain;
mod ruled;

ghost use Rattle.std.specs.Prelude.{◌≡◌, MatchResult, MatchOption};

pub use plain::{PlainRing, taken_is_a_front_of_put};
pub use ruled::{
    InOrder, RuledRing, SharedRing, Trail, every_order_is_a_front, shared_ring,
    what_is_taken_was_put,
};

/// A bounded ring, as one actor has it. No call takes memory.
pub trait Ring<T> {
    /// The ring is as it was, with the item behind all that it held.
    ghost gains: { Self → T → Self → Type 0 };

    /// The item stood in front, and is gone; all else is as it was.
    ghost loses: { Self → T → Self → Type 0 };

    /// Where a put may be refused.
    ghost was_full: { Self → Type 0 };

    /// Where a take may find nothing.
    ghost was_empty: { Self → Type 0 };

    /// Puts the item behind all others, or gives it back where the ring was full at a moment of the call; then nothing came and
    /// nothing went.
    fn put(&mut self, item: T) -> Result<(), T>
        ensures { MatchResult result (λ _. gains self.old item self.new) (λ x. (x ≡ item) × (self.new ≡ self.old) × was_full self.old) };

    /// Takes the front item; `None` only where the ring was empty at a moment of the call, and then nothing came and nothing went.
    fn take(&mut self) -> Option<T>
        ensures { MatchOption result ((self.new ≡ self.old) × was_empty self.old) (λ x. loses self.old x self.new) };
}
