//! What lies outside a program: where its bytes come from and go to, each with a count of its
//! faults, the time, and a gate at which its actors can be held.
#![tactic(auto)]

mod clocks;
mod gates;
mod sinks;
mod sources;
mod streams;

ghost use Rattle.std.specs.Option.{option_map};
ghost use Rattle.std.specs.Prelude.{◌≡◌, ℕ, List, ◌<◌, IfOk, length};
ghost use Rattle.std.specs.Io.{ReadsAtMost, WritesAtMost};
ghost use Rattle.std.specs.Io.KnownBytes.{ReadConsumes, WriteAppends};
ghost use Rattle.std.specs.declared.option.Option.{Option};
ghost use Rattle.ufs_base.specs.Faults.{HasCause, raised};

pub use clocks::{HandClock, MilliClock};
pub use gates::OpenGate;
pub use sinks::{MemorySink, PlainSink};
pub use sources::{MemorySource, PlainSource};
pub use streams::{StreamSink, StreamSource};

/// A read or a write failed, and the count of faults has risen by one.
#[derive(Clone, Copy, Debug, PartialEq, Eq)]
pub struct Failed;

/// Where bytes come from.
pub trait Source {
    /// The bytes that are left, where the source is visible.
    ghost left: { Self → Option (List ℕ) };

    /// How often a read has failed. The count stands still at 2^64 - 1.
    ghost faults: { Self → ℕ };

    /// How many reads were made, where the source is visible. The count stands still at 2^64 - 1.
    ghost reads: { Self → Option ℕ };

    /// Reads into the front of the buffer, and answers how many bytes.
    /// 0 bytes into a buffer that isn't empty is the end.
    fn read(&mut self, buf: &mut [u8]) -> Result<usize, Failed>
        ensures bound { ReadsAtMost result buf.new }
        ensures bytes { ReadConsumes (left self.old) (left self.new) result buf.new }
        ensures read { reads self.new ≡ option_map raised (reads self.old) }
        ensures cause { HasCause (faults self.old) (faults self.new) result };
}

/// Where bytes go to.
pub trait Sink {
    /// The bytes that are held, where the sink is visible.
    ghost held: { Self → Option (List ℕ) };

    /// How often a write has failed. The count stands still at 2^64 - 1.
    ghost faults: { Self → ℕ };

    /// Takes bytes from the front of the piece, and answers how many: at least one where there is
    /// one.
    fn write(&mut self, piece: &[u8]) -> Result<usize, Failed>
        ensures bound { WritesAtMost result piece.now }
        ensures some { IfOk result (λ n. 0 < length piece.now → 0 < n) }
        ensures bytes { WriteAppends (held self.old) (held self.new) result piece.now }
        ensures cause { HasCause (faults self.old) (faults self.new) result };
}

/// Counts ticks. It can't fail. An answer below an earlier one counts as no tick.
pub trait Clock {
    fn now(&mut self) -> u64;
}

/// Is passed before each turn of an actor: the primary is 0, the workers are 1 to 8. It can't fail.
pub trait Gate {
    /// `turn` is the number of the actor's turn.
    fn pass(&self, actor: u8, turn: u64);
}
