ghost use Rattle.std.specs.Prelude.{◌≡◌, ◌<◌, [], None, Some, Contains, IfOk, IsErr, OnErr, OnOk, length};
ghost use Rattle.std.specs.Io.{WritesAtMost};
ghost use Rattle.std.specs.Io.KnownBytes.{WriteAppends};
ghost use Rattle.ufs_base.specs.Faults.{HasCause, raised};

use crate::{Failed, Sink};
use std::alloc::Global;
use std::marker::Model;

/// Takes every byte, keeps none, and isn't visible. It never fails.
#[derive(Drop)]
pub struct PlainSink;

impl Sink for PlainSink {
    ghost held = { λ _. None };

    ghost faults = { λ _. 0 };

    fn write(&mut self, piece: &[u8]) -> Result<usize, Failed>
        ensures bound { WritesAtMost result piece.now }
        ensures some { IfOk result (λ n. 0 < length piece.now → 0 < n) }
        ensures bytes { WriteAppends None None result piece.now }
        ensures cause { HasCause 0 0 result }

        ensures whole { result ≡ Ok (length piece.now) }
    {
        Ok(piece.len())
    }
}

/// Keeps the bytes that it gets. It fails at the calls whose numbers stand in a list, and where
/// memory for the bytes is wanting: it is starved.
#[derive(Drop)]
pub struct MemorySink {
    bytes: Vec<u8>,
    fails: Vec<u64>,
    calls: u64,
    faults: u64,
    starved: u64,
}

impl Model for MemorySink {
    ghost use Rattle.ufs_io.specs.Views.{SinkView};

    ghost Value = { SinkView };

    ghost view = { λ s. record {
      held = s.bytes.items;
      fails = s.fails.items;
      calls = s.calls;
      faults = s.faults;
      starved = s.starved;
    } };
}

impl MemorySink {
    /// `fails` has the numbers of the calls that fail, counted from 0, in any order.
    pub fn new(alloc: Global, fails: Vec<u64>) -> Self
        ensures { result ≡ record { held = []; fails = fails.items; calls = 0; faults = 0; starved = 0 } }
    {
        MemorySink {
            bytes: Vec::new(alloc),
            fails,
            calls: 0,
            faults: 0,
            starved: 0,
        }
    }

    /// The bytes that it holds.
    pub fn bytes(&self) -> &[u8]
        ensures { result.now ≡ self.now.held }
    {
        self.bytes.as_slice()
    }

    /// How many writes were tried.
    pub fn calls(&self) -> u64
        ensures { result ≡ self.now.calls }
    {
        self.calls
    }

    /// How many writes failed.
    pub fn faults(&self) -> u64
        ensures { result ≡ self.now.faults }
    {
        self.faults
    }

    /// How many of the writes that failed found no memory.
    pub fn starved(&self) -> u64
        ensures { result ≡ self.now.starved }
    {
        self.starved
    }
}

impl Sink for MemorySink {
    ghost held = { λ s. Some s.held };

    ghost faults = { λ s. s.faults };

    fn write(&mut self, piece: &[u8]) -> Result<usize, Failed>
        ensures bound { WritesAtMost result piece.now }
        ensures some { IfOk result (λ n. 0 < length piece.now → 0 < n) }
        ensures bytes { WriteAppends (Some self.old.held) (Some self.new.held) result piece.now }
        ensures cause { HasCause self.old.faults self.new.faults result }

        // It fails at the calls of its list, and at another call only for want of memory, which
        // it counts.
        ensures listed { Contains self.old.fails self.old.calls
            → IsErr result × (self.new.starved ≡ self.old.starved) }
        ensures unlisted { ¬ Contains self.old.fails self.old.calls
            → OnErr result (self.new.starved ≡ raised self.old.starved) }
        ensures fed { OnOk result (self.new.starved ≡ self.old.starved) }
        ensures whole { IfOk result (λ n. n ≡ length piece.now) }

        ensures calls { self.new.calls ≡ raised self.old.calls }
        ensures fails { self.new.fails ≡ self.old.fails }
    {
        let call = self.calls;
        self.calls = call.saturating_add(1);
        if self.fails.contains(&call) {
            self.faults = self.faults.saturating_add(1);
            return Err(Failed);
        }
        if self.bytes.extend_from_slice(piece).is_err() {
            self.faults = self.faults.saturating_add(1);
            self.starved = self.starved.saturating_add(1);
            return Err(Failed);
        }
        Ok(piece.len())
    }
}
