ghost use Rattle.std.specs.Prelude.{◌≡◌, ◌-◌, ◌≤◌, ◌++◌, ◌↔◌, Some, None, Contains, IfOk, IsErr, OnErr, drop, length, min, take};
ghost use Rattle.std.specs.Io.{ReadsAtMost};
ghost use Rattle.std.specs.Io.KnownBytes.{ReadConsumes};
ghost use Rattle.ufs_base.specs.Faults.{HasCause, raised};

use crate::{Failed, Source};
use std::marker::Model;

/// Gives the bytes of a vector, and never fails.
#[derive(Drop)]
pub struct PlainSource {
    bytes: Vec<u8>,
    at: usize,
}

// Contracts see the bytes that are left.
impl Model for PlainSource {
    ghost use Rattle.std.specs.Prelude.{ℕ, List, ◌≤◌, drop, length};

    ghost Value = { List ℕ };

    ghost view = { λ s. drop s.at s.bytes.items };

    ghost invariant = { λ s. s.at ≤ length s.bytes.items };
}

impl PlainSource {
    pub fn new(bytes: Vec<u8>) -> Self
        ensures { result ≡ bytes.items }
    {
        PlainSource { bytes, at: 0 }
    }
}

impl Source for PlainSource {
    ghost left = { λ s. Some s };

    ghost faults = { λ _. 0 };

    ghost reads = { λ _. None };

    fn read(&mut self, buf: &mut [u8]) -> Result<usize, Failed>
        ensures bound { ReadsAtMost result buf.new }
        ensures bytes { ReadConsumes (Some self.old) (Some self.new) result buf.new }
        ensures cause { HasCause 0 0 result }

        ensures whole { result ≡ Ok (min (length buf.new) (length self.old)) }
        ensures rest { IfOk result (λ n. drop n buf.new ≡ drop n buf.old) }
    {
        let next = copy_from(self.bytes.as_slice(), self.at, buf);
        let count = next - self.at;
        self.at = next;
        Ok(count)
    }
}

/// Gives the bytes of a vector, and fails at the calls whose numbers stand in a list.
#[derive(Drop)]
pub struct MemorySource {
    bytes: Vec<u8>,
    at: usize,
    fails: Vec<u64>,
    calls: u64,
    faults: u64,
}

impl Model for MemorySource {
    ghost use Rattle.std.specs.Prelude.{◌≤◌, drop, length};
    ghost use Rattle.ufs_io.specs.Views.{SourceView};

    ghost Value = { SourceView };

    ghost view = { λ s. record {
      left = drop s.at s.bytes.items;
      fails = s.fails.items;
      calls = s.calls;
      faults = s.faults;
    } };

    ghost invariant = { λ s. s.at ≤ length s.bytes.items };
}

impl MemorySource {
    /// `fails` has the numbers of the calls that fail, counted from 0, in any order.
    pub fn new(bytes: Vec<u8>, fails: Vec<u64>) -> Self
        ensures { result ≡ record { left = bytes.items; fails = fails.items; calls = 0; faults = 0 } }
    {
        MemorySource {
            bytes,
            at: 0,
            fails,
            calls: 0,
            faults: 0,
        }
    }

    /// How many reads were tried.
    pub fn calls(&self) -> u64
        ensures { result ≡ self.now.calls }
    {
        self.calls
    }

    /// How many reads failed.
    pub fn faults(&self) -> u64
        ensures { result ≡ self.now.faults }
    {
        self.faults
    }
}

impl Source for MemorySource {
    ghost left = { λ s. Some s.left };

    ghost faults = { λ s. s.faults };

    ghost reads = { λ s. Some s.calls };

    fn read(&mut self, buf: &mut [u8]) -> Result<usize, Failed>
        ensures bound { ReadsAtMost result buf.new }
        ensures bytes { ReadConsumes (Some self.old.left) (Some self.new.left) result buf.new }
        ensures cause { HasCause self.old.faults self.new.faults result }

        // It fails exactly at the calls of its list.
        ensures listed { IsErr result ↔ Contains self.old.fails self.old.calls }
        ensures whole { IfOk result (λ n. n ≡ min (length buf.new) (length self.old.left)) }
        ensures rest { IfOk result (λ n. drop n buf.new ≡ drop n buf.old) }
        ensures refused { OnErr result (buf.new ≡ buf.old) }

        ensures calls { self.new.calls ≡ raised self.old.calls }
        ensures fails { self.new.fails ≡ self.old.fails }
    {
        let call = self.calls;
        self.calls = call.saturating_add(1);
        if self.fails.contains(&call) {
            self.faults = self.faults.saturating_add(1);
            return Err(Failed);
        }
        let next = copy_from(self.bytes.as_slice(), self.at, buf);
        let count = next - self.at;
        self.at = next;
        Ok(count)
    }
}

// Copies what fits of the bytes from a place on, and answers the place behind it.
fn copy_from(bytes: &[u8], at: usize, buf: &mut [u8]) -> usize
    requires { at ≤ length bytes.now }
    ensures place { at ≤ result }
    ensures within { result ≤ length bytes.now }
    ensures count { result - at ≡ min (length buf.new) (length bytes.now - at) }
    ensures copied { drop at bytes.now ≡ take (result - at) buf.new ++ drop result bytes.now }
    ensures rest { drop (result - at) buf.new ≡ drop (result - at) buf.old }
{
    let count = buf.len().min(bytes.len() - at);
    buf[..count].copy_from_slice(&bytes[at..at + count]);
    at + count
}
