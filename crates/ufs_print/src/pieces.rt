// Lines that are written together, in pieces.
ghost use Rattle.std.specs.Prelude.{◌≡◌, ◌++◌, [], false, IsTrue, OnOk, OnErr};
ghost use Rattle.ufs_base.specs.Faults.{HasCause};
ghost use Rattle.std.specs.Io.KnownBytes.{Appends};
ghost use Rattle.ufs_print.specs.Pieces.{GotFront, IsPassed};

use crate::write::{PIECE, write_all};
use std::marker::Model;
use ufs_io::{Failed, Sink};

/// Bytes that wait to be written: at most `PIECE`. It takes no memory.
#[derive(Drop)]
pub struct Waiting {
    bytes: [u8; PIECE],
    count: usize,
}

impl Model for Waiting {
    ghost use Rattle.std.specs.Prelude.{ℕ, List, ◌≤◌, take};
    ghost use Rattle.ufs_print.specs.Pieces.{piece};

    ghost Value = { List ℕ };

    ghost view = { λ w. take w.count w.bytes };

    ghost invariant = { λ w. w.count ≤ piece };
}

impl Waiting {
    pub fn new() -> Waiting
        ensures { result ≡ [] }
    {
        Waiting {
            bytes: [0; PIECE],
            count: 0,
        }
    }

    fn as_slice(&self) -> &[u8]
        ensures { result.now ≡ self.now }
    {
        &self.bytes[..self.count]
    }

    fn clear(&mut self)
        ensures { self.new ≡ [] }
    {
        self.count = 0;
    }

    // Takes the text behind what waits, where there is room for all of it.
    fn take(&mut self, text: &[u8]) -> bool
        ensures taken { IsTrue result → self.new ≡ self.old ++ text.now }
        ensures full { result ≡ false → self.new ≡ self.old }
    {
        if text.len() > PIECE - self.count {
            return false;
        }
        let end = self.count + text.len();
        self.bytes[self.count..end].copy_from_slice(text);
        self.count = end;
        true
    }
}

/// Lets a text wait behind what waits already, which is written first where there is no room for both; a text that is
/// longer than a piece is written at once. Where the sink fails it has a front of both.
pub fn put<K: Sink>(sink: &mut K, waiting: &mut Waiting, text: &[u8]) -> Result<(), Failed>
    ensures cause { HasCause (K.faults sink.old) (K.faults sink.new) result }
    ensures ok { OnOk result (IsPassed (K.held sink.old) (K.held sink.new) waiting.new (waiting.old ++ text.now)) }
    ensures err { OnErr result (GotFront (K.held sink.old) (K.held sink.new) (waiting.old ++ text.now)) }
{
    if waiting.take(text) {
        return Ok(());
    }
    write_waiting(sink, waiting)?;
    waiting.clear();
    if waiting.take(text) {
        return Ok(());
    }
    write_all(sink, text)?;
    Ok(())
}

/// Writes what waits, or a front of it where the sink fails.
pub fn write_waiting<K: Sink>(sink: &mut K, waiting: &Waiting) -> Result<(), Failed>
    ensures cause { HasCause (K.faults sink.old) (K.faults sink.new) result }
    ensures ok { OnOk result (Appends (K.held sink.old) (K.held sink.new) waiting.now) }
    ensures err { OnErr result (GotFront (K.held sink.old) (K.held sink.new) waiting.now) }
{
    write_all(sink, waiting.as_slice())
}
