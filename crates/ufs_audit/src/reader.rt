// The reading of a source line by line.
ghost use Rattle.std.specs.Prelude.{◌≡◌, ◌≢◌, ◌≤◌, ◌<◌, ◌+◌, ◌∷◌, ◌++◌, [], ℕ, List, Ok, Err, None, IfOk, OnOk, IfErr, length, true, false};
ghost use Rattle.std.specs.Io.KnownBytes.{Consumes, IsAtEnd};
ghost use Rattle.ufs_base.specs.Faults.{raised};
ghost use Rattle.ufs_audit.specs.Audit.{IsEnded, IsLine};
ghost use Rattle.ufs_audit.specs.Sources.{Gives};
ghost use Rattle.ufs_audit.specs.Ends.{NextLine, Moved, Refilled, Filled};
ghost use Rattle.ufs_audit.specs.declared.fault.TextFault.{TextFault};
ghost use Rattle.ufs_audit.specs.declared.fault.TextFault.TheVariants as fault;

use crate::fault::TextFault;
use std::alloc::Global;
use std::marker::Model;
use ufs_base::Memory;
use ufs_io::Source;
use ufs_lines::place_of;

const PIECE: usize = 4096;

/// What was read of a source and isn't taken yet.
#[derive(Drop)]
pub struct Ahead {
    bytes: Vec<u8>,
    at: usize,
}

impl Model for Ahead {
    ghost use Rattle.std.specs.Prelude.{ℕ, List, ◌≤◌, drop, length};

    ghost Value = { List ℕ };

    ghost view = { λ a. drop a.at a.bytes.items };

    ghost invariant = { λ a. a.at ≤ length a.bytes.items };
}

impl Ahead {
    /// Nothing. Takes no memory.
    pub fn new(alloc: Global) -> Ahead
        ensures { result ≡ [] }
    {
        Ahead {
            bytes: Vec::new(alloc),
            at: 0,
        }
    }

    fn is_empty(&self) -> bool
        ensures yes { result ≡ true → self.now ≡ [] }
        ensures no { result ≡ false → self.now ≢ [] }
    {
        let bytes = self.bytes.as_slice();
        self.at == bytes.len()
    }

    // Moves what stands through the first line end behind a line, or all; and whether there was one.
    fn move_line(&mut self, line: &mut Vec<u8>) -> Result<bool, Memory>
        ensures { IfOk result (Moved self.old self.new line.old.items line.new.items) }
    {
        let bytes = &self.bytes.as_slice()[self.at..];
        match place_of(bytes, b'\n') {
            Some(end) => {
                line.extend_from_slice(&bytes[..end + 1])?;
                self.at += end + 1;
                Ok(true)
            }
            None => {
                line.extend_from_slice(bytes)?;
                self.at = self.bytes.len();
                Ok(false)
            }
        }
    }

    // Reads a piece, where nothing is left; and whether there was one.
    fn refill<S: Source>(&mut self, alloc: Global, source: &mut S) -> Result<bool, TextFault>
        requires none { self.old ≡ [] }
        ensures cause { result ≡ Err fault.Source → S.faults source.new ≡ raised (S.faults source.old) }
        ensures counted { result ≢ Err fault.Source → S.faults source.new ≡ S.faults source.old }
        ensures never { result ≢ Err fault.TooLong }
        ensures piece { IfOk result (Refilled (S.left source.old) (S.left source.new) self.new) }
    {
        let mut piece = [0u8; PIECE];
        let count = match source.read(&mut piece) {
            Ok(count) => count,
            Err(_) => return Err(TextFault::Source),
        };
        self.bytes = piece[..count].to_vec(alloc)?;
        self.at = 0;
        Ok(count > 0)
    }
}

impl Ahead {
    // Reads a piece where nothing is left; and whether there is something then.
    fn fill<S: Source>(&mut self, alloc: Global, source: &mut S) -> Result<bool, TextFault>
        ensures cause { result ≡ Err fault.Source → S.faults source.new ≡ raised (S.faults source.old) }
        ensures counted { result ≢ Err fault.Source → S.faults source.new ≡ S.faults source.old }
        ensures never { result ≢ Err fault.TooLong }
        ensures filled { IfOk result (Filled (S.left source.old) (S.left source.new) self.old self.new) }
    {
        if !self.is_empty() {
            return Ok(true);
        }
        self.refill(alloc, source)
    }
}

/// The next line with its end. Without one, at the end of the source, or where the line passes so many bytes.
pub fn next_line<S: Source>(
    alloc: Global,
    source: &mut S,
    ahead: &mut Ahead,
    most: usize,
) -> Result<Vec<u8>, TextFault>
    ensures cause { result ≡ Err fault.Source → S.faults source.new ≡ raised (S.faults source.old) }
    ensures counted { result ≢ Err fault.Source → S.faults source.new ≡ S.faults source.old }
    ensures never { result ≢ Err fault.TooLong }
    ensures line { IfOk result (λ line. NextLine (S.left source.old) (S.left source.new) ahead.old ahead.new most line.items) }
{
    let mut line = Vec::new(alloc);
    while line.len() <= most {
        if !ahead.fill(alloc, source)? {
            return Ok(line);
        }
        if ahead.move_line(&mut line)? {
            return Ok(line);
        }
    }
    Ok(line)
}
