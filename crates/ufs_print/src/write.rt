ghost use Rattle.std.specs.Prelude.{◌≡◌, ℕ, ◌-◌, ◌<◌, ◌≤◌, OnOk, OnErr, drop, length, take};
ghost use Rattle.std.specs.Io.KnownBytes.{Appends};
ghost use Rattle.ufs_base.specs.Faults.{HasCause};
ghost use Rattle.ufs_print.specs.Pieces.{GotFront};

use ufs_io::{Failed, Sink};

/// The most bytes that a call of a sink is given.
pub const PIECE: usize = 65_536;

// The next piece of a text from a place on.
fn next_piece(text: &[u8], at: usize) -> &[u8]
    requires { at ≤ length text.now }
    ensures some { at < length text.now → 0 < length result.now }
    ensures within { length result.now ≤ length text.now - at }
    ensures first { (n : ℕ) → n ≤ length result.now → take n result.now ≡ take n (drop at text.now) }
{
    let size = (text.len() - at).min(PIECE);
    &text[at..at + size]
}

/// Writes the text whole, or a front of it where the sink fails, in pieces of up to 65,536 bytes.
pub fn write_all<K: Sink>(sink: &mut K, text: &[u8]) -> Result<(), Failed>
    ensures cause { HasCause (K.faults sink.old) (K.faults sink.new) result }
    ensures ok { OnOk result (Appends (K.held sink.old) (K.held sink.new) text.now) }
    ensures err { OnErr result (GotFront (K.held sink.old) (K.held sink.new) text.now) }
{
    let mut at = 0usize;
    while at < text.len() {
        match sink.write(next_piece(text, at)) {
            Ok(count) => at += count,
            Err(e) => return Err(e),
        }
    }
    Ok(())
}
