// The lines of what is damaged in an image.
ghost use Rattle.std.specs.Prelude.{◌≡◌, ◌≤◌, ◌++◌, List, ℕ, map, length, OnOk, OnErr};
ghost use Rattle.std.specs.Io.KnownBytes.{Appends};
ghost use Rattle.ufs_base.specs.Faults.{HasCause};
ghost use Rattle.ufs_damage.specs.Meaning.{meaning};
ghost use Rattle.ufs_print.specs.Pieces.{GotFront, IsPassed};
ghost use Rattle.ufs_print.specs.Lines.{IsFront};
ghost use Rattle.ufs_print.specs.DamageLines.{one_number, two_numbers, three_numbers, damage_line, damage_lines};

use crate::pieces::{Waiting, put, write_waiting};
use arrayvec::ArrayString;
use itoa::Buffer;
use ufs_damage::Damage;
use ufs_io::{Failed, Sink};

fn one_number(kind: &str, a: u32) -> ArrayString<64>
    requires { length kind.now ≤ 16 }
    ensures { result.bytes ≡ one_number kind.now a }
{
    let mut first = Buffer::new();
    let mut line = ArrayString::new();
    line.push_str("damage ");
    line.push_str(kind);
    line.push_str(" ");
    line.push_str(first.format(a));
    line.push_str("\n");
    line
}

fn two_numbers(kind: &str, a: u32, b: u32) -> ArrayString<64>
    requires { length kind.now ≤ 16 }
    ensures { result.bytes ≡ two_numbers kind.now a b }
{
    let mut first = Buffer::new();
    let mut second = Buffer::new();
    let mut line = ArrayString::new();
    line.push_str("damage ");
    line.push_str(kind);
    line.push_str(" ");
    line.push_str(first.format(a));
    line.push_str(" ");
    line.push_str(second.format(b));
    line.push_str("\n");
    line
}

fn three_numbers(kind: &str, a: u32, b: u32, c: u32) -> ArrayString<64>
    requires { length kind.now ≤ 16 }
    ensures { result.bytes ≡ three_numbers kind.now a b c }
{
    let mut first = Buffer::new();
    let mut second = Buffer::new();
    let mut third = Buffer::new();
    let mut line = ArrayString::new();
    line.push_str("damage ");
    line.push_str(kind);
    line.push_str(" ");
    line.push_str(first.format(a));
    line.push_str(" ");
    line.push_str(second.format(b));
    line.push_str(" ");
    line.push_str(third.format(c));
    line.push_str("\n");
    line
}

// The line of a damage. It takes no memory.
fn damage_line(damage: &Damage) -> ArrayString<64>
    ensures { result.bytes ≡ damage_line (meaning damage.now) }
{
    match *damage {
        Damage::BadInode { inode } => one_number("BadInode", inode),
        Damage::BadExtent { inode } => one_number("BadExtent", inode),
        Damage::SharedBlock {
            block,
            first,
            second,
        } => three_numbers("SharedBlock", block, first, second),
        Damage::ShortExtents { inode } => one_number("ShortExtents", inode),
        Damage::BadDentry { dir, slot } => two_numbers("BadDentry", dir, slot),
        Damage::FreeInode { dir, slot, inode } => three_numbers("FreeInode", dir, slot, inode),
        Damage::NameTwice { dir, slot } => two_numbers("NameTwice", dir, slot),
        Damage::TwoNames { inode } => one_number("TwoNames", inode),
        Damage::BitmapDiffers { block } => one_number("BitmapDiffers", block),
    }
}

// Puts the line of each damage behind what waits.
fn put_damage<K: Sink>(sink: &mut K, waiting: &mut Waiting, list: &[Damage]) -> Result<(), Failed>
    ensures cause { HasCause (K.faults sink.old) (K.faults sink.new) result }
    ensures ok { OnOk result (IsPassed (K.held sink.old) (K.held sink.new) waiting.new (waiting.old ++ damage_lines (map meaning list.now))) }
    ensures err { OnErr result (GotFront (K.held sink.old) (K.held sink.new) (waiting.old ++ damage_lines (map meaning list.now))) }
{
    for damage in list {
        let line = damage_line(damage);
        put(sink, waiting, line.as_bytes())?;
    }
    Ok(())
}

/// Writes the line of each damage, or a front of these lines where the sink fails. They go out in pieces of up to 65,536
/// bytes. Takes no memory.
pub fn print_damage<K: Sink>(sink: &mut K, list: &[Damage]) -> Result<(), Failed>
    ensures cause { HasCause (K.faults sink.old) (K.faults sink.new) result }
    ensures ok { OnOk result (Appends (K.held sink.old) (K.held sink.new) (damage_lines (map meaning list.now))) }
    ensures err { OnErr result ((front : List ℕ) × IsFront front (damage_lines (map meaning list.now)) × Appends (K.held sink.old) (K.held sink.new) front) }
{
    let mut waiting = Waiting::new();
    put_damage(sink, &mut waiting, list)?;
    write_waiting(sink, &waiting)?;
    Ok(())
}
