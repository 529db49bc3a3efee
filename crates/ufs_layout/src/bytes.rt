// Pieces of a form: numbers, zeros, and bytes put in their place.
ghost use Rattle.std.specs.Prelude.{◌≡◌, ◌+◌, ◌≤◌, ◌++◌, ◌&&◌, length, take, drop, replicate};
ghost use Rattle.byteorder.specs.Endian.{little_bytes};
ghost use Rattle.ufs_base.specs.Choices.{some_if};
ghost use Rattle.ufs_layout.specs.Words.{number_at, is_zeros};

use byteorder::{ByteOrder, LittleEndian};

pub fn clear(bytes: &mut [u8])
    ensures { bytes.new ≡ replicate (length bytes.old) 0 }
{
    bytes.fill(0);
}

pub fn put(bytes: &mut [u8], at: usize, piece: &[u8])
    requires { at + length piece.now ≤ length bytes.old }
    ensures { bytes.new ≡ take at bytes.old ++ piece.now ++ drop (at + length piece.now) bytes.old }
{
    bytes[at..at + piece.len()].copy_from_slice(piece);
}

pub fn put_u16(bytes: &mut [u8], at: usize, number: u16)
    requires { at + 2 ≤ length bytes.old }
    ensures { bytes.new ≡ take at bytes.old ++ little_bytes 2 number ++ drop (at + 2) bytes.old }
{
    LittleEndian::write_u16(&mut bytes[at..at + 2], number);
}

pub fn put_u32(bytes: &mut [u8], at: usize, number: u32)
    requires { at + 4 ≤ length bytes.old }
    ensures { bytes.new ≡ take at bytes.old ++ little_bytes 4 number ++ drop (at + 4) bytes.old }
{
    LittleEndian::write_u32(&mut bytes[at..at + 4], number);
}

pub fn put_u64(bytes: &mut [u8], at: usize, number: u64)
    requires { at + 8 ≤ length bytes.old }
    ensures { bytes.new ≡ take at bytes.old ++ little_bytes 8 number ++ drop (at + 8) bytes.old }
{
    LittleEndian::write_u64(&mut bytes[at..at + 8], number);
}

pub fn u16_at(bytes: &[u8], at: usize) -> u16
    requires { at + 2 ≤ length bytes.now }
    ensures { result ≡ number_at 2 at bytes.now }
{
    LittleEndian::read_u16(&bytes[at..])
}

pub fn u32_at(bytes: &[u8], at: usize) -> u32
    requires { at + 4 ≤ length bytes.now }
    ensures { result ≡ number_at 4 at bytes.now }
{
    LittleEndian::read_u32(&bytes[at..])
}

pub fn u64_at(bytes: &[u8], at: usize) -> u64
    requires { at + 8 ≤ length bytes.now }
    ensures { result ≡ number_at 8 at bytes.now }
{
    LittleEndian::read_u64(&bytes[at..])
}

pub fn has_only_zeros(bytes: &[u8]) -> bool
    ensures { result ≡ is_zeros bytes.now }
{
    bytes.iter().all(|b| *b == 0)
}

// The value where both tests hold.
pub fn found<T: Copy>(is_form: bool, is_spelled: bool, value: T) -> Option<T>
    ensures { result ≡ some_if (is_form && is_spelled) value }
{
    if is_form && is_spelled {
        Some(value)
    } else {
        None
    }
}
