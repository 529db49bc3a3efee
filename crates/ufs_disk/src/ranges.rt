// Parts of one list of bytes.
ghost use Rattle.std.specs.Prelude.{◌≡◌, ◌≤◌, ◌+◌, ◌*◌, ◌++◌, length, take, drop, IfOk};
ghost use Rattle.ufs_base.specs.Images.{IsBytes};

use std::alloc::{AllocError, Global};
use ufs_base::SECTOR;

// Copies as many bytes as the buffer takes.
pub(crate) fn copy_out(all: &[u8], at: usize, buf: &mut [u8])
    requires { at + length buf.old ≤ length all.now }
    ensures { buf.new ≡ take (length buf.old) (drop at all.now) }
{
    buf.copy_from_slice(&all[at..at + buf.len()]);
}

// Puts bytes in the place of as many.
pub(crate) fn overwrite(all: &mut Vec<u8>, at: usize, bytes: &[u8])
    requires { at + length bytes.now ≤ length all.old.items }
    ensures len { length all.new.items ≡ length all.old.items }
    ensures bytes { all.new.items ≡ take at all.old.items
        ++ (bytes.now ++ drop (at + length bytes.now) all.old.items) }
{
    all[at..at + bytes.len()].copy_from_slice(bytes);
}

// A copy of all.
pub(crate) fn whole_copy(alloc: Global, all: &[u8]) -> Result<Vec<u8>, AllocError>
    ensures items { IfOk result (λ copy. copy.items ≡ all.now) }
    ensures small { IsBytes all.now }
{
    all.to_vec(alloc)
}

// A copy of so many bytes.
pub(crate) fn copy_of(
    alloc: Global,
    all: &[u8],
    at: usize,
    len: usize,
) -> Result<Vec<u8>, AllocError>
    requires { at + len ≤ length all.now }
    ensures { IfOk result (λ copy. copy.items ≡ take len (drop at all.now)) }
{
    all[at..at + len].to_vec(alloc)
}

// One sector of some bytes.
pub(crate) fn piece(bytes: &[u8], number: usize) -> [u8; SECTOR]
    requires { 512 * (number + 1) ≤ length bytes.now }
    ensures { result ≡ take 512 (drop (512 * number) bytes.now) }
{
    let mut piece = [0; SECTOR];
    piece.copy_from_slice(&bytes[SECTOR * number..SECTOR * (number + 1)]);
    piece
}
