// The texts of paths, and places in files.
ghost use Rattle.std.specs.Prelude.{◌≡◌, List, ℕ, None, IfOk, length, if◌then◌else◌};
ghost use Rattle.ufs_model.specs.Descriptors as descriptors;
ghost use Rattle.ufs_model.specs.FileBytes as file_bytes;
ghost use Rattle.ufs_base.specs.Choices.{refused_if};
ghost use Rattle.ufs_model.specs.Paths as paths;
ghost use Rattle.ufs_model.specs.declared.data.Errno.TheVariants.{Efbig};

use std::alloc::{AllocError, Global};
use ufs_base::Memory;
use ufs_model::{Bytes, Desc, Errno, Whence};
use ufs_path::{PathFault, PathText, path_fault, read_path};

/// The greatest size of a file, in bytes.
pub const MAX_SIZE: u64 = 16_777_216;

// The greatest offset.
const MAX_OFFSET: u64 = 1_099_511_627_775;

// ---- texts

/// Why a path's text is refused.
pub fn text_refusal(path: &Bytes) -> Option<Errno>
    ensures { result ≡ paths.text_refusal path.now }
{
    match path_fault(path.as_slice()) {
        Some(fault) => fault.errno(),
        None => None,
    }
}

/// The components of a path whose text isn't refused.
pub fn text(alloc: Global, path: &Bytes) -> Result<PathText, Memory>
    requires { paths.text_refusal path.now ≡ None }
    ensures { IfOk result (λ text. text ≡ paths.components path.now) }
{
    match read_path(alloc, path.as_slice()) {
        Ok(text) => Ok(text),
        Err(PathFault::Memory(memory)) => Err(memory),
        Err(_) => unreachable!(),
    }
}

// ---- offsets

/// Where a `write` begins, in a file of that size.
pub fn place_of(desc: Desc, size: u64) -> u64
    ensures { (bytes : List ℕ) → size ≡ length bytes → result ≡ file_bytes.place_of desc bytes }
{
    if desc.append { size } else { desc.at }
}

/// The offset that is so far on or back; none below 0 or past the greatest.
pub fn moved_by(at: u64, by: i64) -> Option<u64>
    ensures { result ≡ (if descriptors.is_offset (descriptors.moved_by at by) then descriptors.moved_by at by else None) }
{
    let moved = if by >= 0 {
        at.checked_add(by as u64)
    } else {
        at.checked_sub(by.unsigned_abs())
    };
    match moved {
        Some(to) if to <= MAX_OFFSET => Some(to),
        _ => None,
    }
}

/// Where a `seek` leads; `None` where it is refused.
pub fn seek_to(whence: Whence, by: i64, desc: Desc, size: u64) -> Option<u64>
    ensures { result ≡ (if descriptors.is_offset (descriptors.seek_to whence by desc size) then descriptors.seek_to whence by desc size else None) }
{
    let start = match whence {
        Whence::Set => 0,
        Whence::Cur => desc.at,
        Whence::End => size,
    };
    moved_by(start, by)
}

// ---- sizes

/// Whether bytes that are written there end past the greatest size of a file.
pub fn is_past(at: u64, fresh: &Bytes) -> bool
    ensures { result ≡ file_bytes.is_past at fresh.now }
{
    let count = fresh.as_slice().len() as u64;
    if count == 0 {
        return false;
    }
    at > MAX_SIZE || at + count > MAX_SIZE
}

/// Of a request that leaves a file with a size past the greatest.
pub fn size_refusal(is_past: bool) -> Option<Errno>
    ensures { result ≡ refused_if is_past Efbig }
{
    if is_past { Some(Errno::Efbig) } else { None }
}

// ---- parts

/// How many bytes there are from a place on, at most n.
pub fn count_from(bytes: &[u8], at: u64, n: u32) -> usize
    ensures { result ≡ length (file_bytes.part bytes.now at n) }
{
    let size = bytes.len();
    if at >= size as u64 {
        return 0;
    }
    (size - at as usize).min(n as usize)
}

/// The bytes from a place on, at most n.
pub fn part(alloc: Global, bytes: &[u8], at: u64, n: u32) -> Result<Vec<u8>, AllocError>
    ensures { IfOk result (λ part. part.items ≡ file_bytes.part bytes.now at n) }
{
    let size = bytes.len() as u64;
    if at >= size {
        return Ok(Vec::new(alloc));
    }
    let start = at as usize;
    let count = (bytes.len() - start).min(n as usize);
    bytes[start..start + count].to_vec(alloc)
}
