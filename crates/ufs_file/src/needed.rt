// Which blocks of a file a request needs in memory.
ghost use Rattle.std.specs.Prelude.{◌≡◌, ◌+◌, ◌/◌, ◌≤◌, ◌<◌, min, true, false};
ghost use Rattle.ufs_file.specs.Content.{block_count};
ghost use Rattle.ufs_file.specs.Hand.{IsCutBy, end_within, read_from, write_end, write_from};
ghost use Rattle.ufs_file.specs.Table.{max_held};

use std::ops::Range;
use ufs_base::BLOCK;

// Where so many bytes from a place on end, or the file.
fn end_of(size: u64, at: u64, count: u64) -> u64
    ensures { result ≡ min (at + count) size }
{
    if at >= size {
        return size;
    }
    at + count.min(size - at)
}

// How many blocks so many bytes have.
fn blocks_of(size: u64) -> u32
    requires { size ≤ max_held }
    ensures { result ≡ block_count size }
{
    size.div_ceil(BLOCK as u64) as u32
}

/// Those that a read of so many bytes needs.
pub(crate) fn read_places(size: u64, at: u64, count: u64) -> Range<u32>
    requires { size ≤ max_held }
    ensures from { result.start ≡ read_from size at }
    ensures end { result.end ≡ end_within size at count }
    ensures ordered { result.start ≤ result.end }
    ensures inside { result.end ≤ block_count size }
{
    let first = (at / BLOCK as u64).min(blocks_of(size) as u64);
    first as u32..blocks_of(end_of(size, at, count))
}

/// Those of which a write of so many bytes needs the ones that it cuts.
pub(crate) fn write_places(size: u64, at: u64, count: u64) -> Range<u32>
    requires { size ≤ max_held }
    ensures from { result.start ≡ write_from size at }
    ensures end { result.end ≡ write_end size at count }
    ensures ordered { result.start ≤ result.end }
    ensures inside { result.end ≤ block_count size }
{
    let first = (at.min(size) / BLOCK as u64) as u32;
    if count == 0 {
        return first..first;
    }
    first..blocks_of(end_of(size, at, count))
}

/// Whether of the block at this place some byte of the file stays beside so many bytes that are written from a place on.
pub(crate) fn is_cut_by(size: u64, at: u64, count: u64, place: u32) -> bool
    requires { size ≤ max_held }
    ensures yes { result ≡ true → IsCutBy size at count place }
    ensures no { result ≡ false → IsCutBy size at count place → ⊥ }
{
    let begins = BLOCK as u64 * place as u64;
    if begins < at.min(size) {
        return true;
    }
    end_of(size, at, count) < size.min(begins + BLOCK as u64)
}

/// That through which a cut goes.
pub(crate) fn cut_places(size: u64, to: u64) -> Range<u32>
    requires { size ≤ max_held }
    ensures from { result.start ≡ min to size / BLOCK }
    ensures end { result.end ≡ block_count (min to size) }
    ensures ordered { result.start ≤ result.end }
    ensures inside { result.end ≤ block_count size }
{
    let to = to.min(size);
    (to / BLOCK as u64) as u32..blocks_of(to)
}
