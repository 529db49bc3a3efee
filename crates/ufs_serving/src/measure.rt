// How many blocks a request needs for its file.
ghost use Rattle.std.specs.Prelude.{◌≡◌, ◌+◌, ◌≤◌, None, length};
ghost use Rattle.ufs_extent.specs.Runs.{blocks_of};
ghost use Rattle.ufs_file.specs.Content.{Content, block_count};
ghost use Rattle.ufs_file.specs.Hand.{FileState, content_after, missing};
ghost use Rattle.ufs_file.specs.Table.{max_held};
ghost use Rattle.ufs_model.specs.FileBytes.{max_size, size_after};
ghost use Rattle.ufs_model.specs.FileCalls.{file_refusal};

use ufs_base::BLOCK;
use ufs_calls::{MAX_SIZE, place_of};
use ufs_held::HeldFile;
use ufs_joint::Naming;
use ufs_model::{Desc, Op};

// The size of a file of this size once so many bytes are written there, where that isn't past the greatest size; else the same.
fn size_written(size: u64, at: u64, count: usize) -> u64
    requires small { size ≤ max_held }
    ensures is { count ≡ 0 → result ≡ size }
    ensures end { at + count ≤ max_size → result ≡ size_after size at count }
    ensures small { result ≤ max_held }
{
    let count = count as u64;
    if count == 0 || at > MAX_SIZE || count > MAX_SIZE - at {
        return size;
    }
    size.max(at + count)
}

// The size of a file of this size behind a request that isn't refused.
fn size_behind(size: u64, op: &Op, desc: Desc) -> u64
    requires small { size ≤ max_held }
    ensures is { (c : Content) → length c.bytes ≡ size → file_refusal c.bytes desc op.now ≡ None → length (content_after c desc op.now).bytes ≡ result }
    ensures small { result ≤ max_held }
{
    match op {
        Op::Write { bytes, .. } => {
            size_written(size, place_of(desc, size), bytes.as_slice().len())
        }
        Op::Pwrite { bytes, at, .. } => size_written(size, *at, bytes.as_slice().len()),
        Op::Trunc { size: cut, .. } if *cut <= MAX_SIZE => *cut,
        _ => size,
    }
}

// By how many blocks the request would lengthen a file of this size.
fn blocks_wanted(size: u64, op: &Op, desc: Desc) -> u32
    requires small { size ≤ max_held }
    ensures { (f : FileState) → length f.content.bytes ≡ size → length (blocks_of f.extents) ≡ block_count size → file_refusal f.content.bytes desc op.now ≡ None → missing f desc op.now ≡ result }
{
    let had = size.div_ceil(BLOCK as u64) as u32;
    let needed = size_behind(size, op, desc).div_ceil(BLOCK as u64) as u32;
    needed.saturating_sub(had)
}

/// The file, and by how many blocks the request would lengthen it.
pub fn measured<N: Naming>(held: HeldFile<N>, op: &Op, desc: Desc) -> (HeldFile<N>, u32)
    ensures same { result.0 ≡ held }
    ensures wanted { (f : FileState) → length f.content.bytes ≡ length held.value.file.content.bytes → f.extents ≡ held.value.file.extents → file_refusal f.content.bytes desc op.now ≡ None → missing f desc op.now ≡ result.1 }
{
    let (hand, commits, right) = held.into_parts();
    let wanted = blocks_wanted(hand.size(), op, desc);
    (HeldFile::new(hand, commits, right), wanted)
}
