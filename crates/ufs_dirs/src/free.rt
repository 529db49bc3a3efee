// The places of the free slots, the highest first: the lowest goes out at the end, where nothing moves.
ghost use Rattle.std.specs.Prelude.{◌≡◌, ◌+◌, ◌-◌, ◌<◌, ◌≤◌, ◌^◌, ℕ, slice_index};
ghost use Rattle.std.specs.Vec.{vec_len, vec_capacity};
ghost use Rattle.ufs_dirs.specs.Index.{AreAbove, IsFalling};

use ufs_base::SLOTS_PER_BLOCK;

/// How many of the places are above this one.
pub(crate) fn places_above(free: &[u32], place: u32) -> usize
    requires { IsFalling free.now }
    ensures { AreAbove free.now place result }
{
    free.partition_point(|p| *p > place)
}

/// The places of a block, from the first one on, come before the others. Takes no memory.
pub(crate) fn put_block(free: &mut Vec<u32>, first: u32)
    requires below { first + SLOTS_PER_BLOCK < 2 ^ 32 }
    requires room { vec_len free.old + SLOTS_PER_BLOCK ≤ vec_capacity free.old }
    ensures size { vec_len free.new ≡ vec_len free.old + SLOTS_PER_BLOCK }
    ensures block { (k : ℕ) → k < SLOTS_PER_BLOCK → slice_index free.new.items k ≡ first + (SLOTS_PER_BLOCK - 1 - k) }
    ensures others { (k : ℕ) → k < vec_len free.old → slice_index free.new.items (SLOTS_PER_BLOCK + k) ≡ slice_index free.old.items k }
    ensures capacity { vec_capacity free.old ≤ vec_capacity free.new }
{
    for k in 0..SLOTS_PER_BLOCK as u32 {
        free.push(first + (SLOTS_PER_BLOCK as u32 - 1 - k)).unwrap();
    }
    free.rotate_right(SLOTS_PER_BLOCK);
}
