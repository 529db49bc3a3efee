// The free blocks, by the marks of the used ones.
ghost use Rattle.std.specs.Prelude.{ℕ, ◌≡◌, ◌≤◌, ◌<◌, ◌&&◌, ◌==◌, not, true, false, slice_index_or, IfOk};
ghost use Rattle.std.specs.FinSet as set;
ghost use Rattle.ufs_base.specs.declared.sizes.TheConstants.{MAX_BLOCKS};
ghost use Rattle.ufs_bitmap.specs.Space.{is_between};
ghost use Rattle.ufs_layout.specs.Areas.{IsGeometry, first_of_data};

use std::alloc::Global;
use ufs_base::Memory;
use ufs_bitmap::Bitmap;
use ufs_damage::TakenBlocks;
use ufs_extent::Run;
use ufs_layout::Geometry;

// A block that is free stays so unless it is marked as used.
fn leave_out(free: &mut Bitmap, taken: &TakenBlocks, block: u32)
    requires first { free.old.first ≤ block }
    requires last { block < free.old.blocks }
    requires small { free.old.blocks ≤ MAX_BLOCKS }
    requires free { set.contains free.old.free block ≡ true }
    ensures first { free.new.first ≡ free.old.first }
    ensures blocks { free.new.blocks ≡ free.old.blocks }
    ensures left { (b : ℕ) → set.contains free.new.free b ≡ (set.contains free.old.free b && not (b == block && slice_index_or taken.now block false)) }
{
    if taken.is_taken(block) {
        free.claim(Run {
            start: block,
            length: 1,
        });
    }
}

/// The blocks of the data area that aren't marked as used.
pub(crate) fn free_blocks(
    alloc: Global,
    geometry: &Geometry,
    taken: &TakenBlocks,
) -> Result<Bitmap, Memory>
    requires { IsGeometry geometry.now }
    ensures first { IfOk result (λ m. m.first ≡ first_of_data geometry.now) }
    ensures blocks { IfOk result (λ m. m.blocks ≡ geometry.now.blocks) }
    ensures free { IfOk result (λ m. (b : ℕ) → set.contains m.free b ≡ (is_between (first_of_data geometry.now) geometry.now.blocks b && not (slice_index_or taken.now b false))) }
{
    let first = geometry.first_of_data();
    let mut free = Bitmap::all_free(alloc, first, geometry.blocks)?;
    for block in first..geometry.blocks {
        leave_out(&mut free, taken, block);
    }
    Ok(free)
}
