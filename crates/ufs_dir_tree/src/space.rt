// Inodes and blocks that come and go.
ghost use Rattle.std.specs.Prelude.{◌≡◌, ◌<◌, ◌≤◌, ◌+◌, ◌∷◌, ◌++◌, [], All, IfSome, IfNone, false, true, length, nat_eq};
ghost use Rattle.std.specs.List.{IsDistinct};
ghost use Rattle.std.specs.FinSet as set;
ghost use Rattle.ufs_bitmap.specs.Space.{Space};
ghost use Rattle.ufs_dir_tree.specs.Space.{IsLowest, TakesLowest, extents_of};
ghost use Rattle.ufs_dir_tree.specs.DirEdits.{HasNone};

use ufs_bitmap::{Bitmap, Pool};
use ufs_extent::Run;

/// The lowest free inode, which is used from now on.
pub(crate) fn take_inode(free: &mut Bitmap) -> Option<u32>
    ensures taken { IfSome result (TakesLowest free.old.free free.new.free) }
    ensures range { IfSome result (λ i. (free.old.first ≤ i) × (i < free.old.blocks)) }
    ensures none { IfNone result (free.old.free ≡ set.empty) }
    ensures same { IfNone result (free.new.free ≡ free.old.free) }
    ensures first { free.new.first ≡ free.old.first }
    ensures last { free.new.blocks ≡ free.old.blocks }
{
    match free.take_run(1) {
        Some(run) => Some(run.start),
        None => None,
    }
}

/// The inode, which is used, is free from now on.
pub(crate) fn give_inode(free: &mut Bitmap, inode: u32)
    requires first { free.old.first ≤ inode }
    requires last { inode < free.old.blocks }
    requires small { free.old.blocks ≤ 65536 }
    requires used { set.contains free.old.free inode ≡ false }
    ensures free { free.new.free ≡ set.insert free.old.free inode }
    ensures first { free.new.first ≡ free.old.first }
    ensures last { free.new.blocks ≡ free.old.blocks }
{
    free.give(Run {
        start: inode,
        length: 1,
    });
}

/// The lowest free inode, which stays free: it is taken and given back, since a look from the first one on would pass
/// all those in use.
pub(crate) fn lowest_inode(free: &mut Bitmap) -> Option<u32>
    requires small { free.old.blocks ≤ 65536 }
    ensures some { IfSome result (IsLowest free.old.free) }
    ensures none { IfNone result (free.old.free ≡ set.empty) }
    ensures same { free.new ≡ free.old }
{
    match take_inode(free) {
        Some(inode) => {
            give_inode(free, inode);
            Some(inode)
        }
        None => None,
    }
}

/// The pool's lowest block.
pub(crate) fn take_block(pool: &mut Pool) -> Option<u32>
    ensures taken { IfSome result (TakesLowest pool.old pool.new) }
    ensures small { IfSome result (λ b. b < 65536) }
    ensures none { IfNone result (pool.old ≡ set.empty) }
    ensures same { IfNone result (pool.new ≡ pool.old) }
{
    match pool.take(1) {
        Some(run) => Some(run.start),
        None => None,
    }
}

/// The block is the pool's. Takes no memory.
pub(crate) fn give_block(pool: &mut Pool, block: u32)
    requires small { block < 65536 }
    requires absent { set.contains pool.old block ≡ false }
    ensures { pool.new ≡ set.insert pool.old block }
{
    pool.give(Run {
        start: block,
        length: 1,
    });
}

/// The blocks are the pool's. Takes no memory.
pub(crate) fn give_blocks(pool: &mut Pool, blocks: &[u32])
    requires small { All (λ b. b < 65536) blocks.now }
    requires once { IsDistinct nat_eq blocks.now }
    requires absent { HasNone pool.old blocks.now }
    ensures { pool.new ≡ set.union pool.old (set.from_list blocks.now) }
{
    for block in blocks {
        give_block(pool, *block);
    }
}

/// How many extents the blocks lie in, with one more behind them.
pub(crate) fn extents_with(blocks: &[u32], block: u32) -> usize
    requires below { All (λ b. b < 65536) blocks.now }
    requires few { length (extents_of blocks.now) ≤ 56 }
    ensures count { result ≡ length (extents_of (blocks.now ++ block ∷ [])) }
    ensures few { result ≤ 57 }
{
    let mut count = 0;
    let mut next = None;
    for other in blocks {
        if next != Some(*other) {
            count += 1;
        }
        next = Some(*other + 1);
    }
    if next != Some(block) {
        count += 1;
    }
    count
}
