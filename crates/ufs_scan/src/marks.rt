// The inodes that records name.
ghost use Rattle.std.specs.Prelude.{◌≡◌, ◌≤◌, ◌-◌, true, false, length, slice_set, slice_index_or, IfOk};
ghost use Rattle.std.specs.List.{All};
ghost use Rattle.ufs_scan.specs.Folding as fold;

use crate::chains::Chain;
use std::alloc::{AllocError, Global};
use ufs_layout::Geometry;

fn put_mark(marks: &mut Vec<bool>, inode: u32)
    requires low { 1 ≤ inode }
    requires high { inode ≤ length marks.old.items }
    ensures put { marks.new.items ≡ slice_set marks.old.items (inode - 1) true }
    ensures sized { length marks.new.items ≡ length marks.old.items }
{
    let place = (inode - 1) as usize;
    marks[place] = true;
}

// A mark for the inode of each chain.
pub(crate) fn marked(
    alloc: Global,
    geometry: &Geometry,
    chains: &[Chain<'_>],
) -> Result<Vec<bool>, AllocError>
    requires { All (λ c. fold.IsFit geometry.now.inodes c) chains.now }
    ensures marks { IfOk result (λ marks. All (λ c. slice_index_or marks.items (c.inode - 1) false ≡ true) chains.now) }
    ensures sized { IfOk result (λ marks. length marks.items ≡ geometry.now.inodes) }
{
    let mut marks = vec![in alloc; false; geometry.inodes as usize]?;
    for chain in chains {
        put_mark(&mut marks, chain.inode);
    }
    Ok(marks)
}
