ghost use Rattle.std.specs.Prelude.{◌≡◌, ◌≤◌, ◌^◌, IsTrue, IfOk, IfErr, OnOk};
ghost use Rattle.ufs_metadata.specs.Faults.{HasFaultCause};
ghost use Rattle.ufs_metadata.specs.Reading.{IsReadOnly};
ghost use Rattle.ufs_disk.specs.Moments.{reads};
ghost use Rattle.ufs_image_paths.specs.Opened.{IsTreeOf};
ghost use Rattle.ufs_model.specs.Start.{IsPathTree, start_of};
ghost use Rattle.ufs_opening.specs.Told.{TellsWhy};

use crate::namespace::is_path_tree;
use std::alloc::Global;
use ufs_base::Lack;
use ufs_disk::Disk;
use ufs_metadata::RecoverFault;
use ufs_model::PathTree;
use ufs_opening::tree_of;
use ufs_promise_laws::image_start_law;

const ROOT: u32 = 1;

// No sound image has more paths than inodes, which are at most 65,535.
const MOST: usize = 1 << 30;

/// The tree of paths that the image on a disk stands for, or the first cause for which it stands for none; writes nothing.
/// Paths of a disk that isn't visible which form no tree are told as damage of the root, and more of them than there are
/// numbers of files by a `Lack`.
pub fn path_tree_of<D: Disk>(alloc: Global, disk: &mut D) -> Result<PathTree, RecoverFault>
    ensures tree { IsTrue D.visible → IfOk result (IsTreeOf (D.size disk.old) (reads (D.moments disk.old))) }
    ensures paths { IfOk result (λ t. IsPathTree t) }
    ensures files { IfOk result (λ t. (start_of t).next ≤ 2 ^ 30) }
    ensures refused { IsTrue D.visible → IfErr result (TellsWhy (D.size disk.old) (reads (D.moments disk.old))) }
    ensures read_only { IsTrue D.visible → IsReadOnly D.keeps (D.moments disk.old) (D.moments disk.new) }
    ensures size { D.size disk.new ≡ D.size disk.old }
    ensures passed { OnOk result (D.faults disk.new ≡ D.faults disk.old) }
    ensures cause { IfErr result (HasFaultCause (D.faults disk.old) (D.faults disk.new)) }
{
    image_start_law(disk.sectors() as usize);
    let tree = tree_of(alloc, disk)?;
    if !is_path_tree(&tree) {
        return Err(RecoverFault::BadTree { inode: ROOT });
    }
    if tree.as_slice().len() > MOST {
        return Err(RecoverFault::Lack(Lack::AtEnd));
    }
    Ok(tree)
}
