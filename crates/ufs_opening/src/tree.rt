ghost use Rattle.std.specs.Prelude.{◌≡◌, ◌≤◌, ℕ, Ok, length, map, IsTrue, IfOk, IfErr, OnOk};
ghost use Rattle.std.specs.FinMap.{is_sorted};
ghost use Rattle.ufs_disk.specs.Moments.{reads};
ghost use Rattle.ufs_layout.specs.Areas.{sector_count};
ghost use Rattle.ufs_image.specs.Opens.{opens};
ghost use Rattle.ufs_model.specs.Order.{path_cmp};
ghost use Rattle.ufs_metadata.specs.Faults.{HasFaultCause, IsOutside, LacksMemory};
ghost use Rattle.ufs_metadata.specs.Reading.{IsReadOnly};
ghost use Rattle.ufs_opening.specs.Told.{TellsWhy};
ghost use Rattle.ufs_opening.specs.Heads.{pairs_of, whole_entry, HasHeads};
ghost use Rattle.ufs_opening.specs.Shown.{IsOpened, image_tree};

use crate::head::{NodeHead, PathHead};
use crate::opened::Opened;
use crate::opening::open;
use crate::reading::read_heads;
use std::alloc::{AllocError, Global};
use ufs_disk::Disk;
use ufs_image::damage_law;
use ufs_metadata::RecoverFault;
use ufs_model::{PathEntry, PathNode, PathTree};
use ufs_walk::places_of;

// What stands at each path of an image that was opened.
fn heads_in<D: Disk>(
    alloc: Global,
    disk: &mut D,
    opened: &Opened,
    most: Option<usize>,
) -> Result<Vec<PathHead>, RecoverFault>
    requires large { sector_count opened.now.volume.superblock.geometry ≤ D.size disk.old }
    requires counted { length opened.now.findings.forms ≡ opened.now.volume.superblock.geometry.inodes }
    ensures heads { (sectors : ℕ) → (IsTrue D.visible → IsOpened opened.now sectors (reads (D.moments disk.old))) → IfOk result (λ hs. HasHeads D.visible sectors (reads (D.moments disk.old)) most hs.items) }
    ensures outside { IsTrue D.visible → (sectors : ℕ) → IsOpened opened.now sectors (reads (D.moments disk.old)) → IfErr result IsOutside }
    ensures rising { IfOk result (λ hs. IsTrue (is_sorted path_cmp (pairs_of hs.items))) }
    ensures read_only { IsTrue D.visible → IsReadOnly D.keeps (D.moments disk.old) (D.moments disk.new) }
    ensures size { D.size disk.new ≡ D.size disk.old }
    ensures passed { OnOk result (D.faults disk.new ≡ D.faults disk.old) }
    ensures cause { IfErr result (HasFaultCause (D.faults disk.old) (D.faults disk.new)) }
    ensures memory { IfErr result LacksMemory }
{
    let geometry = &opened.volume.superblock.geometry;
    damage_law(geometry);
    let places = places_of(alloc, &opened.findings, geometry)?;
    let overlay = &opened.volume.overlay;
    let forms = opened.findings.forms();
    let heads = read_heads(alloc, disk, geometry, overlay, forms, &places, most)?;
    Ok(heads)
}

/// What stands at each path of the image on a disk, by rising bytes of the whole path, with at most so many bytes of
/// each file and all of them for none; or the first cause for which it stands for no tree. Reads no block of a file
/// behind these bytes; writes nothing.
pub fn tree_heads<D: Disk>(
    alloc: Global,
    disk: &mut D,
    most: Option<usize>,
) -> Result<Vec<PathHead>, RecoverFault>
    ensures heads { IfOk result (λ hs. HasHeads D.visible (D.size disk.old) (reads (D.moments disk.old)) most hs.items) }
    ensures rising { IfOk result (λ hs. IsTrue (is_sorted path_cmp (pairs_of hs.items))) }
    ensures refused { IsTrue D.visible → IfErr result (TellsWhy (D.size disk.old) (reads (D.moments disk.old))) }
    ensures read_only { IsTrue D.visible → IsReadOnly D.keeps (D.moments disk.old) (D.moments disk.new) }
    ensures size { D.size disk.new ≡ D.size disk.old }
    ensures passed { OnOk result (D.faults disk.new ≡ D.faults disk.old) }
    ensures cause { IfErr result (HasFaultCause (D.faults disk.old) (D.faults disk.new)) }
    ensures memory { IfErr result LacksMemory }
{
    let opened = open(alloc, disk)?;
    heads_in(alloc, disk, &opened, most)
}

fn entry_of(head: PathHead) -> PathEntry
    ensures { result ≡ whole_entry head }
{
    let PathHead { path, node } = head;
    match node {
        NodeHead::Dir => PathEntry {
            path,
            node: PathNode::Dir,
        },
        NodeHead::File { front, .. } => PathEntry {
            path,
            node: PathNode::File(front),
        },
    }
}

// The entries of whole files.
fn entries_of(alloc: Global, heads: Vec<PathHead>) -> Result<Vec<PathEntry>, AllocError>
    ensures { IfOk result (λ es. es.items ≡ map whole_entry heads.items) }
{
    let mut entries = Vec::with_capacity(alloc, heads.len())?;
    for head in heads {
        entries.push(entry_of(head))?;
    }
    Ok(entries)
}

/// The tree that the image on a disk stands for, or the first cause for which it stands for none. Reads each
/// block that the image uses at most once for each inode that has it; writes nothing.
pub fn tree_of<D: Disk>(alloc: Global, disk: &mut D) -> Result<PathTree, RecoverFault>
    ensures tree { IsTrue D.visible → IfOk result (λ t. opens (D.size disk.old) (reads (D.moments disk.old)) ≡ Ok (image_tree t)) }
    ensures refused { IsTrue D.visible → IfErr result (TellsWhy (D.size disk.old) (reads (D.moments disk.old))) }
    ensures read_only { IsTrue D.visible → IsReadOnly D.keeps (D.moments disk.old) (D.moments disk.new) }
    ensures size { D.size disk.new ≡ D.size disk.old }
    ensures passed { OnOk result (D.faults disk.new ≡ D.faults disk.old) }
    ensures cause { IfErr result (HasFaultCause (D.faults disk.old) (D.faults disk.new)) }
    ensures memory { IfErr result LacksMemory }
{
    let heads = tree_heads(alloc, disk, None)?;
    let entries = entries_of(alloc, heads)?;
    Ok(PathTree::from_vec(entries))
}
