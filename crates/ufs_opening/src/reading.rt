// What stands at the places of an image.
ghost use Rattle.std.specs.Prelude.{◌≡◌, ◌≤◌, ◌++◌, ◌∷◌, [], map, length, IsTrue, IfOk, IfErr, OnOk};
ghost use Rattle.ufs_base.specs.Images.{Image};
ghost use Rattle.ufs_disk.specs.Moments.{reads};
ghost use Rattle.ufs_layout.specs.Areas.{IsGeometry, sector_count};
ghost use Rattle.ufs_image.specs.Images.{form_at};
ghost use Rattle.ufs_image.specs.Catalog.{IsInode};
ghost use Rattle.ufs_image.specs.Opens.{node_bytes};
ghost use Rattle.ufs_walk.specs.Walked.{AreInodes, entry_of, pairs_of};
ghost use Rattle.ufs_metadata.specs.Faults.{HasFaultCause, IsOutside, LacksMemory};
ghost use Rattle.ufs_metadata.specs.Folded.{IsFolded};
ghost use Rattle.ufs_metadata.specs.Reading.{IsReadOnly};
ghost use Rattle.ufs_opening.specs.Heads.{heads_of, node_head, paths_of, AreHeads, IsHead};
ghost use Rattle.ufs_opening.specs.Shown.{AreReadable};

use crate::files::{read_front, wanted};
use crate::head::{NodeHead, PathHead};
use std::alloc::{AllocError, Global};
use ufs_damage::any_leaves;
use ufs_disk::Disk;
use ufs_layout::{Geometry, Inode};
use ufs_metadata::RecoverFault;
use ufs_model::Bytes;
use ufs_overlay::Overlay;
use ufs_walk::PathAt;

const DIRECTORY: u8 = 2;

// What stands at an inode.
fn read_node<D: Disk>(
    alloc: Global,
    disk: &mut D,
    geometry: &Geometry,
    overlay: &Overlay,
    forms: &[Option<Inode>],
    inode: u32,
    most: Option<usize>,
) -> Result<NodeHead, RecoverFault>
    requires geometry { IsGeometry geometry.now }
    requires large { sector_count geometry.now ≤ D.size disk.old }
    requires counted { length forms.now ≡ geometry.now.inodes }
    ensures node { IsTrue D.visible → (image : Image) → IsFolded overlay.now (reads (D.moments disk.old)) image → AreReadable geometry.now image forms.now → IsInode geometry.now inode
        → IfOk result (λ n. n ≡ node_head most (node_bytes image (form_at geometry.now image inode))) }
    ensures shape { IfOk result (IsHead most) }
    ensures outside { IsTrue D.visible → (image : Image) → IsFolded overlay.now (reads (D.moments disk.old)) image → AreReadable geometry.now image forms.now → IsInode geometry.now inode → IfErr result IsOutside }
    ensures read_only { IsTrue D.visible → IsReadOnly D.keeps (D.moments disk.old) (D.moments disk.new) }
    ensures size { D.size disk.new ≡ D.size disk.old }
    ensures passed { OnOk result (D.faults disk.new ≡ D.faults disk.old) }
    ensures cause { IfErr result (HasFaultCause (D.faults disk.old) (D.faults disk.new)) }
    ensures memory { IfErr result LacksMemory }
{
    if inode == 0 {
        return Err(RecoverFault::BadTree { inode });
    }
    if inode > geometry.inodes {
        return Err(RecoverFault::BadTree { inode });
    }
    let at = inode as usize - 1;
    let Some(form) = &forms[at] else {
        return Err(RecoverFault::BadTree { inode });
    };
    if form.kind == DIRECTORY {
        return Ok(NodeHead::Dir);
    }
    if any_leaves(geometry, form.used_extents()) {
        return Err(RecoverFault::BadTree { inode });
    }
    let enough = wanted(most, form.size as usize);
    let bytes = read_front(alloc, disk, geometry, overlay, form, enough)?;
    if bytes.len() < enough {
        return Err(RecoverFault::BadTree { inode });
    }
    Ok(NodeHead::File {
        size: form.size,
        front: Bytes::from_vec(bytes),
    })
}

// What stands at a place.
fn read_head<D: Disk>(
    alloc: Global,
    disk: &mut D,
    geometry: &Geometry,
    overlay: &Overlay,
    forms: &[Option<Inode>],
    at: &PathAt,
    most: Option<usize>,
) -> Result<PathHead, RecoverFault>
    requires geometry { IsGeometry geometry.now }
    requires large { sector_count geometry.now ≤ D.size disk.old }
    requires counted { length forms.now ≡ geometry.now.inodes }
    ensures path { IfOk result (λ h. h.path ≡ at.now.path.items) }
    ensures node { IsTrue D.visible → (image : Image) → IsFolded overlay.now (reads (D.moments disk.old)) image → AreReadable geometry.now image forms.now → IsInode geometry.now at.now.inode
        → IfOk result (λ h. h.node ≡ node_head most (node_bytes image (form_at geometry.now image at.now.inode))) }
    ensures shape { IfOk result (λ h. IsHead most h.node) }
    ensures outside { IsTrue D.visible → (image : Image) → IsFolded overlay.now (reads (D.moments disk.old)) image → AreReadable geometry.now image forms.now → IsInode geometry.now at.now.inode → IfErr result IsOutside }
    ensures read_only { IsTrue D.visible → IsReadOnly D.keeps (D.moments disk.old) (D.moments disk.new) }
    ensures size { D.size disk.new ≡ D.size disk.old }
    ensures passed { OnOk result (D.faults disk.new ≡ D.faults disk.old) }
    ensures cause { IfErr result (HasFaultCause (D.faults disk.old) (D.faults disk.new)) }
    ensures memory { IfErr result LacksMemory }
{
    let node = read_node(alloc, disk, geometry, overlay, forms, at.inode, most)?;
    let path = copied(alloc, at.path.as_slice())?;
    Ok(PathHead { path, node })
}

fn copied(alloc: Global, path: &[u8]) -> Result<Bytes, AllocError>
    ensures { IfOk result (λ copy. copy ≡ path.now) }
{
    Ok(Bytes::from_vec(Vec::from_slice(alloc, path)?))
}

fn push_head(heads: &mut Vec<PathHead>, head: PathHead) -> Result<(), AllocError>
    ensures { OnOk result (heads.new.items ≡ heads.old.items ++ head ∷ []) }
{
    heads.push(head)?;
    Ok(())
}

/// What stands at each of these places, with at most so many bytes of each file, and all of them for none.
pub(crate) fn read_heads<D: Disk>(
    alloc: Global,
    disk: &mut D,
    geometry: &Geometry,
    overlay: &Overlay,
    forms: &[Option<Inode>],
    places: &[PathAt],
    most: Option<usize>,
) -> Result<Vec<PathHead>, RecoverFault>
    requires geometry { IsGeometry geometry.now }
    requires large { sector_count geometry.now ≤ D.size disk.old }
    requires counted { length forms.now ≡ geometry.now.inodes }
    ensures paths { IfOk result (λ hs. paths_of hs.items ≡ map (λ p. p.path.items) places.now) }
    ensures heads { IsTrue D.visible → (image : Image) → IsFolded overlay.now (reads (D.moments disk.old)) image → AreReadable geometry.now image forms.now → AreInodes geometry.now (pairs_of places.now)
        → IfOk result (λ hs. hs.items ≡ heads_of most (map (entry_of geometry.now image) (pairs_of places.now))) }
    ensures shape { IfOk result (λ hs. AreHeads most hs.items) }
    ensures outside { IsTrue D.visible → (image : Image) → IsFolded overlay.now (reads (D.moments disk.old)) image → AreReadable geometry.now image forms.now → AreInodes geometry.now (pairs_of places.now) → IfErr result IsOutside }
    ensures read_only { IsTrue D.visible → IsReadOnly D.keeps (D.moments disk.old) (D.moments disk.new) }
    ensures size { D.size disk.new ≡ D.size disk.old }
    ensures passed { OnOk result (D.faults disk.new ≡ D.faults disk.old) }
    ensures cause { IfErr result (HasFaultCause (D.faults disk.old) (D.faults disk.new)) }
    ensures memory { IfErr result LacksMemory }
{
    let mut heads = Vec::with_capacity(alloc, places.len())?;
    for place in 0..places.len() {
        let head = read_head(alloc, disk, geometry, overlay, forms, &places[place], most)?;
        push_head(&mut heads, head)?;
    }
    Ok(heads)
}
