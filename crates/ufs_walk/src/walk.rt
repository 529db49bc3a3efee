// A walk through the directories of an image.
ghost use Rattle.std.specs.Prelude.{◌≡◌, ◌++◌, List, None, OnOk, IfOk, IsTrue};
ghost use Rattle.std.specs.List.{enumerate_from};
ghost use Rattle.std.specs.FinMap as map;
ghost use Rattle.ufs_base.specs.Images.{Image};
ghost use Rattle.ufs_layout.specs.Areas.{IsGeometry};
ghost use Rattle.ufs_image.specs.Damage.{bad_tree};
ghost use Rattle.ufs_image.specs.Nodes.{names_of};
ghost use Rattle.ufs_model.specs.Order.{path_cmp};
ghost use Rattle.ufs_damage.specs.Findings.{AreFindingsOf};
ghost use Rattle.ufs_walk.specs.Found.{IsIndexOf};
ghost use Rattle.ufs_walk.specs.Waits.{below_in, left, names_at};
ghost use Rattle.ufs_walk.specs.Walked.{AreInodes, Place, pairs_of, places};

use crate::index::index_of;
use crate::places::{PathAt, PlaceMap};
use crate::turns::{Waiting, push_names};
use std::alloc::Global;
use std::collections::BTreeMap;
use ufs_base::Memory;
use ufs_damage::{Findings, ReadDir};
use ufs_image::damage_law;
use ufs_layout::{Dentry, Geometry};

// The slots of an inode's directory; none of what is no directory.
fn slots_at<'a>(
    dirs: &'a [ReadDir],
    index: &BTreeMap<u32, usize>,
    inode: u32,
) -> &'a [Option<Dentry>]
    requires { IsIndexOf dirs.now index.now }
    ensures { names_of (record { inode = inode; slots = enumerate_from 0 result.now }) ≡ names_at dirs.now index.now inode }
{
    match index.get(&inode).copied() {
        Some(place) => dirs[place].slots(),
        None => &[],
    }
}

// The names in an inode's directory with this path wait from now on, unless the walk goes no deeper.
fn push_below(
    alloc: Global,
    dirs: &[ReadDir],
    index: &BTreeMap<u32, usize>,
    path: &[u8],
    inode: u32,
    depth: u32,
    waiting: &mut Vec<Waiting>,
) -> Result<(), Memory>
    requires { IsIndexOf dirs.now index.now }
    ensures { OnOk result (left dirs.now index.now waiting.new.items ≡ below_in depth dirs.now index.now path.now inode ++ left dirs.now index.now waiting.old.items) }
{
    if depth == 0 {
        return Ok(());
    }
    let slots = slots_at(dirs, index, inode);
    push_names(alloc, slots, path, depth - 1, waiting)
}

// Notes what waits, each name before what stands below it. A call for each level would need as much stack as an
// image has levels.
fn note_all(
    alloc: Global,
    dirs: &[ReadDir],
    index: &BTreeMap<u32, usize>,
    mut waiting: Vec<Waiting>,
    found: &mut PlaceMap,
) -> Result<(), Memory>
    requires { IsIndexOf dirs.now index.now }
    ensures { (es : List Place) → found.old ≡ map.from_entries es → OnOk result (found.new ≡ map.from_entries (es ++ left dirs.now index.now waiting.items)) }
{
    while let Some(next) = waiting.pop() {
        let path = next.path.as_slice();
        found.note(alloc, path, next.inode)?;
        push_below(
            alloc,
            dirs,
            index,
            path,
            next.inode,
            next.depth,
            &mut waiting,
        )?;
    }
    Ok(())
}

/// The whole paths of an undamaged image, by their bytes, each with the inode that stands there. Takes time
/// that is linear in the names, with a logarithm.
pub fn places_of(
    alloc: Global,
    findings: &Findings,
    geometry: &Geometry,
) -> Result<Vec<PathAt>, Memory>
    requires { IsGeometry geometry.now }
    ensures rising { IfOk result (λ at. IsTrue (map.is_sorted path_cmp (pairs_of at.items))) }
    ensures inodes { (image : Image) → AreFindingsOf geometry.now image findings.now → bad_tree geometry.now image ≡ None
        → IfOk result (λ at. AreInodes geometry.now (pairs_of at.items)) }
    ensures places { (image : Image) → AreFindingsOf geometry.now image findings.now → bad_tree geometry.now image ≡ None
        → IfOk result (λ at. map.from_entries {R = path_cmp} (pairs_of at.items) ≡ map.from_entries (places geometry.now image)) }
{
    damage_law(geometry);
    let dirs = findings.dirs();
    let index = index_of(alloc, dirs)?;
    let mut found = PlaceMap::new(alloc);
    found.note(alloc, b"/", 1)?;
    let mut waiting = Vec::new(alloc);
    push_below(alloc, dirs, &index, b"", 1, geometry.inodes, &mut waiting)?;
    note_all(alloc, dirs, &index, waiting, &mut found)?;
    found.into_places(alloc)
}
