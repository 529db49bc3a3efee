ghost use Rattle.std.specs.Prelude.{ℕ, ◌≡◌, ◌≤◌, ◌+◌, ◌^◌, length, IfOk, IfErr};
ghost use Rattle.ufs_base.specs.Images.{Image};
ghost use Rattle.ufs_layout.specs.Areas.{IsGeometry};
ghost use Rattle.ufs_layout.specs.declared.superblock.Super.{Super};
ghost use Rattle.ufs_dir_tree.specs.DirTable.{IsReached};
ghost use Rattle.ufs_promise_laws.specs.Starts.{image_start};
ghost use Rattle.ufs_start.specs.Refused.{HasNoneCutOff, IsNamesFault};
ghost use Rattle.ufs_image.specs.Catalog.{catalog_at};
ghost use Rattle.ufs_start.specs.Starts.{AreDirsOf, AreFilesNamed, AreNumbersOf, AreStartNames, HaveNumbers, IsLoaded, IsOfSome, IsUndamaged, tree_in};

use crate::fault::StartFault;
use crate::numbers::{Numbers, numbers_of};
use crate::tables::dirs_of;
use crate::unnamed::unnamed;
use std::alloc::Global;
use ufs_base::Memory;
use ufs_damage::Findings;
use ufs_dir_tree::DirTree;
use ufs_image::damage_law;
use ufs_layout::Geometry;
use ufs_name_tree::NameTree;
use ufs_names::Names;

// The numbers of an image's files, none of whose directories is cut off, unless one has no name.
fn all_numbers(
    alloc: Global,
    geometry: &Geometry,
    findings: &Findings,
) -> Result<Numbers, StartFault>
    requires geometry { IsGeometry geometry.now }
    requires sound { (image : Image) × IsUndamaged geometry.now image findings.now }
    requires whole { (image : Image) → IsUndamaged geometry.now image findings.now → HasNoneCutOff geometry.now (catalog_at geometry.now image) }
    ensures counted { IfOk result (λ n. length n.files.items ≡ geometry.now.inodes + 1) }
    ensures numbers { IfOk result (λ n. (image : Image) → IsUndamaged geometry.now image findings.now → AreNumbersOf geometry.now image n.files.items) }
    ensures next { IfOk result (λ n. (image : Image) → IsUndamaged geometry.now image findings.now → n.next ≡ (image_start (tree_in geometry.now image)).next) }
    ensures few { IfOk result (λ n. n.next ≤ 2 ^ 30) }
    ensures named { IfOk result (λ n. (image : Image) → IsUndamaged geometry.now image findings.now → HaveNumbers geometry.now image n.files.items) }
    ensures fault { IfErr result (IsNamesFault geometry.now findings.now) }
{
    damage_law(geometry);
    let numbers = numbers_of(alloc, geometry, findings)?;
    if let Some(inode) = unnamed(findings.forms(), &numbers.files) {
        return Err(StartFault::Unnamed { inode });
    }
    Ok(numbers)
}

// The namespace of an image over its directories, with these numbers.
fn names_of(
    alloc: Global,
    geometry: &Geometry,
    findings: &Findings,
    dirs: DirTree,
    numbers: Numbers,
) -> Result<Names, Memory>
    requires geometry { IsGeometry geometry.now }
    requires loaded { IsOfSome geometry.now findings.now }
    requires counted { length dirs.dirs ≡ geometry.now.inodes + 1 }
    requires dirs { AreDirsOf geometry.now findings.now dirs }
    requires reached { IsReached dirs }
    requires files { length numbers.files.items ≡ geometry.now.inodes + 1 }
    requires numbers { (image : Image) → IsUndamaged geometry.now image findings.now → AreNumbersOf geometry.now image numbers.files.items }
    requires next { (image : Image) → IsUndamaged geometry.now image findings.now → numbers.next ≡ (image_start (tree_in geometry.now image)).next }
    requires few { numbers.next ≤ 2 ^ 30 }
    ensures reached { IfOk result (λ n. IsReached n.tree.dirs) }
    ensures few { IfOk result (λ n. n.next ≤ 2 ^ 30) }
    ensures files { IfOk result (λ n. n.tree.files ≡ numbers.files.items) }
    ensures names { IfOk result (λ n. (sectors : ℕ) (disk : Image) (superblock : Super) (image : Image) → IsLoaded geometry.now findings.now sectors disk superblock image → AreStartNames sectors disk geometry.now image n) }
{
    damage_law(geometry);
    let tree = NameTree::from_parts(dirs, numbers.files);
    Names::closed(alloc, tree, geometry.inodes, numbers.next)
}

/// The namespace of an image that stands for a tree: its files are numbered from 0 by rising path, and nothing is open.
/// The time goes by inodes, slots and paths, and at each name by the blocks and names of its directory. An image is
/// refused of which a directory has a name and isn't reached from the root, and then one of which a file has no name;
/// else it fails for want of memory, or where there are more names than numbers.
pub fn names_in(
    alloc: Global,
    geometry: &Geometry,
    findings: &Findings,
) -> Result<Names, StartFault>
    requires geometry { IsGeometry geometry.now }
    requires loaded { IsOfSome geometry.now findings.now }
    ensures reached { IfOk result (λ n. IsReached n.tree.dirs) }
    ensures names { IfOk result (λ n. (sectors : ℕ) (disk : Image) (superblock : Super) (image : Image) → IsLoaded geometry.now findings.now sectors disk superblock image → AreStartNames sectors disk geometry.now image n) }
    ensures few { IfOk result (λ n. n.next ≤ 2 ^ 30) }
    ensures named { IfOk result (λ n. (image : Image) → IsUndamaged geometry.now image findings.now → AreFilesNamed geometry.now image n.tree) }
    ensures fault { IfErr result (IsNamesFault geometry.now findings.now) }
{
    damage_law(geometry);
    let dirs = dirs_of(alloc, geometry, findings)?;
    let numbers = all_numbers(alloc, geometry, findings)?;
    let names = names_of(alloc, geometry, findings, dirs, numbers)?;
    Ok(names)
}
