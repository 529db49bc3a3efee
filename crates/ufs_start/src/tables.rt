// The table of an image's directories.
ghost use Rattle.std.specs.Prelude.{◌≡◌, ◌≤◌, ◌+◌, length, IfOk, IfErr, OnOk};
ghost use Rattle.ufs_base.specs.Images.{Image};
ghost use Rattle.ufs_image.specs.Catalog.{catalog_at};
ghost use Rattle.ufs_layout.specs.Areas.{IsGeometry};
ghost use Rattle.ufs_dir_tree.specs.DirTable.{IsReached};
ghost use Rattle.ufs_start.specs.Refused.{HasNoneCutOff, IsNamesFault};
ghost use Rattle.ufs_start.specs.Starts.{AreDirsOf, IsOfSome, IsUndamaged};
ghost use Rattle.ufs_start.specs.Tables.{AreFrom, AreReadIn, AreSoundDirs, IsAsRead, IsSoundDir};

use crate::dirs::dir_of;
use crate::fault::StartFault;
use crate::free::free_inodes;
use crate::reached::unreached;
use std::alloc::Global;
use ufs_base::Memory;
use ufs_damage::{Findings, ReadDir};
use ufs_dir_laws::dir_table_law;
use ufs_dir_tree::DirTree;
use ufs_dirs::DirBlocks;
use ufs_image::damage_law;
use ufs_layout::{Geometry, Inode};
use ufs_walk::reached_inodes;

// The directory that was read of an inode with this form.
fn read_of(alloc: Global, form: &Option<Inode>, read: &ReadDir) -> Result<DirBlocks, Memory>
    requires { IsSoundDir form.now read.now.slots }
    ensures { IfOk result (IsAsRead form.now read.now.slots) }
{
    let Some(form) = form else { unreachable!() };
    dir_of(alloc, form, read.slots())
}

// Puts an inode's directory behind those of the lower inodes: the one that was read next, where it is this inode's,
// else one without blocks. The answer is the place of the one that is read next then.
fn put_next(
    alloc: Global,
    table: &mut Vec<DirBlocks>,
    findings: &Findings,
    inode: u32,
    next: usize,
) -> Result<usize, Memory>
    requires from_one { 1 ≤ inode }
    requires within { inode ≤ length findings.now.forms }
    requires behind { inode ≡ length table.old.items }
    requires sound { AreSoundDirs findings.now.forms findings.now.dirs }
    requires from { AreFrom findings.now.dirs next inode }
    requires so_far { AreReadIn findings.now.forms findings.now.dirs next table.old.items }
    ensures counted { OnOk result (length table.new.items ≡ length table.old.items + 1) }
    ensures so_far { IfOk result (λ n. AreReadIn findings.now.forms findings.now.dirs n table.new.items) }
    ensures from { IfOk result (λ n. AreFrom findings.now.dirs n (inode + 1)) }
{
    let read = findings.dirs();
    if next >= read.len() || read[next].inode() != inode {
        table.push(DirBlocks::new(alloc))?;
        return Ok(next);
    }
    let forms = findings.forms();
    let dir = read_of(alloc, &forms[inode as usize - 1], &read[next])?;
    table.push(dir)?;
    Ok(next + 1)
}

// The directories that were read, by inode from 0.
fn all_dirs(
    alloc: Global,
    geometry: &Geometry,
    findings: &Findings,
) -> Result<Vec<DirBlocks>, Memory>
    requires geometry { IsGeometry geometry.now }
    requires counted { length findings.now.forms ≡ geometry.now.inodes }
    requires sound { AreSoundDirs findings.now.forms findings.now.dirs }
    ensures counted { IfOk result (λ t. length t.items ≡ geometry.now.inodes + 1) }
    ensures read { IfOk result (λ t. AreReadIn findings.now.forms findings.now.dirs (length findings.now.dirs) t.items) }
{
    let mut table = Vec::new(alloc);
    table.push(DirBlocks::new(alloc))?;
    let mut next = 0;
    for inode in 1..geometry.inodes + 1 {
        next = put_next(alloc, &mut table, findings, inode, next)?;
    }
    Ok(table)
}

/// The directories of an image that stands for a tree, by what was read of it. Refuses one that has a name and that no
/// walk meets. The time goes by inodes, slots and paths, and at each name by the blocks and names of its directory.
pub(crate) fn dirs_of(
    alloc: Global,
    geometry: &Geometry,
    findings: &Findings,
) -> Result<DirTree, StartFault>
    requires geometry { IsGeometry geometry.now }
    requires loaded { IsOfSome geometry.now findings.now }
    ensures counted { IfOk result (λ t. length t.dirs ≡ geometry.now.inodes + 1) }
    ensures dirs { IfOk result (AreDirsOf geometry.now findings.now) }
    ensures reached { IfOk result IsReached }
    ensures whole { OnOk result ((image : Image) → IsUndamaged geometry.now image findings.now → HasNoneCutOff geometry.now (catalog_at geometry.now image)) }
    ensures fault { IfErr result (IsNamesFault geometry.now findings.now) }
{
    damage_law(geometry);
    dir_table_law(geometry);
    let free = free_inodes(alloc, geometry, findings.forms())?;
    let dirs = all_dirs(alloc, geometry, findings)?;
    let marks = reached_inodes(alloc, findings, geometry)?;
    if let Some(inode) = unreached(dirs.as_slice(), marks.as_slice()) {
        return Err(StartFault::Unreached { inode });
    }
    Ok(DirTree::from_parts(alloc, dirs, free))
}
