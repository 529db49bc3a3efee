// The directories of a tree, over their blocks.
ghost use Rattle.std.specs.Prelude.{◌≡◌, ℕ, Some, IfOk, IfErr, length};
ghost use Rattle.std.specs.Option.{option_map};
ghost use Rattle.ufs_dirs.specs.Names.{AreNamesIn};
ghost use Rattle.ufs_dir_tree.specs.DirTable.{found_of, no_dir};
ghost use Rattle.ufs_dir_tree.specs.DirEdits.{dir_in};
ghost use Rattle.ufs_dir_tree.specs.DirCalls.{dir_refusal};
ghost use Rattle.ufs_dir_tree.specs.declared.found.Found.TheVariants as found;

use crate::found::{Found, Look};
use std::alloc::Global;
use std::marker::Model;
use ufs_base::Memory;
use ufs_bitmap::Bitmap;
use ufs_dirs::DirBlocks;
use ufs_layout::Dentry;
use ufs_model::{Bytes, Errno, NameList};
use ufs_path::PathText;

/// The kind of a dentry that names a directory.
pub(crate) const DIRECTORY: u8 = 2;

// The inode of the root.
const ROOT: u32 = 1;

/// The directories of a tree. A directory or a file may have another name without a look at what lies below it.
#[derive(Drop)]
pub struct DirTree {
    pub(crate) alloc: Global,
    /// By inode, from 0; one without blocks where the inode is no directory's.
    pub(crate) dirs: Vec<DirBlocks>,
    /// The free inodes. The root isn't among those that may be.
    pub(crate) free: Bitmap,
}

impl Model for DirTree {
    ghost use Rattle.std.specs.Prelude.{◌≡◌, ◌≤◌, length};
    ghost use Rattle.ufs_dir_tree.specs.DirTable.{DirTable, IsDirTable, table_code};

    ghost Value = { DirTable };

    ghost coded = { table_code };

    ghost view = { λ t. record { dirs = t.dirs.items; free = t.free.free } };

    ghost invariant = { λ t. IsDirTable (record { dirs = t.dirs.items; free = t.free.free }) × (t.free.first ≡ 2) × (t.free.blocks ≡ length t.dirs.items) × (length t.dirs.items ≤ 65536) };
}

impl DirTree {
    ghost use Rattle.std.specs.Prelude.{◌≢◌, ◌≤◌, ◌<◌, ◌+◌, ◌-◌, ◌↔◌, List, [], None, IsTrue};
    ghost use Rattle.std.specs.FinSet as set;
    ghost use Rattle.ufs_dirs.specs.Directory.{IsDirectory, entry_of};
    ghost use Rattle.ufs_extent.specs.Runs.{blocks_from};
    ghost use Rattle.ufs_dir_tree.specs.DirTable.{IsDirTable, dir_at, slots_at, blocks_at, found_at};
    ghost use Rattle.ufs_dir_tree.specs.DirCalls.{refusal_by, names_above, IsApart, IsBare};
    ghost use Rattle.ufs_bitmap.specs.Blocks.{BlockSet};

    /// The root alone, of so many inodes.
    pub fn new(alloc: Global, inodes: u32) -> Result<DirTree, Memory>
        requires some { 1 ≤ inodes }
        requires few { inodes < 65536 }
        ensures root { IfOk result (λ t. found_at t [] ≡ Some (found.Dir 1)) }
        ensures others { IfOk result (λ t. (names : List (List ℕ)) → names ≢ [] → found_at t names ≡ None) }
        ensures inodes { IfOk result (λ t. length t.dirs ≡ inodes + 1) }
        ensures free { IfOk result (λ t. t.free ≡ set.from_list (blocks_from 2 (inodes + 1 - 2))) }
        ensures bare { IfOk result (λ t. (i : ℕ) → dir_at t i ≡ no_dir) }
        ensures apart { IfOk result (λ t. (pool : BlockSet) → IsApart t pool) }
    {
        let free = Bitmap::all_free(alloc, ROOT + 1, inodes + 1)?;
        let dirs = bare_dirs(alloc, inodes as usize + 1)?;
        Ok(DirTree { alloc, dirs, free })
    }

    /// Of directories that were read, by inode from 0, and of the free inodes.
    pub fn from_parts(alloc: Global, dirs: Vec<DirBlocks>, free: Bitmap) -> DirTree
        requires table { IsDirTable (record { dirs = dirs.items; free = free.free }) }
        requires first { free.first ≡ 2 }
        requires last { free.blocks ≡ length dirs.items }
        requires few { length dirs.items ≤ 65536 }
        ensures { result ≡ record { dirs = dirs.items; free = free.free } }
    {
        DirTree { alloc, dirs, free }
    }

    // ---- answers

    /// The dentry of the name in the directory.
    pub fn dentry(&self, dir: u32, name: &[u8]) -> Option<Dentry>
        ensures { result ≡ entry_of (slots_at self.now dir) name.now }
    {
        match self.dirs.get(dir as usize) {
            Some(directory) => directory.find(name),
            None => None,
        }
    }

    /// What the name stands for in the directory.
    pub fn entry(&self, dir: u32, name: &[u8]) -> Option<Found>
        ensures { result ≡ option_map found_of (entry_of (slots_at self.now dir) name.now) }
    {
        let Some(directory) = self.dirs.get(dir as usize) else {
            return None;
        };
        match directory.find(name) {
            Some(entry) => Some(found_by(entry)),
            None => None,
        }
    }

    /// What stands at the end of a path, and in which directory its last name is looked for, by one look-up for each
    /// of its names. The error is that of the first name but the last that is no directory (POSIX.1-2017, 4.13).
    pub fn look(&self, path: &PathText) -> Result<Look, Errno>
        ensures refused { IfErr result (λ e. refusal_by (found_at self.now) [] path.now ≡ Some e) }
        ensures passed { IfOk result (λ l. refusal_by (found_at self.now) [] path.now ≡ None) }
        ensures found { IfOk result (λ l. l.found ≡ found_at self.now path.now) }
        ensures dir { IfOk result (λ l. path.now ≢ [] → found_at self.now (names_above path.now) ≡ Some (found.Dir l.dir)) }
        ensures table { IsDirTable self.now }
    {
        // For the prover alone.
        let _ = &self.alloc;
        let mut dir = ROOT;
        let mut at = Some(Found::Dir { inode: ROOT });
        for i in 0..path.len() {
            dir = dir_met(at)?;
            at = self.entry(dir, path.component(i));
        }
        Ok(Look { dir, found: at })
    }

    /// How many names the directory has.
    pub fn count(&self, dir: u32) -> u32
        ensures { (names : List (List ℕ)) → AreNamesIn (slots_at self.now dir) names → result ≡ length names }
    {
        match self.dirs.get(dir as usize) {
            Some(directory) => directory.count(),
            None => 0,
        }
    }

    /// Whether the directory has no name.
    pub fn is_empty(&self, dir: u32) -> bool
        ensures { IsTrue result ↔ IsBare (slots_at self.now dir) }
    {
        match self.dirs.get(dir as usize) {
            Some(directory) => directory.is_empty(),
            None => true,
        }
    }

    /// The directory's names, in rising byte order.
    pub fn names(&self, dir: u32) -> Result<NameList, Memory>
        ensures { IfOk result (λ names. AreNamesIn (slots_at self.now dir) names) }
    {
        match self.dirs.get(dir as usize) {
            Some(directory) => names_in(self.alloc, directory),
            None => Ok(NameList::from_vec(Vec::new(self.alloc))),
        }
    }

    /// The directory's blocks, in order.
    pub fn blocks(&self, dir: u32) -> &[u32]
        ensures blocks { result.now ≡ blocks_at self.now dir }
        ensures whole { IsDirectory (dir_at self.now dir) }
    {
        match self.dirs.get(dir as usize) {
            Some(directory) => directory.blocks(),
            None => &[],
        }
    }
}

// So many directories without blocks.
fn bare_dirs(alloc: Global, count: usize) -> Result<Vec<DirBlocks>, Memory>
    ensures counted { IfOk result (λ dirs. length dirs.items ≡ count) }
    ensures bare { IfOk result (λ dirs. (i : ℕ) → dir_in dirs.items i ≡ no_dir) }
{
    let mut dirs = Vec::with_capacity(alloc, count)?;
    for made in 0..count {
        // For the prover alone.
        let _ = made;
        dirs.push(DirBlocks::new(alloc))?;
    }
    Ok(dirs)
}

// What an entry names.
fn found_by(entry: Dentry) -> Found
    ensures { result ≡ found_of entry }
{
    if entry.kind == DIRECTORY {
        Found::Dir { inode: entry.inode }
    } else {
        Found::File { inode: entry.inode }
    }
}

// The directory that a walk meets.
fn dir_met(at: Option<Found>) -> Result<u32, Errno>
    ensures ok { IfOk result (λ i. at ≡ Some (found.Dir i)) }
    ensures err { IfErr result (λ e. dir_refusal at ≡ Some e) }
{
    match at {
        Some(Found::Dir { inode }) => Ok(inode),
        Some(Found::File { .. }) => Err(Errno::Enotdir),
        None => Err(Errno::Enoent),
    }
}

// The names of a directory, in rising byte order.
fn names_in(alloc: Global, blocks: &DirBlocks) -> Result<NameList, Memory>
    ensures { IfOk result (λ names. AreNamesIn blocks.now.slots names) }
{
    let mut names = Vec::new(alloc);
    for rank in 0..blocks.count() {
        let name = blocks.name_at(rank as usize).to_vec(alloc)?;
        names.push(Bytes::from_vec(name))?;
    }
    Ok(NameList::from_vec(names))
}
