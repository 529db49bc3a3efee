// Directories, and the numbers of files.
ghost use Rattle.std.specs.Prelude.{◌≡◌, ℕ, Some, None, IfOk, length, slice_index_or};

use std::alloc::Global;
use std::marker::Model;
use std::mem;
use ufs_base::{Lack, Memory};
use ufs_dir_tree::{DirTree, Found, Look};
use ufs_ilog::NameNotes;
use ufs_model::{Errno, NameList, Node};
use ufs_path::PathText;

/// The directories of a tree by their inodes, and the number of the file that each other inode in use is.
#[derive(Drop)]
pub struct NameTree {
    pub(crate) dirs: DirTree,
    /// By inode, from 0; `None` where it is no file's.
    pub(crate) files: Vec<Option<u32>>,
    /// What a disk is to be told of the changes.
    pub(crate) notes: NameNotes,
    /// For want of what the notes were lost, if they were.
    pub(crate) lost: Option<Lack>,
}

impl Model for NameTree {
    ghost use Rattle.ufs_name_tree.specs.NameTable.{NameTable, IsNameTable, name_table_code};

    ghost Value = { NameTable };

    ghost coded = { name_table_code };

    ghost view = { λ t. record { dirs = t.dirs; files = t.files.items; noted = t.notes; lost = t.lost } };

    ghost invariant = { λ t. IsNameTable (record { dirs = t.dirs; files = t.files.items; noted = t.notes; lost = t.lost }) };
}

impl NameTree {
    ghost use Rattle.std.specs.Prelude.{◌≢◌, ◌≤◌, ◌<◌, ◌+◌, ◌-◌, ◌↔◌, ℕ, List, [], IfErr, IfSome, IfNone, IsTrue};
    ghost use Rattle.std.specs.Option.{option_map};
    ghost use Rattle.std.specs.FinSet as set;
    ghost use Rattle.ufs_extent.specs.Runs.{blocks_from};
    ghost use Rattle.ufs_dirs.specs.Names.{AreNamesIn};
    ghost use Rattle.ufs_bitmap.specs.Blocks.{BlockSet};
    ghost use Rattle.ufs_dir_tree.specs.Space.{IsLowest};
    ghost use Rattle.ufs_dir_tree.specs.DirTable.{IsDirTable, dir_at, slots_at, blocks_at, no_dir, found_at};
    ghost use Rattle.ufs_dir_tree.specs.DirCalls.{names_above, IsApart, IsBare};
    ghost use Rattle.ufs_dir_tree.specs.declared.found.Found.TheVariants as found;
    ghost use Rattle.ufs_model.specs.declared.data.Node.TheVariants as node;
    ghost use Rattle.ufs_name_tree.specs.Nodes.{refusal_by};
    ghost use Rattle.ufs_name_tree.specs.NameTable.{NameTable, IsNameTable, file_at, node_of, node_at};

    /// The root alone, of so many inodes.
    pub fn new(alloc: Global, inodes: u32) -> Result<NameTree, Memory>
        requires some { 1 ≤ inodes }
        requires few { inodes < 65536 }
        ensures root { IfOk result (λ t. node_at t [] ≡ Some node.Dir) }
        ensures others { IfOk result (λ t. (names : List (List ℕ)) → names ≢ [] → node_at t names ≡ None) }
        ensures files { IfOk result (λ t. (i : ℕ) → file_at t i ≡ None) }
        ensures inodes { IfOk result (λ t. length t.dirs.dirs ≡ inodes + 1) }
        ensures free { IfOk result (λ t. t.dirs.free ≡ set.from_list (blocks_from 2 (inodes + 1 - 2))) }
        ensures bare { IfOk result (λ t. (i : ℕ) → dir_at t.dirs i ≡ no_dir) }
        ensures apart { IfOk result (λ t. (pool : BlockSet) → IsApart t.dirs pool) }
        ensures unnoted { IfOk result (λ t. t.noted ≡ None) }
        ensures unlost { IfOk result (λ t. t.lost ≡ None) }
        ensures table { IfOk result (λ t. IsNameTable t) }
    {
        let dirs = DirTree::new(alloc, inodes)?;
        let files = no_files(alloc, inodes as usize + 1)?;
        Ok(NameTree {
            dirs,
            files,
            notes: NameNotes::off(),
            lost: None,
        })
    }

    /// Of directories that were read, and of the numbers of files by inode from 0.
    pub fn from_parts(dirs: DirTree, files: Vec<Option<u32>>) -> NameTree
        requires { (t : NameTable) → t.dirs ≡ dirs → t.files ≡ files.items → IsNameTable t }
        ensures dirs { result.dirs ≡ dirs }
        ensures files { result.files ≡ files.items }
        ensures unnoted { result.noted ≡ None }
        ensures unlost { result.lost ≡ None }
    {
        NameTree {
            dirs,
            files,
            notes: NameNotes::off(),
            lost: None,
        }
    }

    // ---- notes

    /// From now on each change is noted. What was noted before is lost.
    pub fn begin_notes(&mut self, alloc: Global)
        ensures { self.new ≡ record self.old { noted = Some [] } }
    {
        self.notes = NameNotes::begin(alloc);
    }

    /// Lends the notes, for a commit. Until they are put back nothing is noted, and what is noted is lost then.
    pub fn take_notes(&mut self) -> NameNotes
        ensures notes { result ≡ self.old.noted }
        ensures rest { self.new ≡ record self.old { noted = None } }
    {
        mem::replace(&mut self.notes, NameNotes::off())
    }

    /// Puts notes in the place of those that there are.
    pub fn put_notes(&mut self, notes: NameNotes)
        ensures { self.new ≡ record self.old { noted = notes } }
    {
        self.notes = notes;
    }

    // ---- answers

    /// What stands at the end of a path, and in which directory its last name is looked for, by one look-up for each
    /// of its names. The error is that of the first name but the last that is no directory (POSIX.1-2017, 4.13).
    pub fn look(&self, path: &PathText) -> Result<Look, Errno>
        ensures refused { IfErr result (λ e. refusal_by (node_at self.now) [] path.now ≡ Some e) }
        ensures passed { IfOk result (λ l. refusal_by (node_at self.now) [] path.now ≡ None) }
        ensures found { IfOk result (λ l. l.found ≡ found_at self.now.dirs path.now) }
        ensures dir { IfOk result (λ l. path.now ≢ [] → found_at self.now.dirs (names_above path.now) ≡ Some (found.Dir l.dir)) }
        ensures table { IsNameTable self.now }
    {
        self.dirs.look(path)
    }

    /// What holds of every table holds of this one, whatever was asked of the tree.
    pub fn is_table(&self)
        ensures { IsNameTable self.now }
    {
        // For the prover alone.
        let _ = &self.files;
    }

    /// The number of the file that the inode is; `None` where it is no file's.
    pub fn file(&self, inode: u32) -> Option<u32>
        ensures { result ≡ file_at self.now inode }
    {
        match self.files.get(inode as usize) {
            Some(file) => *file,
            None => None,
        }
    }

    /// What a tree says of what was found.
    pub fn node(&self, found: Option<Found>) -> Option<Node>
        ensures { result ≡ option_map (node_of self.now) found }
    {
        match found {
            Some(Found::Dir { .. }) => Some(Node::Dir),
            Some(Found::File { inode }) => Some(Node::File(self.file(inode).unwrap_or(0))),
            None => None,
        }
    }

    /// How many names the directory has.
    pub fn count(&self, dir: u32) -> u32
        ensures { (names : List (List ℕ)) → AreNamesIn (slots_at self.now.dirs dir) names → result ≡ length names }
    {
        self.dirs.count(dir)
    }

    /// Whether the directory has no name.
    pub fn is_empty(&self, dir: u32) -> bool
        ensures { IsTrue result ↔ IsBare (slots_at self.now.dirs dir) }
    {
        self.dirs.is_empty(dir)
    }

    /// The directory's names, in rising byte order.
    pub fn names(&self, dir: u32) -> Result<NameList, Memory>
        ensures { IfOk result (λ names. AreNamesIn (slots_at self.now.dirs dir) names) }
    {
        self.dirs.names(dir)
    }

    /// The directory's blocks, in order.
    pub fn blocks(&self, dir: u32) -> &[u32]
        ensures { result.now ≡ blocks_at self.now.dirs dir }
    {
        self.dirs.blocks(dir)
    }

    /// The inode that the next new name gets; `None` where none is free.
    pub fn next_inode(&mut self) -> Option<u32>
        ensures some { IfSome result (IsLowest self.old.dirs.free) }
        ensures none { IfNone result (self.old.dirs.free ≡ set.empty) }
        ensures same { self.new ≡ self.old }
    {
        self.dirs.next_inode()
    }
}

// So many inodes that are no file's.
fn no_files(alloc: Global, count: usize) -> Result<Vec<Option<u32>>, Memory>
    ensures counted { IfOk result (λ files. length files.items ≡ count) }
    ensures none { IfOk result (λ files. (i : ℕ) → slice_index_or files.items i None ≡ None) }
{
    let mut files = Vec::with_capacity(alloc, count)?;
    for made in 0..count {
        // For the prover alone.
        let _ = made;
        files.push(None)?;
    }
    Ok(files)
}
