// Names that come, go and change.
use crate::name_tree::NameTree;
use crate::notes::{DIRECTORY, FILE, keep_lack, note_added, note_freed, note_moved, note_removed};
use ufs_bitmap::Pool;
use ufs_dir_tree::Kind;
use ufs_layout::Dentry;
use ufs_model::Excuse;
use ufs_path::PathText;

impl NameTree {
    ghost use Rattle.std.specs.Prelude.{◌≡◌, ◌≢◌, ℕ, List, [], Some, None, IsSome, IfOk, IfErr, OnOk, OnErr, length, slice_set};
    ghost use Rattle.std.specs.FinSet as set;
    ghost use Rattle.ufs_dir_tree.specs.Space.{TakesLowest};
    ghost use Rattle.ufs_dir_tree.specs.DirTable.{dir_at, blocks_at, inode_of, found_at};
    ghost use Rattle.ufs_dir_tree.specs.DirCalls.{names_above, SetsFound, MovesFounds, IsUnmet, MayGo, MayMove, IsApart, IsListed, SpendsBlock, Frees, LacksRoom, LacksSpace};
    ghost use Rattle.ufs_dir_tree.specs.declared.found.Found.{Found};
    ghost use Rattle.ufs_dir_tree.specs.declared.found.Found.TheVariants as found;
    ghost use Rattle.ufs_model.specs.declared.data.Excuse.TheVariants as excuse;
    ghost use Rattle.ufs_model.specs.declared.data.Node.TheVariants as node;
    ghost use Rattle.ufs_name_tree.specs.Nodes.{SetsNode, MovesNodes};
    ghost use Rattle.ufs_name_tree.specs.NameTable.{IsNameTable, file_at, node_at};
    ghost use Rattle.ufs_name_tree.specs.Notes.{GoesByNotes};

    /// Puts a new directory at a path at which nothing stands, in the directory that `look` told. It has the lowest
    /// free inode. Where each slot of the directory above is used that takes the pool's lowest block.
    pub fn add_dir(&mut self, dir: u32, path: &PathText, pool: &mut Pool) -> Result<u32, Excuse>
        requires below { path.now ≢ [] }
        requires dir { found_at self.old.dirs (names_above path.now) ≡ Some (found.Dir dir) }
        requires absent { found_at self.old.dirs path.now ≡ None }
        requires apart { IsApart self.old.dirs pool.old }
        ensures ok { OnOk result (SetsNode (node_at self.old) (node_at self.new) path.now (Some node.Dir)) }
        ensures found { IfOk result (λ i. SetsFound (found_at self.old.dirs) (found_at self.new.dirs) path.now (Some (found.Dir i))) }
        ensures inode { IfOk result (TakesLowest self.old.dirs.free self.new.dirs.free) }
        ensures files { self.new.files ≡ self.old.files }
        ensures block { OnOk result (SpendsBlock self.old.dirs self.new.dirs pool.old pool.new (names_above path.now)) }
        ensures cause { IfErr result (LacksSpace self.old.dirs pool.old (names_above path.now)) }
        ensures listed { IfErr result (λ x. x ≢ excuse.Inodes → IsListed (dir_at self.old.dirs dir)) }
        ensures err { OnErr result (self.new ≡ self.old) }
        ensures err_pool { OnErr result (pool.new ≡ pool.old) }
        ensures inodes { length self.new.dirs.dirs ≡ length self.old.dirs.dirs }
        ensures apart { IsApart self.new.dirs pool.new }
        ensures noted { GoesByNotes self.old self.new pool.old }
        ensures table { IsNameTable self.new }
    {
        // Its slots fill its blocks, so a slot has one place.
        let _blocks = self.dirs.blocks(dir);
        let added = match self.dirs.add(dir, path, Kind::Dir, pool) {
            Ok(added) => added,
            Err(excuse) => return Err(excuse),
        };
        let dentry = Dentry::from_name(added.inode, DIRECTORY, path.last());
        let noted = note_added(&mut self.notes, &self.dirs, dir, added, dentry);
        keep_lack(&mut self.lost, noted);
        Ok(added.inode)
    }

    /// The same for a file of this number, which has no inode yet.
    pub fn add_file(
        &mut self,
        dir: u32,
        path: &PathText,
        file: u32,
        pool: &mut Pool,
    ) -> Result<u32, Excuse>
        requires below { path.now ≢ [] }
        requires dir { found_at self.old.dirs (names_above path.now) ≡ Some (found.Dir dir) }
        requires absent { found_at self.old.dirs path.now ≡ None }
        requires fresh { (i : ℕ) → file_at self.old i ≢ Some file }
        requires apart { IsApart self.old.dirs pool.old }
        ensures ok { OnOk result (SetsNode (node_at self.old) (node_at self.new) path.now (Some (node.File file))) }
        ensures found { IfOk result (λ i. SetsFound (found_at self.old.dirs) (found_at self.new.dirs) path.now (Some (found.File i))) }
        ensures inode { IfOk result (TakesLowest self.old.dirs.free self.new.dirs.free) }
        ensures files { IfOk result (λ i. self.new.files ≡ slice_set self.old.files i (Some file)) }
        ensures numbered { IfOk result (λ i. file_at self.new i ≡ Some file) }
        ensures others { IfOk result (λ i. (j : ℕ) → j ≢ i → file_at self.new j ≡ file_at self.old j) }
        ensures unnumbered { IfOk result (λ i. file_at self.old i ≡ None) }
        ensures block { OnOk result (SpendsBlock self.old.dirs self.new.dirs pool.old pool.new (names_above path.now)) }
        ensures cause { IfErr result (LacksSpace self.old.dirs pool.old (names_above path.now)) }
        ensures listed { IfErr result (λ x. x ≢ excuse.Inodes → IsListed (dir_at self.old.dirs dir)) }
        ensures err { OnErr result (self.new ≡ self.old) }
        ensures err_pool { OnErr result (pool.new ≡ pool.old) }
        ensures inodes { length self.new.dirs.dirs ≡ length self.old.dirs.dirs }
        ensures apart { IsApart self.new.dirs pool.new }
        ensures noted { GoesByNotes self.old self.new pool.old }
        ensures table { IsNameTable self.new }
    {
        // Its slots fill its blocks, so a slot has one place.
        let _blocks = self.dirs.blocks(dir);
        let added = match self.dirs.add(dir, path, Kind::File, pool) {
            Ok(added) => added,
            Err(excuse) => return Err(excuse),
        };
        self.files[added.inode as usize] = Some(file);
        let dentry = Dentry::from_name(added.inode, FILE, path.last());
        let noted = note_added(&mut self.notes, &self.dirs, dir, added, dentry);
        keep_lack(&mut self.lost, noted);
        Ok(added.inode)
    }

    /// Takes away what stands at a path. A directory's inode is free then, and its blocks are the pool's. A file keeps
    /// its inode and its number. Takes no memory but for notes.
    pub fn remove(&mut self, dir: u32, path: &PathText, pool: &mut Pool)
        requires below { path.now ≢ [] }
        requires dir { found_at self.old.dirs (names_above path.now) ≡ Some (found.Dir dir) }
        requires stands { IsSome (found_at self.old.dirs path.now) }
        requires may_go { MayGo self.old.dirs path.now }
        requires apart { IsApart self.old.dirs pool.old }
        ensures nodes { SetsNode (node_at self.old) (node_at self.new) path.now None }
        ensures found { SetsFound (found_at self.old.dirs) (found_at self.new.dirs) path.now None }
        // no name stands for it any more
        ensures unmet { (f : Found) → found_at self.old.dirs path.now ≡ Some f → IsUnmet self.new.dirs (inode_of f) }
        ensures files { self.new.files ≡ self.old.files }
        ensures freed { Frees self.old.dirs self.new.dirs pool.old pool.new (found_at self.old.dirs path.now) }
        ensures inodes { length self.new.dirs.dirs ≡ length self.old.dirs.dirs }
        ensures apart { IsApart self.new.dirs pool.new }
        ensures noted { GoesByNotes self.old self.new pool.old }
        ensures table { IsNameTable self.new }
    {
        // Its slots fill its blocks, so a slot has one place.
        let _blocks = self.dirs.blocks(dir);
        let found = self.dirs.entry(dir, path.last());
        let slot = self.dirs.remove(dir, path, pool);
        let noted = note_removed(&mut self.notes, slot, found);
        keep_lack(&mut self.lost, noted);
    }

    /// Gives what stands at `from`, with all below it, the name `to`. What stood there goes as by `remove`; where
    /// nothing did, the directory gets a block as by `add_dir`. It moves one dentry, whatever lies below.
    pub fn rename(
        &mut self,
        from_dir: u32,
        from: &PathText,
        to_dir: u32,
        to: &PathText,
        pool: &mut Pool,
    ) -> Result<(), Excuse>
        requires from_dir { found_at self.old.dirs (names_above from.now) ≡ Some (found.Dir from_dir) }
        requires to_dir { found_at self.old.dirs (names_above to.now) ≡ Some (found.Dir to_dir) }
        requires may_move { MayMove self.old.dirs from.now to.now }
        requires apart { IsApart self.old.dirs pool.old }
        ensures ok { OnOk result (MovesNodes (node_at self.old) (node_at self.new) from.now to.now) }
        ensures found { OnOk result (MovesFounds (found_at self.old.dirs) (found_at self.new.dirs) from.now to.now) }
        ensures unmet { OnOk result ((f : Found) → found_at self.old.dirs to.now ≡ Some f → IsUnmet self.new.dirs (inode_of f)) }
        ensures files { self.new.files ≡ self.old.files }
        ensures replaced { OnOk result (IsSome (found_at self.old.dirs to.now) → Frees self.old.dirs self.new.dirs pool.old pool.new (found_at self.old.dirs to.now)) }
        ensures block { OnOk result (found_at self.old.dirs to.now ≡ None → SpendsBlock self.old.dirs self.new.dirs pool.old pool.new (names_above to.now)) }
        ensures free { OnOk result (found_at self.old.dirs to.now ≡ None → self.new.dirs.free ≡ self.old.dirs.free) }
        ensures absent { OnErr result (found_at self.old.dirs to.now ≡ None) }
        ensures cause { IfErr result (LacksRoom self.old.dirs pool.old (names_above to.now)) }
        ensures listed { OnErr result (IsListed (dir_at self.old.dirs to_dir)) }
        ensures err { OnErr result (self.new ≡ self.old) }
        ensures err_pool { OnErr result (pool.new ≡ pool.old) }
        ensures inodes { length self.new.dirs.dirs ≡ length self.old.dirs.dirs }
        ensures apart { IsApart self.new.dirs pool.new }
        ensures noted { GoesByNotes self.old self.new pool.old }
        ensures table { IsNameTable self.new }
    {
        // Their slots fill their blocks, so a slot has one place.
        let _from_blocks = self.dirs.blocks(from_dir);
        let _to_blocks = self.dirs.blocks(to_dir);
        let found = self.dirs.entry(to_dir, to.last());
        let Some(old) = self.dirs.dentry(from_dir, from.last()) else {
            unreachable!()
        };
        let moved = match self.dirs.rename(from_dir, from, to_dir, to, pool) {
            Ok(moved) => moved,
            Err(excuse) => return Err(excuse),
        };
        let dentry = Dentry::from_name(old.inode, old.kind, to.last());
        let noted = note_moved(&mut self.notes, &self.dirs, to_dir, moved, found, dentry);
        keep_lack(&mut self.lost, noted);
        Ok(())
    }

    /// The file of this inode, which no name stands for, is no more: its inode is free. Takes no memory but for
    /// notes. Directories and pool have the blocks that they had.
    pub fn free_file(&mut self, inode: u32, pool: &mut Pool)
        requires file { IsSome (file_at self.old inode) }
        requires unmet { (names : List (List ℕ)) → found_at self.old.dirs names ≢ Some (found.File inode) }
        requires apart { IsApart self.old.dirs pool.old }
        ensures nodes { (names : List (List ℕ)) → node_at self.new names ≡ node_at self.old names }
        ensures found { (names : List (List ℕ)) → found_at self.new.dirs names ≡ found_at self.old.dirs names }
        ensures files { self.new.files ≡ slice_set self.old.files inode None }
        ensures gone { file_at self.new inode ≡ None }
        ensures others { (j : ℕ) → j ≢ inode → file_at self.new j ≡ file_at self.old j }
        ensures free { self.new.dirs.free ≡ set.insert self.old.dirs.free inode }
        ensures blocks { (i : ℕ) → blocks_at self.new.dirs i ≡ blocks_at self.old.dirs i }
        ensures pool { pool.new ≡ pool.old }
        ensures inodes { length self.new.dirs.dirs ≡ length self.old.dirs.dirs }
        ensures apart { IsApart self.new.dirs pool.new }
        ensures noted { GoesByNotes self.old self.new set.empty }
        ensures table { IsNameTable self.new }
    {
        self.dirs.free_inode(inode, pool);
        self.files[inode as usize] = None;
        let noted = note_freed(&mut self.notes, inode);
        keep_lack(&mut self.lost, noted);
    }
}
