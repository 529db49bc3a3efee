// Changes of a tree's directories.
use crate::dir_entry::{Taken, clear_at, give_room_at, put_at, take_out_at};
use crate::dir_tree::{DIRECTORY, DirTree};
use crate::found::Kind;
use crate::place::{Added, Moved};
use crate::space::{give_inode, lowest_inode, take_inode};
use ufs_bitmap::Pool;
use ufs_dirs::Slot;
use ufs_layout::Dentry;
use ufs_model::Excuse;
use ufs_path::PathText;

impl DirTree {
    ghost use Rattle.std.specs.Prelude.{◌≡◌, ◌≢◌, ◌<◌, ◌∷◌, ◌++◌, ℕ, List, [], Some, None, IsSome, IfOk, IfErr, IfSome, IfNone, OnOk, OnErr, length};
    ghost use Rattle.std.specs.Option.{option_map};
    ghost use Rattle.std.specs.FinSet as set;
    ghost use Rattle.ufs_layout.specs.DentryForm.{free_slot};
    ghost use Rattle.ufs_bitmap.specs.Blocks.{BlockSet};
    ghost use Rattle.ufs_dirs.specs.Changes.{entry_in};
    ghost use Rattle.ufs_dirs.specs.Directory.{entry_of};
    ghost use Rattle.ufs_dir_tree.specs.Space.{IsLowest, TakesLowest};
    ghost use Rattle.ufs_dir_tree.specs.DirTable.{DirTable, IsDirTable, IsMet, IsUsed, dir_at, slots_at, blocks_at, found_of, inode_of, found_at};
    ghost use Rattle.ufs_dir_tree.specs.DirCalls.{names_above, last_name, found_as, code_of, IsBare, IsUnmet, MayGo, SetsFound, MovesFounds, MayMove, StandsAt, IsApart, IsListed, HasRoom, GetsRoom, SpendsBlock, SpendsNone, FreesInode, Frees, IsRoomCause, IsSpaceCause, LacksRoom, LacksSpace};
    ghost use Rattle.ufs_dir_tree.specs.DirEdits.{IsLoose, NothingFrom, SameEntries, KeepsPlaces, ChangesOne, SetsEntry, ClearsName};
    ghost use Rattle.ufs_dir_tree.specs.Steps.{Born, Put, Freed, GoesBy, adding, moving, growing, clearing, replacing};
    ghost use Rattle.ufs_dir_tree.specs.declared.found.Found.{Found};
    ghost use Rattle.ufs_dir_tree.specs.declared.found.Found.TheVariants as found;
    ghost use Rattle.ufs_model.specs.declared.data.Excuse.TheVariants as excuse;
    ghost use Rattle.ufs_path.specs.Names.{IsName};

    /// The lowest free inode, which the next `add` takes; `None` where none is free. No inode comes or goes.
    pub fn next_inode(&mut self) -> Option<u32>
        ensures some { IfSome result (IsLowest self.old.free) }
        ensures none { IfNone result (self.old.free ≡ set.empty) }
        ensures same { self.new ≡ self.old }
    {
        lowest_inode(&mut self.free)
    }

    /// Puts a new inode, the lowest free one, at a path at which nothing stands, in the directory that `look` told.
    /// Where each slot of its directory is used that takes the pool's lowest block.
    pub fn add(
        &mut self,
        dir: u32,
        path: &PathText,
        kind: Kind,
        pool: &mut Pool,
    ) -> Result<Added, Excuse>
        requires below { path.now ≢ [] }
        requires dir { found_at self.old (names_above path.now) ≡ Some (found.Dir dir) }
        requires absent { found_at self.old path.now ≡ None }
        requires apart { IsApart self.old pool.old }
        ensures ok { IfOk result (λ a. SetsFound (found_at self.old) (found_at self.new) path.now (Some (found_as kind a.inode))) }
        ensures inode { IfOk result (λ a. TakesLowest self.old.free self.new.free a.inode) }
        // the directory takes a block, where it does, and the inode is born and gets its name
        ensures steps { IfOk result (λ a. GoesBy self.old self.new pool.old pool.new (growing dir a.grown ++ adding dir a.slot (record { inode = a.inode; kind = code_of kind; name = last_name path.now }))) }
        ensures inodes { length self.new.dirs ≡ length self.old.dirs }
        ensures block { OnOk result (SpendsBlock self.old self.new pool.old pool.new (names_above path.now)) }
        ensures cause { IfErr result (LacksSpace self.old pool.old (names_above path.now)) }
        ensures listed { IfErr result (λ x. x ≢ excuse.Inodes → IsListed (dir_at self.old dir)) }
        ensures err { OnErr result (self.new ≡ self.old) }
        ensures err_pool { OnErr result (pool.new ≡ pool.old) }
        ensures apart { IsApart self.new pool.new }
        ensures table { IsDirTable self.new }
    {
        match self.make(dir, kind, pool) {
            Ok(made) => {
                let inode = made.inode;
                let slot = self.attach(dir, path.last(), inode, kind.code());
                Ok(Added {
                    inode,
                    slot,
                    grown: made.grown,
                })
            }
            Err(excuse) => Err(excuse),
        }
    }

    /// Takes away what stands at a path, and tells the slot that is free then. A directory's inode is free then, and
    /// its blocks are the pool's; a file's inode isn't free yet. Takes no memory.
    pub fn remove(&mut self, dir: u32, path: &PathText, pool: &mut Pool) -> Slot
        requires below { path.now ≢ [] }
        requires dir { found_at self.old (names_above path.now) ≡ Some (found.Dir dir) }
        requires stands { IsSome (found_at self.old path.now) }
        requires may_go { MayGo self.old path.now }
        requires apart { IsApart self.old pool.old }
        ensures found { SetsFound (found_at self.old) (found_at self.new) path.now None }
        ensures freed { Frees self.old self.new pool.old pool.new (found_at self.old path.now) }
        ensures slot { StandsAt (dir_at self.old dir) (last_name path.now) result }
        // the slot is cleared, and the inode of a directory freed
        ensures steps { GoesBy self.old self.new pool.old pool.new (clearing dir result (found_at self.old path.now)) }
        // no name stands for it any more
        ensures unmet { (f : Found) → found_at self.old path.now ≡ Some f → IsUnmet self.new (inode_of f) }
        ensures inodes { length self.new.dirs ≡ length self.old.dirs }
        ensures apart { IsApart self.new pool.new }
        ensures table { IsDirTable self.new }
    {
        self.drop_entry(dir, path.last(), pool)
    }

    /// Gives what stands at `from`, with all below it, the name `to`. What stood there goes as by `remove`; where
    /// nothing did, the directory gets a block as by `add`. It moves one dentry, whatever lies below.
    pub fn rename(
        &mut self,
        from_dir: u32,
        from: &PathText,
        to_dir: u32,
        to: &PathText,
        pool: &mut Pool,
    ) -> Result<Moved, Excuse>
        requires from_dir { found_at self.old (names_above from.now) ≡ Some (found.Dir from_dir) }
        requires to_dir { found_at self.old (names_above to.now) ≡ Some (found.Dir to_dir) }
        requires may_move { MayMove self.old from.now to.now }
        requires apart { IsApart self.old pool.old }
        ensures ok { OnOk result (MovesFounds (found_at self.old) (found_at self.new) from.now to.now) }
        ensures replaced { OnOk result (IsSome (found_at self.old to.now) → Frees self.old self.new pool.old pool.new (found_at self.old to.now)) }
        ensures unmet { OnOk result ((f : Found) → found_at self.old to.now ≡ Some f → IsUnmet self.new (inode_of f)) }
        ensures block { OnOk result (found_at self.old to.now ≡ None → SpendsBlock self.old self.new pool.old pool.new (names_above to.now)) }
        ensures free { OnOk result (found_at self.old to.now ≡ None → self.new.free ≡ self.old.free) }
        ensures left { IfOk result (λ m. StandsAt (dir_at self.old from_dir) (last_name from.now) m.left) }
        ensures dropped { IfOk result (λ m. IfSome m.dropped (StandsAt (dir_at self.old to_dir) (last_name to.now))) }
        ensures not_dropped { IfOk result (λ m. IfNone m.dropped (found_at self.old to.now ≡ None)) }
        ensures not_grown { IfOk result (λ m. IfSome m.dropped (λ s. m.grown ≡ None)) }
        // what stood at the new name goes, or its directory takes a block, where it does; and the dentry moves
        ensures steps { IfOk result (λ m. GoesBy self.old self.new pool.old pool.new (replacing to_dir m.dropped (found_at self.old to.now) ++ growing to_dir m.grown ++ moving from_dir m.left to_dir m.taken (record (entry_in (dir_at self.old from_dir) m.left) { name = last_name to.now }))) }
        ensures inodes { length self.new.dirs ≡ length self.old.dirs }
        ensures absent { OnErr result (found_at self.old to.now ≡ None) }
        ensures cause { IfErr result (LacksRoom self.old pool.old (names_above to.now)) }
        ensures listed { OnErr result (IsListed (dir_at self.old to_dir)) }
        ensures err { OnErr result (self.new ≡ self.old) }
        ensures err_pool { OnErr result (pool.new ≡ pool.old) }
        ensures apart { IsApart self.new pool.new }
        ensures table { IsDirTable self.new }
    {
        match self.clear_name(to_dir, to.last(), pool) {
            Ok(cleared) => {
                let Passed { left, taken } = self.pass(from_dir, from, to_dir, to);
                Ok(Moved {
                    left,
                    taken,
                    dropped: cleared.dropped,
                    grown: cleared.grown,
                })
            }
            Err(excuse) => Err(excuse),
        }
    }

    /// An inode that no name stands for is free. Blocks that it has as a directory are the pool's; a file has none
    /// here. Takes no memory.
    pub fn free_inode(&mut self, inode: u32, pool: &mut Pool)
        requires used { IsUsed self.old inode }
        requires unmet { IsUnmet self.old inode }
        requires apart { IsApart self.old pool.old }
        ensures found { (names : List (List ℕ)) → found_at self.new names ≡ found_at self.old names }
        ensures freed { FreesInode self.old self.new pool.old pool.new inode }
        ensures steps { GoesBy self.old self.new pool.old pool.new (Freed inode ∷ []) }
        ensures same { IsBare (slots_at self.old inode) → SameEntries self.old.dirs self.new.dirs }
        ensures one { ChangesOne self.old.dirs self.new.dirs inode }
        ensures apart { IsApart self.new pool.new }
        ensures table { IsDirTable self.new }
    {
        clear_at(self.alloc, &mut self.dirs, inode as usize, pool);
        give_inode(&mut self.free, inode);
    }

    // Drops the name, where it stands for something. Where it doesn't, sees to a free slot.
    fn clear_name(&mut self, dir: u32, name: &[u8], pool: &mut Pool) -> Result<Cleared, Excuse>
        requires met { IsMet self.old dir }
        requires may_go { (i : ℕ) → option_map found_of (entry_of (slots_at self.old dir) name.now) ≡ Some (found.Dir i) → IsBare (slots_at self.old i) }
        requires apart { IsApart self.old pool.old }
        ensures ok { OnOk result (ClearsName self.old self.new dir name.now) }
        ensures inodes { length self.new.dirs ≡ length self.old.dirs }
        ensures freed { OnOk result (IsSome (entry_of (slots_at self.old dir) name.now) → Frees self.old self.new pool.old pool.new (option_map found_of (entry_of (slots_at self.old dir) name.now))) }
        ensures gets { OnOk result (entry_of (slots_at self.old dir) name.now ≡ None → GetsRoom (dir_at self.old dir) (dir_at self.new dir) pool.old pool.new) }
        ensures one { OnOk result (entry_of (slots_at self.old dir) name.now ≡ None → ChangesOne self.old.dirs self.new.dirs dir) }
        ensures free { OnOk result (entry_of (slots_at self.old dir) name.now ≡ None → self.new.free ≡ self.old.free) }
        ensures dropped { IfOk result (λ c. IfSome c.dropped (StandsAt (dir_at self.old dir) name.now)) }
        ensures not_dropped { IfOk result (λ c. IfNone c.dropped (entry_of (slots_at self.old dir) name.now ≡ None)) }
        ensures not_grown { IfOk result (λ c. IfSome c.dropped (λ s. c.grown ≡ None)) }
        ensures steps { IfOk result (λ c. GoesBy self.old self.new pool.old pool.new (replacing dir c.dropped (option_map found_of (entry_of (slots_at self.old dir) name.now)) ++ growing dir c.grown)) }
        ensures places { OnOk result (KeepsPlaces self.old.dirs self.new.dirs) }
        ensures absent { OnErr result (entry_of (slots_at self.old dir) name.now ≡ None) }
        ensures cause { IfErr result (IsRoomCause (dir_at self.old dir) pool.old) }
        ensures listed { OnErr result (IsListed (dir_at self.old dir)) }
        ensures err { OnErr result (self.new ≡ self.old) }
        ensures err_pool { OnErr result (pool.new ≡ pool.old) }
        ensures apart { IsApart self.new pool.new }
        ensures table { IsDirTable self.new }
    {
        if self.entry(dir, name).is_some() {
            let slot = self.drop_entry(dir, name, pool);
            return Ok(Cleared {
                dropped: Some(slot),
                grown: None,
            });
        }
        match self.make_room(dir, pool) {
            Ok(grown) => Ok(Cleared {
                dropped: None,
                grown,
            }),
            Err(excuse) => Err(excuse),
        }
    }

    // Sees to a free slot in the directory, and tells the block that it took for it.
    fn make_room(&mut self, dir: u32, pool: &mut Pool) -> Result<Option<u32>, Excuse>
        requires met { IsMet self.old dir }
        requires apart { IsApart self.old pool.old }
        ensures room { OnOk result (HasRoom (dir_at self.new dir)) }
        ensures gets { OnOk result (GetsRoom (dir_at self.old dir) (dir_at self.new dir) pool.old pool.new) }
        ensures one { ChangesOne self.old.dirs self.new.dirs dir }
        ensures free { self.new.free ≡ self.old.free }
        ensures same { SameEntries self.old.dirs self.new.dirs }
        ensures steps { IfOk result (λ grown. GoesBy self.old self.new pool.old pool.new (growing dir grown)) }
        ensures places { OnOk result (KeepsPlaces self.old.dirs self.new.dirs) }
        ensures cause { IfErr result (IsRoomCause (dir_at self.old dir) pool.old) }
        ensures listed { IsListed (dir_at self.old dir) }
        ensures err { OnErr result (self.new ≡ self.old) }
        ensures err_pool { OnErr result (pool.new ≡ pool.old) }
        ensures apart { IsApart self.new pool.new }
        ensures before { IsDirTable self.old }
        ensures table { IsDirTable self.new }
    {
        give_room_at(&mut self.dirs, dir as usize, pool)
    }

    // Sees to a free slot in the directory, and to an inode that nothing names yet.
    fn make(&mut self, dir: u32, kind: Kind, pool: &mut Pool) -> Result<Made, Excuse>
        requires met { IsMet self.old dir }
        requires apart { IsApart self.old pool.old }
        ensures room { OnOk result (HasRoom (dir_at self.new dir)) }
        ensures gets { OnOk result (GetsRoom (dir_at self.old dir) (dir_at self.new dir) pool.old pool.new) }
        ensures one { ChangesOne self.old.dirs self.new.dirs dir }
        ensures same { SameEntries self.old.dirs self.new.dirs }
        ensures inode { IfOk result (λ m. TakesLowest self.old.free self.new.free m.inode) }
        ensures loose { IfOk result (λ m. IsLoose self.new (found_as kind m.inode)) }
        ensures bare { IfOk result (λ m. NothingFrom self.new (Some (found_as kind m.inode))) }
        ensures steps { IfOk result (λ m. GoesBy self.old self.new pool.old pool.new (growing dir m.grown ++ Born m.inode (code_of kind) ∷ [])) }
        ensures cause { IfErr result (IsSpaceCause self.old dir pool.old) }
        ensures listed { IfErr result (λ x. x ≢ excuse.Inodes → IsListed (dir_at self.old dir)) }
        ensures err { OnErr result (self.new ≡ self.old) }
        ensures err_pool { OnErr result (pool.new ≡ pool.old) }
        ensures apart { IsApart self.new pool.new }
        ensures table { IsDirTable self.new }
    {
        if self.free.count() == 0 {
            return Err(Excuse::Inodes);
        }
        match self.make_room(dir, pool) {
            Ok(grown) => Ok(Made {
                inode: self.take(kind),
                grown,
            }),
            Err(excuse) => Err(excuse),
        }
    }

    // The lowest free inode. Nothing names it yet.
    fn take(&mut self, kind: Kind) -> u32
        requires { self.old.free ≢ set.empty }
        ensures inode { TakesLowest self.old.free self.new.free result }
        ensures dirs { self.new.dirs ≡ self.old.dirs }
        ensures loose { IsLoose self.new (found_as kind result) }
        ensures bare { NothingFrom self.new (Some (found_as kind result)) }
        ensures steps { (pool : BlockSet) → GoesBy self.old self.new pool pool (Born result (code_of kind) ∷ []) }
        ensures table { IsDirTable self.new }
    {
        // For the prover alone.
        let _kind = kind;
        match take_inode(&mut self.free) {
            Some(inode) => inode,
            None => unreachable!(),
        }
    }

    // Gives what nothing leads to a name in the directory, which has a free slot.
    fn attach(&mut self, dir: u32, name: &[u8], inode: u32, kind: u8) -> Slot
        requires met { IsMet self.old dir }
        requires named { IsName name.now }
        requires absent { entry_of (slots_at self.old dir) name.now ≡ None }
        requires room { HasRoom (dir_at self.old dir) }
        requires loose { IsLoose self.old (found_of (record { inode = inode; kind = kind; name = name.now })) }
        ensures entries { SetsEntry self.old.dirs self.new.dirs dir name.now (Some (record { inode = inode; kind = kind; name = name.now })) }
        ensures steps { (pool : BlockSet) → GoesBy self.old self.new pool pool (Put dir result (record { inode = inode; kind = kind; name = name.now }) ∷ []) }
        ensures free { self.new.free ≡ self.old.free }
        ensures table { IsDirTable self.new }
    {
        put_at(
            &mut self.dirs,
            dir as usize,
            Dentry::from_name(inode, kind, name),
        )
    }

    // Takes a name out of the directory below which nothing stands. Nothing leads any more to what it stood for.
    fn detach(&mut self, dir: u32, name: &[u8]) -> Taken
        requires met { IsMet self.old dir }
        requires stands { IsSome (entry_of (slots_at self.old dir) name.now) }
        requires may_go { (i : ℕ) → option_map found_of (entry_of (slots_at self.old dir) name.now) ≡ Some (found.Dir i) → IsBare (slots_at self.old i) }
        ensures was { entry_of (slots_at self.old dir) name.now ≡ Some result.entry }
        ensures slot { StandsAt (dir_at self.old dir) name.now result.slot }
        ensures steps { (pool : BlockSet) → GoesBy self.old self.new pool pool (Put dir result.slot free_slot ∷ []) }
        ensures places { KeepsPlaces self.old.dirs self.new.dirs }
        ensures entries { SetsEntry self.old.dirs self.new.dirs dir name.now None }
        ensures free { self.new.free ≡ self.old.free }
        ensures room { HasRoom (dir_at self.new dir) }
        ensures loose { IsLoose self.new (found_of result.entry) }
        ensures before { IsDirTable self.old }
        ensures table { IsDirTable self.new }
    {
        take_out_at(&mut self.dirs, dir as usize, name)
    }

    // Gives what stands at `from`, with all below it, the name `to`, at which nothing stands, in a free slot.
    fn pass(&mut self, from_dir: u32, from: &PathText, to_dir: u32, to: &PathText) -> Passed
        requires from_dir { found_at self.old (names_above from.now) ≡ Some (found.Dir from_dir) }
        requires to_dir { found_at self.old (names_above to.now) ≡ Some (found.Dir to_dir) }
        requires may_move { MayMove self.old from.now to.now }
        requires absent { found_at self.old to.now ≡ None }
        requires room { HasRoom (dir_at self.old to_dir) }
        ensures moved { MovesFounds (found_at self.old) (found_at self.new) from.now to.now }
        ensures left { StandsAt (dir_at self.old from_dir) (last_name from.now) result.left }
        ensures steps { (pool : BlockSet) → GoesBy self.old self.new pool pool (moving from_dir result.left to_dir result.taken (record (entry_in (dir_at self.old from_dir) result.left) { name = last_name to.now })) }
        ensures blocks { (i : ℕ) → blocks_at self.new i ≡ blocks_at self.old i }
        ensures free { self.new.free ≡ self.old.free }
        ensures inodes { length self.new.dirs ≡ length self.old.dirs }
        ensures table { IsDirTable self.new }
    {
        let Taken { entry, slot } = take_out_at(&mut self.dirs, from_dir as usize, from.last());
        let moved = Dentry::from_name(entry.inode, entry.kind, to.last());
        Passed {
            left: slot,
            taken: put_at(&mut self.dirs, to_dir as usize, moved),
        }
    }

    // Takes the name out of the directory. The inode of a directory that it stood for is free. Takes no memory.
    fn drop_entry(&mut self, dir: u32, name: &[u8], pool: &mut Pool) -> Slot
        requires met { IsMet self.old dir }
        requires stands { IsSome (entry_of (slots_at self.old dir) name.now) }
        requires may_go { (i : ℕ) → option_map found_of (entry_of (slots_at self.old dir) name.now) ≡ Some (found.Dir i) → IsBare (slots_at self.old i) }
        requires apart { IsApart self.old pool.old }
        ensures clears { ClearsName self.old self.new dir name.now }
        ensures inodes { length self.new.dirs ≡ length self.old.dirs }
        ensures freed { Frees self.old self.new pool.old pool.new (option_map found_of (entry_of (slots_at self.old dir) name.now)) }
        ensures slot { StandsAt (dir_at self.old dir) name.now result }
        ensures steps { GoesBy self.old self.new pool.old pool.new (clearing dir result (option_map found_of (entry_of (slots_at self.old dir) name.now))) }
        ensures places { KeepsPlaces self.old.dirs self.new.dirs }
        ensures apart { IsApart self.new pool.new }
    {
        let Taken { entry, slot } = self.detach(dir, name);
        if entry.kind == DIRECTORY {
            self.free_inode(entry.inode, pool);
        }
        slot
    }
}

// The slot of a name that was dropped, if it stood for something, and the block that the directory took else, if it
// did.
#[derive(Clone, Copy)]
struct Cleared {
    dropped: Option<Slot>,
    grown: Option<u32>,
}

// The slot that a moved dentry left and the one that it stands in now.
#[derive(Clone, Copy)]
struct Passed {
    left: Slot,
    taken: Slot,
}

// A new inode, and the block that the directory took for its name, if it did.
#[derive(Clone, Copy)]
struct Made {
    inode: u32,
    grown: Option<u32>,
}
