// Changes of one directory of a list.
ghost use Rattle.std.specs.Prelude.{◌≡◌, ◌<◌, ◌≤◌, ◌++◌, ◌∷◌, List, [], Some, None, IsSome, IsTrue, false, IfOk, IfErr, IfSome, IfNone, OnOk, OnErr, All, length, nat_eq, slice_set};
ghost use Rattle.std.specs.List.{IsDistinct};
ghost use Rattle.std.specs.FinSet as set;
ghost use Rattle.ufs_layout.specs.DentryForm.{free_slot, is_dentry, is_named};
ghost use Rattle.ufs_dirs.specs.Directory.{IsDirectory, entry_of, has_block};
ghost use Rattle.ufs_dirs.specs.Changes.{IsFreeSlot, SetsName, with_entry};
ghost use Rattle.ufs_dir_tree.specs.Space.{TakesLowest, extents_of};
ghost use Rattle.ufs_dir_tree.specs.DirTable.{no_dir};
ghost use Rattle.ufs_dir_tree.specs.DirCalls.{StandsAt, HasRoom, IsFull, IsListed, GetsRoom, IsRoomCause};
ghost use Rattle.ufs_dir_tree.specs.Steps.{grown};
ghost use Rattle.ufs_dir_tree.specs.DirEdits.{HasNone, IsSized, IsAddCause, SameNames, RoomsIn, ChangesOne, SetsEntry, dir_in};

use crate::space::{extents_with, give_block, give_blocks, take_block};
use std::alloc::Global;
use ufs_base::{MAX_EXTENTS, SLOTS_PER_BLOCK};
use ufs_bitmap::Pool;
use ufs_dirs::{DirBlocks, Slot};
use ufs_layout::Dentry;
use ufs_model::Excuse;

/// An entry that was taken out, and the slot in which it stood.
#[derive(Drop)]
pub(crate) struct Taken {
    pub(crate) entry: Dentry,
    pub(crate) slot: Slot,
}

// The block goes behind the others, which then lie in at most 56 extents.
fn add_block(dir: &mut DirBlocks, block: u32) -> Result<(), Excuse>
    requires small { block < 65536 }
    requires absent { has_block dir.old.blocks block ≡ false }
    requires few { length (extents_of dir.old.blocks) ≤ 56 }
    ensures whole { IsDirectory dir.new }
    ensures blocks { OnOk result (dir.new.blocks ≡ dir.old.blocks ++ block ∷ []) }
    ensures grown { OnOk result (dir.new ≡ grown block dir.old) }
    ensures room { OnOk result (HasRoom dir.new) }
    ensures names { SameNames dir.old dir.new }
    ensures few { length (extents_of dir.new.blocks) ≤ 56 }
    ensures cause { IfErr result (IsAddCause dir.old.blocks block) }
    ensures err { OnErr result (dir.new ≡ dir.old) }
{
    let extents = extents_with(dir.blocks(), block);
    if extents > MAX_EXTENTS {
        return Err(Excuse::Extents {
            need: extents as u32,
        });
    }
    match dir.add_block(block) {
        Ok(()) => Ok(()),
        Err(memory) => Err(Excuse::from(memory)),
    }
}

// Adds the pool's lowest block where each slot is used.
fn give_room(dir: &mut DirBlocks, pool: &mut Pool) -> Result<Option<u32>, Excuse>
    requires apart { HasNone pool.old dir.old.blocks }
    requires few { length (extents_of dir.old.blocks) ≤ 56 }
    ensures room { OnOk result (HasRoom dir.new) }
    ensures gets { OnOk result (GetsRoom dir.old dir.new pool.old pool.new) }
    ensures sized { IsSized dir.old }
    ensures whole { IsDirectory dir.new }
    ensures kept { IfOk result (λ g. IfNone g (dir.new ≡ dir.old)) }
    ensures pool_kept { IfOk result (λ g. IfNone g (pool.new ≡ pool.old)) }
    ensures grown { IfOk result (λ g. IfSome g (λ b. dir.new ≡ grown b dir.old)) }
    ensures taken { IfOk result (λ g. IfSome g (TakesLowest pool.old pool.new)) }
    ensures names { SameNames dir.old dir.new }
    ensures few { length (extents_of dir.new.blocks) ≤ 56 }
    ensures cause { IfErr result (IsRoomCause dir.old pool.old) }
    ensures err { OnErr result (dir.new ≡ dir.old) }
    ensures err_pool { OnErr result (pool.new ≡ pool.old) }
    ensures listed { IsListed dir.old }
{
    if (dir.count() as usize) / SLOTS_PER_BLOCK < dir.blocks().len() {
        return Ok(None);
    }
    let Some(block) = take_block(pool) else {
        return Err(Excuse::Blocks { need: 1, had: 0 });
    };
    match add_block(dir, block) {
        Ok(()) => Ok(Some(block)),
        Err(excuse) => {
            give_block(pool, block);
            Err(excuse)
        }
    }
}

// Puts the entry into a free slot.
fn put_in(dir: &mut DirBlocks, entry: Dentry) -> Slot
    requires form { IsTrue (is_dentry entry) }
    requires named { IsTrue (is_named entry) }
    requires absent { entry_of dir.old.slots entry.name ≡ None }
    requires room { HasRoom dir.old }
    ensures names { SetsName dir.old dir.new entry.name (Some entry) }
    ensures blocks { dir.new.blocks ≡ dir.old.blocks }
    ensures whole { IsDirectory dir.new }
    ensures free { IsFreeSlot dir.old result }
    ensures placed { dir.new ≡ with_entry dir.old result entry }
{
    dir.insert(entry).unwrap()
}

// Takes the name's entry out.
fn take_out(dir: &mut DirBlocks, name: &[u8]) -> Taken
    requires { IsSome (entry_of dir.old.slots name.now) }
    ensures whole { IsDirectory dir.new }
    ensures was { entry_of dir.old.slots name.now ≡ Some result.entry }
    ensures slot { StandsAt dir.old name.now result.slot }
    ensures freed { dir.new ≡ with_entry dir.old result.slot free_slot }
    ensures names { SetsName dir.old dir.new name.now None }
    ensures blocks { dir.new.blocks ≡ dir.old.blocks }
    ensures room { HasRoom dir.new }
{
    let Some(entry) = dir.find(name) else {
        unreachable!()
    };
    let slot = dir.remove(name);
    Taken { entry, slot }
}

// No block is the directory's any more, and those that were are the pool's. Takes no memory.
fn clear(alloc: Global, dir: &mut DirBlocks, pool: &mut Pool)
    requires { HasNone pool.old dir.old.blocks }
    ensures dir { dir.new ≡ no_dir }
    ensures pool { pool.new ≡ set.union pool.old (set.from_list dir.old.blocks) }
{
    give_blocks(pool, dir.blocks());
    *dir = DirBlocks::new(alloc);
}

/// Adds the pool's lowest block to the directory where each slot is used.
pub(crate) fn give_room_at(
    dirs: &mut Vec<DirBlocks>,
    dir: usize,
    pool: &mut Pool,
) -> Result<Option<u32>, Excuse>
    requires there { dir < length dirs.old.items }
    requires apart { HasNone pool.old (dir_in dirs.old.items dir).blocks }
    requires few { length (extents_of (dir_in dirs.old.items dir).blocks) ≤ 56 }
    ensures room { OnOk result (HasRoom (dir_in dirs.new.items dir)) }
    ensures gets { OnOk result (GetsRoom (dir_in dirs.old.items dir) (dir_in dirs.new.items dir) pool.old pool.new) }
    ensures sized { IsSized (dir_in dirs.old.items dir) }
    ensures whole { IsDirectory (dir_in dirs.new.items dir) }
    ensures kept { IfOk result (λ g. IfNone g (dirs.new.items ≡ dirs.old.items)) }
    ensures pool_kept { IfOk result (λ g. IfNone g (pool.new ≡ pool.old)) }
    ensures grown { IfOk result (λ g. IfSome g (λ b. dirs.new.items ≡ slice_set dirs.old.items dir (grown b (dir_in dirs.old.items dir)))) }
    ensures taken { IfOk result (λ g. IfSome g (TakesLowest pool.old pool.new)) }
    ensures same { RoomsIn dirs.old.items dirs.new.items dir }
    ensures few { length (extents_of (dir_in dirs.new.items dir).blocks) ≤ 56 }
    ensures cause { IfErr result (IsRoomCause (dir_in dirs.old.items dir) pool.old) }
    ensures err { OnErr result (dirs.new.items ≡ dirs.old.items) }
    ensures err_pool { OnErr result (pool.new ≡ pool.old) }
    ensures listed { IsListed (dir_in dirs.old.items dir) }
{
    give_room(&mut dirs[dir], pool)
}

/// Puts the entry into a free slot of the directory.
pub(crate) fn put_at(dirs: &mut Vec<DirBlocks>, dir: usize, entry: Dentry) -> Slot
    requires there { dir < length dirs.old.items }
    requires form { IsTrue (is_dentry entry) }
    requires named { IsTrue (is_named entry) }
    requires absent { entry_of (dir_in dirs.old.items dir).slots entry.name ≡ None }
    requires room { HasRoom (dir_in dirs.old.items dir) }
    ensures entries { SetsEntry dirs.old.items dirs.new.items dir entry.name (Some entry) }
    ensures whole { IsDirectory (dir_in dirs.new.items dir) }
    ensures free { IsFreeSlot (dir_in dirs.old.items dir) result }
    ensures placed { dirs.new.items ≡ slice_set dirs.old.items dir (with_entry (dir_in dirs.old.items dir) result entry) }
{
    put_in(&mut dirs[dir], entry)
}

/// Takes the name's entry out of the directory.
pub(crate) fn take_out_at(dirs: &mut Vec<DirBlocks>, dir: usize, name: &[u8]) -> Taken
    requires there { dir < length dirs.old.items }
    requires stands { IsSome (entry_of (dir_in dirs.old.items dir).slots name.now) }
    ensures whole { IsDirectory (dir_in dirs.new.items dir) }
    ensures was { entry_of (dir_in dirs.old.items dir).slots name.now ≡ Some result.entry }
    ensures slot { StandsAt (dir_in dirs.old.items dir) name.now result.slot }
    ensures freed { dirs.new.items ≡ slice_set dirs.old.items dir (with_entry (dir_in dirs.old.items dir) result.slot free_slot) }
    ensures entries { SetsEntry dirs.old.items dirs.new.items dir name.now None }
    ensures room { HasRoom (dir_in dirs.new.items dir) }
{
    take_out(&mut dirs[dir], name)
}

/// No block is the directory's any more, and those that were are the pool's. Takes no memory.
pub(crate) fn clear_at(alloc: Global, dirs: &mut Vec<DirBlocks>, dir: usize, pool: &mut Pool)
    requires there { dir < length dirs.old.items }
    requires apart { HasNone pool.old (dir_in dirs.old.items dir).blocks }
    ensures one { ChangesOne dirs.old.items dirs.new.items dir }
    ensures dir { dir_in dirs.new.items dir ≡ no_dir }
    ensures cleared { dirs.new.items ≡ slice_set dirs.old.items dir no_dir }
    ensures pool { pool.new ≡ set.union pool.old (set.from_list (dir_in dirs.old.items dir).blocks) }
{
    clear(alloc, &mut dirs[dir], pool);
}
