ghost use Rattle.std.specs.Prelude.{ℕ, List, ◌≡◌, ◌≢◌, ◌==◌, ◌+◌, ◌*◌, ◌<◌, ◌≤◌, ◌↔◌, [], ◌∷◌, ◌++◌, true, false, None, Some, IsTrue, IsSome, IsErr, IfOk, IfErr, IfSome, IfNone, OnOk, OnErr, length, replicate, slice_get, slice_set, is_err};
ghost use Rattle.std.specs.List.{count_by, list_all, position, position_or_len};
ghost use Rattle.ufs_layout.specs.DentryForm.{free_slot, is_dentry, is_named};
ghost use Rattle.ufs_dirs.specs.Directory.{IsDirectory, entry_at, entry_of, has_block};

use crate::codec::put_slots;
use crate::free::{places_above, put_block};
use crate::index::{next_rank, search};
use crate::{BlockFault, NoSlot, Slot, SlotFault};
use std::alloc::Global;
use std::marker::Model;
use ufs_base::{MAX_BLOCKS, Memory, SECTORS_PER_BLOCK, SLOT, SLOTS_PER_BLOCK, SLOTS_PER_SECTOR};
use ufs_layout::{Dentry, get_dentry};

/// The blocks of one directory. Contracts see the list of its blocks, and what stands in their slots, in order.
#[derive(Drop)]
pub struct DirBlocks {
    blocks: Vec<u32>,
    // 64 a block.
    slots: Vec<Dentry>,
    // The places of the used slots, by rising name. There is room for the place of each slot.
    order: Vec<u32>,
    // The places of the free slots, the highest first. There is room for the place of each slot.
    free: Vec<u32>,
}

impl Model for DirBlocks {
    ghost use Rattle.std.specs.Prelude.{◌≤◌, length};
    ghost use Rattle.std.specs.Vec.{vec_capacity};
    ghost use Rattle.ufs_dirs.specs.Directory.{Directory};
    ghost use Rattle.ufs_dirs.specs.Index.{IsKept};

    ghost Value = { Directory };

    ghost view = { λ d. record { blocks = d.blocks.items; slots = d.slots.items } };

    ghost invariant = { λ d. IsKept (record { blocks = d.blocks.items; slots = d.slots.items }) d.order.items d.free.items × (length d.slots.items ≤ vec_capacity d.order) × (length d.slots.items ≤ vec_capacity d.free) };
}

impl DirBlocks {
    ghost use Rattle.ufs_dirs.specs.Names.{AreNamesIn};
    ghost use Rattle.ufs_dirs.specs.Reading.{IsBlockFault, IsReadSoFar, IsSlotFault, ReadsSlot};
    ghost use Rattle.ufs_dirs.specs.Changes.{IsFreeSlot, IsLastName, IsLowestFree, IsNextName, IsSlot, IsSlotOf, SetsName, bytes_of_block, entry_in, place_of, with_entry};

    /// No block, and so no name.
    pub fn new(alloc: Global) -> DirBlocks
        ensures { result ≡ record { blocks = []; slots = [] } }
    {
        DirBlocks {
            blocks: Vec::new(alloc),
            slots: Vec::new(alloc),
            order: Vec::new(alloc),
            free: Vec::new(alloc),
        }
    }

    /// What the name stands for.
    pub fn find(&self, name: &[u8]) -> Option<Dentry>
        ensures { result ≡ entry_of self.now.slots name.now }
    {
        match search(self.slots.as_slice(), self.order.as_slice(), name) {
            Ok(rank) => Some(self.slots[self.order[rank] as usize]),
            Err(_) => None,
        }
    }

    /// How many names there are.
    pub fn count(&self) -> u32
        ensures count { result ≡ count_by is_named self.now.slots }
        ensures whole { IsDirectory self.now }

        // It is the length of the list of the names, which there is.
        ensures names { (names : List (List ℕ)) → AreNamesIn self.now.slots names → result ≡ length names }
        ensures listed { (names : List (List ℕ)) × AreNamesIn self.now.slots names }
    {
        self.order.len() as u32
    }

    /// The name of this rank in byte order; the lowest has rank 0.
    pub fn name_at(&self, rank: usize) -> &[u8]
        requires { rank < count_by is_named self.now.slots }
        ensures { (names : List (List ℕ)) → AreNamesIn self.now.slots names → slice_get names rank ≡ Some result.now }
    {
        self.slots[self.order[rank] as usize].name_bytes()
    }

    /// Whether there is no name.
    pub fn is_empty(&self) -> bool
        ensures { IsTrue result ↔ (count_by is_named self.now.slots ≡ 0) }
    {
        self.order.is_empty()
    }

    /// The dentry with the lowest name above this one, in byte order.
    pub fn next_name(&self, after: &[u8]) -> Option<Dentry>
        ensures next { IfSome result (IsNextName self.now after.now) }
        ensures none { IfNone result (IsLastName self.now after.now) }
    {
        let rank = next_rank(self.slots.as_slice(), self.order.as_slice(), after);
        if rank == self.order.len() {
            return None;
        }
        Some(self.slots[self.order[rank] as usize])
    }

    /// Whether the block is one of the directory's.
    pub fn has_block(&self, block: u32) -> bool
        ensures { result ≡ has_block self.now.blocks block }
    {
        self.blocks.iter().any(|b| *b == block)
    }

    /// The directory's blocks, in order.
    pub fn blocks(&self) -> &[u32]
        ensures blocks { result.now ≡ self.now.blocks }
        ensures whole { IsDirectory self.now }
    {
        self.blocks.as_slice()
    }

    /// Whether the slot is a free one of the directory's.
    pub fn is_free(&self, slot: Slot) -> bool
        ensures { IsTrue result ↔ IsFreeSlot self.now slot }
    {
        let before = index_of(self.blocks.as_slice(), slot.sector / 8);
        if slot.slot >= 8 || before >= self.blocks.len() {
            return false;
        }
        self.slots[self.place_of(slot)].name_bytes().is_empty()
    }

    /// Writes the bytes of the block that stands at this place of the list. Takes no memory.
    pub fn block_bytes(&self, index: usize, buf: &mut [u8])
        requires there { index < length self.now.blocks }
        requires sized { length buf.old ≡ 4096 }
        ensures { buf.new ≡ bytes_of_block self.now.slots index }
    {
        put_slots(
            buf,
            &self.slots[index * SLOTS_PER_BLOCK..(index + 1) * SLOTS_PER_BLOCK],
        );
    }

    /// The block comes behind the others, with 64 free slots. All memory that its names will need is taken here.
    pub fn add_block(&mut self, block: u32) -> Result<(), Memory>
        requires below { block < MAX_BLOCKS }
        requires absent { has_block self.old.blocks block ≡ false }
        ensures whole { IsDirectory self.new }
        ensures ok { OnOk result (self.new ≡ record { blocks = self.old.blocks ++ block ∷ []; slots = self.old.slots ++ replicate SLOTS_PER_BLOCK free_slot }) }
        ensures names { (name : List ℕ) → entry_of self.new.slots name ≡ entry_of self.old.slots name }
        ensures err { OnErr result (self.new ≡ self.old) }
    {
        let slots = self.slots.len() + SLOTS_PER_BLOCK;
        self.blocks.reserve(1)?;
        self.slots.reserve(SLOTS_PER_BLOCK)?;
        self.order.reserve(slots - self.order.len())?;
        self.free.reserve(slots - self.free.len())?;
        self.blocks.push(block).unwrap();
        put_block(&mut self.free, self.slots.len() as u32);
        self.slots.resize(slots, free_dentry()).unwrap();
        Ok(())
    }

    /// The directory with a further block that has these bytes. A fault drops the directory.
    pub fn with_block(self, block: u32, bytes: &[u8]) -> Result<DirBlocks, BlockFault>
        requires below { block < MAX_BLOCKS }
        requires absent { has_block self.blocks block ≡ false }
        requires sized { length bytes.now ≡ 4096 }
        ensures ok { IfOk result (IsReadSoFar self block bytes.now SLOTS_PER_BLOCK) }
        ensures bytes { IfOk result (λ d. bytes_of_block d.slots (length self.blocks) ≡ bytes.now) }
        ensures fault { IfErr result (IsBlockFault self block bytes.now) }
    {
        let mut dir = self;
        let first = dir.slots.len();
        if dir.add_block(block).is_err() {
            return Err(BlockFault::NoMemory);
        }
        for k in 0..SLOTS_PER_BLOCK {
            let read = dir.read_slot(first + k, &bytes[SLOT * k..SLOT * k + SLOT]);
            if let Err(fault) = read {
                return Err(BlockFault::BadSlot(k as u8, fault));
            }
        }
        Ok(dir)
    }

    /// Takes the lowest free slot: that of the first block that has one. Takes no memory.
    pub fn insert(&mut self, dentry: Dentry) -> Result<Slot, NoSlot>
        requires form { IsTrue (is_dentry dentry) }
        requires named { IsTrue (is_named dentry) }
        requires absent { entry_of self.old.slots dentry.name ≡ None }
        ensures whole { IsDirectory self.new }
        ensures lowest { IfOk result (IsLowestFree self.old) }
        ensures placed { IfOk result (λ s. self.new ≡ with_entry self.old s dentry) }
        ensures names { OnOk result (SetsName self.old self.new dentry.name (Some dentry)) }
        ensures full { is_err result ≡ list_all is_named self.old.slots }
        ensures err { OnErr result (self.new ≡ self.old) }
    {
        let Some(&lowest) = self.free.last() else {
            return Err(NoSlot);
        };
        let place = lowest as usize;
        let slot = self.slot_at(place);
        self.fill(place, dentry);
        Ok(slot)
    }

    /// Puts the dentry into this slot. Takes no memory; looks at each block's number.
    pub fn place(&mut self, slot: Slot, dentry: Dentry)
        requires form { IsTrue (is_dentry dentry) }
        requires named { IsTrue (is_named dentry) }
        requires free { IsFreeSlot self.old slot }
        requires absent { entry_of self.old.slots dentry.name ≡ None }
        ensures placed { self.new ≡ with_entry self.old slot dentry }
        ensures names { SetsName self.old self.new dentry.name (Some dentry) }
    {
        let place = self.place_of(slot);
        self.fill(place, dentry);
    }

    /// Frees the slot of the name, and tells which it is. Takes no memory.
    pub fn remove(&mut self, name: &[u8]) -> Slot
        requires { IsSome (entry_of self.old.slots name.now) }
        ensures whole { IsDirectory self.new }
        ensures slot { IsSlotOf self.old name.now result }
        ensures was { entry_of self.old.slots name.now ≡ Some (entry_in self.old result) }
        ensures freed { self.new ≡ with_entry self.old result free_slot }
        ensures names { SetsName self.old self.new name.now None }
    {
        let Ok(rank) = search(self.slots.as_slice(), self.order.as_slice(), name) else {
            unreachable!()
        };
        let place = self.order[rank];
        let slot = self.slot_at(place as usize);
        let above = places_above(self.free.as_slice(), place);
        self.order.remove(rank);
        self.free.insert(above, place).unwrap();
        self.slots[place as usize] = free_dentry();
        slot
    }

    // The slot at this place.
    fn slot_at(&self, place: usize) -> Slot
        requires { place < length self.now.slots }
        ensures slot { IsSlot self.now result }
        ensures place { place_of self.now.blocks result ≡ place }
    {
        let sector = self.blocks[place / SLOTS_PER_BLOCK] * SECTORS_PER_BLOCK as u32
            + (place % SLOTS_PER_BLOCK / SLOTS_PER_SECTOR) as u32;
        Slot {
            sector,
            slot: (place % 8) as u8,
        }
    }

    // The place of this slot.
    fn place_of(&self, slot: Slot) -> usize
        requires { IsSlot self.now slot }
        ensures { result ≡ place_of self.now.blocks slot }
    {
        let before = index_of(self.blocks.as_slice(), slot.sector / 8);
        before * SLOTS_PER_BLOCK
            + (slot.sector as usize % SECTORS_PER_BLOCK) * SLOTS_PER_SECTOR
            + usize::from(slot.slot)
    }

    // Puts what the bytes are the spelling of into the free slot at this place.
    fn read_slot(&mut self, place: usize, bytes: &[u8]) -> Result<(), SlotFault>
        requires in_range { place < length self.old.slots }
        requires free { is_named (entry_at self.old.slots place) ≡ false }
        requires sized { length bytes.now ≡ SLOT }
        ensures ok { OnOk result (ReadsSlot self.old self.new place bytes.now) }
        ensures whole { IsDirectory self.new }
        ensures fault { IfErr result (IsSlotFault self.old.slots bytes.now) }
        ensures err { OnErr result (self.new ≡ self.old) }
    {
        prove!(place < self.slots.len());
        let Some(entry) = get_dentry(bytes) else {
            return Err(SlotFault::OffForm);
        };
        if entry.name_bytes().is_empty() {
            return Ok(());
        }
        if self.find(entry.name_bytes()).is_some() {
            return Err(SlotFault::NameTwice);
        }
        self.fill(place, entry);
        Ok(())
    }

    // Puts the dentry into the free slot at this place.
    fn fill(&mut self, place: usize, dentry: Dentry)
        requires form { IsTrue (is_dentry dentry) }
        requires named { IsTrue (is_named dentry) }
        requires in_range { place < length self.old.slots }
        requires free { is_named (entry_at self.old.slots place) ≡ false }
        requires absent { entry_of self.old.slots dentry.name ≡ None }
        ensures slots { self.new ≡ record self.old { slots = slice_set self.old.slots place dentry } }
        ensures whole { IsDirectory self.new }
        ensures names { SetsName self.old self.new dentry.name (Some dentry) }
    {
        let name = dentry.name_bytes();
        let Err(rank) = search(self.slots.as_slice(), self.order.as_slice(), name) else {
            unreachable!()
        };
        let number = place as u32;
        let above = places_above(self.free.as_slice(), number);
        self.order.insert(rank, number).unwrap();
        self.free.remove(above);
        self.slots[place] = dentry;
    }
}

fn free_dentry() -> Dentry
    ensures { result ≡ free_slot }
{
    Dentry::from_name(0, 0, &[])
}

// Where the block stands in the list.
fn position_of(blocks: &[u32], block: u32) -> Option<usize>
    ensures { result ≡ position (λ b. b == block) blocks.now }
{
    blocks.iter().position(|b| *b == block)
}

// Where the block stands in the list; its length where it doesn't.
fn index_of(blocks: &[u32], block: u32) -> usize
    ensures { result ≡ position_or_len (λ b. b == block) blocks.now }
{
    position_of(blocks, block).unwrap_or(blocks.len())
}
