// A directory of an image, over its blocks.
ghost use Rattle.std.specs.Prelude.{ℕ, ◌≡◌, ◌<◌, ◌≤◌, ◌+◌, ◌*◌, ◌/◌, ◌%◌, None, Some, true, All, length, map, nat_eq, replicate, slice_get, slice_set, IfOk, if◌then◌else◌};
ghost use Rattle.std.specs.List.{IsDistinct};
ghost use Rattle.ufs_base.specs.declared.sizes.TheConstants.{MAX_BLOCKS};
ghost use Rattle.ufs_dirs.specs.Directory.{entry_at, entry_of};
ghost use Rattle.ufs_extent.specs.Runs as runs;
ghost use Rattle.ufs_image.specs.Nodes as nodes;
ghost use Rattle.ufs_layout.specs.DentryForm.{free_slot, is_dentry, is_named};
ghost use Rattle.ufs_start.specs.Extents.{HasRuns};
ghost use Rattle.ufs_start.specs.Tables.{IsWholeDir};

use crate::extents::extents_in;
use std::alloc::Global;
use ufs_base::Memory;
use ufs_dirs::{DirBlocks, Slot};
use ufs_extent::Extents;
use ufs_layout::{Dentry, Inode};

// A directory with these blocks and no name.
fn bare_dir(alloc: Global, extents: &Extents) -> Result<DirBlocks, Memory>
    requires once { IsDistinct nat_eq (runs.blocks_of extents.now) }
    requires below { All (λ b. b < MAX_BLOCKS) (runs.blocks_of extents.now) }
    ensures blocks { IfOk result (λ d. d.blocks ≡ runs.blocks_of extents.now) }
    ensures slots { IfOk result (λ d. d.slots ≡ replicate (64 * length (runs.blocks_of extents.now)) free_slot) }
{
    let mut dir = DirBlocks::new(alloc);
    for place in 0..extents.block_count() {
        let Some(block) = extents.block_of(place) else {
            unreachable!()
        };
        dir.add_block(block)?;
    }
    Ok(dir)
}

// The slot at this place of a directory, in this block.
fn slot_at(block: u32, place: usize) -> Slot
    requires { block < MAX_BLOCKS }
    ensures sector { result.sector ≡ 8 * block + place % 64 / 8 }
    ensures slot { result.slot ≡ place % 8 }
{
    Slot {
        sector: 8 * block + (place % 64 / 8) as u32,
        slot: (place % 8) as u8,
    }
}

// Puts a dentry into the free slot at this place, where it has a name.
fn put_at(dir: &mut DirBlocks, block: u32, place: usize, dentry: &Dentry)
    requires block { slice_get dir.old.blocks (place / 64) ≡ Some block }
    requires inside { place < length dir.old.slots }
    requires free { entry_at dir.old.slots place ≡ free_slot }
    requires form { is_dentry dentry.now ≡ true }
    requires absent { is_named dentry.now ≡ true → entry_of dir.old.slots dentry.now.name ≡ None }
    ensures blocks { dir.new.blocks ≡ dir.old.blocks }
    ensures slots { dir.new.slots ≡ (if is_named dentry.now then slice_set dir.old.slots place dentry.now else dir.old.slots) }
{
    if dentry.name_bytes().is_empty() {
        return;
    }
    // For the prover alone.
    let _blocks = dir.blocks();
    let slot = slot_at(block, place);
    dir.place(slot, *dentry);
}

// Puts the slots that were read into a directory without names.
fn fill(dir: &mut DirBlocks, extents: &Extents, slots: &[Option<Dentry>])
    requires few { length slots.now ≤ 64 * 4294967295 }
    requires blocks { dir.old.blocks ≡ runs.blocks_of extents.now }
    requires bare { dir.old.slots ≡ replicate (length slots.now) free_slot }
    requires whole { IsWholeDir (runs.blocks_of extents.now) slots.now }
    ensures blocks { dir.new.blocks ≡ dir.old.blocks }
    ensures slots { slots.now ≡ map Some dir.new.slots }
{
    for place in 0..slots.len() {
        let Some(dentry) = &slots[place] else {
            unreachable!()
        };
        let Some(block) = extents.block_of((place / 64) as u32) else {
            unreachable!()
        };
        put_at(dir, block, place, dentry);
    }
}

/// The directory that lies in the blocks of this inode, with what was read of its slots.
pub(crate) fn dir_of(
    alloc: Global,
    form: &Inode,
    slots: &[Option<Dentry>],
) -> Result<DirBlocks, Memory>
    requires runs { HasRuns form.now }
    requires whole { IsWholeDir (nodes.blocks_of form.now) slots.now }
    ensures blocks { IfOk result (λ d. d.blocks ≡ nodes.blocks_of form.now) }
    ensures slots { IfOk result (λ d. slots.now ≡ map Some d.slots) }
{
    let extents = extents_in(alloc, form)?;
    let mut dir = bare_dir(alloc, &extents)?;
    fill(&mut dir, &extents, slots);
    Ok(dir)
}
