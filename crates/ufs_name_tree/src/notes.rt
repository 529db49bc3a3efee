// What the notes of a tree's names are told of a change.
ghost use Rattle.std.specs.Prelude.{◌≡◌, ◌⊎◌, ◌<◌, ◌≤◌, ◌++◌, ◌∷◌, [], All, Err, None, Some, IfErr, IfOk, IfSome, IsTrue, OnErr, OnOk, length};
ghost use Rattle.std.specs.List.{list_all};
ghost use Rattle.ufs_base.specs.declared.sizes.TheConstants.{MAX_BLOCKS};
ghost use Rattle.ufs_layout.specs.DentryForm.{free_slot, is_dentry};
ghost use Rattle.ufs_layout.specs.Records.{is_record};
ghost use Rattle.ufs_layout.specs.declared.records.LogRecord.TheVariants.{Free};
ghost use Rattle.ufs_dir_tree.specs.DirTable.{IsDirTable};
ghost use Rattle.ufs_dir_tree.specs.Space.{extents_of};
ghost use Rattle.ufs_ilog.specs.Changes.{in_order, is_in_order};
ghost use Rattle.ufs_ilog.specs.Deltas as log;
ghost use Rattle.ufs_ilog.specs.Notes.{IsLostFor, IsNotedWhole};
ghost use Rattle.ufs_base.specs.declared.lack.Lack.TheVariants as lack;
ghost use Rattle.ufs_name_tree.specs.Records.{added_noted, born_noted, cleared_noted, dir_delta, grown_noted, moved_noted, replaced_noted, slot_noted};

use std::alloc::Global;
use ufs_base::{BLOCK, Lack, Memory};
use ufs_dir_tree::{Added, DirTree, Found, Moved};
use ufs_dirs::Slot;
use ufs_extent::{Extents, Run};
use ufs_ilog::{Change, NameNotes, extents_from};
use ufs_layout::{Dentry, ExtentList, LogRecord};

/// The kind of a file's inode.
pub(crate) const FILE: u8 = 1;

/// The kind of a directory's inode.
pub(crate) const DIRECTORY: u8 = 2;

// Each answers for want of what the notes are lost, if they are.

/// An inode that was born and got its name, in a directory that may have taken a block for it.
pub(crate) fn note_added(
    notes: &mut NameNotes,
    dirs: &DirTree,
    dir: u32,
    added: Added,
    dentry: Dentry,
) -> Result<(), Lack>
    requires table { IsDirTable dirs.now }
    requires slot { added.slot.slot < 8 }
    requires form { IsTrue (is_dentry dentry) }
    requires kind { (dentry.kind ≡ 1) ⊎ (dentry.kind ≡ 2) }
    ensures whole { OnOk result (IsNotedWhole notes.old notes.new (in_order (added_noted dirs.now dir added.grown added.slot dentry))) }
    ensures lack { IfErr result (IsLostFor notes.old (in_order (added_noted dirs.now dir added.grown added.slot dentry))) }
    ensures none { OnErr result (notes.new ≡ None) }
{
    let Some(alloc) = notes.alloc() else {
        return Ok(());
    };
    match added_change(alloc, dirs, dir, added, dentry) {
        Ok(change) => notes.note(change),
        Err(memory) => lose(notes, memory),
    }
}

/// A name that went, with the inode of a directory that it stood for.
pub(crate) fn note_removed(
    notes: &mut NameNotes,
    slot: Slot,
    found: Option<Found>,
) -> Result<(), Lack>
    requires slot { slot.slot < 8 }
    ensures whole { OnOk result (IsNotedWhole notes.old notes.new (in_order (cleared_noted slot found))) }
    ensures lack { IfErr result (IsLostFor notes.old (in_order (cleared_noted slot found))) }
    ensures none { OnErr result (notes.new ≡ None) }
{
    let Some(alloc) = notes.alloc() else {
        return Ok(());
    };
    match removed_change(alloc, slot, found) {
        Ok(change) => notes.note(change),
        Err(memory) => lose(notes, memory),
    }
}

/// A dentry that moved to another slot, and `found`, which had its name before.
pub(crate) fn note_moved(
    notes: &mut NameNotes,
    dirs: &DirTree,
    dir: u32,
    moved: Moved,
    found: Option<Found>,
    dentry: Dentry,
) -> Result<(), Lack>
    requires table { IsDirTable dirs.now }
    requires left { moved.left.slot < 8 }
    requires taken { moved.taken.slot < 8 }
    requires dropped { IfSome moved.dropped (λ slot. slot.slot < 8) }
    requires form { IsTrue (is_dentry dentry) }
    ensures whole { OnOk result (IsNotedWhole notes.old notes.new (in_order (moved_noted dirs.now dir moved found dentry))) }
    ensures lack { IfErr result (IsLostFor notes.old (in_order (moved_noted dirs.now dir moved found dentry))) }
    ensures none { OnErr result (notes.new ≡ None) }
{
    let Some(alloc) = notes.alloc() else {
        return Ok(());
    };
    match moved_change(alloc, dirs, dir, moved, found, dentry) {
        Ok(change) => notes.note(change),
        Err(memory) => lose(notes, memory),
    }
}

/// A file's inode that is free.
pub(crate) fn note_freed(notes: &mut NameNotes, inode: u32) -> Result<(), Lack>
    ensures whole { OnOk result (IsNotedWhole notes.old notes.new (Free inode ∷ [])) }
    ensures lack { IfErr result (IsLostFor notes.old (Free inode ∷ [])) }
    ensures none { OnErr result (notes.new ≡ None) }
{
    let Some(alloc) = notes.alloc() else {
        return Ok(());
    };
    match freed_change(alloc, inode) {
        Ok(change) => notes.note(change),
        Err(memory) => lose(notes, memory),
    }
}

/// Keeps for want of what the notes were lost, if they were.
pub(crate) fn keep_lack(lost: &mut Option<Lack>, noted: Result<(), Lack>)
    ensures kept { OnOk noted (lost.new ≡ lost.old) }
    ensures lack { IfErr noted (λ lack. lost.new ≡ Some lack) }
{
    if let Err(lack) = noted {
        *lost = Some(lack);
    }
}

// All that was noted is lost, for want of this memory.
fn lose(notes: &mut NameNotes, memory: Memory) -> Result<(), Lack>
    ensures none { notes.new ≡ None }
    ensures told { result ≡ Err (lack.Memory memory) }
{
    let lack = Lack::Memory(memory);
    notes.lose(lack);
    Err(lack)
}

// ---- changes

fn added_change(
    alloc: Global,
    dirs: &DirTree,
    dir: u32,
    added: Added,
    dentry: Dentry,
) -> Result<Change, Memory>
    requires table { IsDirTable dirs.now }
    requires slot { added.slot.slot < 8 }
    requires form { IsTrue (is_dentry dentry) }
    requires kind { (dentry.kind ≡ 1) ⊎ (dentry.kind ≡ 2) }
    ensures records { IfOk result (λ c. c.records ≡ in_order (added_noted dirs.now dir added.grown added.slot dentry)) }
    ensures form { IfOk result (λ c. IsTrue (list_all is_record c.records)) }
    ensures order { IfOk result (λ c. IsTrue (is_in_order c.records)) }
{
    let mut records = Vec::new(alloc);
    note_grown(alloc, &mut records, dirs, dir, added.grown)?;
    note_born(alloc, &mut records, dentry.inode, dentry.kind)?;
    note_slot(&mut records, added.slot, dentry)?;
    Change::in_order(alloc, records)
}

fn removed_change(alloc: Global, slot: Slot, found: Option<Found>) -> Result<Change, Memory>
    requires slot { slot.slot < 8 }
    ensures records { IfOk result (λ c. c.records ≡ in_order (cleared_noted slot found)) }
    ensures form { IfOk result (λ c. IsTrue (list_all is_record c.records)) }
    ensures order { IfOk result (λ c. IsTrue (is_in_order c.records)) }
{
    let mut records = Vec::new(alloc);
    note_cleared(&mut records, slot, found)?;
    Change::in_order(alloc, records)
}

fn moved_change(
    alloc: Global,
    dirs: &DirTree,
    dir: u32,
    moved: Moved,
    found: Option<Found>,
    dentry: Dentry,
) -> Result<Change, Memory>
    requires table { IsDirTable dirs.now }
    requires left { moved.left.slot < 8 }
    requires taken { moved.taken.slot < 8 }
    requires dropped { IfSome moved.dropped (λ slot. slot.slot < 8) }
    requires form { IsTrue (is_dentry dentry) }
    ensures records { IfOk result (λ c. c.records ≡ in_order (moved_noted dirs.now dir moved found dentry)) }
    ensures form { IfOk result (λ c. IsTrue (list_all is_record c.records)) }
    ensures order { IfOk result (λ c. IsTrue (is_in_order c.records)) }
{
    let mut records = Vec::new(alloc);
    note_replaced(&mut records, moved.dropped, found)?;
    note_grown(alloc, &mut records, dirs, dir, moved.grown)?;
    note_slot(&mut records, moved.left, free_dentry())?;
    note_slot(&mut records, moved.taken, dentry)?;
    Change::in_order(alloc, records)
}

fn freed_change(alloc: Global, inode: u32) -> Result<Change, Memory>
    ensures records { IfOk result (λ c. c.records ≡ Free inode ∷ []) }
    ensures form { IfOk result (λ c. IsTrue (list_all is_record c.records)) }
    ensures order { IfOk result (λ c. IsTrue (is_in_order c.records)) }
{
    let mut records = Vec::new(alloc);
    records.push(LogRecord::Free { inode })?;
    Change::in_order(alloc, records)
}

// ---- their records, step by step

// A directory that took a block is told whole.
fn note_grown(
    alloc: Global,
    records: &mut Vec<LogRecord>,
    dirs: &DirTree,
    dir: u32,
    grown: Option<u32>,
) -> Result<(), Memory>
    requires table { IsDirTable dirs.now }
    requires form { IsTrue (list_all is_record records.old.items) }
    ensures records { OnOk result (records.new.items ≡ records.old.items ++ grown_noted dirs.now dir grown) }
    ensures form { OnOk result (IsTrue (list_all is_record records.new.items)) }
{
    if grown.is_some() {
        records.push(dir_record(alloc, dir, dirs.blocks(dir))?)?;
    }
    Ok(())
}

// An inode that has nothing yet.
fn note_born(
    alloc: Global,
    records: &mut Vec<LogRecord>,
    inode: u32,
    kind: u8,
) -> Result<(), Memory>
    requires kind { (kind ≡ 1) ⊎ (kind ≡ 2) }
    requires form { IsTrue (list_all is_record records.old.items) }
    ensures records { OnOk result (records.new.items ≡ records.old.items ++ born_noted inode kind ∷ []) }
    ensures form { OnOk result (IsTrue (list_all is_record records.new.items)) }
{
    records.push(LogRecord::Delta {
        inode,
        kind,
        size: 0,
        keep: 0,
        extents: ExtentList::from_vec(Vec::new(alloc)),
    })?;
    Ok(())
}

fn note_slot(records: &mut Vec<LogRecord>, slot: Slot, dentry: Dentry) -> Result<(), Memory>
    requires slot { slot.slot < 8 }
    requires dentry { IsTrue (is_dentry dentry) }
    requires form { IsTrue (list_all is_record records.old.items) }
    ensures records { OnOk result (records.new.items ≡ records.old.items ++ slot_noted slot dentry ∷ []) }
    ensures form { OnOk result (IsTrue (list_all is_record records.new.items)) }
{
    records.push(LogRecord::Place {
        sector: slot.sector,
        slot: slot.slot,
        dentry,
    })?;
    Ok(())
}

// A name that goes, with the inode of a directory that it stood for.
fn note_cleared(
    records: &mut Vec<LogRecord>,
    slot: Slot,
    found: Option<Found>,
) -> Result<(), Memory>
    requires slot { slot.slot < 8 }
    requires form { IsTrue (list_all is_record records.old.items) }
    ensures records { OnOk result (records.new.items ≡ records.old.items ++ cleared_noted slot found) }
    ensures form { OnOk result (IsTrue (list_all is_record records.new.items)) }
{
    note_slot(records, slot, free_dentry())?;
    if let Some(Found::Dir { inode }) = found {
        records.push(LogRecord::Free { inode })?;
    }
    Ok(())
}

// The same of a name that gave place to another, where there was one.
fn note_replaced(
    records: &mut Vec<LogRecord>,
    dropped: Option<Slot>,
    found: Option<Found>,
) -> Result<(), Memory>
    requires slot { IfSome dropped (λ slot. slot.slot < 8) }
    requires form { IsTrue (list_all is_record records.old.items) }
    ensures records { OnOk result (records.new.items ≡ records.old.items ++ replaced_noted dropped found) }
    ensures form { OnOk result (IsTrue (list_all is_record records.new.items)) }
{
    match dropped {
        Some(slot) => note_cleared(records, slot, found),
        None => Ok(()),
    }
}

// A directory with these blocks. The record keeps no extent and gives all.
fn dir_record(alloc: Global, dir: u32, blocks: &[u32]) -> Result<LogRecord, Memory>
    requires below { All (λ b. b < MAX_BLOCKS) blocks.now }
    requires few { length (extents_of blocks.now) ≤ 56 }
    requires count { length blocks.now ≤ MAX_BLOCKS }
    ensures value { IfOk result (λ r. r ≡ dir_delta dir blocks.now) }
    ensures form { IfOk result (λ r. IsTrue (is_record r)) }
{
    let runs = runs_of(alloc, blocks)?;
    Ok(LogRecord::Delta {
        inode: dir,
        kind: DIRECTORY,
        size: BLOCK as u64 * blocks.len() as u64,
        keep: 0,
        extents: extents_from(alloc, runs.as_slice())?,
    })
}

// The extents that the blocks lie in.
fn runs_of(alloc: Global, blocks: &[u32]) -> Result<Extents, Memory>
    requires below { All (λ b. b < MAX_BLOCKS) blocks.now }
    requires few { length (extents_of blocks.now) ≤ 56 }
    ensures { IfOk result (λ runs. runs ≡ extents_of blocks.now) }
{
    let mut runs = Extents::make(alloc)?;
    for block in blocks {
        let run = Run {
            start: *block,
            length: 1,
        };
        match runs.append(run) {
            Ok(()) => {}
            Err(_) => unreachable!(),
        }
    }
    Ok(runs)
}

// What stands in a slot that no name has.
fn free_dentry() -> Dentry
    ensures { result ≡ free_slot }
{
    Dentry::from_name(0, 0, &[])
}
