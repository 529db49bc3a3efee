// A transaction's records, put into the lists of their sectors.
ghost use Rattle.std.specs.Prelude.{◌≡◌, ◌++◌, ◌≤◌, ◌+◌, ◌*◌, ℕ, List, length, max, IfOk, IsTrue, OnOk, OnErr};
ghost use Rattle.std.specs.List.{list_all};
ghost use Rattle.ufs_layout.specs.Areas.{IsGeometry, sector_of_inode, is_inode_number};
ghost use Rattle.ufs_image.specs.Fold.{is_in_range};
ghost use Rattle.ufs_overlay.specs.declared.lists.Numbered.{Numbered};
ghost use Rattle.ufs_overlay.specs.Lists.{lists_of, room_in, with_more};
ghost use Rattle.ufs_overlay.specs.Over.{numbered_of, sector_of_record};

use crate::lists::{Numbered, SectorLists};
use std::alloc::Global;
use ufs_base::Memory;
use ufs_layout::{ExtentList, Geometry, LogRecord};

fn inode_sector(geometry: &Geometry, inode: u32) -> u32
    requires limits { IsGeometry geometry.now }
    requires in_range { IsTrue (is_inode_number geometry.now inode) }
    ensures { result ≡ sector_of_inode geometry.now inode }
{
    8 * (1 + (geometry.blocks + 32_767) / 32_768) + (inode - 1)
}

fn sector_of(geometry: &Geometry, change: &LogRecord) -> u32
    requires limits { IsGeometry geometry.now }
    requires in_range { IsTrue (is_in_range geometry.now change.now) }
    ensures { result ≡ sector_of_record geometry.now change.now }
{
    match change {
        LogRecord::Delta { inode, .. } => inode_sector(geometry, *inode),
        LogRecord::Place { sector, .. } => *sector,
        LogRecord::Free { inode } => inode_sector(geometry, *inode),
    }
}

fn copied(alloc: Global, change: &LogRecord) -> Result<LogRecord, Memory>
    ensures { IfOk result (λ copy. copy ≡ change.now) }
{
    match change {
        LogRecord::Delta {
            inode,
            kind,
            size,
            keep,
            extents,
        } => {
            let extents = Vec::from_slice(alloc, extents.as_slice())?;
            Ok(LogRecord::Delta {
                inode: *inode,
                kind: *kind,
                size: *size,
                keep: *keep,
                extents: ExtentList::from_vec(extents),
            })
        }
        LogRecord::Place {
            sector,
            slot,
            dentry,
        } => Ok(LogRecord::Place {
            sector: *sector,
            slot: *slot,
            dentry: *dentry,
        }),
        LogRecord::Free { inode } => Ok(LogRecord::Free { inode: *inode }),
    }
}

fn put_one(
    alloc: Global,
    lists: &mut SectorLists,
    geometry: &Geometry,
    number: u64,
    change: &LogRecord,
) -> Result<(), Memory>
    requires limits { IsGeometry geometry.now }
    requires in_range { IsTrue (is_in_range geometry.now change.now) }
    ensures ok { OnOk result ((k : ℕ) → lists_of lists.new k ≡ with_more (sector_of_record geometry.now change.now) (record { number = number; change = change.now }) (lists_of lists.old) k) }
    ensures err { OnErr result ((k : ℕ) → lists_of lists.new k ≡ lists_of lists.old k) }
    ensures room { (k : ℕ) → room_in lists.new k ≤ max (room_in lists.old k) (2 * length (lists_of lists.old k) + 1) }
{
    let change_copy = copied(alloc, change)?;
    let sector = sector_of(geometry, change);
    lists.push(
        sector,
        Numbered {
            number,
            change: change_copy,
        },
    )
}

// Takes back the records that were put last.
fn take_back(lists: &mut SectorLists, geometry: &Geometry, records: &[LogRecord])
    requires limits { IsGeometry geometry.now }
    requires in_range { IsTrue (list_all (is_in_range geometry.now) records.now) }
    ensures room { (k : ℕ) → room_in lists.new k ≡ room_in lists.old k }
    ensures without { (number : ℕ) (before : ℕ → List Numbered) → ((k : ℕ) → lists_of lists.old k ≡ before k ++ numbered_of geometry.now k number records.now) → (k : ℕ) → lists_of lists.new k ≡ before k }
{
    for done in 0..records.len() {
        let last = records.len() - 1 - done;
        lists.pop(sector_of(geometry, &records[last]));
    }
}

/// Puts the records of a transaction behind the others of their sectors. After want of memory all lists
/// are as before.
pub fn put_all(
    alloc: Global,
    lists: &mut SectorLists,
    geometry: &Geometry,
    number: u64,
    records: &[LogRecord],
) -> Result<(), Memory>
    requires limits { IsGeometry geometry.now }
    requires in_range { IsTrue (list_all (is_in_range geometry.now) records.now) }
    ensures ok { OnOk result ((k : ℕ) → lists_of lists.new k ≡ lists_of lists.old k ++ numbered_of geometry.now k number records.now) }
    ensures err { OnErr result ((k : ℕ) → lists_of lists.new k ≡ lists_of lists.old k) }

    // A list has room for what it had, or for twice as many records as it may have now.
    ensures room { (k : ℕ) → room_in lists.new k ≤ max (room_in lists.old k) (2 * (length (lists_of lists.old k) + length records.now)) }
{
    for at in 0..records.len() {
        if let Err(memory) = put_one(alloc, lists, geometry, number, &records[at]) {
            take_back(lists, geometry, &records[..at]);
            return Err(memory);
        }
    }
    Ok(())
}
