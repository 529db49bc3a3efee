ghost use Rattle.std.specs.Prelude.{◌≡◌, ◌==◌, if◌then◌else◌, ◌≤◌, ◌<◌, ◌+◌, ◌*◌, ◌∷◌, ◌++◌, [], ℕ, List, false, length, max, IfSome, IfNone, IfErr, IsTrue, OnOk, OnErr};
ghost use Rattle.std.specs.List.{list_all, AllByRecursion};
ghost use Rattle.ufs_layout.specs.Areas.{IsGeometry, sector_count};
ghost use Rattle.ufs_layout.specs.Records.{is_record};
ghost use Rattle.ufs_layout.specs.declared.records.Committed.{Committed};
ghost use Rattle.ufs_image.specs.Fold.{is_in_range, folded};
ghost use Rattle.ufs_image.specs.Folding.{FitsCommitted};
ghost use Rattle.ufs_disk.specs.Disk.{IsImage};
ghost use Rattle.ufs_disk.specs.Moments.{LeavesOnly, reads};
ghost use Rattle.ufs_base.specs.Faults.{HasCause};
ghost use Rattle.ufs_base.specs.Images.{Image};
ghost use Rattle.ufs_overlay.specs.declared.lists.Numbered.{Numbered};
ghost use Rattle.ufs_overlay.specs.Lists.{lists_of};
ghost use Rattle.ufs_overlay.specs.Over.{AreOf, FoldsAlike, IsHomeSettled, IsHomeWritten, IsStepWritten, rise_above};
ghost use Rattle.ufs_overlay.specs.Steps.{stepped_all};

use crate::adding::put_all;
use crate::lists::{Numbered, SectorLists};
use crate::step::{read_inode, step};
use std::alloc::Global;
use ufs_base::{Memory, SECTOR};
use ufs_disk::{Disk, Fault};
use ufs_image::home_law;
use ufs_layout::{Committed, Geometry, LogRecord};

/// Committed transactions over the home sectors of an image.
#[derive(Drop)]
pub struct Overlay {
    alloc: Global,
    geometry: Geometry,
    lists: SectorLists,
    ghost limits: { IsGeometry geometry },
    ghost each_of_its_sector: { (sector : ℕ) → AreOf geometry sector (lists_of lists sector) },
}

impl Overlay {
    ghost use Rattle.ufs_overlay.specs.Seen.{HasAdded, geometry_of, recorded, room_for};

    /// No transaction. Takes no memory.
    pub fn make(alloc: Global, geometry: &Geometry) -> Overlay
        requires { IsGeometry geometry.now }
        ensures geometry { geometry_of result ≡ geometry.now }
        ensures none { HasAdded result [] }
        ensures room { (sector : ℕ) → room_for result sector ≡ 0 }
    {
        Overlay {
            alloc,
            geometry: *geometry,
            lists: SectorLists::new(alloc),
        }
    }

    /// Adds a transaction behind the others. After want of memory the overlay has those that it had.
    pub fn add(&mut self, committed: &Committed) -> Result<(), Memory>
        requires form { IsTrue (list_all is_record committed.now.records) }
        requires in_range { IsTrue (list_all (is_in_range (geometry_of self.old)) committed.now.records) }
        ensures ok { (added : List Committed) → HasAdded self.old added
            → IsTrue (rise_above 0 (added ++ committed.now ∷ []))
            → OnOk result (HasAdded self.new (added ++ committed.now ∷ [])) }
        ensures err { (added : List Committed) → HasAdded self.old added → OnErr result (HasAdded self.new added) }
        ensures geometry { geometry_of self.new ≡ geometry_of self.old }
        ensures room { (sector : ℕ) → room_for self.new sector ≤ max (room_for self.old sector) (2 * (length (recorded self.old sector) + length committed.now.records)) }
    {
        self.add_records(committed.number, committed.records.as_slice())
    }

    /// Adds the transaction with this number and these records, of which its owner keeps its own.
    pub fn add_records(&mut self, number: u64, records: &[LogRecord]) -> Result<(), Memory>
        requires form { IsTrue (list_all is_record records.now) }
        requires in_range { IsTrue (list_all (is_in_range (geometry_of self.old)) records.now) }
        ensures ok { (added : List Committed) → HasAdded self.old added
            → IsTrue (rise_above 0 (added ++ (record { number = number; records = records.now }) ∷ []))
            → OnOk result (HasAdded self.new (added ++ (record { number = number; records = records.now }) ∷ [])) }
        ensures err { (added : List Committed) → HasAdded self.old added → OnErr result (HasAdded self.new added) }
        ensures geometry { geometry_of self.new ≡ geometry_of self.old }

        // No more memory than for what it had, and for twice the records of a sector.
        ensures room { (sector : ℕ) → room_for self.new sector ≤ max (room_for self.old sector) (2 * (length (recorded self.old sector) + length records.now)) }
    {
        put_all(self.alloc, &mut self.lists, &self.geometry, number, records)
    }

    /// No transaction is left. The home sectors have what they had been added for, and the next epoch is
    /// on the disk for good.
    pub fn empty_after_epoch(&mut self)
        ensures none { HasAdded self.new [] }
        ensures room { (sector : ℕ) → room_for self.new sector ≡ 0 }
        ensures geometry { geometry_of self.new ≡ geometry_of self.old }
    {
        self.lists = SectorLists::new(self.alloc);
    }

    /// The home sector under the transactions. After a fault `buf` may hold anything.
    pub fn value<D: Disk>(&self, disk: &mut D, sector: u32, buf: &mut [u8]) -> Result<(), Fault>
        requires inside { sector < D.size disk.old }
        requires sized { length buf.old ≡ 512 }
        ensures value { IsTrue D.visible → (added : List Committed) → HasAdded self.now added → OnOk result
            (buf.new ≡ folded (geometry_of self.now) added (reads (D.moments disk.old)) sector) }
        ensures content { IsTrue D.visible → reads (D.moments disk.new) ≡ reads (D.moments disk.old) }
        ensures crash { IsTrue D.visible → LeavesOnly D.keeps (IsImage (D.moments disk.old).state)
            (D.moments disk.old) (D.moments disk.new) }
        ensures size { D.size disk.new ≡ D.size disk.old }
        ensures cause { HasCause (D.faults disk.old) (D.faults disk.new) result }
        ensures fault { IfErr result (λ fault. fault.number ≡ D.faults disk.new) }
    {
        disk.read(sector, buf)?;
        step_all(buf, self.lists.at(sector));
        Ok(())
    }

    /// The bytes of a home sector become what the transactions leave of them.
    pub fn apply(&self, sector: u32, buf: &mut [u8])
        requires sized { length buf.old ≡ 512 }
        ensures { (added : List Committed) (image : Image) → HasAdded self.now added → buf.old ≡ image sector
            → buf.new ≡ folded (geometry_of self.now) added image sector }
    {
        step_all(buf, self.lists.at(sector));
    }

    // The lowest sector of the image, from this one on, that a transaction may change.
    fn next_touched(&self, from: u32) -> Option<u32>
        ensures within { IfSome result (λ sector. (from ≤ sector) × (sector < sector_count (geometry_of self.now))) }
        ensures least { IfSome result (λ sector. (k : ℕ) → from ≤ k → k < sector → recorded self.now k ≡ []) }
        ensures none { IfNone result ((k : ℕ) → from ≤ k → recorded self.now k ≡ []) }
    {
        let sector = self.lists.next_from(from)?;
        if sector < 8 * self.geometry.blocks {
            Some(sector)
        } else {
            None
        }
    }

    // Writes one sector home, if a transaction changes it.
    fn write_sector<D: Disk>(&self, disk: &mut D, sector: u32) -> Result<(), Fault>
        requires inside { sector < D.size disk.old }
        ensures ok { IsTrue D.visible → (added : List Committed) → HasAdded self.now added → OnOk result
            ((k : ℕ) → reads (D.moments disk.new) k ≡ (if k == sector then folded (geometry_of self.now) added (reads (D.moments disk.old)) k else reads (D.moments disk.old) k)) }
        ensures crash { IsTrue D.visible → (added : List Committed) → HasAdded self.now added
            → LeavesOnly D.keeps (IsStepWritten (geometry_of self.now) added sector (D.moments disk.old).state)
            (D.moments disk.old) (D.moments disk.new) }
        ensures size { D.size disk.new ≡ D.size disk.old }
        ensures cause { HasCause (D.faults disk.old) (D.faults disk.new) result }
        ensures fault { IfErr result (λ fault. fault.number ≡ D.faults disk.new) }
    {
        if self.lists.at(sector).is_empty() {
            return Ok(());
        }
        let mut bytes = [0; SECTOR];
        self.value(disk, sector, &mut bytes)?;
        disk.write(sector, &bytes)
    }

    /// Writes each sector home that a transaction changes.
    pub fn write_home<D: Disk>(&self, disk: &mut D) -> Result<(), Fault>
        requires { sector_count (geometry_of self.now) ≤ D.size disk.old }
        ensures ok { IsTrue D.visible → (added : List Committed) → HasAdded self.now added → OnOk result
            ((k : ℕ) → reads (D.moments disk.new) k ≡ folded (geometry_of self.now) added (reads (D.moments disk.old)) k) }

        // Where each sector that is written was settled, a crash leaves at each moment what it might have
        // left before, with some sectors as the transactions leave them.
        ensures crash { IsTrue D.visible → (added : List Committed) → HasAdded self.now added
            → IsHomeSettled (geometry_of self.now) added (D.moments disk.old).state
            → LeavesOnly D.keeps (IsHomeWritten (geometry_of self.now) added (D.moments disk.old).state)
            (D.moments disk.old) (D.moments disk.new) }

        // So whatever a crash leaves folds to what it folded to before.
        ensures folds { IsTrue D.visible → (added : List Committed) → HasAdded self.now added → AllByRecursion FitsCommitted added
            → IsHomeSettled (geometry_of self.now) added (D.moments disk.old).state
            → LeavesOnly D.keeps (FoldsAlike (geometry_of self.now) added (D.moments disk.old).state)
            (D.moments disk.old) (D.moments disk.new) }
        ensures size { D.size disk.new ≡ D.size disk.old }
        ensures cause { HasCause (D.faults disk.old) (D.faults disk.new) result }
        ensures fault { IfErr result (λ fault. fault.number ≡ D.faults disk.new) }
    {
        home_law(&self.geometry);
        let mut at = 0;
        while let Some(sector) = self.next_touched(at) {
            self.write_sector(disk, sector)?;
            at = sector + 1;
        }
        Ok(())
    }
}

// Changes a sector as these records have it.
fn step_all(sector: &mut [u8], records: &[Numbered])
    requires sized { length sector.old ≡ 512 }
    requires form { IsTrue (list_all (λ (n : Numbered). is_record n.change) records.now) }
    ensures { sector.new ≡ stepped_all 0 false records.now sector.old }
{
    let mut last = 0;
    let mut is_newer = false;
    for numbered in records {
        if numbered.number != last {
            is_newer = read_inode(sector).number < numbered.number;
            last = numbered.number;
        }
        step(sector, is_newer, numbered.number, &numbered.change);
    }
}
