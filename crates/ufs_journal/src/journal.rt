ghost use Rattle.std.specs.Prelude.{◌≡◌, ◌≢◌, ◌≤◌, ◌<◌, ◌+◌, ◌-◌, ◌^◌, ◌++◌, ◌∷◌, [], ℕ, List, length, IsTrue, IsSome, IfOk, IfErr, OnOk, OnErr, None, min};
ghost use Rattle.std.specs.List.{list_all};
ghost use Rattle.ufs_disk.specs.Disk.{State, Leaves, IsSettled};
ghost use Rattle.ufs_disk.specs.Moments.{LeavesOnly, reads};
ghost use Rattle.ufs_base.specs.Faults.{HasCause};
ghost use Rattle.ufs_layout.specs.Areas.{IsGeometry, sector_count};
ghost use Rattle.ufs_image.specs.Fold.{is_in_range};
ghost use Rattle.ufs_layout.specs.Records.{is_record};
ghost use Rattle.ufs_layout.specs.declared.records.LogRecord.{LogRecord};
ghost use Rattle.ufs_layout.specs.Filled.{sector_count_of};
ghost use Rattle.ufs_journal.specs.Found.{AgreeOffJournal};
ghost use Rattle.ufs_journal.specs.Opened.{opened_of, without_txn, is_placed, rises};
ghost use Rattle.ufs_journal.specs.Kept.{HasEarlier, IsReady, IsUnused, IsOpen, CanApply};
ghost use Rattle.ufs_journal.specs.Written.{IsAppended, IsMaybeCommitted, CommitsOne};

use crate::open_list::{OpenList, Opened};
use crate::writes::{write_commit, write_records};
use std::alloc::{AllocError, Global};
use ufs_disk::{Disk, Fault};
use ufs_layout::{Geometry, Records, Super};

/// The write side of a journal in one epoch.
///
/// After a fault of `append` or `commit` the journal is as before, and contracts say nothing more of what
/// later calls do to images: whoever holds it makes no more of them.
#[derive(Drop)]
pub struct Journal {
    pub geometry: Geometry,
    pub epoch: u64,
    /// The places that are given out, those of commits to come included.
    pub used: u32,
    /// The next commit number.
    pub number: u64,
    pub opened: OpenList,
    ghost taken: { IsGeometry geometry },
    ghost inside: { used ≤ geometry.journal },
    ghost few: { length opened ≤ used },
    ghost placed: { IsTrue (list_all (is_placed used) opened) },
    ghost rising: { IsTrue (rises opened) },
}

impl Journal {
    /// The journal of the superblock's epoch. It takes the memory of all later calls.
    pub fn make(
        alloc: Global,
        geometry: &Geometry,
        superblock: &Super,
    ) -> Result<Journal, AllocError>
        requires { IsGeometry geometry.now }
        ensures geometry { IfOk result (λ j. j.geometry ≡ geometry.now) }
        ensures epoch { IfOk result (λ j. j.epoch ≡ superblock.now.epoch) }
        ensures number { IfOk result (λ j. j.number ≡ superblock.now.next) }
        ensures used { IfOk result (λ j. j.used ≡ 0) }
        ensures opened { IfOk result (λ j. j.opened ≡ []) }

        // A disk on which each sector of the journal has an earlier epoch.
        ensures ready { (state : State) → Leaves (HasEarlier geometry.now superblock.now.epoch) state → IsReady geometry.now superblock.now.epoch 0 superblock.now.next state }
        ensures unused { (state : State) → Leaves (HasEarlier geometry.now superblock.now.epoch) state → (txn : ℕ) → IsUnused geometry.now superblock.now.epoch txn state }
    {
        Ok(Journal {
            geometry: *geometry,
            epoch: superblock.epoch,
            used: 0,
            number: superblock.next,
            opened: OpenList::make(alloc)?,
        })
    }

    /// The free sectors. An append takes one for the commit besides those of its records.
    pub fn room(&self) -> u32
        ensures { result + self.now.used ≡ self.now.geometry.journal }
    {
        self.geometry.journal - self.used
    }

    /// Goes on in a later epoch, whose superblock is on the disk for good, with the whole journal. Commit
    /// numbers go on.
    pub fn restart(&mut self, epoch: u64)
        requires later { self.old.epoch < epoch }
        requires settled { self.old.opened ≡ [] }
        ensures same { (self.new.geometry ≡ self.old.geometry) × (self.new.number ≡ self.old.number) × (self.new.opened ≡ []) }
        ensures epoch { self.new.epoch ≡ epoch }
        ensures used { self.new.used ≡ 0 }
        ensures ready { (state : State) → IsReady self.old.geometry self.old.epoch self.old.used self.old.number state
            → IsReady self.new.geometry epoch 0 self.new.number state }
        ensures unused { (state : State) → IsReady self.old.geometry self.old.epoch self.old.used self.old.number state
            → (txn : ℕ) → IsUnused self.new.geometry epoch txn state }
    {
        self.epoch = epoch;
        self.used = 0;
    }

    /// Writes the records of a transaction behind what is used, and keeps a place for its commit. Until
    /// that is written they count for nothing.
    pub fn append<D: Disk>(
        &mut self,
        disk: &mut D,
        txn: u32,
        records: &Records,
    ) -> Result<(), Fault>
        requires large { sector_count self.old.geometry ≤ D.size disk.old }
        requires txn { 1 ≤ txn }
        requires new { opened_of txn self.old.opened ≡ None }
        requires form { IsTrue (list_all is_record records.now) }
        requires inside { IsTrue (list_all (is_in_range self.old.geometry) records.now) }
        requires room { self.old.used + sector_count_of records.now < self.old.geometry.journal }
        ensures same { (self.new.geometry ≡ self.old.geometry) × (self.new.epoch ≡ self.old.epoch) × (self.new.number ≡ self.old.number) }
        ensures used { OnOk result (self.new.used ≡ self.old.used + sector_count_of records.now + 1) }
        ensures opened { OnOk result (self.new.opened ≡ self.old.opened ++ record { txn = txn; place = self.old.used + sector_count_of records.now; count = sector_count_of records.now } ∷ []) }
        ensures err { OnErr result ((self.new.used ≡ self.old.used) × (self.new.opened ≡ self.old.opened)) }

        // At each moment, also of a call that fails, an image says what one from before did.
        ensures crash { IsTrue D.visible → IsReady self.old.geometry self.old.epoch self.old.used self.old.number (D.moments disk.old).state
            → IsUnused self.old.geometry self.old.epoch txn (D.moments disk.old).state
            → LeavesOnly D.keeps (IsAppended self.old.geometry self.old.epoch (D.moments disk.old).state) (D.moments disk.old) (D.moments disk.new) }
        ensures ready { IsTrue D.visible → IsReady self.old.geometry self.old.epoch self.old.used self.old.number (D.moments disk.old).state
            → IsUnused self.old.geometry self.old.epoch txn (D.moments disk.old).state
            → OnOk result (IsReady self.old.geometry self.old.epoch self.new.used self.old.number (D.moments disk.new).state) }
        ensures open { IsTrue D.visible → IsReady self.old.geometry self.old.epoch self.old.used self.old.number (D.moments disk.old).state
            → IsUnused self.old.geometry self.old.epoch txn (D.moments disk.old).state
            → OnOk result (IsOpen self.old.geometry self.old.epoch self.new.opened txn records.now (D.moments disk.new).state) }
        ensures unused { IsTrue D.visible → IsReady self.old.geometry self.old.epoch self.old.used self.old.number (D.moments disk.old).state
            → IsUnused self.old.geometry self.old.epoch txn (D.moments disk.old).state
            → (other : ℕ) → other ≢ txn → IsUnused self.old.geometry self.old.epoch other (D.moments disk.old).state
            → IsUnused self.old.geometry self.old.epoch other (D.moments disk.new).state }
        ensures others { IsTrue D.visible → IsReady self.old.geometry self.old.epoch self.old.used self.old.number (D.moments disk.old).state
            → IsUnused self.old.geometry self.old.epoch txn (D.moments disk.old).state
            → OnOk result ((other : ℕ) (held : List LogRecord) → other ≢ txn → IsOpen self.old.geometry self.old.epoch self.old.opened other held (D.moments disk.old).state
            → IsOpen self.old.geometry self.old.epoch self.new.opened other held (D.moments disk.new).state) }
        ensures elsewhere { IsTrue D.visible → AgreeOffJournal self.old.geometry (reads (D.moments disk.new)) (reads (D.moments disk.old)) }
        ensures size { D.size disk.new ≡ D.size disk.old }
        ensures cause { HasCause (D.faults disk.old) (D.faults disk.new) result }
        ensures fault { IfErr result (λ fault. fault.number ≡ D.faults disk.new) }
    {
        let geometry = self.geometry;
        let count = write_records(
            disk,
            &geometry,
            self.used,
            self.epoch,
            txn,
            records.as_slice(),
        )?;
        let place = self.used + count;
        self.used = place + 1;
        self.opened.push(Opened { txn, place, count });
        Ok(())
    }

    /// Commits a transaction that is appended: waits for all that was written, writes the commit and
    /// waits for it. Gives the commit number. At Ok each crash from then on leaves the transaction.
    pub fn commit<D: Disk>(&mut self, disk: &mut D, txn: u32) -> Result<u64, Fault>
        requires large { sector_count self.old.geometry ≤ D.size disk.old }
        requires open { opened_of txn self.old.opened ≡ None → ⊥ }
        ensures same { (self.new.geometry ≡ self.old.geometry) × (self.new.epoch ≡ self.old.epoch) × (self.new.used ≡ self.old.used) }
        ensures number { IfOk result (λ number. number ≡ self.old.number) }
        ensures next { OnOk result (self.new.number ≡ min (self.old.number + 1) (2 ^ 64 - 1)) }
        ensures opened { OnOk result (self.new.opened ≡ without_txn txn self.old.opened) }
        ensures err { OnErr result ((self.new.number ≡ self.old.number) × (self.new.opened ≡ self.old.opened)) }

        // At each moment, also of a call that fails, an image says what one from before did, or commits
        // the transaction besides.
        ensures crash { IsTrue D.visible → IsReady self.old.geometry self.old.epoch self.old.used self.old.number (D.moments disk.old).state
            → (records : List LogRecord) → IsOpen self.old.geometry self.old.epoch self.old.opened txn records (D.moments disk.old).state
            → CanApply self.old.geometry self.old.epoch self.old.number records (reads (D.moments disk.old))
            → LeavesOnly D.keeps (IsMaybeCommitted self.old.geometry self.old.epoch (record { number = self.old.number; records = records }) (D.moments disk.old).state)
            (D.moments disk.old) (D.moments disk.new) }
        ensures settled { IsTrue D.visible → OnOk result (IsSettled (D.moments disk.new).state) }
        ensures committed { IsTrue D.visible → IsReady self.old.geometry self.old.epoch self.old.used self.old.number (D.moments disk.old).state
            → (records : List LogRecord) → IsOpen self.old.geometry self.old.epoch self.old.opened txn records (D.moments disk.old).state
            → CanApply self.old.geometry self.old.epoch self.old.number records (reads (D.moments disk.old))
            → OnOk result (CommitsOne self.old.geometry self.old.epoch (record { number = self.old.number; records = records }) (reads (D.moments disk.old)) (reads (D.moments disk.new))) }
        ensures ready { IsTrue D.visible → IsReady self.old.geometry self.old.epoch self.old.used self.old.number (D.moments disk.old).state
            → (records : List LogRecord) → IsOpen self.old.geometry self.old.epoch self.old.opened txn records (D.moments disk.old).state
            → self.old.number < 2 ^ 64 - 1
            → OnOk result (IsReady self.old.geometry self.old.epoch self.old.used self.new.number (D.moments disk.new).state) }
        ensures unused { IsTrue D.visible → (records : List LogRecord) → IsOpen self.old.geometry self.old.epoch self.old.opened txn records (D.moments disk.old).state
            → (other : ℕ) → other ≢ txn → IsUnused self.old.geometry self.old.epoch other (D.moments disk.old).state
            → IsUnused self.old.geometry self.old.epoch other (D.moments disk.new).state }
        ensures others { IsTrue D.visible → (records : List LogRecord) → IsOpen self.old.geometry self.old.epoch self.old.opened txn records (D.moments disk.old).state
            → OnOk result ((other : ℕ) (held : List LogRecord) → other ≢ txn → IsOpen self.old.geometry self.old.epoch self.old.opened other held (D.moments disk.old).state
            → IsOpen self.old.geometry self.old.epoch self.new.opened other held (D.moments disk.new).state) }
        ensures elsewhere { IsTrue D.visible → AgreeOffJournal self.old.geometry (reads (D.moments disk.new)) (reads (D.moments disk.old)) }
        ensures size { D.size disk.new ≡ D.size disk.old }
        ensures cause { HasCause (D.faults disk.old) (D.faults disk.new) result }
        ensures fault { IfErr result (λ fault. fault.number ≡ D.faults disk.new) }
    {
        let geometry = self.geometry;
        let Some(one) = self.opened.get(txn) else {
            unreachable!()
        };
        let number = self.number;
        write_commit(
            disk,
            &geometry,
            one.place,
            self.epoch,
            txn,
            one.count as u16,
            number,
        )?;
        self.opened.remove(txn);
        self.number = number.saturating_add(1);
        Ok(number)
    }
}
