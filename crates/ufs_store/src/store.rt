ghost use Rattle.std.specs.Prelude.{ℕ, List, ◌≡◌, ◌≢◌, ◌≤◌, ◌<◌, ◌+◌, ◌-◌, ◌⊎◌, ◌↔◌, IsTrue, true, false, None, Some, Ok, Err, OnOk, OnErr, IfErr, IfOk, ◌^◌};
ghost use Rattle.ufs_base.specs.declared.lack.Lack.{Lack};
ghost use Rattle.ufs_disk.specs.Disk.{IsImage};
ghost use Rattle.ufs_disk.specs.Moments.{LeavesOnly, reads};
ghost use Rattle.ufs_ilog.specs.Deltas.{IsDelta};
ghost use Rattle.ufs_layout.specs.Areas.{IsGeometry, first_of_data, is_inode_number, sector_count};
ghost use Rattle.ufs_layout.specs.Superblock.{geometry_of, is_super};
ghost use Rattle.ufs_layout.specs.declared.records.LogRecord.{LogRecord};
ghost use Rattle.ufs_ledger.specs.Changes.{opening_ledger, settled};
ghost use Rattle.ufs_ledger.specs.Ledger.{IsLedgerOf, IsLeftBy, Ledger};
ghost use Rattle.ufs_store.specs.Ends.{IsLackOf, IsMemory};
ghost use Rattle.ufs_store.specs.Ledgers.{HasAny, HasLedger, IsLeftByAny, MayCommitNext, after_commit, checkpointed, stages};
ghost use Rattle.ufs_store.specs.Mounting.{IsMountable, in_use, marking};
ghost use Rattle.ufs_store.specs.Numbers.{HasRaised};
ghost use Rattle.ufs_store.specs.Refusals.{IsTold, fault_in, fault_of, is_no_space, is_own, stop_after};
ghost use Rattle.ufs_store.specs.State.{geometry_of_store};
ghost use Rattle.ufs_store.specs.Tables.{state_of};
ghost use Rattle.ufs_store.specs.declared.fault.StoreFault.TheVariants as refusal;

use crate::blocks::{give_runs, move_all, move_lowest};
use crate::commits::commit;
use crate::homes::begin_next;
use crate::superblocks::mark_in_use;
use crate::tables::{Tables, stop_at};
use crate::{Door, StoreFault, Uncommitted, Unmounted};
use std::alloc::Global;
use ufs_base::Lack;
use ufs_bitmap::{Bitmap, Pool};
use ufs_disk::Disk;
use ufs_extent::Runs;
use ufs_ilog::{InodeLog, NamesLog};
use ufs_layout::{Geometry, Super};
use ufs_ledger::{read_data, settle, write_data};

// The blocks that a pool gets besides those that are missing.
const MORE: u32 = 64;

/// A disk with its journal, what is committed in it and not yet home, and the blocks that nobody has.
#[derive(Drop)]
pub struct Store<D: Disk> {
    disk: D,
    tables: Tables,
    ghost large: { sector_count tables.journal.geometry ≤ D.size disk },
}

impl<D: Disk> Store<D> {
    /// Takes a disk with this superblock, on which all that is committed is home, and marks its image in
    /// use. `free` has the blocks that nobody has.
    pub fn mount(
        alloc: Global,
        mut disk: D,
        superblock: Super,
        free: Bitmap,
    ) -> Result<Store<D>, Unmounted<D>>
        requires limits { IsGeometry (geometry_of superblock) }
        requires form { IsTrue (is_super 1 superblock) }
        requires large { sector_count (geometry_of superblock) ≤ D.size disk }
        requires first { free.first ≡ first_of_data (geometry_of superblock) }
        requires blocks { free.blocks ≡ superblock.blocks }
        ensures crash { IsTrue D.visible → IsMountable (D.size disk) (D.moments disk).state superblock
            → IfOk result (λ s. LeavesOnly D.keeps (IsLeftBy (D.size disk) (marking superblock (reads (D.moments disk)))) (D.moments disk) (⟦<Store<D> as Door>⟧.store s).moments) }
        ensures err_crash { IsTrue D.visible → IsMountable (D.size disk) (D.moments disk).state superblock
            → IfErr result (λ u. ((w : Lack) → u.fault ≢ refusal.Lack w) → LeavesOnly D.keeps (IsLeftBy (D.size disk) (marking superblock (reads (D.moments disk)))) (D.moments disk) (D.moments u.disk)) }
        ensures ok { IsTrue D.visible → IsMountable (D.size disk) (D.moments disk).state superblock
            → IfOk result (λ s. HasLedger (⟦<Store<D> as Door>⟧.store s) (opening_ledger (in_use superblock) (reads (D.moments disk)))) }
        ensures going { IfOk result (λ s. (⟦<Store<D> as Door>⟧.store s).stop ≡ None) }
        ensures settled { IfOk result (λ s. (⟦<Store<D> as Door>⟧.store s).unsettled ≡ false) }
        ensures unassigned { IfOk result (λ s. (⟦<Store<D> as Door>⟧.store s).unassigned ≡ free) }
        ensures geometry { IfOk result (λ s. geometry_of_store (⟦<Store<D> as Door>⟧.store s) ≡ geometry_of superblock) }
        ensures number { IfOk result (λ s. (⟦<Store<D> as Door>⟧.store s).journal.number ≡ superblock.next) }
        ensures superblock { IfOk result (λ s. (⟦<Store<D> as Door>⟧.store s).superblock ≡ in_use superblock) }
        ensures size { IfOk result (λ s. (⟦<Store<D> as Door>⟧.store s).sectors ≡ D.size disk) }
        ensures err_size { IfErr result (λ u. D.size u.disk ≡ D.size disk) }
        ensures passed { IfOk result (λ s. (⟦<Store<D> as Door>⟧.store s).faults ≡ D.faults disk) }
        ensures cause { IfErr result (λ u. IsTold (D.faults disk) (D.faults u.disk) (fault_of u.fault)) }
        ensures refused { IfErr result (λ u. IsTrue (is_own u.fault)) }
        ensures memory { IfErr result (λ u. (w : Lack) → u.fault ≡ refusal.Lack w → u.disk ≡ disk) }
        ensures lack { IfErr result (λ u. (w : Lack) → u.fault ≡ refusal.Lack w → IsMemory w) }
    {
        let superblock = Super {
            clean: false,
            ..superblock
        };
        let tables = match Tables::make(alloc, &superblock, free) {
            Ok(tables) => tables,
            Err(memory) => {
                return Err(Unmounted {
                    disk,
                    fault: StoreFault::Lack(Lack::Memory(memory)),
                });
            }
        };
        match mark_in_use(&mut disk, &tables.journal.geometry, &superblock) {
            Ok(()) => Ok(Store { disk, tables }),
            Err(fault) => Err(Unmounted {
                disk,
                fault: StoreFault::Device {
                    fault: fault.number,
                },
            }),
        }
    }

    /// Ends a store and gives its disk back. Makes no call of the disk.
    pub fn into_disk(self) -> D
        ensures moments { D.moments result ≡ (⟦<Store<D> as Door>⟧.store self).moments }
        ensures faults { D.faults result ≡ (⟦<Store<D> as Door>⟧.store self).faults }
        ensures size { D.size result ≡ (⟦<Store<D> as Door>⟧.store self).sectors }
    {
        self.disk
    }
}

fn check_stop(tables: &Tables) -> Result<(), StoreFault>
    ensures going { OnOk result (tables.now.stop ≡ None) }
    ensures stopped { IfErr result (λ fault. (number : ℕ) × (tables.now.stop ≡ Some number) × (fault ≡ refusal.Stopped number)) }
{
    match tables.stop {
        Some(fault) => Err(StoreFault::Stopped { fault }),
        None => Ok(()),
    }
}

// Waits for what was written since the last barrier, if anything was.
fn pass_barrier<D: Disk>(tables: &mut Tables, disk: &mut D) -> Result<(), StoreFault>
    requires going { tables.old.stop ≡ None }
    ensures crash { IsTrue D.visible → (l : Ledger) → HasLedger (state_of (D.size disk.old) (D.moments disk.old) (D.faults disk.old) tables.old) l → LeavesOnly D.keeps (IsLeftBy (D.size disk.old) l) (D.moments disk.old) (D.moments disk.new) }
    ensures images { IsTrue D.visible → LeavesOnly D.keeps (IsImage (D.moments disk.old).state) (D.moments disk.old) (D.moments disk.new) }
    ensures ok { IsTrue D.visible → OnOk result ((l : Ledger) → HasLedger (state_of (D.size disk.old) (D.moments disk.old) (D.faults disk.old) tables.old) l → HasLedger (state_of (D.size disk.new) (D.moments disk.new) (D.faults disk.new) tables.new) (settled l)) }
    ensures err { IsTrue D.visible → OnErr result ((l : Ledger) → HasLedger (state_of (D.size disk.old) (D.moments disk.old) (D.faults disk.old) tables.old) l → IsLedgerOf (D.size disk.new) (D.moments disk.new).state l) }
    ensures nothing { tables.old.unsettled ≡ false → (D.moments disk.new ≡ D.moments disk.old) × (D.faults disk.new ≡ D.faults disk.old) }
    ensures idle { tables.old.unsettled ≡ false → state_of (D.size disk.new) (D.moments disk.new) (D.faults disk.new) tables.new ≡ state_of (D.size disk.old) (D.moments disk.old) (D.faults disk.old) tables.old }
    ensures rest { state_of (D.size disk.new) (D.moments disk.new) (D.faults disk.new) tables.new
        ≡ record (state_of (D.size disk.old) (D.moments disk.old) (D.faults disk.old) tables.old) { moments = D.moments disk.new; faults = D.faults disk.new; unsettled = tables.new.unsettled; stop = tables.new.stop } }
    ensures number { tables.new.journal ≡ tables.old.journal }
    ensures blocks { tables.new.unassigned ≡ tables.old.unassigned }
    ensures size { D.size disk.new ≡ D.size disk.old }
    ensures cause { IsTold (D.faults disk.old) (D.faults disk.new) (fault_in result) }
    ensures stop { tables.new.stop ≡ fault_in result }
    ensures settled { OnOk result (tables.new.unsettled ≡ false) }
    ensures unsettled { OnErr result (tables.new.unsettled ≡ tables.old.unsettled) }
    ensures refused { IfErr result (λ fault. fault ≡ refusal.Device (D.faults disk.new)) }
{
    if !tables.unsettled {
        return Ok(());
    }
    match settle(disk) {
        Ok(()) => {
            tables.unsettled = false;
            Ok(())
        }
        Err(fault) => Err(stop_at(&mut tables.stop, fault)),
    }
}

// Commits what a file's log has, or waits for what was written, and answers the last commit number.
fn commit_delta<D: Disk>(
    tables: &mut Tables,
    disk: &mut D,
    log: &mut InodeLog,
) -> Result<u64, StoreFault>
    requires large { sector_count tables.old.journal.geometry ≤ D.size disk.old }
    requires inode { is_inode_number tables.old.journal.geometry log.old.inode ≡ true }
    ensures crash { IsTrue D.visible → (records : List LogRecord) → IsDelta log.old.inode log.old.committed log.old.noted records → log.old.noted ≢ log.old.committed → (l : Ledger) → HasLedger (state_of (D.size disk.old) (D.moments disk.old) (D.faults disk.old) tables.old) l → MayCommitNext (state_of (D.size disk.old) (D.moments disk.old) (D.faults disk.old) tables.old) records l
        → LeavesOnly D.keeps (IsLeftByAny (D.size disk.old) (stages (state_of (D.size disk.old) (D.moments disk.old) (D.faults disk.old) tables.old) records l)) (D.moments disk.old) (D.moments disk.new) }
    ensures ok { IsTrue D.visible → (records : List LogRecord) → IsDelta log.old.inode log.old.committed log.old.noted records → log.old.noted ≢ log.old.committed
        → OnOk result ((l : Ledger) → HasLedger (state_of (D.size disk.old) (D.moments disk.old) (D.faults disk.old) tables.old) l → MayCommitNext (state_of (D.size disk.old) (D.moments disk.old) (D.faults disk.old) tables.old) records l → HasLedger (state_of (D.size disk.new) (D.moments disk.new) (D.faults disk.new) tables.new) (after_commit (state_of (D.size disk.old) (D.moments disk.old) (D.faults disk.old) tables.old) records l)) }
    ensures device { IsTrue D.visible → (records : List LogRecord) → IsDelta log.old.inode log.old.committed log.old.noted records → log.old.noted ≢ log.old.committed
        → (fault : ℕ) → result ≡ Err (refusal.Device fault) → (l : Ledger) → HasLedger (state_of (D.size disk.old) (D.moments disk.old) (D.faults disk.old) tables.old) l → MayCommitNext (state_of (D.size disk.old) (D.moments disk.old) (D.faults disk.old) tables.old) records l → HasAny (state_of (D.size disk.new) (D.moments disk.new) (D.faults disk.new) tables.new) (stages (state_of (D.size disk.old) (D.moments disk.old) (D.faults disk.old) tables.old) records l) }
    ensures memory { IsTrue D.visible → (w : Lack) → result ≡ Err (refusal.Lack w) → (l : Ledger) → HasLedger (state_of (D.size disk.old) (D.moments disk.old) (D.faults disk.old) tables.old) l → HasLedger (state_of (D.size disk.new) (D.moments disk.new) (D.faults disk.new) tables.new) l ⊎ HasLedger (state_of (D.size disk.new) (D.moments disk.new) (D.faults disk.new) tables.new) (checkpointed (state_of (D.size disk.old) (D.moments disk.old) (D.faults disk.old) tables.old) l) }
    ensures lack { (w : Lack) → result ≡ Err (refusal.Lack w) → IsLackOf (state_of (D.size disk.old) (D.moments disk.old) (D.faults disk.old) tables.old) w }
    ensures at_end { log.old.noted ≢ log.old.committed → tables.old.stop ≡ None → tables.old.journal.number ≡ 2 ^ 64 - 1 → IfErr result (λ fault. (w : Lack) × (fault ≡ refusal.Lack w)) }
    ensures empty_crash { IsTrue D.visible → log.old.noted ≡ log.old.committed → (l : Ledger) → HasLedger (state_of (D.size disk.old) (D.moments disk.old) (D.faults disk.old) tables.old) l → LeavesOnly D.keeps (IsLeftBy (D.size disk.old) l) (D.moments disk.old) (D.moments disk.new) }
    ensures empty_images { IsTrue D.visible → log.old.noted ≡ log.old.committed → LeavesOnly D.keeps (IsImage (D.moments disk.old).state) (D.moments disk.old) (D.moments disk.new) }
    ensures empty_ok { IsTrue D.visible → log.old.noted ≡ log.old.committed → OnOk result ((l : Ledger) → HasLedger (state_of (D.size disk.old) (D.moments disk.old) (D.faults disk.old) tables.old) l → HasLedger (state_of (D.size disk.new) (D.moments disk.new) (D.faults disk.new) tables.new) (settled l)) }
    ensures empty_err { IsTrue D.visible → log.old.noted ≡ log.old.committed → OnErr result ((l : Ledger) → HasLedger (state_of (D.size disk.old) (D.moments disk.old) (D.faults disk.old) tables.old) l → IsLedgerOf (D.size disk.new) (D.moments disk.new).state l) }
    ensures nothing { log.old.noted ≡ log.old.committed → tables.old.unsettled ≡ false → (D.moments disk.new ≡ D.moments disk.old) × (D.faults disk.new ≡ D.faults disk.old) }
    ensures number { IfOk result (λ number. number ≡ tables.new.journal.number - 1) }
    ensures rises { log.old.noted ≢ log.old.committed → OnOk result (tables.new.journal.number ≡ tables.old.journal.number + 1) }
    ensures stays { log.old.noted ≡ log.old.committed → tables.new.journal.number ≡ tables.old.journal.number }
    ensures raised { HasRaised 1 1 (state_of (D.size disk.old) (D.moments disk.old) (D.faults disk.old) tables.old) (state_of (D.size disk.new) (D.moments disk.new) (D.faults disk.new) tables.new) }
    ensures emptied { OnOk result (log.new ≡ record log.old { committed = log.old.noted }) }
    ensures kept { OnErr result (log.new ≡ log.old) }
    ensures blocks { tables.new.unassigned ≡ tables.old.unassigned }
    ensures geometry { tables.new.journal.geometry ≡ tables.old.journal.geometry }
    ensures size { D.size disk.new ≡ D.size disk.old }
    ensures stopped { (fault : ℕ) → (result ≡ Err (refusal.Stopped fault)) ↔ (tables.old.stop ≡ Some fault) }
    ensures still { (fault : ℕ) → tables.old.stop ≡ Some fault → (state_of (D.size disk.new) (D.moments disk.new) (D.faults disk.new) tables.new) ≡ (state_of (D.size disk.old) (D.moments disk.old) (D.faults disk.old) tables.old) }
    ensures cause { IsTold (D.faults disk.old) (D.faults disk.new) (fault_in result) }
    ensures stop { tables.new.stop ≡ stop_after tables.old.stop (fault_in result) }
    ensures settled { OnOk result (tables.new.unsettled ≡ false) }
    ensures unset { tables.old.unsettled ≡ false → tables.new.unsettled ≡ false }
    ensures idle { log.old.noted ≡ log.old.committed → tables.old.unsettled ≡ false → state_of (D.size disk.new) (D.moments disk.new) (D.faults disk.new) tables.new ≡ state_of (D.size disk.old) (D.moments disk.old) (D.faults disk.old) tables.old }
    ensures refused { IfErr result (λ fault. is_no_space fault ≡ false) }
{
    check_stop(tables)?;
    match log.delta()? {
        Some(records) => {
            let number = commit(tables, disk, &records)?;
            log.cleared();
            Ok(number)
        }
        None => {
            pass_barrier(tables, disk)?;
            Ok(tables.journal.number - 1)
        }
    }
}

impl<D: Disk> Door for Store<D> {
    ghost use Rattle.ufs_store.specs.Tables.{state_of};

    ghost visible = { D.visible };

    ghost keeps = { D.keeps };

    ghost stamps = { ⊥ };

    ghost allows = { λ image. ⊥ };

    ghost store = { λ s. state_of (D.size s.disk) (D.moments s.disk) (D.faults s.disk) s.tables };

    fn geometry(&self) -> Geometry {
        self.tables.journal.geometry
    }

    fn stopped(&self) -> Option<u64> {
        self.tables.stop
    }

    fn read_block(&mut self, block: u32, buf: &mut [u8]) -> Result<(), StoreFault> {
        match read_data(&mut self.disk, block, buf) {
            Ok(()) => Ok(()),
            Err(fault) => Err(StoreFault::Device {
                fault: fault.number,
            }),
        }
    }

    fn write_block(&mut self, block: u32, bytes: &[u8]) -> Result<(), StoreFault> {
        check_stop(&self.tables)?;
        match write_data(&mut self.disk, block, bytes) {
            Ok(()) => {
                self.tables.unsettled = true;
                Ok(())
            }
            Err(fault) => Err(stop_at(&mut self.tables.stop, fault)),
        }
    }

    fn settle(&mut self) -> Result<(), StoreFault> {
        check_stop(&self.tables)?;
        pass_barrier(&mut self.tables, &mut self.disk)
    }

    fn commit_names(&mut self, log: &mut NamesLog) -> Result<u64, StoreFault> {
        check_stop(&self.tables)?;
        if log.records().as_slice().is_empty() {
            return Ok(self.tables.journal.number - 1);
        }
        let number = commit(&mut self.tables, &mut self.disk, log.records())?;
        log.cleared();
        Ok(number)
    }

    fn commit_file(&mut self, log: &mut InodeLog, freed: Runs) -> Result<u64, Uncommitted> {
        match commit_delta(&mut self.tables, &mut self.disk, log) {
            Ok(number) => {
                give_runs(&mut self.tables.unassigned, &freed);
                Ok(number)
            }
            Err(fault) => Err(Uncommitted { freed, fault }),
        }
    }

    fn give_pool(&mut self, pool: &mut Pool, missing: u32) -> Result<(), StoreFault> {
        let had = self.tables.unassigned.count();
        if had < missing {
            return Err(StoreFault::NoSpace { need: missing, had });
        }
        let want = missing + (had - missing).min(MORE);
        move_lowest(&mut self.tables.unassigned, pool, want);
        Ok(())
    }

    fn take_back(&mut self, pool: &mut Pool) {
        move_all(pool, &mut self.tables.unassigned);
    }

    fn checkpoint(&mut self) -> Result<(), StoreFault> {
        check_stop(&self.tables)?;
        begin_next(&mut self.tables, &mut self.disk)
    }

    ghost whole = { λ visible s. D.whole visible s.disk };

    ghost sees = { λ stamped. absurd stamped };
}
