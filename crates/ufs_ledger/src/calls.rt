// What a store does to its disk, told by the ledger.
ghost use Rattle.std.specs.Prelude.{ℕ, ◌≡◌, ◌≢◌, ◌≤◌, ◌<◌, ◌+◌, ◌-◌, ◌*◌, ◌^◌, ◌⊎◌, [], List, length, IsTrue, false, None, Some, OnOk, OnErr, IfOk, IfErr, min};
ghost use Rattle.std.specs.List.{list_all};
ghost use Rattle.ufs_base.specs.Faults.{HasCause};
ghost use Rattle.ufs_base.specs.declared.sizes.TheConstants.{BLOCK, SECTORS_PER_BLOCK};
ghost use Rattle.ufs_disk.specs.Disk.{IsImage, IsPartlyWritten, IsSettled};
ghost use Rattle.ufs_disk.specs.Moments.{LeavesOnly, reads};
ghost use Rattle.ufs_layout.specs.Areas.{first_of_data, first_of_inodes, sector_count};
ghost use Rattle.ufs_layout.specs.Records.{is_record};
ghost use Rattle.ufs_layout.specs.Superblock.{geometry_of, is_super, super_of};
ghost use Rattle.ufs_layout.specs.declared.geometry.Geometry.{Geometry};
ghost use Rattle.ufs_layout.specs.declared.records.Committed.{Committed};
ghost use Rattle.ufs_image.specs.Fold.{is_in_range};
ghost use Rattle.ufs_image.specs.Images.{block_at};
ghost use Rattle.ufs_layout.specs.Filled.{sector_count_of};
ghost use Rattle.ufs_journal.specs.Kept.{IsReady, IsUnused};
ghost use Rattle.ufs_overlay.specs.Seen as overlaid;
ghost use Rattle.ufs_ledger.specs.Ledger.{IsDataBlock, is_held, Ledger, IsLeftBy, IsLedgerOf};
ghost use Rattle.ufs_ledger.specs.Data.{KeepsData};
ghost use Rattle.ufs_ledger.specs.Changes.{beginning, committed_one, committing, emptied, home_of, settled, tried, written};
ghost use Rattle.ufs_ledger.specs.Laws.{MayWrite};
ghost use Rattle.ufs_ledger.specs.Committing.{IsLedgerBy, MayGoOn};

use ufs_base::SECTOR;
use ufs_disk::{Disk, Fault};
use ufs_image::fold_law;
use ufs_journal::Journal;
use ufs_layout::{Records, Super, put_super};
use ufs_overlay::Overlay;

/// Writes a block of the data area in which no dentries are spelled. The bytes are those of a whole
/// block. After a fault each of its sectors has its new content or not.
pub fn write_data<D: Disk>(disk: &mut D, block: u32, bytes: &[u8]) -> Result<(), Fault>
    requires inside { SECTORS_PER_BLOCK * block + SECTORS_PER_BLOCK ≤ D.size disk.old }
    requires sized { length bytes.now ≡ BLOCK }
    ensures crash { IsTrue D.visible → (l : Ledger) → IsLedgerOf (D.size disk.old) (D.moments disk.old).state l → l.maybe ≡ None → l.superblock.clean ≡ false → MayWrite l block bytes.now
        → LeavesOnly D.keeps (IsLeftBy (D.size disk.old) (written block bytes.now l)) (D.moments disk.old) (D.moments disk.new) }
    ensures images { IsTrue D.visible → LeavesOnly D.keeps (IsPartlyWritten (SECTORS_PER_BLOCK * block) bytes.now (D.moments disk.old).state) (D.moments disk.old) (D.moments disk.new) }
    ensures ok { IsTrue D.visible → OnOk result ((l : Ledger) → IsLedgerOf (D.size disk.old) (D.moments disk.old).state l → l.maybe ≡ None → l.superblock.clean ≡ false → MayWrite l block bytes.now
        → IsLedgerOf (D.size disk.new) (D.moments disk.new).state (written block bytes.now l)) }
    ensures err { IsTrue D.visible → OnErr result ((l : Ledger) → IsLedgerOf (D.size disk.old) (D.moments disk.old).state l → l.maybe ≡ None → l.superblock.clean ≡ false → MayWrite l block bytes.now
        → IsLedgerOf (D.size disk.new) (D.moments disk.new).state (tried block bytes.now (block_at (reads (D.moments disk.new)) block) l)) }
    ensures ready { IsTrue D.visible → (g : Geometry) (epoch used number : ℕ) → first_of_data g ≤ block → IsReady g epoch used number (D.moments disk.old).state → IsReady g epoch used number (D.moments disk.new).state }
    ensures unused { IsTrue D.visible → (g : Geometry) (epoch txn : ℕ) → first_of_data g ≤ block → IsUnused g epoch txn (D.moments disk.old).state → IsUnused g epoch txn (D.moments disk.new).state }
    ensures size { D.size disk.new ≡ D.size disk.old }
    ensures cause { HasCause (D.faults disk.old) (D.faults disk.new) result }
    ensures fault { IfErr result (λ fault. fault.number ≡ D.faults disk.new) }
{
    disk.write(8 * block, bytes)
}

/// Reads a block of the data area. The ledger stays. After a fault `buf` may hold anything.
pub fn read_data<D: Disk>(disk: &mut D, block: u32, buf: &mut [u8]) -> Result<(), Fault>
    requires inside { SECTORS_PER_BLOCK * block + SECTORS_PER_BLOCK ≤ D.size disk.old }
    requires sized { length buf.old ≡ BLOCK }
    ensures bytes { IsTrue D.visible → OnOk result ((l : Ledger) → IsLedgerOf (D.size disk.old) (D.moments disk.old).state l → IsDataBlock (geometry_of l.superblock) block → is_held l.now.log block ≡ false
        → buf.new ≡ (l.blocks block).seen) }
    ensures crash { IsTrue D.visible → (l : Ledger) → IsLedgerOf (D.size disk.old) (D.moments disk.old).state l → LeavesOnly D.keeps (IsLeftBy (D.size disk.old) l) (D.moments disk.old) (D.moments disk.new) }
    ensures images { IsTrue D.visible → LeavesOnly D.keeps (IsImage (D.moments disk.old).state) (D.moments disk.old) (D.moments disk.new) }
    ensures ledger { IsTrue D.visible → (l : Ledger) → IsLedgerOf (D.size disk.old) (D.moments disk.old).state l → IsLedgerOf (D.size disk.new) (D.moments disk.new).state l }
    ensures ready { IsTrue D.visible → (g : Geometry) (epoch used number : ℕ) → IsReady g epoch used number (D.moments disk.old).state → IsReady g epoch used number (D.moments disk.new).state }
    ensures unused { IsTrue D.visible → (g : Geometry) (epoch txn : ℕ) → IsUnused g epoch txn (D.moments disk.old).state → IsUnused g epoch txn (D.moments disk.new).state }
    ensures size { D.size disk.new ≡ D.size disk.old }
    ensures cause { HasCause (D.faults disk.old) (D.faults disk.new) result }
    ensures fault { IfErr result (λ fault. fault.number ≡ D.faults disk.new) }
{
    disk.read(8 * block, buf)
}

/// Waits until all that was written before is on the disk for good.
pub fn settle<D: Disk>(disk: &mut D) -> Result<(), Fault>
    ensures crash { IsTrue D.visible → (l : Ledger) → IsLedgerOf (D.size disk.old) (D.moments disk.old).state l → LeavesOnly D.keeps (IsLeftBy (D.size disk.old) l) (D.moments disk.old) (D.moments disk.new) }
    ensures images { IsTrue D.visible → LeavesOnly D.keeps (IsImage (D.moments disk.old).state) (D.moments disk.old) (D.moments disk.new) }
    ensures ledger { IsTrue D.visible → (l : Ledger) → IsLedgerOf (D.size disk.old) (D.moments disk.old).state l → IsLedgerOf (D.size disk.new) (D.moments disk.new).state l }
    ensures ok { IsTrue D.visible → OnOk result ((l : Ledger) → IsLedgerOf (D.size disk.old) (D.moments disk.old).state l → l.maybe ≡ None → IsLedgerOf (D.size disk.new) (D.moments disk.new).state (settled l)) }
    ensures ready { IsTrue D.visible → (g : Geometry) (epoch used number : ℕ) → IsReady g epoch used number (D.moments disk.old).state → IsReady g epoch used number (D.moments disk.new).state }
    ensures unused { IsTrue D.visible → (g : Geometry) (epoch txn : ℕ) → IsUnused g epoch txn (D.moments disk.old).state → IsUnused g epoch txn (D.moments disk.new).state }
    ensures size { D.size disk.new ≡ D.size disk.old }
    ensures cause { HasCause (D.faults disk.old) (D.faults disk.new) result }
    ensures fault { IfErr result (λ fault. fault.number ≡ D.faults disk.new) }
{
    disk.barrier()
}

/// Commits these records as one transaction, once all that was written before is on the disk for good.
/// Answers its commit number.
pub fn commit_records<D: Disk>(
    journal: &mut Journal,
    disk: &mut D,
    txn: u32,
    records: &Records,
) -> Result<u64, Fault>
    requires large { sector_count journal.old.geometry ≤ D.size disk.old }
    requires txn { 1 ≤ txn }
    requires none { journal.old.opened ≡ [] }
    requires form { IsTrue (list_all is_record records.now) }
    requires in_range { IsTrue (list_all (is_in_range journal.old.geometry) records.now) }
    requires room { journal.old.used + sector_count_of records.now < journal.old.geometry.journal }
    ensures geometry { journal.new.geometry ≡ journal.old.geometry }
    ensures epoch { journal.new.epoch ≡ journal.old.epoch }
    ensures number { IfOk result (λ number. number ≡ journal.old.number) }
    ensures opened { OnOk result (journal.new.opened ≡ []) }

    // A crash leaves what it might have left, or, once all is settled, the transaction too.
    ensures crash { IsTrue D.visible → (l : Ledger) → IsLedgerBy journal.old (D.size disk.old) (D.moments disk.old).state l → MayGoOn journal.old (D.moments disk.old).state l txn records.now
        → LeavesOnly D.keeps (λ image. IsLeftBy (D.size disk.old) l image ⊎ IsLeftBy (D.size disk.old) (committing (record { number = journal.old.number; records = records.now }) (settled l)) image) (D.moments disk.old) (D.moments disk.new) }

    // It has in the blocks of files what it might have had.
    ensures data { IsTrue D.visible → (l : Ledger) → IsLedgerBy journal.old (D.size disk.old) (D.moments disk.old).state l → MayGoOn journal.old (D.moments disk.old).state l txn records.now
        → LeavesOnly D.keeps (KeepsData journal.old.geometry l.now.log (D.moments disk.old).state) (D.moments disk.old) (D.moments disk.new) }
    ensures ok { IsTrue D.visible → OnOk result ((l : Ledger) → IsLedgerBy journal.old (D.size disk.old) (D.moments disk.old).state l → MayGoOn journal.old (D.moments disk.old).state l txn records.now
        → IsLedgerOf (D.size disk.new) (D.moments disk.new).state (committed_one (record { number = journal.old.number; records = records.now }) l)) }
    ensures err { IsTrue D.visible → OnErr result ((l : Ledger) → IsLedgerBy journal.old (D.size disk.old) (D.moments disk.old).state l → MayGoOn journal.old (D.moments disk.old).state l txn records.now
        → IsLedgerOf (D.size disk.new) (D.moments disk.new).state l ⊎ IsLedgerOf (D.size disk.new) (D.moments disk.new).state (committing (record { number = journal.old.number; records = records.now }) (settled l))) }

    // The next commit finds what it needs.
    ensures next { IsTrue D.visible → journal.old.number < 2 ^ 64 - 1 → OnOk result ((l : Ledger) → IsLedgerBy journal.old (D.size disk.old) (D.moments disk.old).state l → MayGoOn journal.old (D.moments disk.old).state l txn records.now
        → IsLedgerBy journal.new (D.size disk.new) (D.moments disk.new).state (committed_one (record { number = journal.old.number; records = records.now }) l)) }
    ensures unused { IsTrue D.visible → OnOk result ((l : Ledger) → IsLedgerBy journal.old (D.size disk.old) (D.moments disk.old).state l → MayGoOn journal.old (D.moments disk.old).state l txn records.now
        → (other : ℕ) → other ≢ txn → IsUnused journal.old.geometry journal.old.epoch other (D.moments disk.old).state → IsUnused journal.old.geometry journal.old.epoch other (D.moments disk.new).state) }
    ensures used { OnOk result (journal.new.used ≡ journal.old.used + sector_count_of records.now + 1) }
    ensures rises { OnOk result (journal.new.number ≡ min (journal.old.number + 1) (2 ^ 64 - 1)) }
    ensures used_grows { journal.old.used ≤ journal.new.used }
    ensures number_stays { OnErr result (journal.new.number ≡ journal.old.number) }
    ensures size { D.size disk.new ≡ D.size disk.old }
    ensures cause { HasCause (D.faults disk.old) (D.faults disk.new) result }
    ensures fault { IfErr result (λ fault. fault.number ≡ D.faults disk.new) }
{
    fold_law(&journal.geometry);
    disk.barrier()?;
    journal.append(disk, txn, records)?;
    journal.commit(disk, txn)
}

fn super_sector(superblock: &Super) -> [u8; SECTOR]
    requires { IsTrue (is_super 1 superblock.now) }
    ensures { super_of 1 result ≡ Some superblock.now }
{
    let mut sector = [0; SECTOR];
    put_super(&mut sector, superblock);
    sector
}

/// Writes home all that is committed, and begins the next epoch with this superblock, whose fields but
/// for the epoch and the next commit number are as before. The overlay keeps what it has; after success
/// it may be emptied.
pub fn checkpoint<D: Disk>(
    overlay: &Overlay,
    journal: &mut Journal,
    disk: &mut D,
    superblock: &Super,
) -> Result<(), Fault>
    requires large { sector_count journal.old.geometry ≤ D.size disk.old }
    requires none { journal.old.opened ≡ [] }
    requires form { IsTrue (is_super 1 superblock.now) }
    requires same { geometry_of superblock.now ≡ journal.old.geometry }
    requires over { overlaid.geometry_of overlay.now ≡ journal.old.geometry }
    requires later { journal.old.epoch < superblock.now.epoch }
    requires next { superblock.now.next ≤ journal.old.number }
    requires in_use { superblock.now.clean ≡ false }
    ensures geometry { journal.new.geometry ≡ journal.old.geometry }
    ensures number { journal.new.number ≡ journal.old.number }
    ensures opened { journal.new.opened ≡ [] }
    ensures epoch { OnOk result (journal.new.epoch ≡ superblock.now.epoch) }
    ensures used { OnOk result (journal.new.used ≡ 0) }
    ensures epoch_stays { OnErr result (journal.new.epoch ≡ journal.old.epoch) }
    ensures used_stays { OnErr result (journal.new.used ≡ journal.old.used) }

    // A crash leaves what it might have left, or the same behind the next superblock.
    ensures crash { IsTrue D.visible → (l : Ledger) → IsLedgerBy journal.old (D.size disk.old) (D.moments disk.old).state l → overlaid.HasAdded overlay.now l.now.log
        → LeavesOnly D.keeps (λ image. IsLeftBy (D.size disk.old) l image ⊎ IsLeftBy (D.size disk.old) (beginning superblock.now (block_at (home_of l (reads (D.moments disk.old)))) l) image) (D.moments disk.old) (D.moments disk.new) }

    // It has in the blocks of files what it might have had.
    ensures data { IsTrue D.visible → (l : Ledger) → IsLedgerBy journal.old (D.size disk.old) (D.moments disk.old).state l → overlaid.HasAdded overlay.now l.now.log
        → LeavesOnly D.keeps (KeepsData journal.old.geometry l.now.log (D.moments disk.old).state) (D.moments disk.old) (D.moments disk.new) }
    ensures err { IsTrue D.visible → OnErr result ((l : Ledger) → IsLedgerBy journal.old (D.size disk.old) (D.moments disk.old).state l → overlaid.HasAdded overlay.now l.now.log
        → IsLedgerOf (D.size disk.new) (D.moments disk.new).state l ⊎ IsLedgerOf (D.size disk.new) (D.moments disk.new).state (beginning superblock.now (block_at (home_of l (reads (D.moments disk.old)))) l)) }
    ensures ok { IsTrue D.visible → OnOk result ((l : Ledger) → IsLedgerBy journal.old (D.size disk.old) (D.moments disk.old).state l → overlaid.HasAdded overlay.now l.now.log
        → IsLedgerBy journal.new (D.size disk.new) (D.moments disk.new).state (emptied superblock.now (block_at (home_of l (reads (D.moments disk.old)))) l)) }
    ensures settled { IsTrue D.visible → OnOk result (IsSettled (D.moments disk.new).state) }
    ensures bitmap { IsTrue D.visible → (log : List Committed) → overlaid.HasAdded overlay.now log → OnOk result ((sector : ℕ) → SECTORS_PER_BLOCK ≤ sector → sector < SECTORS_PER_BLOCK * first_of_inodes journal.old.geometry
        → reads (D.moments disk.new) sector ≡ reads (D.moments disk.old) sector) }
    ensures size { D.size disk.new ≡ D.size disk.old }
    ensures cause { HasCause (D.faults disk.old) (D.faults disk.new) result }
    ensures fault { IfErr result (λ fault. fault.number ≡ D.faults disk.new) }
{
    let sector = super_sector(superblock);
    disk.barrier()?;
    overlay.write_home(disk)?;
    disk.barrier()?;
    disk.write(0, &sector)?;
    disk.barrier()?;
    journal.restart(superblock.epoch);
    Ok(())
}
