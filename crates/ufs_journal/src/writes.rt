// Sectors of the journal, written to a disk.
ghost use Rattle.std.specs.Prelude.{◌≡◌, ◌≤◌, ◌<◌, ◌+◌, ◌*◌, ◌++◌, ℕ, length, take, drop, IsTrue, OnOk, IfOk, IfErr, Some};
ghost use Rattle.std.specs.List.{list_all};
ghost use Rattle.ufs_disk.specs.Disk.{Leaves, IsPartlyWritten, IsSettled, overwritten, put};
ghost use Rattle.ufs_disk.specs.Moments.{LeavesOnly, reads};
ghost use Rattle.ufs_base.specs.Faults.{HasCause};
ghost use Rattle.ufs_layout.specs.Areas.{IsGeometry, sector_count};
ghost use Rattle.ufs_image.specs.Fold.{is_in_range};
ghost use Rattle.ufs_layout.specs.JournalSector.{journal_bytes, journal_of, HasCommit};
ghost use Rattle.ufs_layout.specs.Records.{is_record};
ghost use Rattle.ufs_journal.specs.Found.{journal_sector, AgreeOffJournal};
ghost use Rattle.ufs_layout.specs.Filled.{sectors_of_records, sector_count_of};
ghost use Rattle.ufs_journal.specs.Written.{IsOldOrPut, IsReadyFor, IsAppending, HasAppended};
ghost use Rattle.ufs_journal.specs.Spelled.{spelled_sectors, joined, AreReadBack};

use crate::filling::next_sector;
use crate::sector::{commit_sector, record_sector};
use ufs_base::SECTOR;
use ufs_disk::{Disk, Fault};
use ufs_layout::{Geometry, LogRecord};

// The first sector of the journal.
fn journal_start(geometry: &Geometry) -> u32
    requires { IsGeometry geometry.now }
    ensures { result ≡ journal_sector geometry.now 0 }
{
    8 * (1 + (geometry.blocks + 32_767) / 32_768 + (geometry.inodes + 7) / 8)
}

// The sectors that one call of a disk takes.
const GROUP: u32 = 8;

// Puts a sector behind so many others.
fn put_piece(bytes: &mut [u8], number: u32, piece: &[u8; SECTOR])
    requires { 512 * (number + 1) ≤ length bytes.old }
    ensures put { take (512 * (number + 1)) bytes.new ≡ take (512 * number) bytes.old ++ piece.now }
    ensures sized { length bytes.new ≡ length bytes.old }
{
    let at = SECTOR * number as usize;
    bytes[at..at + SECTOR].copy_from_slice(piece);
}

// How many records were taken, and how many sectors they take.
#[derive(Clone, Copy)]
struct Group {
    taken: usize,
    count: u32,
}

// The sectors of the first records, as many as one call takes.
fn fill_group(bytes: &mut [u8], epoch: u64, txn: u32, index: u32, records: &[LogRecord]) -> Group
    requires sized { length bytes.old ≡ 4096 }
    requires txn { 1 ≤ txn }
    requires form { IsTrue (list_all is_record records.now) }
    requires few { index + sector_count_of records.now ≤ 4096 }
    ensures within { result.taken ≤ length records.now }
    ensures some { 0 < length records.now → (0 < result.taken) × (0 < result.count) }
    ensures most { result.count ≤ 8 }
    ensures inside { result.count ≤ sector_count_of records.now }
    ensures rest { sectors_of_records (drop result.taken records.now) ≡ drop result.count (sectors_of_records records.now) }
    ensures bytes { take (512 * result.count) bytes.new ≡ joined (spelled_sectors epoch txn index (take result.count (sectors_of_records records.now))) }
    ensures read_back { AreReadBack epoch txn index (take result.count (sectors_of_records records.now)) }
    ensures kept { length bytes.new ≡ 4096 }
{
    let mut taken = 0;
    let mut count = 0;
    while count < GROUP && taken < records.len() {
        let next = next_sector(records, taken);
        let sector = record_sector(epoch, txn, (index + count) as u16, next);
        put_piece(bytes, count, &sector);
        taken += next.len();
        count += 1;
    }
    Group { taken, count }
}

// Writes so many sectors of the journal by one call.
fn put_group<D: Disk>(
    disk: &mut D,
    geometry: &Geometry,
    place: u32,
    bytes: &[u8],
    count: u32,
) -> Result<(), Fault>
    requires geometry { IsGeometry geometry.now }
    requires large { sector_count geometry.now ≤ D.size disk.old }
    requires sized { length bytes.now ≡ 512 * count }
    requires some { 0 < count }
    requires most { count ≤ 8 }
    requires inside { place + count ≤ geometry.now.journal }
    ensures ok { IsTrue D.visible → OnOk result (reads (D.moments disk.new)
        ≡ overwritten (journal_sector geometry.now place) bytes.now (reads (D.moments disk.old))) }
    ensures elsewhere { IsTrue D.visible → AgreeOffJournal geometry.now (reads (D.moments disk.new)) (reads (D.moments disk.old)) }
    ensures crash { IsTrue D.visible → LeavesOnly D.keeps
        (IsPartlyWritten (journal_sector geometry.now place) bytes.now (D.moments disk.old).state)
        (D.moments disk.old) (D.moments disk.new) }
    ensures size { D.size disk.new ≡ D.size disk.old }
    ensures cause { HasCause (D.faults disk.old) (D.faults disk.new) result }
    ensures fault { IfErr result (λ fault. fault.number ≡ D.faults disk.new) }
{
    disk.write(journal_start(geometry) + place, bytes)
}

fn behind(records: &[LogRecord], at: usize) -> &[LogRecord]
    requires { at ≤ length records.now }
    ensures { result.now ≡ drop at records.now }
{
    &records[at..]
}

// Writes the records of a transaction, from a place on, and gives how many sectors they take.
pub(crate) fn write_records<D: Disk>(
    disk: &mut D,
    geometry: &Geometry,
    place: u32,
    epoch: u64,
    txn: u32,
    records: &[LogRecord],
) -> Result<u32, Fault>
    requires geometry { IsGeometry geometry.now }
    requires large { sector_count geometry.now ≤ D.size disk.old }
    requires room { place + sector_count_of records.now ≤ geometry.now.journal }
    requires txn { 1 ≤ txn }
    requires form { IsTrue (list_all is_record records.now) }
    requires inside { IsTrue (list_all (is_in_range geometry.now) records.now) }
    ensures count { IfOk result (λ count. count ≡ sector_count_of records.now) }
    ensures elsewhere { IsTrue D.visible → AgreeOffJournal geometry.now (reads (D.moments disk.new)) (reads (D.moments disk.old)) }
    ensures ok { IsTrue D.visible → Leaves (IsReadyFor geometry.now epoch txn place) (D.moments disk.old).state
        → OnOk result (HasAppended geometry.now epoch txn place (sectors_of_records records.now) (reads (D.moments disk.old)) (reads (D.moments disk.new))) }
    ensures crash { IsTrue D.visible → Leaves (IsReadyFor geometry.now epoch txn place) (D.moments disk.old).state
        → LeavesOnly D.keeps (IsAppending geometry.now epoch txn place (sector_count_of records.now) (D.moments disk.old).state)
        (D.moments disk.old) (D.moments disk.new) }
    ensures size { D.size disk.new ≡ D.size disk.old }
    ensures cause { HasCause (D.faults disk.old) (D.faults disk.new) result }
    ensures fault { IfErr result (λ fault. fault.number ≡ D.faults disk.new) }
{
    let mut bytes = [0; SECTOR * GROUP as usize];
    let mut at = 0;
    let mut index = 0;
    while at < records.len() {
        let rest = behind(records, at);
        let group = fill_group(&mut bytes, epoch, txn, index, rest);
        let filled = &bytes[..SECTOR * group.count as usize];
        put_group(disk, geometry, place + index, filled, group.count)?;
        at += group.taken;
        index += group.count;
    }
    Ok(index)
}

// Waits for all that was written, writes a commit, and waits for it.
pub(crate) fn write_commit<D: Disk>(
    disk: &mut D,
    geometry: &Geometry,
    place: u32,
    epoch: u64,
    txn: u32,
    count: u16,
    number: u64,
) -> Result<(), Fault>
    requires geometry { IsGeometry geometry.now }
    requires large { sector_count geometry.now ≤ D.size disk.old }
    requires place { place < geometry.now.journal }
    requires txn { 1 ≤ txn }
    ensures read_back { journal_of (journal_bytes (record { epoch = epoch; txn = txn; index = count; content = HasCommit number }))
        ≡ Some (record { epoch = epoch; txn = txn; index = count; content = HasCommit number }) }
    ensures settled { IsTrue D.visible → OnOk result (IsSettled (D.moments disk.new).state) }
    ensures elsewhere { IsTrue D.visible → AgreeOffJournal geometry.now (reads (D.moments disk.new)) (reads (D.moments disk.old)) }
    ensures written { IsTrue D.visible → OnOk result (reads (D.moments disk.new)
        ≡ put (journal_sector geometry.now place) (journal_bytes (record { epoch = epoch; txn = txn; index = count; content = HasCommit number })) (reads (D.moments disk.old))) }
    ensures crash { IsTrue D.visible → LeavesOnly D.keeps
        (IsOldOrPut (journal_sector geometry.now place) (record { epoch = epoch; txn = txn; index = count; content = HasCommit number }) (D.moments disk.old).state)
        (D.moments disk.old) (D.moments disk.new) }
    ensures size { D.size disk.new ≡ D.size disk.old }
    ensures cause { HasCause (D.faults disk.old) (D.faults disk.new) result }
    ensures fault { IfErr result (λ fault. fault.number ≡ D.faults disk.new) }
{
    let bytes = commit_sector(epoch, txn, count, number);
    disk.barrier()?;
    disk.write(journal_start(geometry) + place, &bytes)?;
    disk.barrier()
}
