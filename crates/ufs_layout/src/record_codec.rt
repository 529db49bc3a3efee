// The spelling of records in a journal sector's content.
ghost use Rattle.std.specs.Prelude.{◌≡◌, ◌+◌, ◌*◌, ◌<◌, ◌≤◌, ◌^◌, ◌++◌, ◌∷◌, [], length, take, drop, IsTrue, Some, flat_map};
ghost use Rattle.std.specs.List.{list_all, AllByRecursion};
ghost use Rattle.byteorder.specs.Endian.{little_bytes};
ghost use Rattle.ufs_layout.specs.InodeForm.{extent_bytes, FitsExtent};
ghost use Rattle.ufs_layout.specs.DentryForm.{dentry_bytes, is_dentry};
ghost use Rattle.ufs_layout.specs.Records.{record_bytes, records_bytes, records_of, is_record, FitsRecord};

use crate::bytes::{put, put_u32, put_u64};
use crate::inode::put_extents;
use crate::{Dentry, Extent, LogRecord, put_dentry};
use ufs_base::{MAX_EXTENTS, MAX_NAME};

/// The number of bytes of a record's spelling.
pub fn record_length(value: &LogRecord) -> usize
    requires { IsTrue (is_record value.now) }
    ensures { result ≡ length (record_bytes value.now) }
{
    match value {
        LogRecord::Delta { extents, .. } => 16 + 8 * extents.as_slice().len(),
        LogRecord::Place { .. } => 70,
        LogRecord::Free { .. } => 5,
    }
}

fn put_delta_head(head: &mut [u8], inode: u32, kind: u8, size: u64, keep: u8, count: u8)
    requires { length head.old ≡ 16 }
    ensures { head.new ≡ 1 ∷ little_bytes 4 inode ++ kind ∷ little_bytes 8 size ++ keep ∷ count ∷ [] }
{
    put(head, 0, &[1]);
    put_u32(head, 1, inode);
    put(head, 5, &[kind]);
    put_u64(head, 6, size);
    put(head, 14, &[keep, count]);
}

fn put_delta(
    content: &mut [u8],
    at: usize,
    inode: u32,
    kind: u8,
    size: u64,
    keep: u8,
    extents: &[Extent],
)
    requires few { length extents.now ≤ MAX_EXTENTS }
    requires room { at + (16 + 8 * length extents.now) ≤ length content.old }
    ensures spelling { content.new ≡ take at content.old ++ (1 ∷ little_bytes 4 inode ++ kind ∷ little_bytes 8 size ++ keep ∷ length extents.now ∷ flat_map extent_bytes extents.now) ++ drop (at + (16 + 8 * length extents.now)) content.old }
    ensures in_range { AllByRecursion FitsExtent extents.now }
{
    let mut head = [0; 16];
    put_delta_head(&mut head, inode, kind, size, keep, extents.len() as u8);
    put(content, at, &head);
    put_extents(content, at + 16, extents);
}

fn put_place_head(head: &mut [u8], sector: u32, slot: u8)
    requires { length head.old ≡ 6 }
    ensures { head.new ≡ 2 ∷ little_bytes 4 sector ++ slot ∷ [] }
{
    put(head, 0, &[2]);
    put_u32(head, 1, sector);
    put(head, 5, &[slot]);
}

fn put_place(content: &mut [u8], at: usize, sector: u32, slot: u8, dentry: &Dentry)
    requires form { IsTrue (is_dentry dentry.now) }
    requires room { at + 70 ≤ length content.old }
    ensures spelling { content.new ≡ take at content.old ++ (2 ∷ little_bytes 4 sector ++ slot ∷ dentry_bytes dentry.now) ++ drop (at + 70) content.old }
    ensures in_range { (dentry.now.inode < 2 ^ 32) × (length dentry.now.name ≤ MAX_NAME) }
{
    // For the prover alone.
    let _inode = dentry.inode;
    let mut head = [0; 6];
    put_place_head(&mut head, sector, slot);
    let mut piece = [0; 64];
    put_dentry(&mut piece, dentry);
    put(content, at, &head);
    put(content, at + 6, &piece);
}

fn put_free(content: &mut [u8], at: usize, inode: u32)
    requires { at + 5 ≤ length content.old }
    ensures { content.new ≡ take at content.old ++ (3 ∷ little_bytes 4 inode) ++ drop (at + 5) content.old }
{
    let mut piece = [0; 5];
    put(&mut piece, 0, &[3]);
    put_u32(&mut piece, 1, inode);
    put(content, at, &piece);
}

// Writes a record's spelling from this place on, and gives the place behind it.
fn put_record(content: &mut [u8], at: usize, value: &LogRecord) -> usize
    requires form { IsTrue (is_record value.now) }
    requires room { at + length (record_bytes value.now) ≤ length content.old }
    ensures spelling { content.new ≡ take at content.old ++ record_bytes value.now ++ drop (at + length (record_bytes value.now)) content.old }
    ensures end { result ≡ at + length (record_bytes value.now) }
    ensures in_range { FitsRecord value.now }
{
    let length = record_length(value);
    match value {
        LogRecord::Delta {
            inode,
            kind,
            size,
            keep,
            extents,
        } => put_delta(content, at, *inode, *kind, *size, *keep, extents.as_slice()),
        LogRecord::Place {
            sector,
            slot,
            dentry,
        } => put_place(content, at, *sector, *slot, dentry),
        LogRecord::Free { inode } => put_free(content, at, *inode),
    }
    at + length
}

/// Writes the records' spellings one after the other to the front of a content, whose other bytes stay;
/// gives how many bytes they have.
pub fn put_records(content: &mut [u8], records: &[LogRecord]) -> usize
    requires form { IsTrue (list_all is_record records.now) }
    requires room { length (records_bytes records.now) ≤ length content.old }
    ensures spelling { content.new ≡ records_bytes records.now ++ drop (length (records_bytes records.now)) content.old }
    ensures used { result ≡ length (records_bytes records.now) }
    ensures read_back { records_of (records_bytes records.now) ≡ Some records.now }
{
    let mut at = 0;
    for record in records {
        at = put_record(content, at, record);
    }
    at
}

/// How many of the records, from the first on, fit into so many bytes.
pub fn count_fitting(records: &[LogRecord], room: usize) -> usize
    requires { IsTrue (list_all is_record records.now) }
    ensures bounded { result ≤ length records.now }
    ensures within { length (records_bytes (take result records.now)) ≤ room }
    ensures most { result < length records.now → room < length (records_bytes (take (result + 1) records.now)) }
{
    let mut left = room;
    for (i, record) in records.iter().enumerate() {
        let length = record_length(record);
        if length > left {
            return i;
        }
        left -= length;
    }
    records.len()
}
