// Records read from a journal sector's content.
ghost use Rattle.std.specs.Prelude.{◌≡◌, ◌+◌, ◌*◌, ◌≤◌, ◌<◌, ◌&&◌, length, IfOk, IfSome, IsTrue, nat_le};
ghost use Rattle.std.specs.List.{list_all};
ghost use Rattle.ufs_base.specs.Choices.{some_if};
ghost use Rattle.ufs_layout.specs.Words.{byte_at};
ghost use Rattle.ufs_layout.specs.InodeForm.{extents_at, is_extent};
ghost use Rattle.ufs_layout.specs.Records.{leading_record, records_of, records_bytes, is_record};

use crate::bytes::{u32_at, u64_at};
use crate::inode::extent_at;
use crate::record_codec::record_length;
use crate::{ExtentList, LogRecord, Records, get_dentry};
use std::alloc::{AllocError, Global};
use ufs_base::{MAX_EXTENTS, SLOTS_PER_SECTOR};

// So many extents, or `None` where one has no block.
fn collect_extents(
    alloc: Global,
    area: &[u8],
    count: usize,
) -> Result<Option<ExtentList>, AllocError>
    requires { 8 * count ≤ length area.now }
    ensures { IfOk result (λ found. found ≡ some_if (list_all is_extent (extents_at count area.now)) (extents_at count area.now)) }
{
    let mut extents = Vec::new(alloc);
    for i in 0..count {
        let extent = extent_at(area, 8 * i);
        if extent.length == 0 {
            return Ok(None);
        }
        extents.push(extent)?;
    }
    Ok(Some(ExtentList::from_vec(extents)))
}

fn is_delta_form(kind: u8, keep: u8, count: u8) -> bool
    ensures { result ≡ ((nat_le 1 kind && nat_le kind 2) && nat_le (keep + count) MAX_EXTENTS) }
{
    (kind >= 1 && kind <= 2) && usize::from(keep) + usize::from(count) <= MAX_EXTENTS
}

fn read_delta(alloc: Global, rest: &[u8]) -> Result<Option<LogRecord>, AllocError>
    requires { byte_at 0 rest.now ≡ 1 }
    ensures { IfOk result (λ found. found ≡ leading_record rest.now) }
{
    if rest.len() < 16 {
        return Ok(None);
    }
    let kind = rest[5];
    let keep = rest[14];
    let count = rest[15];
    let length = usize::from(count);
    if rest.len() < 16 + 8 * length {
        return Ok(None);
    }
    if !is_delta_form(kind, keep, count) {
        return Ok(None);
    }
    let Some(extents) = collect_extents(alloc, &rest[16..], length)? else {
        return Ok(None);
    };
    Ok(Some(LogRecord::Delta {
        inode: u32_at(rest, 1),
        kind,
        size: u64_at(rest, 6),
        keep,
        extents,
    }))
}

fn read_place(rest: &[u8]) -> Option<LogRecord>
    requires { byte_at 0 rest.now ≡ 2 }
    ensures { result ≡ leading_record rest.now }
{
    if rest.len() < 70 {
        return None;
    }
    let slot = rest[5];
    if usize::from(slot) >= SLOTS_PER_SECTOR {
        return None;
    }
    let Some(dentry) = get_dentry(&rest[6..70]) else {
        return None;
    };
    Some(LogRecord::Place {
        sector: u32_at(rest, 1),
        slot,
        dentry,
    })
}

fn read_free(rest: &[u8]) -> Option<LogRecord>
    requires { byte_at 0 rest.now ≡ 3 }
    ensures { result ≡ leading_record rest.now }
{
    if rest.len() < 5 {
        return None;
    }
    Some(LogRecord::Free {
        inode: u32_at(rest, 1),
    })
}

// The record that begins the bytes, where it is well spelled.
fn read_record(alloc: Global, rest: &[u8]) -> Result<Option<LogRecord>, AllocError>
    requires { 0 < length rest.now }
    ensures { IfOk result (λ found. found ≡ leading_record rest.now) }
{
    match rest[0] {
        1 => read_delta(alloc, rest),
        2 => Ok(read_place(rest)),
        3 => Ok(read_free(rest)),
        _ => Ok(None),
    }
}

/// The list of records whose one spelling the content is; `None` where it is no list's. An error comes
/// only for want of memory.
pub fn get_records(alloc: Global, content: &[u8]) -> Result<Option<Records>, AllocError>
    ensures value { IfOk result (λ found. found ≡ records_of content.now) }
    ensures spelling { IfOk result (λ found. IfSome found (λ records. content.now ≡ records_bytes records)) }
    ensures form { IfOk result (λ found. IfSome found (λ records. IsTrue (list_all is_record records))) }
{
    let mut records = Vec::new(alloc);
    let mut at = 0;
    while at < content.len() {
        let Some(record) = read_record(alloc, &content[at..])? else {
            return Ok(None);
        };
        at += record_length(&record);
        records.push(record)?;
    }
    Ok(Some(Records::from_vec(records)))
}
