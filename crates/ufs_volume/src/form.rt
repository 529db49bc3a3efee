// Whether records can be folded.
ghost use Rattle.std.specs.Prelude.{◌≡◌, ◌&&◌, ◌+◌, length, nat_le};
ghost use Rattle.std.specs.List.{list_all};
ghost use Rattle.ufs_base.specs.declared.sizes.TheConstants.{MAX_EXTENTS};
ghost use Rattle.ufs_layout.specs.Areas.{IsGeometry, is_inode_number, is_data_sector};
ghost use Rattle.ufs_layout.specs.InodeForm.{is_extent};
ghost use Rattle.ufs_layout.specs.DentryForm as dentry;
ghost use Rattle.ufs_layout.specs.Records.{is_record};
ghost use Rattle.ufs_image.specs.Fold.{is_in_range};

use ufs_base::{MAX_EXTENTS, MAX_NAME, SLOTS_PER_SECTOR};
use ufs_layout::{Dentry, Extent, Geometry, LogRecord};

fn are_few(keep: u8, count: usize) -> bool
    ensures { result ≡ nat_le (keep + count) MAX_EXTENTS }
{
    count <= MAX_EXTENTS && usize::from(keep) + count <= MAX_EXTENTS
}

fn are_extents(extents: &[Extent]) -> bool
    ensures { result ≡ list_all is_extent extents.now }
{
    extents.iter().all(|extent| 1 <= extent.length)
}

fn is_delta(kind: u8, keep: u8, extents: &[Extent]) -> bool
    ensures { result ≡ ((nat_le 1 kind && nat_le kind 2) && (nat_le (keep + length extents.now) MAX_EXTENTS && list_all is_extent extents.now)) }
{
    (1 <= kind && kind <= 2) && (are_few(keep, extents.len()) && are_extents(extents))
}

fn is_dentry(value: &Dentry) -> bool
    ensures { result ≡ dentry.is_dentry value.now }
{
    let name = value.name_bytes();
    name.len() <= MAX_NAME && (!name.is_empty() || value.inode == 0 && value.kind == 0)
}

fn is_on_form(change: &LogRecord) -> bool
    ensures { result ≡ is_record change.now }
{
    match change {
        LogRecord::Delta {
            kind,
            keep,
            extents,
            ..
        } => is_delta(*kind, *keep, extents.as_slice()),
        LogRecord::Place { slot, dentry, .. } => {
            usize::from(*slot) < SLOTS_PER_SECTOR && is_dentry(dentry)
        }
        LogRecord::Free { .. } => true,
    }
}

fn is_inode(geometry: &Geometry, inode: u32) -> bool
    ensures { result ≡ is_inode_number geometry.now inode }
{
    1 <= inode && inode <= geometry.inodes
}

fn is_data(geometry: &Geometry, sector: u32) -> bool
    requires { IsGeometry geometry.now }
    ensures { result ≡ is_data_sector geometry.now sector }
{
    8 * geometry.first_of_data() <= sector && sector < geometry.sector_count()
}

fn is_inside(geometry: &Geometry, change: &LogRecord) -> bool
    requires { IsGeometry geometry.now }
    ensures { result ≡ is_in_range geometry.now change.now }
{
    match change {
        LogRecord::Delta { inode, .. } => is_inode(geometry, *inode),
        LogRecord::Place { sector, .. } => is_data(geometry, *sector),
        LogRecord::Free { inode } => is_inode(geometry, *inode),
    }
}

fn are_on_form(records: &[LogRecord]) -> bool
    ensures { result ≡ list_all is_record records.now }
{
    records.iter().all(|change| is_on_form(change))
}

fn are_inside(geometry: &Geometry, records: &[LogRecord]) -> bool
    requires { IsGeometry geometry.now }
    ensures { result ≡ list_all (is_in_range geometry.now) records.now }
{
    records.iter().all(
        |change|
            requires { IsGeometry geometry.now }
        { is_inside(geometry, change) },
    )
}

/// Whether all records are on their form and in range.
pub(crate) fn can_fold(geometry: &Geometry, records: &[LogRecord]) -> bool
    requires { IsGeometry geometry.now }
    ensures { result ≡ (list_all is_record records.now && list_all (is_in_range geometry.now) records.now) }
{
    are_on_form(records) && are_inside(geometry, records)
}
