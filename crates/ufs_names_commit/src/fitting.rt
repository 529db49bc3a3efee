// Whether records may be committed to a disk of this form.
ghost use Rattle.std.specs.Prelude.{◌≡◌, IsTrue};
ghost use Rattle.std.specs.List.{list_all};
ghost use Rattle.ufs_image.specs.Fold.{is_in_range};
ghost use Rattle.ufs_layout.specs.Areas.{IsGeometry, is_data_sector, is_inode_number};
ghost use Rattle.ufs_names_commit.specs.Fits.{fit};

use ufs_ilog::NamesLog;
use ufs_layout::{Geometry, LogRecord};

fn is_inode(geometry: &Geometry, inode: u32) -> bool
    ensures { result ≡ is_inode_number geometry.now inode }
{
    1 <= inode && inode <= geometry.inodes
}

fn is_data(geometry: &Geometry, sector: u32) -> bool
    requires { IsGeometry geometry.now }
    ensures { result ≡ is_data_sector geometry.now sector }
{
    8 * geometry.first_of_data() <= sector && sector < geometry.sector_count()
}

fn is_inside(geometry: &Geometry, change: &LogRecord) -> bool
    requires { IsGeometry geometry.now }
    ensures { result ≡ is_in_range geometry.now change.now }
{
    match change {
        LogRecord::Delta { inode, .. } => is_inode(geometry, *inode),
        LogRecord::Place { sector, .. } => is_data(geometry, *sector),
        LogRecord::Free { inode } => is_inode(geometry, *inode),
    }
}

fn are_inside(geometry: &Geometry, records: &[LogRecord]) -> bool
    requires { IsGeometry geometry.now }
    ensures { result ≡ list_all (is_in_range geometry.now) records.now }
{
    records.iter().all(
        |change|
            requires { IsGeometry geometry.now }
        { is_inside(geometry, change) },
    )
}

/// Whether each record is in range, and an empty journal has room for them all.
pub(crate) fn fits(geometry: &Geometry, log: &NamesLog) -> bool
    requires { IsGeometry geometry.now }
    ensures { result ≡ fit geometry.now log.now }
{
    are_inside(geometry, log.records().as_slice()) && log.sectors() < geometry.journal
}
