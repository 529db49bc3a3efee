// What the tests share: the image of 256 blocks, 32 inodes and 64 journal sectors, and the birth of `/f` on it.
ghost use Rattle.std.specs.Prelude.{◌≡◌, IfOk, IsTrue};
ghost use Rattle.std.specs.List.{list_all};
ghost use Rattle.ufs_layout.specs.Areas.{IsGeometry};
ghost use Rattle.ufs_layout.specs.Records.{is_record};
ghost use Rattle.ufs_image.specs.Fold.{is_in_range};
ghost use Rattle.ufs_ilog.specs.Changes.{is_in_order};

use std::alloc::Global;
use ufs_base::Memory;
use ufs_layout::{Dentry, Extent, ExtentList, Geometry, LogRecord, Records};

pub fn small() -> Geometry
    ensures value { result ≡ record { blocks = 256; inodes = 32; journal = 64 } }
    ensures limits { IsGeometry result }
{
    match Geometry::make(256, 32, 64) {
        Ok(geometry) => geometry,
        Err(_) => unreachable!(),
    }
}

// The birth of `/f` in block 14.
pub fn birth(alloc: Global) -> Result<Records, Memory>
    ensures form { IfOk result (λ records. IsTrue (list_all is_record records)) }
    ensures order { IfOk result (λ records. IsTrue (is_in_order records)) }
    ensures inside { IfOk result (λ records. IsTrue (list_all (is_in_range (record { blocks = 256; inodes = 32; journal = 64 })) records)) }
{
    let block = Extent {
        start: 14,
        length: 1,
    };
    let mut extents = Vec::new(alloc);
    extents.push(block)?;
    let mut records = Vec::new(alloc);
    records.push(LogRecord::Delta {
        inode: 1,
        kind: 2,
        size: 4_096,
        keep: 0,
        extents: ExtentList::from_vec(extents),
    })?;
    records.push(LogRecord::Delta {
        inode: 2,
        kind: 1,
        size: 0,
        keep: 0,
        extents: ExtentList::from_vec(Vec::new(alloc)),
    })?;
    records.push(LogRecord::Place {
        sector: 112,
        slot: 0,
        dentry: Dentry::from_name(2, 1, b"f"),
    })?;
    Ok(Records::from_vec(records))
}
