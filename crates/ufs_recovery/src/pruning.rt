ghost use Rattle.std.specs.Prelude.{ℕ, ◌≡◌, ◌≤◌, length, IsTrue, IfErr, OnOk};
ghost use Rattle.ufs_base.specs.Faults.{HasCause};
ghost use Rattle.ufs_disk.specs.Disk.{IsSettled};
ghost use Rattle.ufs_disk.specs.Moments.{reads};
ghost use Rattle.ufs_layout.specs.Areas.{IsGeometry, sector_count};
ghost use Rattle.ufs_recovery.specs.Orphans.{AreFreed, KeepsTreeFreeing};

use crate::clearing::clear;
use ufs_disk::{Disk, Fault};
use ufs_layout::Geometry;

// The kind of a free inode.
const FREE: u8 = 0;

// The kind of a directory.
const DIRECTORY: u8 = 2;

/// For each inode of the image, that of inode 1 first, the commit number of an orphan.
#[derive(Drop)]
pub(crate) struct Orphans {
    /// Of all orphans.
    pub(crate) numbers: Vec<Option<u64>>,
    /// Of the directories among them.
    pub(crate) dirs: Vec<Option<u64>>,
}

// Frees the orphans. One of them may name another, so no name of theirs may be left when the first one becomes
// free: their directories are emptied before.
pub(crate) fn prune<D: Disk>(
    disk: &mut D,
    geometry: &Geometry,
    orphans: &Orphans,
) -> Result<(), Fault>
    requires geometry { IsGeometry geometry.now }
    requires large { sector_count geometry.now ≤ D.size disk.old }
    requires counted { length orphans.now.numbers.items ≡ geometry.now.inodes }
    requires counted_dirs { length orphans.now.dirs.items ≡ geometry.now.inodes }
    ensures settled { IsTrue D.visible → OnOk result (IsSettled (D.moments disk.new).state) }
    ensures pruned { IsTrue D.visible → OnOk result (AreFreed (D.size disk.old) geometry.now orphans.now.numbers.items orphans.now.dirs.items (reads (D.moments disk.old)) (reads (D.moments disk.new))) }
    ensures tree { IsTrue D.visible → KeepsTreeFreeing D.keeps (D.size disk.old) geometry.now orphans.now.numbers.items orphans.now.dirs.items (D.moments disk.old) (D.moments disk.new) }
    ensures size { D.size disk.new ≡ D.size disk.old }
    ensures cause { HasCause (D.faults disk.old) (D.faults disk.new) result }
    ensures number { IfErr result (λ fault. fault.number ≡ D.faults disk.new) }
{
    clear(disk, geometry, &orphans.dirs, DIRECTORY)?;
    clear(disk, geometry, &orphans.numbers, FREE)
}
