// What a recovery does, known before it writes.
ghost use Rattle.std.specs.Prelude.{ℕ, ◌≡◌, ◌≤◌, ◌<◌, ◌+◌, None, false, length, IsTrue, IfOk, IfErr};
ghost use Rattle.ufs_base.specs.Images.{Image};
ghost use Rattle.ufs_damage.specs.Findings.{AreFindingsOf};
ghost use Rattle.ufs_image.specs.Catalog.{IsInode, catalog_at};
ghost use Rattle.ufs_image.specs.Damage.{bad_tree};
ghost use Rattle.ufs_image.specs.Images.{form_at};
ghost use Rattle.ufs_layout.specs.Areas.{IsGeometry};
ghost use Rattle.ufs_layout.specs.Superblock.{geometry_of, is_super};
ghost use Rattle.ufs_recovery.specs.Recovered.{AreInodesBelow};
ghost use Rattle.ufs_recovery.specs.Orphans.{AreOrphanDirs, AreOrphans, IsLackOfPlan};

use crate::orphans::{find_orphans, highest_number};
use crate::pruning::Orphans;
use crate::superblocks::next_superblock;
use std::alloc::Global;
use ufs_base::Lack;
use ufs_damage::Findings;
use ufs_layout::Super;
use ufs_metadata::ImageSuperblock;
use ufs_walk::reached_inodes;

/// The orphans that are to be freed, and the superblock of the next epoch.
#[derive(Drop)]
pub(crate) struct Plan {
    pub(crate) orphans: Orphans,
    pub(crate) superblock: Super,
}

// The plan for an undamaged image whose commit numbers outside of the inodes are at most `used`. Where the epochs
// or the commit numbers end, it is refused: they are at their end.
pub(crate) fn make_plan(
    alloc: Global,
    image: &ImageSuperblock,
    findings: &Findings,
    used: u64,
) -> Result<Plan, Lack>
    requires read { length findings.now.forms ≡ image.now.geometry.inodes }
    ensures counted { IfOk result (λ p. length p.orphans.numbers.items ≡ image.now.geometry.inodes) }
    ensures counted_dirs { IfOk result (λ p. length p.orphans.dirs.items ≡ image.now.geometry.inodes) }
    ensures orphans { IfOk result (λ p. (folded : Image) → AreFindingsOf image.now.geometry folded findings.now → bad_tree image.now.geometry folded ≡ None → AreOrphans image.now.geometry (catalog_at image.now.geometry folded) p.orphans.numbers.items) }
    ensures dirs { IfOk result (λ p. (folded : Image) → AreFindingsOf image.now.geometry folded findings.now → bad_tree image.now.geometry folded ≡ None → AreOrphanDirs image.now.geometry (catalog_at image.now.geometry folded) p.orphans.dirs.items) }
    ensures epoch { IfOk result (λ p. p.superblock.epoch ≡ image.now.superblock.epoch + 1) }
    ensures geometry { IfOk result (λ p. geometry_of p.superblock ≡ image.now.geometry) }
    ensures version { IfOk result (λ p. p.superblock.version ≡ 1) }
    ensures form { IfOk result (λ p. IsTrue (is_super 1 p.superblock)) }
    ensures in_use { IfOk result (λ p. p.superblock.clean ≡ false) }
    ensures known { IfOk result (λ p. image.now.superblock.next ≤ p.superblock.next) }
    ensures above { IfOk result (λ p. used < p.superblock.next) }
    ensures least { IfOk result (λ p. (folded : Image) → AreFindingsOf image.now.geometry folded findings.now
        → (n : ℕ) → image.now.superblock.next ≤ n → used < n → AreInodesBelow image.now.geometry folded n → p.superblock.next ≤ n) }
    ensures lack { IfErr result (IsLackOfPlan image.now.superblock findings.now.forms used) }
    ensures inodes { IfOk result (λ p. (folded : Image) → AreFindingsOf image.now.geometry folded findings.now → (inode : ℕ) → IsInode image.now.geometry inode → (form_at image.now.geometry folded inode).number < p.superblock.next) }
{
    let reached = reached_inodes(alloc, findings, &image.geometry)?;
    let orphans = find_orphans(alloc, findings.forms(), reached.as_slice())?;
    let highest = used.max(highest_number(findings.forms()));
    match next_superblock(&image.superblock, highest) {
        Some(superblock) => Ok(Plan {
            orphans,
            superblock,
        }),
        None => Err(Lack::AtEnd),
    }
}
