// The superblocks that a recovery writes.
ghost use Rattle.std.specs.Prelude.{ℕ, ◌≡◌, ◌⊎◌, ◌≤◌, ◌<◌, ◌+◌, ◌-◌, ◌^◌, true, false, max, IsTrue, IfSome, IfNone};
ghost use Rattle.ufs_layout.specs.Superblock.{geometry_of, is_super};

use ufs_layout::Super;

// The superblock of the next epoch, in use, where the next commit number is the least above the one that was used
// that isn't below the superblock's; none where the numbers end.
pub(crate) fn next_superblock(superblock: &Super, used: u64) -> Option<Super>
    ensures epoch { IfSome result (λ s. s.epoch ≡ superblock.now.epoch + 1) }
    ensures geometry { IfSome result (λ s. geometry_of s ≡ geometry_of superblock.now) }
    ensures next { IfSome result (λ s. s.next ≡ max (used + 1) superblock.now.next) }
    ensures known { IfSome result (λ s. superblock.now.next ≤ s.next) }
    ensures above { IfSome result (λ s. used < s.next) }
    ensures form { IfSome result (λ s. IsTrue (is_super 1 s)) }
    ensures version { IfSome result (λ s. s.version ≡ 1) }
    ensures in_use { IfSome result (λ s. s.clean ≡ false) }
    ensures none { IfNone result ((superblock.now.epoch ≡ 2 ^ 64 - 1) ⊎ (used ≡ 2 ^ 64 - 1)) }
{
    let epoch = superblock.epoch.checked_add(1)?;
    let next = used.max(superblock.next.saturating_sub(1)).checked_add(1)?;
    Some(Super {
        version: 1,
        blocks: superblock.blocks,
        inodes: superblock.inodes,
        journal: superblock.journal,
        epoch,
        next,
        clean: false,
    })
}

// The same, marked clean.
pub(crate) fn closed(superblock: &Super) -> Super
    ensures { result ≡ record superblock.now { clean = true } }
{
    Super {
        clean: true,
        ..*superblock
    }
}
