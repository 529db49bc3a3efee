ghost use Rattle.std.specs.Prelude.{◌≡◌, ◌≤◌, map};
ghost use Rattle.ufs_layout.specs.Areas.{is_inode_number};
ghost use Rattle.ufs_image.specs.Damage.{blamed, lowest_blamed};
ghost use Rattle.ufs_damage.specs.Meaning.{meaning};
ghost use Rattle.ufs_damage.specs.Lowest.{lower, if_inode};

use crate::{Damage, DamageList};
use ufs_layout::Geometry;

fn blamed(damage: &Damage) -> Option<u32>
    ensures { result ≡ blamed (meaning damage.now) }
{
    match damage {
        Damage::BadInode { inode }
        | Damage::BadExtent { inode }
        | Damage::ShortExtents { inode }
        | Damage::TwoNames { inode } => Some(*inode),
        Damage::SharedBlock { first, .. } => Some(*first),
        Damage::BadDentry { dir, .. }
        | Damage::FreeInode { dir, .. }
        | Damage::NameTwice { dir, .. } => Some(*dir),
        Damage::BitmapDiffers { .. } => None,
    }
}

fn if_inode(geometry: &Geometry, inode: Option<u32>) -> Option<u32>
    ensures { result ≡ if_inode geometry.now inode }
{
    match inode {
        Some(inode) if inode >= 1 && inode <= geometry.inodes => Some(inode),
        _ => None,
    }
}

fn lower(a: Option<u32>, b: Option<u32>) -> Option<u32>
    ensures { result ≡ lower a b }
{
    match (a, b) {
        (Some(a), Some(b)) => Some(a.min(b)),
        (Some(a), None) => Some(a),
        (None, b) => b,
    }
}

fn lowest_of(geometry: &Geometry, items: &[Damage]) -> Option<u32>
    ensures { result ≡ lowest_blamed geometry.now (map meaning items.now) }
{
    let mut lowest = None;
    for damage in items {
        lowest = lower(lowest, if_inode(geometry, blamed(damage)));
    }
    lowest
}

impl DamageList {
    /// The lowest inode that a damage is told of: a directory's for what is told of its slots, the first of
    /// two that hold a block. `None` where no damage is told of an inode in range.
    pub fn lowest_blamed(&self, geometry: &Geometry) -> Option<u32>
        ensures { result ≡ lowest_blamed geometry.now self.now }
    {
        lowest_of(geometry, self.as_slice())
    }
}
