ghost use Rattle.std.specs.Prelude.{◌≡◌};
ghost use Rattle.ufs_overlay.specs.Seen.{geometry_of};

use ufs_metadata::ImageSuperblock;
use ufs_overlay::Overlay;

/// A volume: its superblock, and the transactions that are committed in its journal and may not be home yet.
#[derive(Drop)]
pub struct FoldedVolume {
    pub superblock: ImageSuperblock,
    /// These transactions, over the home sectors.
    pub overlay: Overlay,
    /// How many they are.
    pub committed: u32,
    /// The highest of their commit numbers; 0 where there are none.
    pub highest: u64,
    pub ghost same: { geometry_of overlay ≡ superblock.geometry },
}
