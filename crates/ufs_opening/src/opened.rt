use ufs_damage::Findings;
use ufs_volume::FoldedVolume;

/// An image that stands for a tree: its volume, and what was read of its inodes and directories as the committed
/// transactions leave them.
#[derive(Drop)]
pub struct Opened {
    pub volume: FoldedVolume,
    pub findings: Findings,
}
