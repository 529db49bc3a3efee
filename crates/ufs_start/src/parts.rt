use ufs_bitmap::Bitmap;
use ufs_files::FileHands;
use ufs_hand::Parts;
use ufs_metadata::ImageSuperblock;
use ufs_names::Names;

/// What a server begins with: the superblock, the namespace, the files, of which nothing is read, and the free blocks of
/// the data area.
#[derive(Drop)]
pub struct Start {
    pub superblock: ImageSuperblock,
    pub names: Names,
    pub files: FileHands,
    pub free: Bitmap,
    /// From which the session's first hand begins.
    pub parts: Parts,
}
