// What stands at the paths of an image, with the first bytes of its files.
use ufs_model::Bytes;

/// What stands at a path.
#[derive(Drop)]
pub enum NodeHead {
    /// A directory.
    Dir,
    /// A file: its size, and its first bytes.
    File { size: u64, front: Bytes },
}

/// A whole path, and what stands there.
#[derive(Drop)]
pub struct PathHead {
    pub path: Bytes,
    pub node: NodeHead,
}
