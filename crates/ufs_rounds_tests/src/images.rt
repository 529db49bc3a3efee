// A new image, and what stands in one.
use std::alloc::Global;
use ufs_disk::PlainDisk;
use ufs_io::PlainSource;
use ufs_layout::Geometry;
use ufs_model::{PathEntry, PathNode};
use ufs_opening::tree_of;
use ufs_recover::format;
use ufs_recovery::recover;
use ufs_script::{OpLists, Script, read_script};

/// A new image of 64 blocks, where there is memory.
pub fn new_image(alloc: Global) -> Option<PlainDisk> {
    let mut disk = PlainDisk::zeros(alloc, 512).ok()?;
    let geometry = Geometry::make(64, 16, 64).ok()?;
    format(&mut disk, &geometry).ok()?;
    Some(disk)
}

/// The requests of a script's clients.
pub fn requests(alloc: Global, text: &str) -> Option<OpLists> {
    Some(script(alloc, text)?.clients)
}

// The root, and `/f` with these bytes.
fn has_file(entries: &[PathEntry], content: &[u8]) -> bool {
    if entries.len() != 2 {
        return false;
    }
    match &entries[1].node {
        PathNode::Dir => false,
        PathNode::File(bytes) => {
            entries[1].path.as_slice() == b"/f".as_slice() && bytes.as_slice() == content
        }
    }
}

/// Whether `/f` is in the image, with these bytes, and no other path but the root.
pub fn has_alone(alloc: Global, disk: &mut PlainDisk, content: &[u8]) -> bool {
    match tree_of(alloc, disk) {
        Ok(tree) => has_file(tree.as_slice(), content),
        Err(_) => false,
    }
}

/// Whether the image is made clean, and stands for a tree then.
pub fn recovers(alloc: Global, sectors: u32, bytes: Vec<u8>) -> bool {
    if bytes.len() != 512 * sectors as usize {
        return false;
    }
    let mut disk = PlainDisk::new(sectors, bytes);
    if recover(alloc, &mut disk).is_err() {
        return false;
    }
    tree_of(alloc, &mut disk).is_ok()
}

fn script(alloc: Global, text: &str) -> Option<Script> {
    let mut source = PlainSource::new(text.as_bytes().to_vec(alloc).ok()?);
    read_script(alloc, &mut source).ok()
}
