// What stands at a path, among entries by rising path.
ghost use Rattle.std.specs.Prelude.{◌≡◌, IsTrue, Some};
ghost use Rattle.std.specs.FinMap as map;
ghost use Rattle.ufs_model.specs.Order.{path_cmp};
ghost use Rattle.ufs_model.specs.PathEntries.{are_rising, nodes_of, pairs_of};
ghost use Rattle.ufs_model.specs.Start.{is_path_dir};
ghost use Rattle.ufs_image_paths.specs.Placed.{node_of};

use std::cmp::Ordering;
use ufs_model::{PathEntry, PathNode};

// The entry of a path, by halving.
fn entry_at<'a>(entries: &'a [PathEntry], path: &[u8]) -> Option<&'a PathEntry>
    requires { IsTrue (are_rising entries.now) }
    ensures { node_of result ≡ map.find path_cmp path.now (pairs_of entries.now) }
{
    let mut left = entries;
    while !left.is_empty() {
        let mid = left.len() / 2;
        let entry = &left[mid];
        match path.cmp(&entry.path.as_slice()) {
            Ordering::Equal => return Some(entry),
            Ordering::Less => left = &left[..mid],
            Ordering::Greater => left = &left[mid + 1..],
        }
    }
    None
}

/// Whether a directory stands at a path.
pub fn has_dir(entries: &[PathEntry], path: &[u8]) -> bool
    requires { IsTrue (are_rising entries.now) }
    ensures { result ≡ is_path_dir (map.get (nodes_of entries.now) path.now) }
{
    match entry_at(entries, path) {
        Some(entry) => match entry.node {
            PathNode::Dir => true,
            PathNode::File(_) => false,
        },
        None => false,
    }
}
