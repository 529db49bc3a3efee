// A tree of paths that isn't numbered yet.
ghost use Rattle.std.specs.Prelude.{◌≡◌, ◌≤◌, IsTrue, IfOk, length, vec_len};
ghost use Rattle.std.specs.FinMap as map;
ghost use Rattle.ufs_model.specs.PathEntries.{pairs_of, are_rising, nodes_of};
ghost use Rattle.ufs_model.specs.PosixTree.{root_alone};
ghost use Rattle.ufs_model.specs.Start.{IsPathTree, path_root, start_of};

use crate::data::{PathEntry, PathNode};
use crate::lists::Bytes;
use std::alloc::Global;
use std::marker::Model;
use ufs_base::Memory;

/// Whole paths, each with what stands there: a directory, or a file's bytes.
#[derive(Drop)]
pub struct PathTree {
    entries: Vec<PathEntry>,
}

impl Model for PathTree {
    ghost use Rattle.std.specs.Prelude.{◌≡◌, true};
    ghost use Rattle.std.specs.FinMap as map;
    ghost use Rattle.std.specs.Coded.{coded_ℕ, coded_list};
    ghost use Rattle.ufs_model.specs.contracts.data.PathNode as path_node;
    ghost use Rattle.ufs_model.specs.PathEntries.{are_rising, nodes_of};
    ghost use Rattle.ufs_model.specs.Start.{PathNodes};

    ghost Value = { PathNodes };

    ghost coded = { map.code (coded_list coded_ℕ) path_node.the_row.coded };

    ghost view = { λ t. nodes_of t.entries.items };

    ghost invariant = { λ t. are_rising t.entries.items ≡ true };
}

impl PathTree {
    /// The root alone.
    pub fn root_alone(alloc: Global) -> Result<Self, Memory>
        ensures root { IfOk result (λ paths. paths ≡ path_root) }
        ensures tree { IfOk result (λ paths. IsPathTree paths) }
        ensures start { IfOk result (λ paths. start_of paths ≡ root_alone) }
    {
        let mut path = Vec::new(alloc);
        path.push(b'/')?;
        let mut entries = Vec::new(alloc);
        entries.push(PathEntry {
            path: Bytes::from_vec(path),
            node: PathNode::Dir,
        })?;
        Ok(PathTree { entries })
    }

    /// Whether each path is below those after it, by their bytes.
    pub fn are_rising(entries: &[PathEntry]) -> bool
        ensures { result ≡ are_rising entries.now }
    {
        for i in 1..entries.len() {
            let before = entries[i - 1].path.as_slice();
            if before.cmp(&entries[i].path.as_slice()).is_ge() {
                return false;
            }
        }
        true
    }

    /// From entries by rising path, which `are_rising` tests. Takes no memory.
    pub fn from_vec(entries: Vec<PathEntry>) -> Self
        requires { IsTrue (are_rising entries.items) }
        ensures nodes { result ≡ nodes_of entries.items }
        ensures entries { map.entries result ≡ pairs_of entries.items }
        ensures files { (start_of result).next ≤ vec_len entries }
    {
        PathTree { entries }
    }

    /// The entries by rising path. Takes no memory.
    pub fn into_vec(self) -> Vec<PathEntry>
        ensures entries { pairs_of result.items ≡ map.entries self }
        ensures rising { IsTrue (are_rising result.items) }
    {
        self.entries
    }

    /// The entries by rising path.
    pub fn as_slice(&self) -> &[PathEntry]
        ensures entries { pairs_of result.now ≡ map.entries self.now }
        ensures rising { IsTrue (are_rising result.now) }
        ensures files { (start_of self.now).next ≤ length result.now }
    {
        self.entries.as_slice()
    }
}
