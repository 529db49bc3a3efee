// The tree that a session begins with.
ghost use Rattle.std.specs.Prelude.{◌≡◌, ◌≤◌, ◌^◌, IsTrue, IfOk, OnOk, None};
ghost use Rattle.std.specs.FinMap as map;
ghost use Rattle.ufs_model.specs.PathEntries.{pairs_of, are_rising, nodes_of};
ghost use Rattle.ufs_model.specs.Paths.{IsWhole};
ghost use Rattle.ufs_model.specs.PosixTree.{IsTree};
ghost use Rattle.ufs_model.specs.Start.{IsPathTree, HasContents, IsNumberedByPath, start_from, start_of, next_after};
ghost use Rattle.ufs_tree.specs.Parts.{tree_of};
ghost use Rattle.ufs_tree.specs.Placed.{with_path};

use crate::fd_map::FdMap;
use crate::path_map::PathMap;
use crate::tree::{Parts, Tree};
use std::alloc::Global;
use ufs_base::Lack;
use ufs_calls::FileMap;
use ufs_model::{Bytes, Node, PathEntry, PathNode, PathTree};

// Adds a path. A file gets the next number.
fn place(parts: &mut Parts, entry: &PathEntry) -> Result<(), Lack>
    requires absent { map.get parts.old.paths entry.now.path ≡ None }
    requires whole { IsWhole entry.now.path }
    requires files { next_after parts.old.next entry.now.node ≤ 2 ^ 31 }
    ensures { OnOk result
        (tree_of parts.new ≡ with_path (tree_of parts.old) entry.now.path entry.now.node) }
{
    let path = entry.path.as_slice().to_vec(parts.alloc)?;
    match &entry.node {
        PathNode::Dir => parts.paths.add(parts.alloc, path, Node::Dir)?,
        PathNode::File(bytes) => {
            let file = parts.next;
            let copy = bytes.as_slice().to_vec(parts.alloc)?;
            parts.paths.add(parts.alloc, path, Node::File(file))?;
            parts.bytes.insert(file, Bytes::from_vec(copy))?;
            parts.next = file + 1;
        }
    }
    Ok(())
}

// The maps of the tree of these entries.
fn numbered(alloc: Global, entries: &[PathEntry]) -> Result<Parts, Lack>
    requires rising { IsTrue (are_rising entries.now) }
    requires paths { IsPathTree (nodes_of entries.now) }
    requires files { (start_from (pairs_of entries.now)).next ≤ 2 ^ 31 }
    ensures { IfOk result (λ p. tree_of p ≡ start_from (pairs_of entries.now)) }
{
    let mut parts = Parts {
        alloc,
        paths: PathMap::new(alloc),
        bytes: FileMap::new(alloc),
        fds: FdMap::new(alloc),
        next: 0,
    };
    for entry in entries {
        place(&mut parts, entry)?;
    }
    Ok(parts)
}

impl Tree {
    /// The tree of these paths, its files numbered from 0 by rising path, with nothing open.
    pub fn start(alloc: Global, paths: &PathTree) -> Result<Tree, Lack>
        requires paths { IsPathTree paths.now }
        requires files { (start_of paths.now).next ≤ 2 ^ 31 }
        ensures start { IfOk result (λ tree. tree ≡ start_of paths.now) }
        ensures tree { IfOk result (λ tree. IsTree tree) }
        ensures contents { IfOk result (λ tree. HasContents tree paths.now) }
        ensures numbers { IfOk result (λ tree. IsNumberedByPath tree) }
    {
        ufs_model::a_start_is_a_tree();
        let parts = numbered(alloc, paths.as_slice())?;
        Ok(Tree { parts })
    }
}
