// Whether paths form a tree.
ghost use Rattle.std.specs.Prelude.{◌≡◌, ◌≢◌, ◌<◌, ◌+◌, ◌∷◌, ◌++◌, [], ℕ, List, IfSome, None, IsTrue, ◌↔◌, length, take, drop, true, false};
ghost use Rattle.ufs_model.specs.PathEntries.{are_rising, nodes_of};
ghost use Rattle.ufs_model.specs.PosixTree.{root};
ghost use Rattle.ufs_model.specs.Start.{IsPathTree};
ghost use Rattle.ufs_model.proofs.Facts.Pieces.{is_free};
ghost use Rattle.ufs_image_paths.specs.Placed.{ArePlaced, IsBelowDir, IsLastSlash, IsPathName, IsPlaced, dir_above};

use crate::lookup::has_dir;
use ufs_model::{PathEntry, PathTree};
use ufs_path::path_fault;

fn is_root(path: &[u8]) -> bool
    ensures { IsTrue result ↔ (path.now ≡ root) }
{
    path == b"/".as_slice()
}

// Where the last slash stands.
fn last_slash(path: &[u8]) -> Option<usize>
    ensures some { IfSome result (IsLastSlash path.now) }
    ensures none { result ≡ None → is_free path.now ≡ true }
{
    let mut end = path.len();
    while end > 0 {
        if path[end - 1] == b'/' {
            return Some(end - 1);
        }
        end -= 1;
    }
    None
}

// Whether a name may stand in a path, by its text behind a slash.
fn is_name(text: &[u8]) -> bool
    ensures { (name : List ℕ) → text.now ≡ 47 ∷ name → is_free name ≡ true → IsTrue result ↔ IsPathName name }
{
    text.len() > 1 && path_fault(text).is_none()
}

// The path of the directory, by the place of the slash behind it.
fn above(path: &[u8], at: usize) -> &[u8]
    requires { IsLastSlash path.now at }
    ensures { result.now ≡ dir_above (take at path.now) }
{
    if at == 0 { &path[..1] } else { &path[..at] }
}

// Whether what follows the last slash is a name below a directory.
fn is_below_dir(entries: &[PathEntry], path: &[u8], at: usize) -> bool
    requires rising { IsTrue (are_rising entries.now) }
    requires last { IsLastSlash path.now at }
    ensures { IsTrue result ↔ IsBelowDir (nodes_of entries.now) path.now }
{
    if is_root(&path[..at]) {
        return false;
    }
    if !is_name(&path[at..]) {
        return false;
    }
    has_dir(entries, above(path, at))
}

fn is_placed(entries: &[PathEntry], path: &[u8]) -> bool
    requires { IsTrue (are_rising entries.now) }
    ensures { IsTrue result ↔ IsPlaced (nodes_of entries.now) path.now }
{
    if is_root(path) {
        return true;
    }
    match last_slash(path) {
        Some(at) => is_below_dir(entries, path, at),
        None => false,
    }
}

fn are_placed(entries: &[PathEntry]) -> bool
    requires { IsTrue (are_rising entries.now) }
    ensures yes { result ≡ true → ArePlaced entries.now }
    ensures no { result ≡ false → ArePlaced entries.now → ⊥ }
{
    for i in 0..entries.len() {
        if !is_placed(entries, entries[i].path.as_slice()) {
            return false;
        }
    }
    true
}

/// Whether the root and each parent are directories, and each path is whole. Takes no memory, and time that is linear in the
/// paths' bytes with a logarithm.
pub fn is_path_tree(paths: &PathTree) -> bool
    ensures { IsTrue result ↔ IsPathTree paths.now }
{
    let entries = paths.as_slice();
    has_dir(entries, b"/".as_slice()) && are_placed(entries)
}
