// Why a request is refused by what stands at the end of its path, and which file it gives.
ghost use Rattle.std.specs.Prelude.{◌≡◌, ◌&&◌, not, is_none, is_some};
ghost use Rattle.ufs_model.specs.Directories as directories;
ghost use Rattle.ufs_base.specs.Choices.{first_of, refused_if};
ghost use Rattle.ufs_model.specs.PosixTree as posix_tree;
ghost use Rattle.ufs_model.specs.Refusals as refusals;
ghost use Rattle.ufs_model.specs.Walk as walk;
ghost use Rattle.ufs_model.specs.declared.data.Errno.TheVariants.{Ebusy, Eexist, Einval, Eisdir, Enoent, Enotdir, Enotempty};
ghost use Rattle.ufs_calls.specs.Modes as modes;

use crate::mode::Mode;
use ufs_model::{Errno, Node};

/// Whether a file stands there.
pub fn is_file(node: Option<Node>) -> bool
    ensures { result ≡ walk.is_file node }
{
    matches!(node, Some(Node::File(_)))
}

/// Whether a directory stands there.
pub fn is_dir(node: Option<Node>) -> bool
    ensures { result ≡ posix_tree.is_dir node }
{
    matches!(node, Some(Node::Dir))
}

/// The number of the file that stands there.
pub fn file_of(node: Option<Node>) -> Option<u32>
    ensures { result ≡ walk.file_of node }
{
    match node {
        Some(Node::File(file)) => Some(file),
        _ => None,
    }
}

/// The file that an `open` gives: the one that is there, or a new one.
pub fn file_named(node: Option<Node>, next: u32) -> Option<u32>
    ensures { result ≡ modes.file_named node next }
{
    match node {
        None => Some(next),
        Some(node) => file_of(Some(node)),
    }
}

/// Of a component above the last: it has to be a directory that is there.
pub fn dir_refusal(node: Option<Node>) -> Option<Errno>
    ensures { result ≡ walk.dir_refusal node }
{
    match node {
        None => Some(Errno::Enoent),
        Some(Node::Dir) => None,
        Some(Node::File(_)) => Some(Errno::Enotdir),
    }
}

/// Of an `open`.
pub fn open_refusal(node: Option<Node>, mode: Mode) -> Option<Errno>
    ensures { result ≡ refusals.open_refusal (modes.mode_of mode) node }
{
    let Some(node) = node else {
        return if mode.creat {
            None
        } else {
            Some(Errno::Enoent)
        };
    };
    if mode.creat && mode.excl {
        return Some(Errno::Eexist);
    }
    if matches!(node, Node::Dir) && (mode.write || mode.creat) {
        return Some(Errno::Eisdir);
    }
    None
}

/// Of a `mkdir`.
pub fn make_refusal(node: Option<Node>) -> Option<Errno>
    ensures { result ≡ refused_if (is_some node) Eexist }
{
    if node.is_some() {
        Some(Errno::Eexist)
    } else {
        None
    }
}

/// Of a `stat`.
pub fn stat_refusal(node: Option<Node>) -> Option<Errno>
    ensures { result ≡ refused_if (is_none node) Enoent }
{
    if node.is_none() {
        Some(Errno::Enoent)
    } else {
        None
    }
}

/// Of an `unlink`.
pub fn unlink_refusal(node: Option<Node>) -> Option<Errno>
    ensures { result ≡ refusals.unlink_refusal node }
{
    match node {
        None => Some(Errno::Enoent),
        Some(Node::Dir) => Some(Errno::Eperm),
        Some(Node::File(_)) => None,
    }
}

/// Of a `list`.
pub fn list_refusal(node: Option<Node>) -> Option<Errno>
    ensures { result ≡ refusals.list_refusal node }
{
    match node {
        None => Some(Errno::Enoent),
        Some(Node::Dir) => None,
        Some(Node::File(_)) => Some(Errno::Enotdir),
    }
}

/// Of a `rmdir`, by whether the path is the root's, what stands there, and whether it has entries.
pub fn rmdir_refusal(is_root: bool, node: Option<Node>, has_entries: bool) -> Option<Errno>
    ensures { result ≡ first_of (refused_if is_root Ebusy) (first_of (refused_if (is_none node) Enoent) (first_of (refused_if (walk.is_file node) Enotdir) (refused_if has_entries Enotempty))) }
{
    if is_root {
        return Some(Errno::Ebusy);
    }
    match node {
        None => Some(Errno::Enoent),
        Some(Node::File(_)) => Some(Errno::Enotdir),
        Some(Node::Dir) if has_entries => Some(Errno::Enotempty),
        Some(Node::Dir) => None,
    }
}

/// Whether the whole path lies below that of a directory, which isn't the root.
pub fn is_below(dir: &[u8], path: &[u8]) -> bool
    ensures { result ≡ directories.is_below dir.now path.now }
{
    let size = dir.len();
    if path.len() <= size || path[size] != b'/' {
        return false;
    }
    &path[..size] == dir
}

/// Of a `rename`: a new name for what stands at one whole path, where another may stand. By what stands at the two,
/// whether the new path lies below the old one, whether they are the same, and whether the new one has entries.
pub fn replace_refusal(
    old: Option<Node>,
    new: Option<Node>,
    is_below: bool,
    is_same: bool,
    has_entries: bool,
) -> Option<Errno>
    ensures { result ≡ first_of (refused_if (posix_tree.is_dir old && is_below) Einval) (first_of (refused_if (walk.is_file old && posix_tree.is_dir new) Eisdir) (first_of (refused_if (posix_tree.is_dir old && walk.is_file new) Enotdir) (refused_if (not is_same && (posix_tree.is_dir new && has_entries)) Enotempty))) }
{
    if is_dir(old) && is_below {
        return Some(Errno::Einval);
    }
    if is_file(old) && is_dir(new) {
        return Some(Errno::Eisdir);
    }
    if is_dir(old) && is_file(new) {
        return Some(Errno::Enotdir);
    }
    if !is_same && is_dir(new) && has_entries {
        return Some(Errno::Enotempty);
    }
    None
}
