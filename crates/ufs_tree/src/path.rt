// The parts of a whole path.
ghost use Rattle.std.specs.Prelude.{◌≡◌, ◌≢◌, ◌≤◌, ◌&&◌, not};
ghost use Rattle.std.specs.Str.{bytes_eq};
ghost use Rattle.ufs_model.specs.Directories.{is_entry_of, last_name};
ghost use Rattle.ufs_model.specs.Paths.{IsWhole, components, parent_of};
ghost use Rattle.ufs_model.specs.PosixTree.{root};
ghost use Rattle.ufs_tree.specs.Below.{front, IsNameStart};

pub fn is_root(path: &[u8]) -> bool
    ensures { result ≡ bytes_eq path.now root }
{
    path == b"/".as_slice()
}

// The place after the last slash.
fn name_start(path: &[u8]) -> usize
    ensures { IsNameStart path.now result }
{
    let mut end = path.len();
    while end > 0 {
        if path[end - 1] == b'/' {
            return end;
        }
        end -= 1;
    }
    end
}

/// The path above; above the root there is the root.
pub fn parent(path: &[u8]) -> &[u8]
    requires { IsWhole path.now }
    ensures { result.now ≡ parent_of path.now }
{
    let end = name_start(path);
    if end <= 1 {
        &path[..1]
    } else {
        &path[..end - 1]
    }
}

/// The last name.
pub fn name(path: &[u8]) -> &[u8]
    requires whole { IsWhole path.now }
    requires not_root { path.now ≢ root }
    ensures { result.now ≡ last_name (components path.now) }
{
    &path[name_start(path)..]
}

/// Whether the path is an entry of the directory.
pub fn is_entry(dir: &[u8], path: &[u8]) -> bool
    requires { IsWhole path.now }
    ensures { result ≡ is_entry_of dir.now path.now }
{
    parent(path) == dir && !is_root(path)
}

/// What stands before the slash in the paths of a directory's entries.
pub fn front(dir: &[u8]) -> &[u8]
    ensures { result.now ≡ front dir.now }
{
    if is_root(dir) { &[] } else { dir }
}
