// Directories with names that no walk from the root meets.
ghost use Rattle.std.specs.Prelude.{ℕ, List, ◌≡◌, ◌<◌, ◌≤◌, ◌+◌, ◌-◌, true, false, Some, length, IsSome, IfSome, IfNone};
ghost use Rattle.std.specs.List.{slice_get};
ghost use Rattle.ufs_dirs.specs.Directory.{entry_of};
ghost use Rattle.ufs_dir_tree.specs.DirEdits.{dir_in};

use ufs_dirs::DirBlocks;

// Whether the inode at this place isn't marked, and a name stands in its directory.
fn is_unreached(dirs: &[DirBlocks], marks: &[bool], place: usize) -> bool
    requires counted { length dirs.now ≡ length marks.now + 1 }
    requires within { place < length marks.now }
    ensures reached { result ≡ false → (name : List ℕ) → IsSome (entry_of (dir_in dirs.now (place + 1)).slots name) → slice_get marks.now place ≡ Some true }
    ensures named { result ≡ true → (name : List ℕ) × IsSome (entry_of (dir_in dirs.now (place + 1)).slots name) }
    ensures unmarked { result ≡ true → slice_get marks.now place ≡ Some false }
{
    if marks[place] {
        return false;
    }
    !dirs[place + 1].is_empty()
}

/// The first inode that isn't marked and in whose directory a name stands. The first mark is that of inode 1.
pub(crate) fn unreached(dirs: &[DirBlocks], marks: &[bool]) -> Option<u32>
    requires counted { length dirs.now ≡ length marks.now + 1 }
    requires few { length dirs.now ≤ 65536 }
    ensures none { IfNone result ((place : ℕ) (name : List ℕ) → IsSome (entry_of (dir_in dirs.now (place + 1)).slots name) → slice_get marks.now place ≡ Some true) }
    ensures named { IfSome result (λ i. (name : List ℕ) × IsSome (entry_of (dir_in dirs.now i).slots name)) }
    ensures unmarked { IfSome result (λ i. slice_get marks.now (i - 1) ≡ Some false) }
{
    for place in 0..marks.len() {
        if is_unreached(dirs, marks, place) {
            return Some(place as u32 + 1);
        }
    }
    None
}
