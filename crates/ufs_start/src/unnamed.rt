// Files that no path names: they have no number.
ghost use Rattle.std.specs.Prelude.{ℕ, ◌≡◌, ◌<◌, ◌≤◌, ◌+◌, false, true, length, IfSome, IfNone};
ghost use Rattle.ufs_start.specs.Numbers.{is_unnamed_in};

use ufs_layout::Inode;

const FILE: u8 = 1;

// Whether the inode is a file's and has no number, by the forms of inode 1, 2, ..
fn is_unnamed(forms: &[Option<Inode>], files: &[Option<u32>], inode: u32) -> bool
    requires from_one { 1 ≤ inode }
    requires form { inode ≤ length forms.now }
    requires number { inode < length files.now }
    ensures { result ≡ is_unnamed_in forms.now files.now inode }
{
    match &forms[inode as usize - 1] {
        Some(form) => form.kind == FILE && files[inode as usize].is_none(),
        None => false,
    }
}

/// The first inode that is a file's and has no number, by the forms of inode 1, 2, .. and the numbers from inode 0 on.
pub(crate) fn unnamed(forms: &[Option<Inode>], files: &[Option<u32>]) -> Option<u32>
    requires counted { length files.now ≡ length forms.now + 1 }
    requires few { length forms.now ≤ 65536 }
    ensures none { IfNone result ((inode : ℕ) → 1 ≤ inode → inode ≤ length forms.now → is_unnamed_in forms.now files.now inode ≡ false) }
    ensures unnamed { IfSome result (λ i. is_unnamed_in forms.now files.now i ≡ true) }
    ensures from_one { IfSome result (λ i. 1 ≤ i) }
    ensures within { IfSome result (λ i. i ≤ length forms.now) }
{
    for inode in 1..forms.len() as u32 + 1 {
        if is_unnamed(forms, files, inode) {
            return Some(inode);
        }
    }
    None
}
