// The free inodes, by the forms that were read.
ghost use Rattle.std.specs.Prelude.{ℕ, ◌≡◌, ◌≤◌, ◌<◌, ◌+◌, ◌&&◌, ◌==◌, not, true, length, IfOk};
ghost use Rattle.std.specs.FinSet as set;
ghost use Rattle.ufs_base.specs.declared.sizes.TheConstants.{MAX_BLOCKS};
ghost use Rattle.ufs_bitmap.specs.Space.{is_between};
ghost use Rattle.ufs_layout.specs.Areas.{IsGeometry};
ghost use Rattle.ufs_start.specs.Tables.{is_used_in};

use std::alloc::Global;
use ufs_base::Memory;
use ufs_bitmap::Bitmap;
use ufs_extent::Run;
use ufs_layout::{Geometry, Inode};

const FREE: u8 = 0;

// Whether the inode isn't free, by the forms of inode 1, 2, ..
fn is_used(forms: &[Option<Inode>], inode: u32) -> bool
    requires from_one { 1 ≤ inode }
    requires within { inode ≤ length forms.now }
    ensures { result ≡ is_used_in forms.now inode }
{
    match &forms[inode as usize - 1] {
        Some(form) => form.kind != FREE,
        None => true,
    }
}

// An inode that is free stays so unless it is used.
fn leave_out(free: &mut Bitmap, used: bool, inode: u32)
    requires first { free.old.first ≤ inode }
    requires last { inode < free.old.blocks }
    requires small { free.old.blocks ≤ MAX_BLOCKS }
    requires free { set.contains free.old.free inode ≡ true }
    ensures first { free.new.first ≡ free.old.first }
    ensures blocks { free.new.blocks ≡ free.old.blocks }
    ensures left { (i : ℕ) → set.contains free.new.free i ≡ (set.contains free.old.free i && not (i == inode && used)) }
{
    if used {
        free.claim(Run {
            start: inode,
            length: 1,
        });
    }
}

/// The inodes past the root that aren't used.
pub(crate) fn free_inodes(
    alloc: Global,
    geometry: &Geometry,
    forms: &[Option<Inode>],
) -> Result<Bitmap, Memory>
    requires geometry { IsGeometry geometry.now }
    requires counted { length forms.now ≡ geometry.now.inodes }
    ensures first { IfOk result (λ m. m.first ≡ 2) }
    ensures last { IfOk result (λ m. m.blocks ≡ geometry.now.inodes + 1) }
    ensures free { IfOk result (λ m. (i : ℕ) → set.contains m.free i ≡ (is_between 2 (geometry.now.inodes + 1) i && not (is_used_in forms.now i))) }
{
    let end = geometry.inodes + 1;
    let mut free = Bitmap::all_free(alloc, 2, end)?;
    for inode in 2..end {
        leave_out(&mut free, is_used(forms, inode), inode);
    }
    Ok(free)
}
