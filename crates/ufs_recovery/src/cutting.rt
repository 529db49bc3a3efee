// Which blocks of a file its size needs.
ghost use Rattle.std.specs.Prelude.{ℕ, ◌≡◌, ◌≤◌, ◌*◌, ◌^◌, length, flat_map, true, false, Some, IsTrue, IfOk};
ghost use Rattle.std.specs.List.{range_with_len};
ghost use Rattle.ufs_layout.specs.InodeForm.{inode_of, is_inode};
ghost use Rattle.ufs_layout.specs.declared.inode.Extent.{Extent};
ghost use Rattle.ufs_recovery.specs.Fitted.{HaveNoExtra, first_extents, fitted, has_extra};

use std::alloc::Global;
use ufs_base::{BLOCK, MAX_EXTENTS, Memory, SECTOR};
use ufs_layout::{Extent, Inode, put_inode};

// The kind of a file.
const FILE: u8 = 1;

fn count_blocks(extents: &[Extent]) -> u64
    requires { length extents.now ≤ MAX_EXTENTS }
    ensures blocks { result ≡ length (flat_map (λ (e : Extent). range_with_len e.start e.length) extents.now) }
    ensures few { result ≤ MAX_EXTENTS * 2 ^ 32 }
{
    let mut blocks = 0;
    for extent in extents {
        blocks += u64::from(extent.length);
    }
    blocks
}

/// Whether it is a file with a block that its size doesn't need.
pub(crate) fn has_extra(form: &Inode) -> bool
    ensures { result ≡ has_extra form.now }
{
    form.kind == FILE
        && form.size.div_ceil(BLOCK as u64) < count_blocks(&form.extents[..usize::from(form.count)])
}

/// Whether none of them is such a file.
pub(crate) fn are_fitted(forms: &[Option<Inode>]) -> bool
    ensures yes { result ≡ true → HaveNoExtra forms.now }
    ensures no { result ≡ false → ¬ HaveNoExtra forms.now }
{
    for form in forms {
        if let Some(found) = form
            && has_extra(found)
        {
            return false;
        }
    }
    true
}

// The extents of the first so many blocks.
fn first_extents(alloc: Global, extents: &[Extent], count: u64) -> Result<Vec<Extent>, Memory>
    ensures { IfOk result (λ kept. kept.items ≡ first_extents extents.now count) }
{
    let mut kept = Vec::new(alloc);
    let mut left = count;
    for extent in extents {
        let length = left.min(u64::from(extent.length));
        if length > 0 {
            kept.push(Extent {
                start: extent.start,
                length: length as u32,
            })?;
        }
        left -= length;
    }
    Ok(kept)
}

/// The file without the blocks that its size doesn't need.
pub(crate) fn fitted(alloc: Global, form: &Inode) -> Result<Inode, Memory>
    requires { form.now.kind ≡ 1 }
    ensures form { IfOk result (λ i. i ≡ fitted form.now) }
    ensures spelled { IfOk result (λ i. IsTrue (is_inode i)) }
{
    let count = form.size.div_ceil(BLOCK as u64);
    let used = &form.extents[..usize::from(form.count)];
    let kept = first_extents(alloc, used, count)?;
    Ok(Inode::from_extents(form.kind, &kept, form.size, form.number))
}

/// The sector of an inode.
pub(crate) fn inode_sector(form: &Inode) -> [u8; SECTOR]
    requires { IsTrue (is_inode form.now) }
    ensures { inode_of result ≡ Some form.now }
{
    let mut sector = [0; SECTOR];
    put_inode(&mut sector, form);
    sector
}
