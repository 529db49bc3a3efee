// The orphans among what was read, and the commit numbers.
ghost use Rattle.std.specs.Prelude.{ℕ, ◌≡◌, ◌≤◌, ◌<◌, Some, length, IsTrue, IfOk, true, false};
ghost use Rattle.std.specs.List.{slice_get};
ghost use Rattle.ufs_layout.specs.InodeForm.{InodeForm};
ghost use Rattle.ufs_recovery.specs.Orphans.{AreNumbersBelow, AreTold, HasNone, orphan_dir_number, orphan_number};

use crate::pruning::Orphans;
use std::alloc::Global;
use ufs_base::Memory;
use ufs_layout::Inode;

fn orphan_number(form: &Option<Inode>, reached: bool) -> Option<u64>
    ensures { result ≡ orphan_number form.now reached }
{
    let Some(form) = form else {
        return None;
    };
    if reached || form.kind == 0 {
        return None;
    }
    Some(form.number)
}

fn orphan_dir_number(form: &Option<Inode>, reached: bool) -> Option<u64>
    ensures { result ≡ orphan_dir_number form.now reached }
{
    let Some(form) = form else {
        return None;
    };
    if reached || form.kind != 2 {
        return None;
    }
    Some(form.number)
}

// The orphans, where the marks say which inodes a walk meets.
pub(crate) fn find_orphans(
    alloc: Global,
    forms: &[Option<Inode>],
    reached: &[bool],
) -> Result<Orphans, Memory>
    requires { length reached.now ≡ length forms.now }
    ensures counted { IfOk result (λ o. length o.numbers.items ≡ length forms.now) }
    ensures counted_dirs { IfOk result (λ o. length o.dirs.items ≡ length forms.now) }
    ensures numbers { IfOk result (λ o. AreTold orphan_number forms.now reached.now o.numbers.items) }
    ensures dirs { IfOk result (λ o. AreTold orphan_dir_number forms.now reached.now o.dirs.items) }
{
    let mut numbers = Vec::with_capacity(alloc, forms.len())?;
    let mut dirs = Vec::with_capacity(alloc, forms.len())?;
    for place in 0..forms.len() {
        numbers.push(orphan_number(&forms[place], reached[place]))?;
        dirs.push(orphan_dir_number(&forms[place], reached[place]))?;
    }
    Ok(Orphans { numbers, dirs })
}

// Whether no place has a number.
pub(crate) fn has_none(numbers: &[Option<u64>]) -> bool
    ensures yes { IsTrue result → HasNone numbers.now }
    ensures no { result ≡ false → ¬ HasNone numbers.now }
{
    for number in numbers {
        if number.is_some() {
            return false;
        }
    }
    true
}

// The highest commit number of these inodes; 0 where there is none.
pub(crate) fn highest_number(forms: &[Option<Inode>]) -> u64
    ensures most { (place : ℕ) (form : InodeForm) → slice_get forms.now place ≡ Some (Some form) → form.number ≤ result }
    ensures least { (n : ℕ) → 0 < n → AreNumbersBelow forms.now n → result < n }
{
    let mut highest = 0;
    for place in 0..forms.len() {
        let Some(form) = &forms[place] else {
            continue;
        };
        highest = highest.max(form.number);
    }
    highest
}
