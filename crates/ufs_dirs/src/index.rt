// Looking a name up in the places of the used slots, which rise by name.
ghost use Rattle.std.specs.Prelude.{IfOk, IfErr};
ghost use Rattle.ufs_dirs.specs.Index.{IsIndex, IsRankOf, IsGapFor, IsNextRank};

use std::cmp::Ordering;
use ufs_layout::Dentry;

/// The name's rank among the names, or the one that it would have.
pub(crate) fn search(slots: &[Dentry], order: &[u32], name: &[u8]) -> Result<usize, usize>
    requires { IsIndex slots.now order.now }
    ensures found { IfOk result (IsRankOf slots.now order.now name.now) }
    ensures absent { IfErr result (IsGapFor slots.now order.now name.now) }
{
    let mut low = 0;
    let mut high = order.len();
    while low < high {
        let middle = low + (high - low) / 2;
        let other = slots[order[middle] as usize].name_bytes();
        match other.cmp(&name) {
            Ordering::Less => low = middle + 1,
            Ordering::Equal => return Ok(middle),
            Ordering::Greater => high = middle,
        }
    }
    Err(low)
}

/// The rank of the next name above this one; the number of names where there is none.
pub(crate) fn next_rank(slots: &[Dentry], order: &[u32], after: &[u8]) -> usize
    requires { IsIndex slots.now order.now }
    ensures { IsNextRank slots.now order.now after.now result }
{
    match search(slots, order, after) {
        Ok(rank) => rank + 1,
        Err(rank) => rank,
    }
}
