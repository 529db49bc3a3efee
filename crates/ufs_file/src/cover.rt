// Blocks of zeros for those of a file that aren't in memory.
ghost use Rattle.std.specs.Prelude.{◌≡◌, ◌+◌, ◌-◌, ◌*◌, ◌<◌, ◌≤◌, [], ◌∷◌, length, replicate, All, IfOk, Some, slice_get, true, false};
ghost use Rattle.ufs_file.specs.Lists.{over};
ghost use Rattle.ufs_file.specs.Table.{absent_within, bytes_in, marks_of, there_of, IsWhole, IsZeros};

use crate::blocks::{Block, fill_at};
use std::alloc::{AllocError, Global};
use ufs_base::BLOCK;

// How many of the blocks from one place on, below another, aren't in memory.
fn absent_count(table: &[Block], from: usize, to: usize) -> usize
    requires { to ≤ length table.now }
    ensures { result ≡ absent_within (there_of table.now) from to }
{
    let mut count = 0;
    for k in from..to {
        if !table[k].there {
            count += 1;
        }
    }
    count
}

// The bytes of so many blocks of zeros.
fn zero_bytes(alloc: Global, count: usize) -> Result<Vec<Vec<u8>>, AllocError>
    ensures zeros { IfOk result (λ spare. All IsZeros spare.items) }
    ensures count { IfOk result (λ spare. length spare.items ≡ count) }
{
    let mut spare = Vec::with_capacity(alloc, count)?;
    for _made in 0..count {
        spare.push(vec![in alloc; 0; BLOCK]?)?;
    }
    Ok(spare)
}

/// The bytes of a block of zeros for each of the blocks from one place on, below another, that isn't in memory.
pub(crate) fn spare_for(
    alloc: Global,
    table: &[Block],
    from: usize,
    to: usize,
) -> Result<Vec<Vec<u8>>, AllocError>
    requires { to ≤ length table.now }
    ensures zeros { IfOk result (λ spare. All IsZeros spare.items) }
    ensures count { IfOk result (λ spare. length spare.items ≡ absent_within (there_of table.now) from to) }
{
    zero_bytes(alloc, absent_count(table, from, to))
}

/// The blocks from one place on, below another, are in memory: zeros stand in those that weren't. Takes no memory.
pub(crate) fn cover_all(table: &mut Vec<Block>, from: usize, to: usize, mut spare: Vec<Vec<u8>>)
    requires whole { All IsWhole table.old.items }
    requires inside { to ≤ length table.old.items }
    requires zeros { All IsZeros spare.items }
    requires count { length spare.items ≡ absent_within (there_of table.old.items) from to }
    ensures whole { All IsWhole table.new.items }
    ensures length { length table.new.items ≡ length table.old.items }
    ensures bytes { bytes_in table.new.items ≡ bytes_in table.old.items }
    ensures marks { marks_of table.new.items ≡ marks_of table.old.items }
    ensures there { there_of table.new.items ≡ over (there_of table.old.items) from (replicate (to - from) true) }
{
    for k in from..to {
        if !table[k].there {
            cover_at(table, k, &mut spare);
        }
    }
}

// Zeros stand in the block at place k, which wasn't in memory.
fn cover_at(table: &mut Vec<Block>, k: usize, spare: &mut Vec<Vec<u8>>)
    requires whole { All IsWhole table.old.items }
    requires place { k < length table.old.items }
    requires absent { slice_get (there_of table.old.items) k ≡ Some false }
    requires some { 0 < length spare.old.items }
    requires zeros { All IsZeros spare.old.items }
    ensures whole { All IsWhole table.new.items }
    ensures length { length table.new.items ≡ length table.old.items }
    ensures bytes { bytes_in table.new.items ≡ bytes_in table.old.items }
    ensures marks { marks_of table.new.items ≡ marks_of table.old.items }
    ensures there { there_of table.new.items ≡ over (there_of table.old.items) k (true ∷ []) }
    ensures zeros { All IsZeros spare.new.items }
    ensures count { length spare.new.items + 1 ≡ length spare.old.items }
{
    let Some(bytes) = spare.pop() else {
        unreachable!()
    };
    fill_at(table, k, bytes);
}
