// A file's blocks in memory, by their places in the file.
ghost use Rattle.std.specs.Prelude.{◌≡◌, ◌+◌, ◌*◌, ◌/◌, ◌%◌, ◌-◌, ◌^◌, ◌<◌, ◌≤◌, ◌++◌, [], ◌∷◌, length, take, drop, replicate, All, IfOk, OnOk, OnErr, Some, slice_get, slice_index, true, false};
ghost use Rattle.ufs_file.specs.Content.{AreThere, block_count, marks_cut};
ghost use Rattle.ufs_file.specs.Lists.{over};
ghost use Rattle.ufs_file.specs.Span.{AreWithin};
ghost use Rattle.ufs_file.specs.Table.{bytes_in, marks_of, there_of, IsWhole};

use crate::span::Span;
use std::alloc::{AllocError, Global};
use ufs_base::BLOCK;

/// One block of a file; whether it was written since it was read or made, and whether it is in memory.
#[derive(Drop)]
pub(crate) struct Block {
    // None where it isn't in memory.
    bytes: Vec<u8>,
    pub(crate) dirty: bool,
    pub(crate) there: bool,
}

// Writes within one block.
fn put_in(block: &mut Block, from: usize, fresh: &[u8])
    requires { from + length fresh.now ≤ length block.old.bytes.items }
    ensures bytes { block.new.bytes.items ≡ over block.old.bytes.items from fresh.now }
    ensures dirty { block.new.dirty ≡ true }
    ensures there { block.new.there ≡ block.old.there }
{
    block.bytes[from..from + fresh.len()].copy_from_slice(fresh);
    block.dirty = true;
}

// Writes within the block at place k.
fn put_piece(table: &mut Vec<Block>, k: usize, from: usize, fresh: &[u8])
    requires whole { All IsWhole table.old.items }
    requires place { k < length table.old.items }
    requires there { slice_get (there_of table.old.items) k ≡ Some true }
    requires inside { from + length fresh.now ≤ BLOCK }
    ensures whole { All IsWhole table.new.items }
    ensures length { length table.new.items ≡ length table.old.items }
    ensures bytes { bytes_in table.new.items ≡ over (bytes_in table.old.items) (BLOCK * k + from) fresh.now }
    ensures marks { marks_of table.new.items ≡ over (marks_of table.old.items) k (true ∷ []) }
    ensures there { there_of table.new.items ≡ there_of table.old.items }
{
    let block = &mut table[k];
    put_in(block, from, fresh);
}

/// Writes over bytes that are there; no other byte moves.
pub(crate) fn put_over(table: &mut Vec<Block>, at: usize, fresh: &[u8])
    requires whole { All IsWhole table.old.items }
    requires some { 0 < length fresh.now }
    requires inside { at + length fresh.now ≤ BLOCK * length table.old.items }
    requires there { AreThere (there_of table.old.items) (at / BLOCK) (block_count (at + length fresh.now)) }
    requires small { at + length fresh.now ≤ 2 ^ 32 }
    ensures whole { All IsWhole table.new.items }
    ensures length { length table.new.items ≡ length table.old.items }
    ensures bytes { bytes_in table.new.items ≡ over (bytes_in table.old.items) at fresh.now }
    ensures marks { marks_of table.new.items ≡ over (marks_of table.old.items) (at / BLOCK) (replicate (block_count (at + length fresh.now) - at / BLOCK) true) }
    ensures there { there_of table.new.items ≡ there_of table.old.items }
{
    let end = at + fresh.len();
    for k in at / BLOCK..end.div_ceil(BLOCK) {
        let from = at.max(BLOCK * k);
        let to = end.min(BLOCK * k + BLOCK);
        put_piece(table, k, from - BLOCK * k, &fresh[from - at..to - at]);
    }
}

/// A part of the block at place k.
pub(crate) fn piece(table: &[Block], k: usize, from: usize, count: usize) -> &[u8]
    requires whole { All IsWhole table.now }
    requires place { k < length table.now }
    requires there { slice_get (there_of table.now) k ≡ Some true }
    requires inside { from + count ≤ BLOCK }
    ensures { result.now ≡ take count (drop (BLOCK * k + from) (bytes_in table.now)) }
{
    let block = &table[k];
    &block.bytes[from..from + count]
}

/// A copy of bytes that are there.
pub(crate) fn read_over(
    alloc: Global,
    table: &[Block],
    at: usize,
    count: usize,
) -> Result<Vec<u8>, AllocError>
    requires whole { All IsWhole table.now }
    requires some { 0 < count }
    requires inside { at + count ≤ BLOCK * length table.now }
    requires there { AreThere (there_of table.now) (at / BLOCK) (block_count (at + count)) }
    requires small { at + count ≤ 2 ^ 32 }
    ensures { IfOk result (λ got. got.items ≡ take count (drop at (bytes_in table.now))) }
{
    let mut got = Vec::with_capacity(alloc, count)?;
    let end = at + count;
    for k in at / BLOCK..end.div_ceil(BLOCK) {
        let from = at.max(BLOCK * k);
        let to = end.min(BLOCK * k + BLOCK);
        got.extend_from_slice(piece(table, k, from - BLOCK * k, to - from))?;
    }
    Ok(got)
}

/// So many blocks of zeros, all dirty.
pub(crate) fn zero_blocks(alloc: Global, count: usize) -> Result<Vec<Block>, AllocError>
    ensures whole { IfOk result (λ t. All IsWhole t.items) }
    ensures bytes { IfOk result (λ t. bytes_in t.items ≡ replicate (BLOCK * count) 0) }
    ensures marks { IfOk result (λ t. marks_of t.items ≡ replicate count true) }
    ensures there { IfOk result (λ t. there_of t.items ≡ replicate count true) }
    ensures count { IfOk result (λ t. length t.items ≡ count) }
{
    let mut table = Vec::with_capacity(alloc, count)?;
    for _made in 0..count {
        table.push(Block {
            bytes: vec![in alloc; 0; BLOCK]?,
            dirty: true,
            there: true,
        })?;
    }
    Ok(table)
}

/// So many blocks that aren't in memory.
pub(crate) fn absent_blocks(alloc: Global, count: usize) -> Result<Vec<Block>, AllocError>
    ensures whole { IfOk result (λ t. All IsWhole t.items) }
    ensures bytes { IfOk result (λ t. bytes_in t.items ≡ replicate (BLOCK * count) 0) }
    ensures marks { IfOk result (λ t. marks_of t.items ≡ replicate count false) }
    ensures there { IfOk result (λ t. there_of t.items ≡ replicate count false) }
    ensures count { IfOk result (λ t. length t.items ≡ count) }
{
    let mut table = Vec::with_capacity(alloc, count)?;
    for _made in 0..count {
        table.push(Block {
            bytes: Vec::new(alloc),
            dirty: false,
            there: false,
        })?;
    }
    Ok(table)
}

// The block gets bytes that were read.
fn fill_in(block: &mut Block, bytes: Vec<u8>)
    ensures bytes { block.new.bytes ≡ bytes }
    ensures dirty { block.new.dirty ≡ block.old.dirty }
    ensures there { block.new.there ≡ true }
{
    block.bytes = bytes;
    block.there = true;
}

/// The block at place k gets bytes that were read.
pub(crate) fn fill_at(table: &mut Vec<Block>, k: usize, bytes: Vec<u8>)
    requires whole { All IsWhole table.old.items }
    requires place { k < length table.old.items }
    requires size { length bytes.items ≡ BLOCK }
    ensures whole { All IsWhole table.new.items }
    ensures length { length table.new.items ≡ length table.old.items }
    ensures bytes { bytes_in table.new.items ≡ over (bytes_in table.old.items) (BLOCK * k) bytes.items }
    ensures marks { marks_of table.new.items ≡ marks_of table.old.items }
    ensures there { there_of table.new.items ≡ over (there_of table.old.items) k (true ∷ []) }
{
    let block = &mut table[k];
    fill_in(block, bytes);
}

// Zeros from a place in the block on.
fn clear_behind(block: &mut Block, from: usize)
    requires { from ≤ length block.old.bytes.items }
    ensures bytes { block.new.bytes.items ≡ take from block.old.bytes.items ++ replicate (length block.old.bytes.items - from) 0 }
    ensures dirty { block.new.dirty ≡ true }
    ensures there { block.new.there ≡ block.old.there }
{
    block.bytes[from..].fill(0);
    block.dirty = true;
}

/// Keeps so many bytes, with zeros behind them in the last block.
pub(crate) fn cut_over(table: &mut Vec<Block>, size: usize)
    requires whole { All IsWhole table.old.items }
    requires inside { size ≤ BLOCK * length table.old.items }
    requires there { AreThere (there_of table.old.items) (size / BLOCK) (block_count size) }
    ensures whole { All IsWhole table.new.items }
    ensures count { length table.new.items ≡ block_count size }
    ensures bytes { bytes_in table.new.items ≡ take size (bytes_in table.old.items) ++ replicate (BLOCK * length table.new.items - size) 0 }
    ensures marks { marks_of table.new.items ≡ marks_cut (marks_of table.old.items) size }
    ensures there { there_of table.new.items ≡ take (block_count size) (there_of table.old.items) }
{
    table.truncate(size.div_ceil(BLOCK));
    let from = size % BLOCK;
    if from != 0 {
        clear_at(table, size / BLOCK, from);
    }
}

// Zeros from a place in the block at place k on.
fn clear_at(table: &mut Vec<Block>, k: usize, from: usize)
    requires whole { All IsWhole table.old.items }
    requires place { k < length table.old.items }
    requires there { slice_get (there_of table.old.items) k ≡ Some true }
    requires inside { from ≤ BLOCK }
    ensures whole { All IsWhole table.new.items }
    ensures length { length table.new.items ≡ length table.old.items }
    ensures bytes { bytes_in table.new.items ≡ over (bytes_in table.old.items) (BLOCK * k + from) (replicate (BLOCK - from) 0) }
    ensures marks { marks_of table.new.items ≡ over (marks_of table.old.items) k (true ∷ []) }
    ensures there { there_of table.new.items ≡ there_of table.old.items }
{
    let block = &mut table[k];
    clear_behind(block, from);
}

// Marks the block at place k as written, or as not.
fn mark_at(table: &mut Vec<Block>, k: usize, dirty: bool)
    requires whole { All IsWhole table.old.items }
    requires place { k < length table.old.items }
    requires there { dirty ≡ true → slice_get (there_of table.old.items) k ≡ Some true }
    ensures whole { All IsWhole table.new.items }
    ensures length { length table.new.items ≡ length table.old.items }
    ensures bytes { bytes_in table.new.items ≡ bytes_in table.old.items }
    ensures marks { marks_of table.new.items ≡ over (marks_of table.old.items) k (dirty ∷ []) }
    ensures there { there_of table.new.items ≡ there_of table.old.items }
{
    let block = &mut table[k];
    block.dirty = dirty;
}

/// Marks the blocks from place k on, below another, as written: one at most.
pub(crate) fn mark_rest(table: &mut Vec<Block>, k: usize, end: usize)
    requires whole { All IsWhole table.old.items }
    requires one { end ≤ k + 1 }
    requires place { end ≤ length table.old.items }
    requires there { AreThere (there_of table.old.items) k end }
    ensures whole { All IsWhole table.new.items }
    ensures length { length table.new.items ≡ length table.old.items }
    ensures bytes { bytes_in table.new.items ≡ bytes_in table.old.items }
    ensures marks { marks_of table.new.items ≡ over (marks_of table.old.items) k (replicate (end - k) true) }
    ensures there { there_of table.new.items ≡ there_of table.old.items }
{
    if k < end {
        mark_at(table, k, true);
    }
}

/// Marks every block as not written; those that were written lie in the span.
pub(crate) fn clean_all(table: &mut Vec<Block>, written: Span)
    requires whole { All IsWhole table.old.items }
    requires within { AreWithin written (marks_of table.old.items) }
    ensures whole { All IsWhole table.new.items }
    ensures length { length table.new.items ≡ length table.old.items }
    ensures bytes { bytes_in table.new.items ≡ bytes_in table.old.items }
    ensures marks { marks_of table.new.items ≡ replicate (length table.old.items) false }
    ensures there { there_of table.new.items ≡ there_of table.old.items }
{
    for k in written.from..written.to {
        mark_at(table, k, false);
    }
}
