ghost use Rattle.std.specs.Prelude.{◌≡◌, ◌+◌, ◌-◌, ◌≤◌, ◌<◌, ◌++◌, length, replicate, IfOk, OnOk, OnErr};
ghost use Rattle.ufs_file.specs.Content.{Content, no_content, grown, written_over, shortened};

use crate::blocks::{
    Block, absent_blocks, clean_all, cut_over, fill_at, mark_rest, piece, put_over, read_over,
    zero_blocks,
};
use crate::cover::{cover_all, spare_for};
use crate::span::Span;
use std::alloc::Global;
use std::marker::Model;
use std::ops::Range;
use ufs_base::{BLOCK, Memory};

/// The most bytes that a file holds: 65,536 blocks. Requests are refused past `MAX_SIZE` of `ufs_calls`, whatever the file
/// has.
pub const MAX_HELD: u64 = 268_435_456;

/// A file's bytes, kept as a table of blocks by their places in the file, each with marks that tell whether it was
/// written since it was read or made, and whether it is in memory.
#[derive(Drop)]
pub struct Blocks {
    alloc: Global,
    size: usize,
    table: Vec<Block>,
    // Has each block that is marked.
    span: Span,
}

impl Model for Blocks {
    ghost use Rattle.std.specs.Prelude.{take};
    ghost use Rattle.ufs_file.specs.Content.{Content};
    ghost use Rattle.ufs_file.specs.Table.{bytes_in, marks_of, there_of, IsKept};

    ghost Value = { Content };

    ghost view = { λ b. record { bytes = take b.size (bytes_in b.table.items); dirty = marks_of b.table.items; there = there_of b.table.items } };

    ghost invariant = { λ b. IsKept b.size b.table.items b.span };
}

impl Blocks {
    ghost use Rattle.std.specs.Prelude.{ℕ, ◌≡◌, ◌+◌, ◌-◌, ◌*◌, ◌/◌, ◌≤◌, ◌<◌, ◌++◌, length, max, min, take, replicate, slice_get, IfOk, OnOk, OnErr, IfSome, IfNone, Some, true, false};
    ghost use Rattle.ufs_model.specs.FileBytes.{part};
    ghost use Rattle.ufs_file.specs.Content.{AreThere, Content, no_content, as_read, block_bytes, block_count, cleaned, covered, grown, loaded, written_over, shortened, unread};
    ghost use Rattle.ufs_file.specs.Hand.{end_within, read_from};
    ghost use Rattle.ufs_file.specs.Table.{max_held};

    /// No byte. Takes no memory.
    pub fn new(alloc: Global) -> Blocks
        ensures { result ≡ no_content }
    {
        Blocks {
            alloc,
            size: 0,
            table: Vec::new(alloc),
            span: Span::EMPTY,
        }
    }

    /// These bytes, with no block marked as written. It copies them.
    pub fn from_bytes(alloc: Global, bytes: &[u8]) -> Result<Blocks, Memory>
        requires { length bytes.now ≤ max_held }
        ensures { IfOk result (λ b. b ≡ as_read bytes.now) }
    {
        let mut blocks = Blocks::new(alloc);
        blocks.grow(bytes.len() as u64, 0, 0)?;
        blocks.fill(bytes);
        blocks.clean();
        Ok(blocks)
    }

    /// So many bytes of which none is in memory.
    pub fn unread(alloc: Global, size: u64) -> Result<Blocks, Memory>
        requires { size ≤ max_held }
        ensures { IfOk result (λ b. b ≡ unread size) }
    {
        let size = size as usize;
        Ok(Blocks {
            alloc,
            size,
            table: absent_blocks(alloc, size.div_ceil(BLOCK))?,
            span: Span::EMPTY,
        })
    }

    // Writes over all bytes.
    fn fill(&mut self, bytes: &[u8])
        requires long { length bytes.now ≡ length self.old.bytes }
        requires there { self.old.there ≡ replicate (block_count (length bytes.now)) true }
        ensures bytes { self.new.bytes ≡ bytes.now }
        ensures marks { length self.new.dirty ≡ block_count (length bytes.now) }
        ensures there { self.new.there ≡ self.old.there }
    {
        if !bytes.is_empty() {
            self.write(0, bytes);
        }
        // For the prover alone.
        let _size = self.size();
    }

    /// The file's size, in bytes.
    pub fn size(&self) -> u64
        ensures size { result ≡ length self.now.bytes }
        ensures small { result ≤ max_held }
        ensures blocks { length self.now.dirty ≡ block_count (length self.now.bytes) }
        ensures there { length self.now.there ≡ block_count (length self.now.bytes) }
    {
        self.size as u64
    }

    /// How many bytes there are from a place on, at most n.
    pub fn count_from(&self, at: u64, n: u32) -> usize
        ensures count { result ≡ length (part self.now.bytes at n) }
        ensures inside { at + result ≤ max at max_held }
    {
        if at >= self.size as u64 {
            return 0;
        }
        (self.size - at as usize).min(n as usize)
    }

    /// At most n bytes from a place on.
    pub fn read(&self, at: u64, n: u32) -> Result<Vec<u8>, Memory>
        requires { AreThere self.now.there (read_from (length self.now.bytes) at) (end_within (length self.now.bytes) at n) }
        ensures { IfOk result (λ got. got.items ≡ part self.now.bytes at n) }
    {
        let count = self.count_from(at, n);
        if count == 0 {
            return Ok(Vec::new(self.alloc));
        }
        let got = read_over(self.alloc, self.table.as_slice(), at as usize, count)?;
        Ok(got)
    }

    /// The blocks from one place on, below another, are in memory: zeros stand in those that weren't. For these it takes memory.
    pub fn cover(&mut self, from: usize, to: usize) -> Result<(), Memory>
        requires { to ≤ length self.old.there }
        ensures ok { OnOk result (self.new ≡ covered self.old from to) }
        ensures err { OnErr result (self.new ≡ self.old) }
    {
        let spare = spare_for(self.alloc, self.table.as_slice(), from, to)?;
        cover_all(&mut self.table, from, to, spare);
        Ok(())
    }

    /// Lengthens the file with zeros, where it also has the blocks from one place on, below another, in memory. No byte that is
    /// there moves. The block in which the file ended is written: the disk may have other bytes behind the end.
    pub fn grow(&mut self, size: u64, from: usize, to: usize) -> Result<(), Memory>
        requires longer { length self.old.bytes ≤ size }
        requires small { size ≤ max_held }
        requires inside { to ≤ length self.old.there }
        requires there { AreThere (covered self.old from to).there (length self.old.bytes / BLOCK) (block_count (length self.old.bytes)) }
        ensures ok { OnOk result (self.new ≡ grown (covered self.old from to) size) }
        ensures err { OnErr result (self.new ≡ self.old) }
    {
        let size = size as usize;
        let first = self.size / BLOCK;
        let held = self.table.len();
        let count = size.div_ceil(BLOCK) - held;
        let spare = spare_for(self.alloc, self.table.as_slice(), from, to)?;
        let mut more = zero_blocks(self.alloc, count)?;
        self.table.append(&mut more)?;
        cover_all(&mut self.table, from, to, spare);
        mark_rest(&mut self.table, first, held);
        self.span = self.span.widened(first, held + count);
        self.size = size;
        Ok(())
    }

    /// Writes over bytes that are there. Takes no memory, and moves no other byte.
    pub fn write(&mut self, at: u64, fresh: &[u8])
        requires some { 0 < length fresh.now }
        requires inside { at + length fresh.now ≤ length self.old.bytes }
        requires there { AreThere self.old.there (at / BLOCK) (block_count (at + length fresh.now)) }
        ensures { self.new ≡ written_over self.old at fresh.now }
    {
        let at = at as usize;
        put_over(&mut self.table, at, fresh);
        let end = at + fresh.len();
        self.span = self.span.widened(at / BLOCK, end.div_ceil(BLOCK));
    }

    /// Keeps so many bytes. Takes no memory.
    pub fn cut(&mut self, size: u64)
        requires shorter { size ≤ length self.old.bytes }
        requires there { AreThere self.old.there (size / BLOCK) (block_count size) }
        ensures { self.new ≡ shortened self.old size }
    {
        let size = size as usize;
        let count = size.div_ceil(BLOCK);
        cut_over(&mut self.table, size);
        self.span = self.span.below(count).widened(size / BLOCK, count);
        self.size = size;
    }

    /// Whether the block at this place was written since it was read or made.
    pub fn is_dirty(&self, place: usize) -> Option<bool>
        ensures mark { result ≡ slice_get self.now.dirty place }
        ensures there { slice_get self.now.dirty place ≡ Some true → slice_get self.now.there place ≡ Some true }
    {
        match self.table.get(place) {
            Some(block) => Some(block.dirty),
            None => None,
        }
    }

    /// Whether the block at this place is in memory.
    pub fn is_there(&self, place: usize) -> Option<bool>
        ensures { result ≡ slice_get self.now.there place }
    {
        match self.table.get(place) {
            Some(block) => Some(block.there),
            None => None,
        }
    }

    /// A range with the place of each block that was written since it was read or made, from the first of them on. It is
    /// empty where there is none. Each block that was written is in memory.
    pub fn dirty_places(&self) -> Range<usize>
        ensures dirty { (place : ℕ) → slice_get self.now.dirty place ≡ Some true → (result.start ≤ place) × (place < result.end) }
        ensures first { result.start < result.end → slice_get self.now.dirty result.start ≡ Some true }
        ensures held { (place : ℕ) → slice_get self.now.dirty place ≡ Some true → slice_get self.now.there place ≡ Some true }
        ensures ordered { result.start ≤ result.end }
        ensures there { result.end ≤ length self.now.dirty }
    {
        self.span.from..self.span.to
    }

    /// The block at this place, whole, if it is in memory: with zeros behind the file's end.
    pub fn block(&self, place: usize) -> Option<&[u8]>
        ensures bytes { IfSome result (λ b. b.now ≡ block_bytes self.now.bytes place) }
        ensures place { IfSome result (λ b. place < length self.now.dirty) }
        ensures there { IfSome result (λ b. slice_get self.now.there place ≡ Some true) }
        ensures none { IfNone result (slice_get self.now.there place ≡ Some true → ⊥) }
    {
        match self.is_there(place) {
            Some(true) => Some(piece(self.table.as_slice(), place, 0, BLOCK)),
            _ => None,
        }
    }

    /// The block at this place was read. What it has behind the file's end isn't kept. Copies it.
    pub fn load(&mut self, place: usize, block: &[u8]) -> Result<(), Memory>
        requires absent { slice_get self.old.there place ≡ Some false }
        requires size { length block.now ≡ BLOCK }
        ensures ok { OnOk result (self.new ≡ loaded self.old place block.now) }
        ensures err { OnErr result (self.new ≡ self.old) }
    {
        let inside = (self.size - BLOCK * place).min(BLOCK);
        let bytes = padded(self.alloc, &block[..inside])?;
        fill_at(&mut self.table, place, bytes);
        Ok(())
    }

    /// What was written is on a disk: no block is marked any more. Takes no memory.
    pub fn clean(&mut self)
        ensures { self.new ≡ cleaned self.old }
    {
        clean_all(&mut self.table, self.span);
        self.span = Span::EMPTY;
    }
}

// A block of these bytes, with zeros behind them.
fn padded(alloc: Global, bytes: &[u8]) -> Result<Vec<u8>, Memory>
    requires { length bytes.now ≤ BLOCK }
    ensures { IfOk result (λ got. got.items ≡ bytes.now ++ replicate (BLOCK - length bytes.now) 0) }
{
    let mut got = Vec::with_capacity(alloc, BLOCK)?;
    got.extend_from_slice(bytes)?;
    got.resize(BLOCK, 0)?;
    Ok(got)
}
