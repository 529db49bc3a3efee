// The free blocks of the data area.
ghost use Rattle.std.specs.Prelude.{◌≡◌, ◌+◌, ◌*◌, ◌-◌, ◌/◌, ◌%◌, ◌<◌, ◌≤◌, ◌↔◌, ◌&&◌, if◌then◌else◌, ℕ, true, length, IfOk, IfSome, IfNone, IsNone};
ghost use Rattle.std.specs.Int.{bit_at};
ghost use Rattle.std.specs.FinSet as set;
ghost use Rattle.ufs_extent.specs.Runs.{IsRun, blocks_from};
ghost use Rattle.ufs_bitmap.specs.Blocks.{HoldsAll, HoldsNone, IsLowestRun, run_set};
ghost use Rattle.ufs_bitmap.specs.Space.{Space, IsInside, HasBits, is_between, is_clear, used_bit};

use crate::word_set::WordSet;
use std::alloc::Global;
use std::marker::Model;
use ufs_base::{MAX_BLOCKS, Memory};
use ufs_extent::Run;

/// The free blocks among those from `first` up to `blocks`.
#[derive(Drop)]
pub struct Bitmap {
    first: u32,
    blocks: u32,
    free: WordSet,
}

impl Model for Bitmap {
    ghost use Rattle.ufs_base.specs.declared.sizes.TheConstants.{MAX_BLOCKS};
    ghost use Rattle.std.specs.Prelude.{◌≡◌, ◌≤◌, ◌<◌, ℕ, true};
    ghost use Rattle.std.specs.FinSet as set;
    ghost use Rattle.ufs_bitmap.specs.Space.{Space, space_code};

    ghost Value = { Space };

    ghost coded = { space_code };

    ghost view = { λ m. record { first = m.first; blocks = m.blocks; free = m.free.blocks } };

    ghost invariant = { λ m. (m.blocks ≤ MAX_BLOCKS) × (m.blocks ≤ m.free.limit) × ((b : ℕ) → set.contains m.free.blocks b ≡ true → (m.first ≤ b) × (b < m.blocks)) };
}

impl Bitmap {
    /// Each block from `first` up to `blocks` is free.
    pub fn all_free(alloc: Global, first: u32, blocks: u32) -> Result<Bitmap, Memory>
        requires { blocks ≤ MAX_BLOCKS }
        ensures { IfOk result (λ m. m ≡ record { first = first; blocks = blocks; free = set.from_list (blocks_from first (blocks - first)) }) }
    {
        let mut free = WordSet::make(alloc, blocks.div_ceil(64) as usize)?;
        free.insert_all(first, blocks);
        Ok(Bitmap {
            first,
            blocks,
            free,
        })
    }

    /// How many blocks are free.
    pub fn count(&self) -> u32
        ensures { result ≡ set.len self.now.free }
    {
        self.free.count()
    }

    pub fn is_free(&self, block: u32) -> bool
        requires first { self.now.first ≤ block }
        requires last { block < self.now.blocks }
        ensures { result ≡ set.contains self.now.free block }
    {
        self.free.contains(block)
    }

    /// The lowest free block and the free ones that follow it, at most `want` of them, are used from now on.
    pub fn take_run(&mut self, want: u32) -> Option<Run>
        requires { 1 ≤ want }
        ensures run { IfSome result IsRun }
        ensures inside { IfSome result (IsInside self.old) }
        ensures lowest { IfSome result (IsLowestRun self.old.free want) }
        ensures taken { IfSome result (λ r. self.new ≡ record self.old { free = set.difference self.old.free (run_set r) }) }
        ensures none { IsNone result ↔ (self.old.free ≡ set.empty) }
        ensures first { self.new.first ≡ self.old.first }
        ensures blocks { self.new.blocks ≡ self.old.blocks }
        ensures same { IfNone result (self.new ≡ self.old) }
    {
        self.free.take_run(want)
    }

    /// The run's blocks, which are used, are free from now on.
    pub fn give(&mut self, run: Run)
        requires run { IsRun run }
        requires inside { IsInside self.old run }
        requires used { HoldsNone self.old.free run }
        ensures { self.new ≡ record self.old { free = set.union self.old.free (run_set run) } }
    {
        self.free.give(run);
    }

    /// The run's blocks, which are free, are used from now on.
    pub fn claim(&mut self, run: Run)
        requires run { IsRun run }
        requires inside { IsInside self.old run }
        requires free { HoldsAll self.old.free run }
        ensures { self.new ≡ record self.old { free = set.difference self.old.free (run_set run) } }
    {
        self.free.claim(run);
    }

    /// Fills `bytes` with the bitmap's bytes from byte `from` on, as they stand on the disk: bit b mod 8 of byte b / 8,
    /// least bit first, is 1 where block b is used. Takes no memory.
    pub fn put_bytes(&self, from: u32, bytes: &mut [u8])
        requires { from + length bytes.old ≤ 8192 }
        ensures { HasBits self.now from bytes.new }
    {
        for (at, byte) in bytes.iter_mut().enumerate() {
            *byte = self.used_byte(from + at as u32);
        }
    }

    /// The bitmap whose bytes these are, as far as the blocks from `first` up to `blocks` go.
    pub fn from_bytes(
        alloc: Global,
        first: u32,
        blocks: u32,
        bytes: &[u8],
    ) -> Result<Bitmap, Memory>
        requires small { blocks ≤ MAX_BLOCKS }
        requires long { blocks ≤ 8 * length bytes.now }
        ensures first { IfOk result (λ m. m.first ≡ first) }
        ensures blocks { IfOk result (λ m. m.blocks ≡ blocks) }
        ensures free { IfOk result (λ m. (b : ℕ) → set.contains m.free b ≡ (is_between first blocks b && is_clear bytes.now b)) }
    {
        let mut free = WordSet::make(alloc, blocks.div_ceil(64) as usize)?;
        for block in first..blocks {
            if (bytes[block as usize / 8] >> (block % 8)) & 1 == 0 {
                free.insert(block);
            }
        }
        Ok(Bitmap {
            first,
            blocks,
            free,
        })
    }

    fn used_byte(&self, at: u32) -> u8
        requires { at < 8192 }
        ensures { (i : ℕ) → i < 8 → bit_at result i ≡ used_bit self.now (8 * at + i) }
    {
        let mut byte = 0;
        for bit in 0..8 {
            if self.is_used(8 * at + bit) {
                byte |= 1 << bit;
            }
        }
        byte
    }

    fn is_used(&self, block: u32) -> bool
        ensures { (if result then 1 else 0) ≡ used_bit self.now block }
    {
        block < self.blocks && !self.free.contains(block)
    }
}
