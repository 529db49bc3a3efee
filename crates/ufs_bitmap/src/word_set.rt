// A set of blocks below 65,536, one bit a block.
ghost use Rattle.std.specs.Prelude.{◌≡◌, ◌≢◌, ◌+◌, ◌-◌, ◌*◌, ◌<◌, ◌≤◌, ◌↔◌, ℕ, true, false, length, IfOk, IfSome, IfNone, IsNone, IsTrue, slice_index};
ghost use Rattle.std.specs.FinSet as set;
ghost use Rattle.ufs_extent.specs.declared.Run.{Run};
ghost use Rattle.ufs_extent.specs.Runs.{IsRun, blocks_from, end_of};
ghost use Rattle.ufs_bitmap.specs.Blocks.{HoldsAll, HoldsNone, IsLowestRun, run_set};

use std::alloc::Global;
use std::marker::Model;
use ufs_base::{MAX_BLOCKS, Memory};
use ufs_extent::Run;

/// 64 blocks a word; the bit is 1 where the block is in the set.
#[derive(Drop)]
pub(crate) struct WordSet {
    words: Vec<u64>,
    count: u32,
    // Each word below this one is 0.
    low: usize,
}

impl Model for WordSet {
    ghost use Rattle.std.specs.Prelude.{◌≡◌, ◌<◌, ◌≤◌, ◌*◌, ℕ, length, slice_index};
    ghost use Rattle.std.specs.FinSet as set;
    ghost use Rattle.ufs_bitmap.specs.Words.{Members, members_of, members_code};

    ghost Value = { Members };

    ghost coded = { members_code };

    ghost view = { λ s. record { limit = 64 * length s.words.items; blocks = members_of s.words.items } };

    ghost invariant = { λ s. (s.count ≡ set.len (members_of s.words.items)) × (length s.words.items ≤ 1024) × (s.low ≤ length s.words.items) × ((i : ℕ) → i < s.low → slice_index s.words.items i ≡ 0) };
}

impl WordSet {
    /// The empty set, with room for the blocks below 64 times `words`.
    pub(crate) fn make(alloc: Global, words: usize) -> Result<WordSet, Memory>
        requires { words ≤ 1024 }
        ensures limit { IfOk result (λ s. s.limit ≡ 64 * words) }
        ensures blocks { IfOk result (λ s. s.blocks ≡ set.empty) }
    {
        Ok(WordSet {
            words: vec![in alloc; 0; words]?,
            count: 0,
            low: words,
        })
    }

    pub(crate) fn count(&self) -> u32
        ensures { result ≡ set.len self.now.blocks }
    {
        self.count
    }

    pub(crate) fn contains(&self, block: u32) -> bool
        ensures value { result ≡ set.contains self.now.blocks block }
        ensures limit { IsTrue result → block < self.now.limit }
        ensures small { self.now.limit ≤ MAX_BLOCKS }
    {
        match self.words.get(block as usize / 64) {
            Some(word) => (word >> (block % 64)) & 1 == 1,
            None => false,
        }
    }

    pub(crate) fn insert(&mut self, block: u32)
        requires inside { block < self.old.limit }
        requires absent { set.contains self.old.blocks block ≡ false }
        ensures { self.new ≡ record self.old { blocks = set.insert self.old.blocks block } }
    {
        let word = block as usize / 64;
        self.words[word] |= 1 << (block % 64);
        self.count += 1;
        self.low = self.low.min(word);
    }

    pub(crate) fn remove(&mut self, block: u32)
        requires { set.contains self.old.blocks block ≡ true }
        ensures { self.new ≡ record self.old { blocks = set.remove self.old.blocks block } }
    {
        let word = block as usize / 64;
        self.words[word] &= !(1 << (block % 64));
        self.count -= 1;
    }

    // The lowest block of the set. The words below it aren't looked at again until a block comes into them.
    fn lowest(&mut self) -> Option<u32>
        ensures same { self.new ≡ self.old }
        ensures held { IfSome result (λ b. set.contains self.old.blocks b ≡ true) }
        ensures lowest { IfSome result (λ b. (q : ℕ) → q < b → set.contains self.old.blocks q ≡ false) }
        ensures small { IfSome result (λ b. b < MAX_BLOCKS) }
        ensures none { IfNone result (self.old.blocks ≡ set.empty) }
    {
        self.low = first_word(self.words.as_slice(), self.low);
        if self.low == self.words.len() {
            return None;
        }
        Some(64 * self.low as u32 + self.words[self.low].trailing_zeros())
    }

    pub(crate) fn take_run(&mut self, want: u32) -> Option<Run>
        requires { 1 ≤ want }
        ensures run { IfSome result IsRun }
        ensures lowest { IfSome result (IsLowestRun self.old.blocks want) }
        ensures taken { IfSome result (λ r. self.new ≡ record self.old { blocks = set.difference self.old.blocks (run_set r) }) }
        ensures none { IsNone result ↔ (self.old.blocks ≡ set.empty) }
        ensures same { IfNone result (self.new ≡ self.old) }
    {
        let start = self.lowest()?;
        let mut length = 0;
        while length < want && self.contains(start + length) {
            self.remove(start + length);
            length += 1;
        }
        Some(Run { start, length })
    }

    /// The blocks from `first` up to `end` come in.
    pub(crate) fn insert_all(&mut self, first: u32, end: u32)
        requires inside { end ≤ self.old.limit }
        requires absent { (b : ℕ) → first ≤ b → b < end → set.contains self.old.blocks b ≡ false }
        ensures { self.new ≡ record self.old { blocks = set.union self.old.blocks (set.from_list (blocks_from first (end - first))) } }
    {
        for block in first..end {
            self.insert(block);
        }
    }

    pub(crate) fn give(&mut self, run: Run)
        requires run { IsRun run }
        requires inside { end_of run ≤ self.old.limit }
        requires absent { HoldsNone self.old.blocks run }
        ensures { self.new ≡ record self.old { blocks = set.union self.old.blocks (run_set run) } }
    {
        self.insert_all(run.start, run.start + run.length);
    }

    pub(crate) fn claim(&mut self, run: Run)
        requires run { IsRun run }
        requires held { HoldsAll self.old.blocks run }
        ensures { self.new ≡ record self.old { blocks = set.difference self.old.blocks (run_set run) } }
    {
        for block in run.start..run.start + run.length {
            self.remove(block);
        }
    }
}

// The first word from `from` on that isn't 0, or the length.
fn first_word(words: &[u64], from: usize) -> usize
    requires { from ≤ length words.now }
    ensures within { result ≤ length words.now }
    ensures above { from ≤ result }
    ensures passed { (i : ℕ) → from ≤ i → i < result → slice_index words.now i ≡ 0 }
    ensures stops { result < length words.now → slice_index words.now result ≢ 0 }
{
    let mut word = from;
    while word < words.len() && words[word] == 0 {
        word += 1;
    }
    word
}
