// Requests on a file whose commits are kept beside it.
ghost use Rattle.std.specs.Prelude.{ℕ, List, ◌≡◌, ◌<◌, ◌≤◌, ◌-◌, ◌++◌, length, take, true, false, None, Some, IfOk, OnOk, OnErr, All, if◌then◌else◌, slice_get};
ghost use Rattle.std.specs.FinSet as set;
ghost use Rattle.ufs_base.specs.declared.sizes.TheConstants.{MAX_EXTENTS};
ghost use Rattle.ufs_bitmap.specs.Blocks.{BlockSet};
ghost use Rattle.ufs_bitmap.specs.Taking.{IsApart};
ghost use Rattle.ufs_extent.specs.Runs.{IsRun, blocks_of, last_runs};
ghost use Rattle.ufs_file.specs.Content.{IsContentOf, block_count, own_bytes};
ghost use Rattle.ufs_file.specs.Hand.{HasNeeded, IsEntryOf, IsExcusedFor, IsFileOf, IsOf, IsPosix, whole_as};
ghost use Rattle.ufs_file.specs.Table.{max_held};
ghost use Rattle.ufs_model.specs.Asks.{IsAsk};
ghost use Rattle.ufs_model.specs.Bounds.{IsBounded};
ghost use Rattle.ufs_model.specs.Excuses.{ExcuseFits};
ghost use Rattle.ufs_model.specs.FileBytes as file_bytes;
ghost use Rattle.ufs_model.specs.FileCalls.{file_refusal, file_step, is_on_file};
ghost use Rattle.ufs_model.specs.History.{is_excused};
ghost use Rattle.ufs_model.specs.PosixTree.{PosixTree};
ghost use Rattle.ufs_model.specs.declared.data.Desc.{Desc};
ghost use Rattle.ufs_model.specs.declared.data.Excuse.{Excuse};
ghost use Rattle.ufs_model.specs.declared.data.Reply.TheVariants as reply;
ghost use Rattle.ufs_file_commits.specs.State.{IsNoted, blocks_held, state_of, whole_of};
ghost use Rattle.ufs_file_commits.specs.Serving.{IsApplied, IsServedKept, content_behind, noted_as};

use crate::durable::FileCommits;
use std::alloc::Global;
use std::mem;
use ufs_base::{BLOCK, Lack, Memory};
use ufs_bitmap::Pool;
use ufs_calls::{MAX_SIZE, desc_refusal, is_past, place_of};
use ufs_extent::{Extents, Run, Runs};
use ufs_file::{Applied, FileHand, out_of_memory};
use ufs_model::{Actor, Ask, Bytes, Desc, Op, Reply};

/// Serves a request on a descriptor of the file, as `FileHand::apply` does, and notes what changed. Blocks
/// that the file has no use for are dropped: they are nobody's until the file's next commit, and the pool
/// gets none. Where room is wanting the reply is the excuse for its cause, and nothing has changed. The caller
/// has fetched the blocks that the request needs, unless it is refused; what is said here holds for whatever bytes the others have.
/// A block that isn't in memory afterwards wasn't before, and keeps its bytes.
pub fn apply(
    hand: &mut FileHand,
    commits: &mut FileCommits,
    ask: Ask,
    by: Actor,
    ticket: u64,
    pool: &mut Pool,
) -> Applied
    requires kind { is_on_file ask.op ≡ true }
    requires bounded { IsBounded ask.op }
    requires named { IsOf ask.desc hand.old.file }
    requires noted { IsNoted (state_of hand.old commits.old) }
    requires apart { IsApart pool.old (blocks_held (state_of hand.old commits.old)) }
    requires there { (d : Desc) → ask.desc ≡ Some d → file_refusal hand.old.content.bytes d ask.op ≡ None → HasNeeded hand.old.content d ask.op }
    ensures entry { IsEntryOf ask by ticket result.entry }
    ensures served { is_excused result.entry.reply ≡ false → (d : Desc) → ask.desc ≡ Some d → (bytes : List ℕ) → IsContentOf hand.old.content bytes
        → IsServedKept (whole_of bytes (state_of hand.old commits.old)) (whole_of (file_step bytes d ask.op).bytes (state_of hand.new commits.new)) pool.old pool.new d ask.op result.entry.reply result.desc }
    ensures goes_on { is_excused result.entry.reply ≡ false → (d : Desc) → ask.desc ≡ Some d → (bytes : List ℕ) → IsContentOf hand.old.content bytes → IsContentOf hand.new.content (file_step bytes d ask.op).bytes }
    ensures excused { (x : Excuse) → result.entry.reply ≡ reply.Excused x → (d : Desc) → ask.desc ≡ Some d → (bytes : List ℕ) → IsContentOf hand.old.content bytes → IsExcusedFor (whole_as bytes hand.old) d ask.op pool.old x }
    ensures posix { is_excused result.entry.reply ≡ false → (t : PosixTree) → IsFileOf hand.old t → IsAsk t ask → IsPosix t ask hand.new result.entry.reply result.desc }
    ensures fits { (x : Excuse) → result.entry.reply ≡ reply.Excused x → (t : PosixTree) → IsFileOf hand.old t → IsAsk t ask → ExcuseFits t ask.client ask.op x }
    ensures number { hand.new.file ≡ hand.old.file }
    ensures inode { hand.new.inode ≡ hand.old.inode }
    ensures few { length hand.new.extents ≤ MAX_EXTENTS }
    ensures noted { IsNoted (state_of hand.new commits.new) }
    ensures committed { commits.new.log.committed ≡ commits.old.log.committed }
    ensures together { set.union pool.new (set.from_list (blocks_held (state_of hand.new commits.new))) ≡ set.union pool.old (set.from_list (blocks_held (state_of hand.old commits.old))) }
    ensures taken { (block : ℕ) → set.contains pool.new block ≡ true → set.contains pool.old block ≡ true }
    ensures apart { IsApart pool.new (blocks_held (state_of hand.new commits.new)) }
    ensures away { is_excused result.entry.reply ≡ false → (d : Desc) → ask.desc ≡ Some d → (bytes : List ℕ) → IsContentOf hand.old.content bytes → (place : ℕ) → slice_get hand.new.content.there place ≡ Some false
        → (slice_get hand.old.content.there place ≡ Some false) × (own_bytes (file_step bytes d ask.op).bytes place ≡ own_bytes bytes place) }
    ensures kept { is_excused result.entry.reply ≡ true → state_of hand.new commits.new ≡ state_of hand.old commits.old }
    ensures pool { is_excused result.entry.reply ≡ true → pool.new ≡ pool.old }
    ensures desc { is_excused result.entry.reply ≡ true → result.desc ≡ ask.desc }
{
    let Some(desc) = ask.desc else { unreachable!() };
    let blocks = blocks_behind(hand, &ask.op, desc);
    let held = hand.block_count();
    if blocks > held {
        apply_growing(hand, commits, ask, by, ticket, pool)
    } else if blocks < held {
        apply_cutting(hand, commits, ask, by, ticket, blocks)
    } else {
        apply_in_place(hand, commits, ask, by, ticket, pool)
    }
}

// How many blocks the file has behind a request.
fn blocks_behind(hand: &FileHand, op: &Op, desc: Desc) -> u32
    ensures { result ≡ block_count (length (content_behind hand.now desc op.now).bytes) }
{
    size_behind(hand, op, desc).div_ceil(BLOCK as u64) as u32
}

// How many bytes the file has behind a request.
fn size_behind(hand: &FileHand, op: &Op, desc: Desc) -> u64
    ensures size { result ≡ length (content_behind hand.now desc op.now).bytes }
    ensures small { result ≤ max_held }
{
    let held = hand.size();
    if desc_refusal(op, Some(desc)).is_some() {
        return held;
    }
    match op {
        Op::Write { bytes, .. } => end_behind(held, place_of(desc, held), bytes),
        Op::Pwrite { bytes, at, .. } => end_behind(held, *at, bytes),
        Op::Trunc { size, .. } if *size <= MAX_SIZE => *size,
        _ => held,
    }
}

// How many bytes a file of `held` bytes has once these are written, unless they end past the greatest size.
fn end_behind(held: u64, at: u64, fresh: &Bytes) -> u64
    requires { held ≤ max_held }
    ensures size { result ≡ (if file_bytes.is_past at fresh.now then held else file_bytes.size_after held at (length fresh.now)) }
    ensures small { result ≤ max_held }
{
    let count = fresh.as_slice().len();
    if count == 0 || is_past(at, fresh) {
        return held;
    }
    held.max(at + count as u64)
}

// Where the file takes blocks.
fn apply_growing(
    hand: &mut FileHand,
    commits: &mut FileCommits,
    ask: Ask,
    by: Actor,
    ticket: u64,
    pool: &mut Pool,
) -> Applied
    requires kind { is_on_file ask.op ≡ true }
    requires bounded { IsBounded ask.op }
    requires named { IsOf ask.desc hand.old.file }
    requires noted { IsNoted (state_of hand.old commits.old) }
    requires apart { IsApart pool.old (blocks_of hand.old.extents) }
    requires there { (d : Desc) → ask.desc ≡ Some d → file_refusal hand.old.content.bytes d ask.op ≡ None → HasNeeded hand.old.content d ask.op }
    requires more { (d : Desc) → ask.desc ≡ Some d → length (blocks_of hand.old.extents) < block_count (length (content_behind hand.old d ask.op).bytes) }
    ensures { IsApplied (state_of hand.old commits.old) (state_of hand.new commits.new) pool.old pool.new ask by ticket result.entry result.desc }
{
    is_whole(hand);
    let before = match Extents::from_runs(commits.alloc, hand.extent_list().as_slice()) {
        Ok(before) => before,
        Err(memory) => return out_of_memory(ask, by, ticket, Lack::Memory(memory)),
    };
    let applied = hand.apply(ask, by, ticket, pool);
    commits.note(&before, hand);
    applied
}

// Where the file keeps the blocks that it has.
fn apply_in_place(
    hand: &mut FileHand,
    commits: &mut FileCommits,
    ask: Ask,
    by: Actor,
    ticket: u64,
    pool: &mut Pool,
) -> Applied
    requires kind { is_on_file ask.op ≡ true }
    requires bounded { IsBounded ask.op }
    requires named { IsOf ask.desc hand.old.file }
    requires noted { IsNoted (state_of hand.old commits.old) }
    requires apart { IsApart pool.old (blocks_of hand.old.extents) }
    requires there { (d : Desc) → ask.desc ≡ Some d → file_refusal hand.old.content.bytes d ask.op ≡ None → HasNeeded hand.old.content d ask.op }
    requires same { (d : Desc) → ask.desc ≡ Some d → length (blocks_of hand.old.extents) ≡ block_count (length (content_behind hand.old d ask.op).bytes) }
    ensures { IsApplied (state_of hand.old commits.old) (state_of hand.new commits.new) pool.old pool.new ask by ticket result.entry result.desc }
{
    let applied = hand.apply(ask, by, ticket, pool);
    commits.note(hand.extent_list(), hand);
    applied
}

// Where the file keeps so many of its blocks, and drops the others. A pool of its own gets those.
fn apply_cutting(
    hand: &mut FileHand,
    commits: &mut FileCommits,
    ask: Ask,
    by: Actor,
    ticket: u64,
    blocks: u32,
) -> Applied
    requires kind { is_on_file ask.op ≡ true }
    requires bounded { IsBounded ask.op }
    requires named { IsOf ask.desc hand.old.file }
    requires noted { IsNoted (state_of hand.old commits.old) }
    requires there { (d : Desc) → ask.desc ≡ Some d → file_refusal hand.old.content.bytes d ask.op ≡ None → HasNeeded hand.old.content d ask.op }
    requires fewer { blocks < length (blocks_of hand.old.extents) }
    requires kept { (d : Desc) → ask.desc ≡ Some d → blocks ≡ block_count (length (content_behind hand.old d ask.op).bytes) }
    ensures { (pool : BlockSet) → IsApplied (state_of hand.old commits.old) (state_of hand.new commits.new) pool pool ask by ticket result.entry result.desc }
{
    is_whole(hand);
    let mut cut = match Cut::make(commits.alloc, hand, blocks) {
        Ok(cut) => cut,
        Err(memory) => return out_of_memory(ask, by, ticket, Lack::Memory(memory)),
    };
    let count = commits.dropped.as_slice().len();
    if let Err(memory) = commits.drop_too(cut.rest.as_slice()) {
        return out_of_memory(ask, by, ticket, Lack::Memory(memory));
    }
    let applied = hand.apply(ask, by, ticket, &mut cut.own);
    if let Reply::Excused(_) = applied.entry.reply {
        is_whole(hand);
        commits.drop_first(count);
        return applied;
    }
    commits.note(&cut.before, hand);
    applied
}

// What a cut needs.
#[derive(Drop)]
struct Cut {
    // The file's runs from before.
    before: Extents,
    // Those of the blocks that it drops.
    rest: Runs,
    // A pool that gets these.
    own: Pool,
}

impl Cut {
    // For a cut that leaves the file so many blocks.
    fn make(alloc: Global, hand: &FileHand, blocks: u32) -> Result<Cut, Memory>
        ensures before { IfOk result (λ c. c.before ≡ hand.now.extents) }
        ensures rest { IfOk result (λ c. c.rest ≡ last_runs hand.now.extents blocks) }
        ensures own { IfOk result (λ c. c.own ≡ set.empty) }
    {
        let runs = hand.extent_list().as_slice();
        let rest = Extents::from_runs(alloc, runs)?.cut(blocks)?;
        Ok(Cut {
            before: Extents::from_runs(alloc, runs)?,
            rest,
            own: Pool::make(alloc)?,
        })
    }
}

impl FileCommits {
    // The log notes the file, which had these runs when it was noted last.
    fn note(&mut self, before: &Extents, hand: &FileHand)
        requires { before.now ≡ self.old.log.noted.runs }
        ensures noted { self.new ≡ record self.old { log = noted_as hand.now self.old.log } }
        ensures marks { length hand.now.content.dirty ≡ length (blocks_of hand.now.extents) }
        ensures held { length hand.now.content.there ≡ length hand.now.content.dirty }
        ensures written { (place : ℕ) → slice_get hand.now.content.dirty place ≡ Some true → slice_get hand.now.content.there place ≡ Some true }
    {
        is_whole(hand);
        self.log.note(before, hand.extent_list(), hand.size());
    }

    // These runs are dropped too.
    fn drop_too(&mut self, runs: &[Run]) -> Result<(), Memory>
        requires { All IsRun runs.now }
        ensures ok { OnOk result (self.new ≡ record self.old { dropped = self.old.dropped ++ runs.now }) }
        ensures err { OnErr result (self.new ≡ self.old) }
    {
        let mut dropped = mem::replace(&mut self.dropped, Runs::new(self.alloc)).into_vec();
        let added = dropped.extend_from_slice(runs);
        self.dropped = Runs::from_vec(dropped);
        added?;
        Ok(())
    }

    // No more than the first so many runs were dropped.
    fn drop_first(&mut self, count: usize)
        ensures { self.new ≡ record self.old { dropped = take count self.old.dropped } }
    {
        let mut dropped = mem::replace(&mut self.dropped, Runs::new(self.alloc)).into_vec();
        dropped.truncate(count);
        self.dropped = Runs::from_vec(dropped);
    }
}

// A file has the blocks for its size, marks for each, and no more extents than an inode has room for.
fn is_whole(hand: &FileHand)
    ensures marks { length hand.now.content.dirty ≡ length (blocks_of hand.now.extents) }
    ensures held { length hand.now.content.there ≡ length hand.now.content.dirty }
    ensures written { (place : ℕ) → slice_get hand.now.content.dirty place ≡ Some true → slice_get hand.now.content.there place ≡ Some true }
    ensures few { length hand.now.extents ≤ MAX_EXTENTS }
    ensures sized { length (blocks_of hand.now.extents) ≡ block_count (length hand.now.content.bytes) }
{
    // For the prover alone.
    let _marks = hand.block_count();
    let _few = hand.extents();
    let _blocks = hand.size();
    let _written = hand.dirty_places();
}
