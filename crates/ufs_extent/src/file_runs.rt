// The runs that the blocks of a file or a directory lie in.
ghost use Rattle.std.specs.Prelude.{◌≡◌, ◌≢◌, ◌+◌, ◌<◌, ◌≤◌, ◌↔◌, [], ◌∷◌, ◌++◌, length, take, drop, All, Some, None, IfOk, OnOk, OnErr, IsErr, IfSome, IfNone, slice_get};
ghost use Rattle.ufs_extent.specs.declared.Run.{Run};
ghost use Rattle.ufs_extent.specs.Places.{IsPlace, block_count, front_of, without_first};
ghost use Rattle.ufs_extent.specs.Runs.{IsRun, blocks_in, blocks_of, next_block, appended, appended_all, first_runs, last_runs};

use crate::{Full56, Run, Runs};
use std::alloc::Global;
use std::marker::Model;
use ufs_base::{MAX_EXTENTS, Memory};

/// A list of blocks, kept as at most 56 runs. Contracts see the runs, and `blocks_of` them is the list.
#[derive(Drop)]
pub struct Extents {
    alloc: Global,
    runs: Vec<Run>,
}

impl Model for Extents {
    ghost use Rattle.ufs_base.specs.declared.sizes.TheConstants.{MAX_EXTENTS};
    ghost use Rattle.std.specs.Prelude.{◌≤◌, List, All, length};
    ghost use Rattle.std.specs.Vec.{vec_capacity};
    ghost use Rattle.ufs_extent.specs.declared.Run.{Run};
    ghost use Rattle.ufs_extent.specs.Runs.{IsRun};

    ghost Value = { List Run };

    ghost view = { λ e. e.runs.items };

    ghost invariant = { λ e. (length e.runs.items ≤ MAX_EXTENTS) × (MAX_EXTENTS ≤ vec_capacity e.runs) × All IsRun e.runs.items };
}

impl Extents {
    /// No block. All memory that later appends need is taken here.
    pub fn make(alloc: Global) -> Result<Extents, Memory>
        ensures { IfOk result (λ e. e ≡ []) }
    {
        let runs = Vec::with_capacity(alloc, MAX_EXTENTS)?;
        Ok(Extents { alloc, runs })
    }

    /// Keeps these runs as they stand: none is joined to the one before it.
    pub fn from_runs(alloc: Global, runs: &[Run]) -> Result<Extents, Memory>
        requires runs { All IsRun runs.now }
        requires few { length runs.now ≤ MAX_EXTENTS }
        ensures { IfOk result (λ e. e ≡ runs.now) }
    {
        let mut kept = Vec::with_capacity(alloc, MAX_EXTENTS)?;
        kept.extend_from_slice(runs)?;
        Ok(Extents { alloc, runs: kept })
    }

    /// The runs in order, as they are kept.
    pub fn as_slice(&self) -> &[Run]
        ensures items { result.now ≡ self.now }
        ensures runs { All IsRun result.now }
        ensures few { length result.now ≤ MAX_EXTENTS }
    {
        self.runs.as_slice()
    }

    /// How long the list of blocks is.
    pub fn block_count(&self) -> u32
        ensures { result ≡ length (blocks_of self.now) }
    {
        count_blocks(self.runs.as_slice())
    }

    /// The block at this place of the list.
    pub fn block_of(&self, index: u32) -> Option<u32>
        ensures { result ≡ slice_get (blocks_of self.now) index }
    {
        match place_of(self.runs.as_slice(), index) {
            Some(place) => Some(place.run.start + place.before),
            None => None,
        }
    }

    /// The extent at this place.
    pub fn run_at(&self, index: u32) -> Option<Run>
        ensures value { result ≡ slice_get self.now index }
        ensures run { IfSome result IsRun }
    {
        self.runs.get(index as usize).copied()
    }

    /// The run's blocks go behind the others. A run that follows the last block is joined to the last extent.
    /// Takes no memory.
    pub fn append(&mut self, run: Run) -> Result<(), Full56>
        requires { IsRun run }
        ensures ok { OnOk result (self.new ≡ appended self.old run) }
        ensures blocks { OnOk result (blocks_of self.new ≡ blocks_of self.old ++ blocks_in run) }
        ensures full { IsErr result ↔ ((next_block self.old ≢ Some run.start) × (length self.old ≡ MAX_EXTENTS)) }
        ensures err { OnErr result (self.new ≡ self.old) }
    {
        if self.next_block() == Some(run.start) {
            self.join(run);
            return Ok(());
        }
        if self.runs.len() == MAX_EXTENTS {
            return Err(Full56);
        }
        self.runs.push(run).unwrap();
        Ok(())
    }

    /// How many extents there would be with these runs appended in turn, were there room. Takes no memory.
    pub fn count_with(&self, runs: &[Run]) -> usize
        requires { All IsRun runs.now }
        ensures { result ≡ length (appended_all self.now runs.now) }
    {
        let mut count = self.runs.len();
        let mut next = self.next_block();
        for run in runs {
            if next != Some(run.start) {
                count += 1;
            }
            next = Some(run.start + run.length);
        }
        count
    }

    /// Keeps the first `blocks` blocks and gives the others, in order; a shorter list stays whole.
    /// A run across the cut becomes two.
    pub fn cut(&mut self, blocks: u32) -> Result<Runs, Memory>
        ensures kept { OnOk result (self.new ≡ first_runs self.old blocks) }
        ensures rest { IfOk result (λ rest. rest ≡ last_runs self.old blocks) }
        ensures kept_blocks { OnOk result (blocks_of self.new ≡ take blocks (blocks_of self.old)) }
        ensures rest_blocks { IfOk result (λ rest. blocks_of rest ≡ drop blocks (blocks_of self.old)) }
        ensures err { OnErr result (self.new ≡ self.old) }
    {
        let Some(place) = place_of(self.runs.as_slice(), blocks) else {
            return Ok(Runs::new(self.alloc));
        };
        let rest = runs_from(self.alloc, self.runs.as_slice(), place)?;
        self.shorten(place);
        Ok(Runs::from_vec(rest))
    }

    // The block after the last one.
    fn next_block(&self) -> Option<u32>
        ensures { result ≡ next_block self.now }
    {
        match self.runs.last() {
            Some(run) => Some(run.start + run.length),
            None => None,
        }
    }

    // The run, which follows the last block, is joined to the last extent.
    fn join(&mut self, run: Run)
        requires run { IsRun run }
        requires follows { next_block self.old ≡ Some run.start }
        ensures { self.new ≡ appended self.old run }
    {
        let last = self.runs.len() - 1;
        let before = self.runs[last];
        self.runs[last] = Run {
            start: before.start,
            length: before.length + run.length,
        };
    }

    // Keeps the blocks before this place.
    fn shorten(&mut self, place: Place)
        requires there { slice_get self.old place.at ≡ Some place.run }
        requires inside { place.before < place.run.length }
        ensures { self.new ≡ take place.at self.old ++ front_of place.run place.before }
    {
        self.runs.truncate(place.at);
        if place.before > 0 {
            let front = Run {
                start: place.run.start,
                length: place.before,
            };
            self.runs.push(front).unwrap();
        }
    }
}

// The runs of the block at this place and of those behind it.
fn runs_from(alloc: Global, runs: &[Run], place: Place) -> Result<Vec<Run>, Memory>
    requires runs { All IsRun runs.now }
    requires there { slice_get runs.now place.at ≡ Some place.run }
    requires inside { place.before < place.run.length }
    ensures items { IfOk result (λ v. v.items ≡ without_first place.run place.before ∷ drop (place.at + 1) runs.now) }
    ensures runs { IfOk result (λ v. All IsRun v.items) }
{
    let mut rest = Vec::from_slice(alloc, &runs[place.at..])?;
    rest[0] = Run {
        start: place.run.start + place.before,
        length: place.run.length - place.before,
    };
    Ok(rest)
}

// Where a block stands: in the run at place `at`, with `before` blocks of that run before it.
#[derive(Clone, Copy)]
struct Place {
    at: usize,
    run: Run,
    before: u32,
}

fn place_of(runs: &[Run], index: u32) -> Option<Place>
    ensures found { IfSome result (λ p. IsPlace runs.now index p.at p.run p.before) }
    ensures past { IfNone result (block_count runs.now ≤ index) }
{
    let mut before = index;
    for (at, run) in runs.iter().enumerate() {
        if before < run.length {
            return Some(Place {
                at,
                run: *run,
                before,
            });
        }
        before -= run.length;
    }
    None
}

fn count_blocks(runs: &[Run]) -> u32
    requires runs { All IsRun runs.now }
    requires few { length runs.now ≤ MAX_EXTENTS }
    ensures { result ≡ length (blocks_of runs.now) }
{
    let mut count = 0;
    for run in runs {
        count += run.length;
    }
    count
}
