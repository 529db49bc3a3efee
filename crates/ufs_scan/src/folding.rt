// Transactions folded over inodes: what tells whether a record is applied and keeps too many extents. Each commit
// takes a step for each inode that its transaction names, however many records there are.
ghost use Rattle.std.specs.Prelude.{◌≡◌, ◌≤◌, ◌<◌, nat_lt, List, length, map, take, drop, ℕ, None, slice_index_or, IfOk};
ghost use Rattle.std.specs.List.{All};
ghost use Rattle.std.specs.List.Sorted.{IsNonDecreasingBy};
ghost use Rattle.ufs_found.specs.Off as off;
ghost use Rattle.ufs_image.specs.Journal.{FoundSector};
ghost use Rattle.ufs_layout.specs.declared.geometry.Geometry.{Geometry};
ghost use Rattle.ufs_scan.specs.Edits as by;
ghost use Rattle.ufs_scan.specs.Folding as fold;
ghost use Rattle.ufs_scan.specs.Gathered.{transaction_in};
ghost use Rattle.ufs_scan.specs.Nets as net;
ghost use Rattle.ufs_scan.specs.Standings as stand;

use crate::Standing;
use crate::chains::Chain;
use crate::net::Net;
use crate::nets::{count_behind, nets_of, steps_below};
use crate::steps::Step;
use std::alloc::{AllocError, Global};
use std::marker::Model;
use ufs_found::{Found, lower};

// How inodes stand between two transactions; the fewest extents that each chain has met; the lowest sector that
// is off.
#[derive(Drop)]
pub(crate) struct Fold {
    pub(crate) standings: Vec<Standing>,
    pub(crate) leasts: Vec<Option<u64>>,
    pub(crate) lowest: Option<u32>,
}

impl Model for Fold {
    ghost use Rattle.ufs_scan.specs.Folding.{State};

    ghost Value = { State };

    ghost view = { λ f. record { standings = f.standings.items; leasts = f.leasts.items; lowest = f.lowest } };
}

fn lowest_outkept(steps: &[Step<'_>], count: u64) -> Option<u32>
    ensures { result ≡ off.lowest_of (by.outkept (by.effects steps.now) count) }
{
    let mut lowest = None;
    let mut there = count;
    for step in steps {
        lowest = lower(lowest, step.outkept(there));
        there = step.after(there);
    }
    lowest
}

fn is_newer(number: u64, steps: &[Step<'_>], one: &Standing) -> bool
    ensures { result ≡ fold.is_newer number (by.effects steps.now) one.now }
{
    !steps.is_empty() && one.number < number
}

fn is_fewer(count: u64, least: Option<u64>) -> bool
    ensures { result ≡ fold.is_fewer count least }
{
    match least {
        None => true,
        Some(least) => count < least,
    }
}

fn told(number: u64, steps: &[Step<'_>], nets: &[Net], one: Standing) -> Standing
    requires same { nets.now ≡ map net.net_of steps.now }
    requires nets { by.AreNets steps.now }
    ensures { result ≡ fold.told number (by.effects steps.now) one }
{
    if is_newer(number, steps, &one) {
        Standing {
            before: number,
            number,
            count: count_behind(steps, nets, one.count),
        }
    } else {
        one
    }
}

impl Fold {
    fn note(&mut self, number: u64, place: usize, steps: &[Step<'_>], one: Standing)
        requires { place < length self.old.leasts }
        ensures { self.new ≡ fold.noted number place (by.effects steps.now) one self.old }
    {
        if is_newer(number, steps, &one) && is_fewer(one.count, self.leasts[place]) {
            self.leasts[place] = Some(one.count);
            self.lowest = lower(self.lowest, lowest_outkept(steps, one.count));
        }
    }

    // The steps of a chain below an index; the chain has this place.
    fn fold_chain(&mut self, number: u64, index: u16, place: usize, chain: &Chain<'_>, nets: &[Net])
        requires fit { fold.IsFit (length self.old.standings) chain.now }
        requires nets { nets.now ≡ net.nets_of chain.now }
        requires place { place < length self.old.leasts }
        ensures folded { self.new ≡ fold.folded_at number index place chain.now self.old }
        ensures standings { length self.new.standings ≡ length self.old.standings }
        ensures leasts { length self.new.leasts ≡ length self.old.leasts }
    {
        let steps = steps_below(&chain.steps, nets, index);
        let inode = (chain.inode - 1) as usize;
        let one = self.standings[inode];
        self.note(number, place, steps, one);
        self.standings[inode] = told(number, steps, &nets[..steps.len()], one);
    }

    // Those from one place on and before another.
    fn fold_chains(
        &mut self,
        number: u64,
        index: u16,
        chains: &[Chain<'_>],
        nets: &[Vec<Net>],
        from: usize,
        to: usize,
    )
        requires fit { All (λ c. fold.IsFit (length self.old.standings) c) chains.now }
        requires nets { map (λ v. v.items) nets.now ≡ map net.nets_of chains.now }
        requires leasts { length chains.now ≤ length self.old.leasts }
        requires to { to ≤ length chains.now }
        requires from { from ≤ to }
        ensures folded { self.new ≡ fold.folded_from number index from (drop from (take to chains.now)) self.old }
        ensures standings { length self.new.standings ≡ length self.old.standings }
        ensures leasts { length self.new.leasts ≡ length self.old.leasts }
    {
        for place in from..to {
            self.fold_chain(number, index, place, &chains[place], &nets[place]);
        }
    }

    // The transaction of a commit.
    fn fold_commit(&mut self, chains: &[Chain<'_>], nets: &[Vec<Net>], commit: &Found)
        requires fit { All (λ c. fold.IsFit (length self.old.standings) c) chains.now }
        requires nets { map (λ v. v.items) nets.now ≡ map net.nets_of chains.now }
        requires leasts { length chains.now ≤ length self.old.leasts }
        requires order { IsNonDecreasingBy (λ c. c.txn) chains.now }
        ensures folded { fold.IsFolded chains.now commit.now self.old self.new }
        ensures standings { length self.new.standings ≡ length self.old.standings }
        ensures leasts { length self.new.leasts ≡ length self.old.leasts }
    {
        let txn = commit.txn();
        let from = chains.partition_point(|chain| chain.txn < txn);
        let to = chains.partition_point(|chain| chain.txn <= txn);
        self.fold_chains(commit.number(), commit.index(), chains, nets, from, to);
    }
}

fn no_leasts(alloc: Global, count: usize) -> Result<Vec<Option<u64>>, AllocError>
    ensures sized { IfOk result (λ list. length list.items ≡ count) }
    ensures none { IfOk result (λ list. (q : ℕ) → slice_index_or list.items q None ≡ None) }
{
    let mut list = Vec::with_capacity(alloc, count)?;
    for _chain in 0..count {
        list.push(None)?;
    }
    Ok(list)
}

// The lowest sector that is off: of the one that is known, and those where a record keeps too many extents.
pub(crate) fn lowest_off(
    alloc: Global,
    chains: &[Chain<'_>],
    commits: &[&Found],
    start: Vec<Standing>,
    known: Option<u32>,
) -> Result<Option<u32>, AllocError>
    requires fit { All (λ c. fold.IsFit (length start.items) c) chains.now }
    requires order { IsNonDecreasingBy (λ c. c.txn) chains.now }
    ensures { IfOk result (λ lowest. (g : Geometry) (all parts : List FoundSector) → fold.IsFoldable g all parts chains.now (map (λ b. b.now) commits.now) start.items known → lowest ≡ off.lower known (off.lowest_of (stand.out_of g (map (transaction_in all) (map (λ b. b.now) commits.now)) start.items))) }
{
    let nets = nets_of(alloc, chains)?;
    let leasts = no_leasts(alloc, chains.len())?;
    let mut fold = Fold {
        standings: start,
        leasts,
        lowest: known,
    };
    for commit in commits {
        fold.fold_commit(chains, &nets, commit);
    }
    Ok(fold.lowest)
}
