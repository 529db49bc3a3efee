// What folding takes of the steps of chains. Those of all chains stand close together: commits that share a
// transaction go over them again and again.
ghost use Rattle.std.specs.Prelude.{◌≡◌, ◌≤◌, true, false, nat_lt, length, map, take, IfOk};
ghost use Rattle.std.specs.List.Sorted.{IsNonDecreasingBy, IsPartitionPoint};
ghost use Rattle.ufs_scan.specs.Edits as by;
ghost use Rattle.ufs_scan.specs.Folding as fold;
ghost use Rattle.ufs_scan.specs.Nets as net;

use crate::chains::Chain;
use crate::net::Net;
use crate::steps::Step;
use std::alloc::{AllocError, Global};

fn nets_in(alloc: Global, steps: &[Step<'_>]) -> Result<Vec<Net>, AllocError>
    ensures { IfOk result (λ list. list.items ≡ map net.net_of steps.now) }
{
    let mut list = Vec::with_capacity(alloc, steps.len())?;
    for step in steps {
        list.push(step.net())?;
    }
    Ok(list)
}

// Of each chain.
pub(crate) fn nets_of(alloc: Global, chains: &[Chain<'_>]) -> Result<Vec<Vec<Net>>, AllocError>
    ensures { IfOk result (λ list. map (λ v. v.items) list.items ≡ map net.nets_of chains.now) }
{
    let mut list = Vec::with_capacity(alloc, chains.len())?;
    for chain in chains {
        list.push(nets_in(alloc, &chain.steps)?)?;
    }
    Ok(list)
}

fn search_below(nets: &[Net], index: u16) -> usize
    requires { IsNonDecreasingBy (λ n. n.index) nets.now }
    ensures bound { result ≤ length nets.now }
    ensures point { IsPartitionPoint (λ n. nat_lt n.index index ≡ true) (λ n. nat_lt n.index index ≡ false) nets.now result }
{
    nets.partition_point(|net| net.index < index)
}

// All, where the last stands there: so it is where one commit ends a transaction.
fn count_below(nets: &[Net], index: u16) -> usize
    requires { IsNonDecreasingBy (λ n. n.index) nets.now }
    ensures bound { result ≤ length nets.now }
    ensures point { IsPartitionPoint (λ n. nat_lt n.index index ≡ true) (λ n. nat_lt n.index index ≡ false) nets.now result }
{
    match nets.last() {
        None => 0,
        Some(last) => {
            if last.index < index {
                nets.len()
            } else {
                search_below(nets, index)
            }
        }
    }
}

// The steps below an index.
pub(crate) fn steps_below<'a, 'b>(steps: &'b [Step<'a>], nets: &[Net], index: u16) -> &'b [Step<'a>]
    requires nets { nets.now ≡ map net.net_of steps.now }
    requires order { IsNonDecreasingBy (λ s. s.edit.index) steps.now }
    ensures kept { result.now ≡ fold.steps_below index steps.now }
    ensures front { result.now ≡ take (length result.now) steps.now }
{
    let to = count_below(nets, index);
    &steps[..to]
}

fn count_behind_last(steps: &[Step<'_>], count: u64) -> u64
    requires { by.AreNets steps.now }
    ensures { result ≡ by.edited (by.effects steps.now) count }
{
    match steps.last() {
        None => count,
        Some(last) => last.from_before(count),
    }
}

// How many extents there are behind steps, by how many there were before. Where a net doesn't say how many are
// gained, its step does.
pub(crate) fn count_behind(steps: &[Step<'_>], nets: &[Net], count: u64) -> u64
    requires same { nets.now ≡ map net.net_of steps.now }
    requires nets { by.AreNets steps.now }
    ensures { result ≡ by.edited (by.effects steps.now) count }
{
    match nets.last() {
        None => count,
        Some(last) => {
            if last.gained < 255 {
                last.from_before(count)
            } else {
                count_behind_last(steps, count)
            }
        }
    }
}
