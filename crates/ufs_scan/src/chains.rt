// What a transaction does to an inode, record by record.
ghost use Rattle.std.specs.Prelude.{◌≡◌, ℕ, Bool, true, not, nat_le, map, filter, IfOk};
ghost use Rattle.std.specs.List.{All};
ghost use Rattle.std.specs.List.Sorted.{IsNonDecreasingBy};
ghost use Rattle.ufs_layout.specs.Areas.{IsGeometry};
ghost use Rattle.ufs_found.specs.Sorted.{place_of};
ghost use Rattle.ufs_scan.specs.Edits as by;
ghost use Rattle.ufs_scan.specs.Chains as chain;
ghost use Rattle.ufs_scan.specs.Folding as fold;

use crate::steps::{Step, steps_in_order};
use std::alloc::{AllocError, Global};
use ufs_found::Found;
use ufs_layout::Geometry;

// The records of an inode in a transaction, in order.
#[derive(Drop)]
pub(crate) struct Chain<'a> {
    pub(crate) txn: u32,
    pub(crate) inode: u32,
    pub(crate) steps: Vec<Step<'a>>,
}

fn up_to_key<'a, 'b>(steps: &'b [Step<'a>], key: u64) -> &'b [Step<'a>]
    requires { IsNonDecreasingBy (λ s. by.key_of s.edit) steps.now }
    ensures { result.now ≡ filter (λ s. nat_le (by.key_of s.edit) key) steps.now }
{
    let to = steps.partition_point(|step| step.key() <= key);
    &steps[..to]
}

fn behind_key<'a, 'b>(steps: &'b [Step<'a>], key: u64) -> &'b [Step<'a>]
    requires { IsNonDecreasingBy (λ s. by.key_of s.edit) steps.now }
    ensures kept { result.now ≡ filter (λ s. not (nat_le (by.key_of s.edit) key)) steps.now }
    ensures in_order { IsNonDecreasingBy (λ s. by.key_of s.edit) result.now }
{
    let from = steps.partition_point(|step| step.key() <= key);
    &steps[from..]
}

fn linked<'a>(alloc: Global, steps: &[Step<'a>]) -> Result<Vec<Step<'a>>, AllocError>
    ensures edits { IfOk result (λ list. map (λ s. s.edit) list.items ≡ map (λ s. s.edit) steps.now) }
    ensures nets { IfOk result (λ list. by.AreNets list.items) }
{
    let mut list = Vec::with_capacity(alloc, steps.len())?;
    for step in steps {
        let next = step.after_steps(&list);
        list.push(next)?;
    }
    Ok(list)
}

// One for each transaction and inode, in that order.
fn chains_of<'a>(alloc: Global, steps: &[Step<'a>]) -> Result<Vec<Chain<'a>>, AllocError>
    requires { IsNonDecreasingBy (λ s. by.key_of s.edit) steps.now }
    ensures chains { IfOk result (λ chains. chain.AreChains (map (λ s. s.edit) steps.now) chains.items) }
    ensures inodes { IfOk result (λ chains. (ok : ℕ → Bool) → All (λ s. ok s.edit.inode ≡ true) steps.now → All (λ c. ok c.inode ≡ true) chains.items) }
{
    let mut chains = Vec::new(alloc);
    let mut rest = steps;
    while let Some(first) = rest.first() {
        let key = first.key();
        chains.push(Chain {
            txn: first.txn(),
            inode: first.inode(),
            steps: linked(alloc, up_to_key(rest, key))?,
        })?;
        rest = behind_key(rest, key);
    }
    Ok(chains)
}

// What the records of these sectors do, one chain for each transaction and inode, in that order.
pub(crate) fn chains_in<'a>(
    alloc: Global,
    geometry: &Geometry,
    parts: &[&'a Found],
) -> Result<Vec<Chain<'a>>, AllocError>
    requires geometry { IsGeometry geometry.now }
    requires order { IsNonDecreasingBy (λ b. place_of b.now) parts.now }
    ensures chains { IfOk result (λ chains. chain.AreChains (by.edits_of geometry.now (map (λ b. b.now) parts.now)) chains.items) }
    ensures fit { IfOk result (λ chains. All (λ c. fold.IsFit geometry.now.inodes c) chains.items) }
    ensures order { IfOk result (λ chains. IsNonDecreasingBy (λ c. c.txn) chains.items) }
{
    let steps = steps_in_order(alloc, geometry, parts)?;
    let chains = chains_of(alloc, &steps)?;
    Ok(chains)
}
