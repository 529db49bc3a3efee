// Sectors in the order of their transactions and indexes, or of their commit numbers.
ghost use Rattle.std.specs.Prelude.{◌≡◌, ◌&&◌, not, nat_lt, nat_le, length, filter, map, IfOk};
ghost use Rattle.std.specs.List.Sorted.{IsNonDecreasingBy, IsPermutation};
ghost use Rattle.ufs_image.specs.Journal.{has_commit};
ghost use Rattle.ufs_found.specs.Sorted.{place_of, number_of, is_between, is_numbered};

use crate::Found;
use std::alloc::{AllocError, Global};

// Those from one place on.
fn from_place<'a, 'b>(list: &'b [&'a Found], low: u64) -> &'b [&'a Found]
    requires { IsNonDecreasingBy (λ b. place_of b.now) list.now }
    ensures kept { result.now ≡ filter (λ b. not (nat_lt (place_of b.now) low)) list.now }
    ensures in_order { IsNonDecreasingBy (λ b. place_of b.now) result.now }
{
    let from = list.partition_point(|one| one.place() < low);
    &list[from..]
}

fn up_to_place<'a, 'b>(list: &'b [&'a Found], high: u64) -> &'b [&'a Found]
    requires { IsNonDecreasingBy (λ b. place_of b.now) list.now }
    ensures { result.now ≡ filter (λ b. nat_lt (place_of b.now) high) list.now }
{
    let to = list.partition_point(|one| one.place() < high);
    &list[..to]
}

/// Those from one place on and before another, of sectors that stand in the order of their places.
pub fn between<'a, 'b>(list: &'b [&'a Found], low: u64, high: u64) -> &'b [&'a Found]
    requires { IsNonDecreasingBy (λ b. place_of b.now) list.now }
    ensures { result.now ≡ filter (λ b. is_between low high b.now) list.now }
{
    up_to_place(from_place(list, low), high)
}

fn from_number<'a, 'b>(list: &'b [&'a Found], number: u64) -> &'b [&'a Found]
    requires { IsNonDecreasingBy (λ b. number_of b.now) list.now }
    ensures kept { result.now ≡ filter (λ b. not (nat_lt (number_of b.now) number)) list.now }
    ensures in_order { IsNonDecreasingBy (λ b. number_of b.now) result.now }
{
    let from = list.partition_point(|one| one.number() < number);
    &list[from..]
}

fn up_to_number<'a, 'b>(list: &'b [&'a Found], number: u64) -> &'b [&'a Found]
    requires { IsNonDecreasingBy (λ b. number_of b.now) list.now }
    ensures { result.now ≡ filter (λ b. nat_le (number_of b.now) number) list.now }
{
    let to = list.partition_point(|one| one.number() <= number);
    &list[..to]
}

// Those with this number.
pub(crate) fn numbered<'a, 'b>(list: &'b [&'a Found], number: u64) -> &'b [&'a Found]
    requires { IsNonDecreasingBy (λ b. number_of b.now) list.now }
    ensures { result.now ≡ filter (λ b. is_numbered number b.now) list.now }
{
    up_to_number(from_number(list, number), number)
}

fn all_of<'a>(alloc: Global, all: &'a [Found]) -> Result<Vec<&'a Found>, AllocError>
    ensures { IfOk result (λ list. map (λ b. b.now) list.items ≡ all.now) }
{
    let mut list = Vec::with_capacity(alloc, all.len())?;
    for one in all {
        list.push(one)?;
    }
    Ok(list)
}

// All, by their transactions and indexes.
pub(crate) fn in_places<'a>(alloc: Global, all: &'a [Found]) -> Result<Vec<&'a Found>, AllocError>
    ensures same { IfOk result (λ list. IsPermutation all.now (map (λ b. b.now) list.items)) }
    ensures in_order { IfOk result (λ list. IsNonDecreasingBy (λ b. place_of b.now) list.items) }
{
    let mut list = all_of(alloc, all)?;
    list.sort_by_key(|one| one.place())?;
    Ok(list)
}

fn commits_of<'a>(alloc: Global, all: &[&'a Found]) -> Result<Vec<&'a Found>, AllocError>
    ensures { IfOk result (λ list. list.items ≡ filter (λ b. has_commit b.now) all.now) }
{
    all.iter()
        .copied()
        .filter(|one| one.is_commit())
        .collect(alloc)
}

// Of these, the commits by their transactions and indexes.
pub(crate) fn commits_in_places<'a>(
    alloc: Global,
    all: &[&'a Found],
) -> Result<Vec<&'a Found>, AllocError>
    ensures same { IfOk result (λ list. IsPermutation (filter (λ b. has_commit b.now) all.now) list.items) }
    ensures in_order { IfOk result (λ list. IsNonDecreasingBy (λ b. place_of b.now) list.items) }
{
    let mut list = commits_of(alloc, all)?;
    list.sort_by_key(|one| one.place())?;
    Ok(list)
}

// Of these, the commits by their numbers.
pub(crate) fn commits_in_numbers<'a>(
    alloc: Global,
    all: &[&'a Found],
) -> Result<Vec<&'a Found>, AllocError>
    ensures same { IfOk result (λ list. IsPermutation (filter (λ b. has_commit b.now) all.now) list.items) }
    ensures in_order { IfOk result (λ list. IsNonDecreasingBy (λ b. number_of b.now) list.items) }
{
    let mut list = commits_of(alloc, all)?;
    list.sort_by_key(|one| one.number())?;
    Ok(list)
}
