ghost use Rattle.std.specs.Prelude.{◌≡◌, ◌<◌, filter, map, IfOk};
ghost use Rattle.std.specs.List.{All};
ghost use Rattle.std.specs.List.Sorted.{IsNonDecreasingBy, IsPermutation};
ghost use Rattle.ufs_image.specs.Journal.{has_commit, has_records};
ghost use Rattle.ufs_layout.specs.Words.{rising_by};
ghost use Rattle.ufs_found.specs.Sorted.{place_of, number_of};
ghost use Rattle.ufs_scan.specs.Gathered.{HasParts};

use std::alloc::{AllocError, Global};
use ufs_found::Found;

fn parts_of<'a>(alloc: Global, all: &'a [Found]) -> Result<Vec<&'a Found>, AllocError>
    ensures kept { IfOk result (λ list. map (λ b. b.now) list.items ≡ filter has_records all.now) }
    ensures small { IfOk result (λ list. All (λ b. b.now.1.index < 65536) list.items) }
{
    let mut list = Vec::new(alloc);
    for one in all {
        if one.is_part() {
            list.push(one)?;
        }
    }
    Ok(list)
}

// The record sectors, by their transactions and indexes.
pub(crate) fn parts_in_places<'a>(
    alloc: Global,
    all: &'a [Found],
) -> Result<Vec<&'a Found>, AllocError>
    ensures in_order { IfOk result (λ list. IsNonDecreasingBy (λ b. place_of b.now) list.items) }
    ensures parts { IfOk result (λ list. HasParts all.now (map (λ b. b.now) list.items)) }
    ensures same { IfOk result (λ list. IsPermutation (filter has_records all.now) (map (λ b. b.now) list.items)) }
    ensures small { IfOk result (λ list. All (λ f. f.1.index < 65536) (map (λ b. b.now) list.items)) }
{
    let mut list = parts_of(alloc, all)?;
    list.sort_by_key(|one| one.place())?;
    Ok(list)
}

fn commits_there<'a>(alloc: Global, all: &'a [Found]) -> Result<Vec<&'a Found>, AllocError>
    ensures kept { IfOk result (λ list. map (λ b. b.now) list.items ≡ filter has_commit all.now) }
    ensures small { IfOk result (λ list. All (λ b. b.now.1.index < 65536) list.items) }
{
    let mut list = Vec::new(alloc);
    for one in all {
        if one.is_commit() {
            list.push(one)?;
        }
    }
    Ok(list)
}

// The commits by rising number; those with the same one keep their order.
pub(crate) fn commits_in_order<'a>(
    alloc: Global,
    all: &'a [Found],
) -> Result<Vec<&'a Found>, AllocError>
    ensures commits { IfOk result (λ list. map (λ b. b.now) list.items ≡ rising_by number_of (filter has_commit all.now)) }
    ensures small { IfOk result (λ list. All (λ f. f.1.index < 65536) (map (λ b. b.now) list.items)) }
{
    let mut list = commits_there(alloc, all)?;
    list.sort_by_key(|one| one.number())?;
    Ok(list)
}
