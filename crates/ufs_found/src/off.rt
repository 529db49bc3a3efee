// Why a sector is off, as far as the journal alone tells it.
ghost use Rattle.std.specs.Prelude.{◌≡◌, ◌==◌, ◌&&◌, nat_lt, length, not, map, IfOk};
ghost use Rattle.std.specs.List.Sorted.{IsNonDecreasingBy};
ghost use Rattle.std.specs.List.{list_any, range_with_len};
ghost use Rattle.ufs_layout.specs.Areas.{IsGeometry};
ghost use Rattle.ufs_image.specs.Fold.{is_in_range};
ghost use Rattle.ufs_image.specs.Journal.{commit_in, has_commit, has_records, record_sectors, same_txn};
ghost use Rattle.ufs_image.specs.BadSectors as bad;
ghost use Rattle.ufs_found.specs.Off as off;
ghost use Rattle.ufs_found.specs.Sorted.{place_of, number_of};

use crate::Found;
use crate::found::place;
use crate::sorted::{between, commits_in_numbers, commits_in_places, in_places, numbered};
use std::alloc::{AllocError, Global};
use ufs_layout::{Geometry, LogRecord};

fn repeats(part: &[&Found], f: &Found) -> bool
    ensures { result ≡ list_any (λ b. bad.is_another f.now b.now && (same_txn f.now b.now && b.now.1.index == f.now.1.index)) part.now }
{
    part.iter().any(|o| o.sector() != f.sector() && (f.txn() == o.txn() && o.index() == f.index()))
}

// Of those that have its transaction and index, looking at two is enough.
fn is_repeated(places: &[&Found], f: &Found) -> bool
    requires { IsNonDecreasingBy (λ b. place_of b.now) places.now }
    ensures { result ≡ bad.is_repeated (map (λ b. b.now) places.now) f.now }
{
    let at = f.place();
    repeats(between(places, at, at + 1), f)
}

fn has_record(part: &[&Found], f: &Found, index: u16) -> bool
    ensures { result ≡ list_any (λ b. same_txn f.now b.now && (has_records b.now && b.now.1.index == index)) part.now }
{
    part.iter().any(|o| f.txn() == o.txn() && (o.has_records() && o.index() == index))
}

// There is a record sector of its transaction with this index.
fn has_record_sector(places: &[&Found], f: &Found, index: u16) -> bool
    requires { IsNonDecreasingBy (λ b. place_of b.now) places.now }
    ensures { result ≡ list_any (λ o. same_txn f.now o && (has_records o && o.1.index == index)) (map (λ b. b.now) places.now) }
{
    let at = place(f.txn(), index);
    has_record(between(places, at, at + 1), f, index)
}

fn lacks_record_sector(places: &[&Found], f: &Found, index: u16) -> bool
    requires { IsNonDecreasingBy (λ b. place_of b.now) places.now }
    ensures { result ≡ (length (record_sectors (map (λ b. b.now) places.now) f.now index) == 0) }
{
    !has_record_sector(places, f, index)
}

fn lacks_some(places: &[&Found], f: &Found) -> bool
    requires { IsNonDecreasingBy (λ b. place_of b.now) places.now }
    ensures { result ≡ list_any (λ index. length (record_sectors (map (λ b. b.now) places.now) f.now index) == 0) (range_with_len 0 f.now.1.index) }
{
    (0..f.index()).any(|index| lacks_record_sector(places, f, index))
}

fn lacks_records(places: &[&Found], f: &Found) -> bool
    requires { IsNonDecreasingBy (λ b. place_of b.now) places.now }
    ensures { result ≡ bad.lacks_records (map (λ b. b.now) places.now) f.now }
{
    f.is_commit() && lacks_some(places, f)
}

fn has_commit_before(part: &[&Found], f: &Found) -> bool
    ensures { result ≡ list_any (λ b. same_txn f.now b.now && (has_commit b.now && nat_lt b.now.1.index f.now.1.index)) part.now }
{
    part.iter().any(|o| f.txn() == o.txn() && (o.is_commit() && o.index() < f.index()))
}

// A commit of its transaction has a lower index.
fn is_behind(commits: &[&Found], f: &Found) -> bool
    requires { IsNonDecreasingBy (λ b. place_of b.now) commits.now }
    ensures { result ≡ list_any (λ o. same_txn f.now o && (has_commit o && nat_lt o.1.index f.now.1.index)) (map (λ b. b.now) commits.now) }
{
    has_commit_before(between(commits, place(f.txn(), 0), f.place()), f)
}

fn is_behind_commit(commits: &[&Found], f: &Found) -> bool
    requires { IsNonDecreasingBy (λ b. place_of b.now) commits.now }
    ensures { result ≡ bad.is_behind_commit (map (λ b. b.now) commits.now) f.now }
{
    f.has_records() && is_behind(commits, f)
}

fn is_old(next: u64, f: &Found) -> bool
    ensures { result ≡ bad.is_old next f.now }
{
    match f.commit() {
        None => false,
        Some(number) => number < next,
    }
}

fn has_number(number: u64, f: &Found) -> bool
    ensures { result ≡ off.has_number number (commit_in f.now.1.content) }
{
    match f.commit() {
        None => false,
        Some(other) => other == number,
    }
}

fn has_another(part: &[&Found], f: &Found, number: u64) -> bool
    ensures { result ≡ list_any (λ b. bad.is_another f.now b.now && off.has_number number (commit_in b.now.1.content)) part.now }
{
    part.iter()
        .any(|o| o.sector() != f.sector() && has_number(number, o))
}

// Another commit has this number.
fn is_shared(numbers: &[&Found], f: &Found, number: u64) -> bool
    requires { IsNonDecreasingBy (λ b. number_of b.now) numbers.now }
    ensures { result ≡ list_any (λ o. bad.is_another f.now o && off.has_number number (commit_in o.1.content)) (map (λ b. b.now) numbers.now) }
{
    has_another(numbered(numbers, number), f, number)
}

fn shares_number(numbers: &[&Found], f: &Found) -> bool
    requires { IsNonDecreasingBy (λ b. number_of b.now) numbers.now }
    ensures { result ≡ bad.shares_number (map (λ b. b.now) numbers.now) f.now }
{
    match f.commit() {
        None => false,
        Some(number) => is_shared(numbers, f, number),
    }
}

fn is_record_in_range(geometry: &Geometry, change: &LogRecord) -> bool
    requires { IsGeometry geometry.now }
    ensures { result ≡ is_in_range geometry.now change.now }
{
    match change {
        LogRecord::Delta { inode, .. } => 1 <= *inode && *inode <= geometry.inodes,
        LogRecord::Place { sector, .. } => {
            8 * geometry.first_of_data() <= *sector && *sector < 8 * geometry.blocks
        }
        LogRecord::Free { inode } => 1 <= *inode && *inode <= geometry.inodes,
    }
}

fn leaves_range(geometry: &Geometry, f: &Found) -> bool
    requires { IsGeometry geometry.now }
    ensures { result ≡ bad.leaves_range geometry.now f.now }
{
    f.records()
        .iter()
        .any(|change| !is_record_in_range(geometry, change))
}

fn is_off(
    geometry: &Geometry,
    next: u64,
    places: &[&Found],
    commits: &[&Found],
    numbers: &[&Found],
    f: &Found,
) -> bool
    requires geometry { IsGeometry geometry.now }
    requires places { IsNonDecreasingBy (λ b. place_of b.now) places.now }
    requires commits { IsNonDecreasingBy (λ b. place_of b.now) commits.now }
    requires numbers { IsNonDecreasingBy (λ b. number_of b.now) numbers.now }
    ensures { result ≡ off.is_off_in geometry.now next (map (λ b. b.now) places.now) (map (λ b. b.now) commits.now) (map (λ b. b.now) numbers.now) f.now }
{
    is_repeated(places, f)
        || lacks_records(places, f)
        || is_behind_commit(commits, f)
        || is_old(next, f)
        || shares_number(numbers, f)
        || leaves_range(geometry, f)
}

fn first_in(
    geometry: &Geometry,
    next: u64,
    all: &[Found],
    places: &[&Found],
    commits: &[&Found],
    numbers: &[&Found],
) -> Option<u32>
    requires geometry { IsGeometry geometry.now }
    requires places { IsNonDecreasingBy (λ b. place_of b.now) places.now }
    requires commits { IsNonDecreasingBy (λ b. place_of b.now) commits.now }
    requires numbers { IsNonDecreasingBy (λ b. number_of b.now) numbers.now }
    ensures { result ≡ off.first_in geometry.now next (map (λ b. b.now) places.now) (map (λ b. b.now) commits.now) (map (λ b. b.now) numbers.now) all.now }
{
    all.iter()
        .find(|f| is_off(geometry, next, places, commits, numbers, f))
        .map(|f| f.sector())
}

/// The first sector that is off for what the journal alone tells, of all that are found, in the order of their places.
pub fn first_off(
    alloc: Global,
    geometry: &Geometry,
    next: u64,
    all: &[Found],
) -> Result<Option<u32>, AllocError>
    requires { IsGeometry geometry.now }
    ensures { IfOk result (λ first. first ≡ off.first_off geometry.now next all.now) }
{
    let places = in_places(alloc, all)?;
    let commits = commits_in_places(alloc, &places)?;
    let numbers = commits_in_numbers(alloc, &places)?;
    Ok(first_in(geometry, next, all, &places, &commits, &numbers))
}

/// The lower of two sectors, where there are any.
pub fn lower(one: Option<u32>, other: Option<u32>) -> Option<u32>
    ensures { result ≡ off.lower one other }
{
    match (one, other) {
        (None, other) => other,
        (Some(s), None) => Some(s),
        (Some(s), Some(t)) => Some(s.min(t)),
    }
}
