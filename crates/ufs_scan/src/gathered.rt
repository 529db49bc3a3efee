// The transactions that have a commit, with their records.
ghost use Rattle.std.specs.Prelude.{◌≡◌, ◌++◌, List, IfOk, OnOk};
ghost use Rattle.std.specs.List.Sorted.{IsNonDecreasingBy};
ghost use Rattle.ufs_image.specs.Journal.{records_in};
ghost use Rattle.ufs_scan.specs.Gathered.{placed_in, transaction_in, HasParts};
ghost use Rattle.ufs_found.specs.Sorted.{place_of};
ghost use Rattle.ufs_image.specs.Journal.{FoundSector, committed_of};
ghost use Rattle.std.specs.Prelude.{flat_map, map};

use std::alloc::{AllocError, Global};
use std::marker::Model;
use ufs_found::{Found, between, place};
use ufs_layout::{Committed, CommittedList, ExtentList, LogRecord, Records};

// A transaction that has a commit, with that commit's number and its record sectors in the order of their
// indexes.
#[derive(Drop)]
pub(crate) struct Committing<'a> {
    number: u64,
    sectors: &'a [&'a Found],
}

impl<'a> Model for Committing<'a> {
    ghost use Rattle.std.specs.Prelude.{flat_map};
    ghost use Rattle.ufs_image.specs.Journal.{Transaction};
    ghost use Rattle.ufs_scan.specs.Gathered.{placed_in};

    ghost Value = { Transaction };

    ghost view = { λ t. record { number = t.number; records = flat_map (λ b. placed_in b.now) t.sectors.now } };
}

impl<'a> Committing<'a> {
    pub(crate) fn sectors(&self) -> &[&'a Found]
        ensures { flat_map (λ b. placed_in b.now) result.now ≡ self.now.records }
    {
        self.sectors
    }

    pub(crate) fn number(&self) -> u64
        ensures { result ≡ self.now.number }
    {
        self.number
    }
}

fn copy_change(alloc: Global, change: &LogRecord) -> Result<LogRecord, AllocError>
    ensures { IfOk result (λ copy. copy ≡ change.now) }
{
    match change {
        LogRecord::Delta {
            inode,
            kind,
            size,
            keep,
            extents,
        } => Ok(LogRecord::Delta {
            inode: *inode,
            kind: *kind,
            size: *size,
            keep: *keep,
            extents: ExtentList::from_vec(extents.as_slice().to_vec(alloc)?),
        }),
        LogRecord::Place {
            sector,
            slot,
            dentry,
        } => Ok(LogRecord::Place {
            sector: *sector,
            slot: *slot,
            dentry: *dentry,
        }),
        LogRecord::Free { inode } => Ok(LogRecord::Free { inode: *inode }),
    }
}

// The transaction of a commit.
fn with_parts<'a>(parts: &'a [&'a Found], one: &Found) -> Committing<'a>
    requires { IsNonDecreasingBy (λ b. place_of b.now) parts.now }
    ensures { (all : List FoundSector) → HasParts all (map (λ b. b.now) parts.now) → result ≡ transaction_in all one.now }
{
    let number = one.number();
    let low = place(one.txn(), 0);
    let high = place(one.txn(), one.index());
    Committing {
        number,
        sectors: between(parts, low, high),
    }
}

// The transactions of these commits.
pub(crate) fn gather<'a>(
    alloc: Global,
    parts: &'a [&'a Found],
    commits: &[&Found],
) -> Result<Vec<Committing<'a>>, AllocError>
    requires in_order { IsNonDecreasingBy (λ b. place_of b.now) parts.now }
    ensures { (all : List FoundSector) → HasParts all (map (λ b. b.now) parts.now) → IfOk result (λ list. list.items ≡ map (transaction_in all) (map (λ b. b.now) commits.now)) }
{
    let mut list = Vec::with_capacity(alloc, commits.len())?;
    for one in commits {
        list.push(with_parts(parts, one))?;
    }
    Ok(list)
}

fn copy_sector(list: &mut Vec<LogRecord>, alloc: Global, one: &Found) -> Result<(), AllocError>
    ensures { OnOk result (list.new.items ≡ list.old.items ++ records_in one.now.1.content) }
{
    for change in one.records() {
        list.push(copy_change(alloc, change)?)?;
    }
    Ok(())
}

fn copy_records(alloc: Global, sectors: &[&Found]) -> Result<Records, AllocError>
    ensures { IfOk result (λ copy. copy ≡ map (λ p. p.1) (flat_map (λ b. placed_in b.now) sectors.now)) }
{
    let mut list = Vec::new(alloc);
    for one in sectors {
        copy_sector(&mut list, alloc, one)?;
    }
    Ok(Records::from_vec(list))
}

fn copy_one(alloc: Global, one: &Committing) -> Result<Committed, AllocError>
    ensures { IfOk result (λ copy. copy ≡ committed_of one.now) }
{
    Ok(Committed {
        number: one.number(),
        records: copy_records(alloc, one.sectors())?,
    })
}

// The transactions without the places of their records.
pub(crate) fn copy_all(alloc: Global, all: &[Committing]) -> Result<CommittedList, AllocError>
    ensures { IfOk result (λ list. list ≡ map committed_of all.now) }
{
    let mut list = Vec::with_capacity(alloc, all.len())?;
    for one in all {
        list.push(copy_one(alloc, one)?)?;
    }
    Ok(CommittedList::from_vec(list))
}
