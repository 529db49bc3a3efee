// What records do to the extents of inodes.
ghost use Rattle.std.specs.Prelude.{◌≡◌, ◌+◌, ◌*◌, ◌<◌, ◌^◌, ◌++◌, ℕ, List, [], ◌∷◌, true, length, map, flat_map, min, Some, None, if◌then◌else◌, IfOk, OnOk};
ghost use Rattle.std.specs.List.{All};
ghost use Rattle.std.specs.List.Sorted.{IsNonDecreasingBy, IsStableByKey};
ghost use Rattle.std.specs.Ordering.{nat_cmp};
ghost use Rattle.ufs_layout.specs.Areas.{is_inode_number};
ghost use Rattle.ufs_scan.specs.Edits as by;
ghost use Rattle.ufs_scan.specs.Nets as net;

use crate::net::Net;
use crate::standing::is_inode;
use std::alloc::{AllocError, Global};
use std::marker::Model;
use ufs_found::Found;
use ufs_layout::{Extent, Geometry, LogRecord};

// A record of an inode: of the extents that there are it keeps the first ones, and puts others behind them.
// From before its transaction on, `kept` of the inode's extents are kept, and `moved` more that the transaction
// has put there.
#[derive(Drop)]
pub(crate) struct Step<'a> {
    txn: u32,
    index: u16,
    inode: u32,
    sector: u32,
    keep: u8,
    extents: &'a [Extent],
    kept: u8,
    moved: u8,
}

impl<'a> Model for Step<'a> {
    ghost use Rattle.std.specs.Prelude.{◌+◌, length};
    ghost use Rattle.ufs_scan.specs.Edits as steps;

    ghost Value = { steps.StepValue };

    ghost view = { λ s. record { edit = record { txn = s.txn; index = s.index; inode = s.inode; does = record { sector = s.sector; keep = s.keep; added = length s.extents.now } }; kept = s.kept; gained = s.moved + length s.extents.now } };
}

impl<'a> Step<'a> {
    pub(crate) fn txn(&self) -> u32
        ensures { result ≡ self.now.edit.txn }
    {
        self.txn
    }

    pub(crate) fn index(&self) -> u16
        ensures { result ≡ self.now.edit.index }
    {
        self.index
    }

    pub(crate) fn inode(&self) -> u32
        ensures { result ≡ self.now.edit.inode }
    {
        self.inode
    }

    // A number for its transaction and inode.
    pub(crate) fn key(&self) -> u64
        ensures { result ≡ by.key_of self.now.edit }
    {
        u64::from(self.txn) * 4_294_967_296 + u64::from(self.inode)
    }

    // Its sector, where it keeps more extents than there are.
    pub(crate) fn outkept(&self, count: u64) -> Option<u32>
        ensures { result ≡ (if by.outkeeps count self.now.edit.does then Some self.now.edit.does.sector else None) }
    {
        if count < u64::from(self.keep) {
            Some(self.sector)
        } else {
            None
        }
    }

    // How many extents there are behind it.
    pub(crate) fn after(&self, count: u64) -> u64
        ensures { result ≡ by.after count self.now.edit.does }
    {
        count.min(u64::from(self.keep)) + self.extents.len() as u64
    }

    // How many there are behind it, by how many there were before its transaction.
    pub(crate) fn from_before(&self, count: u64) -> u64
        ensures { result ≡ min self.now.kept count + self.now.gained }
    {
        count.min(u64::from(self.kept)) + u64::from(self.moved) + self.extents.len() as u64
    }

    // What its transaction has done up to it, in few bytes.
    pub(crate) fn net(&self) -> Net
        ensures { result ≡ net.net_of self.now }
    {
        let gained = u64::from(self.moved) + self.extents.len() as u64;
        Net {
            index: self.index,
            kept: self.kept,
            gained: gained.min(255) as u8,
        }
    }

    // The first of its inode in its transaction.
    fn first(&self) -> Step<'a>
        ensures edit { result.edit ≡ self.now.edit }
        ensures net { by.IsNet result (self.now.edit.does ∷ []) }
    {
        Step {
            txn: self.txn,
            index: self.index,
            inode: self.inode,
            sector: self.sector,
            keep: self.keep,
            extents: self.extents,
            kept: self.keep,
            moved: 0,
        }
    }

    // Behind another of its inode in its transaction.
    fn behind(&self, last: &Step<'_>) -> Step<'a>
        ensures edit { result.edit ≡ self.now.edit }
        ensures net { (es : List by.Effect) → by.IsNet last.now es → by.IsNet result (es ++ self.now.edit.does ∷ []) }
    {
        let gained = u64::from(last.moved) + last.extents.len() as u64;
        let keep = u64::from(self.keep);
        Step {
            txn: self.txn,
            index: self.index,
            inode: self.inode,
            sector: self.sector,
            keep: self.keep,
            extents: self.extents,
            kept: keep.saturating_sub(gained).min(u64::from(last.kept)) as u8,
            moved: keep.min(gained) as u8,
        }
    }

    // Behind those of its inode in its transaction.
    pub(crate) fn after_steps(&self, steps: &[Step<'_>]) -> Step<'a>
        requires { by.AreNets steps.now }
        ensures edit { result.edit ≡ self.now.edit }
        ensures nets { by.AreNets (steps.now ++ result ∷ []) }
    {
        match steps.last() {
            None => self.first(),
            Some(last) => self.behind(last),
        }
    }
}

fn step_at<'a>(one: &Found, inode: u32, keep: u8, extents: &'a [Extent]) -> Step<'a>
    ensures { result.edit ≡ by.edit_at one.now inode keep (length extents.now) }
{
    Step {
        txn: one.txn(),
        index: one.index(),
        inode,
        sector: one.sector(),
        keep,
        extents,
        kept: keep,
        moved: 0,
    }
}

fn add_inode<'a>(
    list: &mut Vec<Step<'a>>,
    geometry: &Geometry,
    step: Step<'a>,
) -> Result<(), AllocError>
    ensures { OnOk result (map (λ s. s.edit) list.new.items ≡ map (λ s. s.edit) list.old.items ++ by.in_range geometry.now step.entry.edit) }
{
    if is_inode(geometry, step.inode()) {
        list.push(step)?;
    }
    Ok(())
}

fn add_change<'a>(
    list: &mut Vec<Step<'a>>,
    geometry: &Geometry,
    one: &Found,
    change: &'a LogRecord,
) -> Result<(), AllocError>
    ensures { OnOk result (map (λ s. s.edit) list.new.items ≡ map (λ s. s.edit) list.old.items ++ by.edits_by geometry.now one.now change.now) }
{
    match change {
        LogRecord::Delta {
            inode,
            keep,
            extents,
            ..
        } => add_inode(
            list,
            geometry,
            step_at(one, *inode, *keep, extents.as_slice()),
        ),
        LogRecord::Place { .. } => Ok(()),
        LogRecord::Free { inode } => add_inode(list, geometry, step_at(one, *inode, 0, &[])),
    }
}

fn add_sector<'a>(
    list: &mut Vec<Step<'a>>,
    geometry: &Geometry,
    one: &'a Found,
) -> Result<(), AllocError>
    ensures { OnOk result (map (λ s. s.edit) list.new.items ≡ map (λ s. s.edit) list.old.items ++ by.edits_in geometry.now one.now) }
{
    for change in one.records() {
        add_change(list, geometry, one, change)?;
    }
    Ok(())
}

fn steps_of<'a>(
    alloc: Global,
    geometry: &Geometry,
    parts: &[&'a Found],
) -> Result<Vec<Step<'a>>, AllocError>
    ensures { IfOk result (λ list. map (λ s. s.edit) list.items ≡ by.edits_of geometry.now (map (λ b. b.now) parts.now)) }
{
    let mut list = Vec::new(alloc);
    for one in parts {
        add_sector(&mut list, geometry, one)?;
    }
    Ok(list)
}

// What records do to inodes, by their transactions and inodes; those of the same two keep their order.
pub(crate) fn steps_in_order<'a>(
    alloc: Global,
    geometry: &Geometry,
    parts: &[&'a Found],
) -> Result<Vec<Step<'a>>, AllocError>
    ensures in_order { IfOk result (λ list. IsNonDecreasingBy (λ s. by.key_of s.edit) list.items) }
    ensures same { IfOk result (λ list. by.HasEdits (by.edits_of geometry.now (map (λ b. b.now) parts.now)) list.items) }
    ensures inodes { IfOk result (λ list. All (λ s. is_inode_number geometry.now s.edit.inode ≡ true) list.items) }
{
    let mut list = steps_of(alloc, geometry, parts)?;
    list.sort_by_key(|step| step.key())?;
    Ok(list)
}
