// What the tests share: findings on an image of 64 blocks and 16 inodes, whose data area begins in block 12.
// The root has block 12, whose first two slots are told.
ghost use Rattle.std.specs.Prelude.{◌≡◌, IfOk, length};
ghost use Rattle.ufs_layout.specs.Areas.{IsGeometry};

use std::alloc::Global;
use ufs_base::Memory;
use ufs_damage::{Findings, ReadDir};
use ufs_layout::{Dentry, Extent, Geometry, Inode};

pub fn small() -> Geometry
    ensures value { result ≡ record { blocks = 64; inodes = 16; journal = 64 } }
    ensures limits { IsGeometry result }
{
    match Geometry::make(64, 16, 64) {
        Ok(geometry) => geometry,
        Err(_) => unreachable!(),
    }
}

/// A used inode with one extent.
pub fn node(kind: u8, start: u32, length: u32, size: u64) -> Option<Inode> {
    Some(Inode::from_extents(kind, &[Extent { start, length }], size, 0))
}

pub fn root() -> Option<Inode> {
    node(2, 12, 1, 4_096)
}

pub fn free() -> Option<Inode> {
    Some(Inode::from_extents(0, &[], 0, 0))
}

pub fn named(name: &[u8], inode: u32, kind: u8) -> Option<Dentry> {
    if name.len() > 58 {
        return None;
    }
    Some(Dentry::from_name(inode, kind, name))
}

pub fn unnamed() -> Option<Dentry> {
    Some(Dentry::from_name(0, 0, b""))
}

fn forms(
    alloc: Global,
    first: Option<Inode>,
    second: Option<Inode>,
    third: Option<Inode>,
) -> Result<Vec<Option<Inode>>, Memory>
    ensures { IfOk result (λ forms. length forms.items ≡ 16) }
{
    let mut forms = Vec::new(alloc);
    forms.resize(16, free())?;
    forms[0] = first;
    forms[1] = second;
    forms[2] = third;
    Ok(forms)
}

fn dirs(alloc: Global, a: Option<Dentry>, b: Option<Dentry>) -> Result<Vec<ReadDir>, Memory> {
    let mut slots = Vec::new(alloc);
    slots.push(a)?;
    slots.push(b)?;
    let dir = ReadDir::from_slots(1, slots);
    let mut dirs = Vec::new(alloc);
    dirs.push(dir)?;
    Ok(dirs)
}

/// Inodes 1, 2 and 3, and two slots of the root.
pub fn found(
    alloc: Global,
    inodes: (Option<Inode>, Option<Inode>, Option<Inode>),
    a: Option<Dentry>,
    b: Option<Dentry>,
) -> Result<Findings, Memory>
    ensures { IfOk result (λ f. length f.forms ≡ 16) }
{
    let forms = forms(alloc, inodes.0, inodes.1, inodes.2)?;
    let dirs = dirs(alloc, a, b)?;
    Ok(Findings::from_parts(forms, dirs))
}
