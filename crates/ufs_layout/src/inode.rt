// Inodes and their extents.
ghost use Rattle.std.specs.Prelude.{◌≡◌, ◌*◌, ◌+◌, ◌≤◌, ◌++◌, ◌∷◌, ◌&&◌, ◌==◌, ◌||◌, length, take, drop, replicate, flat_map, IsTrue, IfSome, Some, nat_le, not};
ghost use Rattle.std.specs.List.{list_all, AllByRecursion};
ghost use Rattle.ufs_base.specs.Choices.{some_if};
ghost use Rattle.ufs_layout.specs.Words.{number_at, is_zeros, padded, filled_to};
ghost use Rattle.ufs_layout.specs.InodeForm.{extent_bytes, extent_fields, extents_at, is_extent, FitsExtent, inode_bytes, inode_of, is_inode, no_extent, links_of_kind};
ghost use Rattle.byteorder.specs.Endian.{little_bytes};

use crate::bytes::{
    clear, found, has_only_zeros, put, put_u16, put_u32, put_u64, u16_at, u32_at, u64_at,
};
use std::marker::Model;
use ufs_base::{MAX_EXTENTS, SECTOR};

const NO_EXTENT: Extent = Extent {
    start: 0,
    length: 0,
};

/// Blocks in a row.
#[derive(Clone, Copy, Debug, PartialEq, Eq)]
pub struct Extent {
    pub start: u32,
    pub length: u32,
}

/// An inode: kind 0 is free, 1 a file, 2 a directory; the first `count` extents are used, the others
/// are 0; `size` is in bytes; `number` is that of the last commit that it contains. Contracts see the
/// used extents alone.
#[derive(Clone, Copy, Debug, PartialEq, Eq)]
pub struct Inode {
    pub kind: u8,
    pub count: u8,
    pub extents: [Extent; MAX_EXTENTS],
    pub size: u64,
    pub number: u64,
}

impl Model for Inode {
    ghost use Rattle.std.specs.Prelude.{take};
    ghost use Rattle.ufs_base.specs.declared.sizes.TheConstants.{MAX_EXTENTS};
    ghost use Rattle.ufs_layout.specs.InodeForm.{InodeForm, no_extent};
    ghost use Rattle.ufs_layout.specs.Words.{IsPadded, padded, count_of};
    ghost use Rattle.ufs_layout.specs.Padded.{count_of-take, padded-take};

    ghost Value = { InodeForm };

    ghost view = { λ i. record { kind = i.kind; extents = take i.count i.extents; size = i.size; number = i.number } };

    ghost invariant = { λ i. IsPadded no_extent MAX_EXTENTS i.count i.extents };

    ghost inverse = { λ f. record { kind = f.kind; count = count_of f.extents; extents = padded no_extent MAX_EXTENTS f.extents; size = f.size; number = f.number } };

    ghost inverse_ok = { λ a h i. record { kind = a.kind; count = count_of-take no_extent MAX_EXTENTS a.count a.extents h i; extents = padded-take no_extent MAX_EXTENTS a.count a.extents h i; size = a.size; number = a.number } };
}

impl Inode {
    /// Takes at most `MAX_EXTENTS` extents.
    pub fn from_extents(kind: u8, extents: &[Extent], size: u64, number: u64) -> Inode
        requires { length extents.now ≤ MAX_EXTENTS }
        ensures { result ≡ record { kind = kind; extents = extents.now; size = size; number = number } }
    {
        let mut places = [NO_EXTENT; MAX_EXTENTS];
        places[..extents.len()].copy_from_slice(extents);
        Inode {
            kind,
            count: extents.len() as u8,
            extents: places,
            size,
            number,
        }
    }

    pub fn used_extents(&self) -> &[Extent]
        ensures { result.now ≡ self.now.extents }
    {
        &self.extents[..usize::from(self.count)]
    }
}

fn put_extent(sector: &mut [u8], at: usize, extent: &Extent)
    requires { at + 8 ≤ length sector.old }
    ensures spelling { sector.new ≡ take at sector.old ++ extent_bytes extent.now ++ drop (at + 8) sector.old }
    ensures in_range { FitsExtent extent.now }
{
    let Extent { start, length } = *extent;
    let mut piece = [0; 8];
    put_u32(&mut piece, 0, start);
    put_u32(&mut piece, 4, length);
    put(sector, at, &piece);
}

// Writes extents in a row from this place on.
pub fn put_extents(sector: &mut [u8], at: usize, extents: &[Extent])
    requires { at + 8 * length extents.now ≤ length sector.old }
    ensures spelling { sector.new ≡ take at sector.old ++ flat_map extent_bytes extents.now ++ drop (at + 8 * length extents.now) sector.old }
    ensures in_range { AllByRecursion FitsExtent extents.now }
{
    for (i, extent) in extents.iter().enumerate() {
        put_extent(sector, at + 8 * i, extent);
    }
}

// The parts of an inode's sector before its extents.
fn put_head(head: &mut [u8], kind: u8, count: u8, size: u64, number: u64)
    requires { length head.old ≡ 64 }
    ensures { head.new ≡ filled_to 64 (kind ∷ count ∷ little_bytes 2 (links_of_kind kind) ++ replicate 4 0 ++ little_bytes 8 size ++ little_bytes 8 number) }
{
    clear(head);
    put(head, 0, &[kind, count]);
    put_u16(head, 2, links(kind));
    put_u64(head, 8, size);
    put_u64(head, 16, number);
}

fn links(kind: u8) -> u16
    ensures { result ≡ links_of_kind kind }
{
    if kind == 0 { 0 } else { 1 }
}

pub fn extent_at(area: &[u8], at: usize) -> Extent
    requires { at + 8 ≤ length area.now }
    ensures { result ≡ extent_fields (drop at area.now) }
{
    Extent {
        start: u32_at(area, at),
        length: u32_at(area, at + 4),
    }
}

// The used extents, or `None` where one has no block.
fn read_extents(area: &[u8], count: usize) -> Option<[Extent; MAX_EXTENTS]>
    requires few { count ≤ MAX_EXTENTS }
    requires room { 8 * count ≤ length area.now }
    ensures { result ≡ some_if (list_all is_extent (extents_at count area.now)) (padded no_extent MAX_EXTENTS (extents_at count area.now)) }
{
    let mut extents = [NO_EXTENT; MAX_EXTENTS];
    for i in 0..count {
        let extent = extent_at(area, 8 * i);
        if extent.length == 0 {
            return None;
        }
        extents[i] = extent;
    }
    Some(extents)
}

// What is asked of the numbers of an inode, its extents aside.
fn is_form(kind: u8, count: u8, size: u64) -> bool
    ensures { result ≡ (nat_le kind 2 && (not (kind == 0) || count == 0 && size == 0)) }
{
    kind <= 2 && (kind != 0 || count == 0 && size == 0)
}

// The bytes that no field reads are as they have to be.
fn is_spelled(sector: &[u8], kind: u8, count: u8) -> bool
    requires sized { length sector.now ≡ SECTOR }
    requires few { count ≤ MAX_EXTENTS }
    ensures { result ≡ ((links_of_kind kind == number_at 2 2 sector.now && is_zeros (take 4 (drop 4 sector.now))) && (is_zeros (take 40 (drop 24 sector.now)) && is_zeros (drop (64 + 8 * count) sector.now))) }
{
    has_head_spelled(sector, kind) && has_rest_spelled(sector, count)
}

fn has_head_spelled(sector: &[u8], kind: u8) -> bool
    requires { length sector.now ≡ SECTOR }
    ensures { result ≡ (links_of_kind kind == number_at 2 2 sector.now && is_zeros (take 4 (drop 4 sector.now))) }
{
    links(kind) == u16_at(sector, 2) && has_only_zeros(&sector[4..8])
}

fn has_rest_spelled(sector: &[u8], count: u8) -> bool
    requires sized { length sector.now ≡ SECTOR }
    requires few { count ≤ MAX_EXTENTS }
    ensures { result ≡ (is_zeros (take 40 (drop 24 sector.now)) && is_zeros (drop (64 + 8 * count) sector.now)) }
{
    has_only_zeros(&sector[24..64]) && has_only_zeros(&sector[64 + 8 * usize::from(count)..])
}

/// Writes the one spelling of an inode.
pub fn put_inode(sector: &mut [u8], value: &Inode)
    requires sized { length sector.old ≡ SECTOR }
    requires form { IsTrue (is_inode value.now) }
    ensures spelling { sector.new ≡ inode_bytes value.now }
    ensures read_back { inode_of sector.new ≡ Some value.now }
{
    clear(sector);
    put_head(
        &mut sector[..64],
        value.kind,
        value.count,
        value.size,
        value.number,
    );
    put_extents(sector, 64, &value.extents[..usize::from(value.count)]);
}

/// The inode whose one spelling the sector is; `None` where it is none's.
pub fn get_inode(sector: &[u8]) -> Option<Inode>
    requires { length sector.now ≡ SECTOR }
    ensures value { result ≡ inode_of sector.now }
    ensures spelling { IfSome result (λ v. sector.now ≡ inode_bytes v) }
    ensures form { IfSome result (λ v. IsTrue (is_inode v)) }
{
    let kind = sector[0];
    let count = sector[1];
    let used = usize::from(count);
    if used > MAX_EXTENTS {
        return None;
    }
    let Some(extents) = read_extents(&sector[64..], used) else {
        return None;
    };
    let size = u64_at(sector, 8);
    let value = Inode {
        kind,
        count,
        extents,
        size,
        number: u64_at(sector, 16),
    };
    found(
        is_form(kind, count, size),
        is_spelled(sector, kind, count),
        value,
    )
}
