ghost use Rattle.std.specs.Prelude.{◌≡◌, ◌≤◌, ◌++◌, ◌∷◌, [], length, IsTrue, IfSome, Some, take, drop, nat_le, ◌&&◌};
ghost use Rattle.ufs_layout.specs.Superblock.{super_bytes, super_fields, super_of, is_super, clean_byte, magic};
ghost use Rattle.ufs_base.specs.Choices.{some_if};
ghost use Rattle.ufs_layout.specs.Words.{byte_at, is_zeros, filled_to};
ghost use Rattle.std.specs.Str.{bytes_eq};
ghost use Rattle.byteorder.specs.Endian.{little_bytes};

use crate::bytes::{clear, found, has_only_zeros, put, put_u32, put_u64, u32_at, u64_at};
use ufs_base::SECTOR;

/// The superblock, whose sector begins an image. The epoch and `next`, the next commit number, are from
/// 1; `clean` is false while the image is in use.
#[derive(Clone, Copy, Debug, PartialEq, Eq)]
pub struct Super {
    pub version: u32,
    pub blocks: u32,
    pub inodes: u32,
    pub journal: u32,
    pub epoch: u64,
    pub next: u64,
    pub clean: bool,
}

fn clean_mark(clean: bool) -> u8
    ensures { result ≡ clean_byte clean }
{
    if clean { 1 } else { 0 }
}

fn put_start(start: &mut [u8], version: u32, blocks: u32, inodes: u32, journal: u32)
    requires { length start.old ≡ 24 }
    ensures { start.new ≡ magic ++ little_bytes 4 version ++ little_bytes 4 blocks ++ little_bytes 4 inodes ++ little_bytes 4 journal }
{
    put(start, 0, b"uFSIMG01");
    put_u32(start, 8, version);
    put_u32(start, 12, blocks);
    put_u32(start, 16, inodes);
    put_u32(start, 20, journal);
}

fn put_end(end: &mut [u8], epoch: u64, next: u64, clean: bool)
    requires { length end.old ≡ 17 }
    ensures { end.new ≡ little_bytes 8 epoch ++ little_bytes 8 next ++ clean_byte clean ∷ [] }
{
    put_u64(end, 0, epoch);
    put_u64(end, 8, next);
    put(end, 16, &[clean_mark(clean)]);
}

fn lay(sector: &mut [u8], start: &[u8], end: &[u8])
    requires sector { length sector.old ≡ SECTOR }
    requires start { length start.now ≡ 24 }
    requires end { length end.now ≡ 17 }
    ensures { sector.new ≡ filled_to SECTOR (start.now ++ end.now) }
{
    clear(sector);
    put(sector, 0, start);
    put(sector, 24, end);
}

/// Writes the one spelling of a superblock of version 1.
pub fn put_super(sector: &mut [u8], value: &Super)
    requires sized { length sector.old ≡ SECTOR }
    requires form { IsTrue (is_super 1 value.now) }
    ensures spelling { sector.new ≡ super_bytes value.now }
    ensures read_back { super_of 1 sector.new ≡ Some value.now }
{
    let Super {
        version,
        blocks,
        inodes,
        journal,
        epoch,
        next,
        clean,
    } = *value;
    let mut start = [0; 24];
    put_start(&mut start, version, blocks, inodes, journal);
    let mut end = [0; 17];
    put_end(&mut end, epoch, next, clean);
    lay(sector, &start, &end);
}

fn fields(sector: &[u8]) -> Super
    requires { length sector.now ≡ SECTOR }
    ensures { result ≡ super_fields sector.now }
{
    Super {
        version: u32_at(sector, 8),
        blocks: u32_at(sector, 12),
        inodes: u32_at(sector, 16),
        journal: u32_at(sector, 20),
        epoch: u64_at(sector, 24),
        next: u64_at(sector, 32),
        clean: sector[40] == 1,
    }
}

fn is_form(value: &Super) -> bool
    ensures { result ≡ is_super 1 value.now }
{
    value.version == 1 && (value.epoch >= 1 && value.next >= 1)
}

fn has_magic(sector: &[u8]) -> bool
    requires { 8 ≤ length sector.now }
    ensures { result ≡ bytes_eq magic (take 8 sector.now) }
{
    b"uFSIMG01".as_slice() == &sector[..8]
}

/// The version of a sector that begins with the 8 bytes of a superblock, be the rest what it may.
pub fn super_version(sector: &[u8]) -> Option<u32>
    requires { length sector.now ≡ SECTOR }
    ensures { result ≡ some_if (bytes_eq magic (take 8 sector.now)) (super_fields sector.now).version }
{
    if has_magic(sector) {
        Some(u32_at(sector, 8))
    } else {
        None
    }
}

fn is_flag(byte: u8) -> bool
    ensures { result ≡ nat_le byte 1 }
{
    byte <= 1
}

fn is_spelled(sector: &[u8]) -> bool
    requires { length sector.now ≡ SECTOR }
    ensures { result ≡ (bytes_eq magic (take 8 sector.now) && (nat_le (byte_at 40 sector.now) 1 && is_zeros (drop 41 sector.now))) }
{
    has_magic(sector) && (is_flag(sector[40]) && has_only_zeros(&sector[41..]))
}

/// The superblock of version 1 whose one spelling the sector is; `None` where it is none's.
pub fn get_super(sector: &[u8]) -> Option<Super>
    requires { length sector.now ≡ SECTOR }
    ensures value { result ≡ super_of 1 sector.now }
    ensures spelling { IfSome result (λ v. sector.now ≡ super_bytes v) }
    ensures form { IfSome result (λ v. IsTrue (is_super 1 v)) }
{
    let value = fields(sector);
    found(is_form(&value), is_spelled(sector), value)
}
