// Mirrors over legs in memory.
ghost use Rattle.std.specs.Prelude.{◌≡◌, length};

use crate::asserts::{are_bytes, holds, same};
use std::alloc::AllocGlobal;
use std::process::Abort;
use ufs_base::SECTOR;
use ufs_disk::{Disk, MemoryDisk};
use ufs_mirror::{LiveLegs, Mirror, MirrorFault, Unpaired};

/// Legs have so many sectors: two whole pieces of a copy, a part of one, and the label.
pub const SECTORS: u32 = 20;

/// The bytes of a leg.
pub const BYTES: usize = SECTORS as usize * SECTOR;

pub type Legs = Mirror<MemoryDisk, MemoryDisk>;

/// A leg with these bytes, of whose calls those of these numbers fail.
pub fn leg<R: Abort + AllocGlobal>(rt: &R, image: &[u8], fails: &[u64]) -> MemoryDisk {
    let bytes = image.to_vec(rt.alloc()).expect(rt, "memory");
    let fails = fails.to_vec(rt.alloc()).expect(rt, "memory");
    holds(rt, bytes.len() == BYTES);
    MemoryDisk::new(rt.alloc(), SECTORS, bytes, fails).expect(rt, "memory")
}

/// What a leg holds, with nothing pending.
pub fn image_of<R: Abort + AllocGlobal>(rt: &R, disk: MemoryDisk) -> Vec<u8> {
    disk.crash(0).expect(rt, "memory")
}

/// The mirror, where there is one.
pub fn mirror<R: Abort>(rt: &R, made: Result<Legs, Unpaired<MemoryDisk, MemoryDisk>>) -> Legs {
    match made {
        Ok(mirror) => mirror,
        Err(_unpaired) => rt.abort(),
    }
}

/// Why there is none.
pub fn refusal(made: Result<Legs, Unpaired<MemoryDisk, MemoryDisk>>) -> Option<MirrorFault> {
    match made {
        Ok(_mirror) => None,
        Err(unpaired) => Some(unpaired.fault),
    }
}

/// A sector filled with a byte is written. Whether that passed.
pub fn fill<R: Abort>(rt: &R, mirror: &mut Legs, sector: u32, byte: u8) -> bool {
    holds(rt, sector < mirror.sectors());
    mirror.write(sector, &[byte; SECTOR]).is_ok()
}

/// The byte that a sector is filled with.
pub fn filling<R: Abort>(rt: &R, mirror: &mut Legs, sector: u32) -> Option<u8> {
    holds(rt, sector < mirror.sectors());
    let mut buf = [1; SECTOR];
    if mirror.read(sector, &mut buf).is_err() {
        return None;
    }
    if buf == [buf[0]; SECTOR] {
        Some(buf[0])
    } else {
        None
    }
}

/// A leg of zeros.
pub fn zeros<R: Abort + AllocGlobal>(rt: &R, fails: &[u64]) -> MemoryDisk {
    leg(rt, &[0; BYTES], fails)
}

/// The two images of a mirror's legs.
pub fn images<R: Abort + AllocGlobal>(rt: &R, mirror: Legs) -> (Vec<u8>, Vec<u8>) {
    let legs = mirror.apart();
    (image_of(rt, legs.first), image_of(rt, legs.second))
}

/// The images of a mirror of zeros of which the sectors 0, 8 and 18 are filled.
pub fn filled<R: Abort + AllocGlobal>(rt: &R) -> (Vec<u8>, Vec<u8>) {
    let mut mirror = mirror(rt, Mirror::make(zeros(rt, &[]), zeros(rt, &[])));
    for sector in [0, 8, 18] {
        holds(rt, fill(rt, &mut mirror, sector, sector as u8 + 1));
    }
    holds(rt, mirror.barrier().is_ok());
    images(rt, mirror)
}

/// Whether the sectors 0, 8 and 18 are filled, and another isn't.
pub fn is_filled<R: Abort>(rt: &R, mirror: &mut Legs) -> bool {
    filling(rt, mirror, 0) == Some(1)
        && filling(rt, mirror, 8) == Some(9)
        && filling(rt, mirror, 18) == Some(19)
        && filling(rt, mirror, 17) == Some(0)
}

#[test]
fn both_legs_have_what_was_written(rt: HostRuntime) {
    let (first, second) = filled(&rt);
    are_bytes(&rt, first.as_slice(), second.as_slice());
    let mut again = mirror(
        &rt,
        Mirror::open(
            leg(&rt, first.as_slice(), &[]),
            leg(&rt, second.as_slice(), &[]),
        ),
    );
    holds(&rt, is_filled(&rt, &mut again));
    same(&rt, again.live(), LiveLegs::Both);
    same(&rt, again.sectors(), SECTORS - 1);
}

#[test]
fn a_leg_of_zeros_is_made_whole(rt: HostRuntime) {
    let (whole, _other) = filled(&rt);
    for zeros_first in [false, true] {
        let made = if zeros_first {
            Mirror::open(zeros(&rt, &[]), leg(&rt, whole.as_slice(), &[]))
        } else {
            Mirror::open(leg(&rt, whole.as_slice(), &[]), zeros(&rt, &[]))
        };
        let mut opened = mirror(&rt, made);
        holds(&rt, is_filled(&rt, &mut opened));
        let (first, second) = images(&rt, opened);
        are_bytes(&rt, first.as_slice(), second.as_slice());
    }
}

// The first leg that fails a write goes, and what is written after it the other leg has alone.
#[test]
fn a_leg_that_fails_is_let_go(rt: HostRuntime) {
    let (first, second) = filled(&rt);
    // An opening calls the leg that is copied over six times before: a barrier and a read of its label, three pieces, and
    // a barrier; then a write and a barrier of its label.
    let mut opened = mirror(
        &rt,
        Mirror::open(
            leg(&rt, first.as_slice(), &[]),
            leg(&rt, second.as_slice(), &[8]),
        ),
    );
    same(&rt, opened.live(), LiveLegs::Both);
    holds(&rt, fill(&rt, &mut opened, 3, 77));
    same(&rt, opened.live(), LiveLegs::First);
    holds(&rt, fill(&rt, &mut opened, 4, 78));
    holds(&rt, opened.barrier().is_ok());
    let (first, second) = images(&rt, opened);
    holds(&rt, first.as_slice() != second.as_slice());
    let mut again = mirror(
        &rt,
        Mirror::open(
            leg(&rt, first.as_slice(), &[]),
            leg(&rt, second.as_slice(), &[]),
        ),
    );
    same(&rt, filling(&rt, &mut again, 3), Some(77));
    same(&rt, filling(&rt, &mut again, 4), Some(78));
    let (first, second) = images(&rt, again);
    are_bytes(&rt, first.as_slice(), second.as_slice());
}

// Where no live leg does a call, it fails, and each one after it.
#[test]
fn a_mirror_of_no_legs_fails(rt: HostRuntime) {
    let (first, second) = filled(&rt);
    let mut opened = mirror(
        &rt,
        Mirror::open(
            leg(&rt, first.as_slice(), &[8, 9]),
            leg(&rt, second.as_slice(), &[8]),
        ),
    );
    holds(&rt, !fill(&rt, &mut opened, 3, 77));
    same(&rt, opened.live(), LiveLegs::Neither);
    holds(&rt, !fill(&rt, &mut opened, 3, 77));
    holds(&rt, opened.barrier().is_err());
    same(&rt, filling(&rt, &mut opened, 0), None);
}

// A read that the first leg fails is the second's.
#[test]
fn a_read_goes_to_the_other_leg(rt: HostRuntime) {
    let (first, second) = filled(&rt);
    let mut opened = mirror(
        &rt,
        Mirror::open(
            leg(&rt, first.as_slice(), &[7]),
            leg(&rt, second.as_slice(), &[]),
        ),
    );
    holds(&rt, is_filled(&rt, &mut opened));
    same(&rt, opened.live(), LiveLegs::Both);
}
