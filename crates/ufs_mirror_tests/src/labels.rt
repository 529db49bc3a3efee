// Labels: what stands in them, which leg is picked, and legs that make no mirror.
use crate::asserts::{are_bytes, holds, same};
use crate::legs::{BYTES, SECTORS, filled, filling, images, leg, mirror, refusal, zeros};
use std::alloc::AllocGlobal;
use std::process::Abort;
use ufs_base::SECTOR;
use ufs_disk::{MemoryDisk, PlainDisk};
use ufs_mirror::{LiveLegs, Mirror, MirrorFault};

const LABEL: usize = BYTES - SECTOR;

// A leg whose data is filled with a byte, with a label of this generation.
fn labelled<R: Abort + AllocGlobal>(rt: &R, byte: u8, generation: u64) -> MemoryDisk {
    let mut bytes = [byte; BYTES];
    bytes[LABEL..].fill(0);
    bytes[LABEL..LABEL + 8].copy_from_slice(b"uFSMIR01".as_slice());
    bytes[LABEL + 8..LABEL + 16].copy_from_slice(&generation.to_le_bytes());
    leg(rt, &bytes, &[])
}

// The generation that stands in an image's label.
fn generation(image: &[u8]) -> u64 {
    let mut number = [0; 8];
    if image.len() == BYTES {
        number.copy_from_slice(&image[LABEL + 8..LABEL + 16]);
    }
    u64::from_le_bytes(number)
}

// Each row: the generations of two legs, filled with 1 and 2, then the leg that is picked and the next generation.
const PICKS: [(u64, u64, u8, u64); 8] = [
    (1, 1, 1, 2),
    (3, 2, 1, 4),
    (2, 3, 2, 4),
    (0, 1, 2, 2),
    (1, 0, 1, 2),
    (255, 256, 2, 257),
    (1 << 63, 1, 1, 1),
    (7, u64::MAX, 2, 1),
];

fn picks<R: Abort + AllocGlobal>(rt: &R, first: u64, second: u64, picked: u8, next: u64) {
    let made = Mirror::open(labelled(rt, 1, first), labelled(rt, 2, second));
    let mut opened = mirror(rt, made);
    same(rt, filling(rt, &mut opened, 0), Some(picked));
    same(rt, filling(rt, &mut opened, SECTORS - 2), Some(picked));
    let (one, other) = images(rt, opened);
    same(rt, generation(one.as_slice()), next);
    are_bytes(rt, one.as_slice(), other.as_slice());
}

#[test]
fn the_greater_generation_is_picked(rt: HostRuntime) {
    for (first, second, picked, next) in PICKS {
        picks(&rt, first, second, picked, next);
    }
}

#[test]
fn a_label_is_these_bytes(rt: HostRuntime) {
    let (first, _second) = filled(&rt);
    holds(&rt, first.len() == BYTES);
    let label = &first[LABEL..];
    let mut wanted = [0; SECTOR];
    wanted[..9].copy_from_slice(&[0x75, 0x46, 0x53, 0x4d, 0x49, 0x52, 0x30, 0x31, 1]);
    are_bytes(&rt, label, &wanted);
}

// A label of which one byte is another one.
fn spoiled_label(at: usize) -> [u8; SECTOR] {
    let mut label = [0; SECTOR];
    label[..9].copy_from_slice(&[0x75, 0x46, 0x53, 0x4d, 0x49, 0x52, 0x30, 0x31, 9]);
    if at < SECTOR {
        label[at] ^= 0x40;
    }
    label
}

// A leg with that label.
fn spoiled<R: Abort + AllocGlobal>(rt: &R, at: usize) -> MemoryDisk {
    let mut bytes = [0; BYTES];
    bytes[LABEL..].copy_from_slice(&spoiled_label(at));
    leg(rt, &bytes, &[])
}

#[test]
fn a_label_with_a_wrong_byte_is_none(rt: HostRuntime) {
    for at in [0, 7, 16, SECTOR - 1] {
        let made = Mirror::open(spoiled(&rt, at), zeros(&rt, &[]));
        same(&rt, refusal(made), Some(MirrorFault::NoLabel));
    }
}

fn plain<R: Abort + AllocGlobal>(rt: &R, sectors: u32) -> PlainDisk {
    PlainDisk::zeros(rt.alloc(), sectors).expect(rt, "memory")
}

// Why two legs of so many sectors make no mirror, once opened and once made.
fn sizes<R: Abort + AllocGlobal>(rt: &R, first: u32, second: u32) -> [Option<MirrorFault>; 2] {
    let opened = match Mirror::open(plain(rt, first), plain(rt, second)) {
        Ok(_mirror) => None,
        Err(unpaired) => Some(unpaired.fault),
    };
    let made = match Mirror::make(plain(rt, first), plain(rt, second)) {
        Ok(_mirror) => None,
        Err(unpaired) => Some(unpaired.fault),
    };
    [opened, made]
}

#[test]
fn legs_that_make_no_mirror(rt: HostRuntime) {
    let unequal = Some(MirrorFault::Unequal {
        first: 3,
        second: 2,
    });
    same(&rt, sizes(&rt, 3, 2), [unequal; 2]);
    same(&rt, sizes(&rt, 1, 1), [Some(MirrorFault::TooSmall); 2]);
    same(&rt, sizes(&rt, 2, 2), [Some(MirrorFault::NoLabel), None]);
}

// One call of the first leg fails, or of the second: what opening the two answers.
fn faulty<R: Abort + AllocGlobal>(
    rt: &R,
    whole: &[u8],
    first: &[u64],
    second: &[u64],
) -> Result<LiveLegs, MirrorFault> {
    match Mirror::open(leg(rt, whole, first), leg(rt, whole, second)) {
        Ok(mirror) => Ok(mirror.live()),
        Err(unpaired) => Err(unpaired.fault),
    }
}

// The leg that is picked is called seven times: a barrier and a read for its label, three reads, and two for the next
// label. The other is called eight times.
#[test]
fn a_fault_while_a_pair_opens(rt: HostRuntime) {
    let (whole, _other) = filled(&rt);
    let refused = Err(MirrorFault::Device { fault: 1 });
    for call in 0..7 {
        same(&rt, faulty(&rt, whole.as_slice(), &[call], &[]), refused);
    }
    for call in 0..2 {
        same(&rt, faulty(&rt, whole.as_slice(), &[], &[call]), refused);
    }
    for call in 2..8 {
        same(
            &rt,
            faulty(&rt, whole.as_slice(), &[], &[call]),
            Ok(LiveLegs::First),
        );
    }
    same(
        &rt,
        faulty(&rt, whole.as_slice(), &[7], &[8]),
        Ok(LiveLegs::Both),
    );
}
