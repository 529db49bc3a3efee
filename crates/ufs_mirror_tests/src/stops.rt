// Two legs that each pass so many calls and then fail: what opening what is left gives.
use crate::asserts::holds_in;
use crate::legs::{BYTES, SECTORS, filled};
use std::alloc::AllocGlobal;
use std::process::Abort;
use ufs_base::SECTOR;
use ufs_disk::{Disk, Fuse, FuseDisk};
use ufs_mirror::Mirror;

fn fused<R: Abort + AllocGlobal>(rt: &R, image: &[u8], passes: u64) -> FuseDisk {
    let bytes = image.to_vec(rt.alloc()).expect(rt, "memory");
    holds_in(rt, bytes.len() == BYTES, passes);
    FuseDisk::new(rt.alloc(), SECTORS, bytes, Fuse { passes }).expect(rt, "memory")
}

// The first bytes of sector 5, one after another, up to the last one that a barrier made durable; the images that a crash
// leaves then.
fn run<R: Abort + AllocGlobal>(
    rt: &R,
    image: &[u8],
    passes: u64,
    pick: u64,
) -> (u8, Vec<u8>, Vec<u8>) {
    let first = fused(rt, image, passes);
    let second = fused(rt, image, passes.saturating_add(3));
    let mut durable = 0;
    let legs = match Mirror::open(first, second) {
        Ok(mut mirror) => {
            for byte in 1..6 {
                holds_in(rt, 5 < mirror.sectors(), passes);
                if mirror.write(5, &[byte; SECTOR]).is_ok() && mirror.barrier().is_ok() {
                    durable = byte;
                }
            }
            mirror.apart()
        }
        Err(unpaired) => ufs_mirror::Legpair {
            first: unpaired.first,
            second: unpaired.second,
        },
    };
    let first = legs.first.crash(pick).expect(rt, "memory");
    let second = legs.second.crash(pick / 2).expect(rt, "memory");
    (durable, first, second)
}

// What stands in sector 5 once the two are opened again.
fn reopened<R: Abort + AllocGlobal>(rt: &R, first: &[u8], second: &[u8], row: u64) -> u8 {
    let mut buf = [99; SECTOR];
    match Mirror::open(fused(rt, first, u64::MAX - 3), fused(rt, second, u64::MAX)) {
        Ok(mut mirror) => {
            holds_in(rt, 5 < mirror.sectors(), row);
            holds_in(rt, mirror.read(5, &mut buf).is_ok(), row);
        }
        Err(_unpaired) => {}
    }
    buf[0]
}

#[test]
fn what_a_barrier_made_durable_is_there(rt: HostRuntime) {
    let (whole, _other) = filled(&rt);
    for passes in 0..24 {
        for pick in 0..4 {
            let (durable, first, second) = run(&rt, whole.as_slice(), passes, pick);
            let found = reopened(&rt, first.as_slice(), second.as_slice(), passes);
            holds_in(&rt, durable <= found && found <= 5, passes);
        }
    }
}
