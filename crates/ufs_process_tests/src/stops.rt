// Sessions over two legs that each pass so many calls and then fail.
use crate::asserts::{are_bytes, holds, holds_in};
use crate::legs::{Answer, Images, command, leg, made};
use std::alloc::AllocGlobal;
use std::process::Abort;
use ufs_base::SECTOR;
use ufs_disk::{Fuse, FuseDisk};

const TWO_SYNCS: &str = "open /f rw creat;write 3 61616161;fsync 3;write 3 6262;fsync 3";

const NONE: &[u8] = b"dir /\n";

const EMPTY: &[u8] = b"dir /\nfile /f 0 -\n";

const FIRST: &[u8] = b"dir /\nfile /f 4 61616161\n";

const BOTH: &[u8] = b"dir /\nfile /f 6 616161616262\n";

// Whether the text has these bytes somewhere.
fn has(text: &[u8], wanted: &[u8]) -> bool {
    for at in 0..text.len() {
        if text[at..].starts_with(wanted) {
            return true;
        }
    }
    false
}

// Whether a tree may be left where the first sync was told, or both.
fn may_be_left(tree: &[u8], first: bool, both: bool) -> bool {
    tree == BOTH || (!both && tree == FIRST) || (!first && (tree == EMPTY || tree == NONE))
}

// A leg with these bytes that passes so many calls.
fn fuse_leg<R: Abort + AllocGlobal>(rt: &R, image: &[u8], passes: u64) -> FuseDisk {
    let bytes = image.to_vec(rt.alloc()).expect(rt, "memory");
    let sectors = match u32::try_from(bytes.len() / SECTOR) {
        Ok(sectors) => sectors,
        Err(_) => 0,
    };
    holds(rt, bytes.len() == SECTOR * sectors as usize);
    FuseDisk::new(rt.alloc(), sectors, bytes, Fuse { passes }).expect(rt, "memory")
}

// The session over legs of which one passes three calls more.
fn play<R: Abort + AllocGlobal>(
    rt: &R,
    images: &Images,
    one: u64,
    other: u64,
) -> Answer<FuseDisk, FuseDisk> {
    let first = fuse_leg(rt, images.first.as_slice(), one);
    let second = fuse_leg(rt, images.second.as_slice(), other);
    command(rt, "play", TWO_SYNCS, first, second)
}

// What a crash leaves of the legs is recovered as one, and then both are alike. The tree.
fn tree_left<R: Abort + AllocGlobal>(rt: &R, left: &Images, passes: u64) -> Vec<u8> {
    let first = leg(rt, left.first.as_slice(), &[]);
    let second = leg(rt, left.second.as_slice(), &[]);
    let recovered = command(rt, "recover", "", first, second);
    holds_in(rt, recovered.status == 0, passes);
    let images = Images {
        first: recovered.first.crash(0).expect(rt, "memory"),
        second: recovered.second.crash(0).expect(rt, "memory"),
    };
    are_bytes(rt, images.first.as_slice(), images.second.as_slice());
    let first = leg(rt, images.first.as_slice(), &[]);
    let second = leg(rt, images.second.as_slice(), &[]);
    let shown = command(rt, "tree", "", first, second);
    holds_in(rt, shown.status == 0, passes);
    shown.text
}

// Asserts that what a session told as synced is left. Whether it ended well.
fn keeps_synced<R: Abort + AllocGlobal>(
    rt: &R,
    images: &Images,
    passes: u64,
    swapped: bool,
) -> bool {
    let (one, other) = if swapped {
        (passes.saturating_add(3), passes)
    } else {
        (passes, passes.saturating_add(3))
    };
    let session = play(rt, images, one, other);
    let first = has(session.text.as_slice(), b"0.2 ok\n");
    let both = has(session.text.as_slice(), b"0.4 ok\n");
    let status = session.status;
    let left = Images {
        first: session.first.crash(passes % 8).expect(rt, "memory"),
        second: session.second.crash(passes % 7).expect(rt, "memory"),
    };
    let tree = tree_left(rt, &left, passes);
    holds_in(rt, may_be_left(tree.as_slice(), first, both), passes);
    holds_in(rt, status == 0 || status == 4, passes);
    status == 0
}

fn always_stopped(rt: &impl Abort) {
    panic!(rt; "always stopped")
}

// The one leg passes three calls more at every other number, and the other at the rest.
#[test]
fn what_was_synced_outlives_any_stop(rt: HostRuntime) {
    let images = made(&rt, 513, "mkfs 64 32 64", "made 64 32 64 50\n");
    let mut ended = false;
    for passes in 0..1_000 {
        let ends = keeps_synced(&rt, &images, passes, passes % 2 == 1);
        if ends && ended {
            return;
        }
        ended = ends;
    }
    always_stopped(&rt);
}
