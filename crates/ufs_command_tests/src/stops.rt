// One call, or a session, over a disk that passes so many calls and then fails each: what it answers, and what a crash
// leaves of it.
use crate::asserts::{are_bytes, holds, holds_in, same};
use crate::calls::{Call, bytes, check_new, words};
use crate::rows::script_of;
use crate::trees::making_small;
use std::alloc::AllocGlobal;
use std::process::Abort;
use ufs_base::SECTOR;
use ufs_command::quiet;
use ufs_disk::{Disk, Fuse, FuseDisk};
use ufs_io::{MemorySink, PlainSource};

/// What a call answers, and what a crash behind it leaves.
#[derive(Drop)]
pub struct Answer {
    pub status: u8,
    pub text: Vec<u8>,
    pub left: Vec<u8>,
}

/// The bytes of an image that is made so on a disk of so many sectors.
pub fn image<R: Abort + AllocGlobal>(rt: &R, sectors: u32, making: Call) -> Vec<u8> {
    check_new(rt, sectors, &[making]).bytes
}

/// The status and the text that a call gets over a disk, and the disk.
pub fn answer_over<R: Abort + AllocGlobal, D: Disk + Drop>(
    rt: &R,
    line: &[&str],
    script: &str,
    disk: D,
) -> (u8, Vec<u8>, D) {
    let words = words(rt, line);
    let mut source = PlainSource::new(bytes(rt, script));
    let mut sink = MemorySink::new(rt.alloc(), Vec::new(rt.alloc()));
    let outcome = quiet(rt.alloc(), &words, &mut source, &mut sink, disk);
    let text = sink.bytes().to_vec(rt.alloc()).expect(rt, "memory");
    (outcome.status, text, outcome.disk)
}

// The sectors of an image of 64 blocks, or of one of 256.
fn sectors_of(image: &[u8]) -> u32 {
    if image.len() < 2_048 * SECTOR {
        512
    } else {
        2_048
    }
}

/// A disk with these bytes that passes so many calls.
pub fn fuse_disk<R: Abort + AllocGlobal>(rt: &R, image: &[u8], passes: u64) -> FuseDisk {
    let bytes = image.to_vec(rt.alloc()).expect(rt, "memory");
    let sectors = sectors_of(image);
    holds(rt, bytes.len() == SECTOR * sectors as usize);
    FuseDisk::new(rt.alloc(), sectors, bytes, Fuse { passes }).expect(rt, "memory")
}

/// A call over such a disk. `pick` says which crash.
pub fn make_call<R: Abort + AllocGlobal>(
    rt: &R,
    line: &[&str],
    script: &str,
    image: &[u8],
    passes: u64,
    pick: u64,
) -> Answer {
    let (status, text, disk) = answer_over(rt, line, script, fuse_disk(rt, image, passes));
    let left = disk.crash(pick).expect(rt, "memory");
    Answer { status, text, left }
}

/// A call that passes.
pub fn calmly<R: Abort + AllocGlobal>(rt: &R, line: &[&str], image: &[u8]) -> Answer {
    make_call(rt, line, "", image, u64::MAX, 0)
}

/// Whether the text has these bytes somewhere.
pub fn has(text: &[u8], wanted: &[u8]) -> bool {
    for at in 0..text.len() {
        if text[at..].starts_with(wanted) {
            return true;
        }
    }
    false
}

/// Whether a call ended well where so many calls passed; else the disk stopped it.
pub fn is_whole(rt: &impl Abort, status: u8, passes: u64) -> bool {
    holds_in(rt, status == 0 || status == 4, passes);
    status == 0
}

pub fn always_stopped(rt: &impl Abort) {
    panic!(rt; "always stopped")
}

/// A script of one client, and a new image of 64 blocks.
#[derive(Drop)]
pub struct Stage {
    pub script: String,
    pub image: Vec<u8>,
}

impl Stage {
    pub fn new<R: Abort + AllocGlobal>(rt: &R, requests: &str) -> Stage {
        Stage {
            script: script_of(rt, requests),
            image: image(rt, 512, making_small()),
        }
    }

    /// The session over a disk that passes so many calls. `pick` says which crash.
    pub fn play<R: Abort + AllocGlobal>(&self, rt: &R, passes: u64, pick: u64) -> Answer {
        let image = self.image.as_slice();
        make_call(rt, &["play"], self.script.as_str(), image, passes, pick)
    }

    // Whether the session's text has these bytes where so many calls pass.
    fn tells<R: Abort + AllocGlobal>(&self, rt: &R, passes: u64, wanted: &[u8]) -> bool {
        has(self.play(rt, passes, 0).text.as_slice(), wanted)
    }

    /// The least number of calls that a disk passes where the session's text has these bytes.
    pub fn least<R: Abort + AllocGlobal>(&self, rt: &R, wanted: &[u8]) -> u64 {
        let mut from = 0;
        let mut to = 8_192;
        for _halving in 0..13 {
            holds(rt, from <= to && to <= 8_192);
            let middle = (from + to) / 2;
            if self.tells(rt, middle, wanted) {
                to = middle;
            } else {
                from = middle + 1;
            }
        }
        holds(rt, from == to);
        to
    }
}

/// The lines of the tree that a crash's image stands for, once it is recovered.
pub fn tree_left<R: Abort + AllocGlobal>(rt: &R, left: &[u8]) -> Vec<u8> {
    let recovered = calmly(rt, &["recover"], left);
    same(rt, recovered.status, 0);
    is_clean(rt, recovered.left.as_slice());
    let shown = calmly(rt, &["tree"], recovered.left.as_slice());
    same(rt, shown.status, 0);
    shown.text
}

fn is_clean<R: Abort + AllocGlobal>(rt: &R, image: &[u8]) {
    are_bytes(
        rt,
        calmly(rt, &["check"], image).text.as_slice(),
        b"clean\n",
    );
}
