// Calls over scripts in memory.
use crate::asserts::holds;
use std::alloc::AllocGlobal;
use std::process::Abort;
use ufs_base::SECTOR;
use ufs_command::quiet;
use ufs_disk::{Disk, MemoryDisk, PlainDisk};
use ufs_io::{MemorySink, MemorySource};

/// A call, and what it must answer: a status and the sink's text.
#[derive(Clone, Copy)]
pub struct Call<'a> {
    pub words: &'a [&'a str],
    pub script: &'a str,
    // The numbers of the reads and of the writes that fail.
    pub reads: &'a [u64],
    pub writes: &'a [u64],
    pub status: u8,
    pub text: &'a str,
}

pub fn words<R: Abort + AllocGlobal>(rt: &R, line: &[&str]) -> Vec<String> {
    let mut list = Vec::new(rt.alloc());
    for word in line {
        let word = String::from_str(rt.alloc(), word).expect(rt, "memory");
        list.push(word).expect(rt, "memory");
    }
    list
}

pub fn bytes<R: Abort + AllocGlobal>(rt: &R, text: &str) -> Vec<u8> {
    text.as_bytes().to_vec(rt.alloc()).expect(rt, "memory")
}

fn numbers<R: Abort + AllocGlobal>(rt: &R, list: &[u64]) -> Vec<u64> {
    list.to_vec(rt.alloc()).expect(rt, "memory")
}

// Tells status and text where one of them is another.
fn answers(rt: &impl Abort, status: u8, text: &[u8], call: &Call) {
    assert_eq!(rt; (status, text), (call.status, call.text.as_bytes()));
}

/// Makes the call over a disk, and gives the disk back.
pub fn check_over<R: Abort + AllocGlobal, D: Disk + Drop>(rt: &R, call: &Call, disk: D) -> D {
    let script = bytes(rt, call.script);
    let mut source = MemorySource::new(script, numbers(rt, call.reads));
    let mut sink = MemorySink::new(rt.alloc(), numbers(rt, call.writes));
    let words = words(rt, call.words);
    let outcome = quiet(rt.alloc(), &words, &mut source, &mut sink, disk);
    answers(rt, outcome.status, sink.bytes(), call);
    outcome.disk
}

/// Makes one call after another over a disk, and gives the disk back.
pub fn check_calls<R: Abort + AllocGlobal, D: Disk + Drop>(rt: &R, calls: &[Call], disk: D) -> D {
    let mut disk = disk;
    for call in calls {
        disk = check_over(rt, call, disk);
    }
    disk
}

/// Makes them over a disk of zeros of so many sectors.
pub fn check_new<R: Abort + AllocGlobal>(rt: &R, sectors: u32, calls: &[Call]) -> PlainDisk {
    let disk = PlainDisk::zeros(rt.alloc(), sectors).expect(rt, "memory");
    check_calls(rt, calls, disk)
}

/// A disk with these bytes, of whose calls those of these numbers fail.
pub fn memory_disk<R: Abort + AllocGlobal>(
    rt: &R,
    sectors: u32,
    image: &[u8],
    fails: &[u64],
) -> MemoryDisk {
    let bytes = image.to_vec(rt.alloc()).expect(rt, "memory");
    holds(rt, bytes.len() == SECTOR * sectors as usize);
    MemoryDisk::new(rt.alloc(), sectors, bytes, numbers(rt, fails)).expect(rt, "memory")
}

/// A command without a script, in calm.
pub fn calm<'a>(words: &'a [&'a str], status: u8, text: &'a str) -> Call<'a> {
    Call {
        words,
        script: "",
        reads: &[],
        writes: &[],
        status,
        text,
    }
}

/// A script that is played in calm.
pub fn playing<'a>(script: &'a str, status: u8, text: &'a str) -> Call<'a> {
    Call {
        script,
        ..calm(&["play"], status, text)
    }
}

/// The same with its trace.
pub fn tracing<'a>(script: &'a str, status: u8, text: &'a str) -> Call<'a> {
    Call {
        script,
        ..calm(&["play", "--trace"], status, text)
    }
}
