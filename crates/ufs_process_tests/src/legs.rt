// Commands over two legs in memory.
ghost use Rattle.std.specs.Prelude.{◌≡◌, length};

use crate::asserts::{are_bytes, holds, same};
use std::alloc::AllocGlobal;
use std::process::Abort;
use ufs_base::SECTOR;
use ufs_disk::{Disk, MemoryDisk};
use ufs_io::{MemorySink, PlainSource};
use ufs_process::mirrored;

/// A status, what the sink got, and the two legs.
#[derive(Drop)]
pub struct Answer<A: Disk, B: Disk> {
    pub status: u8,
    pub text: Vec<u8>,
    pub first: A,
    pub second: B,
}

/// The words of a command line.
pub fn words<R: Abort + AllocGlobal>(rt: &R, line: &str) -> Vec<String> {
    let mut list = Vec::new(rt.alloc());
    for word in line.split(' ') {
        let word = String::from_str(rt.alloc(), word).expect(rt, "memory");
        list.push(word).expect(rt, "memory");
    }
    list
}

/// A script of one client, from its requests.
pub fn script_of<R: Abort + AllocGlobal>(rt: &R, requests: &str) -> Vec<u8> {
    let mut script = String::new(rt.alloc());
    script.push_str("client 0\n").expect(rt, "memory");
    for request in requests.split(';') {
        script.push_str(request).expect(rt, "memory");
        script.push_str("\n").expect(rt, "memory");
    }
    script.push_str("end\n").expect(rt, "memory");
    script.into_bytes()
}

/// The command over two legs. `requests` are those of the script's one client.
pub fn command<R: Abort + AllocGlobal, A: Disk + Drop, B: Disk + Drop>(
    rt: &R,
    line: &str,
    requests: &str,
    first: A,
    second: B,
) -> Answer<A, B> {
    let words = words(rt, line);
    let mut source = PlainSource::new(script_of(rt, requests));
    let mut sink = MemorySink::new(rt.alloc(), Vec::new(rt.alloc()));
    let outcome = mirrored(rt.alloc(), &words, &mut source, &mut sink, first, second);
    Answer {
        status: outcome.status,
        text: sink.bytes().to_vec(rt.alloc()).expect(rt, "memory"),
        first: outcome.first,
        second: outcome.second,
    }
}

/// A leg with these bytes, of whose calls those of these numbers fail.
pub fn leg<R: Abort + AllocGlobal>(rt: &R, image: &[u8], fails: &[u64]) -> MemoryDisk {
    let bytes = image.to_vec(rt.alloc()).expect(rt, "memory");
    let fails = fails.to_vec(rt.alloc()).expect(rt, "memory");
    let sectors = match u32::try_from(bytes.len() / SECTOR) {
        Ok(sectors) => sectors,
        Err(_) => 0,
    };
    holds(rt, bytes.len() == SECTOR * sectors as usize);
    MemoryDisk::new(rt.alloc(), sectors, bytes, fails).expect(rt, "memory")
}

/// So many sectors of zeros.
pub fn zeros<R: Abort + AllocGlobal>(rt: &R, sectors: usize) -> Vec<u8> {
    let mut bytes = Vec::new(rt.alloc());
    for _sector in 0..sectors {
        bytes
            .extend_from_slice([0; SECTOR].as_slice())
            .expect(rt, "memory");
    }
    bytes
}

/// What two legs hold, with nothing pending.
#[derive(Drop)]
pub struct Images {
    pub first: Vec<u8>,
    pub second: Vec<u8>,
}

/// The command over two legs with these bytes, in calm: its status and its text are these.
pub fn calmly<R: Abort + AllocGlobal>(
    rt: &R,
    line: &str,
    requests: &str,
    images: &Images,
    status: u8,
    text: &str,
) -> Images {
    let first = leg(rt, images.first.as_slice(), &[]);
    let second = leg(rt, images.second.as_slice(), &[]);
    let answer = command(rt, line, requests, first, second);
    are_bytes(rt, answer.text.as_slice(), text.as_bytes());
    same(rt, answer.status, status);
    left(rt, answer)
}

/// What the legs of an answer hold.
pub fn left<R: Abort + AllocGlobal>(rt: &R, answer: Answer<MemoryDisk, MemoryDisk>) -> Images {
    Images {
        first: answer.first.crash(0).expect(rt, "memory"),
        second: answer.second.crash(0).expect(rt, "memory"),
    }
}

/// Two legs of so many sectors that `mkfs` was called over.
pub fn made<R: Abort + AllocGlobal>(rt: &R, sectors: usize, line: &str, text: &str) -> Images {
    let blank = Images {
        first: zeros(rt, sectors),
        second: zeros(rt, sectors),
    };
    let images = calmly(rt, line, "", &blank, 0, text);
    are_bytes(rt, images.first.as_slice(), images.second.as_slice());
    images
}
