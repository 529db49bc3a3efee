// Calls that fail once in mid-stream, and one call of each thing with all the memory that it wants.
use crate::asserts::same;
use std::alloc::AllocGlobal;
use std::cell::Cell;
use std::io::{self, Error, ErrorKind, Read, Write};
use std::process::Abort;
use std::rt::Clock as SystemClock;
use std::time::Duration;
use ufs_io::{
    Clock, Failed, Gate, HandClock, MemorySink, MemorySource, MilliClock, OpenGate, PlainSink,
    PlainSource, Sink, Source, StreamSink, StreamSource,
};

// A reader of bytes in memory that fails at its second call.
#[derive(Drop)]
struct StumblingReader<'a> {
    rest: &'a [u8],
    calls: u64,
}

impl<'a> Read for StumblingReader<'a> {
    fn read(&mut self, buf: &mut [u8]) -> io::Result<usize> {
        self.calls = self.calls.saturating_add(1);
        if self.calls == 2 {
            return Err(Error::from(ErrorKind::Interrupted));
        }
        self.rest.read(buf)
    }
}

// A writer that takes two bytes a call at most, fails at its second call, and takes nothing at its
// third.
#[derive(Drop)]
struct StumblingWriter {
    bytes: Vec<u8>,
    calls: u64,
}

impl Write for StumblingWriter {
    fn write(&mut self, buf: &[u8]) -> io::Result<usize> {
        self.calls = self.calls.saturating_add(1);
        let count = match self.calls {
            2 => return Err(Error::from(ErrorKind::Interrupted)),
            3 => 0,
            _ => buf.len().min(2),
        };
        self.bytes.extend_from_slice(&buf[..count])?;
        Ok(count)
    }

    fn flush(&mut self) -> io::Result<()> {
        Ok(())
    }
}

fn are_bytes(rt: &impl Abort, found: &[u8], wanted: &[u8]) {
    assert_eq!(rt; found, wanted);
}

// Reads into two bytes; `!` stands for a failure.
fn check_reads<S: Source, R: Abort>(rt: &R, source: &mut S, answers: &[&str]) {
    for answer in answers {
        let mut buf = [0u8; 2];
        let got: &[u8] = match source.read(&mut buf) {
            Ok(count) => &buf[..count],
            Err(Failed) => b"!",
        };
        are_bytes(rt, got, answer.as_bytes());
    }
}

fn check_writes<K: Sink, R: Abort>(rt: &R, sink: &mut K, calls: &[(&str, Result<usize, Failed>)]) {
    for (piece, answer) in calls {
        same(rt, sink.write(piece.as_bytes()), *answer);
    }
}

// The bytes `abcde` on the heap.
fn five<R: Abort + AllocGlobal>(rt: &R) -> Vec<u8> {
    b"abcde".to_vec(rt.alloc()).expect(rt, "memory")
}

#[test]
fn a_memory_source_fails_at_the_calls_of_its_list(rt: HostRuntime) {
    let fails = vec![in rt.alloc(); 3, 1].expect(&rt, "memory");
    let mut source = MemorySource::new(five(&rt), fails);
    check_reads(&rt, &mut source, &["ab", "!", "cd", "!", "e", ""]);
    same(&rt, (source.calls(), source.faults()), (6, 2));
}

#[test]
fn a_memory_sink_fails_at_the_calls_of_its_list(rt: HostRuntime) {
    let fails = vec![in rt.alloc(); 1].expect(&rt, "memory");
    let mut sink = MemorySink::new(rt.alloc(), fails);
    let calls = [
        ("abc", Ok(3)),
        ("de", Err(Failed)),
        ("", Ok(0)),
        ("f", Ok(1)),
    ];
    check_writes(&rt, &mut sink, &calls);
    same(&rt, sink.bytes(), b"abcf".as_slice());
    same(&rt, (sink.calls(), sink.faults()), (4, 1));
}

#[test]
fn the_plain_ones_never_fail(rt: HostRuntime) {
    let mut source = PlainSource::new(five(&rt));
    check_reads(&rt, &mut source, &["ab", "cd", "e", "", ""]);
    check_writes(&rt, &mut PlainSink, &[("abc", Ok(3)), ("", Ok(0))]);
}

#[test]
fn a_stream_source_passes_an_error_on_once(rt: HostRuntime) {
    let mut source = StreamSource::new(StumblingReader {
        rest: b"abcde",
        calls: 0,
    });
    check_reads(&rt, &mut source, &["ab", "!", "cd", "e", ""]);
}

#[test]
fn a_stream_sink_passes_an_error_on_once(rt: HostRuntime) {
    let mut writer = StumblingWriter {
        bytes: Vec::new(rt.alloc()),
        calls: 0,
    };
    let calls = [
        ("abc", Ok(2)),
        ("cde", Err(Failed)),
        ("cde", Err(Failed)),
        ("cde", Ok(2)),
        ("", Ok(0)),
        ("e", Ok(1)),
    ];
    check_writes(&rt, &mut StreamSink::new(&mut writer), &calls);
    same(&rt, writer.bytes.as_slice(), b"abcde".as_slice());
}

// Asserts what a clock by hand shows at three looks.
fn shows<R: Abort + AllocGlobal>(rt: &R, ticks: &[u64], answers: [u64; 3]) {
    let ticks = ticks.to_vec(rt.alloc()).expect(rt, "memory");
    let mut clock = HandClock::new(ticks);
    for answer in answers {
        same(rt, clock.now(), answer);
    }
}

#[test]
fn a_hand_clock_stays_at_its_last_tick(rt: HostRuntime) {
    shows(&rt, &[5, 3], [5, 3, 3]);
    shows(&rt, &[], [0, 0, 0]);
    OpenGate.pass(8, u64::MAX);
}

// A system clock that shows the next of some microseconds at each look, and fails where there is
// none.
#[derive(Drop)]
struct ShakyClock<'a> {
    shows: &'a [Option<u64>],
    looks: Cell<usize>,
}

impl<'a> SystemClock for ShakyClock<'a> {
    fn monotonic(&self) -> io::Result<Duration> {
        let look = self.looks.get();
        self.looks.set(look.saturating_add(1));
        match self.shows.get(look) {
            Some(Some(micros)) => Ok(Duration::from_micros(*micros)),
            _ => Err(Error::from(ErrorKind::Other)),
        }
    }

    fn since_1970(&self) -> io::Result<Duration> {
        self.monotonic()
    }
}

#[test]
fn a_milli_clock_never_goes_back(rt: HostRuntime) {
    let shaky = ShakyClock {
        shows: &[
            Some(7_000_500),
            Some(7_002_499),
            None,
            Some(7_000_000),
            Some(9_000_500),
        ],
        looks: Cell::new(0),
    };
    let mut clock = MilliClock::new(&shaky);
    for answer in [1, 1, 1, 2_000, 2_000] {
        same(&rt, clock.now(), answer);
    }
}
