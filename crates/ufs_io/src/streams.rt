// The source and the sink over a reader and a writer of std, such as standard input and output.
// They are visible where these are; the real streams aren't.
ghost use Rattle.std.specs.Prelude.{◌≡◌, None};

use crate::{Failed, Sink, Source};
use std::io::{Read, Write};
use std::marker::Model;

/// A source over a reader. Each error of the reader is a fault, and nothing is tried again.
#[derive(Drop)]
pub struct StreamSource<R: Drop> {
    stream: R,
    faults: u64,
}

impl<R: Drop> Model for StreamSource<R> {
    ghost use Rattle.ufs_io.specs.Views.{StreamView};

    ghost Value = { StreamView R };

    ghost view = { λ s. record { stream = s.stream; faults = s.faults } };
}

impl<R: Read + Drop> StreamSource<R> {
    pub fn new(stream: R) -> Self
        ensures { result ≡ record { stream = stream; faults = 0 } }
    {
        StreamSource { stream, faults: 0 }
    }
}

impl<R: Read + Drop> Source for StreamSource<R> {
    ghost left = { λ s. R.remaining s.stream };

    ghost faults = { λ s. s.faults };

    ghost reads = { λ _. None };

    fn read(&mut self, buf: &mut [u8]) -> Result<usize, Failed> {
        match self.stream.read(buf) {
            Ok(count) => Ok(count),
            Err(_) => {
                self.faults = self.faults.saturating_add(1);
                Err(Failed)
            }
        }
    }
}

/// A sink over a writer. Each error of the writer is a fault, and so is a writer that takes nothing
/// of a piece that isn't empty. Nothing is tried again.
#[derive(Drop)]
pub struct StreamSink<W: Drop> {
    stream: W,
    faults: u64,
}

impl<W: Drop> Model for StreamSink<W> {
    ghost use Rattle.ufs_io.specs.Views.{StreamView};

    ghost Value = { StreamView W };

    ghost view = { λ s. record { stream = s.stream; faults = s.faults } };
}

impl<W: Write + Drop> StreamSink<W> {
    pub fn new(stream: W) -> Self
        ensures { result ≡ record { stream = stream; faults = 0 } }
    {
        StreamSink { stream, faults: 0 }
    }
}

impl<W: Write + Drop> Sink for StreamSink<W> {
    ghost held = { λ s. W.contents s.stream };

    ghost faults = { λ s. s.faults };

    fn write(&mut self, piece: &[u8]) -> Result<usize, Failed> {
        match self.stream.write(piece) {
            Ok(count) if count > 0 || piece.is_empty() => Ok(count),
            _ => {
                self.faults = self.faults.saturating_add(1);
                Err(Failed)
            }
        }
    }
}
