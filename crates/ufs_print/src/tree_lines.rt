// The lines of the tree that an image stands for.
ghost use Rattle.std.specs.Prelude.{◌≡◌, ◌≢◌, ◌++◌, IfOk, OnOk};
ghost use Rattle.std.specs.Io.KnownBytes.{Appends};
ghost use Rattle.ufs_base.specs.Faults.{raised};
ghost use Rattle.ufs_base.specs.Wanting.{wanting};
ghost use Rattle.ufs_script.specs.Spelling.{data_text};
ghost use Rattle.ufs_print.specs.Pieces.{GotFront, GotLines, IsPassed, PutLines};
ghost use Rattle.ufs_opening.specs.declared.head.NodeHead.TheVariants.{Dir, File};
ghost use Rattle.ufs_print.specs.TreeLines.{front_text, head_line, head_lines, node_head_line};

use crate::pieces::{Waiting, put, write_waiting};
use crate::transcripts::PrintFault;
use std::alloc::{AllocError, Global};
use ufs_base::Memory;
use ufs_io::Sink;
use ufs_opening::{NodeHead, PathHead};

/// The most bytes of a file that its line shows.
pub const MOST_SHOWN: usize = 64;

fn put_data(alloc: Global, line: &mut Vec<u8>, bytes: &[u8]) -> Result<(), AllocError>
    ensures { OnOk result (line.new.items ≡ line.old.items ++ data_text bytes.now) }
{
    if bytes.is_empty() {
        line.extend_from_slice(b"-".as_slice())
    } else {
        let digits = hex::encode(alloc, bytes)?;
        line.extend_from_slice(digits.as_bytes())
    }
}

// Appends the first bytes of a file of this size.
#[tactic(auto, using(crate::proofs::TextLemmas::short_text, crate::proofs::TextLemmas::long_text))]
fn put_front(alloc: Global, line: &mut Vec<u8>, size: u64, front: &[u8]) -> Result<(), AllocError>
    ensures { OnOk result (line.new.items ≡ line.old.items ++ front_text size front.now) }
{
    if size <= MOST_SHOWN as u64 {
        return put_data(alloc, line, front);
    }
    put_data(alloc, line, front)?;
    line.push(b'+')?;
    Ok(())
}

fn dir_line(alloc: Global, path: &[u8]) -> Result<Vec<u8>, AllocError>
    ensures { IfOk result (λ line. line.items ≡ node_head_line path.now Dir) }
{
    let mut line = Vec::new(alloc);
    line.extend_from_slice(b"dir ".as_slice())?;
    line.extend_from_slice(path)?;
    line.push(b'\n')?;
    Ok(line)
}

fn file_line(alloc: Global, path: &[u8], size: u64, front: &[u8]) -> Result<Vec<u8>, AllocError>
    ensures { IfOk result (λ line. line.items ≡ node_head_line path.now (File size front.now)) }
{
    let digits = format!(in alloc; " {size} ")?;
    let mut line = Vec::new(alloc);
    line.extend_from_slice(b"file ".as_slice())?;
    line.extend_from_slice(path)?;
    line.extend_from_slice(digits.as_bytes())?;
    put_front(alloc, &mut line, size, front)?;
    line.push(b'\n')?;
    Ok(line)
}

// The line of a path.
fn line_of(alloc: Global, head: &PathHead) -> Result<Vec<u8>, Memory>
    ensures { IfOk result (λ line. line.items ≡ head_line head.now) }
{
    match &head.node {
        NodeHead::Dir => Ok(dir_line(alloc, head.path.as_slice())?),
        NodeHead::File { size, front } => {
            Ok(file_line(alloc, head.path.as_slice(), *size, front.as_slice())?)
        }
    }
}

// Puts the line of a path behind what waits. Where there is no memory for it, nothing is written.
fn print_head<K: Sink>(
    alloc: Global,
    sink: &mut K,
    waiting: &mut Waiting,
    head: &PathHead,
) -> Result<(), PrintFault>
    ensures rose { result ≡ Err PrintFault.Sink → K.faults sink.new ≡ raised (K.faults sink.old) }
    ensures told { result ≢ Err PrintFault.Sink → K.faults sink.new ≡ K.faults sink.old }
    ensures ok { OnOk result (IsPassed (K.held sink.old) (K.held sink.new) waiting.new (waiting.old ++ head_line head.now)) }
    ensures memory { result ≡ Err (PrintFault.Memory wanting) → sink.new ≡ sink.old }
    ensures waits { result ≡ Err (PrintFault.Memory wanting) → waiting.new ≡ waiting.old }
    ensures cut { result ≡ Err PrintFault.Sink → GotFront (K.held sink.old) (K.held sink.new) (waiting.old ++ head_line head.now) }
{
    let line = line_of(alloc, head)?;
    put(sink, waiting, line.as_slice())?;
    Ok(())
}

// Puts the lines of what stands at these paths behind what waits: the first of them, whole, where
// memory runs out, and a front of them where the sink fails.
fn put_heads<K: Sink>(
    alloc: Global,
    sink: &mut K,
    waiting: &mut Waiting,
    heads: &[PathHead],
) -> Result<(), PrintFault>
    ensures rose { result ≡ Err PrintFault.Sink → K.faults sink.new ≡ raised (K.faults sink.old) }
    ensures told { result ≢ Err PrintFault.Sink → K.faults sink.new ≡ K.faults sink.old }
    ensures ok { OnOk result (IsPassed (K.held sink.old) (K.held sink.new) waiting.new (waiting.old ++ head_lines heads.now)) }
    ensures memory { result ≡ Err (PrintFault.Memory wanting) → PutLines (K.held sink.old) (K.held sink.new) waiting.new waiting.old (head_lines heads.now) }
    ensures cut { result ≡ Err PrintFault.Sink → GotFront (K.held sink.old) (K.held sink.new) (waiting.old ++ head_lines heads.now) }
{
    for head in heads {
        print_head(alloc, sink, waiting, head)?;
    }
    Ok(())
}

/// Writes the lines of what stands at these paths: the first of them, whole, where memory runs out, and a front of
/// them where the sink fails. They go out in pieces of up to 65,536 bytes.
pub fn print_heads<K: Sink>(
    alloc: Global,
    sink: &mut K,
    heads: &[PathHead],
) -> Result<(), PrintFault>
    ensures rose { result ≡ Err PrintFault.Sink → K.faults sink.new ≡ raised (K.faults sink.old) }
    ensures told { result ≢ Err PrintFault.Sink → K.faults sink.new ≡ K.faults sink.old }
    ensures ok { OnOk result (Appends (K.held sink.old) (K.held sink.new) (head_lines heads.now)) }
    ensures memory { result ≡ Err (PrintFault.Memory wanting) → GotLines (K.held sink.old) (K.held sink.new) (head_lines heads.now) }
    ensures cut { result ≡ Err PrintFault.Sink → GotFront (K.held sink.old) (K.held sink.new) (head_lines heads.now) }
{
    let mut waiting = Waiting::new();
    match put_heads(alloc, sink, &mut waiting, heads) {
        Ok(()) => {
            write_waiting(sink, &waiting)?;
            Ok(())
        }
        Err(PrintFault::Memory(memory)) => {
            write_waiting(sink, &waiting)?;
            Err(PrintFault::Memory(memory))
        }
        Err(PrintFault::Sink) => Err(PrintFault::Sink),
    }
}
