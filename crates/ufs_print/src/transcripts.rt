// Writing the lines of the clients' transcripts: their replies, and their trace.
ghost use Rattle.std.specs.Prelude.{◌≡◌, ◌≢◌, ◌++◌, OnOk, IfOk};
ghost use Rattle.std.specs.Io.KnownBytes.{Appends};
ghost use Rattle.ufs_base.specs.Faults.{raised};
ghost use Rattle.ufs_base.specs.Wanting.{wanting};
ghost use Rattle.ufs_model.specs.History.{joined};
ghost use Rattle.ufs_print.specs.Printed.{session_lines};
ghost use Rattle.ufs_print.specs.Printed.{entry_line, entry_lines};
ghost use Rattle.ufs_print.specs.Pieces.{GotFront, GotLines, IsPassed, PutLines};

use crate::pieces::{Waiting, put, write_waiting};
use std::alloc::Global;
use ufs_base::Memory;
use ufs_io::{Failed, Sink};
use ufs_model::{ActorList, Bytes, Entry, EntryList};
use ufs_script::{reply_line, trace_line};

/// Which line of an entry is written.
#[derive(Clone, Copy, Debug, PartialEq, Eq)]
pub enum LineKind {
    Reply,
    Trace,
}

/// Why lines weren't all written.
#[derive(Clone, Copy, Debug, PartialEq, Eq)]
pub enum PrintFault {
    Memory(Memory),
    Sink,
}

impl From<Memory> for PrintFault {
    ghost use Rattle.std.specs.Prelude.{◌≡◌};
    ghost use Rattle.ufs_print.specs.declared.transcripts.PrintFault.TheVariants as fault;

    ghost from_gives = { λ m e. e ≡ fault.Memory m };

    fn from(memory: Memory) -> Self {
        PrintFault::Memory(memory)
    }
}

impl From<Failed> for PrintFault {
    ghost use Rattle.std.specs.Prelude.{◌≡◌};
    ghost use Rattle.ufs_print.specs.declared.transcripts.PrintFault.TheVariants as fault;

    ghost from_gives = { λ _ e. e ≡ fault.Sink };

    fn from(_: Failed) -> Self {
        PrintFault::Sink
    }
}

fn entry_line(alloc: Global, kind: LineKind, entry: &Entry) -> Result<Bytes, Memory>
    ensures { IfOk result (λ line. line ≡ entry_line kind entry.now) }
{
    match kind {
        LineKind::Reply => reply_line(alloc, entry.client, entry.seq, &entry.reply),
        LineKind::Trace => trace_line(alloc, entry, &ActorList::from_vec(Vec::new(alloc))),
    }
}

// Puts the line of an entry behind what waits. Where there is no memory for it, nothing is written.
fn print_entry<K: Sink>(
    alloc: Global,
    sink: &mut K,
    waiting: &mut Waiting,
    kind: LineKind,
    entry: &Entry,
) -> Result<(), PrintFault>
    ensures rose { result ≡ Err PrintFault.Sink → K.faults sink.new ≡ raised (K.faults sink.old) }
    ensures told { result ≢ Err PrintFault.Sink → K.faults sink.new ≡ K.faults sink.old }
    ensures ok { OnOk result (IsPassed (K.held sink.old) (K.held sink.new) waiting.new (waiting.old ++ entry_line kind entry.now)) }
    ensures memory { result ≡ Err (PrintFault.Memory wanting) → sink.new ≡ sink.old }
    ensures waits { result ≡ Err (PrintFault.Memory wanting) → waiting.new ≡ waiting.old }
    ensures cut { result ≡ Err PrintFault.Sink → GotFront (K.held sink.old) (K.held sink.new) (waiting.old ++ entry_line kind entry.now) }
{
    let line = entry_line(alloc, kind, entry)?;
    put(sink, waiting, line.as_slice())?;
    Ok(())
}

// Puts the lines of a client's transcript behind what waits: whole lines, but where the sink fails.
fn print_client<K: Sink>(
    alloc: Global,
    sink: &mut K,
    waiting: &mut Waiting,
    kind: LineKind,
    entries: &[Entry],
) -> Result<(), PrintFault>
    ensures rose { result ≡ Err PrintFault.Sink → K.faults sink.new ≡ raised (K.faults sink.old) }
    ensures told { result ≢ Err PrintFault.Sink → K.faults sink.new ≡ K.faults sink.old }
    ensures ok { OnOk result (IsPassed (K.held sink.old) (K.held sink.new) waiting.new (waiting.old ++ entry_lines kind entries.now)) }
    ensures memory { result ≡ Err (PrintFault.Memory wanting) → PutLines (K.held sink.old) (K.held sink.new) waiting.new waiting.old (entry_lines kind entries.now) }
    ensures cut { result ≡ Err PrintFault.Sink → GotFront (K.held sink.old) (K.held sink.new) (waiting.old ++ entry_lines kind entries.now) }
{
    for entry in entries {
        print_entry(alloc, sink, waiting, kind, entry)?;
    }
    Ok(())
}

// Puts the lines of the clients' transcripts, one after the other, behind what waits: the first of
// them, whole, where memory runs out, and a front of them where the sink fails.
fn print_lists<K: Sink>(
    alloc: Global,
    sink: &mut K,
    waiting: &mut Waiting,
    kind: LineKind,
    told: &[EntryList],
) -> Result<(), PrintFault>
    ensures rose { result ≡ Err PrintFault.Sink → K.faults sink.new ≡ raised (K.faults sink.old) }
    ensures told { result ≢ Err PrintFault.Sink → K.faults sink.new ≡ K.faults sink.old }
    ensures ok { OnOk result (IsPassed (K.held sink.old) (K.held sink.new) waiting.new (waiting.old ++ entry_lines kind (joined told.now))) }
    ensures memory { result ≡ Err (PrintFault.Memory wanting) → PutLines (K.held sink.old) (K.held sink.new) waiting.new waiting.old (entry_lines kind (joined told.now)) }
    ensures cut { result ≡ Err PrintFault.Sink → GotFront (K.held sink.old) (K.held sink.new) (waiting.old ++ entry_lines kind (joined told.now)) }
{
    for list in told {
        print_client(alloc, sink, waiting, kind, list.as_slice())?;
    }
    Ok(())
}

// Puts the reply lines of the clients' transcripts, and behind them the trace, where it is asked for.
fn print_session<K: Sink>(
    alloc: Global,
    sink: &mut K,
    waiting: &mut Waiting,
    told: &[EntryList],
    trace: bool,
) -> Result<(), PrintFault>
    ensures rose { result ≡ Err PrintFault.Sink → K.faults sink.new ≡ raised (K.faults sink.old) }
    ensures told { result ≢ Err PrintFault.Sink → K.faults sink.new ≡ K.faults sink.old }
    ensures ok { OnOk result (IsPassed (K.held sink.old) (K.held sink.new) waiting.new (waiting.old ++ session_lines trace (joined told.now))) }
    ensures memory { result ≡ Err (PrintFault.Memory wanting) → PutLines (K.held sink.old) (K.held sink.new) waiting.new waiting.old (session_lines trace (joined told.now)) }
    ensures cut { result ≡ Err PrintFault.Sink → GotFront (K.held sink.old) (K.held sink.new) (waiting.old ++ session_lines trace (joined told.now)) }
{
    print_lists(alloc, sink, waiting, LineKind::Reply, told)?;
    if !trace {
        return Ok(());
    }
    // A client's tickets are above those of the clients before it: the transcripts stand by rising ticket.
    print_lists(alloc, sink, waiting, LineKind::Trace, told)?;
    Ok(())
}

/// Writes the reply lines of the clients' transcripts, one after the other, and behind them the trace of the
/// history that the transcripts are one after the other, where it is asked for: the first of these lines, whole,
/// where memory runs out, and a front of them where the sink fails. They go out in pieces of up to 65,536 bytes.
pub fn print<K: Sink>(
    alloc: Global,
    sink: &mut K,
    told: &[EntryList],
    trace: bool,
) -> Result<(), PrintFault>
    ensures rose { result ≡ Err PrintFault.Sink → K.faults sink.new ≡ raised (K.faults sink.old) }
    ensures told { result ≢ Err PrintFault.Sink → K.faults sink.new ≡ K.faults sink.old }
    ensures ok { OnOk result (Appends (K.held sink.old) (K.held sink.new) (session_lines trace (joined told.now))) }
    ensures memory { result ≡ Err (PrintFault.Memory wanting) → GotLines (K.held sink.old) (K.held sink.new) (session_lines trace (joined told.now)) }
    ensures cut { result ≡ Err PrintFault.Sink → GotFront (K.held sink.old) (K.held sink.new) (session_lines trace (joined told.now)) }
{
    let mut waiting = Waiting::new();
    match print_session(alloc, sink, &mut waiting, told, trace) {
        Ok(()) => {
            write_waiting(sink, &waiting)?;
            Ok(())
        }
        Err(PrintFault::Memory(memory)) => {
            write_waiting(sink, &waiting)?;
            Err(PrintFault::Memory(memory))
        }
        Err(PrintFault::Sink) => Err(PrintFault::Sink),
    }
}
