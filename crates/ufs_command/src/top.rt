ghost use Rattle.std.specs.Prelude.{◌≡◌, ◌⊎◌, [], Some, false};
ghost use Rattle.ufs_base.specs.declared.lack.Lack.TheVariants as lack;
ghost use Rattle.ufs_model.specs.History.{joined};
ghost use Rattle.ufs_engine.specs.Plays.{AreFaultsOf};
ghost use Rattle.ufs_command.specs.Commands.{asked, serves};
ghost use Rattle.ufs_command.specs.Seen.{reading, writing, formatting, course};
ghost use Rattle.ufs_command.specs.Endings.{IsAnswer, IsFixed, sink_status, status_of};
ghost use Rattle.ufs_command.specs.Ends.{Ends, EndsCommand};
ghost use Rattle.ufs_command.specs.Lacked.{Lacks};
ghost use Rattle.ufs_command.specs.Left.{LeavesDisk, LeavesSource};
ghost use Rattle.ufs_command.specs.Laws.{StandsAsBegun};
ghost use Rattle.ufs_command.specs.declared.ending.Ending.TheVariants.{OutOfMemory};
ghost use Rattle.ufs_command.specs.Told.{Tells};

use crate::audit::audit;
use crate::bench::bench;
use crate::check::check;
use crate::ending::Ending;
use crate::last_line::{finish, out_of_memory};
use crate::laws::unserved_law;
use crate::mkfs::mkfs;
use crate::outcome::{Answered, Outcome, nothing_told};
use crate::recover::recover;
use crate::serving::read_and_serve;
use crate::tree::tree;
use crate::words::{Command, read_command};
use std::alloc::Global;
use ufs_base::{Lack, Memory};
use ufs_disk::Disk;
use ufs_io::{Sink, Source};
use ufs_layout::Geometry;
use ufs_script::a_longer_text_breaks_alike;

// The answer to a command that serves nobody.
fn act<S: Source, K: Sink, D: Disk>(
    alloc: Global,
    which: Command,
    source: &mut S,
    sink: &mut K,
    disk: &mut D,
) -> Answered
    requires { serves (Some which) ≡ false }
    ensures answer { IsAnswer (EndsCommand (Some which) (reading S.left S.faults source.old source.new) (formatting D.visible D.size D.moments D.faults disk.old disk.new) []) (writing K.held K.faults sink.old sink.new) result.status }
    ensures disk { LeavesDisk (Some which) [] result.status (course D.visible D.keeps D.size D.moments D.faults disk.old disk.new) }
    ensures lacked { Lacks (Some which) D.visible D.keeps result.status result.lacked (D.moments disk.old) (D.moments disk.new) }
    ensures source { LeavesSource (Some which) result.status (reading S.left S.faults source.old source.new) }
{
    match which {
        Command::Mkfs {
            blocks,
            inodes,
            journal,
        } => {
            let asked = Geometry {
                blocks,
                inodes,
                journal,
            };
            Answered {
                status: mkfs(alloc, asked, sink, disk),
                lacked: None,
            }
        }
        Command::Tree => tree(alloc, sink, disk),
        Command::Check => check(alloc, sink, disk),
        Command::Recover => recover(alloc, sink, disk),
        Command::Audit => Answered {
            status: audit(alloc, source, sink, disk),
            lacked: None,
        },
        Command::NotBuilt => Answered {
            status: finish(sink, Ending::NotBuilt),
            lacked: None,
        },
        Command::Play { .. } | Command::Bench { .. } => unreachable!(),
    }
}

// The answer to a command, or to there being none.
fn answer<S: Source, K: Sink, D: Disk>(
    alloc: Global,
    command: Option<Command>,
    source: &mut S,
    sink: &mut K,
    disk: D,
) -> Outcome<D>
    ensures answer { IsAnswer (EndsCommand command (reading S.left S.faults source.old source.new) (formatting D.visible D.size D.moments D.faults disk result.disk) result.told)
        (writing K.held K.faults sink.old sink.new) result.status }
    ensures disk { LeavesDisk command result.told result.status (course D.visible D.keeps D.size D.moments D.faults disk result.disk) }
    ensures lacked { Lacks command D.visible D.keeps result.status result.lacked (D.moments disk) (D.moments result.disk) }
    ensures source { LeavesSource command result.status (reading S.left S.faults source.old source.new) }
    ensures faults { AreFaultsOf (D.faults disk) (D.faults result.disk) (joined result.told) }
    ensures served { serves command ≡ false → result.told ≡ [] }
{
    let Some(which) = command else {
        let status = finish(sink, Ending::Usage);
        return Outcome {
            status,
            lacked: None,
            told: nothing_told(alloc),
            disk,
        };
    };
    if let Command::Play { trace } = which {
        return read_and_serve(alloc, source, sink, trace, disk);
    }
    if let Command::Bench { seed } = which {
        return bench(alloc, sink, seed, disk);
    }
    let mut disk = disk;
    let answered = act(alloc, which, source, sink, &mut disk);
    Outcome {
        status: answered.status,
        lacked: answered.lacked,
        told: nothing_told(alloc),
        disk,
    }
}

// Ends where there is no memory for the words. The disk is left as it was.
fn leave_words<K: Sink, D: Disk>(alloc: Global, sink: &mut K, memory: Memory, disk: D) -> Outcome<D>
    ensures answer { IsAnswer (IsFixed OutOfMemory) (writing K.held K.faults sink.old sink.new) result.status }
    ensures status { (result.status ≡ status_of OutOfMemory) ⊎ (result.status ≡ sink_status) }
    ensures lacked { result.lacked ≡ Some (lack.Memory memory) }
    ensures told { result.told ≡ [] }
    ensures untouched { result.disk ≡ disk }
    ensures stands { StandsAsBegun (D.size disk) }
{
    unserved_law(disk.sectors());
    let status = out_of_memory(sink, Lack::Memory(memory));
    Outcome {
        status,
        lacked: Some(Lack::Memory(memory)),
        told: nothing_told(alloc),
        disk,
    }
}

/// Serves a command that waits for nobody.
pub fn quiet<S: Source, K: Sink, D: Disk>(
    alloc: Global,
    words: &Vec<String>,
    source: &mut S,
    sink: &mut K,
    disk: D,
) -> Outcome<D>
    // Each status but 7 comes with its cause and its text, and leaves the sink's count of faults. With status 7 that
    // count rose by one, and the sink got a front of what would have been written. Reading the words takes memory: where an
    // allocation is refused there, the status is 5, whatever the words are, and nothing is done.
    ensures answer { IsAnswer (Ends (asked words.now.items) (reading S.left S.faults source.old source.new) (formatting D.visible D.size D.moments D.faults disk result.disk) result.told)
        (writing K.held K.faults sink.old sink.new) result.status }
    // What the status says and the sink got, for each command: a history of the script's requests for `play`, in which the
    // tree of the disk's image gives the replies, and its trace where that is asked for, the new image's numbers for
    // `mkfs`, the image's tree for `tree`, its damage for `check`, what was committed for `recover`, how its workload was answered
    // for `bench`, whether the text behind its script is that of a legal history for `audit`.
    ensures told { Tells (asked words.now.items) (reading S.left S.faults source.old source.new) (formatting D.visible D.size D.moments D.faults disk result.disk) result.told
        (writing K.held K.faults sink.old sink.new) result.status }
    // The disk: `play` leaves what its history explains, and clean with status 0, `mkfs` formats it, `bench` does one and then the
    // other, `recover` makes its image clean, `tree`, `check` and `audit` only read it, each of these safe at any moment; all else leaves it.
    // A fault of the disk is told by status 4 or 7, or in a reply of a session; one that ends with 5 may leave it untold.
    ensures disk { LeavesDisk (asked words.now.items) result.told result.status (course D.visible D.keeps D.size D.moments D.faults disk result.disk) }
    // For want of what: status 5 of `recover`, `tree` and `check` comes with it. It is memory; `recover` may lack a number, too, of a
    // visible disk only where the image isn't clean and has no next one, and before anything is written.
    ensures lacked { Lacks (asked words.now.items) D.visible D.keeps result.status result.lacked (D.moments disk) (D.moments result.disk) }
    // The source: only `play` and `audit` read it, and its fault is told by status 6 or 7.
    ensures source { LeavesSource (asked words.now.items) result.status (reading S.left S.faults source.old source.new) }
    // Only `play` and `bench` serve clients.
    ensures served { serves (asked words.now.items) ≡ false → result.told ≡ [] }
{
    a_longer_text_breaks_alike();
    match read_command(alloc, words.as_slice()) {
        Ok(command) => answer(alloc, command, source, sink, disk),
        Err(memory) => leave_words(alloc, sink, memory, disk),
    }
}
