// Formatting a disk, serving a workload over the new image, and telling how it was answered.
ghost use Rattle.std.specs.Prelude.{◌≡◌, ◌≢◌, ◌<◌, ◌≤◌, [], true, false};
ghost use Rattle.ufs_bench.specs.Workload.{bench_geometry, workload_of};
ghost use Rattle.ufs_engine.specs.Plays.{AreFaultsOf};
ghost use Rattle.ufs_layout.specs.Areas.{sector_count};
ghost use Rattle.ufs_model.specs.History.{joined};
ghost use Rattle.ufs_told.specs.Told.{IsCountStill, devices_in};
ghost use Rattle.ufs_command.specs.Bench.{EndsBench, EndsMeasured, bench_text};
ghost use Rattle.ufs_command.specs.Endings.{EndsBehind, EndsPlayed, EndsPrinting, IsAnswer};
ghost use Rattle.ufs_command.specs.Left.{Benches, Plays};
ghost use Rattle.ufs_command.specs.Seen.{course, formatting, writing};

use crate::ending::Ending;
use crate::image::{device_line, tell_device, tell_start};
use crate::last_line::{finish, out_of_memory, tell};
use crate::outcome::{Outcome, nothing_told};
use std::alloc::Global;
use ufs_base::Lack;
use ufs_bench::{bench_geometry, summary, workload};
use ufs_client::ToldLists;
use ufs_disk::Disk;
use ufs_engine::{PlayFault, play};
use ufs_io::Sink;
use ufs_recover::{FormatFault, format};
use ufs_script::{OpLists, Script, WordList};

// Writes the summary, and then ends.
fn print_summary<K: Sink>(alloc: Global, sink: &mut K, told: &ToldLists, bytes: u128) -> u8
    ensures { IsAnswer (EndsPrinting (bench_text told.now bytes)) (writing K.held K.faults sink.old sink.new) result }
{
    match summary(alloc, told.as_slice(), bytes) {
        Ok(text) => tell(sink, Ending::Done, text.as_slice()),
        Err(memory) => out_of_memory(sink, Lack::Memory(memory)),
    }
}

// Writes it, and behind it the line of a fault of the disk.
fn print_summary_behind<K: Sink>(
    alloc: Global,
    sink: &mut K,
    told: &ToldLists,
    bytes: u128,
    fault: u64,
) -> u8
    ensures { IsAnswer (EndsBehind (bench_text told.now bytes) fault) (writing K.held K.faults sink.old sink.new) result }
{
    let mut text = match summary(alloc, told.as_slice(), bytes) {
        Ok(text) => text,
        Err(memory) => return out_of_memory(sink, Lack::Memory(memory)),
    };
    match text.extend_from_slice(device_line(fault).as_bytes()) {
        Ok(()) => tell(sink, Ending::DeviceFault, text.as_slice()),
        Err(refused) => out_of_memory(sink, Lack::from(refused)),
    }
}

// Writes how the workload was answered by a session that ended so, or why none began.
fn tell_bench<K: Sink>(
    alloc: Global,
    sink: &mut K,
    told: &ToldLists,
    bytes: u128,
    ended: Result<(), PlayFault>,
) -> u8
    ensures { IsAnswer (EndsPlayed ended (bench_text told.now bytes)) (writing K.held K.faults sink.old sink.new) result }
{
    match ended {
        Ok(()) => print_summary(alloc, sink, told, bytes),
        Err(PlayFault::Image(fault)) => tell_start(sink, fault),
        Err(PlayFault::Device { fault }) => print_summary_behind(alloc, sink, told, bytes, fault),
        Err(PlayFault::Stopped { fault }) => print_summary_behind(alloc, sink, told, bytes, fault),
        Err(PlayFault::Lack(lack)) => out_of_memory(sink, lack),
    }
}

// Serves a workload over the disk's image.
fn serve_workload<K: Sink, D: Disk>(
    alloc: Global,
    sink: &mut K,
    clients: OpLists,
    disk: D,
) -> Outcome<D>
    ensures answer { IsAnswer (EndsMeasured clients (formatting D.visible D.size D.moments D.faults disk result.disk) result.told)
        (writing K.held K.faults sink.old sink.new) result.status }
    ensures faults { AreFaultsOf (D.faults disk) (D.faults result.disk) (joined result.told) }
    ensures acts { Plays result.told result.status (course D.visible D.keeps D.size D.moments D.faults disk result.disk) }
    ensures size { D.size result.disk ≡ D.size disk }
    ensures disk_told { result.status ≢ 4 → result.status ≢ 7 → result.status ≢ 5 → devices_in (joined result.told) ≡ [] → IsCountStill (D.faults disk) (D.faults result.disk) }
{
    let script = Script {
        clients,
        workers: 1,
        words: WordList::from_vec(Vec::new(alloc)),
    };
    let played = play(alloc, script, 0, disk);
    Outcome {
        status: tell_bench(alloc, sink, &played.told, played.bytes, played.ended),
        lacked: None,
        told: played.told,
        disk: played.disk,
    }
}

// Formats a disk that is large enough, and serves a workload over the new image.
fn format_and_serve<K: Sink, D: Disk>(
    alloc: Global,
    sink: &mut K,
    clients: OpLists,
    disk: D,
) -> Outcome<D>
    requires large { sector_count bench_geometry ≤ D.size disk }
    ensures answer { IsAnswer (EndsBench clients (formatting D.visible D.size D.moments D.faults disk result.disk) result.told) (writing K.held K.faults sink.old sink.new) result.status }
    ensures faults { AreFaultsOf (D.faults disk) (D.faults result.disk) (joined result.told) }
    ensures acts { Benches result.told result.status (course D.visible D.keeps D.size D.moments D.faults disk result.disk) }
    ensures size { D.size result.disk ≡ D.size disk }
    ensures disk_told { result.status ≢ 4 → result.status ≢ 7 → result.status ≢ 5 → devices_in (joined result.told) ≡ [] → IsCountStill (D.faults disk) (D.faults result.disk) }
{
    let mut disk = disk;
    match format(&mut disk, &bench_geometry()) {
        Ok(()) => serve_workload(alloc, sink, clients, disk),
        Err(FormatFault::Device { fault }) => Outcome {
            status: tell_device(sink, fault),
            lacked: None,
            told: nothing_told(alloc),
            disk,
        },
        Err(FormatFault::TooSmall) => unreachable!(),
    }
}

// Whether a disk of so many sectors is too small for the image.
fn is_small(sectors: u32) -> bool
    ensures small { result ≡ true → sectors < sector_count bench_geometry }
    ensures large { result ≡ false → sector_count bench_geometry ≤ sectors }
{
    sectors < 8 * bench_geometry().blocks
}

/// Makes the disk's first sectors a new image, serves the workload of this seed over it, and tells how many replies of each kind
/// there were, and how large the files are at the end.
pub fn bench<K: Sink, D: Disk>(alloc: Global, sink: &mut K, seed: u32, disk: D) -> Outcome<D>
    ensures answer { IsAnswer (EndsBench (workload_of seed) (formatting D.visible D.size D.moments D.faults disk result.disk) result.told) (writing K.held K.faults sink.old sink.new) result.status }
    ensures faults { AreFaultsOf (D.faults disk) (D.faults result.disk) (joined result.told) }
    ensures acts { Benches result.told result.status (course D.visible D.keeps D.size D.moments D.faults disk result.disk) }
    ensures size { D.size result.disk ≡ D.size disk }
    ensures disk_told { result.status ≢ 4 → result.status ≢ 7 → result.status ≢ 5 → devices_in (joined result.told) ≡ [] → IsCountStill (D.faults disk) (D.faults result.disk) }
{
    if is_small(disk.sectors()) {
        return Outcome {
            status: finish(sink, Ending::TooSmall),
            lacked: None,
            told: nothing_told(alloc),
            disk,
        };
    }
    match workload(alloc, seed) {
        Ok(clients) => format_and_serve(alloc, sink, clients, disk),
        Err(memory) => Outcome {
            status: out_of_memory(sink, Lack::Memory(memory)),
            lacked: None,
            told: nothing_told(alloc),
            disk,
        },
    }
}
