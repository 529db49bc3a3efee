ghost use Rattle.std.specs.Prelude.{◌≡◌, ◌⊎◌, [], Some, IsTrue, false};
ghost use Rattle.ufs_mirror.specs.Pairs.{watched};
ghost use Rattle.ufs_command.specs.Commands.{asked, serves};
ghost use Rattle.ufs_command.specs.Left.{LeavesSource};
ghost use Rattle.ufs_command.specs.Seen.{reading, writing};
ghost use Rattle.ufs_process.specs.Counts.{HaveCounted};
ghost use Rattle.ufs_process.specs.Joining.{Joins, is_mkfs, works_on_disk};
ghost use Rattle.ufs_process.specs.Mirrored.{AnswersOver, LeavesLegs, RefusesLegs, ServesMirror};
ghost use Rattle.ufs_process.specs.Views.{handed, kind, view};

use crate::counted::{Counted, Counts, Origin};
use crate::outcome::MirrorOutcome;
use crate::refusal::tell_mirror_fault;
use std::alloc::Global;
use std::marker::Brand;
use ufs_base::Lack;
use ufs_command::{Command, Ending, finish, nothing_told, out_of_memory, quiet, read_command};
use ufs_disk::Disk;
use ufs_io::{Sink, Source};
use ufs_mirror::{Legpair, Mirror};

// A command over a mirror.
fn serve<S: Source, K: Sink, A: Disk, B: Disk, N: Origin>(
    alloc: Global,
    words: &Vec<String>,
    source: &mut S,
    sink: &mut K,
    mirror: Mirror<A, B>,
) -> MirrorOutcome<A, B>
    requires works { IsTrue (works_on_disk (asked words.now.items)) }
    requires counted { HaveCounted N.first N.second mirror.legs.picks mirror.stopped mirror.faults (A.faults mirror.legs.both.first) (B.faults mirror.legs.both.second) }
    requires begins { N.pairs ≡ (watched (λ l. A.moments l.first) (λ l. B.moments l.second) mirror.legs.log.items mirror.legs.both mirror.legs.picks) }
    ensures served { (first : A) (second : B) → N.first ≡ A.faults first → N.second ≡ B.faults second
        → Joins (kind A.visible A.keeps A.size A.moments A.faults) (kind B.visible B.keeps B.size B.moments B.faults) (asked words.now.items) first second (view mirror.legs.both mirror.legs.log.items mirror.legs.picks mirror.faults mirror.sectors)
        → ServesMirror (kind A.visible A.keeps A.size A.moments A.faults) (kind B.visible B.keeps B.size B.moments B.faults) (asked words.now.items)
        (reading S.left S.faults source.old source.new) (writing K.held K.faults sink.old sink.new) (handed first second result.first result.second result.told result.lacked result.status) }
    ensures source { LeavesSource (asked words.now.items) result.status (reading S.left S.faults source.old source.new) }
    ensures told { serves (asked words.now.items) ≡ false → result.told ≡ [] }
{
    let counted = Counted::<A, B, N>::new(mirror);
    let outcome = quiet(alloc, words, source, sink, counted);
    // For the prover alone.
    let _live = outcome.disk.mirror.live();
    let Legpair { first, second } = outcome.disk.mirror.apart();
    MirrorOutcome {
        status: outcome.status,
        lacked: outcome.lacked,
        told: outcome.told,
        first,
        second,
    }
}

// `mkfs` over two legs.
fn make<S: Source, K: Sink, A: Disk, B: Disk, N: Counts>(
    alloc: Global,
    words: &Vec<String>,
    source: &mut S,
    sink: &mut K,
    first: A,
    second: B,
) -> MirrorOutcome<A, B>
    requires works { IsTrue (works_on_disk (asked words.now.items)) }
    requires first_counted { N.first ≡ A.faults first }
    requires second_counted { N.second ≡ B.faults second }
    requires makes { IsTrue (is_mkfs (asked words.now.items)) }
    ensures answer { RefusesLegs (kind A.visible A.keeps A.size A.moments A.faults) (kind B.visible B.keeps B.size B.moments B.faults) (asked words.now.items)
        (reading S.left S.faults source.old source.new) (writing K.held K.faults sink.old sink.new) (handed first second result.first result.second result.told result.lacked result.status)
        ⊎ ServesMirror (kind A.visible A.keeps A.size A.moments A.faults) (kind B.visible B.keeps B.size B.moments B.faults) (asked words.now.items)
        (reading S.left S.faults source.old source.new) (writing K.held K.faults sink.old sink.new) (handed first second result.first result.second result.told result.lacked result.status) }
    ensures source { LeavesSource (asked words.now.items) result.status (reading S.left S.faults source.old source.new) }
    ensures told { serves (asked words.now.items) ≡ false → result.told ≡ [] }
{
    match Mirror::make(first, second) {
        Ok(mirror) => serve::<S, K, A, B, Brand>(alloc, words, source, sink, mirror),
        Err(unpaired) => {
            let status = tell_mirror_fault(sink, unpaired.fault);
            MirrorOutcome {
                status,
                lacked: None,
                told: nothing_told(alloc),
                first: unpaired.first,
                second: unpaired.second,
            }
        }
    }
}

// Any other command over two legs.
fn open<S: Source, K: Sink, A: Disk, B: Disk, N: Counts>(
    alloc: Global,
    words: &Vec<String>,
    source: &mut S,
    sink: &mut K,
    first: A,
    second: B,
) -> MirrorOutcome<A, B>
    requires works { IsTrue (works_on_disk (asked words.now.items)) }
    requires first_counted { N.first ≡ A.faults first }
    requires second_counted { N.second ≡ B.faults second }
    requires opens { is_mkfs (asked words.now.items) ≡ false }
    ensures answer { RefusesLegs (kind A.visible A.keeps A.size A.moments A.faults) (kind B.visible B.keeps B.size B.moments B.faults) (asked words.now.items)
        (reading S.left S.faults source.old source.new) (writing K.held K.faults sink.old sink.new) (handed first second result.first result.second result.told result.lacked result.status)
        ⊎ ServesMirror (kind A.visible A.keeps A.size A.moments A.faults) (kind B.visible B.keeps B.size B.moments B.faults) (asked words.now.items)
        (reading S.left S.faults source.old source.new) (writing K.held K.faults sink.old sink.new) (handed first second result.first result.second result.told result.lacked result.status) }
    ensures source { LeavesSource (asked words.now.items) result.status (reading S.left S.faults source.old source.new) }
    ensures told { serves (asked words.now.items) ≡ false → result.told ≡ [] }
{
    match Mirror::open(first, second) {
        Ok(mirror) => serve::<S, K, A, B, Brand>(alloc, words, source, sink, mirror),
        Err(unpaired) => {
            let status = tell_mirror_fault(sink, unpaired.fault);
            MirrorOutcome {
                status,
                lacked: None,
                told: nothing_told(alloc),
                first: unpaired.first,
                second: unpaired.second,
            }
        }
    }
}

/// Serves a command that waits for nobody over two legs as one: `mkfs` makes the mirror, every other
/// command opens it.
pub fn mirrored<S: Source, K: Sink, A: Disk, B: Disk>(
    alloc: Global,
    words: &Vec<String>,
    source: &mut S,
    sink: &mut K,
    first: A,
    second: B,
) -> MirrorOutcome<A, B>
    // Words that are no command, or one that isn't built, call no leg. Legs that make no mirror are told with their cause before
    // the source is read. Else all that `quiet` says of a disk holds of the mirror, and at each moment, whatever pair of images
    // the legs may have left: where it opens, it opens to an image that the command allows a crash to leave there.
    ensures answer { AnswersOver (kind A.visible A.keeps A.size A.moments A.faults) (kind B.visible B.keeps B.size B.moments B.faults) (asked words.now.items)
        (reading S.left S.faults source.old source.new) (writing K.held K.faults sink.old sink.new) (handed first second result.first result.second result.told result.lacked result.status) }
    // The source: only `play` and `audit` read it, and its fault is told by status 6 or 7.
    ensures source { LeavesSource (asked words.now.items) result.status (reading S.left S.faults source.old source.new) }
    // Only `play` and `bench` serve clients.
    ensures served { serves (asked words.now.items) ≡ false → result.told ≡ [] }
{
    let status = match read_command(alloc, words.as_slice()) {
        Ok(Some(Command::NotBuilt)) => finish(sink, Ending::NotBuilt),
        Ok(Some(Command::Mkfs { .. })) => return make::<S, K, A, B, Brand>(
            alloc, words, source, sink, first, second,
        ),
        Ok(Some(_)) => return open::<S, K, A, B, Brand>(alloc, words, source, sink, first, second),
        Ok(None) => finish(sink, Ending::Usage),
        Err(memory) => out_of_memory(sink, Lack::Memory(memory)),
    };
    MirrorOutcome {
        status,
        lacked: None,
        told: nothing_told(alloc),
        first,
        second,
    }
}
