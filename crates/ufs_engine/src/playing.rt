// Playing a script on one thread.
ghost use Rattle.std.specs.Prelude.{◌≡◌, ◌≢◌, ◌⊎◌, [], Err, IsTrue, OnOk, length};
ghost use Rattle.ufs_brink.specs.Begins.{BeginsWith, HasNothingOpen, TellsNoSession};
ghost use Rattle.ufs_disk.specs.Disk.{Leaves};
ghost use Rattle.ufs_disk.specs.Moments.{reads};
ghost use Rattle.ufs_base.specs.declared.lack.Lack.{Lack};
ghost use Rattle.ufs_metadata.specs.declared.fault.RecoverFault.{RecoverFault};
ghost use Rattle.ufs_metadata.specs.declared.fault.RecoverFault.TheVariants as image;
ghost use Rattle.ufs_image.specs.Opens.{opens};
ghost use Rattle.ufs_image.specs.Proper.{IsProperImage};
ghost use Rattle.ufs_image.specs.Volume.{Refusal};
ghost use Rattle.ufs_promise_laws.specs.Last.{StandsForTree};
ghost use Rattle.ufs_ledger.specs.Kept.{OpensExplained};
ghost use Rattle.ufs_model.specs.History.{AreTicketsOnce, joined, tree_after};
ghost use Rattle.ufs_model.specs.PosixTree.{PosixTree};
ghost use Rattle.ufs_opening.specs.Told.{TellsWhy};
ghost use Rattle.ufs_brink.specs.Numbers.{RaisesNumbers};
ghost use Rattle.ufs_engine.specs.Plays.{AreFaultsOf, HasBytes, IsEndFault, IsStampedThroughout, MayPlay, served_end};
ghost use Rattle.ufs_engine.specs.declared.playing.PlayFault.TheVariants as ending;
ghost use Rattle.ufs_recovery.specs.Recovered.{IsCleanDisk};
ghost use Rattle.ufs_engine.specs.Served.{IsPlayedFrom};
ghost use Rattle.ufs_told.specs.Throughout.{IsExplainedThroughout};
ghost use Rattle.ufs_start.specs.Refused.{HasStartCause};
ghost use Rattle.ufs_start.specs.declared.fault.StartFault.{StartFault};
ghost use Rattle.ufs_start.specs.declared.fault.StartFault.TheVariants as start;

use crate::beginning::{Begun, begin};
use crate::session::play_named;
use std::alloc::Global;
use std::marker::Brand;
use std::sync::ledger::Blank;
use ufs_base::Lack;
use ufs_client::ToldLists;
use ufs_disk::Disk;
use ufs_metadata::RecoverFault;
use ufs_script::Script;
use ufs_start::StartFault;

/// Why a session isn't whole: no image to begin with, a fault of the closing, or want of memory or of a number.
#[derive(Clone, Copy, Debug, PartialEq, Eq)]
pub enum PlayFault {
    /// No session begins with the image. Nothing was served. It is never for want of memory.
    Image(StartFault),
    /// Each request was answered, and a call of the disk failed in the closing; the disk's count of faults after it.
    Device { fault: u64 },
    /// Each request was answered, and the store had stopped at this fault.
    Stopped { fault: u64 },
    /// No memory was left to begin, to keep an entry or a transcript, or to close; or no next number.
    Lack(Lack),
}

/// A session that has ended, with the disk that it was given.
#[derive(Drop)]
pub struct Played<D: Disk> {
    pub told: ToldLists,
    /// How large all files are together at the end.
    pub bytes: u128,
    pub ended: Result<(), PlayFault>,
    pub disk: D,
}

/// Plays a script on one thread over the image of a disk: recovers an image that is in use, serves the clients' requests,
/// client 0 first, commits everything and makes the image clean. No lease is granted yet.
///
/// What is said of the disk holds whatever ended the call, over every disk that fails from any call on: what a crash leaves
/// as it returns is explained by the whole history, so it holds each change that an `fsync` or a `sync` has acknowledged;
/// and what a crash leaves at a moment before is explained so by the entries that were answered by then, and by the first
/// entries, for each number of them from one stamp of the session's hand to another.
pub fn play<D: Disk>(alloc: Global, script: Script, _lease: u32, disk: D) -> Played<D>
    // over any disk: some tree gives the replies, in which nothing is open
    ensures legal { (start : PosixTree) × HasNothingOpen start × IsPlayedFrom start script.clients result.told (served_end result.ended) (joined result.told) × HasBytes start (joined result.told) (served_end result.ended) result.bytes }
    ensures once { AreTicketsOnce (joined result.told) }
    ensures refused { (fault : StartFault) → result.ended ≡ Err (ending.Image fault) → result.told ≡ [] }
    ensures outside { (w : Lack) → result.ended ≢ Err (ending.Image (start.Image (image.Lack w))) }
    ensures opening { (fault : StartFault) → result.ended ≡ Err (ending.Image fault) → HasStartCause (D.faults disk) (D.faults result.disk) fault }
    ensures faults { AreFaultsOf (D.faults disk) (D.faults result.disk) (joined result.told) }
    ensures unopened { IsTrue D.visible → (refusal : Refusal) → opens (D.size disk) (reads (D.moments disk)) ≡ Err refusal
        → ((w : Lack) × (result.ended ≡ Err (ending.Lack w))) ⊎ ((fault : RecoverFault) × (result.ended ≡ Err (ending.Image (start.Image fault))) × TellsWhy (D.size disk) (reads (D.moments disk)) fault) }
    ensures unserved { IsTrue D.visible → (refusal : Refusal) → opens (D.size disk) (reads (D.moments disk)) ≡ Err refusal → result.told ≡ [] }
    ensures stands { IsTrue D.visible → (refusal : Refusal) → opens (D.size disk) (reads (D.moments disk)) ≡ Err refusal → OnOk result.ended ⊥ }
    ensures closing { IsEndFault (D.faults disk) (D.faults result.disk) (joined result.told) result.ended }
    ensures size { D.size result.disk ≡ D.size disk }
    // over a proper visible disk: the tree that its image stands for gives them
    ensures played { MayPlay D.visible (D.size disk) (D.moments disk).state → (start : PosixTree) → BeginsWith (D.size disk) (reads (D.moments disk)) start
        → IsPlayedFrom start script.clients result.told (served_end result.ended) (joined result.told) }
    ensures sized { MayPlay D.visible (D.size disk) (D.moments disk).state → (start : PosixTree) → BeginsWith (D.size disk) (reads (D.moments disk)) start
        → HasBytes start (joined result.told) (served_end result.ended) result.bytes }
    ensures opened { MayPlay D.visible (D.size disk) (D.moments disk).state → (start : PosixTree) × BeginsWith (D.size disk) (reads (D.moments disk)) start }
    ensures crash { MayPlay D.visible (D.size disk) (D.moments disk).state → (start : PosixTree) → BeginsWith (D.size disk) (reads (D.moments disk)) start
        → Leaves (OpensExplained (D.size disk) start (joined result.told)) (D.moments result.disk).state }
    ensures proper { MayPlay D.visible (D.size disk) (D.moments disk).state → Leaves (IsProperImage (D.size disk)) (D.moments result.disk).state }
    ensures moments { MayPlay D.visible (D.size disk) (D.moments disk).state → (start : PosixTree) → BeginsWith (D.size disk) (reads (D.moments disk)) start
        → IsExplainedThroughout D.keeps (D.size disk) start [] (joined result.told) (D.moments disk) (D.moments result.disk) }
    ensures stamped { IsTrue D.keeps → MayPlay D.visible (D.size disk) (D.moments disk).state → (start : PosixTree) → BeginsWith (D.size disk) (reads (D.moments disk)) start
        → IsStampedThroughout D.keeps (D.size disk) start (joined result.told) (D.moments disk) (D.moments result.disk) }
    ensures clean { MayPlay D.visible (D.size disk) (D.moments disk).state → OnOk result.ended (IsCleanDisk (D.size disk) (D.moments result.disk).state) }
    ensures last { MayPlay D.visible (D.size disk) (D.moments disk).state → (start : PosixTree) → BeginsWith (D.size disk) (reads (D.moments disk)) start
        → OnOk result.ended (StandsForTree (D.size disk) (tree_after start (joined result.told)) (reads (D.moments result.disk))) }
    ensures why { MayPlay D.visible (D.size disk) (D.moments disk).state → (fault : StartFault) → result.ended ≡ Err (ending.Image fault) → TellsNoSession (D.size disk) (reads (D.moments disk)) fault }
    ensures numbers { MayPlay D.visible (D.size disk) (D.moments disk).state → OnOk result.ended (RaisesNumbers (length (joined result.told)) (reads (D.moments disk)) (reads (D.moments result.disk))) }
{
    match begin(alloc, disk, script.clients) {
        Ok(begun) => {
            let Begun { ready, asked } = begun;
            play_named::<Brand, D, Brand>(alloc, ready, Blank::new(1), asked)
        }
        Err(unbegun) => Played {
            told: ToldLists::from_vec(Vec::new(alloc)),
            bytes: 0,
            ended: Err(unbegun_end(unbegun.fault)),
            disk: unbegun.disk,
        },
    }
}

// Why nothing was served.
fn unbegun_end(fault: StartFault) -> PlayFault
    ensures which { (result ≡ ending.Image fault) ⊎ ((w : Lack) × ((result ≡ ending.Lack w) × (fault ≡ start.Image (image.Lack w)))) }
    ensures outside { (w : Lack) → result ≢ ending.Image (start.Image (image.Lack w)) }
{
    match fault {
        StartFault::Image(RecoverFault::Lack(lack)) => PlayFault::Lack(lack),
        fault => PlayFault::Image(fault),
    }
}
