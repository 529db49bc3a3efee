// An image is mounted for a session on hands.
ghost use Rattle.std.specs.Prelude.{◌≡◌, [], Err, IfErr, IfOk, IsTrue, Ok, OnOk, length, map, true};
ghost use Rattle.ufs_rounds.specs.OfBeginHands.{value_of};
ghost use Rattle.ufs_brink.specs.Begins.{BeginsWith, TellsNoSession};
ghost use Rattle.ufs_brink.specs.Numbers.{BeginsFrom};
ghost use Rattle.ufs_disk.specs.Moments.{reads};
ghost use Rattle.ufs_engine.specs.Asked.{IsAskedOf};
ghost use Rattle.ufs_image.specs.Opens.{ImageTree, opens};
ghost use Rattle.ufs_image.specs.Volume.{Refusal};
ghost use Rattle.ufs_joint.specs.FirstHand.{Beginning};
ghost use Rattle.ufs_metadata.specs.declared.fault.RecoverFault.{RecoverFault};
ghost use Rattle.ufs_model.specs.PosixTree.{PosixTree};
ghost use Rattle.ufs_opening.specs.Told.{TellsWhy};
ghost use Rattle.ufs_promise_laws.specs.OnDisk.{IsExplainedBetween};
ghost use Rattle.ufs_recovery.specs.Recovered.{IsProperDisk};
ghost use Rattle.ufs_rounds.specs.Mounting.{IsMounted};
ghost use Rattle.ufs_start.specs.Refused.{HasStartCause};
ghost use Rattle.ufs_start.specs.declared.fault.StartFault.TheVariants as start;

use crate::asked::Asked;
use std::alloc::Global;
use ufs_base::Lack;
use ufs_brink::{Unbegun, recovered_start};
use ufs_disk::Disk;
use ufs_metadata::RecoverFault;
use ufs_model::a_request_keeps_the_tree;
use ufs_rounds::{Ready, mount};
use ufs_script::OpLists;
use ufs_start::StartFault;
use ufs_store::{Door, Store};

/// A mounted image, and what a session over it is asked.
pub(crate) struct Begun<D: Disk> {
    pub ready: Ready<D>,
    pub asked: Asked,
}

/// Takes room for what clients may be told, and begins on a disk: recovers its image where that is in use, frees what no path names and
/// blocks that no file needs where a server can't begin with these, reads what a session begins with, and marks the image in use. Nothing
/// is served yet, so whatever a crash leaves, at each moment, stands for the tree that the disk stood for.
pub(crate) fn begin<D: Disk>(
    alloc: Global,
    mut disk: D,
    clients: OpLists,
) -> Result<Begun<D>, Unbegun<D>>
    // over any disk
    ensures asked { IfOk result (λ b. IsAskedOf clients b.asked.clients b.asked.lists b.asked.rooms.items) }
    ensures mounted { IfOk result (λ b. (from : Beginning) × IsMounted from b.ready.opened.start (⟦<Store<D> as Door>⟧.store b.ready.store) b.ready.names (map value_of b.ready.files.items) (length b.asked.clients) 0) }
    ensures sees { IfOk result (λ b. b.ready.opened.start.is_visible ≡ true → IsTrue D.visible) }
    ensures size { IfOk result (λ b. (⟦<Store<D> as Door>⟧.store b.ready.store).sectors ≡ D.size disk) }
    ensures passed { IfOk result (λ b. (⟦<Store<D> as Door>⟧.store b.ready.store).faults ≡ D.faults disk) }
    ensures stands { IsTrue D.visible → OnOk result ((tree : ImageTree) × (opens (D.size disk) (reads (D.moments disk)) ≡ Ok tree)) }
    ensures unopened { IsTrue D.visible → (refusal : Refusal) → opens (D.size disk) (reads (D.moments disk)) ≡ Err refusal
        → IfErr result (λ u. (fault : RecoverFault) × (u.fault ≡ start.Image fault) × TellsWhy (D.size disk) (reads (D.moments disk)) fault) }
    ensures err_size { IfErr result (λ u. D.size u.disk ≡ D.size disk) }
    ensures cause { IfErr result (λ u. HasStartCause (D.faults disk) (D.faults u.disk) u.fault) }
    // over a visible disk that is proper
    ensures opened { IsTrue D.visible → IsProperDisk (D.size disk) (D.moments disk).state → (start : PosixTree) × BeginsWith (D.size disk) (reads (D.moments disk)) start }
    ensures visible { IsTrue D.visible → IsProperDisk (D.size disk) (D.moments disk).state → IfOk result (λ b. b.ready.opened.start.is_visible ≡ true) }
    ensures tree { IsTrue D.visible → IsProperDisk (D.size disk) (D.moments disk).state → (start : PosixTree) → BeginsWith (D.size disk) (reads (D.moments disk)) start
        → IfOk result (λ b. b.ready.opened.start.tree ≡ start) }
    ensures moments { IsTrue D.visible → IsProperDisk (D.size disk) (D.moments disk).state → (start : PosixTree) → BeginsWith (D.size disk) (reads (D.moments disk)) start
        → IfOk result (λ b. IsExplainedBetween D.keeps (D.size disk) start [] (D.moments disk) (⟦<Store<D> as Door>⟧.store b.ready.store).moments) }
    ensures err_moments { IsTrue D.visible → IsProperDisk (D.size disk) (D.moments disk).state → (start : PosixTree) → BeginsWith (D.size disk) (reads (D.moments disk)) start
        → IfErr result (λ u. IsExplainedBetween D.keeps (D.size disk) start [] (D.moments disk) (D.moments u.disk)) }
    ensures refused { IsTrue D.visible → IsProperDisk (D.size disk) (D.moments disk).state → IfErr result (λ u. TellsNoSession (D.size disk) (reads (D.moments disk)) u.fault) }
    ensures numbers { IsTrue D.visible → IsProperDisk (D.size disk) (D.moments disk).state → IfOk result (λ b. BeginsFrom (reads (D.moments disk)) (⟦<Store<D> as Door>⟧.store b.ready.store)) }
{
    a_request_keeps_the_tree();
    let asked = match Asked::make(alloc, clients) {
        Ok(asked) => asked,
        Err(memory) => {
            return Err(Unbegun {
                disk,
                fault: StartFault::Image(RecoverFault::Lack(Lack::Memory(memory))),
            });
        }
    };
    let start = match recovered_start(alloc, &mut disk) {
        Ok(start) => start,
        Err(fault) => return Err(Unbegun { disk, fault }),
    };
    let count = asked.clients.as_slice().len() as u8;
    match mount(alloc, disk, start, count, 0) {
        Ok(ready) => Ok(Begun { ready, asked }),
        Err(unbegun) => Err(unbegun),
    }
}
