// The disk of an image is mounted, and a session on hands is opened over it.
ghost use Rattle.std.specs.Prelude.{◌≡◌, ◌≤◌, [], true, Some, IfOk, IfErr, IsTrue, map};
ghost use Rattle.std.specs.FinSet as set;
ghost use Rattle.ufs_base.specs.Images.{Image};
ghost use Rattle.ufs_begin_hands.specs.Mounted.{beginning_of};
ghost use Rattle.ufs_begin_hands.specs.Seen.{sees};
ghost use Rattle.ufs_begin_hands.specs.Values.{value_of, values_first};
ghost use Rattle.ufs_metadata.specs.Faults.{IsOutside};
ghost use Rattle.ufs_metadata.specs.declared.fault.RecoverFault.{RecoverFault};
ghost use Rattle.ufs_disk.specs.Moments.{reads};
ghost use Rattle.ufs_brink.specs.Begins.{BeginsWith};
ghost use Rattle.ufs_brink.specs.Numbers.{GoesOnFrom};
ghost use Rattle.ufs_joint.specs.FirstHand.{server_first, start_first};
ghost use Rattle.ufs_joint.specs.Ready.{IsReady};
ghost use Rattle.ufs_joint.specs.Ends.{CanBegin};
ghost use Rattle.ufs_model.specs.PosixTree.{PosixTree};
ghost use Rattle.ufs_names.specs.Notes.{with_notes};
ghost use Rattle.ufs_recovery.specs.Recovered.{IsCleanDisk};
ghost use Rattle.ufs_start.specs.Begun.{IsBegun};
ghost use Rattle.ufs_start.specs.Refused.{HasStartCause};
ghost use Rattle.ufs_start.specs.declared.fault.StartFault.TheVariants as start_fault;
ghost use Rattle.ufs_promise_laws.specs.OnDisk.{IsExplainedBetween, IsOnDisk};

use crate::opening::{open_over, parts_before};
use crate::values::first_values;
use std::alloc::Global;
use std::marker::Brand;
use ufs_base::Lack;
use ufs_brink::{Unbegun, beginning_law, mounted_law, why_unmounted};
use ufs_disk::Disk;
use ufs_joint::{Opened, first_hand_law};
use ufs_metadata::RecoverFault;
use ufs_model::a_request_keeps_the_tree;
use ufs_noted::{KnownFile, NotedNames};
use ufs_start::{Start, StartFault};
use ufs_store::{Door, Store};

/// What a session on hands over an image begins with. Each value is its cell of the first hand.
pub struct Ready<D: Disk> {
    pub names: NotedNames,
    /// By rising number, each committed as it is, with no block in memory.
    pub files: Vec<KnownFile>,
    pub store: Store<D>,
    /// The session, which has no name yet.
    pub opened: Opened,
}

/// Mounts the disk, of which this was read, and opens a session on hands for so many clients and workers. Nothing is served yet, so
/// whatever a crash leaves, at each moment, stands for the tree that the disk stood for.
pub fn mount<D: Disk>(
    alloc: Global,
    disk: D,
    start: Start,
    clients: u8,
    workers: u8,
) -> Result<Ready<D>, Unbegun<D>>
    requires begun { (image : Image) × IsBegun (D.size disk) image start × (IsTrue D.visible → image ≡ reads (D.moments disk)) }
    requires few { workers ≤ 8 }
    ensures start { IfOk result (λ r. r.opened.start ≡ start_first (beginning_of start clients workers (sees D.visible (D.size disk) (D.moments disk).state)) (⟦<Store<D> as Door>⟧.store r.store)) }
    ensures session { IfOk result (λ r. CanBegin r.opened.start) }
    ensures ready { IfOk result (λ r. IsReady (beginning_of start clients workers (sees D.visible (D.size disk) (D.moments disk).state)) (⟦<Store<D> as Door>⟧.store r.store)) }
    ensures names { IfOk result (λ r. r.names ≡ record { names = with_notes (Some []) start.names; fresh = []; dropped = set.empty }) }
    ensures files { IfOk result (λ r. map value_of r.files.items ≡ values_first start.files) }
    ensures tree { (image : Image) (tree : PosixTree) → IsBegun (D.size disk) image start → BeginsWith (D.size disk) image tree → IfOk result (λ r. r.opened.start.tree ≡ tree) }
    ensures size { IfOk result (λ r. (⟦<Store<D> as Door>⟧.store r.store).sectors ≡ D.size disk) }
    ensures passed { IfOk result (λ r. (⟦<Store<D> as Door>⟧.store r.store).faults ≡ D.faults disk) }
    ensures err_size { IfErr result (λ u. D.size u.disk ≡ D.size disk) }
    ensures cause { IfErr result (λ u. HasStartCause (D.faults disk) (D.faults u.disk) u.fault) }
    ensures outside { IfErr result (λ u. (fault : RecoverFault) × (u.fault ≡ start_fault.Image fault) × IsOutside fault) }
    ensures numbers { (image : Image) → IsBegun (D.size disk) image start → IfOk result (λ r. GoesOnFrom image (⟦<Store<D> as Door>⟧.store r.store)) }
    // over a visible disk that is clean
    ensures on_disk { IsTrue D.visible → IsCleanDisk (D.size disk) (D.moments disk).state → (tree : PosixTree) → BeginsWith (D.size disk) (reads (D.moments disk)) tree
        → IfOk result (λ r. IsOnDisk (⟦<Store<D> as Door>⟧.store r.store) tree [] (server_first (beginning_of start clients workers true))) }
    ensures moments { IsTrue D.visible → IsCleanDisk (D.size disk) (D.moments disk).state → (tree : PosixTree) → BeginsWith (D.size disk) (reads (D.moments disk)) tree
        → IfOk result (λ r. IsExplainedBetween D.keeps (D.size disk) tree [] (D.moments disk) (⟦<Store<D> as Door>⟧.store r.store).moments) }
    ensures err_moments { IsTrue D.visible → IsCleanDisk (D.size disk) (D.moments disk).state → (tree : PosixTree) → BeginsWith (D.size disk) (reads (D.moments disk)) tree
        → IfErr result (λ u. IsExplainedBetween D.keeps (D.size disk) tree [] (D.moments disk) (D.moments u.disk)) }
    // the session sees a disk that is visible
    ensures visible { IsTrue D.visible → IsCleanDisk (D.size disk) (D.moments disk).state → IfOk result (λ r. r.opened.start.is_visible ≡ true) }
    ensures seen { IfOk result (λ r. r.opened.start.is_visible ≡ true → IsTrue D.visible) }
{
    let superblock = start.superblock.superblock;
    a_request_keeps_the_tree();
    beginning_law();
    mounted_law(&start.superblock.geometry);
    first_hand_law(&start.superblock.geometry);
    start.names.is_table();
    let before = parts_before::<D, Brand>(&disk, &start, clients, workers);
    let values = match first_values(alloc, start.names, start.files) {
        Ok(values) => values,
        Err(memory) => {
            return Err(Unbegun {
                disk,
                fault: StartFault::Image(RecoverFault::Lack(Lack::Memory(memory))),
            });
        }
    };
    match Store::mount(alloc, disk, superblock, start.free) {
        Ok(store) => match open_over(alloc, &store, before) {
            Ok(opened) => Ok(Ready {
                names: values.names,
                files: values.files,
                store,
                opened,
            }),
            Err(lack) => Err(Unbegun {
                disk: store.into_disk(),
                fault: StartFault::Image(RecoverFault::Lack(Lack::from(lack))),
            }),
        },
        Err(unmounted) => Err(Unbegun {
            disk: unmounted.disk,
            fault: StartFault::Image(why_unmounted(unmounted.fault)),
        }),
    }
}
