// What a store keeps in memory beside its disk.
ghost use Rattle.std.specs.Prelude.{◌≡◌, ◌+◌, ◌-◌, ◌≤◌, ◌<◌, ◌^◌, ℕ, [], IfSome, IfNone, OnSome, IfOk, IsTrue, IsNone, false, true, None, Some};
ghost use Rattle.ufs_layout.specs.Areas.{IsGeometry, first_of_data};
ghost use Rattle.ufs_layout.specs.Superblock.{geometry_of, is_super};
ghost use Rattle.ufs_overlay.specs.Seen as overlaid;
ghost use Rattle.ufs_disk.specs.Disk.{State, Leaves};
ghost use Rattle.ufs_journal.specs.Kept.{HasEarlier, IsReady, IsUnused};
ghost use Rattle.ufs_store.specs.declared.fault.StoreFault.TheVariants as refusal;

use crate::StoreFault;
use std::alloc::Global;
use ufs_base::Memory;
use ufs_bitmap::Bitmap;
use ufs_disk::Fault;
use ufs_journal::Journal;
use ufs_layout::{Geometry, Super};
use ufs_overlay::Overlay;

/// The tables of a store.
#[derive(Drop)]
pub struct Tables {
    /// The superblock of this epoch.
    pub superblock: Super,
    pub journal: Journal,
    /// What is committed in the journal.
    pub overlay: Overlay,
    /// The next transaction of this epoch, from 1.
    pub txn: u32,
    /// The blocks of the data area that nobody has.
    pub unassigned: Bitmap,
    /// Whether a block was written since the last barrier.
    pub unsettled: bool,
    /// The failed write or barrier at which the store stopped.
    pub stop: Option<u64>,
    ghost superblock_is: { geometry_of superblock ≡ journal.geometry },
    ghost form: { IsTrue (is_super 1 superblock) },
    ghost epoch: { superblock.epoch ≡ journal.epoch },
    ghost next: { superblock.next ≤ journal.number },
    ghost over: { overlaid.geometry_of overlay ≡ journal.geometry },
    ghost from_one: { 1 ≤ txn },
    ghost few: { txn ≤ journal.used + 1 },
    ghost none_open: { stop ≡ None → journal.opened ≡ [] },
    ghost first: { unassigned.first ≡ first_of_data journal.geometry },
    ghost blocks: { unassigned.blocks ≡ journal.geometry.blocks },
}

impl Tables {
    /// The tables of an image in which nothing is committed.
    pub fn make(alloc: Global, superblock: &Super, unassigned: Bitmap) -> Result<Tables, Memory>
        requires limits { IsGeometry (geometry_of superblock.now) }
        requires form { IsTrue (is_super 1 superblock.now) }
        requires first { unassigned.first ≡ first_of_data (geometry_of superblock.now) }
        requires blocks { unassigned.blocks ≡ superblock.now.blocks }
        ensures superblock { IfOk result (λ t. t.superblock ≡ superblock.now) }
        ensures journal { IfOk result (λ t. (t.journal.geometry ≡ geometry_of superblock.now) × (t.journal.epoch ≡ superblock.now.epoch) × (t.journal.number ≡ superblock.now.next) × (t.journal.used ≡ 0)) }
        ensures overlay { IfOk result (λ t. overlaid.HasAdded t.overlay []) }
        ensures txn { IfOk result (λ t. t.txn ≡ 1) }
        ensures unassigned { IfOk result (λ t. t.unassigned ≡ unassigned) }
        ensures settled { IfOk result (λ t. t.unsettled ≡ false) }
        ensures going { IfOk result (λ t. t.stop ≡ None) }
        ensures ready { (state : State) → Leaves (HasEarlier (geometry_of superblock.now) superblock.now.epoch) state → IsReady (geometry_of superblock.now) superblock.now.epoch 0 superblock.now.next state }
        ensures unused { (state : State) → Leaves (HasEarlier (geometry_of superblock.now) superblock.now.epoch) state → (txn : ℕ) → IsUnused (geometry_of superblock.now) superblock.now.epoch txn state }
    {
        let geometry = Geometry {
            blocks: superblock.blocks,
            inodes: superblock.inodes,
            journal: superblock.journal,
        };
        Ok(Tables {
            superblock: *superblock,
            journal: Journal::make(alloc, &geometry, superblock)?,
            overlay: Overlay::make(alloc, &geometry),
            txn: 1,
            unassigned,
            unsettled: false,
            stop: None,
        })
    }

    /// The superblock of the next epoch; `None` where epochs are used up.
    pub fn next_superblock(&self) -> Option<Super>
        ensures none { IfNone result (self.now.superblock.epoch ≡ 2 ^ 64 - 1) }
        ensures some { OnSome result (self.now.superblock.epoch < 2 ^ 64 - 1) }
        ensures superblock { IfSome result (λ superblock. superblock ≡ record (self.now.superblock) { epoch = self.now.superblock.epoch + 1; next = self.now.journal.number; clean = false }) }
    {
        let epoch = self.superblock.epoch.checked_add(1)?;
        Some(Super {
            epoch,
            next: self.journal.number,
            clean: false,
            ..self.superblock
        })
    }
}

/// The store stops at this fault.
pub(crate) fn stop_at(stop: &mut Option<u64>, fault: Fault) -> StoreFault
    ensures stop { stop.new ≡ Some fault.number }
    ensures told { result ≡ refusal.Device fault.number }
{
    *stop = Some(fault.number);
    StoreFault::Device {
        fault: fault.number,
    }
}
