// The dirty blocks of a file go to a store.
ghost use Rattle.std.specs.Prelude.{ℕ, ◌≡◌, ◌<◌, ◌∷◌, [], length, IsTrue, None, Some, Err, OnOk, OnErr, IfErr, slice_get, true};
ghost use Rattle.ufs_disk.specs.Moments.{LeavesOnly};
ghost use Rattle.ufs_extent.specs.Runs.{blocks_of};
ghost use Rattle.ufs_ledger.specs.Ledger.{IsDataBlock, IsLeftBy, Ledger};
ghost use Rattle.ufs_store.specs.Ledgers.{HasLedger};
ghost use Rattle.ufs_store.specs.Refusals.{IsTold, fault_in, is_of_disk, stop_after};
ghost use Rattle.ufs_store.specs.State.{geometry_of_store};
ghost use Rattle.ufs_store.specs.declared.fault.StoreFault.TheVariants as refusal;
ghost use Rattle.ufs_file_commits.specs.Stamping.{MayLeaveWrites};
ghost use Rattle.ufs_file_commits.specs.Writes.{AreDataBlocks, HasTriedOne, MayWriteAll, with_writes, write_at, write_of, writes_of};

use ufs_file::FileHand;
use ufs_store::{Door, StoreFault};

/// Writes each dirty block, in the order of the file, up to the first write that fails.
pub(crate) fn write_dirty<D: Door>(hand: &FileHand, door: &mut D) -> Result<(), StoreFault>
    requires blocks { AreDataBlocks (geometry_of_store (D.store door.old)) (blocks_of hand.now.extents) }
    requires stamped { D.stamps → (D.store door.old).stop ≡ None → MayLeaveWrites D.allows (D.store door.old) (writes_of hand.now) }
    ensures crash { IsTrue D.visible → (l : Ledger) → HasLedger (D.store door.old) l → MayWriteAll l (writes_of hand.now)
        → LeavesOnly D.keeps (IsLeftBy (D.store door.old).sectors (with_writes (writes_of hand.now) l)) (D.store door.old).moments (D.store door.new).moments }
    ensures ok { IsTrue D.visible → OnOk result ((l : Ledger) → HasLedger (D.store door.old) l → MayWriteAll l (writes_of hand.now) → HasLedger (D.store door.new) (with_writes (writes_of hand.now) l)) }
    ensures err { IsTrue D.visible → OnErr result ((l : Ledger) → HasLedger (D.store door.old) l → MayWriteAll l (writes_of hand.now) → HasTriedOne (D.store door.new) (writes_of hand.now) l) }
    ensures nothing { writes_of hand.now ≡ [] → D.store door.new ≡ D.store door.old }
    ensures passed { OnOk result (D.store door.new ≡ record (D.store door.old) { moments = (D.store door.new).moments; unsettled = (D.store door.new).unsettled }) }
    ensures rest { D.store door.new ≡ record (D.store door.old) { moments = (D.store door.new).moments; faults = (D.store door.new).faults; unsettled = (D.store door.new).unsettled; stop = (D.store door.new).stop } }
    ensures stopped { (fault : ℕ) → (D.store door.old).stop ≡ Some fault → IfErr result (λ told. told ≡ refusal.Stopped fault) }
    ensures earlier { (fault : ℕ) → result ≡ Err (refusal.Stopped fault) → (D.store door.old).stop ≡ Some fault }
    ensures still { (fault : ℕ) → (D.store door.old).stop ≡ Some fault → D.store door.new ≡ D.store door.old }
    ensures cause { IsTold (D.store door.old).faults (D.store door.new).faults (fault_in result) }
    ensures stop { (D.store door.new).stop ≡ stop_after (D.store door.old).stop (fault_in result) }
    ensures refused { IfErr result (λ fault. IsTrue (is_of_disk fault)) }
{
    let dirty = hand.dirty_places();
    for place in dirty.start..dirty.end {
        write_place(hand, place, door)?;
    }
    Ok(())
}

// Writes the block at this place, if it is dirty.
fn write_place<D: Door>(hand: &FileHand, place: u32, door: &mut D) -> Result<(), StoreFault>
    requires blocks { AreDataBlocks (geometry_of_store (D.store door.old)) (blocks_of hand.now.extents) }
    requires there { place < length (blocks_of hand.now.extents) }
    requires marked { place < length hand.now.content.dirty }
    requires stamped { D.stamps → (D.store door.old).stop ≡ None → MayLeaveWrites D.allows (D.store door.old) (write_at hand.now place) }
    ensures crash { IsTrue D.visible → (l : Ledger) → HasLedger (D.store door.old) l → MayWriteAll l (write_at hand.now place)
        → LeavesOnly D.keeps (IsLeftBy (D.store door.old).sectors (with_writes (write_at hand.now place) l)) (D.store door.old).moments (D.store door.new).moments }
    ensures ok { IsTrue D.visible → OnOk result ((l : Ledger) → HasLedger (D.store door.old) l → MayWriteAll l (write_at hand.now place) → HasLedger (D.store door.new) (with_writes (write_at hand.now place) l)) }
    ensures err { IsTrue D.visible → OnErr result ((l : Ledger) → HasLedger (D.store door.old) l → MayWriteAll l (write_at hand.now place) → HasTriedOne (D.store door.new) (write_at hand.now place) l) }
    ensures nothing { write_at hand.now place ≡ [] → D.store door.new ≡ D.store door.old }
    ensures passed { OnOk result (D.store door.new ≡ record (D.store door.old) { moments = (D.store door.new).moments; unsettled = (D.store door.new).unsettled }) }
    ensures rest { D.store door.new ≡ record (D.store door.old) { moments = (D.store door.new).moments; faults = (D.store door.new).faults; unsettled = (D.store door.new).unsettled; stop = (D.store door.new).stop } }
    ensures stopped { (fault : ℕ) → (D.store door.old).stop ≡ Some fault → IfErr result (λ told. told ≡ refusal.Stopped fault) }
    ensures earlier { (fault : ℕ) → result ≡ Err (refusal.Stopped fault) → (D.store door.old).stop ≡ Some fault }
    ensures still { (fault : ℕ) → (D.store door.old).stop ≡ Some fault → D.store door.new ≡ D.store door.old }
    ensures cause { IsTold (D.store door.old).faults (D.store door.new).faults (fault_in result) }
    ensures stop { (D.store door.new).stop ≡ stop_after (D.store door.old).stop (fault_in result) }
    ensures refused { IfErr result (λ fault. IsTrue (is_of_disk fault)) }
{
    match hand.is_dirty(place as usize) {
        Some(true) => write_one(hand, place, door),
        _ => Ok(()),
    }
}

// Writes the block at this place.
fn write_one<D: Door>(hand: &FileHand, place: u32, door: &mut D) -> Result<(), StoreFault>
    requires blocks { AreDataBlocks (geometry_of_store (D.store door.old)) (blocks_of hand.now.extents) }
    requires there { place < length (blocks_of hand.now.extents) }
    requires marked { place < length hand.now.content.dirty }
    requires kept { slice_get hand.now.content.there place ≡ Some true }
    requires stamped { D.stamps → (D.store door.old).stop ≡ None → MayLeaveWrites D.allows (D.store door.old) (write_of hand.now place ∷ []) }
    ensures crash { IsTrue D.visible → (l : Ledger) → HasLedger (D.store door.old) l → MayWriteAll l (write_of hand.now place ∷ [])
        → LeavesOnly D.keeps (IsLeftBy (D.store door.old).sectors (with_writes (write_of hand.now place ∷ []) l)) (D.store door.old).moments (D.store door.new).moments }
    ensures ok { IsTrue D.visible → OnOk result ((l : Ledger) → HasLedger (D.store door.old) l → MayWriteAll l (write_of hand.now place ∷ []) → HasLedger (D.store door.new) (with_writes (write_of hand.now place ∷ []) l)) }
    ensures err { IsTrue D.visible → OnErr result ((l : Ledger) → HasLedger (D.store door.old) l → MayWriteAll l (write_of hand.now place ∷ []) → HasTriedOne (D.store door.new) (write_of hand.now place ∷ []) l) }
    ensures passed { OnOk result (D.store door.new ≡ record (D.store door.old) { moments = (D.store door.new).moments; unsettled = (D.store door.new).unsettled }) }
    ensures rest { D.store door.new ≡ record (D.store door.old) { moments = (D.store door.new).moments; faults = (D.store door.new).faults; unsettled = (D.store door.new).unsettled; stop = (D.store door.new).stop } }
    ensures stopped { (fault : ℕ) → (D.store door.old).stop ≡ Some fault → result ≡ Err (refusal.Stopped fault) }
    ensures earlier { (fault : ℕ) → result ≡ Err (refusal.Stopped fault) → (D.store door.old).stop ≡ Some fault }
    ensures still { (fault : ℕ) → (D.store door.old).stop ≡ Some fault → D.store door.new ≡ D.store door.old }
    ensures cause { IsTold (D.store door.old).faults (D.store door.new).faults (fault_in result) }
    ensures stop { (D.store door.new).stop ≡ stop_after (D.store door.old).stop (fault_in result) }
    ensures refused { IfErr result (λ fault. IsTrue (is_of_disk fault)) }
{
    let Some(block) = hand.block_number(place) else {
        unreachable!()
    };
    let Some(bytes) = hand.block(place as usize) else {
        unreachable!()
    };
    door.write_block(block, bytes)
}
