// The blocks of a file that a request needs come from a store.
ghost use Rattle.std.specs.Prelude.{ℕ, List, ◌≡◌, ◌≤◌, ◌<◌, length, IsTrue, true, false, Some, Ok, IfErr, OnOk, slice_get};
ghost use Rattle.ufs_disk.specs.Moments.{LeavesOnly};
ghost use Rattle.ufs_extent.specs.Runs.{blocks_of};
ghost use Rattle.ufs_file.specs.Content.{IsContentOf};
ghost use Rattle.ufs_file.specs.Hand.{HasNeeded, IsNeeded, whole_as};
ghost use Rattle.ufs_ledger.specs.Ledger.{IsLedgerOf, IsLeftBy, Ledger};
ghost use Rattle.ufs_store.specs.Ledgers.{HasLedger};
ghost use Rattle.ufs_store.specs.Refusals.{IsTold, fault_in, is_own};
ghost use Rattle.ufs_store.specs.State.{geometry_of_store};
ghost use Rattle.ufs_file_commits.specs.Fetching.{HasFetched};
ghost use Rattle.ufs_file_commits.specs.Standing.{IsReadable};
ghost use Rattle.ufs_file_commits.specs.State.{CommitState, IsNoted, state_of};
ghost use Rattle.ufs_file_commits.specs.Writes.{AreDataBlocks};

use ufs_base::BLOCK;
use ufs_file::FileHand;
use ufs_model::{Desc, Op};
use ufs_store::{Door, StoreFault};

/// Reads the blocks that a request on a descriptor of the file needs and that aren't in memory, each by one call.
/// What was read stays, also where a later one fails.
pub fn fetch<D: Door>(
    door: &mut D,
    hand: &mut FileHand,
    op: &Op,
    desc: Desc,
) -> Result<(), StoreFault>
    requires blocks { AreDataBlocks (geometry_of_store (D.store door.old)) (blocks_of hand.old.extents) }
    ensures there { OnOk result (HasNeeded hand.new.content desc op.now) }
    ensures rest { hand.new ≡ record hand.old { content = record (hand.old.content) { bytes = hand.new.content.bytes; there = hand.new.content.there } } }
    ensures still { length hand.new.content.bytes ≡ length hand.old.content.bytes }
    ensures kept { (place : ℕ) → slice_get hand.old.content.there place ≡ Some true → slice_get hand.new.content.there place ≡ Some true }
    ensures noted { (c : CommitState) → IsNoted (state_of hand.old c) → IsNoted (state_of hand.new c) }
    ensures fewer { (bytes : List ℕ) → IsContentOf hand.new.content bytes → IsContentOf hand.old.content bytes }
    ensures read { IsTrue D.visible → (l : Ledger) (bytes : List ℕ) → IsLedgerOf (D.store door.old).sectors (D.store door.old).moments.state l → IsReadable l (whole_as bytes hand.old) → IsContentOf hand.old.content bytes → IsContentOf hand.new.content bytes }
    ensures nothing { HasNeeded hand.old.content desc op.now → (hand.new ≡ hand.old) × (D.store door.new ≡ D.store door.old) × (result ≡ Ok tt) }
    ensures crash { IsTrue D.visible → (l : Ledger) → IsLedgerOf (D.store door.old).sectors (D.store door.old).moments.state l → LeavesOnly D.keeps (IsLeftBy (D.store door.old).sectors l) (D.store door.old).moments (D.store door.new).moments }
    ensures on_disk { IsTrue D.visible → (l : Ledger) → IsLedgerOf (D.store door.old).sectors (D.store door.old).moments.state l → IsLedgerOf (D.store door.new).sectors (D.store door.new).moments.state l }
    ensures ledger { IsTrue D.visible → (l : Ledger) → HasLedger (D.store door.old) l → HasLedger (D.store door.new) l }
    ensures store { D.store door.new ≡ record (D.store door.old) { moments = (D.store door.new).moments; faults = (D.store door.new).faults } }
    ensures cause { IsTold (D.store door.old).faults (D.store door.new).faults (fault_in result) }
    ensures refused { IfErr result (λ fault. IsTrue (is_own fault)) }
{
    let places = hand.needed_places(op, desc);
    for place in places.start..places.end {
        fetch_needed(door, hand, op, desc, place)?;
    }
    Ok(())
}

// Reads the block at this place, if the request needs it and it isn't in memory.
fn fetch_needed<D: Door>(
    door: &mut D,
    hand: &mut FileHand,
    op: &Op,
    desc: Desc,
    place: u32,
) -> Result<(), StoreFault>
    requires blocks { AreDataBlocks (geometry_of_store (D.store door.old)) (blocks_of hand.old.extents) }
    requires inside { place < length hand.old.content.there }
    ensures fetched { HasFetched D.visible D.keeps (D.store door.old) (D.store door.new) hand.old hand.new }
    ensures there { OnOk result (IsNeeded (length hand.old.content.bytes) desc op.now place → slice_get hand.new.content.there place ≡ Some true) }
    ensures nothing { (IsNeeded (length hand.old.content.bytes) desc op.now place → slice_get hand.old.content.there place ≡ Some true) → (hand.new ≡ hand.old) × (D.store door.new ≡ D.store door.old) × (result ≡ Ok tt) }
    ensures cause { IsTold (D.store door.old).faults (D.store door.new).faults (fault_in result) }
    ensures refused { IfErr result (λ fault. IsTrue (is_own fault)) }
{
    if !hand.needs(op, desc, place) {
        return Ok(());
    }
    fetch_block(door, hand, place)
}

// Reads the block at this place, if it isn't in memory.
fn fetch_block<D: Door>(door: &mut D, hand: &mut FileHand, place: u32) -> Result<(), StoreFault>
    requires blocks { AreDataBlocks (geometry_of_store (D.store door.old)) (blocks_of hand.old.extents) }
    requires inside { place < length hand.old.content.there }
    ensures fetched { HasFetched D.visible D.keeps (D.store door.old) (D.store door.new) hand.old hand.new }
    ensures there { OnOk result (slice_get hand.new.content.there place ≡ Some true) }
    ensures nothing { slice_get hand.old.content.there place ≡ Some true → (hand.new ≡ hand.old) × (D.store door.new ≡ D.store door.old) × (result ≡ Ok tt) }
    ensures cause { IsTold (D.store door.old).faults (D.store door.new).faults (fault_in result) }
    ensures refused { IfErr result (λ fault. IsTrue (is_own fault)) }
{
    match hand.is_there(place as usize) {
        Some(false) => fetch_absent(door, hand, place),
        _ => Ok(()),
    }
}

// Reads the block at this place.
fn fetch_absent<D: Door>(door: &mut D, hand: &mut FileHand, place: u32) -> Result<(), StoreFault>
    requires blocks { AreDataBlocks (geometry_of_store (D.store door.old)) (blocks_of hand.old.extents) }
    requires absent { slice_get hand.old.content.there place ≡ Some false }
    ensures fetched { HasFetched D.visible D.keeps (D.store door.old) (D.store door.new) hand.old hand.new }
    ensures there { OnOk result (slice_get hand.new.content.there place ≡ Some true) }
    ensures cause { IsTold (D.store door.old).faults (D.store door.new).faults (fault_in result) }
    ensures refused { IfErr result (λ fault. IsTrue (is_own fault)) }
{
    // For the prover alone.
    let _blocks = hand.block_count();
    let _size = hand.size();
    let _written = hand.dirty_places();
    let Some(block) = hand.block_number(place) else {
        unreachable!()
    };
    let mut bytes = [0; BLOCK];
    door.read_block(block, &mut bytes)?;
    hand.load(place as usize, &bytes)?;
    Ok(())
}
