// The blocks that directories took get zeros before dentries are set there.
ghost use Rattle.std.specs.Prelude.{ℕ, ◌≡◌, ◌++◌, ◌∷◌, [], List, true, IsTrue, Some, None, Err, OnOk, OnErr, IfErr};
ghost use Rattle.ufs_bitmap.specs.Taking.{has};
ghost use Rattle.ufs_ledger.specs.Ledger.{IsDataBlock};
ghost use Rattle.ufs_model.specs.PosixTree.{PosixTree};
ghost use Rattle.ufs_model.specs.declared.data.Entry.{Entry};
ghost use Rattle.ufs_store.specs.Refusals.{IsTold, fault_in};
ghost use Rattle.ufs_store.specs.State.{geometry_of_store};
ghost use Rattle.ufs_store.specs.declared.fault.StoreFault.TheVariants as refusal;
ghost use Rattle.ufs_promise_laws.specs.Known.{IsKeptGoing, IsKeptStopped, Known};
ghost use Rattle.ufs_promise_laws.specs.OnDisk.{IsExplainedBetween};
ghost use Rattle.ufs_promise_laws.specs.Parts.{Parts};
ghost use Rattle.ufs_promise_laws.specs.Stamping.{ExplainsAllowed};
ghost use Rattle.ufs_names_commit.specs.Ready.{ExplainsZeroed, HasSpelled, HasZeros};

use crate::laws::zeros_law;
use ufs_base::BLOCK;
use ufs_store::{Door, StoreFault};

// Writes zeros over a block that a directory took.
fn write_zero<D: Door>(door: &mut D, block: u32) -> Result<(), StoreFault>
    requires going { (D.store door.old).stop ≡ None }
    requires there { IsDataBlock (geometry_of_store (D.store door.old)) block }
    requires stamped { D.stamps → (p : Parts) × (done : List ℕ) × (has p.fresh block ≡ true) × ExplainsZeroed D.allows (D.store door.old) p done }
    ensures ok { IsTrue D.visible → OnOk result ((start : PosixTree) (history : List Entry) (p : Parts) (known : Known) (done : List ℕ) → has p.fresh block ≡ true
        → HasZeros (D.store door.old) start history p known done → HasZeros (D.store door.new) start history p known (done ++ block ∷ [])) }
    ensures err { IsTrue D.visible → OnErr result ((start : PosixTree) (history : List Entry) (p : Parts) (known : Known) (done : List ℕ) → has p.fresh block ≡ true
        → HasZeros (D.store door.old) start history p known done → IsKeptStopped (D.store door.new) start history p known) }
    ensures moments { IsTrue D.visible → (start : PosixTree) (history : List Entry) (p : Parts) (known : Known) (done : List ℕ) → has p.fresh block ≡ true
        → HasZeros (D.store door.old) start history p known done → IsExplainedBetween D.keeps (D.store door.old).sectors start history (D.store door.old).moments (D.store door.new).moments }
    ensures passed { OnOk result (D.store door.new ≡ record (D.store door.old) { moments = (D.store door.new).moments; unsettled = (D.store door.new).unsettled }) }
    ensures rest { D.store door.new ≡ record (D.store door.old) { moments = (D.store door.new).moments; faults = (D.store door.new).faults; unsettled = (D.store door.new).unsettled; stop = (D.store door.new).stop } }
    ensures cause { IsTold (D.store door.old).faults (D.store door.new).faults (fault_in result) }
    ensures stop { (D.store door.new).stop ≡ fault_in result }
    ensures refused { IfErr result (λ fault. (number : ℕ) × (fault ≡ refusal.Device number)) }
{
    let geometry = door.geometry();
    zeros_law(&geometry);
    let zeros = [0; BLOCK];
    door.write_block(block, &zeros)
}

// Writes zeros over each of these blocks.
fn write_zeros<D: Door>(door: &mut D, fresh: &[u32]) -> Result<(), StoreFault>
    requires going { (D.store door.old).stop ≡ None }
    requires there { (block : ℕ) → has fresh.now block ≡ true → IsDataBlock (geometry_of_store (D.store door.old)) block }
    requires stamped { D.stamps → (p : Parts) × (p.fresh ≡ fresh.now) × ExplainsZeroed D.allows (D.store door.old) p [] }
    ensures ok { IsTrue D.visible → OnOk result ((start : PosixTree) (history : List Entry) (p : Parts) (known : Known) → p.fresh ≡ fresh.now → HasZeros (D.store door.old) start history p known [] → HasZeros (D.store door.new) start history p known p.fresh) }
    ensures err { IsTrue D.visible → OnErr result ((start : PosixTree) (history : List Entry) (p : Parts) (known : Known) → p.fresh ≡ fresh.now → HasZeros (D.store door.old) start history p known [] → IsKeptStopped (D.store door.new) start history p known) }
    ensures moments { IsTrue D.visible → (start : PosixTree) (history : List Entry) (p : Parts) (known : Known) → p.fresh ≡ fresh.now → HasZeros (D.store door.old) start history p known []
        → IsExplainedBetween D.keeps (D.store door.old).sectors start history (D.store door.old).moments (D.store door.new).moments }
    ensures passed { OnOk result (D.store door.new ≡ record (D.store door.old) { moments = (D.store door.new).moments; unsettled = (D.store door.new).unsettled }) }
    ensures rest { D.store door.new ≡ record (D.store door.old) { moments = (D.store door.new).moments; faults = (D.store door.new).faults; unsettled = (D.store door.new).unsettled; stop = (D.store door.new).stop } }
    ensures cause { IsTold (D.store door.old).faults (D.store door.new).faults (fault_in result) }
    ensures stop { (D.store door.new).stop ≡ fault_in result }
    ensures refused { IfErr result (λ fault. (number : ℕ) × (fault ≡ refusal.Device number)) }
{
    let geometry = door.geometry();
    zeros_law(&geometry);
    for place in 0..fresh.len() {
        write_zero(door, fresh[place])?;
    }
    Ok(())
}

/// Makes these blocks, which directories took, ready for dentries.
pub(crate) fn make_ready<D: Door>(door: &mut D, fresh: &[u32]) -> Result<(), StoreFault>
    requires going { (D.store door.old).stop ≡ None }
    requires there { (block : ℕ) → has fresh.now block ≡ true → IsDataBlock (geometry_of_store (D.store door.old)) block }
    requires stamped { D.stamps → (p : Parts) × (p.fresh ≡ fresh.now) × ExplainsAllowed D.allows (D.store door.old) p }
    ensures ok { IsTrue D.visible → OnOk result ((start : PosixTree) (history : List Entry) (p : Parts) (known : Known) → p.fresh ≡ fresh.now → IsKeptGoing (D.store door.old) start history p known → HasSpelled (D.store door.new) start history p known) }
    ensures err { IsTrue D.visible → OnErr result ((start : PosixTree) (history : List Entry) (p : Parts) (known : Known) → p.fresh ≡ fresh.now → IsKeptGoing (D.store door.old) start history p known → IsKeptStopped (D.store door.new) start history p known) }
    ensures moments { IsTrue D.visible → (start : PosixTree) (history : List Entry) (p : Parts) (known : Known) → p.fresh ≡ fresh.now → IsKeptGoing (D.store door.old) start history p known
        → IsExplainedBetween D.keeps (D.store door.old).sectors start history (D.store door.old).moments (D.store door.new).moments }
    ensures passed { OnOk result (D.store door.new ≡ record (D.store door.old) { moments = (D.store door.new).moments; unsettled = (D.store door.new).unsettled }) }
    ensures rest { D.store door.new ≡ record (D.store door.old) { moments = (D.store door.new).moments; faults = (D.store door.new).faults; unsettled = (D.store door.new).unsettled; stop = (D.store door.new).stop } }
    ensures cause { IsTold (D.store door.old).faults (D.store door.new).faults (fault_in result) }
    ensures stop { (D.store door.new).stop ≡ fault_in result }
    ensures refused { IfErr result (λ fault. (number : ℕ) × (fault ≡ refusal.Device number)) }
{
    let geometry = door.geometry();
    zeros_law(&geometry);
    write_zeros(door, fresh)?;
    door.settle()
}
