// The names' notes are committed.
ghost use Rattle.std.specs.Prelude.{ℕ, ◌≡◌, ◌≢◌, List, [], length, true, false, IsTrue, Some, None, Err, OnOk, OnErr, IfErr};
ghost use Rattle.ufs_base.specs.declared.lack.Lack.TheVariants.{AtEnd};
ghost use Rattle.ufs_bitmap.specs.Taking.{has};
ghost use Rattle.ufs_layout.specs.declared.records.LogRecord.{LogRecord};
ghost use Rattle.ufs_ledger.specs.Ledger.{IsDataBlock};
ghost use Rattle.ufs_model.specs.PosixTree.{PosixTree};
ghost use Rattle.ufs_model.specs.declared.data.Entry.{Entry};
ghost use Rattle.ufs_name_tree.specs.NameTable.{IsNameTable};
ghost use Rattle.ufs_store.specs.Numbers.{HasRaised};
ghost use Rattle.ufs_store.specs.Refusals.{IsTold, fault_in, is_own};
ghost use Rattle.ufs_store.specs.State.{geometry_of_store};
ghost use Rattle.ufs_store.specs.declared.fault.StoreFault.TheVariants as refusal;
ghost use Rattle.ufs_crash_laws.specs.Changes.{name_changes};
ghost use Rattle.ufs_promise_laws.specs.Known.{IsDiskKept, IsKeptGoing, Known, with_names_known};
ghost use Rattle.ufs_promise_laws.specs.Laws.{with_names_committed};
ghost use Rattle.ufs_promise_laws.specs.OnDisk.{HasNames, IsExplainedBetween, IsGoing, IsOnDisk};
ghost use Rattle.ufs_promise_laws.specs.Parts.{Parts};
ghost use Rattle.ufs_promise_laws.specs.Stamping.{ExplainsAllowed};
ghost use Rattle.ufs_names_commit.specs.Fits.{IsLackOfCommit, fit};

use crate::fitting::fits;
use crate::laws::names_law;
use crate::zeros::make_ready;
use ufs_base::Lack;
use ufs_ilog::{NameNotes, NamesLog};
use ufs_promise_laws::always_law;
use ufs_store::{Door, StoreFault};

// Commits what the log has; before that directories' fresh blocks get zeros.
fn commit_log<D: Door>(door: &mut D, log: &mut NamesLog, fresh: &[u32]) -> Result<(), StoreFault>
    requires going { (D.store door.old).stop ≡ None }
    requires there { (block : ℕ) → has fresh.now block ≡ true → IsDataBlock (geometry_of_store (D.store door.old)) block }
    requires stamped { D.stamps → (p : Parts) × (p.fresh ≡ fresh.now) × (p.names.tree.noted ≡ Some log.old) × IsNameTable p.names.tree × ExplainsAllowed D.allows (D.store door.old) p }
    ensures ok { IsTrue D.visible → OnOk result ((start : PosixTree) (history : List Entry) (p : Parts) (known : Known) → p.fresh ≡ fresh.now → p.names.tree.noted ≡ Some log.old → IsNameTable p.names.tree
        → IsKeptGoing (D.store door.old) start history p known → IsKeptGoing (D.store door.new) start history (with_names_committed p) (with_names_known p.names (length (name_changes start history)) known)) }
    ensures err { IsTrue D.visible → OnErr result ((start : PosixTree) (history : List Entry) (p : Parts) (known : Known) → p.fresh ≡ fresh.now → p.names.tree.noted ≡ Some log.old → IsNameTable p.names.tree
        → IsKeptGoing (D.store door.old) start history p known → IsDiskKept (D.store door.new) start history p known) }
    ensures moments { IsTrue D.visible → (start : PosixTree) (history : List Entry) (p : Parts) (known : Known) → p.fresh ≡ fresh.now → p.names.tree.noted ≡ Some log.old → IsNameTable p.names.tree
        → IsKeptGoing (D.store door.old) start history p known → IsExplainedBetween D.keeps (D.store door.old).sectors start history (D.store door.old).moments (D.store door.new).moments }
    ensures emptied { OnOk result (log.new ≡ []) }
    ensures kept { OnErr result (log.new ≡ log.old) }
    ensures raised { HasRaised 1 1 (D.store door.old) (D.store door.new) }
    ensures unassigned { (D.store door.new).unassigned ≡ (D.store door.old).unassigned }
    ensures geometry { geometry_of_store (D.store door.new) ≡ geometry_of_store (D.store door.old) }
    ensures sectors { (D.store door.new).sectors ≡ (D.store door.old).sectors }
    ensures cause { IsTold (D.store door.old).faults (D.store door.new).faults (fault_in result) }
    ensures stop { (D.store door.new).stop ≡ fault_in result }
    ensures refused { IfErr result (λ fault. IsTrue (is_own fault)) }
    ensures lack { (w : Lack) → result ≡ Err (refusal.Lack w) → IsLackOfCommit (D.store door.old) log.old w }
    ensures unfit { log.old ≢ [] → fit (geometry_of_store (D.store door.old)) log.old ≡ false → result ≡ Err (refusal.Lack AtEnd) }
{
    let geometry = door.geometry();
    always_law(&geometry);
    names_law(&geometry);
    if log.records().as_slice().is_empty() {
        return Ok(());
    }
    if !fits(&geometry, log) {
        return Err(StoreFault::Lack(Lack::AtEnd));
    }
    make_ready(door, fresh)?;
    door.commit_names(log)?;
    Ok(())
}

/// Commits what is noted of the names; before that the blocks that directories took, these, get zeros.
/// Where nothing was noted all names are on the disk, and no call of it is made. Where notes are off, memory was
/// wanting for one, and no names can be committed any more. Records that no disk of this form takes count as
/// want of memory, too.
pub fn commit_notes<D: Door>(
    door: &mut D,
    notes: &mut NameNotes,
    fresh: &[u32],
) -> Result<(), StoreFault>
    requires going { (D.store door.old).stop ≡ None }
    requires there { (block : ℕ) → has fresh.now block ≡ true → IsDataBlock (geometry_of_store (D.store door.old)) block }
    requires stamped { D.stamps → (p : Parts) × (p.fresh ≡ fresh.now) × (p.names.tree.noted ≡ notes.old) × IsNameTable p.names.tree × ExplainsAllowed D.allows (D.store door.old) p }
    ensures ok { IsTrue D.visible → OnOk result ((start : PosixTree) (history : List Entry) (p : Parts) → p.fresh ≡ fresh.now → p.names.tree.noted ≡ notes.old → IsNameTable p.names.tree
        → IsGoing (D.store door.old) start history p → HasNames (D.store door.new) start history (with_names_committed p)) }
    ensures err { IsTrue D.visible → OnErr result ((start : PosixTree) (history : List Entry) (p : Parts) → p.fresh ≡ fresh.now → p.names.tree.noted ≡ notes.old → IsNameTable p.names.tree
        → IsGoing (D.store door.old) start history p → IsOnDisk (D.store door.new) start history p) }
    ensures known { IsTrue D.visible → OnOk result ((start : PosixTree) (history : List Entry) (p : Parts) (known : Known) → p.fresh ≡ fresh.now → p.names.tree.noted ≡ notes.old → IsNameTable p.names.tree
        → IsKeptGoing (D.store door.old) start history p known → IsKeptGoing (D.store door.new) start history (with_names_committed p) (with_names_known p.names (length (name_changes start history)) known)) }
    ensures still_known { IsTrue D.visible → OnErr result ((start : PosixTree) (history : List Entry) (p : Parts) (known : Known) → p.fresh ≡ fresh.now → p.names.tree.noted ≡ notes.old → IsNameTable p.names.tree
        → IsKeptGoing (D.store door.old) start history p known → IsDiskKept (D.store door.new) start history p known) }
    ensures moments { IsTrue D.visible → (start : PosixTree) (history : List Entry) (p : Parts) → p.fresh ≡ fresh.now → p.names.tree.noted ≡ notes.old → IsNameTable p.names.tree
        → IsGoing (D.store door.old) start history p → IsExplainedBetween D.keeps (D.store door.old).sectors start history (D.store door.old).moments (D.store door.new).moments }
    ensures emptied { OnOk result (notes.new ≡ Some []) }
    ensures kept { OnErr result (notes.new ≡ notes.old) }
    ensures off { notes.old ≡ None → (w : Lack) × (result ≡ Err (refusal.Lack w)) }
    ensures raised { HasRaised 1 1 (D.store door.old) (D.store door.new) }
    ensures unassigned { (D.store door.new).unassigned ≡ (D.store door.old).unassigned }
    ensures geometry { geometry_of_store (D.store door.new) ≡ geometry_of_store (D.store door.old) }
    ensures sectors { (D.store door.new).sectors ≡ (D.store door.old).sectors }
    ensures cause { IsTold (D.store door.old).faults (D.store door.new).faults (fault_in result) }
    ensures stop { (D.store door.new).stop ≡ fault_in result }
    ensures refused { IfErr result (λ fault. IsTrue (is_own fault)) }
    ensures lack { (records : List LogRecord) (w : Lack) → notes.old ≡ Some records → result ≡ Err (refusal.Lack w) → IsLackOfCommit (D.store door.old) records w }
    ensures unfit { (records : List LogRecord) → notes.old ≡ Some records → records ≢ [] → fit (geometry_of_store (D.store door.old)) records ≡ false → result ≡ Err (refusal.Lack AtEnd) }
{
    let geometry = door.geometry();
    always_law(&geometry);
    match notes.log() {
        Some(log) => commit_log(door, log, fresh),
        None => Err(StoreFault::Lack(notes.lack())),
    }
}
