// A turn in which the names are committed.
ghost use Rattle.std.specs.Prelude.{ℕ, ◌≡◌, ◌≤◌, ◌++◌, [], true, false, Err, None, Some, IfErr, OnOk, OnErr};
ghost use Rattle.ufs_bitmap.specs.Taking.{has};
ghost use Rattle.ufs_layout.specs.Areas.{IsGeometry};
ghost use Rattle.ufs_ledger.specs.Ledger.{IsDataBlock};
ghost use Rattle.ufs_name_tree.specs.NameTable.{IsNameTable};
ghost use Rattle.ufs_names.specs.Notes.{with_notes};
ghost use Rattle.ufs_joint.specs.Cells.{NamesCell};
ghost use Rattle.ufs_joint.specs.Turns.{MayEndTurn};
ghost use Rattle.ufs_store.specs.Refusals.{fault_in, fault_of, is_no_space, stop_after};
ghost use Rattle.ufs_store.specs.State.{geometry_of_store};
ghost use Rattle.ufs_store.specs.declared.fault.StoreFault.{StoreFault};
ghost use Rattle.ufs_store.specs.declared.fault.StoreFault.TheVariants as refusal;
ghost use Rattle.ufs_turns.specs.HeldStore.{IsStoreIn, ended_view};
ghost use Rattle.ufs_turns.specs.Lent.{HasRun, IsBeside};
ghost use Rattle.ufs_turns.specs.NamesLent.{AreNamesIn, HaveCommitted, HaveNotPassed, HavePassed, names_turn};
ghost use Rattle.ufs_turns.specs.Told.{fault_told, told_list};

use crate::held_store::begin_turn;
use crate::syncs::told_of;
use std::marker::Brand;
use ufs_joint::{Event, Hand, HandTable, Naming, a_commit_of_names_ends};
use ufs_layout::Geometry;
use ufs_names::Names;
use ufs_names_commit::commit_notes;
use ufs_store::{Door, StoreFault};

// What `commit_notes` tells, all together, where the store goes.
fn commit_going<D: Door>(
    store: &mut D,
    names: &mut Names,
    fresh: &mut Vec<u32>,
) -> Result<(), StoreFault>
    requires plain { D.stamps → ⊥ }
    requires there { (block : ℕ) → has fresh.old.items block ≡ true → IsDataBlock (geometry_of_store (D.store store.old)) block }
    requires going { (D.store store.old).stop ≡ None }
    ensures table { IsNameTable names.old.tree }
    ensures ok { OnOk result (HavePassed D.visible D.keeps (D.store store.old) (D.store store.new) fresh.old.items names.old.tree.noted) }
    ensures err { (fault : StoreFault) → result ≡ Err fault → HaveNotPassed D.visible D.keeps (D.store store.old) (D.store store.new) fresh.old.items names.old.tree.noted (fault_of fault) }
    ensures committed { OnOk result (names.new ≡ with_notes (Some []) names.old) }
    ensures spent { OnOk result (fresh.new.items ≡ []) }
    ensures kept { OnErr result (names.new ≡ names.old) }
    ensures unspent { OnErr result (fresh.new.items ≡ fresh.old.items) }
    ensures ran { HasRun (fault_in result) 1 1 (D.store store.old) (D.store store.new) }
    ensures stopped { (fault : ℕ) → result ≡ Err (refusal.Stopped fault) → (D.store store.new).stop ≡ Some fault }
    ensures halts { (D.store store.new).stop ≡ stop_after (D.store store.old).stop (fault_in result) }
    ensures halted { (fault : ℕ) → (D.store store.old).stop ≡ Some fault → result ≡ Err (refusal.Stopped fault) }
    ensures refused { IfErr result (λ fault. is_no_space fault ≡ false) }
{
    names.is_table();
    let mut notes = names.take_notes();
    let committed = commit_notes(store, &mut notes, fresh.as_slice());
    names.put_notes(notes);
    match committed {
        Ok(()) => {
            fresh.clear();
            Ok(())
        }
        Err(fault) => Err(fault),
    }
}

// The same of any store: one that has stopped does nothing.
fn commit_store<D: Door>(
    store: &mut D,
    names: &mut Names,
    fresh: &mut Vec<u32>,
) -> Result<(), StoreFault>
    requires plain { D.stamps → ⊥ }
    requires there { (block : ℕ) → has fresh.old.items block ≡ true → IsDataBlock (geometry_of_store (D.store store.old)) block }
    ensures table { IsNameTable names.old.tree }
    ensures ok { OnOk result (HavePassed D.visible D.keeps (D.store store.old) (D.store store.new) fresh.old.items names.old.tree.noted) }
    ensures err { (fault : StoreFault) → result ≡ Err fault → HaveNotPassed D.visible D.keeps (D.store store.old) (D.store store.new) fresh.old.items names.old.tree.noted (fault_of fault) }
    ensures committed { OnOk result (names.new ≡ with_notes (Some []) names.old) }
    ensures spent { OnOk result (fresh.new.items ≡ []) }
    ensures kept { OnErr result (names.new ≡ names.old) }
    ensures unspent { OnErr result (fresh.new.items ≡ fresh.old.items) }
    ensures ran { HasRun (fault_in result) 1 1 (D.store store.old) (D.store store.new) }
    ensures stopped { (fault : ℕ) → result ≡ Err (refusal.Stopped fault) → (D.store store.new).stop ≡ Some fault }
    ensures halts { (D.store store.new).stop ≡ stop_after (D.store store.old).stop (fault_in result) }
    ensures halted { (fault : ℕ) → (D.store store.old).stop ≡ Some fault → result ≡ Err (refusal.Stopped fault) }
    ensures refused { IfErr result (λ fault. is_no_space fault ≡ false) }
{
    names.is_table();
    match store.stopped() {
        Some(fault) => Err(StoreFault::Stopped { fault }),
        None => commit_going(store, names, fresh),
    }
}

// The turn, by a hand that has the store's cell too.
pub(crate) fn commit_lent<N: Naming, D: Door>(
    table: &HandTable<N>,
    hand: &mut Hand<N>,
    store: &mut D,
    names: &mut Names,
    fresh: &mut Vec<u32>,
) -> Result<(), StoreFault>
    requires plain { D.stamps → ⊥ }
    requires store { IsStoreIn N.start N.origin D.visible D.keeps hand.old (D.store store.old) }
    requires names { (cell : NamesCell) × AreNamesIn cell hand.old × (cell.value ≡ names.old) × (cell.fresh ≡ fresh.old.items) }
    ensures store { IsStoreIn N.start N.origin D.visible D.keeps hand.new (D.store store.new) }
    ensures ok { OnOk result ((cell : NamesCell) → AreNamesIn cell hand.old → HaveCommitted N.start.is_visible cell hand.new) }
    ensures err { OnErr result ((cell : NamesCell) → AreNamesIn cell hand.old → AreNamesIn cell hand.new) }
    ensures beside { IsBeside hand.old hand.new }
    ensures committed { OnOk result (names.new ≡ with_notes (Some []) names.old) }
    ensures spent { OnOk result (fresh.new.items ≡ []) }
    ensures kept { OnErr result (names.new ≡ names.old) }
    ensures unspent { OnErr result (fresh.new.items ≡ fresh.old.items) }
    ensures free { (D.store store.new).unassigned.free ≡ (D.store store.old).unassigned.free }
    ensures ran { HasRun (fault_in result) 1 1 (D.store store.old) (D.store store.new) }
    ensures faults { hand.new.faults ≡ told_list (fault_told (fault_in result)) ++ hand.old.faults }
    ensures stop { (fault : ℕ) → result ≡ Err (refusal.Stopped fault) → hand.new.stop ≡ Some fault }
    ensures stops { (fault : ℕ) → fault_told (fault_in result) ≡ Some fault → hand.new.stop ≡ Some fault }
    ensures halts { (D.store store.new).stop ≡ stop_after (D.store store.old).stop (fault_in result) }
    ensures halted { (fault : ℕ) → (D.store store.old).stop ≡ Some fault → result ≡ Err (refusal.Stopped fault) }
    ensures stopped { (fault : ℕ) → result ≡ Err (refusal.Stopped fault) → (D.store store.new).stop ≡ Some fault }
    ensures refused { IfErr result (λ fault. is_no_space fault ≡ false) }
{
    let geometry = store.geometry();
    a_commit_of_names_ends();
    begin_turn::<N, Brand>(table, hand, &geometry);
    match commit_store(store, names, fresh) {
        Ok(()) => {
            end_names::<N, D, Brand>(table, hand, &geometry, store, true, None);
            Ok(())
        }
        Err(fault) => {
            let told = told_of(&fault);
            end_names::<N, D, Brand>(table, hand, &geometry, store, false, told);
            Err(fault)
        }
    }
}

// A turn ends in which the names were committed, or couldn't be. Answers the tickets.
fn end_names<N: Naming, D: Door, E: Event>(
    table: &HandTable<N>,
    hand: &mut Hand<N>,
    geometry: &Geometry,
    store: &D,
    done: bool,
    told: Option<u64>,
) -> u64
    requires leaves { E.leaves ≡ ended_view (names_turn D.keeps done told (D.store store.now) hand.old) hand.old }
    requires formed { IsGeometry geometry.now }
    requires its { geometry.now ≡ N.start.geometry }
    requires may { MayEndTurn N.start.geometry N.start.is_visible hand.old (names_turn D.keeps done told (D.store store.now) hand.old) }
    ensures ended { hand.new ≡ ended_view (names_turn D.keeps done told (D.store store.now) hand.old) hand.old result }
    ensures later { hand.old.seen ≤ result }
{
    // For the prover alone.
    let _ = store;
    let _ = done;
    let _ = told;
    hand.mark::<E>(table, geometry)
}
