// A checkpoint in a turn, behind which the blocks that the names dropped are unassigned.
ghost use Rattle.std.specs.Prelude.{ℕ, ◌≡◌, ◌≤◌, ◌++◌, ◌∷◌, [], false, Err, Some, IfErr, OnErr, OnOk};
ghost use Rattle.std.specs.FinSet as set;
ghost use Rattle.ufs_joint.specs.Cells.{NamesCell};
ghost use Rattle.ufs_joint.specs.Turns.{MayEndTurn};
ghost use Rattle.ufs_layout.specs.Areas.{IsGeometry};
ghost use Rattle.ufs_store.specs.Refusals.{fault_in, is_no_space, stop_after};
ghost use Rattle.ufs_store.specs.declared.fault.StoreFault.TheVariants as refusal;
ghost use Rattle.ufs_turns.specs.AllLent.{LendsAll, reclaiming_turn, without_dropped};
ghost use Rattle.ufs_turns.specs.HeldStore.{IsStoreIn, ended_view};
ghost use Rattle.ufs_turns.specs.Lent.{HasRun, IsBeside};
ghost use Rattle.ufs_turns.specs.Told.{fault_told, told_list};

use crate::held_store::begin_turn;
use crate::syncs::{checkpoint_store, told_by};
use std::marker::Brand;
use ufs_bitmap::Pool;
use ufs_joint::{Event, Hand, HandTable, Naming, a_checkpoint_ends, dropped_blocks_come_back};
use ufs_layout::Geometry;
use ufs_store::{Door, StoreFault};

// The turn, by a hand that has the store's cell too.
pub(crate) fn reclaim_lent<N: Naming, D: Door>(
    table: &HandTable<N>,
    hand: &mut Hand<N>,
    store: &mut D,
    dropped: &mut Pool,
) -> Result<(), StoreFault>
    requires plain { D.stamps → ⊥ }
    requires store { IsStoreIn N.start N.origin D.visible D.keeps hand.old (D.store store.old) }
    requires lent { (names : NamesCell) × LendsAll names hand.old × (names.dropped ≡ dropped.old) }
    ensures store { IsStoreIn N.start N.origin D.visible D.keeps hand.new (D.store store.new) }
    ensures ok { OnOk result ((names : NamesCell) → hand.old.names ≡ (tt, names) ∷ [] → hand.new.names ≡ (tt, without_dropped names) ∷ []) }
    ensures err { OnErr result (hand.new.names ≡ hand.old.names) }
    ensures files { hand.new.files ≡ hand.old.files }
    ensures back { OnOk result ((dropped.new ≡ set.empty) × ((D.store store.new).unassigned.free ≡ set.union (D.store store.old).unassigned.free dropped.old)) }
    ensures kept { OnErr result ((dropped.new ≡ dropped.old) × ((D.store store.new).unassigned.free ≡ (D.store store.old).unassigned.free)) }
    ensures beside { IsBeside hand.old hand.new }
    ensures ran { HasRun (fault_in result) 1 0 (D.store store.old) (D.store store.new) }
    ensures faults { hand.new.faults ≡ told_list (fault_told (fault_in result)) ++ hand.old.faults }
    ensures stop { (fault : ℕ) → result ≡ Err (refusal.Stopped fault) → hand.new.stop ≡ Some fault }
    ensures halts { (D.store store.new).stop ≡ stop_after (D.store store.old).stop (fault_in result) }
    ensures halted { (fault : ℕ) → (D.store store.old).stop ≡ Some fault → result ≡ Err (refusal.Stopped fault) }
    ensures stopped { (fault : ℕ) → result ≡ Err (refusal.Stopped fault) → (D.store store.new).stop ≡ Some fault }
    ensures refused { IfErr result (λ fault. is_no_space fault ≡ false) }
{
    let geometry = store.geometry();
    dropped_blocks_come_back(&geometry);
    a_checkpoint_ends(&geometry);
    begin_turn::<N, Brand>(table, hand, &geometry);
    let made = checkpoint_store(store);
    let told = told_by(&made);
    match made {
        Ok(()) => {
            store.take_back(dropped);
            end_all::<N, D, Brand>(table, hand, &geometry, store, true, told);
            Ok(())
        }
        Err(fault) => {
            end_all::<N, D, Brand>(table, hand, &geometry, store, false, told);
            Err(fault)
        }
    }
}

// A turn ends in which what the names dropped came back, or didn't. Answers the tickets.
fn end_all<N: Naming, D: Door, E: Event>(
    table: &HandTable<N>,
    hand: &mut Hand<N>,
    geometry: &Geometry,
    store: &D,
    done: bool,
    told: Option<u64>,
) -> u64
    requires leaves { E.leaves ≡ ended_view (reclaiming_turn D.keeps done told (D.store store.now) hand.old) hand.old }
    requires formed { IsGeometry geometry.now }
    requires its { geometry.now ≡ N.start.geometry }
    requires may { MayEndTurn N.start.geometry N.start.is_visible hand.old (reclaiming_turn D.keeps done told (D.store store.now) hand.old) }
    ensures ended { hand.new ≡ ended_view (reclaiming_turn D.keeps done told (D.store store.now) hand.old) hand.old result }
    ensures later { hand.old.seen ≤ result }
{
    // For the prover alone.
    let _ = store;
    let _ = done;
    let _ = told;
    hand.mark::<E>(table, geometry)
}
