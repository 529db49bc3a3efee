// Turns that are about no file: blocks go to a pool and come back, and a checkpoint is made.
ghost use Rattle.std.specs.Prelude.{ℕ, ◌≡◌, ◌≤◌, ◌++◌, ◌∷◌, [], false, Err, None, Some, IfErr, OnOk, OnErr};
ghost use Rattle.std.specs.FinSet as set;
ghost use Rattle.ufs_bitmap.specs.Blocks.{BlockSet};
ghost use Rattle.ufs_layout.specs.Areas.{IsGeometry};
ghost use Rattle.ufs_joint.specs.Cells.{StoreCell};
ghost use Rattle.ufs_joint.specs.Moves.{MayMoveBlocks};
ghost use Rattle.ufs_joint.specs.Turns.{MayEndTurn};
ghost use Rattle.ufs_store.specs.Refusals.{fault_in, is_no_space, stop_after};
ghost use Rattle.ufs_store.specs.declared.fault.StoreFault.TheVariants as refusal;
ghost use Rattle.ufs_turns.specs.HeldStore.{IsStoreIn, bare_turn, ended_view, moved_view};
ghost use Rattle.ufs_turns.specs.Lent.{GainsBlocks, HasRun, IsBeside, IsBesidePools, LacksBlocks};
ghost use Rattle.ufs_turns.specs.Told.{fault_told, told_list};

use crate::held_store::begin_turn;
use crate::syncs::{checkpoint_store, told_by};
use std::marker::Brand;
use ufs_bitmap::Pool;
use ufs_joint::{Event, Hand, HandTable, Naming, a_checkpoint_ends};
use ufs_layout::Geometry;
use ufs_store::{Door, StoreFault};

// A checkpoint, by a hand that has the store's cell and no file.
pub(crate) fn checkpoint_lent<N: Naming, D: Door>(
    table: &HandTable<N>,
    hand: &mut Hand<N>,
    store: &mut D,
) -> Result<(), StoreFault>
    requires plain { D.stamps → ⊥ }
    requires store { IsStoreIn N.start N.origin D.visible D.keeps hand.old (D.store store.old) }
    requires files { hand.old.files ≡ [] }
    requires names { hand.old.names ≡ [] }
    ensures store { IsStoreIn N.start N.origin D.visible D.keeps hand.new (D.store store.new) }
    ensures room { OnOk result ((D.store store.new).journal.used ≡ 0) }
    ensures free { (D.store store.new).unassigned.free ≡ (D.store store.old).unassigned.free }
    ensures files { hand.new.files ≡ [] }
    ensures names { hand.new.names ≡ [] }
    ensures beside { IsBeside hand.old hand.new }
    ensures ran { HasRun (fault_in result) 1 0 (D.store store.old) (D.store store.new) }
    ensures faults { hand.new.faults ≡ told_list (fault_told (fault_in result)) ++ hand.old.faults }
    ensures stop { (fault : ℕ) → result ≡ Err (refusal.Stopped fault) → hand.new.stop ≡ Some fault }
    ensures halts { (D.store store.new).stop ≡ stop_after (D.store store.old).stop (fault_in result) }
    ensures halted { (fault : ℕ) → (D.store store.old).stop ≡ Some fault → result ≡ Err (refusal.Stopped fault) }
    ensures stopped { (fault : ℕ) → result ≡ Err (refusal.Stopped fault) → (D.store store.new).stop ≡ Some fault }
    ensures refused { IfErr result (λ fault. is_no_space fault ≡ false) }
{
    let geometry = store.geometry();
    a_checkpoint_ends(&geometry);
    begin_turn::<N, Brand>(table, hand, &geometry);
    let made = checkpoint_store(store);
    let told = told_by(&made);
    end_bare::<N, D, Brand>(table, hand, &geometry, store, told);
    made
}

// A turn in which nothing is done, by a hand that has the store's cell and no file. The hand knows then where the store stopped.
pub(crate) fn stop_lent<N: Naming, D: Door>(
    table: &HandTable<N>,
    hand: &mut Hand<N>,
    store: &D,
) -> Option<u64>
    requires store { IsStoreIn N.start N.origin D.visible D.keeps hand.old (D.store store.now) }
    requires files { hand.old.files ≡ [] }
    requires names { hand.old.names ≡ [] }
    ensures store { IsStoreIn N.start N.origin D.visible D.keeps hand.new (D.store store.now) }
    ensures told { result ≡ (D.store store.now).stop }
    ensures stop { hand.new.stop ≡ (D.store store.now).stop }
    ensures files { hand.new.files ≡ [] }
    ensures names { hand.new.names ≡ [] }
    ensures beside { IsBeside hand.old hand.new }
    ensures faults { hand.new.faults ≡ hand.old.faults }
{
    let geometry = store.geometry();
    a_checkpoint_ends(&geometry);
    begin_turn::<N, Brand>(table, hand, &geometry);
    end_bare::<N, D, Brand>(table, hand, &geometry, store, None);
    store.stopped()
}

// A turn ends that was about no file. Answers the tickets.
fn end_bare<N: Naming, D: Door, E: Event>(
    table: &HandTable<N>,
    hand: &mut Hand<N>,
    geometry: &Geometry,
    store: &D,
    told: Option<u64>,
) -> u64
    requires leaves { E.leaves ≡ ended_view (bare_turn D.keeps told (D.store store.now) hand.old) hand.old }
    requires formed { IsGeometry geometry.now }
    requires its { geometry.now ≡ N.start.geometry }
    requires may { MayEndTurn N.start.geometry N.start.is_visible hand.old (bare_turn D.keeps told (D.store store.now) hand.old) }
    ensures ended { hand.new ≡ ended_view (bare_turn D.keeps told (D.store store.now) hand.old) hand.old result }
    ensures later { hand.old.seen ≤ result }
{
    // For the prover alone.
    let _ = store;
    let _ = told;
    hand.mark::<E>(table, geometry)
}

// Blocks go to the pool, by a hand that has the store's cell too.
pub(crate) fn give_lent<N: Naming, D: Door>(
    table: &HandTable<N>,
    hand: &mut Hand<N>,
    store: &mut D,
    pool: &mut Pool,
    missing: u32,
) -> Result<(), StoreFault>
    requires store { IsStoreIn N.start N.origin D.visible D.keeps hand.old (D.store store.old) }
    requires pool { (name : ℕ) × (hand.old.pools ≡ (name, pool.old) ∷ []) }
    ensures store { IsStoreIn N.start N.origin D.visible D.keeps hand.new (D.store store.new) }
    ensures pool { (name : ℕ) → hand.old.pools ≡ (name, pool.old) ∷ [] → hand.new.pools ≡ (name, pool.new) ∷ [] }
    ensures beside { IsBesidePools hand.old hand.new }
    ensures ran { HasRun None 0 0 (D.store store.old) (D.store store.new) }
    ensures rests { (D.store store.new).stop ≡ (D.store store.old).stop }
    ensures given { OnOk result (GainsBlocks missing (D.store store.old).unassigned.free (D.store store.new).unassigned.free pool.old pool.new) }
    ensures lacks { IfErr result (LacksBlocks missing (set.len (D.store store.old).unassigned.free)) }
    ensures kept { OnErr result (pool.new ≡ pool.old) }
    ensures same { OnErr result ((D.store store.new).unassigned.free ≡ (D.store store.old).unassigned.free) }
{
    let geometry = store.geometry();
    hand.look(table);
    let given = store.give_pool(pool, missing);
    move_blocks::<N, D, Brand>(table, hand, &geometry, store, pool);
    given
}

// Every block of the pool is unassigned again, by a hand that has the store's cell too.
pub(crate) fn take_lent<N: Naming, D: Door>(
    table: &HandTable<N>,
    hand: &mut Hand<N>,
    store: &mut D,
    pool: &mut Pool,
)
    requires store { IsStoreIn N.start N.origin D.visible D.keeps hand.old (D.store store.old) }
    requires pool { (name : ℕ) × (hand.old.pools ≡ (name, pool.old) ∷ []) }
    ensures store { IsStoreIn N.start N.origin D.visible D.keeps hand.new (D.store store.new) }
    ensures pool { (name : ℕ) → hand.old.pools ≡ (name, pool.old) ∷ [] → hand.new.pools ≡ (name, pool.new) ∷ [] }
    ensures beside { IsBesidePools hand.old hand.new }
    ensures ran { HasRun None 0 0 (D.store store.old) (D.store store.new) }
    ensures rests { (D.store store.new).stop ≡ (D.store store.old).stop }
    ensures back { (D.store store.new).unassigned.free ≡ set.union (D.store store.old).unassigned.free pool.old }
    ensures none { pool.new ≡ set.empty }
{
    let geometry = store.geometry();
    hand.look(table);
    store.take_back(pool);
    move_blocks::<N, D, Brand>(table, hand, &geometry, store, pool);
}

// The cells of the pool and the store go on to what these have now. Answers the tickets.
fn move_blocks<N: Naming, D: Door, E: Event>(
    table: &HandTable<N>,
    hand: &mut Hand<N>,
    geometry: &Geometry,
    store: &D,
    pool: &Pool,
) -> u64
    requires leaves { E.leaves ≡ (λ n. moved_view pool.now (D.store store.now) hand.old) }
    requires formed { IsGeometry geometry.now }
    requires its { geometry.now ≡ N.start.geometry }
    requires may { (name : ℕ) × (was : StoreCell) × (had : BlockSet) × (hand.old.pools ≡ (name, had) ∷ []) × MayMoveBlocks hand.old was ((name, pool.now) ∷ []) (D.store store.now).unassigned.free }
    ensures { hand.new ≡ moved_view pool.now (D.store store.now) hand.old }
{
    // For the prover alone.
    let _ = store;
    let _ = pool;
    hand.mark::<E>(table, geometry)
}
