// A session on hands is ended over a disk: everything is committed, and the image is made clean.
ghost use Rattle.std.specs.Prelude.{ℕ, ◌≡◌, ◌<◌, ◌↔◌, ◌+◌, eqb, length, List, IfErr, IsOk, IsTrue, None, OnOk, Some, Err, false, true};
ghost use Rattle.ufs_base.specs.declared.lack.Lack.TheVariants as lack;
ghost use Rattle.ufs_disk.specs.Disk.{Leaves};
ghost use Rattle.ufs_disk.specs.Moments.{LeavesOnly, reads};
ghost use Rattle.ufs_brink.specs.Closes.{OpensAsLeft, closing_fault, tells_unsound};
ghost use Rattle.ufs_brink.specs.declared.closing.CloseFault.TheVariants as cause;
ghost use Rattle.ufs_gathered.specs.Ended.{AreAllKnown};
ghost use Rattle.ufs_gathered.specs.Finished.{ClosesBy, EndsBehind, HasFinished, ended_by, left_by};
ghost use Rattle.ufs_gathered.specs.Gathered.{AreAllBack, AreHome, HasFilesToo, HasPoolsAlone};
ghost use Rattle.ufs_held.specs.Together.{under_numbers};
ghost use Rattle.ufs_image.specs.Proper.{IsProperImage};
ghost use Rattle.ufs_image.specs.Volume.{superblock_of};
ghost use Rattle.ufs_joint.specs.Cells.{FileCell};
ghost use Rattle.ufs_layout.specs.Areas.{IsGeometry};
ghost use Rattle.ufs_model.specs.declared.data.Entry.{Entry};
ghost use Rattle.ufs_recovery.specs.Recovered.{IsCleanDisk, IsRecovered};
ghost use Rattle.ufs_hand_laws.specs.Owned.{count};
ghost use Rattle.ufs_store.specs.Refusals.{IsTold, fault_in, is_no_space, stop_after};
ghost use Rattle.ufs_store.specs.declared.fault.StoreFault.TheVariants as refusal;
ghost use Rattle.ufs_turns.specs.Lent.{RunIn, stop_in, tally_in};

use crate::ending::{Ended, close_gathered, end};
use crate::gathering::{Actors, Remains, gather_remains};
use crate::measuring::length_of;
use std::alloc::Global;
use std::sync::ledger::{Ledger, Share};
use ufs_base::{Lack, Memory};
use ufs_brink::{CloseFault, clean};
use ufs_disk::Disk;
use ufs_held::HeldFile;
use ufs_held_names::HeldNames;
use ufs_joint::{Hand, HandTable, Naming};
use ufs_layout::Geometry;
use ufs_store::{Door, Store, StoreFault};
use ufs_turns::{Direct, HeldStore};

/// A disk behind a session on hands, and how that ended.
#[derive(Drop)]
pub struct Finished<D: Disk> {
    /// How many entries the session has.
    pub tickets: u64,
    /// How large all files are together at the end; want of memory where they were let go for it.
    pub bytes: Result<u128, Memory>,
    pub disk: D,
    pub ended: Result<(), CloseFault>,
}

/// Ends a session whose actors are all done: commits the names and each file, closes it, and makes the image clean. The hand of the pools
/// is lent to the commits. Where one fails no other call of the disk is made, and the image is left in use.
///
/// What a crash leaves is explained by the session's history at each moment, and stands for the last tree once everything is committed.
/// All of the end tells one fault of the device at most, by which alone the count goes on (`counted`); and where it ends well, it raises the
/// store's epoch and next commit number by no more than the commits of all files, which are no more than inodes, and of the names, and the
/// recovery do (`raised`).
pub fn finish<N: Naming, D: Disk, L: Ledger>(
    alloc: Global,
    table: HandTable<N>,
    geometry: &Geometry,
    actors: Actors<N, Store<D>, L>,
    share: Share<L>,
) -> Finished<D>
    requires formed { IsGeometry geometry.now }
    requires its { geometry.now ≡ N.start.geometry }
    requires share { 0 < share.parts }
    requires home { (lists : List (List Entry)) × AreHome lists actors.clients.items }
    requires pools { HasPoolsAlone actors.pools }
    requires back { AreAllBack N.start actors.names actors.files.items actors.pools actors.clients.items }
    ensures finished { (lists : List (List Entry)) → AreHome lists actors.clients.items
        → HasFinished N.start N.origin D.keeps result.tickets lists result.bytes (D.size result.disk) (D.faults result.disk) (D.moments result.disk) result.ended }
    ensures stopped { (fault : ℕ) → (result.ended ≡ Err (cause.Stopped fault)) ↔ (stop_in actors.store.store ≡ Some fault) }
    ensures counted { IsTold (tally_in actors.store.store).faults (D.faults result.disk) (closing_fault result.ended) }
    ensures measured { IsOk result.bytes }
    ensures raised { N.start.is_visible ≡ true → OnOk result.ended (ClosesBy (tally_in actors.store.store).epoch (tally_in actors.store.store).number N.start.geometry.inodes (reads (D.moments result.disk))) }
{
    let Actors {
        mut names,
        mut files,
        store,
        mut pools,
        clients,
    } = actors;
    let (done, store) = commit_straight(
        &table,
        store,
        share,
        &mut names,
        files.as_mut_slice(),
        &mut pools,
        geometry,
    );
    let bytes = length_of(files.as_slice());
    let actors = Actors {
        names,
        files,
        store,
        pools,
        clients,
    };
    let Ended { tickets, store } = end(table, actors);
    let mut disk = store.into_disk();
    let ended = clean_if(alloc, &mut disk, done);
    Finished {
        tickets,
        bytes: Ok(bytes),
        disk,
        ended,
    }
}

/// Ends a session whose actors are all done, where there was no memory to commit it: nothing is committed and no call of the disk is made,
/// so the image is left in use. Takes no memory.
///
/// What a crash leaves is explained by the session's history.
pub fn leave<N: Naming, D: Disk, L: Ledger>(
    table: HandTable<N>,
    remains: Remains<N, Store<D>, L>,
    memory: Memory,
) -> Finished<D>
    requires home { (lists : List (List Entry)) × AreHome lists remains.clients.items }
    requires back { (files : List FileCell) × HasFilesToo files remains.rest × AreAllBack N.start remains.names files remains.rest remains.clients.items }
    ensures finished { (lists : List (List Entry)) → AreHome lists remains.clients.items
        → HasFinished N.start N.origin D.keeps result.tickets lists result.bytes (D.size result.disk) (D.faults result.disk) (D.moments result.disk) result.ended }
    ensures stopped { (fault : ℕ) → (result.ended ≡ Err (cause.Stopped fault)) ↔ (stop_in remains.store.store ≡ Some fault) }
    ensures counted { IsTold (tally_in remains.store.store).faults (D.faults result.disk) (closing_fault result.ended) }
    ensures open { OnOk result.ended ⊥ }
    ensures lack { stop_in remains.store.store ≡ None → result.ended ≡ Err (cause.Lack (lack.Memory memory)) }
    ensures unmeasured { result.bytes ≡ Err memory }
{
    let gathered = gather_remains(&table, remains);
    let Ended { tickets, store } = close_gathered(table, gathered);
    let stop = store.stopped();
    Finished {
        tickets,
        bytes: Err(memory),
        disk: store.into_disk(),
        ended: Err(cause_of(stop, memory)),
    }
}

// Why nothing was committed, by where the store has stopped.
fn cause_of(stop: Option<u64>, memory: Memory) -> CloseFault
    ensures { result ≡ left_by stop memory }
{
    match stop {
        Some(fault) => CloseFault::Stopped { fault },
        None => CloseFault::Lack(Lack::Memory(memory)),
    }
}

// Commits the names and each file, straight at the store. One that had stopped commits nothing.
fn commit_straight<N: Naming, S: Door, L: Ledger>(
    table: &HandTable<N>,
    held: HeldStore<N, S, L>,
    share: Share<L>,
    names: &mut HeldNames<N>,
    files: &mut [HeldFile<N>],
    pools: &mut Hand<N>,
    geometry: &Geometry,
) -> (Result<(), StoreFault>, HeldStore<N, S, L>)
    requires formed { IsGeometry geometry.now }
    requires its { geometry.now ≡ N.start.geometry }
    requires share { 0 < share.parts }
    requires alone { HasPoolsAlone pools.old }
    ensures there { names.new.value.held ≡ names.old.value.held }
    ensures numbers { (file : ℕ) → count eqb file (under_numbers files.new) ≡ count eqb file (under_numbers files.old) }
    ensures alone { HasPoolsAlone pools.new }
    ensures pools { pools.new.pools ≡ pools.old.pools }
    ensures known { OnOk result.0 (N.start.is_visible ≡ true → AreAllKnown names.new files.new) }
    ensures halts { stop_in result.1.store ≡ stop_after (stop_in held.store) (fault_in result.0) }
    ensures halted { (fault : ℕ) → stop_in held.store ≡ Some fault → result.0 ≡ Err (refusal.Stopped fault) }
    ensures stopped { (fault : ℕ) → result.0 ≡ Err (refusal.Stopped fault) → stop_in result.1.store ≡ Some fault }
    ensures refused { IfErr result.0 (λ fault. is_no_space fault ≡ false) }
    ensures ran { RunIn (fault_in result.0) (1 + length files.old) (1 + length files.old) held.store result.1.store }
{
    let mut door = Direct { table, held, share };
    let done = names.commit_all(table, files, pools, &mut door, geometry);
    (done, door.held)
}

// Makes the image clean, if everything is committed.
fn clean_if<D: Disk>(
    alloc: Global,
    disk: &mut D,
    done: Result<(), StoreFault>,
) -> Result<(), CloseFault>
    requires refused { IfErr done (λ fault. is_no_space fault ≡ false) }
    ensures ends { EndsBehind done (D.faults disk.old) (D.faults disk.new) result }
    ensures tree { IsTrue D.visible → Leaves (IsProperImage (D.size disk.old)) (D.moments disk.old).state
        → LeavesOnly D.keeps (OpensAsLeft (D.size disk.old) (D.moments disk.old).state) (D.moments disk.old) (D.moments disk.new) }
    ensures clean { IsTrue D.visible → OnOk result (Leaves (IsProperImage (D.size disk.old)) (D.moments disk.old).state → IsCleanDisk (D.size disk.old) (D.moments disk.new).state) }
    ensures size { D.size disk.new ≡ D.size disk.old }
    ensures sound { IsTrue D.visible → OnOk done (Leaves (IsProperImage (D.size disk.old)) (D.moments disk.old).state → IfErr result (λ fault. tells_unsound fault ≡ false)) }
    ensures recovered { IsTrue D.visible → OnOk result (Leaves (IsProperImage (D.size disk.old)) (D.moments disk.old).state → (superblock_of (reads (D.moments disk.old))).clean ≡ false
        → IsRecovered (reads (D.moments disk.old)) (reads (D.moments disk.new))) }
{
    match done {
        Ok(()) => clean(alloc, disk),
        Err(fault) => Err(fault_of(fault)),
    }
}

// Why everything isn't committed.
fn fault_of(fault: StoreFault) -> CloseFault
    requires { is_no_space fault ≡ false }
    ensures { result ≡ ended_by fault }
{
    match fault {
        StoreFault::Device { fault } => CloseFault::Device { fault },
        StoreFault::Stopped { fault } => CloseFault::Stopped { fault },
        StoreFault::Lack(lack) => CloseFault::Lack(lack),
        StoreFault::NoSpace { .. } => unreachable!(),
    }
}
