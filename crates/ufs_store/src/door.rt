ghost use Rattle.std.specs.Prelude.{ℕ, Bool, ◌≡◌, ◌≢◌, ◌↔◌, ◌≤◌, ◌<◌, ◌+◌, ◌-◌, ◌⊎◌, ◌∷◌, [], List, length, IsTrue, true, false, None, Some, Ok, Err, OnOk, OnErr, IfOk, IfErr, ◌^◌};
ghost use Rattle.std.specs.List.{list_all};
ghost use Rattle.std.specs.FinSet as set;
ghost use Rattle.ufs_base.specs.Faults.{HasCause};
ghost use Rattle.ufs_base.specs.Images.{Image};
ghost use Rattle.ufs_base.specs.declared.sizes.TheConstants.{BLOCK};
ghost use Rattle.ufs_bitmap.specs.Taking.{set_of};
ghost use Rattle.ufs_base.specs.declared.lack.Lack.{Lack};
ghost use Rattle.ufs_base.specs.declared.lack.Lack.TheVariants.{AtEnd};
ghost use Rattle.ufs_disk.specs.Disk.{IsImage, IsWhole};
ghost use Rattle.ufs_disk.specs.Moments.{LeavesOnly, reads};
ghost use Rattle.ufs_ilog.specs.Deltas.{IsDelta};
ghost use Rattle.ufs_image.specs.Fold.{is_in_range};
ghost use Rattle.ufs_image.specs.Images.{block_at};
ghost use Rattle.ufs_layout.specs.Areas.{IsGeometry, first_of_data, is_inode_number};
ghost use Rattle.ufs_layout.specs.Filled.{sector_count_of};
ghost use Rattle.ufs_layout.specs.Superblock.{geometry_of};
ghost use Rattle.ufs_layout.specs.declared.records.LogRecord.{LogRecord};
ghost use Rattle.ufs_ledger.specs.Changes.{settled, tried, written};
ghost use Rattle.ufs_ledger.specs.Laws.{MayWrite};
ghost use Rattle.ufs_ledger.specs.Ledger.{IsDataBlock, IsLedgerOf, IsLeftBy, Ledger, is_held};
ghost use Rattle.ufs_store.specs.Ends.{IsLackOf};
ghost use Rattle.ufs_store.specs.Blocks.{AreApart, AreInside, MayReturn, MovesLowest};
ghost use Rattle.ufs_store.specs.Ledgers.{AnyOf, HasAny, HasLedger, IsLeftByAny, MayCommitNext, after_commit, beginning_next, checkpointed, stages};
ghost use Rattle.ufs_store.specs.Numbers.{HasRaised};
ghost use Rattle.ufs_store.specs.Refusals.{IsTold, answer_of, fault_in, is_no_space, is_of_disk, stop_after};
ghost use Rattle.ufs_store.specs.Stamping.{MayLeaveDelta, MayLeaveHome, MayLeaveStages, MayLeaveWritten};
ghost use Rattle.ufs_store.specs.State.{StoreState, geometry_of_store, last_commit, next_superblock};
ghost use Rattle.ufs_store.specs.declared.fault.StoreFault.TheVariants as refusal;

use crate::{StoreFault, Uncommitted};
use ufs_bitmap::Pool;
use ufs_extent::Runs;
use ufs_ilog::{InodeLog, NamesLog};
use ufs_layout::Geometry;

/// The calls of a store.
///
/// A write or a barrier that fails stops the store: later calls that write are refused with its number
/// and do nothing. Reads go on.
pub trait Door {
    /// Whether contracts see what the disk holds.
    ghost visible: { Bool };

    /// Whether they see each moment.
    ghost keeps: { Bool };

    /// Whether each call that writes stamps what a crash may leave meanwhile: its caller tells so before it.
    ghost stamps: { Type 0 };

    /// The images that a crash may leave then.
    ghost allows: { Image → Type 0 };

    /// The store.
    ghost store: { Self → StoreState };

    /// The form of the disk.
    fn geometry(&self) -> Geometry
        ensures is { result ≡ geometry_of_store (store self.now) }
        ensures form { IsGeometry result }
        // what is unassigned is of the data area
        ensures first { (store self.now).unassigned.first ≡ first_of_data result }
        ensures blocks { (store self.now).unassigned.blocks ≡ result.blocks };

    /// The failed write or barrier at which the store stopped.
    fn stopped(&self) -> Option<u64>
        ensures { result ≡ (store self.now).stop };

    /// Reads a block of the data area. A fault stops nothing; after it `buf` may hold anything.
    fn read_block(&mut self, block: u32, buf: &mut [u8]) -> Result<(), StoreFault>
        requires there { IsDataBlock (geometry_of_store (store self.old)) block }
        requires sized { length buf.old ≡ BLOCK }
        ensures bytes { IsTrue visible → OnOk result ((l : Ledger) → IsLedgerOf (store self.old).sectors (store self.old).moments.state l → IsDataBlock (geometry_of l.superblock) block → is_held l.now.log block ≡ false
            → buf.new ≡ (l.blocks block).seen) }
        ensures crash { IsTrue visible → (l : Ledger) → IsLedgerOf (store self.old).sectors (store self.old).moments.state l
            → LeavesOnly keeps (IsLeftBy (store self.old).sectors l) (store self.old).moments (store self.new).moments }

        // At no moment of the call a crash leaves what it might not have left before.
        ensures images { IsTrue visible → LeavesOnly keeps (IsImage (store self.old).moments.state) (store self.old).moments (store self.new).moments }
        ensures on_disk { IsTrue visible → (l : Ledger) → IsLedgerOf (store self.old).sectors (store self.old).moments.state l → IsLedgerOf (store self.new).sectors (store self.new).moments.state l }
        ensures ledger { IsTrue visible → (l : Ledger) → HasLedger (store self.old) l → HasLedger (store self.new) l }
        ensures rest { store self.new ≡ record (store self.old) { moments = (store self.new).moments; faults = (store self.new).faults } }
        ensures cause { IsTold (store self.old).faults (store self.new).faults (fault_in result) }
        ensures refused { IfErr result (λ fault. fault ≡ refusal.Device (store self.new).faults) };

    /// Writes a block of the data area in which no dentries are spelled. After a fault each of its sectors
    /// has its new content or not.
    fn write_block(&mut self, block: u32, bytes: &[u8]) -> Result<(), StoreFault>
        requires there { IsDataBlock (geometry_of_store (store self.old)) block }
        requires sized { length bytes.now ≡ BLOCK }
        requires stamped { stamps → (store self.old).stop ≡ None → MayLeaveWritten allows (store self.old) block bytes.now }
        ensures crash { IsTrue visible → (l : Ledger) → HasLedger (store self.old) l → MayWrite l block bytes.now
            → LeavesOnly keeps (IsLeftBy (store self.old).sectors (written block bytes.now l)) (store self.old).moments (store self.new).moments }
        ensures ok { IsTrue visible → OnOk result ((l : Ledger) → HasLedger (store self.old) l → MayWrite l block bytes.now → HasLedger (store self.new) (written block bytes.now l)) }
        ensures err { IsTrue visible → OnErr result ((l : Ledger) → HasLedger (store self.old) l → MayWrite l block bytes.now
            → IsLedgerOf (store self.new).sectors (store self.new).moments.state (tried block bytes.now (block_at (reads (store self.new).moments) block) l)) }
        ensures rest { store self.new ≡ record (store self.old) { moments = (store self.new).moments; faults = (store self.new).faults; unsettled = (store self.new).unsettled; stop = (store self.new).stop } }
        ensures stopped { (fault : ℕ) → (result ≡ Err (refusal.Stopped fault)) ↔ ((store self.old).stop ≡ Some fault) }
        ensures still { (fault : ℕ) → (store self.old).stop ≡ Some fault → store self.new ≡ store self.old }
        ensures cause { IsTold (store self.old).faults (store self.new).faults (fault_in result) }
        ensures stop { (store self.new).stop ≡ stop_after (store self.old).stop (fault_in result) }
        ensures marked { OnOk result ((store self.new).unsettled ≡ true) }
        ensures unmarked { OnErr result ((store self.new).unsettled ≡ (store self.old).unsettled) }
        ensures refused { IfErr result (λ fault. IsTrue (is_of_disk fault)) };

    /// Waits until all that was written is on the disk for good. Where no block was written since the last
    /// barrier, nothing is done.
    fn settle(&mut self) -> Result<(), StoreFault>
        ensures crash { IsTrue visible → (l : Ledger) → HasLedger (store self.old) l
            → LeavesOnly keeps (IsLeftBy (store self.old).sectors l) (store self.old).moments (store self.new).moments }
        ensures images { IsTrue visible → LeavesOnly keeps (IsImage (store self.old).moments.state) (store self.old).moments (store self.new).moments }
        ensures ok { IsTrue visible → OnOk result ((l : Ledger) → HasLedger (store self.old) l → HasLedger (store self.new) (settled l)) }
        ensures err { IsTrue visible → OnErr result ((l : Ledger) → HasLedger (store self.old) l → IsLedgerOf (store self.new).sectors (store self.new).moments.state l) }
        ensures nothing { (store self.old).unsettled ≡ false → store self.new ≡ store self.old }
        ensures rest { store self.new ≡ record (store self.old) { moments = (store self.new).moments; faults = (store self.new).faults; unsettled = (store self.new).unsettled; stop = (store self.new).stop } }
        ensures stopped { (fault : ℕ) → (result ≡ Err (refusal.Stopped fault)) ↔ ((store self.old).stop ≡ Some fault) }
        ensures still { (fault : ℕ) → (store self.old).stop ≡ Some fault → store self.new ≡ store self.old }
        ensures cause { IsTold (store self.old).faults (store self.new).faults (fault_in result) }
        ensures stop { (store self.new).stop ≡ stop_after (store self.old).stop (fault_in result) }
        ensures settled { OnOk result ((store self.new).unsettled ≡ false) }
        ensures unsettled { OnErr result ((store self.new).unsettled ≡ (store self.old).unsettled) }
        ensures refused { IfErr result (λ fault. IsTrue (is_of_disk fault)) };

    /// Commits what the log has, as one transaction, once all that was written before is on the disk for
    /// good. Where the journal lacks room for it, a checkpoint comes first. Answers the commit number and
    /// empties the log. Where the log is empty, nothing is done, and the number is the last commit's.
    fn commit_names(&mut self, log: &mut NamesLog) -> Result<u64, StoreFault>
        requires in_range { IsTrue (list_all (is_in_range (geometry_of_store (store self.old))) log.old) }
        requires short { sector_count_of log.old < (geometry_of_store (store self.old)).journal }
        requires stamped { stamps → (store self.old).stop ≡ None → log.old ≢ [] → MayLeaveStages allows (store self.old) log.old }
        ensures crash { IsTrue visible → log.old ≢ [] → (l : Ledger) → HasLedger (store self.old) l → MayCommitNext (store self.old) log.old l
            → LeavesOnly keeps (IsLeftByAny (store self.old).sectors (stages (store self.old) log.old l)) (store self.old).moments (store self.new).moments }
        ensures ok { IsTrue visible → log.old ≢ [] → OnOk result ((l : Ledger) → HasLedger (store self.old) l → MayCommitNext (store self.old) log.old l → HasLedger (store self.new) (after_commit (store self.old) log.old l)) }
        ensures device { IsTrue visible → (fault : ℕ) → result ≡ Err (refusal.Device fault) → (l : Ledger) → HasLedger (store self.old) l → MayCommitNext (store self.old) log.old l → HasAny (store self.new) (stages (store self.old) log.old l) }
        ensures memory { IsTrue visible → (w : Lack) → result ≡ Err (refusal.Lack w) → (l : Ledger) → HasLedger (store self.old) l → HasLedger (store self.new) l ⊎ HasLedger (store self.new) (checkpointed (store self.old) l) }
        ensures lack { (w : Lack) → result ≡ Err (refusal.Lack w) → IsLackOf (store self.old) w }
        ensures at_end { log.old ≢ [] → (store self.old).stop ≡ None → (store self.old).journal.number ≡ 2 ^ 64 - 1 → result ≡ Err (refusal.Lack AtEnd) }
        ensures nothing { log.old ≡ [] → store self.new ≡ store self.old }
        ensures done { log.old ≡ [] → (store self.old).stop ≡ None → result ≡ Ok (last_commit (store self.old)) }
        ensures number { IfOk result (λ number. number ≡ last_commit (store self.new)) }
        ensures rises { log.old ≢ [] → OnOk result (last_commit (store self.new) ≡ last_commit (store self.old) + 1) }
        ensures raised { HasRaised 1 1 (store self.old) (store self.new) }
        ensures emptied { OnOk result (log.new ≡ []) }
        ensures kept { OnErr result (log.new ≡ log.old) }
        ensures blocks { (store self.new).unassigned ≡ (store self.old).unassigned }
        ensures geometry { geometry_of_store (store self.new) ≡ geometry_of_store (store self.old) }
        ensures sectors { (store self.new).sectors ≡ (store self.old).sectors }
        ensures stopped { (fault : ℕ) → (result ≡ Err (refusal.Stopped fault)) ↔ ((store self.old).stop ≡ Some fault) }
        ensures still { (fault : ℕ) → (store self.old).stop ≡ Some fault → store self.new ≡ store self.old }
        ensures cause { IsTold (store self.old).faults (store self.new).faults (fault_in result) }
        ensures stop { (store self.new).stop ≡ stop_after (store self.old).stop (fault_in result) }
        ensures settled { log.old ≢ [] → OnOk result ((store self.new).unsettled ≡ false) }
        ensures unset { (store self.old).unsettled ≡ false → (store self.new).unsettled ≡ false }
        ensures refused { IfErr result (λ fault. is_no_space fault ≡ false) };

    /// Commits what changed of a file, whose written blocks are then on the disk for good, and takes the
    /// blocks that it dropped back as unassigned. Answers the commit number and empties the log. Where
    /// nothing is to commit, a barrier is passed if a block was written since the last one, and the number
    /// is the last commit's.
    fn commit_file(&mut self, log: &mut InodeLog, freed: Runs) -> Result<u64, Uncommitted>
        requires inode { is_inode_number (geometry_of_store (store self.old)) log.old.inode ≡ true }
        requires apart { MayReturn (store self.old).unassigned freed }
        requires stamped { stamps → (store self.old).stop ≡ None → log.old.noted ≢ log.old.committed → MayLeaveDelta allows (store self.old) log.old }
        ensures crash { IsTrue visible → (records : List LogRecord) → IsDelta log.old.inode log.old.committed log.old.noted records → log.old.noted ≢ log.old.committed → (l : Ledger) → HasLedger (store self.old) l → MayCommitNext (store self.old) records l
            → LeavesOnly keeps (IsLeftByAny (store self.old).sectors (stages (store self.old) records l)) (store self.old).moments (store self.new).moments }
        ensures ok { IsTrue visible → (records : List LogRecord) → IsDelta log.old.inode log.old.committed log.old.noted records → log.old.noted ≢ log.old.committed
            → OnOk result ((l : Ledger) → HasLedger (store self.old) l → MayCommitNext (store self.old) records l → HasLedger (store self.new) (after_commit (store self.old) records l)) }
        ensures device { IsTrue visible → (records : List LogRecord) → IsDelta log.old.inode log.old.committed log.old.noted records → log.old.noted ≢ log.old.committed
            → (fault : ℕ) → answer_of result ≡ Err (refusal.Device fault) → (l : Ledger) → HasLedger (store self.old) l → MayCommitNext (store self.old) records l → HasAny (store self.new) (stages (store self.old) records l) }
        ensures memory { IsTrue visible → (w : Lack) → answer_of result ≡ Err (refusal.Lack w) → (l : Ledger) → HasLedger (store self.old) l → HasLedger (store self.new) l ⊎ HasLedger (store self.new) (checkpointed (store self.old) l) }
        ensures lack { (w : Lack) → answer_of result ≡ Err (refusal.Lack w) → IsLackOf (store self.old) w }

        // With nothing to commit.
        ensures empty_crash { IsTrue visible → log.old.noted ≡ log.old.committed → (l : Ledger) → HasLedger (store self.old) l
            → LeavesOnly keeps (IsLeftBy (store self.old).sectors l) (store self.old).moments (store self.new).moments }
        ensures empty_images { IsTrue visible → log.old.noted ≡ log.old.committed → LeavesOnly keeps (IsImage (store self.old).moments.state) (store self.old).moments (store self.new).moments }
        ensures empty_ok { IsTrue visible → log.old.noted ≡ log.old.committed → OnOk result ((l : Ledger) → HasLedger (store self.old) l → HasLedger (store self.new) (settled l)) }
        ensures empty_device { IsTrue visible → log.old.noted ≡ log.old.committed → OnErr result ((l : Ledger) → HasLedger (store self.old) l → IsLedgerOf (store self.new).sectors (store self.new).moments.state l) }
        ensures nothing { log.old.noted ≡ log.old.committed → (store self.old).unsettled ≡ false → ((store self.new).moments ≡ (store self.old).moments) × ((store self.new).faults ≡ (store self.old).faults) }
        ensures number { IfOk result (λ number. number ≡ last_commit (store self.new)) }
        ensures rises { log.old.noted ≢ log.old.committed → OnOk result (last_commit (store self.new) ≡ last_commit (store self.old) + 1) }
        ensures stays { log.old.noted ≡ log.old.committed → last_commit (store self.new) ≡ last_commit (store self.old) }
        ensures raised { HasRaised 1 1 (store self.old) (store self.new) }
        ensures emptied { OnOk result (log.new ≡ record log.old { committed = log.old.noted }) }
        ensures kept { OnErr result (log.new ≡ log.old) }
        ensures freed { OnOk result ((store self.new).unassigned ≡ record ((store self.old).unassigned) { free = set.union (store self.old).unassigned.free (set_of freed) }) }
        ensures unfreed { OnErr result ((store self.new).unassigned ≡ (store self.old).unassigned) }
        ensures back { IfErr result (λ refused. refused.freed ≡ freed) }
        ensures geometry { geometry_of_store (store self.new) ≡ geometry_of_store (store self.old) }
        ensures sectors { (store self.new).sectors ≡ (store self.old).sectors }
        ensures stopped { (fault : ℕ) → (answer_of result ≡ Err (refusal.Stopped fault)) ↔ ((store self.old).stop ≡ Some fault) }
        ensures still { (fault : ℕ) → (store self.old).stop ≡ Some fault → store self.new ≡ store self.old }
        ensures cause { IsTold (store self.old).faults (store self.new).faults (fault_in (answer_of result)) }
        ensures stop { (store self.new).stop ≡ stop_after (store self.old).stop (fault_in (answer_of result)) }
        ensures settled { OnOk result ((store self.new).unsettled ≡ false) }
        ensures unset { (store self.old).unsettled ≡ false → (store self.new).unsettled ≡ false }
        ensures idle { log.old.noted ≡ log.old.committed → (store self.old).unsettled ≡ false
            → store self.new ≡ record (store self.old) { unassigned = (store self.new).unassigned } }
        ensures refused { IfErr result (λ refused. is_no_space refused.fault ≡ false) };

    /// The pool gets the lowest unassigned blocks: those that are missing and 64 more, or all that there
    /// are. Makes no call of the disk and takes no memory.
    fn give_pool(&mut self, pool: &mut Pool, missing: u32) -> Result<(), StoreFault>
        requires apart { AreApart pool.old (store self.old).unassigned.free }
        ensures ok { OnOk result (MovesLowest (missing + 64) (store self.old).unassigned.free (store self.new).unassigned.free pool.old pool.new) }
        ensures rest { store self.new ≡ record (store self.old) { unassigned = record ((store self.old).unassigned) { free = (store self.new).unassigned.free } } }
        ensures no_space { (set.len (store self.old).unassigned.free < missing) ↔ (result ≡ Err (refusal.NoSpace missing (set.len (store self.old).unassigned.free))) }
        ensures refused { IfErr result (λ fault. IsTrue (is_no_space fault)) }
        ensures told { IfErr result (λ fault. fault ≡ refusal.NoSpace missing (set.len (store self.old).unassigned.free)) }
        ensures kept { OnErr result ((store self.new ≡ store self.old) × (pool.new ≡ pool.old)) };

    /// Every block of the pool is unassigned again. Makes no call of the disk and takes no memory.
    fn take_back(&mut self, pool: &mut Pool)
        requires inside { AreInside (store self.old).unassigned pool.old }
        requires apart { AreApart pool.old (store self.old).unassigned.free }
        ensures back { store self.new ≡ record (store self.old) { unassigned = record ((store self.old).unassigned) { free = set.union (store self.old).unassigned.free pool.old } } }
        ensures none { pool.new ≡ set.empty };

    /// Writes home all that is committed, and begins the next epoch with the whole journal.
    fn checkpoint(&mut self) -> Result<(), StoreFault>
        requires stamped { stamps → (store self.old).stop ≡ None → MayLeaveHome allows (store self.old) }
        ensures crash { IsTrue visible → (l : Ledger) → HasLedger (store self.old) l
            → LeavesOnly keeps (IsLeftByAny (store self.old).sectors (l ∷ beginning_next (store self.old) l ∷ [])) (store self.old).moments (store self.new).moments }
        ensures ok { IsTrue visible → OnOk result ((l : Ledger) → HasLedger (store self.old) l → HasLedger (store self.new) (checkpointed (store self.old) l)) }
        ensures device { IsTrue visible → (fault : ℕ) → result ≡ Err (refusal.Device fault) → (l : Ledger) → HasLedger (store self.old) l → HasAny (store self.new) (l ∷ beginning_next (store self.old) l ∷ []) }
        ensures room { OnOk result ((store self.new).journal.used ≡ 0) }
        ensures memory { (w : Lack) → result ≡ Err (refusal.Lack w) → store self.new ≡ store self.old }
        ensures lack { (w : Lack) → result ≡ Err (refusal.Lack w) → IsLackOf (store self.old) w }
        ensures at_end { (store self.old).stop ≡ None → (store self.old).superblock.epoch ≡ 2 ^ 64 - 1 → result ≡ Err (refusal.Lack AtEnd) }
        ensures number { last_commit (store self.new) ≡ last_commit (store self.old) }
        ensures begun { OnOk result ((store self.new).superblock ≡ next_superblock (store self.old)) }
        ensures unbegun { OnErr result ((store self.new).superblock ≡ (store self.old).superblock) }
        ensures raised { HasRaised 1 0 (store self.old) (store self.new) }
        ensures blocks { (store self.new).unassigned ≡ (store self.old).unassigned }
        ensures geometry { geometry_of_store (store self.new) ≡ geometry_of_store (store self.old) }
        ensures sectors { (store self.new).sectors ≡ (store self.old).sectors }
        ensures stopped { (fault : ℕ) → (result ≡ Err (refusal.Stopped fault)) ↔ ((store self.old).stop ≡ Some fault) }
        ensures still { (fault : ℕ) → (store self.old).stop ≡ Some fault → store self.new ≡ store self.old }
        ensures cause { IsTold (store self.old).faults (store self.new).faults (fault_in result) }
        ensures stop { (store self.new).stop ≡ stop_after (store self.old).stop (fault_in result) }
        ensures settled { OnOk result ((store self.new).unsettled ≡ false) }
        ensures unsettled { OnErr result ((store self.new).unsettled ≡ (store self.old).unsettled) }
        ensures refused { IfErr result (λ fault. is_no_space fault ≡ false) };

    /// Whatever a crash leaves in a sector is 512 bytes.
    ghost whole: { IsTrue visible → (door : Self) → IsWhole (store door).sectors (store door).moments.state };

    /// Only a door whose contracts see what the disk holds stamps its calls.
    ghost sees: { stamps → IsTrue visible };
}
