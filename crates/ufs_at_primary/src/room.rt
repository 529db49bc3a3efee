// Room before a request: the names are committed before their notes fill the journal, and what was dropped comes back where blocks are
// wanting.
ghost use Rattle.std.specs.Prelude.{ℕ, ◌≡◌, ◌<◌, ◌≤◌, ◌^◌, length, true};
ghost use Rattle.ufs_bitmap.specs.Blocks.{BlockSet};
ghost use Rattle.ufs_crash_laws.specs.Changes.{asks_commit};
ghost use Rattle.ufs_joint.specs.Cells.{FileCell};
ghost use Rattle.ufs_joint.specs.FirstHand.{HasPoolAlone, pool_of};
ghost use Rattle.ufs_held_names.specs.SyncAll.{AreAllLive};
ghost use Rattle.ufs_layout.specs.Areas.{IsGeometry};
ghost use Rattle.ufs_hand_laws.specs.Owned.{Has};
ghost use Rattle.ufs_at_primary.specs.Room.{AreAllTidied};

use crate::naming::FOR_A_NAME;
use crate::stock::Stock;
use ufs_base::{Lack, Memory};
use ufs_held::{HeldFile, see_files};
use ufs_held_names::HeldNames;
use ufs_joint::{Hand, HandTable, Naming};
use ufs_layout::Geometry;
use ufs_model::{Ask, Op};
use ufs_msg::Request;
use ufs_owner::no_file_is_out;
use ufs_serving::{fill, measured, rest};
use ufs_store::StoreFault;
use ufs_turns::Turns;

// Whether it asks for a commit.
pub(crate) fn commits(op: &Op) -> bool
    ensures { result ≡ asks_commit op.now }
{
    match op {
        Op::Fsync { .. } | Op::Sync => true,
        _ => false,
    }
}

// By how many blocks the request would lengthen the file. None that asks for a commit lengthens it.
fn wanted_with<N: Naming>(held: HeldFile<N>, ask: &Ask) -> (HeldFile<N>, u32)
    ensures file { result.0 ≡ held }
    ensures none { asks_commit ask.now.op ≡ true → result.1 ≡ 0 }
{
    if commits(&ask.op) {
        return (held, 0);
    }
    match ask.desc {
        Some(desc) => measured(held, &ask.op, desc),
        None => (held, 0),
    }
}

fn measure_with<N: Naming>(held: HeldFile<N>, request: Request<N>) -> (HeldFile<N>, Request<N>, u32)
    ensures file { result.0 ≡ held }
    ensures request { result.1 ≡ request }
    ensures none { asks_commit request.ask.op ≡ true → result.2 ≡ 0 }
{
    let (hand, ask, leases_back) = request.into_parts();
    let (held, wanted) = wanted_with(held, &ask);
    (held, Request::new(hand, ask, leases_back), wanted)
}

// Commits the names and each of these files, which are all, and makes a checkpoint behind which what was dropped is unassigned.
fn tidy_all<N: Naming, T: Turns<N>>(
    table: &HandTable<N>,
    names: &mut HeldNames<N>,
    geometry: &Geometry,
    files: &mut [HeldFile<N>],
    right: &mut Hand<N>,
    door: &mut T,
)
    requires formed { IsGeometry geometry.now }
    requires its { geometry.now ≡ N.start.geometry }
    requires pool { (pool : BlockSet) × HasPoolAlone (pool_of 0) pool right.old }
    requires all { AreAllLive names.old.value files.old }
    requires low { (c : FileCell) → Has c files.old → c.value.file.file < 2 ^ 31 }
    ensures pool { (pool : BlockSet) → HasPoolAlone (pool_of 0) pool right.old → HasPoolAlone (pool_of 0) pool right.new }
    ensures tidied { AreAllTidied N.start.is_visible (T.tells door.old) (T.tells door.new) names.old names.new files.old files.new }
{
    if let Err(_told) = names.commit_all(table, files, right, door, geometry) {
        return;
    }
    // That the disk fails the store tells those that ask for a commit.
    let _ = names.reclaim(table, files, right, door);
}

fn tidy_lent<N: Naming, T: Turns<N>>(
    table: &HandTable<N>,
    names: &mut HeldNames<N>,
    geometry: &Geometry,
    files: &mut Vec<HeldFile<N>>,
    right: &mut Hand<N>,
    door: &mut T,
)
    requires formed { IsGeometry geometry.now }
    requires its { geometry.now ≡ N.start.geometry }
    requires pool { (pool : BlockSet) × HasPoolAlone (pool_of 0) pool right.old }
    requires all { AreAllLive names.old.value files.old.items }
    requires low { (c : FileCell) → Has c files.old.items → c.value.file.file < 2 ^ 31 }
    ensures pool { (pool : BlockSet) → HasPoolAlone (pool_of 0) pool right.old → HasPoolAlone (pool_of 0) pool right.new }
    ensures tidied { AreAllTidied N.start.is_visible (T.tells door.old) (T.tells door.new) names.old names.new files.old.items files.new.items }
    ensures few { length files.old.items ≤ N.start.geometry.inodes }
{
    let slice = files.as_mut_slice();
    // For the prover alone: a commit of each of them raises the store's numbers by no more than there are inodes.
    see_files(table, slice, right);
    tidy_all(table, names, geometry, slice, right, door);
}

// Only that memory is wanting is told who asks for no commit.
fn told_memory(fault: StoreFault) -> Result<(), Memory> {
    match fault {
        StoreFault::Lack(Lack::Memory(memory)) => Err(memory),
        _ => Ok(()),
    }
}

impl<N: Naming> Stock<N> {
    ghost use Rattle.std.specs.Prelude.{◌≡◌, ◌<◌, ◌+◌, ◌/◌, ◌⊎◌, IsSome, None, OnErr, OnOk, is_some, true};
    ghost use Rattle.ufs_crash_laws.specs.Changes.{asks_commit};
    ghost use Rattle.ufs_held.specs.Stopping.{Raises, Rests};
    ghost use Rattle.ufs_held_names.specs.HeldNames.{AreCommitted};
    ghost use Rattle.ufs_home.specs.Places.{file_here};
    ghost use Rattle.ufs_ilog.specs.Notes.{sectors_noted};
    ghost use Rattle.ufs_serving.specs.Pools.{AreConserved};
    ghost use Rattle.ufs_store.specs.Refusals.{fault_in};
    ghost use Rattle.ufs_turns.specs.Lent.{AreTold, Runs, StopsByFault};
    ghost use Rattle.ufs_at_primary.specs.Room.{HasNoneDropped, IsRoomMade, IsTidied};

    /// Makes room for a request of the names, so that it is served with what there is. Where their notes take half the journal or more,
    /// they are committed; that the disk fails is told by no answer, as the store stops then. And where it may want more blocks than there
    /// are and some were dropped, everything is committed and a checkpoint made, behind which these are unassigned; that memory is wanting
    /// for it, or that the disk fails, is told by no answer. Answers the want of memory by which the names couldn't be committed.
    pub(crate) fn make_room<T: Turns<N>>(
        &mut self,
        table: &HandTable<N>,
        door: &mut T,
    ) -> Result<(), Memory>
        ensures made { IsRoomMade N.start.is_visible (T.tells door.old) (T.tells door.new) self.old self.new }
        ensures idle { sectors_noted self.old.names.value.tree.noted < N.start.geometry.journal / 2 → HasNoneDropped self.old → (self.new ≡ self.old) × (T.tells door.new ≡ T.tells door.old) }
        ensures raised { Raises (T.tells door.old) (T.tells door.new) (N.start.geometry.inodes + 3) }
    {
        if let Err(fault) = self.commit_crowded(table, door) {
            return told_memory(fault);
        }
        self.make_space(table, FOR_A_NAME, door);
        Ok(())
    }

    // Commits the names where their notes take half the journal or more.
    fn commit_crowded<T: Turns<N>>(
        &mut self,
        table: &HandTable<N>,
        door: &mut T,
    ) -> Result<(), StoreFault>
        ensures names { OnOk result ((self.new.names ≡ self.old.names) ⊎ AreCommitted N.start.is_visible self.old.names self.new.names) }
        ensures kept { OnErr result (self.new ≡ self.old) }
        ensures rest { self.new ≡ record self.old { names = self.new.names } }
        ensures free { AreTold (T.tells door.old) (T.tells door.new) (λ had has. has ≡ had) }
        ensures telling { is_some (T.tells door.new) ≡ is_some (T.tells door.old) }
        ensures halts { StopsByFault (T.tells door.old) (T.tells door.new) (fault_in result) }
        ensures ran { Runs (T.tells door.old) (T.tells door.new) (fault_in result) 1 1 }
        ensures idle { sectors_noted self.old.names.value.tree.noted < N.start.geometry.journal / 2 → (self.new ≡ self.old) × (T.tells door.new ≡ T.tells door.old) }
    {
        if !self.names.is_crowded(self.geometry.journal) {
            return Ok(());
        }
        self.names.commit(table, &mut self.right, door)
    }

    /// By how many blocks the request would lengthen the file, which is here; none where memory is wanting to tell.
    pub(crate) fn measure(&mut self, file: u32, request: Request<N>) -> (Request<N>, u32)
        requires here { IsSome (file_here self.old.home.places file) }
        ensures request { result.0 ≡ request }
        ensures none { asks_commit request.ask.op ≡ true → result.1 ≡ 0 }
        ensures same { self.new ≡ self.old }
    {
        let held = match self.home.lend(file) {
            Ok(held) => held,
            Err(_memory) => return (request, 0),
        };
        let (held, request, wanted) = measure_with(held, request);
        self.home.put_back(held);
        (request, wanted)
    }

    // Whether fewer blocks are there than are wanted.
    fn is_short<T: Turns<N>>(&mut self, wanted: u32, door: &mut T) -> bool
        ensures rest { self.new ≡ record self.old { pool = self.new.pool } }
        ensures conserved { AreConserved (T.tells door.old) (T.tells door.new) self.old.pool self.new.pool }
        ensures telling { is_some (T.tells door.new) ≡ is_some (T.tells door.old) }
        ensures still { Rests (T.tells door.old) (T.tells door.new) None }
    {
        fill(&mut self.right, &mut self.pool, door, wanted);
        let short = self.pool.count() < wanted;
        rest(&mut self.right, &mut self.pool, door);
        short
    }

    /// What was dropped comes back, where fewer blocks are there than are wanted.
    pub(crate) fn make_space<T: Turns<N>>(
        &mut self,
        table: &HandTable<N>,
        wanted: u32,
        door: &mut T,
    )
        ensures made { IsTidied 0 N.start.is_visible (T.tells door.old) (T.tells door.new) self.old self.new }
        ensures idle { HasNoneDropped self.old → (self.new ≡ self.old) × (T.tells door.new ≡ T.tells door.old) }
        ensures spared { wanted ≡ 0 → (self.new ≡ self.old) × (T.tells door.new ≡ T.tells door.old) }
        ensures raised { Raises (T.tells door.old) (T.tells door.new) (N.start.geometry.inodes + 2) }
    {
        if wanted == 0 {
            return;
        }
        if !self.names.has_dropped() {
            return;
        }
        if !self.is_short(wanted, door) {
            return;
        }
        self.reclaim(table, door);
    }

    // Where all files are here, commits everything, and makes a checkpoint.
    fn reclaim<T: Turns<N>>(&mut self, table: &HandTable<N>, door: &mut T)
        ensures made { IsTidied 0 N.start.is_visible (T.tells door.old) (T.tells door.new) self.old self.new }
        // no more files are committed than there are inodes
        ensures raised { Raises (T.tells door.old) (T.tells door.new) (N.start.geometry.inodes + 2) }
    {
        no_file_is_out();
        if let Some(_file) = self.home.some_out() {
            return;
        }
        let mut files = match self.home.lend_all() {
            Ok(files) => files,
            Err(_memory) => return,
        };
        tidy_lent(
            table,
            &mut self.names,
            &self.geometry,
            &mut files,
            &mut self.right,
            door,
        );
        self.home.put_back_all(files);
    }
}
