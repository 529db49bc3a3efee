// An `fsync` of a file, with the names committed first.
ghost use Rattle.std.specs.Prelude.{ℕ, List, ◌≡◌, ◌≢◌, ◌++◌, [], true, Some};
ghost use Rattle.ufs_bitmap.specs.Blocks.{BlockSet};
ghost use Rattle.ufs_file.specs.Hand.{IsOf};
ghost use Rattle.ufs_layout.specs.Areas.{IsGeometry};
ghost use Rattle.ufs_model.specs.declared.data.Excuse.TheVariants as excuse;
ghost use Rattle.ufs_model.specs.declared.data.Op.TheVariants as op;
ghost use Rattle.ufs_hand_laws.specs.Parts.{ClientPart};
ghost use Rattle.ufs_joint.specs.NamesTurns.{live_files};
ghost use Rattle.ufs_joint.specs.Servers.{IsServer};
ghost use Rattle.ufs_held.specs.Asking.{Asks, IsGuest, faults_of, is_of_turn};
ghost use Rattle.ufs_held_names.specs.Births.{KnowsBirths};
ghost use Rattle.ufs_held_names.specs.HeldNames.{HoldsNames, first_names};
ghost use Rattle.ufs_held_names.specs.Synced.{HasSynced, HasTried, IsExcusedBy};

use crate::commits::{commit_lent, tell_committed};
use crate::held_names::FileSynced;
use ufs_held::{HeldFile, Served, draw_reply, excuse_of};
use ufs_joint::{Hand, HandTable, Naming, an_excuse_is_drawn};
use ufs_layout::Geometry;
use ufs_model::{Actor, Ask, Excuse, PartName, Reply, a_file_goes_on_by_itself};
use ufs_noted::NotedNames;
use ufs_turns::Turns;

pub(crate) fn fsync_lent<N: Naming, T: Turns<N>>(
    table: &HandTable<N>,
    right: &mut Hand<N>,
    noted: &mut NotedNames,
    reached: &mut u32,
    ask: Ask,
    mut guest: Hand<N>,
    by: Actor,
    file: HeldFile<N>,
    door: &mut T,
    geometry: &Geometry,
) -> FileSynced<N>
    requires formed { IsGeometry geometry.now }
    requires its { geometry.now ≡ N.start.geometry }
    requires held { HoldsNames noted.old right.old }
    requires calm { right.old.faults ≡ [] }
    requires births { KnowsBirths reached.old (first_names noted.old right.old.names) }
    requires guest { (part : ClientPart) × (n : ℕ) × (pool : BlockSet) × IsGuest ask.client part n pool guest × Asks part ask × (n ≢ file.value.file.file) }
    requires server { IsServer by }
    requires fsync { (fd : ℕ) × (ask.op ≡ op.Fsync fd) }
    requires named { IsOf ask.desc file.value.file.file }
    ensures held { HoldsNames noted.new right.new }
    ensures calm { right.new.faults ≡ [] }
    ensures births { KnowsBirths reached.new (first_names noted.new right.new.names) }
    ensures synced { HasSynced N.start.is_visible ask by (first_names noted.old right.old.names) (first_names noted.new right.new.names) (T.tells door.old) (T.tells door.new) file result.file result.entry result.desc guest result.guest }
{
    match commit_lent(table, right, noted, reached, &mut guest, door) {
        Ok(()) => sync_born(table, right, noted, ask, guest, by, file, door, geometry),
        Err(fault) => {
            let cause = excuse_of(fault);
            excuse_file(table, ask, guest, by, file, cause)
        }
    }
}

// The names were committed: the file is told its birth, and is committed.
fn sync_born<N: Naming, T: Turns<N>>(
    table: &HandTable<N>,
    right: &mut Hand<N>,
    noted: &NotedNames,
    ask: Ask,
    guest: Hand<N>,
    by: Actor,
    mut file: HeldFile<N>,
    door: &mut T,
    geometry: &Geometry,
) -> FileSynced<N>
    requires formed { IsGeometry geometry.now }
    requires its { geometry.now ≡ N.start.geometry }
    requires held { HoldsNames noted.now right.old }
    requires calm { right.old.faults ≡ [] }
    requires all { (first_names noted.now right.old.names).named ≡ live_files noted.now.names }
    requires guest { (part : ClientPart) × (n : ℕ) × (pool : BlockSet) × IsGuest ask.client part n pool guest × Asks part ask × (n ≢ file.value.file.file) }
    requires server { IsServer by }
    requires fsync { (fd : ℕ) × (ask.op ≡ op.Fsync fd) }
    requires named { IsOf ask.desc file.value.file.file }
    ensures held { HoldsNames noted.now right.new }
    ensures calm { right.new.faults ≡ [] }
    ensures same { first_names noted.now right.new.names ≡ first_names noted.now right.old.names }
    ensures tried { HasTried N.start.is_visible ask by (T.tells door.old) (T.tells door.new) file result.file result.entry result.desc guest result.guest }
{
    tell_committed(table, right, noted, &mut file, geometry);
    let Served { entry, desc, guest } = file.sync(table, ask, guest, by, door);
    FileSynced {
        entry,
        desc,
        guest,
        file,
    }
}

// Draws the entry with the excuse, by a hand that has the file meanwhile. The file is as it was.
fn excuse_file<N: Naming>(
    table: &HandTable<N>,
    ask: Ask,
    mut guest: Hand<N>,
    by: Actor,
    file: HeldFile<N>,
    cause: Excuse,
) -> FileSynced<N>
    requires guest { (part : ClientPart) × (n : ℕ) × (pool : BlockSet) × IsGuest ask.client part n pool guest × Asks part ask × (n ≢ file.value.file.file) }
    requires server { IsServer by }
    requires fsync { (fd : ℕ) × (ask.op ≡ op.Fsync fd) }
    requires named { IsOf ask.desc file.value.file.file }
    requires kind { is_of_turn cause ≡ true }
    requires told { (rest : List ℕ) × (guest.faults ≡ faults_of cause ++ rest) }
    requires stopped { (fault : ℕ) → cause ≡ excuse.Stopped fault → guest.stop ≡ Some fault }
    requires committed { (fault : ℕ) → cause ≡ excuse.Device fault → guest.stop ≡ Some fault }
    ensures excused { IsExcusedBy cause ask by file result.file result.entry result.desc guest result.guest }
{
    a_file_goes_on_by_itself();
    an_excuse_is_drawn();
    let (hand, commits, own) = file.into_parts();
    guest.join(table, own);
    let desc = ask.desc;
    let entry = draw_reply(table, &mut guest, ask, by, Reply::Excused(cause));
    let right = guest.split(table, PartName::File(hand.file()));
    let file = HeldFile::new(hand, commits, right);
    FileSynced {
        entry,
        desc,
        guest,
        file,
    }
}
