// An `fsync` of a directory: the names are committed, and it is acknowledged or excused.
ghost use Rattle.std.specs.Prelude.{ℕ, ◌≡◌, []};
ghost use Rattle.ufs_bitmap.specs.Blocks.{BlockSet};
ghost use Rattle.ufs_hand_laws.specs.Parts.{ClientPart};
ghost use Rattle.ufs_joint.specs.Servers.{IsServer};
ghost use Rattle.ufs_held.specs.Asking.{IsGuest};
ghost use Rattle.ufs_held_names.specs.Dirs.{AsksDir, HasSyncedDir, IsAnsweredBy, MayAnswer};
ghost use Rattle.ufs_held_names.specs.Births.{KnowsBirths};
ghost use Rattle.ufs_held_names.specs.HeldNames.{HoldsNames, first_names};

use crate::commits::commit_lent;
use crate::held_names::NamesSynced;
use ufs_held::{draw_reply, excuse_of};
use ufs_joint::{Hand, HandTable, Naming, a_directory_is_acknowledged, a_names_excuse_is_drawn};
use ufs_model::{Actor, Ask, PartName, Reply};
use ufs_noted::NotedNames;
use ufs_turns::Turns;

pub(crate) fn fsync_dir_lent<N: Naming, T: Turns<N>>(
    table: &HandTable<N>,
    right: &mut Hand<N>,
    noted: &mut NotedNames,
    reached: &mut u32,
    ask: Ask,
    mut guest: Hand<N>,
    by: Actor,
    door: &mut T,
) -> NamesSynced<N>
    requires held { HoldsNames noted.old right.old }
    requires calm { right.old.faults ≡ [] }
    requires births { KnowsBirths reached.old (first_names noted.old right.old.names) }
    requires guest { (part : ClientPart) × (n : ℕ) × (pool : BlockSet) × IsGuest ask.client part n pool guest × AsksDir part ask }
    requires server { IsServer by }
    ensures held { HoldsNames noted.new right.new }
    ensures calm { right.new.faults ≡ [] }
    ensures births { KnowsBirths reached.new (first_names noted.new right.new.names) }
    ensures synced { HasSyncedDir N.start.is_visible ask by (first_names noted.old right.old.names) (first_names noted.new right.new.names) (T.tells door.old) (T.tells door.new) result.entry guest result.guest }
{
    match commit_lent(table, right, noted, reached, &mut guest, door) {
        Ok(()) => answer(table, right, noted, ask, guest, by, Reply::Done),
        Err(fault) => {
            let cause = excuse_of(fault);
            answer(table, right, noted, ask, guest, by, Reply::Excused(cause))
        }
    }
}

// Draws the entry, with this reply, by a hand that has the names meanwhile.
fn answer<N: Naming>(
    table: &HandTable<N>,
    right: &mut Hand<N>,
    noted: &NotedNames,
    ask: Ask,
    mut guest: Hand<N>,
    by: Actor,
    reply: Reply,
) -> NamesSynced<N>
    requires held { HoldsNames noted.now right.old }
    requires calm { right.old.faults ≡ [] }
    requires guest { (part : ClientPart) × (n : ℕ) × (pool : BlockSet) × IsGuest ask.client part n pool guest × AsksDir part ask }
    requires server { IsServer by }
    requires may { MayAnswer N.start.is_visible (first_names noted.now right.old.names) guest reply }
    ensures held { HoldsNames noted.now right.new }
    ensures calm { right.new.faults ≡ [] }
    ensures same { first_names noted.now right.new.names ≡ first_names noted.now right.old.names }
    ensures answered { IsAnsweredBy reply ask by result.entry guest result.guest }
{
    // For the prover alone.
    let _ = noted;
    a_directory_is_acknowledged();
    a_names_excuse_is_drawn();
    let own = right.split(table, PartName::Names);
    guest.join(table, own);
    let entry = draw_reply(table, &mut guest, ask, by, reply);
    let own = guest.split(table, PartName::Names);
    right.join(table, own);
    NamesSynced { entry, guest }
}
