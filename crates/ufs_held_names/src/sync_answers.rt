// A `sync` is answered, by a guest that has the names and every live file meanwhile.
ghost use Rattle.std.specs.Prelude.{ℕ, ◌≡◌, eqb, []};
ghost use Rattle.ufs_bitmap.specs.Blocks.{BlockSet};
ghost use Rattle.ufs_layout.specs.Areas.{IsGeometry};
ghost use Rattle.ufs_hand_laws.specs.Owned.{count};
ghost use Rattle.ufs_hand_laws.specs.Parts.{ClientPart};
ghost use Rattle.ufs_joint.specs.Servers.{IsServer};
ghost use Rattle.ufs_held.specs.Asking.{IsGuest};
ghost use Rattle.ufs_held.specs.Together.{under_numbers};
ghost use Rattle.ufs_held_names.specs.Dirs.{IsAnsweredBy};
ghost use Rattle.ufs_held_names.specs.HeldNames.{HoldsNames, first_names};
ghost use Rattle.ufs_held_names.specs.SyncAll.{AreAllLive, AsksSync, MayAnswerAll};

use crate::held_names::NamesSynced;
use ufs_held::{HeldFile, draw_with_files, entry_at, reply_to};
use ufs_joint::{Hand, HandTable, Naming, a_sync_is_acknowledged, draw_law};
use ufs_layout::Geometry;
use ufs_model::{Actor, Ask, PartName, Reply};
use ufs_noted::NotedNames;

// Draws the entry, with this reply.
pub(crate) fn answer_all<N: Naming>(
    table: &HandTable<N>,
    right: &mut Hand<N>,
    noted: &NotedNames,
    files: &mut [HeldFile<N>],
    ask: Ask,
    mut guest: Hand<N>,
    by: Actor,
    reply: Reply,
    geometry: &Geometry,
) -> NamesSynced<N>
    requires formed { IsGeometry geometry.now }
    requires its { geometry.now ≡ N.start.geometry }
    requires held { HoldsNames noted.now right.old }
    requires calm { right.old.faults ≡ [] }
    requires guest { (part : ClientPart) × (n : ℕ) × (pool : BlockSet) × IsGuest ask.client part n pool guest × AsksSync part ask × (count eqb n (under_numbers files.old) ≡ 0) }
    requires server { IsServer by }
    requires all { AreAllLive noted.now.names files.old }
    requires may { MayAnswerAll N.start.is_visible (first_names noted.now right.old.names) files.old guest reply }
    ensures held { HoldsNames noted.now right.new }
    ensures calm { right.new.faults ≡ [] }
    ensures same { first_names noted.now right.new.names ≡ first_names noted.now right.old.names }
    ensures files { files.new ≡ files.old }
    ensures answered { IsAnsweredBy reply ask by result.entry guest result.guest }
{
    // For the prover alone.
    let _ = noted;
    a_sync_is_acknowledged(geometry);
    draw_law();
    let own = right.split(table, PartName::Names);
    guest.join(table, own);
    let fresh = reply_to(ask, by, reply);
    let ticket = draw_with_files(table, files, &mut guest, &fresh);
    let entry = entry_at(ticket, fresh);
    let own = guest.split(table, PartName::Names);
    right.join(table, own);
    NamesSynced { entry, guest }
}
