// A request of the names, with the one file that it touches.
ghost use Rattle.std.specs.Prelude.{◌≡◌, ◌<◌, ◌≤◌, ◌^◌, is_some};
ghost use Rattle.std.specs.FinSet as set;
ghost use Rattle.ufs_file.specs.Hand.{IsEntryOf};
ghost use Rattle.ufs_joint.specs.FirstHand.{HasPoolAlone};
ghost use Rattle.ufs_held_names.specs.Asked.{IsNamedApart, IsNeeded, number_of};
ghost use Rattle.ufs_held_names.specs.Asking.{AsksNames, IsAnsweredNames};
ghost use Rattle.ufs_layout.specs.Areas.{IsGeometry};
ghost use Rattle.ufs_model.specs.declared.data.Actor.TheVariants.{Primary};
ghost use Rattle.ufs_msg.specs.Requests.{HasClientAlone};
ghost use Rattle.ufs_at_primary.specs.Named.{IsDoneByNames};
ghost use Rattle.ufs_serving.specs.Pools.{most_at_rest};
ghost use Rattle.ufs_hand_laws.specs.Parts.{ClientPart};

use ufs_bitmap::Pool;
use ufs_held::HeldFile;
use ufs_held_names::{HeldNames, NamesServed};
use ufs_joint::{Hand, HandTable, Naming};
use ufs_layout::Geometry;
use ufs_model::{Actor, Ask};
use ufs_serving::{fill, lend_pool, rest, take_pool};
use ufs_turns::Turns;

// How many blocks a new name wants, at most.
pub(crate) const FOR_A_NAME: u32 = 1;

/// Serves it with the primary's pool, which has this number and gets the block that a new name may want. The client's hand comes back
/// alone.
pub(crate) fn serve_names<N: Naming, T: Turns<N>>(
    table: &HandTable<N>,
    names: &mut HeldNames<N>,
    geometry: &Geometry,
    file: Option<HeldFile<N>>,
    ask: Ask,
    client: Hand<N>,
    number: u32,
    pool: &mut Pool,
    right: &mut Hand<N>,
    door: &mut T,
) -> NamesServed<N>
    requires formed { IsGeometry geometry.now }
    requires its { geometry.now ≡ N.start.geometry }
    requires pool { HasPoolAlone number pool.old right.old }
    requires asked { (part : ClientPart) × HasClientAlone ask.client part client × AsksNames part ask }
    requires apart { IsNamedApart number names.old.value.next file }
    requires numbers { names.old.value.next < 2 ^ 31 }
    requires needed { IsNeeded names.old.value ask (number_of file) }
    ensures pool { HasPoolAlone number pool.new right.new }
    ensures few { set.len pool.new ≤ most_at_rest }
    ensures entry { IsEntryOf ask Primary result.entry.ticket result.entry }
    ensures client { (part : ClientPart) → HasClientAlone ask.client part client → (after : ClientPart) × IsAnsweredNames part result.entry result.desc after × HasClientAlone ask.client after result.guest }
    ensures done { IsDoneByNames (T.tells door.old) (T.tells door.new) names.old names.new file result.file result.made pool.old pool.new ask result.entry result.desc }
    ensures later { client.seen ≤ result.entry.ticket }
    ensures seen { result.entry.ticket < result.guest.seen }
    ensures telling { is_some (T.tells door.new) ≡ is_some (T.tells door.old) }
{
    fill(right, pool, door, FOR_A_NAME);
    let guest = lend_pool(table, right, client);
    let NamesServed {
        entry,
        desc,
        guest,
        file,
        made,
    } = names.serve(table, ask, guest, Actor::Primary, pool, file, geometry);
    let guest = take_pool(table, right, guest, number);
    rest(right, pool, door);
    NamesServed {
        entry,
        desc,
        guest,
        file,
        made,
    }
}
