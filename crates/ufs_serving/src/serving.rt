// A request that commits nothing, on a file that a server has.
ghost use Rattle.std.specs.Prelude.{◌≡◌, ◌≢◌, ◌<◌, ◌≤◌, IsSome, false, is_some};
ghost use Rattle.std.specs.FinSet as set;
ghost use Rattle.ufs_file.specs.Hand.{IsEntryOf, IsOf};
ghost use Rattle.ufs_held.specs.Asking.{Asks, IsAnswered};
ghost use Rattle.ufs_model.specs.Bounds.{IsBounded};
ghost use Rattle.ufs_msg.specs.Requests.{HasClientAlone};
ghost use Rattle.ufs_crash_laws.specs.Changes.{asks_commit};
ghost use Rattle.ufs_hand_laws.specs.Parts.{ClientPart};
ghost use Rattle.ufs_joint.specs.FirstHand.{HasPoolAlone};
ghost use Rattle.ufs_joint.specs.Servers.{IsServer};
ghost use Rattle.ufs_serving.specs.Pools.{most_at_rest};
ghost use Rattle.ufs_serving.specs.Serving.{IsServedAt};

use crate::measure::measured;
use crate::pool::{fill, lend_pool, rest, take_pool};
use ufs_bitmap::Pool;
use ufs_held::{HeldFile, Served};
use ufs_joint::{Hand, HandTable, Naming};
use ufs_model::{Actor, Ask};
use ufs_turns::Turns;

/// Serves it with the server's pool, which has this number and gets the blocks that are missing first. The client's hand comes back alone.
pub fn serve_change<N: Naming, T: Turns<N>>(
    table: &HandTable<N>,
    held: HeldFile<N>,
    ask: Ask,
    client: Hand<N>,
    by: Actor,
    number: u32,
    pool: &mut Pool,
    right: &mut Hand<N>,
    door: &mut T,
) -> (HeldFile<N>, Served<N>)
    requires pool { HasPoolAlone number pool.old right.old }
    requires asked { (part : ClientPart) × HasClientAlone ask.client part client × Asks part ask }
    requires server { IsServer by }
    requires no_commit { asks_commit ask.op ≡ false }
    requires bounded { IsBounded ask.op }
    requires named { IsOf ask.desc held.value.file.file }
    requires apart { number ≢ held.value.file.file }
    ensures pool { HasPoolAlone number pool.new right.new }
    ensures few { set.len pool.new ≤ most_at_rest }
    ensures entry { IsEntryOf ask by result.1.entry.ticket result.1.entry }
    ensures client { (part : ClientPart) → HasClientAlone ask.client part client → (after : ClientPart) × IsAnswered part result.1.entry result.1.desc after × HasClientAlone ask.client after result.1.guest }
    ensures desc { IsSome result.1.desc }
    ensures done { IsServedAt (T.tells door.old) (T.tells door.new) held result.0 pool.old pool.new ask result.1.entry result.1.desc }
    ensures number { result.0.value.file.file ≡ held.value.file.file }
    ensures born { result.0.born ≡ held.born }
    ensures later { client.seen ≤ result.1.entry.ticket }
    ensures seen { result.1.entry.ticket < result.1.guest.seen }
    ensures telling { is_some (T.tells door.new) ≡ is_some (T.tells door.old) }
{
    let Some(desc) = ask.desc else { unreachable!() };
    let (mut held, wanted) = measured(held, &ask.op, desc);
    fill(right, pool, door, wanted);
    let guest = lend_pool(table, right, client);
    let Served { entry, desc, guest } = held.serve(table, ask, guest, by, pool, door);
    let guest = take_pool(table, right, guest, number);
    rest(right, pool, door);
    (held, Served { entry, desc, guest })
}
