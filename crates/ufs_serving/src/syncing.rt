// An `fsync` of a file that a server has.
ghost use Rattle.std.specs.Prelude.{ℕ, ◌≡◌, ◌≢◌, ◌<◌, ◌≤◌, true, is_some};
ghost use Rattle.ufs_file.specs.Hand.{IsEntryOf, IsOf};
ghost use Rattle.ufs_held.specs.Asking.{Asks, IsAnswered};
ghost use Rattle.ufs_model.specs.declared.data.Op.TheVariants as op;
ghost use Rattle.ufs_msg.specs.Requests.{HasClientAlone};
ghost use Rattle.ufs_hand_laws.specs.Parts.{ClientPart};
ghost use Rattle.ufs_serving.specs.Serving.{IsSyncedAt};
ghost use Rattle.ufs_joint.specs.FirstHand.{HasPoolAlone};
ghost use Rattle.ufs_joint.specs.Servers.{IsServer};

use crate::pool::{lend_pool, take_pool};
use ufs_bitmap::Pool;
use ufs_held::{HeldFile, Served};
use ufs_joint::{Hand, HandTable, Naming};
use ufs_model::{Actor, Ask};
use ufs_turns::Turns;

/// Commits the file in one turn of the store, and acknowledges it. The server's pool has this number. The client's hand comes back alone.
pub fn serve_sync<N: Naming, T: Turns<N>>(
    table: &HandTable<N>,
    held: HeldFile<N>,
    ask: Ask,
    client: Hand<N>,
    by: Actor,
    number: u32,
    pool: &Pool,
    right: &mut Hand<N>,
    door: &mut T,
) -> (HeldFile<N>, Served<N>)
    requires pool { HasPoolAlone number pool.now right.old }
    requires asked { (part : ClientPart) × HasClientAlone ask.client part client × Asks part ask }
    requires server { IsServer by }
    requires fsync { (fd : ℕ) × (ask.op ≡ op.Fsync fd) }
    requires named { IsOf ask.desc held.value.file.file }
    requires apart { number ≢ held.value.file.file }
    requires born { held.born ≡ true }
    ensures pool { HasPoolAlone number pool.now right.new }
    ensures entry { IsEntryOf ask by result.1.entry.ticket result.1.entry }
    ensures desc { result.1.desc ≡ ask.desc }
    ensures client { (part : ClientPart) → HasClientAlone ask.client part client → (after : ClientPart) × IsAnswered part result.1.entry result.1.desc after × HasClientAlone ask.client after result.1.guest }
    ensures done { IsSyncedAt N.start.is_visible (T.tells door.old) (T.tells door.new) held result.0 pool.now pool.now ask result.1.entry result.1.desc }
    ensures number { result.0.value.file.file ≡ held.value.file.file }
    ensures later { client.seen ≤ result.1.entry.ticket }
    ensures seen { result.1.entry.ticket < result.1.guest.seen }
    ensures telling { is_some (T.tells door.new) ≡ is_some (T.tells door.old) }
{
    // For the prover alone.
    let _ = pool;
    let mut held = held;
    let guest = lend_pool(table, right, client);
    let Served { entry, desc, guest } = held.sync(table, ask, guest, by, door);
    let guest = take_pool(table, right, guest, number);
    (held, Served { entry, desc, guest })
}
