// A request on a file that is at the primary.
ghost use Rattle.std.specs.Prelude.{ℕ, ◌≡◌, ◌≢◌, ◌<◌, ◌≤◌, ◌^◌, IsSome, true, is_some};
ghost use Rattle.std.specs.FinSet as set;
ghost use Rattle.ufs_baton.specs.Baton.{IsToldSince};
ghost use Rattle.ufs_file.specs.Hand.{IsEntryOf, IsOf};
ghost use Rattle.ufs_joint.specs.FirstHand.{HasPoolAlone, pool_of};
ghost use Rattle.ufs_held.specs.Asking.{Asks, IsAnswered};
ghost use Rattle.ufs_layout.specs.Areas.{IsGeometry};
ghost use Rattle.ufs_model.specs.Bounds.{IsBounded};
ghost use Rattle.ufs_model.specs.FileCalls.{is_on_file};
ghost use Rattle.ufs_model.specs.declared.data.Actor.TheVariants.{Primary};
ghost use Rattle.ufs_model.specs.declared.data.Op.TheVariants as op;
ghost use Rattle.ufs_msg.specs.Answers.{Told};
ghost use Rattle.ufs_msg.specs.Requests.{HasClientAlone};
ghost use Rattle.ufs_msg.specs.declared.answer.Answer.TheVariants as answer;
ghost use Rattle.ufs_crash_laws.specs.Changes.{asks_commit};
ghost use Rattle.ufs_at_primary.specs.Here.{IsDoneHere, IsServedHere, IsSyncedHere};
ghost use Rattle.ufs_serving.specs.Pools.{most_at_rest};
ghost use Rattle.ufs_hand_laws.specs.Parts.{ClientPart};

use ufs_bitmap::Pool;
use ufs_held::{HeldFile, Served};
use ufs_held_names::{FileSynced, HeldNames};
use ufs_joint::{Hand, HandTable, Naming};
use ufs_layout::Geometry;
use ufs_model::{Actor, Ask, Op};
use ufs_msg::{Answer, Request};
use ufs_serving::{know_on_file, lend_pool, pool_number, serve_change, served_answer, take_pool};
use ufs_turns::Turns;

// Commits the names, then the file, each in a turn of the store, and acknowledges it. The primary's pool has this number. The client's
// hand comes back alone.
fn sync_here<N: Naming, T: Turns<N>>(
    table: &HandTable<N>,
    names: &mut HeldNames<N>,
    geometry: &Geometry,
    held: HeldFile<N>,
    ask: Ask,
    client: Hand<N>,
    number: u32,
    pool: &Pool,
    right: &mut Hand<N>,
    door: &mut T,
) -> (HeldFile<N>, Served<N>)
    requires formed { IsGeometry geometry.now }
    requires its { geometry.now ≡ N.start.geometry }
    requires pool { HasPoolAlone number pool.now right.old }
    requires asked { (part : ClientPart) × HasClientAlone ask.client part client × Asks part ask }
    requires fsync { (fd : ℕ) × (ask.op ≡ op.Fsync fd) }
    requires named { IsOf ask.desc held.value.file.file }
    requires apart { number ≢ held.value.file.file }
    ensures pool { HasPoolAlone number pool.now right.new }
    ensures entry { IsEntryOf ask Primary result.1.entry.ticket result.1.entry }
    ensures desc { result.1.desc ≡ ask.desc }
    ensures client { (part : ClientPart) → HasClientAlone ask.client part client → (after : ClientPart) × IsAnswered part result.1.entry result.1.desc after × HasClientAlone ask.client after result.1.guest }
    ensures done { IsSyncedHere N.start.is_visible (T.tells door.old) (T.tells door.new) names.old names.new held result.0 pool.now pool.now ask result.1.entry result.1.desc }
    ensures later { client.seen ≤ result.1.entry.ticket }
    ensures seen { result.1.entry.ticket < result.1.guest.seen }
    ensures telling { is_some (T.tells door.new) ≡ is_some (T.tells door.old) }
{
    // For the prover alone.
    let _ = pool;
    let guest = lend_pool(table, right, client);
    let FileSynced {
        entry,
        desc,
        guest,
        file,
    } = names.fsync(table, ask, guest, Actor::Primary, held, door, geometry);
    let guest = take_pool(table, right, guest, number);
    (file, Served { entry, desc, guest })
}

// An `fsync` commits the names and the file; any other request is applied to it.
fn serve_asked<N: Naming, T: Turns<N>>(
    table: &HandTable<N>,
    names: &mut HeldNames<N>,
    geometry: &Geometry,
    held: HeldFile<N>,
    ask: Ask,
    client: Hand<N>,
    pool: &mut Pool,
    right: &mut Hand<N>,
    door: &mut T,
) -> (HeldFile<N>, Served<N>)
    requires formed { IsGeometry geometry.now }
    requires its { geometry.now ≡ N.start.geometry }
    requires pool { HasPoolAlone (pool_of 0) pool.old right.old }
    requires few { set.len pool.old ≤ most_at_rest }
    requires asked { (part : ClientPart) × HasClientAlone ask.client part client × Asks part ask }
    requires on_file { is_on_file ask.op ≡ true }
    requires bounded { IsBounded ask.op }
    requires named { IsOf ask.desc held.value.file.file }
    requires low { held.value.file.file < 2 ^ 31 }
    ensures pool { HasPoolAlone (pool_of 0) pool.new right.new }
    ensures few { set.len pool.new ≤ most_at_rest }
    ensures entry { IsEntryOf ask Primary result.1.entry.ticket result.1.entry }
    ensures desc { IsSome result.1.desc }
    ensures client { (part : ClientPart) → HasClientAlone ask.client part client → (after : ClientPart) × IsAnswered part result.1.entry result.1.desc after × HasClientAlone ask.client after result.1.guest }
    ensures done { IsDoneHere N.start.is_visible (T.tells door.old) (T.tells door.new) names.old names.new held result.0 pool.old pool.new ask result.1.entry result.1.desc (asks_commit ask.op) }
    ensures number { result.0.value.file.file ≡ held.value.file.file }
    ensures later { client.seen ≤ result.1.entry.ticket }
    ensures seen { result.1.entry.ticket < result.1.guest.seen }
    ensures telling { is_some (T.tells door.new) ≡ is_some (T.tells door.old) }
{
    let number = pool_number(0);
    if let Op::Fsync { .. } = &ask.op {
        return sync_here(
            table, names, geometry, held, ask, client, number, pool, right, door,
        );
    }
    let by = Actor::Primary;
    serve_change(table, held, ask, client, by, number, pool, right, door)
}

/// Serves a request on a file that is at the primary, and says what its client is answered: one of those that go by a hint, or a `seek`
/// from a place that its client knows. An `fsync` commits the names first.
pub fn serve_here<N: Naming, T: Turns<N>>(
    table: &HandTable<N>,
    names: &mut HeldNames<N>,
    geometry: &Geometry,
    held: HeldFile<N>,
    request: Request<N>,
    pool: &mut Pool,
    right: &mut Hand<N>,
    door: &mut T,
) -> (HeldFile<N>, Answer<N>)
    requires formed { IsGeometry geometry.now }
    requires its { geometry.now ≡ N.start.geometry }
    requires pool { HasPoolAlone (pool_of 0) pool.old right.old }
    requires few { set.len pool.old ≤ most_at_rest }
    requires on_file { is_on_file request.ask.op ≡ true }
    requires named { IsOf request.ask.desc held.value.file.file }
    requires low { held.value.file.file < 2 ^ 31 }
    ensures pool { HasPoolAlone (pool_of 0) pool.new right.new }
    ensures few { set.len pool.new ≤ most_at_rest }
    ensures served { (told : Told) × (result.1 ≡ answer.Served told) × IsServedHere N.start.is_visible (T.tells door.old) (T.tells door.new) names.old names.new held result.0 pool.old pool.new request.ask told }
    ensures drawn { IsToldSince request.hand.seen result.1 }
    ensures telling { is_some (T.tells door.new) ≡ is_some (T.tells door.old) }
{
    let (mut client, ask, _leases_back) = request.into_parts();
    know_on_file(table, &mut client, &ask);
    let (held, served) = serve_asked(table, names, geometry, held, ask, client, pool, right, door);
    let Served { entry, desc, guest } = served;
    (held, served_answer(guest, entry, desc, Actor::Primary))
}
