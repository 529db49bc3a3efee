// A request that came to a worker which has its file.
ghost use Rattle.std.specs.Prelude.{◌≡◌, ◌<◌, ◌≤◌, ◌^◌, IfSome, IsSome, Some, true, is_some};
ghost use Rattle.std.specs.FinSet as set;
ghost use Rattle.ufs_baton.specs.Baton.{IsToldSince};
ghost use Rattle.ufs_file.specs.Hand.{IsEntryOf, IsOf};
ghost use Rattle.ufs_held.specs.Asking.{Asks, IsAnswered};
ghost use Rattle.ufs_joint.specs.Cells.{FileCell};
ghost use Rattle.ufs_model.specs.Bounds.{IsBounded};
ghost use Rattle.ufs_model.specs.declared.data.Actor.TheVariants.{Worker};
ghost use Rattle.ufs_msg.specs.Answers.{Told};
ghost use Rattle.ufs_msg.specs.Requests.{HasClientAlone};
ghost use Rattle.ufs_msg.specs.There.{IsByHint, IsServerThere, is_by_hint};
ghost use Rattle.ufs_msg.specs.declared.answer.Answer.TheVariants as answer;
ghost use Rattle.ufs_crash_laws.specs.Changes.{asks_commit};
ghost use Rattle.ufs_hand_laws.specs.Parts.{ClientPart};
ghost use Rattle.ufs_joint.specs.FirstHand.{HasPoolAlone, pool_of};
ghost use Rattle.ufs_serving.specs.Pools.{most_at_rest};
ghost use Rattle.ufs_serving.specs.Serving.{IsDoneAt, IsServedBy};

use ufs_bitmap::Pool;
use ufs_held::{HeldFile, Parcel, Served};
use ufs_joint::{Hand, HandTable, Naming};
use ufs_model::{Actor, Ask, Op};
use ufs_msg::{Answer, Request};
use ufs_serving::{know, pool_number, serve_change, serve_sync, served_answer};
use ufs_turns::Turns;

// An `fsync` commits the file; any other request is applied to it.
fn serve_asked<N: Naming, T: Turns<N>>(
    table: &HandTable<N>,
    held: HeldFile<N>,
    ask: Ask,
    client: Hand<N>,
    me: u8,
    pool: &mut Pool,
    right: &mut Hand<N>,
    door: &mut T,
) -> (HeldFile<N>, Served<N>)
    requires pool { HasPoolAlone (pool_of me) pool.old right.old }
    requires few { set.len pool.old ≤ most_at_rest }
    requires asked { (part : ClientPart) × HasClientAlone ask.client part client × Asks part ask }
    requires hinted { is_by_hint ask.op ≡ true }
    requires bounded { IsBounded ask.op }
    requires named { IsOf ask.desc held.value.file.file }
    requires low { held.value.file.file < 2 ^ 31 }
    requires born { held.born ≡ true }
    ensures pool { HasPoolAlone (pool_of me) pool.new right.new }
    ensures few { set.len pool.new ≤ most_at_rest }
    ensures entry { IsEntryOf ask (Worker me) result.1.entry.ticket result.1.entry }
    ensures desc { IsSome result.1.desc }
    ensures client { (part : ClientPart) → HasClientAlone ask.client part client → (after : ClientPart) × IsAnswered part result.1.entry result.1.desc after × HasClientAlone ask.client after result.1.guest }
    ensures done { IsDoneAt N.start.is_visible (T.tells door.old) (T.tells door.new) held result.0 pool.old pool.new ask result.1.entry result.1.desc (asks_commit ask.op) }
    ensures number { result.0.value.file.file ≡ held.value.file.file }
    ensures born { result.0.born ≡ held.born }
    ensures later { client.seen ≤ result.1.entry.ticket }
    ensures seen { result.1.entry.ticket < result.1.guest.seen }
    ensures telling { is_some (T.tells door.new) ≡ is_some (T.tells door.old) }
{
    let by = Actor::Worker(me);
    let number = pool_number(me);
    if let Op::Fsync { .. } = &ask.op {
        return serve_sync(table, held, ask, client, by, number, pool, right, door);
    }
    serve_change(table, held, ask, client, by, number, pool, right, door)
}

/// Serves the request on the file, and says what its client is answered.
pub(crate) fn serve_request<N: Naming, T: Turns<N>>(
    table: &HandTable<N>,
    parcel: Parcel<N>,
    request: Request<N>,
    me: u8,
    pool: &mut Pool,
    right: &mut Hand<N>,
    door: &mut T,
) -> (Parcel<N>, Answer<N>)
    requires pool { HasPoolAlone (pool_of me) pool.old right.old }
    requires few { set.len pool.old ≤ most_at_rest }
    requires there { IsServerThere N.start (Worker me) }
    requires hinted { IsByHint request.ask }
    requires named { IsOf request.ask.desc parcel.value.file.file }
    ensures pool { HasPoolAlone (pool_of me) pool.new right.new }
    ensures few { set.len pool.new ≤ most_at_rest }
    ensures served { (told : Told) × (result.1 ≡ answer.Served told) × IsServedBy N.start.is_visible (T.tells door.old) (T.tells door.new) (Worker me) parcel result.0 pool.old pool.new request.ask told }
    ensures drawn { IsToldSince request.hand.seen result.1 }
    ensures telling { is_some (T.tells door.new) ≡ is_some (T.tells door.old) }
{
    let (mut client, ask, _leases_back) = request.into_parts();
    know(table, &mut client, &ask);
    let held = parcel.into_held();
    let (held, served) = serve_asked(table, held, ask, client, me, pool, right, door);
    let Served { entry, desc, guest } = served;
    (
        Parcel::new(held),
        served_answer(guest, entry, desc, Actor::Worker(me)),
    )
}

/// Serves the request on the file that is in this place.
pub(crate) fn serve_in<N: Naming, T: Turns<N>>(
    table: &HandTable<N>,
    place: &mut Option<Parcel<N>>,
    request: Request<N>,
    me: u8,
    pool: &mut Pool,
    right: &mut Hand<N>,
    door: &mut T,
) -> Answer<N>
    requires pool { HasPoolAlone (pool_of me) pool.old right.old }
    requires few { set.len pool.old ≤ most_at_rest }
    requires there { IsServerThere N.start (Worker me) }
    requires hinted { IsByHint request.ask }
    requires here { IsSome place.old }
    requires named { IfSome place.old (λ c. IsOf request.ask.desc c.value.file.file) }
    ensures pool { HasPoolAlone (pool_of me) pool.new right.new }
    ensures few { set.len pool.new ≤ most_at_rest }
    ensures served { IfSome place.old (λ c. (d : FileCell) × (told : Told) × (result ≡ answer.Served told) × IsServedBy N.start.is_visible (T.tells door.old) (T.tells door.new) (Worker me) c d pool.old pool.new request.ask told × (place.new ≡ Some d)) }
    ensures drawn { IsToldSince request.hand.seen result }
    ensures telling { is_some (T.tells door.new) ≡ is_some (T.tells door.old) }
{
    let Some(parcel) = place.take() else {
        unreachable!()
    };
    let (parcel, answer) = serve_request(table, parcel, request, me, pool, right, door);
    *place = Some(parcel);
    answer
}
