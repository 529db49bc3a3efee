// An `fsync` of a directory.
ghost use Rattle.std.specs.Prelude.{ℕ, ◌≡◌, ◌<◌, ◌≤◌, IsSome, None, is_some};
ghost use Rattle.ufs_baton.specs.Baton.{IsToldSince};
ghost use Rattle.ufs_bitmap.specs.Blocks.{BlockSet};
ghost use Rattle.ufs_file.specs.Hand.{IsEntryOf};
ghost use Rattle.ufs_joint.specs.FirstHand.{HasPoolAlone, pool_of};
ghost use Rattle.ufs_held.specs.Asking.{IsGuest};
ghost use Rattle.ufs_held_names.specs.Dirs.{AsksDir, AsksUnopened, answered};
ghost use Rattle.ufs_model.specs.Asks.{file_in};
ghost use Rattle.ufs_model.specs.declared.data.Actor.TheVariants.{Primary};
ghost use Rattle.ufs_model.specs.declared.data.Op.TheVariants as op;
ghost use Rattle.ufs_msg.specs.Answers.{Told};
ghost use Rattle.ufs_msg.specs.declared.answer.Answer.TheVariants as answer;
ghost use Rattle.ufs_at_primary.specs.Dirs.{IsDirDone, IsDirServed};
ghost use Rattle.ufs_hand_laws.specs.Parts.{ClientPart};

use ufs_held_names::{HeldNames, NamesSynced, refuse_unopened};
use ufs_joint::{Hand, HandTable, Naming};
use ufs_model::{Actor, Ask};
use ufs_msg::{Answer, Request, Served};
use ufs_serving::{lend_pool, pool_number, take_pool};
use ufs_turns::Turns;

// The names are committed; where the client has no such descriptor, it is refused.
fn sync_dir<N: Naming, T: Turns<N>>(
    table: &HandTable<N>,
    names: &mut HeldNames<N>,
    ask: Ask,
    guest: Hand<N>,
    door: &mut T,
) -> NamesSynced<N>
    requires { (part : ClientPart) × (n : ℕ) × (pool : BlockSet) × IsGuest ask.client part n pool guest × (IsSome ask.desc → AsksDir part ask) × (ask.desc ≡ None → AsksUnopened part ask) }
    ensures entry { IsEntryOf ask Primary result.entry.ticket result.entry }
    ensures guest { (part : ClientPart) (n : ℕ) (pool : BlockSet) → IsGuest ask.client part n pool guest → IsGuest ask.client (answered part result.entry) n pool result.guest }
    ensures done { IsDirDone N.start.is_visible (T.tells door.old) (T.tells door.new) names.old names.new result.entry.reply ask.desc }
    ensures later { guest.seen ≤ result.entry.ticket }
    ensures seen { result.entry.ticket < result.guest.seen }
    ensures telling { is_some (T.tells door.new) ≡ is_some (T.tells door.old) }
{
    match ask.desc {
        None => refuse_unopened(table, ask, guest, Actor::Primary),
        Some(_dir) => names.fsync_dir(table, ask, guest, Actor::Primary, door),
    }
}

/// Serves an `fsync` on no file, and says what its client is answered: on a directory the names are committed in a turn of the store, and
/// a descriptor that isn't there is refused.
pub fn serve_dir<N: Naming, T: Turns<N>>(
    table: &HandTable<N>,
    names: &mut HeldNames<N>,
    request: Request<N>,
    right: &mut Hand<N>,
    door: &mut T,
) -> Answer<N>
    requires pool { (pool : BlockSet) × HasPoolAlone (pool_of 0) pool right.old }
    requires fsync { (fd : ℕ) × (request.ask.op ≡ op.Fsync fd) }
    requires dir { file_in request.ask.desc ≡ None }
    ensures pool { (pool : BlockSet) → HasPoolAlone (pool_of 0) pool right.old → HasPoolAlone (pool_of 0) pool right.new }
    ensures served { (told : Told) × (result ≡ answer.Served told) × IsDirServed N.start.is_visible (T.tells door.old) (T.tells door.new) names.old names.new request.ask told }
    ensures drawn { IsToldSince request.hand.seen result }
    ensures telling { is_some (T.tells door.new) ≡ is_some (T.tells door.old) }
{
    let (client, ask, _leases_back) = request.into_parts();
    let desc = ask.desc;
    let guest = lend_pool(table, right, client);
    let NamesSynced { entry, guest } = sync_dir(table, names, ask, guest, door);
    let guest = take_pool(table, right, guest, pool_number(0));
    Answer::Served(Served::new(guest, entry, desc, None, None))
}
