// A request is excused.
ghost use Rattle.std.specs.Prelude.{ℕ, ◌≡◌, ◌<◌, ◌≤◌, IfSome, None, Some, false, is_some, true};
ghost use Rattle.ufs_baton.specs.Baton.{IsToldSince};
ghost use Rattle.ufs_bitmap.specs.Blocks.{BlockSet};
ghost use Rattle.ufs_crash_laws.specs.Changes.{asks_commit};
ghost use Rattle.ufs_file.specs.Hand.{IsEntryOf};
ghost use Rattle.ufs_joint.specs.FileHands.{own_desc};
ghost use Rattle.ufs_joint.specs.FirstHand.{HasPoolAlone, pool_of};
ghost use Rattle.ufs_held.specs.Asking.{IsGuest};
ghost use Rattle.ufs_held.specs.Drawn.{replied_to};
ghost use Rattle.ufs_held.specs.Stopping.{Rests};
ghost use Rattle.ufs_held_names.specs.Dirs.{answered};
ghost use Rattle.ufs_joint.specs.NamesHands.{IsNextOf};
ghost use Rattle.ufs_joint.specs.Servers.{NeedsServer};
ghost use Rattle.ufs_model.specs.Asks.{fd_named};
ghost use Rattle.ufs_model.specs.declared.data.Actor.TheVariants.{Primary};
ghost use Rattle.ufs_model.specs.declared.data.Reply.TheVariants as reply;
ghost use Rattle.ufs_msg.specs.Answers.{Told};
ghost use Rattle.ufs_msg.specs.declared.answer.Answer.TheVariants as answer;
ghost use Rattle.ufs_turns.specs.Lent.{IsBare, stop_in};
ghost use Rattle.ufs_at_primary.specs.Excused.{IsExcusedHere, IsOpened, excuse_at};
ghost use Rattle.ufs_hand_laws.specs.Parts.{ClientPart};

use crate::kinds::file_in;
use crate::named::server_of;
use crate::room::commits;
use ufs_base::Memory;
use ufs_held::draw_reply;
use ufs_home::Home;
use ufs_joint::{Hand, HandTable, Naming, draw_law};
use ufs_model::{Actor, Ask, Entry, Excuse, Reply};
use ufs_msg::{Answer, Request, Served};
use ufs_serving::{lend_pool, pool_number, take_pool};
use ufs_turns::Turns;

// Where the store stopped, if it did and the request asks for a commit: the guest knows it then.
fn stop_for<N: Naming, T: Turns<N>>(ask: &Ask, guest: &mut Hand<N>, door: &mut T) -> Option<u64>
    requires bare { IsBare guest.old }
    ensures plain { asks_commit ask.now.op ≡ false → result ≡ None }
    ensures told { asks_commit ask.now.op ≡ true → IfSome (T.tells door.old) (λ v. result ≡ stop_in v.store) }
    ensures knows { (fault : ℕ) → result ≡ Some fault → guest.new.stop ≡ Some fault }
    ensures rests { Rests (T.tells door.old) (T.tells door.new) None }
    ensures telling { is_some (T.tells door.new) ≡ is_some (T.tells door.old) }
    ensures guest { (client : ℕ) (part : ClientPart) (n : ℕ) (pool : BlockSet) → IsGuest client part n pool guest.old → IsGuest client part n pool guest.new }
    ensures later { guest.old.seen ≤ guest.new.seen }
{
    if !commits(&ask.op) {
        return None;
    }
    door.stopped(guest)
}

// Why: the store has stopped, where that is known, or else memory is wanting.
fn cause_of(memory: Memory, stop: Option<u64>) -> Excuse
    ensures { result ≡ excuse_at stop }
{
    match stop {
        Some(fault) => Excuse::Stopped { fault },
        None => Excuse::from(memory),
    }
}

// Draws its entry with the excuse, by a hand that has its client and a pool.
fn draw_excuse<N: Naming>(
    table: &HandTable<N>,
    ask: Ask,
    mut guest: Hand<N>,
    memory: Memory,
    stop: Option<u64>,
) -> (Entry, Hand<N>)
    requires asked { (part : ClientPart) × (n : ℕ) × (pool : BlockSet) × IsGuest ask.client part n pool guest × IsNextOf ask.client part (replied_to ask Primary (reply.Excused (excuse_at stop))) × NeedsServer part.fds ask.client ask.op
        × (ask.desc ≡ own_desc part.fds (fd_named ask.op)) }
    requires knows { (fault : ℕ) → stop ≡ Some fault → (guest.stop ≡ Some fault) × (asks_commit ask.op ≡ true) }
    requires opened { IsOpened ask }
    ensures entry { IsEntryOf ask Primary result.0.ticket result.0 }
    ensures replied { result.0.reply ≡ reply.Excused (excuse_at stop) }
    ensures guest { (part : ClientPart) (n : ℕ) (pool : BlockSet) → IsGuest ask.client part n pool guest → IsGuest ask.client (answered part result.0) n pool result.1 }
    ensures later { guest.seen ≤ result.0.ticket }
    ensures seen { result.0.ticket < result.1.seen }
{
    draw_law();
    let cause = cause_of(memory, stop);
    let entry = draw_reply(
        table,
        &mut guest,
        ask,
        Actor::Primary,
        Reply::Excused(cause),
    );
    (entry, guest)
}

/// Excuses a request for want of memory, and says what its client is answered. One that asks for a commit is told instead that the store has
/// stopped, if it has.
pub(crate) fn excuse<N: Naming, T: Turns<N>>(
    table: &HandTable<N>,
    home: &Home<N>,
    request: Request<N>,
    memory: Memory,
    right: &mut Hand<N>,
    door: &mut T,
) -> Answer<N>
    requires pool { (pool : BlockSet) × HasPoolAlone (pool_of 0) pool right.old }
    requires opened { IsOpened request.ask }
    ensures pool { (pool : BlockSet) → HasPoolAlone (pool_of 0) pool right.old → HasPoolAlone (pool_of 0) pool right.new }
    ensures excused { (told : Told) × (result ≡ answer.Served told) × IsExcusedHere (T.tells door.old) (T.tells door.new) home.now.owners request.ask told }
    ensures drawn { IsToldSince request.hand.seen result }
    ensures telling { is_some (T.tells door.new) ≡ is_some (T.tells door.old) }
{
    let (client, ask, _leases_back) = request.into_parts();
    let desc = ask.desc;
    let mut guest = lend_pool(table, right, client);
    let stop = stop_for(&ask, &mut guest, door);
    let (entry, guest) = draw_excuse(table, ask, guest, memory, stop);
    let guest = take_pool(table, right, guest, pool_number(0));
    let owner = server_of(home, file_in(desc));
    Answer::Served(Served::new(guest, entry, desc, owner, None))
}
