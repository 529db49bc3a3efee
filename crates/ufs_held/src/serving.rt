// A request on a file is served: what it needs is read, and it is applied and drawn.
ghost use Rattle.std.specs.Prelude.{ℕ, List, ◌≡◌, ◌≢◌, ◌≤◌, suc, [], true, false, None, Some, IfErr, IsTrue, OnErr, OnOk, is_some};
ghost use Rattle.ufs_file_commits.specs.Serving.{IsServedKept};
ghost use Rattle.ufs_file_commits.specs.State.{state_of, whole_of};
ghost use Rattle.ufs_file.specs.Content.{IsContentOf};
ghost use Rattle.ufs_file.specs.Hand.{FileState, HasNeeded, IsEntryOf, IsExcusedFor, IsOf, whole_as};
ghost use Rattle.ufs_model.specs.Bounds.{IsBounded};
ghost use Rattle.ufs_model.specs.FileCalls.{file_refusal, file_step, is_on_file};
ghost use Rattle.ufs_model.specs.History.{is_excused};
ghost use Rattle.ufs_model.specs.declared.data.Desc.{Desc};
ghost use Rattle.ufs_model.specs.declared.data.Excuse.{Excuse};
ghost use Rattle.ufs_model.specs.declared.data.Reply.TheVariants as reply;
ghost use Rattle.ufs_crash_laws.specs.Changes.{asks_commit};
ghost use Rattle.ufs_hand_laws.specs.Parts.{ClientPart};
ghost use Rattle.ufs_joint.specs.Servers.{IsServer};
ghost use Rattle.ufs_store.specs.Refusals.{fault_in, is_own};
ghost use Rattle.ufs_turns.specs.Lent.{AreTold};
ghost use Rattle.ufs_turns.specs.Told.{fault_told, told_list};
ghost use Rattle.ufs_held.specs.Asking.{Asks, IsAnswered, IsGuest};
ghost use Rattle.ufs_held.specs.Held.{IsHeld, first_cell};
ghost use Rattle.ufs_held.specs.Serving.{IsReadFor, IsServeCause, read_as};
ghost use Rattle.ufs_held.specs.Stopping.{Rests, RestsByReply};

use crate::draws::draw_served;
use crate::excuses::{excuse_of, serve_excused};
use crate::held::Served;
use std::mem;
use ufs_bitmap::Pool;
use ufs_file::{Applied, FileHand};
use ufs_file_commits::FileCommits;
use ufs_joint::{Hand, HandTable, Naming};
use ufs_model::{Actor, Ask, PartName};
use ufs_store::StoreFault;
use ufs_turns::Turns;

// The blocks that the request needs are read first.
pub(crate) fn serve_lent<N: Naming, T: Turns<N>>(
    table: &HandTable<N>,
    right: &mut Hand<N>,
    file: &mut FileHand,
    commits: &mut FileCommits,
    ask: Ask,
    guest: Hand<N>,
    by: Actor,
    pool: &mut Pool,
    door: &mut T,
) -> Served<N>
    requires held { IsHeld (state_of file.old commits.old) right.old }
    requires calm { right.old.faults ≡ [] }
    requires guest { (part : ClientPart) × (n : ℕ) × IsGuest ask.client part n pool.old guest × Asks part ask × (n ≢ file.old.file) }
    requires server { IsServer by }
    requires no_commit { asks_commit ask.op ≡ false }
    requires bounded { IsBounded ask.op }
    requires named { IsOf ask.desc file.old.file }
    ensures held { IsHeld (state_of file.new commits.new) right.new }
    ensures calm { right.new.faults ≡ [] }
    ensures entry { IsEntryOf ask by result.entry.ticket result.entry }
    ensures guest { (part : ClientPart) (n : ℕ) → IsGuest ask.client part n pool.old guest → n ≢ file.old.file → (after : ClientPart) × IsAnswered part result.entry result.desc after × IsGuest ask.client after n pool.new result.guest }
    ensures number { file.new.file ≡ file.old.file }
    ensures served { is_excused result.entry.reply ≡ false → (d : Desc) → ask.desc ≡ Some d → (read : FileState) × IsReadFor file.old read d ask.op × ((bytes : List ℕ) → IsContentOf read.content bytes
        → IsServedKept (whole_of bytes (read_as read (state_of file.old commits.old))) (whole_of (file_step bytes d ask.op).bytes (state_of file.new commits.new)) pool.old pool.new d ask.op result.entry.reply result.desc) }
    ensures excused { (x : Excuse) → result.entry.reply ≡ reply.Excused x → (d : Desc) → ask.desc ≡ Some d → IsServeCause file.old file.new pool.old d ask.op x }
    ensures read { is_excused result.entry.reply ≡ true → (d : Desc) → ask.desc ≡ Some d → IsReadFor file.old file.new d ask.op }
    ensures kept { is_excused result.entry.reply ≡ true → first_cell (state_of file.new commits.new) right.new.files ≡ record (first_cell (state_of file.old commits.old) right.old.files) { value = read_as file.new (state_of file.old commits.old) } }
    ensures untaken { is_excused result.entry.reply ≡ true → pool.new ≡ pool.old }
    ensures desc { is_excused result.entry.reply ≡ true → result.desc ≡ ask.desc }
    ensures changed { is_excused result.entry.reply ≡ false → (first_cell (state_of file.new commits.new) right.new.files).changed ≡ suc result.entry.ticket }
    ensures known { (first_cell (state_of file.new commits.new) right.new.files).known ≡ (first_cell (state_of file.old commits.old) right.old.files).known }
    ensures born { (first_cell (state_of file.new commits.new) right.new.files).born ≡ (first_cell (state_of file.old commits.old) right.old.files).born }
    ensures faults { result.guest.faults ≡ guest.faults }
    ensures free { AreTold (T.tells door.old) (T.tells door.new) (λ had has. has ≡ had) }
    ensures telling { is_some (T.tells door.new) ≡ is_some (T.tells door.old) }
    ensures halts { RestsByReply (T.tells door.old) (T.tells door.new) result.entry.reply }
    ensures later { guest.seen ≤ result.entry.ticket }
    ensures seen { result.guest.seen ≡ suc result.entry.ticket }
{
    match fetch_for(right, file, commits, &ask, door) {
        Ok(()) => serve_ready(table, right, file, commits, ask, guest, by, pool),
        Err(fault) => {
            let cause = excuse_of(fault);
            serve_excused(table, right, file, commits, ask, guest, by, cause)
        }
    }
}

// Reads the blocks that the request needs, in one turn of the store. One that is refused needs none.
fn fetch_for<N: Naming, T: Turns<N>>(
    right: &mut Hand<N>,
    file: &mut FileHand,
    commits: &FileCommits,
    ask: &Ask,
    door: &mut T,
) -> Result<(), StoreFault>
    requires held { IsHeld (state_of file.old commits.now) right.old }
    requires calm { right.old.faults ≡ [] }
    requires named { IsOf ask.now.desc file.old.file }
    requires kind { is_on_file ask.now.op ≡ true }
    ensures held { IsHeld (state_of file.new commits.now) right.new }
    ensures there { OnOk result ((d : Desc) → ask.now.desc ≡ Some d → file_refusal file.new.content.bytes d ask.now.op ≡ None → HasNeeded file.new.content d ask.now.op) }
    ensures read { (d : Desc) → ask.now.desc ≡ Some d → IsReadFor file.old file.new d ask.now.op }
    ensures allowed { OnErr result ((d : Desc) → ask.now.desc ≡ Some d → file_refusal file.old.content.bytes d ask.now.op ≡ None) }
    ensures lacks { OnErr result ((d : Desc) → ask.now.desc ≡ Some d → HasNeeded file.old.content d ask.now.op → ⊥) }
    ensures number { file.new.file ≡ file.old.file }
    ensures cell { first_cell (state_of file.new commits.now) right.new.files ≡ record (first_cell (state_of file.old commits.now) right.old.files) { value = state_of file.new commits.now } }
    ensures faults { right.new.faults ≡ told_list (fault_told (fault_in result)) }
    ensures refused { IfErr result (λ fault. IsTrue (is_own fault)) }
    ensures free { AreTold (T.tells door.old) (T.tells door.new) (λ had has. has ≡ had) }
    ensures telling { is_some (T.tells door.new) ≡ is_some (T.tells door.old) }
    ensures rests { Rests (T.tells door.old) (T.tells door.new) (fault_in result) }
{
    let Some(desc) = ask.desc else { unreachable!() };
    if file.is_ready(&ask.op, desc) {
        return Ok(());
    }
    door.fetch(right, file, commits, &ask.op, desc)
}

// Applies the request and draws its entry, by a hand that is joined with the one that came.
pub(crate) fn serve_ready<N: Naming>(
    table: &HandTable<N>,
    right: &mut Hand<N>,
    file: &mut FileHand,
    commits: &mut FileCommits,
    ask: Ask,
    guest: Hand<N>,
    by: Actor,
    pool: &mut Pool,
) -> Served<N>
    requires held { IsHeld (state_of file.old commits.old) right.old }
    requires calm { right.old.faults ≡ [] }
    requires guest { (part : ClientPart) × (n : ℕ) × IsGuest ask.client part n pool.old guest × Asks part ask × (n ≢ file.old.file) }
    requires server { IsServer by }
    requires no_commit { asks_commit ask.op ≡ false }
    requires bounded { IsBounded ask.op }
    requires named { IsOf ask.desc file.old.file }
    requires there { (d : Desc) → ask.desc ≡ Some d → file_refusal file.old.content.bytes d ask.op ≡ None → HasNeeded file.old.content d ask.op }
    ensures held { IsHeld (state_of file.new commits.new) right.new }
    ensures calm { right.new.faults ≡ [] }
    ensures entry { IsEntryOf ask by result.entry.ticket result.entry }
    ensures guest { (part : ClientPart) (n : ℕ) → IsGuest ask.client part n pool.old guest → n ≢ file.old.file → (after : ClientPart) × IsAnswered part result.entry result.desc after × IsGuest ask.client after n pool.new result.guest }
    ensures number { file.new.file ≡ file.old.file }
    ensures served { is_excused result.entry.reply ≡ false → (d : Desc) → ask.desc ≡ Some d → (bytes : List ℕ) → IsContentOf (state_of file.old commits.old).file.content bytes
        → IsServedKept (whole_of bytes (state_of file.old commits.old)) (whole_of (file_step bytes d ask.op).bytes (state_of file.new commits.new)) pool.old pool.new d ask.op result.entry.reply result.desc }
    ensures excused { (x : Excuse) → result.entry.reply ≡ reply.Excused x → (d : Desc) → ask.desc ≡ Some d → (bytes : List ℕ) → IsContentOf (state_of file.old commits.old).file.content bytes → IsExcusedFor (whole_as bytes (state_of file.old commits.old).file) d ask.op pool.old x }
    ensures untaken { is_excused result.entry.reply ≡ true → pool.new ≡ pool.old }
    ensures desc { is_excused result.entry.reply ≡ true → result.desc ≡ ask.desc }
    ensures same { is_excused result.entry.reply ≡ true → state_of file.new commits.new ≡ state_of file.old commits.old }
    ensures kept { is_excused result.entry.reply ≡ true → first_cell (state_of file.new commits.new) right.new.files ≡ first_cell (state_of file.old commits.old) right.old.files }
    ensures changed { is_excused result.entry.reply ≡ false → (first_cell (state_of file.new commits.new) right.new.files).changed ≡ suc result.entry.ticket }
    ensures known { (first_cell (state_of file.new commits.new) right.new.files).known ≡ (first_cell (state_of file.old commits.old) right.old.files).known }
    ensures born { (first_cell (state_of file.new commits.new) right.new.files).born ≡ (first_cell (state_of file.old commits.old) right.old.files).born }
    ensures faults { result.guest.faults ≡ guest.faults }
    ensures later { guest.seen ≤ result.entry.ticket }
    ensures seen { result.guest.seen ≡ suc result.entry.ticket }
{
    right.join(table, guest);
    let Applied { entry, desc } = draw_served(table, right, file, commits, ask, by, pool);
    let own = right.split(table, PartName::File(file.file()));
    let guest = mem::replace(right, own);
    Served { entry, desc, guest }
}
