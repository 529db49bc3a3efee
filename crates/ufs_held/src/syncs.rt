// An `fsync` is acknowledged or excused, by a hand that has its client and the file.
ghost use Rattle.std.specs.Prelude.{ℕ, ◌≡◌, ◌≢◌, ◌≤◌, suc, [], true, Some, is_some};
ghost use Rattle.std.specs.FinSet as set;
ghost use Rattle.ufs_bitmap.specs.Taking.{set_of};
ghost use Rattle.ufs_file.specs.Hand.{IsEntryOf, IsOf};
ghost use Rattle.ufs_bitmap.specs.Blocks.{BlockSet};
ghost use Rattle.ufs_model.specs.History.{is_excused};
ghost use Rattle.ufs_model.specs.declared.data.Excuse.TheVariants as excuse;
ghost use Rattle.ufs_model.specs.declared.data.Op.TheVariants as op;
ghost use Rattle.ufs_model.specs.declared.data.Reply.TheVariants as reply;
ghost use Rattle.ufs_hand_laws.specs.Parts.{ClientPart};
ghost use Rattle.ufs_joint.specs.Servers.{IsServer};
ghost use Rattle.ufs_file_commits.specs.State.{file_committed, state_of};
ghost use Rattle.ufs_turns.specs.Lent.{AreTold};
ghost use Rattle.ufs_held.specs.Asking.{Asks, IsAnswered, IsGuest, IsSyncReply};
ghost use Rattle.ufs_held.specs.Held.{IsHeld, first_cell};
ghost use Rattle.ufs_held.specs.Stopping.{ExcusesByStop, StopsByReply};

use crate::excuses::{excuse_of, serve_excused};
use crate::held::Served;
use crate::replies::draw_reply;
use std::mem;
use ufs_file::FileHand;
use ufs_file_commits::FileCommits;
use ufs_joint::{Hand, HandTable, Naming, an_acknowledgement_is_drawn};
use ufs_model::{Actor, Ask, PartName, Reply};
use ufs_turns::Turns;

// Commits the file, and acknowledges the request, or excuses it.
pub(crate) fn sync_lent<N: Naming, T: Turns<N>>(
    table: &HandTable<N>,
    right: &mut Hand<N>,
    file: &mut FileHand,
    commits: &mut FileCommits,
    ask: Ask,
    guest: Hand<N>,
    by: Actor,
    door: &mut T,
) -> Served<N>
    requires held { IsHeld (state_of file.old commits.old) right.old }
    requires guest { (part : ClientPart) × (n : ℕ) × (pool : BlockSet) × IsGuest ask.client part n pool guest × Asks part ask × (n ≢ file.old.file) }
    requires server { IsServer by }
    requires fsync { (fd : ℕ) × (ask.op ≡ op.Fsync fd) }
    requires named { IsOf ask.desc file.old.file }
    requires born { (first_cell (state_of file.old commits.old) right.old.files).born ≡ true }
    requires calm { right.old.faults ≡ [] }
    ensures held { IsHeld (state_of file.new commits.new) right.new }
    ensures calm { right.new.faults ≡ [] }
    ensures entry { IsEntryOf ask by result.entry.ticket result.entry }
    ensures replied { IsSyncReply result.entry.reply }
    ensures desc { result.desc ≡ ask.desc }
    ensures guest { (part : ClientPart) (n : ℕ) (pool : BlockSet) → IsGuest ask.client part n pool guest → n ≢ file.old.file → (after : ClientPart) × IsAnswered part result.entry result.desc after × IsGuest ask.client after n pool result.guest }
    ensures committed { result.entry.reply ≡ reply.Done → state_of file.new commits.new ≡ file_committed (state_of file.old commits.old) }
    ensures known { result.entry.reply ≡ reply.Done → N.start.is_visible ≡ true → (first_cell (state_of file.new commits.new) right.new.files).changed ≤ (first_cell (state_of file.new commits.new) right.new.files).known }
    ensures kept { is_excused result.entry.reply ≡ true → first_cell (state_of file.new commits.new) right.new.files ≡ first_cell (state_of file.old commits.old) right.old.files }
    ensures cell { first_cell (state_of file.new commits.new) right.new.files ≡ record (first_cell (state_of file.old commits.old) right.old.files) { value = state_of file.new commits.new; known = (first_cell (state_of file.new commits.new) right.new.files).known } }
    ensures faults { result.guest.faults ≡ guest.faults }
    ensures stop { (fault : ℕ) → result.entry.reply ≡ reply.Excused (excuse.Stopped fault) → result.guest.stop ≡ Some fault }
    ensures freed { result.entry.reply ≡ reply.Done → AreTold (T.tells door.old) (T.tells door.new) (λ had has. has ≡ set.union had (set_of commits.old.dropped)) }
    ensures unfreed { is_excused result.entry.reply ≡ true → AreTold (T.tells door.old) (T.tells door.new) (λ had has. has ≡ had) }
    ensures telling { is_some (T.tells door.new) ≡ is_some (T.tells door.old) }
    ensures halts { StopsByReply (T.tells door.old) (T.tells door.new) 1 1 result.entry.reply }
    ensures halted { ExcusesByStop (T.tells door.old) result.entry.reply }
    ensures later { guest.seen ≤ result.entry.ticket }
    ensures seen { result.guest.seen ≡ suc result.entry.ticket }
{
    match door.sync_file(right, file, commits) {
        Ok(_) => {
            an_acknowledgement_is_drawn();
            right.join(table, guest);
            let desc = ask.desc;
            let entry = draw_reply(table, right, ask, by, Reply::Done);
            let own = right.split(table, PartName::File(file.file()));
            let guest = mem::replace(right, own);
            Served { entry, desc, guest }
        }
        Err(fault) => {
            let cause = excuse_of(fault);
            serve_excused(table, right, file, commits, ask, guest, by, cause)
        }
    }
}
