// A request that couldn't be done is excused, by a hand that has its client and the file.
ghost use Rattle.std.specs.Prelude.{ℕ, ◌≡◌, ◌≢◌, ◌≤◌, suc, [], IsTrue, true, false, None, Some};
ghost use Rattle.ufs_bitmap.specs.Blocks.{BlockSet};
ghost use Rattle.ufs_file_commits.specs.State.{state_of};
ghost use Rattle.ufs_file.specs.Hand.{IsEntryOf, IsOf};
ghost use Rattle.ufs_model.specs.FileCalls.{file_refusal};
ghost use Rattle.ufs_model.specs.declared.data.Desc.{Desc};
ghost use Rattle.ufs_model.specs.declared.data.Excuse.TheVariants as excuse;
ghost use Rattle.ufs_model.specs.declared.data.Reply.TheVariants as reply;
ghost use Rattle.ufs_crash_laws.specs.Changes.{asks_commit};
ghost use Rattle.ufs_hand_laws.specs.Parts.{ClientPart};
ghost use Rattle.ufs_joint.specs.Servers.{IsServer};
ghost use Rattle.ufs_store.specs.Refusals.{fault_of, is_no_space, is_own};
ghost use Rattle.ufs_store.specs.declared.fault.StoreFault.TheVariants as refusal;
ghost use Rattle.ufs_turns.specs.Told.{fault_told, told_list};
ghost use Rattle.ufs_held.specs.Asking.{Asks, IsAnswered, IsGuest, faults_of, is_of_turn};
ghost use Rattle.ufs_held.specs.Held.{IsHeld, first_cell};
ghost use Rattle.ufs_held.specs.Serving.{is_of_read};

use crate::held::Served;
use crate::replies::draw_reply;
use std::mem;
use ufs_base::Lack;
use ufs_file::FileHand;
use ufs_file_commits::FileCommits;
use ufs_joint::{Hand, HandTable, Naming, an_excuse_is_drawn};
use ufs_model::{Actor, Ask, Excuse, PartName, Reply, a_file_goes_on_by_itself};
use ufs_store::StoreFault;

/// The excuse for what a turn of the store refused. The last number of the disk's count may be told twice, so it is no fault's.
pub fn excuse_of(fault: StoreFault) -> Excuse
    requires { is_no_space fault ≡ false }
    ensures kind { is_of_turn result ≡ true }
    ensures read { IsTrue (is_own fault) → is_of_read result ≡ true }
    ensures used { told_list (fault_told (fault_of fault)) ≡ faults_of result }
    ensures stopped { (number : ℕ) → result ≡ excuse.Stopped number → fault ≡ refusal.Stopped number }
    ensures halted { (number : ℕ) → fault ≡ refusal.Stopped number → result ≡ excuse.Stopped number }
{
    match fault {
        StoreFault::Device { fault } if fault < u64::MAX => Excuse::Device { fault },
        StoreFault::Device { .. } => Excuse::from(Lack::AtEnd),
        StoreFault::Stopped { fault } => Excuse::Stopped { fault },
        StoreFault::Lack(lack) => Excuse::from(lack),
        StoreFault::NoSpace { .. } => unreachable!(),
    }
}

// Draws the entry with the excuse. The file is as it was. The hand was told of just the fault that excuses; where the request asks for a
// commit, the store stopped at it.
pub(crate) fn serve_excused<N: Naming>(
    table: &HandTable<N>,
    right: &mut Hand<N>,
    file: &FileHand,
    commits: &FileCommits,
    ask: Ask,
    guest: Hand<N>,
    by: Actor,
    cause: Excuse,
) -> Served<N>
    requires held { IsHeld (state_of file.now commits.now) right.old }
    requires guest { (part : ClientPart) × (n : ℕ) × (pool : BlockSet) × IsGuest ask.client part n pool guest × Asks part ask × (n ≢ file.now.file) }
    requires server { IsServer by }
    requires named { IsOf ask.desc file.now.file }
    requires allowed { (d : Desc) → ask.desc ≡ Some d → file_refusal file.now.content.bytes d ask.op ≡ None }
    requires kind { is_of_turn cause ≡ true }
    requires told { right.old.faults ≡ faults_of cause }
    requires stopped { (fault : ℕ) → cause ≡ excuse.Stopped fault → right.old.stop ≡ Some fault }
    requires committed { (fault : ℕ) → asks_commit ask.op ≡ true → cause ≡ excuse.Device fault → right.old.stop ≡ Some fault }
    requires asks { (fault : ℕ) → cause ≡ excuse.Stopped fault → asks_commit ask.op ≡ true }
    ensures held { IsHeld (state_of file.now commits.now) right.new }
    ensures calm { right.new.faults ≡ [] }
    ensures entry { IsEntryOf ask by result.entry.ticket result.entry }
    ensures replied { result.entry.reply ≡ reply.Excused cause }
    ensures desc { result.desc ≡ ask.desc }
    ensures guest { (part : ClientPart) (n : ℕ) (pool : BlockSet) → IsGuest ask.client part n pool guest → n ≢ file.now.file → (after : ClientPart) × IsAnswered part result.entry result.desc after × IsGuest ask.client after n pool result.guest }
    ensures cell { first_cell (state_of file.now commits.now) right.new.files ≡ first_cell (state_of file.now commits.now) right.old.files }
    ensures faults { result.guest.faults ≡ guest.faults }
    ensures stop { (fault : ℕ) → cause ≡ excuse.Stopped fault → result.guest.stop ≡ Some fault }
    ensures later { guest.seen ≤ result.entry.ticket }
    ensures seen { result.guest.seen ≡ suc result.entry.ticket }
{
    a_file_goes_on_by_itself();
    an_excuse_is_drawn();
    right.join(table, guest);
    let desc = ask.desc;
    let entry = draw_reply(table, right, ask, by, Reply::Excused(cause));
    let own = right.split(table, PartName::File(file.file()));
    let guest = mem::replace(right, own);
    // For the prover alone.
    let _ = commits;
    Served { entry, desc, guest }
}
