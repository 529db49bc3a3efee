// A request on a file is applied and drawn, by a hand that has its client, the file and a pool.
ghost use Rattle.std.specs.Prelude.{ℕ, List, ◌≡◌, ◌≤◌, true, false, None, Some};
ghost use Rattle.ufs_file.specs.Content.{IsContentOf};
ghost use Rattle.ufs_file.specs.Hand.{HasNeeded, IsEntryOf, IsExcusedFor, IsOf, whole_as};
ghost use Rattle.ufs_model.specs.Bounds.{IsBounded};
ghost use Rattle.ufs_model.specs.FileCalls.{file_refusal, file_step};
ghost use Rattle.ufs_model.specs.History.{is_excused};
ghost use Rattle.ufs_model.specs.declared.data.Desc.{Desc};
ghost use Rattle.ufs_model.specs.declared.data.Excuse.{Excuse};
ghost use Rattle.ufs_model.specs.declared.data.Reply.TheVariants as reply;
ghost use Rattle.ufs_file_commits.specs.Serving.{IsServedKept};
ghost use Rattle.ufs_file_commits.specs.State.{state_of, whole_of};
ghost use Rattle.ufs_crash_laws.specs.Changes.{asks_commit};
ghost use Rattle.ufs_hand_laws.specs.Parts.{ClientPart};
ghost use Rattle.ufs_joint.specs.Cells.{FileCell};
ghost use Rattle.ufs_joint.specs.Draws.{drawn};
ghost use Rattle.ufs_joint.specs.FileHands.{IsFileHand};
ghost use Rattle.ufs_joint.specs.Rule.{MayDrawAny};
ghost use Rattle.ufs_joint.specs.Servers.{IsServer};
ghost use Rattle.ufs_held.specs.Asking.{Asks};
ghost use Rattle.ufs_held.specs.Drawn.{fresh_of, held_leaves};

use std::marker::Brand;
use ufs_bitmap::Pool;
use ufs_file::{Applied, FileHand};
use ufs_file_commits::{FileCommits, apply};
use ufs_hand_laws::Fresh;
use ufs_joint::{Hand, HandTable, Leaving, Naming, a_file_request_is_drawn, an_excuse_is_drawn};
use ufs_model::{Actor, Ask, Desc, Entry};

// Applies the request and draws its entry.
pub(crate) fn draw_served<N: Naming>(
    table: &HandTable<N>,
    right: &mut Hand<N>,
    file: &mut FileHand,
    commits: &mut FileCommits,
    ask: Ask,
    by: Actor,
    pool: &mut Pool,
) -> Applied
    requires hand { (part : ClientPart) × (cell : FileCell) × (n : ℕ) × IsFileHand right.old ask.client part file.old.file cell n pool.old × (cell.value ≡ state_of file.old commits.old) × Asks part ask }
    requires server { IsServer by }
    requires no_commit { asks_commit ask.op ≡ false }
    requires bounded { IsBounded ask.op }
    requires named { IsOf ask.desc file.old.file }
    requires there { (d : Desc) → ask.desc ≡ Some d → file_refusal file.old.content.bytes d ask.op ≡ None → HasNeeded file.old.content d ask.op }
    ensures entry { IsEntryOf ask by result.entry.ticket result.entry }
    ensures cells { right.new ≡ drawn result.entry.ticket (fresh_of result.entry) (held_leaves (fresh_of result.entry) right.old (state_of file.new commits.new) pool.new result.desc result.entry.ticket) right.old }
    ensures number { file.new.file ≡ file.old.file }
    ensures served { is_excused result.entry.reply ≡ false → (d : Desc) → ask.desc ≡ Some d → (bytes : List ℕ) → IsContentOf (state_of file.old commits.old).file.content bytes
        → IsServedKept (whole_of bytes (state_of file.old commits.old)) (whole_of (file_step bytes d ask.op).bytes (state_of file.new commits.new)) pool.old pool.new d ask.op result.entry.reply result.desc }
    ensures excused { (x : Excuse) → result.entry.reply ≡ reply.Excused x → (d : Desc) → ask.desc ≡ Some d → (bytes : List ℕ) → IsContentOf (state_of file.old commits.old).file.content bytes → IsExcusedFor (whole_as bytes (state_of file.old commits.old).file) d ask.op pool.old x }
    ensures untaken { is_excused result.entry.reply ≡ true → pool.new ≡ pool.old }
    ensures kept { is_excused result.entry.reply ≡ true → state_of file.new commits.new ≡ state_of file.old commits.old }
    ensures desc { is_excused result.entry.reply ≡ true → result.desc ≡ ask.desc }
    ensures faults { right.new.faults ≡ right.old.faults }
    ensures later { right.old.seen ≤ result.entry.ticket }
{
    a_file_request_is_drawn();
    an_excuse_is_drawn();
    right.look(table);
    let Applied { entry, desc } = apply(file, commits, ask, by, 0, pool);
    let Entry {
        ticket: _,
        client,
        seq,
        by,
        op,
        reply,
    } = entry;
    let fresh = Fresh {
        client,
        seq,
        by,
        op,
        reply,
    };
    let ticket = draw_entry::<N, Brand>(table, right, &fresh, file, commits, pool, desc);
    let Fresh {
        client,
        seq,
        by,
        op,
        reply,
    } = fresh;
    Applied {
        entry: Entry {
            ticket,
            client,
            seq,
            by,
            op,
            reply,
        },
        desc,
    }
}

// Draws the entry. The file's cell goes on to what the file has, and the pool's to the pool.
fn draw_entry<N: Naming, L: Leaving>(
    table: &HandTable<N>,
    right: &mut Hand<N>,
    fresh: &Fresh,
    file: &FileHand,
    commits: &FileCommits,
    pool: &Pool,
    desc: Option<Desc>,
) -> u64
    requires leaves { L.leaves ≡ held_leaves fresh.now right.old (state_of file.now commits.now) pool.now desc }
    requires may { MayDrawAny N.start right.old fresh.now (held_leaves fresh.now right.old (state_of file.now commits.now) pool.now desc) }
    ensures cells { right.new ≡ drawn result fresh.now (held_leaves fresh.now right.old (state_of file.now commits.now) pool.now desc result) right.old }
    ensures later { right.old.seen ≤ result }
{
    // For the prover alone.
    let _ = file;
    let _ = commits;
    let _ = pool;
    let _ = desc;
    right.draw::<L>(table, fresh)
}
