// A request of the names is applied and drawn, by a hand that has its client, the names, a pool and the file that it touches.
ghost use Rattle.std.specs.Prelude.{ℕ, ◌≡◌, ◌<◌, ◌≤◌, ◌+◌, ◌^◌, ◌⊎◌, [], ◌∷◌, true, false, cond, is_some, None, Some, IfSome, IsSome};
ghost use Rattle.std.specs.FinMap as map;
ghost use Rattle.ufs_bitmap.specs.Blocks.{BlockSet};
ghost use Rattle.ufs_client.specs.Played.{tells_fault};
ghost use Rattle.ufs_file_commits.specs.State.{state_of};
ghost use Rattle.ufs_file.specs.Hand.{IsEntryOf};
ghost use Rattle.ufs_layout.specs.Areas.{IsGeometry};
ghost use Rattle.ufs_model.specs.Asks.{fd_told};
ghost use Rattle.ufs_model.specs.History.{is_excused};
ghost use Rattle.ufs_model.specs.declared.data.Excuse.{Excuse};
ghost use Rattle.ufs_model.specs.declared.data.Reply.TheVariants as reply;
ghost use Rattle.ufs_names.specs.Calls.{no_bytes};
ghost use Rattle.ufs_names.specs.Space.{IsCause};
ghost use Rattle.ufs_hand_laws.specs.Parts.{ClientPart};
ghost use Rattle.ufs_joint.specs.Cells.{FileCell, NamesCell};
ghost use Rattle.ufs_joint.specs.Draws.{drawn};
ghost use Rattle.ufs_joint.specs.NamesHands.{IsNamesHand};
ghost use Rattle.ufs_joint.specs.Rule.{MayDrawAny};
ghost use Rattle.ufs_joint.specs.Servers.{IsServer};
ghost use Rattle.ufs_noted.specs.Known.{commits_in, file_in};
ghost use Rattle.ufs_noted.specs.Noted.{HasServedWith, MayLack, one_file, one_known};
ghost use Rattle.ufs_held.specs.Drawn.{fresh_of};
ghost use Rattle.ufs_held_names.specs.Asked.{IsNeeded};
ghost use Rattle.ufs_held_names.specs.Asking.{AsksNames};
ghost use Rattle.ufs_held_names.specs.Drawn.{made_number, names_left, new_cells, next_cells};
ghost use Rattle.ufs_held_names.specs.HeldNames.{noted_in};

use std::marker::Brand;
use ufs_bitmap::Pool;
use ufs_file::{Applied, FileHand};
use ufs_hand_laws::Fresh;
use ufs_joint::{
    Hand, HandTable, Leaving, Naming, a_names_excuse_is_drawn, a_names_request_is_drawn, lent_law,
};
use ufs_layout::Geometry;
use ufs_model::{Actor, Ask, Desc, Entry};
use ufs_noted::{KnownFile, Made, NotedNames, With};
use ufs_promise_laws::served_names_law;

// Applies a request that touches no live file, and draws its entry.
pub(crate) fn draw_alone<N: Naming>(
    table: &HandTable<N>,
    right: &mut Hand<N>,
    noted: &mut NotedNames,
    ask: Ask,
    by: Actor,
    pool: &mut Pool,
    geometry: &Geometry,
) -> Made
    requires formed { IsGeometry geometry.now }
    requires its { geometry.now ≡ N.start.geometry }
    requires hand { (part : ClientPart) × (names : NamesCell) × (n : ℕ) × IsNamesHand right.old ask.client part names n pool.old × (right.old.files ≡ []) × (noted_in names ≡ noted.old) × AsksNames part ask }
    requires server { IsServer by }
    requires numbers { noted.old.names.next < 2 ^ 31 }
    requires needed { IsNeeded noted.old.names ask None }
    ensures entry { IsEntryOf ask by result.applied.entry.ticket result.applied.entry }
    ensures cells { right.new ≡ drawn result.applied.entry.ticket (fresh_of result.applied.entry) (names_left (fresh_of result.applied.entry) right.old noted.new pool.new result.applied.desc (new_cells result.file) result.applied.entry.ticket) right.old }
    ensures served { is_excused result.applied.entry.reply ≡ false → HasServedWith ask noted.old noted.new map.empty (one_file noted.old.names.next result.file) map.empty map.empty pool.old pool.new None result.applied.entry.reply result.applied.desc }
    ensures young { IfSome result.file (λ file. file ≡ no_bytes noted.old.names.next file.inode) }
    ensures lives { (f : ℕ) → IsSome (map.get noted.new.names.held f) → IsSome (map.get noted.old.names.held f) ⊎ (made_number result.file ≡ Some f) }
    ensures next { noted.new.names.next ≡ cond (is_some result.file) (noted.old.names.next + 1) noted.old.names.next }
    ensures cause { (x : Excuse) → result.applied.entry.reply ≡ reply.Excused x → (lent : BlockSet) × MayLack pool.old lent x × IsCause noted.old.names.tree.dirs lent ask.op x }
    ensures unchanged { is_excused result.applied.entry.reply ≡ true → noted.new ≡ noted.old }
    ensures untaken { is_excused result.applied.entry.reply ≡ true → pool.new ≡ pool.old }
    ensures none { is_excused result.applied.entry.reply ≡ true → result.file ≡ None }
    ensures desc { is_excused result.applied.entry.reply ≡ true → result.applied.desc ≡ ask.desc }
    ensures no_desc { fd_told result.applied.entry.op result.applied.entry.reply ≡ None → result.applied.desc ≡ None }
    ensures faultless { tells_fault result.applied.entry.reply ≡ false }
    ensures faults { right.new.faults ≡ right.old.faults }
    ensures later { right.old.seen ≤ result.applied.entry.ticket }
{
    a_names_request_is_drawn(geometry);
    a_names_excuse_is_drawn();
    served_names_law();
    lent_law();
    right.look(table);
    let Made { applied, file } = noted.apply_alone(ask, by, pool);
    let Applied { entry, desc } = applied;
    let Entry {
        ticket: _,
        client,
        seq,
        by,
        op,
        reply,
    } = entry;
    let fresh = Fresh {
        client,
        seq,
        by,
        op,
        reply,
    };
    let ticket = draw_made::<N, Brand>(table, right, &fresh, noted, pool, desc, &file);
    let Fresh {
        client,
        seq,
        by,
        op,
        reply,
    } = fresh;
    let entry = Entry {
        ticket,
        client,
        seq,
        by,
        op,
        reply,
    };
    Made {
        applied: Applied { entry, desc },
        file,
    }
}

// Applies a request that touches this live file, and draws its entry.
pub(crate) fn draw_with<N: Naming>(
    table: &HandTable<N>,
    right: &mut Hand<N>,
    noted: &mut NotedNames,
    ask: Ask,
    by: Actor,
    pool: &mut Pool,
    file: KnownFile,
    geometry: &Geometry,
) -> With
    requires formed { IsGeometry geometry.now }
    requires its { geometry.now ≡ N.start.geometry }
    requires hand { (part : ClientPart) × (names : NamesCell) × (n : ℕ) × (cell : FileCell) × IsNamesHand right.old ask.client part names n pool.old × (right.old.files ≡ (file.hand.file, cell) ∷ []) × (cell.value ≡ state_of file.hand file.commits) × (noted_in names ≡ noted.old) × AsksNames part ask }
    requires server { IsServer by }
    requires numbers { noted.old.names.next < 2 ^ 31 }
    requires needed { IsNeeded noted.old.names ask (Some file.hand.file) }
    ensures entry { IsEntryOf ask by result.applied.entry.ticket result.applied.entry }
    ensures cells { right.new ≡ drawn result.applied.entry.ticket (fresh_of result.applied.entry) (names_left (fresh_of result.applied.entry) right.old noted.new pool.new result.applied.desc (next_cells result.file right.old.files) result.applied.entry.ticket) right.old }
    ensures served { is_excused result.applied.entry.reply ≡ false → HasServedWith ask noted.old noted.new (one_file file.hand.file (Some file.hand)) (one_file file.hand.file (file_in result.file)) (one_known file.hand.file (Some file.commits)) (one_known file.hand.file (commits_in result.file)) pool.old pool.new (Some file.hand.file) result.applied.entry.reply result.applied.desc }
    ensures number { IfSome result.file (λ kept. kept.hand.file ≡ file.hand.file) }
    ensures lives { (f : ℕ) → IsSome (map.get noted.new.names.held f) → IsSome (map.get noted.old.names.held f) }
    ensures next { noted.new.names.next ≡ noted.old.names.next }
    ensures gone { is_excused result.applied.entry.reply ≡ false → result.file ≡ None → map.get noted.new.names.held file.hand.file ≡ None }
    ensures cause { (x : Excuse) → result.applied.entry.reply ≡ reply.Excused x → (lent : BlockSet) × MayLack pool.old lent x × IsCause noted.old.names.tree.dirs lent ask.op x }
    ensures unchanged { is_excused result.applied.entry.reply ≡ true → noted.new ≡ noted.old }
    ensures untaken { is_excused result.applied.entry.reply ≡ true → pool.new ≡ pool.old }
    ensures kept { is_excused result.applied.entry.reply ≡ true → result.file ≡ Some file }
    ensures desc { is_excused result.applied.entry.reply ≡ true → result.applied.desc ≡ ask.desc }
    ensures no_desc { fd_told result.applied.entry.op result.applied.entry.reply ≡ None → result.applied.desc ≡ None }
    ensures faultless { tells_fault result.applied.entry.reply ≡ false }
    ensures faults { right.new.faults ≡ right.old.faults }
    ensures later { right.old.seen ≤ result.applied.entry.ticket }
{
    a_names_request_is_drawn(geometry);
    a_names_excuse_is_drawn();
    served_names_law();
    lent_law();
    right.look(table);
    let With { applied, file } = noted.apply_with(ask, by, pool, file);
    let Applied { entry, desc } = applied;
    let Entry {
        ticket: _,
        client,
        seq,
        by,
        op,
        reply,
    } = entry;
    let fresh = Fresh {
        client,
        seq,
        by,
        op,
        reply,
    };
    let ticket = draw_kept_file::<N, Brand>(table, right, &fresh, noted, pool, desc, &file);
    let Fresh {
        client,
        seq,
        by,
        op,
        reply,
    } = fresh;
    let entry = Entry {
        ticket,
        client,
        seq,
        by,
        op,
        reply,
    };
    With {
        applied: Applied { entry, desc },
        file,
    }
}

// Draws the entry. The hand has the new file's cell then, if one was made.
fn draw_made<N: Naming, L: Leaving>(
    table: &HandTable<N>,
    right: &mut Hand<N>,
    fresh: &Fresh,
    noted: &NotedNames,
    pool: &Pool,
    desc: Option<Desc>,
    file: &Option<FileHand>,
) -> u64
    requires leaves { L.leaves ≡ names_left fresh.now right.old noted.now pool.now desc (new_cells file.now) }
    requires may { MayDrawAny N.start right.old fresh.now (names_left fresh.now right.old noted.now pool.now desc (new_cells file.now)) }
    ensures cells { right.new ≡ drawn result fresh.now (names_left fresh.now right.old noted.now pool.now desc (new_cells file.now) result) right.old }
    ensures later { right.old.seen ≤ result }
{
    // For the prover alone.
    let _ = noted;
    let _ = pool;
    let _ = desc;
    let _ = file;
    right.draw::<L>(table, fresh)
}

// Draws the entry. The touched file's cell goes on to what is known of it then, or goes.
fn draw_kept_file<N: Naming, L: Leaving>(
    table: &HandTable<N>,
    right: &mut Hand<N>,
    fresh: &Fresh,
    noted: &NotedNames,
    pool: &Pool,
    desc: Option<Desc>,
    file: &Option<KnownFile>,
) -> u64
    requires leaves { L.leaves ≡ names_left fresh.now right.old noted.now pool.now desc (next_cells file.now right.old.files) }
    requires may { MayDrawAny N.start right.old fresh.now (names_left fresh.now right.old noted.now pool.now desc (next_cells file.now right.old.files)) }
    ensures cells { right.new ≡ drawn result fresh.now (names_left fresh.now right.old noted.now pool.now desc (next_cells file.now right.old.files) result) right.old }
    ensures later { right.old.seen ≤ result }
{
    // For the prover alone.
    let _ = noted;
    let _ = pool;
    let _ = desc;
    let _ = file;
    right.draw::<L>(table, fresh)
}
