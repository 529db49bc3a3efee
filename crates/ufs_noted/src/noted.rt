// The names at a server, with what was noted of them since their last commit.
use crate::applying::tells_excuse;
use crate::known::{KnownFile, Made, Place, With, exchange, make_place, settle, take_out};
use std::alloc::Global;
use std::marker::Model;
use ufs_base::{Lack, Memory};
use ufs_bitmap::Pool;
use ufs_file::{Applied, FileHand, out_of_memory};
use ufs_files::FileHands;
use ufs_model::{Actor, Ask};
use ufs_names::Names;

/// The namespace, and the blocks that directories took and that were dropped since its last commit. It has no file.
#[derive(Drop)]
pub struct NotedNames {
    pub(crate) alloc: Global,
    pub(crate) names: Names,
    /// The next file number.
    pub(crate) next: u32,
    /// The blocks that directories took since the last commit of names.
    pub(crate) fresh: Vec<u32>,
    /// The blocks that directories and removed files dropped since then. A crash may still give them back.
    pub(crate) dropped: Pool,
    /// The block that a request may take, and the blocks that it gives back. None between requests.
    pub(crate) lent: Pool,
}

impl Model for NotedNames {
    ghost use Rattle.std.specs.Prelude.{◌≡◌};
    ghost use Rattle.std.specs.FinSet as set;
    ghost use Rattle.ufs_noted.specs.Noted.{Noted, noted_code};

    ghost Value = { Noted };

    ghost coded = { noted_code };

    ghost view = { λ n. record { names = n.names; fresh = n.fresh.items; dropped = n.dropped } };

    ghost invariant = { λ n. (n.next ≡ n.names.next) × (n.lent ≡ set.empty) };
}

impl NotedNames {
    ghost use Rattle.std.specs.Prelude.{ℕ, ◌≡◌, ◌≢◌, ◌<◌, ◌^◌, [], true, false, Some, None, IfOk, IfSome};
    ghost use Rattle.std.specs.FinMap as map;
    ghost use Rattle.std.specs.FinSet as set;
    ghost use Rattle.ufs_bitmap.specs.Blocks.{BlockSet};
    ghost use Rattle.ufs_file_commits.specs.State.{IsNoted, state_of};
    ghost use Rattle.ufs_file.specs.Hand.{IsEntryOf};
    ghost use Rattle.ufs_model.specs.Asks.{IsAsk};
    ghost use Rattle.ufs_model.specs.Excuses.{ExcuseFits};
    ghost use Rattle.ufs_model.specs.History.{is_excused};
    ghost use Rattle.ufs_model.specs.PosixTree.{PosixTree};
    ghost use Rattle.ufs_model.specs.Touched.{touched_parts};
    ghost use Rattle.ufs_model.specs.declared.data.Excuse.{Excuse};
    ghost use Rattle.ufs_model.specs.declared.data.Op.TheVariants as op;
    ghost use Rattle.ufs_model.specs.declared.data.Reply.TheVariants as reply;
    ghost use Rattle.ufs_names.specs.Calls.{IsAsked, IsOfNames, IsTouched, no_bytes};
    ghost use Rattle.ufs_names.specs.NamesPart.{IsNamesPart};
    ghost use Rattle.ufs_names.specs.Needs.{AreFilesIn, listed};
    ghost use Rattle.ufs_names.specs.Notes.{with_notes};
    ghost use Rattle.ufs_names.specs.Space.{AreApart, IsCause};
    ghost use Rattle.ufs_noted.specs.Known.{commits_in, file_in};
    ghost use Rattle.ufs_noted.specs.Noted.{HasApplied, HasServedWith, MayLack, one_file, one_known};

    /// Names that are committed as they are here, of which the next file has this number.
    pub fn new(alloc: Global, names: Names, next: u32) -> Result<NotedNames, Memory>
        requires { names.next ≡ next }
        ensures { IfOk result (λ n. n ≡ record { names = with_notes (Some []) names; fresh = []; dropped = set.empty }) }
    {
        let mut names = names;
        names.begin_notes();
        Ok(NotedNames {
            alloc,
            names,
            next,
            fresh: Vec::new(alloc),
            dropped: Pool::make(alloc)?,
            lent: Pool::make(alloc)?,
        })
    }

    /// The next file number.
    pub fn next_number(&self) -> u32
        ensures { result ≡ self.now.names.next }
    {
        self.next
    }

    /// The one live file that a request touches, if it does one: `apply_with` wants it. A `sync` touches all, and isn't asked for here.
    pub fn needed(&self, ask: &Ask) -> Result<Option<u32>, Memory>
        requires client { ask.now.client < 16 }
        requires kind { IsOfNames ask.now }
        requires one { ask.now.op ≢ op.Sync }
        ensures { IfOk result (λ file. (t : PosixTree) → IsNamesPart self.now.names t → IsAsk t ask.now → AreFilesIn t (touched_parts t ask.now.client ask.now.op) (listed file)) }
    {
        self.names.needs_one(ask)
    }

    /// Serves a request that touches no live file. Answers the file that it made, if it did. An excuse changes nothing.
    pub fn apply_alone(&mut self, ask: Ask, by: Actor, pool: &mut Pool) -> Made
        requires client { ask.client < 16 }
        requires numbers { self.old.names.next < 2 ^ 31 }
        requires kind { IsOfNames ask }
        requires asked { (t : PosixTree) × IsAsked t self.old.names ask map.empty }
        requires apart { (lent : BlockSet) → ((block : ℕ) → set.contains lent block ≡ true → set.contains pool.old block ≡ true) → AreApart self.old.names.tree.dirs map.empty lent }
        ensures entry { IsEntryOf ask by 0 result.applied.entry }
        ensures served { is_excused result.applied.entry.reply ≡ false → HasServedWith ask self.old self.new map.empty (one_file self.old.names.next result.file) map.empty map.empty pool.old pool.new None result.applied.entry.reply result.applied.desc }
        ensures young { IfSome result.file (λ file. file ≡ no_bytes self.old.names.next file.inode) }
        ensures cause { (x : Excuse) → result.applied.entry.reply ≡ reply.Excused x → (lent : BlockSet) × MayLack pool.old lent x × IsCause self.old.names.tree.dirs lent ask.op x }
        ensures fits { (x : Excuse) → result.applied.entry.reply ≡ reply.Excused x → (t : PosixTree) → IsAsked t self.old.names ask map.empty → ExcuseFits t ask.client ask.op x }
        ensures unchanged { is_excused result.applied.entry.reply ≡ true → self.new ≡ self.old }
        ensures untaken { is_excused result.applied.entry.reply ≡ true → pool.new ≡ pool.old }
        ensures none { is_excused result.applied.entry.reply ≡ true → result.file ≡ None }
        ensures desc { is_excused result.applied.entry.reply ≡ true → result.applied.desc ≡ ask.desc }
    {
        let next = self.next;
        let young = match FileHand::make(self.alloc, next, 0) {
            Ok(young) => young,
            Err(memory) => {
                return Made {
                    applied: out_of_memory(ask, by, 0, Lack::Memory(memory)),
                    file: None,
                };
            }
        };
        let mut files = FileHands::new(self.alloc);
        let applied = self.apply_lent(ask, by, pool, &mut files);
        Made {
            applied,
            file: take_out(&mut files, next, young),
        }
    }

    /// Serves a request that touches this live file. Answers it, if it is still there. An excuse changes nothing.
    pub fn apply_with(&mut self, ask: Ask, by: Actor, pool: &mut Pool, file: KnownFile) -> With
        requires client { ask.client < 16 }
        requires numbers { self.old.names.next < 2 ^ 31 }
        requires kind { IsOfNames ask }
        requires one { ask.op ≢ op.Sync }
        requires noted { IsNoted (state_of file.hand file.commits) }
        requires asked { (t : PosixTree) × IsAsked t self.old.names ask (one_file file.hand.file (Some file.hand)) }
        requires touched { (t : PosixTree) → IsAsked t self.old.names ask (one_file file.hand.file (Some file.hand)) → IsTouched t ask file.hand.file }
        requires apart { (lent : BlockSet) → ((block : ℕ) → set.contains lent block ≡ true → set.contains pool.old block ≡ true) → AreApart self.old.names.tree.dirs (one_file file.hand.file (Some file.hand)) lent }
        ensures entry { IsEntryOf ask by 0 result.applied.entry }
        ensures served { is_excused result.applied.entry.reply ≡ false → HasServedWith ask self.old self.new (one_file file.hand.file (Some file.hand)) (one_file file.hand.file (file_in result.file)) (one_known file.hand.file (Some file.commits)) (one_known file.hand.file (commits_in result.file)) pool.old pool.new (Some file.hand.file) result.applied.entry.reply result.applied.desc }
        ensures number { IfSome result.file (λ kept. kept.hand.file ≡ file.hand.file) }
        ensures cause { (x : Excuse) → result.applied.entry.reply ≡ reply.Excused x → (lent : BlockSet) × MayLack pool.old lent x × IsCause self.old.names.tree.dirs lent ask.op x }
        ensures fits { (x : Excuse) → result.applied.entry.reply ≡ reply.Excused x → (t : PosixTree) → IsAsked t self.old.names ask (one_file file.hand.file (Some file.hand)) → ExcuseFits t ask.client ask.op x }
        ensures unchanged { is_excused result.applied.entry.reply ≡ true → self.new ≡ self.old }
        ensures untaken { is_excused result.applied.entry.reply ≡ true → pool.new ≡ pool.old }
        ensures kept { is_excused result.applied.entry.reply ≡ true → result.file ≡ Some file }
        ensures desc { is_excused result.applied.entry.reply ≡ true → result.applied.desc ≡ ask.desc }
    {
        let place = match make_place(self.alloc, &file.hand) {
            Ok(place) => place,
            Err(memory) => {
                return With {
                    applied: out_of_memory(ask, by, 0, Lack::Memory(memory)),
                    file: Some(file),
                };
            }
        };
        let Place {
            mut files,
            before,
            none,
        } = place;
        let KnownFile { hand, commits } = file;
        let number = hand.file();
        let empty = exchange(&mut files, number, hand);
        let applied = self.apply_lent(ask, by, pool, &mut files);
        let excused = tells_excuse(&applied.entry.reply);
        files.are_numbered();
        let taken = take_out(&mut files, number, empty);
        let file = settle(&mut self.dropped, taken, commits, &before, &none, excused);
        With { applied, file }
    }
}
