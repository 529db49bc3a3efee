// The names apply a request, with a block of the pool where a directory lacks one.
ghost use Rattle.std.specs.Prelude.{ℕ, ◌≡◌, ◌≢◌, ◌<◌, ◌≤◌, ◌+◌, ◌^◌, ◌++◌, true, false, cond, is_some, length, vec_capacity};
ghost use Rattle.std.specs.FinMap as map;
ghost use Rattle.ufs_file.specs.Hand.{IsEntryOf};
ghost use Rattle.ufs_model.specs.History.{is_excused};
ghost use Rattle.ufs_model.specs.declared.data.Actor.{Actor};
ghost use Rattle.ufs_model.specs.declared.data.Ask.{Ask};
ghost use Rattle.ufs_model.specs.declared.data.Excuse.TheVariants as excuse;
ghost use Rattle.ufs_model.specs.declared.data.Reply.TheVariants as answer;
ghost use Rattle.ufs_pouring.specs.Lent.{listed};

use crate::noted::NotedNames;
use ufs_base::Lack;
use ufs_bitmap::Pool;
use ufs_file::{Applied, out_of_memory};
use ufs_files::FileHands;
use ufs_model::{Actor, Ask, Entry, Excuse, Reply};
use ufs_pouring::{lend, pour};

impl NotedNames {
    ghost use Rattle.std.specs.Prelude.{ℕ, ◌≡◌, ◌<◌, ◌^◌, true, false};
    ghost use Rattle.std.specs.FinSet as set;
    ghost use Rattle.ufs_bitmap.specs.Blocks.{BlockSet};
    ghost use Rattle.ufs_file.specs.Hand.{IsEntryOf};
    ghost use Rattle.ufs_model.specs.Excuses.{ExcuseFits};
    ghost use Rattle.ufs_model.specs.History.{is_excused};
    ghost use Rattle.ufs_model.specs.PosixTree.{PosixTree};
    ghost use Rattle.ufs_model.specs.declared.data.Excuse.{Excuse};
    ghost use Rattle.ufs_model.specs.declared.data.Reply.TheVariants as answer;
    ghost use Rattle.ufs_names.specs.Calls.{IsAsked, IsOfNames};
    ghost use Rattle.ufs_names.specs.Space.{AreApart, IsCause};
    ghost use Rattle.ufs_noted.specs.Noted.{HasApplied, MayLack};

    // Serves a request with these files, and with a block of the pool where a directory lacks one.
    pub(crate) fn apply_lent(
        &mut self,
        ask: Ask,
        by: Actor,
        pool: &mut Pool,
        files: &mut FileHands,
    ) -> Applied
        requires client { ask.client < 16 }
        requires numbers { self.old.names.next < 2 ^ 31 }
        requires kind { IsOfNames ask }
        requires asked { (t : PosixTree) × IsAsked t self.old.names ask files.old }
        requires apart { (lent : BlockSet) → ((block : ℕ) → set.contains lent block ≡ true → set.contains pool.old block ≡ true) → AreApart self.old.names.tree.dirs files.old lent }
        ensures entry { IsEntryOf ask by 0 result.entry }
        ensures served { is_excused result.entry.reply ≡ false → HasApplied ask self.old self.new files.old files.new pool.old pool.new result.entry.reply result.desc }
        ensures cause { (x : Excuse) → result.entry.reply ≡ answer.Excused x → (lent : BlockSet) × MayLack pool.old lent x × IsCause self.old.names.tree.dirs lent ask.op x }
        ensures fits { (x : Excuse) → result.entry.reply ≡ answer.Excused x → (t : PosixTree) → IsAsked t self.old.names ask files.old → ExcuseFits t ask.client ask.op x }
        ensures unchanged { is_excused result.entry.reply ≡ true → self.new ≡ self.old }
        ensures files { is_excused result.entry.reply ≡ true → files.new ≡ files.old }
        ensures untaken { is_excused result.entry.reply ≡ true → pool.new ≡ pool.old }
        ensures desc { is_excused result.entry.reply ≡ true → result.desc ≡ ask.desc }
    {
        let (fd, last) = (ask.fd, ask.last);
        let first = self.apply_once(ask, by, pool, files, false);
        if !lacks_block(&first.entry.reply) {
            return first;
        }
        self.apply_once(again(first, fd, last), by, pool, files, true)
    }

    // The same with one block of the pool, where `lends` says so, or none.
    fn apply_once(
        &mut self,
        ask: Ask,
        by: Actor,
        pool: &mut Pool,
        files: &mut FileHands,
        lends: bool,
    ) -> Applied
        requires client { ask.client < 16 }
        requires numbers { self.old.names.next < 2 ^ 31 }
        requires kind { IsOfNames ask }
        requires asked { (t : PosixTree) × IsAsked t self.old.names ask files.old }
        requires apart { (lent : BlockSet) → ((block : ℕ) → set.contains lent block ≡ true → set.contains pool.old block ≡ true) → AreApart self.old.names.tree.dirs files.old lent }
        ensures entry { IsEntryOf ask by 0 result.entry }
        ensures served { is_excused result.entry.reply ≡ false → HasApplied ask self.old self.new files.old files.new pool.old pool.new result.entry.reply result.desc }
        ensures cause { (x : Excuse) → result.entry.reply ≡ answer.Excused x → (lent : BlockSet) × ((block : ℕ) → set.contains lent block ≡ true → set.contains pool.old block ≡ true)
            × (lends ≡ true → lent ≡ set.empty → pool.old ≡ set.empty) × IsCause self.old.names.tree.dirs lent ask.op x }
        ensures fits { (x : Excuse) → result.entry.reply ≡ answer.Excused x → (t : PosixTree) → IsAsked t self.old.names ask files.old → ExcuseFits t ask.client ask.op x }
        ensures unchanged { is_excused result.entry.reply ≡ true → self.new ≡ self.old }
        ensures files { is_excused result.entry.reply ≡ true → files.new ≡ files.old }
        ensures untaken { is_excused result.entry.reply ≡ true → pool.new ≡ pool.old }
        ensures desc { is_excused result.entry.reply ≡ true → result.desc ≡ ask.desc }
    {
        self.names.is_table();
        if let Err(refused) = self.fresh.reserve(1) {
            return out_of_memory(ask, by, 0, Lack::from(refused));
        }
        let block = lend(pool, &mut self.lent, lends);
        let applied = self.names.apply(ask, by, 0, files, &mut self.lent);
        if tells_excuse(&applied.entry.reply) {
            pour(&mut self.lent, pool);
            return applied;
        }
        take_lent(&mut self.fresh, block);
        pour(&mut self.lent, &mut self.dropped);
        self.next = next_then(self.next, files);
        self.names.is_table();
        applied
    }
}

// The next file number behind a request.
fn next_then(next: u32, files: &FileHands) -> u32
    requires low { next < 2 ^ 31 }
    ensures { result ≡ cond (is_some (map.get files.now next)) (next + 1) next }
{
    match files.get(next) {
        Some(_) => next + 1,
        None => next,
    }
}

// The block that was lent, if one was, is a directory's from now on. There is room for it.
fn take_lent(fresh: &mut Vec<u32>, block: Option<u32>)
    requires { length fresh.old.items + 1 ≤ vec_capacity fresh.old }
    ensures { fresh.new.items ≡ fresh.old.items ++ listed block }
{
    if let Some(block) = block {
        fresh.push(block).unwrap();
    }
}

pub(crate) fn tells_excuse(reply: &Reply) -> bool
    ensures { result ≡ is_excused reply.now }
{
    matches!(reply, Reply::Excused(_))
}

// Directories had no block to take.
fn lacks_block(reply: &Reply) -> bool
    ensures yes { result ≡ true → is_excused reply.now ≡ true }
    ensures no { result ≡ false → (need had : ℕ) → reply.now ≢ answer.Excused (excuse.Blocks need had) }
{
    matches!(reply, Reply::Excused(Excuse::Blocks { .. }))
}

// The request of an answer that changed nothing.
fn again(applied: Applied, fd: u32, last: bool) -> Ask
    ensures { (ask : Ask) (by : Actor) (ticket : ℕ) → IsEntryOf ask by ticket applied.entry → applied.desc ≡ ask.desc → ask.fd ≡ fd → ask.last ≡ last → result ≡ ask }
{
    let Applied { entry, desc } = applied;
    let Entry {
        client,
        seq,
        op,
        ..
    } = entry;
    Ask {
        client,
        seq,
        op,
        desc,
        fd,
        last,
    }
}
