// Paths that get a new name, and files that lose theirs.
ghost use Rattle.std.specs.Prelude.{◌≡◌};

use crate::names::{Names, Served, refused};
use ufs_bitmap::Pool;
use ufs_calls::{is_below, replace_refusal};
use ufs_dir_tree::{Found, Look};
use ufs_files::FileHands;
use ufs_model::{Ask, Errno, Excuse, Reply, a_request_keeps_the_tree};
use ufs_path::PathText;

/// What was met at an old name and at a new one.
#[derive(Clone, Copy)]
pub(crate) struct Move {
    pub from: Look,
    pub to: Look,
}

impl Names {
    ghost use Rattle.std.specs.Prelude.{◌≡◌, ◌≢◌, ◌↔◌, ℕ, List, [], Some, None, false, IsSome, IfOk, IfErr, OnOk, OnErr};
    ghost use Rattle.std.specs.Option.{option_map};
    ghost use Rattle.std.specs.FinMap as map;
    ghost use Rattle.std.specs.FinSet as set;
    ghost use Rattle.ufs_dir_tree.specs.DirTable.{dir_at, found_at, slots_at};
    ghost use Rattle.ufs_dir_tree.specs.DirCalls.{names_above, IsBare, IsListed, MayMove, LacksRoom};
    ghost use Rattle.ufs_dir_tree.specs.declared.found.Found.TheVariants as met;
    ghost use Rattle.ufs_model.specs.Excuses.{ExcuseFits};
    ghost use Rattle.ufs_model.specs.Paths.{components, text_refusal, whole_path};
    ghost use Rattle.ufs_model.specs.PosixTree.{PosixTree};
    ghost use Rattle.ufs_model.specs.Refusals as refusals;
    ghost use Rattle.ufs_model.specs.Refusals.{own_refusal};
    ghost use Rattle.ufs_model.specs.Walk.{file_of};
    ghost use Rattle.ufs_model.specs.declared.data.Op.TheVariants as op;
    ghost use Rattle.ufs_name_tree.specs.NameTable.{IsNameTable, file_at, node_at, node_of};
    ghost use Rattle.ufs_name_tree.specs.Nodes.{MovesNodes};
    ghost use Rattle.ufs_name_tree.specs.Notes.{GoesByNotes};
    ghost use Rattle.ufs_names.specs.Calls.{IsAsked, IsServed};
    ghost use Rattle.ufs_names.specs.NamesPart.{IsNamesPart, AreInodesOf};
    ghost use Rattle.ufs_names.specs.PathCalls.{RefusesRename};
    ghost use Rattle.ufs_names.specs.Space.{AreApart, IsCause};
    ghost use Rattle.ufs_names.specs.Steps.{GoesHere, KeepsSpace, LosesName};

    /// A `rename`, of which no text is refused.
    pub(crate) fn rename(
        &mut self,
        ask: &Ask,
        from: &PathText,
        to: &PathText,
        files: &mut FileHands,
        pool: &mut Pool,
    ) -> Result<Served, Excuse>
        requires asked { (t : PosixTree) × IsAsked t self.old ask.now files.old × (own_refusal t ask.now.client ask.now.op ≡ None) }
        requires paths { (old : List ℕ) × ((new : List ℕ) × (ask.now.op ≡ op.Rename old new) × (from.now ≡ components old) × (to.now ≡ components new)) }
        requires apart { AreApart self.old.tree.dirs files.old pool.old }
        ensures ok { IfOk result (λ s. (t : PosixTree) → IsAsked t self.old ask.now files.old → own_refusal t ask.now.client ask.now.op ≡ None → IsServed t ask.now self.new files.old files.new s.reply s.desc) }
        ensures space { OnOk result (KeepsSpace self.old self.new files.old files.new pool.old pool.new) }
        ensures noted { OnOk result (GoesByNotes self.old.tree self.new.tree pool.old) }
        ensures cause { IfErr result (IsCause self.old.tree.dirs pool.old ask.now.op) }
        ensures fits { IfErr result (λ x. (t : PosixTree) → IsAsked t self.old ask.now files.old → own_refusal t ask.now.client ask.now.op ≡ None → ExcuseFits t ask.now.client ask.now.op x) }
        ensures err { OnErr result (self.new ≡ self.old) }
        ensures err_files { OnErr result (files.new ≡ files.old) }
        ensures err_pool { OnErr result (pool.new ≡ pool.old) }
    {
        a_request_keeps_the_tree();
        match self.rename_refusal(from, to) {
            Err(e) => Ok(refused(ask, e)),
            Ok(step) => match self.change_rename(from, to, step, files, pool) {
                Ok(()) => Ok(Served {
                    reply: Reply::Done,
                    desc: None,
                }),
                Err(excuse) => Err(excuse),
            },
        }
    }

    /// What was met at the two names, or why the old one may not become the new one.
    pub(crate) fn rename_refusal(&self, from: &PathText, to: &PathText) -> Result<Move, Errno>
        ensures refused { IfErr result (λ e. RefusesRename self.now from.now to.now (Some e)) }
        ensures passed { IfOk result (λ m. RefusesRename self.now from.now to.now None) }
        ensures from_dir { IfOk result (λ m. found_at self.now.tree.dirs (names_above from.now) ≡ Some (met.Dir m.from.dir)) }
        ensures to_dir { IfOk result (λ m. found_at self.now.tree.dirs (names_above to.now) ≡ Some (met.Dir m.to.dir)) }
        ensures found { IfOk result (λ m. m.to.found ≡ found_at self.now.tree.dirs to.now) }
        ensures table { IfOk result (λ m. IsNameTable self.now.tree) }
    {
        if from.is_root() || to.is_root() {
            return Err(Errno::Ebusy);
        }
        let old = match self.tree.look(from) {
            Ok(look) => look,
            Err(e) => return Err(e),
        };
        let Some(moved) = old.found else {
            return Err(Errno::Enoent);
        };
        let new = match self.tree.look(to) {
            Ok(look) => look,
            Err(e) => return Err(e),
        };
        match self.replace_refusal(from, to, moved, new.found) {
            Some(e) => Err(e),
            None => Ok(Move { from: old, to: new }),
        }
    }

    // By what stands at the two names.
    fn replace_refusal(
        &self,
        from: &PathText,
        to: &PathText,
        old: Found,
        new: Option<Found>,
    ) -> Option<Errno>
        requires table { IsNameTable self.now.tree }
        requires old { Some old ≡ found_at self.now.tree.dirs from.now }
        requires new { new ≡ found_at self.now.tree.dirs to.now }
        ensures { (t : PosixTree) (a b : List ℕ) → IsNamesPart self.now t → text_refusal a ≡ None → text_refusal b ≡ None → from.now ≡ components a → to.now ≡ components b → result ≡ refusals.replace_refusal t.paths (whole_path from.now) (whole_path to.now) }
    {
        replace_refusal(
            self.tree.node(Some(old)),
            self.tree.node(new),
            is_below(from.whole(), to.whole()),
            from.whole() == to.whole(),
            self.has_entries(new),
        )
    }

    // What stood at the new name goes. A name onto itself changes nothing.
    fn change_rename(
        &mut self,
        from: &PathText,
        to: &PathText,
        step: Move,
        files: &mut FileHands,
        pool: &mut Pool,
    ) -> Result<(), Excuse>
        requires from_dir { found_at self.old.tree.dirs (names_above from.now) ≡ Some (met.Dir step.from.dir) }
        requires to_dir { found_at self.old.tree.dirs (names_above to.now) ≡ Some (met.Dir step.to.dir) }
        requires found { step.to.found ≡ found_at self.old.tree.dirs to.now }
        requires table { IsNameTable self.old.tree }
        requires may { whole_path from.now ≢ whole_path to.now → MayMove self.old.tree.dirs from.now to.now }
        requires inodes { AreInodesOf self.old.tree self.old.held }
        requires here { whole_path from.now ≢ whole_path to.now → GoesHere self.old files.old (file_of (node_at self.old.tree to.now)) }
        requires apart { AreApart self.old.tree.dirs files.old pool.old }
        ensures same { whole_path from.now ≡ whole_path to.now → self.new ≡ self.old }
        ensures same_files { whole_path from.now ≡ whole_path to.now → files.new ≡ files.old }
        ensures moved { OnOk result (whole_path from.now ≢ whole_path to.now → MovesNodes (node_at self.old.tree) (node_at self.new.tree) from.now to.now) }
        ensures loses { OnOk result (whole_path from.now ≢ whole_path to.now → LosesName self.old self.new files.old files.new (file_of (node_at self.old.tree to.now))) }
        ensures space { OnOk result (KeepsSpace self.old self.new files.old files.new pool.old pool.new) }
        ensures noted { OnOk result (GoesByNotes self.old.tree self.new.tree pool.old) }
        ensures cause { IfErr result (LacksRoom self.old.tree.dirs pool.old (names_above to.now)) }
        ensures absent { OnErr result (found_at self.old.tree.dirs to.now ≡ None) }
        ensures listed { OnErr result (IsListed (dir_at self.old.tree.dirs step.to.dir)) }
        ensures err { OnErr result (self.new ≡ self.old) }
        ensures err_files { OnErr result (files.new ≡ files.old) }
        ensures err_pool { OnErr result (pool.new ≡ pool.old) }
    {
        if from.whole() == to.whole() {
            return Ok(());
        }
        self.tree
            .rename(step.from.dir, from, step.to.dir, to, pool)?;
        self.forget_name(step.to.found, files, pool);
        Ok(())
    }

    /// What was found lost its name: no walk leads to it any more.
    pub(crate) fn forget_name(
        &mut self,
        found: Option<Found>,
        files: &mut FileHands,
        pool: &mut Pool,
    )
        requires numbered { (i : ℕ) → found ≡ Some (met.File i) → IsSome (file_at self.old.tree i) }
        requires unmet { (i : ℕ) (names : List (List ℕ)) → found ≡ Some (met.File i) → found_at self.old.tree.dirs names ≢ Some (met.File i) }
        requires inodes { AreInodesOf self.old.tree self.old.held }
        requires here { GoesHere self.old files.old (file_of (option_map (node_of self.old.tree) found)) }
        requires apart { AreApart self.old.tree.dirs files.old pool.old }
        ensures nodes { (names : List (List ℕ)) → node_at self.new.tree names ≡ node_at self.old.tree names }
        ensures loses { LosesName self.old self.new files.old files.new (file_of (option_map (node_of self.old.tree) found)) }
        ensures space { KeepsSpace self.old self.new files.old files.new pool.old pool.new }
        ensures noted { GoesByNotes self.old.tree self.new.tree set.empty }
    {
        let Some(Found::File { inode }) = found else {
            return;
        };
        let Some(file) = self.tree.file(inode) else {
            unreachable!()
        };
        let Some(holding) = self.held.get(file) else {
            unreachable!()
        };
        self.settle(file, holding.without_name(), files, pool);
    }

    /// Whether a directory that has names was found.
    pub(crate) fn has_entries(&self, found: Option<Found>) -> bool
        ensures { (result ≡ false) ↔ ((i : ℕ) → found ≡ Some (met.Dir i) → IsBare (slots_at self.now.tree.dirs i)) }
    {
        match found {
            Some(Found::Dir { inode }) => !self.tree.is_empty(inode),
            _ => false,
        }
    }
}
