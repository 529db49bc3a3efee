// The names' part: what a server answers to each request that isn't one file's alone.
ghost use Rattle.std.specs.Prelude.{◌≡◌};
ghost use Rattle.ufs_model.specs.declared.data.Reply.TheVariants.{Refused};
ghost use Rattle.ufs_file.specs.Hand.{IsEntryOf};

use crate::hold_map::HoldMap;
use std::alloc::Global;
use std::marker::Model;
use ufs_base::Memory;
use ufs_bitmap::Pool;
use ufs_calls::{own_refusal, text};
use ufs_dir_tree::Found;
use ufs_file::{Applied, answered};
use ufs_files::FileHands;
use ufs_model::{Actor, Ask, Desc, Errno, Excuse, Op, Reply};
use ufs_name_tree::NameTree;
use ufs_path::{PathText, names_stay_in_whole_paths, whole_paths_may_stand};

/// The namespace: directories, which file each name stands for, and who holds each file. It has no bytes of files. A
/// file that no path names stays until its last client closes it.
#[derive(Drop)]
pub struct Names {
    pub(crate) alloc: Global,
    pub(crate) tree: NameTree,
    pub(crate) held: HoldMap,
    /// The next file number.
    pub(crate) next: u32,
}

impl Model for Names {
    ghost use Rattle.ufs_names.specs.NamesPart.{NamesPart, part_code};

    ghost Value = { NamesPart };

    ghost coded = { part_code };

    ghost view = { λ n. record { tree = n.tree; held = n.held; next = n.next } };
}

/// A reply that is no excuse, and what the request's descriptor stands for afterwards.
#[derive(Drop)]
pub(crate) struct Served {
    pub reply: Reply,
    pub desc: Option<Desc>,
}

impl Names {
    ghost use Rattle.std.specs.Prelude.{◌≡◌, ◌≢◌, ◌≤◌, ◌<◌, ◌^◌, ◌+◌, ◌-◌, ℕ, [], true, false, length, Some, None, IfOk, IfErr, OnOk, OnErr, is_none};
    ghost use Rattle.std.specs.FinMap as map;
    ghost use Rattle.std.specs.FinSet as set;
    ghost use Rattle.ufs_base.specs.Choices.{first_of, refused_if};
    ghost use Rattle.ufs_bitmap.specs.Blocks.{BlockSet};
    ghost use Rattle.ufs_dir_tree.specs.DirTable.{dir_at, found_at, no_dir};
    ghost use Rattle.ufs_extent.specs.Runs.{blocks_from};
    ghost use Rattle.ufs_model.specs.Asks.{IsAsk};
    ghost use Rattle.ufs_model.specs.Excuses.{ExcuseFits};
    ghost use Rattle.ufs_model.specs.History.{is_excused};
    ghost use Rattle.ufs_model.specs.Paths.{whole_path};
    ghost use Rattle.ufs_model.specs.PosixTree.{PosixTree, root_alone};
    ghost use Rattle.ufs_model.specs.Walk.{walk_refusal_from};
    ghost use Rattle.ufs_model.specs.declared.data.Errno.TheVariants.{Enoent};
    ghost use Rattle.ufs_model.specs.declared.data.Excuse.{Excuse};
    ghost use Rattle.ufs_model.specs.declared.data.Reply.TheVariants as reply;
    ghost use Rattle.ufs_name_tree.specs.NameTable.{IsNameTable, node_of};
    ghost use Rattle.ufs_name_tree.specs.Notes.{GoesByNotes};
    ghost use Rattle.ufs_names.specs.Calls.{HaveInodes, IsAsked, IsOfNames, IsServed, KeepInodes};
    ghost use Rattle.ufs_names.specs.NamesPart.{IsNamesPart};
    ghost use Rattle.ufs_names.specs.Space.{AreApart, HaveTheSame, IsCause};
    ghost use Rattle.ufs_names.specs.Steps.{KeepsSpace};

    /// The root alone, of so many inodes, and no file.
    pub fn new(alloc: Global, inodes: u32) -> Result<Names, Memory>
        requires some { 1 ≤ inodes }
        requires few { inodes < 65536 }
        ensures part { IfOk result (λ n. IsNamesPart n root_alone) }
        ensures inodes { IfOk result (λ n. length n.tree.dirs.dirs ≡ inodes + 1) }
        ensures free { IfOk result (λ n. n.tree.dirs.free ≡ set.from_list (blocks_from 2 (inodes + 1 - 2))) }
        ensures bare { IfOk result (λ n. (i : ℕ) → dir_at n.tree.dirs i ≡ no_dir) }
        ensures apart { IfOk result (λ n. (pool : BlockSet) → AreApart n.tree.dirs map.empty pool) }
    {
        Ok(Names {
            alloc,
            tree: NameTree::new(alloc, inodes)?,
            held: HoldMap::new(alloc),
            next: 0,
        })
    }

    /// What stands at a path, by one look-up for each of its names: ENOENT where a name is missing, ENOTDIR where
    /// one that isn't the last is a file (POSIX.1-2017, 4.13). It is what a walk from the root meets, so two paths have
    /// one inode only where their names are the same. Takes no memory.
    pub fn resolve(&self, path: &PathText) -> Result<Found, Errno>
        ensures found { IfOk result (λ found. (t : PosixTree) → IsNamesPart self.now t → map.get t.paths (whole_path path.now) ≡ Some (node_of self.now.tree found)) }
        ensures met { IfOk result (λ found. found_at self.now.tree.dirs path.now ≡ Some found) }
        ensures table { IsNameTable self.now.tree }
        ensures passed { IfOk result (λ found. (t : PosixTree) → IsNamesPart self.now t → walk_refusal_from t.paths [] path.now ≡ None) }
        ensures refused { IfErr result (λ e. (t : PosixTree) → IsNamesPart self.now t
            → first_of (walk_refusal_from t.paths [] path.now) (refused_if (is_none (map.get t.paths (whole_path path.now))) Enoent) ≡ Some e) }
    {
        // Each name may stand in a path.
        names_stay_in_whole_paths();
        whole_paths_may_stand();
        // For the prover alone.
        let _count = path.len();
        match self.tree.look(path) {
            Ok(look) => match look.found {
                Some(found) => Ok(found),
                None => Err(Errno::Enoent),
            },
            Err(e) => Err(e),
        }
    }

    /// Serves a request that isn't on a file's descriptor and that file's alone: POSIX's reply on the tree that this
    /// part, the files and the descriptors of the clients make, and part and files go on with that tree. Of the files
    /// that the request touches the hands are in `files`; afterwards it also has the file that the request made, and
    /// none that it dropped. Where room is wanting the reply is the excuse for its cause, and nothing has changed.
    /// File numbers stay below 2^31. The caller gives the ticket, and says who serves.
    pub fn apply(
        &mut self,
        ask: Ask,
        by: Actor,
        ticket: u64,
        files: &mut FileHands,
        pool: &mut Pool,
    ) -> Applied
        requires client { ask.client < 16 }
        requires numbers { self.old.next < 2 ^ 31 }
        requires kind { IsOfNames ask }
        requires asked { (t : PosixTree) × IsAsked t self.old ask files.old }
        requires apart { AreApart self.old.tree.dirs files.old pool.old }
        ensures entry { IsEntryOf ask by ticket result.entry }
        ensures served { is_excused result.entry.reply ≡ false → (t : PosixTree) → IsAsked t self.old ask files.old → IsServed t ask self.new files.old files.new result.entry.reply result.desc }
        ensures cause { (x : Excuse) → result.entry.reply ≡ reply.Excused x → IsCause self.old.tree.dirs pool.old ask.op x }
        ensures fits { (x : Excuse) → result.entry.reply ≡ reply.Excused x → (t : PosixTree) → IsAsked t self.old ask files.old → ExcuseFits t ask.client ask.op x }
        ensures unchanged { is_excused result.entry.reply ≡ true → self.new ≡ self.old }
        ensures files { is_excused result.entry.reply ≡ true → files.new ≡ files.old }
        ensures pool { is_excused result.entry.reply ≡ true → pool.new ≡ pool.old }
        ensures desc { is_excused result.entry.reply ≡ true → result.desc ≡ ask.desc }
        ensures inodes { HaveInodes self.old.held files.old → HaveInodes self.new.held files.new }
        ensures stay { KeepInodes self.old.held self.new.held }
        ensures together { HaveTheSame self.old.tree.dirs files.old pool.old self.new.tree.dirs files.new pool.new }
        ensures apart { AreApart self.new.tree.dirs files.new pool.new }
        ensures counted { length self.new.tree.dirs.dirs ≡ length self.old.tree.dirs.dirs }
        // what the disk is to be told of it is noted, where something is noted still
        ensures noted { GoesByNotes self.old.tree self.new.tree pool.old }
    {
        let desc = ask.desc;
        match self.serve(&ask, files, pool) {
            Ok(served) => answered(ask, by, ticket, served.reply, served.desc),
            Err(excuse) => answered(ask, by, ticket, Reply::Excused(excuse), desc),
        }
    }

    // The same, with the excuse as the error.
    #[tactic(auto, using(crate::proofs::FitsLemmas::fits_memory))]
    fn serve(&mut self, ask: &Ask, files: &mut FileHands, pool: &mut Pool) -> Result<Served, Excuse>
        requires client { ask.now.client < 16 }
        requires numbers { self.old.next < 2 ^ 31 }
        requires kind { IsOfNames ask.now }
        requires asked { (t : PosixTree) × IsAsked t self.old ask.now files.old }
        requires apart { AreApart self.old.tree.dirs files.old pool.old }
        ensures ok { IfOk result (λ s. (t : PosixTree) → IsAsked t self.old ask.now files.old → IsServed t ask.now self.new files.old files.new s.reply s.desc) }
        ensures space { OnOk result (KeepsSpace self.old self.new files.old files.new pool.old pool.new) }
        ensures noted { OnOk result (GoesByNotes self.old.tree self.new.tree pool.old) }
        ensures cause { IfErr result (IsCause self.old.tree.dirs pool.old ask.now.op) }
        ensures fits { IfErr result (λ x. (t : PosixTree) → IsAsked t self.old ask.now files.old → ExcuseFits t ask.now.client ask.now.op x) }
        ensures err { OnErr result (self.new ≡ self.old) }
        ensures err_files { OnErr result (files.new ≡ files.old) }
        ensures err_pool { OnErr result (pool.new ≡ pool.old) }
    {
        if let Some(e) = own_refusal(&ask.op, ask.desc, ask.fd) {
            return Ok(refused(ask, e));
        }
        match &ask.op {
            Op::Rename { from, to } => {
                let from = text(self.alloc, from)?;
                let to = text(self.alloc, to)?;
                self.rename(ask, &from, &to, files, pool)
            }
            Op::OpenFile { path, .. }
            | Op::Mkdir { path }
            | Op::Rmdir { path }
            | Op::Unlink { path }
            | Op::Stat { path }
            | Op::List { path } => {
                let path = text(self.alloc, path)?;
                self.serve_path(ask, &path, files, pool)
            }
            Op::Close { .. } => Ok(self.close(ask, files, pool)),
            // A directory's descriptor has nothing to write.
            Op::Fsync { .. } | Op::Sync => Ok(Served {
                reply: Reply::Done,
                desc: ask.desc,
            }),
            // Of a file alone, or refused where there is none.
            Op::Read { .. }
            | Op::Write { .. }
            | Op::Pread { .. }
            | Op::Pwrite { .. }
            | Op::Seek { .. }
            | Op::Trunc { .. } => unreachable!(),
        }
    }
}

/// A refusal leaves the request's descriptor.
pub(crate) fn refused(ask: &Ask, errno: Errno) -> Served
    ensures reply { result.reply ≡ Refused errno }
    ensures desc { result.desc ≡ ask.now.desc }
{
    Served {
        reply: Reply::Refused(errno),
        desc: ask.desc,
    }
}
