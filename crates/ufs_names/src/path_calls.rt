ghost use Rattle.std.specs.Prelude.{◌≡◌};
ghost use Rattle.ufs_names.specs.PathCalls as calls;

use crate::names::{Names, Served, refused};
use ufs_base::Memory;
use ufs_bitmap::Pool;
use ufs_calls::{
    Mode, list_refusal, make_refusal, open_refusal, rmdir_refusal, stat_refusal, unlink_refusal,
};
use ufs_dir_tree::{Found, Look};
use ufs_files::FileHands;
use ufs_model::{Ask, Desc, Errno, Excuse, Node, Op, Reply, a_request_keeps_the_tree};
use ufs_path::PathText;

impl Names {
    ghost use Rattle.std.specs.Prelude.{◌≡◌, ◌≢◌, ◌<◌, ◌^◌, ℕ, List, [], Some, None, IsSome, IfOk, IfErr, OnOk, OnErr, length};
    ghost use Rattle.std.specs.Option.{option_map};
    ghost use Rattle.std.specs.FinMap as map;
    ghost use Rattle.ufs_dir_tree.specs.DirTable.{dir_at, found_at};
    ghost use Rattle.ufs_dir_tree.specs.DirCalls.{names_above, IsListed, MayGo, LacksSpace};
    ghost use Rattle.ufs_dir_tree.specs.declared.found.Found.TheVariants as met;
    ghost use Rattle.ufs_file.specs.Hand.{FileState};
    ghost use Rattle.ufs_model.specs.Paths.{components};
    ghost use Rattle.ufs_model.specs.PosixTree.{PosixTree};
    ghost use Rattle.ufs_model.specs.Posix.{answer};
    ghost use Rattle.ufs_model.specs.Refusals.{own_refusal};
    ghost use Rattle.ufs_model.specs.Walk.{file_of};
    ghost use Rattle.ufs_model.specs.Excuses.{ExcuseFits};
    ghost use Rattle.ufs_model.specs.declared.data.Excuse.TheVariants as excuse;
    ghost use Rattle.ufs_model.specs.declared.data.Node.TheVariants as node;
    ghost use Rattle.ufs_name_tree.specs.NameTable.{file_at, node_at};
    ghost use Rattle.ufs_name_tree.specs.Nodes.{SetsNode};
    ghost use Rattle.ufs_name_tree.specs.Notes.{GoesByNotes};
    ghost use Rattle.ufs_names.specs.Calls.{IsAsked, IsServed};
    ghost use Rattle.ufs_names.specs.NamesPart.{IsNamesPart, AreInodesOf};
    ghost use Rattle.ufs_names.specs.PathCalls.{path_asked, IsAllowed, IsStat, IsList};
    ghost use Rattle.ufs_names.specs.Space.{AreApart, IsCause};
    ghost use Rattle.ufs_names.specs.Steps.{GoesHere, KeepsSpace, Removes};

    /// A request on one path, whose text isn't refused.
    pub(crate) fn serve_path(
        &mut self,
        ask: &Ask,
        path: &PathText,
        files: &mut FileHands,
        pool: &mut Pool,
    ) -> Result<Served, Excuse>
        requires client { ask.now.client < 16 }
        requires numbers { self.old.next < 2 ^ 31 }
        requires asked { (t : PosixTree) × IsAsked t self.old ask.now files.old × (own_refusal t ask.now.client ask.now.op ≡ None) }
        requires path { option_map components (path_asked ask.now.op) ≡ Some path.now }
        requires apart { AreApart self.old.tree.dirs files.old pool.old }
        ensures ok { IfOk result (λ s. (t : PosixTree) → IsAsked t self.old ask.now files.old → own_refusal t ask.now.client ask.now.op ≡ None → IsServed t ask.now self.new files.old files.new s.reply s.desc) }
        ensures space { OnOk result (KeepsSpace self.old self.new files.old files.new pool.old pool.new) }
        ensures noted { OnOk result (GoesByNotes self.old.tree self.new.tree pool.old) }
        ensures cause { IfErr result (IsCause self.old.tree.dirs pool.old ask.now.op) }
        ensures fits { IfErr result (λ x. (t : PosixTree) → IsAsked t self.old ask.now files.old → own_refusal t ask.now.client ask.now.op ≡ None → ExcuseFits t ask.now.client ask.now.op x) }
        ensures err { OnErr result (self.new ≡ self.old) }
        ensures err_files { OnErr result (files.new ≡ files.old) }
        ensures err_pool { OnErr result (pool.new ≡ pool.old) }
    {
        let look = match self.tree.look(path) {
            Ok(look) => look,
            Err(e) => return Ok(refused(ask, e)),
        };
        let has_entries = self.has_entries(look.found);
        let node = self.tree.node(look.found);
        if let Some(e) = end_refusal(&ask.op, path.is_root(), node, has_entries) {
            return Ok(refused(ask, e));
        }
        let reply = self.answer_found(ask, look.found, files)?;
        match self.change_found(ask, path, look, files, pool) {
            Ok(desc) => Ok(Served { reply, desc }),
            Err(excuse) => Err(excuse),
        }
    }

    // The reply to a request that isn't refused.
    fn answer_found(
        &self,
        ask: &Ask,
        found: Option<Found>,
        files: &FileHands,
    ) -> Result<Reply, Memory>
        requires { (t : PosixTree) × ((names : List (List ℕ)) × IsAllowed t ask.now self.now files.now names found) }
        ensures { IfOk result (λ reply. (t : PosixTree) (names : List (List ℕ)) → IsAllowed t ask.now self.now files.now names found → reply ≡ answer t ask.now.client ask.now.op) }
    {
        match &ask.op {
            Op::OpenFile { .. } => Ok(Reply::Fd(ask.fd)),
            Op::Stat { .. } => Ok(self.stat(found, files)),
            Op::List { .. } => self.list(found),
            _ => Ok(Reply::Done),
        }
    }

    // A file's size, or the number of a directory's entries.
    fn stat(&self, found: Option<Found>, files: &FileHands) -> Reply
        ensures { IsStat self.now files.now found result }
    {
        match found {
            Some(Found::Dir { inode }) => Reply::IsDir {
                entries: self.tree.count(inode),
            },
            Some(Found::File { inode }) => Reply::IsFile {
                size: self.size(inode, files),
            },
            None => Reply::Done,
        }
    }

    // How many bytes the file of this inode has, where its hand is here.
    fn size(&self, inode: u32, files: &FileHands) -> u64
        ensures { (f : ℕ) (s : FileState) → file_at self.now.tree inode ≡ Some f → map.get files.now f ≡ Some s → result ≡ length s.content.bytes }
    {
        let Some(file) = self.tree.file(inode) else {
            return 0;
        };
        match files.get(file) {
            Some(hand) => hand.size(),
            None => 0,
        }
    }

    // A directory's names.
    fn list(&self, found: Option<Found>) -> Result<Reply, Memory>
        requires { (i : ℕ) × (found ≡ Some (met.Dir i)) }
        ensures { IfOk result (λ reply. IsList self.now found reply) }
    {
        match found {
            Some(Found::Dir { inode }) => Ok(Reply::Names(self.tree.names(inode)?)),
            _ => unreachable!(),
        }
    }

    // What a request that isn't refused changes, and the descriptor that it opens.
    fn change_found(
        &mut self,
        ask: &Ask,
        path: &PathText,
        look: Look,
        files: &mut FileHands,
        pool: &mut Pool,
    ) -> Result<Option<Desc>, Excuse>
        requires client { ask.now.client < 16 }
        requires numbers { self.old.next < 2 ^ 31 }
        requires allowed { (t : PosixTree) × IsAllowed t ask.now self.old files.old path.now look.found }
        requires dir { path.now ≢ [] → found_at self.old.tree.dirs (names_above path.now) ≡ Some (met.Dir look.dir) }
        requires apart { AreApart self.old.tree.dirs files.old pool.old }
        ensures ok { IfOk result (λ desc. (t : PosixTree) → IsAllowed t ask.now self.old files.old path.now look.found → IsServed t ask.now self.new files.old files.new (answer t ask.now.client ask.now.op) desc) }
        ensures space { OnOk result (KeepsSpace self.old self.new files.old files.new pool.old pool.new) }
        ensures noted { OnOk result (GoesByNotes self.old.tree self.new.tree pool.old) }
        ensures fits { IfErr result (λ x. (t : PosixTree) → IsAllowed t ask.now self.old files.old path.now look.found → ExcuseFits t ask.now.client ask.now.op x) }
        ensures cause { IfErr result (IsCause self.old.tree.dirs pool.old ask.now.op) }
        ensures err { OnErr result (self.new ≡ self.old) }
        ensures err_files { OnErr result (files.new ≡ files.old) }
        ensures err_pool { OnErr result (pool.new ≡ pool.old) }
    {
        a_request_keeps_the_tree();
        match &ask.op {
            Op::OpenFile { .. } => match Mode::of(&ask.op) {
                Some(mode) => match self.open(ask.client, path, look, mode.trunc, files, pool) {
                    Ok(file) => Ok(Some(mode.desc(file))),
                    Err(excuse) => Err(excuse),
                },
                None => unreachable!(),
            },
            Op::Mkdir { .. } => match self.add_dir(look.dir, path, pool, files) {
                Ok(()) => Ok(None),
                Err(excuse) => Err(excuse),
            },
            Op::Rmdir { .. } => {
                self.remove_name(look, path, files, pool);
                Ok(None)
            }
            Op::Unlink { .. } => {
                self.remove_name(look, path, files, pool);
                Ok(None)
            }
            Op::Stat { .. } => Ok(None),
            Op::List { .. } => Ok(None),
            _ => unreachable!(),
        }
    }

    fn add_dir(
        &mut self,
        dir: u32,
        path: &PathText,
        pool: &mut Pool,
        files: &FileHands,
    ) -> Result<(), Excuse>
        requires below { path.now ≢ [] }
        requires dir { found_at self.old.tree.dirs (names_above path.now) ≡ Some (met.Dir dir) }
        requires absent { found_at self.old.tree.dirs path.now ≡ None }
        requires apart { AreApart self.old.tree.dirs files.now pool.old }
        ensures nodes { OnOk result (SetsNode (node_at self.old.tree) (node_at self.new.tree) path.now (Some node.Dir)) }
        ensures ok { OnOk result (self.new ≡ record self.old { tree = self.new.tree }) }
        ensures files { self.new.tree.files ≡ self.old.tree.files }
        ensures space { OnOk result (KeepsSpace self.old self.new files.now files.now pool.old pool.new) }
        ensures noted { OnOk result (GoesByNotes self.old.tree self.new.tree pool.old) }
        ensures cause { IfErr result (LacksSpace self.old.tree.dirs pool.old (names_above path.now)) }
        ensures listed { IfErr result (λ x. x ≢ excuse.Inodes → IsListed (dir_at self.old.tree.dirs dir)) }
        ensures err { OnErr result (self.new ≡ self.old) }
        ensures err_pool { OnErr result (pool.new ≡ pool.old) }
    {
        // For the prover alone.
        let _ = files;
        self.tree.add_dir(dir, path, pool)?;
        Ok(())
    }

    // A name goes, and with it the file that nothing keeps any more.
    fn remove_name(&mut self, look: Look, path: &PathText, files: &mut FileHands, pool: &mut Pool)
        requires below { path.now ≢ [] }
        requires dir { found_at self.old.tree.dirs (names_above path.now) ≡ Some (met.Dir look.dir) }
        requires stands { IsSome (found_at self.old.tree.dirs path.now) }
        requires may_go { MayGo self.old.tree.dirs path.now }
        requires found { look.found ≡ found_at self.old.tree.dirs path.now }
        requires inodes { AreInodesOf self.old.tree self.old.held }
        requires here { GoesHere self.old files.old (file_of (node_at self.old.tree path.now)) }
        requires apart { AreApart self.old.tree.dirs files.old pool.old }
        ensures removed { Removes self.old self.new files.old files.new path.now }
        ensures space { KeepsSpace self.old self.new files.old files.new pool.old pool.new }
        ensures noted { GoesByNotes self.old.tree self.new.tree pool.old }
    {
        // A file that was met has its number.
        self.tree.is_table();
        self.tree.remove(look.dir, path, pool);
        self.forget_name(look.found, files, pool);
    }
}

/// By what stands at the end of the path.
pub(crate) fn end_refusal(
    op: &Op,
    is_root: bool,
    node: Option<Node>,
    has_entries: bool,
) -> Option<Errno>
    ensures { result ≡ calls.end_refusal is_root node has_entries op.now }
{
    match op {
        Op::OpenFile { .. } => match Mode::of(op) {
            Some(mode) => open_refusal(node, mode),
            None => unreachable!(),
        },
        Op::Mkdir { .. } => make_refusal(node),
        Op::Rmdir { .. } => rmdir_refusal(is_root, node, has_entries),
        Op::Unlink { .. } => unlink_refusal(node),
        Op::Stat { .. } => stat_refusal(node),
        Op::List { .. } => list_refusal(node),
        _ => None,
    }
}
