use crate::holding::Holding;
use crate::names::Names;
use ufs_base::Memory;
use ufs_bitmap::Pool;
use ufs_dir_tree::{Found, Look};
use ufs_files::FileHands;
use ufs_model::Excuse;
use ufs_path::PathText;

impl Names {
    ghost use Rattle.std.specs.Prelude.{◌≡◌, ◌≢◌, ◌<◌, ◌^◌, ℕ, [], true, Some, None, IsSome, IfOk, IfErr, OnOk, OnErr, length};
    ghost use Rattle.std.specs.Option.{option_map};
    ghost use Rattle.std.specs.FinMap as map;
    ghost use Rattle.ufs_calls.specs.Modes.{file_named};
    ghost use Rattle.ufs_dir_tree.specs.DirTable.{dir_at, found_at};
    ghost use Rattle.ufs_dir_tree.specs.DirCalls.{names_above, IsListed, LacksSpace};
    ghost use Rattle.ufs_dir_tree.specs.declared.found.Found.TheVariants as met;
    ghost use Rattle.ufs_model.specs.declared.data.Excuse.TheVariants as excuse;
    ghost use Rattle.ufs_model.specs.declared.data.Node.TheVariants as node;
    ghost use Rattle.ufs_name_tree.specs.NameTable.{file_at, node_at, node_of};
    ghost use Rattle.ufs_name_tree.specs.Nodes.{SetsNode};
    ghost use Rattle.ufs_name_tree.specs.Notes.{GoesByNotes};
    ghost use Rattle.ufs_names.specs.NamesPart.{AreInodesOf, holding_of};
    ghost use Rattle.ufs_names.specs.Space.{AreApart};
    ghost use Rattle.ufs_names.specs.Steps.{AddsFile, KeepsSpace, Opens, OpensFile};

    /// The file that an `open` gives: the one that is there, or a new one.
    pub(crate) fn open(
        &mut self,
        client: u8,
        path: &PathText,
        look: Look,
        trunc: bool,
        files: &mut FileHands,
        pool: &mut Pool,
    ) -> Result<Option<u32>, Excuse>
        requires client { client < 16 }
        requires numbers { self.old.next < 2 ^ 31 }
        requires found { look.found ≡ found_at self.old.tree.dirs path.now }
        requires below { look.found ≡ None → path.now ≢ [] }
        requires parent { look.found ≡ None → found_at self.old.tree.dirs (names_above path.now) ≡ Some (met.Dir look.dir) }
        requires unheld { map.get self.old.held self.old.next ≡ None }
        requires absent { map.get files.old self.old.next ≡ None }
        requires inodes { AreInodesOf self.old.tree self.old.held }
        requires numbered { (i : ℕ) → look.found ≡ Some (met.File i) → IsSome (file_at self.old.tree i) }
        requires here { trunc ≡ true → (i f : ℕ) → look.found ≡ Some (met.File i) → file_at self.old.tree i ≡ Some f → IsSome (map.get files.old f) }
        requires apart { AreApart self.old.tree.dirs files.old pool.old }
        ensures file { IfOk result (λ file. file ≡ file_named (option_map (node_of self.old.tree) look.found) self.old.next) }
        ensures ok { OnOk result (Opens self.old self.new files.old files.new client trunc look.found) }
        ensures nodes { OnOk result (look.found ≡ None → SetsNode (node_at self.old.tree) (node_at self.new.tree) path.now (Some (node.File self.old.next))) }
        ensures clients { OnOk result ((i f : ℕ) → look.found ≡ Some (met.File i) → file_at self.old.tree i ≡ Some f → length (holding_of self.old.held f).clients ≡ 16) }
        ensures space { OnOk result (KeepsSpace self.old self.new files.old files.new pool.old pool.new) }
        ensures noted { OnOk result (GoesByNotes self.old.tree self.new.tree pool.old) }
        ensures cause { IfErr result (λ x. x ≢ excuse.Memory → (look.found ≡ None) × LacksSpace self.old.tree.dirs pool.old (names_above path.now) x) }
        ensures listed { IfErr result (λ x. x ≢ excuse.Memory → x ≢ excuse.Inodes → IsListed (dir_at self.old.tree.dirs look.dir)) }
        ensures err { OnErr result (self.new ≡ self.old) }
        ensures err_files { OnErr result (files.new ≡ files.old) }
        ensures err_pool { OnErr result (pool.new ≡ pool.old) }
    {
        match look.found {
            None => match self.add_file(client, look.dir, path, files, pool) {
                Ok(file) => Ok(Some(file)),
                Err(excuse) => Err(excuse),
            },
            Some(Found::Dir { .. }) => Ok(None),
            Some(Found::File { inode }) => match self.open_file(client, inode, trunc, files, pool) {
                Ok(file) => Ok(Some(file)),
                Err(excuse) => Err(excuse),
            },
        }
    }

    // A new file with no bytes, which the client holds. What can be undone comes first.
    fn add_file(
        &mut self,
        client: u8,
        dir: u32,
        path: &PathText,
        files: &mut FileHands,
        pool: &mut Pool,
    ) -> Result<u32, Excuse>
        requires client { client < 16 }
        requires numbers { self.old.next < 2 ^ 31 }
        requires below { path.now ≢ [] }
        requires parent { found_at self.old.tree.dirs (names_above path.now) ≡ Some (met.Dir dir) }
        requires absent { found_at self.old.tree.dirs path.now ≡ None }
        requires unheld { map.get self.old.held self.old.next ≡ None }
        requires no_file { map.get files.old self.old.next ≡ None }
        requires inodes { AreInodesOf self.old.tree self.old.held }
        requires apart { AreApart self.old.tree.dirs files.old pool.old }
        ensures file { IfOk result (λ file. file ≡ self.old.next) }
        ensures ok { OnOk result (AddsFile self.old self.new files.old files.new client) }
        ensures nodes { OnOk result (SetsNode (node_at self.old.tree) (node_at self.new.tree) path.now (Some (node.File self.old.next))) }
        ensures space { OnOk result (KeepsSpace self.old self.new files.old files.new pool.old pool.new) }
        ensures noted { OnOk result (GoesByNotes self.old.tree self.new.tree pool.old) }
        ensures cause { IfErr result (LacksSpace self.old.tree.dirs pool.old (names_above path.now)) }
        ensures listed { IfErr result (λ x. x ≢ excuse.Memory → x ≢ excuse.Inodes → IsListed (dir_at self.old.tree.dirs dir)) }
        ensures err { OnErr result (self.new ≡ self.old) }
        ensures err_files { OnErr result (files.new ≡ files.old) }
        ensures err_pool { OnErr result (pool.new ≡ pool.old) }
    {
        let file = self.next;
        let Some(inode) = self.tree.next_inode() else {
            return Err(Excuse::Inodes);
        };
        let holding = Holding {
            inode,
            linked: true,
            ..Holding::none()
        };
        if let Err(refused) = self.held.put(file, holding.with(client)) {
            return Err(Excuse::from(Memory::from(refused)));
        }
        if let Err(memory) = files.make(file, inode) {
            self.held.remove(file);
            return Err(Excuse::from(memory));
        }
        match self.tree.add_file(dir, path, file, pool) {
            Ok(_) => {
                self.next = file + 1;
                Ok(file)
            }
            Err(excuse) => {
                files.remove(file, pool);
                self.held.remove(file);
                Err(excuse)
            }
        }
    }

    // The client holds the file, which is emptied where it is asked for.
    fn open_file(
        &mut self,
        client: u8,
        inode: u32,
        trunc: bool,
        files: &mut FileHands,
        pool: &mut Pool,
    ) -> Result<u32, Excuse>
        requires client { client < 16 }
        requires numbered { IsSome (file_at self.old.tree inode) }
        requires inodes { AreInodesOf self.old.tree self.old.held }
        requires here { trunc ≡ true → (f : ℕ) → file_at self.old.tree inode ≡ Some f → IsSome (map.get files.old f) }
        requires apart { AreApart self.old.tree.dirs files.old pool.old }
        ensures file { IfOk result (λ file. file_at self.old.tree inode ≡ Some file) }
        ensures ok { IfOk result (OpensFile self.old self.new files.old files.new client trunc) }
        ensures clients { (f : ℕ) → file_at self.old.tree inode ≡ Some f → length (holding_of self.old.held f).clients ≡ 16 }
        ensures space { OnOk result (KeepsSpace self.old self.new files.old files.new pool.old pool.new) }
        ensures noted { OnOk result (GoesByNotes self.old.tree self.new.tree pool.old) }
        ensures cause { IfErr result (λ x. x ≡ excuse.Memory) }
        ensures err { OnErr result (self.new ≡ self.old) }
        ensures err_files { OnErr result (files.new ≡ files.old) }
        ensures err_pool { OnErr result (pool.new ≡ pool.old) }
    {
        let Some(file) = self.tree.file(inode) else {
            unreachable!()
        };
        let Some(holding) = self.held.get(file) else {
            unreachable!()
        };
        if trunc {
            files.empty(file, pool)?;
        }
        match self.held.put(file, holding.with(client)) {
            Ok(()) => Ok(file),
            Err(_) => unreachable!(),
        }
    }
}
