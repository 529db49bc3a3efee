// Files that somebody keeps, and those that go.
use crate::holding::Holding;
use crate::names::Names;
use ufs_bitmap::Pool;
use ufs_files::FileHands;

impl Names {
    ghost use Rattle.std.specs.Prelude.{◌≡◌, ◌≢◌, ℕ, List, Some, false, IsSome};
    ghost use Rattle.std.specs.FinMap as map;
    ghost use Rattle.std.specs.FinSet as set;
    ghost use Rattle.ufs_dir_tree.specs.DirTable.{found_at};
    ghost use Rattle.ufs_dir_tree.specs.declared.found.Found.TheVariants as found;
    ghost use Rattle.ufs_name_tree.specs.NameTable.{file_at, node_at};
    ghost use Rattle.ufs_name_tree.specs.Notes.{GoesByNotes};
    ghost use Rattle.ufs_names.specs.NamesPart.{holding_of, is_kept};
    ghost use Rattle.ufs_names.specs.Space.{AreApart};
    ghost use Rattle.ufs_names.specs.Steps.{KeepsSpace, Settles};

    /// A file that nothing keeps any more goes: its hand, its blocks and its inode. Takes no memory.
    pub(crate) fn settle(
        &mut self,
        file: u32,
        holding: Holding,
        files: &mut FileHands,
        pool: &mut Pool,
    )
        requires held { IsSome (map.get self.old.held file) }
        requires inode { holding.inode ≡ (holding_of self.old.held file).inode }
        requires numbered { file_at self.old.tree holding.inode ≡ Some file }
        requires here { is_kept holding ≡ false → IsSome (map.get files.old file) }
        requires unmet { is_kept holding ≡ false → (names : List (List ℕ)) → found_at self.old.tree.dirs names ≢ Some (found.File holding.inode) }
        requires apart { AreApart self.old.tree.dirs files.old pool.old }
        ensures nodes { (names : List (List ℕ)) → node_at self.new.tree names ≡ node_at self.old.tree names }
        ensures settles { Settles self.old self.new files.old files.new file holding }
        ensures space { KeepsSpace self.old self.new files.old files.new pool.old pool.new }
        ensures noted { GoesByNotes self.old.tree self.new.tree set.empty }
    {
        if !holding.is_kept() {
            self.held.remove(file);
            files.remove(file, pool);
            self.tree.free_file(holding.inode, pool);
            return;
        }
        // A file has one inode.
        self.tree.is_table();
        match self.held.put(file, holding) {
            Ok(()) => {}
            Err(_) => unreachable!(),
        }
    }
}
