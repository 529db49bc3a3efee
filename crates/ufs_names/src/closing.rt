use crate::names::{Names, Served};
use ufs_bitmap::Pool;
use ufs_files::FileHands;
use ufs_model::{Ask, Reply, a_request_keeps_the_tree};

impl Names {
    ghost use Rattle.std.specs.Prelude.{◌≡◌, ◌<◌, ℕ, List, None};
    ghost use Rattle.std.specs.FinSet as set;
    ghost use Rattle.ufs_model.specs.Asks.{file_in};
    ghost use Rattle.ufs_model.specs.PosixTree.{PosixTree};
    ghost use Rattle.ufs_model.specs.Refusals.{own_refusal};
    ghost use Rattle.ufs_model.specs.declared.data.Op.TheVariants as op;
    ghost use Rattle.ufs_name_tree.specs.NameTable.{node_at};
    ghost use Rattle.ufs_name_tree.specs.Notes.{GoesByNotes};
    ghost use Rattle.ufs_names.specs.Calls.{IsAsked, IsServed};
    ghost use Rattle.ufs_names.specs.Space.{AreApart};
    ghost use Rattle.ufs_names.specs.Steps.{KeepsSpace, LetsGo};

    /// A `close` that its client can't refuse. The file goes where this was the last hold of one that no path names.
    pub(crate) fn close(&mut self, ask: &Ask, files: &mut FileHands, pool: &mut Pool) -> Served
        requires client { ask.now.client < 16 }
        requires close { (fd : ℕ) × (ask.now.op ≡ op.Close fd) }
        requires asked { (t : PosixTree) × IsAsked t self.old ask.now files.old × (own_refusal t ask.now.client ask.now.op ≡ None) }
        requires apart { AreApart self.old.tree.dirs files.old pool.old }
        ensures ok { (t : PosixTree) → IsAsked t self.old ask.now files.old → own_refusal t ask.now.client ask.now.op ≡ None → IsServed t ask.now self.new files.old files.new result.reply result.desc }
        ensures space { KeepsSpace self.old self.new files.old files.new pool.old pool.new }
        ensures noted { GoesByNotes self.old.tree self.new.tree set.empty }
    {
        a_request_keeps_the_tree();
        self.let_go(ask, files, pool);
        Served {
            reply: Reply::Done,
            desc: None,
        }
    }

    // The client lets go of the descriptor's file, if this was its last hold of it.
    fn let_go(&mut self, ask: &Ask, files: &mut FileHands, pool: &mut Pool)
        requires client { ask.now.client < 16 }
        requires close { (fd : ℕ) × (ask.now.op ≡ op.Close fd) }
        requires asked { (t : PosixTree) × IsAsked t self.old ask.now files.old × (own_refusal t ask.now.client ask.now.op ≡ None) }
        requires apart { AreApart self.old.tree.dirs files.old pool.old }
        ensures nodes { (names : List (List ℕ)) → node_at self.new.tree names ≡ node_at self.old.tree names }
        ensures goes { LetsGo self.old self.new files.old files.new ask.now.client ask.now.last (file_in ask.now.desc) }
        ensures space { KeepsSpace self.old self.new files.old files.new pool.old pool.new }
        ensures noted { GoesByNotes self.old.tree self.new.tree set.empty }
    {
        let Some(desc) = ask.desc else {
            return;
        };
        let Some(file) = desc.file else {
            return;
        };
        if !ask.last {
            return;
        }
        let Some(holding) = self.held.get(file) else {
            unreachable!()
        };
        // No walk leads to a file that no path names.
        self.tree.is_table();
        self.settle(file, holding.without(ask.client), files, pool);
    }
}
