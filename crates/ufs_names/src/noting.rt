// What a disk is to be told of the names.
use crate::names::Names;
use ufs_ilog::NameNotes;

impl Names {
    ghost use Rattle.std.specs.Prelude.{◌≡◌, Some, None, []};
    ghost use Rattle.ufs_name_tree.specs.NameTable.{IsNameTable};
    ghost use Rattle.ufs_names.specs.Notes.{with_notes};

    /// From now on each change is noted. What was noted before is lost.
    pub fn begin_notes(&mut self)
        ensures { self.new ≡ with_notes (Some []) self.old }
    {
        self.tree.begin_notes(self.alloc);
    }

    /// Lends the notes, for a commit. Until they are put back nothing is noted, so no request may come between.
    pub fn take_notes(&mut self) -> NameNotes
        ensures notes { result ≡ self.old.tree.noted }
        ensures rest { self.new ≡ with_notes None self.old }
    {
        self.tree.take_notes()
    }

    /// What holds of every table holds of these names', whatever was asked of them.
    pub fn is_table(&self)
        ensures { IsNameTable self.now.tree }
    {
        self.tree.is_table();
    }

    /// Puts notes in the place of those that there are.
    pub fn put_notes(&mut self, notes: NameNotes)
        ensures { self.new ≡ with_notes notes self.old }
    {
        self.tree.put_notes(notes);
    }
}
