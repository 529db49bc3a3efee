// What the names keep, apart from their calls: each a law that an empty function's contract states.
ghost use Rattle.ufs_names.specs.Laws.{KeepsNames};
ghost use Rattle.ufs_names.specs.Notes.{NotesAreBeside};

/// A request on a descriptor of a file, which touches that file alone, leaves the names as they are.
pub fn a_file_request_keeps_the_names()
    ensures { KeepsNames }
{}

/// Whatever is noted, the names are the same.
pub fn notes_are_beside()
    ensures { NotesAreBeside }
{}
