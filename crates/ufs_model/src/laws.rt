// What the file calls mean, apart from their cases: each a law that an empty function's contract states.
ghost use Rattle.ufs_model.specs.FileCalls.{StepsArePosix, RefusalsArePosix, OwnRefusalsAreByDesc};
ghost use Rattle.ufs_model.specs.Laws.{KeepsTrees, RefusalsChangeNothing, MakesOneFile, WrittenIsRead, AppendedIsRead, RenameReplaces, RenameLeaves, RenamesLieApart, Locality};
ghost use Rattle.ufs_model.specs.Start.{StartsAreTrees, StartsHaveContents, StartsAreNumbered};

/// A request leaves a tree a tree: the root and each parent are directories, and exactly the files that a path or
/// a descriptor names have bytes.
pub fn a_request_keeps_the_tree()
    ensures { KeepsTrees }
{}

/// A refused request leaves tree and descriptors as they were.
pub fn a_refusal_changes_nothing()
    ensures { RefusalsChangeNothing }
{}

/// A request raises the next file number by one at most.
pub fn a_request_makes_one_file_at_most()
    ensures { MakesOneFile }
{}

/// What was written at a place is read there.
pub fn a_file_is_read_as_it_was_written()
    ensures at_a_place { WrittenIsRead }
    ensures at_the_offset { AppendedIsRead }
{}

/// To rename is one step: what stood at the old name stands at the new one, which never lacks.
pub fn a_new_name_takes_the_place_of_an_old_one()
    ensures there { RenameReplaces }
    ensures gone { RenameLeaves }
{}

/// A `rename` that isn't refused leads to no place at or below the old name, and to no directory with entries.
pub fn two_names_lie_apart()
    ensures { RenamesLieApart }
{}

/// A request has the same reply in two trees that agree on the parts that it touches, changes these alike, and
/// leaves all others.
pub fn a_request_is_local()
    ensures { Locality }
{}

/// A tree of paths, its files numbered from 0 by rising path, with nothing open.
pub fn a_start_is_a_tree()
    ensures tree { StartsAreTrees }
    ensures contents { StartsHaveContents }
    ensures numbers { StartsAreNumbered }
{}

/// A request on a descriptor of a file is a step of that file's bytes and the descriptor alone.
pub fn a_file_goes_on_by_itself()
    ensures steps { StepsArePosix }
    ensures refusals { RefusalsArePosix }
    ensures own { OwnRefusalsAreByDesc }
{}
