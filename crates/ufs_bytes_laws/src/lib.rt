//! The file calls look at no byte of a file: all but the bytes that they pass on depends on sizes alone.
#![tactic(auto)]

ghost use Rattle.ufs_bytes_laws.specs.Laws.{EachIsLikeItself, AlikeEitherWay, AlikeThrough, OtherBytesAreAlike, AlikeTrees, RefusalsAreSame, StepsAreAlike, RepliesDifferInBytes, ExcusesAreAlike, AsksAreAlike, TouchedPartsAreSame, FileStepsAreAlike, FileRefusalsAreSame, EntriesAreReplies, EntriesAreAlike, GoesOnAlike, HistoriesAreLegal, HistoriesAreAlike, HistoriesEndAlike, WholeHistoriesAreLegal, RetellsBack, RetellsInTurn, OrderIsKept, AllIsAnswered};

/// Trees are alike by an equivalence. A tree is like one with other bytes in a file, as many, and what is like a tree
/// is one.
pub fn trees_are_alike_by_sizes()
    ensures itself { EachIsLikeItself }
    ensures either_way { AlikeEitherWay }
    ensures through { AlikeThrough }
    ensures other_bytes { OtherBytesAreAlike }
    ensures trees { AlikeTrees }
{}

/// In trees that are alike a request is refused alike, answered alike and changes them alike.
pub fn a_request_looks_at_no_bytes()
    ensures refusals { RefusalsAreSame }
    ensures steps { StepsAreAlike }
    ensures replies { RepliesDifferInBytes }
    ensures excuses { ExcusesAreAlike }
    ensures asks { AsksAreAlike }
    ensures touched { TouchedPartsAreSame }
{}

/// So it is with a request on a file's descriptor, by that file's bytes alone.
pub fn a_file_call_looks_at_no_bytes()
    ensures steps { FileStepsAreAlike }
    ensures refusals { FileRefusalsAreSame }
{}

/// A history is told again from a tree that is like its first one, and differs in the bytes of its replies alone.
pub fn a_history_is_told_again()
    ensures replied { EntriesAreReplies }
    ensures entries { EntriesAreAlike }
    ensures goes_on { GoesOnAlike }
    ensures legal_from { HistoriesAreLegal }
    ensures alike { HistoriesAreAlike }
    ensures ends { HistoriesEndAlike }
    ensures legal { WholeHistoriesAreLegal }
{}

/// What is told again has the same requests in the same order, and is the history again from its own tree.
pub fn a_retelling_loses_nothing()
    ensures back { RetellsBack }
    ensures in_turn { RetellsInTurn }
    ensures order { OrderIsKept }
    ensures complete { AllIsAnswered }
{}
