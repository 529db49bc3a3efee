// What a start owes of its files, and to the copy that it is made of.
ghost use Rattle.ufs_start.specs.Copies.{BeginsAsCopied, OpensAsCopied, RefusesAsCopied};
ghost use Rattle.ufs_start.specs.Files.{StartsTellNumbers};
ghost use Rattle.ufs_start.specs.Starts.{BlocksOfStartsAreApart, FilesArePartsOfStarts};

/// Files that were read of an image are parts of the tree that a session on it begins with, and no block is of two of
/// a directory, a file and the free blocks.
pub fn start_files_law()
    ensures parts { FilesArePartsOfStarts }
    ensures apart { BlocksOfStartsAreApart }
{}

/// The names of a start tell the numbers that were given to its files, so `files_of` may go by these.
pub fn start_numbers_law()
    ensures { StartsTellNumbers }
{}

/// What the names of an image use says all that a server begins with.
pub fn copy_law()
    ensures opens { OpensAsCopied }
    ensures begins { BeginsAsCopied }
    ensures refused { RefusesAsCopied }
{}
