// A server's names and an image's tree are one.
ghost use Rattle.ufs_promise_laws.specs.Loaded.{BlocksAreApart, FilesAreParts, FreeIsUntaken};
ghost use Rattle.ufs_promise_laws.specs.Numbered.{NamesStandForTrees, NumbersNameOnce};
ghost use Rattle.ufs_promise_laws.specs.TreeParts.{NamesAreParts};
ghost use Rattle.ufs_promise_laws.specs.Starts.{ImagesArePathTrees, NamesArePartsOfStarts};

/// Directories of an image, with the numbers that a tree of the image's paths gives its files, have that tree's names.
pub fn names_stand_law(sectors: usize)
    ensures stand { NamesStandForTrees sectors }
    ensures once { NumbersNameOnce }
{
    let _sectors = sectors;
}

/// And with nothing open they are the part of the names of that tree.
pub fn names_part_law(sectors: usize)
    ensures { NamesAreParts sectors }
{
    let _sectors = sectors;
}

/// An image's tree is one that a session can begin with, and the image's directories are its part of the names.
pub fn image_start_law(sectors: usize)
    ensures paths { ImagesArePathTrees sectors }
    ensures part { NamesArePartsOfStarts sectors }
{
    let _sectors = sectors;
}

/// Files that may have an image's bytes are parts of that tree, and no block is in two places.
pub fn files_part_law(sectors: usize)
    ensures parts { FilesAreParts sectors }
    ensures apart { BlocksAreApart sectors }
    ensures free { FreeIsUntaken sectors }
{
    let _sectors = sectors;
}
