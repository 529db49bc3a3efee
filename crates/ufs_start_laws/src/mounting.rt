// What was read of a disk is what its image has. Each law is the contract of a function that does nothing.
ghost use Rattle.ufs_start_laws.specs.MountedLaws.{StartsAreNamed, StartsAreOpened};

/// What is read of an image at a server's start is what the image has, and each of its files has a name.
pub fn start_law()
    ensures opened { StartsAreOpened }
    ensures named { StartsAreNamed }
{}
