// Laws of the definitions, each the contract of a function that does nothing.
ghost use Rattle.ufs_store.specs.Laws.{CleanDisksMount};

/// A clean disk may be mounted.
pub fn mounting_law()
    ensures { CleanDisksMount }
{}
