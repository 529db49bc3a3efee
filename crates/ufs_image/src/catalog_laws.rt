// Laws of catalogs, each the contract of a function that does nothing.
ghost use Rattle.std.specs.Prelude.{◌≡◌};
ghost use Rattle.ufs_layout.specs.Areas.{IsGeometry};
ghost use Rattle.ufs_image.specs.Volume.{Volume};
ghost use Rattle.ufs_image.specs.CatalogLaws.{ChangesFile, CommitsFile, FoldsCatalogs, FoldsMixes, FoldsOneMore, FreesAlike, FreesOneByOne, HasBlockBytes, HasCatalog, HasCommitted, HasDirBytes, HasGeometry, HasInodeBytes, HasOneTree, HasSizes, IgnoresFileBlocks, IsProperByCatalog, KeepsFiles, ListsAllPaths, ListsOnce, MarkedIsUndamaged, MeetsOnce, OpensByCatalog, OpensToWalked, SetsDentry, ShowsForms, SoundIsWhole, SpellsCatalog, SpellsDirs, SpellsFree, StandsAtPaths, StandsNowhereElse, StaysShort, StopsAnywhere, StopsFreeing, WholeIsSound, WritesCatalog};

use ufs_layout::Geometry;

/// A catalog is sound exactly where no damage of the first eight kinds is in its image, and such an
/// image has a catalog.
pub fn damage_law(geometry: &Geometry)
    requires { IsGeometry geometry.now }
    ensures whole { SoundIsWhole geometry.now }
    ensures sound { WholeIsSound geometry.now }
    ensures catalog { HasCatalog geometry.now }
    ensures marked { MarkedIsUndamaged geometry.now }
{
    let _geometry = geometry;
}

/// An image stands for a tree exactly where it is taken and its catalog is sound; the tree is the one
/// that is walked.
pub fn opening_law(sectors: usize)
    ensures tree { OpensToWalked sectors }
    ensures catalog { OpensByCatalog sectors }
    ensures geometry { HasGeometry sectors }
    ensures proper { IsProperByCatalog sectors }
{
    let _sectors = sectors;
}

/// In the tree of a sound image each path has what a walk through its directories meets.
pub fn walk_law(geometry: &Geometry)
    requires { IsGeometry geometry.now }
    ensures paths { (v : Volume) → v.geometry ≡ geometry.now → StandsAtPaths v }
    ensures alone { (v : Volume) → v.geometry ≡ geometry.now → StandsNowhereElse v }
    ensures once { MeetsOnce geometry.now }
    ensures short { StaysShort geometry.now }
    ensures depth { ListsAllPaths geometry.now }
    ensures distinct { (v : Volume) → v.geometry ≡ geometry.now → ListsOnce v }
{
    let _geometry = geometry;
}

/// What lies in no directory's block and behind the journal says nothing of the paths, and a file's
/// bytes are those of its blocks.
pub fn blocks_law(sectors: usize)
    ensures paths { IgnoresFileBlocks sectors }
    ensures files { KeepsFiles }
    ensures sizes { HasSizes sectors }
    ensures places { HasBlockBytes sectors }
    ensures tree { HasOneTree sectors }
{
    let _sectors = sectors;
}

/// What is committed changes a catalog as it changes the image.
pub fn fold_law(geometry: &Geometry)
    ensures folds { FoldsCatalogs geometry.now }
    ensures one_more { FoldsOneMore geometry.now }
    ensures dirs { SpellsDirs geometry.now }
    ensures file { CommitsFile geometry.now }
{
    let _geometry = geometry;
}

/// A file's new form and the freeing of inodes without a name leave a catalog sound and its walks as
/// they were; a dentry that is set stands in one slot.
pub fn change_law(geometry: &Geometry)
    requires { IsGeometry geometry.now }
    ensures file { ChangesFile geometry.now }
    ensures orphans { FreesAlike geometry.now }
    ensures unnamed { FreesOneByOne geometry.now }
    ensures dentry { SetsDentry geometry.now }
{
    let _geometry = geometry;
}

/// A catalog and the bytes of its image say the same.
pub fn bytes_law(geometry: &Geometry)
    requires { IsGeometry geometry.now }
    ensures written { WritesCatalog geometry.now }
    ensures inodes { HasInodeBytes geometry.now }
    ensures dirs { HasDirBytes geometry.now }
    ensures forms { ShowsForms geometry.now }
    ensures spells { SpellsCatalog geometry.now }
    ensures free { SpellsFree }
    ensures committed { HasCommitted geometry.now }
{
    let _geometry = geometry;
}

/// A sector that is written home already folds to what it has.
pub fn home_law(geometry: &Geometry)
    requires { IsGeometry geometry.now }
    ensures { FoldsMixes geometry.now }
{
    let _geometry = geometry;
}

/// Writing home, freeing inodes without a name and writing the bitmap may stop anywhere.
pub fn stop_law(sectors: usize)
    ensures anywhere { StopsAnywhere sectors }
    ensures freeing { StopsFreeing sectors }
{
    let _sectors = sectors;
}
