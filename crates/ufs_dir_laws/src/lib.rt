//! A server's directories and an image's catalog tell the same.
#![tactic(auto)]

ghost use Rattle.ufs_layout.specs.Areas.{IsGeometry};
ghost use Rattle.ufs_dir_laws.specs.Meets.{WalksMeet};
ghost use Rattle.ufs_dir_laws.specs.Tables.{CatalogsHaveTables, TablesAreDirTables};

use ufs_layout::Geometry;

/// Directories that have the slots of a sound catalog have its walks.
pub fn walks_meet_law(geometry: &Geometry)
    requires { IsGeometry geometry.now }
    ensures { WalksMeet geometry.now }
{
    let _geometry = geometry;
}

/// The directories of an image's sound catalog, with the inodes that it leaves unused as the free ones, are a table
/// of directories, where each one that has a name is met by a walk from the root. Each catalog has them.
pub fn dir_table_law(geometry: &Geometry)
    requires { IsGeometry geometry.now }
    ensures table { TablesAreDirTables geometry.now }
    ensures made { CatalogsHaveTables geometry.now }
{
    let _geometry = geometry;
}
