// A server's names tell the paths of the tree that they are of, and a disk stands on behind their changes.
ghost use Rattle.ufs_layout.specs.Areas.{IsGeometry};
ghost use Rattle.ufs_promise_laws.specs.Going.{NamesMayGoOn};
ghost use Rattle.ufs_promise_laws.specs.PathNumbers.{PartsHaveNumbers, PartsTellPaths, UnbornHaveNone};

use crate::{change_law, files_law};
use ufs_layout::Geometry;

/// The part of the names of a tree tells its paths, and which inode each file has.
pub fn numbers_law()
    ensures paths { PartsTellPaths }
    ensures numbers { PartsHaveNumbers }
    ensures unborn { UnbornHaveNone }
{}

/// Behind a change whose steps lead to the directories of a tree's names the disk may go on to these.
pub fn names_go_on_law(geometry: &Geometry)
    requires { IsGeometry geometry.now }
    ensures { NamesMayGoOn geometry.now }
{
    change_law(geometry);
    files_law(geometry);
}
