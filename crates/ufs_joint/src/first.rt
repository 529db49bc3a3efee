// A session on hands may begin over an image. Each law is the contract of a function that does nothing.
ghost use Rattle.ufs_joint.specs.Ready.{ReadyCanBegin};
ghost use Rattle.ufs_layout.specs.Areas.{IsGeometry};

use ufs_layout::Geometry;
use ufs_names_commit::names_law;

/// Where one server would be sound, and on its disk, its parts may be the cells of a first hand.
pub fn first_hand_law(geometry: &Geometry)
    requires { IsGeometry geometry.now }
    ensures { ReadyCanBegin geometry.now }
{
    names_law(geometry);
}
