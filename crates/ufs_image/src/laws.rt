// Laws of the definitions, each the contract of a function that does nothing.
ghost use Rattle.ufs_layout.specs.Areas.{IsGeometry};
ghost use Rattle.ufs_image.specs.Laws.{OpensToRoot, BeginsWhole, BeginsProper, BeginsSound, FoldsNothing};

use ufs_layout::Geometry;

/// What formatting makes stands for the root alone, has no damage and is proper, and its catalog is sound.
pub fn new_image_law(geometry: &Geometry)
    requires { IsGeometry geometry.now }
    ensures opens { OpensToRoot geometry.now }
    ensures whole { BeginsWhole geometry.now }
    ensures proper { BeginsProper geometry.now }
    ensures sound { BeginsSound geometry.now }
{
    let _geometry = geometry;
}

/// A journal with no sector of the epoch changes nothing.
pub fn empty_fold_law(geometry: &Geometry)
    ensures { FoldsNothing geometry.now }
{
    let _geometry = geometry;
}
