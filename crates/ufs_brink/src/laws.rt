// Laws of the definitions, each the contract of a function that does nothing.
ghost use Rattle.ufs_brink.specs.Laws.{CleanStartsMount, MarkingIsExplained, MarkingIsProper, StartsAreSound, StartsGoOn, StartsMayBegin};
ghost use Rattle.ufs_layout.specs.Areas.{IsGeometry};

use ufs_layout::Geometry;
use ufs_ledger::{opening_law, promise_law, proper_law};
use ufs_start_laws::{begun_law, parts_law, start_law};
use ufs_store::mounting_law;

/// What is read of a disk makes a server that a session may begin with.
pub fn beginning_law()
    ensures may { StartsMayBegin }
    ensures sound { StartsAreSound }
{
    start_law();
    parts_law();
}

/// A clean disk of which this was read may be mounted, and the server goes on from its tree, which a crash leaves at each
/// moment of the mount.
pub fn mounted_law(geometry: &Geometry)
    requires { IsGeometry geometry.now }
    ensures mountable { CleanStartsMount geometry.now }
    ensures going { StartsGoOn geometry.now }
    ensures explained { MarkingIsExplained geometry.now }
    ensures proper { MarkingIsProper geometry.now }
{
    start_law();
    parts_law();
    mounting_law();
    begun_law(geometry);
    opening_law(geometry);
    promise_law(geometry);
    proper_law(geometry);
}
