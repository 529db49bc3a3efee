// What a server begins with is sound, and on its disk. Each law is the contract of a function that does nothing.
ghost use Rattle.ufs_start_laws.specs.Laws.{BeginsOnDisk, BeginsSound, BeginsStored, WholeHaveNone};
ghost use Rattle.ufs_layout.specs.Areas.{IsGeometry};

use ufs_layout::Geometry;
use ufs_promise_laws::{files_law, numbers_law, state_law};

/// What an image has makes the parts of a server, whatever else the disk has.
pub fn parts_law()
    ensures sound { BeginsSound }
    ensures whole { WholeHaveNone }
{}

/// A server begins with what its disk has.
pub fn begun_law(geometry: &Geometry)
    requires { IsGeometry geometry.now }
    ensures stored { BeginsStored geometry.now }
    ensures going { BeginsOnDisk geometry.now }
{
    state_law(geometry);
    files_law(geometry);
    numbers_law();
}
