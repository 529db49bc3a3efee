// Requests of the names. Each law is the contract of a function that does nothing.
ghost use Rattle.ufs_layout.specs.Areas.{IsGeometry};
ghost use Rattle.ufs_promise_laws.specs.RequestLaws.{RequestsAreOnDisk, RequestsAreSound, RequestsGoOn};
ghost use Rattle.ufs_promise_laws.specs.Serving.{PoolsMayLend, ServedIsRequest};

use crate::{entry_law, names_law, notes_law};
use ufs_crash_laws::an_entry_keeps_what_is_shown;
use ufs_layout::Geometry;
use ufs_ledger::promise_law;

/// A request of the names leaves the parts of a sound server sound, and those of the next tree.
pub fn served_names_law()
    ensures lends { PoolsMayLend }
    ensures request { ServedIsRequest }
    ensures parts { RequestsGoOn }
    ensures sound { RequestsAreSound }
{}

/// And the server on its disk.
pub fn names_request_law(geometry: &Geometry)
    requires { IsGeometry geometry.now }
    ensures { RequestsAreOnDisk geometry.now }
{
    promise_law(geometry);
    an_entry_keeps_what_is_shown();
    entry_law(geometry);
    notes_law(geometry);
    names_law(geometry);
}
