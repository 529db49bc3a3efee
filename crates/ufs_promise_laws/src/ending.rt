// What stands on a disk once everything is synced. Each law is the contract of a function that does nothing.
ghost use Rattle.ufs_promise_laws.specs.Last.{SyncedIsLast};
ghost use Rattle.ufs_promise_laws.specs.LastLaws.{AllIsLast};
ghost use Rattle.ufs_layout.specs.Areas.{IsGeometry};

use crate::on_disk_law;
use ufs_crash_laws::an_acknowledgement_is_kept;
use ufs_layout::Geometry;

/// What a history that ends with a sync explains is the last tree.
pub fn synced_law()
    ensures { SyncedIsLast }
{
    an_acknowledgement_is_kept();
}

/// Once everything stands on the disk, whatever a crash leaves opens to the last tree.
pub fn last_law(geometry: &Geometry)
    requires { IsGeometry geometry.now }
    ensures { AllIsLast geometry.now }
{
    on_disk_law(geometry);
    synced_law();
}
