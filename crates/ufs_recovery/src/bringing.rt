// What is committed is written home.
ghost use Rattle.std.specs.Prelude.{ℕ, ◌≡◌, ◌≤◌, IsTrue, IfErr, OnOk};
ghost use Rattle.ufs_base.specs.Faults.{HasCause};
ghost use Rattle.ufs_disk.specs.Disk.{IsSettled};
ghost use Rattle.ufs_disk.specs.Moments.{reads};
ghost use Rattle.ufs_image.specs.Volume.{Volume};
ghost use Rattle.ufs_layout.specs.Areas.{sector_count};
ghost use Rattle.ufs_overlay.specs.Seen as overlaid;
ghost use Rattle.ufs_recovery.specs.Home.{IsOver, KeepsTree};

use ufs_disk::{Disk, Fault};
use ufs_overlay::Overlay;

// Writes each sector home that a transaction changes, and waits until all is on the disk for good.
pub(crate) fn bring_home<D: Disk>(disk: &mut D, overlay: &Overlay) -> Result<(), Fault>
    requires { sector_count (overlaid.geometry_of overlay.now) ≤ D.size disk.old }
    ensures settled { IsTrue D.visible → OnOk result (IsSettled (D.moments disk.new).state) }
    ensures home { IsTrue D.visible → OnOk result ((v : Volume) → IsOver (D.size disk.old) (reads (D.moments disk.old)) v overlay.now → (sector : ℕ) → reads (D.moments disk.new) sector ≡ v.image sector) }
    ensures tree { IsTrue D.visible → IsSettled (D.moments disk.old).state → (v : Volume) → IsOver (D.size disk.old) (reads (D.moments disk.old)) v overlay.now → KeepsTree D.keeps (D.size disk.old) (D.moments disk.old) (D.moments disk.new) }
    ensures size { D.size disk.new ≡ D.size disk.old }
    ensures cause { HasCause (D.faults disk.old) (D.faults disk.new) result }
    ensures number { IfErr result (λ fault. fault.number ≡ D.faults disk.new) }
{
    overlay.write_home(disk)?;
    disk.barrier()
}
