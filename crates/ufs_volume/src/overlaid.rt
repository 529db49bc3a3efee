// The transactions that are committed in a journal, over the home sectors.
ghost use Rattle.std.specs.Prelude.{◌≡◌, ◌≤◌, ◌++◌, ◌∷◌, [], ℕ, List, None, length, IsTrue, IfOk, IfErr, OnOk};
ghost use Rattle.ufs_disk.specs.Moments.{reads};
ghost use Rattle.ufs_layout.specs.Areas.{IsGeometry, sector_count};
ghost use Rattle.ufs_layout.specs.declared.records.Committed.{Committed};
ghost use Rattle.ufs_image.specs.Journal.{committed};
ghost use Rattle.ufs_image.specs.BadSectors.{bad_sector};
ghost use Rattle.ufs_overlay.specs.Over.{rise_above};
ghost use Rattle.ufs_overlay.specs.Seen.{HasAdded, geometry_of};
ghost use Rattle.ufs_metadata.specs.Faults.{BlamesNone, HasFaultCause, IsOutside, LacksMemory};
ghost use Rattle.ufs_metadata.specs.Reading.{IsReadOnly};
ghost use Rattle.ufs_volume.specs.Journals.{AreFoldable, IsFoldable, IsJournalRefusal, of_scan};

use crate::form::can_fold;
use std::alloc::Global;
use ufs_disk::Disk;
use ufs_layout::{Committed, CommittedList, Geometry};
use ufs_metadata::{ImageSuperblock, RecoverFault};
use ufs_overlay::Overlay;
use ufs_scan::{ScanFault, scan};

fn of_scan(fault: ScanFault) -> RecoverFault
    ensures value { result ≡ of_scan fault }
    ensures blames_none { BlamesNone result }
    ensures memory { LacksMemory result }
{
    match fault {
        ScanFault::BadRecord { sector } => RecoverFault::BadRecord { sector },
        ScanFault::Device { fault } => RecoverFault::Device { fault },
        ScanFault::Memory(memory) => RecoverFault::from(memory),
    }
}

// The committed transactions of a journal with no sector that is off.
pub(crate) fn read_journal<D: Disk>(
    alloc: Global,
    disk: &mut D,
    image: &ImageSuperblock,
) -> Result<CommittedList, RecoverFault>
    requires { sector_count image.now.geometry ≤ D.size disk.old }
    ensures committed { IsTrue D.visible → IfOk result (λ list. list ≡ committed image.now.geometry image.now.superblock.epoch (reads (D.moments disk.old))) }
    ensures few { IfOk result (λ list. length list ≤ image.now.geometry.journal) }
    ensures whole { IsTrue D.visible → OnOk result (bad_sector image.now.geometry image.now.superblock (reads (D.moments disk.old)) ≡ None) }
    ensures bad { IsTrue D.visible → IfErr result (IsJournalRefusal (bad_sector image.now.geometry image.now.superblock (reads (D.moments disk.old)))) }
    ensures blames_none { IfErr result BlamesNone }
    ensures memory { IfErr result LacksMemory }
    ensures read_only { IsTrue D.visible → IsReadOnly D.keeps (D.moments disk.old) (D.moments disk.new) }
    ensures size { D.size disk.new ≡ D.size disk.old }
    ensures passed { OnOk result (D.faults disk.new ≡ D.faults disk.old) }
    ensures cause { IfErr result (HasFaultCause (D.faults disk.old) (D.faults disk.new)) }
{
    match scan(alloc, disk, &image.geometry, &image.superblock) {
        Ok(list) => Ok(list),
        Err(fault) => Err(of_scan(fault)),
    }
}

// Adds a transaction behind the others. Those that `scan` gives can always be folded; its contract says so
// only of a visible disk, and an overlay wants it of each, so it is asked here again.
fn add_one(overlay: &mut Overlay, geometry: &Geometry, one: &Committed) -> Result<(), RecoverFault>
    requires limits { IsGeometry geometry.now }
    requires same { geometry_of overlay.old ≡ geometry.now }
    ensures added { (before : List Committed) → HasAdded overlay.old before → IsTrue (rise_above 0 (before ++ one.now ∷ [])) → OnOk result (HasAdded overlay.new (before ++ one.now ∷ [])) }
    ensures geometry { geometry_of overlay.new ≡ geometry_of overlay.old }
    ensures outside { IsFoldable geometry.now one.now → IfErr result IsOutside }
    ensures calm { IfErr result (λ f. (before : ℕ) → HasFaultCause before before f) }
    ensures blames_none { IfErr result BlamesNone }
    ensures memory { IfErr result LacksMemory }
{
    if !can_fold(geometry, one.records.as_slice()) {
        return Err(RecoverFault::BadRecord {
            sector: 8 * geometry.first_of_journal(),
        });
    }
    match overlay.add(one) {
        Ok(()) => Ok(()),
        Err(memory) => Err(RecoverFault::from(memory)),
    }
}

/// These transactions over the home sectors.
pub(crate) fn overlay_of(
    alloc: Global,
    geometry: &Geometry,
    list: &[Committed],
) -> Result<Overlay, RecoverFault>
    requires { IsGeometry geometry.now }
    ensures added { IsTrue (rise_above 0 list.now) → IfOk result (λ o. HasAdded o list.now) }
    ensures geometry { IfOk result (λ o. geometry_of o ≡ geometry.now) }
    ensures outside { AreFoldable geometry.now list.now → IfErr result IsOutside }
    ensures calm { IfErr result (λ f. (before : ℕ) → HasFaultCause before before f) }
    ensures blames_none { IfErr result BlamesNone }
    ensures memory { IfErr result LacksMemory }
{
    let mut overlay = Overlay::make(alloc, geometry);
    for at in 0..list.len() {
        add_one(&mut overlay, geometry, &list[at])?;
    }
    Ok(overlay)
}
