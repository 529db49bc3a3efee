ghost use Rattle.std.specs.Prelude.{◌≡◌, ◌≤◌, ◌<◌, ◌++◌, ◌+◌, ◌*◌, ◌∷◌, [], flat_map, length, not, IsTrue, IfOk, IfErr, OnOk};
ghost use Rattle.std.specs.List.{list_any};
ghost use Rattle.std.specs.Option.{option_to_list};
ghost use Rattle.std.specs.List.{range_with_len};
ghost use Rattle.std.specs.Prelude.{false};
ghost use Rattle.ufs_base.specs.Images.{Image};
ghost use Rattle.ufs_base.specs.declared.sizes.TheConstants.{BLOCK, MAX_BLOCKS, MAX_EXTENTS};
ghost use Rattle.ufs_disk.specs.Moments.{reads};
ghost use Rattle.ufs_layout.specs.Areas.{IsGeometry, sector_count};
ghost use Rattle.ufs_layout.specs.DentryForm.{dentry_of};
ghost use Rattle.ufs_image.specs.Images.{inode_at};
ghost use Rattle.ufs_image.specs.Nodes.{blocks_of, dirs_of, leaves_data, read_block, sound_node};
ghost use Rattle.ufs_metadata.specs.Faults.{HasFaultCause, IsOutside, LacksMemory};
ghost use Rattle.ufs_metadata.specs.Folded.{IsFolded};
ghost use Rattle.ufs_metadata.specs.Reading.{IsReadOnly};
ghost use Rattle.ufs_metadata.specs.Told.{slots_in};

use crate::RecoverFault;
use crate::reading::read_block;
use std::alloc::{AllocError, Global};
use ufs_base::BLOCK;
use ufs_damage::{ReadDir, is_sound};
use ufs_disk::Disk;
use ufs_layout::{Dentry, Extent, Geometry, Inode, get_dentry};
use ufs_overlay::Overlay;

const DIRECTORY: u8 = 2;

fn push_slot(slots: &mut Vec<Option<Dentry>>, slot: &[u8]) -> Result<(), AllocError>
    requires { length slot.now ≡ 64 }
    ensures { OnOk result (slots.new.items ≡ slots.old.items ++ dentry_of slot.now ∷ []) }
{
    slots.push(get_dentry(slot))?;
    Ok(())
}

// The slots of a block.
fn push_slots(slots: &mut Vec<Option<Dentry>>, bytes: &[u8]) -> Result<(), AllocError>
    requires { length bytes.now ≡ BLOCK }
    ensures { OnOk result (slots.new.items ≡ slots.old.items ++ slots_in 64 bytes.now) }
{
    for i in 0..64usize {
        push_slot(slots, &bytes[64 * i..64 * i + 64])?;
    }
    Ok(())
}

// The slots of some blocks in a row.
fn read_extent<D: Disk>(
    slots: &mut Vec<Option<Dentry>>,
    disk: &mut D,
    geometry: &Geometry,
    overlay: &Overlay,
    extent: &Extent,
) -> Result<(), RecoverFault>
    requires geometry { IsGeometry geometry.now }
    requires large { sector_count geometry.now ≤ D.size disk.old }
    requires inside { extent.now.start + extent.now.length ≤ geometry.now.blocks }
    ensures slots { IsTrue D.visible → (image : Image) → IsFolded overlay.now (reads (D.moments disk.old)) image → OnOk result (slots.new.items ≡ slots.old.items ++ flat_map (read_block image) (range_with_len extent.now.start extent.now.length)) }
    ensures few { OnOk result (length slots.new.items ≤ length slots.old.items + 64 * extent.now.length) }
    ensures read_only { IsTrue D.visible → IsReadOnly D.keeps (D.moments disk.old) (D.moments disk.new) }
    ensures size { D.size disk.new ≡ D.size disk.old }
    ensures passed { OnOk result (D.faults disk.new ≡ D.faults disk.old) }
    ensures cause { IfErr result (HasFaultCause (D.faults disk.old) (D.faults disk.new)) }
    ensures outside { IfErr result IsOutside }
    ensures memory { IfErr result LacksMemory }
{
    let mut bytes = [0; BLOCK];
    for place in 0..extent.length {
        read_block(disk, overlay, extent.start + place, &mut bytes)?;
        push_slots(slots, &bytes)?;
    }
    Ok(())
}

// The slots of a directory's blocks.
fn read_slots<D: Disk>(
    alloc: Global,
    disk: &mut D,
    geometry: &Geometry,
    overlay: &Overlay,
    form: &Inode,
) -> Result<Vec<Option<Dentry>>, RecoverFault>
    requires geometry { IsGeometry geometry.now }
    requires large { sector_count geometry.now ≤ D.size disk.old }
    requires inside { list_any (leaves_data geometry.now) form.now.extents ≡ false }
    requires few { length form.now.extents ≤ MAX_EXTENTS }
    ensures slots { IsTrue D.visible → (image : Image) → IsFolded overlay.now (reads (D.moments disk.old)) image → IfOk result (λ s. s.items ≡ flat_map (read_block image) (blocks_of form.now)) }
    ensures few { IfOk result (λ s. length s.items ≤ 64 * (MAX_EXTENTS * MAX_BLOCKS)) }
    ensures read_only { IsTrue D.visible → IsReadOnly D.keeps (D.moments disk.old) (D.moments disk.new) }
    ensures size { D.size disk.new ≡ D.size disk.old }
    ensures passed { OnOk result (D.faults disk.new ≡ D.faults disk.old) }
    ensures cause { IfErr result (HasFaultCause (D.faults disk.old) (D.faults disk.new)) }
    ensures outside { IfErr result IsOutside }
    ensures memory { IfErr result LacksMemory }
{
    let mut slots = Vec::new(alloc);
    for extent in form.used_extents() {
        read_extent(&mut slots, disk, geometry, overlay, extent)?;
    }
    Ok(slots)
}

fn push_dir(dirs: &mut Vec<ReadDir>, dir: ReadDir) -> Result<(), AllocError>
    ensures { OnOk result (dirs.new.items ≡ dirs.old.items ++ dir ∷ []) }
{
    dirs.push(dir)?;
    Ok(())
}

// Reads the blocks of an inode, if it is a sound directory.
pub(crate) fn read_dir<D: Disk>(
    alloc: Global,
    disk: &mut D,
    geometry: &Geometry,
    overlay: &Overlay,
    inode: u32,
    form: &Option<Inode>,
    dirs: &mut Vec<ReadDir>,
) -> Result<(), RecoverFault>
    requires geometry { IsGeometry geometry.now }
    requires large { sector_count geometry.now ≤ D.size disk.old }
    ensures dirs { IsTrue D.visible → (image : Image) → IsFolded overlay.now (reads (D.moments disk.old)) image → inode_at geometry.now image inode ≡ form.now → OnOk result
        (dirs.new.items ≡ dirs.old.items ++ dirs_of image (option_to_list (sound_node geometry.now image inode))) }
    ensures read_only { IsTrue D.visible → IsReadOnly D.keeps (D.moments disk.old) (D.moments disk.new) }
    ensures size { D.size disk.new ≡ D.size disk.old }
    ensures passed { OnOk result (D.faults disk.new ≡ D.faults disk.old) }
    ensures cause { IfErr result (HasFaultCause (D.faults disk.old) (D.faults disk.new)) }
    ensures outside { IfErr result IsOutside }
    ensures memory { IfErr result LacksMemory }
{
    let Some(found) = form else {
        return Ok(());
    };
    if found.kind != DIRECTORY {
        return Ok(());
    }
    if !is_sound(geometry, inode, form) {
        return Ok(());
    }
    let slots = read_slots(alloc, disk, geometry, overlay, found)?;
    push_dir(dirs, ReadDir::from_slots(inode, slots))?;
    Ok(())
}
