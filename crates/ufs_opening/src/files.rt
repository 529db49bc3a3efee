// The first bytes of files.
ghost use Rattle.std.specs.Prelude.{◌≡◌, ◌≤◌, ◌<◌, ◌+◌, ◌*◌, ◌++◌, List, ℕ, take, length, flat_map, false, not, IsTrue, IfOk, IfErr, OnOk};
ghost use Rattle.std.specs.List.{list_any, range_with_len};
ghost use Rattle.ufs_base.specs.Images.{Image};
ghost use Rattle.ufs_base.specs.declared.sizes.TheConstants.{MAX_BLOCKS};
ghost use Rattle.ufs_disk.specs.Moments.{reads};
ghost use Rattle.ufs_layout.specs.Areas.{IsGeometry, sector_count};
ghost use Rattle.ufs_image.specs.Images.{block_at};
ghost use Rattle.ufs_image.specs.Nodes.{blocks_of, leaves_data};
ghost use Rattle.ufs_metadata.specs.Faults.{HasFaultCause, IsOutside, LacksMemory};
ghost use Rattle.ufs_metadata.specs.Folded.{IsFolded};
ghost use Rattle.ufs_metadata.specs.Reading.{IsReadOnly};
ghost use Rattle.ufs_opening.specs.Heads.{IsFrontOf, enough_of};

use std::alloc::{AllocError, Global};
use ufs_base::BLOCK;
use ufs_disk::Disk;
use ufs_layout::{Extent, Geometry, Inode};
use ufs_metadata::{RecoverFault, read_block};
use ufs_overlay::Overlay;

fn append(bytes: &mut Vec<u8>, block: &[u8]) -> Result<(), AllocError>
    ensures { OnOk result (bytes.new.items ≡ bytes.old.items ++ block.now) }
{
    bytes.extend_from_slice(block)?;
    Ok(())
}

// A block behind the bytes, unless they are enough.
fn read_next<D: Disk>(
    bytes: &mut Vec<u8>,
    disk: &mut D,
    overlay: &Overlay,
    block: u32,
    enough: usize,
) -> Result<(), RecoverFault>
    requires small { block < MAX_BLOCKS }
    requires inside { 8 * block + 8 ≤ D.size disk.old }
    ensures bytes { IsTrue D.visible → (image : Image) → IsFolded overlay.now (reads (D.moments disk.old)) image → (whole : List ℕ) → IsFrontOf enough bytes.old.items whole → OnOk result (IsFrontOf enough bytes.new.items (whole ++ block_at image block)) }
    ensures read_only { IsTrue D.visible → IsReadOnly D.keeps (D.moments disk.old) (D.moments disk.new) }
    ensures size { D.size disk.new ≡ D.size disk.old }
    ensures passed { OnOk result (D.faults disk.new ≡ D.faults disk.old) }
    ensures cause { IfErr result (HasFaultCause (D.faults disk.old) (D.faults disk.new)) }
    ensures memory { IfErr result LacksMemory }
    ensures outside { IfErr result IsOutside }
{
    if bytes.len() >= enough {
        return Ok(());
    }
    let mut buf = [0; BLOCK];
    read_block(disk, overlay, block, &mut buf)?;
    append(bytes, &buf)?;
    Ok(())
}

// The blocks of an extent behind the bytes, until they are enough.
fn read_extent<D: Disk>(
    bytes: &mut Vec<u8>,
    disk: &mut D,
    geometry: &Geometry,
    overlay: &Overlay,
    extent: &Extent,
    enough: usize,
) -> Result<(), RecoverFault>
    requires geometry { IsGeometry geometry.now }
    requires large { sector_count geometry.now ≤ D.size disk.old }
    requires inside { extent.now.start + extent.now.length ≤ geometry.now.blocks }
    ensures bytes { IsTrue D.visible → (image : Image) → IsFolded overlay.now (reads (D.moments disk.old)) image → (whole : List ℕ) → IsFrontOf enough bytes.old.items whole → OnOk result (IsFrontOf enough bytes.new.items (whole ++ flat_map (block_at image) (range_with_len extent.now.start extent.now.length))) }
    ensures read_only { IsTrue D.visible → IsReadOnly D.keeps (D.moments disk.old) (D.moments disk.new) }
    ensures size { D.size disk.new ≡ D.size disk.old }
    ensures passed { OnOk result (D.faults disk.new ≡ D.faults disk.old) }
    ensures cause { IfErr result (HasFaultCause (D.faults disk.old) (D.faults disk.new)) }
    ensures memory { IfErr result LacksMemory }
    ensures outside { IfErr result IsOutside }
{
    for place in 0..extent.length {
        read_next(bytes, disk, overlay, extent.start + place, enough)?;
    }
    Ok(())
}

// How many bytes of a file of this size are wanted.
pub(crate) fn wanted(most: Option<usize>, size: usize) -> usize
    ensures { result ≡ enough_of most size }
{
    match most {
        Some(most) => most.min(size),
        None => size,
    }
}

// The first bytes of a file's blocks, so many or all of them. Reads no block behind them.
pub(crate) fn read_front<D: Disk>(
    alloc: Global,
    disk: &mut D,
    geometry: &Geometry,
    overlay: &Overlay,
    form: &Inode,
    enough: usize,
) -> Result<Vec<u8>, RecoverFault>
    requires geometry { IsGeometry geometry.now }
    requires large { sector_count geometry.now ≤ D.size disk.old }
    requires inside { list_any (leaves_data geometry.now) form.now.extents ≡ false }
    ensures bytes { IsTrue D.visible → (image : Image) → IsFolded overlay.now (reads (D.moments disk.old)) image → IfOk result (λ b. b.items ≡ take enough (flat_map (block_at image) (blocks_of form.now))) }
    ensures few { IfOk result (λ b. length b.items ≤ enough) }
    ensures read_only { IsTrue D.visible → IsReadOnly D.keeps (D.moments disk.old) (D.moments disk.new) }
    ensures size { D.size disk.new ≡ D.size disk.old }
    ensures passed { OnOk result (D.faults disk.new ≡ D.faults disk.old) }
    ensures cause { IfErr result (HasFaultCause (D.faults disk.old) (D.faults disk.new)) }
    ensures memory { IfErr result LacksMemory }
    ensures outside { IfErr result IsOutside }
{
    let mut bytes = Vec::new(alloc);
    for extent in form.used_extents() {
        read_extent(&mut bytes, disk, geometry, overlay, extent, enough)?;
    }
    bytes.truncate(enough);
    Ok(bytes)
}
