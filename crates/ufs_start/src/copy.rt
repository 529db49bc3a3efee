// A copy in memory of what the names of an image use.
ghost use Rattle.std.specs.Prelude.{ℕ, ◌≡◌, ◌≤◌, ◌<◌, ◌+◌, ◌*◌, length, None, Some, IsTrue, IfOk, IfErr, IfSome, IfNone, OnOk};
ghost use Rattle.ufs_base.specs.declared.sizes.TheConstants.{MAX_BLOCKS, SECTOR};
ghost use Rattle.ufs_base.specs.Faults.{RoseTo};
ghost use Rattle.ufs_disk.specs.Bytes.{image_of};
ghost use Rattle.ufs_disk.specs.Disk.{IsRange, bytes_from};
ghost use Rattle.ufs_disk.specs.Moments.{reads};
ghost use Rattle.ufs_metadata.specs.Faults.{HasFaultCause, IsOutside};
ghost use Rattle.ufs_metadata.specs.Reading.{IsReadOnly};
ghost use Rattle.ufs_image.specs.Agree.{AgreeOn, IsMetadata};
ghost use Rattle.ufs_image.specs.Volume.{Refusal, superblock_of, superblock_refusal};
ghost use Rattle.ufs_layout.specs.Areas.{IsGeometry, sector_count};
ghost use Rattle.ufs_layout.specs.Superblock.{geometry_of};
ghost use Rattle.ufs_start.specs.Copies.{IsCopyOf, IsUsed, sectors_taken};
ghost use Rattle.ufs_front.specs.Fronts.{bytes_of};

use crate::used::end_of_used;
use std::alloc::{AllocError, Global};
use ufs_base::{BLOCK, SECTOR};
use ufs_disk::{Disk, Fault};
use ufs_front::FrontDisk;
use ufs_layout::{Geometry, get_super};
use ufs_metadata::RecoverFault;

// The sectors of a call.
const SECTORS: u32 = 8;

// A call of the disk failed.
fn of_device(fault: Fault) -> RecoverFault
    ensures cause { (before now : ℕ) → RoseTo before now fault.number → HasFaultCause before now result }
    ensures outside { IsOutside result }
{
    RecoverFault::Device {
        fault: fault.number,
    }
}

// The first sectors of a disk, by one call.
fn first_sectors<D: Disk>(alloc: Global, disk: &mut D, count: u32) -> Result<Vec<u8>, RecoverFault>
    requires some { 0 < count }
    requires few { count ≤ 8 }
    requires inside { count ≤ D.size disk.old }
    ensures bytes { IsTrue D.visible → IfOk result (λ bytes. bytes.items ≡ bytes_from (reads (D.moments disk.old)) 0 count) }
    ensures long { IfOk result (λ bytes. length bytes.items ≡ 512 * count) }
    ensures read_only { IsTrue D.visible → IsReadOnly D.keeps (D.moments disk.old) (D.moments disk.new) }
    ensures size { D.size disk.new ≡ D.size disk.old }
    ensures passed { OnOk result (D.faults disk.new ≡ D.faults disk.old) }
    ensures cause { IfErr result (HasFaultCause (D.faults disk.old) (D.faults disk.new)) }
    ensures outside { IfErr result IsOutside }
{
    let mut bytes = vec![in alloc; 0; SECTOR * count as usize]?;
    if let Err(fault) = disk.read(0, &mut bytes) {
        return Err(of_device(fault));
    }
    Ok(bytes)
}

// A block of a disk into its place, by one call.
fn copy_block<D: Disk>(copy: &mut FrontDisk, disk: &mut D, block: u32) -> Result<(), RecoverFault>
    requires small { block < MAX_BLOCKS }
    requires inside { 8 * block + 8 ≤ D.size disk.old }
    requires room { 8 * block + 8 ≤ copy.old.sectors }
    ensures there { IsTrue D.visible → OnOk result ((s : ℕ) → 8 * block ≤ s → s < 8 * block + 8 → image_of (bytes_of copy.new) s ≡ reads (D.moments disk.old) s) }
    ensures before { (s : ℕ) → s < 8 * block → image_of (bytes_of copy.new) s ≡ image_of (bytes_of copy.old) s }
    ensures sectors { copy.new.sectors ≡ copy.old.sectors }
    ensures read_only { IsTrue D.visible → IsReadOnly D.keeps (D.moments disk.old) (D.moments disk.new) }
    ensures size { D.size disk.new ≡ D.size disk.old }
    ensures passed { OnOk result (D.faults disk.new ≡ D.faults disk.old) }
    ensures cause { IfErr result (HasFaultCause (D.faults disk.old) (D.faults disk.new)) }
    ensures outside { IfErr result IsOutside }
{
    let mut bytes = [0; BLOCK];
    match disk.read(SECTORS * block, &mut bytes) {
        Ok(()) => {
            copy.put(SECTORS * block, &bytes);
            Ok(())
        }
        Err(fault) => Err(of_device(fault)),
    }
}

// The blocks of a disk from one on, up to another, into their places.
fn copy_blocks<D: Disk>(
    copy: &mut FrontDisk,
    disk: &mut D,
    from: u32,
    end: u32,
) -> Result<(), RecoverFault>
    requires order { from ≤ end }
    requires small { end ≤ MAX_BLOCKS }
    requires inside { 8 * end ≤ D.size disk.old }
    requires room { 8 * end ≤ copy.old.sectors }
    ensures there { IsTrue D.visible → OnOk result ((s : ℕ) → 8 * from ≤ s → s < 8 * end → image_of (bytes_of copy.new) s ≡ reads (D.moments disk.old) s) }
    ensures before { (s : ℕ) → s < 8 * from → image_of (bytes_of copy.new) s ≡ image_of (bytes_of copy.old) s }
    ensures sectors { copy.new.sectors ≡ copy.old.sectors }
    ensures read_only { IsTrue D.visible → IsReadOnly D.keeps (D.moments disk.old) (D.moments disk.new) }
    ensures size { D.size disk.new ≡ D.size disk.old }
    ensures passed { OnOk result (D.faults disk.new ≡ D.faults disk.old) }
    ensures cause { IfErr result (HasFaultCause (D.faults disk.old) (D.faults disk.new)) }
    ensures outside { IfErr result IsOutside }
{
    for block in from..end {
        copy_block(copy, disk, block)?;
    }
    Ok(())
}

// The geometry by the first sector of a disk of so many, where the superblock is taken.
fn geometry_in(sectors: u32, bytes: &[u8]) -> Option<Geometry>
    requires sized { SECTOR ≤ length bytes.now }
    requires some { 0 < sectors }
    ensures taken { IfSome result (λ g. superblock_refusal sectors (image_of bytes.now) ≡ None) }
    ensures fields { IfSome result (λ g. g ≡ geometry_of (superblock_of (image_of bytes.now))) }
    ensures limits { IfSome result IsGeometry }
    ensures large { IfSome result (λ g. sector_count g ≤ sectors) }
    ensures refused { IfNone result ((r : Refusal) × (superblock_refusal sectors (image_of bytes.now) ≡ Some r)) }
{
    let found = get_super(&bytes[..SECTOR])?;
    match Geometry::make(found.blocks, found.inodes, found.journal) {
        Ok(geometry) => {
            if sectors < geometry.sector_count() {
                return None;
            }
            Some(geometry)
        }
        Err(_bad) => None,
    }
}

// A disk of so many sectors with these first ones, and zeros behind.
fn with_first(alloc: Global, sectors: u32, first: &[u8]) -> Result<FrontDisk, AllocError>
    requires { IsRange sectors 0 (length first.now) }
    ensures sectors { IfOk result (λ c. c.sectors ≡ sectors) }
    ensures first { IfOk result (λ c. (s : ℕ) → 512 * s < length first.now → image_of (bytes_of c) s ≡ image_of first.now s) }
{
    let mut copy = FrontDisk::zeros(alloc, sectors)?;
    copy.put(0, first);
    Ok(copy)
}

// The metadata of an image of this geometry, by its first block, and zeros in the place of its data.
fn metadata_of<D: Disk>(
    alloc: Global,
    disk: &mut D,
    geometry: &Geometry,
    first: &[u8],
) -> Result<FrontDisk, RecoverFault>
    requires limits { IsGeometry geometry.now }
    requires large { sector_count geometry.now ≤ D.size disk.old }
    requires sized { length first.now ≡ 4096 }
    ensures sectors { IfOk result (λ c. c.sectors ≡ sector_count geometry.now) }
    ensures first { IfOk result (λ c. image_of (bytes_of c) 0 ≡ image_of first.now 0) }
    ensures same { IsTrue D.visible → first.now ≡ bytes_from (reads (D.moments disk.old)) 0 8 → IfOk result (λ c. AgreeOn (IsMetadata geometry.now) (image_of (bytes_of c)) (reads (D.moments disk.old))) }
    ensures read_only { IsTrue D.visible → IsReadOnly D.keeps (D.moments disk.old) (D.moments disk.new) }
    ensures size { D.size disk.new ≡ D.size disk.old }
    ensures passed { OnOk result (D.faults disk.new ≡ D.faults disk.old) }
    ensures cause { IfErr result (HasFaultCause (D.faults disk.old) (D.faults disk.new)) }
    ensures outside { IfErr result IsOutside }
{
    let mut copy = with_first(alloc, geometry.sector_count(), first)?;
    copy_blocks(&mut copy, disk, 1, geometry.first_of_data())?;
    Ok(copy)
}

// The copy of an image of this geometry, by its first block: the metadata says how far the data is read.
fn copy_in<D: Disk>(
    alloc: Global,
    disk: &mut D,
    geometry: &Geometry,
    first: &[u8],
) -> Result<FrontDisk, RecoverFault>
    requires limits { IsGeometry geometry.now }
    requires large { sector_count geometry.now ≤ D.size disk.old }
    requires sized { length first.now ≡ 4096 }
    requires fields { geometry.now ≡ geometry_of (superblock_of (image_of first.now)) }
    ensures sectors { IfOk result (λ c. c.sectors ≡ sector_count geometry.now) }
    ensures first { IfOk result (λ c. image_of (bytes_of c) 0 ≡ image_of first.now 0) }
    ensures same { IsTrue D.visible → first.now ≡ bytes_from (reads (D.moments disk.old)) 0 8 → IfOk result (λ c. AgreeOn (IsUsed (sector_count geometry.now) (image_of (bytes_of c))) (image_of (bytes_of c)) (reads (D.moments disk.old))) }
    ensures read_only { IsTrue D.visible → IsReadOnly D.keeps (D.moments disk.old) (D.moments disk.new) }
    ensures size { D.size disk.new ≡ D.size disk.old }
    ensures passed { OnOk result (D.faults disk.new ≡ D.faults disk.old) }
    ensures cause { IfErr result (HasFaultCause (D.faults disk.old) (D.faults disk.new)) }
    ensures outside { IfErr result IsOutside }
{
    let mut copy = metadata_of(alloc, disk, geometry, first)?;
    let end = end_of_used(alloc, geometry, &mut copy)?;
    copy_blocks(&mut copy, disk, geometry.first_of_data(), end)?;
    Ok(copy)
}

/// What the names of the image on a disk use, in a disk in memory of as many sectors as the image takes by its superblock:
/// what lies before the data area, and the data blocks up to the last one of a directory. What lies behind is zeros, and
/// isn't read. Where the superblock is refused it is the first block. Reads each of these sectors once, in calls of 4,096
/// bytes at most; writes nothing.
pub fn copy_of<D: Disk>(alloc: Global, disk: &mut D) -> Result<FrontDisk, RecoverFault>
    ensures taken { IfOk result (λ c. c.sectors ≡ sectors_taken (D.size disk.old) (image_of (bytes_of c))) }
    ensures copied { IsTrue D.visible → IfOk result (λ c. IsCopyOf c.sectors (image_of (bytes_of c)) (D.size disk.old) (reads (D.moments disk.old))) }
    ensures read_only { IsTrue D.visible → IsReadOnly D.keeps (D.moments disk.old) (D.moments disk.new) }
    ensures size { D.size disk.new ≡ D.size disk.old }
    ensures passed { OnOk result (D.faults disk.new ≡ D.faults disk.old) }
    ensures cause { IfErr result (HasFaultCause (D.faults disk.old) (D.faults disk.new)) }
    ensures outside { IfErr result IsOutside }
{
    let sectors = disk.sectors();
    if sectors == 0 {
        let empty = FrontDisk::zeros(alloc, 0)?;
        return Ok(empty);
    }
    let count = sectors.min(SECTORS);
    let first = first_sectors(alloc, disk, count)?;
    let Some(geometry) = geometry_in(sectors, &first) else {
        let copy = with_first(alloc, count, &first)?;
        return Ok(copy);
    };
    let copy = copy_in(alloc, disk, &geometry, &first)?;
    Ok(copy)
}
