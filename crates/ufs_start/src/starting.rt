// What a server begins with, made of a disk.
ghost use Rattle.std.specs.Prelude.{ℕ, ◌≡◌, Ok, Some, IsSome, IsTrue, IfOk, IfErr, OnOk};
ghost use Rattle.std.specs.FinMap as map;
ghost use Rattle.std.specs.FinSet as set;
ghost use Rattle.ufs_base.specs.Images.{Image};
ghost use Rattle.ufs_disk.specs.Bytes.{image_of};
ghost use Rattle.ufs_disk.specs.Moments.{reads};
ghost use Rattle.ufs_metadata.specs.Reading.{IsReadOnly};
ghost use Rattle.ufs_damage.specs.Findings.{AreFindingsOf};
ghost use Rattle.ufs_files.specs.Files.{AreFilesOf};
ghost use Rattle.ufs_image.specs.Catalog.{IsInode, catalog_at};
ghost use Rattle.ufs_image.specs.Images.{form_at};
ghost use Rattle.ufs_image.specs.Opens.{opens};
ghost use Rattle.ufs_image.specs.Standing.{IsVolumeOf};
ghost use Rattle.ufs_layout.specs.Areas.{IsGeometry, first_of_data};
ghost use Rattle.ufs_layout.specs.declared.superblock.Super.{Super};
ghost use Rattle.ufs_load_image.specs.Loaded.{is_free_block};
ghost use Rattle.ufs_name_tree.specs.NameTable.{file_at};
ghost use Rattle.ufs_names.specs.Calls.{HaveInodes};
ghost use Rattle.ufs_names.specs.NamesPart.{IsNamesPart};
ghost use Rattle.ufs_names.specs.Space.{AreApart};
ghost use Rattle.ufs_promise_laws.specs.Loaded.{AreRead};
ghost use Rattle.ufs_promise_laws.specs.TreeParts.{IsNamesOf};
ghost use Rattle.ufs_promise_laws.specs.Starts.{image_start};
ghost use Rattle.ufs_start.specs.Begun.{IsBegun, catalog_under, image_under, session_start, tree_under, volume_under};
ghost use Rattle.ufs_start.specs.Files.{AreLaid, AreSized, AreUnread};
ghost use Rattle.ufs_front.specs.Fronts.{bytes_of};
ghost use Rattle.ufs_hand.specs.declared.rule.Parts.{Parts as SessionParts};
ghost use Rattle.ufs_start.specs.Copies.{image_seen};
ghost use Rattle.ufs_start.specs.Refused.{HasStartCause, IsRefusedFile, NamesFile, TellsNoStart};
ghost use Rattle.ufs_start.specs.Starts.{AreNamesOfSome, AreStartNames, IsLoaded};

use crate::copy::copy_of;
use crate::fault::StartFault;
use crate::files::files_of;
use crate::laws::{copy_law, start_files_law, start_numbers_law};
use crate::names::names_in;
use crate::numbers::numbers_of;
use crate::parts::Start;
use std::alloc::Global;
use std::marker::Brand;
use ufs_damage::Findings;
use ufs_disk::Disk;
use ufs_files::FileHands;
use ufs_front::FrontDisk;
use ufs_hand::{Opening, Parts};
use ufs_image::damage_law;
use ufs_layout::Geometry;
use ufs_load_image::load;
use ufs_names::Names;
use ufs_promise_laws::{files_part_law, image_start_law};

// The files of an image, by the numbers that its names tell.
fn files_in(
    alloc: Global,
    geometry: &Geometry,
    findings: &Findings,
    names: &Names,
) -> Result<FileHands, StartFault>
    requires geometry { IsGeometry geometry.now }
    requires begun { AreNamesOfSome geometry.now findings.now names.now }
    ensures read { (sectors : ℕ) (disk : Image) (superblock : Super) (image : Image) → IsLoaded geometry.now findings.now sectors disk superblock image → AreStartNames sectors disk geometry.now image names.now → AreSized geometry.now image
        → IfOk result (AreRead image (catalog_at geometry.now image) names.now) }
    ensures here { (inode file : ℕ) → file_at names.now.tree inode ≡ Some file → IfOk result (λ files. IsSome (map.get files file)) }
    ensures unread { (image : Image) → AreFindingsOf geometry.now image findings.now → IfOk result (AreUnread (catalog_at geometry.now image)) }
    ensures laid { (image : Image) → AreFindingsOf geometry.now image findings.now → IfOk result (AreLaid (catalog_at geometry.now image)) }
    ensures calm { IfErr result (λ f. (count : ℕ) → HasStartCause count count f) }
    ensures refused { (image : Image) → AreFindingsOf geometry.now image findings.now → IfErr result (IsRefusedFile (form_at geometry.now image)) }
    ensures named { IfErr result (NamesFile (IsInode geometry.now)) }
{
    damage_law(geometry);
    start_numbers_law();
    let numbers = numbers_of(alloc, geometry, findings)?;
    files_of(alloc, findings, &numbers.files)
}

// What a session over a disk starts from, for contracts alone: where they don't see the disk, its copy says what it has.
fn session_parts<P: Opening, D: Disk>(disk: &D, copy: &FrontDisk) -> Parts
    requires { P.opened ≡ session_start (D.size disk.now) (image_seen D.visible (reads (D.moments disk.now)) (image_of (bytes_of copy.now))) }
    ensures { result.start ≡ session_start (D.size disk.now) (image_seen D.visible (reads (D.moments disk.now)) (image_of (bytes_of copy.now))) }
{
    let _disk = disk;
    let _copy = copy;
    Parts::picked::<P>()
}

// What a server begins with, made of a disk in memory, for a session that starts from these parts.
fn start_in(alloc: Global, copy: &mut FrontDisk, parts: Parts) -> Result<Start, StartFault>
    ensures parts { IfOk result (λ s. s.parts ≡ parts) }
    ensures begun { (p : SessionParts) → p.start ≡ session_start copy.old.sectors (image_of (bytes_of copy.old)) → IfOk result (λ s. IsBegun copy.old.sectors (image_of (bytes_of copy.old)) (record s { parts = p })) }
    ensures refused { IfErr result (TellsNoStart copy.old.sectors (image_of (bytes_of copy.old))) }
    ensures calm { IfErr result (λ f. (count : ℕ) → HasStartCause count count f) }
{
    start_files_law();
    files_part_law(copy.sectors as usize);
    image_start_law(copy.sectors as usize);
    let loaded = load(alloc, copy)?;
    let volume = &loaded.volume;
    damage_law(&volume.superblock.geometry);
    let names = names_in(alloc, &volume.superblock.geometry, &loaded.findings)?;
    let files = files_in(alloc, &volume.superblock.geometry, &loaded.findings, &names)?;
    Ok(Start {
        superblock: loaded.volume.superblock,
        names,
        files,
        free: loaded.free,
        parts,
    })
}

/// Makes what a server begins with, over a copy of the image in memory. Refuses a disk that opens to no tree, and one
/// with a file that a server can't hold or that no path names, or with a directory that has names and that no path leads
/// to. Of files it knows where they lie and how long they are, and none of their bytes. Reads each sector up to the last block
/// of a directory once, in calls of 4,096 bytes at most, and none behind it; writes nothing.
pub fn start_of<D: Disk>(alloc: Global, disk: &mut D) -> Result<Start, StartFault>
    ensures standing { IsTrue D.visible → IfOk result (λ s. IsVolumeOf (D.size disk.old) (reads (D.moments disk.old)) (volume_under s.superblock (reads (D.moments disk.old))) (catalog_under s.superblock (reads (D.moments disk.old)))) }
    ensures opened { IsTrue D.visible → IfOk result (λ s. opens (D.size disk.old) (reads (D.moments disk.old)) ≡ Ok (tree_under s.superblock (reads (D.moments disk.old)))) }
    ensures table { IsTrue D.visible → IfOk result (λ s. IsNamesOf s.superblock.geometry (catalog_under s.superblock (reads (D.moments disk.old))) (image_start (tree_under s.superblock (reads (D.moments disk.old)))) s.names) }
    ensures names { IsTrue D.visible → IfOk result (λ s. IsNamesPart s.names (image_start (tree_under s.superblock (reads (D.moments disk.old))))) }
    ensures read { IsTrue D.visible → IfOk result (λ s. AreRead (image_under s.superblock (reads (D.moments disk.old))) (catalog_under s.superblock (reads (D.moments disk.old))) s.names s.files) }
    ensures files { IsTrue D.visible → IfOk result (λ s. AreFilesOf s.files (image_start (tree_under s.superblock (reads (D.moments disk.old))))) }
    ensures free { IsTrue D.visible → IfOk result (λ s. (block : ℕ) → set.contains s.free.free block ≡ is_free_block s.superblock.geometry (image_under s.superblock (reads (D.moments disk.old))) block) }
    ensures begun { IfOk result (λ s. (image : Image) × IsBegun (D.size disk.old) image s × (IsTrue D.visible → image ≡ reads (D.moments disk.old))) }
    ensures inodes { IfOk result (λ s. HaveInodes s.names.held s.files) }
    ensures here { IfOk result (λ s. (inode file : ℕ) → file_at s.names.tree inode ≡ Some file → IsSome (map.get s.files file)) }
    ensures unread { IsTrue D.visible → IfOk result (λ s. AreUnread (catalog_under s.superblock (reads (D.moments disk.old))) s.files) }
    ensures first { IfOk result (λ s. s.free.first ≡ first_of_data s.superblock.geometry) }
    ensures blocks { IfOk result (λ s. s.free.blocks ≡ s.superblock.geometry.blocks) }
    ensures apart { IfOk result (λ s. AreApart s.names.tree.dirs s.files s.free.free) }
    ensures refused { IsTrue D.visible → IfErr result (TellsNoStart (D.size disk.old) (reads (D.moments disk.old))) }
    ensures read_only { IsTrue D.visible → IsReadOnly D.keeps (D.moments disk.old) (D.moments disk.new) }
    ensures size { D.size disk.new ≡ D.size disk.old }
    ensures passed { OnOk result (D.faults disk.new ≡ D.faults disk.old) }
    ensures cause { IfErr result (HasStartCause (D.faults disk.old) (D.faults disk.new)) }
{
    copy_law();
    let mut copy = copy_of(alloc, disk)?;
    let parts = session_parts::<Brand, D>(disk, &copy);
    start_in(alloc, &mut copy, parts)
}
