ghost use Rattle.std.specs.Prelude.{ℕ, ◌≡◌, ◌≤◌, None, Some, Ok, length, map, IsTrue, IfOk, IfErr, OnOk};
ghost use Rattle.std.specs.FinSet as set;
ghost use Rattle.ufs_base.specs.Images.{Image};
ghost use Rattle.ufs_disk.specs.Moments.{reads};
ghost use Rattle.ufs_layout.specs.Areas.{IsGeometry, all_inodes, first_of_data, sector_count};
ghost use Rattle.ufs_image.specs.Images.{form_at};
ghost use Rattle.ufs_image.specs.Catalog.{IsCatalogOf, catalog_at};
ghost use Rattle.ufs_image.specs.Damage.{bad_tree};
ghost use Rattle.ufs_image.specs.Sound.{IsSoundCatalog};
ghost use Rattle.ufs_image.specs.Volume.{volume};
ghost use Rattle.ufs_damage.specs.Findings.{AreFindingsOf};
ghost use Rattle.ufs_metadata.specs.Faults.{HasFaultCause, LacksMemory};
ghost use Rattle.ufs_metadata.specs.Reading.{IsReadOnly};
ghost use Rattle.ufs_overlay.specs.Seen.{HasAdded};
ghost use Rattle.ufs_volume.specs.Volumes.{committed_in, folded_image, highest_number, volume_in};
ghost use Rattle.ufs_opening.specs.Told.{TellsWhy};
ghost use Rattle.ufs_load_image.specs.Loaded.{is_free_block};

use crate::free::free_blocks;
use std::alloc::Global;
use ufs_base::Memory;
use ufs_bitmap::Bitmap;
use ufs_damage::{Findings, taken_blocks};
use ufs_disk::Disk;
use ufs_image::damage_law;
use ufs_layout::Geometry;
use ufs_metadata::RecoverFault;
use ufs_opening::{Opened, open};
use ufs_volume::FoldedVolume;

/// What a server begins with: the volume, the inodes (none of which is off its form) and the directories with their
/// slots as the committed transactions leave them, and the free blocks of the data area.
#[derive(Drop)]
pub struct Loaded {
    pub volume: FoldedVolume,
    pub findings: Findings,
    pub free: Bitmap,
}

// The free blocks of the image whose findings these are.
fn free_of(alloc: Global, geometry: &Geometry, findings: &Findings) -> Result<Bitmap, Memory>
    requires geometry { IsGeometry geometry.now }
    requires counted { length findings.now.forms ≡ geometry.now.inodes }
    ensures first { IfOk result (λ m. m.first ≡ first_of_data geometry.now) }
    ensures blocks { IfOk result (λ m. m.blocks ≡ geometry.now.blocks) }
    ensures free { IfOk result (λ m. (image : Image) → AreFindingsOf geometry.now image findings.now → (b : ℕ) → set.contains m.free b ≡ is_free_block geometry.now image b) }
{
    let taken = taken_blocks(alloc, geometry, findings)?;
    free_blocks(alloc, geometry, &taken)
}

// What was read is that of a sound catalog.
fn with_free(alloc: Global, opened: Opened) -> Result<Loaded, Memory>
    requires counted { length opened.findings.forms ≡ opened.volume.superblock.geometry.inodes }
    ensures volume { IfOk result (λ l. l.volume ≡ opened.volume) }
    ensures findings { IfOk result (λ l. l.findings ≡ opened.findings) }
    ensures first { IfOk result (λ l. l.free.first ≡ first_of_data opened.volume.superblock.geometry) }
    ensures blocks { IfOk result (λ l. l.free.blocks ≡ opened.volume.superblock.geometry.blocks) }
    ensures free { IfOk result (λ l. (image : Image) → AreFindingsOf opened.volume.superblock.geometry image opened.findings → (b : ℕ) → set.contains l.free.free b ≡ is_free_block opened.volume.superblock.geometry image b) }
    ensures catalog { (image : Image) → bad_tree opened.volume.superblock.geometry image ≡ None → IsCatalogOf opened.volume.superblock.geometry image (catalog_at opened.volume.superblock.geometry image) }
    ensures sound { (image : Image) → bad_tree opened.volume.superblock.geometry image ≡ None → IsSoundCatalog opened.volume.superblock.geometry (catalog_at opened.volume.superblock.geometry image) }
{
    let Opened { volume, findings } = opened;
    damage_law(&volume.superblock.geometry);
    let free = free_of(alloc, &volume.superblock.geometry, &findings)?;
    Ok(Loaded {
        volume,
        findings,
        free,
    })
}

/// Loads an image that stands for a tree, or tells why it stands for none. Which blocks are free comes from
/// the inodes as the committed transactions leave them; the bitmap isn't read. Reads the superblock, each sector of
/// the journal, and each block of the inode table and of directories; writes nothing.
pub fn load<D: Disk>(alloc: Global, disk: &mut D) -> Result<Loaded, RecoverFault>
    ensures taken { IsTrue D.visible → IfOk result (λ l. volume (D.size disk.old) (reads (D.moments disk.old)) ≡ Ok (volume_in l.volume (reads (D.moments disk.old)))) }
    ensures added { IsTrue D.visible → IfOk result (λ l. HasAdded l.volume.overlay (committed_in l.volume (reads (D.moments disk.old)))) }
    ensures count { IsTrue D.visible → IfOk result (λ l. l.volume.committed ≡ length (committed_in l.volume (reads (D.moments disk.old)))) }
    ensures highest { IsTrue D.visible → IfOk result (λ l. l.volume.highest ≡ highest_number (committed_in l.volume (reads (D.moments disk.old)))) }
    ensures found { IsTrue D.visible → IfOk result (λ l. AreFindingsOf l.volume.superblock.geometry (folded_image l.volume (reads (D.moments disk.old))) l.findings) }
    ensures forms { IsTrue D.visible → IfOk result (λ l. l.findings.forms ≡ map (λ inode. Some (form_at l.volume.superblock.geometry (folded_image l.volume (reads (D.moments disk.old))) inode)) (all_inodes l.volume.superblock.geometry)) }
    ensures catalog { IsTrue D.visible → IfOk result (λ l. IsCatalogOf l.volume.superblock.geometry (folded_image l.volume (reads (D.moments disk.old))) (catalog_at l.volume.superblock.geometry (folded_image l.volume (reads (D.moments disk.old))))) }
    ensures sound { IsTrue D.visible → IfOk result (λ l. IsSoundCatalog l.volume.superblock.geometry (catalog_at l.volume.superblock.geometry (folded_image l.volume (reads (D.moments disk.old))))) }
    ensures first { IfOk result (λ l. l.free.first ≡ first_of_data l.volume.superblock.geometry) }
    ensures blocks { IfOk result (λ l. l.free.blocks ≡ l.volume.superblock.geometry.blocks) }
    ensures free { IsTrue D.visible → IfOk result (λ l. (b : ℕ) → set.contains l.free.free b ≡ is_free_block l.volume.superblock.geometry (folded_image l.volume (reads (D.moments disk.old))) b) }
    ensures free_of { IfOk result (λ l. (image : Image) → AreFindingsOf l.volume.superblock.geometry image l.findings → (b : ℕ) → set.contains l.free.free b ≡ is_free_block l.volume.superblock.geometry image b) }
    ensures counted { IfOk result (λ l. length l.findings.forms ≡ l.volume.superblock.geometry.inodes) }
    ensures few { IfOk result (λ l. l.volume.committed ≤ l.volume.superblock.geometry.journal) }
    ensures large { IfOk result (λ l. sector_count l.volume.superblock.geometry ≤ D.size disk.old) }
    ensures refused { IsTrue D.visible → IfErr result (TellsWhy (D.size disk.old) (reads (D.moments disk.old))) }
    ensures read_only { IsTrue D.visible → IsReadOnly D.keeps (D.moments disk.old) (D.moments disk.new) }
    ensures size { D.size disk.new ≡ D.size disk.old }
    ensures passed { OnOk result (D.faults disk.new ≡ D.faults disk.old) }
    ensures cause { IfErr result (HasFaultCause (D.faults disk.old) (D.faults disk.new)) }
    ensures memory { IfErr result LacksMemory }
{
    let opened = open(alloc, disk)?;
    match with_free(alloc, opened) {
        Ok(loaded) => Ok(loaded),
        Err(memory) => Err(RecoverFault::from(memory)),
    }
}
