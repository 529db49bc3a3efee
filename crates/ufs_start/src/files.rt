// The files of an image, of which nothing is read.
ghost use Rattle.std.specs.Prelude.{ℕ, ◌≡◌, ◌≤◌, ◌<◌, ◌+◌, ◌⊎◌, length, map as mapped, None, Some, IsSome, slice_index_or, IfOk, IfErr, OnOk};
ghost use Rattle.std.specs.FinMap as map;
ghost use Rattle.ufs_base.specs.Images.{Image};
ghost use Rattle.ufs_damage.specs.Findings.{AreFindingsOf};
ghost use Rattle.ufs_extent.specs.Runs as runs;
ghost use Rattle.ufs_file.specs.Content.{block_count, unread};
ghost use Rattle.ufs_image.specs.Catalog.{IsInode, catalog_at};
ghost use Rattle.ufs_image.specs.Images.{form_at};
ghost use Rattle.ufs_image.specs.Nodes as nodes;
ghost use Rattle.ufs_layout.specs.InodeForm.{InodeForm};
ghost use Rattle.ufs_layout.specs.declared.geometry.Geometry.{Geometry};
ghost use Rattle.ufs_names.specs.NamesPart.{NamesPart};
ghost use Rattle.ufs_promise_laws.specs.Loaded.{AreRead};
ghost use Rattle.ufs_start.specs.Extents.{run_of};
ghost use Rattle.ufs_start.specs.Files.{AreFormsOf, AreLaid, AreSized, AreSoundFiles, AreUnread, HasNumbers, IsSoundFile};
ghost use Rattle.ufs_start.specs.Refused.{HasStartCause, IsRefusedFile, NamesFile};
ghost use Rattle.ufs_start.specs.Tables.{form_in};

use crate::extents::extents_in;
use crate::fault::StartFault;
use std::alloc::Global;
use ufs_base::BLOCK;
use ufs_damage::Findings;
use ufs_extent::Extents;
use ufs_file::FileHand;
use ufs_files::FileHands;
use ufs_layout::Inode;

// The blocks of a file, unless it has more than its size wants.
fn file_extents(alloc: Global, form: &Inode, inode: u32) -> Result<Extents, StartFault>
    requires { IsSoundFile form.now }
    ensures runs { IfOk result (λ e. e ≡ mapped run_of form.now.extents) }
    ensures blocks { IfOk result (λ e. runs.blocks_of e ≡ nodes.blocks_of form.now) }
    ensures count { IfOk result (λ e. length (runs.blocks_of e) ≡ block_count form.now.size) }
    ensures cause { IfErr result (λ f. (before : ℕ) → HasStartCause before before f) }
    ensures refused { IfErr result (λ f. (forms : ℕ → InodeForm) → forms inode ≡ form.now → IsRefusedFile forms f) }
    ensures named { IfErr result (NamesFile (λ i. i ≡ inode)) }
{
    let extents = extents_in(alloc, form)?;
    if u64::from(extents.block_count()) > form.size.div_ceil(BLOCK as u64) {
        return Err(StartFault::ExtraBlocks { inode });
    }
    Ok(extents)
}

// A file with its blocks and its size, and this number.
fn file_in(alloc: Global, form: &Inode, inode: u32, file: u32) -> Result<FileHand, StartFault>
    requires { IsSoundFile form.now }
    ensures file { IfOk result (λ h. h.file ≡ file) }
    ensures inode { IfOk result (λ h. h.inode ≡ inode) }
    ensures runs { IfOk result (λ h. h.extents ≡ mapped run_of form.now.extents) }
    ensures count { IfOk result (λ h. length (runs.blocks_of h.extents) ≡ block_count form.now.size) }
    ensures blocks { IfOk result (λ h. runs.blocks_of h.extents ≡ nodes.blocks_of form.now) }
    ensures content { IfOk result (λ h. h.content ≡ unread form.now.size) }
    ensures cause { IfErr result (λ f. (before : ℕ) → HasStartCause before before f) }
    ensures refused { IfErr result (λ f. (forms : ℕ → InodeForm) → forms inode ≡ form.now → IsRefusedFile forms f) }
    ensures named { IfErr result (NamesFile (λ i. i ≡ inode)) }
{
    let extents = file_extents(alloc, form, inode)?;
    let hand = FileHand::unread(alloc, file, inode, extents, form.size)?;
    Ok(hand)
}

// The file of an inode comes to the others, where the inode has a number.
fn add_file(
    alloc: Global,
    forms: &[Option<Inode>],
    numbers: &[Option<u32>],
    inode: u32,
    files: &mut FileHands,
) -> Result<(), StartFault>
    requires from_one { 1 ≤ inode }
    requires form { inode ≤ length forms.now }
    requires number { inode < length numbers.now }
    requires sound { (file : ℕ) → slice_index_or numbers.now inode None ≡ Some file → (f : InodeForm) × (form_in forms.now inode ≡ Some f) × IsSoundFile f }
    requires absent { (file : ℕ) → slice_index_or numbers.now inode None ≡ Some file → map.get files.old file ≡ None }
    ensures kept { OnOk result ((file : ℕ) → IsSome (map.get files.old file) → IsSome (map.get files.new file)) }
    ensures alone { OnOk result ((file : ℕ) → IsSome (map.get files.new file) → IsSome (map.get files.old file) ⊎ (slice_index_or numbers.now inode None ≡ Some file)) }
    ensures here { OnOk result ((file : ℕ) → slice_index_or numbers.now inode None ≡ Some file → IsSome (map.get files.new file)) }
    ensures read { (g : Geometry) (image : Image) (n : NamesPart) → AreFormsOf g image forms.now → HasNumbers n.tree numbers.now → AreSized g image
        → AreRead image (catalog_at g image) n files.old → OnOk result (AreRead image (catalog_at g image) n files.new) }
    ensures unread { (g : Geometry) (image : Image) → AreFormsOf g image forms.now → AreUnread (catalog_at g image) files.old → OnOk result (AreUnread (catalog_at g image) files.new) }
    ensures laid { (g : Geometry) (image : Image) → AreFormsOf g image forms.now → AreLaid (catalog_at g image) files.old → OnOk result (AreLaid (catalog_at g image) files.new) }
    ensures cause { IfErr result (λ f. (before : ℕ) → HasStartCause before before f) }
    ensures refused { (g : Geometry) (image : Image) → AreFormsOf g image forms.now → IfErr result (IsRefusedFile (form_at g image)) }
    ensures named { IfErr result (NamesFile (λ i. i ≡ inode)) }
{
    let Some(file) = numbers[inode as usize] else {
        return Ok(());
    };
    let Some(form) = &forms[inode as usize - 1] else {
        unreachable!()
    };
    let hand = file_in(alloc, form, inode, file)?;
    files.insert(hand)?;
    Ok(())
}

/// The files of an image, by the numbers that their inodes have: where their blocks lie, and how long they are. Nothing of
/// them is read. Refuses a file with more blocks than its size wants.
pub fn files_of(
    alloc: Global,
    findings: &Findings,
    numbers: &[Option<u32>],
) -> Result<FileHands, StartFault>
    requires counted { length numbers.now ≡ length findings.now.forms + 1 }
    requires few { length findings.now.forms < 4294967295 }
    requires sound { AreSoundFiles findings.now.forms numbers.now }
    ensures read { (g : Geometry) (image : Image) (n : NamesPart) → AreFindingsOf g image findings.now → HasNumbers n.tree numbers.now → AreSized g image → IfOk result (AreRead image (catalog_at g image) n) }
    ensures here { (inode file : ℕ) → 1 ≤ inode → slice_index_or numbers.now inode None ≡ Some file → IfOk result (λ files. IsSome (map.get files file)) }
    ensures unread { (g : Geometry) (image : Image) → AreFindingsOf g image findings.now → IfOk result (AreUnread (catalog_at g image)) }
    ensures laid { (g : Geometry) (image : Image) → AreFindingsOf g image findings.now → IfOk result (AreLaid (catalog_at g image)) }
    ensures cause { IfErr result (λ f. (before : ℕ) → HasStartCause before before f) }
    ensures refused { (g : Geometry) (image : Image) → AreFindingsOf g image findings.now → IfErr result (IsRefusedFile (form_at g image)) }
    ensures named { (g : Geometry) (image : Image) → AreFindingsOf g image findings.now → IfErr result (NamesFile (IsInode g)) }
{
    let forms = findings.forms();
    let mut files = FileHands::new(alloc);
    for place in 0..forms.len() {
        let inode = place as u32 + 1;
        add_file(alloc, forms, numbers, inode, &mut files)?;
    }
    Ok(files)
}
