// Which inodes walks from the root meet.
ghost use Rattle.std.specs.Prelude.{ℕ, Bool, ◌≡◌, ◌+◌, ◌⊎◌, Some, None, true, false, length, replicate, IfOk};
ghost use Rattle.std.specs.List.{slice_get};
ghost use Rattle.ufs_base.specs.Images.{Image};
ghost use Rattle.ufs_damage.specs.Findings.{AreFindingsOf};
ghost use Rattle.ufs_image.specs.Catalog.{catalog_at};
ghost use Rattle.ufs_image.specs.Damage.{bad_tree};
ghost use Rattle.ufs_layout.specs.Areas.{IsGeometry};
ghost use Rattle.ufs_walk.specs.Reached.{AreReachedMarks};

use crate::walk::places_of;
use std::alloc::Global;
use ufs_base::Memory;
use ufs_damage::Findings;
use ufs_image::damage_law;
use ufs_layout::Geometry;

// Marks an inode, that of inode 1 first.
fn mark(marks: &mut Vec<bool>, inode: u32)
    ensures others { (place : ℕ) (b : Bool) → slice_get marks.new.items place ≡ Some b → (slice_get marks.old.items place ≡ Some b) ⊎ ((place + 1 ≡ inode) × (b ≡ true)) }
    ensures here { (place : ℕ) → place + 1 ≡ inode → slice_get marks.new.items place ≡ Some false → slice_get marks.old.items place ≡ None }
    ensures sized { length marks.new.items ≡ length marks.old.items }
{
    let at = inode as usize;
    if 1 <= at && at <= marks.len() {
        marks[at - 1] = true;
    }
}

fn no_marks(alloc: Global, count: usize) -> Result<Vec<bool>, Memory>
    ensures { IfOk result (λ m. m.items ≡ replicate count false) }
{
    let mut marks = Vec::new(alloc);
    marks.resize(count, false)?;
    Ok(marks)
}

/// For each inode of an undamaged image, that of inode 1 first, whether a walk from the root meets it. Takes time that is
/// linear in the names, with a logarithm.
pub fn reached_inodes(
    alloc: Global,
    findings: &Findings,
    geometry: &Geometry,
) -> Result<Vec<bool>, Memory>
    requires { IsGeometry geometry.now }
    ensures sized { IfOk result (λ m. length m.items ≡ geometry.now.inodes) }
    ensures marks { (image : Image) → AreFindingsOf geometry.now image findings.now → bad_tree geometry.now image ≡ None → IfOk result (λ m. AreReachedMarks geometry.now (catalog_at geometry.now image) m.items) }
{
    damage_law(geometry);
    let places = places_of(alloc, findings, geometry)?;
    let mut marks = no_marks(alloc, geometry.inodes as usize)?;
    for at in 0..places.len() {
        mark(&mut marks, places[at].inode);
    }
    Ok(marks)
}
