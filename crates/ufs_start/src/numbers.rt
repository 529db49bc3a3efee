// The numbers of files, by rising path.
ghost use Rattle.std.specs.Prelude.{ℕ, ◌≡◌, ◌≤◌, ◌<◌, ◌+◌, ◌^◌, None, Some, length, replicate, IfOk, IfErr};
ghost use Rattle.ufs_layout.specs.Areas.{IsGeometry};
ghost use Rattle.ufs_walk.specs.Walked.{AreInodes, pairs_of};
ghost use Rattle.ufs_base.specs.Images.{Image};
ghost use Rattle.ufs_promise_laws.specs.Starts.{image_start};
ghost use Rattle.ufs_metadata.specs.Lacks.{IsOfNumbers};
ghost use Rattle.ufs_start.specs.Starts.{AreNumbersOf, IsUndamaged, tree_in};
ghost use Rattle.ufs_start.specs.Numbers.{after, is_dir_in, next_number, noted, numbers_from};

use std::alloc::Global;
use ufs_base::Lack;
use ufs_damage::Findings;
use ufs_image::damage_law;
use ufs_layout::{Geometry, Inode};
use ufs_walk::{PathAt, places_of};

const DIRECTORY: u8 = 2;

// No sound image has more places than inodes, which are at most 65,535.
const MOST: usize = 1 << 30;

/// The number of the file that each inode is, from inode 0, and the next number.
#[derive(Drop)]
pub struct Numbers {
    pub files: Vec<Option<u32>>,
    pub next: u32,
}

// Whether the inode is a directory, by the forms of inode 1, 2, ..
fn is_dir(forms: &[Option<Inode>], inode: u32) -> bool
    requires from_one { 1 ≤ inode }
    requires within { inode ≤ length forms.now }
    ensures { result ≡ is_dir_in forms.now inode }
{
    match &forms[inode as usize - 1] {
        Some(form) => form.kind == DIRECTORY,
        None => false,
    }
}

// A file gets this number; the answer is the next one.
fn give_number(files: &mut Vec<Option<u32>>, is_dir: bool, inode: u32, next: u32) -> u32
    requires inside { inode < length files.old.items }
    requires few { next + 1 < 2 ^ 32 }
    ensures files { files.new.items ≡ noted is_dir next inode files.old.items }
    ensures next { result ≡ after is_dir next }
{
    if is_dir {
        return next;
    }
    files[inode as usize] = Some(next);
    next + 1
}

// Gives the files at these places numbers from 0 on, unless there are more places than numbers.
fn number_places(
    alloc: Global,
    geometry: &Geometry,
    forms: &[Option<Inode>],
    places: &[PathAt],
) -> Result<Numbers, Lack>
    requires geometry { IsGeometry geometry.now }
    requires counted { length forms.now ≡ geometry.now.inodes }
    requires inside { AreInodes geometry.now (pairs_of places.now) }
    ensures files { IfOk result (λ n. n.files.items ≡ numbers_from (is_dir_in forms.now) 0 (pairs_of places.now) (replicate (geometry.now.inodes + 1) None)) }
    ensures next { IfOk result (λ n. n.next ≡ next_number (is_dir_in forms.now) 0 (pairs_of places.now)) }
    ensures few { IfOk result (λ n. n.next ≤ 2 ^ 30) }
    ensures lack { IfErr result IsOfNumbers }
{
    if places.len() > MOST {
        return Err(Lack::AtEnd);
    }
    let mut files = vec![in alloc; None; geometry.inodes as usize + 1]?;
    let mut next = 0;
    for k in 0..places.len() {
        let inode = places[k].inode;
        next = give_number(&mut files, is_dir(forms, inode), inode, next);
    }
    Ok(Numbers { files, next })
}

/// Gives the files of an undamaged image numbers from 0 on, by rising path. Takes time that is linear in the names,
/// with a logarithm. Fails for want of memory, or where there are more names than numbers.
pub fn numbers_of(alloc: Global, geometry: &Geometry, findings: &Findings) -> Result<Numbers, Lack>
    requires geometry { IsGeometry geometry.now }
    requires sound { (image : Image) × IsUndamaged geometry.now image findings.now }
    ensures counted { IfOk result (λ n. length n.files.items ≡ geometry.now.inodes + 1) }
    ensures numbers { IfOk result (λ n. (image : Image) → IsUndamaged geometry.now image findings.now → AreNumbersOf geometry.now image n.files.items) }
    ensures next { IfOk result (λ n. (image : Image) → IsUndamaged geometry.now image findings.now → n.next ≡ (image_start (tree_in geometry.now image)).next) }
    ensures few { IfOk result (λ n. n.next ≤ 2 ^ 30) }
    ensures lack { IfErr result IsOfNumbers }
{
    damage_law(geometry);
    let places = places_of(alloc, findings, geometry)?;
    number_places(alloc, geometry, findings.forms(), &places)
}
