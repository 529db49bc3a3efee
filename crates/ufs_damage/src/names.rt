// Names that stand twice, and inodes with two names.
ghost use Rattle.std.specs.Prelude.{ℕ, List, ◌≡◌, ◌<◌, ◌≤◌, ◌^◌, ◌++◌, ◌||◌, ◌∷◌, [], not, length, map, filter, flat_map, IfOk, OnOk};
ghost use Rattle.std.specs.List.{filter_map, range_with_len, enumerate_from};
ghost use Rattle.std.specs.Option.{option_map};
ghost use Rattle.std.specs.Str.{bytes_eq};
ghost use Rattle.ufs_layout.specs.Areas.{IsGeometry, all_inodes};
ghost use Rattle.ufs_image.specs.Nodes.{Dir, NamedSlot, names_of};
ghost use Rattle.ufs_image.specs.Damage.{NameTwice, TwoNames, is_name_twice, has_two_names};
ghost use Rattle.ufs_damage.specs.Meaning.{meaning};
ghost use Rattle.ufs_damage.specs.Kinds.{earlier_damage, has_this_name, twice_damage};
ghost use Rattle.ufs_damage.specs.Known.{is_among};
ghost use Rattle.ufs_damage.specs.Marks.{AreMarks, naming, names_damage, slots_naming};

use crate::marks::{Held, mark, no_marks};
use crate::{Damage, DamageList, ReadDir};
use std::alloc::Global;
use std::collections::BTreeSet;
use ufs_base::Memory;
use ufs_layout::{Dentry, Geometry};

// Whether the name is a new one; it is noted.
fn note_name<'a>(known: &mut BTreeSet<&'a [u8]>, name: &'a [u8]) -> Result<bool, Memory>
    ensures fresh { IfOk result (λ fresh. fresh ≡ not (is_among known.old.keys name.now)) }
    ensures noted { OnOk result ((other : List ℕ) → is_among known.new.keys other ≡ (bytes_eq name.now other || is_among known.old.keys other)) }
{
    let fresh = known.insert(name)?;
    Ok(fresh)
}

// Whether the slot has a name that is known; its name is noted.
fn twice_damage<'a>(
    known: &mut BTreeSet<&'a [u8]>,
    dir: u32,
    slot: u32,
    dentry: &'a Option<Dentry>,
) -> Result<Option<Damage>, Memory>
    ensures told { IfOk result (λ damage. option_map meaning damage ≡ twice_damage (is_among known.old.keys) dir slot dentry.now) }
    ensures noted { OnOk result ((other : List ℕ) → is_among known.new.keys other ≡ (has_this_name other dentry.now || is_among known.old.keys other)) }
{
    let Some(found) = dentry else {
        return Ok(None);
    };
    let name = found.name_bytes();
    if name.is_empty() {
        return Ok(None);
    }
    if note_name(known, name)? {
        return Ok(None);
    }
    Ok(Some(Damage::NameTwice { dir, slot }))
}

fn push_twice_of(
    list: &mut DamageList,
    alloc: Global,
    dir: u32,
    slots: &[Option<Dentry>],
) -> Result<(), Memory>
    requires { length slots.now < 2 ^ 32 }
    ensures { OnOk result (list.new ≡ list.old ++ filter_map (earlier_damage slots.now dir) (enumerate_from 0 slots.now)) }
{
    let mut known = BTreeSet::new(alloc);
    for (place, slot) in slots.iter().enumerate() {
        let damage = twice_damage(&mut known, dir, place as u32, slot)?;
        list.push_some(damage)?;
    }
    Ok(())
}

fn push_dir_twice(list: &mut DamageList, alloc: Global, dir: &ReadDir) -> Result<(), Memory>
    ensures { OnOk result (list.new ≡ list.old ++ map (λ (n : NamedSlot). NameTwice dir.now.inode n.0) (filter (is_name_twice dir.now) (names_of dir.now))) }
{
    let slots = dir.counted_slots();
    push_twice_of(list, alloc, dir.inode(), slots)?;
    Ok(())
}

// Puts the names that an earlier slot has behind the others, by rising directory and slot.
pub(crate) fn push_twice(
    list: &mut DamageList,
    alloc: Global,
    dirs: &[ReadDir],
) -> Result<(), Memory>
    ensures { OnOk result (list.new ≡ list.old ++ flat_map (λ (d : Dir). map (λ (n : NamedSlot). NameTwice d.inode n.0) (filter (is_name_twice d) (names_of d))) dirs.now) }
{
    for dir in dirs {
        push_dir_twice(list, alloc, dir)?;
    }
    Ok(())
}

// The directory names the slot's inode, where the slot has a name.
fn mark_name(marks: &mut [Held], dir: u32, slot: &Option<Dentry>)
    ensures { (held : ℕ → List ℕ) → AreMarks marks.old held → AreMarks marks.new (λ k. held k ++ slots_naming dir (slot.now ∷ []) k) }
{
    if let Some(found) = slot {
        let inode = found.inode as usize;
        if !found.name_bytes().is_empty() && inode < marks.len() {
            mark(marks, inode, dir);
        }
    }
}

fn mark_names_of(marks: &mut [Held], dir: u32, slots: &[Option<Dentry>])
    ensures { (held : ℕ → List ℕ) → AreMarks marks.old held → AreMarks marks.new (λ k. held k ++ slots_naming dir slots.now k) }
{
    for slot in slots {
        mark_name(marks, dir, slot);
    }
}

fn mark_dir(marks: &mut [Held], dir: &ReadDir)
    ensures { (held : ℕ → List ℕ) → AreMarks marks.old held → AreMarks marks.new (λ k. held k ++ naming (dir.now ∷ []) k) }
{
    mark_names_of(marks, dir.inode(), dir.slots());
}

fn mark_dirs(marks: &mut [Held], dirs: &[ReadDir])
    ensures { AreMarks marks.old (λ k. []) → AreMarks marks.new (naming dirs.now) }
{
    for dir in dirs {
        mark_dir(marks, dir);
    }
}

fn names_damage(inode: u32, held: Held) -> Option<Damage>
    ensures { option_map meaning result ≡ names_damage inode held }
{
    let two = if inode == 1 {
        held.first.is_some()
    } else {
        held.second.is_some()
    };
    two.then_some(Damage::TwoNames { inode })
}

fn push_two_of(list: &mut DamageList, marks: &[Held], count: u32) -> Result<(), Memory>
    requires { count < length marks.now }
    ensures { OnOk result ((dirs : List Dir) → AreMarks marks.now (naming dirs) → list.new ≡ list.old ++ map TwoNames (filter (has_two_names dirs) (range_with_len 1 count))) }
{
    for k in 0..count {
        let inode = k + 1;
        list.push_some(names_damage(inode, marks[inode as usize]))?;
    }
    Ok(())
}

// Puts the inodes with two names, and the root with one, behind the others, by rising inode.
pub(crate) fn push_two_names(
    list: &mut DamageList,
    alloc: Global,
    geometry: &Geometry,
    dirs: &[ReadDir],
) -> Result<(), Memory>
    requires { IsGeometry geometry.now }
    ensures { OnOk result (list.new ≡ list.old ++ map TwoNames (filter (has_two_names dirs.now) (all_inodes geometry.now))) }
{
    let mut marks = no_marks(alloc, geometry.inodes as usize + 1)?;
    mark_dirs(marks.as_mut_slice(), dirs);
    push_two_of(list, marks.as_slice(), geometry.inodes)
}
