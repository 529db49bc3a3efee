// Blocks that are held twice.
ghost use Rattle.std.specs.Prelude.{ℕ, List, ◌≡◌, ◌≤◌, ◌+◌, ◌-◌, ◌++◌, [], false, length, flat_map, IfOk, OnOk};
ghost use Rattle.std.specs.List.{filter_map, list_any, range_with_len};
ghost use Rattle.std.specs.Option.{option_map, option_to_list};
ghost use Rattle.ufs_layout.specs.Areas.{IsGeometry, data_blocks, first_of_data};
ghost use Rattle.ufs_layout.specs.declared.inode.Extent.{Extent};
ghost use Rattle.ufs_image.specs.Nodes.{Node, leaves_data};
ghost use Rattle.ufs_image.specs.Damage.{holders, shared_block};
ghost use Rattle.ufs_damage.specs.Meaning.{meaning};
ghost use Rattle.ufs_damage.specs.Kinds.{node_of, nodes_in};
ghost use Rattle.ufs_damage.specs.Marks.{AreMarks, all_more, shared_damage};

use crate::marks::{Held, mark_run, no_marks};
use crate::sound::is_sound;
use crate::{Damage, DamageList};
use std::alloc::Global;
use ufs_base::{MAX_BLOCKS, Memory};
use ufs_layout::{Extent, Geometry, Inode};

fn mark_extents(marks: &mut [Held], geometry: &Geometry, inode: u32, extents: &[Extent])
    requires sized { length marks.old ≡ geometry.now.blocks }
    requires inside { list_any (leaves_data geometry.now) extents.now ≡ false }
    ensures { (holders : ℕ → List ℕ) → AreMarks marks.old holders → AreMarks marks.new (all_more holders inode (flat_map (λ (e : Extent). range_with_len e.start e.length) extents.now)) }
{
    // For the prover alone.
    let _blocks = geometry.blocks;
    for extent in extents {
        mark_run(marks, extent.start, extent.length, inode);
    }
}

fn mark_inode(marks: &mut [Held], geometry: &Geometry, inode: u32, form: &Option<Inode>)
    requires geometry { IsGeometry geometry.now }
    requires sized { length marks.old ≡ geometry.now.blocks }
    ensures { (held : ℕ → List ℕ) → AreMarks marks.old held → AreMarks marks.new (λ k. held k ++ holders (option_to_list (node_of geometry.now (inode, form.now))) k) }
{
    if let Some(found) = form {
        if is_sound(geometry, inode, form) {
            mark_extents(marks, geometry, inode, found.used_extents());
        }
    }
}

fn mark_inodes(marks: &mut [Held], geometry: &Geometry, forms: &[Option<Inode>])
    requires geometry { IsGeometry geometry.now }
    requires sized { length marks.old ≡ geometry.now.blocks }
    requires counted { length forms.now ≡ geometry.now.inodes }
    ensures { AreMarks marks.old (λ k. []) → AreMarks marks.new (holders (nodes_in geometry.now forms.now)) }
{
    for (k, form) in forms.iter().enumerate() {
        mark_inode(marks, geometry, k as u32 + 1, form);
    }
}

// The first two holders of each block among the sound inodes.
pub(crate) fn held_blocks(
    alloc: Global,
    geometry: &Geometry,
    forms: &[Option<Inode>],
) -> Result<Vec<Held>, Memory>
    requires geometry { IsGeometry geometry.now }
    requires counted { length forms.now ≡ geometry.now.inodes }
    ensures sized { IfOk result (λ marks. length marks.items ≡ geometry.now.blocks) }
    ensures held { IfOk result (λ marks. AreMarks marks.items (holders (nodes_in geometry.now forms.now))) }
{
    let mut marks = no_marks(alloc, geometry.blocks as usize)?;
    mark_inodes(marks.as_mut_slice(), geometry, forms);
    Ok(marks)
}

fn shared_damage(block: u32, held: Held) -> Option<Damage>
    ensures { option_map meaning result ≡ shared_damage block held }
{
    match (held.first, held.second) {
        (Some(first), Some(second)) => Some(Damage::SharedBlock {
            block,
            first,
            second,
        }),
        _ => None,
    }
}

fn push_run(list: &mut DamageList, marks: &[Held], first: u32, count: u32) -> Result<(), Memory>
    requires within { first + count ≤ length marks.now }
    requires few { length marks.now ≤ MAX_BLOCKS }
    ensures { OnOk result ((nodes : List Node) → AreMarks marks.now (holders nodes) → list.new ≡ list.old ++ filter_map (shared_block nodes) (range_with_len first count)) }
{
    for k in 0..count {
        let block = first + k;
        list.push_some(shared_damage(block, marks[block as usize]))?;
    }
    Ok(())
}

// Puts the blocks of the data area that are held twice behind the others, by rising block.
pub(crate) fn push_shared(
    list: &mut DamageList,
    alloc: Global,
    geometry: &Geometry,
    forms: &[Option<Inode>],
) -> Result<(), Memory>
    requires geometry { IsGeometry geometry.now }
    requires counted { length forms.now ≡ geometry.now.inodes }
    ensures { OnOk result (list.new ≡ list.old ++ filter_map (shared_block (nodes_in geometry.now forms.now)) (data_blocks geometry.now)) }
{
    let marks = held_blocks(alloc, geometry, forms)?;
    let first = geometry.first_of_data();
    push_run(list, marks.as_slice(), first, geometry.blocks - first)
}
