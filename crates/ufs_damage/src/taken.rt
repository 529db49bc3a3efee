ghost use Rattle.std.specs.Prelude.{◌≡◌, ◌<◌, ◌^◌, false, length, slice_index_or, IfOk};
ghost use Rattle.ufs_base.specs.Images.{Image};
ghost use Rattle.ufs_layout.specs.Areas.{IsGeometry};
ghost use Rattle.ufs_image.specs.Nodes.{sound_nodes};
ghost use Rattle.ufs_damage.specs.Findings.{AreFindingsOf};
ghost use Rattle.ufs_damage.specs.Taken.{AreTaken, is_used_block, taken_marks};

use crate::Findings;
use crate::marks::Held;
use crate::shared::held_blocks;
use std::alloc::Global;
use std::marker::Model;
use ufs_base::Memory;
use ufs_layout::Geometry;

/// Which blocks are used: those before the data area, and those that a sound inode holds. Contracts see a
/// mark for each block of the image.
#[derive(Drop)]
pub struct TakenBlocks {
    marks: Vec<bool>,
}

impl Model for TakenBlocks {
    ghost use Rattle.std.specs.Prelude.{Bool, List};

    ghost Value = { List Bool };

    ghost view = { λ t. t.marks.items };
}

impl TakenBlocks {
    /// Whether the block is used; none past the last block is.
    pub fn is_taken(&self, block: u32) -> bool
        ensures { result ≡ slice_index_or self.now block false }
    {
        let at = block as usize;
        at < self.marks.len() && self.marks[at]
    }
}

fn is_taken(first: u32, block: u32, held: &Held) -> bool
    ensures { result ≡ is_used_block first (block, held.now) }
{
    block < first || held.first.is_some()
}

fn mark_taken(alloc: Global, first: u32, held: &[Held]) -> Result<Vec<bool>, Memory>
    requires { length held.now < 2 ^ 32 }
    ensures { IfOk result (λ marks. marks.items ≡ taken_marks first held.now) }
{
    let mut marks = Vec::with_capacity(alloc, held.len())?;
    for (block, one) in held.iter().enumerate() {
        marks.push(is_taken(first, block as u32, one))?;
    }
    Ok(marks)
}

/// The used blocks of the image whose findings these are.
pub fn taken_blocks(
    alloc: Global,
    geometry: &Geometry,
    findings: &Findings,
) -> Result<TakenBlocks, Memory>
    requires geometry { IsGeometry geometry.now }
    requires counted { length findings.now.forms ≡ geometry.now.inodes }
    ensures sized { IfOk result (λ taken. length taken ≡ geometry.now.blocks) }
    ensures taken { IfOk result (λ taken. (image : Image) → AreFindingsOf geometry.now image findings.now → AreTaken geometry.now (sound_nodes geometry.now image) taken) }
{
    let held = held_blocks(alloc, geometry, findings.forms())?;
    let marks = mark_taken(alloc, geometry.first_of_data(), held.as_slice())?;
    Ok(TakenBlocks { marks })
}
