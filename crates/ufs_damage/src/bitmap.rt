// The bits of the bitmap beside the blocks that are used.
ghost use Rattle.std.specs.Prelude.{List, Bool, ◌≡◌, ◌<◌, ◌+◌, ◌*◌, ◌^◌, ◌++◌, false, length, map, slice_index_or, OnOk};
ghost use Rattle.std.specs.List.{filter_map, range_with_len};
ghost use Rattle.std.specs.Option.{option_map};
ghost use Rattle.ufs_base.specs.Images.{Image};
ghost use Rattle.ufs_layout.specs.Areas.{first_of_bitmap};
ghost use Rattle.ufs_layout.specs.declared.geometry.Geometry.{Geometry};
ghost use Rattle.ufs_image.specs.Nodes.{Node};
ghost use Rattle.ufs_image.specs.Damage.{BitmapDiffers, differing};
ghost use Rattle.ufs_damage.specs.Meaning.{meaning};
ghost use Rattle.ufs_damage.specs.Taken.{AreTaken, bit_damage, bit_of};

use crate::{Damage, DamageList, TakenBlocks};
use ufs_base::{Memory, SECTOR, SECTORS_PER_BLOCK};

// The bits of a sector of the bitmap.
const SECTOR_BITS: u32 = 4_096;

fn bit_of(bytes: &[u8], place: u32) -> bool
    requires { place < 8 * length bytes.now }
    ensures { result ≡ bit_of bytes.now place }
{
    (bytes[place as usize / 8] >> (place % 8)) % 2 == 1
}

fn bit_damage(bit: bool, taken: bool, block: u32) -> Option<Damage>
    ensures { option_map meaning result ≡ bit_damage bit taken block }
{
    (bit != taken).then_some(Damage::BitmapDiffers { block })
}

fn push_bits(
    list: &mut DamageList,
    taken: &TakenBlocks,
    sector: u32,
    bytes: &[u8],
) -> Result<(), Memory>
    requires few { sector < 2 ^ 16 }
    requires sized { length bytes.now ≡ SECTOR }
    ensures { OnOk result (list.new ≡ list.old ++ filter_map (λ k. bit_damage (bit_of bytes.now k) (slice_index_or taken.now (SECTOR_BITS * sector + k) false) (SECTOR_BITS * sector + k)) (range_with_len 0 (8 * length bytes.now))) }
{
    let first = SECTOR_BITS * sector;
    for k in 0..8 * bytes.len() as u32 {
        let block = first + k;
        list.push_some(bit_damage(bit_of(bytes, k), taken.is_taken(block), block))?;
    }
    Ok(())
}

impl DamageList {
    /// Puts the bits of a sector of the bitmap that aren't as the used blocks have it behind the others, by
    /// rising block. Sectors count from the bitmap's first. After want of memory the list has some of them.
    pub fn compare_bitmap(
        &mut self,
        taken: &TakenBlocks,
        sector: u32,
        bytes: &[u8],
    ) -> Result<(), Memory>
        requires few { sector < 2 ^ 16 }
        requires sized { length bytes.now ≡ SECTOR }
        ensures { OnOk result ((g : Geometry) (image : Image) (nodes : List Node) → AreTaken g nodes taken.now → image (SECTORS_PER_BLOCK * first_of_bitmap + sector) ≡ bytes.now → self.new ≡ self.old ++ map BitmapDiffers (differing g image nodes (range_with_len (8 * SECTOR * sector) (8 * length bytes.now)))) }
    {
        push_bits(self, taken, sector, bytes)?;
        Ok(())
    }
}
