ghost use Rattle.std.specs.Prelude.{◌≡◌, length, IfOk};
ghost use Rattle.ufs_base.specs.Images.{Image};
ghost use Rattle.ufs_layout.specs.Areas.{IsGeometry};
ghost use Rattle.ufs_image.specs.Damage.{tree_damage};
ghost use Rattle.ufs_damage.specs.Findings.{AreFindingsOf};

use crate::forms::{FormKind, push_forms};
use crate::names::{push_twice, push_two_names};
use crate::shared::push_shared;
use crate::slots::{SlotKind, push_slots};
use crate::{DamageList, Findings};
use std::alloc::Global;
use ufs_base::Memory;
use ufs_layout::Geometry;

/// All damage but that of the bitmap, kind by kind and by rising numbers, for the image whose findings these
/// are. Takes time by the inodes, names and blocks, with a logarithm for the names of one directory.
pub fn damage_of(
    alloc: Global,
    geometry: &Geometry,
    findings: &Findings,
) -> Result<DamageList, Memory>
    requires geometry { IsGeometry geometry.now }
    requires counted { length findings.now.forms ≡ geometry.now.inodes }
    ensures { IfOk result (λ list. (image : Image) → AreFindingsOf geometry.now image findings.now → list ≡ tree_damage geometry.now image) }
{
    let forms = findings.forms();
    let dirs = findings.dirs();
    let mut list = DamageList::new(alloc);
    push_forms(&mut list, FormKind::Sector, geometry, forms)?;
    push_forms(&mut list, FormKind::Extents, geometry, forms)?;
    push_shared(&mut list, alloc, geometry, forms)?;
    push_forms(&mut list, FormKind::Size, geometry, forms)?;
    push_slots(&mut list, SlotKind::Spelling, findings)?;
    push_slots(&mut list, SlotKind::Target, findings)?;
    push_twice(&mut list, alloc, dirs)?;
    push_two_names(&mut list, alloc, geometry, dirs)?;
    Ok(list)
}
