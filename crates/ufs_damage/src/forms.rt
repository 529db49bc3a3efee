// The kinds of damage that are told from an inode's form alone.
ghost use Rattle.std.specs.Prelude.{◌≡◌, ◌≤◌, ◌<◌, ◌*◌, ◌^◌, ◌++◌, length, flat_map, OnOk};
ghost use Rattle.std.specs.List.{filter_map, range_with_len};
ghost use Rattle.std.specs.Option.{option_map};
ghost use Rattle.ufs_layout.specs.Areas.{IsGeometry};
ghost use Rattle.ufs_layout.specs.declared.inode.Extent.{Extent};
ghost use Rattle.ufs_image.specs.Damage.{is_short};
ghost use Rattle.std.specs.Prelude.{◌&&◌};
ghost use Rattle.ufs_damage.specs.Meaning.{meaning};
ghost use Rattle.ufs_damage.specs.Told.{form_of, is_sound_form};
ghost use Rattle.ufs_damage.specs.Kinds.{form_damage, numbered};

use crate::sound::{has_bad_extent, is_bad_inode, is_sound};
use crate::{Damage, DamageList};
use ufs_base::{BLOCK, MAX_EXTENTS, Memory};
use ufs_layout::{Extent, Geometry, Inode};

const DIRECTORY: u8 = 2;

/// What is looked at of an inode.
#[derive(Clone, Copy, Debug, PartialEq, Eq)]
pub(crate) enum FormKind {
    Sector,
    Extents,
    Size,
}

fn count_blocks(extents: &[Extent]) -> u64
    requires { length extents.now ≤ MAX_EXTENTS }
    ensures blocks { result ≡ length (flat_map (λ (e : Extent). range_with_len e.start e.length) extents.now) }
    ensures few { result ≤ MAX_EXTENTS * 2 ^ 32 }
{
    let mut blocks = 0;
    for extent in extents {
        blocks += u64::from(extent.length);
    }
    blocks
}

// A file's size is above its blocks, or a directory's isn't theirs.
fn is_short(form: &Inode) -> bool
    ensures { result ≡ is_short form.now }
{
    let room = BLOCK as u64 * count_blocks(&form.extents[..usize::from(form.count)]);
    if form.kind == DIRECTORY {
        form.size != room
    } else {
        room < form.size
    }
}

fn is_sound_and_short(geometry: &Geometry, inode: u32, form: &Option<Inode>) -> bool
    requires { IsGeometry geometry.now }
    ensures { result ≡ (is_sound_form geometry.now inode form.now && is_short (form_of form.now)) }
{
    match form {
        Some(found) => is_sound(geometry, inode, form) && is_short(found),
        None => false,
    }
}

fn form_damage(
    kind: FormKind,
    geometry: &Geometry,
    inode: u32,
    form: &Option<Inode>,
) -> Option<Damage>
    requires { IsGeometry geometry.now }
    ensures { option_map meaning result ≡ form_damage kind geometry.now (inode, form.now) }
{
    match kind {
        FormKind::Sector => is_bad_inode(inode, form).then_some(Damage::BadInode { inode }),
        FormKind::Extents => {
            has_bad_extent(geometry, inode, form).then_some(Damage::BadExtent { inode })
        }
        FormKind::Size => {
            is_sound_and_short(geometry, inode, form).then_some(Damage::ShortExtents { inode })
        }
    }
}

// Puts the damage of this kind behind the others, by rising inode.
pub(crate) fn push_forms(
    list: &mut DamageList,
    kind: FormKind,
    geometry: &Geometry,
    forms: &[Option<Inode>],
) -> Result<(), Memory>
    requires geometry { IsGeometry geometry.now }
    requires sized { length forms.now ≡ geometry.now.inodes }
    ensures { OnOk result (list.new ≡ list.old ++ filter_map (form_damage kind geometry.now) (numbered forms.now)) }
{
    for (k, form) in forms.iter().enumerate() {
        list.push_some(form_damage(kind, geometry, k as u32 + 1, form))?;
    }
    Ok(())
}
