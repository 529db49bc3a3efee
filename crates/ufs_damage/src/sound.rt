// Which inodes can be read.
ghost use Rattle.std.specs.Prelude.{◌≡◌, ◌&&◌, not, map, IsTrue, Some};
ghost use Rattle.std.specs.List.{list_any};
ghost use Rattle.ufs_base.specs.Choices.{some_if};
ghost use Rattle.ufs_base.specs.Images.{Image};
ghost use Rattle.ufs_layout.specs.Areas.{IsGeometry};
ghost use Rattle.ufs_image.specs.Images.{inode_at, form_at};
ghost use Rattle.ufs_image.specs.Nodes.{is_bad_form, leaves_data, sound_node};
ghost use Rattle.ufs_layout.specs.InodeForm.{is_used};
ghost use Rattle.ufs_damage.specs.Told.{form_of, has_bad_extent, is_sound_form};

use ufs_layout::{Extent, Geometry, Inode};

const DIRECTORY: u8 = 2;

// Off its form, or the root and no directory.
pub(crate) fn is_bad_inode(inode: u32, form: &Option<Inode>) -> bool
    ensures { result ≡ is_bad_form inode form.now }
{
    match form {
        Some(form) => inode == 1 && form.kind != DIRECTORY,
        None => true,
    }
}

fn leaves_data(geometry: &Geometry, extent: &Extent) -> bool
    requires { IsGeometry geometry.now }
    ensures { result ≡ leaves_data geometry.now extent.now }
{
    let end = u64::from(extent.start) + u64::from(extent.length);
    !(geometry.first_of_data() <= extent.start && end <= u64::from(geometry.blocks))
}

/// Whether one of these extents leaves the data area.
pub fn any_leaves(geometry: &Geometry, extents: &[Extent]) -> bool
    requires { IsGeometry geometry.now }
    ensures { result ≡ list_any (leaves_data geometry.now) extents.now }
{
    extents.iter().any(|extent| leaves_data(geometry, extent))
}

// An extent leaves the data area, and the inode isn't bad.
pub(crate) fn has_bad_extent(geometry: &Geometry, inode: u32, form: &Option<Inode>) -> bool
    requires { IsGeometry geometry.now }
    ensures { result ≡ has_bad_extent geometry.now inode form.now }
{
    match form {
        Some(found) => !is_bad_inode(inode, form) && any_leaves(geometry, found.used_extents()),
        None => false,
    }
}

/// Whether an inode with this form is used, on its form, and has no extent that leaves the data area: its
/// blocks and, where it is a directory, its names can be read.
pub fn is_sound(geometry: &Geometry, inode: u32, form: &Option<Inode>) -> bool
    requires { IsGeometry geometry.now }
    ensures value { result ≡ is_sound_form geometry.now inode form.now }
    ensures node { (image : Image) → inode_at geometry.now image inode ≡ form.now → sound_node geometry.now image inode ≡ some_if result (inode, form_at geometry.now image inode) }
{
    !is_bad_inode(inode, form) && !has_bad_extent(geometry, inode, form) && is_used(form)
}

fn is_used(form: &Option<Inode>) -> bool
    ensures { result ≡ is_used (form_of form.now) }
{
    match form {
        Some(form) => form.kind != 0,
        None => false,
    }
}
