// Names that wait for their turn in a walk.
ghost use Rattle.std.specs.Prelude.{◌≡◌, ◌++◌, ◌∷◌, ℕ, List, flat_map, IfOk, OnOk};
ghost use Rattle.std.specs.BTreeMap.{BTreeMap};
ghost use Rattle.std.specs.List.{enumerate_from};
ghost use Rattle.ufs_image.specs.Nodes.{Dir, names_of};
ghost use Rattle.ufs_walk.specs.Waits.{below_in, left};
ghost use Rattle.ufs_walk.specs.Walked.{place_and_below};

use std::alloc::Global;
use ufs_base::Memory;
use ufs_layout::Dentry;

/// A name that was met and isn't noted yet: its whole path, the inode that stands there, and how deep the walk
/// goes below it.
#[derive(Drop)]
pub(crate) struct Waiting {
    pub(crate) path: Vec<u8>,
    pub(crate) inode: u32,
    pub(crate) depth: u32,
}

// The path of a name below this one.
fn path_below(alloc: Global, path: &[u8], name: &[u8]) -> Result<Vec<u8>, Memory>
    ensures { IfOk result (λ below. below.items ≡ path.now ++ 47 ∷ name.now) }
{
    let mut below = path.to_vec(alloc)?;
    below.push(b'/')?;
    below.extend_from_slice(name)?;
    Ok(below)
}

/// The names in these slots wait from now on, and the first of them has the next turn.
pub(crate) fn push_names(
    alloc: Global,
    slots: &[Option<Dentry>],
    path: &[u8],
    depth: u32,
    waiting: &mut Vec<Waiting>,
) -> Result<(), Memory>
    ensures { (dirs : List Dir) (index : BTreeMap ℕ ℕ) → OnOk result (left dirs index waiting.new.items
        ≡ flat_map (place_and_below (below_in depth dirs index) path.now) (names_of (record { inode = 0; slots = enumerate_from 0 slots.now })) ++ left dirs index waiting.old.items) }
{
    for back in 0..slots.len() {
        let place = slots.len() - 1 - back;
        let Some(dentry) = &slots[place] else {
            continue;
        };
        if dentry.name_bytes().is_empty() {
            continue;
        }
        let at = path_below(alloc, path, dentry.name_bytes())?;
        waiting.push(Waiting {
            path: at,
            inode: dentry.inode,
            depth,
        })?;
    }
    Ok(())
}
