// Where each directory stands in a list of them.
ghost use Rattle.std.specs.Prelude.{IfOk};
ghost use Rattle.ufs_walk.specs.Found.{IsIndexOf};

use std::alloc::Global;
use std::collections::BTreeMap;
use ufs_base::Memory;
use ufs_damage::ReadDir;

// The place of each inode's directory.
pub(crate) fn index_of(alloc: Global, dirs: &[ReadDir]) -> Result<BTreeMap<u32, usize>, Memory>
    ensures { IfOk result (IsIndexOf dirs.now) }
{
    let mut index = BTreeMap::new(alloc);
    for place in 0..dirs.len() {
        let key = dirs[place].inode();
        index.insert(key, place)?;
    }
    Ok(index)
}
