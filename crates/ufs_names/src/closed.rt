ghost use Rattle.std.specs.Prelude.{◌≡◌, ◌+◌, ◌<◌, length, IfOk, OnOk};
ghost use Rattle.ufs_names.specs.Closed.{AreClosed, with_closed};

use crate::hold_map::HoldMap;
use crate::holding::{CLIENTS, Holding};
use crate::names::Names;
use std::alloc::Global;
use ufs_base::Memory;
use ufs_name_tree::NameTree;

impl Names {
    ghost use Rattle.std.specs.Prelude.{◌≡◌, ◌+◌, ◌<◌, length, IfOk};
    ghost use Rattle.ufs_names.specs.Closed.{AreClosed};

    /// The names of a tree of so many inodes, whose files no client has open, and the next file number.
    pub fn closed(alloc: Global, tree: NameTree, inodes: u32, next: u32) -> Result<Names, Memory>
        requires few { inodes < 65536 }
        requires counted { length tree.files ≡ inodes + 1 }
        ensures tree { IfOk result (λ n. n.tree ≡ tree) }
        ensures closed { IfOk result (λ n. AreClosed tree n.held) }
        ensures next { IfOk result (λ n. n.next ≡ next) }
    {
        let held = closed_files(alloc, &tree, inodes)?;
        Ok(Names {
            alloc,
            tree,
            held,
            next,
        })
    }
}

// Of each file of the tree, that no client has it open.
fn closed_files(alloc: Global, tree: &NameTree, inodes: u32) -> Result<HoldMap, Memory>
    requires few { inodes < 65536 }
    requires counted { length tree.now.files ≡ inodes + 1 }
    ensures { IfOk result (AreClosed tree.now) }
{
    tree.is_table();
    let mut held = HoldMap::new(alloc);
    for inode in 0..inodes + 1 {
        put_closed(&mut held, tree.file(inode), inode)?;
    }
    Ok(held)
}

// The inode's file, if it is one.
fn put_closed(held: &mut HoldMap, file: Option<u32>, inode: u32) -> Result<(), Memory>
    ensures { OnOk result (held.new ≡ with_closed held.old file inode) }
{
    let Some(file) = file else {
        return Ok(());
    };
    held.put(
        file,
        Holding {
            inode,
            linked: true,
            clients: [false; CLIENTS],
        },
    )?;
    Ok(())
}
