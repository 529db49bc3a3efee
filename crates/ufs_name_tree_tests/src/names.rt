ghost use Rattle.std.specs.Prelude.{◌≡◌, ◌≤◌, ◌<◌, ℕ, IsTrue, Some};
ghost use Rattle.std.proofs.Props.{props};
ghost use Rattle.ufs_dir_tree.specs.DirTable.{slots_at};
ghost use Rattle.ufs_dir_tree.specs.DirCalls.{IsApart, IsBare};
ghost use Rattle.ufs_dir_tree.specs.declared.found.Found.TheVariants.{Dir};
ghost use Rattle.ufs_name_tree.specs.NameTable.{file_at};

use crate::asserts::{holds, same};
use std::alloc::Global;
use ufs_base::Memory;
use ufs_bitmap::Pool;
use ufs_dir_tree::Found;
use ufs_extent::Run;
use ufs_model::{Excuse, Node};
use ufs_name_tree::NameTree;
use ufs_path::read_path;

// What a call came to that gave no inode.
const REFUSED: u32 = 9_000;

const NO_INODE: u32 = 9_001;

const NO_BLOCK: u32 = 9_002;

const NO_MEMORY: u32 = 9_003;

// Names, a pool that has none of their blocks, and the number of the next file, which is above all others.
#[derive(Drop)]
struct Tree {
    alloc: Global,
    names: NameTree,
    pool: Pool,
    next: u32,
    ghost apart: { IsApart names.dirs pool } by { Prim.hlevel props },
    ghost below: { (i f : ℕ) → file_at names i ≡ Some f → f < next } by { Prim.hlevel props },
}

// The root alone, and so many blocks from 14 on.
fn begin(alloc: Global, inodes: u32, blocks: u32) -> Result<Tree, Memory>
    requires some { 1 ≤ inodes }
    requires few { inodes < 100 }
    requires blocks { blocks ≤ 100 }
{
    let mut pool = Pool::make(alloc)?;
    for k in 0..blocks {
        let start = 14 + k;
        if !pool.contains(start) {
            pool.give(Run { start, length: 1 });
        }
    }
    let names = NameTree::new(alloc, inodes)?;
    Ok(Tree {
        alloc,
        names,
        pool,
        next: 0,
    })
}

fn number_of(excuse: Excuse) -> u32 {
    match excuse {
        Excuse::Inodes => NO_INODE,
        Excuse::Blocks { .. } => NO_BLOCK,
        _ => NO_MEMORY,
    }
}

// The inode of the directory that came at the path.
fn add_dir(tree: &mut Tree, path: &[u8]) -> u32 {
    let Ok(path) = read_path(tree.alloc, path) else {
        return REFUSED;
    };
    if path.is_root() {
        return REFUSED;
    }
    let Ok(met) = tree.names.look(&path) else {
        return REFUSED;
    };
    if met.found.is_some() {
        return REFUSED;
    }
    match tree.names.add_dir(met.dir, &path, &mut tree.pool) {
        Ok(inode) => inode,
        Err(excuse) => number_of(excuse),
    }
}

// The inode of the file that came at the path.
fn add_file(tree: &mut Tree, path: &[u8]) -> u32 {
    let Ok(path) = read_path(tree.alloc, path) else {
        return REFUSED;
    };
    if path.is_root() || tree.next >= 1000 {
        return REFUSED;
    }
    let Ok(met) = tree.names.look(&path) else {
        return REFUSED;
    };
    if met.found.is_some() {
        return REFUSED;
    }
    match tree
        .names
        .add_file(met.dir, &path, tree.next, &mut tree.pool)
    {
        Ok(inode) => {
            tree.next += 1;
            inode
        }
        Err(excuse) => number_of(excuse),
    }
}

fn may_go(names: &NameTree, found: Found) -> bool
    ensures { IsTrue result → (i : ℕ) → found ≡ Dir i → IsBare (slots_at names.now.dirs i) }
{
    match found {
        Found::File { .. } => true,
        Found::Dir { inode } => names.is_empty(inode),
    }
}

// What went from the path. A file's inode is free too.
fn drop_path(tree: &mut Tree, path: &[u8]) -> Option<Node> {
    let Ok(path) = read_path(tree.alloc, path) else {
        return None;
    };
    if path.is_root() {
        return None;
    }
    let Ok(met) = tree.names.look(&path) else {
        return None;
    };
    let Some(found) = met.found else {
        return None;
    };
    if !may_go(&tree.names, found) {
        return None;
    }
    let node = tree.names.node(Some(found));
    tree.names.remove(met.dir, &path, &mut tree.pool);
    if let Found::File { inode } = found {
        tree.names.free_file(inode, &mut tree.pool);
    }
    node
}

// Whether a name of the root got another.
fn rename(tree: &mut Tree, from: &[u8], to: &[u8]) -> bool {
    let (Ok(from), Ok(to)) = (read_path(tree.alloc, from), read_path(tree.alloc, to)) else {
        return false;
    };
    if from.len() != 1 || to.len() != 1 || from.component(0) == to.component(0) {
        return false;
    }
    let (Ok(old), Ok(new)) = (tree.names.look(&from), tree.names.look(&to)) else {
        return false;
    };
    if old.found.is_none() || new.found.is_some() {
        return false;
    }
    tree.names
        .rename(old.dir, &from, new.dir, &to, &mut tree.pool)
        .is_ok()
}

// What stands at the path.
fn node(tree: &Tree, path: &[u8]) -> Option<Node> {
    let Ok(path) = read_path(tree.alloc, path) else {
        return None;
    };
    match tree.names.look(&path) {
        Ok(met) => tree.names.node(met.found),
        Err(_) => None,
    }
}

#[test]
fn files_keep_their_numbers(rt: HostRuntime) {
    let mut tree = begin(rt.alloc(), 9, 9).expect(&rt, "memory");
    same(&rt, tree.names.next_inode(), Some(2));
    same(&rt, add_dir(&mut tree, b"/d"), 2);
    same(&rt, add_file(&mut tree, b"/d/x"), 3);
    same(&rt, add_file(&mut tree, b"/e"), 4);
    same(&rt, tree.names.next_inode(), Some(5));
    same(&rt, node(&tree, b"/"), Some(Node::Dir));
    same(&rt, node(&tree, b"/d"), Some(Node::Dir));
    same(&rt, node(&tree, b"/d/x"), Some(Node::File(0)));
    same(&rt, node(&tree, b"/e"), Some(Node::File(1)));
    same(&rt, tree.names.file(4), Some(1));
    same(&rt, tree.names.file(2), None);
    holds(&rt, rename(&mut tree, b"/d", b"/z"));
    same(&rt, node(&tree, b"/z/x"), Some(Node::File(0)));
    same(&rt, node(&tree, b"/d"), None);
    same(&rt, tree.names.count(1), 2);
    let names = tree.names.names(1).expect(&rt, "memory");
    same(&rt, names.as_slice().len(), 2);
    same(&rt, tree.names.blocks(2).len(), 1);
}

#[test]
fn an_inode_gets_another_number(rt: HostRuntime) {
    let mut tree = begin(rt.alloc(), 3, 1).expect(&rt, "memory");
    same(&rt, add_file(&mut tree, b"/a"), 2);
    same(&rt, add_dir(&mut tree, b"/b"), 3);
    same(&rt, tree.names.next_inode(), None);
    same(&rt, add_file(&mut tree, b"/c"), NO_INODE);
    same(&rt, drop_path(&mut tree, b"/a"), Some(Node::File(0)));
    same(&rt, tree.names.file(2), None);
    same(&rt, add_file(&mut tree, b"/b/c"), NO_BLOCK);
    same(&rt, add_file(&mut tree, b"/c"), 2);
    same(&rt, node(&tree, b"/c"), Some(Node::File(1)));
    same(&rt, drop_path(&mut tree, b"/b"), Some(Node::Dir));
    same(&rt, tree.names.next_inode(), Some(3));
}
