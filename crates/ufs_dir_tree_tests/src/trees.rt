ghost use Rattle.std.specs.Prelude.{◌≡◌, ◌≤◌, ◌<◌, ℕ, IsTrue};
ghost use Rattle.std.proofs.Props.{props};
ghost use Rattle.ufs_dir_tree.specs.DirTable.{slots_at};
ghost use Rattle.ufs_dir_tree.specs.DirCalls.{IsApart, IsBare};
ghost use Rattle.ufs_dir_tree.specs.declared.found.Found.TheVariants.{Dir};

use crate::asserts::{holds, same};
use std::alloc::Global;
use ufs_base::Memory;
use ufs_bitmap::Pool;
use ufs_dir_tree::{DirTree, Found, Kind};
use ufs_extent::Run;
use ufs_model::Excuse;
use ufs_path::{PathText, read_path};

// What a call came to that gave no inode.
const REFUSED: u32 = 9_000;

const NO_INODE: u32 = 9_001;

const NO_BLOCK: u32 = 9_002;

const NO_EXTENT: u32 = 9_003;

const NO_MEMORY: u32 = 9_004;

// A pool of so many blocks from 14 on, each so far from the one before it.
fn pool_of(alloc: Global, blocks: u32, step: u32) -> Result<Pool, Memory>
    requires blocks { blocks ≤ 100 }
    requires step { step ≤ 100 }
{
    let mut pool = Pool::make(alloc)?;
    for k in 0..blocks {
        let start = 14 + step * k;
        if !pool.contains(start) {
            pool.give(Run { start, length: 1 });
        }
    }
    Ok(pool)
}

// The inode that came at the path.
fn add(tree: &mut DirTree, pool: &mut Pool, alloc: Global, path: &[u8], kind: Kind) -> u32
    requires { IsApart tree.old pool.old }
    ensures { IsApart tree.new pool.new }
{
    let Ok(path) = read_path(alloc, path) else {
        return REFUSED;
    };
    if path.is_root() {
        return REFUSED;
    }
    let Ok(met) = tree.look(&path) else {
        return REFUSED;
    };
    if met.found.is_some() {
        return REFUSED;
    }
    match tree.add(met.dir, &path, kind, pool) {
        Ok(added) => added.inode,
        Err(excuse) => number_of(excuse),
    }
}

fn number_of(excuse: Excuse) -> u32 {
    match excuse {
        Excuse::Inodes => NO_INODE,
        Excuse::Blocks { .. } => NO_BLOCK,
        Excuse::Extents { .. } => NO_EXTENT,
        _ => NO_MEMORY,
    }
}

fn may_go(tree: &DirTree, found: Found) -> bool
    ensures { IsTrue result → (i : ℕ) → found ≡ Dir i → IsBare (slots_at tree.now i) }
{
    match found {
        Found::File { .. } => true,
        Found::Dir { inode } => tree.is_empty(inode),
    }
}

// What went from the path. A file's inode is free too.
fn drop_path(tree: &mut DirTree, pool: &mut Pool, alloc: Global, path: &[u8]) -> Option<Found>
    requires { IsApart tree.old pool.old }
    ensures { IsApart tree.new pool.new }
{
    let Ok(path) = read_path(alloc, path) else {
        return None;
    };
    if path.is_root() {
        return None;
    }
    let Ok(met) = tree.look(&path) else {
        return None;
    };
    let Some(found) = met.found else {
        return None;
    };
    if !may_go(tree, found) {
        return None;
    }
    tree.remove(met.dir, &path, pool);
    if let Found::File { inode } = found {
        tree.free_inode(inode, pool);
    }
    Some(found)
}

// Whether a name of the root got another.
fn rename(tree: &mut DirTree, pool: &mut Pool, from: &PathText, to: &PathText) -> bool
    requires { IsApart tree.old pool.old }
    ensures { IsApart tree.new pool.new }
{
    if from.len() != 1 || to.len() != 1 || from.component(0) == to.component(0) {
        return false;
    }
    let (Ok(old), Ok(new)) = (tree.look(from), tree.look(to)) else {
        return false;
    };
    if old.found.is_none() || new.found.is_some() {
        return false;
    }
    tree.rename(old.dir, from, new.dir, to, pool).is_ok()
}

// The directory's block, where it has one alone.
fn only_block(tree: &DirTree, dir: u32) -> u32 {
    match tree.blocks(dir) {
        [block] => *block,
        _ => 0,
    }
}

// What stands at the path.
fn look(tree: &DirTree, alloc: Global, path: &[u8]) -> Option<Found> {
    let Ok(path) = read_path(alloc, path) else {
        return None;
    };
    match tree.look(&path) {
        Ok(met) => met.found,
        Err(_) => None,
    }
}

// A tree, and a pool that has none of its blocks.
#[derive(Drop)]
struct Play {
    alloc: Global,
    tree: DirTree,
    pool: Pool,
    ghost apart: { IsApart tree pool } by { Prim.hlevel props },
}

impl Play {
    // The root alone, and so many blocks from 14 on, each so far from the one before it.
    fn start(alloc: Global, inodes: u32, blocks: u32, step: u32) -> Result<Play, Memory>
        requires some { 1 ≤ inodes }
        requires few { inodes < 65536 }
        requires blocks { blocks ≤ 100 }
        requires step { step ≤ 100 }
    {
        let pool = pool_of(alloc, blocks, step)?;
        let tree = DirTree::new(alloc, inodes)?;
        Ok(Play { alloc, tree, pool })
    }

    fn add_dir(&mut self, path: &[u8]) -> u32 {
        add(&mut self.tree, &mut self.pool, self.alloc, path, Kind::Dir)
    }

    fn add_file(&mut self, path: &[u8]) -> u32 {
        add(&mut self.tree, &mut self.pool, self.alloc, path, Kind::File)
    }

    fn drop_path(&mut self, path: &[u8]) -> Option<Found> {
        drop_path(&mut self.tree, &mut self.pool, self.alloc, path)
    }

    // Whether a name of the root got another; none where a path is not read.
    fn rename(&mut self, from: &[u8], to: &[u8]) -> Option<bool> {
        let (Ok(from), Ok(to)) = (read_path(self.alloc, from), read_path(self.alloc, to)) else {
            return None;
        };
        Some(rename(&mut self.tree, &mut self.pool, &from, &to))
    }

    fn look(&self, path: &[u8]) -> Option<Found> {
        look(&self.tree, self.alloc, path)
    }

    // The names that came into the root, by three letters each, and what the next one came to.
    fn fill(&mut self) -> (u32, u32) {
        for i in 0..4000 {
            let path = [
                b'/',
                97 + (i / 676 % 26) as u8,
                97 + (i / 26 % 26) as u8,
                97 + (i % 26) as u8,
            ];
            let inode = self.add_file(&path);
            if inode >= REFUSED {
                return (i, inode);
            }
        }
        (4000, 0)
    }
}

#[test]
fn inodes_and_blocks_are_the_lowest(rt: HostRuntime) {
    let mut play = Play::start(rt.alloc(), 4, 2, 1).expect(&rt, "memory");
    same(&rt, play.add_dir(b"/a"), 2);
    same(&rt, play.add_file(b"/b"), 3);
    same(&rt, play.add_file(b"/a/c"), 4);
    same(&rt, only_block(&play.tree, 1), 14);
    same(&rt, only_block(&play.tree, 2), 15);
    same(&rt, play.pool.count(), 0);
    same(&rt, play.add_file(b"/d"), NO_INODE);
    same(&rt, play.drop_path(b"/b"), Some(Found::File { inode: 3 }));
    same(&rt, play.add_dir(b"/d"), 3);
    same(&rt, play.drop_path(b"/a"), None);
    same(&rt, play.drop_path(b"/a/c"), Some(Found::File { inode: 4 }));
    // The directory has no name any more, and keeps its block.
    same(&rt, play.add_file(b"/d/e"), NO_BLOCK);
    same(&rt, play.drop_path(b"/a"), Some(Found::Dir { inode: 2 }));
    same(&rt, play.pool.count(), 1);
    same(&rt, play.add_file(b"/d/e"), 2);
    same(&rt, only_block(&play.tree, 3), 15);
}

#[test]
fn a_name_moves_with_what_lies_below(rt: HostRuntime) {
    let mut play = Play::start(rt.alloc(), 9, 9, 1).expect(&rt, "memory");
    same(&rt, play.add_dir(b"/d"), 2);
    same(&rt, play.add_file(b"/d/x"), 3);
    same(&rt, play.add_file(b"/d/e"), 4);
    same(&rt, play.tree.count(2), 2);
    let renamed = play.rename(b"/d", b"/z").expect(&rt, "path");
    holds(&rt, renamed);
    same(&rt, play.look(b"/z/e"), Some(Found::File { inode: 4 }));
    same(&rt, play.look(b"/d"), None);
    let names = play.tree.names(2).expect(&rt, "memory");
    same(&rt, names.as_slice().len(), 2);
}

#[test]
fn a_directory_lies_in_56_extents(rt: HostRuntime) {
    let mut play = Play::start(rt.alloc(), 4096, 60, 2).expect(&rt, "memory");
    same(&rt, play.fill(), (3584, NO_EXTENT));
    same(&rt, play.pool.count(), 4);
}
