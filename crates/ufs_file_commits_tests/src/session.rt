// What the tests share: a store on an image of 256 blocks, a file on it, and a pool.
ghost use Rattle.std.specs.Prelude.{◌≡◌, ◌≤◌, IfSome, IfOk, OnOk, Some, length, false, true};
ghost use Rattle.ufs_file.specs.Hand.{HasNeeded};
ghost use Rattle.ufs_file_commits.specs.State.{state_of};
ghost use Rattle.ufs_model.specs.Bounds.{IsBounded};
ghost use Rattle.ufs_model.specs.FileCalls.{is_on_file};
ghost use Rattle.ufs_store.specs.State.{geometry_of_store};
ghost use Rattle.ufs_file_commits_tests.specs.Ready.{IsReady, all_free, small};

use std::alloc::Global;
use ufs_base::{BLOCK, Memory};
use ufs_bitmap::{Bitmap, Pool};
use ufs_disk::Disk;
use ufs_extent::Extents;
use ufs_file::{Applied, FileHand};
use ufs_file_commits::{FileCommits, apply, fetch, fsync};
use ufs_layout::Super;
use ufs_model::{Actor, Ask, Bytes, Desc, Entry, Excuse, Op, Reply};
use ufs_store::{Door, Store, StoreFault};

pub const SECTORS: u32 = 2_048;

const SUPERBLOCK: Super = Super {
    version: 1,
    blocks: 256,
    inodes: 32,
    journal: 64,
    epoch: 1,
    next: 1,
    clean: true,
};

// With leave to read and write.
const DESC: Desc = Desc {
    file: Some(1),
    at: 0,
    read: true,
    write: true,
    append: false,
};

/// A store with a file on it.
#[derive(Drop)]
pub struct Session<D: Disk> {
    pub store: Store<D>,
    pub hand: FileHand,
    pub commits: FileCommits,
    pub pool: Pool,
}

// A store on this disk, each of whose blocks is unassigned.
fn mounted<D: Disk + Drop>(alloc: Global, disk: D) -> Option<Store<D>>
    ensures geometry { IfSome result (λ s. geometry_of_store (⟦<Store<D> as Door>⟧.store s) ≡ small) }
    ensures unassigned { IfSome result (λ s. (⟦<Store<D> as Door>⟧.store s).unassigned ≡ all_free) }
{
    if disk.sectors() < SECTORS {
        return None;
    }
    let free = Bitmap::all_free(alloc, 14, 256).ok()?;
    Store::mount(alloc, disk, SUPERBLOCK, free).ok()
}

/// A file with no byte, number 1 in inode 2, over a store on this disk.
pub fn started<D: Disk + Drop>(alloc: Global, disk: D) -> Option<Session<D>>
    ensures { IfSome result (λ s. IsReady (⟦<Store<D> as Door>⟧.store s.store) (state_of s.hand s.commits) s.pool) }
{
    let Ok(hand) = FileHand::make(alloc, 1, 2) else {
        return None;
    };
    let Ok(commits) = FileCommits::make(alloc, &hand) else {
        return None;
    };
    let Ok(pool) = Pool::make(alloc) else {
        return None;
    };
    let store = mounted(alloc, disk)?;
    Some(Session {
        store,
        hand,
        commits,
        pool,
    })
}

/// Bytes that are all alike.
pub fn filled(alloc: Global, byte: u8, count: usize) -> Result<Bytes, Memory>
    ensures { IfOk result (λ bytes. length bytes ≡ count) }
{
    Ok(Bytes::from_vec(vec![in alloc; byte; count]?))
}

impl<D: Disk> Session<D> {
    /// Lets the pool have what is missing.
    pub fn fill(&mut self, missing: u32) -> Result<(), StoreFault>
        requires { IsReady (⟦<Store<D> as Door>⟧.store self.old.store) (state_of self.old.hand self.old.commits) self.old.pool }
        ensures { IsReady (⟦<Store<D> as Door>⟧.store self.new.store) (state_of self.new.hand self.new.commits) self.new.pool }
    {
        self.store.give_pool(&mut self.pool, missing)
    }

    /// Fetches what a request on the descriptor needs.
    pub fn fetch(&mut self, op: &Op) -> Result<(), StoreFault>
        requires { IsReady (⟦<Store<D> as Door>⟧.store self.old.store) (state_of self.old.hand self.old.commits) self.old.pool }
        ensures ready { IsReady (⟦<Store<D> as Door>⟧.store self.new.store) (state_of self.new.hand self.new.commits) self.new.pool }
        ensures there { OnOk result (HasNeeded self.new.hand.content (record { file = Some 1; at = 0; read = true; write = true; append = false }) op.now) }
    {
        fetch(&mut self.store, &mut self.hand, op, DESC)
    }

    /// The file as one of which nothing was read, from now on.
    pub fn forget(&mut self, alloc: Global) -> bool
        requires ready { IsReady (⟦<Store<D> as Door>⟧.store self.old.store) (state_of self.old.hand self.old.commits) self.old.pool }
        ensures { IsReady (⟦<Store<D> as Door>⟧.store self.new.store) (state_of self.new.hand self.new.commits) self.new.pool }
    {
        let Ok(extents) = Extents::from_runs(alloc, self.hand.extent_list().as_slice()) else {
            return false;
        };
        let Ok(unread) = FileHand::unread(alloc, 1, 2, extents, self.hand.size()) else {
            return false;
        };
        // For the prover alone.
        let _marks = unread.block_count();
        let _written = unread.dirty_places();
        self.hand = unread;
        true
    }

    /// How many blocks of the file are in memory.
    pub fn there_count(&self) -> u32 {
        let mut count: u32 = 0;
        for place in 0..self.hand.block_count() {
            if self.hand.is_there(place as usize) == Some(true) {
                count = count.saturating_add(1);
            }
        }
        count
    }

    /// The reply to a request on a descriptor with leave to read and write.
    pub fn serve(&mut self, op: Op) -> Reply
        requires ready { IsReady (⟦<Store<D> as Door>⟧.store self.old.store) (state_of self.old.hand self.old.commits) self.old.pool }
        requires kind { is_on_file op ≡ true }
        requires bounded { IsBounded op }
        ensures { IsReady (⟦<Store<D> as Door>⟧.store self.new.store) (state_of self.new.hand self.new.commits) self.new.pool }
    {
        let Ok(()) = self.fetch(&op) else {
            return Reply::Excused(Excuse::Memory);
        };
        let ask = Ask {
            client: 0,
            seq: 0,
            op,
            desc: Some(DESC),
            fd: 0,
            last: false,
        };
        let applied = apply(
            &mut self.hand,
            &mut self.commits,
            ask,
            Actor::Primary,
            0,
            &mut self.pool,
        );
        let Applied { entry, .. } = applied;
        let Entry { op, reply, .. } = entry;
        drop(op);
        reply
    }

    /// Writes so many bytes that are all alike at the file's start, and answers whether they were.
    pub fn write(&mut self, alloc: Global, byte: u8, count: usize) -> Option<bool>
        requires ready { IsReady (⟦<Store<D> as Door>⟧.store self.old.store) (state_of self.old.hand self.old.commits) self.old.pool }
        requires few { count ≤ 65536 }
        ensures { IsReady (⟦<Store<D> as Door>⟧.store self.new.store) (state_of self.new.hand self.new.commits) self.new.pool }
    {
        let bytes = filled(alloc, byte, count).ok()?;
        let reply = self.serve(Op::Pwrite {
            fd: 3,
            bytes,
            at: 0,
        });
        Some(matches!(reply, Reply::Count(n) if n as usize == count))
    }

    /// Cuts the file, and answers whether it was.
    pub fn cut(&mut self, size: u64) -> bool
        requires { IsReady (⟦<Store<D> as Door>⟧.store self.old.store) (state_of self.old.hand self.old.commits) self.old.pool }
        ensures { IsReady (⟦<Store<D> as Door>⟧.store self.new.store) (state_of self.new.hand self.new.commits) self.new.pool }
    {
        matches!(self.serve(Op::Trunc { fd: 3, size }), Reply::Done)
    }

    /// Commits the file.
    pub fn sync(&mut self) -> Result<u64, StoreFault>
        requires { IsReady (⟦<Store<D> as Door>⟧.store self.old.store) (state_of self.old.hand self.old.commits) self.old.pool }
        ensures { IsReady (⟦<Store<D> as Door>⟧.store self.new.store) (state_of self.new.hand self.new.commits) self.new.pool }
    {
        // For the prover alone.
        let _runs = self.commits.dropped().as_slice();
        fsync(&mut self.store, &mut self.hand, &mut self.commits)
    }

    /// What the disk has in the block at a place of the file.
    pub fn read(&mut self, place: u32) -> Option<[u8; BLOCK]>
        requires { IsReady (⟦<Store<D> as Door>⟧.store self.old.store) (state_of self.old.hand self.old.commits) self.old.pool }
        ensures { IsReady (⟦<Store<D> as Door>⟧.store self.new.store) (state_of self.new.hand self.new.commits) self.new.pool }
    {
        let block = self.hand.block_number(place)?;
        let mut bytes = [1; BLOCK];
        match self.store.read_block(block, &mut bytes) {
            Ok(()) => Some(bytes),
            Err(_) => None,
        }
    }

    /// Lets the disk have this byte all over the block at a place of the file, and answers whether it has.
    pub fn overwrite(&mut self, place: u32, byte: u8) -> bool
        requires { IsReady (⟦<Store<D> as Door>⟧.store self.old.store) (state_of self.old.hand self.old.commits) self.old.pool }
        ensures { IsReady (⟦<Store<D> as Door>⟧.store self.new.store) (state_of self.new.hand self.new.commits) self.new.pool }
    {
        let Some(block) = self.hand.block_number(place) else {
            return false;
        };
        self.store.write_block(block, &[byte; BLOCK]).is_ok()
    }

    /// How many blocks of the file are dirty.
    pub fn dirty_count(&self) -> u32 {
        let mut count: u32 = 0;
        for place in 0..self.hand.block_count() {
            if self.hand.is_dirty(place as usize) == Some(true) {
                count = count.saturating_add(1);
            }
        }
        count
    }
}
