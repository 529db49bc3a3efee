ghost use Rattle.std.specs.Prelude.{◌≡◌};
ghost use Rattle.std.specs.FinSet as set;
ghost use Rattle.ufs_bitmap.specs.Taking.{IsApart, set_of};
ghost use Rattle.ufs_extent.specs.Runs.{blocks_of};

use std::alloc::Global;
use std::collections::BTreeMap;
use std::marker::Model;
use ufs_base::Memory;
use ufs_bitmap::{Pool, give_runs};
use ufs_file::FileHand;

/// The files that a server holds, by their numbers.
#[derive(Drop)]
pub struct FileHands {
    alloc: Global,
    hands: BTreeMap<u32, FileHand>,
}

impl Model for FileHands {
    ghost use Rattle.std.specs.Ordering.{nat_cmp};
    ghost use Rattle.ufs_calls.specs.Seen.{seen};
    ghost use Rattle.std.specs.Coded.{coded_ℕ};
    ghost use Rattle.std.specs.FinMap as map;
    ghost use Rattle.ufs_file.specs.contracts.hand.FileHand as hand;
    ghost use Rattle.ufs_files.specs.Files.{Files, AreNumbered};

    ghost Value = { Files };

    ghost coded = { map.code coded_ℕ hand.the_row.coded };

    ghost view = { λ m. seen nat_cmp (λ k. k) m.hands };

    ghost invariant = { λ m. AreNumbered (seen nat_cmp (λ k. k) m.hands) };
}

impl FileHands {
    ghost use Rattle.std.specs.Prelude.{◌≡◌, [], Some, None, IsSome, IfOk, IfSome, IfNone, OnOk, OnErr};
    ghost use Rattle.std.specs.Option.{option_map, option_copied};
    ghost use Rattle.std.specs.FinMap as map;
    ghost use Rattle.std.specs.FinSet as set;
    ghost use Rattle.ufs_bitmap.specs.Taking.{IsApart, set_of};
    ghost use Rattle.ufs_extent.specs.Runs.{blocks_of};
    ghost use Rattle.ufs_file.specs.Content.{no_content};
    ghost use Rattle.ufs_file.specs.Hand.{FileState};
    ghost use Rattle.ufs_files.specs.Files.{AreNumbered, blocks_at};

    /// No file.
    pub fn new(alloc: Global) -> FileHands
        ensures { result ≡ map.empty }
    {
        FileHands {
            alloc,
            hands: BTreeMap::new(alloc),
        }
    }

    /// The file of this number, if it is here.
    pub fn get(&self, file: u32) -> Option<&FileHand>
        ensures { option_copied result ≡ map.get self.now file }
    {
        self.hands.get(&file)
    }

    /// A new file with no byte and no block. None of this number is here.
    pub fn make(&mut self, file: u32, inode: u32) -> Result<(), Memory>
        requires absent { map.get self.old file ≡ None }
        ensures ok { OnOk result (self.new ≡ map.insert self.old file (record { file = file; inode = inode; extents = []; content = no_content })) }
        ensures err { OnErr result (self.new ≡ self.old) }
    {
        let hand = FileHand::make(self.alloc, file, inode)?;
        self.replace(file, hand)?;
        Ok(())
    }

    /// The file of this hand comes to the others. None of its number is here.
    pub fn insert(&mut self, hand: FileHand) -> Result<(), Memory>
        requires { map.get self.old hand.file ≡ None }
        ensures ok { OnOk result (self.new ≡ map.insert self.old hand.file hand) }
        ensures err { OnErr result (self.new ≡ self.old) }
    {
        let file = hand.file();
        self.replace(file, hand)?;
        Ok(())
    }

    /// Cuts the file to no byte. Its blocks are the pool's.
    pub fn empty(&mut self, file: u32, pool: &mut Pool) -> Result<(), Memory>
        requires here { IsSome (map.get self.old file) }
        requires apart { IsApart pool.old (blocks_at self.old file) }
        ensures ok { OnOk result ((s : FileState) → map.get self.old file ≡ Some s → self.new ≡ map.insert self.old file (record { file = file; inode = s.inode; extents = []; content = no_content })) }
        ensures pool { OnOk result (pool.new ≡ set.union pool.old (set.from_list (blocks_at self.old file))) }
        ensures err { OnErr result (self.new ≡ self.old) }
        ensures err_pool { OnErr result (pool.new ≡ pool.old) }
    {
        let Some(hand) = self.get(file) else {
            unreachable!()
        };
        let fresh = FileHand::make(self.alloc, file, hand.inode())?;
        match self.replace(file, fresh) {
            Ok(Some(old)) => give_back(old, pool),
            _ => unreachable!(),
        }
        Ok(())
    }

    /// The file is no more, and its blocks are the pool's. Takes no memory.
    pub fn remove(&mut self, file: u32, pool: &mut Pool)
        requires here { IsSome (map.get self.old file) }
        requires apart { IsApart pool.old (blocks_at self.old file) }
        ensures gone { self.new ≡ map.remove self.old file }
        ensures pool { pool.new ≡ set.union pool.old (set.from_list (blocks_at self.old file)) }
    {
        let Some(hand) = self.take(file) else {
            unreachable!()
        };
        give_back(hand, pool);
    }

    /// Each stands under its own number.
    pub fn are_numbered(&self)
        ensures { AreNumbered self.now }
    {
        // For the prover alone.
        let _count = self.hands.len();
    }

    /// Puts a hand in the place of the one that was there, which is the answer. Where one was there no memory is taken.
    pub fn replace(&mut self, file: u32, hand: FileHand) -> Result<Option<FileHand>, Memory>
        requires number { hand.file ≡ file }
        ensures ok { OnOk result (self.new ≡ map.insert self.old file hand) }
        ensures old { IfOk result (λ old. old ≡ map.get self.old file) }
        ensures absent { OnErr result (map.get self.old file ≡ None) }
        ensures err { OnErr result (self.new ≡ self.old) }
    {
        let old = self.hands.insert(file, hand)?;
        Ok(old)
    }

    // Takes the hand of this number out.
    fn take(&mut self, file: u32) -> Option<FileHand>
        ensures value { result ≡ map.get self.old file }
        ensures gone { self.new ≡ map.remove self.old file }
    {
        // For the prover alone.
        let _count = self.hands.len();
        self.hands.remove(&file)
    }
}

// The file's blocks are the pool's, and the hand is no more.
fn give_back(hand: FileHand, pool: &mut Pool)
    requires { IsApart pool.old (blocks_of hand.extents) }
    ensures { pool.new ≡ set.union pool.old (set_of hand.extents) }
{
    let runs = hand.drop_blocks();
    give_runs(pool, runs.as_slice());
}
