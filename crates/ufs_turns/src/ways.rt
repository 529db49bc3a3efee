// Two ways to the store: straight, and by a lock.
ghost use Rattle.std.specs.Prelude.{◌<◌};

use crate::{HeldStore, Turns};
use std::sync::ledger::{Ledger, Share};
use std::sync::{Mutex, Wait};
use ufs_bitmap::Pool;
use ufs_file::FileHand;
use ufs_file_commits::FileCommits;
use ufs_joint::{Hand, HandTable, Naming};
use ufs_model::{Desc, Op};
use ufs_names::Names;
use ufs_store::{Door, StoreFault};

/// To a store that is its own: nobody else comes to it meanwhile, and behind its turns it is known which store they went to.
#[derive(Drop)]
pub struct Direct<'a, N: Naming, D: Door, L: Ledger> {
    pub table: &'a HandTable<N>,
    pub held: HeldStore<N, D, L>,
    pub share: Share<L>,
    pub ghost part: { 0 < share.parts },
}

impl<'a, N: Naming, D: Door, L: Ledger> Turns<N> for Direct<'a, N, D, L> {
    ghost use Rattle.std.specs.Prelude.{Some};

    ghost tells = { λ d. Some d.held };

    ghost answers = { λ d. d.share.amount };

    fn sync_file(
        &mut self,
        hand: &mut Hand<N>,
        file: &mut FileHand,
        commits: &mut FileCommits,
    ) -> Result<u64, StoreFault> {
        self.held.sync_file(self.table, hand, file, commits)
    }

    fn fetch(
        &mut self,
        hand: &mut Hand<N>,
        file: &mut FileHand,
        commits: &FileCommits,
        op: &Op,
        desc: Desc,
    ) -> Result<(), StoreFault> {
        self.held.fetch(self.table, hand, file, commits, op, desc)
    }

    fn commit_names(
        &mut self,
        hand: &mut Hand<N>,
        names: &mut Names,
        fresh: &mut Vec<u32>,
    ) -> Result<(), StoreFault> {
        self.held.commit_names(self.table, hand, names, fresh)
    }

    fn give_pool(
        &mut self,
        hand: &mut Hand<N>,
        pool: &mut Pool,
        missing: u32,
    ) -> Result<(), StoreFault> {
        self.held
            .give_pool(self.table, hand, pool, missing, &mut self.share)
    }

    fn take_back(&mut self, hand: &mut Hand<N>, pool: &mut Pool) {
        self.held.take_back(self.table, hand, pool);
    }

    fn checkpoint(&mut self, hand: &mut Hand<N>) -> Result<(), StoreFault> {
        self.held.checkpoint(self.table, hand, &mut self.share)
    }

    fn stopped(&mut self, hand: &mut Hand<N>) -> Option<u64> {
        self.held.stopped(self.table, hand)
    }

    fn reclaim(&mut self, hand: &mut Hand<N>, dropped: &mut Pool) -> Result<(), StoreFault> {
        self.held
            .reclaim(self.table, hand, dropped, &mut self.share)
    }
}

/// To a store that threads share, for one call each. It may wait.
#[derive(Drop)]
pub struct Locked<'a, N: Naming, D: Door, L: Ledger, R: Wait> {
    pub rt: &'a R,
    pub table: &'a HandTable<N>,
    pub held: &'a Mutex<HeldStore<N, D, L>>,
    pub share: Share<L>,
    pub ghost part: { 0 < share.parts },
}

impl<'a, N: Naming, D: Door, L: Ledger, R: Wait> Turns<N> for Locked<'a, N, D, L, R> {
    ghost use Rattle.std.specs.Prelude.{None};

    ghost tells = { λ d. None };

    ghost answers = { λ d. d.share.amount };

    fn sync_file(
        &mut self,
        hand: &mut Hand<N>,
        file: &mut FileHand,
        commits: &mut FileCommits,
    ) -> Result<u64, StoreFault> {
        self.held
            .lock(self.rt)
            .sync_file(self.table, hand, file, commits)
    }

    fn fetch(
        &mut self,
        hand: &mut Hand<N>,
        file: &mut FileHand,
        commits: &FileCommits,
        op: &Op,
        desc: Desc,
    ) -> Result<(), StoreFault> {
        self.held
            .lock(self.rt)
            .fetch(self.table, hand, file, commits, op, desc)
    }

    fn commit_names(
        &mut self,
        hand: &mut Hand<N>,
        names: &mut Names,
        fresh: &mut Vec<u32>,
    ) -> Result<(), StoreFault> {
        self.held
            .lock(self.rt)
            .commit_names(self.table, hand, names, fresh)
    }

    fn give_pool(
        &mut self,
        hand: &mut Hand<N>,
        pool: &mut Pool,
        missing: u32,
    ) -> Result<(), StoreFault> {
        self.held
            .lock(self.rt)
            .give_pool(self.table, hand, pool, missing, &mut self.share)
    }

    fn take_back(&mut self, hand: &mut Hand<N>, pool: &mut Pool) {
        self.held.lock(self.rt).take_back(self.table, hand, pool);
    }

    fn checkpoint(&mut self, hand: &mut Hand<N>) -> Result<(), StoreFault> {
        self.held
            .lock(self.rt)
            .checkpoint(self.table, hand, &mut self.share)
    }

    fn stopped(&mut self, hand: &mut Hand<N>) -> Option<u64> {
        self.held.lock(self.rt).stopped(self.table, hand)
    }

    fn reclaim(&mut self, hand: &mut Hand<N>, dropped: &mut Pool) -> Result<(), StoreFault> {
        self.held
            .lock(self.rt)
            .reclaim(self.table, hand, dropped, &mut self.share)
    }
}
