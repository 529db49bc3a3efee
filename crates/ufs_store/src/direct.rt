// A way to a store that is borrowed.
use crate::{Door, Store, StoreFault, Uncommitted};
use ufs_bitmap::Pool;
use ufs_disk::Disk;
use ufs_extent::Runs;
use ufs_ilog::{InodeLog, NamesLog};
use ufs_layout::Geometry;

/// Goes to a store that it borrows.
#[derive(Drop)]
pub struct Direct<'a, D: Disk> {
    pub store: &'a mut Store<D>,
}

impl<'a, D: Disk> Door for Direct<'a, D> {
    ghost visible = { D.visible };

    ghost keeps = { D.keeps };

    ghost stamps = { ⊥ };

    ghost allows = { λ image. ⊥ };

    ghost store = { λ d. ⟦<Store<D> as Door>⟧.store d.store.now };

    fn geometry(&self) -> Geometry {
        self.store.geometry()
    }

    fn stopped(&self) -> Option<u64> {
        self.store.stopped()
    }

    fn read_block(&mut self, block: u32, buf: &mut [u8]) -> Result<(), StoreFault> {
        self.store.read_block(block, buf)
    }

    fn write_block(&mut self, block: u32, bytes: &[u8]) -> Result<(), StoreFault> {
        self.store.write_block(block, bytes)
    }

    fn settle(&mut self) -> Result<(), StoreFault> {
        self.store.settle()
    }

    fn commit_names(&mut self, log: &mut NamesLog) -> Result<u64, StoreFault> {
        self.store.commit_names(log)
    }

    fn commit_file(&mut self, log: &mut InodeLog, freed: Runs) -> Result<u64, Uncommitted> {
        self.store.commit_file(log, freed)
    }

    fn give_pool(&mut self, pool: &mut Pool, missing: u32) -> Result<(), StoreFault> {
        self.store.give_pool(pool, missing)
    }

    fn take_back(&mut self, pool: &mut Pool) {
        self.store.take_back(pool);
    }

    fn checkpoint(&mut self) -> Result<(), StoreFault> {
        self.store.checkpoint()
    }

    ghost whole = { λ visible d. D.whole visible d.store.now.disk };

    ghost sees = { λ stamped. absurd stamped };
}
