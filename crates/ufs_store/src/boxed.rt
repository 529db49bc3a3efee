// A way to a store that is in a box, so that what hands it on moves a pointer alone.
use crate::{Door, StoreFault, Uncommitted};
use ufs_bitmap::Pool;
use ufs_extent::Runs;
use ufs_ilog::{InodeLog, NamesLog};
use ufs_layout::Geometry;

impl<D: Door> Door for Box<D> {
    ghost visible = { D.visible };

    ghost keeps = { D.keeps };

    ghost stamps = { D.stamps };

    ghost allows = { D.allows };

    ghost store = { λ b. D.store b.value };

    fn geometry(&self) -> Geometry {
        D::geometry(&**self)
    }

    fn stopped(&self) -> Option<u64> {
        D::stopped(&**self)
    }

    fn read_block(&mut self, block: u32, buf: &mut [u8]) -> Result<(), StoreFault> {
        D::read_block(&mut **self, block, buf)
    }

    fn write_block(&mut self, block: u32, bytes: &[u8]) -> Result<(), StoreFault> {
        D::write_block(&mut **self, block, bytes)
    }

    fn settle(&mut self) -> Result<(), StoreFault> {
        D::settle(&mut **self)
    }

    fn commit_names(&mut self, log: &mut NamesLog) -> Result<u64, StoreFault> {
        D::commit_names(&mut **self, log)
    }

    fn commit_file(&mut self, log: &mut InodeLog, freed: Runs) -> Result<u64, Uncommitted> {
        D::commit_file(&mut **self, log, freed)
    }

    fn give_pool(&mut self, pool: &mut Pool, missing: u32) -> Result<(), StoreFault> {
        D::give_pool(&mut **self, pool, missing)
    }

    fn take_back(&mut self, pool: &mut Pool) {
        D::take_back(&mut **self, pool);
    }

    fn checkpoint(&mut self) -> Result<(), StoreFault> {
        D::checkpoint(&mut **self)
    }

    ghost whole = { λ visible b. D.whole visible b.value };

    ghost sees = { D.sees };
}
