// A disk that counts the sectors that are read.
ghost use Rattle.std.specs.Prelude.{true, false};
ghost use Rattle.ufs_disk.specs.Bytes.{begun};
ghost use Rattle.ufs_disk.specs.Whole.{begun_whole};

use ufs_base::SECTOR;
use ufs_disk::{Disk, Fault, PlainDisk};

/// A disk in memory, how many sectors of it were read, each as often as it was, and the end of those.
#[derive(Drop)]
pub struct CountedDisk {
    pub disk: PlainDisk,
    pub count: usize,
    pub end: usize,
}

impl Disk for CountedDisk {
    ghost visible = { true };

    ghost keeps = { false };

    ghost size = { λ d. d.disk.sectors };

    ghost moments = { λ d. begun d.disk.bytes.items };

    ghost faults = { λ d. 0 };

    ghost small = { λ d. d.disk.in_range };

    ghost whole = { λ visible d. begun_whole d.disk.bytes.items d.disk.sectors d.disk.small_bytes d.disk.sized };

    fn sectors(&self) -> u32 {
        self.disk.sectors()
    }

    fn read(&mut self, sector: u32, buf: &mut [u8]) -> Result<(), Fault> {
        let count = buf.len() / SECTOR;
        self.count = self.count.saturating_add(count);
        self.end = self.end.max((sector as usize).saturating_add(count));
        self.disk.read(sector, buf)
    }

    fn write(&mut self, sector: u32, bytes: &[u8]) -> Result<(), Fault> {
        self.disk.write(sector, bytes)
    }

    fn barrier(&mut self) -> Result<(), Fault> {
        Ok(())
    }
}
