// A disk that writes the first sector of each write and then fails: the trait allows it, so nobody
// can prove of every disk that a failed write changed nothing.
ghost use Rattle.std.specs.Prelude.{true, false};
ghost use Rattle.ufs_disk.specs.Bytes.{begun};
ghost use Rattle.ufs_disk.specs.Whole.{begun_whole};

use ufs_base::SECTOR;
use ufs_disk::{Disk, Fault, PlainDisk};

#[derive(Drop)]
pub struct TornDisk {
    pub disk: PlainDisk,
    pub faults: u64,
}

impl Disk for TornDisk {
    ghost visible = { true };

    ghost keeps = { false };

    ghost size = { λ d. d.disk.sectors };

    ghost moments = { λ d. begun d.disk.bytes.items };

    ghost faults = { λ d. d.faults };

    ghost small = { λ d. d.disk.in_range };

    ghost whole = { λ visible d. begun_whole d.disk.bytes.items d.disk.sectors d.disk.small_bytes d.disk.sized };

    fn sectors(&self) -> u32 {
        self.disk.sectors()
    }

    fn read(&mut self, sector: u32, buf: &mut [u8]) -> Result<(), Fault> {
        let _ = self.disk.read(sector, buf);
        Ok(())
    }

    fn write(&mut self, sector: u32, bytes: &[u8]) -> Result<(), Fault> {
        let _ = self.disk.write(sector, &bytes[..SECTOR]);
        self.faults = self.faults.saturating_add(1);
        Err(Fault {
            number: self.faults,
        })
    }

    fn barrier(&mut self) -> Result<(), Fault> {
        Ok(())
    }
}
