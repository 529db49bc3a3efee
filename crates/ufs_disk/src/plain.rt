// A disk in memory that never fails. Each write is on it for good at once, so it keeps no history.
ghost use Rattle.std.specs.Prelude.{◌≡◌, ◌<◌, ◌*◌, ◌^◌, length, true, false};
ghost use Rattle.ufs_base.specs.Images.{IsBytes};
ghost use Rattle.ufs_disk.specs.Bytes.{begun};
ghost use Rattle.ufs_disk.specs.Whole.{begun_whole};

use crate::ranges::{copy_out, overwrite};
use crate::{Disk, Fault};
use std::alloc::{AllocError, Global};
use ufs_base::SECTOR;

/// A disk in memory that never fails. It takes the memory of its bytes.
#[derive(Drop)]
pub struct PlainDisk {
    pub sectors: u32,
    pub bytes: Vec<u8>,
    pub ghost in_range: { sectors < 2 ^ 32 },
    pub ghost sized: { length bytes.items ≡ 512 * sectors },
    pub ghost small_bytes: { IsBytes bytes.items },
}

impl PlainDisk {
    ghost use Rattle.std.specs.Prelude.{IfOk};
    ghost use Rattle.ufs_disk.specs.Bytes.{AreZeros};

    /// A disk with these bytes.
    pub fn new(sectors: u32, bytes: Vec<u8>) -> PlainDisk
        requires { length bytes.items ≡ 512 * sectors }
        ensures sectors { result.sectors ≡ sectors }
        ensures bytes { result.bytes.items ≡ bytes.items }
    {
        PlainDisk { sectors, bytes }
    }

    /// A disk of zeros. It takes the time of clearing its memory.
    pub fn zeros(alloc: Global, sectors: u32) -> Result<PlainDisk, AllocError>
        ensures sectors { IfOk result (λ disk. disk.sectors ≡ sectors) }
        ensures bytes { IfOk result (λ disk. AreZeros disk.bytes.items) }
    {
        let mut bytes = Vec::with_capacity(alloc, SECTOR * sectors as usize)?;
        for _sector in 0..sectors {
            bytes.extend_from_slice(&[0; SECTOR])?;
        }
        Ok(PlainDisk { sectors, bytes })
    }
}

impl Disk for PlainDisk {
    ghost visible = { true };

    ghost keeps = { false };

    ghost size = { λ d. d.sectors };

    ghost moments = { λ d. begun d.bytes.items };

    ghost faults = { λ d. 0 };

    ghost small = { λ d. d.in_range };

    ghost whole = { λ visible d. begun_whole d.bytes.items d.sectors d.small_bytes d.sized };

    fn sectors(&self) -> u32 {
        self.sectors
    }

    fn read(&mut self, sector: u32, buf: &mut [u8]) -> Result<(), Fault> {
        copy_out(&self.bytes, SECTOR * sector as usize, buf);
        Ok(())
    }

    fn write(&mut self, sector: u32, bytes: &[u8]) -> Result<(), Fault> {
        overwrite(&mut self.bytes, SECTOR * sector as usize, bytes);
        Ok(())
    }

    fn barrier(&mut self) -> Result<(), Fault> {
        Ok(())
    }
}
