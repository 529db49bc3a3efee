ghost use Rattle.std.specs.Prelude.{◌≡◌, ◌≤◌, ◌<◌, ◌*◌, ◌^◌, length, true, false};
ghost use Rattle.std.specs.Vec.{vec_capacity};
ghost use Rattle.ufs_base.specs.Images.{IsBytes};

use crate::ranges::{copy_out, put_at};
use std::alloc::{AllocError, Global};
use ufs_base::SECTOR;
use ufs_disk::{Disk, Fault};

/// A disk in memory that never fails. It holds its first bytes, and behind them it is zeros. It takes the memory of all
/// its bytes, and touches only that of those it holds.
#[derive(Drop)]
pub struct FrontDisk {
    pub sectors: u32,
    pub held: Vec<u8>,
    pub ghost in_range: { sectors < 2 ^ 32 },
    pub ghost within: { length held.items ≤ 512 * sectors },
    pub ghost room: { 512 * sectors ≤ vec_capacity held },
    pub ghost small_bytes: { IsBytes held.items },
}

impl FrontDisk {
    ghost use Rattle.std.specs.Prelude.{[], IfOk};
    ghost use Rattle.ufs_disk.specs.Bytes.{image_of};
    ghost use Rattle.ufs_disk.specs.Disk.{IsRange, overwritten};
    ghost use Rattle.ufs_front.specs.Fronts.{bytes_of};

    /// A disk of zeros.
    pub fn zeros(alloc: Global, sectors: u32) -> Result<FrontDisk, AllocError>
        ensures sectors { IfOk result (λ d. d.sectors ≡ sectors) }
        ensures held { IfOk result (λ d. d.held.items ≡ []) }
    {
        let held = Vec::with_capacity(alloc, SECTOR * sectors as usize)?;
        Ok(FrontDisk { sectors, held })
    }

    /// Writes the sectors from `sector` on.
    pub fn put(&mut self, sector: u32, bytes: &[u8])
        requires { IsRange self.old.sectors sector (length bytes.now) }
        ensures image { image_of (bytes_of self.new) ≡ overwritten sector bytes.now (image_of (bytes_of self.old)) }
        ensures sectors { self.new.sectors ≡ self.old.sectors }
    {
        put_at(&mut self.held, SECTOR * sector as usize, bytes);
    }
}

impl Disk for FrontDisk {
    ghost use Rattle.ufs_disk.specs.Bytes.{begun};
    ghost use Rattle.ufs_disk.specs.Whole.{begun_whole};
    ghost use Rattle.ufs_front.specs.Fronts.{bytes_of};
    ghost use Rattle.ufs_front.specs.Padded.{padded_sized, padded_small};

    ghost visible = { true };

    ghost keeps = { false };

    ghost size = { λ d. d.sectors };

    ghost moments = { λ d. begun (bytes_of d) };

    ghost faults = { λ d. 0 };

    ghost small = { λ d. d.in_range };

    ghost whole = { λ visible d. begun_whole (bytes_of d) d.sectors (padded_small (512 * d.sectors) d.held.items d.small_bytes) (padded_sized (512 * d.sectors) d.held.items d.within) };

    fn sectors(&self) -> u32 {
        self.sectors
    }

    fn read(&mut self, sector: u32, buf: &mut [u8]) -> Result<(), Fault> {
        copy_out(&self.held, SECTOR * sector as usize, buf);
        Ok(())
    }

    fn write(&mut self, sector: u32, bytes: &[u8]) -> Result<(), Fault> {
        self.put(sector, bytes);
        Ok(())
    }

    fn barrier(&mut self) -> Result<(), Fault> {
        Ok(())
    }
}
