// Disks in memory of whose calls those of a plan fail.
ghost use Rattle.std.specs.Prelude.{◌≡◌, ◌≤◌, ◌<◌, ◌*◌, ◌^◌, ◌/◌, [], length};
ghost use Rattle.std.specs.Prelude.{true, false, ℕ, IsTrue, IfOk, IfErr, OnOk, OnErr, Contains};
ghost use Rattle.ufs_base.specs.Faults.{HasCause};
ghost use Rattle.ufs_disk.specs.Disk.{IsImage, IsPartlyWritten, IsRange, IsSettled, Mixes, bytes_from, overwritten};
ghost use Rattle.ufs_disk.specs.Moments.{IsStill, LeavesOnly};
ghost use Rattle.ufs_disk.specs.Bytes.{begun, image_of};
ghost use Rattle.ufs_disk.specs.Calls.{Notes, IsWrite, picked};
ghost use Rattle.ufs_disk.specs.Medium.{medium_moments, medium_reads, medium_state, next_call};
ghost use Rattle.ufs_disk.specs.declared.medium.Request.{Request};

use crate::{Disk, Fault, Medium};
use std::alloc::{AllocError, Global};

/// Which calls of a disk are to fail, by their numbers from 0 on.
pub trait Plan {
    /// The call with this number is to fail.
    ghost stops: { Self → ℕ → Type 0 };

    fn must_fail(&self, call: u64) -> bool
        ensures yes { IsTrue result → stops self.now call }
        ensures no { result ≡ false → ¬ stops self.now call };
}

// Those in a list, in any order. Each call looks through the list.
impl Plan for Vec<u64> {
    ghost stops = { λ list call. Contains list.items call };

    fn must_fail(&self, call: u64) -> bool {
        self.contains(&call)
    }
}

/// All calls but the first so many.
#[derive(Clone, Copy, Debug, PartialEq, Eq)]
pub struct Fuse {
    pub passes: u64,
}

impl Plan for Fuse {
    ghost stops = { λ fuse call. fuse.passes ≤ call };

    fn must_fail(&self, call: u64) -> bool {
        self.passes <= call
    }
}

/// A disk in memory, of whose calls those of a plan fail. A call that fails changes no sector. Want
/// of memory to note a call is a fault too, and then it isn't noted.
#[derive(Drop)]
pub struct PlannedDisk<P> {
    pub medium: Medium,
    pub plan: P,
}

/// A disk in memory with a list of the calls that fail.
pub type MemoryDisk = PlannedDisk<Vec<u64>>;

/// A disk in memory that passes so many calls, and then fails every call.
pub type FuseDisk = PlannedDisk<Fuse>;

impl<P: Plan + Drop> PlannedDisk<P> {
    /// A disk with these bytes, all of them on it for good.
    pub fn new(
        alloc: Global,
        sectors: u32,
        bytes: Vec<u8>,
        plan: P,
    ) -> Result<PlannedDisk<P>, AllocError>
        requires { length bytes.items ≡ 512 * sectors }
        ensures moments { IfOk result (λ disk. medium_moments disk.medium ≡ begun bytes.items) }
        ensures calls { IfOk result (λ disk. disk.medium.calls.items ≡ []) }
        ensures plan { IfOk result (λ disk. disk.plan ≡ plan) }
        ensures sectors { IfOk result (λ disk. disk.medium.sectors ≡ sectors) }
        ensures faults { IfOk result (λ disk. disk.medium.faults ≡ 0) }
        ensures starved { IfOk result (λ disk. disk.medium.starved ≡ 0) }
    {
        Ok(PlannedDisk {
            medium: Medium::new(alloc, sectors, bytes)?,
            plan,
        })
    }

    /// The image that `pick` names, of those that a crash now may leave: in rising sector order it
    /// takes of the sector's possible contents, oldest first, the one numbered `pick` modulo their
    /// number, and goes on with `pick` divided by it.
    pub fn crash(self, pick: u64) -> Result<Vec<u8>, AllocError>
        ensures picked { IfOk result
            (λ image. image.items ≡ picked (medium_state self.medium) pick 0 self.medium.sectors) }
        ensures image { IfOk result
            (λ image. IsImage (medium_state self.medium) (image_of image.items)) }
    {
        self.medium.crash(pick)
    }

    // Whether the next call is to fail.
    fn must_fail(&self) -> bool
        ensures yes { IsTrue result → P.stops self.now.plan (next_call self.now.medium) }
        ensures no { result ≡ false → ¬ P.stops self.now.plan (next_call self.now.medium) }
    {
        self.plan.must_fail(self.medium.calls.len() as u64)
    }
}

impl<P: Plan + Drop> Disk for PlannedDisk<P> {
    ghost visible = { true };

    ghost keeps = { true };

    ghost size = { λ d. d.medium.sectors };

    ghost moments = { λ d. medium_moments d.medium };

    ghost faults = { λ d. d.medium.faults };

    ghost small = { λ d. d.medium.in_range };

    ghost whole = { λ visible d. d.medium.whole };

    fn sectors(&self) -> u32 {
        self.medium.sectors
    }

    fn read(&mut self, sector: u32, buf: &mut [u8]) -> Result<(), Fault>
        requires { IsRange self.old.medium.sectors sector (length buf.old) }
        ensures bytes { OnOk result
            (buf.new ≡ bytes_from (medium_reads self.old.medium) sector (length buf.old / 512)) }
        ensures buf { OnErr result (buf.new ≡ buf.old) }
        ensures content { medium_reads self.new.medium ≡ medium_reads self.old.medium }
        ensures crash { LeavesOnly true (IsImage (medium_state self.old.medium))
            (medium_moments self.old.medium) (medium_moments self.new.medium) }
        ensures still { IsStill true
            (medium_moments self.old.medium) (medium_moments self.new.medium) }
        ensures noted { Notes (¬ P.stops self.old.plan (next_call self.old.medium))
            (P.stops self.old.plan (next_call self.old.medium))
            (λ request. request ≡ Request.Read sector (length buf.old))
            self.old.medium.calls.items self.new.medium.calls.items
            self.old.medium.starved self.new.medium.starved result }
        ensures plan { self.new.plan ≡ self.old.plan }
        ensures first { self.new.medium.first ≡ self.old.medium.first }
        ensures size { self.new.medium.sectors ≡ self.old.medium.sectors }
        ensures cause { HasCause self.old.medium.faults self.new.medium.faults result }
        ensures number { IfErr result (λ fault. fault.number ≡ self.new.medium.faults) }
    {
        let fails = self.must_fail();
        self.medium.read(fails, sector, buf)
    }

    fn write(&mut self, sector: u32, bytes: &[u8]) -> Result<(), Fault>
        requires { IsRange self.old.medium.sectors sector (length bytes.now) }
        ensures ok { OnOk result
            (medium_reads self.new.medium
            ≡ overwritten sector bytes.now (medium_reads self.old.medium)) }
        ensures err { OnErr result
            (medium_moments self.new.medium ≡ medium_moments self.old.medium) }
        ensures content { Mixes (medium_reads self.old.medium)
            (overwritten sector bytes.now (medium_reads self.old.medium))
            (medium_reads self.new.medium) }
        ensures crash { LeavesOnly true
            (IsPartlyWritten sector bytes.now (medium_state self.old.medium))
            (medium_moments self.old.medium) (medium_moments self.new.medium) }
        ensures noted { Notes (¬ P.stops self.old.plan (next_call self.old.medium))
            (P.stops self.old.plan (next_call self.old.medium))
            (IsWrite sector bytes.now)
            self.old.medium.calls.items self.new.medium.calls.items
            self.old.medium.starved self.new.medium.starved result }
        ensures plan { self.new.plan ≡ self.old.plan }
        ensures first { self.new.medium.first ≡ self.old.medium.first }
        ensures size { self.new.medium.sectors ≡ self.old.medium.sectors }
        ensures cause { HasCause self.old.medium.faults self.new.medium.faults result }
        ensures number { IfErr result (λ fault. fault.number ≡ self.new.medium.faults) }
    {
        let fails = self.must_fail();
        self.medium.write(fails, sector, bytes)
    }

    fn barrier(&mut self) -> Result<(), Fault>
        ensures ok { OnOk result (IsSettled (medium_state self.new.medium)) }
        ensures err { OnErr result
            (medium_moments self.new.medium ≡ medium_moments self.old.medium) }
        ensures content { medium_reads self.new.medium ≡ medium_reads self.old.medium }
        ensures crash { LeavesOnly true (IsImage (medium_state self.old.medium))
            (medium_moments self.old.medium) (medium_moments self.new.medium) }
        ensures noted { Notes (¬ P.stops self.old.plan (next_call self.old.medium))
            (P.stops self.old.plan (next_call self.old.medium))
            (λ request. request ≡ Request.Barrier)
            self.old.medium.calls.items self.new.medium.calls.items
            self.old.medium.starved self.new.medium.starved result }
        ensures plan { self.new.plan ≡ self.old.plan }
        ensures first { self.new.medium.first ≡ self.old.medium.first }
        ensures size { self.new.medium.sectors ≡ self.old.medium.sectors }
        ensures cause { HasCause self.old.medium.faults self.new.medium.faults result }
        ensures number { IfErr result (λ fault. fault.number ≡ self.new.medium.faults) }
    {
        let fails = self.must_fail();
        self.medium.barrier(fails)
    }
}
