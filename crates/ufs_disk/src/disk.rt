ghost use Rattle.std.specs.Prelude.{◌≡◌, ◌<◌, ◌^◌, ◌/◌, ℕ, Bool, IsTrue, IfErr, List, length, OnOk};

/// A call of a disk failed. The number is the disk's count of faults after that call.
#[derive(Clone, Copy, Debug, PartialEq, Eq)]
pub struct Fault {
    pub number: u64,
}

/// A disk of sectors of 512 bytes. A sector is written whole or not at all. Until a barrier
/// succeeds, a crash leaves each sector, independently, with what it had at the last such barrier
/// or with any content that a write gave it since.
///
/// A call takes a range of sectors inside the disk: at least one sector, at most 4,096 bytes.
///
/// Every call may fail, and then the disk's count of faults rose by one in it. A call that passes
/// leaves the count. At 2^64 - 1 it stands still.
pub trait Disk {
    ghost use Rattle.ufs_disk.specs.Disk.{IsImage, IsPartlyWritten, IsRange, IsSettled, IsWhole};
    ghost use Rattle.ufs_disk.specs.Disk.{Mixes, bytes_from, overwritten};
    ghost use Rattle.ufs_disk.specs.Moments.{IsStill, LeavesOnly, Moments, reads};
    ghost use Rattle.ufs_base.specs.Faults.{HasCause};

    /// Whether contracts see what it holds and what a crash may leave.
    ghost visible: { Bool };

    /// Whether `moments` has each state that it was in, and not only the one that it is in.
    ghost keeps: { Bool };

    /// How many sectors it has.
    ghost size: { Self → ℕ };

    /// What it holds and what a crash may leave, now and at each moment before.
    ghost moments: { Self → Moments };

    /// How many of its calls have failed.
    ghost faults: { Self → ℕ };

    /// How many sectors it has.
    fn sectors(&self) -> u32
        ensures { result ≡ size self.now };

    /// Reads the sectors from `sector` on that fill `buf`. After a fault `buf` may hold anything.
    fn read(&mut self, sector: u32, buf: &mut [u8]) -> Result<(), Fault>
        requires { IsRange (size self.old) sector (length buf.old) }
        ensures bytes { IsTrue visible → OnOk result
            (buf.new ≡ bytes_from (reads (moments self.old)) sector (length buf.old / 512)) }
        ensures content { IsTrue visible → reads (moments self.new) ≡ reads (moments self.old) }

        // At no moment of the call a crash leaves what it might not have left before.
        ensures crash { IsTrue visible → LeavesOnly keeps (IsImage (moments self.old).state)
            (moments self.old) (moments self.new) }

        // The disk stays in the state that it was in.
        ensures still { IsTrue visible → IsStill keeps (moments self.old) (moments self.new) }
        ensures size { size self.new ≡ size self.old }
        ensures cause { HasCause (faults self.old) (faults self.new) result }
        ensures number { IfErr result (λ fault. fault.number ≡ faults self.new) };

    /// Writes the sectors from `sector` on. After a fault each of them has its new content or not.
    fn write(&mut self, sector: u32, bytes: &[u8]) -> Result<(), Fault>
        requires { IsRange (size self.old) sector (length bytes.now) }
        ensures ok { IsTrue visible → OnOk result
            (reads (moments self.new) ≡ overwritten sector bytes.now (reads (moments self.old))) }
        ensures content { IsTrue visible → Mixes (reads (moments self.old))
            (overwritten sector bytes.now (reads (moments self.old))) (reads (moments self.new)) }

        // At each moment of the call a crash leaves what it might have left before, with some of
        // the sectors written.
        ensures crash { IsTrue visible → LeavesOnly keeps
            (IsPartlyWritten sector bytes.now (moments self.old).state)
            (moments self.old) (moments self.new) }
        ensures size { size self.new ≡ size self.old }
        ensures cause { HasCause (faults self.old) (faults self.new) result }
        ensures number { IfErr result (λ fault. fault.number ≡ faults self.new) };

    /// Waits until all that was written is on the disk for good.
    fn barrier(&mut self) -> Result<(), Fault>
        ensures ok { IsTrue visible → OnOk result (IsSettled (moments self.new).state) }
        ensures content { IsTrue visible → reads (moments self.new) ≡ reads (moments self.old) }
        ensures crash { IsTrue visible → LeavesOnly keeps (IsImage (moments self.old).state)
            (moments self.old) (moments self.new) }
        ensures size { size self.new ≡ size self.old }
        ensures cause { HasCause (faults self.old) (faults self.new) result }
        ensures number { IfErr result (λ fault. fault.number ≡ faults self.new) };

    /// Its sectors' numbers are `u32`.
    ghost small: { (disk : Self) → size disk < 2 ^ 32 };

    /// Whatever a crash leaves in a sector is 512 bytes.
    ghost whole: { IsTrue visible → (disk : Self) → IsWhole (size disk) (moments disk).state };
}
