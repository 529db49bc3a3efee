// Two disks as one.
ghost use Rattle.std.specs.Prelude.{◌≡◌, ◌+◌, ◌-◌, ◌<◌, ◌^◌, ◌/◌, ◌&&◌, false, length, IfErr, IsTrue, OnErr, OnOk};
ghost use Rattle.ufs_base.specs.Faults.{HasCause, raised};
ghost use Rattle.ufs_disk.specs.Disk.{IsImage, IsPartlyWritten, IsRange, IsSettled, Mixes, bytes_from, overwritten};
ghost use Rattle.ufs_disk.specs.Moments.{IsStill, LeavesOnly, reads};
ghost use Rattle.ufs_mirror.specs.Failing.{FailedAll, HaveGrown, LetsGo};
ghost use Rattle.ufs_mirror.specs.Labelled.{IsFit};
ghost use Rattle.ufs_mirror.specs.Opens.{OpenRight};
ghost use Rattle.ufs_mirror.specs.Pairs.{Follows, watched, moments_of};
ghost use Rattle.ufs_mirror.specs.Props.{fit_prop};
ghost use Rattle.ufs_mirror.specs.declared.legs.Picks.{Picks};
ghost use Rattle.ufs_mirror.specs.declared.mirror.LiveLegs.{LiveLegs};

use crate::legs::Legs;
use crate::{Legpair, Picks};
use ufs_disk::{Disk, Fault};

/// Which legs are live.
#[derive(Clone, Copy, Debug, PartialEq, Eq)]
pub enum LiveLegs {
    Both,
    First,
    Second,
    Neither,
}

/// Two disks as one. It has one sector less than each of them: the last is its label.
#[derive(Drop)]
pub struct Mirror<A: Disk, B: Disk> {
    pub(crate) legs: Legs<A, B>,
    pub(crate) stopped: bool,
    pub(crate) generation: u64,
    pub(crate) faults: u64,
    pub(crate) sectors: u32,
    ghost small: { sectors < 2 ^ 32 - 1 },
    ghost first_sized: { A.size legs.both.first ≡ sectors + 1 },
    ghost second_sized: { B.size legs.both.second ≡ sectors + 1 },
    ghost room: { stopped ≡ false → legs.picks ≡ Picks.Either → generation < 2 ^ 64 - 1 },
    ghost fit: { IsTrue A.visible → IsTrue B.visible → IsFit sectors generation stopped
        (watched (λ l. A.moments l.first) (λ l. B.moments l.second) legs.log.items legs.both legs.picks).now } by { fit_prop _ _ _ _ _ _ },
    ghost right: { ∥ (IsTrue A.visible → IsTrue B.visible → OpenRight (A.keeps && B.keeps) sectors
        (watched (λ l. A.moments l.first) (λ l. B.moments l.second) legs.log.items legs.both legs.picks)) ∥₁ },
}

impl<A: Disk, B: Disk> Mirror<A, B> {
    /// Which legs are live: one is missing only where a write or a barrier of this mirror failed
    /// on it.
    pub fn live(&self) -> LiveLegs
        ensures neither { result ≡ LiveLegs.Neither → IsTrue self.now.stopped }
        ensures both { result ≡ LiveLegs.Both → self.now.legs.picks ≡ Picks.Either }
        ensures first { result ≡ LiveLegs.First → self.now.legs.picks ≡ Picks.First }
        ensures second { result ≡ LiveLegs.Second → self.now.legs.picks ≡ Picks.Second }

        // At each moment, whatever pair of images its legs may have left: where it opens, it opens
        // to an image of the mirror.
        ensures right { ∥ (IsTrue A.visible → IsTrue B.visible → OpenRight (A.keeps && B.keeps) self.now.sectors
            (watched (λ l. A.moments l.first) (λ l. B.moments l.second) self.now.legs.log.items self.now.legs.both self.now.legs.picks)) ∥₁ }
    {
        if self.stopped {
            return LiveLegs::Neither;
        }
        match self.legs.picks {
            Picks::Either => LiveLegs::Both,
            Picks::First => LiveLegs::First,
            Picks::Second => LiveLegs::Second,
        }
    }

    /// The legs.
    pub fn apart(self) -> Legpair<A, B>
        ensures { result ≡ self.legs.both }
    {
        let Mirror {
            legs,
            stopped: _,
            generation: _,
            faults: _,
            sectors: _,
        } = self;
        let Legs {
            both,
            picks: _,
            log: _,
            fault: _,
        } = legs;
        both
    }
}

// One fault more.
fn fault(faults: &mut u64) -> Fault
    ensures count { faults.new ≡ raised faults.old }
    ensures number { result.number ≡ faults.new }
{
    *faults = faults.saturating_add(1);
    Fault { number: *faults }
}

impl<A: Disk, B: Disk> Disk for Mirror<A, B> {
    ghost use Rattle.ufs_mirror.specs.Whole.{below_all, left_of, right_of, whole_of};

    ghost visible = { A.visible && B.visible };

    ghost keeps = { A.keeps && B.keeps };

    ghost size = { λ m. m.sectors };

    ghost moments = { λ m. moments_of m.sectors
        (watched (λ l. A.moments l.first) (λ l. B.moments l.second) m.legs.log.items m.legs.both m.legs.picks) };

    ghost faults = { λ m. m.faults };

    ghost small = { λ m. below_all m.small };

    ghost whole = { λ visible m. whole_of m.sectors (A.size m.legs.both.first) (B.size m.legs.both.second) (A.moments m.legs.both.first) (B.moments m.legs.both.second) m.legs.picks m.first_sized m.second_sized
        (A.whole (left_of A.visible B.visible visible) m.legs.both.first) (B.whole (right_of A.visible B.visible visible) m.legs.both.second) };

    fn sectors(&self) -> u32 {
        self.sectors
    }

    fn read(&mut self, sector: u32, buf: &mut [u8]) -> Result<(), Fault>
        requires { IsRange self.old.sectors sector (length buf.old) }
        ensures bytes { IsTrue (A.visible && B.visible) → OnOk result
            (buf.new ≡ bytes_from (reads (moments_of self.old.sectors (watched (λ l. A.moments l.first) (λ l. B.moments l.second) self.old.legs.log.items self.old.legs.both self.old.legs.picks))) sector (length buf.old / 512)) }
        ensures content { IsTrue (A.visible && B.visible) → reads (moments_of self.new.sectors (watched (λ l. A.moments l.first) (λ l. B.moments l.second) self.new.legs.log.items self.new.legs.both self.new.legs.picks)) ≡ reads (moments_of self.old.sectors (watched (λ l. A.moments l.first) (λ l. B.moments l.second) self.old.legs.log.items self.old.legs.both self.old.legs.picks)) }
        ensures crash { IsTrue (A.visible && B.visible) → LeavesOnly (A.keeps && B.keeps) (IsImage (moments_of self.old.sectors (watched (λ l. A.moments l.first) (λ l. B.moments l.second) self.old.legs.log.items self.old.legs.both self.old.legs.picks)).state)
            (moments_of self.old.sectors (watched (λ l. A.moments l.first) (λ l. B.moments l.second) self.old.legs.log.items self.old.legs.both self.old.legs.picks)) (moments_of self.new.sectors (watched (λ l. A.moments l.first) (λ l. B.moments l.second) self.new.legs.log.items self.new.legs.both self.new.legs.picks)) }
        ensures still { IsTrue (A.visible && B.visible) → IsStill (A.keeps && B.keeps) (moments_of self.old.sectors (watched (λ l. A.moments l.first) (λ l. B.moments l.second) self.old.legs.log.items self.old.legs.both self.old.legs.picks)) (moments_of self.new.sectors (watched (λ l. A.moments l.first) (λ l. B.moments l.second) self.new.legs.log.items self.new.legs.both self.new.legs.picks)) }
        ensures size { self.new.sectors ≡ self.old.sectors }
        ensures cause { HasCause self.old.faults self.new.faults result }
        ensures number { IfErr result (λ fault. fault.number ≡ self.new.faults) }

        // A fault is answered only where each live leg failed in this call, or none was live.
        ensures failed { OnErr result (self.old.stopped ≡ false → FailedAll self.old.legs.picks (A.faults self.old.legs.both.first) (A.faults self.new.legs.both.first) (B.faults self.old.legs.both.second) (B.faults self.new.legs.both.second)) }

        // No leg's count falls.
        ensures counts { HaveGrown (A.faults self.old.legs.both.first) (A.faults self.new.legs.both.first) (B.faults self.old.legs.both.second) (B.faults self.new.legs.both.second) }

        // Each moment that a leg was in is noted.
        ensures noted { IsTrue A.visible → IsTrue B.visible → Follows (A.keeps && B.keeps) (watched (λ l. A.moments l.first) (λ l. B.moments l.second) self.old.legs.log.items self.old.legs.both self.old.legs.picks) (watched (λ l. A.moments l.first) (λ l. B.moments l.second) self.new.legs.log.items self.new.legs.both self.new.legs.picks) }
        ensures live { (self.new.stopped ≡ self.old.stopped) × (self.new.legs.picks ≡ self.old.legs.picks) }
    {
        if self.stopped {
            return Err(fault(&mut self.faults));
        }
        if !self.legs.read(self.sectors, sector, buf) {
            return Err(fault(&mut self.faults));
        }
        Ok(())
    }

    fn write(&mut self, sector: u32, bytes: &[u8]) -> Result<(), Fault>
        requires { IsRange self.old.sectors sector (length bytes.now) }
        ensures ok { IsTrue (A.visible && B.visible) → OnOk result
            (reads (moments_of self.new.sectors (watched (λ l. A.moments l.first) (λ l. B.moments l.second) self.new.legs.log.items self.new.legs.both self.new.legs.picks)) ≡ overwritten sector bytes.now (reads (moments_of self.old.sectors (watched (λ l. A.moments l.first) (λ l. B.moments l.second) self.old.legs.log.items self.old.legs.both self.old.legs.picks)))) }
        ensures content { IsTrue (A.visible && B.visible) → Mixes (reads (moments_of self.old.sectors (watched (λ l. A.moments l.first) (λ l. B.moments l.second) self.old.legs.log.items self.old.legs.both self.old.legs.picks)))
            (overwritten sector bytes.now (reads (moments_of self.old.sectors (watched (λ l. A.moments l.first) (λ l. B.moments l.second) self.old.legs.log.items self.old.legs.both self.old.legs.picks)))) (reads (moments_of self.new.sectors (watched (λ l. A.moments l.first) (λ l. B.moments l.second) self.new.legs.log.items self.new.legs.both self.new.legs.picks))) }
        ensures crash { IsTrue (A.visible && B.visible) → LeavesOnly (A.keeps && B.keeps)
            (IsPartlyWritten sector bytes.now (moments_of self.old.sectors (watched (λ l. A.moments l.first) (λ l. B.moments l.second) self.old.legs.log.items self.old.legs.both self.old.legs.picks)).state)
            (moments_of self.old.sectors (watched (λ l. A.moments l.first) (λ l. B.moments l.second) self.old.legs.log.items self.old.legs.both self.old.legs.picks)) (moments_of self.new.sectors (watched (λ l. A.moments l.first) (λ l. B.moments l.second) self.new.legs.log.items self.new.legs.both self.new.legs.picks)) }
        ensures size { self.new.sectors ≡ self.old.sectors }
        ensures cause { HasCause self.old.faults self.new.faults result }
        ensures number { IfErr result (λ fault. fault.number ≡ self.new.faults) }

        // A fault is answered only where each live leg failed in this call, or none was live.
        ensures failed { OnErr result (self.old.stopped ≡ false → FailedAll self.old.legs.picks (A.faults self.old.legs.both.first) (A.faults self.new.legs.both.first) (B.faults self.old.legs.both.second) (B.faults self.new.legs.both.second)) }

        // No leg's count falls.
        ensures counts { HaveGrown (A.faults self.old.legs.both.first) (A.faults self.new.legs.both.first) (B.faults self.old.legs.both.second) (B.faults self.new.legs.both.second) }

        // Each moment that a leg was in is noted.
        ensures noted { IsTrue A.visible → IsTrue B.visible → Follows (A.keeps && B.keeps) (watched (λ l. A.moments l.first) (λ l. B.moments l.second) self.old.legs.log.items self.old.legs.both self.old.legs.picks) (watched (λ l. A.moments l.first) (λ l. B.moments l.second) self.new.legs.log.items self.new.legs.both self.new.legs.picks) }

        // A leg is let go only where it failed. After a fault none is live.
        ensures live { OnOk result ((self.new.stopped ≡ false) × LetsGo self.new.legs.picks self.old.legs.picks (A.faults self.old.legs.both.first) (A.faults self.new.legs.both.first) (B.faults self.old.legs.both.second) (B.faults self.new.legs.both.second)) }
        ensures stopped { OnErr result (IsTrue self.new.stopped) }
    {
        if self.stopped {
            return Err(fault(&mut self.faults));
        }
        if !self
            .legs
            .write(self.sectors, &mut self.generation, sector, bytes)
        {
            self.stopped = true;
            return Err(fault(&mut self.faults));
        }
        Ok(())
    }

    fn barrier(&mut self) -> Result<(), Fault>
        ensures ok { IsTrue (A.visible && B.visible) → OnOk result (IsSettled (moments_of self.new.sectors (watched (λ l. A.moments l.first) (λ l. B.moments l.second) self.new.legs.log.items self.new.legs.both self.new.legs.picks)).state) }
        ensures content { IsTrue (A.visible && B.visible) → reads (moments_of self.new.sectors (watched (λ l. A.moments l.first) (λ l. B.moments l.second) self.new.legs.log.items self.new.legs.both self.new.legs.picks)) ≡ reads (moments_of self.old.sectors (watched (λ l. A.moments l.first) (λ l. B.moments l.second) self.old.legs.log.items self.old.legs.both self.old.legs.picks)) }
        ensures crash { IsTrue (A.visible && B.visible) → LeavesOnly (A.keeps && B.keeps) (IsImage (moments_of self.old.sectors (watched (λ l. A.moments l.first) (λ l. B.moments l.second) self.old.legs.log.items self.old.legs.both self.old.legs.picks)).state)
            (moments_of self.old.sectors (watched (λ l. A.moments l.first) (λ l. B.moments l.second) self.old.legs.log.items self.old.legs.both self.old.legs.picks)) (moments_of self.new.sectors (watched (λ l. A.moments l.first) (λ l. B.moments l.second) self.new.legs.log.items self.new.legs.both self.new.legs.picks)) }
        ensures size { self.new.sectors ≡ self.old.sectors }
        ensures cause { HasCause self.old.faults self.new.faults result }
        ensures number { IfErr result (λ fault. fault.number ≡ self.new.faults) }

        // A fault is answered only where each live leg failed in this call, or none was live.
        ensures failed { OnErr result (self.old.stopped ≡ false → FailedAll self.old.legs.picks (A.faults self.old.legs.both.first) (A.faults self.new.legs.both.first) (B.faults self.old.legs.both.second) (B.faults self.new.legs.both.second)) }

        // No leg's count falls.
        ensures counts { HaveGrown (A.faults self.old.legs.both.first) (A.faults self.new.legs.both.first) (B.faults self.old.legs.both.second) (B.faults self.new.legs.both.second) }

        // Each moment that a leg was in is noted.
        ensures noted { IsTrue A.visible → IsTrue B.visible → Follows (A.keeps && B.keeps) (watched (λ l. A.moments l.first) (λ l. B.moments l.second) self.old.legs.log.items self.old.legs.both self.old.legs.picks) (watched (λ l. A.moments l.first) (λ l. B.moments l.second) self.new.legs.log.items self.new.legs.both self.new.legs.picks) }

        // A leg is let go only where it failed. After a fault none is live.
        ensures live { OnOk result ((self.new.stopped ≡ false) × LetsGo self.new.legs.picks self.old.legs.picks (A.faults self.old.legs.both.first) (A.faults self.new.legs.both.first) (B.faults self.old.legs.both.second) (B.faults self.new.legs.both.second)) }
        ensures stopped { OnErr result (IsTrue self.new.stopped) }
    {
        if self.stopped {
            return Err(fault(&mut self.faults));
        }
        if !self.legs.barrier(self.sectors, &mut self.generation) {
            self.stopped = true;
            return Err(fault(&mut self.faults));
        }
        Ok(())
    }
}
