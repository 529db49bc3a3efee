// How two legs get the next generation.
ghost use Rattle.std.specs.Prelude.{◌≡◌, ◌≢◌, ◌⊎◌, ◌+◌, ◌-◌, ◌≤◌, ◌<◌, ◌^◌, ◌&&◌, false, IfErr, IfOk, IsTrue, OnErr, OnOk, ℕ};
ghost use Rattle.ufs_base.specs.Faults.{RoseTo, raised};
ghost use Rattle.ufs_disk.specs.Disk.{IsImage, IsSettled};
ghost use Rattle.ufs_disk.specs.Moments.{reads};
ghost use Rattle.ufs_mirror.specs.Calls.{Counts, IsSame};
ghost use Rattle.ufs_mirror.specs.Joined.{FirstMaySay, Goes, IsCalm, IsFirstAt, IsLegFault, IsSecondAt, SecondMaySay, next_generation};
ghost use Rattle.ufs_mirror.specs.declared.fault.MirrorFault.{MirrorFault};
ghost use Rattle.ufs_mirror.specs.Labels.{generation};
ghost use Rattle.ufs_mirror.specs.Labelled.{IsAlike, IsLabelled, IsMoment};
ghost use Rattle.ufs_mirror.specs.Pairs.{Runs, state_of, watched};
ghost use Rattle.ufs_mirror.specs.declared.legs.Picks.{Picks};

use crate::copying::Copied;
use crate::label::{greater_of, label, next_generation};
use crate::legs::Legs;
use crate::{MirrorFault, Picks};
use ufs_disk::Disk;

impl<A: Disk, B: Disk> Legs<A, B> {
    // Gives the first leg's label a generation, for good.
    pub(crate) fn label_first(&mut self, sectors: u32, number: u64) -> bool
        requires first_sized { A.size self.old.both.first ≡ sectors + 1 }
        ensures picks { self.new.picks ≡ self.old.picks }
        ensures second { self.new.both.second ≡ self.old.both.second }
        ensures first_sized { A.size self.new.both.first ≡ A.size self.old.both.first }
        ensures reads { IsTrue A.visible → IsSame sectors (reads (A.moments self.old.both.first)) (reads (A.moments self.new.both.first)) }
        ensures label { IsTrue A.visible → IsTrue result → generation (reads (A.moments self.new.both.first) sectors) ≡ number }
        ensures settled { IsTrue A.visible → IsTrue result → IsSettled (A.moments self.new.both.first).state }
        ensures counts { Counts (A.faults self.old.both.first) (A.faults self.new.both.first) result }
        ensures fault { result ≡ false → self.new.fault ≡ A.faults self.new.both.first }
        ensures runs { (bound : ℕ) → FirstMaySay bound self.old.picks number → IsTrue A.visible → IsTrue B.visible → IsLabelled sectors bound (watched (λ l. A.moments l.first) (λ l. B.moments l.second) self.old.log.items self.old.both self.old.picks).now
            → Runs (A.keeps && B.keeps) (IsMoment sectors bound (IsImage (state_of sectors (watched (λ l. A.moments l.first) (λ l. B.moments l.second) self.old.log.items self.old.both self.old.picks).now))) (watched (λ l. A.moments l.first) (λ l. B.moments l.second) self.old.log.items self.old.both self.old.picks) (watched (λ l. A.moments l.first) (λ l. B.moments l.second) self.new.log.items self.new.both self.new.picks) }
    {
        if !self.write_first(sectors, &label(number)) {
            return false;
        }
        self.barrier_first()
    }

    // Why the legs make no mirror, after a call of a leg failed.
    pub(crate) fn refusal(&self) -> MirrorFault
        ensures { result ≡ MirrorFault.Device self.now.fault }
    {
        MirrorFault::Device { fault: self.fault }
    }

    // Gives both legs the next generation: they are alike, and the first was picked.
    fn renew_first(&mut self, sectors: u32, number: u64) -> Result<u64, MirrorFault>
        requires either { self.old.picks ≡ Picks.Either }
        requires first_sized { A.size self.old.both.first ≡ sectors + 1 }
        requires second_sized { B.size self.old.both.second ≡ sectors + 1 }
        ensures first_sized { A.size self.new.both.first ≡ A.size self.old.both.first }
        ensures second_sized { B.size self.new.both.second ≡ B.size self.old.both.second }
        ensures live { OnOk result (self.new.picks ≢ Picks.Second) }
        ensures some { IfOk result (λ n. 0 < n) }
        ensures room { IfOk result (λ n. self.new.picks ≡ Picks.Either → n < 2 ^ 64 - 1) }
        ensures first { IsTrue A.visible → IsTrue B.visible → OnOk result (IsSame sectors (reads (A.moments self.old.both.first)) (reads (A.moments self.new.both.first))) }
        ensures second { IsTrue A.visible → IsTrue B.visible → OnOk result (IsSame sectors (reads (B.moments self.old.both.second)) (reads (B.moments self.new.both.second))) }
        ensures first_settled { IsTrue A.visible → IsTrue B.visible → OnOk result (IsSettled (A.moments self.new.both.first).state) }
        ensures second_settled { IsTrue A.visible → IsTrue B.visible → OnOk result (self.new.picks ≡ Picks.Either → IsSettled (B.moments self.new.both.second).state) }
        ensures labels { IsTrue A.visible → IsTrue B.visible → IfOk result (λ n. self.new.picks ≡ Picks.Either
            → (n ≡ next_generation number) × (generation (reads (A.moments self.new.both.first) sectors) ≡ n) × (generation (reads (B.moments self.new.both.second) sectors) ≡ n)) }
        ensures counts { OnOk result (Goes (self.new.picks ≡ Picks.Either) (A.faults self.old.both.first) (A.faults self.new.both.first) (B.faults self.old.both.second) (B.faults self.new.both.second)) }
        ensures refused { IfErr result (IsLegFault number (A.faults self.old.both.first) (A.faults self.new.both.first) (B.faults self.old.both.second) (B.faults self.new.both.second)) }
        ensures labelled { IsTrue A.visible → IsTrue B.visible → IsLabelled sectors number (watched (λ l. A.moments l.first) (λ l. B.moments l.second) self.old.log.items self.old.both self.old.picks).now → IfOk result (λ n. IsLabelled sectors n (watched (λ l. A.moments l.first) (λ l. B.moments l.second) self.new.log.items self.new.both self.new.picks).now) }
        ensures runs { IsTrue A.visible → IsTrue B.visible → IsLabelled sectors number (watched (λ l. A.moments l.first) (λ l. B.moments l.second) self.old.log.items self.old.both self.old.picks).now
            → Runs (A.keeps && B.keeps) (IsCalm sectors (IsImage (state_of sectors (watched (λ l. A.moments l.first) (λ l. B.moments l.second) self.old.log.items self.old.both self.old.picks).now))) (watched (λ l. A.moments l.first) (λ l. B.moments l.second) self.old.log.items self.old.both self.old.picks) (watched (λ l. A.moments l.first) (λ l. B.moments l.second) self.new.log.items self.new.both self.new.picks) }
    {
        let next = next_generation(number);
        if !self.label_first(sectors, next) {
            return Err(self.refusal());
        }
        if self.label_second(sectors, next) {
            return Ok(next);
        }
        let mut most = greater_of(number, next);
        if most == u64::MAX {
            return Err(self.refusal());
        }
        if !self.lone_first(sectors, &mut most) {
            return Err(self.refusal());
        }
        Ok(most)
    }

    // Goes on with the first leg alone, which alone may be picked: the second failed.
    fn leave_second(&mut self, sectors: u32, number: u64) -> Result<u64, MirrorFault>
        requires alone { self.old.picks ≡ Picks.First }
        requires failed { self.old.fault ≡ B.faults self.old.both.second }
        requires first_sized { A.size self.old.both.first ≡ sectors + 1 }
        requires second_sized { B.size self.old.both.second ≡ sectors + 1 }
        ensures first_sized { A.size self.new.both.first ≡ A.size self.old.both.first }
        ensures second { self.new.both.second ≡ self.old.both.second }
        ensures some { IfOk result (λ n. 0 < n) }
        ensures picks { self.new.picks ≡ self.old.picks }
        ensures first { IsTrue A.visible → IsTrue B.visible → OnOk result (IsSame sectors (reads (A.moments self.old.both.first)) (reads (A.moments self.new.both.first))) }
        ensures first_settled { IsTrue A.visible → IsTrue B.visible → OnOk result (IsSettled (A.moments self.new.both.first).state) }
        ensures counts { OnOk result (A.faults self.new.both.first ≡ A.faults self.old.both.first) }
        ensures refused { IfErr result (λ fault. ((number ≡ 2 ^ 64 - 1) × (A.faults self.new.both.first ≡ A.faults self.old.both.first) × (fault ≡ MirrorFault.Device (B.faults self.new.both.second)))
            ⊎ ((A.faults self.new.both.first ≡ raised (A.faults self.old.both.first)) × (fault ≡ MirrorFault.Device (A.faults self.new.both.first)))) }
        ensures labelled { IsTrue A.visible → IsTrue B.visible → IsLabelled sectors number (watched (λ l. A.moments l.first) (λ l. B.moments l.second) self.old.log.items self.old.both self.old.picks).now → IfOk result (λ n. IsLabelled sectors n (watched (λ l. A.moments l.first) (λ l. B.moments l.second) self.new.log.items self.new.both self.new.picks).now) }
        ensures runs { IsTrue A.visible → IsTrue B.visible → IsLabelled sectors number (watched (λ l. A.moments l.first) (λ l. B.moments l.second) self.old.log.items self.old.both self.old.picks).now
            → Runs (A.keeps && B.keeps) (IsCalm sectors (IsImage (state_of sectors (watched (λ l. A.moments l.first) (λ l. B.moments l.second) self.old.log.items self.old.both self.old.picks).now))) (watched (λ l. A.moments l.first) (λ l. B.moments l.second) self.old.log.items self.old.both self.old.picks) (watched (λ l. A.moments l.first) (λ l. B.moments l.second) self.new.log.items self.new.both self.new.picks) }
    {
        let Some(next) = number.checked_add(1) else {
            return Err(self.refusal());
        };
        if !self.label_first(sectors, next) {
            return Err(self.refusal());
        }
        Ok(next)
    }

    // Makes the second leg like the first, which alone may be picked, and gives both the next
    // generation. A second leg that fails is let go.
    pub(crate) fn join_second(&mut self, sectors: u32, number: u64) -> Result<u64, MirrorFault>
        requires alone { self.old.picks ≡ Picks.First }
        requires first_sized { A.size self.old.both.first ≡ sectors + 1 }
        requires second_sized { B.size self.old.both.second ≡ sectors + 1 }
        ensures first_sized { A.size self.new.both.first ≡ A.size self.old.both.first }
        ensures second_sized { B.size self.new.both.second ≡ B.size self.old.both.second }
        ensures live { OnOk result (self.new.picks ≢ Picks.Second) }
        ensures some { IfOk result (λ n. 0 < n) }
        ensures room { IfOk result (λ n. self.new.picks ≡ Picks.Either → n < 2 ^ 64 - 1) }
        ensures first { IsTrue A.visible → IsTrue B.visible → OnOk result (IsSame sectors (reads (A.moments self.old.both.first)) (reads (A.moments self.new.both.first))) }
        ensures alike { IsTrue A.visible → IsTrue B.visible → OnOk result (self.new.picks ≡ Picks.Either → IsAlike sectors (watched (λ l. A.moments l.first) (λ l. B.moments l.second) self.new.log.items self.new.both self.new.picks).now) }
        ensures first_settled { IsTrue A.visible → IsTrue B.visible → OnOk result (IsSettled (A.moments self.new.both.first).state) }
        ensures second_settled { IsTrue A.visible → IsTrue B.visible → OnOk result (self.new.picks ≡ Picks.Either → IsSettled (B.moments self.new.both.second).state) }
        ensures labels { IsTrue A.visible → IsTrue B.visible → IfOk result (λ n. self.new.picks ≡ Picks.Either
            → (n ≡ next_generation number) × (generation (reads (A.moments self.new.both.first) sectors) ≡ n) × (generation (reads (B.moments self.new.both.second) sectors) ≡ n)) }
        ensures counts { OnOk result (Goes (self.new.picks ≡ Picks.Either) (A.faults self.old.both.first) (A.faults self.new.both.first) (B.faults self.old.both.second) (B.faults self.new.both.second)) }
        ensures refused { IfErr result (IsLegFault number (A.faults self.old.both.first) (A.faults self.new.both.first) (B.faults self.old.both.second) (B.faults self.new.both.second)) }
        ensures labelled { IsTrue A.visible → IsTrue B.visible → IsFirstAt sectors number (watched (λ l. A.moments l.first) (λ l. B.moments l.second) self.old.log.items self.old.both self.old.picks).now → IfOk result (λ n. IsLabelled sectors n (watched (λ l. A.moments l.first) (λ l. B.moments l.second) self.new.log.items self.new.both self.new.picks).now) }
        ensures runs { IsTrue A.visible → IsTrue B.visible → IsFirstAt sectors number (watched (λ l. A.moments l.first) (λ l. B.moments l.second) self.old.log.items self.old.both self.old.picks).now
            → Runs (A.keeps && B.keeps) (IsCalm sectors (IsImage (state_of sectors (watched (λ l. A.moments l.first) (λ l. B.moments l.second) self.old.log.items self.old.both self.old.picks).now))) (watched (λ l. A.moments l.first) (λ l. B.moments l.second) self.old.log.items self.old.both self.old.picks) (watched (λ l. A.moments l.first) (λ l. B.moments l.second) self.new.log.items self.new.both self.new.picks) }
    {
        match self.copy_all_to_second(sectors) {
            Copied::Unread => Err(self.refusal()),
            Copied::Unwritten => self.leave_second(sectors, number),
            Copied::Whole => {
                self.tell(Picks::Either);
                self.renew_first(sectors, number)
            }
        }
    }

    // Gives the second leg's label a generation, for good.
    pub(crate) fn label_second(&mut self, sectors: u32, number: u64) -> bool
        requires second_sized { B.size self.old.both.second ≡ sectors + 1 }
        ensures picks { self.new.picks ≡ self.old.picks }
        ensures first { self.new.both.first ≡ self.old.both.first }
        ensures second_sized { B.size self.new.both.second ≡ B.size self.old.both.second }
        ensures reads { IsTrue B.visible → IsSame sectors (reads (B.moments self.old.both.second)) (reads (B.moments self.new.both.second)) }
        ensures label { IsTrue B.visible → IsTrue result → generation (reads (B.moments self.new.both.second) sectors) ≡ number }
        ensures settled { IsTrue B.visible → IsTrue result → IsSettled (B.moments self.new.both.second).state }
        ensures counts { Counts (B.faults self.old.both.second) (B.faults self.new.both.second) result }
        ensures fault { result ≡ false → self.new.fault ≡ B.faults self.new.both.second }
        ensures runs { (bound : ℕ) → SecondMaySay bound self.old.picks number → IsTrue A.visible → IsTrue B.visible → IsLabelled sectors bound (watched (λ l. A.moments l.first) (λ l. B.moments l.second) self.old.log.items self.old.both self.old.picks).now
            → Runs (A.keeps && B.keeps) (IsMoment sectors bound (IsImage (state_of sectors (watched (λ l. A.moments l.first) (λ l. B.moments l.second) self.old.log.items self.old.both self.old.picks).now))) (watched (λ l. A.moments l.first) (λ l. B.moments l.second) self.old.log.items self.old.both self.old.picks) (watched (λ l. A.moments l.first) (λ l. B.moments l.second) self.new.log.items self.new.both self.new.picks) }
    {
        if !self.write_second(sectors, &label(number)) {
            return false;
        }
        self.barrier_second()
    }

    // Gives both legs the next generation: they are alike, and the second was picked.
    fn renew_second(&mut self, sectors: u32, number: u64) -> Result<u64, MirrorFault>
        requires either { self.old.picks ≡ Picks.Either }
        requires second_sized { B.size self.old.both.second ≡ sectors + 1 }
        requires first_sized { A.size self.old.both.first ≡ sectors + 1 }
        ensures second_sized { B.size self.new.both.second ≡ B.size self.old.both.second }
        ensures first_sized { A.size self.new.both.first ≡ A.size self.old.both.first }
        ensures live { OnOk result (self.new.picks ≢ Picks.First) }
        ensures some { IfOk result (λ n. 0 < n) }
        ensures room { IfOk result (λ n. self.new.picks ≡ Picks.Either → n < 2 ^ 64 - 1) }
        ensures second { IsTrue A.visible → IsTrue B.visible → OnOk result (IsSame sectors (reads (B.moments self.old.both.second)) (reads (B.moments self.new.both.second))) }
        ensures first { IsTrue A.visible → IsTrue B.visible → OnOk result (IsSame sectors (reads (A.moments self.old.both.first)) (reads (A.moments self.new.both.first))) }
        ensures second_settled { IsTrue A.visible → IsTrue B.visible → OnOk result (IsSettled (B.moments self.new.both.second).state) }
        ensures first_settled { IsTrue A.visible → IsTrue B.visible → OnOk result (self.new.picks ≡ Picks.Either → IsSettled (A.moments self.new.both.first).state) }
        ensures labels { IsTrue A.visible → IsTrue B.visible → IfOk result (λ n. self.new.picks ≡ Picks.Either
            → (n ≡ next_generation number) × (generation (reads (B.moments self.new.both.second) sectors) ≡ n) × (generation (reads (A.moments self.new.both.first) sectors) ≡ n)) }
        ensures counts { OnOk result (Goes (self.new.picks ≡ Picks.Either) (B.faults self.old.both.second) (B.faults self.new.both.second) (A.faults self.old.both.first) (A.faults self.new.both.first)) }
        ensures refused { IfErr result (IsLegFault number (B.faults self.old.both.second) (B.faults self.new.both.second) (A.faults self.old.both.first) (A.faults self.new.both.first)) }
        ensures labelled { IsTrue A.visible → IsTrue B.visible → IsLabelled sectors number (watched (λ l. A.moments l.first) (λ l. B.moments l.second) self.old.log.items self.old.both self.old.picks).now → IfOk result (λ n. IsLabelled sectors n (watched (λ l. A.moments l.first) (λ l. B.moments l.second) self.new.log.items self.new.both self.new.picks).now) }
        ensures runs { IsTrue A.visible → IsTrue B.visible → IsLabelled sectors number (watched (λ l. A.moments l.first) (λ l. B.moments l.second) self.old.log.items self.old.both self.old.picks).now
            → Runs (A.keeps && B.keeps) (IsCalm sectors (IsImage (state_of sectors (watched (λ l. A.moments l.first) (λ l. B.moments l.second) self.old.log.items self.old.both self.old.picks).now))) (watched (λ l. A.moments l.first) (λ l. B.moments l.second) self.old.log.items self.old.both self.old.picks) (watched (λ l. A.moments l.first) (λ l. B.moments l.second) self.new.log.items self.new.both self.new.picks) }
    {
        let next = next_generation(number);
        if !self.label_second(sectors, next) {
            return Err(self.refusal());
        }
        if self.label_first(sectors, next) {
            return Ok(next);
        }
        let mut most = greater_of(number, next);
        if most == u64::MAX {
            return Err(self.refusal());
        }
        if !self.lone_second(sectors, &mut most) {
            return Err(self.refusal());
        }
        Ok(most)
    }

    // Goes on with the second leg alone, which alone may be picked: the first failed.
    fn leave_first(&mut self, sectors: u32, number: u64) -> Result<u64, MirrorFault>
        requires alone { self.old.picks ≡ Picks.Second }
        requires failed { self.old.fault ≡ A.faults self.old.both.first }
        requires second_sized { B.size self.old.both.second ≡ sectors + 1 }
        requires first_sized { A.size self.old.both.first ≡ sectors + 1 }
        ensures second_sized { B.size self.new.both.second ≡ B.size self.old.both.second }
        ensures first { self.new.both.first ≡ self.old.both.first }
        ensures some { IfOk result (λ n. 0 < n) }
        ensures picks { self.new.picks ≡ self.old.picks }
        ensures second { IsTrue A.visible → IsTrue B.visible → OnOk result (IsSame sectors (reads (B.moments self.old.both.second)) (reads (B.moments self.new.both.second))) }
        ensures second_settled { IsTrue A.visible → IsTrue B.visible → OnOk result (IsSettled (B.moments self.new.both.second).state) }
        ensures counts { OnOk result (B.faults self.new.both.second ≡ B.faults self.old.both.second) }
        ensures refused { IfErr result (λ fault. ((number ≡ 2 ^ 64 - 1) × (B.faults self.new.both.second ≡ B.faults self.old.both.second) × (fault ≡ MirrorFault.Device (A.faults self.new.both.first)))
            ⊎ ((B.faults self.new.both.second ≡ raised (B.faults self.old.both.second)) × (fault ≡ MirrorFault.Device (B.faults self.new.both.second)))) }
        ensures labelled { IsTrue A.visible → IsTrue B.visible → IsLabelled sectors number (watched (λ l. A.moments l.first) (λ l. B.moments l.second) self.old.log.items self.old.both self.old.picks).now → IfOk result (λ n. IsLabelled sectors n (watched (λ l. A.moments l.first) (λ l. B.moments l.second) self.new.log.items self.new.both self.new.picks).now) }
        ensures runs { IsTrue A.visible → IsTrue B.visible → IsLabelled sectors number (watched (λ l. A.moments l.first) (λ l. B.moments l.second) self.old.log.items self.old.both self.old.picks).now
            → Runs (A.keeps && B.keeps) (IsCalm sectors (IsImage (state_of sectors (watched (λ l. A.moments l.first) (λ l. B.moments l.second) self.old.log.items self.old.both self.old.picks).now))) (watched (λ l. A.moments l.first) (λ l. B.moments l.second) self.old.log.items self.old.both self.old.picks) (watched (λ l. A.moments l.first) (λ l. B.moments l.second) self.new.log.items self.new.both self.new.picks) }
    {
        let Some(next) = number.checked_add(1) else {
            return Err(self.refusal());
        };
        if !self.label_second(sectors, next) {
            return Err(self.refusal());
        }
        Ok(next)
    }

    // Makes the first leg like the second, which alone may be picked, and gives both the next
    // generation. B first leg that fails is let go.
    pub(crate) fn join_first(&mut self, sectors: u32, number: u64) -> Result<u64, MirrorFault>
        requires alone { self.old.picks ≡ Picks.Second }
        requires second_sized { B.size self.old.both.second ≡ sectors + 1 }
        requires first_sized { A.size self.old.both.first ≡ sectors + 1 }
        ensures second_sized { B.size self.new.both.second ≡ B.size self.old.both.second }
        ensures first_sized { A.size self.new.both.first ≡ A.size self.old.both.first }
        ensures live { OnOk result (self.new.picks ≢ Picks.First) }
        ensures some { IfOk result (λ n. 0 < n) }
        ensures room { IfOk result (λ n. self.new.picks ≡ Picks.Either → n < 2 ^ 64 - 1) }
        ensures second { IsTrue A.visible → IsTrue B.visible → OnOk result (IsSame sectors (reads (B.moments self.old.both.second)) (reads (B.moments self.new.both.second))) }
        ensures alike { IsTrue A.visible → IsTrue B.visible → OnOk result (self.new.picks ≡ Picks.Either → IsAlike sectors (watched (λ l. A.moments l.first) (λ l. B.moments l.second) self.new.log.items self.new.both self.new.picks).now) }
        ensures second_settled { IsTrue A.visible → IsTrue B.visible → OnOk result (IsSettled (B.moments self.new.both.second).state) }
        ensures first_settled { IsTrue A.visible → IsTrue B.visible → OnOk result (self.new.picks ≡ Picks.Either → IsSettled (A.moments self.new.both.first).state) }
        ensures labels { IsTrue A.visible → IsTrue B.visible → IfOk result (λ n. self.new.picks ≡ Picks.Either
            → (n ≡ next_generation number) × (generation (reads (B.moments self.new.both.second) sectors) ≡ n) × (generation (reads (A.moments self.new.both.first) sectors) ≡ n)) }
        ensures counts { OnOk result (Goes (self.new.picks ≡ Picks.Either) (B.faults self.old.both.second) (B.faults self.new.both.second) (A.faults self.old.both.first) (A.faults self.new.both.first)) }
        ensures refused { IfErr result (IsLegFault number (B.faults self.old.both.second) (B.faults self.new.both.second) (A.faults self.old.both.first) (A.faults self.new.both.first)) }
        ensures labelled { IsTrue A.visible → IsTrue B.visible → IsSecondAt sectors number (watched (λ l. A.moments l.first) (λ l. B.moments l.second) self.old.log.items self.old.both self.old.picks).now → IfOk result (λ n. IsLabelled sectors n (watched (λ l. A.moments l.first) (λ l. B.moments l.second) self.new.log.items self.new.both self.new.picks).now) }
        ensures runs { IsTrue A.visible → IsTrue B.visible → IsSecondAt sectors number (watched (λ l. A.moments l.first) (λ l. B.moments l.second) self.old.log.items self.old.both self.old.picks).now
            → Runs (A.keeps && B.keeps) (IsCalm sectors (IsImage (state_of sectors (watched (λ l. A.moments l.first) (λ l. B.moments l.second) self.old.log.items self.old.both self.old.picks).now))) (watched (λ l. A.moments l.first) (λ l. B.moments l.second) self.old.log.items self.old.both self.old.picks) (watched (λ l. A.moments l.first) (λ l. B.moments l.second) self.new.log.items self.new.both self.new.picks) }
    {
        match self.copy_all_to_first(sectors) {
            Copied::Unread => Err(self.refusal()),
            Copied::Unwritten => self.leave_first(sectors, number),
            Copied::Whole => {
                self.tell(Picks::Either);
                self.renew_second(sectors, number)
            }
        }
    }

    // Makes the second leg like the first, and gives both the generation 1.
    pub(crate) fn make_alike(&mut self, sectors: u32) -> bool
        requires alone { self.old.picks ≡ Picks.First }
        requires first_sized { A.size self.old.both.first ≡ sectors + 1 }
        requires second_sized { B.size self.old.both.second ≡ sectors + 1 }
        ensures first_sized { A.size self.new.both.first ≡ A.size self.old.both.first }
        ensures second_sized { B.size self.new.both.second ≡ B.size self.old.both.second }
        ensures first { IsTrue A.visible → IsTrue B.visible → IsTrue result → IsSame sectors (reads (A.moments self.old.both.first)) (reads (A.moments self.new.both.first)) }
        ensures alike { IsTrue A.visible → IsTrue B.visible → IsTrue result → IsSame sectors (reads (B.moments self.new.both.second)) (reads (A.moments self.new.both.first)) }
        ensures first_settled { IsTrue A.visible → IsTrue result → IsSettled (A.moments self.new.both.first).state }
        ensures second_settled { IsTrue B.visible → IsTrue result → IsSettled (B.moments self.new.both.second).state }
        ensures first_says { IsTrue A.visible → IsTrue result → generation (reads (A.moments self.new.both.first) sectors) ≡ 1 }
        ensures second_says { IsTrue B.visible → IsTrue result → generation (reads (B.moments self.new.both.second) sectors) ≡ 1 }
        ensures passed { IsTrue result → (A.faults self.new.both.first ≡ A.faults self.old.both.first) × (B.faults self.new.both.second ≡ B.faults self.old.both.second) }
        ensures failed { result ≡ false → RoseTo (A.faults self.old.both.first) (A.faults self.new.both.first) self.new.fault ⊎ RoseTo (B.faults self.old.both.second) (B.faults self.new.both.second) self.new.fault }
    {
        match self.copy_all_to_second(sectors) {
            Copied::Whole => {}
            Copied::Unread => return false,
            Copied::Unwritten => return false,
        }
        if !self.label_first(sectors, 1) {
            return false;
        }
        self.label_second(sectors, 1)
    }
}
