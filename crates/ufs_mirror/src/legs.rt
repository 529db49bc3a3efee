// The two legs, watched: each call of a leg is noted, for proofs alone.
ghost use Rattle.std.specs.Prelude.{◌≡◌, ◌+◌, ◌-◌, ◌≤◌, ◌<◌, ◌^◌, ◌&&◌, ◌/◌, ◌∷◌, ◌++◌, [], length, IsTrue, false, if◌then◌else◌, ℕ};
ghost use Rattle.ufs_disk.specs.Disk.{IsImage, IsPartlyWritten, IsRange, IsSettled, Mixes, bytes_from, overwritten};
ghost use Rattle.ufs_disk.specs.Moments.{IsStill, reads};
ghost use Rattle.ufs_base.specs.Faults.{raised};
ghost use Rattle.ufs_mirror.specs.Calls.{Counts, IsSame, Rests, Wrote};
ghost use Rattle.ufs_mirror.specs.Failing.{FailedAll, HaveGrown, LetsGo};
ghost use Rattle.ufs_mirror.specs.Labelled.{IsAlike, IsLabelled, IsMoment};
ghost use Rattle.ufs_mirror.specs.Pairs.{Runs, RunsStill, moments_of, state_of, watched};
ghost use Rattle.ufs_mirror.specs.declared.legs.Picks.{Picks};

use crate::label::label;
use http_server::Log;
use ufs_base::SECTOR;
use ufs_disk::{Disk, Fault};

/// Two legs.
#[derive(Drop)]
pub struct Legpair<A, B> {
    pub first: A,
    pub second: B,
}

/// Which leg opening a pair of images may pick.
#[derive(Clone, Copy, Debug, PartialEq, Eq)]
pub enum Picks {
    Either,
    First,
    Second,
}

// Two legs and what they were at each call.
#[derive(Drop)]
pub(crate) struct Legs<A, B> {
    pub(crate) both: Legpair<A, B>,
    pub(crate) picks: Picks,
    pub(crate) log: Log<Legpair<A, B>, Picks>,

    // The number of the last call of a leg that failed.
    pub(crate) fault: u64,
}

impl<A: Disk, B: Disk> Legs<A, B> {
    // Notes the moment.
    fn note(&mut self)
        ensures log { self.new.log.items ≡ self.old.log.items ++ (self.old.both, self.old.picks) ∷ [] }
        ensures both { self.new.both ≡ self.old.both }
        ensures picks { self.new.picks ≡ self.old.picks }
    {
        self.log = self.log.and(&self.both, &self.picks);
    }

    // Says from now on which leg opening may pick.
    pub(crate) fn tell(&mut self, picks: Picks)
        ensures log { self.new.log.items ≡ self.old.log.items ++ (self.old.both, self.old.picks) ∷ [] }
        ensures both { self.new.both ≡ self.old.both }
        ensures picks { self.new.picks ≡ picks }
    {
        self.note();
        self.picks = picks;
    }

    pub(crate) fn read_first(&mut self, sector: u32, buf: &mut [u8]) -> bool
        requires { IsRange (A.size self.old.both.first) sector (length buf.old) }
        ensures log { self.new.log.items ≡ self.old.log.items ++ (self.old.both, self.old.picks) ∷ [] }
        ensures picks { self.new.picks ≡ self.old.picks }
        ensures second { self.new.both.second ≡ self.old.both.second }
        ensures size { A.size self.new.both.first ≡ A.size self.old.both.first }
        ensures count { Counts (A.faults self.old.both.first) (A.faults self.new.both.first) result }
        ensures number { result ≡ false → self.new.fault ≡ A.faults self.new.both.first }
        ensures bytes { IsTrue A.visible → IsTrue result
            → buf.new ≡ bytes_from (reads (A.moments self.old.both.first)) sector (length buf.old / 512) }
        ensures rests { IsTrue A.visible
            → Rests A.keeps (A.moments self.old.both.first) (A.moments self.new.both.first) }
        ensures still { IsTrue A.visible
            → IsStill A.keeps (A.moments self.old.both.first) (A.moments self.new.both.first) }
    {
        self.note();
        match self.both.first.read(sector, buf) {
            Ok(()) => true,
            Err(fault) => {
                self.fault = fault.number;
                false
            }
        }
    }

    pub(crate) fn write_first(&mut self, sector: u32, bytes: &[u8]) -> bool
        requires { IsRange (A.size self.old.both.first) sector (length bytes.now) }
        ensures log { self.new.log.items ≡ self.old.log.items ++ (self.old.both, self.old.picks) ∷ [] }
        ensures picks { self.new.picks ≡ self.old.picks }
        ensures second { self.new.both.second ≡ self.old.both.second }
        ensures size { A.size self.new.both.first ≡ A.size self.old.both.first }
        ensures count { Counts (A.faults self.old.both.first) (A.faults self.new.both.first) result }
        ensures number { result ≡ false → self.new.fault ≡ A.faults self.new.both.first }
        ensures wrote { IsTrue A.visible
            → Wrote A.keeps sector bytes.now (A.moments self.old.both.first) (A.moments self.new.both.first) result }
    {
        self.note();
        match self.both.first.write(sector, bytes) {
            Ok(()) => true,
            Err(fault) => {
                self.fault = fault.number;
                false
            }
        }
    }

    pub(crate) fn barrier_first(&mut self) -> bool
        ensures log { self.new.log.items ≡ self.old.log.items ++ (self.old.both, self.old.picks) ∷ [] }
        ensures picks { self.new.picks ≡ self.old.picks }
        ensures second { self.new.both.second ≡ self.old.both.second }
        ensures size { A.size self.new.both.first ≡ A.size self.old.both.first }
        ensures count { Counts (A.faults self.old.both.first) (A.faults self.new.both.first) result }
        ensures number { result ≡ false → self.new.fault ≡ A.faults self.new.both.first }
        ensures settled { IsTrue A.visible → IsTrue result → IsSettled (A.moments self.new.both.first).state }
        ensures rests { IsTrue A.visible
            → Rests A.keeps (A.moments self.old.both.first) (A.moments self.new.both.first) }
    {
        self.note();
        match self.both.first.barrier() {
            Ok(()) => true,
            Err(fault) => {
                self.fault = fault.number;
                false
            }
        }
    }

    pub(crate) fn read_second(&mut self, sector: u32, buf: &mut [u8]) -> bool
        requires { IsRange (B.size self.old.both.second) sector (length buf.old) }
        ensures log { self.new.log.items ≡ self.old.log.items ++ (self.old.both, self.old.picks) ∷ [] }
        ensures picks { self.new.picks ≡ self.old.picks }
        ensures first { self.new.both.first ≡ self.old.both.first }
        ensures size { B.size self.new.both.second ≡ B.size self.old.both.second }
        ensures count { Counts (B.faults self.old.both.second) (B.faults self.new.both.second) result }
        ensures number { result ≡ false → self.new.fault ≡ B.faults self.new.both.second }
        ensures bytes { IsTrue B.visible → IsTrue result
            → buf.new ≡ bytes_from (reads (B.moments self.old.both.second)) sector (length buf.old / 512) }
        ensures rests { IsTrue B.visible
            → Rests B.keeps (B.moments self.old.both.second) (B.moments self.new.both.second) }
        ensures still { IsTrue B.visible
            → IsStill B.keeps (B.moments self.old.both.second) (B.moments self.new.both.second) }
    {
        self.note();
        match self.both.second.read(sector, buf) {
            Ok(()) => true,
            Err(fault) => {
                self.fault = fault.number;
                false
            }
        }
    }

    pub(crate) fn write_second(&mut self, sector: u32, bytes: &[u8]) -> bool
        requires { IsRange (B.size self.old.both.second) sector (length bytes.now) }
        ensures log { self.new.log.items ≡ self.old.log.items ++ (self.old.both, self.old.picks) ∷ [] }
        ensures picks { self.new.picks ≡ self.old.picks }
        ensures first { self.new.both.first ≡ self.old.both.first }
        ensures size { B.size self.new.both.second ≡ B.size self.old.both.second }
        ensures count { Counts (B.faults self.old.both.second) (B.faults self.new.both.second) result }
        ensures number { result ≡ false → self.new.fault ≡ B.faults self.new.both.second }
        ensures wrote { IsTrue B.visible
            → Wrote B.keeps sector bytes.now (B.moments self.old.both.second) (B.moments self.new.both.second) result }
    {
        self.note();
        match self.both.second.write(sector, bytes) {
            Ok(()) => true,
            Err(fault) => {
                self.fault = fault.number;
                false
            }
        }
    }

    pub(crate) fn barrier_second(&mut self) -> bool
        ensures log { self.new.log.items ≡ self.old.log.items ++ (self.old.both, self.old.picks) ∷ [] }
        ensures picks { self.new.picks ≡ self.old.picks }
        ensures first { self.new.both.first ≡ self.old.both.first }
        ensures size { B.size self.new.both.second ≡ B.size self.old.both.second }
        ensures count { Counts (B.faults self.old.both.second) (B.faults self.new.both.second) result }
        ensures number { result ≡ false → self.new.fault ≡ B.faults self.new.both.second }
        ensures settled { IsTrue B.visible → IsTrue result → IsSettled (B.moments self.new.both.second).state }
        ensures rests { IsTrue B.visible
            → Rests B.keeps (B.moments self.old.both.second) (B.moments self.new.both.second) }
    {
        self.note();
        match self.both.second.barrier() {
            Ok(()) => true,
            Err(fault) => {
                self.fault = fault.number;
                false
            }
        }
    }

    // Lets the second leg go: the first has the next generation for good before.
    pub(crate) fn lone_first(&mut self, sectors: u32, number: &mut u64) -> bool
        requires either { self.old.picks ≡ Picks.Either }
        requires room { number.old < 2 ^ 64 - 1 }
        requires first_sized { A.size self.old.both.first ≡ sectors + 1 }
        requires second_sized { B.size self.old.both.second ≡ sectors + 1 }
        ensures picks { IsTrue result → self.new.picks ≡ Picks.First }
        ensures stays { result ≡ false → self.new.picks ≡ Picks.Either }
        ensures first_sized { A.size self.new.both.first ≡ A.size self.old.both.first }
        ensures second_sized { B.size self.new.both.second ≡ B.size self.old.both.second }
        ensures reads { IsTrue A.visible → IsTrue B.visible → IsSame sectors (reads (A.moments self.old.both.first)) (reads (A.moments self.new.both.first)) }
        ensures counts { Counts (A.faults self.old.both.first) (A.faults self.new.both.first) result }
        ensures fault { result ≡ false → self.new.fault ≡ A.faults self.new.both.first }
        ensures second { self.new.both.second ≡ self.old.both.second }
        ensures settled { IsTrue A.visible → IsTrue B.visible → IsTrue result → IsSettled (A.moments self.new.both.first).state }
        ensures grows { number.new ≡ number.old + 1 }
        ensures runs { IsTrue A.visible → IsTrue B.visible → IsLabelled sectors number.old (watched (λ l. A.moments l.first) (λ l. B.moments l.second) self.old.log.items self.old.both self.old.picks).now
            → Runs (A.keeps && B.keeps) (IsMoment sectors number.new (IsImage (state_of sectors (watched (λ l. A.moments l.first) (λ l. B.moments l.second) self.old.log.items self.old.both self.old.picks).now))) (watched (λ l. A.moments l.first) (λ l. B.moments l.second) self.old.log.items self.old.both self.old.picks) (watched (λ l. A.moments l.first) (λ l. B.moments l.second) self.new.log.items self.new.both self.new.picks) }
    {
        *number += 1;
        if !self.write_first(sectors, &label(*number)) {
            return false;
        }
        if !self.barrier_first() {
            return false;
        }
        self.tell(Picks::First);
        true
    }

    // Lets the first leg go: the second has the next generation for good before.
    pub(crate) fn lone_second(&mut self, sectors: u32, number: &mut u64) -> bool
        requires either { self.old.picks ≡ Picks.Either }
        requires room { number.old < 2 ^ 64 - 1 }
        requires first_sized { A.size self.old.both.first ≡ sectors + 1 }
        requires second_sized { B.size self.old.both.second ≡ sectors + 1 }
        ensures picks { IsTrue result → self.new.picks ≡ Picks.Second }
        ensures stays { result ≡ false → self.new.picks ≡ Picks.Either }
        ensures first_sized { A.size self.new.both.first ≡ A.size self.old.both.first }
        ensures second_sized { B.size self.new.both.second ≡ B.size self.old.both.second }
        ensures reads { IsTrue A.visible → IsTrue B.visible → IsSame sectors (reads (B.moments self.old.both.second)) (reads (B.moments self.new.both.second)) }
        ensures counts { Counts (B.faults self.old.both.second) (B.faults self.new.both.second) result }
        ensures fault { result ≡ false → self.new.fault ≡ B.faults self.new.both.second }
        ensures first { self.new.both.first ≡ self.old.both.first }
        ensures settled { IsTrue A.visible → IsTrue B.visible → IsTrue result → IsSettled (B.moments self.new.both.second).state }
        ensures grows { number.new ≡ number.old + 1 }
        ensures runs { IsTrue A.visible → IsTrue B.visible → IsLabelled sectors number.old (watched (λ l. A.moments l.first) (λ l. B.moments l.second) self.old.log.items self.old.both self.old.picks).now
            → Runs (A.keeps && B.keeps) (IsMoment sectors number.new (IsImage (state_of sectors (watched (λ l. A.moments l.first) (λ l. B.moments l.second) self.old.log.items self.old.both self.old.picks).now))) (watched (λ l. A.moments l.first) (λ l. B.moments l.second) self.old.log.items self.old.both self.old.picks) (watched (λ l. A.moments l.first) (λ l. B.moments l.second) self.new.log.items self.new.both self.new.picks) }
    {
        *number += 1;
        if !self.write_second(sectors, &label(*number)) {
            return false;
        }
        if !self.barrier_second() {
            return false;
        }
        self.tell(Picks::Second);
        true
    }

    // After a call of both legs: one that failed it is let go, if the other did it.
    #[tactic(auto, using(crate::proofs::Counting::none_calls, crate::proofs::Counting::first_calls, crate::proofs::Counting::second_calls))]
    fn go_on(&mut self, sectors: u32, number: &mut u64, first: bool, second: bool) -> bool
        requires either { self.old.picks ≡ Picks.Either }
        requires room { number.old < 2 ^ 64 - 1 }
        requires first_sized { A.size self.old.both.first ≡ sectors + 1 }
        requires second_sized { B.size self.old.both.second ≡ sectors + 1 }
        ensures both { IsTrue first → IsTrue second → IsTrue result }
        ensures same { IsTrue first → IsTrue second → self.new ≡ self.old }
        ensures same_number { IsTrue first → IsTrue second → number.new ≡ number.old }
        ensures stays { result ≡ false → self.new.picks ≡ Picks.Either }
        ensures goes_on { IsTrue result → self.new.picks ≡ Picks.Either → IsTrue first × IsTrue second }
        ensures let_go_second { self.new.picks ≡ Picks.First → second ≡ false }
        ensures let_go_first { self.new.picks ≡ Picks.Second → first ≡ false }
        ensures passed { IsTrue result → (A.faults self.new.both.first ≡ A.faults self.old.both.first) × (B.faults self.new.both.second ≡ B.faults self.old.both.second) }
        ensures first_failed { result ≡ false → A.faults self.new.both.first ≡ (if first then raised (A.faults self.old.both.first) else A.faults self.old.both.first) }
        ensures second_failed { result ≡ false → B.faults self.new.both.second ≡ (if second then raised (B.faults self.old.both.second) else B.faults self.old.both.second) }
        ensures counts { HaveGrown (A.faults self.old.both.first) (A.faults self.new.both.first) (B.faults self.old.both.second) (B.faults self.new.both.second) }
        ensures first_did { IsTrue result → self.new.picks ≡ Picks.First → IsTrue first }
        ensures second_did { IsTrue result → self.new.picks ≡ Picks.Second → IsTrue second }
        ensures first_sized { A.size self.new.both.first ≡ A.size self.old.both.first }
        ensures second_sized { B.size self.new.both.second ≡ B.size self.old.both.second }
        ensures first_reads { IsTrue A.visible → IsTrue B.visible → result ≡ false → IsSame sectors (reads (A.moments self.old.both.first)) (reads (A.moments self.new.both.first)) }
        ensures first_alone { IsTrue A.visible → IsTrue B.visible → self.new.picks ≡ Picks.First → IsSame sectors (reads (A.moments self.old.both.first)) (reads (A.moments self.new.both.first)) }
        ensures second_alone { IsTrue A.visible → IsTrue B.visible → self.new.picks ≡ Picks.Second → IsSame sectors (reads (B.moments self.old.both.second)) (reads (B.moments self.new.both.second)) }
        ensures first_settled { IsTrue A.visible → IsTrue B.visible → self.new.picks ≡ Picks.First → IsSettled (A.moments self.new.both.first).state }
        ensures second_settled { IsTrue A.visible → IsTrue B.visible → self.new.picks ≡ Picks.Second → IsSettled (B.moments self.new.both.second).state }
        ensures grows { number.old ≤ number.new }
        ensures runs { IsTrue A.visible → IsTrue B.visible → IsLabelled sectors number.old (watched (λ l. A.moments l.first) (λ l. B.moments l.second) self.old.log.items self.old.both self.old.picks).now
            → Runs (A.keeps && B.keeps) (IsMoment sectors number.new (IsImage (state_of sectors (watched (λ l. A.moments l.first) (λ l. B.moments l.second) self.old.log.items self.old.both self.old.picks).now))) (watched (λ l. A.moments l.first) (λ l. B.moments l.second) self.old.log.items self.old.both self.old.picks) (watched (λ l. A.moments l.first) (λ l. B.moments l.second) self.new.log.items self.new.both self.new.picks) }
    {
        match (first, second) {
            (true, true) => true,
            (true, false) => self.lone_first(sectors, number),
            (false, true) => self.lone_second(sectors, number),
            (false, false) => false,
        }
    }

    // Reads from the first leg that may be picked, and from the other where that fails.
    pub(crate) fn read(&mut self, sectors: u32, sector: u32, buf: &mut [u8]) -> bool
        requires first_sized { A.size self.old.both.first ≡ sectors + 1 }
        requires second_sized { B.size self.old.both.second ≡ sectors + 1 }
        requires range { IsRange sectors sector (length buf.old) }
        ensures picks { self.new.picks ≡ self.old.picks }
        ensures failed { result ≡ false → FailedAll self.old.picks (A.faults self.old.both.first) (A.faults self.new.both.first) (B.faults self.old.both.second) (B.faults self.new.both.second) }
        ensures counts { HaveGrown (A.faults self.old.both.first) (A.faults self.new.both.first) (B.faults self.old.both.second) (B.faults self.new.both.second) }
        ensures first_sized { A.size self.new.both.first ≡ A.size self.old.both.first }
        ensures second_sized { B.size self.new.both.second ≡ B.size self.old.both.second }
        ensures bytes { IsTrue A.visible → IsTrue B.visible → (self.old.picks ≡ Picks.Either → IsAlike sectors (watched (λ l. A.moments l.first) (λ l. B.moments l.second) self.old.log.items self.old.both self.old.picks).now) → IsTrue result
            → buf.new ≡ bytes_from (reads (moments_of sectors (watched (λ l. A.moments l.first) (λ l. B.moments l.second) self.old.log.items self.old.both self.old.picks))) sector (length buf.old / 512) }
        ensures first { IsTrue A.visible → reads (A.moments self.new.both.first) ≡ reads (A.moments self.old.both.first) }
        ensures second { IsTrue B.visible → reads (B.moments self.new.both.second) ≡ reads (B.moments self.old.both.second) }
        ensures runs { (number : ℕ) → IsTrue A.visible → IsTrue B.visible → IsLabelled sectors number (watched (λ l. A.moments l.first) (λ l. B.moments l.second) self.old.log.items self.old.both self.old.picks).now
            → Runs (A.keeps && B.keeps) (IsMoment sectors number (IsImage (state_of sectors (watched (λ l. A.moments l.first) (λ l. B.moments l.second) self.old.log.items self.old.both self.old.picks).now))) (watched (λ l. A.moments l.first) (λ l. B.moments l.second) self.old.log.items self.old.both self.old.picks) (watched (λ l. A.moments l.first) (λ l. B.moments l.second) self.new.log.items self.new.both self.new.picks) }
        ensures still { IsTrue A.visible → IsTrue B.visible → RunsStill (A.keeps && B.keeps) (watched (λ l. A.moments l.first) (λ l. B.moments l.second) self.old.log.items self.old.both self.old.picks) (watched (λ l. A.moments l.first) (λ l. B.moments l.second) self.new.log.items self.new.both self.new.picks) }
    {
        match self.picks {
            Picks::First => self.read_first(sector, buf),
            Picks::Second => self.read_second(sector, buf),
            Picks::Either => self.read_first(sector, buf) || self.read_second(sector, buf),
        }
    }

    // Writes on each leg that may be picked, and says whether one did it that still may.
    pub(crate) fn write(
        &mut self,
        sectors: u32,
        number: &mut u64,
        sector: u32,
        bytes: &[u8],
    ) -> bool
        requires first_sized { A.size self.old.both.first ≡ sectors + 1 }
        requires second_sized { B.size self.old.both.second ≡ sectors + 1 }
        requires range { IsRange sectors sector (length bytes.now) }
        requires room { self.old.picks ≡ Picks.Either → number.old < 2 ^ 64 - 1 }
        ensures room { IsTrue result → self.new.picks ≡ Picks.Either → number.new < 2 ^ 64 - 1 }
        ensures failed { result ≡ false → FailedAll self.old.picks (A.faults self.old.both.first) (A.faults self.new.both.first) (B.faults self.old.both.second) (B.faults self.new.both.second) }
        ensures counts { HaveGrown (A.faults self.old.both.first) (A.faults self.new.both.first) (B.faults self.old.both.second) (B.faults self.new.both.second) }
        ensures lets_go { IsTrue result → LetsGo self.new.picks self.old.picks (A.faults self.old.both.first) (A.faults self.new.both.first) (B.faults self.old.both.second) (B.faults self.new.both.second) }
        ensures first_sized { A.size self.new.both.first ≡ A.size self.old.both.first }
        ensures second_sized { B.size self.new.both.second ≡ B.size self.old.both.second }
        ensures reading { IsTrue A.visible → IsTrue B.visible → (self.old.picks ≡ Picks.Either → IsAlike sectors (watched (λ l. A.moments l.first) (λ l. B.moments l.second) self.old.log.items self.old.both self.old.picks).now) → IsTrue result
            → reads (moments_of sectors (watched (λ l. A.moments l.first) (λ l. B.moments l.second) self.new.log.items self.new.both self.new.picks)) ≡ overwritten sector bytes.now (reads (moments_of sectors (watched (λ l. A.moments l.first) (λ l. B.moments l.second) self.old.log.items self.old.both self.old.picks))) }
        ensures content { IsTrue A.visible → IsTrue B.visible → (self.old.picks ≡ Picks.Either → IsAlike sectors (watched (λ l. A.moments l.first) (λ l. B.moments l.second) self.old.log.items self.old.both self.old.picks).now) →
            Mixes (reads (moments_of sectors (watched (λ l. A.moments l.first) (λ l. B.moments l.second) self.old.log.items self.old.both self.old.picks))) (overwritten sector bytes.now (reads (moments_of sectors (watched (λ l. A.moments l.first) (λ l. B.moments l.second) self.old.log.items self.old.both self.old.picks)))) (reads (moments_of sectors (watched (λ l. A.moments l.first) (λ l. B.moments l.second) self.new.log.items self.new.both self.new.picks))) }
        ensures alike { IsTrue A.visible → IsTrue B.visible → (self.old.picks ≡ Picks.Either → IsAlike sectors (watched (λ l. A.moments l.first) (λ l. B.moments l.second) self.old.log.items self.old.both self.old.picks).now) → IsTrue result → self.new.picks ≡ Picks.Either → IsAlike sectors (watched (λ l. A.moments l.first) (λ l. B.moments l.second) self.new.log.items self.new.both self.new.picks).now }
        ensures runs { IsTrue A.visible → IsTrue B.visible → IsLabelled sectors number.old (watched (λ l. A.moments l.first) (λ l. B.moments l.second) self.old.log.items self.old.both self.old.picks).now
            → Runs (A.keeps && B.keeps) (IsMoment sectors number.new (IsPartlyWritten sector bytes.now (state_of sectors (watched (λ l. A.moments l.first) (λ l. B.moments l.second) self.old.log.items self.old.both self.old.picks).now))) (watched (λ l. A.moments l.first) (λ l. B.moments l.second) self.old.log.items self.old.both self.old.picks) (watched (λ l. A.moments l.first) (λ l. B.moments l.second) self.new.log.items self.new.both self.new.picks) }
    {
        match self.picks {
            Picks::First => self.write_first(sector, bytes),
            Picks::Second => self.write_second(sector, bytes),
            Picks::Either => {
                let first = self.write_first(sector, bytes);
                let second = self.write_second(sector, bytes);
                self.go_on(sectors, number, first, second)
            }
        }
    }

    // Waits for each leg that may be picked, and says whether one did it that still may.
    pub(crate) fn barrier(&mut self, sectors: u32, number: &mut u64) -> bool
        requires first_sized { A.size self.old.both.first ≡ sectors + 1 }
        requires second_sized { B.size self.old.both.second ≡ sectors + 1 }
        requires room { self.old.picks ≡ Picks.Either → number.old < 2 ^ 64 - 1 }
        ensures room { IsTrue result → self.new.picks ≡ Picks.Either → number.new < 2 ^ 64 - 1 }
        ensures failed { result ≡ false → FailedAll self.old.picks (A.faults self.old.both.first) (A.faults self.new.both.first) (B.faults self.old.both.second) (B.faults self.new.both.second) }
        ensures counts { HaveGrown (A.faults self.old.both.first) (A.faults self.new.both.first) (B.faults self.old.both.second) (B.faults self.new.both.second) }
        ensures lets_go { IsTrue result → LetsGo self.new.picks self.old.picks (A.faults self.old.both.first) (A.faults self.new.both.first) (B.faults self.old.both.second) (B.faults self.new.both.second) }
        ensures first_sized { A.size self.new.both.first ≡ A.size self.old.both.first }
        ensures second_sized { B.size self.new.both.second ≡ B.size self.old.both.second }
        ensures settled { IsTrue A.visible → IsTrue B.visible → (self.old.picks ≡ Picks.Either → IsAlike sectors (watched (λ l. A.moments l.first) (λ l. B.moments l.second) self.old.log.items self.old.both self.old.picks).now) → IsTrue result → IsSettled (moments_of sectors (watched (λ l. A.moments l.first) (λ l. B.moments l.second) self.new.log.items self.new.both self.new.picks)).state }
        ensures content { IsTrue A.visible → IsTrue B.visible → (self.old.picks ≡ Picks.Either → IsAlike sectors (watched (λ l. A.moments l.first) (λ l. B.moments l.second) self.old.log.items self.old.both self.old.picks).now) → reads (moments_of sectors (watched (λ l. A.moments l.first) (λ l. B.moments l.second) self.new.log.items self.new.both self.new.picks)) ≡ reads (moments_of sectors (watched (λ l. A.moments l.first) (λ l. B.moments l.second) self.old.log.items self.old.both self.old.picks)) }
        ensures alike { IsTrue A.visible → IsTrue B.visible → (self.old.picks ≡ Picks.Either → IsAlike sectors (watched (λ l. A.moments l.first) (λ l. B.moments l.second) self.old.log.items self.old.both self.old.picks).now) → IsTrue result → self.new.picks ≡ Picks.Either → IsAlike sectors (watched (λ l. A.moments l.first) (λ l. B.moments l.second) self.new.log.items self.new.both self.new.picks).now }
        ensures runs { IsTrue A.visible → IsTrue B.visible → IsLabelled sectors number.old (watched (λ l. A.moments l.first) (λ l. B.moments l.second) self.old.log.items self.old.both self.old.picks).now
            → Runs (A.keeps && B.keeps) (IsMoment sectors number.new (IsImage (state_of sectors (watched (λ l. A.moments l.first) (λ l. B.moments l.second) self.old.log.items self.old.both self.old.picks).now))) (watched (λ l. A.moments l.first) (λ l. B.moments l.second) self.old.log.items self.old.both self.old.picks) (watched (λ l. A.moments l.first) (λ l. B.moments l.second) self.new.log.items self.new.both self.new.picks) }
    {
        match self.picks {
            Picks::First => self.barrier_first(),
            Picks::Second => self.barrier_second(),
            Picks::Either => {
                let first = self.barrier_first();
                let second = self.barrier_second();
                self.go_on(sectors, number, first, second)
            }
        }
    }
}
