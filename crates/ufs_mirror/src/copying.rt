// How the data of one leg goes to the other.
ghost use Rattle.std.specs.Prelude.{◌≡◌, ◌+◌, ◌≤◌, ◌<◌, ◌&&◌, ◌*◌, length, IsTrue, ℕ};
ghost use Rattle.ufs_disk.specs.Disk.{IsImage, IsSettled};
ghost use Rattle.ufs_disk.specs.Moments.{reads};
ghost use Rattle.ufs_mirror.specs.Copies.{Copies};
ghost use Rattle.ufs_mirror.specs.Labelled.{IsAlike, IsLabelled, IsMoment};
ghost use Rattle.ufs_mirror.specs.Pairs.{Runs, state_of, watched};
ghost use Rattle.ufs_mirror.specs.declared.copying.Copied.{Copied};
ghost use Rattle.ufs_mirror.specs.declared.legs.Picks.{Picks};

use crate::Picks;
use crate::legs::Legs;
use std::cmp;
use ufs_base::SECTOR;
use ufs_disk::Disk;

// The most sectors that a call of a disk takes.
const PIECE: u32 = 8;

// How many sectors the next piece of a copy has.
fn piece_at(sectors: u32, sector: u32) -> u32
    requires { sector < sectors }
    ensures some { 0 < result }
    ensures most { result ≤ 8 }
    ensures inside { sector + result ≤ sectors }
{
    cmp::min(PIECE, sectors - sector)
}

// Whether a copy went through, and if not which leg failed.
#[derive(Clone, Copy, Debug, PartialEq, Eq)]
pub(crate) enum Copied {
    Whole,
    Unread,
    Unwritten,
}

impl<A: Disk, B: Disk> Legs<A, B> {
    // Copies some sectors of the data to the second leg.
    fn copy_to_second(&mut self, sectors: u32, sector: u32, count: u32, piece: &mut [u8]) -> Copied
        requires alone { self.old.picks ≡ Picks.First }
        requires some { 0 < count }
        requires most { count ≤ 8 }
        requires inside { sector + count ≤ sectors }
        requires long { length piece.old ≡ 512 * count }
        requires first_sized { A.size self.old.both.first ≡ sectors + 1 }
        requires second_sized { B.size self.old.both.second ≡ sectors + 1 }
        ensures picks { self.new.picks ≡ self.old.picks }
        ensures first_sized { A.size self.new.both.first ≡ A.size self.old.both.first }
        ensures second_sized { B.size self.new.both.second ≡ B.size self.old.both.second }
        ensures reads { IsTrue A.visible → reads (A.moments self.new.both.first) ≡ reads (A.moments self.old.both.first) }
        ensures calm { IsTrue A.visible → IsSettled (A.moments self.old.both.first).state → IsSettled (A.moments self.new.both.first).state }
        ensures copied { IsTrue A.visible → IsTrue B.visible → result ≡ Copied.Whole → (k : ℕ) → sector ≤ k → k < sector + count
            → reads (B.moments self.new.both.second) k ≡ reads (A.moments self.old.both.first) k }
        ensures others { IsTrue B.visible → result ≡ Copied.Whole → (k : ℕ) → k < sector
            → reads (B.moments self.new.both.second) k ≡ reads (B.moments self.old.both.second) k }
        ensures counts { Copies (A.faults self.old.both.first) (A.faults self.new.both.first) (B.faults self.old.both.second) (B.faults self.new.both.second) self.new.fault result }
        ensures runs { (number : ℕ) → IsTrue A.visible → IsTrue B.visible → IsLabelled sectors number (watched (λ l. A.moments l.first) (λ l. B.moments l.second) self.old.log.items self.old.both self.old.picks).now
            → Runs (A.keeps && B.keeps) (IsMoment sectors number (IsImage (state_of sectors (watched (λ l. A.moments l.first) (λ l. B.moments l.second) self.old.log.items self.old.both self.old.picks).now))) (watched (λ l. A.moments l.first) (λ l. B.moments l.second) self.old.log.items self.old.both self.old.picks) (watched (λ l. A.moments l.first) (λ l. B.moments l.second) self.new.log.items self.new.both self.new.picks) }
    {
        if !self.read_first(sector, piece) {
            return Copied::Unread;
        }
        if !self.write_second(sector, piece) {
            return Copied::Unwritten;
        }
        Copied::Whole
    }

    // Copies the data to the second leg, and waits for it.
    pub(crate) fn copy_all_to_second(&mut self, sectors: u32) -> Copied
        requires alone { self.old.picks ≡ Picks.First }
        requires first_sized { A.size self.old.both.first ≡ sectors + 1 }
        requires second_sized { B.size self.old.both.second ≡ sectors + 1 }
        ensures picks { self.new.picks ≡ self.old.picks }
        ensures first_sized { A.size self.new.both.first ≡ A.size self.old.both.first }
        ensures second_sized { B.size self.new.both.second ≡ B.size self.old.both.second }
        ensures reads { IsTrue A.visible → reads (A.moments self.new.both.first) ≡ reads (A.moments self.old.both.first) }
        ensures calm { IsTrue A.visible → IsSettled (A.moments self.old.both.first).state → IsSettled (A.moments self.new.both.first).state }
        ensures copied { IsTrue A.visible → IsTrue B.visible → result ≡ Copied.Whole → IsAlike sectors (watched (λ l. A.moments l.first) (λ l. B.moments l.second) self.new.log.items self.new.both self.new.picks).now }
        ensures settled { IsTrue B.visible → result ≡ Copied.Whole → IsSettled (B.moments self.new.both.second).state }
        ensures counts { Copies (A.faults self.old.both.first) (A.faults self.new.both.first) (B.faults self.old.both.second) (B.faults self.new.both.second) self.new.fault result }
        ensures runs { (number : ℕ) → IsTrue A.visible → IsTrue B.visible → IsLabelled sectors number (watched (λ l. A.moments l.first) (λ l. B.moments l.second) self.old.log.items self.old.both self.old.picks).now
            → Runs (A.keeps && B.keeps) (IsMoment sectors number (IsImage (state_of sectors (watched (λ l. A.moments l.first) (λ l. B.moments l.second) self.old.log.items self.old.both self.old.picks).now))) (watched (λ l. A.moments l.first) (λ l. B.moments l.second) self.old.log.items self.old.both self.old.picks) (watched (λ l. A.moments l.first) (λ l. B.moments l.second) self.new.log.items self.new.both self.new.picks) }
    {
        let mut bytes = [0; PIECE as usize * SECTOR];
        let mut sector = 0;
        while sector < sectors {
            let count = piece_at(sectors, sector);
            let piece = &mut bytes[..count as usize * SECTOR];
            match self.copy_to_second(sectors, sector, count, piece) {
                Copied::Whole => {}
                Copied::Unread => return Copied::Unread,
                Copied::Unwritten => return Copied::Unwritten,
            }
            sector += count;
        }
        if !self.barrier_second() {
            return Copied::Unwritten;
        }
        Copied::Whole
    }

    // Copies some sectors of the data to the first leg.
    fn copy_to_first(&mut self, sectors: u32, sector: u32, count: u32, piece: &mut [u8]) -> Copied
        requires alone { self.old.picks ≡ Picks.Second }
        requires some { 0 < count }
        requires most { count ≤ 8 }
        requires inside { sector + count ≤ sectors }
        requires long { length piece.old ≡ 512 * count }
        requires second_sized { B.size self.old.both.second ≡ sectors + 1 }
        requires first_sized { A.size self.old.both.first ≡ sectors + 1 }
        ensures picks { self.new.picks ≡ self.old.picks }
        ensures second_sized { B.size self.new.both.second ≡ B.size self.old.both.second }
        ensures first_sized { A.size self.new.both.first ≡ A.size self.old.both.first }
        ensures reads { IsTrue B.visible → reads (B.moments self.new.both.second) ≡ reads (B.moments self.old.both.second) }
        ensures calm { IsTrue B.visible → IsSettled (B.moments self.old.both.second).state → IsSettled (B.moments self.new.both.second).state }
        ensures copied { IsTrue A.visible → IsTrue B.visible → result ≡ Copied.Whole → (k : ℕ) → sector ≤ k → k < sector + count
            → reads (A.moments self.new.both.first) k ≡ reads (B.moments self.old.both.second) k }
        ensures others { IsTrue A.visible → result ≡ Copied.Whole → (k : ℕ) → k < sector
            → reads (A.moments self.new.both.first) k ≡ reads (A.moments self.old.both.first) k }
        ensures counts { Copies (B.faults self.old.both.second) (B.faults self.new.both.second) (A.faults self.old.both.first) (A.faults self.new.both.first) self.new.fault result }
        ensures runs { (number : ℕ) → IsTrue A.visible → IsTrue B.visible → IsLabelled sectors number (watched (λ l. A.moments l.first) (λ l. B.moments l.second) self.old.log.items self.old.both self.old.picks).now
            → Runs (A.keeps && B.keeps) (IsMoment sectors number (IsImage (state_of sectors (watched (λ l. A.moments l.first) (λ l. B.moments l.second) self.old.log.items self.old.both self.old.picks).now))) (watched (λ l. A.moments l.first) (λ l. B.moments l.second) self.old.log.items self.old.both self.old.picks) (watched (λ l. A.moments l.first) (λ l. B.moments l.second) self.new.log.items self.new.both self.new.picks) }
    {
        if !self.read_second(sector, piece) {
            return Copied::Unread;
        }
        if !self.write_first(sector, piece) {
            return Copied::Unwritten;
        }
        Copied::Whole
    }

    // Copies the data to the first leg, and waits for it.
    pub(crate) fn copy_all_to_first(&mut self, sectors: u32) -> Copied
        requires alone { self.old.picks ≡ Picks.Second }
        requires second_sized { B.size self.old.both.second ≡ sectors + 1 }
        requires first_sized { A.size self.old.both.first ≡ sectors + 1 }
        ensures picks { self.new.picks ≡ self.old.picks }
        ensures second_sized { B.size self.new.both.second ≡ B.size self.old.both.second }
        ensures first_sized { A.size self.new.both.first ≡ A.size self.old.both.first }
        ensures reads { IsTrue B.visible → reads (B.moments self.new.both.second) ≡ reads (B.moments self.old.both.second) }
        ensures calm { IsTrue B.visible → IsSettled (B.moments self.old.both.second).state → IsSettled (B.moments self.new.both.second).state }
        ensures copied { IsTrue A.visible → IsTrue B.visible → result ≡ Copied.Whole → IsAlike sectors (watched (λ l. A.moments l.first) (λ l. B.moments l.second) self.new.log.items self.new.both self.new.picks).now }
        ensures settled { IsTrue A.visible → result ≡ Copied.Whole → IsSettled (A.moments self.new.both.first).state }
        ensures counts { Copies (B.faults self.old.both.second) (B.faults self.new.both.second) (A.faults self.old.both.first) (A.faults self.new.both.first) self.new.fault result }
        ensures runs { (number : ℕ) → IsTrue A.visible → IsTrue B.visible → IsLabelled sectors number (watched (λ l. A.moments l.first) (λ l. B.moments l.second) self.old.log.items self.old.both self.old.picks).now
            → Runs (A.keeps && B.keeps) (IsMoment sectors number (IsImage (state_of sectors (watched (λ l. A.moments l.first) (λ l. B.moments l.second) self.old.log.items self.old.both self.old.picks).now))) (watched (λ l. A.moments l.first) (λ l. B.moments l.second) self.old.log.items self.old.both self.old.picks) (watched (λ l. A.moments l.first) (λ l. B.moments l.second) self.new.log.items self.new.both self.new.picks) }
    {
        let mut bytes = [0; PIECE as usize * SECTOR];
        let mut sector = 0;
        while sector < sectors {
            let count = piece_at(sectors, sector);
            let piece = &mut bytes[..count as usize * SECTOR];
            match self.copy_to_first(sectors, sector, count, piece) {
                Copied::Whole => {}
                Copied::Unread => return Copied::Unread,
                Copied::Unwritten => return Copied::Unwritten,
            }
            sector += count;
        }
        if !self.barrier_first() {
            return Copied::Unwritten;
        }
        Copied::Whole
    }
}
