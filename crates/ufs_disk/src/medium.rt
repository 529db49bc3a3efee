// Sectors in memory, with a list of all calls: what the disks with a plan of failing calls stand on.
ghost use Rattle.std.specs.Prelude.{◌≡◌, ◌⊎◌, ◌≤◌, ◌<◌, ◌*◌, ◌^◌, ◌+◌, ◌-◌, ◌/◌};
ghost use Rattle.std.specs.Prelude.{[], ◌∷◌, ◌++◌, length, true, false, IsTrue, IfOk, IfErr, OnOk, OnErr};
ghost use Rattle.std.specs.Prelude.{vec_len, vec_capacity};
ghost use Rattle.ufs_disk.specs.Disk.{IsImage, IsPartlyWritten, IsRange, IsSettled, IsWhole, Mixes, bytes_from, overwritten, possible};
ghost use Rattle.ufs_disk.specs.Moments.{IsStill, LeavesOnly};
ghost use Rattle.ufs_base.specs.Faults.{HasCause, raised};
ghost use Rattle.ufs_disk.specs.Bytes.{image_of, begun};
ghost use Rattle.ufs_disk.specs.Pending.{held_state, covered_by};
ghost use Rattle.ufs_disk.specs.Calls.{Notes, IsWrite, after_calls, picked};
ghost use Rattle.ufs_disk.specs.Props.{same_state_prop, whole_prop};

use crate::Fault;
use crate::ranges::{copy_of, copy_out, overwrite, piece, whole_copy};
use std::alloc::{AllocError, Global};
use ufs_base::SECTOR;

/// What a call asked.
#[derive(Debug, Drop)]
pub enum Request {
    Read { sector: u32, bytes: usize },
    Write { sector: u32, bytes: Vec<u8> },
    Barrier,
}

/// A call, and whether it passed.
#[derive(Debug, Drop)]
pub struct Call {
    pub request: Request,
    pub passed: bool,
}

// What stood in some sectors before a write.
#[derive(Drop)]
pub(crate) struct Covered {
    pub sector: u32,
    pub bytes: Vec<u8>,
}

/// Sectors in memory, with a list of all calls. Beside its bytes it has those that it held at first
/// and those that were written, for the list, and what writes covered since the last barrier, for a
/// crash. It counts its faults, and of these those that found no memory (`starved`).
#[derive(Drop)]
pub struct Medium {
    alloc: Global,
    pub sectors: u32,
    pub first: Vec<u8>,
    bytes: Vec<u8>,
    covered: Vec<Covered>,
    pub calls: Vec<Call>,
    pub faults: u64,
    pub starved: u64,
    ghost in_range: { sectors < 2 ^ 32 },
    ghost sized: { length bytes.items ≡ 512 * sectors },
    ghost held: { held_state bytes.items covered.items
        ≡ (after_calls calls.items (begun first.items)).state } by { same_state_prop _ _ },
    ghost whole: { IsWhole sectors
        (after_calls calls.items (begun first.items)).state } by { whole_prop _ _ },
}

impl Medium {
    ghost use Rattle.ufs_disk.specs.Medium.{medium_moments, medium_reads, medium_state};
    ghost use Rattle.ufs_disk.specs.declared.medium.Request.{Request};

    /// A medium with these bytes, all of them on it for good.
    pub fn new(alloc: Global, sectors: u32, bytes: Vec<u8>) -> Result<Medium, AllocError>
        requires { length bytes.items ≡ 512 * sectors }
        ensures moments { IfOk result (λ medium. medium_moments medium ≡ begun bytes.items) }
        ensures first { IfOk result (λ medium. medium.first.items ≡ bytes.items) }
        ensures calls { IfOk result (λ medium. medium.calls.items ≡ []) }
        ensures sectors { IfOk result (λ medium. medium.sectors ≡ sectors) }
        ensures faults { IfOk result (λ medium. medium.faults ≡ 0) }
        ensures starved { IfOk result (λ medium. medium.starved ≡ 0) }
    {
        Ok(Medium {
            alloc,
            sectors,
            first: whole_copy(alloc, &bytes)?,
            bytes,
            covered: Vec::new(alloc),
            calls: Vec::new(alloc),
            faults: 0,
            starved: 0,
        })
    }

    /// Reads some sectors, unless it is to fail.
    pub fn read(&mut self, fails: bool, sector: u32, buf: &mut [u8]) -> Result<(), Fault>
        requires { IsRange self.old.sectors sector (length buf.old) }
        ensures bytes { OnOk result
            (buf.new ≡ bytes_from (medium_reads self.old) sector (length buf.old / 512)) }
        ensures buf { OnErr result (buf.new ≡ buf.old) }
        ensures same { medium_moments self.new ≡ medium_moments self.old }
        ensures content { medium_reads self.new ≡ medium_reads self.old }
        ensures crash { LeavesOnly true (IsImage (medium_state self.old))
            (medium_moments self.old) (medium_moments self.new) }
        ensures still { IsStill true (medium_moments self.old) (medium_moments self.new) }
        ensures sectors { self.new.sectors ≡ self.old.sectors }
        ensures first { self.new.first ≡ self.old.first }
        ensures noted { Notes (fails ≡ false) (IsTrue fails)
            (λ request. request ≡ Request.Read sector (length buf.old))
            self.old.calls.items self.new.calls.items self.old.starved self.new.starved result }
        ensures cause { HasCause self.old.faults self.new.faults result }
        ensures number { IfErr result (λ fault. fault.number ≡ self.new.faults) }
    {
        let request = Request::Read {
            sector,
            bytes: buf.len(),
        };
        note(
            &mut self.calls,
            &mut self.faults,
            &mut self.starved,
            fails,
            request,
        )?;
        copy_out(&self.bytes, SECTOR * sector as usize, buf);
        Ok(())
    }

    /// Writes some sectors, unless it is to fail.
    pub fn write(&mut self, fails: bool, sector: u32, bytes: &[u8]) -> Result<(), Fault>
        requires { IsRange self.old.sectors sector (length bytes.now) }
        ensures ok { OnOk result
            (medium_reads self.new ≡ overwritten sector bytes.now (medium_reads self.old)) }
        ensures err { OnErr result (medium_moments self.new ≡ medium_moments self.old) }
        ensures content { Mixes (medium_reads self.old)
            (overwritten sector bytes.now (medium_reads self.old)) (medium_reads self.new) }
        ensures crash { LeavesOnly true (IsPartlyWritten sector bytes.now (medium_state self.old))
            (medium_moments self.old) (medium_moments self.new) }
        ensures sectors { self.new.sectors ≡ self.old.sectors }
        ensures first { self.new.first ≡ self.old.first }
        ensures noted { Notes (fails ≡ false) (IsTrue fails)
            (IsWrite sector bytes.now)
            self.old.calls.items self.new.calls.items self.old.starved self.new.starved result }
        ensures cause { HasCause self.old.faults self.new.faults result }
        ensures number { IfErr result (λ fault. fault.number ≡ self.new.faults) }
    {
        let at = SECTOR * sector as usize;
        let Ok(copy) = bytes.to_vec(self.alloc) else {
            return Err(starved(&mut self.faults, &mut self.starved));
        };
        let Ok(was) = copy_of(self.alloc, &self.bytes, at, bytes.len()) else {
            return Err(starved(&mut self.faults, &mut self.starved));
        };
        if self.covered.reserve(1).is_err() {
            return Err(starved(&mut self.faults, &mut self.starved));
        }
        let request = Request::Write {
            sector,
            bytes: copy,
        };
        note(
            &mut self.calls,
            &mut self.faults,
            &mut self.starved,
            fails,
            request,
        )?;
        cover(&mut self.covered, sector, was);
        overwrite(&mut self.bytes, at, bytes);
        Ok(())
    }

    /// Waits until all is on the medium for good, unless it is to fail.
    pub fn barrier(&mut self, fails: bool) -> Result<(), Fault>
        ensures ok { OnOk result (IsSettled (medium_state self.new)) }
        ensures err { OnErr result (medium_moments self.new ≡ medium_moments self.old) }
        ensures content { medium_reads self.new ≡ medium_reads self.old }
        ensures crash { LeavesOnly true (IsImage (medium_state self.old))
            (medium_moments self.old) (medium_moments self.new) }
        ensures sectors { self.new.sectors ≡ self.old.sectors }
        ensures first { self.new.first ≡ self.old.first }
        ensures noted { Notes (fails ≡ false) (IsTrue fails)
            (λ request. request ≡ Request.Barrier)
            self.old.calls.items self.new.calls.items self.old.starved self.new.starved result }
        ensures cause { HasCause self.old.faults self.new.faults result }
        ensures number { IfErr result (λ fault. fault.number ≡ self.new.faults) }
    {
        note(
            &mut self.calls,
            &mut self.faults,
            &mut self.starved,
            fails,
            Request::Barrier,
        )?;
        self.covered = Vec::new(self.alloc);
        Ok(())
    }

    /// The image that `pick` names, of those that a crash now may leave: in rising sector order it
    /// takes of the sector's possible contents, oldest first, the one numbered `pick` modulo their
    /// number, and goes on with `pick` divided by it.
    pub fn crash(self, pick: u64) -> Result<Vec<u8>, AllocError>
        ensures picked { IfOk result
            (λ image. image.items ≡ picked (medium_state self) pick 0 self.sectors) }
        ensures image { IfOk result (λ image. IsImage (medium_state self) (image_of image.items)) }
    {
        let mut image = Vec::new(self.alloc);
        let mut left = pick;
        for sector in 0..self.sectors {
            let contents = self.contents(sector)?;
            let count = contents.len() as u64;
            image.extend_from_slice(&contents[(left % count) as usize])?;
            left /= count;
        }
        Ok(image)
    }

    // What a crash may leave in a sector, oldest first.
    fn contents(&self, sector: u32) -> Result<Vec<[u8; SECTOR]>, AllocError>
        requires { sector < self.now.sectors }
        ensures { IfOk result (λ contents. contents.items ≡ possible (medium_state self.now sector)) }
    {
        let mut contents = Vec::new(self.alloc);
        for covered in &self.covered {
            push_covered(&mut contents, sector, covered)?;
        }
        contents.push(piece(&self.bytes, sector as usize))?;
        Ok(contents)
    }
}

// What a write covered in a sector.
fn push_covered(
    contents: &mut Vec<[u8; SECTOR]>,
    sector: u32,
    covered: &Covered,
) -> Result<(), AllocError>
    ensures { OnOk result
        (contents.new.items ≡ contents.old.items ++ covered_by sector covered.now) }
{
    if sector >= covered.sector
        && ((sector - covered.sector) as usize) < covered.bytes.len() / SECTOR
    {
        contents.push(piece(&covered.bytes, (sector - covered.sector) as usize))?;
    }
    Ok(())
}

// Notes what a write covers, in the room that was reserved.
fn cover(covered: &mut Vec<Covered>, sector: u32, bytes: Vec<u8>)
    requires { vec_len covered.old < vec_capacity covered.old }
    ensures { covered.new.items
        ≡ covered.old.items ++ record { sector = sector; bytes = bytes } ∷ [] }
{
    match covered.push(Covered { sector, bytes }) {
        Ok(()) => {}
        Err(_) => unreachable!(),
    }
}

// One fault more.
fn fault(faults: &mut u64) -> Fault
    ensures count { faults.new ≡ raised faults.old }
    ensures number { result.number ≡ faults.new }
{
    *faults = faults.saturating_add(1);
    Fault { number: *faults }
}

// One fault more, for want of memory.
fn starved(faults: &mut u64, count: &mut u64) -> Fault
    ensures fault { faults.new ≡ raised faults.old }
    ensures count { count.new ≡ raised count.old }
    ensures number { result.number ≡ faults.new }
{
    *count = count.saturating_add(1);
    fault(faults)
}

// Notes a call, if there is memory for it, and says whether it passes.
fn note(
    calls: &mut Vec<Call>,
    faults: &mut u64,
    count: &mut u64,
    fails: bool,
    request: Request,
) -> Result<(), Fault>
    ensures may { OnOk result (fails ≡ false) }
    ensures ok { OnOk result
        (calls.new.items ≡ calls.old.items ++ record { request = request; passed = true } ∷ []) }
    ensures fed { OnOk result (count.new ≡ count.old) }
    ensures err { OnErr result (((calls.new.items ≡ calls.old.items) × (count.new ≡ raised count.old))
        ⊎ (IsTrue fails × (count.new ≡ count.old) × (calls.new.items
        ≡ calls.old.items ++ record { request = request; passed = false } ∷ []))) }
    ensures cause { HasCause faults.old faults.new result }
    ensures number { IfErr result (λ fault. fault.number ≡ faults.new) }
{
    let passed = !fails;
    if calls.push(Call { request, passed }).is_err() {
        return Err(starved(faults, count));
    }
    if fails {
        return Err(fault(faults));
    }
    Ok(())
}
