// What two legs are before they make a mirror.
ghost use Rattle.std.specs.Prelude.{◌&&◌, [], false, Some, None, ◌≡◌, ◌≢◌, ◌⊎◌, ◌≤◌, ◌<◌, ◌+◌, ◌-◌, IfOk, IsTrue, IfErr, OnErr, OnOk};
ghost use Rattle.ufs_disk.specs.Disk.{IsImage, IsSettled};
ghost use Rattle.ufs_disk.specs.Moments.{reads};
ghost use Rattle.ufs_mirror.specs.Calls.{Rests};
ghost use Rattle.ufs_mirror.specs.Labels;
ghost use Rattle.ufs_base.specs.Faults.{raised};
ghost use Rattle.ufs_mirror.specs.declared.fault.MirrorFault.{MirrorFault};
ghost use Rattle.ufs_mirror.specs.Joined.{Goes, IsCalm, IsLegFault, next_generation};
ghost use Rattle.ufs_mirror.specs.Opens.{MayOpen, Opening, OpensOnly, opened, unlabelled};
ghost use Rattle.ufs_mirror.specs.Pairs.{Runs, moments_of, state_of, watched};
ghost use Rattle.ufs_mirror.specs.Ready.{AreLive, AreReady, HaveLabel, greater};
ghost use Rattle.ufs_mirror.specs.declared.legs.Picks.{Picks};
ghost use Rattle.ufs_mirror.specs.Refused.{IsMakeFault, IsOpenFault, IsSizeFault};

use crate::label::generation;
use crate::legs::Legs;
use crate::{Legpair, Mirror, MirrorFault, Picks, Unpaired};
use http_server::Log;
use ufs_base::SECTOR;
use ufs_disk::Disk;

// The number of sectors of both legs, of which the last is for the label.
pub(crate) fn sizes<A: Disk, B: Disk>(first: &A, second: &B) -> Result<u32, MirrorFault>
    ensures both { OnOk result (A.size first.now ≡ B.size second.now) }
    ensures number { IfOk result (λ number. number ≡ A.size first.now) }
    ensures least { OnOk result (2 ≤ A.size first.now) }
    ensures refused { IfErr result (IsSizeFault (A.size first.now) (B.size second.now)) }
{
    let one = first.sectors();
    let other = second.sectors();
    if one != other {
        return Err(MirrorFault::Unequal {
            first: one,
            second: other,
        });
    }
    if one < 2 {
        return Err(MirrorFault::TooSmall);
    }
    Ok(one)
}

// The generation that a leg's label has as it reads.
fn read_generation<D: Disk>(leg: &mut D, sector: u32) -> Result<u64, MirrorFault>
    requires { sector < D.size leg.old }
    ensures size { D.size leg.new ≡ D.size leg.old }
    ensures number { IsTrue D.visible → IfOk result
        (λ number. number ≡ Labels.generation (reads (D.moments leg.old) sector)) }
    ensures rests { IsTrue D.visible → Rests D.keeps (D.moments leg.old) (D.moments leg.new) }
    ensures passed { OnOk result (D.faults leg.new ≡ D.faults leg.old) }
    ensures refused { IfErr result (λ fault. fault ≡ MirrorFault.Device (D.faults leg.new)) }
    ensures rose { OnErr result (D.faults leg.new ≡ raised (D.faults leg.old)) }
{
    let mut bytes = [0; SECTOR];
    match leg.read(sector, &mut bytes) {
        Ok(()) => Ok(generation(&bytes)),
        Err(fault) => Err(MirrorFault::Device {
            fault: fault.number,
        }),
    }
}

// The generation that a leg's label has, for good.
fn generation_of<D: Disk>(leg: &mut D, sector: u32) -> Result<u64, MirrorFault>
    requires { sector < D.size leg.old }
    ensures size { D.size leg.new ≡ D.size leg.old }
    ensures number { IsTrue D.visible → IfOk result
        (λ number. number ≡ Labels.generation (reads (D.moments leg.old) sector)) }
    ensures rests { IsTrue D.visible → Rests D.keeps (D.moments leg.old) (D.moments leg.new) }
    ensures settled { IsTrue D.visible → OnOk result (IsSettled (D.moments leg.new).state) }
    ensures passed { OnOk result (D.faults leg.new ≡ D.faults leg.old) }
    ensures refused { IfErr result (λ fault. fault ≡ MirrorFault.Device (D.faults leg.new)) }
    ensures rose { OnErr result (D.faults leg.new ≡ raised (D.faults leg.old)) }
{
    match leg.barrier() {
        Ok(()) => read_generation(leg, sector),
        Err(fault) => Err(MirrorFault::Device {
            fault: fault.number,
        }),
    }
}

// What two legs say of themselves: how many sectors of data they have, and their generations.
#[derive(Clone, Copy, Debug, PartialEq, Eq)]
struct Numbers {
    sectors: u32,
    first: u64,
    second: u64,
}

// Reads the labels of both legs, once they are there for good.
fn read_labels<A: Disk, B: Disk>(first: &mut A, second: &mut B) -> Result<Numbers, MirrorFault>
    ensures first_size { A.size first.new ≡ A.size first.old }
    ensures second_size { B.size second.new ≡ B.size second.old }
    ensures sectors { IfOk result (λ found. (found.sectors + 1 ≡ A.size first.old) × (found.sectors + 1 ≡ B.size second.old) × (1 ≤ found.sectors)) }
    ensures first_says { IsTrue A.visible → IfOk result (λ found. found.first ≡ Labels.generation (reads (A.moments first.old) found.sectors)) }
    ensures second_says { IsTrue B.visible → IfOk result (λ found. found.second ≡ Labels.generation (reads (B.moments second.old) found.sectors)) }
    ensures first_rests { IsTrue A.visible → Rests A.keeps (A.moments first.old) (A.moments first.new) }
    ensures second_rests { IsTrue B.visible → Rests B.keeps (B.moments second.old) (B.moments second.new) }
    ensures first_settled { IsTrue A.visible → OnOk result (IsSettled (A.moments first.new).state) }
    ensures second_settled { IsTrue B.visible → OnOk result (IsSettled (B.moments second.new).state) }
    ensures passed { OnOk result ((A.faults first.new ≡ A.faults first.old) × (B.faults second.new ≡ B.faults second.old)) }
    ensures refused { IfErr result (IsMakeFault (A.size first.old) (B.size second.old) (A.faults first.old) (A.faults first.new) (B.faults second.old) (B.faults second.new)) }
{
    let sectors = sizes(first, second)? - 1;
    let one = generation_of(first, sectors)?;
    let other = generation_of(second, sectors)?;
    Ok(Numbers {
        sectors,
        first: one,
        second: other,
    })
}

// Whether the second leg is picked.
fn picks_second(found: Numbers) -> bool
    ensures yes { IsTrue result → found.first < found.second }
    ensures no { result ≡ false → found.second ≤ found.first }
{
    found.second > found.first
}

// Whether the first leg has no label.
fn has_none(found: Numbers) -> bool
    ensures yes { IsTrue result → found.first ≡ 0 }
    ensures no { result ≡ false → 0 < found.first }
{
    found.first == 0
}

// Two legs of which nothing was noted.
fn unpaired<A, B>(both: Legpair<A, B>, fault: MirrorFault) -> Unpaired<A, B>
    ensures first { result.first ≡ both.first }
    ensures second { result.second ≡ both.second }
    ensures fault { result.fault ≡ fault }
    ensures noted { result.noted.items ≡ [] }
    ensures picks { result.picks ≡ Picks.First }
{
    Unpaired {
        first: both.first,
        second: both.second,
        fault,
        noted: Log::new(),
        picks: Picks::First,
    }
}

impl<A: Disk, B: Disk> Mirror<A, B> {
    // The first leg was picked.
    fn open_first(first: A, second: B, found: Numbers) -> Result<Self, Unpaired<A, B>>
        requires picked { 0 < found.first }
        requires order { found.second ≤ found.first }
        requires first_sized { A.size first ≡ found.sectors + 1 }
        requires second_sized { B.size second ≡ found.sectors + 1 }
        requires ready { IsTrue A.visible → IsTrue B.visible → AreReady found.sectors found.first found.second (A.moments first).state (B.moments second).state }
        ensures size { IfOk result (λ m. m.sectors ≡ found.sectors) }
        ensures faults { IfOk result (λ m. m.faults ≡ 0) }
        ensures begun { IfOk result (λ m. m.stopped ≡ false) }
        ensures content { IsTrue A.visible → IsTrue B.visible → IfOk result
            (λ m. opened found.sectors (reads (A.moments first)) (reads (B.moments second)) ≡ Some (reads (moments_of m.sectors (watched (λ l. A.moments l.first) (λ l. B.moments l.second) m.legs.log.items m.legs.both m.legs.picks)))) }
        ensures settled { IsTrue A.visible → IsTrue B.visible → IfOk result (λ m. IsSettled (state_of m.sectors (watched (λ l. A.moments l.first) (λ l. B.moments l.second) m.legs.log.items m.legs.both m.legs.picks).now)) }
        ensures opens { IsTrue A.visible → IsTrue B.visible → IfOk result
            (λ m. opened m.sectors (reads (A.moments m.legs.both.first)) (reads (B.moments m.legs.both.second)) ≡ Some (reads (moments_of m.sectors (watched (λ l. A.moments l.first) (λ l. B.moments l.second) m.legs.log.items m.legs.both m.legs.picks)))) }
        ensures labels { IsTrue A.visible → IsTrue B.visible → IfOk result (λ m. m.legs.picks ≡ Picks.Either
            → HaveLabel m.sectors (next_generation (greater found.first found.second)) (reads (A.moments m.legs.both.first)) (reads (B.moments m.legs.both.second))) }
        ensures live { IfOk result (λ m. AreLive m.legs.picks (A.faults first) (A.faults m.legs.both.first) (B.faults second) (B.faults m.legs.both.second)) }
        ensures crash { IsTrue A.visible → IsTrue B.visible → IfOk result
            (λ m. Opening A.keeps B.keeps (IsCalm found.sectors (MayOpen found.sectors (A.moments first).state (B.moments second).state)) (A.moments first) (B.moments second) (watched (λ l. A.moments l.first) (λ l. B.moments l.second) m.legs.log.items m.legs.both m.legs.picks)) }
        ensures crash_refused { IsTrue A.visible → IsTrue B.visible → IfErr result
            (λ u. Opening A.keeps B.keeps (OpensOnly found.sectors (MayOpen found.sectors (A.moments first).state (B.moments second).state)) (A.moments first) (B.moments second) (watched (λ l. A.moments l.first) (λ l. B.moments l.second) u.noted.items (record { first = u.first; second = u.second }) u.picks)) }
        ensures refused { IfErr result (λ u. IsOpenFault (A.size first) (B.size second) (A.faults first) (A.faults u.first) (B.faults second) (B.faults u.second) u.fault) }
        ensures unlabelled { IsTrue A.visible → IsTrue B.visible → IfErr result (λ u. u.fault ≡ MirrorFault.NoLabel
            → opened found.sectors (reads (A.moments first)) (reads (B.moments second)) ≡ None) }
        ensures given_size { IfErr result (λ u. (A.size u.first ≡ A.size first) × (B.size u.second ≡ B.size second)) }
    {
        let mut legs = Legs {
            both: Legpair { first, second },
            picks: Picks::First,
            log: Log::new(),
            fault: 0,
        };
        match legs.join_second(found.sectors, found.first) {
            Ok(generation) => Ok(Mirror {
                legs,
                stopped: false,
                generation,
                faults: 0,
                sectors: found.sectors,
            }),
            Err(fault) => Err(Unpaired {
                first: legs.both.first,
                second: legs.both.second,
                fault,
                noted: legs.log,
                picks: legs.picks,
            }),
        }
    }

    // The second leg was picked.
    fn open_second(first: A, second: B, found: Numbers) -> Result<Self, Unpaired<A, B>>
        requires picked { found.first < found.second }
        requires first_sized { A.size first ≡ found.sectors + 1 }
        requires second_sized { B.size second ≡ found.sectors + 1 }
        requires ready { IsTrue A.visible → IsTrue B.visible → AreReady found.sectors found.first found.second (A.moments first).state (B.moments second).state }
        ensures size { IfOk result (λ m. m.sectors ≡ found.sectors) }
        ensures faults { IfOk result (λ m. m.faults ≡ 0) }
        ensures begun { IfOk result (λ m. m.stopped ≡ false) }
        ensures content { IsTrue A.visible → IsTrue B.visible → IfOk result
            (λ m. opened found.sectors (reads (A.moments first)) (reads (B.moments second)) ≡ Some (reads (moments_of m.sectors (watched (λ l. A.moments l.first) (λ l. B.moments l.second) m.legs.log.items m.legs.both m.legs.picks)))) }
        ensures settled { IsTrue A.visible → IsTrue B.visible → IfOk result (λ m. IsSettled (state_of m.sectors (watched (λ l. A.moments l.first) (λ l. B.moments l.second) m.legs.log.items m.legs.both m.legs.picks).now)) }
        ensures opens { IsTrue A.visible → IsTrue B.visible → IfOk result
            (λ m. opened m.sectors (reads (A.moments m.legs.both.first)) (reads (B.moments m.legs.both.second)) ≡ Some (reads (moments_of m.sectors (watched (λ l. A.moments l.first) (λ l. B.moments l.second) m.legs.log.items m.legs.both m.legs.picks)))) }
        ensures labels { IsTrue A.visible → IsTrue B.visible → IfOk result (λ m. m.legs.picks ≡ Picks.Either
            → HaveLabel m.sectors (next_generation (greater found.first found.second)) (reads (A.moments m.legs.both.first)) (reads (B.moments m.legs.both.second))) }
        ensures live { IfOk result (λ m. AreLive m.legs.picks (A.faults first) (A.faults m.legs.both.first) (B.faults second) (B.faults m.legs.both.second)) }
        ensures crash { IsTrue A.visible → IsTrue B.visible → IfOk result
            (λ m. Opening A.keeps B.keeps (IsCalm found.sectors (MayOpen found.sectors (A.moments first).state (B.moments second).state)) (A.moments first) (B.moments second) (watched (λ l. A.moments l.first) (λ l. B.moments l.second) m.legs.log.items m.legs.both m.legs.picks)) }
        ensures crash_refused { IsTrue A.visible → IsTrue B.visible → IfErr result
            (λ u. Opening A.keeps B.keeps (OpensOnly found.sectors (MayOpen found.sectors (A.moments first).state (B.moments second).state)) (A.moments first) (B.moments second) (watched (λ l. A.moments l.first) (λ l. B.moments l.second) u.noted.items (record { first = u.first; second = u.second }) u.picks)) }
        ensures refused { IfErr result (λ u. IsOpenFault (A.size first) (B.size second) (A.faults first) (A.faults u.first) (B.faults second) (B.faults u.second) u.fault) }
        ensures unlabelled { IsTrue A.visible → IsTrue B.visible → IfErr result (λ u. u.fault ≡ MirrorFault.NoLabel
            → opened found.sectors (reads (A.moments first)) (reads (B.moments second)) ≡ None) }
        ensures given_size { IfErr result (λ u. (A.size u.first ≡ A.size first) × (B.size u.second ≡ B.size second)) }
    {
        let mut legs = Legs {
            both: Legpair { first, second },
            picks: Picks::Second,
            log: Log::new(),
            fault: 0,
        };
        match legs.join_first(found.sectors, found.second) {
            Ok(generation) => Ok(Mirror {
                legs,
                stopped: false,
                generation,
                faults: 0,
                sectors: found.sectors,
            }),
            Err(fault) => Err(Unpaired {
                first: legs.both.first,
                second: legs.both.second,
                fault,
                noted: legs.log,
                picks: legs.picks,
            }),
        }
    }

    // The labels were read, and nothing is pending.
    fn open_found(first: A, second: B, found: Numbers) -> Result<Self, Unpaired<A, B>>
        requires some { 1 ≤ found.sectors }
        requires first_sized { A.size first ≡ found.sectors + 1 }
        requires second_sized { B.size second ≡ found.sectors + 1 }
        requires ready { IsTrue A.visible → IsTrue B.visible → AreReady found.sectors found.first found.second (A.moments first).state (B.moments second).state }
        ensures size { IfOk result (λ m. m.sectors ≡ found.sectors) }
        ensures faults { IfOk result (λ m. m.faults ≡ 0) }
        ensures begun { IfOk result (λ m. m.stopped ≡ false) }
        ensures content { IsTrue A.visible → IsTrue B.visible → IfOk result
            (λ m. opened found.sectors (reads (A.moments first)) (reads (B.moments second)) ≡ Some (reads (moments_of m.sectors (watched (λ l. A.moments l.first) (λ l. B.moments l.second) m.legs.log.items m.legs.both m.legs.picks)))) }
        ensures settled { IsTrue A.visible → IsTrue B.visible → IfOk result (λ m. IsSettled (state_of m.sectors (watched (λ l. A.moments l.first) (λ l. B.moments l.second) m.legs.log.items m.legs.both m.legs.picks).now)) }
        ensures opens { IsTrue A.visible → IsTrue B.visible → IfOk result
            (λ m. opened m.sectors (reads (A.moments m.legs.both.first)) (reads (B.moments m.legs.both.second)) ≡ Some (reads (moments_of m.sectors (watched (λ l. A.moments l.first) (λ l. B.moments l.second) m.legs.log.items m.legs.both m.legs.picks)))) }
        ensures labels { IsTrue A.visible → IsTrue B.visible → IfOk result (λ m. m.legs.picks ≡ Picks.Either
            → HaveLabel m.sectors (next_generation (greater found.first found.second)) (reads (A.moments m.legs.both.first)) (reads (B.moments m.legs.both.second))) }
        ensures live { IfOk result (λ m. AreLive m.legs.picks (A.faults first) (A.faults m.legs.both.first) (B.faults second) (B.faults m.legs.both.second)) }
        ensures crash { IsTrue A.visible → IsTrue B.visible → IfOk result
            (λ m. Opening A.keeps B.keeps (IsCalm found.sectors (MayOpen found.sectors (A.moments first).state (B.moments second).state)) (A.moments first) (B.moments second) (watched (λ l. A.moments l.first) (λ l. B.moments l.second) m.legs.log.items m.legs.both m.legs.picks)) }
        ensures crash_refused { IsTrue A.visible → IsTrue B.visible → IfErr result
            (λ u. Opening A.keeps B.keeps (OpensOnly found.sectors (MayOpen found.sectors (A.moments first).state (B.moments second).state)) (A.moments first) (B.moments second) (watched (λ l. A.moments l.first) (λ l. B.moments l.second) u.noted.items (record { first = u.first; second = u.second }) u.picks)) }
        ensures refused { IfErr result (λ u. IsOpenFault (A.size first) (B.size second) (A.faults first) (A.faults u.first) (B.faults second) (B.faults u.second) u.fault) }
        ensures unlabelled { IsTrue A.visible → IsTrue B.visible → IfErr result (λ u. u.fault ≡ MirrorFault.NoLabel
            → opened found.sectors (reads (A.moments first)) (reads (B.moments second)) ≡ None) }
        ensures given_size { IfErr result (λ u. (A.size u.first ≡ A.size first) × (B.size u.second ≡ B.size second)) }
    {
        if picks_second(found) {
            return Self::open_second(first, second, found);
        }
        if has_none(found) {
            return Err(unpaired(Legpair { first, second }, MirrorFault::NoLabel));
        }
        Self::open_first(first, second, found)
    }

    /// The mirror that these legs are. Of their two labels the one with the greater generation is
    /// picked, the first at a tie, and a leg without a label never. The picked leg's content is the
    /// mirror's: it is copied over the other leg, and then both get the next generation, the picked
    /// one first, each behind a barrier. After half of all generations they begin anew at 1, so they
    /// never run out.
    ///
    /// A fault while the labels are read refuses, and so does each fault of the picked leg. The
    /// other leg is let go where it fails, once the picked one has a greater generation for good;
    /// only where there is none, at 2^64 - 1, its fault refuses too.
    pub fn open(first: A, second: B) -> Result<Self, Unpaired<A, B>>
        ensures size { IfOk result (λ m. (m.sectors + 1 ≡ A.size first) × (m.sectors + 1 ≡ B.size second)) }
        ensures least { OnOk result (2 ≤ A.size first) }
        ensures faults { IfOk result (λ m. m.faults ≡ 0) }
        ensures begun { IfOk result (λ m. m.stopped ≡ false) }

        // It has what opening the two as they read gives.
        ensures content { IsTrue A.visible → IsTrue B.visible → IfOk result
            (λ m. opened (A.size first - 1) (reads (A.moments first)) (reads (B.moments second)) ≡ Some (reads (moments_of m.sectors (watched (λ l. A.moments l.first) (λ l. B.moments l.second) m.legs.log.items m.legs.both m.legs.picks)))) }
        ensures settled { IsTrue A.visible → IsTrue B.visible → IfOk result (λ m. IsSettled (state_of m.sectors (watched (λ l. A.moments l.first) (λ l. B.moments l.second) m.legs.log.items m.legs.both m.legs.picks).now)) }

        // The legs, as it leaves them, open to the same.
        ensures opens { IsTrue A.visible → IsTrue B.visible → IfOk result
            (λ m. opened m.sectors (reads (A.moments m.legs.both.first)) (reads (B.moments m.legs.both.second)) ≡ Some (reads (moments_of m.sectors (watched (λ l. A.moments l.first) (λ l. B.moments l.second) m.legs.log.items m.legs.both m.legs.picks)))) }
        ensures labels { IsTrue A.visible → IsTrue B.visible → IfOk result (λ m. m.legs.picks ≡ Picks.Either
            → HaveLabel m.sectors (next_generation (greater (Labels.generation (reads (A.moments first) (A.size first - 1))) (Labels.generation (reads (B.moments second) (A.size first - 1)))))
            (reads (A.moments m.legs.both.first)) (reads (B.moments m.legs.both.second))) }

        // A leg is let go only where it failed.
        ensures live { IfOk result (λ m. AreLive m.legs.picks (A.faults first) (A.faults m.legs.both.first) (B.faults second) (B.faults m.legs.both.second)) }

        // At each moment of the call, whatever pair of images the legs leave: where it opens, it
        // opens to an image that it might have opened to before.
        ensures crash { IsTrue A.visible → IsTrue B.visible → IfOk result
            (λ m. Opening A.keeps B.keeps (IsCalm (A.size first - 1) (MayOpen (A.size first - 1) (A.moments first).state (B.moments second).state)) (A.moments first) (B.moments second) (watched (λ l. A.moments l.first) (λ l. B.moments l.second) m.legs.log.items m.legs.both m.legs.picks)) }
        ensures crash_refused { IsTrue A.visible → IsTrue B.visible → IfErr result
            (λ u. Opening A.keeps B.keeps (OpensOnly (A.size first - 1) (MayOpen (A.size first - 1) (A.moments first).state (B.moments second).state)) (A.moments first) (B.moments second) (watched (λ l. A.moments l.first) (λ l. B.moments l.second) u.noted.items (record { first = u.first; second = u.second }) u.picks)) }
        ensures refused { IfErr result (λ u. IsOpenFault (A.size first) (B.size second) (A.faults first) (A.faults u.first) (B.faults second) (B.faults u.second) u.fault) }
        ensures unlabelled { IsTrue A.visible → IsTrue B.visible → IfErr result (λ u. u.fault ≡ MirrorFault.NoLabel
            → opened (A.size first - 1) (reads (A.moments first)) (reads (B.moments second)) ≡ None) }
        ensures given_back { IfErr result (λ u. (A.size u.first ≡ A.size first) × (B.size u.second ≡ B.size second)) }
    {
        let mut both = Legpair { first, second };
        match read_labels(&mut both.first, &mut both.second) {
            Ok(found) => Self::open_found(both.first, both.second, found),
            Err(fault) => Err(unpaired(both, fault)),
        }
    }

    // The mirror of two legs with so many sectors of data, with the first one's.
    fn make_of(first: A, second: B, sectors: u32) -> Result<Self, Unpaired<A, B>>
        requires first_sized { A.size first ≡ sectors + 1 }
        requires second_sized { B.size second ≡ sectors + 1 }
        ensures size { IfOk result (λ m. m.sectors ≡ sectors) }
        ensures faults { IfOk result (λ m. m.faults ≡ 0) }
        ensures begun { IfOk result (λ m. m.stopped ≡ false) }
        ensures both { IfOk result (λ m. m.legs.picks ≡ Picks.Either) }
        ensures content { IsTrue A.visible → IsTrue B.visible → IfOk result (λ m. reads (moments_of m.sectors (watched (λ l. A.moments l.first) (λ l. B.moments l.second) m.legs.log.items m.legs.both m.legs.picks)) ≡ unlabelled sectors (reads (A.moments first))) }
        ensures settled { IsTrue A.visible → IsTrue B.visible → IfOk result (λ m. IsSettled (state_of m.sectors (watched (λ l. A.moments l.first) (λ l. B.moments l.second) m.legs.log.items m.legs.both m.legs.picks).now)) }
        ensures opens { IsTrue A.visible → IsTrue B.visible → IfOk result
            (λ m. opened m.sectors (reads (A.moments m.legs.both.first)) (reads (B.moments m.legs.both.second)) ≡ Some (reads (moments_of m.sectors (watched (λ l. A.moments l.first) (λ l. B.moments l.second) m.legs.log.items m.legs.both m.legs.picks)))) }
        ensures labels { IsTrue A.visible → IsTrue B.visible → IfOk result (λ m. HaveLabel m.sectors 1 (reads (A.moments m.legs.both.first)) (reads (B.moments m.legs.both.second))) }
        ensures passed { IfOk result (λ m. (A.faults m.legs.both.first ≡ A.faults first) × (B.faults m.legs.both.second ≡ B.faults second)) }
        ensures refused { IfErr result (λ u. IsMakeFault (A.size first) (B.size second) (A.faults first) (A.faults u.first) (B.faults second) (B.faults u.second) u.fault) }
        ensures given_back { IfErr result (λ u. (A.size u.first ≡ A.size first) × (B.size u.second ≡ B.size second)) }
    {
        let mut legs = Legs {
            both: Legpair { first, second },
            picks: Picks::First,
            log: Log::new(),
            fault: 0,
        };
        if !legs.make_alike(sectors) {
            let fault = legs.refusal();
            return Err(unpaired(legs.both, fault));
        }
        Ok(Mirror {
            legs: Legs {
                both: legs.both,
                picks: Picks::Either,
                log: Log::new(),
                fault: 0,
            },
            stopped: false,
            generation: 1,
            faults: 0,
            sectors,
        })
    }

    /// The mirror of these legs with the first one's content, which is copied over the second. Both
    /// labels get the generation 1, each behind a barrier. Each fault refuses. Until both labels
    /// are there for good nothing is promised of a crash.
    pub fn make(first: A, second: B) -> Result<Self, Unpaired<A, B>>
        ensures size { IfOk result (λ m. (m.sectors + 1 ≡ A.size first) × (m.sectors + 1 ≡ B.size second)) }
        ensures least { OnOk result (2 ≤ A.size first) }
        ensures faults { IfOk result (λ m. m.faults ≡ 0) }
        ensures begun { IfOk result (λ m. m.stopped ≡ false) }
        ensures both { IfOk result (λ m. m.legs.picks ≡ Picks.Either) }
        ensures content { IsTrue A.visible → IsTrue B.visible → IfOk result (λ m. reads (moments_of m.sectors (watched (λ l. A.moments l.first) (λ l. B.moments l.second) m.legs.log.items m.legs.both m.legs.picks)) ≡ unlabelled (A.size first - 1) (reads (A.moments first))) }
        ensures settled { IsTrue A.visible → IsTrue B.visible → IfOk result (λ m. IsSettled (state_of m.sectors (watched (λ l. A.moments l.first) (λ l. B.moments l.second) m.legs.log.items m.legs.both m.legs.picks).now)) }

        // The legs, as it leaves them, open to the same.
        ensures opens { IsTrue A.visible → IsTrue B.visible → IfOk result
            (λ m. opened m.sectors (reads (A.moments m.legs.both.first)) (reads (B.moments m.legs.both.second)) ≡ Some (reads (moments_of m.sectors (watched (λ l. A.moments l.first) (λ l. B.moments l.second) m.legs.log.items m.legs.both m.legs.picks)))) }
        ensures labels { IsTrue A.visible → IsTrue B.visible → IfOk result (λ m. HaveLabel m.sectors 1 (reads (A.moments m.legs.both.first)) (reads (B.moments m.legs.both.second))) }
        ensures passed { IfOk result (λ m. (A.faults m.legs.both.first ≡ A.faults first) × (B.faults m.legs.both.second ≡ B.faults second)) }
        ensures refused { IfErr result (λ u. IsMakeFault (A.size first) (B.size second) (A.faults first) (A.faults u.first) (B.faults second) (B.faults u.second) u.fault) }
        ensures given_back { IfErr result (λ u. (A.size u.first ≡ A.size first) × (B.size u.second ≡ B.size second)) }
    {
        let both = Legpair { first, second };
        match sizes(&both.first, &both.second) {
            Ok(sectors) => Self::make_of(both.first, both.second, sectors - 1),
            Err(fault) => Err(unpaired(both, fault)),
        }
    }
}
