// A mirror of which is known how it goes on from its beginning.
ghost use Rattle.std.specs.Prelude.{◌≡◌, ◌+◌, ◌&&◌, IsTrue};
ghost use Rattle.ufs_mirror.specs.Pairs.{Follows, moments_of, watched};
ghost use Rattle.ufs_process.specs.Counts.{HaveCounted, counted_prop, no_pairs};

use std::marker::{Brand, PhantomData};
use ufs_disk::{Disk, Fault};
use ufs_mirror::Mirror;

/// The counts of faults that two legs came with. Their caller picks them.
pub(crate) trait Counts {
    ghost use Rattle.std.specs.Prelude.{ℕ};

    ghost first: { ℕ };

    ghost second: { ℕ };
}

impl Counts for Brand {
    ghost first = { 0 };

    ghost second = { 0 };
}

/// These, and the moments of the pair at which a mirror began.
pub(crate) trait Origin {
    ghost use Rattle.std.specs.Prelude.{ℕ};
    ghost use Rattle.ufs_mirror.specs.Pairs.{Pairs};

    ghost first: { ℕ };

    ghost second: { ℕ };

    ghost pairs: { Pairs };
}

impl Origin for Brand {
    ghost first = { 0 };

    ghost second = { 0 };

    ghost pairs = { no_pairs };
}

/// A mirror that began so.
#[derive(Drop)]
pub(crate) struct Counted<A: Disk, B: Disk, N: Origin> {
    pub(crate) mirror: Mirror<A, B>,
    pub(crate) of: PhantomData<N>,
    ghost counts: { HaveCounted N.first N.second mirror.legs.picks mirror.stopped mirror.faults (A.faults mirror.legs.both.first) (B.faults mirror.legs.both.second) } by { counted_prop _ _ _ _ _ _ _ },
    ghost follows: { ∥ (IsTrue A.visible → IsTrue B.visible → Follows (A.keeps && B.keeps) N.pairs
        (watched (λ l. A.moments l.first) (λ l. B.moments l.second) mirror.legs.log.items mirror.legs.both mirror.legs.picks)) ∥₁ },
}

impl<A: Disk, B: Disk, N: Origin> Disk for Counted<A, B, N> {
    ghost use Rattle.ufs_mirror.specs.Whole.{below_all, left_of, right_of, whole_of};

    ghost visible = { A.visible && B.visible };

    ghost keeps = { A.keeps && B.keeps };

    ghost size = { λ m. m.mirror.sectors };

    ghost moments = { λ m. moments_of m.mirror.sectors
        (watched (λ l. A.moments l.first) (λ l. B.moments l.second) m.mirror.legs.log.items m.mirror.legs.both m.mirror.legs.picks) };

    ghost faults = { λ m. m.mirror.faults };

    ghost small = { λ m. below_all m.mirror.small };

    ghost whole = { λ visible m. whole_of m.mirror.sectors (A.size m.mirror.legs.both.first) (B.size m.mirror.legs.both.second) (A.moments m.mirror.legs.both.first) (B.moments m.mirror.legs.both.second) m.mirror.legs.picks m.mirror.first_sized m.mirror.second_sized
        (A.whole (left_of A.visible B.visible visible) m.mirror.legs.both.first) (B.whole (right_of A.visible B.visible visible) m.mirror.legs.both.second) };

    fn sectors(&self) -> u32 {
        self.mirror.sectors()
    }

    fn read(&mut self, sector: u32, buf: &mut [u8]) -> Result<(), Fault> {
        self.mirror.read(sector, buf)
    }

    fn write(&mut self, sector: u32, bytes: &[u8]) -> Result<(), Fault> {
        self.mirror.write(sector, bytes)
    }

    fn barrier(&mut self) -> Result<(), Fault> {
        self.mirror.barrier()
    }
}

impl<A: Disk, B: Disk, N: Origin> Counted<A, B, N> {
    pub(crate) fn new(mirror: Mirror<A, B>) -> Self
        requires counted { HaveCounted N.first N.second mirror.legs.picks mirror.stopped mirror.faults (A.faults mirror.legs.both.first) (B.faults mirror.legs.both.second) }
        requires begins { N.pairs ≡ (watched (λ l. A.moments l.first) (λ l. B.moments l.second) mirror.legs.log.items mirror.legs.both mirror.legs.picks) }
        ensures { result.mirror ≡ mirror }
    {
        Counted {
            mirror,
            of: PhantomData,
        }
    }
}
