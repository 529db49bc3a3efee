// Why two legs make no mirror.
use crate::{Legpair, Picks};
use http_server::Log;

/// Why two legs make no mirror.
#[derive(Clone, Copy, Debug, PartialEq, Eq)]
pub enum MirrorFault {
    /// Neither last sector is a label.
    NoLabel,
    /// The legs have different numbers of sectors.
    Unequal { first: u32, second: u32 },
    /// A leg has fewer than two sectors.
    TooSmall,
    /// A call of a leg failed, and this is its count of faults.
    Device { fault: u64 },
}

/// Two legs that make no mirror, given back.
#[derive(Drop)]
pub struct Unpaired<A, B> {
    pub first: A,
    pub second: B,
    pub fault: MirrorFault,

    /// What they were before each call of one of them, from the moment on at which both labels had
    /// been read. Proofs alone read it.
    pub noted: Log<Legpair<A, B>, Picks>,

    /// Which of them opening may pick now.
    pub picks: Picks,
}
