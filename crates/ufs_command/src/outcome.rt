ghost use Rattle.std.specs.Prelude.{◌≡◌, []};

use std::alloc::Global;
use ufs_base::Lack;
use ufs_client::ToldLists;
use ufs_disk::Disk;

/// What a command gives back.
#[derive(Drop)]
pub struct Outcome<D: Disk> {
    /// The status of the process.
    pub status: u8,
    /// What was lacking where `recover`, `tree` or `check` ended for want of something, or the words weren't read for want of
    /// it. Of no other ending this is told.
    pub lacked: Option<Lack>,
    /// What the session told its clients; nothing for a command that serves nobody.
    pub told: ToldLists,
    /// The disk that the command was given.
    pub disk: D,
}

/// How a command ended that serves nobody.
#[derive(Clone, Copy, Debug, PartialEq, Eq)]
pub struct Answered {
    /// The status of the process.
    pub status: u8,
    /// What was lacking, as of an outcome.
    pub lacked: Option<Lack>,
}

/// What a command tells that serves nobody. Takes no memory.
pub fn nothing_told(alloc: Global) -> ToldLists
    ensures { result ≡ [] }
{
    ToldLists::from_vec(Vec::new(alloc))
}
