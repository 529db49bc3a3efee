use ufs_base::Lack;
use ufs_client::ToldLists;
use ufs_disk::Disk;

/// What a command over two legs gives back.
#[derive(Drop)]
pub struct MirrorOutcome<A: Disk, B: Disk> {
    /// The status of the process.
    pub status: u8,
    /// What was lacking where `recover`, `tree` or `check` over the mirror ended for want of something. Of no other ending this is
    /// told.
    pub lacked: Option<Lack>,
    /// What the session told its clients; nothing for a command that serves nobody.
    pub told: ToldLists,
    /// The legs that the command was given.
    pub first: A,
    pub second: B,
}
