// Where a file is, and who waits for it.
use crate::clients::ClientList;

/// Which server has a file.
#[derive(Clone, Copy, Debug, PartialEq, Eq)]
pub enum Owner {
    /// The primary, which has each file that isn't elsewhere.
    Primary,
    /// A worker.
    Worker(u8),
    /// A worker was asked to send it back, and it isn't here yet.
    Coming { from: u8 },
    /// The primary still keeps the parcel that a worker is to have.
    Going { to: u8 },
}

/// What the primary knows of a file.
#[derive(Drop)]
pub struct Standing {
    pub owner: Owner,
    /// The worker that is to have the file once it has come, 0 for the primary and for a file that isn't coming.
    pub note: u8,
    pub waiting: ClientList,
}
