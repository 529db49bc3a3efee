use ufs_base::Memory;

/// What a worker did in a turn.
#[derive(Clone, Copy, PartialEq, Eq, Debug, Drop)]
pub enum WorkerTurn {
    /// A file came, and is held.
    Took,
    /// The primary wanted a file back, which was sent to it, or is kept where the ring was full.
    Gave,
    /// A request on a file that it doesn't hold was answered with a redirect to the primary.
    Redirected { file: u32 },
    /// A request on a file that it holds was answered.
    Served,
    /// There was nothing to do.
    Idle,
    /// A file came, and no memory was found for it: it waits, and each later turn tries it first. Or none was found for the answer of the
    /// request in front, which stays there.
    Memory(Memory),
}
