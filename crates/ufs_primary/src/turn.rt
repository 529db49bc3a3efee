use ufs_base::Lack;

/// What the primary did in a turn.
#[derive(Clone, Copy, PartialEq, Eq, Debug, Drop)]
pub enum PrimaryTurn {
    /// A file came back; where a worker was noted and nobody waited for it, it is on its way there.
    Settled,
    /// A worker told how many requests it served, by their files. Nothing is kept of that yet.
    Noted,
    /// A request was answered.
    Served,
    /// A request on a file that a worker has was answered with a redirect to that.
    Redirected { file: u32 },
    /// A request waits for the file, which is elsewhere or on its way, and was asked for.
    Waiting { file: u32 },
    /// There was nothing to do; or each client's answer or request is kept, and no request is taken up till one of these goes.
    Idle,
    /// There was no room for a file that came: it is tried again in each later turn.
    Lack(Lack),
}
