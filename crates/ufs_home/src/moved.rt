use ufs_base::Lack;

/// What an order to move a file comes to.
#[derive(Clone, Copy, PartialEq, Eq, Debug, Drop)]
pub enum Moved {
    /// The file was at the primary, and is on its way.
    Sent,
    /// Another worker has the file, or is to have it, and is asked for it.
    Recalled,
    /// The file is on its way to the primary, and goes on from there.
    Renoted,
    /// The file is there, or a client waits for it at the primary: nothing is done.
    Nothing,
    /// There was no room for what the order needs: nothing is done.
    Lack(Lack),
}
