// Why a path isn't read.
use ufs_base::Memory;
use ufs_model::Errno;

/// The first fault of a path's text, in this order; of two components the left one's comes first.
#[derive(Clone, Copy, Debug, PartialEq, Eq)]
pub enum PathFault {
    /// No byte at all.
    Empty,
    /// The first byte isn't a slash.
    NotAbsolute,
    /// More than 1,023 bytes.
    TooLong,
    /// A byte that isn't one of 0x21 to 0x7e, or the component is `.` or `..`.
    BadComponent,
    /// A component of more than 58 bytes.
    NameTooLong,
    /// A slash at the end, where the path isn't the root.
    TrailingSlash,
    /// Want of memory, which tells nothing of the text.
    Memory(Memory),
}

impl PathFault {
    ghost use Rattle.std.specs.Prelude.{◌≡◌};
    ghost use Rattle.ufs_path.specs.Faults.{errno_of};

    /// What a client is told. `None` for want of memory.
    pub fn errno(self) -> Option<Errno>
        ensures { result ≡ errno_of self }
    {
        match self {
            PathFault::Empty => Some(Errno::Enoent),
            PathFault::NotAbsolute | PathFault::BadComponent | PathFault::TrailingSlash => {
                Some(Errno::Einval)
            }
            PathFault::TooLong | PathFault::NameTooLong => Some(Errno::Enametoolong),
            PathFault::Memory(_) => None,
        }
    }
}
