use crate::lists::{Bytes, NameList};

#[derive(Clone, Copy, Debug, PartialEq, Eq)]
pub enum Whence {
    Set,
    Cur,
    End,
}

#[derive(Drop)]
pub enum Op {
    OpenFile {
        path: Bytes,
        read: bool,
        write: bool,
        creat: bool,
        excl: bool,
        trunc: bool,
        append: bool,
    },
    Close {
        fd: u64,
    },
    Read {
        fd: u64,
        n: u32,
    },
    Write {
        fd: u64,
        bytes: Bytes,
    },
    Pread {
        fd: u64,
        n: u32,
        at: u64,
    },
    Pwrite {
        fd: u64,
        bytes: Bytes,
        at: u64,
    },
    Seek {
        fd: u64,
        whence: Whence,
        by: i64,
    },
    Trunc {
        fd: u64,
        size: u64,
    },
    Fsync {
        fd: u64,
    },
    Sync,
    Mkdir {
        path: Bytes,
    },
    Rmdir {
        path: Bytes,
    },
    Unlink {
        path: Bytes,
    },
    Rename {
        from: Bytes,
        to: Bytes,
    },
    Stat {
        path: Bytes,
    },
    List {
        path: Bytes,
    },
}

#[derive(Clone, Copy, Debug, PartialEq, Eq)]
pub enum Errno {
    Enoent,
    Einval,
    Enametoolong,
    Enotdir,
    Eexist,
    Eisdir,
    Enotempty,
    Ebusy,
    Eperm,
    Ebadf,
    Emfile,
    Efbig,
}

impl Errno {
    ghost use Rattle.std.specs.Prelude.{◌≡◌};
    ghost use Rattle.ufs_model.specs.ErrnoName.{errno_name};

    /// The name that POSIX gives it, as `ENOENT`.
    pub fn name(self) -> &'static str
        ensures { result.now ≡ errno_name self }
    {
        match self {
            Errno::Enoent => "ENOENT",
            Errno::Einval => "EINVAL",
            Errno::Enametoolong => "ENAMETOOLONG",
            Errno::Enotdir => "ENOTDIR",
            Errno::Eexist => "EEXIST",
            Errno::Eisdir => "EISDIR",
            Errno::Enotempty => "ENOTEMPTY",
            Errno::Ebusy => "EBUSY",
            Errno::Eperm => "EPERM",
            Errno::Ebadf => "EBADF",
            Errno::Emfile => "EMFILE",
            Errno::Efbig => "EFBIG",
        }
    }
}

/// Why a request was left undone. It is a value that traces print and that may be read back, so `Memory` carries nothing; a
/// call makes it of a want of memory, or of a number's end, alone.
#[derive(Clone, Copy, Debug, PartialEq, Eq)]
pub enum Excuse {
    Memory,
    Device { fault: u64 },
    Stopped { fault: u64 },
    Blocks { need: u32, had: u32 },
    Inodes,
    Extents { need: u32 },
}

#[derive(Drop)]
pub enum Reply {
    Done,
    Fd(u32),
    Count(u32),
    At(u64),
    Got(Bytes),
    IsFile { size: u64 },
    IsDir { entries: u32 },
    Names(NameList),
    Refused(Errno),
    Excused(Excuse),
}

#[derive(Clone, Copy, Debug, PartialEq, Eq)]
pub enum Actor {
    Client(u8),
    Worker(u8),
    Primary,
}

#[derive(Drop)]
pub struct Entry {
    pub ticket: u64,
    pub client: u8,
    pub seq: u32,
    pub by: Actor,
    pub op: Op,
    pub reply: Reply,
}

/// What a descriptor stands for. `file` is `None` for a directory.
#[derive(Clone, Copy, Debug, PartialEq, Eq)]
pub struct Desc {
    pub file: Option<u32>,
    pub at: u64,
    pub read: bool,
    pub write: bool,
    pub append: bool,
}

/// What stands at a path.
#[derive(Clone, Copy, Debug, PartialEq, Eq)]
pub enum Node {
    Dir,
    File(u32),
}

/// What stands at a path of a tree that isn't numbered.
#[derive(Drop)]
pub enum PathNode {
    Dir,
    File(Bytes),
}

/// A whole path and what stands there.
#[derive(Drop)]
pub struct PathEntry {
    pub path: Bytes,
    pub node: PathNode,
}

/// A part of the server's state, which one hand holds.
#[derive(Clone, Copy, Debug, PartialEq, Eq)]
pub enum PartName {
    /// A client's entries and descriptors.
    Client(u8),
    /// What a client had when it last asked.
    Asked(u8),
    /// A file's bytes, by its number.
    File(u32),
    /// The paths.
    Names,
    /// What the disk holds.
    Store,
}

/// What a lease promises for as long as it is live.
#[derive(Drop)]
pub enum Fact {
    /// The file has that size, and these bytes from that block on.
    Holds { first: u32, size: u64, bytes: Bytes },
    /// The path names the file.
    Resolves { path: Bytes, file: u32 },
}

/// A client's right to answer from a fact while the clock, in ticks, is below `until`.
#[derive(Drop)]
pub struct Lease {
    pub client: u8,
    pub part: PartName,
    pub until: u32,
    pub fact: Fact,
}

/// A request as a server sees it.
#[derive(Drop)]
pub struct Ask {
    pub client: u8,
    pub seq: u32,
    pub op: Op,
    /// What the request's descriptor stands for.
    pub desc: Option<Desc>,
    /// The client's lowest free descriptor for an `open`, and 0 for any other request.
    pub fd: u32,
    /// Whether this `close` ends the client's hold of the file.
    pub last: bool,
}

/// How many requests on a file a worker served.
#[derive(Clone, Copy, Debug, PartialEq, Eq)]
pub struct Load {
    pub file: u32,
    pub worker: u8,
    pub count: u32,
}
