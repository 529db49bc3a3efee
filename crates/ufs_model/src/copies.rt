// Copies of what entries have in them, which take memory.
ghost use Rattle.std.specs.Prelude.{◌≡◌, IfOk};

use crate::data::{Entry, Op, Reply};
use crate::lists::{Bytes, NameList};
use std::alloc::Global;
use ufs_base::Memory;

impl Bytes {
    /// Takes as much memory as it has.
    pub fn copy(&self, alloc: Global) -> Result<Self, Memory>
        ensures { IfOk result (λ copy. copy ≡ self.now) }
    {
        Ok(Bytes::from_vec(self.as_slice().to_vec(alloc)?))
    }
}

impl NameList {
    /// Takes as much memory as it has.
    pub fn copy(&self, alloc: Global) -> Result<Self, Memory>
        ensures { IfOk result (λ copy. copy ≡ self.now) }
    {
        let mut names = Vec::new(alloc);
        for name in self.as_slice() {
            names.push(name.copy(alloc)?)?;
        }
        Ok(NameList::from_vec(names))
    }
}

impl Op {
    ghost use Rattle.std.specs.Prelude.{IsTrue};
    ghost use Rattle.ufs_model.specs.OpKinds.{is_open, is_on_fd};

    fn copy_open(&self, alloc: Global) -> Result<Self, Memory>
        requires { IsTrue (is_open self.now) }
        ensures { IfOk result (λ copy. copy ≡ self.now) }
    {
        match self {
            Op::OpenFile {
                path,
                read,
                write,
                creat,
                excl,
                trunc,
                append,
            } => Ok(Op::OpenFile {
                path: path.copy(alloc)?,
                read: *read,
                write: *write,
                creat: *creat,
                excl: *excl,
                trunc: *trunc,
                append: *append,
            }),
            _ => unreachable!(),
        }
    }

    fn copy_on_fd(&self, alloc: Global) -> Result<Self, Memory>
        requires { IsTrue (is_on_fd self.now) }
        ensures { IfOk result (λ copy. copy ≡ self.now) }
    {
        Ok(match self {
            Op::Close { fd } => Op::Close { fd: *fd },
            Op::Read { fd, n } => Op::Read { fd: *fd, n: *n },
            Op::Write { fd, bytes } => Op::Write {
                fd: *fd,
                bytes: bytes.copy(alloc)?,
            },
            Op::Pread { fd, n, at } => Op::Pread {
                fd: *fd,
                n: *n,
                at: *at,
            },
            Op::Pwrite { fd, bytes, at } => Op::Pwrite {
                fd: *fd,
                bytes: bytes.copy(alloc)?,
                at: *at,
            },
            Op::Seek { fd, whence, by } => Op::Seek {
                fd: *fd,
                whence: *whence,
                by: *by,
            },
            Op::Trunc { fd, size } => Op::Trunc {
                fd: *fd,
                size: *size,
            },
            Op::Fsync { fd } => Op::Fsync { fd: *fd },
            _ => unreachable!(),
        })
    }

    /// Takes as much memory as it has.
    pub fn copy(&self, alloc: Global) -> Result<Self, Memory>
        ensures { IfOk result (λ copy. copy ≡ self.now) }
    {
        match self {
            Op::OpenFile { .. } => self.copy_open(alloc),
            Op::Sync => Ok(Op::Sync),
            Op::Mkdir { path } => Ok(Op::Mkdir {
                path: path.copy(alloc)?,
            }),
            Op::Rmdir { path } => Ok(Op::Rmdir {
                path: path.copy(alloc)?,
            }),
            Op::Unlink { path } => Ok(Op::Unlink {
                path: path.copy(alloc)?,
            }),
            Op::Rename { from, to } => Ok(Op::Rename {
                from: from.copy(alloc)?,
                to: to.copy(alloc)?,
            }),
            Op::Stat { path } => Ok(Op::Stat {
                path: path.copy(alloc)?,
            }),
            Op::List { path } => Ok(Op::List {
                path: path.copy(alloc)?,
            }),
            _ => self.copy_on_fd(alloc),
        }
    }
}

impl Reply {
    /// Takes as much memory as it has.
    pub fn copy(&self, alloc: Global) -> Result<Self, Memory>
        ensures { IfOk result (λ copy. copy ≡ self.now) }
    {
        Ok(match self {
            Reply::Done => Reply::Done,
            Reply::Fd(fd) => Reply::Fd(*fd),
            Reply::Count(count) => Reply::Count(*count),
            Reply::At(at) => Reply::At(*at),
            Reply::Got(bytes) => Reply::Got(bytes.copy(alloc)?),
            Reply::IsFile { size } => Reply::IsFile { size: *size },
            Reply::IsDir { entries } => Reply::IsDir { entries: *entries },
            Reply::Names(names) => Reply::Names(names.copy(alloc)?),
            Reply::Refused(errno) => Reply::Refused(*errno),
            Reply::Excused(excuse) => Reply::Excused(*excuse),
        })
    }
}

impl Entry {
    /// Takes as much memory as it has.
    pub fn copy(&self, alloc: Global) -> Result<Self, Memory>
        ensures { IfOk result (λ copy. copy ≡ self.now) }
    {
        Ok(Entry {
            ticket: self.ticket,
            client: self.client,
            seq: self.seq,
            by: self.by,
            op: self.op.copy(alloc)?,
            reply: self.reply.copy(alloc)?,
        })
    }
}
