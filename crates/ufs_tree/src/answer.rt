// The reply to a request that isn't refused.
use crate::tree::Parts;
use ufs_base::Lack;
use ufs_calls::{part, seek_to, text};
use ufs_model::{Bytes, Node, Op, Reply, Whence};

impl Parts {
    ghost use Rattle.std.specs.Prelude.{◌≡◌, ◌≤◌, ◌^◌, IfOk, None, List, ℕ, Err};
    ghost use Rattle.ufs_base.specs.declared.lack.Lack.TheVariants.{AtEnd};
    ghost use Rattle.ufs_model.specs.Bounds.{IsBounded};
    ghost use Rattle.ufs_model.specs.PosixTree.{IsTree};
    ghost use Rattle.ufs_model.specs.FileBytes as file_bytes;
    ghost use Rattle.ufs_model.specs.Posix as posix;
    ghost use Rattle.ufs_model.specs.Refusals.{refusal, tree_refusal};
    ghost use Rattle.ufs_model.specs.Walk.{node_at};
    ghost use Rattle.ufs_model.specs.Paths.{whole_of, text_refusal};
    ghost use Rattle.ufs_model.specs.declared.data.Op.TheVariants.{Seek};
    ghost use Rattle.ufs_model.specs.declared.data.Reply.TheVariants.{Got, Names};
    ghost use Rattle.ufs_model.specs.Directories.{entry_count, entry_names};
    ghost use Rattle.ufs_tree.specs.Parts.{tree_of};

    fn read(&self, client: u8, fd: u64, n: u32) -> Result<Reply, Lack>
        ensures { IfOk result (λ reply. reply ≡ Got (posix.bytes_read (tree_of self.now) client fd n)) }
    {
        let desc = self.opened(client, fd);
        let got = part(self.alloc, self.content(desc.file), desc.at, n)?;
        Ok(Reply::Got(Bytes::from_vec(got)))
    }

    fn read_at(&self, client: u8, fd: u64, n: u32, at: u64) -> Result<Reply, Lack>
        ensures { IfOk result (λ reply. reply ≡ Got (file_bytes.part (posix.file_bytes (tree_of self.now) client fd) at n)) }
    {
        let desc = self.opened(client, fd);
        let got = part(self.alloc, self.content(desc.file), at, n)?;
        Ok(Reply::Got(Bytes::from_vec(got)))
    }

    /// Where a `seek` leads that isn't refused.
    pub(crate) fn new_offset(&self, client: u8, fd: u64, whence: Whence, by: i64) -> u64
        requires { tree_refusal (tree_of self.now) client (Seek fd whence by) ≡ None }
        ensures { result ≡ posix.new_offset (tree_of self.now) client (Seek fd whence by) }
    {
        let desc = self.opened(client, fd);
        match seek_to(whence, by, desc, self.content(desc.file).len() as u64) {
            Some(at) => at,
            None => 0,
        }
    }

    // A file's size, or the number of a directory's entries. A number of 2^32 or more can't be told.
    fn stat(&self, path: &Bytes) -> Result<Reply, Lack>
        requires { text_refusal path.now ≡ None }
        ensures reply { IfOk result (λ reply. reply ≡ posix.stat_reply (tree_of self.now) (whole_of path.now) (node_at self.now.paths path.now)) }
        ensures at_end { result ≡ Err AtEnd → 2 ^ 32 ≤ entry_count self.now.paths (whole_of path.now) }
    {
        let text = text(self.alloc, path)?;
        match self.paths.get(text.whole()) {
            None => Ok(Reply::Done),
            Some(Node::File(file)) => Ok(Reply::IsFile {
                size: self.content(Some(file)).len() as u64,
            }),
            Some(Node::Dir) => match u32::try_from(self.paths.entry_count(text.whole())) {
                Ok(entries) => Ok(Reply::IsDir { entries }),
                Err(_) => Err(Lack::AtEnd),
            },
        }
    }

    fn list(&self, path: &Bytes) -> Result<Reply, Lack>
        requires tree { IsTree (tree_of self.now) }
        requires allowed { text_refusal path.now ≡ None }
        ensures { IfOk result (λ reply. reply ≡ Names (entry_names self.now.paths (whole_of path.now))) }
    {
        let text = text(self.alloc, path)?;
        Ok(Reply::Names(self.paths.entry_names(self.alloc, text.whole())?))
    }

    /// The reply to a request that isn't refused.
    pub(crate) fn answer(&self, client: u8, op: &Op) -> Result<Reply, Lack>
        requires bounded { IsBounded op.now }
        requires tree { IsTree (tree_of self.now) }
        requires allowed { refusal (tree_of self.now) client op.now ≡ None }
        ensures { IfOk result (λ reply. reply ≡ posix.answer (tree_of self.now) client op.now) }
    {
        match op {
            Op::OpenFile { .. } => Ok(Reply::Fd(self.fds.lowest(client).unwrap_or(0))),
            Op::Read { fd, n } => self.read(client, *fd, *n),
            Op::Pread { fd, n, at } => self.read_at(client, *fd, *n, *at),
            Op::Write { bytes, .. } | Op::Pwrite { bytes, .. } => {
                Ok(Reply::Count(bytes.as_slice().len() as u32))
            }
            Op::Seek { fd, whence, by } => {
                Ok(Reply::At(self.new_offset(client, *fd, *whence, *by)))
            }
            Op::Stat { path } => self.stat(path),
            Op::List { path } => self.list(path),
            Op::Close { .. }
            | Op::Trunc { .. }
            | Op::Fsync { .. }
            | Op::Sync
            | Op::Mkdir { .. }
            | Op::Rmdir { .. }
            | Op::Unlink { .. }
            | Op::Rename { .. } => Ok(Reply::Done),
        }
    }
}
