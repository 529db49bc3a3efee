// What a request that isn't refused changes. Each step that may fail comes before the first that can't be undone.
use crate::tree::Parts;
use ufs_base::Lack;
use ufs_calls::{Mode, count_from, file_named, file_of, place_of, text};
use ufs_model::{Bytes, Node, Op, two_names_lie_apart};

impl Parts {
    ghost use Rattle.std.specs.Prelude.{◌≡◌, ◌<◌, ◌≤◌, ◌^◌, ◌≢◌, OnOk, OnErr, None, length, true, false, is_none};
    ghost use Rattle.std.specs.FinMap as map;
    ghost use Rattle.ufs_model.specs.Bounds.{IsBounded};
    ghost use Rattle.ufs_model.specs.PosixTree.{IsTree, stands, root, desc_at};
    ghost use Rattle.ufs_model.specs.Paths.{IsWhole};
    ghost use Rattle.ufs_model.specs.Posix as posix;
    ghost use Rattle.ufs_model.specs.Directories.{is_below, has_entries};
    ghost use Rattle.ufs_model.specs.Descriptors as descriptors;
    ghost use Rattle.ufs_model.specs.Refusals.{refusal};
    ghost use Rattle.ufs_model.specs.FileBytes.{max_size, is_past, place_of, content, resized};
    ghost use Rattle.ufs_calls.specs.Modes.{mode_of};
    ghost use Rattle.ufs_tree.specs.Changes.{made_or_emptied, with_dir, change_open};
    ghost use Rattle.ufs_model.specs.declared.data.Op.TheVariants as op;
    ghost use Rattle.ufs_tree.specs.Parts.{tree_of};

    // A file that no path and no descriptor names leaves the bytes.
    fn forget(&mut self, file: Option<u32>)
        ensures { tree_of self.new ≡ posix.forget (tree_of self.old) file }
    {
        let Some(file) = file else {
            return;
        };
        if !self.paths.names_file(file) && !self.fds.has_file(file) {
            self.bytes.remove(file);
        }
    }

    // A new file with no bytes.
    fn add_file(&mut self, path: Vec<u8>) -> Result<(), Lack>
        requires whole { IsWhole path.items }
        requires absent { map.get self.old.paths path.items ≡ None }
        requires numbers { self.old.next < 2 ^ 31 }
        ensures ok { OnOk result (tree_of self.new ≡ posix.with_file (tree_of self.old) path.items) }
        ensures err { OnErr result (tree_of self.new ≡ tree_of self.old) }
    {
        let copy = path.as_slice().to_vec(self.alloc)?;
        let file = self.next;
        self.paths.add(self.alloc, path, Node::File(file))?;
        let empty = Bytes::from_vec(Vec::new(self.alloc));
        if let Err(refused) = self.bytes.insert(file, empty) {
            self.paths.remove(copy.as_slice());
            return Err(Lack::from(refused));
        }
        self.next = file + 1;
        Ok(())
    }

    // Makes the file that is missing, or empties the one that is there where `trunc` asks for it.
    fn make_or_empty(&mut self, whole: &[u8], node: Option<Node>, trunc: bool) -> Result<(), Lack>
        requires whole { IsWhole whole.now }
        requires there { node ≡ map.get self.old.paths whole.now }
        requires numbers { self.old.next < 2 ^ 31 }
        ensures ok { OnOk result (tree_of self.new ≡ made_or_emptied (tree_of self.old) whole.now node trunc) }
        ensures err { OnErr result (tree_of self.new ≡ tree_of self.old) }
    {
        match node {
            None => self.add_file(whole.to_vec(self.alloc)?),
            Some(Node::File(file)) if trunc => {
                self.bytes
                    .insert(file, Bytes::from_vec(Vec::new(self.alloc)))?;
                Ok(())
            }
            Some(_) => Ok(()),
        }
    }

    // The descriptor is opened first, since that can be undone.
    fn open(&mut self, client: u8, whole: &[u8], mode: Mode) -> Result<(), Lack>
        requires whole { IsWhole whole.now }
        requires free { is_none (descriptors.lowest_free self.old.fds client) ≡ false }
        requires numbers { self.old.next < 2 ^ 31 }
        ensures ok { OnOk result (tree_of self.new ≡ posix.open_node (tree_of self.old) client whole.now (mode_of mode) (map.get self.old.paths whole.now)) }
        ensures err { OnErr result (tree_of self.new ≡ tree_of self.old) }
    {
        let node = self.paths.get(whole);
        let Some(fd) = self.fds.lowest(client) else {
            unreachable!()
        };
        let key = u64::from(fd);
        self.fds
            .open(client, key, mode.desc(file_named(node, self.next)))?;
        if let Err(lack) = self.make_or_empty(whole, node, mode.trunc) {
            self.fds.close(client, key);
            return Err(lack);
        }
        Ok(())
    }

    fn close(&mut self, client: u8, fd: u64)
        ensures { tree_of self.new ≡ posix.close_fd (tree_of self.old) client fd }
    {
        let desc = self.opened(client, fd);
        self.fds.close(client, fd);
        self.forget(desc.file);
    }

    fn advance(&mut self, client: u8, fd: u64, n: u32)
        requires { is_none (desc_at (tree_of self.old) client fd) ≡ false }
        ensures { tree_of self.new ≡ posix.change (tree_of self.old) client (op.Read fd n) }
    {
        let desc = self.opened(client, fd);
        let count = count_from(self.content(desc.file), desc.at, n);
        self.fds.set_offset(client, fd, desc.at + count as u64);
    }

    // Writes bytes into a file from a place on; no byte changes nothing.
    fn put(&mut self, file: Option<u32>, at: u64, fresh: &[u8]) -> Result<(), Lack>
        requires size { length fresh.now ≤ 2 ^ 32 }
        requires place { is_past at fresh.now ≡ false }
        ensures ok { OnOk result (tree_of self.new ≡ posix.written (tree_of self.old) file at fresh.now) }
        ensures err { OnErr result (tree_of self.new ≡ tree_of self.old) }
    {
        let Some(file) = file else {
            return Ok(());
        };
        if fresh.is_empty() {
            return Ok(());
        }
        self.bytes.write(self.alloc, file, at, fresh)?;
        Ok(())
    }

    fn write(&mut self, client: u8, fd: u64, fresh: &[u8]) -> Result<(), Lack>
        requires size { length fresh.now ≤ 2 ^ 32 }
        requires open { is_none (desc_at (tree_of self.old) client fd) ≡ false }
        requires place { is_past (place_of (descriptors.opened (tree_of self.old) client fd) (posix.file_bytes (tree_of self.old) client fd)) fresh.now ≡ false }
        ensures ok { OnOk result (tree_of self.new ≡ posix.write_fd (tree_of self.old) client fd fresh.now) }
        ensures err { OnErr result (tree_of self.new ≡ tree_of self.old) }
    {
        if fresh.is_empty() {
            return Ok(());
        }
        let desc = self.opened(client, fd);
        let at = place_of(desc, self.content(desc.file).len() as u64);
        self.put(desc.file, at, fresh)?;
        self.fds.set_offset(client, fd, at + fresh.len() as u64);
        Ok(())
    }

    fn resize(&mut self, file: Option<u32>, size: u64) -> Result<(), Lack>
        requires { size ≤ max_size }
        ensures ok { OnOk result (tree_of self.new ≡ posix.with_bytes (tree_of self.old) file (resized (content self.old.bytes file) size)) }
        ensures err { OnErr result (tree_of self.new ≡ tree_of self.old) }
    {
        if let Some(file) = file {
            self.bytes.resize(self.alloc, file, size)?;
        }
        Ok(())
    }

    fn mkdir(&mut self, whole: &[u8]) -> Result<(), Lack>
        requires whole { IsWhole whole.now }
        requires absent { map.get self.old.paths whole.now ≡ None }
        ensures ok { OnOk result (tree_of self.new ≡ with_dir (tree_of self.old) whole.now) }
        ensures err { OnErr result (tree_of self.new ≡ tree_of self.old) }
    {
        let copy = whole.to_vec(self.alloc)?;
        self.paths.add(self.alloc, copy, Node::Dir)?;
        Ok(())
    }

    // A name goes, and what stood there with it.
    fn remove(&mut self, whole: &[u8])
        ensures { tree_of self.new ≡ posix.without_path (tree_of self.old) whole.now }
    {
        let file = file_of(self.paths.get(whole));
        self.paths.remove(whole);
        self.forget(file);
    }

    fn rename(&mut self, from: &[u8], to: &[u8]) -> Result<(), Lack>
        requires tree { IsTree (tree_of self.old) }
        requires whole { IsWhole to.now }
        requires stands { stands self.old.paths from.now ≡ true }
        requires not_root { from.now ≢ root }
        requires to_not_root { to.now ≢ root }
        requires apart { from.now ≢ to.now → is_below from.now to.now ≡ false }
        requires empty { from.now ≢ to.now → has_entries self.old.paths to.now ≡ false }
        ensures ok { OnOk result (tree_of self.new ≡ posix.rename_path (tree_of self.old) from.now to.now) }
        ensures err { OnErr result (tree_of self.new ≡ tree_of self.old) }
    {
        if from == to {
            return Ok(());
        }
        let file = file_of(self.paths.get(to));
        self.paths.rename(self.alloc, from, to)?;
        self.forget(file);
        Ok(())
    }

    // What a request on a descriptor changes.
    fn change_open(&mut self, client: u8, op: &Op) -> Result<(), Lack>
        requires bounded { IsBounded op.now }
        requires allowed { refusal (tree_of self.old) client op.now ≡ None }
        ensures ok { OnOk result (tree_of self.new ≡ change_open (tree_of self.old) client op.now) }
        ensures err { OnErr result (tree_of self.new ≡ tree_of self.old) }
    {
        match op {
            Op::Close { fd } => self.close(client, *fd),
            Op::Read { fd, n } => self.advance(client, *fd, *n),
            Op::Write { fd, bytes } => self.write(client, *fd, bytes.as_slice())?,
            Op::Pwrite { fd, bytes, at } => {
                let desc = self.opened(client, *fd);
                self.put(desc.file, *at, bytes.as_slice())?;
            }
            Op::Seek { fd, whence, by } => {
                let at = self.new_offset(client, *fd, *whence, *by);
                self.fds.set_offset(client, *fd, at);
            }
            Op::Trunc { fd, size } => {
                let desc = self.opened(client, *fd);
                self.resize(desc.file, *size)?;
            }
            _ => {}
        }
        Ok(())
    }

    /// What a request that isn't refused changes.
    pub(crate) fn change(&mut self, client: u8, op: &Op) -> Result<(), Lack>
        requires bounded { IsBounded op.now }
        requires tree { IsTree (tree_of self.old) }
        requires numbers { self.old.next < 2 ^ 31 }
        requires allowed { refusal (tree_of self.old) client op.now ≡ None }
        ensures ok { OnOk result (tree_of self.new ≡ posix.change (tree_of self.old) client op.now) }
        ensures err { OnErr result (tree_of self.new ≡ tree_of self.old) }
    {
        match op {
            Op::OpenFile { path, .. } => match Mode::of(op) {
                Some(mode) => self.open(client, text(self.alloc, path)?.whole(), mode),
                None => unreachable!(),
            },
            Op::Mkdir { path } => self.mkdir(text(self.alloc, path)?.whole()),
            Op::Rmdir { path } | Op::Unlink { path } => {
                self.remove(text(self.alloc, path)?.whole());
                Ok(())
            }
            Op::Rename { from, to } => {
                two_names_lie_apart();
                let from = text(self.alloc, from)?;
                let to = text(self.alloc, to)?;
                self.rename(from.whole(), to.whole())
            }
            _ => self.change_open(client, op),
        }
    }
}
