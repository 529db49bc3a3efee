// Whether a reply is the one that the tree gives, or an excuse that fits.
ghost use Rattle.std.specs.Prelude.{◌≡◌, ◌↔◌, IsTrue, length, false};
ghost use Rattle.ufs_model.specs.Excuses.{blocks_of};
ghost use Rattle.ufs_model.specs.FileBytes as file_bytes;
ghost use Rattle.ufs_tree.specs.Told.{excuse_of};

use crate::tree::{Parts, Tree};
use ufs_base::{Lack, Memory};
use ufs_calls::{place_of, text};
use ufs_model::{
    Bytes, Entry, Excuse, NameList, Node, Op, Reply, a_request_keeps_the_tree,
    a_request_makes_one_file_at_most,
};

// The most extents of a file or directory.
const MAX_EXTENTS: u32 = 56;
// The entries that a block of a directory has room for.
const BLOCK_ENTRIES: u64 = 64;

// ---- replies

fn same_bytes(a: &Bytes, b: &Bytes) -> bool
    ensures { IsTrue result ↔ (a.now ≡ b.now) }
{
    a.as_slice() == b.as_slice()
}

fn same_names(a: &NameList, b: &NameList) -> bool
    ensures { IsTrue result ↔ (a.now ≡ b.now) }
{
    let left = a.as_slice();
    let right = b.as_slice();
    if left.len() != right.len() {
        return false;
    }
    for i in 0..left.len() {
        if !same_bytes(&left[i], &right[i]) {
            return false;
        }
    }
    true
}

fn same_reply(a: &Reply, b: &Reply) -> bool
    ensures { IsTrue result ↔ (a.now ≡ b.now) }
{
    match (a, b) {
        (Reply::Done, Reply::Done) => true,
        (Reply::Fd(x), Reply::Fd(y)) => *x == *y,
        (Reply::Count(x), Reply::Count(y)) => *x == *y,
        (Reply::At(x), Reply::At(y)) => *x == *y,
        (Reply::Got(x), Reply::Got(y)) => same_bytes(x, y),
        (Reply::IsFile { size: x }, Reply::IsFile { size: y }) => *x == *y,
        (Reply::IsDir { entries: x }, Reply::IsDir { entries: y }) => *x == *y,
        (Reply::Names(x), Reply::Names(y)) => same_names(x, y),
        (Reply::Refused(x), Reply::Refused(y)) => *x == *y,
        (Reply::Excused(x), Reply::Excused(y)) => *x == *y,
        _ => false,
    }
}

fn excuse_of(reply: &Reply) -> Option<Excuse>
    ensures { result ≡ excuse_of reply.now }
{
    match reply {
        Reply::Excused(excuse) => Some(*excuse),
        _ => None,
    }
}

// ---- what a request may need

// The blocks of so many bytes.
fn blocks_of(size: u64) -> u64
    ensures { result ≡ blocks_of size }
{
    size.div_ceil(4096)
}

// The size of a file after a write that isn't refused.
fn size_after(old: u64, at: u64, fresh: &Bytes) -> u64
    requires { file_bytes.is_past at fresh.now ≡ false }
    ensures { result ≡ file_bytes.size_after old at (length fresh.now) }
{
    let count = fresh.as_slice().len() as u64;
    if count == 0 {
        return old;
    }
    let end = at + count;
    if old < end { end } else { old }
}

impl Parts {
    ghost use Rattle.std.specs.Prelude.{ℕ, ◌≡◌, ◌↔◌, ◌<◌, ◌^◌, IsTrue, IfOk, OnErr, Ok, true, false, None, length};
    ghost use Rattle.ufs_model.specs.Paths.{text_refusal};
    ghost use Rattle.ufs_model.specs.Bounds.{IsBounded};
    ghost use Rattle.ufs_model.specs.Excuses as excuses;
    ghost use Rattle.ufs_model.specs.Posix.{posix, file_bytes};
    ghost use Rattle.ufs_model.specs.PosixTree.{IsTree};
    ghost use Rattle.ufs_model.specs.Refusals.{refusal};
    ghost use Rattle.ufs_model.specs.History.{IsReplyTo, goes_on};
    ghost use Rattle.ufs_model.specs.Walk.{node_at};
    ghost use Rattle.ufs_tree.specs.Parts.{tree_of};
    ghost use Rattle.ufs_tree.specs.Told.{excuse_of};

    // What stands at the end of a path.
    fn node_at(&self, path: &Bytes) -> Result<Option<Node>, Memory>
        requires { text_refusal path.now ≡ None }
        ensures { IfOk result (λ node. node ≡ node_at self.now.paths path.now) }
    {
        let text = text(self.alloc, path)?;
        Ok(self.paths.get(text.whole()))
    }

    fn makes_node(&self, op: &Op) -> Result<bool, Memory>
        requires { (client : ℕ) × (refusal (tree_of self.now) client op.now ≡ None) }
        ensures { IfOk result (λ makes. makes ≡ excuses.makes_node (tree_of self.now) op.now) }
    {
        match op {
            Op::OpenFile { path, creat, .. } => {
                let node = self.node_at(path)?;
                Ok(*creat && node.is_none())
            }
            Op::Mkdir { .. } => Ok(true),
            _ => Ok(false),
        }
    }

    fn adds_name(&self, op: &Op) -> Result<bool, Memory>
        requires { (client : ℕ) × (refusal (tree_of self.now) client op.now ≡ None) }
        ensures { IfOk result (λ adds. adds ≡ excuses.adds_name (tree_of self.now) op.now) }
    {
        match op {
            Op::Rename { to, .. } => {
                let node = self.node_at(to)?;
                Ok(node.is_none())
            }
            _ => self.makes_node(op),
        }
    }

    // Whether the directory to which a request adds a name may have every slot used.
    fn may_be_full(&self, op: &Op) -> Result<bool, Memory>
        requires allowed { (client : ℕ) × (refusal (tree_of self.now) client op.now ≡ None) }
        requires adds { excuses.adds_name (tree_of self.now) op.now ≡ true }
        ensures { IfOk result (λ full. full ≡ excuses.may_be_full (tree_of self.now) (excuses.grown_dir op.now)) }
    {
        let (Op::OpenFile { path, .. } | Op::Mkdir { path } | Op::Rename { to: path, .. }) = op
        else {
            return Ok(false);
        };
        let text = text(self.alloc, path)?;
        Ok(self.paths.entry_count(text.parent()) % BLOCK_ENTRIES == 0)
    }

    // The size of the file of a request that may change it.
    fn old_size(&self, client: u8, op: &Op) -> u64
        ensures { result ≡ excuses.old_size (tree_of self.now) client op.now }
    {
        match op {
            Op::Write { fd, .. } | Op::Pwrite { fd, .. } | Op::Trunc { fd, .. } => {
                self.content(self.opened(client, *fd).file).len() as u64
            }
            _ => 0,
        }
    }

    // Its size after the request.
    fn new_size(&self, client: u8, op: &Op, size: u64) -> u64
        requires allowed { refusal (tree_of self.now) client op.now ≡ None }
        requires size { size ≡ excuses.old_size (tree_of self.now) client op.now }
        ensures { result ≡ excuses.new_size (tree_of self.now) client op.now size }
    {
        match op {
            Op::Write { fd, bytes } => {
                size_after(size, place_of(self.opened(client, *fd), size), bytes)
            }
            Op::Pwrite { bytes, at, .. } => size_after(size, *at, bytes),
            Op::Trunc { size, .. } => *size,
            _ => size,
        }
    }

    // The blocks that a request may need.
    fn needed(&self, client: u8, op: &Op) -> Result<u64, Memory>
        requires allowed { refusal (tree_of self.now) client op.now ≡ None }
        ensures { IfOk result (λ blocks. blocks ≡ excuses.needed (tree_of self.now) client op.now) }
    {
        if self.adds_name(op)? {
            let full = self.may_be_full(op)?;
            return Ok(u64::from(full));
        }
        let size = self.old_size(client, op);
        let blocks = blocks_of(self.new_size(client, op, size));
        Ok(blocks.saturating_sub(blocks_of(size)))
    }

    // Whether the excuse says of a request that isn't refused what is so.
    fn is_excuse_of(&self, client: u8, op: &Op, excuse: Excuse) -> Result<bool, Memory>
        requires allowed { refusal (tree_of self.now) client op.now ≡ None }
        ensures { IfOk result (λ told. IsTrue told ↔ excuses.IsExcuseOf (tree_of self.now) client op.now excuse) }
    {
        match excuse {
            Excuse::Memory | Excuse::Device { .. } | Excuse::Stopped { .. } => Ok(true),
            Excuse::Blocks { need, had } => {
                let blocks = self.needed(client, op)?;
                Ok(u64::from(need) == blocks && had < need)
            }
            Excuse::Inodes => self.makes_node(op),
            Excuse::Extents { need } => {
                let blocks = self.needed(client, op)?;
                Ok(need > MAX_EXTENTS && u64::from(need - MAX_EXTENTS) <= blocks)
            }
        }
    }

    fn excuse_fits(&self, client: u8, op: &Op, excuse: Excuse) -> Result<bool, Memory>
        ensures { IfOk result (λ fits. IsTrue fits ↔ excuses.ExcuseFits (tree_of self.now) client op.now excuse) }
    {
        if matches!(excuse, Excuse::Memory) {
            return Ok(true);
        }
        if self.refusal(client, op)?.is_some() {
            return Ok(false);
        }
        self.is_excuse_of(client, op, excuse)
    }

    // Whether the reply, which isn't an excuse, is the tree's; where it is the tree goes on.
    fn reply_step(&mut self, client: u8, op: &Op, reply: &Reply) -> Result<bool, Lack>
        requires bounded { IsBounded op.now }
        requires tree { IsTree (tree_of self.old) }
        requires numbers { self.old.next < 2 ^ 31 }
        ensures legal { IfOk result (λ told. IsTrue told ↔ (reply.now ≡ (posix (tree_of self.old) client op.now).1)) }
        ensures goes_on { result ≡ Ok true → tree_of self.new ≡ (posix (tree_of self.old) client op.now).0 }
        ensures stays { result ≡ Ok false → tree_of self.new ≡ tree_of self.old }
        ensures err { OnErr result (tree_of self.new ≡ tree_of self.old) }
    {
        if let Some(e) = self.refusal(client, op)? {
            return Ok(same_reply(reply, &Reply::Refused(e)));
        }
        let answer = self.answer(client, op)?;
        if !same_reply(reply, &answer) {
            return Ok(false);
        }
        self.change(client, op)?;
        Ok(true)
    }

    fn legal_step(&mut self, entry: &Entry) -> Result<bool, Lack>
        requires bounded { IsBounded entry.now.op }
        requires tree { IsTree (tree_of self.old) }
        requires numbers { self.old.next < 2 ^ 31 }
        ensures legal { IfOk result (λ told. IsTrue told ↔ IsReplyTo (tree_of self.old) entry.now) }
        ensures goes_on { result ≡ Ok true → tree_of self.new ≡ goes_on (tree_of self.old) entry.now }
        ensures stays { result ≡ Ok false → tree_of self.new ≡ tree_of self.old }
        ensures err { OnErr result (tree_of self.new ≡ tree_of self.old) }
    {
        match excuse_of(&entry.reply) {
            Some(excuse) => Ok(self.excuse_fits(entry.client, &entry.op, excuse)?),
            None => self.reply_step(entry.client, &entry.op, &entry.reply),
        }
    }
}

impl Tree {
    ghost use Rattle.std.specs.Prelude.{◌≡◌, ◌↔◌, ◌≤◌, ◌<◌, ◌+◌, ◌^◌, IsTrue, IfOk, OnErr, Ok, true, false};
    ghost use Rattle.ufs_model.specs.PosixTree.{IsTree};
    ghost use Rattle.ufs_model.specs.Bounds.{IsBounded};
    ghost use Rattle.ufs_model.specs.History.{IsReplyTo, goes_on};

    /// Whether an entry has the reply that the tree gives, or an excuse that fits. Where it has, the tree goes on by it;
    /// else, and after a `Lack`, the tree is as before. That tickets rise, and that no two entries tell one device
    /// fault, is asked of a whole history and not here.
    pub fn legal_step(&mut self, entry: &Entry) -> Result<bool, Lack>
        requires bounded { IsBounded entry.now.op }
        requires numbers { self.old.next < 2 ^ 31 }
        ensures legal { IfOk result (λ told. IsTrue told ↔ IsReplyTo self.old entry.now) }
        ensures goes_on { result ≡ Ok true → self.new ≡ goes_on self.old entry.now }
        ensures stays { result ≡ Ok false → self.new ≡ self.old }
        ensures err { OnErr result (self.new ≡ self.old) }
        ensures tree { IsTree self.new }
        ensures next { self.new.next ≤ self.old.next + 1 }
    {
        a_request_keeps_the_tree();
        a_request_makes_one_file_at_most();
        self.parts.legal_step(entry)
    }
}
