// Why a request is refused, in the order in which it is looked at.
ghost use Rattle.std.specs.Prelude.{◌≡◌, List, ℕ, []};
ghost use Rattle.ufs_model.specs.Paths as paths;
ghost use Rattle.ufs_model.specs.Refusals as refusals;
ghost use Rattle.ufs_model.specs.Walk.{walk_refusal_from};
ghost use Rattle.ufs_tree.specs.Ends.{end_refusal};

use crate::path_map::PathMap;
use crate::tree::Parts;
use ufs_base::Memory;
use ufs_calls::{
    MAX_SIZE, Mode, dir_refusal, fd_named, is_below, is_past, list_refusal, make_refusal,
    open_refusal, own_refusal, place_of, seek_to, size_refusal, stat_refusal, text, unlink_refusal,
};
use ufs_model::{Bytes, Desc, Errno, Op, Whence};
use ufs_path::PathText;

// Each component but the last has to be a directory that is there.
fn walk_refusal(nodes: &PathMap, text: &PathText) -> Option<Errno>
    ensures { result ≡ walk_refusal_from nodes.now [] text.now }
{
    for above in 0..text.len().saturating_sub(1) {
        if let Some(e) = dir_refusal(nodes.get(text.prefix(above + 1))) {
            return Some(e);
        }
    }
    None
}

fn rmdir_refusal(nodes: &PathMap, text: &PathText) -> Option<Errno>
    ensures { (path : List ℕ) → text.now ≡ paths.components path → result ≡ refusals.rmdir_refusal nodes.now path }
{
    ufs_calls::rmdir_refusal(
        text.is_root(),
        nodes.get(text.whole()),
        nodes.has_entries(text.whole()),
    )
}

// A new name for what stands at one whole path, where another may stand.
fn replace_refusal(nodes: &PathMap, from: &[u8], to: &[u8]) -> Option<Errno>
    ensures { result ≡ refusals.replace_refusal nodes.now from.now to.now }
{
    ufs_calls::replace_refusal(
        nodes.get(from),
        nodes.get(to),
        is_below(from, to),
        from == to,
        nodes.has_entries(to),
    )
}

fn rename_refusal(nodes: &PathMap, from: &PathText, to: &PathText) -> Option<Errno>
    ensures { (old new : List ℕ) → from.now ≡ paths.components old → to.now ≡ paths.components new → result ≡ refusals.rename_refusal nodes.now old new }
{
    if from.is_root() || to.is_root() {
        return Some(Errno::Ebusy);
    }
    if let Some(e) = walk_refusal(nodes, from) {
        return Some(e);
    }
    if nodes.get(from.whole()).is_none() {
        return Some(Errno::Enoent);
    }
    if let Some(e) = walk_refusal(nodes, to) {
        return Some(e);
    }
    replace_refusal(nodes, from.whole(), to.whole())
}

// ---- requests

// By what stands at the end of the request's path.
fn end_refusal(nodes: &PathMap, text: &PathText, op: &Op) -> Option<Errno>
    ensures { (path : List ℕ) → text.now ≡ paths.components path → result ≡ end_refusal nodes.now path op.now }
{
    match op {
        Op::OpenFile { .. } => match Mode::of(op) {
            Some(mode) => open_refusal(nodes.get(text.whole()), mode),
            None => unreachable!(),
        },
        Op::Mkdir { .. } => make_refusal(nodes.get(text.whole())),
        Op::Rmdir { .. } => rmdir_refusal(nodes, text),
        Op::Unlink { .. } => unlink_refusal(nodes.get(text.whole())),
        Op::Stat { .. } => stat_refusal(nodes.get(text.whole())),
        Op::List { .. } => list_refusal(nodes.get(text.whole())),
        _ => None,
    }
}

impl Parts {
    ghost use Rattle.std.specs.Prelude.{◌≡◌, None, IfOk};
    ghost use Rattle.ufs_model.specs.Asks as asks;
    ghost use Rattle.ufs_model.specs.Refusals as refusals;
    ghost use Rattle.ufs_model.specs.declared.data.Op.TheVariants.{Write, Seek};
    ghost use Rattle.ufs_model.specs.FileBytes as file_bytes;
    ghost use Rattle.ufs_model.specs.Descriptors as descriptors;
    ghost use Rattle.ufs_tree.specs.Parts.{tree_of};

    /// Why a request is refused.
    pub(crate) fn refusal(&self, client: u8, op: &Op) -> Result<Option<Errno>, Memory>
        ensures { IfOk result (λ r. r ≡ refusals.refusal (tree_of self.now) client op.now) }
    {
        if let Some(e) = self.own_refusal(client, op) {
            return Ok(Some(e));
        }
        self.tree_refusal(client, op)
    }

    // What the descriptor that a request names stands for.
    fn desc_named(&self, client: u8, op: &Op) -> Option<Desc>
        ensures { result ≡ asks.desc_of_fd self.now.fds client (asks.fd_named op.now) }
    {
        match fd_named(op) {
            Some(fd) => self.fds.get(client, fd),
            None => None,
        }
    }

    // The client's lowest free descriptor for an `open`, and 0 where none is free. No other request needs one.
    fn fd_asked(&self, client: u8, op: &Op) -> u32
        ensures { result ≡ asks.fd_asked self.now.fds client op.now }
    {
        match op {
            Op::OpenFile { .. } => self.fds.lowest(client).unwrap_or(0),
            _ => 0,
        }
    }

    // By flags, descriptors and texts.
    fn own_refusal(&self, client: u8, op: &Op) -> Option<Errno>
        ensures { result ≡ refusals.own_refusal (tree_of self.now) client op.now }
    {
        own_refusal(op, self.desc_named(client, op), self.fd_asked(client, op))
    }

    // Of a `write`, by where it ends.
    fn write_refusal(&self, client: u8, fd: u64, fresh: &Bytes) -> Option<Errno>
        ensures { result ≡ refusals.tree_refusal (tree_of self.now) client (Write fd fresh.now) }
    {
        let desc = self.opened(client, fd);
        let at = place_of(desc, self.content(desc.file).len() as u64);
        size_refusal(is_past(at, fresh))
    }

    // Of a `seek`, by where it leads.
    fn seek_refusal(&self, client: u8, fd: u64, whence: Whence, by: i64) -> Option<Errno>
        ensures { result ≡ refusals.tree_refusal (tree_of self.now) client (Seek fd whence by) }
    {
        let desc = self.opened(client, fd);
        match seek_to(whence, by, desc, self.content(desc.file).len() as u64) {
            Some(_) => None,
            None => Some(Errno::Einval),
        }
    }

    /// What a descriptor stands for; one that isn't open allows nothing.
    pub(crate) fn opened(&self, client: u8, fd: u64) -> Desc
        ensures { result ≡ descriptors.opened (tree_of self.now) client fd }
    {
        match self.fds.get(client, fd) {
            Some(desc) => desc,
            None => Desc {
                file: None,
                at: 0,
                read: false,
                write: false,
                append: false,
            },
        }
    }

    /// The bytes of a descriptor's file; a directory has none.
    pub(crate) fn content(&self, file: Option<u32>) -> &[u8]
        ensures { result.now ≡ file_bytes.content self.now.bytes file }
    {
        match file {
            Some(file) => self.bytes.bytes(file),
            None => &[],
        }
    }

    // By what stands in the tree, of a request that isn't refused by flags, descriptors and texts.
    fn tree_refusal(&self, client: u8, op: &Op) -> Result<Option<Errno>, Memory>
        requires { refusals.own_refusal (tree_of self.now) client op.now ≡ None }
        ensures { IfOk result (λ r. r ≡ refusals.tree_refusal (tree_of self.now) client op.now) }
    {
        match op {
            Op::Write { fd, bytes } => Ok(self.write_refusal(client, *fd, bytes)),
            Op::Pwrite { bytes, at, .. } => Ok(size_refusal(is_past(*at, bytes))),
            Op::Trunc { size, .. } => Ok(size_refusal(*size > MAX_SIZE)),
            Op::Seek { fd, whence, by } => Ok(self.seek_refusal(client, *fd, *whence, *by)),
            Op::Close { .. } | Op::Fsync { .. } | Op::Read { .. } | Op::Pread { .. } | Op::Sync =>
                Ok(None),
            Op::Rename { from, to } => {
                let from = text(self.alloc, from)?;
                let to = text(self.alloc, to)?;
                Ok(rename_refusal(&self.paths, &from, &to))
            }
            Op::OpenFile { path, .. }
            | Op::Mkdir { path }
            | Op::Rmdir { path }
            | Op::Unlink { path }
            | Op::Stat { path }
            | Op::List { path } => {
                let text = text(self.alloc, path)?;
                if let Some(e) = walk_refusal(&self.paths, &text) {
                    return Ok(Some(e));
                }
                Ok(end_refusal(&self.paths, &text, op))
            }
        }
    }
}
