// The tree: what one thread would answer.
ghost use Rattle.std.specs.Prelude.{◌≡◌, ◌≤◌, ◌<◌, ◌+◌, ◌^◌, IfOk, OnErr};
ghost use Rattle.ufs_model.specs.PosixTree.{IsTree};
ghost use Rattle.ufs_model.specs.Bounds.{IsBounded};
ghost use Rattle.ufs_model.specs.Posix.{posix};

use crate::fd_map::FdMap;
use crate::path_map::PathMap;
use std::alloc::Global;
use std::marker::Model;
use ufs_base::Lack;
use ufs_calls::FileMap;
use ufs_model::{Op, Reply, a_request_keeps_the_tree, a_request_makes_one_file_at_most};

/// A tree by its maps.
#[derive(Drop)]
pub struct Parts {
    pub alloc: Global,
    pub paths: PathMap,
    pub bytes: FileMap,
    pub fds: FdMap,
    pub next: u32,
}

/// A tree of directories and files, with what each client has open in it.
#[derive(Drop)]
pub struct Tree {
    pub(crate) parts: Parts,
}

impl Model for Tree {
    ghost use Rattle.ufs_model.specs.PosixTree.{PosixTree, IsTree, tree_code};
    ghost use Rattle.ufs_tree.specs.Parts.{tree_of};

    ghost Value = { PosixTree };

    ghost coded = { tree_code };

    ghost view = { λ t. tree_of t.parts };

    ghost invariant = { λ t. IsTree (tree_of t.parts) };
}

impl Tree {
    /// The reply to a client's request, and the tree goes on. After a `Lack` it is as before.
    /// A request makes at most one file; file numbers stay below 2^31.
    pub fn step(&mut self, client: u8, op: &Op) -> Result<Reply, Lack>
        requires bounded { IsBounded op.now }
        requires numbers { self.old.next < 2 ^ 31 }
        ensures ok { IfOk result (λ reply. posix self.old client op.now ≡ (self.new, reply)) }
        ensures err { OnErr result (self.new ≡ self.old) }
        ensures tree { IsTree self.new }
        ensures next { self.new.next ≤ self.old.next + 1 }
    {
        a_request_keeps_the_tree();
        a_request_makes_one_file_at_most();
        self.parts.step(client, op)
    }
}

impl Parts {
    ghost use Rattle.std.specs.Prelude.{◌≡◌, ◌<◌, ◌^◌, IfOk, OnErr};
    ghost use Rattle.ufs_model.specs.PosixTree.{IsTree};
    ghost use Rattle.ufs_model.specs.Bounds.{IsBounded};
    ghost use Rattle.ufs_model.specs.Posix.{posix};
    ghost use Rattle.ufs_tree.specs.Parts.{tree_of};

    fn step(&mut self, client: u8, op: &Op) -> Result<Reply, Lack>
        requires bounded { IsBounded op.now }
        requires tree { IsTree (tree_of self.old) }
        requires numbers { self.old.next < 2 ^ 31 }
        ensures ok { IfOk result (λ reply. posix (tree_of self.old) client op.now ≡ (tree_of self.new, reply)) }
        ensures err { OnErr result (tree_of self.new ≡ tree_of self.old) }
    {
        if let Some(e) = self.refusal(client, op)? {
            return Ok(Reply::Refused(e));
        }
        let reply = self.answer(client, op)?;
        self.change(client, op)?;
        Ok(reply)
    }
}
