ghost use Rattle.std.specs.Prelude.{◌≡◌, ◌++◌, ◌∷◌, [], OnOk, OnErr, IfOk, None};
ghost use Rattle.std.specs.FinMap as map;

use std::alloc::{AllocError, Global};
use std::collections::BTreeMap;
use std::marker::Model;
use ufs_base::Memory;
use ufs_model::{Bytes, Node};

/// What stands at each path.
#[derive(Drop)]
pub struct NodeMap {
    entries: BTreeMap<Vec<u8>, Node>,
}

impl Model for NodeMap {
    ghost use Rattle.std.specs.Prelude.{List, ℕ};
    ghost use Rattle.std.specs.FinMap as map;
    ghost use Rattle.ufs_model.specs.declared.data.Node.{Node};
    ghost use Rattle.ufs_model.specs.contracts.data.Node as node;
    ghost use Rattle.ufs_model.specs.Order.{path_cmp};
    ghost use Rattle.ufs_calls.specs.Seen.{seen};
    ghost use Rattle.std.specs.Coded.{coded_ℕ, coded_list};

    ghost Value = { map.FinMap path_cmp Node };

    ghost coded = { map.code (coded_list coded_ℕ) node.the_row.coded };

    ghost view = { λ m. seen path_cmp (λ k. k.items) m.entries };
}

impl NodeMap {
    ghost use Rattle.std.specs.Prelude.{◌≡◌, ◌++◌, ◌∷◌, [], OnOk, OnErr, IfOk, IfErr, None, filter};
    ghost use Rattle.ufs_model.specs.Directories.{starts_with};
    ghost use Rattle.std.specs.FinMap as map;

    pub fn new(alloc: Global) -> Self
        ensures { result ≡ map.empty }
    {
        NodeMap {
            entries: BTreeMap::new(alloc),
        }
    }

    pub fn get(&self, path: &[u8]) -> Option<Node>
        ensures { result ≡ map.get self.now path.now }
    {
        self.entries.get(path).copied()
    }

    /// At want of memory the path comes back.
    pub fn insert(&mut self, path: Vec<u8>, node: Node) -> Result<(), (Memory, Vec<u8>)>
        ensures ok { OnOk result (self.new ≡ map.insert self.old path.items node) }
        ensures absent { OnErr result (map.get self.old path.items ≡ None) }
        ensures err { OnErr result (self.new ≡ self.old) }
        ensures back { IfErr result (λ back. back.1.items ≡ path.items) }
    {
        if let Err(failed) = self.entries.insert(path, node) {
            let (memory, (path, _node)) = Memory::beside(failed);
            return Err((memory, path));
        }
        Ok(())
    }

    /// Takes no memory.
    pub fn remove(&mut self, path: &[u8])
        ensures { self.new ≡ map.remove self.old path.now }
    {
        // For the prover alone.
        let _count = self.entries.len();
        let _node = self.entries.remove(path);
    }

    /// What stands below the slash after these bytes, by rising path.
    pub fn below(&self, alloc: Global, front: &[u8]) -> Result<Vec<(Bytes, Node)>, AllocError>
        ensures { IfOk result (λ found. found.items ≡ filter (λ e. starts_with (front.now ++ 47 ∷ []) e.0) (map.entries self.now)) }
    {
        let start = with_byte(alloc, front, b'/')?;
        let end = with_byte(alloc, front, b'/' + 1)?;
        let mut found = Vec::new(alloc);
        for (path, node) in self.entries.range(start..end) {
            let copy = path.as_slice().to_vec(alloc)?;
            found.push((Bytes::from_vec(copy), *node))?;
        }
        Ok(found)
    }
}

fn with_byte(alloc: Global, front: &[u8], byte: u8) -> Result<Vec<u8>, AllocError>
    ensures { IfOk result (λ text. text.items ≡ front.now ++ byte ∷ []) }
{
    let mut text = front.to_vec(alloc)?;
    text.push(byte)?;
    Ok(text)
}
