// Nodes that are given out and released, and the lists of two kinds that they are on.
ghost use Rattle.std.specs.Prelude.{◌≡◌, ◌+◌, ◌^◌, ◌<◌, ◌≤◌, max};

use crate::numbered::NumberedLists;
use std::alloc::Global;
use std::marker::Model;
use ufs_base::Lack;

/// A kind of list.
#[derive(Clone, Copy, Debug, PartialEq, Eq)]
pub enum Which {
    First,
    Second,
}

/// Nodes by numbers from 0, and lists of two kinds by any number. A node is on at most one list of each kind. Every
/// call but `reserve` takes no memory and, where the lists' numbers are spread over the buckets that find them, a
/// constant number of steps.
#[derive(Drop)]
pub struct Links {
    first: NumberedLists,
    second: NumberedLists,
    // How many nodes there is room for.
    nodes: u32,
    // The nodes from this one on were never given out.
    used: u32,
    // The nodes below `used` that were released.
    released: Vec<u32>,
}

impl Model for Links {
    ghost use Rattle.ufs_links.specs.Linked.{Linked, linked_code};

    ghost Value = { Linked };

    ghost coded = { linked_code };

    ghost use Rattle.ufs_links.specs.Kept.{linked, IsKept};

    ghost view = { linked };

    ghost invariant = { IsKept };
}

impl Links {
    ghost use Rattle.std.specs.Prelude.{ℕ, [], ◌∷◌, ◌++◌, true, false, map, slice_get, slice_set, IfErr, IfSome, IfNone, OnOk, OnErr, Err};
    ghost use Rattle.std.specs.FinSet as set;
    ghost use Rattle.ufs_links.specs.Nodes.{has, without, next_in, IsOnNone, IsOnOne};
    ghost use Rattle.ufs_base.specs.declared.lack.Lack.TheVariants.{AtEnd};
    ghost use Rattle.ufs_links.specs.Linked.{lists_in, nodes_of, with_lists_of, no_links, IsLackOfNodes};

    /// No nodes. Every list is empty.
    pub fn new(alloc: Global) -> Self
        ensures { result ≡ no_links }
    {
        Links {
            first: NumberedLists::new(alloc),
            second: NumberedLists::new(alloc),
            nodes: 0,
            used: 0,
            released: Vec::new(alloc),
        }
    }

    /// Makes the next `n` new nodes take no memory. It makes no more spare nodes than that needs. There are at most
    /// 2^32 - 1 nodes, those that are given out among them.
    pub fn reserve(&mut self, n: u32) -> Result<(), Lack>
        ensures ok { OnOk result (n ≤ self.new.spare) }
        ensures more { self.old.spare ≤ self.new.spare }
        ensures most { self.new.spare ≤ max n self.old.spare }
        ensures err { OnErr result (self.new.spare ≡ self.old.spare) }
        ensures lack { IfErr result (IsLackOfNodes (set.len self.old.given + n)) }
        ensures at_end { self.old.spare < n → 2 ^ 32 ≤ set.len self.old.given + n → result ≡ Err AtEnd }

        // Nothing else changes.
        ensures given { self.new.given ≡ self.old.given }
        ensures first { self.new.first ≡ self.old.first }
        ensures second { self.new.second ≡ self.old.second }
    {
        let spare = self.released.len() as u64 + (self.nodes - self.used) as u64;
        // All nodes are those that are given out and the spare ones.
        if n as u64 <= spare {
            return Ok(());
        }
        let nodes = self.nodes as u64 + (n as u64 - spare);
        if nodes > u32::MAX as u64 {
            return Err(Lack::AtEnd);
        }
        self.first.reserve_nodes(nodes as usize)?;
        self.second.reserve_nodes(nodes as usize)?;
        self.released.reserve(nodes as usize)?;
        self.nodes = nodes as u32;
        Ok(())
    }

    /// The list of the kind that the node is on.
    pub fn list_of(&self, which: Which, node: u32) -> Option<u32>
        ensures on { IfSome result (λ list. has (nodes_of self.now which list) node ≡ true) }
        ensures off { IfNone result (IsOnNone (lists_in self.now which) node) }
    {
        match which {
            Which::First => self.first.list_of(node),
            Which::Second => self.second.list_of(node),
        }
    }

    /// Gives out a spare node. It is on no list.
    pub fn fresh(&mut self) -> u32
        requires { 0 < self.old.spare }
        ensures was_spare { set.contains self.old.given result ≡ false }
        ensures given { self.new.given ≡ set.insert self.old.given result }
        ensures spare { self.new.spare + 1 ≡ self.old.spare }
        ensures off { (which : Which) → IsOnNone (lists_in self.new which) result }

        // The lists stay.
        ensures first { self.new.first ≡ self.old.first }
        ensures second { self.new.second ≡ self.old.second }
    {
        match self.released.pop() {
            Some(node) => node,
            None => {
                let node = self.used;
                self.used = node + 1;
                node
            }
        }
    }

    /// Takes back a node that is given out and on no list. It is spare again.
    pub fn release(&mut self, node: u32)
        requires given { set.contains self.old.given node ≡ true }
        requires off { (which : Which) → IsOnNone (lists_in self.old which) node }
        ensures given { self.new.given ≡ set.remove self.old.given node }
        ensures spare { self.new.spare ≡ self.old.spare + 1 }
        ensures first { self.new.first ≡ self.old.first }
        ensures second { self.new.second ≡ self.old.second }
    {
        let _ = self.released.push(node);
    }

    /// Puts a node that is given out, and on no list of the kind, in front of a list.
    pub fn add_front(&mut self, which: Which, list: u32, node: u32)
        requires given { set.contains self.old.given node ≡ true }
        requires off { IsOnNone (lists_in self.old which) node }
        ensures { self.new ≡ with_lists_of self.old which (slice_set (lists_in self.old which) list (node ∷ nodes_of self.old which list)) }
    {
        match which {
            Which::First => self.first.add_front(list, node),
            Which::Second => self.second.add_front(list, node),
        }
    }

    /// Puts a node that is given out, and on no list of the kind, at the back of a list.
    pub fn add_back(&mut self, which: Which, list: u32, node: u32)
        requires given { set.contains self.old.given node ≡ true }
        requires off { IsOnNone (lists_in self.old which) node }
        ensures { self.new ≡ with_lists_of self.old which (slice_set (lists_in self.old which) list (nodes_of self.old which list ++ node ∷ [])) }
    {
        match which {
            Which::First => self.first.add_back(list, node),
            Which::Second => self.second.add_back(list, node),
        }
    }

    /// Takes the node off the list of the kind that it is on. The rest of the list keeps its order.
    pub fn remove(&mut self, which: Which, node: u32)
        requires { IsOnOne (lists_in self.old which) node }
        ensures { self.new ≡ with_lists_of self.old which (map (without node) (lists_in self.old which)) }
    {
        match which {
            Which::First => self.first.remove(node),
            Which::Second => self.second.remove(node),
        }
    }

    /// The first node of the list; `None` exactly where the list is empty.
    pub fn front(&self, which: Which, list: u32) -> Option<u32>
        ensures { result ≡ slice_get (nodes_of self.now which list) 0 }
    {
        match which {
            Which::First => self.first.front(list),
            Which::Second => self.second.front(list),
        }
    }

    /// The node that follows one on its list of the kind; `None` exactly for the last one.
    pub fn next(&self, which: Which, node: u32) -> Option<u32>
        requires { IsOnOne (lists_in self.now which) node }
        ensures { (list : ℕ) → has (nodes_of self.now which list) node ≡ true → result ≡ next_in (nodes_of self.now which list) node }
    {
        match which {
            Which::First => self.first.next(node),
            Which::Second => self.second.next(node),
        }
    }
}
