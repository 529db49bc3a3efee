// Lists of nodes by index, each node on at most one of them.
ghost use Rattle.std.specs.Prelude.{◌≡◌, ℕ, ◌+◌, ◌^◌, ◌<◌, ◌≤◌, true, [], ◌∷◌, ◌++◌, length, map, replicate, slice_get, slice_set, Some, IfSome, IfNone, OnOk, is_ok, if◌then◌else◌, max};
ghost use Rattle.ufs_links.specs.Nodes.{has, nodes_in, next_in, without, IsOnNone, IsOnOne};
ghost use Rattle.ufs_links.specs.Chains.{AreApart};

use crate::pointers::Pointers;
use std::alloc::Global;
use std::marker::Model;
use ufs_base::Memory;

/// Lists of nodes, both numbered from 0, seen as the number of nodes that there are places for and the lists in order.
#[derive(Drop)]
pub(crate) struct Lists {
    pointers: Pointers,
}

impl Model for Lists {
    ghost use Rattle.ufs_links.specs.NodeLists.{NodeLists, node_lists_code};

    ghost Value = { NodeLists };

    ghost coded = { node_lists_code };

    ghost use Rattle.ufs_links.specs.Chains.{Stands, lists_of, node_lists};

    ghost view = { λ l. node_lists l.pointers };

    ghost invariant = { λ l. Stands l.pointers (lists_of l.pointers) };
}

impl Lists {
    ghost use Rattle.ufs_links.specs.NodeLists.{with_lists};

    /// No nodes and no lists.
    pub(crate) fn new(alloc: Global) -> Self
        ensures nodes { result.nodes ≡ 0 }
        ensures lists { result.lists ≡ [] }
    {
        Lists {
            pointers: Pointers {
                places: Vec::new(alloc),
                ends: Vec::new(alloc),
            },
        }
    }

    /// Makes places for nodes below `nodes`, and no more than that or than there were.
    pub(crate) fn reserve_nodes(&mut self, nodes: usize) -> Result<(), Memory>
        ensures room { OnOk result (nodes ≤ self.new.nodes) }
        ensures kept { self.old.nodes ≤ self.new.nodes }
        ensures most { self.new.nodes ≤ max nodes self.old.nodes }
        ensures lists { self.new.lists ≡ self.old.lists }
    {
        self.pointers.add_places(nodes)
    }

    /// Adds lists that are empty.
    pub(crate) fn add_lists(&mut self, count: usize) -> Result<(), Memory>
        requires { length self.old.lists + count < 2 ^ 64 }
        ensures nodes { self.new.nodes ≡ self.old.nodes }
        ensures lists { self.new.lists ≡ (if is_ok result then self.old.lists ++ replicate count [] else self.old.lists) }
    {
        self.pointers.add_ends(count)
    }

    pub(crate) fn list_of(&self, node: u32) -> Option<u32>
        ensures on { IfSome result (λ list. has (nodes_in self.now.lists list) node ≡ true) }
        ensures off { IfNone result (IsOnNone self.now.lists node) }
    {
        self.pointers.list_of(node)
    }

    pub(crate) fn list_count(&self) -> usize
        ensures { result ≡ length self.now.lists }
    {
        self.pointers.ends.len()
    }

    pub(crate) fn add_front(&mut self, list: u32, node: u32)
        requires list { list < length self.old.lists }
        requires node { node < self.old.nodes }
        requires off { IsOnNone self.old.lists node }
        ensures { self.new ≡ with_lists self.old (slice_set self.old.lists list (node ∷ nodes_in self.old.lists list)) }
    {
        let front = self.pointers.after(list, None);
        self.pointers.join(list, node, None, front);
    }

    pub(crate) fn add_back(&mut self, list: u32, node: u32)
        requires list { list < length self.old.lists }
        requires node { node < self.old.nodes }
        requires off { IsOnNone self.old.lists node }
        ensures { self.new ≡ with_lists self.old (slice_set self.old.lists list (nodes_in self.old.lists list ++ node ∷ [])) }
    {
        let back = self.pointers.before(list, None);
        self.pointers.join(list, node, back, None);
    }

    pub(crate) fn remove(&mut self, node: u32)
        requires { IsOnOne self.old.lists node }
        ensures { self.new ≡ with_lists self.old (map (without node) self.old.lists) }
    {
        let Some(place) = self.pointers.places[node as usize] else {
            unreachable!()
        };
        self.pointers.part(node, place);
    }

    pub(crate) fn front(&self, list: u32) -> Option<u32>
        requires { list < length self.now.lists }
        ensures front { result ≡ slice_get (nodes_in self.now.lists list) 0 }
        ensures apart { AreApart (nodes_in self.now.lists list) }
    {
        self.pointers.after(list, None)
    }

    pub(crate) fn next(&self, node: u32) -> Option<u32>
        requires { IsOnOne self.now.lists node }
        ensures { (list : ℕ) → has (nodes_in self.now.lists list) node ≡ true → result ≡ next_in (nodes_in self.now.lists list) node }
    {
        let Some(place) = self.pointers.places[node as usize] else {
            unreachable!()
        };
        place.after
    }
}
