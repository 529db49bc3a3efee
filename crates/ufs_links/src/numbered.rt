// Lists of nodes by any number of 32 bits, each node on at most one of them.
ghost use Rattle.std.specs.Prelude.{◌≡◌, ◌≢◌, ℕ, ◌+◌, ◌^◌, ◌<◌, ◌≤◌, true, [], ◌∷◌, ◌++◌, length, map, slice_get, slice_set, Some, None, IfSome, IfNone, IfOk, OnOk, max, vec_len};
ghost use Rattle.ufs_links.specs.Nodes.{has, nodes_in, next_in, without, IsOnNone, IsOnOne};
ghost use Rattle.ufs_links.specs.NodeLists.{with_lists};
ghost use Rattle.ufs_links.specs.Numbered.{number_at, own_of, bucket_of, slot_in, AreSorted, Finds};

use crate::lists::Lists;
use std::alloc::Global;
use std::marker::Model;
use ufs_base::Memory;

/// Lists of nodes, the nodes numbered from 0 and the lists by any number, seen as the number of nodes that there are
/// places for and the lists in order. Each node owns a slot, in which it can begin a list without memory: a node on no
/// list owns an empty one.
#[derive(Drop)]
pub(crate) struct NumberedLists {
    // The nodes in each slot.
    slots: Lists,
    // The slots that aren't empty, in the buckets of their lists' numbers.
    buckets: Lists,
    // The number of the list in each slot that isn't empty.
    numbers: Vec<u32>,
    // The slot that each node owns, where it isn't the one of the node's own number.
    own: Vec<Option<u32>>,
}

impl Model for NumberedLists {
    ghost use Rattle.ufs_links.specs.NodeLists.{NodeLists, node_lists_code};

    ghost Value = { NodeLists };

    ghost coded = { node_lists_code };

    ghost use Rattle.ufs_links.specs.Numbered.{numbered, IsNumbered};

    ghost view = { numbered };

    ghost invariant = { IsNumbered };
}

impl NumberedLists {
    ghost use Rattle.ufs_links.specs.NodeLists.{empty_lists};

    /// No nodes. Every list is empty.
    pub(crate) fn new(alloc: Global) -> Self
        ensures nodes { result.nodes ≡ 0 }
        ensures lists { result.lists ≡ empty_lists }
    {
        NumberedLists {
            slots: Lists::new(alloc),
            buckets: Lists::new(alloc),
            numbers: Vec::new(alloc),
            own: Vec::new(alloc),
        }
    }

    /// Makes places for nodes below `nodes`, and no more than that or than there were.
    pub(crate) fn reserve_nodes(&mut self, nodes: usize) -> Result<(), Memory>
        requires { nodes < 2 ^ 32 }
        ensures room { OnOk result (nodes ≤ self.new.nodes) }
        ensures kept { self.old.nodes ≤ self.new.nodes }
        ensures most { self.new.nodes ≤ max nodes self.old.nodes }
        ensures lists { self.new.lists ≡ self.old.lists }
    {
        if nodes <= self.own.len() {
            return Ok(());
        }
        add_numbers(&mut self.numbers, nodes)?;
        add_buckets(&self.numbers, &self.slots, &mut self.buckets, nodes)?;
        add_slots(&mut self.slots, nodes)?;
        add_own(&mut self.own, nodes)
    }

    pub(crate) fn list_of(&self, node: u32) -> Option<u32>
        ensures on { IfSome result (λ list. has (nodes_in self.now.lists list) node ≡ true) }
        ensures off { IfNone result (IsOnNone self.now.lists node) }
    {
        match self.slots.list_of(node) {
            Some(slot) => Some(self.numbers[slot as usize]),
            None => None,
        }
    }

    pub(crate) fn add_front(&mut self, list: u32, node: u32)
        requires node { node < self.old.nodes }
        requires off { IsOnNone self.old.lists node }
        ensures { self.new ≡ with_lists self.old (slice_set self.old.lists list (node ∷ nodes_in self.old.lists list)) }
    {
        match slot_of(&self.numbers, &self.buckets, list) {
            Some(slot) => self.slots.add_front(slot, node),
            None => {
                let slot = own_slot(&self.own, node);
                name_slot(&mut self.numbers, &mut self.buckets, slot, list);
                self.slots.add_front(slot, node);
            }
        }
    }

    pub(crate) fn add_back(&mut self, list: u32, node: u32)
        requires node { node < self.old.nodes }
        requires off { IsOnNone self.old.lists node }
        ensures { self.new ≡ with_lists self.old (slice_set self.old.lists list (nodes_in self.old.lists list ++ node ∷ [])) }
    {
        match slot_of(&self.numbers, &self.buckets, list) {
            Some(slot) => self.slots.add_back(slot, node),
            None => {
                let slot = own_slot(&self.own, node);
                name_slot(&mut self.numbers, &mut self.buckets, slot, list);
                self.slots.add_back(slot, node);
            }
        }
    }

    pub(crate) fn remove(&mut self, node: u32)
        requires { IsOnOne self.old.lists node }
        ensures { self.new ≡ with_lists self.old (map (without node) self.old.lists) }
    {
        let Some(slot) = self.slots.list_of(node) else {
            unreachable!()
        };
        self.slots.remove(node);
        match self.slots.front(slot) {
            Some(next) => pass_slot(&mut self.own, slot, node, next),
            None => self.buckets.remove(slot),
        }
    }

    pub(crate) fn front(&self, list: u32) -> Option<u32>
        ensures { result ≡ slice_get (nodes_in self.now.lists list) 0 }
    {
        match slot_of(&self.numbers, &self.buckets, list) {
            Some(slot) => self.slots.front(slot),
            None => None,
        }
    }

    pub(crate) fn next(&self, node: u32) -> Option<u32>
        requires { IsOnOne self.now.lists node }
        ensures { (list : ℕ) → has (nodes_in self.now.lists list) node ≡ true → result ≡ next_in (nodes_in self.now.lists list) node }
    {
        self.slots.next(node)
    }
}

// The bucket of a list.
fn bucket_of(buckets: &Lists, list: u32) -> u32
    requires { 0 < length buckets.now.lists }
    ensures bucket { result ≡ bucket_of buckets.now.lists list }
    ensures there { result < length buckets.now.lists }
{
    (list as u64 % buckets.list_count() as u64) as u32
}

// The slot of a list that isn't empty.
fn slot_of(numbers: &Vec<u32>, buckets: &Lists, list: u32) -> Option<u32>
    requires { (b s : ℕ) → has (nodes_in buckets.now.lists b) s ≡ true → s < vec_len numbers.now }
    ensures { result ≡ slot_in (number_at numbers.now.items) (nodes_in buckets.now.lists (bucket_of buckets.now.lists list)) list }
{
    if buckets.list_count() == 0 {
        return None;
    }
    let bucket = bucket_of(buckets, list);
    let mut at = buckets.front(bucket);
    while let Some(slot) = at {
        if numbers[slot as usize] == list {
            return Some(slot);
        }
        at = buckets.next(slot);
    }
    None
}

// The slot that a node owns.
fn own_slot(own: &Vec<Option<u32>>, node: u32) -> u32
    requires { node < vec_len own.now }
    ensures { result ≡ own_of own.now.items node }
{
    match own[node as usize] {
        Some(slot) => slot,
        None => node,
    }
}

// Gives an empty slot to a list.
fn name_slot(numbers: &mut Vec<u32>, buckets: &mut Lists, slot: u32, list: u32)
    requires some { 0 < length buckets.old.lists }
    requires there { slot < buckets.old.nodes }
    requires numbered { slot < vec_len numbers.old }
    requires off { IsOnNone buckets.old.lists slot }
    ensures named { number_at numbers.new.items slot ≡ list }
    ensures others { (s : ℕ) → s ≢ slot → number_at numbers.new.items s ≡ number_at numbers.old.items s }
    ensures count { vec_len numbers.new ≡ vec_len numbers.old }
    ensures listed { buckets.new ≡ with_lists buckets.old (slice_set buckets.old.lists (bucket_of buckets.old.lists list) (slot ∷ nodes_in buckets.old.lists (bucket_of buckets.old.lists list))) }
{
    numbers[slot as usize] = list;
    let bucket = bucket_of(buckets, list);
    buckets.add_front(bucket, slot);
}

// A node leaves the slot, in which another stays: where the node owns it, the two swap what they own.
fn pass_slot(own: &mut Vec<Option<u32>>, slot: u32, node: u32, next: u32)
    requires node { node < vec_len own.old }
    requires next { next < vec_len own.old }
    requires apart { next ≢ node }
    ensures kept { own_of own.old.items node ≢ slot → (n : ℕ) → own_of own.new.items n ≡ own_of own.old.items n }
    ensures passed { own_of own.old.items node ≡ slot → own_of own.new.items next ≡ slot }
    ensures taken { own_of own.old.items node ≡ slot → own_of own.new.items node ≡ own_of own.old.items next }
    ensures others { (n : ℕ) → n ≢ next → n ≢ node → own_of own.new.items n ≡ own_of own.old.items n }
    ensures count { vec_len own.new ≡ vec_len own.old }
{
    if own_slot(own, node) == slot {
        let taken = own_slot(own, next);
        own[node as usize] = Some(taken);
        own[next as usize] = Some(slot);
    }
}

// Makes numbers for so many slots.
fn add_numbers(numbers: &mut Vec<u32>, count: usize) -> Result<(), Memory>
    requires { count < 2 ^ 32 }
    ensures same { (s : ℕ) → number_at numbers.new.items s ≡ number_at numbers.old.items s }
    ensures kept { vec_len numbers.old ≤ vec_len numbers.new }
    ensures few { vec_len numbers.old < 2 ^ 32 → vec_len numbers.new < 2 ^ 32 }
    ensures most { vec_len numbers.new ≤ max count (vec_len numbers.old) }
    ensures room { OnOk result (count ≤ vec_len numbers.new) }
{
    if count > numbers.len() {
        numbers.resize(count, 0)?;
    }
    Ok(())
}

// Makes places for nodes below `count`, each of which owns the slot of its own number.
fn add_own(own: &mut Vec<Option<u32>>, count: usize) -> Result<(), Memory>
    ensures same { (n : ℕ) → own_of own.new.items n ≡ own_of own.old.items n }
    ensures kept { vec_len own.old ≤ vec_len own.new }
    ensures few { (most : ℕ) → vec_len own.old ≤ most → count ≤ most → vec_len own.new ≤ most }
    ensures most { vec_len own.new ≤ max count (vec_len own.old) }
    ensures room { OnOk result (count ≤ vec_len own.new) }
{
    if count > own.len() {
        own.resize(count, None)?;
    }
    Ok(())
}

// Makes so many slots, and places in them for so many nodes.
fn add_slots(slots: &mut Lists, count: usize) -> Result<(), Memory>
    requires { count < 2 ^ 32 }
    ensures same { (s : ℕ) → nodes_in slots.new.lists s ≡ nodes_in slots.old.lists s }
    ensures kept { length slots.old.lists ≤ length slots.new.lists }
    ensures kept_nodes { slots.old.nodes ≤ slots.new.nodes }
    ensures most_nodes { slots.new.nodes ≤ max count slots.old.nodes }
    ensures few { (most : ℕ) → length slots.old.lists ≤ most → count ≤ most → length slots.new.lists ≤ most }
    ensures room { OnOk result (count ≤ length slots.new.lists) }
    ensures room_nodes { OnOk result (count ≤ slots.new.nodes) }
{
    slots.reserve_nodes(count)?;
    let there = slots.list_count();
    if count > there {
        slots.add_lists(count - there)?;
    }
    Ok(())
}

// Makes places for so many slots in as many buckets. Where there are too few buckets, the slots are sorted anew into
// twice as many or more.
fn add_buckets(
    numbers: &Vec<u32>,
    slots: &Lists,
    buckets: &mut Lists,
    count: usize,
) -> Result<(), Memory>
    requires numbered { length slots.now.lists ≤ vec_len numbers.now }
    requires few { vec_len numbers.now < 2 ^ 32 }
    requires count { count ≤ vec_len numbers.now }
    requires finds { Finds (number_at numbers.now.items) (nodes_in slots.now.lists) buckets.old.lists }
    ensures finds { Finds (number_at numbers.now.items) (nodes_in slots.now.lists) buckets.new.lists }
    ensures kept { length buckets.old.lists ≤ length buckets.new.lists }
    ensures listed { length slots.now.lists ≤ buckets.old.nodes → length slots.now.lists ≤ buckets.new.nodes }
    ensures room { OnOk result (count ≤ length buckets.new.lists) }
    ensures room_slots { OnOk result (count ≤ buckets.new.nodes) }
    ensures enough { count ≤ length buckets.old.lists → length buckets.new.lists ≡ length buckets.old.lists }
    ensures most { length buckets.new.lists ≤ count + length buckets.old.lists }
{
    let there = buckets.list_count();
    if count <= there {
        return buckets.reserve_nodes(count);
    }
    *buckets = sorted(numbers, slots, count + there)?;
    Ok(())
}

// So many buckets, with the slots that aren't empty.
fn sorted(numbers: &Vec<u32>, slots: &Lists, count: usize) -> Result<Lists, Memory>
    requires numbered { length slots.now.lists ≤ vec_len numbers.now }
    requires few { vec_len numbers.now < 2 ^ 32 }
    requires some { 0 < count }
    requires count { count < 2 ^ 40 }
    ensures finds { IfOk result (λ buckets. Finds (number_at numbers.now.items) (nodes_in slots.now.lists) buckets.lists) }
    ensures count { IfOk result (λ buckets. length buckets.lists ≡ count) }
    ensures nodes { IfOk result (λ buckets. vec_len numbers.now ≤ buckets.nodes) }
{
    let mut buckets = Lists::new(*numbers.allocator());
    buckets.reserve_nodes(numbers.len())?;
    buckets.add_lists(count)?;
    for slot in 0..slots.list_count() {
        sort_slot(numbers, slots, &mut buckets, slot as u32);
    }
    Ok(buckets)
}

// Puts a slot that isn't empty into its bucket.
fn sort_slot(numbers: &Vec<u32>, slots: &Lists, buckets: &mut Lists, slot: u32)
    requires numbered { slot < vec_len numbers.now }
    requires there { slot < length slots.now.lists }
    requires listed { slot < buckets.old.nodes }
    requires some { 0 < length buckets.old.lists }
    requires sorted { AreSorted slot (number_at numbers.now.items) (nodes_in slots.now.lists) buckets.old.lists }
    ensures sorted { AreSorted (slot + 1) (number_at numbers.now.items) (nodes_in slots.now.lists) buckets.new.lists }
    ensures nodes { buckets.new.nodes ≡ buckets.old.nodes }
    ensures count { length buckets.new.lists ≡ length buckets.old.lists }
{
    if let Some(_node) = slots.front(slot) {
        let bucket = bucket_of(buckets, numbers[slot as usize]);
        buckets.add_front(bucket, slot);
    }
}
