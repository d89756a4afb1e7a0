//! The table: its entries by recency, and its look-up by the hash of a key.
ghost use Rattle.std.specs.Prelude.{◌≡◌, ◌+◌, ◌<◌, ◌≤◌, ◌≢◌, ◌^◌, ◌↔◌, [], ◌∷◌, ◌++◌, length, map, false, Option, Some, IfOk, IfErr, OnErr, IsErr, IfSome, IfNone, IsNone};
ghost use Rattle.std.specs.List.{All, AllPairs, range_with_len};
ghost use Rattle.std.specs.Borrow.{sem};
ghost use Rattle.linked_table.specs.EntryTable.{IsIn, IsNotIn, HasNone, SplitAt, Wherever, Answers, IsCallableAt, PassesFirst, without, only, with_value, first_slot};
ghost use Rattle.linked_table.specs.working.SoundTable.{IsAllFree, bucket_number};
ghost use Rattle.linked_table.specs.NodeColumns.{columns};
ghost use Rattle.linked_table.specs.working.NodeLinks.{lone_node};

use crate::hash::{Hashed, Key};
use crate::list::{Links, lone_links};
use crate::node::{Node, link_chain, link_last, move_last, unlink_chain};
use edge_io::NoMemory;
use std::alloc::Global;
use std::marker::Model;
use std::mem;

/// Number of a slot, below the greatest number of entries of its table.
#[derive(Clone, Copy, Debug, PartialEq, Eq)]
pub struct Slot(pub u32);

/// Keys and values in order of recency, no key twice.
#[derive(Drop)]
pub struct LinkedTable<K: Key, V> {
    seed: u64,
    max: u32,
    // The slots, then the sentinel of the entries, from the oldest to the newest, and the sentinel
    // of the free slots.
    nodes: Vec<Node<K, V>>,
    // One sentinel for each bucket; its ring has the entries of the bucket.
    hubs: Vec<Links>,
    len: u32,
}

impl<K: Key, V> Model for LinkedTable<K, V> {
    ghost use Rattle.linked_table.specs.EntryTable.{Table, table_code};

    ghost Value = { Table K V };

    ghost coded = { table_code K.code V.code };

    ghost use Rattle.linked_table.specs.NodeColumns.{columns};
    ghost use Rattle.linked_table.specs.TableEntries.{table_of};
    ghost use Rattle.linked_table.specs.working.SoundTable.{IsSound};

    ghost view = { λ t. table_of t.max (columns t.nodes.items) t.len };

    ghost invariant = { λ t. IsSound (λ k. K.hash_of k t.seed) t.max (columns t.nodes.items) t.hubs.items t.len };
}

// Returns the bucket of a key among `buckets`.
fn bucket_of<K: Key>(hashed: &Hashed<K>, seed: u64, buckets: usize) -> u32
    requires some { 0 < buckets }
    requires few { buckets < 2 ^ 32 }
    ensures number { result ≡ bucket_number (K.hash_of hashed.now.key seed) buckets }
    ensures inside { result < buckets }
{
    let hash = hashed.hash_under(seed);
    // Keys in sequence have hashes in arithmetic progression, whose low bits alone may fall into
    // few buckets. 33 of 65,536 connections in sequence fell into one; with the product of the
    // halves it is at most 9.
    let mixed = (hash % (1 << 32)) * (hash >> 32) % (1 << 32);
    ((mixed * buckets as u64) >> 32) as u32
}

// Returns the nodes of a table of `max` free slots.
fn free_nodes<K, V>(alloc: Global, max: u32) -> Result<Vec<Node<K, V>>, NoMemory>
    requires { max + 2 < 2 ^ 32 }
    ensures { IfOk result (λ nodes. IsAllFree max (columns nodes.items)) }
{
    let mut nodes = lone_nodes(alloc, max + 2)?;
    for node in 0..max {
        link_last(&mut nodes, max + 1, node);
    }
    Ok(nodes)
}

// Returns `count` nodes, each without a pair and alone in its rings.
fn lone_nodes<K, V>(alloc: Global, count: u32) -> Result<Vec<Node<K, V>>, NoMemory>
    ensures { IfOk result (λ nodes. nodes.items ≡ map lone_node (range_with_len 0 count)) }
{
    let mut nodes = Vec::with_capacity(alloc, count as usize)?;
    for node in 0..count {
        nodes.push_reserved(Node::lone(node));
    }
    Ok(nodes)
}

// Fills an empty slot.
fn fill<T>(place: &mut Option<T>, value: T)
    requires { place.old ≡ None }
    ensures { place.new ≡ Some value }
{
    match place.replace(value) {
        None => {}
        Some(_) => unreachable!(),
    }
}

impl<K: Key, V> LinkedTable<K, V> {
    ghost use Rattle.linked_table.specs.LentValues.{lends_value};

    /// Creates a table without entries, for at most `max`. The seed decides only which keys share a
    /// bucket; no result depends on it. For a `max` of 2^31 - 1 or more it returns `NoMemory`: the
    /// numbers of the nodes do not fit 32 bits.
    pub fn open(alloc: Global, max: u32, seed: u64) -> Result<LinkedTable<K, V>, NoMemory>
        ensures { IfOk result (λ table. table ≡ record { entries = []; max = max }) }
    {
        // There are 2 * max + 3 nodes and sentinels.
        if max > (u32::MAX - 3) / 2 {
            return Err(NoMemory);
        }
        let hubs = lone_links(alloc, max + 2, max + 1)?;
        let nodes = free_nodes(alloc, max)?;
        Ok(LinkedTable {
            seed,
            max,
            nodes,
            hubs,
            len: 0,
        })
    }

    /// Returns the greatest number of entries.
    pub fn max(&self) -> u32
        ensures { result ≡ self.now.max }
    {
        self.max
    }

    /// Returns the number of entries. No slot and no key occurs twice.
    pub fn len(&self) -> u32
        ensures number { result ≡ length self.now.entries }
        ensures bounded { length self.now.entries ≤ self.now.max }
        ensures slots_below { All (λ e. e.slot.0 < self.now.max) self.now.entries }
        ensures slots_apart { AllPairs (λ e f. e.slot ≢ f.slot) self.now.entries }
        ensures keys_apart { AllPairs (λ e f. e.key ≢ f.key) self.now.entries }
    {
        self.len
    }

    /// Returns the slot of the entry with this key. None exactly if no entry has it.
    pub fn find(&self, key: &K) -> Option<Slot>
        ensures found { IfSome result (IsIn self.now.entries) }
        ensures same_key { IfSome result (λ slot. Wherever self.now.entries slot (λ e. e.key ≡ key.now)) }
        ensures split { IfSome result (SplitAt self.now.entries) }
        ensures whichever { All (λ e. e.key ≡ key.now → result ≡ Some e.slot) self.now.entries }
        ensures absent { IsNone result ↔ HasNone self.now.entries key.now }
    {
        self.find_hashed(&self.hashed(*key))
    }

    /// Returns the key with its hash: one hash serves `find_hashed` and `insert_hashed`.
    pub fn hashed(&self, key: K) -> Hashed<K>
        ensures { result.key ≡ key }
    {
        Hashed::under(key, self.seed)
    }

    /// Returns the slot of the entry with this key.
    #[inline(always)]
    pub fn find_hashed(&self, hashed: &Hashed<K>) -> Option<Slot>
        ensures found { IfSome result (IsIn self.now.entries) }
        ensures same_key { IfSome result (λ slot. Wherever self.now.entries slot (λ e. e.key ≡ hashed.now.key)) }
        ensures split { IfSome result (SplitAt self.now.entries) }
        ensures whichever { All (λ e. e.key ≡ hashed.now.key → result ≡ Some e.slot) self.now.entries }
        ensures absent { IsNone result ↔ HasNone self.now.entries hashed.now.key }
    {
        let key = &hashed.key;
        let bucket = bucket_of(hashed, self.seed, self.hubs.len());
        let hub = self.nodes.len() as u32 + bucket;
        let mut node = self.hubs[bucket as usize].after;
        for _ in 0..self.len {
            if node == hub {
                return None;
            }
            let found = &self.nodes[node as usize];
            if let Some((own, _)) = &found.pair {
                if own == key {
                    return Some(Slot(node));
                }
            }
            node = found.chain.after;
        }
        None
    }

    /// Returns the key of the entry.
    pub fn key_at(&self, slot: Slot) -> K
        requires { IsIn self.now.entries slot }
        ensures { Wherever self.now.entries slot (λ e. result ≡ e.key) }
    {
        match &self.nodes[slot.0 as usize].pair {
            Some((key, _)) => *key,
            None => unreachable!(),
        }
    }

    /// Returns the value of the entry.
    pub fn at(&self, slot: Slot) -> &V
        requires { IsIn self.now.entries slot }
        ensures { Wherever self.now.entries slot (λ e. result.now ≡ e.value) }
    {
        match &self.nodes[slot.0 as usize].pair {
            Some((_, value)) => value,
            None => unreachable!(),
        }
    }

    /// Borrows the value of the entry mutably.
    pub fn at_mut(&mut self, slot: Slot) -> &mut V
        requires { IsIn self.old.entries slot }
        ensures* lends { sem 𝓛 (lends_value K.row V.row K.Key self.entry slot result) }
        ensures value { Wherever self.old.entries slot (λ e. result.now ≡ e.value) }
    {
        match self.nodes[slot.0 as usize].pair.as_mut() {
            Some(pair) => &mut pair.1,
            None => unreachable!(),
        }
    }

    /// Sets the value of the entry, and returns the value before.
    pub fn put(&mut self, slot: Slot, value: V) -> V
        requires { IsIn self.old.entries slot }
        ensures before { Wherever self.old.entries slot (λ e. result ≡ e.value) }
        ensures after { self.new ≡ record self.old { entries = with_value self.old.entries slot value } }
    {
        mem::replace(self.at_mut(slot), value)
    }

    /// Makes the entry the most recently touched one.
    pub fn touch(&mut self, slot: Slot)
        requires { IsIn self.old.entries slot }
        ensures { self.new ≡ record self.old { entries = without self.old.entries slot ++ only self.old.entries slot } }
    {
        let node = slot.0;
        if self.nodes[self.max as usize].recent.before == node {
            return;
        }
        move_last(&mut self.nodes, self.max, node);
    }

    /// Removes the entry, and returns its key and value.
    pub fn remove(&mut self, slot: Slot) -> (K, V)
        requires { IsIn self.old.entries slot }
        ensures taken { Wherever self.old.entries slot (λ e. result ≡ (e.key, e.value)) }
        ensures left { self.new ≡ record self.old { entries = without self.old.entries slot } }
    {
        let node = slot.0;
        move_last(&mut self.nodes, self.max + 1, node);
        unlink_chain(&mut self.nodes, &mut self.hubs, node);
        self.len -= 1;
        match self.nodes[node as usize].pair.take() {
            Some(pair) => pair,
            None => unreachable!(),
        }
    }

    /// Adds an entry as the most recently touched one, or returns the pair if the table is full.
    pub fn insert(&mut self, key: K, value: V) -> Result<Slot, (K, V)>
        requires { HasNone self.old.entries key }
        ensures full { IsErr result ↔ (length self.old.entries ≡ self.old.max) }
        ensures back { IfErr result (λ pair. pair ≡ (key, value)) }
        ensures unchanged { OnErr result (self.new ≡ self.old) }
        ensures below { IfOk result (λ slot. slot.0 < self.old.max) }
        ensures fresh { IfOk result (IsNotIn self.old.entries) }
        ensures added { IfOk result (λ slot. self.new ≡ record self.old { entries = self.old.entries ++ record { slot = slot; key = key; value = value } ∷ [] }) }
    {
        let hashed = self.hashed(key);
        self.insert_hashed(&hashed, value)
    }

    /// Adds an entry as the most recently touched one, or returns the pair if the table is full.
    pub fn insert_hashed(&mut self, hashed: &Hashed<K>, value: V) -> Result<Slot, (K, V)>
        requires { HasNone self.old.entries hashed.now.key }
        ensures full { IsErr result ↔ (length self.old.entries ≡ self.old.max) }
        ensures back { IfErr result (λ pair. pair ≡ (hashed.now.key, value)) }
        ensures unchanged { OnErr result (self.new ≡ self.old) }
        ensures below { IfOk result (λ slot. slot.0 < self.old.max) }
        ensures fresh { IfOk result (IsNotIn self.old.entries) }
        ensures added { IfOk result (λ slot. self.new ≡ record self.old { entries = self.old.entries ++ record { slot = slot; key = hashed.now.key; value = value } ∷ [] }) }
    {
        if self.len == self.max {
            return Err((hashed.key, value));
        }
        let bucket = bucket_of(hashed, self.seed, self.hubs.len());
        let free = self.nodes[self.max as usize + 1].recent.before;
        move_last(&mut self.nodes, self.max, free);
        link_chain(&mut self.nodes, &mut self.hubs, bucket, free);
        fill(&mut self.nodes[free as usize].pair, (hashed.key, value));
        self.len += 1;
        Ok(Slot(free))
    }

    /// Returns the slot of the least recently touched entry.
    pub fn oldest(&self) -> Option<Slot>
        ensures first { result ≡ first_slot self.now.entries }
        ensures inside { IfSome result (IsIn self.now.entries) }
    {
        let node = self.nodes[self.max as usize].recent.after;
        if node == self.max {
            return None;
        }
        Some(Slot(node))
    }

    /// Returns the slot of the least recently touched entry that passes the test. None if none
    /// passes.
    pub fn oldest_where<F: Fn(Slot, &V) -> bool>(&self, test: F) -> Option<Slot>
        requires { All (IsCallableAt F.Fn test) self.now.entries }
        ensures first { IfSome result (PassesFirst F.Fn test self.now.entries) }
        ensures inside { IfSome result (IsIn self.now.entries) }
        ensures absent { IfNone result (All (λ e. Answers F.Fn test e false) self.now.entries) }
    {
        let mut node = self.max;
        for _ in 0..self.len {
            node = self.nodes[node as usize].recent.after;
            let slot = Slot(node);
            let found = &self.nodes[node as usize];
            if let Some((_, value)) = &found.pair {
                if test(slot, value) {
                    return Some(slot);
                }
            }
        }
        None
    }
}
