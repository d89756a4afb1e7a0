//! An ordered list of slots, and the rings of nodes that it is made of.
ghost use Rattle.std.specs.Prelude.{◌≡◌, ◌<◌, [], ◌∷◌, ◌++◌, IfOk, IfSome, ◌^◌, ◌+◌, length, map};
ghost use Rattle.std.specs.List.{range_with_len};
ghost use Rattle.linked_table.specs.Listing.{first_of, others};
ghost use Rattle.linked_table.specs.working.Rings.{lone, unlinked, isolated, linked_last};
ghost use Rattle.linked_table.specs.RingWalks.{link_at};

use crate::table::Slot;
use edge_io::NoMemory;
use std::alloc::Global;
use std::marker::Model;

/// Some of the slots of a table, in order, none of them twice.
#[derive(Drop)]
pub struct SlotList {
    // One node for each slot, and the sentinel of the listed slots. A slot that is not listed is in
    // its own ring: unlinking it changes nothing, so removal has no branch.
    links: Rings,
    max: u32,
}

impl Model for SlotList {
    ghost use Rattle.linked_table.specs.Listing.{Listing, listing_of};
    ghost use Rattle.linked_table.specs.working.ListingRings.{IsThreaded};

    ghost Value = { Listing };

    ghost view = { λ l. listing_of l.links l.max };

    ghost invariant = { λ l. IsThreaded l.links l.max };
}

impl SlotList {
    /// Creates an empty list, for slots below `max`. For a `max` of 2^32 - 1 it returns `NoMemory`:
    /// the number of nodes does not fit 32 bits.
    pub fn open(alloc: Global, max: u32) -> Result<SlotList, NoMemory>
        ensures { IfOk result (λ list. list ≡ record { slots = []; max = max }) }
    {
        let links = Rings::open(alloc, max as usize + 1)?;
        Ok(SlotList { links, max })
    }

    /// Returns the first slot of the list.
    pub fn first(&self) -> Option<Slot>
        ensures first { result ≡ first_of self.now.slots }
        ensures below { IfSome result (λ slot. slot.0 < self.now.max) }
    {
        let hub = self.max;
        let node = self.links.after(hub);
        if node == hub {
            return None;
        }
        Some(Slot(node))
    }

    /// Puts the slot last. A slot that is already listed moves.
    pub fn put_last(&mut self, slot: Slot)
        requires { slot.0 < self.old.max }
        ensures { self.new ≡ record self.old { slots = others self.old.slots slot ++ slot ∷ [] } }
    {
        let last = self.links.before(self.max);
        if last == slot.0 {
            return;
        }
        self.links.unlink(slot.0);
        self.links.link_last(self.max, slot.0);
    }

    /// Removes the slot, if it is listed.
    pub fn take_out(&mut self, slot: Slot)
        requires { slot.0 < self.old.max }
        ensures { self.new ≡ record self.old { slots = others self.old.slots slot } }
    {
        self.links.unlink(slot.0);
        self.links.isolate(slot.0);
    }
}

/// Nodes before and after a node in its ring.
#[derive(Clone, Copy)]
pub(crate) struct Links {
    pub(crate) before: u32,
    pub(crate) after: u32,
}

impl Links {
    /// Returns the links of a node in its own ring.
    pub(crate) fn lone(node: u32) -> Links
        ensures { result ≡ lone node }
    {
        Links {
            before: node,
            after: node,
        }
    }
}

/// Returns the links of `count` nodes, numbered from `first` on, each in its own ring.
pub(crate) fn lone_links(alloc: Global, first: u32, count: u32) -> Result<Vec<Links>, NoMemory>
    requires { first + count < 2 ^ 32 }
    ensures { IfOk result (λ links. links.items ≡ map lone (range_with_len first count)) }
{
    let links = (first..first + count).map(Links::lone).collect(alloc)?;
    Ok(links)
}

/// Nodes that are linked into rings.
#[derive(Drop)]
pub(crate) struct Rings {
    links: Vec<Links>,
}

impl Model for Rings {
    ghost use Rattle.std.specs.Prelude.{List};
    ghost use Rattle.linked_table.specs.declared.list.Links.{Links};

    ghost Value = { List Links };

    ghost view = { λ rings. rings.links.items };
}

impl Rings {
    /// Creates `count` nodes, each in its own ring. For 2^32 or more it returns `NoMemory`: their
    /// number does not fit 32 bits.
    pub(crate) fn open(alloc: Global, count: usize) -> Result<Rings, NoMemory>
        ensures { IfOk result (λ rings. rings ≡ map lone (range_with_len 0 count)) }
    {
        if count > u32::MAX as usize {
            return Err(NoMemory);
        }
        let links = lone_links(alloc, 0, count as u32)?;
        Ok(Rings { links })
    }

    /// Returns the node before this one.
    pub(crate) fn before(&self, node: u32) -> u32
        requires { node < length self.now }
        ensures { result ≡ (link_at self.now node).before }
    {
        self.links[node as usize].before
    }

    /// Returns the node after this one.
    pub(crate) fn after(&self, node: u32) -> u32
        requires { node < length self.now }
        ensures { result ≡ (link_at self.now node).after }
    {
        self.links[node as usize].after
    }

    /// Links the neighbours of this node to each other.
    pub(crate) fn unlink(&mut self, node: u32)
        requires inside { node < length self.old }
        requires before_inside { (link_at self.old node).before < length self.old }
        requires after_inside { (link_at self.old node).after < length self.old }
        ensures { self.new ≡ unlinked self.old node }
    {
        let links = self.links.as_mut_slice();
        let Links { before, after } = links[node as usize];
        links[before as usize].after = after;
        links[after as usize].before = before;
    }

    /// Puts a node that is in no other ring into its own ring.
    pub(crate) fn isolate(&mut self, node: u32)
        requires { node < length self.old }
        ensures { self.new ≡ isolated self.old node }
    {
        self.links[node as usize] = Links::lone(node);
    }

    /// Links a node that is in no ring as the last before this sentinel.
    pub(crate) fn link_last(&mut self, hub: u32, node: u32)
        requires inside { node < length self.old }
        requires hub_inside { hub < length self.old }
        requires last_inside { (link_at self.old hub).before < length self.old }
        ensures { self.new ≡ linked_last self.old hub node }
    {
        let links = self.links.as_mut_slice();
        let last = links[hub as usize].before;
        links[last as usize].after = node;
        links[node as usize] = Links {
            before: last,
            after: hub,
        };
        links[hub as usize].before = node;
    }
}
